//! Runs that are handed in only where they meet nothing that others have done. Rule 10.94.6.
use crate::file_sessions::{Step, Wanted, session};
use std::test::Fail;

/// A refused run leaves its number, and an accepted one is repeated though a younger ident has come.
#[test]
fn a_run_that_meets_others_is_not_stored(rt: HostRuntime) -> Result<(), Fail> {
    const SENT: Step<'static> = Step::Sends(&[
        ("1", "quick", "*DECK A\nONE\nTWO\nTHREE\n"),
        ("2", "quick", "*IDENT S\n*DELETE A.3\nDEUX\n"),
    ]);
    /// Of a run that meets S, and of one that doesn't.
    const MEETS: &str = "*IDENT T\n*DELETE A.4\nTROIS\n";
    const APART: &str = "*IDENT T\n*INSERT A.4\nFOUR\n";
    const NEXT: &str =
        "{\"compile\":\"\",\"idents\":[\"T\"],\"lines\":0,\"mode\":\"quick\",\"run\":1,\"site\":\"OSLO\",\
\"state\":\"accepted\"}\n";
    const STOPPED: Wanted<'_> = (1, "", "upd: 2: A.4 stands beside S.1, which came after A\n");
    const RUNS: &str = "LYON 1 quick accepted A\nLYON 2 quick accepted S\n";
    const WORDS: &[&str] = &["OSLO", "1", "quick", "A"];
    const STEPS: &[Step<'_>] = &[
        SENT,
        Step::Answers("run-at", WORDS, MEETS, STOPPED),
        Step::Writes("runs", &[], RUNS),
        Step::Answers("run-at", WORDS, APART, (0, NEXT, "")),
        Step::Answers("run-at", WORDS, APART, (0, NEXT, "")),
    ];
    session(&rt, "condition", STEPS)
}
