//! What sites do with a library: they make it, send runs, settle, and ask.
use crate::console::{fresh, library, remove};
use crate::file_sessions::{Step, Wanted, session_without_file, take_all};
use std::test::Fail;

#[test]
fn sites_send_settle_and_ask(rt: HostRuntime) -> Result<(), Fail> {
    const EMPTY_REPLY: &str =
        "{\"compile\":\"\",\"idents\":[],\"lines\":0,\"mode\":\"quick\",\"run\":1,\"site\":\"LYON\",\
\"state\":\"accepted\"}\n";
    /// Of run 1 of LYON, which has no cards.
    const EMPTY: Wanted<'static> = (0, EMPTY_REPLY, "");
    const CUT: Wanted<'static> = (1, EMPTY_REPLY, "upd: CutFrame (31) at 2\n");
    const CHANGED: &str = "{\"at\":0,\"fault\":26,\"name\":\"RunChanged\"}\n";
    const SETTLED: &str = "{\"at\":0,\"fault\":27,\"name\":\"Settled\"}\n";
    const COMPILED: &str =
        "ONE                                                                              A             2\n";
    const HISTORY: &str = "CARD A.2\nDECK A\nTEXT ONE\nSTATUS active\nENTRY A on\n";
    const TENTH: Wanted<'static> = (
        1,
        "{\"at\":1,\"fault\":9,\"mode\":\"full\",\"name\":\"TextNowhere\",\"run\":10,\"site\":\"LYON\",\
\"state\":\"refused\"}\n",
        "",
    );
    const RUNS: &str = "LYON 9 quick accepted A\nLYON 10 full TextNowhere\n";
    const SITES: &str = "LYON 8 10 11 207\nOSLO 999999998 999999998 999999999 0\n";
    const STEPS: &[Step<'_>] = &[
        Step::New("a spool is answered line by line (rule 10.43)"),
        Step::Answers("spool", &[], "RUN LYON 1 quick 0\n\nRUN LYON", CUT),
        Step::Shows("a run acts once (rules 10.5 and 10.6)"),
        Step::Answers("run", &["LYON", "1", "quick"], "", EMPTY),
        Step::Answers("run", &["LYON", "1", "full"], "", (1, CHANGED, "")),
        Step::Shows("a refusal is repeated (rule 10.9)"),
        Step::Answers("run", &["LYON", "10", "full"], "HELLO\n", TENTH),
        Step::Answers("run", &["LYON", "10", "full"], "HELLO\n", TENTH),
        Step::Shows("settled runs are refused, and a mark never falls (rules 10.8 and 10.15)"),
        Step::Settles("LYON", "8", "8"),
        Step::Settles("LYON", "3", "8"),
        Step::Answers("run", &["LYON", "1", "quick"], "", (1, SETTLED, "")),
        Step::Shows("queries are answered (rule 10.18)"),
        Step::Accepts("9", "quick", "*DECK A\nONE\n"),
        Step::Writes("list", &["A"], "DECK A\nA A.1 *DECK A\nA A.2 ONE\n"),
        Step::Writes("history", &["A.2"], HISTORY),
        Step::Writes("yanks", &[], ""),
        Step::Writes("compile", &[], COMPILED),
        Step::Shows("stored runs and sites are listed (rules 10.78 and 10.79)"),
        Step::Settles("OSLO", "999999998", "999999998"),
        Step::Writes("runs", &[], RUNS),
        Step::Writes("sites", &[], SITES),
    ];
    session_without_file(&rt, "sites", STEPS)
}

/// A file of the current schema becomes one of the second by these changes: that has no table of marks.
pub const NO_MARKS: Step<'static> = Step::Changes("DROP TABLE settled");

/// See `NO_MARKS`.
pub const SECOND_SCHEMA: Step<'static> = Step::Changes("UPDATE meta SET v = 2");

/// A copy is made, and the library has the deck and the site.
fn is_copied(rt: &HostRuntime, file: &str, copy: &str) -> Result<(), Fail> {
    let words = [copy];
    let steps = [
        Step::Accepts("999999999", "quick", "*DECK A\nONE\nTWO\nTHREE\n"),
        Step::Writes("backup", &words, ""),
    ];
    take_all(rt, file, &steps)
}

#[test]
fn a_copy_is_a_library_by_itself(rt: HostRuntime) -> Result<(), Fail> {
    const COPIED: &[Step<'_>] = &[
        Step::Writes("idents", &[], "1 A deck held\n"),
        Step::Writes("sites", &[], "LYON 0 999999999 none 125\n"),
    ];
    let (file, copy) = (library(&rt, "original")?, fresh(&rt, "copy")?);
    is_copied(&rt, &file, &copy)?;
    take_all(&rt, &copy, COPIED)?;
    remove(&rt, &copy)?;
    remove(&rt, &file)
}
