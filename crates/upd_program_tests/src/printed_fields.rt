//! What is listed of a file that was changed past the program acts on no terminal. Rule 10.80.
use crate::file_sessions::{Step, session_without_file};
use std::test::Fail;

#[test]
fn changed_rows_are_printed_without_control_bytes(rt: HostRuntime) -> Result<(), Fail> {
    const DECK: &str = "*DECK A\nONE\n*IDENT X\n*DELETE A.2\n";
    /// A site that turns what follows red, and has a line end.
    const RED_SITE: Step<'static> = Step::Changes("UPDATE runs SET site = '\x1b[31m\nL'");
    const FOUND: &str = "\
runs ?[31m?L 1 has a site that no run has
runs ?[31m?L 1 has a reply that no run gets
";
    /// The reply `{"idents":["\u001b[31mX\nY"]}`.
    const RED_REPLY: &str =
        "UPDATE runs SET reply = x'7b226964656e7473223a5b225c75303031625b33316d585c6e59225d7d'";
    const RED_TEXT: &str = "UPDATE cards SET body = '\x1b[31m\nE\t2' WHERE num = 2";
    const BLAME: &str = "\
A A.1               A           *DECK A
I A.2               X           ?[31m?E\t2
";
    const STEPS: &[Step<'_>] = &[
        Step::New("a site of a changed row is printed without control bytes"),
        Step::Accepts("1", "quick", DECK),
        RED_SITE,
        Step::Writes("sites", &[], "?[31m?L 0 1 2 132\n"),
        Step::Answers("examine", &[], "", (1, "", FOUND)),
        Step::Shows("a reply and a text of changed rows are printed without control bytes"),
        Step::Changes(RED_REPLY),
        Step::Changes(RED_TEXT),
        Step::Writes("runs", &[], "?[31m?L 1 quick accepted ?[31mX?Y\n"),
        Step::Writes("blame", &["A"], BLAME),
        Step::Writes("show", &["X"], "IDENT X set\nDECK A\noff A.2 ?[31m?E\t2\n"),
        Step::Shows("a name of a changed row is read as one or not at all"),
        Step::Changes("UPDATE idents SET name = '\x1b[31m' WHERE age = 2"),
        Step::Answers("idents", &[], "", (3, "", "upd: Store (29) at 0\n")),
    ];
    session_without_file(&rt, "red", STEPS)
}
