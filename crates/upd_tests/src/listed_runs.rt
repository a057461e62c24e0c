//! The lines of stored runs, made of rows. Rule 10.78.
use crate::examined_tables::{RunText, put_runs};
use std::test::Fail;
use upd_testkit::check::same_text;
use upd_views::{run_lines, run_list};

/// Five stored runs: no desk stores the last three replies.
const RUNS: &[RunText] = &[
    (8, 2, false, b"{\"name\":\"CardUnknown\"}"),
    (9, 2, true, b"{\"idents\":[\"A\",\"X+1\"]}"),
    (10, 2, true, b"{\"idents\":[\"A\""),
    (11, 2, false, b""),
    (12, 2, false, b"\"\xFF\""),
];

const LINES: &str = "\
SITEA 8 normal CardUnknown
SITEA 9 normal accepted A X+1
SITEA 10 normal accepted
SITEA 11 normal refused
SITEA 12 normal refused
";

#[test]
fn a_run_with_a_reply_that_is_not_json_is_listed(rt: HostRuntime) -> Result<(), Fail> {
    let mut runs = Vec::new(rt.alloc());
    put_runs(rt.alloc(), &mut runs, RUNS)?;
    let text = run_lines(rt.alloc(), &runs)?;
    same_text("the lines", std::str::from_utf8(&text)?, LINES)
}

#[test]
fn runs_are_listed_by_their_numbers(rt: HostRuntime) -> Result<(), Fail> {
    const TURNED: &[RunText] = &[(10, 0, false, b""), (9, 1, false, b"")];
    let mut runs = Vec::new(rt.alloc());
    put_runs(rt.alloc(), &mut runs, TURNED)?;
    let text = run_list(rt.alloc(), runs)?;
    let wanted = "SITEA 9 quick refused\nSITEA 10 full refused\n";
    same_text("the lines", std::str::from_utf8(&text)?, wanted)
}

/// The first lines of runs, and what is said of them.
const MESSAGES: [(&[u8], &str); 6] = [
    (
        b"*/ mend the tables\n*IDENT X\n",
        "SITEA 9 normal refused # mend the tables\n",
    ),
    (b"*/no blank", "SITEA 9 normal refused #no blank\n"),
    (b"*/\n*/ second\n", "SITEA 9 normal refused #\n"),
    (b"*/ a\tb\x1b\r\n", "SITEA 9 normal refused # a?b?\n"),
    (
        b"*/ it ends \r\n*IDENT X\n",
        "SITEA 9 normal refused # it ends\n",
    ),
    (b"*IDENT X\n*/ second\n", "SITEA 9 normal refused\n"),
];

#[test]
fn a_comment_on_the_first_line_is_a_message(rt: HostRuntime) -> Result<(), Fail> {
    for (bytes, line) in MESSAGES {
        let mut runs = Vec::new(rt.alloc());
        put_runs(rt.alloc(), &mut runs, &[(9, 2, false, b"")])?;
        for run in runs.iter_mut() {
            run.bytes = Vec::from_slice(rt.alloc(), bytes)?;
        }
        let text = run_lines(rt.alloc(), &runs)?;
        same_text("the line", std::str::from_utf8(&text)?, line)?;
    }
    Ok(())
}
