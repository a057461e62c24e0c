//! What is refused of a run as it is read: the first fault of the first line that has one, and the limits.
//! Rules 3.1 to 3.3.
use std::alloc::Global;
use std::test::Fail;
use upd_deck::read_run;
use upd_testkit::check::same_text;

/// Texts, how many times each is repeated in a run, and the fault of the run, or nothing.
const RUNS: &[(&str, usize, &str)] = &[
    ("*ID X cleanup  \r\n*/ note\n*FOO A,,\n*CA,C remark", 1, ""),
    ("*DELETE A.2,", 1, "BadField (7) at 1"),
    ("*PURGE *", 1, "BadName (5) at 1"),
    ("*IDENT X\ty", 1, "BadName (5) at 1"),
    ("*IDENT X\n*DELETE A.999999", 1, ""),
    ("*IDENT X\n*DELETE A.1000000", 1, "BadCard (6) at 2"),
    ("a\r", 1, "BadByte (3) at 1"),
    ("a\x7F", 1, "BadByte (3) at 1"),
    ("text\n*/ note\n*DELETE *\n\x01", 1, "BadCard (6) at 3"),
    ("*DECK A,\rB", 1, "BadByte (3) at 1"),
    ("*DECK ABCDEFGHIJ,", 1, "BadField (7) at 1"),
    ("*IDENT X\n*DELETE A.2,A.0", 1, "BadCard (6) at 2"),
    ("*DECK A,\n*DECK A\r \n", 1, "BadField (7) at 1"),
    ("A", 80, ""),
    ("A", 81, "LineLong (4) at 1"),
    ("\n", 2_000, ""),
    ("\n", 2_001, "TooManyLines (2) at 0"),
    ("\n", 65_537, "RunLong (1) at 0"),
];

/// A run of this text so many times has this fault as it is read, or none.
fn is_read(alloc: Global, (text, count): (&str, usize), wanted: &str) -> Result<(), Fail> {
    let run = text.repeat(alloc, count)?;
    let mut found = String::new(alloc);
    if let Err(fault) = read_run(alloc, run.as_bytes()) {
        write!(found, "{fault}")?;
    }
    same_text((text, count), found.as_str(), wanted)
}

#[test]
fn faulty_lines_and_long_runs_are_refused(rt: HostRuntime) -> Result<(), Fail> {
    for (text, count, wanted) in RUNS {
        is_read(rt.alloc(), (text, *count), wanted)?;
    }
    Ok(())
}
