//! What `replay` answers of libraries as runs have left them, and of such that were changed by hand. Rule 10.93.
use crate::console::{accepts, ask_of, library, remove, without_log};
use crate::file_changes::change;
use crate::file_sessions::{Step, stays, take_all};
use std::fs;
use std::test::Fail;
use upd_testkit::check::{same, same_text};

const REPLIES: &str =
    "{\"compile\":\"\",\"idents\":[\"A\"],\"lines\":0,\"mode\":\"quick\",\"run\":1,\"site\":\"LYON\",\
\"state\":\"accepted\"}\n\
{\"compile\":\"\",\"idents\":[\"X\"],\"lines\":0,\"mode\":\"quick\",\"run\":5,\"site\":\"LYON\",\
\"state\":\"accepted\"}\n\
{\"compile\":\"\",\"idents\":[\"Z\"],\"lines\":0,\"mode\":\"quick\",\"run\":1,\"site\":\"OSLO\",\
\"state\":\"accepted\"}\n\
{\"at\":1,\"fault\":9,\"mode\":\"full\",\"name\":\"TextNowhere\",\"run\":4,\"site\":\"LYON\",\
\"state\":\"refused\"}\n\
{\"compile\":\"\",\"idents\":[\"Y\"],\"lines\":0,\"mode\":\"quick\",\"run\":3,\"site\":\"LYON\",\
\"state\":\"accepted\"}\n";

/// A deck, a correction, a set of another site, a refusal, and a yank. By their numbers the yank would come before what
/// it yanks, and by their sites the set after all others.
const SENT: Step<'static> = Step::Answers(
    "spool",
    &[],
    "RUN LYON 1 quick 22\n*DECK A\nONE\nTWO\nTHREE\n\nRUN LYON 5 quick 25\n*IDENT X\n*DELETE A.2\nBEE\n\n\
RUN OSLO 1 quick 9\n*IDENT Z\n\nRUN LYON 4 full 6\nHELLO\n\nRUN LYON 3 quick 17\n*IDENT Y\n*YANK X\n\n",
    (0, REPLIES, ""),
);

const SAME: Step<'static> = Step::Writes("replay", &[], "replayed: runs 5\n");

/// Runs are replayed in the order of their arrival, which changes no byte, and those of a settled library are not.
#[test]
fn libraries_are_replayed(rt: HostRuntime) -> Result<(), Fail> {
    const EMPTY: &[Step<'_>] = &[Step::Writes("replay", &[], "replayed: runs 0\n"), SENT];
    const SETTLED_LINE: &str = "upd: runs are settled, so the library can't be replayed\n";
    const SETTLED: &[Step<'_>] = &[
        Step::Settles("LYON", "1", "1"),
        Step::Answers("replay", &[], "", (1, "", SETTLED_LINE)),
    ];
    let file = library(&rt, "replayed")?;
    take_all(&rt, &file, EMPTY)?;
    stays(&rt, &file, &[SAME])?;
    take_all(&rt, &file, SETTLED)?;
    remove(&rt, &file)
}

/// A deck of 301 cards, sets S1 to S120, and a set that yanks each of them by a line of its own: 120 counted targets.
fn yanked_sets(rt: &HostRuntime) -> Result<String, Fail> {
    let lines = "X\n".repeat(rt.alloc(), 300)?;
    let mut run = format!(in rt.alloc(); "*DECK A\n{lines}")?;
    for number in 1..=120_u32 {
        write!(run, "*IDENT S{number}\n")?;
    }
    run.push_str("*IDENT Y\n")?;
    for number in 1..=120_u32 {
        write!(run, "*YANK S{number}\n")?;
    }
    Ok(run)
}

#[test]
fn a_library_of_120_counts_is_replayed(rt: HostRuntime) -> Result<(), Fail> {
    const ONE: Step<'_> = Step::Writes("replay", &[], "replayed: runs 1\n");
    let file = library(&rt, "counts-replayed")?;
    accepts(&rt, &file, "1", "quick", &yanked_sets(&rt)?)?;
    take_all(&rt, &file, &[ONE])?;
    remove(&rt, &file)
}

/// A replay of the library in this file gets this line.
fn is_parted(rt: &HostRuntime, file: &str, line: &str) -> Result<(), Fail> {
    let found = ask_of(rt, file, "replay", &[], "")?;
    same("the status", found.status, 1)?;
    same_text("the faults", std::str::from_utf8(&found.faults)?, line)
}

/// A change by hand of the tables in a file of these bytes gets this line.
fn is_found(
    rt: &HostRuntime,
    file: &str,
    bytes: &[u8],
    (sql, line): (&str, &str),
) -> Result<(), Fail> {
    without_log(rt, file)?;
    fs::write(rt, file, bytes)?;
    change(rt, file, sql)?;
    is_parted(rt, file, line)
}

/// The first difference from what the runs make is named.
#[test]
fn a_changed_library_is_found(rt: HostRuntime) -> Result<(), Fail> {
    /// One byte of the reply to run 4 is another: `\"at\":2`.
    const OTHER_BYTE: &str =
        "UPDATE runs SET reply = x'7b226174223a322c226661756c74223a392c226d6f6465223a2266756c6c222c226e616d65223a\
22546578744e6f7768657265222c2272756e223a342c\
2273697465223a224c594f4e222c227374617465223a2272656675736564227d' WHERE num = 4";
    const SWAPPED: &str = "UPDATE cards SET pos = 7 - pos WHERE ident = 'A' AND num > 2";
    /// Changes, and what is said of the first table or the first reply that is another.
    const CHANGED: &[(&str, &str)] = &[
        (
            "DELETE FROM runs WHERE site = 'OSLO'",
            "upd: the tables are others: idents\n",
        ),
        (SWAPPED, "upd: the tables are others: cards\n"),
        (
            "UPDATE counts SET n = 2",
            "upd: the tables are others: counts\n",
        ),
        (OTHER_BYTE, "upd: run LYON 4: the reply is another\n"),
        (
            "UPDATE runs SET num = 9 WHERE num = 1",
            "upd: run LYON 9: the reply is another\n",
        ),
        (
            "DELETE FROM runs WHERE num = 5",
            "upd: run LYON 3: the reply is another\n",
        ),
    ];
    let file = library(&rt, "differing")?;
    take_all(&rt, &file, &[SENT])?;
    let bytes = fs::read(&rt, file.as_str())?;
    for row in CHANGED {
        is_found(&rt, &file, &bytes, *row)?;
    }
    remove(&rt, &file)
}
