//! What the file of a library holds, and what its log.
use crate::console::{accepts, answers, fresh, library, remove};
use crate::file_changes::connected;
use crate::file_sessions::{NO_LIBRARY, SILENT, Step, Wanted, session_without_file, take_all};
use crate::site_commands::{NO_MARKS, SECOND_SCHEMA};
use sqlite::{Connection, FileStore};
use sqlite_disk::Disk;
use std::fs;
use std::net::TcpListener;
use std::test::Fail;
use upd_keep::Situation;
use upd_testkit::check::holds;

#[test]
fn the_file_is_the_library(rt: HostRuntime) -> Result<(), Fail> {
    const REPLY: &str =
        "{\"compile\":\"\",\"idents\":[\"A\"],\"lines\":0,\"mode\":\"quick\",\"run\":1,\"site\":\"LYON\",\
\"state\":\"accepted\"}\n";
    /// A frame before another, which ends too early.
    const CUT_FRAMES: &str = "RUN LYON 1 quick 12\n*DECK A\nONE\n\nRUN";
    const CUT: Wanted<'static> = (1, REPLY, "upd: CutFrame (31) at 2\n");
    const SETTLED: &str = "{\"at\":0,\"fault\":27,\"name\":\"Settled\"}\n";
    const STEPS: &[Step<'_>] = &[
        Step::New("the file without its log has what a run and a migration did"),
        Step::Accepts("9", "full", "*DECK B\nONE\n"),
        Step::LosesLog,
        NO_MARKS,
        SECOND_SCHEMA,
        Step::Writes("migrate", &[], ""),
        Step::LosesLog,
        Step::Shows("the file without its log has the runs before the cut of a spool, and a mark"),
        Step::Answers("spool", &[], CUT_FRAMES, CUT),
        Step::LosesLog,
        Step::Settles("LYON", "1", "1"),
        Step::LosesLog,
        Step::Answers("run", &["LYON", "1", "quick"], "", (1, SETTLED, "")),
        Step::Writes("idents", &[], "1 B deck held\n2 A deck held\n"),
        Step::NoFile("at a path without a file"),
        Step::File("an empty file is no library, and stays (rule 10.48.1)", b""),
        Step::AllAnswer(NO_LIBRARY),
        Step::Has(b""),
        Step::NoFile("at a path without a file"),
        Step::File(
            "a library is made in an empty file as at that path (rule 10.48.4)",
            b"",
        ),
        Step::Answers("init", &[], "", SILENT),
        Step::Writes("idents", &[], ""),
    ];
    session_without_file(&rt, "alone", STEPS)
}

/// All steps are as they say while a connection is open, which is closed then.
fn take_in_use<D: Disk + Drop>(
    rt: &HostRuntime,
    file: &str,
    conn: Connection<FileStore<D>>,
    steps: &[Step<'_>],
) -> Result<(), Fail> {
    let taken = take_all(rt, file, steps);
    let is_closed = conn.close().is_ok();
    taken?;
    holds("the connection is closed", is_closed)
}

/// A library in use is refused by all commands, and no examination looks into it. Afterwards it is as it was.
#[test]
fn a_library_in_use_is_refused(rt: HostRuntime) -> Result<(), Fail> {
    const IN_USE: &[Step<'_>] = &[Step::AllAnswer(NO_LIBRARY), Step::Is(Situation::InUse)];
    const AFTERWARDS: &[Step<'_>] = &[Step::IsSound(
        "sound: decks 0, cards 0, runs 0, replies 0",
        false,
    )];
    let file = library(&rt, "used")?;
    take_in_use(&rt, &file, connected(&rt, &file)?, IN_USE)?;
    take_all(&rt, &file, AFTERWARDS)?;
    remove(&rt, &file)
}

/// `serve` at an address that is in use has this line on the fault stream.
fn fails_to_serve(rt: &HostRuntime, file: &str, address: &str, line: &str) -> Result<(), Fail> {
    answers(rt, &["serve", file, address, "1"], "", (3, "", line))
}

#[test]
fn an_address_in_use_is_reported_after_the_file(rt: HostRuntime) -> Result<(), Fail> {
    let file = fresh(&rt, "address")?;
    let listener = TcpListener::bind(&rt, "127.0.0.1:0")?;
    let address = format!(in rt.alloc(); "{}", listener.local_addr()?)?;
    fails_to_serve(&rt, &file, &address, "upd: Store (29) at 0\n")?;
    answers(&rt, &["init", &file], "", SILENT)?;
    fails_to_serve(&rt, &file, &address, "upd: Read (32) at 0\n")?;
    remove(&rt, &file)
}

/// The first byte of a text in a file gets another bit.
fn change_byte(rt: &HostRuntime, file: &str, text: &[u8]) -> Result<(), Fail> {
    let mut bytes = fs::read(rt, file)?;
    let at = place_of(&bytes, text).ok_or("no such text in the file")?;
    if let Some(byte) = bytes.get_mut(at) {
        *byte ^= 1;
    }
    Ok(fs::write(rt, file, &bytes)?)
}

/// The place of a text in a file's bytes.
fn place_of(bytes: &[u8], text: &[u8]) -> Option<usize> {
    (0..bytes.len()).find(|&at| bytes[at..].starts_with(text))
}

/// The pages of a new library have sums, so that a card's text with one changed bit is answered in no way.
#[test]
fn a_changed_byte_of_a_card_is_found(rt: HostRuntime) -> Result<(), Fail> {
    let file = library(&rt, "summed")?;
    accepts(&rt, &file, "1", "quick", "*DECK A\nUNCHANGED\n")?;
    change_byte(&rt, &file, b"UNCHANGED")?;
    take_all(&rt, &file, &[Step::WaysAnswer(NO_LIBRARY)])?;
    remove(&rt, &file)
}
