//! A log or a journal without its file: no command writes over what it has. Rules 10.48.2 to 10.48.4.
use crate::console::{answers, fresh, is_gone, library, remove};
use crate::file_sessions::{
    NO_LIBRARY, SILENT, Step, has_bytes, session_without_file, stays, take_all,
};
use std::fs;
use std::fs::Permissions;
use std::os::unix::fs::PermissionsExt;
use std::path::Path;
use std::test::Fail;
use upd_keep::Situation;
use upd_testkit::check::{holds, same};

const ALONE: &str =
    "upd: no file, or an empty one, beside a log, FILE-wal, with commits of a library: \
put the file of that log back, or move the log away\n";

/// What is tried at a path with a log and no library.
const REFUSED: &[Step<'_>] = &[
    Step::Answers("init", &[], "", NO_LIBRARY),
    Step::AllAnswer(NO_LIBRARY),
    Step::Is(Situation::LogAlone),
    Step::Answers("examine", &[], "", (3, "", ALONE)),
];

fn log_of(rt: &HostRuntime, file: &str) -> Result<Vec<u8>, Fail> {
    Ok(fs::read(rt, format!(in rt.alloc(); "{file}-wal")?.as_str())?)
}

/// All is refused at a path, and no byte of its log changes.
fn keeps_log(rt: &HostRuntime, file: &str) -> Result<(), Fail> {
    let before = log_of(rt, file)?;
    take_all(rt, file, REFUSED)?;
    holds("the same log", log_of(rt, file)? == before)
}

/// A library with a mark that is only in its log.
pub fn logged(rt: &HostRuntime, name: &str) -> Result<String, Fail> {
    let file = library(rt, name)?;
    let mark = Step::Logs("INSERT INTO settled (site, mark) VALUES ('LYON', 3)");
    take_all(rt, &file, &[mark])?;
    Ok(file)
}

#[test]
fn a_log_is_kept_until_its_file_is_back(rt: HostRuntime) -> Result<(), Fail> {
    let (file, moved) = (logged(&rt, "lone")?, fresh(&rt, "moved")?);
    fs::rename(&rt, file.as_str(), moved.as_str())?;
    keeps_log(&rt, &file)?;
    is_gone(&rt, &file)?;
    fs::rename(&rt, moved.as_str(), file.as_str())?;
    take_all(&rt, &file, &[Step::Writes("sites", &[], "LYON 3 3 4 0\n")])?;
    remove(&rt, &file)
}

#[test]
fn a_log_beside_an_empty_file_is_kept(rt: HostRuntime) -> Result<(), Fail> {
    let file = logged(&rt, "emptied")?;
    fs::write(&rt, file.as_str(), b"")?;
    keeps_log(&rt, &file)?;
    has_bytes(&rt, &file, b"")?;
    remove(&rt, &file)
}

/// A log with this number of bytes is without its file.
fn is_alone(rt: &HostRuntime, file: &str, bytes: usize, wanted: Situation) -> Result<(), Fail> {
    let log = format!(in rt.alloc(); "{file}-wal")?;
    fs::write(rt, log.as_str(), &vec![in rt.alloc(); 0u8; bytes]?)?;
    take_all(rt, file, &[Step::Is(wanted)])
}

/// A log has a header of 32 bytes, and each frame one of 24 and a page, which has 512 bytes at least.
#[test]
fn a_log_with_the_shortest_frame_is_named(rt: HostRuntime) -> Result<(), Fail> {
    let file = fresh(&rt, "shortest")?;
    is_alone(&rt, &file, 567, Situation::NoFile)?;
    is_alone(&rt, &file, 568, Situation::LogAlone)?;
    remove(&rt, &file)
}

const MADE: Step<'static> = Step::Answers("init", &[], "", SILENT);

#[test]
fn a_library_is_made_over_what_init_leaves(rt: HostRuntime) -> Result<(), Fail> {
    const LINE: &str = "sound: decks 0, cards 0, runs 0, replies 0";
    /// A log without a commit is beside each file. An `init` that was killed before it wrote the first page leaves a
    /// file that is empty, or one byte of 0.
    const BESIDE_ENDED_LOG: &[Step<'_>] = &[
        Step::New("after a killed init"),
        Step::File("a library is made over an empty file", b""),
        MADE,
        Step::IsSound(LINE, false),
        Step::File("a library is made over one byte of 0", b"\0"),
        MADE,
        Step::IsSound(LINE, false),
        Step::File("no library is made over somebody's letter", b"x"),
        Step::Answers("init", &[], "", NO_LIBRARY),
        Step::Has(b"x"),
    ];
    session_without_file(&rt, "ended", BESIDE_ENDED_LOG)
}

/// A journal that SQLite left is kept for its database, and so is a folder with that name. Rule 10.48.3.
#[test]
fn no_library_is_made_beside_a_journal(rt: HostRuntime) -> Result<(), Fail> {
    const REFUSED: &[Step<'_>] = &[
        Step::Answers("init", &[], "", NO_LIBRARY),
        Step::AllAnswer(NO_LIBRARY),
    ];
    let file = library(&rt, "journal")?;
    let journal = format!(in rt.alloc(); "{file}-journal")?;
    fs::write(&rt, journal.as_str(), JOURNAL)?;
    stays(&rt, &file, REFUSED)?;
    stays(&rt, &file, &[Step::Is(Situation::CannotOpen)])?;
    fs::write(&rt, file.as_str(), b"")?;
    stays(&rt, &file, REFUSED)?;
    fs::remove_file(&rt, file.as_str())?;
    take_all(&rt, &file, REFUSED)?;
    is_gone(&rt, &file)?;
    has_bytes(&rt, &journal, JOURNAL)?;
    fs::remove_file(&rt, journal.as_str())?;
    fs::create_dir(&rt, journal.as_str())?;
    take_all(&rt, &file, REFUSED)?;
    is_gone(&rt, &file)?;
    fs::remove_dir(&rt, journal.as_str())?;
    remove(&rt, &file)
}

/// How the journal of a transaction begins.
const JOURNAL: &[u8] = b"\xd9\xd5\x05\xf9\x20\xa1\x63\xd7";

/// A journal that is empty, or begins with a 0, holds nothing of a transaction.
#[test]
fn a_library_is_made_beside_an_ended_journal(rt: HostRuntime) -> Result<(), Fail> {
    let file = fresh(&rt, "played")?;
    let journal = format!(in rt.alloc(); "{file}-journal")?;
    for bytes in [b"".as_slice(), b"\0\xd5".as_slice()] {
        remove(&rt, &file)?;
        fs::write(&rt, journal.as_str(), bytes)?;
        take_all(&rt, &file, &[MADE])?;
    }
    fs::remove_file(&rt, journal.as_str())?;
    remove(&rt, &file)
}

/// Beside a file the names of its log, its journal and its shared memory aren't for a library. Rule 10.48.4.
#[test]
fn no_library_is_made_in_the_place_of_a_log(rt: HostRuntime) -> Result<(), Fail> {
    let file = library(&rt, "placed")?;
    for ending in ["-journal", "-shm", "-wal"] {
        let path = format!(in rt.alloc(); "{file}{ending}")?;
        let before = fs::read(&rt, path.as_str()).ok();
        answers(&rt, &["init", &path], "", NO_LIBRARY)?;
        holds(ending, fs::read(&rt, path.as_str()).ok() == before)?;
    }
    remove(&rt, &file)?;
    let alone = format!(in rt.alloc(); "{file}-wal")?;
    take_all(&rt, &alone, &[MADE])?;
    remove(&rt, &alone)
}

/// A library in the place of a log is no log, and stays. Rule 10.48.3.
#[test]
fn a_library_in_the_place_of_a_log_stays(rt: HostRuntime) -> Result<(), Fail> {
    const REFUSED: &[Step<'_>] = &[
        Step::Answers("init", &[], "", NO_LIBRARY),
        Step::AllAnswer(NO_LIBRARY),
    ];
    let file = fresh(&rt, "taken")?;
    let other = format!(in rt.alloc(); "{file}-wal")?;
    take_all(
        &rt,
        &other,
        &[MADE, Step::Accepts("1", "quick", "*DECK A\n")],
    )?;
    let before = fs::read(&rt, other.as_str())?;
    fs::write(&rt, file.as_str(), &before)?;
    stays(&rt, &file, REFUSED)?;
    stays(&rt, &file, &[Step::Is(Situation::ClosedLog)])?;
    has_bytes(&rt, &other, &before)?;
    remove(&rt, &other)?;
    take_all(
        &rt,
        &file,
        &[Step::Writes("idents", &[], "1 A deck held\n")],
    )?;
    remove(&rt, &file)
}

/// A log that was left beside a new file is nobody else's to read.
#[test]
fn a_left_log_is_closed_to_others(rt: HostRuntime) -> Result<(), Fail> {
    let file = fresh(&rt, "left")?;
    let log = format!(in rt.alloc(); "{}-wal", file.as_str())?;
    fs::write(&rt, log.as_str(), b"")?;
    fs::set_permissions(&rt, log.as_str(), Permissions::from_mode(0o644))?;
    take_all(&rt, &file, &[MADE])?;
    let mode = fs::metadata(&rt, log.as_str())?.permissions().mode();
    same("the rights", mode & 0o777, 0o600)?;
    remove(&rt, &file)
}

/// Where there is no room for the name of a journal, no file is made.
#[test]
fn no_library_is_made_under_a_long_name(rt: HostRuntime) -> Result<(), Fail> {
    let file = fresh(&rt, "long")?;
    let short = Path::new(file.as_str()).file_name().map_or(0, str::len);
    let more = "n".repeat(rt.alloc(), 247usize.saturating_sub(short))?;
    let name = format!(in rt.alloc(); "{}{}", file.as_str(), more.as_str())?;
    let long = format!(in rt.alloc(); "{}n", name.as_str())?;
    answers(&rt, &["init", &long], "", NO_LIBRARY)?;
    is_gone(&rt, &long)?;
    take_all(&rt, &name, &[MADE])?;
    remove(&rt, &name)
}
