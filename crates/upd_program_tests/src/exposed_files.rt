//! A library into which others could put commits, by its folder or by the log beside its file: no command opens it.
//! Rule 10.48.3.
use crate::console::{fresh, is_gone, library, remove, without_log};
use crate::file_sessions::{NO_LIBRARY, SILENT, Step, stays, take_all};
use crate::lone_logs::logged;
use std::fs;
use std::os::unix::fs::{PermissionsExt, chown, symlink};
use std::os::unix::net::UnixListener;
use std::test::Fail;
use upd_keep::Situation;

const INIT_FAILS: Step<'static> = Step::Answers("init", &[], "", NO_LIBRARY);

/// All steps are as they say while a folder has this mode.
fn take_under(
    rt: &HostRuntime,
    folder: &str,
    mode: u32,
    file: &str,
    steps: &[Step<'_>],
) -> Result<(), Fail> {
    fs::set_permissions(rt, folder, fs::Permissions::from_mode(mode))?;
    take_all(rt, file, steps)
}

#[test]
fn a_library_in_an_open_folder_is_refused(rt: HostRuntime) -> Result<(), Fail> {
    const UNMADE: &[Step<'_>] = &[INIT_FAILS, Step::Is(Situation::OpenFolder)];
    const OPEN: &str = "upd: everybody may write its folder, and so put another file or log there: \
`chmod o-w` or `chmod +t` on the folder\n";
    /// What is tried on a library in a folder that everybody may write.
    const IN_OPEN_FOLDER: &[Step<'_>] = &[
        INIT_FAILS,
        Step::AllAnswer(NO_LIBRARY),
        Step::Is(Situation::OpenFolder),
        Step::Answers("examine", &[], "", (3, "", OPEN)),
    ];
    const MADE: &[Step<'_>] = &[Step::Answers("init", &[], "", SILENT)];
    const READ: &[Step<'_>] = &[Step::Writes("idents", &[], "")];
    let folder = fresh(&rt, "open")?;
    let file = format!(in rt.alloc(); "{}/a.db", folder.as_str())?;
    fs::create_dir(&rt, folder.as_str())?;
    take_under(&rt, &folder, 0o777, &file, UNMADE)?;
    is_gone(&rt, &file)?;
    take_under(&rt, &folder, 0o1777, &file, MADE)?;
    take_under(&rt, &folder, 0o777, &file, IN_OPEN_FOLDER)?;
    take_under(&rt, &folder, 0o775, &file, READ)?;
    fs::write(&rt, file.as_str(), b"")?;
    take_under(&rt, &folder, 0o777, &file, UNMADE)?;
    remove(&rt, &file)?;
    Ok(fs::remove_dir(&rt, folder.as_str())?)
}

const OTHER: u32 = 65_533;

/// The log of the file's owner is taken, and, where the test may change owners, that of another user is refused.
#[test]
fn a_log_of_another_user_is_refused(rt: HostRuntime) -> Result<(), Fail> {
    const FOREIGN: &str =
        "upd: the log beside it, FILE-wal, is another user's, who may be at work: \
once that user has run `upd spool FILE </dev/null`, remove it\n";
    /// What is tried on a library with the log of another user.
    const BESIDE_FOREIGN_LOG: &[Step<'_>] = &[
        INIT_FAILS,
        Step::AllAnswer(NO_LIBRARY),
        Step::Is(Situation::ForeignLog),
        Step::Answers("examine", &[], "", (3, "", FOREIGN)),
    ];
    let file = logged(&rt, "owned")?;
    let log = format!(in rt.alloc(); "{}-wal", file.as_str())?;
    if chown(&rt, log.as_str(), Some(OTHER), None).is_ok() {
        take_all(&rt, &file, BESIDE_FOREIGN_LOG)?;
        chown(&rt, file.as_str(), Some(OTHER), None)?;
    }
    take_all(&rt, &file, &[Step::Writes("sites", &[], "LYON 3 3 4 0\n")])?;
    remove(&rt, &file)
}

/// A log of another user is refused though it has no frame, and an empty file of another user is none for `init`.
#[test]
fn an_empty_log_or_file_of_another_user_is_refused(rt: HostRuntime) -> Result<(), Fail> {
    const FOREIGN_LOG: &[Step<'_>] = &[INIT_FAILS, Step::Is(Situation::ForeignLog)];
    const FOREIGN: &str =
        "upd: the file is empty, and another user's: remove it, and `upd init` makes a library\n";
    const FOREIGN_FILE: &[Step<'_>] = &[
        INIT_FAILS,
        Step::AllAnswer(NO_LIBRARY),
        Step::Is(Situation::ForeignEmpty),
        Step::Answers("examine", &[], "", (3, "", FOREIGN)),
        Step::Has(b""),
    ];
    let file = fresh(&rt, "foreign")?;
    let log = format!(in rt.alloc(); "{}-wal", file.as_str())?;
    fs::write(&rt, log.as_str(), b"")?;
    if chown(&rt, log.as_str(), Some(OTHER), None).is_ok() {
        take_all(&rt, &file, FOREIGN_LOG)?;
        is_gone(&rt, &file)?;
        fs::write(&rt, file.as_str(), b"")?;
        take_all(&rt, &file, FOREIGN_LOG)?;
        fs::remove_file(&rt, log.as_str())?;
        fs::write(&rt, file.as_str(), b"")?;
        chown(&rt, file.as_str(), Some(OTHER), None)?;
        take_all(&rt, &file, FOREIGN_FILE)?;
    }
    remove(&rt, &file)
}

/// A link in a folder of its own leads to the library: its log is the one beside the library.
#[test]
fn a_link_leads_to_the_log_beside_the_library(rt: HostRuntime) -> Result<(), Fail> {
    const REFUSED: &[Step<'_>] = &[Step::AllAnswer(NO_LIBRARY), Step::Is(Situation::ForeignLog)];
    const GONE: &[Step<'_>] = &[INIT_FAILS, Step::Is(Situation::NoTarget)];
    let (file, link) = (logged(&rt, "target")?, fresh(&rt, "link")?);
    symlink(&rt, file.as_str(), link.as_str())?;
    let log = format!(in rt.alloc(); "{}-wal", file.as_str())?;
    if chown(&rt, log.as_str(), Some(OTHER), None).is_ok() {
        take_all(&rt, &link, REFUSED)?;
    }
    remove(&rt, &file)?;
    take_all(&rt, &link, GONE)?;
    remove(&rt, &link)
}

/// The folder is named in its open mode, and else what is wrong with the log.
fn is_named(rt: &HostRuntime, folder: &str, file: &str, of_log: Situation) -> Result<(), Fail> {
    take_under(rt, folder, 0o777, file, &[Step::Is(Situation::OpenFolder)])?;
    take_under(rt, folder, 0o755, file, &[Step::Is(of_log)])
}

/// Of an open folder and a log in it that can't be taken, the folder is named; of the log, its owner before its kind.
/// Rule 10.88.
#[test]
fn an_open_folder_is_named_before_a_log(rt: HostRuntime) -> Result<(), Fail> {
    let folder = fresh(&rt, "before")?;
    let file = format!(in rt.alloc(); "{folder}/a.db")?;
    let log = format!(in rt.alloc(); "{file}-wal")?;
    fs::create_dir(&rt, folder.as_str())?;
    fs::create_dir(&rt, log.as_str())?;
    fs::write(&rt, file.as_str(), b"*DECK A\n")?;
    is_named(&rt, &folder, &file, Situation::ClosedLog)?;
    if chown(&rt, log.as_str(), Some(OTHER), None).is_ok() {
        is_named(&rt, &folder, &file, Situation::ForeignLog)?;
    }
    fs::remove_dir(&rt, log.as_str())?;
    remove(&rt, &file)?;
    Ok(fs::remove_dir(&rt, folder.as_str())?)
}

/// What is tried on whatever is beside a log that can't be opened.
const BESIDE_CLOSED_LOG: &[Step<'_>] = &[
    INIT_FAILS,
    Step::AllAnswer(NO_LIBRARY),
    Step::Is(Situation::ClosedLog),
    Step::Answers("examine", &[], "", (3, "", CLOSED)),
];

const CLOSED: &str =
    "upd: the log beside it, FILE-wal, can't be opened: let the user read and write it; \
a folder, link or database there must go\n";

/// A log that can't be opened is named, and no library is made beside it.
#[test]
fn a_folder_in_place_of_the_log_is_named(rt: HostRuntime) -> Result<(), Fail> {
    let file = library(&rt, "closed")?;
    let log = format!(in rt.alloc(); "{}-wal", file.as_str())?;
    without_log(&rt, &file)?;
    fs::create_dir(&rt, log.as_str())?;
    stays(&rt, &file, BESIDE_CLOSED_LOG)?;
    fs::write(&rt, file.as_str(), b"")?;
    stays(&rt, &file, BESIDE_CLOSED_LOG)?;
    fs::remove_file(&rt, file.as_str())?;
    take_all(&rt, &file, BESIDE_CLOSED_LOG)?;
    is_gone(&rt, &file)?;
    fs::remove_dir(&rt, log.as_str())?;
    remove(&rt, &file)
}

/// A socket is no regular file, as a named pipe is none.
#[test]
fn a_socket_in_place_of_the_log_is_named(rt: HostRuntime) -> Result<(), Fail> {
    let file = fresh(&rt, "socket")?;
    let log = format!(in rt.alloc(); "{}-wal", file.as_str())?;
    let _listener = UnixListener::bind(&rt, log.as_str())?;
    take_all(&rt, &file, BESIDE_CLOSED_LOG)?;
    is_gone(&rt, &file)?;
    remove(&rt, &file)
}

/// No command takes a name that SQLite reads as something else, not even that of a library, and no file is made under it.
/// Rule 10.48.4.
#[test]
fn no_file_is_made_under_the_name_of_a_uri(rt: HostRuntime) -> Result<(), Fail> {
    const NAME: &str = "file:upd-uri.db";
    const REFUSED: &[Step<'_>] = &[INIT_FAILS, Step::AllAnswer(NO_LIBRARY)];
    let file = library(&rt, "named-so")?;
    for name in [":memory:", NAME] {
        take_all(&rt, name, REFUSED)?;
        take_all(&rt, name, &[Step::Is(Situation::NoFile)])?;
        is_gone(&rt, name)?;
    }
    fs::write(&rt, NAME, &fs::read(&rt, file.as_str())?)?;
    stays(&rt, NAME, REFUSED)?;
    stays(&rt, NAME, &[Step::Is(Situation::CannotOpen)])?;
    remove(&rt, NAME)?;
    remove(&rt, &file)
}
