//! What is at a path, as far as it shows without opening a database. The system is asked first, then pure functions judge.
ghost use Rattle.std.specs.Prelude.{◌≡◌};
ghost use Rattle.upd_keep.specs.Situations.{situation_of_bytes, situation_of_kind, situation_of_path, situation_unread};

use crate::situation::Situation;
use std::fs::OpenOptions;
use std::io::ErrorKind;
use std::os::unix::fs::MetadataExt;
use std::{fs, io};
use upd_store::file::begins_as_database;
use upd_store::{is_closed_log, is_foreign_file, is_foreign_log, is_log_alone, is_open_folder};

/// Why there can't be a library at a path; None where there may be one. Nothing is made or changed.
pub(crate) fn situation_at(rt: &HostRuntime, path: &str) -> Option<Situation> {
    let found = of_path(
        is_log_alone(rt, path).unwrap_or(false),
        kind_of(rt, path),
        is_open_folder(rt, path).unwrap_or(false),
        is_foreign_log(rt, path).unwrap_or(false),
        is_closed_log(rt, path).unwrap_or(false) || has_database_as_log(rt, path).unwrap_or(false),
    );
    if found.is_some() {
        return found;
    }
    let begins = begins_as_database(rt, path).map_err(|error| error.kind());
    let writable = OpenOptions::new().read(true).write(true).open(rt, path);
    of_bytes(begins, writable.is_ok())
}

/// Whether a database is in the place of the log beside a file. Opening the file would empty it.
fn has_database_as_log(rt: &HostRuntime, path: &str) -> io::Result<bool> {
    let file = fs::canonicalize(rt, path)?;
    let log = format!(in rt.alloc(); "{}-wal", file.as_str())?;
    begins_as_database(rt, log.as_str())
}

/// The first situation that a path shows (rule 10.88): `kind` is what is there.
fn of_path(
    log_alone: bool,
    kind: Option<Situation>,
    open_folder: bool,
    foreign_log: bool,
    closed_log: bool,
) -> Option<Situation>
    ensures { result ≡ situation_of_path log_alone kind open_folder foreign_log closed_log }
{
    match kind {
        _ if log_alone => Some(Situation::LogAlone),
        None | Some(Situation::NoFile | Situation::Empty | Situation::ForeignEmpty) => {
            if open_folder {
                Some(Situation::OpenFolder)
            } else if foreign_log {
                Some(Situation::ForeignLog)
            } else if closed_log {
                Some(Situation::ClosedLog)
            } else {
                kind
            }
        }
        _ => kind,
    }
}

/// Why there can be no library in what is at a path; None where it is a file with bytes.
fn kind_of(rt: &HostRuntime, path: &str) -> Option<Situation> {
    match fs::metadata(rt, path) {
        Ok(found) => of_kind(
            found.is_dir(),
            found.is_file(),
            found.nlink(),
            found.len(),
            is_foreign_file(rt, path).unwrap_or(false),
        ),
        Err(error) => match of_reading(error.kind()) {
            Situation::NoFile if fs::symlink_metadata(rt, path).is_ok() => Some(
                Situation::NoTarget,
            ),
            situation => Some(situation),
        },
    }
}

/// Why there can be no library in what has this number of names and of bytes, and may be another user's.
fn of_kind(
    is_folder: bool,
    is_file: bool,
    names: u64,
    length: u64,
    foreign: bool,
) -> Option<Situation>
    ensures { result ≡ situation_of_kind is_folder is_file names length foreign }
{
    if is_folder {
        return Some(Situation::Folder);
    }
    if !is_file {
        return Some(Situation::NotRegular);
    }
    if names != 1 {
        return Some(Situation::SecondName);
    }
    match length {
        0 if foreign => Some(Situation::ForeignEmpty),
        0 => Some(Situation::Empty),
        _ => None,
    }
}

/// Why there can be no library in a file that begins so, or can't be read: whether it does as SQLite's do, and whether the
/// user may write it.
fn of_bytes(begins: Result<bool, ErrorKind>, writable: bool) -> Option<Situation>
    ensures { result ≡ situation_of_bytes begins writable }
{
    match begins {
        Ok(true) if writable => None,
        Ok(true) => Some(Situation::ReadOnly),
        Ok(false) => Some(Situation::NotSqlite),
        Err(kind) => Some(of_reading(kind)),
    }
}

fn of_reading(kind: ErrorKind) -> Situation
    ensures { result ≡ situation_unread kind }
{
    match kind {
        ErrorKind::NotFound | ErrorKind::NotADirectory => Situation::NoFile,
        ErrorKind::UnexpectedEof => Situation::NotSqlite,
        ErrorKind::PermissionDenied => Situation::NoPermission,
        _ => Situation::CannotOpen,
    }
}
