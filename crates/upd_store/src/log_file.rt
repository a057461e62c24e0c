//! The log and the journal beside a library's file, as far as they show without opening the library.

ghost use Rattle.std.specs.Prelude.{◌≡◌, IfOk};
ghost use Rattle.std.specs.String.{string_bytes};
ghost use Rattle.upd_store.specs.Exposure.{log_of};

use crate::file::begins_as_database;
use std::alloc::{AllocError, Global};
use std::fs::OpenOptions;
use std::io::{ErrorKind, Read};
use std::{fs, io};

/// The bytes of the shortest log that has a frame: its header, and the header and the page of the frame.
const SHORTEST_LOG: u64 = 32 + 24 + 512;

/// Whether the log beside a file has frames, so that the file by itself may lack commits. The file may be missing.
pub fn has_frames(rt: &HostRuntime, path: &str) -> io::Result<bool> {
    let log = unless_missing(fs::metadata(rt, log_path(rt, path)?.as_str()))?;
    Ok(log.is_some_and(|found| found.is_file() && found.len() >= SHORTEST_LOG))
}

/// The path of the log beside a file.
pub(crate) fn log_path(rt: &HostRuntime, path: &str) -> io::Result<String> {
    Ok(log_of(rt.alloc(), real_path(rt, path)?.as_str())?)
}

/// The path of the log beside a file that is no link.
fn log_of(alloc: Global, file: &str) -> Result<String, AllocError>
    ensures { IfOk result (λ log. string_bytes log ≡ log_of file.now) }
{
    [file, "-wal"].concat(alloc)
}

/// Whether what is at the place of the log beside a file can't be opened as one: it is no regular file, the user may not
/// read and write it, or the system can't say what it is.
pub fn is_closed_log(rt: &HostRuntime, path: &str) -> io::Result<bool> {
    let log = log_path(rt, path)?;
    match fs::symlink_metadata(rt, log.as_str()) {
        Ok(found) if found.is_file() => {
            let opened = OpenOptions::new()
                .read(true)
                .write(true)
                .open(rt, log.as_str());
            Ok(opened.is_err())
        }
        Ok(_) => Ok(true),
        Err(error) if is_missing(error.kind()) => Ok(false),
        Err(error) if error.kind() == ErrorKind::OutOfMemory => Err(error),
        Err(_) => Ok(true),
    }
}

/// Whether what is in the place of the log beside a file is a database of SQLite: opening the file would empty it.
pub(crate) fn has_database_as_log(rt: &HostRuntime, path: &str) -> io::Result<bool> {
    let log = log_path(rt, path)?;
    match begins_as_database(rt, log.as_str()) {
        Err(error) if error.kind() == ErrorKind::OutOfMemory => Err(error),
        found => Ok(found.unwrap_or(false)),
    }
}

/// Whether no file may be made at a path for what is beside it: a log that is alone or can't be opened, a journal, or a file
/// whose log or journal it would be.
pub(crate) fn has_in_the_way(rt: &HostRuntime, path: &str) -> io::Result<bool> {
    Ok(
        is_log_alone(rt, path)?
            || is_closed_log(rt, path)?
            || has_journal(rt, path)?
            || is_beside_file(rt, path)?,
    )
}

/// Whether a path is that of the log, of the journal or of the shared memory of a file that is there. Who opens that file
/// takes what is at the path for it, and writes over it.
pub fn is_beside_file(rt: &HostRuntime, path: &str) -> io::Result<bool> {
    let file = path
        .strip_suffix("-wal")
        .or(path.strip_suffix("-journal"))
        .or(path.strip_suffix("-shm"));
    match file {
        Some(file) => {
            let found = unless_missing(fs::metadata(rt, file))?;
            Ok(found.is_some_and(|found| found.is_file()))
        }
        None => Ok(false),
    }
}

/// Whether a journal is beside a file that only SQLite can play back, or something else has its name. An empty one, and one
/// that begins with a zero, has nothing to play back.
fn has_journal(rt: &HostRuntime, path: &str) -> io::Result<bool> {
    let journal = [real_path(rt, path)?.as_str(), "-journal"].concat(rt.alloc())?;
    match unless_missing(fs::symlink_metadata(rt, journal.as_str()))? {
        Some(found) if found.is_file() => {
            let mut first = [0u8; 1];
            let count = fs::open(rt, journal.as_str())?.read(&mut first)?;
            Ok(count == 1 && first[0] != 0)
        }
        found => Ok(found.is_some()),
    }
}

/// Whether there is no file at a path, or an empty one, and the log beside it has frames. They are of a library that was
/// moved away or removed: whoever makes a file there writes its log over them. A file that is being made is not empty
/// once its log has a frame.
pub fn is_log_alone(rt: &HostRuntime, path: &str) -> io::Result<bool> {
    if length_of(rt, path)? > 0 {
        return Ok(false);
    }
    has_frames(rt, path)
}

/// The path where a link leads, or the path as it is where there is no file.
pub(crate) fn real_path(rt: &HostRuntime, path: &str) -> io::Result<String> {
    let real = match unless_missing(fs::canonicalize(rt, path))? {
        Some(real) => String::from_str(rt.alloc(), real.as_str())?,
        None => String::from_str(rt.alloc(), path)?,
    };
    Ok(real)
}

/// The bytes of a file, 0 where there isn't one.
fn length_of(rt: &HostRuntime, path: &str) -> io::Result<u64> {
    Ok(unless_missing(fs::metadata(rt, path))?.map_or(0, |found| found.len()))
}

/// What was asked of a path; None where nothing is there.
pub(crate) fn unless_missing<T: Drop>(asked: io::Result<T>) -> io::Result<Option<T>> {
    match asked {
        Ok(found) => Ok(Some(found)),
        Err(error) if is_missing(error.kind()) => Ok(None),
        Err(error) => Err(error),
    }
}

fn is_missing(kind: ErrorKind) -> bool {
    kind == ErrorKind::NotFound || kind == ErrorKind::NotADirectory
}
