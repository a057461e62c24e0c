//! The library in a file: opened, made and closed by the file's path.
//!
//! The log is beside the file, under the file's name followed by `-wal`. While a library is open its file is locked:
//! another program of this kind finds it in use, and so does SQLite.
ghost use Rattle.std.specs.Prelude.{◌≡◌, IfErr, IfOk, IsTrue};
ghost use Rattle.sqlite.specs.Effect.{Database};
ghost use Rattle.sqlite.specs.Files.{HoldsDatabase, file_state};
ghost use Rattle.sqlite.specs.Held.{state};
ghost use Rattle.sqlite.specs.Start.{FindsIn};
ghost use Rattle.sqlite.specs.State.{HasCleanDisk, Survives};
ghost use Rattle.sqlite_store.specs.FileStore.{view};
ghost use Rattle.sqlite_trees.specs.Tree.{Trees};
ghost use Rattle.sqlite_trees.specs.View.{IsClean};
ghost use Rattle.sqlite_wal.specs.Files.{image_at};
ghost use Rattle.upd_row_store.specs.Keeping.{IsLost};
ghost use Rattle.upd_sql.specs.Making.{no_rows};
ghost use Rattle.upd_sql.specs.Schema.{library_schema, no_schema};
ghost use Rattle.upd_sql.specs.LibraryTables.{ShowsTables};
ghost use Rattle.upd_store.specs.Beginning.{MayBegin};
ghost use Rattle.upd_store.specs.Faults.{IsUnopened};
ghost use Rattle.upd_store.specs.OpenedAgain.{Closes, OpensAgain};

use crate::exposure::{is_exposed, is_foreign_file};
use crate::log_file::{has_database_as_log, has_in_the_way, log_path};
use crate::sql_store::SqlStore;
use crate::store_faults::{fault_of, no_memory, store_at};
use sqlite::{Connection, FileFrom, FileStore, Files, Start};
use sqlite_disk::Disk;
use std::alloc::AllocError;
use std::fs::{OpenOptions, Permissions};
use std::io::Read;
use std::os::unix::fs::{OpenOptionsExt, PermissionsExt};
use std::path::Path;
use std::{fs, io};
use upd_sqlite::Rising;
use upd_text::Fault;

/// A library in a file. `S` stands for the contents of the file and its log when they were opened.
pub type FileLibrary<S> = SqlStore<FileStore<FileFrom<S>>>;

/// The bytes of a file's name that leave room for `-journal` in the 255 of a name.
const MAX_FILE_NAME: usize = 247;

/// The first bytes of each file of SQLite.
const FIRST_BYTES: &[u8; 16] = b"SQLite format 3\0";

impl<S: Start> SqlStore<FileStore<FileFrom<S>>> {
    /// Opens the library in a file. `new_has_sums` says whether an empty file would get checksums, as in
    /// `Connection::open_from`; a library's file is never empty.
    ///
    /// Where the file holds no library the fault is Store, at the version in the file, 0 where it has none. No byte of
    /// it is changed then, and a file that does not exist is not made. The fault is Store at 0, too, where the file may not
    /// be read and written, where another program has it open, where another user could put commits into it (`exposure`),
    /// where a database is in the place of its log, and where it is damaged. Out of memory is NoMemory at 0.
    pub fn open(
        rt: &HostRuntime,
        path: &str,
        new_has_sums: bool,
        start: S,
    ) -> Result<SqlStore<FileStore<FileFrom<S>>>, Fault>
        ensures found { IfOk result (λ s. HasCleanDisk (file_state s.conn) → IsTrue (file_state s.conn).is_open
            → FindsIn (image_at S.Start) (file_state s.conn)) }
        ensures ours { IfOk result (λ s. HasCleanDisk (file_state s.conn) → IsTrue (file_state s.conn).is_open
            → (file_state s.conn).committed.schema ≡ library_schema) }
        ensures unopened { IfErr result IsUnopened }
    {
        let conn = connect_with(rt, path, new_has_sums, start)?;
        match adopted(conn) {
            Ok(store) => Ok(store),
            Err(fault) => Err(fault),
        }
    }
}

/// Makes an empty library in a file, and the file where it doesn't exist, with mode 0600. Its pages end in the sums of
/// SQLite's cksumvfs: a changed byte is found by each open. Where the file has any table the fault is Store, at the
/// version in the file, 0 where it has none, and no byte of it is changed. An empty file, or one in which this call was
/// cut off, counts as no file. Where there is no file and the log beside the path has frames, where that log can't be
/// opened, where a journal is beside the path that only SQLite can play back, where the path is that of another file's log or
/// journal, where the file is another user's, where another user could put commits into the library (`exposure`), and where
/// no such file can be made, the fault is Store at 0, and no byte changes. Out of memory is NoMemory at 0.
pub fn create<S: Start>(rt: &HostRuntime, path: &str, start: S) -> Result<FileLibrary<S>, Fault>
    ensures shows { IfOk result (λ s. HasCleanDisk (file_state s.conn)
        → IsTrue (file_state s.conn).is_open × ShowsTables no_rows (file_state s.conn).committed) }
    ensures empty { IfOk result (λ s. HasCleanDisk (file_state s.conn)
        → (found : Database) × (found.schema ≡ no_schema)
        × ((held : Trees) → HoldsDatabase (image_at S.Start) held → found.trees ≡ held)) }
    ensures unopened { IfErr result IsUnopened }
{
    spare_log(rt, path)?;
    refuse_exposed(rt, path)?;
    make_private(rt, path)?;
    let conn = connect_or_make(rt, path, true, start)?;
    match initialized(conn) {
        Ok(store) => Ok(store),
        Err(fault) => Err(fault),
    }
}

/// Store at 0 where a new file would have its log written over frames of another, or could have none, where a journal is
/// beside it, or where it would be another file's log or journal.
fn spare_log(rt: &HostRuntime, path: &str) -> Result<(), Fault>
    ensures unopened { IfErr result IsUnopened }
{
    match has_in_the_way(rt, path) {
        Ok(false) => Ok(()),
        Ok(true) => Err(store_at(0)),
        Err(error) => Err(file_fault(error)),
    }
}

/// Store at 0 where a path isn't a file's name, where another user could put commits into the library there, or that can't be
/// found out, and where a database is in the place of its log.
pub(crate) fn refuse_exposed(rt: &HostRuntime, path: &str) -> Result<(), Fault>
    ensures lost { IfErr result IsLost }
{
    if is_no_path(path) {
        return Err(store_at(0));
    }
    let refused = match is_exposed(rt, path) {
        Ok(false) => has_database_as_log(rt, path),
        found => found,
    };
    match refused {
        Ok(false) => Ok(()),
        Ok(true) => Err(store_at(0)),
        Err(error) => Err(file_fault(error)),
    }
}

/// Makes an empty file that only its owner may read and write, where there isn't one. Where that fails, and where there is a file
/// of another user, the fault is Store at 0.
fn make_private(rt: &HostRuntime, path: &str) -> Result<(), Fault>
    ensures lost { IfErr result IsLost }
{
    let made = OpenOptions::new()
        .write(true)
        .create_new(true)
        .mode(0o600)
        .open(rt, path);
    match made {
        Ok(_) => close_left_log(rt, path),
        Err(error) if error.kind() == io::ErrorKind::AlreadyExists => refuse_foreign(rt, path),
        Err(error) => Err(file_fault(error)),
    }
}

/// Leaves the rights on a log that was left where a file was made to its owner only.
fn close_left_log(rt: &HostRuntime, path: &str) -> Result<(), Fault>
    ensures lost { IfErr result IsLost }
{
    let closed = match log_path(rt, path) {
        Ok(log) => close_file(rt, log.as_str()),
        Err(error) => Err(error),
    };
    match closed {
        Ok(()) => Ok(()),
        Err(error) => Err(file_fault(error)),
    }
}

/// Leaves the rights on a file to its owner only. What is no file stays as it is.
fn close_file(rt: &HostRuntime, path: &str) -> io::Result<()> {
    match fs::symlink_metadata(rt, path) {
        Ok(found) if found.is_file() => {
            fs::set_permissions(rt, path, Permissions::from_mode(0o600))
        }
        _ => Ok(()),
    }
}

/// Store at 0 where the file at a path is another user's, who could read and change what is put into it, and where it has text.
fn refuse_foreign(rt: &HostRuntime, path: &str) -> Result<(), Fault>
    ensures lost { IfErr result IsLost }
{
    match is_foreign_file(rt, path) {
        Ok(false) => refuse_text(rt, path),
        Ok(true) => Err(store_at(0)),
        Err(error) => Err(file_fault(error)),
    }
}

/// Store at 0 where a file begins as no library does, and as no file whose making was cut off.
fn refuse_text(rt: &HostRuntime, path: &str) -> Result<(), Fault>
    ensures lost { IfErr result IsLost }
{
    match begins_as_text(rt, path) {
        Ok(false) => Ok(()),
        Ok(true) => Err(store_at(0)),
        Err(error) => Err(file_fault(error)),
    }
}

/// Whether a file's first byte is neither 0, as in one whose making was cut off, nor that of a file of SQLite. What is no file
/// is not opened: that could wait for ever.
fn begins_as_text(rt: &HostRuntime, path: &str) -> io::Result<bool> {
    if !fs::metadata(rt, path)?.is_file() {
        return Ok(false);
    }
    let mut first = [0u8; 1];
    let count = fs::open(rt, path)?.read(&mut first)?;
    Ok(count == 1 && first[0] != 0 && first[0] != FIRST_BYTES[0])
}

/// Whether SQLite reads a path as something else than a file's name, or there is no room for the name of its journal.
pub fn is_no_path(path: &str) -> bool {
    let name = Path::new(path).file_name();
    path == ":memory:"
        || path.starts_with("file:")
        || name.is_some_and(|name| name.len() > MAX_FILE_NAME)
}

/// Out of memory is NoMemory, any other error of a file a failure of the store.
pub(crate) fn file_fault(error: io::Error) -> Fault
    ensures lost { IsLost result }
{
    match error.kind() {
        io::ErrorKind::OutOfMemory => no_memory(AllocError),
        _ => store_at(0),
    }
}

// Each function that names a file's store where another takes any store is dear to prove. So each has one such call.

/// The library of a connection. The connection is let go with a fault.
pub(crate) fn adopted<S: Rising + Drop>(conn: Connection<S>) -> Result<SqlStore<S>, Fault>
    ensures ours { IfOk result (λ s. HasCleanDisk (state S.Store s.conn) → IsTrue (state S.Store s.conn).is_open
        → (state S.Store s.conn).committed.schema ≡ library_schema) }
    ensures same { IfOk result (λ s. HasCleanDisk (state S.Store s.conn) → IsTrue (state S.Store s.conn).is_open
        → (state S.Store s.conn).committed ≡ (state S.Store conn).committed) }
    ensures survives { IfOk result (λ s. Survives (state S.Store conn) (state S.Store s.conn) (λ _. ⊥)) }
    ensures unopened { IfErr result IsUnopened }
{
    match SqlStore::adopt(conn) {
        Ok(store) => Ok(store),
        Err((fault, _)) => Err(fault),
    }
}

/// An empty library in the tables of a connection. The connection is let go with a fault.
fn initialized<S: Rising + Drop>(conn: Connection<S>) -> Result<SqlStore<S>, Fault>
    ensures shows { IfOk result (λ s. HasCleanDisk (state S.Store s.conn)
        → IsTrue (state S.Store s.conn).is_open × ShowsTables no_rows (state S.Store s.conn).committed) }
    ensures empty { IfOk result (λ s. HasCleanDisk (state S.Store s.conn)
        → (state S.Store conn).committed.schema ≡ no_schema) }
    ensures survives { IfOk result (λ s. Survives (state S.Store conn) (state S.Store s.conn)
        (MayBegin (state S.Store conn))) }
    ensures unopened { IfErr result IsUnopened }
{
    match SqlStore::init(conn) {
        Ok(store) => Ok(store),
        Err((fault, _)) => Err(fault),
    }
}

/// Copies the log into the file, so that the file is the whole library, and returns both. Where that fails the file and
/// its log together are the library as before, and the next open finds it.
pub fn closed<D: Disk + Drop>(conn: Connection<FileStore<D>>) -> Files<D>
    ensures { Closes result conn }
{
    match conn.close_files() {
        Ok(files) => files,
        Err((_, store)) => store.close(),
    }
}

/// Lets a library go as a crash does: its log isn't copied. Returns the store of its files. Nothing is written.
pub fn stopped<D: Disk + Drop>(library: SqlStore<FileStore<D>>) -> FileStore<D>
    ensures opens { IsClean (view result) → OpensAgain (file_state library.conn).may_leave result }
    ensures clean { IsClean (view result) → HasCleanDisk (file_state library.conn) }
{
    library.into_connection().into_store()
}

/// A connection to a file of SQLite, whatever its tables are. Where it is not such a file, or where another user could put
/// commits into it, the fault is Store at 0. A file that does not exist is not made.
pub fn connect<S: Start>(
    rt: &HostRuntime,
    path: &str,
    start: S,
) -> Result<Connection<FileStore<FileFrom<S>>>, Fault>
    ensures found { IfOk result (λ c. HasCleanDisk (file_state c) → FindsIn (image_at S.Start) (file_state c)) }
    ensures lost { IfErr result IsLost }
{
    connect_with(rt, path, false, start)
}

fn connect_with<S: Start>(
    rt: &HostRuntime,
    path: &str,
    new_has_sums: bool,
    start: S,
) -> Result<Connection<FileStore<FileFrom<S>>>, Fault>
    ensures found { IfOk result (λ c. HasCleanDisk (file_state c) → FindsIn (image_at S.Start) (file_state c)) }
    ensures lost { IfErr result IsLost }
{
    if begins_as_database(rt, path).unwrap_or(false) {
        connect_or_make(rt, path, new_has_sums, start)
    } else {
        Err(store_at(0))
    }
}

fn connect_or_make<S: Start>(
    rt: &HostRuntime,
    path: &str,
    new_has_sums: bool,
    start: S,
) -> Result<Connection<FileStore<FileFrom<S>>>, Fault>
    ensures found { IfOk result (λ c. HasCleanDisk (file_state c) → FindsIn (image_at S.Start) (file_state c)) }
    ensures lost { IfErr result IsLost }
{
    refuse_exposed(rt, path)?;
    match Connection::open_from(rt, path, new_has_sums, start) {
        Ok(conn) => Ok(conn),
        Err((error, _)) => Err(fault_of(error)),
    }
}

/// Whether a file has at most a mebibyte. One whose size isn't known is not small.
pub(crate) fn is_small(rt: &HostRuntime, path: &str) -> bool {
    match fs::metadata(rt, path) {
        Ok(found) => found.len() <= 1_048_576,
        Err(_) => false,
    }
}

/// Whether a file begins as each file of SQLite does.
pub fn begins_as_database(rt: &HostRuntime, path: &str) -> io::Result<bool> {
    if !fs::metadata(rt, path)?.is_file() {
        return Ok(false);
    }
    let mut first = [0u8; 16];
    fs::open(rt, path)?.read_exact(&mut first)?;
    Ok(first == *FIRST_BYTES)
}
