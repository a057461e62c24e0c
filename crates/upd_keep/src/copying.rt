//! A whole copy of a library's file, its log included.
ghost use Rattle.std.specs.Prelude.{◌≡◌, ◌⊎◌, IfErr, IfOk, IsTrue, MatchResult, OnOk};
ghost use Rattle.std.specs.Io.KnownBytes.{Appends};
ghost use Rattle.sqlite_disk.specs.Disk.{MoreFaults};
ghost use Rattle.sqlite.specs.Files.{file_state};
ghost use Rattle.sqlite_wal.specs.Reads.{AreClean};
ghost use Rattle.upd_row_store.specs.Keeping.{IsLost};
ghost use Rattle.upd_keep.specs.Copying.{FailsToCopy, IsReadWhole, IsWholeCopy};
ghost use Rattle.upd_text.specs.declared.fault.FaultKind.TheVariants.{Store, Write};

use sqlite::{Connection, FileStore, Files};
use sqlite_disk::Disk;
use std::alloc::Global;
use std::fs::{OpenFile, OpenOptions};
use std::io::{ErrorKind, Write};
use std::os::unix::fs::{MetadataExt, OpenOptionsExt};
use std::{fs, io};
use upd_store::file::is_no_path;
use upd_store::{fault_of, is_beside_file, store_at};
use upd_text::{Fault, FaultKind};

/// The bits of a file's mode that say who may read, write and run it.
const RIGHTS: u32 = 0o777;

/// All bytes of a file. The fault is NoMemory or Store, at 0.
fn bytes_of<D: Disk>(alloc: Global, disk: &mut D) -> Result<Vec<u8>, Fault>
    requires { IsTrue (D.Disk.is_usable disk.old) }
    ensures read { IfOk result (λ bytes. IsTrue (D.Disk.is_clean disk.new) → bytes.items ≡ D.Disk.seen disk.old) }
    ensures seen { D.Disk.seen disk.new ≡ D.Disk.seen disk.old }
    ensures clean { IsTrue (D.Disk.is_clean disk.new) → IsTrue (D.Disk.is_clean disk.old) }
    ensures lost { IfErr result IsLost }
    ensures failed { IfErr result (λ fault. fault.kind ≡ Store
        → MoreFaults (D.Disk.faults disk.old) (D.Disk.faults disk.new)) }
{
    let Ok(len) = disk.len() else {
        return Err(store_at(0));
    };
    let mut bytes = vec![in alloc; 0u8; len]?;
    match disk.read_at(0, &mut bytes) {
        Ok(()) => Ok(bytes),
        Err(_) => Err(store_at(0)),
    }
}

/// Copies the log into the file, and returns the file's bytes with the files. A file with these bytes and without a log
/// is the whole database. Until the files are dropped they are locked. The fault is NoMemory or Store, at 0.
pub fn whole_copy<D: Disk + Drop>(
    alloc: Global,
    conn: Connection<FileStore<D>>,
) -> Result<(Vec<u8>, Files<D>), Fault>
    ensures copied { IfOk result (λ r. AreClean D.Disk r.1.log r.1.db
        → IsTrue (file_state conn).is_open × IsWholeCopy r.0.items (file_state conn).committed.trees) }
    ensures lost { IfErr result IsLost }
    ensures failed { IfErr result (λ fault. fault.kind ≡ Store → FailsToCopy conn) }
{
    match conn.close_files() {
        Ok(mut files) => match bytes_of(alloc, &mut files.db) {
            Ok(bytes) => Ok((bytes, files)),
            Err(fault) => Err(fault),
        },
        Err((error, store)) => {
            drop(store.close());
            Err(fault_of(error))
        }
    }
}

/// Makes a file that is a whole copy of a library's file, which `file` names. It is written under the name of the copy
/// followed by `.part`, and gets its own name last, so that a kill leaves no part of it under that name. Its rights are
/// at most those of the library's file. Write, at 0, where the copy, that part, or a log or journal beside the copy exists,
/// where its name is that of another file's log or journal, or where it can't be written; no part of it is left then. Else the faults of `whole_copy`. No clause speaks of the copy
/// itself, but only of what is written there.
pub fn backup<D: Disk + Drop>(
    rt: &HostRuntime,
    conn: Connection<FileStore<D>>,
    file: &str,
    copy: &str,
) -> Result<(), Fault>
    ensures lost { IfErr result (λ fault. IsLost fault ⊎ (fault.kind ≡ Write)) }
    ensures read { MatchResult result (λ _. IsReadWhole conn) (λ fault. fault.kind ≡ Write → IsReadWhole conn) }
    ensures failed { IfErr result (λ fault. fault.kind ≡ Store → FailsToCopy conn) }
{
    match whole_copy(rt.alloc(), conn) {
        Ok((bytes, files)) => {
            let written = write_new(rt, file, copy, &bytes);
            drop(files);
            match written {
                Ok(()) => Ok(()),
                Err(_) => Err(FaultKind::Write.without_line()),
            }
        }
        Err(fault) => Err(fault),
    }
}

/// Makes a file with these bytes and at most the rights of another, which has no log and no journal and is none of another
/// file, by a name that a library can have. The name is given by a link, since a link never replaces a file.
fn write_new(rt: &HostRuntime, model: &str, path: &str, bytes: &[u8]) -> io::Result<()> {
    let part = format!(in rt.alloc(); "{path}.part")?;
    let log = format!(in rt.alloc(); "{path}-wal")?;
    let journal = format!(in rt.alloc(); "{path}-journal")?;
    if is_no_path(path) || is_beside_file(rt, path)? {
        return Err(io::Error::from(ErrorKind::InvalidInput));
    }
    if exists(rt, path) || exists(rt, log.as_str()) || exists(rt, journal.as_str()) {
        return Err(io::Error::from(ErrorKind::AlreadyExists));
    }
    write_part(rt, model, part.as_str(), bytes)?;
    let linked = fs::hard_link(rt, part.as_str(), path);
    let removed = fs::remove_file(rt, part.as_str());
    linked?;
    let ended = removed.and_then(|()| sync_folder(rt, path));
    if ended.is_err() {
        let _ = fs::remove_file(rt, path);
    }
    ended
}

/// Whether there is anything at a path, be it a link.
fn exists(rt: &HostRuntime, path: &str) -> bool {
    fs::symlink_metadata(rt, path).is_ok()
}

/// Makes a file with these bytes and at most the rights of another. It is removed where that fails.
fn write_part(rt: &HostRuntime, model: &str, path: &str, bytes: &[u8]) -> io::Result<()> {
    let rights = fs::metadata(rt, model)?.mode() & RIGHTS;
    let mut file = OpenOptions::new()
        .write(true)
        .create_new(true)
        .mode(rights)
        .open(rt, path)?;
    let filled = fill(&mut file, rights, bytes);
    if filled.is_err() {
        let _ = fs::remove_file(rt, path);
    }
    filled
}

/// Writes bytes to a new file, and to its disk. PermissionDenied where the file has more rights than these, which a file
/// system without rights for each file can give it.
fn fill<F: OpenFile + Write>(file: &mut F, rights: u32, bytes: &[u8]) -> io::Result<()>
    ensures { OnOk result (Appends (F.contents file.old) (F.contents file.new) bytes.now) }
{
    if file.metadata()?.mode() & RIGHTS & !rights != 0 {
        return Err(io::Error::from(ErrorKind::PermissionDenied));
    }
    file.write_all(bytes)?;
    file.sync_all()
}

/// Writes the names of the folder of a file to its disk.
fn sync_folder(rt: &HostRuntime, path: &str) -> io::Result<()> {
    let mut folder = fs::canonicalize(rt, path)?;
    folder.pop();
    fs::open(rt, folder.as_str())?.sync_all()
}
