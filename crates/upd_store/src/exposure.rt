//! Who else could put commits into a library: by the log beside its file, or by another file or log in their place.
//!
//! Only paths are asked, before the file is opened.
ghost use Rattle.std.specs.Prelude.{◌≡◌, ◌⊎◌, IsTrue};
ghost use Rattle.upd_store.specs.Exposure.{folder_of, is_open_mode};

use crate::log_file::{log_path, real_path, unless_missing};
use std::os::unix::fs::MetadataExt;
use std::path::Path;
use std::{fs, io};

const ROOT: u32 = 0;

/// The bit of a folder's mode by which everybody may write it.
const ALL_WRITE: u32 = 0o002;

/// The bit of a folder's mode by which nobody may replace the files of others there.
const STICKY: u32 = 0o1000;

/// Whether another user could have put commits into the library at a path, or could put another in its place.
pub(crate) fn is_exposed(rt: &HostRuntime, path: &str) -> io::Result<bool> {
    Ok(is_open_folder(rt, path)? || is_foreign_log(rt, path)?)
}

/// Whether everybody may replace a file and its log: they are in a folder that everybody may write, and that is not
/// sticky. The file may be missing.
pub fn is_open_folder(rt: &HostRuntime, path: &str) -> io::Result<bool> {
    let real = real_path(rt, path)?;
    let mode = fs::metadata(rt, folder_of(real.as_str()))?.mode();
    Ok(is_open_mode(mode))
}

fn is_open_mode(mode: u32) -> bool
    ensures { result ≡ is_open_mode mode }
{
    mode & ALL_WRITE != 0 && mode & STICKY == 0
}

/// The folder of a file: the current one for a bare name.
fn folder_of(path: &str) -> &str
    ensures { result.now ≡ folder_of path.now }
{
    match Path::new(path).parent() {
        Some(folder) if !folder.as_str().is_empty() => folder.as_str(),
        _ => ".",
    }
}

/// Whether the owner of the log beside a file is neither root, nor the file's owner, nor the user that runs this process,
/// who would be the owner of a file that is missing.
pub fn is_foreign_log(rt: &HostRuntime, path: &str) -> io::Result<bool> {
    let own = own_user(rt);
    let Some(owner) = owner_of(rt, log_path(rt, path)?.as_str())? else {
        return Ok(false);
    };
    let of_file = owner_of(rt, path)?.unwrap_or(own);
    Ok(is_foreign(owner, of_file, own))
}

/// Whether the file at a path is another user's than the one that runs this process. False where there is no file.
pub fn is_foreign_file(rt: &HostRuntime, path: &str) -> io::Result<bool> {
    let own = own_user(rt);
    Ok(owner_of(rt, path)?.unwrap_or(own) != own)
}

fn is_foreign(owner: u32, of_file: u32, own: u32) -> bool
    ensures trusted { (owner ≡ 0) ⊎ (owner ≡ of_file) ⊎ (owner ≡ own) → ¬ IsTrue result }
    ensures foreign { ¬ ((owner ≡ 0) ⊎ (owner ≡ of_file) ⊎ (owner ≡ own)) → IsTrue result }
{
    owner != ROOT && owner != of_file && owner != own
}

/// The number of the user that runs this process; root's where the system has no `/proc`.
fn own_user(rt: &HostRuntime) -> u32 {
    fs::metadata(rt, "/proc/self").map_or(ROOT, |found| found.uid())
}

/// The owner of what is at a path; None where nothing is.
fn owner_of(rt: &HostRuntime, path: &str) -> io::Result<Option<u32>> {
    Ok(unless_missing(fs::metadata(rt, path))?.map(|found| found.uid()))
}
