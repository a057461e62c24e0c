//! A Unix socket that only its owner may use.
ghost use Rattle.std.specs.Prelude.{◌≡◌};
ghost use Rattle.upd_subcommands.specs.Listening.{fits_path};

use std::fs::{DirBuilder, Permissions};
use std::io::ErrorKind;
use std::os::unix::fs::{DirBuilderExt, FileTypeExt, MetadataExt, PermissionsExt};
use std::os::unix::net::{UnixListener, UnixStream};
use std::{fs, io};

/// The longest path of a socket, in bytes. The system takes 107, and the folder where it is made has a longer path.
const MAX_PATH: usize = 100;

/// Makes a socket of mode 0600 at a path, and listens there. A socket that nobody serves is replaced. The error says why
/// there isn't one.
pub(crate) fn bind_local(rt: &HostRuntime, path: &str) -> Result<UnixListener, &'static str> {
    if !fits_path(path) {
        return Err(": its path has more than 100 bytes");
    }
    if let Ok(found) = fs::symlink_metadata(rt, path) {
        if !found.file_type().is_socket() {
            return Err(": something else is there");
        }
        if !is_refused(rt, path) || fs::remove_file(rt, path).is_err() {
            return Err(": another server may use it");
        }
    }
    match make(rt, path) {
        Ok(listener) => Ok(listener),
        Err(_) => Err(": it can't be made, or PATH.new exists"),
    }
}

/// Whether a path is short enough for that of a socket.
fn fits_path(path: &str) -> bool
    ensures { result ≡ fits_path path.now }
{
    path.len() <= MAX_PATH
}

/// Whether nobody listens at a socket.
fn is_refused(rt: &HostRuntime, path: &str) -> bool {
    match UnixStream::connect(rt, path) {
        Ok(_) => false,
        Err(error) => error.kind() == ErrorKind::ConnectionRefused,
    }
}

/// Makes a socket in a folder of mode 0700, since others could connect before it has its mode. Such a folder of the same
/// user was left by a kill, and is removed first.
fn make(rt: &HostRuntime, path: &str) -> io::Result<UnixListener> {
    let folder = format!(in rt.alloc(); "{path}.new")?;
    let made = format!(in rt.alloc(); "{path}.new/s")?;
    if is_own_folder(rt, folder.as_str()) {
        let _ = fs::remove_file(rt, made.as_str());
        fs::remove_dir(rt, folder.as_str())?;
    }
    DirBuilder::new().mode(0o700).create(rt, folder.as_str())?;
    let listener = bind_in(rt, made.as_str(), path);
    let _ = fs::remove_file(rt, made.as_str());
    let _ = fs::remove_dir(rt, folder.as_str());
    listener
}

/// Whether a path is a folder, and no link, of the user that runs this process.
fn is_own_folder(rt: &HostRuntime, path: &str) -> bool {
    match (
        fs::symlink_metadata(rt, path),
        fs::metadata(rt, "/proc/self"),
    ) {
        (Ok(found), Ok(own)) => found.is_dir() && found.uid() == own.uid(),
        _ => false,
    }
}

/// Makes a socket, gives it its mode, and then its name by a link, which replaces nothing.
fn bind_in(rt: &HostRuntime, made: &str, path: &str) -> io::Result<UnixListener> {
    let listener = UnixListener::bind(rt, made)?;
    fs::set_permissions(rt, made, Permissions::from_mode(0o600))?;
    fs::hard_link(rt, made, path)?;
    Ok(listener)
}
