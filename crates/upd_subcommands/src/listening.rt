//! The lines of a server that say where it listens, or why there is no socket.
ghost use Rattle.std.specs.Prelude.{◌≡◌, IfSome};
ghost use Rattle.std.specs.Fmt.InlineText.{inline_text};
ghost use Rattle.std.specs.declared.net.socket_addr.SocketAddr.{SocketAddr};
ghost use Rattle.upd_subcommands.specs.Listening.{ReportsPlace, listening_line, path_line};
ghost use Rattle.upd_wire.specs.Fronts.{AppendsFront};

use crate::streams::write_out;
use std::alloc::Global;
use std::fmt::{InlineText, Write};
use std::io;
use std::net::{SocketAddr, TcpListener};
use upd_text::{Fault, FaultKind};

/// Room for the line of any address: of the kit's texts of one, none has more than 58 bytes.
const ROOM: usize = 80;

/// Writes where a listener listens as one line, in one write, and flushes. Read, at 0, where its address isn't
/// available, and Write, at 0, where the write failed. Does not allocate.
pub(crate) fn report_place<E: io::Write>(
    listener: &TcpListener,
    faults: &mut E,
) -> Result<(), Fault>
    ensures { ReportsPlace result (E.contents faults.old) (E.contents faults.new) }
{
    match line_of_listener(listener) {
        Some(line) => write_out(faults, line.as_str().as_bytes()),
        None => Err(FaultKind::Read.without_line()),
    }
}

/// The line for the address that a listener has: for port 0 it is the port that the system chose.
fn line_of_listener(listener: &TcpListener) -> Option<InlineText<ROOM>>
    ensures { IfSome result (λ line. (place : SocketAddr) × (inline_text line ≡ listening_line place)) }
{
    match listener.local_addr() {
        Ok(address) => line_of(address),
        Err(_) => None,
    }
}

/// The line for an address.
fn line_of(address: SocketAddr) -> Option<InlineText<ROOM>>
    ensures { IfSome result (λ line. inline_text line ≡ listening_line address) }
{
    let mut line = InlineText::new();
    match writeln!(line, "upd: listening on {address}") {
        Ok(()) => Some(line),
        Err(_) => None,
    }
}

/// Writes a line on a path in one write, and flushes.
pub(crate) fn report_path<E: io::Write>(
    alloc: Global,
    what: &str,
    path: &str,
    why: &str,
    faults: &mut E,
) -> Result<(), Fault>
    ensures { AppendsFront (E.contents faults.old) (E.contents faults.new) (path_line what.now path.now why.now) }
{
    let parts: [&str; 5] = ["upd: ", what, path, why, "\n"];
    match parts.concat(alloc) {
        Ok(line) => write_out(faults, line.as_bytes()),
        Err(lost) => Err(Fault::from(lost)),
    }
}
