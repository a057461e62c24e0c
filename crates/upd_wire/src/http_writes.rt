//! Writes an answer to any writer.

ghost use Rattle.std.specs.Prelude.{◌≡◌, ◌++◌, OnOk};
ghost use Rattle.std.specs.Io.KnownBytes.{Appends};
ghost use Rattle.upd_wire.specs.Serving.{Puts};
ghost use Rattle.upd_wire.specs.Fronts.{AppendsFront};

use crate::write_parts;
use std::io;
use std::io::Write;
use upd_text::{Fault, FaultKind};

/// Writes a head and a body, and flushes. A failed write is Write.
pub(crate) fn send<W: Write>(writer: &mut W, head: &[u8], body: &[u8]) -> Result<(), Fault>
    ensures { Puts result (W.contents writer.old) (W.contents writer.new) (head.now ++ body.now) }
{
    match send_both(writer, head, body) {
        Ok(()) => Ok(()),
        Err(_) => Err(FaultKind::Write.without_line()),
    }
}

fn send_both<W: Write>(writer: &mut W, head: &[u8], body: &[u8]) -> io::Result<()>
    ensures ok { OnOk result (Appends (W.contents writer.old) (W.contents writer.new) (head.now ++ body.now)) }
    ensures front { AppendsFront (W.contents writer.old) (W.contents writer.new) (head.now ++ body.now) }
{
    write_parts(writer, &[head, body])
}
