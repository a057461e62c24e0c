//! Writes to any writer. A call that was interrupted counts as failed, like any other.
ghost use Rattle.std.specs.Prelude.{OnOk};
ghost use Rattle.std.specs.Io.KnownBytes.{Appends};
ghost use Rattle.std.specs.List.{flat_map};
ghost use Rattle.upd_wire.specs.Fronts.{AppendsFront};

use std::io;
use std::io::{ErrorKind, Write};

/// Writes all parts, one after the other, and flushes. After an error the output has at most a prefix of them.
pub fn write_parts<W: Write>(writer: &mut W, parts: &[&[u8]]) -> io::Result<()>
    ensures ok { OnOk result (Appends (W.contents writer.old) (W.contents writer.new)
        (flat_map (λ part. part.now) parts.now)) }
    ensures front { AppendsFront (W.contents writer.old) (W.contents writer.new)
        (flat_map (λ part. part.now) parts.now) }
{
    for part in parts {
        write_part(writer, part)?;
    }
    writer.flush()
}

/// Writes all bytes. After an error the output has at most a prefix of them. Unlike std's `write_all` it does not retry
/// after Interrupted.
fn write_part<W: Write>(writer: &mut W, bytes: &[u8]) -> io::Result<()>
    ensures ok { OnOk result (Appends (W.contents writer.old) (W.contents writer.new) bytes.now) }
    ensures front { AppendsFront (W.contents writer.old) (W.contents writer.new) bytes.now }
{
    let mut rest = bytes;
    'output: while !rest.is_empty() {
        match writer.write(rest) {
            Ok(0) => return Err(io::Error::from(ErrorKind::WriteZero)),
            Ok(count) => rest = &rest[count..],
            Err(error) => return Err(error),
        }
    }
    Ok(())
}
