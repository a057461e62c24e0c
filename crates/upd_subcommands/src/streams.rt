//! Reads a run from any reader, and writes to any writer. A call that was interrupted counts as failed, like any other.
ghost use Rattle.std.specs.Prelude.{◌≡◌, ◌⊎◌, ◌+◌, IfErr, IfOk, OnOk};
ghost use Rattle.std.specs.Io.KnownBytes.{Appends};
ghost use Rattle.std.specs.List.{flat_map};
ghost use Rattle.upd_subcommands.specs.Status.{no_memory, read_failed, write_failed};
ghost use Rattle.upd_subcommands.specs.Streams.{IsFrontOf, IsRunOn, TakesFront};
ghost use Rattle.upd_wire.specs.Fronts.{AppendsFront};

use std::alloc::Global;
use std::io::{Read, Write};
use upd_text::limits::MAX_RUN_BYTES;
use upd_text::{Fault, FaultKind};
use upd_wire::{read_up_to, write_parts};

/// All bytes of a run on an input, or the first `MAX_RUN_BYTES` and one more, which shows that it is too long.
pub(crate) fn read_input<R: Read>(alloc: Global, input: &mut R) -> Result<Vec<u8>, Fault>
    ensures ok { IfOk result (λ bytes. IsRunOn (R.remaining input.old) bytes.items) }
    ensures front { TakesFront (MAX_RUN_BYTES + 1) (R.remaining input.old) (R.remaining input.new) }
    ensures err { IfErr result (λ fault. (fault ≡ no_memory) ⊎ (fault ≡ read_failed)) }
{
    match read_front(alloc, input, MAX_RUN_BYTES + 1) {
        Ok(bytes) => Ok(bytes),
        Err(fault) => Err(fault),
    }
}

/// The bytes of an input up to a number of them.
pub(crate) fn read_front<R: Read>(
    alloc: Global,
    input: &mut R,
    most: usize,
) -> Result<Vec<u8>, Fault>
    ensures ok { IfOk result (λ bytes. IsFrontOf most (R.remaining input.old) bytes.items) }
    ensures front { TakesFront most (R.remaining input.old) (R.remaining input.new) }
    ensures err { IfErr result (λ fault. (fault ≡ no_memory) ⊎ (fault ≡ read_failed)) }
{
    let mut bytes = Vec::new(alloc);
    match read_up_to(input, most, &mut bytes) {
        Ok(()) => Ok(bytes),
        Err(kind) => Err(kind.without_line()),
    }
}

/// Writes all bytes and flushes. A failed write is Write, at 0, and leaves at most a prefix of them.
pub fn write_out<W: Write>(output: &mut W, bytes: &[u8]) -> Result<(), Fault>
    ensures ok { OnOk result (Appends (W.contents output.old) (W.contents output.new) bytes.now) }
    ensures front { AppendsFront (W.contents output.old) (W.contents output.new) bytes.now }
    ensures err { IfErr result (λ fault. fault ≡ write_failed) }
{
    match write_parts(output, &[bytes]) {
        Ok(()) => Ok(()),
        Err(_) => Err(FaultKind::Write.without_line()),
    }
}

/// Writes all parts, one after the other, and flushes. A failed write is Write, at 0, and leaves at most a prefix of
/// them.
pub fn write_parts_out<W: Write>(output: &mut W, parts: &[&[u8]]) -> Result<(), Fault>
    ensures ok { OnOk result (Appends (W.contents output.old) (W.contents output.new)
        (flat_map (λ part. part.now) parts.now)) }
    ensures front { AppendsFront (W.contents output.old) (W.contents output.new)
        (flat_map (λ part. part.now) parts.now) }
    ensures err { IfErr result (λ fault. fault ≡ write_failed) }
{
    match write_parts(output, parts) {
        Ok(()) => Ok(()),
        Err(_) => Err(FaultKind::Write.without_line()),
    }
}
