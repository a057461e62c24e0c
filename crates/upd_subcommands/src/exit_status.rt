//! Exit statuses and fault lines.
ghost use Rattle.std.specs.Prelude.{◌≡◌, ◌≢◌, ◌⊎◌, OnOk};
ghost use Rattle.std.specs.Io.KnownBytes.{Appends};
ghost use Rattle.std.specs.IoError.{error_kind};
ghost use Rattle.std.specs.List.{flat_map};
ghost use Rattle.upd_subcommands.specs.Command.{IsEnd, IsEndOf, IsReported};
ghost use Rattle.upd_subcommands.specs.Status.{exit_status, fault_line, no_memory, no_words_line};
ghost use Rattle.upd_wire.specs.Fronts.{AppendsFront};

use crate::streams::write_out;
use itoa::Buffer;
use std::alloc::AllocError;
use std::io;
use std::io::{ErrorKind, Write};
use upd_text::{Fault, FaultKind};
use upd_wire::write_parts;

/// All is done.
pub const DONE: u8 = 0;

/// A refusal.
pub const REFUSED: u8 = 1;

/// The words are not a command line.
pub const UNREAD: u8 = 2;

/// Out of memory, or the store, a read or a write failed.
pub const FAILED: u8 = 3;

/// The exit status for a fault.
pub(crate) fn exit_status(kind: FaultKind) -> u8
    ensures { result ≡ exit_status kind }
{
    match kind {
        FaultKind::NoMemory | FaultKind::Store | FaultKind::Read | FaultKind::Write => FAILED,
        _ => REFUSED,
    }
}

/// Writes the line of a fault, its `Display` after the program's name, and flushes. Does not allocate, since memory may
/// just have run out.
pub(crate) fn write_fault<E: Write>(faults: &mut E, fault: Fault) -> io::Result<()>
    ensures ok { OnOk result (Appends (E.contents faults.old) (E.contents faults.new) (fault_line fault)) }
    ensures front { AppendsFront (E.contents faults.old) (E.contents faults.new) (fault_line fault) }
{
    let (mut number, mut at) = (Buffer::new(), Buffer::new());
    let parts: [&[u8]; 7] = [
        b"upd: ",
        fault.kind.name().as_bytes(),
        b" (",
        number.format(fault.kind.number()).as_bytes(),
        b") at ",
        at.format(fault.at).as_bytes(),
        b"\n",
    ];
    write_parts(faults, &parts)
}

/// The exit status of a command that ended so; the line of a fault is written first.
pub fn finish<E: Write>(ended: Result<(), Fault>, faults: &mut E) -> u8
    ensures reported { IsEnd ended result (E.contents faults.old) (E.contents faults.new) }
    ensures clean { result ≡ 0 → faults.new ≡ faults.old }
{
    match ended {
        Ok(()) => DONE,
        Err(fault) => match write_fault(faults, fault) {
            Ok(()) => exit_status(fault.kind),
            Err(_) => FAILED,
        },
    }
}

/// The exit status of a command that ended so, with a status of its own; the line of a fault is written first.
pub fn finish_with<E: Write>(ended: Result<u8, Fault>, faults: &mut E) -> u8
    ensures reported { IsEndOf ended result (E.contents faults.old) (E.contents faults.new) }
    ensures same { OnOk ended (faults.new ≡ faults.old) }
    ensures clean { result ≡ 0 → faults.new ≡ faults.old }
{
    match ended {
        Ok(status) => status,
        Err(fault) => finish(Err(fault), faults),
    }
}

/// The exit status where the words of the command line are not available: 3 out of memory, and else 2. A line on
/// `faults` says so.
pub fn report_words<E: Write>(error: &io::Error, faults: &mut E) -> u8
    ensures memory { error_kind error.now ≡ ErrorKind.OutOfMemory
        → IsReported 3 (fault_line no_memory) result (E.contents faults.old) (E.contents faults.new) }
    ensures other { error_kind error.now ≢ ErrorKind.OutOfMemory
        → IsReported 2 no_words_line result (E.contents faults.old) (E.contents faults.new) }
{
    if error.kind() == ErrorKind::OutOfMemory {
        return finish(Err(Fault::from(AllocError)), faults);
    }
    match write_out(
        faults,
        b"error: the words of the command line can't be read as text\n",
    ) {
        Ok(()) => UNREAD,
        Err(_) => FAILED,
    }
}

/// The exit status where the words are not a command line: 2, or 3 where the text that says why can't be written.
pub fn report_unread<E: Write>(text: &[&[u8]], faults: &mut E) -> u8
    ensures reported { IsReported 2 (flat_map (λ part. part.now) text.now) result (E.contents faults.old) (E.contents faults.new) }
    ensures status { (result ≡ 2) ⊎ (result ≡ 3) }
{
    match write_parts(faults, text) {
        Ok(()) => UNREAD,
        Err(_) => FAILED,
    }
}
