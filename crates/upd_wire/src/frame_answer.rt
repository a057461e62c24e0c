//! The answer to a frame: one line.
ghost use Rattle.std.specs.Prelude.{◌≡◌, ◌∷◌, ◌++◌, [], IfErr, IfOk, OnOk, IsTrue, Result, Err, List, ℕ};
ghost use Rattle.std.specs.Io.KnownBytes.{Appends};
ghost use Rattle.upd_desk.specs.Answers.{answer_line, is_answered};
ghost use Rattle.upd_desk.specs.Holding.{Arrives};
ghost use Rattle.upd_desk.specs.Outcomes.{ReplyView};
ghost use Rattle.upd_row_store.specs.Keeping.{failures_with};
ghost use Rattle.upd_wire.specs.Exchange.{LeavesNoLine};
ghost use Rattle.upd_wire.specs.Frames.{arrival_of};
ghost use Rattle.upd_wire.specs.Spools.{GetsNoLine};
ghost use Rattle.upd_wire.specs.Fronts.{AppendsFront};
ghost use Rattle.upd_text.specs.declared.fault.Fault.{Fault};

use crate::header::Header;
use crate::write_parts;
use std::alloc::Global;
use std::io;
use std::io::Write;
use upd_desk::{Desk, fault_answer};
use upd_row_store::RowStore;
use upd_text::FaultKind;

/// Lets a run arrive, and writes the line that answers it. All memory is taken before the line is written.
pub(crate) fn answer<W: Write, S: RowStore>(
    alloc: Global,
    writer: &mut W,
    desk: &mut Desk<S>,
    header: &Header<'_>,
    run: &[u8],
) -> Result<(), FaultKind>
    ensures ok { OnOk result ((r : Result ReplyView Fault)
        × Arrives S.Meaning (arrival_of header.now run.now) r
        desk.old.store desk.new.store
        × IsTrue (is_answered r) × Appends (W.contents writer.old) (W.contents writer.new) (answer_line r)) }
    ensures err { IfErr result (λ kind. LeavesNoLine S.Meaning
        kind (arrival_of header.now run.now) desk.old.store desk.new.store (W.contents writer.old)
        (W.contents writer.new)) }
{
    let text = answer_text(alloc, desk, header, run)?;
    match write_line(writer, &text) {
        Ok(()) => Ok(()),
        Err(_) => Err(FaultKind::Write),
    }
}

/// Lets a run arrive, and answers its reply, or the text of its fault.
fn answer_text<S: RowStore>(
    alloc: Global,
    desk: &mut Desk<S>,
    header: &Header<'_>,
    run: &[u8],
) -> Result<Vec<u8>, FaultKind>
    ensures ok { IfOk result (λ text. (r : Result ReplyView Fault)
        × Arrives S.Meaning (arrival_of header.now run.now) r
        desk.old.store desk.new.store
        × IsTrue (is_answered r) × (answer_line r ≡ text.items ++ 10 ∷ [])) }
    ensures err { IfErr result (λ kind. (fault : Fault)
        × Arrives S.Meaning (arrival_of header.now run.now)
        (Err fault) desk.old.store desk.new.store
        × GetsNoLine kind fault
        × (S.failures_of desk.new.store ≡ failures_with fault.kind (S.failures_of desk.old.store))) }
{
    let number = u64::from(header.number);
    match desk.arrive(alloc, header.site, number, header.mode, run) {
        Ok(reply) => Ok(reply.text),
        Err(fault) => match fault_answer(alloc, fault) {
            Ok(text) => Ok(text),
            Err(untold) => Err(untold.kind),
        },
    }
}

/// Writes a text and LF, and flushes. An error leaves a beginning of them, or all.
fn write_line<W: Write>(writer: &mut W, text: &[u8]) -> io::Result<()>
    ensures ok { OnOk result (Appends (W.contents writer.old) (W.contents writer.new) (text.now ++ 10 ∷ [])) }
    ensures front { AppendsFront (W.contents writer.old) (W.contents writer.new) (text.now ++ 10 ∷ []) }
{
    write_parts(writer, &[text, b"\n"])
}
