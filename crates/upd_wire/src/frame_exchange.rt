//! One frame: it is read, its run arrives, and the answer goes out.
ghost use Rattle.upd_wire.specs.Exchange.{Exchanges};

use crate::frame_answer::answer;
use crate::frame_reads::{read_line, read_run};
use crate::header::read_header;
use std::alloc::Global;
use std::io::{Read, Write};
use upd_desk::Desk;
use upd_row_store::RowStore;
use upd_text::FaultKind;

/// Reads a frame, lets its run arrive, and writes the answer. `false`: the input ends before the frame.
pub(crate) fn exchange<R: Read, W: Write, S: RowStore>(
    alloc: Global,
    reader: &mut R,
    writer: &mut W,
    desk: &mut Desk<S>,
) -> Result<bool, FaultKind>
    ensures { Exchanges S.Meaning desk.old.store desk.new.store
        (R.remaining reader.old) (R.remaining reader.new) (W.contents writer.old) (W.contents writer.new) result }
{
    let mut line = Vec::new(alloc);
    let found = read_line(reader, &mut line)?;
    if !found {
        return Ok(false);
    }
    let Some(header) = read_header(&line) else {
        return Err(FaultKind::BadFrame);
    };
    let mut run = Vec::new(alloc);
    read_run(reader, header.size, &mut run)?;
    answer(alloc, writer, desk, &header, &run)?;
    Ok(true)
}
