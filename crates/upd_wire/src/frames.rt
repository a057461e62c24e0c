//! The frames of a spool, one after the other.
ghost use Rattle.upd_wire.specs.Spools.{Ends};

use crate::frame_exchange::exchange;
use crate::frame_reads::read_nothing;
use std::alloc::Global;
use std::io::{Read, Write};
use upd_desk::Desk;
use upd_row_store::RowStore;
use upd_text::Fault;

/// The most frames of a spool.
pub const MAX_FRAMES: u32 = 100_000;

/// Lets the runs of a spool arrive in order, and writes a line for each: its reply, or the text of BadSite, BadNumber,
/// BadMode, RunChanged or Settled. The answer to a frame is out before the next frame is read.
///
/// Answers the number of frames at the end of the input. BadFrame, CutFrame, NoMemory, Store, Read or Write ends the
/// spool, at the number of its frame, counted from 1, and undoes nothing of the frames before it. After Write the run
/// of that frame is kept, if it was answered by a reply.
///
/// ```text
/// RUN LYON 1 quick 9      a header: site, number, mode, and the bytes of the run after it
/// *IDENT X
/// ```
pub fn spool<R: Read, W: Write, S: RowStore>(
    alloc: Global,
    reader: &mut R,
    writer: &mut W,
    desk: &mut Desk<S>,
) -> Result<u32, Fault>
    ensures { Ends S.Meaning desk.old.store desk.new.store
        (R.remaining reader.old) (R.remaining reader.new) (W.contents writer.old) (W.contents writer.new) result }
{
    for count in 0..MAX_FRAMES {
        match exchange(alloc, reader, writer, desk) {
            Ok(true) => {}
            Ok(false) => return Ok(count),
            Err(kind) => {
                return Err(Fault {
                    kind,
                    at: count + 1,
                });
            }
        }
    }
    match read_nothing(reader) {
        Ok(()) => Ok(MAX_FRAMES),
        Err(kind) => Err(Fault {
            kind,
            at: MAX_FRAMES + 1,
        }),
    }
}
