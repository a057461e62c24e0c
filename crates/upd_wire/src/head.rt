//! The head of a request, read as far as it goes.

ghost use Rattle.std.specs.Prelude.{◌≡◌, ◌≤◌, ℕ, List, [], IfErr, IfOk, OnOk, length};
ghost use Rattle.std.specs.Io.KnownBytes.{Consumes};
ghost use Rattle.httparse.specs.Spans.{IsRequestOf, IsRequestWithin};
ghost use Rattle.upd_wire.specs.Inputs.{Begins, IsInput};
ghost use Rattle.upd_wire.specs.Requests.{RefusesHead};

use crate::call::Refusal;
use httparse::Status;
use httparse::spans::{HeaderSpan, RequestSpans, parse_request};
use std::io::Read;
use upd_text::FaultKind;

/// The longest head, in bytes.
pub const MAX_HEAD_BYTES: usize = 8_192;

/// The most headers of a head.
pub const MAX_HEADERS: usize = 32;

/// Reads into an empty buffer until it has a whole head, and no more than a head may have. What follows the head in the
/// buffer is a prefix of the body.
pub(crate) fn read_head<R: Read>(
    reader: &mut R,
    buf: &mut Vec<u8>,
    headers: &mut [HeaderSpan],
) -> Result<RequestSpans, Refusal>
    requires empty { buf.old.items ≡ [] }
    requires room { length headers.old ≡ MAX_HEADERS }
    ensures head { IfOk result (IsRequestOf buf.new.items headers.new) }
    ensures within { IfOk result (IsRequestWithin buf.new.items headers.new) }
    ensures most { OnOk result (length buf.new.items ≤ MAX_HEAD_BYTES) }
    ensures bytes { OnOk result (Consumes (R.remaining reader.old) (R.remaining reader.new) buf.new.items) }
    ensures err { IfErr result (λ refusal. (input : List ℕ) × IsInput (R.remaining reader.old) input
        × Begins input buf.new.items × RefusesHead input refusal) }
{
    let mut chunk = [0u8; 1024];
    'head: while buf.len() < MAX_HEAD_BYTES {
        let room = (MAX_HEAD_BYTES - buf.len()).min(1024);
        let part = &mut chunk[..room];
        match reader.read(part) {
            Ok(0) => return Err(Refusal::silent(FaultKind::CutFrame)),
            Ok(count) => {
                if buf.extend_from_slice(&part[..count]).is_err() {
                    return Err(Refusal::of(FaultKind::NoMemory));
                }
            }
            Err(_) => return Err(Refusal::silent(FaultKind::Read)),
        }
        match parse_request(buf, headers) {
            Ok(Status::Complete(spans)) => return Ok(spans),
            Ok(Status::Partial) => {}
            Err(_) => return Err(Refusal::of(FaultKind::BadFrame)),
        }
    }
    Err(Refusal::of(FaultKind::BadFrame))
}
