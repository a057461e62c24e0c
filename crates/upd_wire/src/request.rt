//! A whole request.

ghost use Rattle.std.specs.Prelude.{◌≡◌, ◌++◌, [], List, ℕ};
ghost use Rattle.httparse.specs.Grammar.{RequestHead as HttpHead};
ghost use Rattle.httparse.specs.Spans.{IsRequestAt, IsRequestOf, IsRequestWithin};
ghost use Rattle.upd_wire.specs.Inputs.{Begins, IsInput};
ghost use Rattle.upd_wire.specs.Calls.{Gives, asked};
ghost use Rattle.upd_wire.specs.Parameters.{path_of};
ghost use Rattle.upd_wire.specs.Requests.{GivesUnlessFailed, IsRead, body_of, checked_head};
ghost use Rattle.upd_wire.specs.RequestViews.{head_view};

use crate::call::{DeskCall, Refusal};
use crate::head::{MAX_HEADERS, read_head};
use crate::lengths::{BodyLength, body_length};
use crate::parameters::path_of;
use crate::read_up_to;
use crate::routes::call_of;
use crate::table::{RouteMatch, RouteTable};
use httparse::spans::{EMPTY_HEADER_SPAN, HeaderSpan, RequestSpans};
use std::alloc::Global;
use std::io::Read;
use std::str;
use upd_text::FaultKind;

/// A head that was read: the route of the path that it asks for, and how long its body is.
#[derive(Debug, Drop)]
pub struct RequestHead<'t, 'b> {
    found: RouteMatch<'t, 'b>,
    /// How many bytes its body has.
    body_len: usize,
}

/// Reads a request, and returns what it asks of the desk. Nothing after its body is looked at, though a read may have
/// taken it.
pub fn read_call<R: Read>(
    alloc: Global,
    routes: &RouteTable,
    reader: &mut R,
) -> Result<DeskCall, Refusal>
    ensures { (input : List ℕ) × IsInput (R.remaining reader.old) input × IsRead asked input result }
{
    let mut buf = Vec::new(alloc);
    read_request(alloc, routes, reader, &mut buf)
}

/// Reads a request, with what was read with its head in `buf`, which is empty before.
pub(crate) fn read_request<R: Read>(
    alloc: Global,
    routes: &RouteTable,
    reader: &mut R,
    buf: &mut Vec<u8>,
) -> Result<DeskCall, Refusal>
    requires { buf.old.items ≡ [] }
    ensures { (input : List ℕ) × IsInput (R.remaining reader.old) input × Begins input buf.new.items
        × IsRead asked input result }
{
    let mut headers = [EMPTY_HEADER_SPAN; MAX_HEADERS];
    let spans = read_head(reader, buf, &mut headers)?;
    let head = check_head(routes, buf, &headers, spans)?;
    let body = read_body(alloc, reader, &buf[spans.len..], head.body_len)?;
    call_of(alloc, &head.found, body)
}

/// What a head asks for, or its first refusal.
fn check_head<'t, 'b>(
    routes: &'t RouteTable,
    buf: &'b [u8],
    headers: &[HeaderSpan],
    spans: RequestSpans,
) -> Result<RequestHead<'t, 'b>, Refusal>
    requires head { IsRequestOf buf.now headers.now spans }
    requires within { IsRequestWithin buf.now headers.now spans }
    ensures { (h : HttpHead) → IsRequestAt buf.entry.now headers.now spans h
        → Gives head_view result (checked_head h) }
{
    let length = body_length(buf, &headers[..spans.headers]);
    if length == BodyLength::Bad {
        return Err(Refusal::of(FaultKind::BadFrame));
    }
    let path = target_path(buf, headers, spans);
    let Some(found) = routes.find(path) else {
        return Err(Refusal::NoRoute);
    };
    if !found.route.takes(spans.method.of(buf)) {
        return Err(Refusal::OtherMethod(found.route));
    }
    let body_len = match length {
        BodyLength::Bytes(count) => count,
        BodyLength::Long => return Err(Refusal::of(FaultKind::RunLong)),
        _ => 0,
    };
    Ok(RequestHead { found, body_len })
}

/// The path of a head's target, which is a text.
fn target_path<'b>(buf: &'b [u8], headers: &[HeaderSpan], spans: RequestSpans) -> &'b str
    requires head { IsRequestOf buf.now headers.now spans }
    requires within { IsRequestWithin buf.now headers.now spans }
    ensures { (h : HttpHead) → IsRequestAt buf.entry.now headers.now spans h → result.now ≡ path_of h.target }
{
    match str::from_utf8(spans.path.of(buf)) {
        Ok(target) => path_of(target),
        Err(_) => unreachable!(),
    }
}

/// The body, of which the front was read with the head.
fn read_body<R: Read>(
    alloc: Global,
    reader: &mut R,
    front: &[u8],
    count: usize,
) -> Result<Vec<u8>, Refusal>
    ensures { (rest : List ℕ) × IsInput (R.remaining reader.old) rest
        × GivesUnlessFailed (λ body. body.items) result (body_of count (front.now ++ rest)) }
{
    let held = front.len().min(count);
    let mut body = Vec::from_slice(alloc, &front[..held])?;
    match read_up_to(reader, count, &mut body) {
        Ok(()) if body.len() < count => Err(Refusal::silent(FaultKind::CutFrame)),
        Ok(()) => Ok(body),
        Err(FaultKind::NoMemory) => Err(Refusal::of(FaultKind::NoMemory)),
        Err(_) => Err(Refusal::silent(FaultKind::Read)),
    }
}
