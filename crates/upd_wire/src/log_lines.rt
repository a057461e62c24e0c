//! The log of a server: one line for each connection.

ghost use Rattle.std.specs.Prelude.{◌≡◌, [], None, Err, IfSome, OnOk};
ghost use Rattle.std.specs.Fmt.InlineText.{inline_text};
ghost use Rattle.std.specs.Io.KnownBytes.{Appends};
ghost use Rattle.percent_encoding.specs.Iter.{encoded_text};
ghost use Rattle.upd_text.specs.Faults.{fault_at};
ghost use Rattle.upd_wire.specs.AnswerViews.{answer_seen, exchange_view, response, served_view};
ghost use Rattle.upd_wire.specs.Fronts.{AppendsFront};
ghost use Rattle.upd_wire.specs.LogLines.{answered, asked_of, field, is_run, log_line, number_of};
ghost use Rattle.upd_wire.specs.LogLines.{outcome, piece, shown, site_of, status_of, valid_site};

use crate::http_answer::Answer;
use crate::http_exchange::Exchange;
use crate::{DeskCall, Refusal, write_parts};
use http::StatusCode;
use itoa::Buffer;
use percent_encoding::{CONTROLS, PercentEncode, percent_encode};
use std::alloc::Global;
use std::fmt::{InlineText, Write};
use std::io;
use std::io::ErrorKind;
use upd_text::keys::is_site;
use upd_text::line::split_once;
use upd_text::{Fault, FaultKind};

/// The longest field, in bytes before they are escaped.
const MAX_FIELD: usize = 200;

/// Room for any line, in bytes: six fields, each byte of which can become three, and three numbers.
const ROOM: usize = 4_096;

/// A connection that has ended.
#[derive(Debug, Drop)]
pub(crate) struct Served {
    pub(crate) exchange: Exchange,
    /// How many bytes were read.
    pub(crate) got: u64,
    /// How many bytes were written.
    pub(crate) sent: u64,
    /// For how long it was served, in milliseconds.
    pub(crate) millis: u64,
}

impl Served {
    /// A connection of which nothing was read, by this fault: NoMemory or Read, at 0.
    pub(crate) fn failed(alloc: Global, kind: FaultKind) -> Served
        ensures { exchange_view result.exchange ≡ record { head = []; asked = None; answer = Err (fault_at kind 0) } }
    {
        Served {
            exchange: Exchange::failed(alloc, kind.without_line()),
            got: 0,
            sent: 0,
            millis: 0,
        }
    }
}

/// Writes the line of a connection in one write, and flushes. After an error the log has at most a prefix of the line.
/// Does not allocate.
pub(crate) fn write_line<W: io::Write>(log: &mut W, served: &Served) -> io::Result<()>
    ensures ok { OnOk result (Appends (W.contents log.old) (W.contents log.new) (log_line (served_view served.now))) }
    ensures front { AppendsFront (W.contents log.old) (W.contents log.new) (log_line (served_view served.now)) }
{
    match line_of(served) {
        Some(line) => write_parts(log, &[line.as_str().as_bytes()]),
        None => Err(io::Error::from(ErrorKind::OutOfMemory)),
    }
}

fn line_of(served: &Served) -> Option<InlineText<ROOM>>
    ensures { IfSome result (λ line. inline_text line ≡ log_line (served_view served.now)) }
{
    let exchange = &served.exchange;
    let mut digits = Buffer::new();
    let method = field(piece(&exchange.head, b' ', 0));
    let target = field(piece(&exchange.head, b' ', 1));
    let site = field(site_of(&exchange.request));
    let number = field(number_of(&exchange.request, &mut digits));
    let status = field(status_of(&exchange.answer));
    let outcome = field(outcome(exchange));
    let (got, sent, millis) = (served.got, served.sent, served.millis);
    let mut line = InlineText::new();
    match writeln!(
        line,
        "upd: {method} {target} {site} {number} {status} {outcome} {got} {sent} {millis}ms"
    ) {
        Ok(()) => Some(line),
        Err(_) => None,
    }
}

fn field(text: &[u8]) -> PercentEncode<'_>
    ensures { encoded_text result ≡ field text.now }
{
    percent_encode(shown(text), CONTROLS)
}

fn shown(text: &[u8]) -> &[u8]
    ensures { result.now ≡ shown text.now }
{
    if text.is_empty() {
        return b"-";
    }
    if text.len() <= MAX_FIELD {
        return text;
    }
    &text[..MAX_FIELD]
}

/// The piece of a text after this number of separators, or an empty text.
fn piece(text: &[u8], separator: u8, count: u32) -> &[u8]
    ensures { result.now ≡ piece separator count text.now }
{
    let mut rest = text;
    'pieces: for _ in 0..count {
        match split_once(rest, separator) {
            Some((_, after)) => rest = after,
            None => return &[],
        }
    }
    match split_once(rest, separator) {
        Some((piece, _)) => piece,
        None => rest,
    }
}

/// The site of a run or of a settlement, or an empty text where there isn't one or it is not valid.
fn site_of(request: &Result<DeskCall, Refusal>) -> &[u8]
    ensures { result.now ≡ site_of (asked_of request.now) }
{
    match request {
        Ok(DeskCall::Run { site, .. } | DeskCall::Settle { site, .. }) => valid_site(site),
        _ => &[],
    }
}

fn valid_site(site: &str) -> &[u8]
    ensures { result.now ≡ valid_site site.now }
{
    if is_site(site.as_bytes()) {
        site.as_bytes()
    } else {
        &[]
    }
}

/// Its number, or an empty text.
fn number_of<'b>(request: &Result<DeskCall, Refusal>, digits: &'b mut Buffer) -> &'b [u8]
    ensures { result.now ≡ number_of (asked_of request.now) }
{
    match request {
        Ok(DeskCall::Run { number, .. } | DeskCall::Settle { number, .. }) => {
            digits.format(*number).as_bytes()
        }
        _ => &[],
    }
}

/// The status of an answer, or an empty text.
fn status_of(answer: &Result<Answer, Fault>) -> &[u8]
    ensures { result.now ≡ status_of (answer_seen answer.now) }
{
    match answer {
        Ok(answer) => answer.status.as_str().as_bytes(),
        Err(_) => &[],
    }
}

/// The word of an answer, or the name of the fault that says why there isn't one.
fn outcome(exchange: &Exchange) -> &[u8]
    ensures { result.now ≡ outcome (exchange_view exchange.now) }
{
    match &exchange.answer {
        Ok(answer) => answered(is_run(&exchange.request), answer),
        Err(fault) => fault.kind.name().as_bytes(),
    }
}

fn is_run(request: &Result<DeskCall, Refusal>) -> bool
    ensures { result ≡ is_run (asked_of request.now) }
{
    matches!(request, Ok(DeskCall::Run { .. }))
}

/// The word of an answer: for a fault or a refused run its name, which the body has.
fn answered(is_run: bool, answer: &Answer) -> &[u8]
    ensures { result.now ≡ answered is_run (response answer.now) }
{
    if answer.status == StatusCode::OK {
        return if is_run { b"accepted" } else { b"ok" };
    }
    if is_run && answer.status == StatusCode::UNPROCESSABLE_ENTITY {
        return piece(&answer.body, b'"', 11);
    }
    piece(&answer.body, b'"', 7)
}
