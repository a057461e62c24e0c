//! One request and its answer.

ghost use Rattle.std.specs.Prelude.{◌≡◌, ◌≤◌, ℕ, List, [], None, Result, Err, vec_capacity};
ghost use Rattle.upd_wire.specs.Inputs.{IsInput};
ghost use Rattle.upd_wire.specs.Calls.{asked};
ghost use Rattle.upd_wire.specs.Requests.{IsRead};
ghost use Rattle.upd_text.specs.declared.fault.Fault.{Fault};
ghost use Rattle.upd_wire.specs.Responses.{Response};
ghost use Rattle.upd_wire.specs.Serving.{AnswersRequest, Leads, Made, Sends};
ghost use Rattle.upd_wire.specs.AnswerViews.{answer_seen, exchange_view};
ghost use Rattle.upd_wire.specs.LogLines.{Exchanges, IsAskOf, asked_of};

use crate::ask::ask;
use crate::http_answer::{Answer, HEAD_ROOM};
use crate::http_writes::send;
use crate::request::read_request;
use crate::{DeskCall, Refusal, RouteTable};
use std::alloc::Global;
use std::io::{Read, Write};
use upd_desk::Desk;
use upd_row_store::RowStore;
use upd_text::{Fault, FaultKind};

/// A request that was read, or why it wasn't, and its answer.
#[derive(Debug, Drop)]
pub(crate) struct Exchange {
    /// The bytes that were read with its head.
    pub(crate) head: Vec<u8>,
    pub(crate) request: Result<DeskCall, Refusal>,
    /// The answer, or the fault that says why there isn't one.
    pub(crate) answer: Result<Answer, Fault>,
}

impl Exchange {
    /// Nothing was read, by this fault: NoMemory or Read, at 0.
    pub(crate) fn failed(alloc: Global, fault: Fault) -> Exchange
        ensures { exchange_view result ≡ record { head = []; asked = None; answer = Err fault } }
    {
        Exchange {
            head: Vec::new(alloc),
            request: Err(Refusal::Silent(fault)),
            answer: Err(fault),
        }
    }

    /// Whether the request is known to have been read to its end: it asks something, or one of its parameters is refused.
    pub(crate) fn is_whole(&self) -> bool {
        match &self.request {
            Ok(_) => true,
            Err(Refusal::Answered(fault)) => matches!(
                fault.kind,
                FaultKind::BadSite
                    | FaultKind::BadNumber
                    | FaultKind::BadMode
                    | FaultKind::BadName
                    | FaultKind::BadCard
            ),
            Err(_) => false,
        }
    }

    /// Writes the answer, its head in `out`, which has room for it. The fault is Write, or that of no answer.
    fn send<W: Write>(&self, writer: &mut W, out: &mut Vec<u8>) -> Result<(), Fault>
        requires empty { out.old.items ≡ [] }
        requires room { HEAD_ROOM ≤ vec_capacity out.old }
        ensures { Sends (answer_seen self.now.answer) result (W.contents writer.old) (W.contents writer.new) }
    {
        match &self.answer {
            Ok(answer) => {
                answer.write_head(out);
                send(writer, out, &answer.body)
            }
            Err(fault) => Err(*fault),
        }
    }
}

/// Reads one request, asks the desk what it asks, and writes the answer. CutFrame, Read and NoMemory leave the output
/// as it was, Write leaves a prefix of the answer. All memory that the head and the routes need is allocated before the
/// request is read.
pub fn serve_one<R: Read, W: Write, S: RowStore>(
    alloc: Global,
    reader: &mut R,
    writer: &mut W,
    desk: &mut Desk<S>,
) -> Result<(), Fault>
    ensures { (made : Made) × (answer : Result Response Fault)
        × Leads S.Meaning made desk.old.store desk.new.store
        × Sends answer result (W.contents writer.old) (W.contents writer.new)
        × ((input : List ℕ) × IsInput (R.remaining reader.old) input × AnswersRequest input made answer) }
{
    let routes = RouteTable::new(alloc)?;
    let (_, sent) = serve_request(alloc, &routes, reader, writer, desk);
    sent
}

/// Answers one request as `serve_one` does, with routes that were made before.
pub(crate) fn serve_request<R: Read, W: Write, S: RowStore>(
    alloc: Global,
    routes: &RouteTable,
    reader: &mut R,
    writer: &mut W,
    desk: &mut Desk<S>,
) -> (Exchange, Result<(), Fault>)
    ensures { (made : Made) × (input : List ℕ) × Leads S.Meaning made desk.old.store desk.new.store
        × IsInput (R.remaining reader.old) input × Exchanges input made (exchange_view result.0)
        × Sends (answer_seen result.0.answer) result.1 (W.contents writer.old) (W.contents writer.new) }
{
    match Vec::with_capacity(alloc, HEAD_ROOM) {
        Ok(head) => {
            let mut head = head;
            let exchange = read_and_ask(alloc, routes, reader, desk);
            let sent = exchange.send(writer, &mut head);
            (exchange, sent)
        }
        Err(lost) => {
            let fault = Fault::from(lost);
            (Exchange::failed(alloc, fault), Err(fault))
        }
    }
}

/// Reads one request, and asks the desk what it asks.
fn read_and_ask<R: Read, S: RowStore>(
    alloc: Global,
    routes: &RouteTable,
    reader: &mut R,
    desk: &mut Desk<S>,
) -> Exchange
    ensures { (made : Made) × (input : List ℕ) × Leads S.Meaning made desk.old.store desk.new.store
        × IsInput (R.remaining reader.old) input × Exchanges input made (exchange_view result) }
{
    let mut head = Vec::new(alloc);
    let request = read_request(alloc, routes, reader, &mut head);
    let answer = answer_request(alloc, &request, desk);
    Exchange {
        head,
        request,
        answer,
    }
}

/// The answer to a request that was read, or the fault of one that has none.
fn answer_request<S: RowStore>(
    alloc: Global,
    request: &Result<DeskCall, Refusal>,
    desk: &mut Desk<S>,
) -> Result<Answer, Fault>
    ensures { (made : Made) × Leads S.Meaning made desk.old.store desk.new.store
        × IsAskOf (asked_of request.now) made
        × ((input : List ℕ) → IsRead asked input request.now → AnswersRequest input made (answer_seen result)) }
{
    match request {
        Ok(call) => ask(alloc, desk, call),
        Err(refusal) => Answer::refusal(alloc, *refusal),
    }
}
