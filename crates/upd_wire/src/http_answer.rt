//! Answers, and the bytes of their heads.

ghost use Rattle.std.specs.Prelude.{◌≡◌, ◌≤◌, ◌⊎◌, ◌+◌, ◌++◌, [], Err, IfErr, IfOk, Ok, length};
ghost use Rattle.std.specs.Prelude.{option_map, vec_capacity, vec_len};
ghost use Rattle.std.specs.List.{flat_map};
ghost use Rattle.upd_desk.specs.Outcomes.{ReplyView};
ghost use Rattle.upd_wire.specs.Routes.{method_of};
ghost use Rattle.upd_wire.specs.Responses.{allow_line, fault_response, head_text, page, refusal_answer, reply_response};
ghost use Rattle.upd_wire.specs.Serving.{no_memory};
ghost use Rattle.upd_wire.specs.Statuses.{status_line};
ghost use Rattle.upd_wire.specs.AnswerViews.{answer_seen, response};

use crate::http_status::{Media, reason, status_of};
use crate::{Refusal, Route};
use http::StatusCode;
use itoa::Buffer;
use std::alloc::Global;
use upd_desk::Reply;
use upd_text::{Fault, FaultKind};

/// Enough room for any head of an answer, in bytes.
pub const HEAD_ROOM: usize = 256;

/// An answer.
#[derive(Debug, Drop)]
pub struct Answer {
    pub(crate) status: StatusCode,
    pub(crate) media: Media,
    /// The route of the path, where the request has another method.
    pub(crate) allow: Option<Route>,
    pub(crate) body: Vec<u8>,
}

impl Answer {
    /// A reply to a run.
    pub(crate) fn reply(reply: Reply) -> Answer
        ensures { response result ≡ reply_response reply }
    {
        let status = if reply.accepted {
            StatusCode::OK
        } else {
            StatusCode::UNPROCESSABLE_ENTITY
        };
        Answer {
            status,
            media: Media::Json,
            allow: None,
            body: reply.text,
        }
    }

    /// A compile file or a listing.
    pub(crate) fn page(body: Vec<u8>) -> Answer
        ensures { response result ≡ page body.items }
    {
        Answer {
            status: StatusCode::OK,
            media: Media::Plain,
            allow: None,
            body,
        }
    }

    /// A fault, with its own status. The only error is NoMemory.
    pub(crate) fn fault(alloc: Global, fault: Fault) -> Result<Answer, Fault>
        ensures ok { IfOk result (λ answer. response answer ≡ fault_response fault) }
        ensures err { IfErr result (λ e. e ≡ no_memory) }
    {
        let body = upd_desk::fault_text(alloc, fault)?;
        Ok(Answer {
            status: status_of(fault.kind),
            media: Media::Json,
            allow: None,
            body,
        })
    }

    /// The answer to a refused request, or the fault of one that has none.
    pub(crate) fn refusal(alloc: Global, refusal: Refusal) -> Result<Answer, Fault>
        ensures ok { IfOk result (λ answer. refusal_answer refusal ≡ Ok (response answer)) }
        ensures err { IfErr result (λ e. (e ≡ no_memory) ⊎ (refusal_answer refusal ≡ Err e)) }
    {
        match refusal {
            Refusal::Silent(fault) => Err(fault),
            Refusal::Answered(fault) => Answer::fault(alloc, fault),
            Refusal::NoRoute => {
                let answer = Answer::fault(alloc, FaultKind::BadFrame.without_line())?;
                Ok(Answer {
                    status: StatusCode::NOT_FOUND,
                    ..answer
                })
            }
            Refusal::OtherMethod(route) => {
                let answer = Answer::fault(alloc, FaultKind::BadFrame.without_line())?;
                Ok(Answer {
                    status: StatusCode::METHOD_NOT_ALLOWED,
                    allow: Some(route),
                    ..answer
                })
            }
        }
    }

    /// Writes its head, for which there is room.
    pub(crate) fn write_head(&self, out: &mut Vec<u8>)
        requires empty { out.old.items ≡ [] }
        requires room { HEAD_ROOM ≤ vec_capacity out.old }
        ensures { out.new.items ≡ head_text (response self.now) }
    {
        let mut number = Buffer::new();
        put(out, b"HTTP/1.1 ");
        put_status(out, self.status);
        put(out, b"\r\nContent-Type: ");
        put(out, self.media.text().as_bytes());
        put(out, b"\r\nContent-Length: ");
        put(out, number.format(self.body.len()).as_bytes());
        put_allow(out, self.allow);
        put(out, b"\r\nConnection: close\r\n\r\n");
    }
}

/// Adds a status: its digits, a blank and its reason.
fn put_status(out: &mut Vec<u8>, status: StatusCode)
    requires { vec_len out.old + 40 ≤ vec_capacity out.old }
    ensures items { out.new.items ≡ out.old.items ++ status_line status }
    ensures len { vec_len out.new ≤ vec_len out.old + 40 }
    ensures room { vec_capacity out.old ≤ vec_capacity out.new }
{
    put(out, status.as_str().as_bytes());
    put(out, b" ");
    put(out, reason(status).as_bytes());
}

/// Adds the line with the method of a route, where the request has another method.
fn put_allow(out: &mut Vec<u8>, allow: Option<Route>)
    requires { vec_len out.old + 16 ≤ vec_capacity out.old }
    ensures items { out.new.items ≡ out.old.items ++ allow_line (option_map method_of allow) }
    ensures len { vec_len out.new ≤ vec_len out.old + 16 }
    ensures room { vec_capacity out.old ≤ vec_capacity out.new }
{
    if let Some(route) = allow {
        put(out, b"\r\nAllow: ");
        put_method(out, route);
    }
}

fn put_method(out: &mut Vec<u8>, route: Route)
    requires { vec_len out.old + 4 ≤ vec_capacity out.old }
    ensures items { out.new.items ≡ out.old.items ++ method_of route }
    ensures len { vec_len out.new ≤ vec_len out.old + 4 }
    ensures room { vec_capacity out.old ≤ vec_capacity out.new }
{
    put(out, route.method().as_str().as_bytes());
}

/// Adds parts for which there is room, one after the other.
pub(crate) fn put_all(out: &mut Vec<u8>, parts: &[&[u8]])
    requires { vec_len out.old + length (flat_map (λ part. part.now) parts.now) ≤ vec_capacity out.old }
    ensures { out.new.items ≡ out.old.items ++ flat_map (λ part. part.now) parts.now }
{
    for part in parts {
        put(out, part);
    }
}

/// Adds bytes for which there is room.
pub(crate) fn put(out: &mut Vec<u8>, bytes: &[u8])
    requires { vec_len out.old + length bytes.now ≤ vec_capacity out.old }
    ensures items { out.new.items ≡ out.old.items ++ bytes.now }
    ensures len { vec_len out.new ≡ vec_len out.old + length bytes.now }
    ensures room { vec_capacity out.old ≤ vec_capacity out.new }
{
    if out.extend_from_slice(bytes).is_err() {
        unreachable!();
    }
}
