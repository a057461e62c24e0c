//! Asks the desk what a request asks.

ghost use Rattle.std.specs.Prelude.{◌≡◌, ◌≤◌, ◌+◌, [], IsTrue, length, vec_capacity};
ghost use Rattle.upd_wire.specs.Calls.{asked, card, compile, deck, idents, run, settle, yanks};
ghost use Rattle.upd_text.specs.Keys.{is_site};
ghost use Rattle.upd_desk.specs.ReplyTexts.{settled_text};
ghost use Rattle.upd_wire.specs.Serving.{Asks};
ghost use Rattle.upd_wire.specs.AnswerViews.{answer_seen};

use crate::DeskCall;
use crate::http_answer::{Answer, put_all};
use crate::http_status::Media;
use http::StatusCode;
use itoa::Buffer;
use std::alloc::Global;
use upd_core::{CardRef, Name};
use upd_desk::{Desk, SETTLED_ROOM, settled_parts};
use upd_row_store::RowStore;
use upd_text::Fault;

/// Asks the desk, and makes its answer. The only error is NoMemory: for the text of a fault, or for that of a mark. In
/// the second case the desk was not asked.
pub(crate) fn ask<S: RowStore>(
    alloc: Global,
    desk: &mut Desk<S>,
    call: &DeskCall,
) -> Result<Answer, Fault>
    ensures { Asks S.Meaning
        (asked call.now) (answer_seen result) desk.old.store desk.new.store }
{
    match call {
        DeskCall::Run {
            site,
            number,
            mode,
            body,
        } => arrive(alloc, desk, site, *number, mode, body),
        DeskCall::Settle { site, number } => settle(alloc, desk, site, *number),
        DeskCall::Compile => full_compile(alloc, desk),
        DeskCall::Deck(name) => deck_list(alloc, desk, name),
        DeskCall::Card(card) => card_list(alloc, desk, *card),
        DeskCall::Idents => ident_list(alloc, desk),
        DeskCall::Yanks => yank_list(alloc, desk),
    }
}

fn arrive<S: RowStore>(
    alloc: Global,
    desk: &mut Desk<S>,
    site: &str,
    number: u64,
    mode: &str,
    body: &[u8],
) -> Result<Answer, Fault>
    ensures { Asks S.Meaning
        (run site.now number mode.now body.now) (answer_seen result) desk.old.store desk.new.store }
{
    match desk.arrive(alloc, site, number, mode, body) {
        Ok(reply) => Ok(Answer::reply(reply)),
        Err(fault) => Answer::fault(alloc, fault),
    }
}

/// All memory for the text is allocated before the desk is asked, so that a mark that is stored is also answered.
fn settle<S: RowStore>(
    alloc: Global,
    desk: &mut Desk<S>,
    site: &str,
    number: u64,
) -> Result<Answer, Fault>
    ensures { Asks S.Meaning
        (settle site.now number) (answer_seen result) desk.old.store desk.new.store }
{
    let mut body = Vec::with_capacity(alloc, site.len() + SETTLED_ROOM)?;
    match desk.settle_site(alloc, site, number) {
        Ok(mark) => {
            write_mark(&mut body, site, mark);
            Ok(Answer {
                status: StatusCode::OK,
                media: Media::Json,
                allow: None,
                body,
            })
        }
        Err(fault) => Answer::fault(alloc, fault),
    }
}

/// Writes the text of a mark, for which there is room.
fn write_mark(out: &mut Vec<u8>, site: &str, mark: u64)
    requires empty { out.old.items ≡ [] }
    requires room { length site.now + SETTLED_ROOM ≤ vec_capacity out.old }
    ensures { IsTrue (is_site site.now) → out.new.items ≡ settled_text site.now mark }
{
    let mut digits = Buffer::new();
    put_all(out, &settled_parts(site, mark, &mut digits));
}

fn full_compile<S: RowStore>(alloc: Global, desk: &mut Desk<S>) -> Result<Answer, Fault>
    ensures { Asks S.Meaning
        compile (answer_seen result) desk.old.store desk.new.store }
{
    match desk.full_compile(alloc) {
        Ok(text) => Ok(Answer::page(text.bytes)),
        Err(fault) => Answer::fault(alloc, fault),
    }
}

fn deck_list<S: RowStore>(alloc: Global, desk: &mut Desk<S>, name: &Name) -> Result<Answer, Fault>
    ensures { Asks S.Meaning
        (deck name.now) (answer_seen result) desk.old.store desk.new.store }
{
    match desk.deck_list(alloc, name) {
        Ok(text) => Ok(Answer::page(text)),
        Err(fault) => Answer::fault(alloc, fault),
    }
}

fn card_list<S: RowStore>(
    alloc: Global,
    desk: &mut Desk<S>,
    shown: CardRef,
) -> Result<Answer, Fault>
    ensures { Asks S.Meaning
        (card shown) (answer_seen result) desk.old.store desk.new.store }
{
    match desk.card_list(alloc, shown) {
        Ok(text) => Ok(Answer::page(text)),
        Err(fault) => Answer::fault(alloc, fault),
    }
}

fn ident_list<S: RowStore>(alloc: Global, desk: &mut Desk<S>) -> Result<Answer, Fault>
    ensures { Asks S.Meaning
        idents (answer_seen result) desk.old.store desk.new.store }
{
    match desk.ident_list(alloc) {
        Ok(text) => Ok(Answer::page(text)),
        Err(fault) => Answer::fault(alloc, fault),
    }
}

fn yank_list<S: RowStore>(alloc: Global, desk: &mut Desk<S>) -> Result<Answer, Fault>
    ensures { Asks S.Meaning
        yanks (answer_seen result) desk.old.store desk.new.store }
{
    match desk.yank_list(alloc) {
        Ok(text) => Ok(Answer::page(text)),
        Err(fault) => Answer::fault(alloc, fault),
    }
}
