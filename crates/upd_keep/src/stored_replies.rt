//! Stored runs that are handed in again at a desk, and their replies.
ghost use Rattle.std.specs.Prelude.{◌≡◌, ◌↔◌, ◌∷◌, None, IfErr, IfOk, IsTrue};
ghost use Rattle.upd_desk.specs.Holding.{EachHeld, IsHeld};
ghost use Rattle.upd_desk.specs.Journal.{Came};
ghost use Rattle.upd_row_store.specs.Keeping.{IsLater, IsLost};
ghost use Rattle.upd_keep.specs.Replaying.{HasReply, IsFirstParting, arrival_of, journal_with, stored_mode};

use std::alloc::Global;
use upd_desk::{Desk, Reply};
use upd_records::RunRow;
use upd_row_store::RowStore;
use upd_text::{Fault, FaultKind};

/// The word of a stored mode. No mode has another number than 0 to 2: the admission checks refuse its empty word.
fn stored_mode(mode: u32) -> &'static str
    ensures { result.now ≡ stored_mode mode }
{
    match mode {
        0 => "full",
        1 => "quick",
        2 => "normal",
        _ => "",
    }
}

/// Whether a reply is the one that is stored with a run.
fn is_reply_of(reply: &Reply, run: &RunRow) -> bool
    ensures { IsTrue result ↔ (reply.now ≡ record { accepted = run.now.accepted; text = run.now.reply }) }
{
    reply.accepted == run.accepted && reply.text == run.reply
}

/// Hands a stored run in, and answers whether it gets the stored reply. The fault is NoMemory or Store, at 0.
fn is_answered_as_stored<S: RowStore>(
    desk: &mut Desk<S>,
    alloc: Global,
    run: &RunRow,
) -> Result<bool, Fault>
    ensures later { IsLater S.Meaning desk.old.store desk.new.store }
    ensures right { EachHeld S.Meaning desk.old.store desk.new.store
        (λ journal. IfOk result (λ same. IsTrue same ↔ HasReply journal run.now)) }
    ensures held { EachHeld S.Meaning desk.old.store desk.new.store (λ journal. IfOk result
        (λ same. IsTrue same → IsHeld S.Meaning (Came (arrival_of run.now) ∷ journal) desk.new.store)) }
    ensures lost { IfErr result IsLost }
{
    match desk.arrive(
        alloc,
        &run.site,
        run.number,
        stored_mode(run.mode),
        &run.bytes,
    ) {
        Ok(reply) => Ok(is_reply_of(&reply, run)),
        Err(fault) => match fault.kind {
            FaultKind::NoMemory | FaultKind::Store => Err(fault),
            _ => Ok(false),
        },
    }
}

/// Hands stored runs in, one after the other, and returns the first that gets another reply than the stored one. Each run is
/// let go before the next. The fault is NoMemory or Store, at 0.
pub(crate) fn first_parting<S: RowStore>(
    desk: &mut Desk<S>,
    alloc: Global,
    runs: Vec<RunRow>,
) -> Result<Option<RunRow>, Fault>
    ensures right { EachHeld S.Meaning desk.old.store desk.new.store (λ journal. IfOk result
        (λ found. IsFirstParting journal runs.items found)) }
    ensures held { EachHeld S.Meaning desk.old.store desk.new.store (λ journal. IfOk result
        (λ found. found ≡ None → IsHeld S.Meaning (journal_with journal runs.items) desk.new.store)) }
    ensures lost { IfErr result IsLost }
{
    for run in runs {
        if !is_answered_as_stored(desk, alloc, &run)? {
            return Ok(Some(run));
        }
    }
    Ok(None)
}
