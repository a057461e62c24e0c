//! Checking a correction run.

ghost use Rattle.std.specs.Prelude.{ℕ, List, IsTrue, IfErr, IfOk};
ghost use Rattle.upd_text.specs.Outcome.{FailsAt};
ghost use Rattle.upd_core.specs.Status.{live_targets};
ghost use Rattle.upd_correct.specs.Correcting.{BeginsWithSet, CorrectsSince};
ghost use Rattle.upd_correct.specs.LineReads.{HasDecks};
ghost use Rattle.upd_correct.specs.Checked.{IsChecked, result_of};

use crate::checked_library::{is_corrected, is_needed};
use crate::correcting::EditBase;
use crate::edited_deck::EditedDeck;
use std::alloc::Global;
use upd_apply::reach;
use upd_deck::read_run;
use upd_text::Fault;

/// Whether a run by a set leads the decks of an edited text to it, and changes nothing else. The fault is that of a run
/// that is not accepted.
pub(crate) fn checked(
    alloc: Global,
    base: &EditBase,
    set: &[u8],
    decks: &[EditedDeck],
    run: &[u8],
) -> Result<bool, Fault>
    ensures corrects { (text : List ℕ) → HasDecks text decks.now
        → IfOk result (λ ok. IsTrue ok → CorrectsSince base.now.last base.now.taken.now base.now.library.now
        set.now text run.now) }
    ensures refused { IfErr result (λ fault. FailsAt fault (result_of run.now base.now.library.now)) }
{
    if !begins_with_set(set, run) {
        return Ok(false);
    }
    let needed = is_needed(alloc, base.taken, decks, run.is_empty())?;
    if !needed {
        return Ok(false);
    }
    applied_checked(alloc, base, set, decks, run)
}

/// The check of the run's effect.
fn applied_checked(
    alloc: Global,
    base: &EditBase,
    set: &[u8],
    decks: &[EditedDeck],
    run: &[u8],
) -> Result<bool, Fault>
    ensures whole { IfOk result (λ ok. IsTrue ok → IsChecked (live_targets base.now.taken.now) base.now.last
        base.now.library.now set.now run.now decks.now) }
    ensures refused { IfErr result (λ fault. FailsAt fault (result_of run.now base.now.library.now)) }
{
    let lines = read_run(alloc, run)?;
    let reached = reach(alloc, base.library, &lines)?;
    if !reached.compile.is_empty() {
        return Ok(false);
    }
    is_corrected(alloc, base, &reached.library, set, run, decks)
}

/// Whether a run is empty, or begins with the `*IDENT` of a set.
fn begins_with_set(set: &[u8], run: &[u8]) -> bool
    ensures { IsTrue result → BeginsWithSet set.now run.now }
{
    if run.is_empty() {
        return true;
    }
    let Some(name) = run.strip_prefix(b"*IDENT ") else {
        return false;
    };
    let Some(rest) = name.strip_prefix(set) else {
        return false;
    };
    match rest {
        [] => false,
        [first, ..] => *first == b'\n',
    }
}
