//! Libraries before and after a run.

ghost use Rattle.std.specs.Prelude.{◌≡◌, ◌+◌, ℕ, [], Some, length, map, take, drop, IsTrue, IfOk};
ghost use Rattle.std.specs.Bool.{Decides};
ghost use Rattle.std.specs.List.{AllByRecursion, AllZip};
ghost use Rattle.std.specs.Result.{IsOkUnless};
ghost use Rattle.upd_text.specs.Faults.{fault_at};
ghost use Rattle.upd_text.specs.declared.fault.FaultKind.TheVariants.{NoMemory};
ghost use Rattle.upd_core.specs.Edits.{next_age};
ghost use Rattle.upd_core.specs.Library.{cards_of, deck_of};
ghost use Rattle.upd_core.specs.Status.{live_of, live_targets};
ghost use Rattle.upd_correct.specs.Checked.{HasTexts};
ghost use Rattle.upd_correct.specs.Parts.{IsLed};
ghost use Rattle.upd_correct.specs.Checked.{AreDecksFrom, AreLeft, Brings, Corrects, HasOwnCards, IsDeckLeft, LeadsCards, LeavesCards, held_serials};

use crate::checked_cards::{are_left, are_same_cards};
use crate::checked_decks::{are_decks_from, are_decks_left};
use crate::checked_idents::{are_same_idents, brings};
use crate::checked_texts::{active_texts, are_texts_of};
use crate::correcting::EditBase;
use crate::edited_deck::EditedDeck;
use crate::plan::added_decks;
use std::alloc::{AllocError, Global};
use upd_core::{Library, Live, Serial};
use upd_text::Fault;

/// The serials of the decks of a text that are held.
fn held_serials(
    alloc: Global,
    library: &Library,
    decks: &[EditedDeck],
) -> Result<Vec<Serial>, AllocError>
    ensures { IfOk result (λ serials. serials.items ≡ held_serials library.now decks.now) }
{
    decks
        .iter()
        .filter_map(|deck| library.deck_of(&deck.name))
        .collect(alloc)
}

/// Whether the idents, the decks but for those with these serials, the yanks and the rest are as they were. New idents and
/// decks may follow.
fn is_kept(before: &Library, after: &Library, held: &[Serial]) -> bool
    ensures idents { IsTrue result → before.now.idents ≡ take (length before.now.idents) after.now.idents }
    ensures others { IsTrue result
        → AllZip (IsDeckLeft held.now) before.now.decks (take (length before.now.decks) after.now.decks) }
    ensures yanks { IsTrue result → before.now.yanks ≡ after.now.yanks }
    ensures rest { IsTrue result → before.now.rest ≡ after.now.rest }
{
    let (count, deck_count) = (before.idents().len(), before.decks().len());
    if after.idents().len() < count || after.decks().len() < deck_count {
        return false;
    }
    let (idents, _) = after.idents().split_at(count);
    let (decks, _) = after.decks().split_at(deck_count);
    before.rest() == after.rest()
        && are_same_cards(before.yanks(), after.yanks())
        && are_same_idents(before.idents(), idents)
        && are_decks_left(held, before.decks(), decks)
}

/// Whether the new idents and decks are the set and the new decks of a text.
fn is_grown(
    before: &Library,
    after: &Library,
    set: &[u8],
    run: &[u8],
    added: &[&EditedDeck],
) -> bool
    ensures brings { IsTrue result → Brings run.now (next_age before.now) set.now (map (λ d. d.now) added.now)
        (drop (length before.now.idents) after.now.idents) }
    ensures added { IsTrue result
        → AreDecksFrom (next_age before.now + 1) (drop (length before.now.decks) after.now.decks) }
    ensures count { IsTrue result → length (drop (length before.now.decks) after.now.decks) ≡ length added.now }
{
    let (count, deck_count) = (before.idents().len(), before.decks().len());
    if after.idents().len() < count || after.decks().len() < deck_count {
        return false;
    }
    let (_, idents) = after.idents().split_at(count);
    let (_, decks) = after.decks().split_at(deck_count);
    decks.len() == added.len()
        && are_decks_from(count + 2, decks)
        && brings(run, count + 1, set, added, idents)
}

/// Whether the cards of a new deck are its own, and active.
fn has_own_cards(after: &Library, taken: &Live, live: &Live, deck: &EditedDeck) -> bool
    ensures { (age : ℕ) → IsTrue result → deck_of deck.now.name after.now ≡ Some age
        → AreLeft taken.now.targets live.now.targets age age age [] (cards_of age after.now) }
{
    match after.deck_of(&deck.name) {
        None => false,
        Some(age) => are_left(
            taken,
            live,
            age,
            age as usize,
            age as usize,
            &[],
            after.cards_of(age),
        ),
    }
}

/// Whether the old cards of a deck are as they were or, if they are not younger than an ident and active for the text,
/// switched off, and its others are of the new set.
fn leaves_cards(
    before: &Library,
    after: &Library,
    taken: &Live,
    live: &Live,
    last: usize,
    deck: &EditedDeck,
) -> bool
    requires { live.now ≡ live_of before.now }
    ensures old { IsTrue result → LeavesCards taken.now.targets last before.now after.now deck.now }
    ensures own { IsTrue result → HasOwnCards taken.now.targets before.now after.now deck.now }
{
    match before.deck_of(&deck.name) {
        None => has_own_cards(after, taken, live, deck),
        Some(age) => {
            let set = before.idents().len() + 1;
            are_left(
                taken,
                live,
                age,
                set,
                last,
                before.cards_of(age),
                after.cards_of(age),
            )
        }
    }
}

/// Whether a deck has the texts of its lines.
fn has_texts(
    alloc: Global,
    after: &Library,
    live: &Live,
    deck: &EditedDeck,
) -> Result<bool, AllocError>
    ensures { IfOk result (λ ok. Decides ok (HasTexts live.now.targets after.now deck.now)) }
{
    let Some(age) = after.deck_of(&deck.name) else {
        return Ok(false);
    };
    let texts = active_texts(alloc, live, age, after.cards_of(age))?;
    Ok(are_texts_of(&texts, deck))
}

/// Whether the decks of a text have the texts of their lines.
pub(crate) fn have_texts(
    alloc: Global,
    after: &Library,
    live: &Live,
    decks: &[EditedDeck],
) -> Result<bool, AllocError>
    ensures { IfOk result (λ ok. Decides ok (AllByRecursion (HasTexts live.now.targets after.now) decks.now)) }
{
    for deck in decks {
        if !has_texts(alloc, after, live, deck)? {
            return Ok(false);
        }
    }
    Ok(true)
}

/// [`leaves_cards`] for all decks of a text.
fn leave_cards(
    before: &Library,
    after: &Library,
    taken: &Live,
    live: &Live,
    last: usize,
    decks: &[EditedDeck],
) -> bool
    requires { live.now ≡ live_of before.now }
    ensures { IsTrue result → AllByRecursion (LeadsCards taken.now.targets last before.now after.now) decks.now }
{
    for deck in decks {
        if !leaves_cards(before, after, taken, live, last, deck) {
            return false;
        }
    }
    true
}

/// Whether there is no run, or a deck hasn't the text of its lines yet.
pub(crate) fn is_needed(
    alloc: Global,
    library: &Library,
    decks: &[EditedDeck],
    is_none: bool,
) -> Result<bool, Fault>
    ensures needed { IfOk result (λ ok. IsTrue ok → AllByRecursion (HasTexts (live_targets library.now) library.now) decks.now
        → IsTrue is_none) }
    ensures err { IsOkUnless result (fault_at NoMemory 0) }
{
    if is_none {
        return Ok(true);
    }
    let live = library.live_yanks()?;
    let same = have_texts(alloc, library, &live, decks)?;
    Ok(!same)
}

/// Whether the decks of a text were led to it, by no run where they had it, and the directory, every other deck and the
/// yanks are as they were.
pub(crate) fn is_led(
    alloc: Global,
    before: &Library,
    after: &Library,
    decks: &[EditedDeck],
    is_none: bool,
) -> Result<bool, Fault>
    ensures led { IfOk result (λ ok. IsTrue ok → IsLed before.now decks.now after.now) }
    ensures needed { IfOk result (λ ok. IsTrue ok → AllByRecursion (HasTexts (live_targets before.now) before.now) decks.now
        → IsTrue is_none) }
{
    let held = held_serials(alloc, before, decks)?;
    if !is_kept(before, after, &held) || !is_needed(alloc, before, decks, is_none)? {
        return Ok(false);
    }
    let live = after.live_yanks()?;
    let same = have_texts(alloc, after, &live, decks)?;
    Ok(same)
}

/// Whether a run by a set led the decks of a text to it, and changed nothing else.
pub(crate) fn is_corrected(
    alloc: Global,
    base: &EditBase,
    after: &Library,
    set: &[u8],
    run: &[u8],
    decks: &[EditedDeck],
) -> Result<bool, Fault>
    ensures corrects { IfOk result (λ ok. IsTrue ok → Corrects (live_targets base.now.taken.now) base.now.last
        base.now.library.now set.now run.now decks.now after.now) }
    ensures err { IsOkUnless result (fault_at NoMemory 0) }
{
    let before = base.library;
    let held = held_serials(alloc, before, decks)?;
    let added = added_decks(alloc, before, decks)?;
    if !is_kept(before, after, &held) || !is_grown(before, after, set, run, &added) {
        return Ok(false);
    }
    let live = before.live_yanks()?;
    let taken = base.taken.live_yanks()?;
    if !leave_cards(before, after, &taken, &live, base.last, decks) {
        return Ok(false);
    }
    let same = have_texts(alloc, after, &taken, decks)?;
    Ok(same)
}
