//! Which decks a run changed.

ghost use Rattle.std.specs.Prelude.{◌≡◌, map, IfOk};
ghost use Rattle.std.specs.List.{filter};
ghost use Rattle.std.specs.Result.{IsOkUnless};
ghost use Rattle.upd_core.specs.Actives.{actives_of};
ghost use Rattle.upd_text.specs.Faults.{fault_at};
ghost use Rattle.upd_text.specs.declared.fault.FaultKind.TheVariants.{NoMemory};
ghost use Rattle.upd_compile.specs.Chosen.{changed, is_changed, same_card, same_cards};

use crate::indexed::Indexed;
use std::alloc::{AllocError, Global};
use upd_core::{ActiveCardRef, ActiveDeckRef, ActivesRef, Library, Serial};
use upd_text::Fault;

/// The serials of the decks that changed from one library to another, in rising order.
///
/// A deck changed where it is new, or its active cards differ.
pub fn changed(alloc: Global, before: &Library, after: &Library) -> Result<Vec<Serial>, Fault>
    ensures ok { IfOk result (λ ages. ages.items ≡ changed (actives_of before.now) (actives_of after.now)) }
    ensures err { IsOkUnless result (fault_at NoMemory 0) }
{
    let before = before.actives_shown()?;
    let after = after.actives_shown()?;
    let ages = changed_ages(alloc, &before, &after.decks)?;
    Ok(ages)
}

fn changed_ages(
    alloc: Global,
    before: &ActivesRef,
    decks: &[ActiveDeckRef],
) -> Result<Vec<Serial>, AllocError>
    ensures { IfOk result (λ ages. ages.items ≡ map (λ d. d.ident) (filter (is_changed before.now) decks.now)) }
{
    let before = Indexed::new(alloc, before)?;
    ages_changed_since(alloc, &before, decks)
}

fn ages_changed_since(
    alloc: Global,
    before: &Indexed,
    decks: &[ActiveDeckRef],
) -> Result<Vec<Serial>, AllocError>
    ensures { IfOk result (λ ages. ages.items ≡ map (λ d. d.ident) (filter (is_changed before.now) decks.now)) }
{
    let mut ages = Vec::new(alloc);
    for deck in decks {
        if is_changed(before, deck) {
            ages.push(deck.ident)?;
        }
    }
    Ok(ages)
}

/// Whether each of these decks changed.
pub(crate) fn change_flags(
    alloc: Global,
    before: &ActivesRef,
    decks: &[ActiveDeckRef],
) -> Result<Vec<bool>, AllocError>
    ensures { IfOk result (λ flags. flags.items ≡ map (is_changed before.now) decks.now) }
{
    let before = Indexed::new(alloc, before)?;
    let mut flags = Vec::with_capacity(alloc, decks.len())?;
    for deck in decks {
        flags.push(is_changed(&before, deck))?;
    }
    Ok(flags)
}

fn is_changed(before: &Indexed, deck: &ActiveDeckRef) -> bool
    ensures { result ≡ is_changed before.now deck.now }
{
    match before.deck_aged(deck.ident) {
        Some(was) => !same_cards(&was.cards, &deck.cards),
        None => true,
    }
}

fn same_cards(was: &[ActiveCardRef], cards: &[ActiveCardRef]) -> bool
    ensures { result ≡ same_cards was.now cards.now }
{
    if was.len() != cards.len() {
        return false;
    }
    for i in 0..cards.len() {
        if !same_card(&was[i], &cards[i]) {
            return false;
        }
    }
    true
}

fn same_card(was: &ActiveCardRef, card: &ActiveCardRef) -> bool
    ensures { result ≡ same_card was.now card.now }
{
    was.ident == card.ident && was.number == card.number && was.text == card.text
}
