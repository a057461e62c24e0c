//! Cards that go at once: each deck that they are in is passed over once.

ghost use Rattle.std.specs.Prelude.{◌≡◌, ◌==◌, ◌||◌, ℕ, true, not, if◌then◌else◌, IfOk, IsTrue, OnOk};
ghost use Rattle.std.specs.List.{filter, list_any};
ghost use Rattle.std.specs.Ordering.{is_eq};
ghost use Rattle.upd_text.specs.Order.{by_name};
ghost use Rattle.upd_text.specs.declared.card_ref.CardRef.{CardRef};
ghost use Rattle.upd_core.specs.Edits as serials;
ghost use Rattle.upd_row_store.specs.Ranges.{is_among};
ghost use Rattle.upd_memory.specs.RowsByKey.{cards_at, is_home, is_in};

use crate::tables::home_of;
use std::alloc::{AllocError, Global};
use std::collections::BTreeMap;
use upd_core::{CardRef, Serial};
use upd_records::CardRow;

/// Adds a card to a set.
fn add_to_set(set: &mut BTreeMap<CardRef, ()>, card: CardRef) -> Result<(), AllocError>
    ensures { OnOk result ((c : CardRef) → is_in set.new c ≡ (if is_eq (by_name card c) then true else is_in set.old c)) }
{
    set.insert(card, ())?;
    Ok(())
}

/// The set of these cards.
pub(crate) fn set_of(alloc: Global, cards: &[CardRef]) -> Result<BTreeMap<CardRef, ()>, AllocError>
    ensures { IfOk result (λ set. (c : CardRef) → is_in set c ≡ is_among cards.now c) }
{
    let mut set = BTreeMap::new(alloc);
    for card in cards {
        add_to_set(&mut set, *card)?;
    }
    Ok(set)
}

fn is_last(decks: &[Serial], deck: Serial) -> bool
    ensures { IsTrue result → serials.is_among decks.now deck ≡ true }
{
    match decks.last() {
        Some(last) => *last == deck,
        None => false,
    }
}

/// Lists a deck, unless it is the last one listed.
fn list_once(decks: &mut Vec<Serial>, deck: Serial) -> Result<(), AllocError>
    ensures { OnOk result ((d : ℕ) → serials.is_among decks.new.items d ≡ (serials.is_among decks.old.items d || (deck == d))) }
{
    if is_last(decks, deck) {
        return Ok(());
    }
    decks.push(deck)?;
    Ok(())
}

/// Lists the deck that a card is known to be in.
fn list_home(
    decks: &mut Vec<Serial>,
    homes: &BTreeMap<CardRef, Serial>,
    card: &CardRef,
) -> Result<(), AllocError>
    ensures { OnOk result ((d : ℕ) → serials.is_among decks.new.items d ≡ (serials.is_among decks.old.items d || is_home homes.now card.now d)) }
{
    match home_of(homes, card) {
        Some(deck) => list_once(decks, deck),
        None => Ok(()),
    }
}

/// The decks that cards are known to be in.
pub(crate) fn homes_listed(
    alloc: Global,
    homes: &BTreeMap<CardRef, Serial>,
    cards: &[CardRef],
) -> Result<Vec<Serial>, AllocError>
    ensures { IfOk result (λ decks. (d : ℕ) → serials.is_among decks.items d ≡ list_any (λ c. is_home homes.now c d) cards.now) }
{
    let mut decks = Vec::new(alloc);
    for card in cards {
        list_home(&mut decks, homes, card)?;
    }
    Ok(decks)
}

/// Takes the rows of a set's cards away.
fn drop_set(rows: &mut Vec<CardRow>, set: &BTreeMap<CardRef, ()>)
    ensures { rows.new.items ≡ filter (λ r. not (is_in set.now r.card)) rows.old.items }
{
    rows.retain(|row| !set.contains_key(&row.card));
}

/// Takes the rows of a set's cards out of a deck.
fn drop_set_of(
    decks: &mut BTreeMap<Serial, Vec<CardRow>>,
    deck: Serial,
    set: &BTreeMap<CardRef, ()>,
)
    ensures { (d : ℕ) → cards_at decks.new d ≡ (if deck == d
        then filter (λ r. not (is_in set.now r.card)) (cards_at decks.old d) else cards_at decks.old d) }
{
    if let Some(rows) = decks.get_mut(&deck) {
        drop_set(rows, set);
    }
}

/// Takes the rows of a set's cards out of these decks.
pub(crate) fn drop_set_of_all(
    decks: &mut BTreeMap<Serial, Vec<CardRow>>,
    listed: &[Serial],
    set: &BTreeMap<CardRef, ()>,
)
    ensures { (d : ℕ) → cards_at decks.new d ≡ (if serials.is_among listed.now d
        then filter (λ r. not (is_in set.now r.card)) (cards_at decks.old d) else cards_at decks.old d) }
{
    for deck in listed {
        drop_set_of(decks, *deck, set);
    }
}
