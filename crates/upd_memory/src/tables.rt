//! Rows in memory, one table at a time.

ghost use Rattle.std.specs.Prelude.{◌≡◌, ◌==◌, ◌∷◌, ◌++◌, ℕ, [], None};
ghost use Rattle.std.specs.Prelude.{Some, false, not, if◌then◌else◌, List, map, length, OnOk, OnSome};
ghost use Rattle.std.specs.BTreeMap.{get};
ghost use Rattle.std.specs.List.{AllByRecursion, filter};
ghost use Rattle.std.specs.Ordering.{is_eq};
ghost use Rattle.upd_text.specs.Order.{by_name};
ghost use Rattle.upd_text.specs.declared.card_ref.CardRef.{CardRef};
ghost use Rattle.upd_core.specs.Targets.{is_same};
ghost use Rattle.upd_records.specs.Rows.{CardRow, IsSame, StateRow};
ghost use Rattle.upd_row_store.specs.declared.moves.Move.{Move};
ghost use Rattle.upd_row_store.specs.Ranges.{is_among};
ghost use Rattle.upd_row_store.specs.Shifts.{IsPiece, moved_all};
ghost use Rattle.upd_memory.specs.RowsByKey.{AreHomes, AreStatuses, cards_at, entries_at, is_home};

use std::alloc::{AllocError, Global};
use std::collections::BTreeMap;
use upd_core::{CardRef, Serial, Target};
use upd_records::{CardRow, EntryRow};
use upd_row_store::{Piece, place_by};

// ---- counts, in any order

/// Takes a target's count away.
pub(crate) fn drop_count(counts: &mut Vec<(Target, u32)>, target: Target)
    ensures { counts.new.items ≡ filter (λ p. not (is_same target p.0)) counts.old.items }
{
    counts.retain(|pair| target != pair.0);
}

// ---- cards, by deck

/// Adds the row of a card, after those that are at its place or before it: rows that are by place stay so.
fn insert_card(cards: &mut Vec<CardRow>, row: CardRow) -> Result<(), AllocError>
    ensures { OnOk result (IsSame cards.new.items (cards.old.items ++ row ∷ [])) }
{
    let place = row.pos;
    let at = cards.partition_point(|other| other.pos <= place);
    cards.insert(at, row)?;
    Ok(())
}

/// Adds the row of a card to those of its deck.
pub(crate) fn add_card(
    decks: &mut BTreeMap<Serial, Vec<CardRow>>,
    row: CardRow,
) -> Result<(), AllocError>
    ensures { OnOk result ((d : ℕ) → IsSame (cards_at decks.new d)
        (if row.deck == d then cards_at decks.old d ++ row ∷ [] else cards_at decks.old d)) }
{
    insert_card(decks.entry(row.deck)?.or_default(), row)
}

/// Moves a card where it is in a deck, by the pieces of the deck's moves.
fn place_card(row: &mut CardRow, deck: Serial, pieces: &[Piece]) -> Option<()>
    ensures { OnSome result ((moves : List Move) → AllByRecursion (IsPiece moves) pieces.now → row.new ≡ moved_all deck moves row.old) }
{
    if row.deck == deck {
        row.pos = place_by(pieces, row.pos)?;
    }
    Some(())
}

/// Moves the cards of a deck, by the pieces of its moves.
fn place_cards(cards: &mut [CardRow], deck: Serial, pieces: &[Piece]) -> Option<()>
    ensures { OnSome result ((moves : List Move) → AllByRecursion (IsPiece moves) pieces.now → cards.new ≡ map (moved_all deck moves) cards.old) }
{
    for row in cards.iter_mut() {
        place_card(row, deck, pieces)?;
    }
    Some(())
}

/// Moves the cards of a deck, of all decks, by the pieces of its moves.
pub(crate) fn place_cards_of(
    decks: &mut BTreeMap<Serial, Vec<CardRow>>,
    deck: Serial,
    pieces: &[Piece],
) -> Option<()>
    ensures { OnSome result ((moves : List Move) → AllByRecursion (IsPiece moves) pieces.now → (d : ℕ) → cards_at decks.new d
        ≡ (if deck == d then map (moved_all deck moves) (cards_at decks.old d) else cards_at decks.old d)) }
{
    match decks.get_mut(&deck) {
        Some(cards) => place_cards(cards, deck, pieces),
        None => Some(()),
    }
}

// ---- the decks of cards

/// Notes the deck of a card.
pub(crate) fn put_home(
    homes: &mut BTreeMap<CardRef, Serial>,
    card: CardRef,
    deck: Serial,
) -> Result<(), AllocError>
    ensures { OnOk result ((c : CardRef) (d : ℕ) → is_home homes.new c d
        ≡ (if is_eq (by_name card c) then deck == d else is_home homes.old c d)) }
{
    homes.insert(card, deck)?;
    Ok(())
}

/// A card is in no deck.
fn drop_home(homes: &mut BTreeMap<CardRef, Serial>, card: &CardRef)
    ensures { (c : CardRef) (d : ℕ) → is_home homes.new c d
        ≡ (if is_eq (by_name card.now c) then false else is_home homes.old c d) }
{
    homes.remove(card);
}

/// The deck of a card.
pub(crate) fn home_of(homes: &BTreeMap<CardRef, Serial>, card: &CardRef) -> Option<Serial>
    ensures { result ≡ get by_name homes.now card.now }
{
    homes.get(card).copied()
}

/// Cards are in no deck.
pub(crate) fn drop_homes(homes: &mut BTreeMap<CardRef, Serial>, cards: &[CardRef])
    ensures { (rows : List CardRow) → AreHomes homes.old rows → AreHomes homes.new (filter (λ r. not (is_among cards.now r.card)) rows) }
{
    for card in cards {
        drop_home(homes, card);
    }
}

// ---- statuses, by card

/// Sets the status of a card.
pub(crate) fn put_status(
    statuses: &mut BTreeMap<CardRef, bool>,
    card: CardRef,
    active: bool,
) -> Result<(), AllocError>
    ensures { OnOk result ((c : CardRef) → get by_name statuses.new c
        ≡ (if is_eq (by_name card c) then Some active else get by_name statuses.old c)) }
{
    statuses.insert(card, active)?;
    Ok(())
}

/// Takes the status of a card away.
fn drop_status(statuses: &mut BTreeMap<CardRef, bool>, card: &CardRef)
    ensures { (c : CardRef) → get by_name statuses.new c
        ≡ (if is_eq (by_name card.now c) then None else get by_name statuses.old c) }
{
    statuses.remove(card);
}

/// Takes the statuses of cards away.
pub(crate) fn drop_statuses(statuses: &mut BTreeMap<CardRef, bool>, cards: &[CardRef])
    ensures { (rows : List StateRow) → AreStatuses statuses.old rows
        → AreStatuses statuses.new (filter (λ r. not (is_among cards.now r.card)) rows) }
{
    for card in cards {
        drop_status(statuses, card);
    }
}

/// The status of a card.
pub(crate) fn status_of(statuses: &BTreeMap<CardRef, bool>, card: &CardRef) -> Option<bool>
    ensures { result ≡ get by_name statuses.now card.now }
{
    statuses.get(card).copied()
}

// ---- entries, by card

/// Puts an entry as the only one of its card, without room for more: most cards have one.
fn put_entry(
    alloc: Global,
    entries: &mut BTreeMap<CardRef, Vec<EntryRow>>,
    row: EntryRow,
) -> Result<(), AllocError>
    ensures { OnOk result ((c : CardRef) → entries_at entries.new c
        ≡ (if is_eq (by_name row.card c) then row ∷ [] else entries_at entries.old c)) }
{
    let own = Vec::from_slice(alloc, &[row])?;
    entries.insert(row.card, own)?;
    Ok(())
}

/// Adds an entry to those of its card.
pub(crate) fn add_entry(
    alloc: Global,
    entries: &mut BTreeMap<CardRef, Vec<EntryRow>>,
    row: EntryRow,
) -> Result<(), AllocError>
    ensures { OnOk result ((c : CardRef) → entries_at entries.new c
        ≡ (if is_eq (by_name row.card c) then entries_at entries.old row.card
        ++ row ∷ [] else entries_at entries.old c)) }
{
    if let Some(own) = entries.get_mut(&row.card) {
        own.push(row)?;
        return Ok(());
    }
    put_entry(alloc, entries, row)
}

/// Takes a card's entries away, and returns how many there were.
pub(crate) fn drop_entries(entries: &mut BTreeMap<CardRef, Vec<EntryRow>>, card: &CardRef) -> usize
    ensures count { result ≡ length (entries_at entries.old card.now) }
    ensures rest { (c : CardRef) → entries_at entries.new c
        ≡ (if is_eq (by_name card.now c) then [] else entries_at entries.old c) }
{
    match entries.remove(card) {
        Some(gone) => gone.len(),
        None => 0,
    }
}
