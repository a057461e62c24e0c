//! Copies of rows in memory, for whoever makes a library of them.

ghost use Rattle.std.specs.Prelude.{◌≡◌, ◌++◌, ◌||◌, ℕ, [], Some, if◌then◌else◌, length, map, IfOk, IfSome, OnOk};
ghost use Rattle.std.specs.BTreeMap.{IsOrdered};
ghost use Rattle.std.specs.List.{find, flat_map, list_any};
ghost use Rattle.std.specs.List.Sorted.{IsPermutation};
ghost use Rattle.std.specs.Ordering.{nat_cmp};
ghost use Rattle.upd_text.specs.Order.{by_name};
ghost use Rattle.upd_core.specs.Edits.{is_among};
ghost use Rattle.upd_row_store.specs.PartRows.{is_loaded};
ghost use Rattle.upd_memory.specs.RowsByKey.{cards_at, entries_at, is_home};
ghost use Rattle.upd_records.specs.Rows.{same_ref};
ghost use Rattle.upd_memory.specs.Mirrored.{state_row};
ghost use Rattle.upd_memory.specs.Walk.{AreFound};

use crate::card_walk::next_value;
use crate::tables::home_of;
use std::alloc::{AllocError, Global};
use std::collections::BTreeMap;
use std::collections::btree_map::Range;
use upd_core::{CardRef, Serial};
use upd_records::{CardRow, EntryRow, StateRow, same_ref};

/// Adds copies of rows of cards.
fn add_copies(rows: &mut Vec<CardRow>, cards: &[CardRow]) -> Result<(), AllocError>
    ensures { OnOk result (rows.new.items ≡ rows.old.items ++ cards.now) }
{
    for card in cards {
        rows.push(card.copy()?)?;
    }
    Ok(())
}

/// Adds copies of the rows of a deck, if it is `YANK$$$` or of one of these ages.
fn add_if_loaded(
    rows: &mut Vec<CardRow>,
    cards: &[CardRow],
    age: Serial,
    ages: &[Serial],
) -> Result<(), AllocError>
    ensures { OnOk result (rows.new.items ≡ rows.old.items ++ (if is_loaded ages.now age then cards.now else [])) }
{
    if age == 0 || ages.contains(&age) {
        add_copies(rows, cards)?;
    }
    Ok(())
}

/// The rows of the cards of `YANK$$$` and of the decks of these ages.
pub(crate) fn cards_of(
    alloc: Global,
    decks: &BTreeMap<Serial, Vec<CardRow>>,
    ages: &[Serial],
) -> Result<Vec<CardRow>, AllocError>
    ensures rows { IfOk result (λ rows. rows.items
        ≡ flat_map (λ e. if is_loaded ages.now e.0 then e.1.items else []) decks.now.entries) }
    ensures ordered { OnOk result (IsOrdered nat_cmp decks.now) }
{
    let mut rows = Vec::new(alloc);
    for (age, cards) in decks {
        add_if_loaded(&mut rows, cards, *age, ages)?;
    }
    Ok(rows)
}

/// The row of a card among rows.
fn row_of<'a>(rows: &'a [CardRow], card: &CardRef) -> Option<&'a CardRow>
    ensures { IfSome result (λ row. find (λ r. same_ref card.now r.card) rows.now ≡ Some row.now) }
{
    rows.iter().find(|row| same_ref(card, &row.card))
}

/// The row of a card of the deck with this serial.
pub(crate) fn row_in<'a>(
    decks: &'a BTreeMap<Serial, Vec<CardRow>>,
    deck: Serial,
    card: &CardRef,
) -> Option<&'a CardRow>
    ensures { IfSome result (λ row. find (λ r. same_ref card.now r.card) (cards_at decks.now deck) ≡ Some row.now) }
{
    match decks.get(&deck) {
        Some(rows) => row_of(rows, card),
        None => None,
    }
}

/// The rows of all cards.
pub(crate) fn all_cards(
    alloc: Global,
    decks: &BTreeMap<Serial, Vec<CardRow>>,
) -> Result<Vec<CardRow>, AllocError>
    ensures rows { IfOk result (λ rows. rows.items ≡ flat_map (λ e. e.1.items) decks.now.entries) }
    ensures ordered { OnOk result (IsOrdered nat_cmp decks.now) }
{
    let mut rows = Vec::new(alloc);
    for (_, cards) in decks {
        add_copies(&mut rows, cards)?;
    }
    Ok(rows)
}

/// The number of all cards; none where it is no number of 64 bits.
pub(crate) fn card_count(decks: &BTreeMap<Serial, Vec<CardRow>>) -> Option<u64>
    ensures count { IfSome result (λ count. count ≡ length (flat_map (λ e. e.1.items) decks.now.entries)) }
    ensures ordered { IsOrdered nat_cmp decks.now }
{
    let mut count: u64 = 0;
    for (_, cards) in decks {
        count = count.checked_add(cards.len() as u64)?;
    }
    Some(count)
}

/// The rows of a card's entries, which are looked for behind those that were found last first.
fn next_entries<'a>(
    entries: &'a BTreeMap<CardRef, Vec<EntryRow>>,
    rest: &mut Range<'a, CardRef, Vec<EntryRow>>,
    card: &CardRef,
) -> &'a [EntryRow]
    requires { AreFound entries.now rest.old }
    ensures own { result.now ≡ entries_at entries.now card.now }
    ensures rest { AreFound entries.now rest.new }
{
    match next_value(entries, rest, card) {
        Some(own) => own,
        None => &[],
    }
}

/// The cards of rows.
fn cards_in(alloc: Global, rows: &[CardRow]) -> Result<Vec<CardRef>, AllocError>
    ensures { IfOk result (λ cards. cards.items ≡ map (λ r. r.card) rows.now) }
{
    let mut cards = Vec::with_capacity(alloc, rows.len())?;
    for row in rows {
        cards.push(row.card)?;
    }
    Ok(cards)
}

/// The cards of rows, by name: whoever sorts their entries finds them in order. They mostly come in a few runs by name,
/// which a stable sort joins.
pub(crate) fn sorted_references(alloc: Global, rows: &[CardRow]) -> Result<Vec<CardRef>, AllocError>
    ensures { IfOk result (λ cards. IsPermutation (map (λ r. r.card) rows.now) cards.items) }
{
    let mut cards = cards_in(alloc, rows)?;
    cards.sort()?;
    Ok(cards)
}

/// The rows of the entries of these cards.
pub(crate) fn entries_of(
    alloc: Global,
    entries: &BTreeMap<CardRef, Vec<EntryRow>>,
    cards: &[CardRef],
) -> Result<Vec<EntryRow>, AllocError>
    ensures { IfOk result (λ rows. rows.items ≡ flat_map (entries_at entries.now) cards.now) }
{
    let mut rows = Vec::new(alloc);
    let mut rest = entries.range(..);
    for card in cards {
        rows.extend_from_slice(next_entries(entries, &mut rest, card))?;
    }
    Ok(rows)
}

/// The rows of all entries.
pub(crate) fn all_entries(
    alloc: Global,
    entries: &BTreeMap<CardRef, Vec<EntryRow>>,
) -> Result<Vec<EntryRow>, AllocError>
    ensures rows { IfOk result (λ rows. rows.items ≡ flat_map (λ e. e.1.items) entries.now.entries) }
    ensures ordered { OnOk result (IsOrdered by_name entries.now) }
{
    let mut rows = Vec::new(alloc);
    for (_, own) in entries {
        rows.extend_from_slice(own)?;
    }
    Ok(rows)
}

/// The rows of all statuses.
pub(crate) fn all_states(
    alloc: Global,
    statuses: &BTreeMap<CardRef, bool>,
) -> Result<Vec<StateRow>, AllocError>
    ensures rows { IfOk result (λ rows. rows.items ≡ map state_row statuses.now.entries) }
    ensures ordered { OnOk result (IsOrdered by_name statuses.now) }
{
    let mut rows = Vec::with_capacity(alloc, statuses.len())?;
    for (card, active) in statuses {
        rows.push(StateRow {
            card: *card,
            active: *active,
        })?;
    }
    Ok(rows)
}

/// Adds the age of a card's deck, if it has one.
fn add_home(
    ages: &mut Vec<Serial>,
    homes: &BTreeMap<CardRef, Serial>,
    card: &CardRef,
) -> Result<(), AllocError>
    ensures { OnOk result ((d : ℕ) → is_among ages.new.items d
        ≡ (is_among ages.old.items d || is_home homes.now card.now d)) }
{
    if let Some(home) = home_of(homes, card) {
        ages.push(home)?;
    }
    Ok(())
}

/// The ages of the decks of these cards, as often.
pub(crate) fn homes_of(
    alloc: Global,
    homes: &BTreeMap<CardRef, Serial>,
    cards: &[CardRef],
) -> Result<Vec<Serial>, AllocError>
    ensures { IfOk result (λ ages. (d : ℕ) → is_among ages.items d ≡ list_any (λ c. is_home homes.now c d) cards.now) }
{
    let mut ages = Vec::new(alloc);
    for card in cards {
        add_home(&mut ages, homes, card)?;
    }
    Ok(ages)
}
