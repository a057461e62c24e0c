//! The active cards of a library, straight from rows in memory.

ghost use Rattle.std.specs.Prelude.{◌≡◌, ◌++◌, [], map, List, IfOk, OnOk};
ghost use Rattle.std.specs.BTreeMap.{IsOrdered};
ghost use Rattle.std.specs.List.{list_all};
ghost use Rattle.std.specs.Ordering.{nat_cmp};
ghost use Rattle.upd_core.specs.declared.ident.Ident.{Ident};
ghost use Rattle.upd_row_store.specs.Activating.{with_active};
ghost use Rattle.upd_row_store.specs.Assembling.{AreAgesOf};
ghost use Rattle.upd_memory.specs.ActiveRows.{AreInOrder, IsAgeOf, rise_from, shown_deck, shown_decks, with_rows};
ghost use Rattle.upd_memory.specs.Mirrored.{state_row};

use crate::status_lookup::Statuses;
use std::alloc::{AllocError, Global};
use std::collections::BTreeMap;
use upd_core::{ActiveDeck, Serial};
use upd_records::CardRow;
use upd_row_store::age_of;
use upd_text::Name;

/// Whether rows are by their places.
fn are_by_place(rows: &[CardRow]) -> bool
    ensures { result ≡ rise_from 0 rows.now }
{
    let mut last = 0;
    for row in rows {
        if row.pos < last {
            return false;
        }
        last = row.pos;
    }
    true
}

/// Whether the rows of each deck are by their places.
pub(crate) fn all_by_place(decks: &BTreeMap<Serial, Vec<CardRow>>) -> bool
    ensures { result ≡ list_all (λ e. rise_from 0 e.1.items) decks.now.entries }
{
    for (_, rows) in decks {
        if !are_by_place(rows) {
            return false;
        }
    }
    true
}

/// The name of an ident that was looked up, and its serial: cards of an ident mostly come side by side.
#[derive(Drop)]
struct Known {
    name: Name,
    age: Serial,
}

/// The serial of the ident of a name, as `age_of` finds it, unless it is known.
fn known_age(ages: &BTreeMap<Name, Serial>, known: &mut Known, name: &Name) -> Serial
    requires { IsAgeOf ages.now known.old.name known.old.age }
    ensures age { IsAgeOf ages.now name.now result }
    ensures known { IsAgeOf ages.now known.new.name known.new.age }
{
    if known.name == *name {
        return known.age;
    }
    let age = age_of(ages, name);
    *known = Known { name: *name, age };
    age
}

/// Adds the card of a row to its deck, if it is active.
fn add_row(
    deck: &mut ActiveDeck,
    row: &CardRow,
    ages: &BTreeMap<Name, Serial>,
    known: &mut Known,
    statuses: &mut Statuses,
) -> Result<(), AllocError>
    requires { IsAgeOf ages.now known.old.name known.old.age }
    ensures known { IsAgeOf ages.now known.new.name known.new.age }
    ensures pairs { statuses.new.pairs ≡ statuses.old.pairs }
    ensures deck { OnOk result ((idents : List Ident) → AreAgesOf idents ages.now → AreInOrder statuses.old.pairs.now
        → deck.new ≡ with_active idents (map state_row statuses.old.pairs.now) row.now deck.old) }
{
    if statuses.is_active(&row.card) {
        let age = known_age(ages, known, &row.card.name);
        deck.push(age, row.card.number, &row.body)?;
    }
    Ok(())
}

/// The active cards of a deck with these rows.
fn active_deck(
    alloc: Global,
    age: Serial,
    rows: &[CardRow],
    ages: &BTreeMap<Name, Serial>,
    statuses: &mut Statuses,
) -> Result<ActiveDeck, AllocError>
    ensures pairs { statuses.new.pairs ≡ statuses.old.pairs }
    ensures deck { IfOk result (λ deck. (idents : List Ident) → AreAgesOf idents ages.now → AreInOrder statuses.old.pairs.now
        → deck ≡ with_rows idents (map state_row statuses.old.pairs.now) (record { ident = age; cards = [] }) rows.now) }
{
    let mut deck = ActiveDeck::new(alloc, age);
    let name = Name::none();
    let mut known = Known {
        name,
        age: age_of(ages, &name),
    };
    for row in rows {
        add_row(&mut deck, row, ages, &mut known, statuses)?;
    }
    Ok(deck)
}

/// Adds the active cards of a deck, unless it has no cards or is `YANK$$$`.
fn add_deck(
    alloc: Global,
    found: &mut Vec<ActiveDeck>,
    age: Serial,
    rows: &[CardRow],
    ages: &BTreeMap<Name, Serial>,
    statuses: &mut Statuses,
) -> Result<(), AllocError>
    ensures pairs { statuses.new.pairs ≡ statuses.old.pairs }
    ensures decks { OnOk result ((idents : List Ident) → AreAgesOf idents ages.now → AreInOrder statuses.old.pairs.now
        → found.new.items ≡ found.old.items ++ shown_deck idents (map state_row statuses.old.pairs.now) age rows.now) }
{
    if age == 0 || rows.is_empty() {
        return Ok(());
    }
    found.push(active_deck(alloc, age, rows, ages, statuses)?)?;
    Ok(())
}

/// The active cards of all decks but `YANK$$$`.
pub(crate) fn active_decks(
    alloc: Global,
    decks: &BTreeMap<Serial, Vec<CardRow>>,
    ages: &BTreeMap<Name, Serial>,
    statuses: &mut Statuses,
) -> Result<Vec<ActiveDeck>, AllocError>
    ensures decks { IfOk result (λ found. (idents : List Ident) → AreAgesOf idents ages.now
        → AreInOrder statuses.old.pairs.now → found.items ≡ shown_decks idents (map state_row statuses.old.pairs.now) decks.now.entries) }
    ensures ordered { OnOk result (IsOrdered nat_cmp decks.now) }
{
    let mut found = Vec::new(alloc);
    for (age, rows) in decks {
        add_deck(alloc, &mut found, *age, rows, ages, statuses)?;
    }
    Ok(found)
}
