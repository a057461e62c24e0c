//! The active cards of a library out of rows, which come in any order.
ghost use Rattle.std.specs.Prelude.{◌≡◌, IfOk, IsPermutation, List, OnOk};
ghost use Rattle.upd_core.specs.Actives.{actives_of};
ghost use Rattle.upd_core.specs.Library.{LibraryView};
ghost use Rattle.upd_core.specs.declared.ident.Ident.{Ident};
ghost use Rattle.upd_core.specs.Sound.{IsSound};
ghost use Rattle.upd_records.specs.Rows.{IsSame, Rows, Shows, ShowsStates};
ghost use Rattle.upd_row_store.specs.Activating.{AreStatesByCard, actives_in, behind_yanks, is_active_in, with_active};
ghost use Rattle.upd_row_store.specs.Assembling.{AreAgesOf};

use crate::assemble::{age_of, held_ages};
use crate::by_card::rows_of;
use crate::sorted_rows::{by_age, by_place};
use std::alloc::{AllocError, Global};
use std::collections::BTreeMap;
use std::mem;
use upd_core::{ActiveDeck, Actives, CardRef, Ident, Serial};
use upd_records::{CardRow, StateRow};
use upd_text::Name;

fn states_by_card(rows: Vec<StateRow>) -> Vec<StateRow>
    ensures permutation { IsPermutation rows.items result.items }
    ensures sorted { AreStatesByCard result.items }
{
    let mut rows = rows;
    rows.sort_unstable_by_key(|row| row.card);
    rows
}

/// Whether a card's row says that it is active.
fn is_active(states: &[StateRow], next: &mut usize, card: &CardRef) -> bool
    requires { AreStatesByCard states.now }
    ensures { result ≡ is_active_in states.now card.now }
{
    rows_of(states, next, card).iter().any(|row| row.active)
}

/// Adds the card of a row to its deck, if it is active.
fn add_row(
    deck: &mut ActiveDeck,
    row: &CardRow,
    ages: &BTreeMap<Name, Serial>,
    states: &[StateRow],
    next: &mut usize,
) -> Result<(), AllocError>
    requires { AreStatesByCard states.now }
    ensures { OnOk result ((idents : List Ident) → AreAgesOf idents ages.now
        → deck.new ≡ with_active idents states.now row.now deck.old) }
{
    if is_active(states, next, &row.card) {
        deck.push(age_of(ages, &row.card.name), row.card.number, &row.body)?;
    }
    Ok(())
}

/// The active cards of all decks, `YANK$$$` in front.
fn active_decks(
    alloc: Global,
    idents: &[Ident],
    cards: &[CardRow],
    states: &[StateRow],
) -> Result<Vec<ActiveDeck>, AllocError>
    requires { AreStatesByCard states.now }
    ensures { IfOk result (λ decks. decks.items ≡ actives_in idents.now states.now cards.now) }
{
    let ages = held_ages(alloc, idents)?;
    let mut decks = Vec::new(alloc);
    let mut deck = ActiveDeck::new(alloc, 0);
    let mut next = 0;
    for row in cards {
        if row.deck != deck.ident {
            decks.push(mem::replace(&mut deck, ActiveDeck::new(alloc, row.deck)))?;
        }
        add_row(&mut deck, row, &ages, states, &mut next)?;
    }
    decks.push(deck)?;
    Ok(decks)
}

/// The active cards of a directory and decks, of which the first is `YANK$$$`.
fn behind_yanks(idents: Vec<Ident>, decks: Vec<ActiveDeck>) -> Actives
    ensures { result ≡ behind_yanks idents.items decks.items }
{
    let mut decks = decks;
    if !decks.is_empty() {
        decks.remove(0);
    }
    Actives { idents, decks }
}

/// The active cards of the library of rows that come in any order, by its rows of statuses; memory alone can fail.
/// Where they are no library's rows it is some directory and decks, of which nothing is promised.
pub fn assembled_active(
    alloc: Global,
    idents: Vec<Ident>,
    cards: Vec<CardRow>,
    states: Vec<StateRow>,
) -> Result<Actives, AllocError>
    ensures { (tables : Rows) (l : LibraryView) → IsSound l → Shows tables l → ShowsStates tables l
        → IsSame idents.items tables.idents → IsSame cards.items tables.cards → IsSame states.items tables.states
        → IfOk result (λ found. found ≡ actives_of l) }
{
    let idents = by_age(idents);
    let cards = by_place(cards);
    let states = states_by_card(states);
    let decks = active_decks(alloc, &idents, &cards, &states)?;
    Ok(behind_yanks(idents, decks))
}
