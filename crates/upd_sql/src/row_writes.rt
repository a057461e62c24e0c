//! Row changes, carried out by statements.
ghost use Rattle.std.specs.Prelude.{◌≡◌, IfSome, map, option_copied, pos};
ghost use Rattle.sqlite.specs.Held.{state};
ghost use Rattle.upd_records.specs.Changes.{done, done_all, change_view, CardsMoved, CountNow, StatusNow};
ghost use Rattle.upd_records.specs.Fits.{AllFit, Fits};
ghost use Rattle.upd_records.specs.Rows.{same_ref};
ghost use Rattle.upd_row_store.specs.Movable.{MovesListed};
ghost use Rattle.upd_row_store.specs.Shifts.{as_change};
ghost use Rattle.upd_sqlite.specs.Steps.{Makes};
ghost use Rattle.upd_sql.specs.Commits.{Inside};
ghost use Rattle.upd_sql.specs.Doable.{AllCanBeDone, CanBeDone};
ghost use Rattle.upd_sql.specs.LibraryTables.{AnyTables, HoldsTables};
ghost use Rattle.upd_sql.specs.Moving.{MakesIf};
ghost use Rattle.upd_sql.specs.RowEdits.{with_state, without_states};

use crate::many_decks::{move_decks_together, part_in_decks};
use crate::moving::move_together;
use crate::removing::{remove, remove_together};
use crate::writes;
use sqlite::{Alter, Error, Transaction};
use std::alloc::Global;
use std::collections::BTreeMap;
use upd_core::{CardRef, Change, Name, Serial, Target};
use upd_row_store::{CardRange, CardRows, Move, moves_of};

/// Puts the card's status after all others, in place of those that the card has.
fn replace_state<S: Alter>(
    tx: &mut Transaction<'_, S>,
    card: &CardRef,
    active: bool,
) -> Result<(), Error>
    ensures { Inside (state S.Store) (Makes HoldsTables AnyTables (λ it. with_state card.now active (without_states (same_ref card.now) it)))
        tx.old.conn tx.new.conn result }
{
    writes::delete_states(tx, &CardRange::of(card))?;
    writes::insert_state(tx, card, active)
}

/// Sets the card's status: in the place of its row, where it has one.
fn set_state<S: Alter>(
    tx: &mut Transaction<'_, S>,
    card: &CardRef,
    active: bool,
) -> Result<(), Error>
    ensures { Inside (state S.Store) (Makes HoldsTables AnyTables (done (StatusNow card.now active))) tx.old.conn tx.new.conn result }
{
    let rows = writes::update_state(tx, card, active)?;
    if rows == 1 {
        return Ok(());
    }
    if rows == 0 {
        return writes::insert_state(tx, card, active);
    }
    replace_state(tx, card, active)
}

/// Sets the target's count; 0 leaves no row.
fn set_count<S: Alter>(tx: &mut Transaction<'_, S>, target: Target, n: u32) -> Result<(), Error>
    ensures { Inside (state S.Store) (Makes HoldsTables AnyTables (done (CountNow target n))) tx.old.conn tx.new.conn result }
{
    writes::delete_count(tx, target)?;
    if n == 0 {
        return Ok(());
    }
    writes::insert_count(tx, target, n)
}

/// Moves the cards of a deck at a place and after it away from the front: those of one listed ident after those of
/// another, each found by the key of its row.
fn move_listed<S: Alter>(
    tx: &mut Transaction<'_, S>,
    movable: &BTreeMap<Name, u32>,
    deck: Serial,
    from: u32,
    by: u64,
) -> Result<(), Error>
    ensures { Inside (state S.Store) (Makes HoldsTables (λ it. Fits (CardsMoved deck from (pos by)) it × MovesListed movable.now (CardsMoved deck from (pos by)) it)
        (done (CardsMoved deck from (pos by)))) tx.old.conn tx.new.conn result }
{
    for (ident, least) in movable {
        writes::move_back_of(tx, ident, *least, deck, from, by)?;
    }
    Ok(())
}

/// Moves the cards of a deck at a place and after it.
fn move_cards<S: Alter>(
    tx: &mut Transaction<'_, S>,
    deck: Serial,
    from: u32,
    by: i64,
) -> Result<(), Error>
    ensures { Inside (state S.Store) (Makes HoldsTables (Fits (CardsMoved deck from by)) (done (CardsMoved deck from by)))
        tx.old.conn tx.new.conn result }
{
    if by < 0 {
        writes::move_up(tx, deck, from, by.unsigned_abs())
    } else {
        writes::move_back(tx, deck, from, by.unsigned_abs())
    }
}

/// Carries out one change.
fn carry_out<S: Alter>(tx: &mut Transaction<'_, S>, change: &Change) -> Result<(), Error>
    ensures { Inside (state S.Store) (Makes HoldsTables (Fits (change_view change.now)) (done (change_view change.now)))
        tx.old.conn tx.new.conn result }
{
    match change {
        Change::IdentNew(ident) => writes::insert_ident(tx, ident),
        Change::IdentPurged(age) => writes::purge_ident(tx, *age),
        Change::CardNew {
            card,
            deck,
            pos,
            text,
        } => writes::insert_card(tx, card, *deck, *pos, text),
        Change::CardGone(card) => remove(tx, CardRows::Card, card),
        Change::CardsMoved { deck, from, by } => move_cards(tx, *deck, *from, *by),
        Change::EntryNew { card, ord, entry } => writes::insert_entry(tx, card, *ord, entry),
        Change::EntriesGone(card) => remove(tx, CardRows::Entries, card),
        Change::TargetNew { card, ord, target } => writes::insert_target(tx, card, *ord, *target),
        Change::TargetsGone { card, .. } => remove(tx, CardRows::Targets, card),
        Change::StatusNow { card, active } => set_state(tx, card, *active),
        Change::CountNow { target, n } => set_count(tx, *target, *n),
    }
}

/// Carries out one change. Where it is known which cards may move, it looks for these only.
fn carry_out_listed<S: Alter>(
    tx: &mut Transaction<'_, S>,
    movable: Option<&BTreeMap<Name, u32>>,
    change: &Change,
) -> Result<(), Error>
    ensures { Inside (state S.Store) (Makes HoldsTables (CanBeDone (option_copied movable.entry) (change_view change.now))
        (done (change_view change.now))) tx.old.conn tx.new.conn result }
{
    match (movable, change) {
        (Some(movable), Change::CardsMoved { deck, from, by }) if *by >= 0 => {
            move_listed(tx, movable, *deck, *from, by.unsigned_abs())
        }
        _ => carry_out(tx, change),
    }
}

/// Carries out changes in order, one after another.
fn carry_out_each<S: Alter>(
    tx: &mut Transaction<'_, S>,
    movable: Option<&BTreeMap<Name, u32>>,
    changes: &[Change],
) -> Result<(), Error>
    ensures { Inside (state S.Store) (Makes HoldsTables (AllCanBeDone (option_copied movable.entry) (map change_view changes.now))
        (done_all (map change_view changes.now))) tx.old.conn tx.new.conn result }
{
    for change in changes {
        carry_out_listed(tx, movable, change)?;
    }
    Ok(())
}

/// From this many moves of a deck on, its cards are read and each is moved once: that costs no more than two moves.
const MANY_MOVES: usize = 3;

/// The moves of one deck that changes are, if they are many: the deck, the first place, and the moves.
fn many_moves(alloc: Global, changes: &[Change]) -> Option<(Serial, u32, Vec<Move>)>
    ensures { IfSome result (λ m. map change_view changes.now ≡ map (as_change m.0) m.2.items) }
{
    if changes.len() < MANY_MOVES {
        return None;
    }
    match changes.first() {
        Some(Change::CardsMoved { deck, from, .. }) => {
            let moves = moves_of(alloc, *deck, changes)?;
            Some((*deck, *from, moves))
        }
        _ => None,
    }
}

/// Makes changes at once, if they are many moves of a deck. Answers whether they are made.
fn carry_out_together<S: Alter>(
    tx: &mut Transaction<'_, S>,
    alloc: Global,
    changes: &[Change],
) -> Result<bool, Error>
    ensures { Inside (state S.Store) (MakesIf (done_all (map change_view changes.now))) tx.old.conn tx.new.conn result }
{
    match many_moves(alloc, changes) {
        Some((deck, from, moves)) => move_together(tx, alloc, deck, from, &moves),
        None => Ok(false),
    }
}

/// Carries out changes in order: at once, where they are many moves of a deck.
fn carry_out_unlisted<S: Alter>(
    tx: &mut Transaction<'_, S>,
    alloc: Global,
    changes: &[Change],
) -> Result<(), Error>
    ensures { Inside (state S.Store) (Makes HoldsTables (AllFit (map change_view changes.now)) (done_all (map change_view changes.now)))
        tx.old.conn tx.new.conn result }
{
    if carry_out_together(tx, alloc, changes)? {
        return Ok(());
    }
    carry_out_each(tx, None, changes)
}

/// Carries out changes in order: at once, where they are moves in many decks. Where it is known which cards may move, it
/// looks for these only.
fn carry_out_moves<S: Alter>(
    tx: &mut Transaction<'_, S>,
    alloc: Global,
    movable: Option<&BTreeMap<Name, u32>>,
    changes: &[Change],
) -> Result<(), Error>
    ensures { Inside (state S.Store) (Makes HoldsTables (AllCanBeDone (option_copied movable.entry) (map change_view changes.now))
        (done_all (map change_view changes.now))) tx.old.conn tx.new.conn result }
{
    if move_decks_together(tx, alloc, changes)? {
        return Ok(());
    }
    match movable {
        Some(_) => carry_out_each(tx, movable, changes),
        None => carry_out_unlisted(tx, alloc, changes),
    }
}

/// Carries out changes in order: at once, where cards go or are moved often. Where it is known which cards may move, it
/// looks for these only.
fn carry_out_part<S: Alter>(
    tx: &mut Transaction<'_, S>,
    alloc: Global,
    movable: Option<&BTreeMap<Name, u32>>,
    changes: &[Change],
) -> Result<(), Error>
    ensures { Inside (state S.Store) (Makes HoldsTables (AllCanBeDone (option_copied movable.entry) (map change_view changes.now))
        (done_all (map change_view changes.now))) tx.old.conn tx.new.conn result }
{
    if remove_together(tx, alloc, changes)? {
        return Ok(());
    }
    carry_out_moves(tx, alloc, movable, changes)
}

/// Carries out changes in order, inside a transaction. Where it is known which cards may move, it looks for these only.
pub(crate) fn carry_out_moving<S: Alter>(
    tx: &mut Transaction<'_, S>,
    alloc: Global,
    movable: Option<&BTreeMap<Name, u32>>,
    changes: &[Change],
) -> Result<(), Error>
    ensures { Inside (state S.Store) (Makes HoldsTables (AllCanBeDone (option_copied movable.entry) (map change_view changes.now))
        (done_all (map change_view changes.now))) tx.old.conn tx.new.conn result }
{
    let mut at = 0;
    while at < changes.len() {
        let next = at + part_in_decks(&changes[at..], movable.is_some());
        carry_out_part(tx, alloc, movable, &changes[at..next])?;
        at = next;
    }
    Ok(())
}

/// Carries out changes in order, inside a transaction.
pub fn carry_out_all<S: Alter>(tx: &mut Transaction<'_, S>, changes: &[Change]) -> Result<(), Error>
    ensures { Inside (state S.Store) (Makes HoldsTables (AllFit (map change_view changes.now)) (done_all (map change_view changes.now)))
        tx.old.conn tx.new.conn result }
{
    carry_out_each(tx, None, changes)
}
