//! Moves in many decks, made by one look at all cards.
ghost use Rattle.std.specs.Prelude.{◌≡◌, ◌<◌, ◌≤◌, length, map, IfSome};
ghost use Rattle.sqlite.specs.Held.{state};
ghost use Rattle.upd_records.specs.Changes.{change_view, done_all};
ghost use Rattle.upd_sqlite.specs.Steps.{Makes};
ghost use Rattle.upd_sql.specs.Commits.{Inside, Looks};
ghost use Rattle.upd_sql.specs.LibraryTables.{HoldsTables};
ghost use Rattle.upd_sql.specs.ManyDecks.{AllCanPlan, DoAsPlanned, with_plans};
ghost use Rattle.upd_sql.specs.Moving.{MakesIf};

use crate::moving::move_shifts;
use crate::moving_texts::CARDS_IN_TURN;
use crate::record::each;
use crate::whole::rows_of;
use sqlite::{Alter, Error, Transaction};
use std::alloc::Global;
use upd_core::Change;
use upd_records::CardRow;
use upd_row_store::{DeckPlan, part_ahead, plans_of};

fn is_move(change: &Change) -> bool {
    matches!(change, Change::CardsMoved { .. })
}

/// How many changes at the front are moves, of one deck or another.
fn moves_ahead(changes: &[Change]) -> usize
    ensures { result ≤ length changes.now }
{
    let mut count = 0;
    while count < changes.len() && is_move(&changes[count]) {
        count += 1;
    }
    count
}

/// Whether all cards are to be looked at for these moves: where they are to the front, each deck costs as much otherwise.
fn are_many(changes: &[Change], is_listed: bool) -> bool {
    let mut decks = 0_usize;
    let mut last = None;
    let mut to_front = !is_listed;
    for change in changes {
        if let Change::CardsMoved { deck, by, .. } = change {
            if last != Some(*deck) {
                decks = decks.saturating_add(1);
            }
            last = Some(*deck);
            to_front = to_front || *by < 0;
        }
    }
    let few = if to_front { 4 } else { 64 };
    few <= decks
}

/// How many changes at the front are made as one part: moves in many decks, or what is of one kind.
pub(crate) fn part_in_decks(changes: &[Change], is_listed: bool) -> usize
    requires { 0 < length changes.now }
    ensures { (0 < result) × (result ≤ length changes.now) }
{
    let moves = moves_ahead(changes);
    if 0 < moves && are_many(&changes[..moves], is_listed) {
        return moves;
    }
    part_ahead(changes)
}

/// Moves the cards of plans, those of one deck after those of another.
fn move_planned<S: Alter>(tx: &mut Transaction<'_, S>, plans: &[DeckPlan]) -> Result<(), Error>
    ensures { Inside (state S.Store) (Makes HoldsTables (AllCanPlan plans.now) (with_plans plans.now)) tx.old.conn tx.new.conn result }
{
    for plan in plans {
        move_shifts(tx, plan.deck, plan.from, &plan.shifts)?;
    }
    Ok(())
}

/// All cards, in the order of their rows.
fn cards_in_turn<S: Alter>(
    tx: &mut Transaction<'_, S>,
    alloc: Global,
) -> Result<Vec<CardRow>, Error>
    ensures { Inside (state S.Store) (Looks (λ it found. found.items ≡ it.cards)) tx.old.conn tx.new.conn result }
{
    let rows = rows_of(tx, CARDS_IN_TURN, &[])?;
    each(alloc, &rows)
}

/// The plans that do what moves do; none where they aren't found.
fn plans_in<S: Alter>(
    tx: &mut Transaction<'_, S>,
    alloc: Global,
    changes: &[Change],
) -> Result<Option<Vec<DeckPlan>>, Error>
    ensures { Inside (state S.Store) (Looks (λ it found. IfSome found (λ plans. DoAsPlanned plans.items (map change_view changes.now) it)))
        tx.old.conn tx.new.conn result }
{
    let rows = cards_in_turn(tx, alloc)?;
    Ok(plans_of(alloc, &rows, changes))
}

/// Makes moves of decks at once, where there are plans that do what they do. Answers whether they are made.
fn move_decks<S: Alter>(
    tx: &mut Transaction<'_, S>,
    alloc: Global,
    changes: &[Change],
) -> Result<bool, Error>
    ensures { Inside (state S.Store) (MakesIf (done_all (map change_view changes.now))) tx.old.conn tx.new.conn result }
{
    match plans_in(tx, alloc, changes)? {
        Some(plans) => {
            move_planned(tx, &plans)?;
            Ok(true)
        }
        None => Ok(false),
    }
}

/// Whether changes are one part: moves of one deck, or others.
fn is_of_one_deck(changes: &[Change]) -> bool {
    changes.is_empty() || part_ahead(changes) == changes.len()
}

/// Makes changes at once, if they are moves in more than one deck. Answers whether they are made.
pub(crate) fn move_decks_together<S: Alter>(
    tx: &mut Transaction<'_, S>,
    alloc: Global,
    changes: &[Change],
) -> Result<bool, Error>
    ensures { Inside (state S.Store) (MakesIf (done_all (map change_view changes.now))) tx.old.conn tx.new.conn result }
{
    if is_of_one_deck(changes) {
        return Ok(false);
    }
    move_decks(tx, alloc, changes)
}
