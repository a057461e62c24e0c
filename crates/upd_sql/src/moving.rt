//! Moves of a deck's cards at many places, made of each card at once.
ghost use Rattle.std.specs.Prelude.{◌≡◌, map, IfSome};
ghost use Rattle.std.specs.List.{filter};
ghost use Rattle.sqlite.specs.Held.{state};
ghost use Rattle.sqlite_value.specs.Value.{owned};
ghost use Rattle.sqlite_value.specs.declared.value.Value.TheVariants.{Int};
ghost use Rattle.upd_records.specs.Changes.{done_all};
ghost use Rattle.upd_row_store.specs.Shifts.{CanShift, as_change, is_behind, with_shifted};
ghost use Rattle.upd_sqlite.specs.Steps.{Makes};
ghost use Rattle.upd_sql.specs.Commits.{Inside, Looks};
ghost use Rattle.upd_sql.specs.LibraryTables.{HoldsTables};
ghost use Rattle.upd_sql.specs.Moving.{AllCanShift, AllRight, MakesIf, with_all_shifted};

use crate::moving_texts::{CARDS_BEHIND, MOVE_SHIFT};
use crate::record::each;
use crate::values::{name, number};
use crate::whole::rows_of;
use sqlite::types::ValueRef;
use sqlite::{Alter, Error, Transaction};
use std::alloc::Global;
use upd_core::Serial;
use upd_records::CardRow;
use upd_row_store::{Move, Shift, are_behind, shifts_of};
use upd_sqlite::run;

fn signed(n: &i64) -> ValueRef<'static>
    ensures { owned result ≡ Int n.now }
{
    ValueRef::Int(*n)
}

/// The cards of a deck at a place and after it.
fn cards_behind<S: Alter>(
    tx: &mut Transaction<'_, S>,
    alloc: Global,
    deck: Serial,
    from: u32,
) -> Result<Vec<CardRow>, Error>
    ensures { Inside (state S.Store) (Looks (λ it found. found.items ≡ filter (is_behind deck from) it.cards)) tx.old.conn tx.new.conn result }
{
    let rows = rows_of(tx, CARDS_BEHIND, &[number(deck), number(from)])?;
    each(alloc, &rows)
}

/// Moves those cards of a deck at a place and after it that are of one shift.
fn move_shift<S: Alter>(
    tx: &mut Transaction<'_, S>,
    deck: Serial,
    from: u32,
    shift: &Shift,
) -> Result<(), Error>
    ensures { Inside (state S.Store) (Makes HoldsTables (CanShift deck from shift.now) (with_shifted deck from shift.now)) tx.old.conn tx.new.conn result }
{
    run(
        tx,
        MOVE_SHIFT,
        &[
            name(&shift.name),
            number(shift.first),
            number(shift.last),
            number(deck),
            number(from),
            signed(&shift.by),
        ],
    )
}

/// Moves the cards of shifts, those of one after those of another.
pub(crate) fn move_shifts<S: Alter>(
    tx: &mut Transaction<'_, S>,
    deck: Serial,
    from: u32,
    shifts: &[Shift],
) -> Result<(), Error>
    ensures { Inside (state S.Store) (Makes HoldsTables (AllCanShift deck from shifts.now) (with_all_shifted deck from shifts.now)) tx.old.conn tx.new.conn result }
{
    for shift in shifts {
        move_shift(tx, deck, from, shift)?;
    }
    Ok(())
}

/// The shifts that do what moves do; none where that isn't found.
fn shifts_in<S: Alter>(
    tx: &mut Transaction<'_, S>,
    alloc: Global,
    deck: Serial,
    from: u32,
    moves: &[Move],
) -> Result<Option<Vec<Shift>>, Error>
    ensures { Inside (state S.Store) (Looks (λ it found. IfSome found (λ shifts. AllRight deck from moves.now shifts.items it))) tx.old.conn tx.new.conn result }
{
    let rows = cards_behind(tx, alloc, deck, from)?;
    if are_behind(moves, from) {
        return Ok(shifts_of(alloc, deck, from, moves, &rows));
    }
    Ok(None)
}

/// Makes moves at once, where there are shifts that do what they do. Answers whether they are made.
pub(crate) fn move_together<S: Alter>(
    tx: &mut Transaction<'_, S>,
    alloc: Global,
    deck: Serial,
    from: u32,
    moves: &[Move],
) -> Result<bool, Error>
    ensures { Inside (state S.Store) (MakesIf (done_all (map (as_change deck) moves.now))) tx.old.conn tx.new.conn result }
{
    match shifts_in(tx, alloc, deck, from, moves)? {
        Some(shifts) => {
            move_shifts(tx, deck, from, &shifts)?;
            Ok(true)
        }
        None => Ok(false),
    }
}
