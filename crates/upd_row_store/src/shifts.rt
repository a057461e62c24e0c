//! The shifts that do what moves do.

ghost use Rattle.std.specs.Prelude.{◌≡◌, IfSome};
ghost use Rattle.std.specs.List.{AllByRecursion};
ghost use Rattle.upd_row_store.specs.Shifts.{IsRight};

use crate::moves::Move;
use crate::pieces::{Piece, pieces_of, place_by};
use crate::right::are_right;
use crate::shift::{Shift, are_apart};
use std::alloc::Global;
use upd_core::{CardRef, Serial};
use upd_records::CardRow;

/// How far each card moves, by card; none where memory runs out, or where a card would move to no position.
fn distances(alloc: Global, pieces: &[Piece], rows: &[CardRow]) -> Option<Vec<(CardRef, i64)>> {
    let mut distances = Vec::with_capacity(alloc, rows.len()).ok()?;
    for row in rows {
        let to = place_by(pieces, row.pos)?;
        distances
            .push((row.card, i64::from(to) - i64::from(row.pos)))
            .ok()?;
    }
    distances.sort().ok()?;
    Some(distances)
}

/// The shift of one card.
fn shift_of(card: &CardRef, by: i64) -> Shift {
    Shift {
        name: card.name,
        first: card.number,
        last: card.number,
        by,
    }
}

/// Cards of an ident that follow one another and move equally far are of one shift.
fn joined(alloc: Global, distances: &[(CardRef, i64)]) -> Option<Vec<Shift>> {
    let mut shifts: Vec<Shift> = Vec::new(alloc);
    for (card, by) in distances {
        match shifts.last_mut() {
            Some(shift) if shift.name == card.name && shift.by == *by => {
                shift.last = card.number;
            }
            _ => shifts.push(shift_of(card, *by)).ok()?,
        }
    }
    Some(shifts)
}

/// The shifts that move these cards of a deck, which are at a place or after it, as moves do. None where memory runs out, or
/// where a card would move to no position, or two rows are of one card.
pub fn shifts_of(
    alloc: Global,
    deck: Serial,
    from: u32,
    moves: &[Move],
    rows: &[CardRow],
) -> Option<Vec<Shift>>
    ensures { IfSome result (λ shifts. AllByRecursion (IsRight deck from moves.now shifts.items) rows.now) }
{
    let pieces = pieces_of(alloc, moves)?;
    let distances = distances(alloc, &pieces, rows)?;
    let shifts = joined(alloc, &distances)?;
    if !are_apart(&shifts) || !are_right(deck, from, &pieces, &shifts, rows) {
        return None;
    }
    Some(shifts)
}
