//! Whether shifts move rows as moves do.

ghost use Rattle.std.specs.Prelude.{◌≡◌, true, IsTrue, List};
ghost use Rattle.std.specs.List.{AllByRecursion};
ghost use Rattle.upd_records.specs.Changes.{shifted};
ghost use Rattle.upd_records.specs.Fits.{CanMove};
ghost use Rattle.upd_row_store.specs.declared.moves.Move.{Move};
ghost use Rattle.upd_row_store.specs.Shifts.{AreApart, IsPiece, IsRight, covers_by, is_behind, moved_pos};

use crate::moves::moved;
use crate::pieces::{Piece, place_by};
use crate::shift::Shift;
use upd_core::Serial;
use upd_records::CardRow;

pub(crate) fn is_behind(deck: Serial, from: u32, row: &CardRow) -> bool
    ensures { result ≡ is_behind deck from row.now }
{
    row.deck == deck && from <= row.pos
}

/// Whether a shift moves a card of a deck, at a place or after it, as moves of these pieces do.
fn is_right(deck: Serial, from: u32, pieces: &[Piece], shift: &Shift, row: &CardRow) -> bool
    ensures behind { IsTrue result → is_behind deck from row.now ≡ true }
    ensures covers { IsTrue result → covers_by shift.now row.now.card ≡ true }
    ensures can { IsTrue result → CanMove shift.now.by row.now.pos }
    ensures same { IsTrue result → (moves : List Move) → AllByRecursion (IsPiece moves) pieces.now
        → shifted shift.now.by row.now.pos ≡ moved_pos moves row.now.pos }
{
    if !is_behind(deck, from, row) || !shift.covers(&row.card) {
        return false;
    }
    match (place_by(pieces, row.pos), moved(row.pos, shift.by)) {
        (Some(wanted), Some(to)) => wanted == to,
        _ => false,
    }
}

/// Whether shifts move a row as moves of these pieces do.
fn is_right_by(deck: Serial, from: u32, pieces: &[Piece], shifts: &[Shift], row: &CardRow) -> bool
    requires { AreApart shifts.now }
    ensures { IsTrue result → (moves : List Move) → AllByRecursion (IsPiece moves) pieces.now → IsRight deck from moves shifts.now row.now }
{
    let after = shifts.partition_point(|shift| shift.first_card() <= row.card);
    match shifts.get(after.saturating_sub(1)) {
        Some(shift) => is_right(deck, from, pieces, shift, row),
        None => false,
    }
}

/// Whether shifts move rows as moves of these pieces do.
pub(crate) fn are_right(
    deck: Serial,
    from: u32,
    pieces: &[Piece],
    shifts: &[Shift],
    rows: &[CardRow],
) -> bool
    requires { AreApart shifts.now }
    ensures { IsTrue result → (moves : List Move) → AllByRecursion (IsPiece moves) pieces.now
        → AllByRecursion (IsRight deck from moves shifts.now) rows.now }
{
    for row in rows {
        if !is_right_by(deck, from, pieces, shifts, row) {
            return false;
        }
    }
    true
}
