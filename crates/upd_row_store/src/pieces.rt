//! Moves of a deck's cards at rising places, as ranges of positions that move equally far: a position's is found by halving.
//! Where cards move to the front, the positions of what was there before them are in no range: no card has them.

ghost use Rattle.std.specs.Prelude.{◌≡◌, ◌≤◌, ◌<◌, ◌∷◌, ◌+ℤ◌, ℕ, List, None, Some, IfSome, IsTrue};
ghost use Rattle.std.specs.List.{AllByRecursion};
ghost use Rattle.upd_records.specs.Changes.{shifted};
ghost use Rattle.upd_records.specs.Fits.{CanMove};
ghost use Rattle.upd_row_store.specs.declared.moves.Move.{Move};
ghost use Rattle.upd_row_store.specs.Shifts.{IsPiece, Reaches, Rises, foot, moved_pos};

use crate::moves::{Move, moved};
use std::alloc::Global;

/// The positions from the least on, and below another one where there is one, move this far.
#[derive(Clone, Copy, Debug)]
pub struct Piece {
    pub least: u32,
    pub below: Option<u32>,
    pub by: i64,
}

impl Piece {
    fn has(&self, pos: u32) -> bool
        ensures least { IsTrue result → self.now.least ≤ pos }
        ensures below { IsTrue result → IfSome self.now.below (λ below. pos < below) }
    {
        if let Some(below) = self.below
            && below <= pos
        {
            return false;
        }
        self.least <= pos
    }

    /// Where a position moves that is of this piece.
    fn place_of(&self, pos: u32) -> Option<u32>
        ensures { IfSome result (λ to. (moves : List Move) → IsPiece moves self.now → to ≡ moved_pos moves pos) }
    {
        if !self.has(pos) {
            return None;
        }
        moved(pos, self.by)
    }
}

/// The first place that a move changes: that of its first card, before or after it.
fn foot(m: &Move) -> u32
    ensures { result ≡ foot m.now }
{
    let by = u32::try_from(m.by.min(0).unsigned_abs()).unwrap_or(u32::MAX);
    m.from.saturating_sub(by)
}

/// Whether no move changes a place before the first that the move before it changes.
fn are_rising(moves: &[Move]) -> bool
    ensures { IsTrue result → Rises 0 moves.now }
{
    let mut last = 0;
    for m in moves {
        let next = foot(m);
        if next < last {
            return false;
        }
        last = next;
    }
    true
}

impl Piece {
    /// The position of this piece that is at a place once it has moved; none where that is before the piece.
    fn position_at(&self, place: u32) -> Option<u32>
        ensures up { IfSome result (λ pos. self.now.least ≤ pos) }
        ensures can { IfSome result (λ pos. CanMove self.now.by pos) }
        ensures to { IfSome result (λ pos. shifted self.now.by pos ≡ place) }
        ensures some { IfSome result (λ pos. 0 < pos → 0 < place) }
    {
        let pos = u32::try_from(i64::from(place).checked_sub(self.by)?).ok()?;
        if pos < self.least || (place == 0 && pos != 0) || moved(pos, self.by)? != place {
            return None;
        }
        Some(pos)
    }

    /// The positions of this piece below another one.
    fn up_to(&self, below: u32) -> Piece
        ensures { result ≡ record self.now { below = Some below } }
    {
        Piece {
            least: self.least,
            below: Some(below),
            by: self.by,
        }
    }

    /// The positions from one on, which move so much further; none where that is no distance.
    fn on_from(&self, least: u32, m: &Move) -> Option<Piece>
        ensures { IfSome result (λ piece. piece ≡ record { least = least; below = None; by = self.now.by +ℤ m.now.by }) }
    {
        let by = self.by.checked_add(m.by)?;
        Some(Piece {
            least,
            below: None,
            by,
        })
    }

    /// The piece up to a move, and the one from there on.
    fn cut_by(&self, m: &Move) -> Option<(Piece, Piece)>
        ensures { IfSome result (λ both. (moves left : List Move) (last : ℕ) → Rises last (m.now ∷ left)
            → Reaches moves (m.now ∷ left) self.now → IsPiece moves both.0 × Reaches moves left both.1) }
    {
        let below = self.position_at(foot(m))?;
        let after = self.on_from(self.position_at(m.from)?, m)?;
        Some((self.up_to(below), after))
    }
}

/// The pieces of moves at rising places, by position. None where memory runs out, or the moves are none that cards make.
pub fn pieces_of(alloc: Global, moves: &[Move]) -> Option<Vec<Piece>>
    ensures { IfSome result (λ pieces. AllByRecursion (IsPiece moves.now) pieces.items) }
{
    if !are_rising(moves) {
        return None;
    }
    let mut pieces = Vec::with_capacity(alloc, moves.len()).ok()?;
    let mut last = Piece {
        least: 0,
        below: None,
        by: 0,
    };
    for m in moves {
        let (before, after) = last.cut_by(m)?;
        pieces.push(before).ok()?;
        last = after;
    }
    pieces.push(last).ok()?;
    Some(pieces)
}

/// Where moves of these pieces move a position; none where it is of no piece.
pub fn place_by(pieces: &[Piece], pos: u32) -> Option<u32>
    ensures { IfSome result (λ to. (moves : List Move) → AllByRecursion (IsPiece moves) pieces.now → to ≡ moved_pos moves pos) }
{
    let after = pieces.partition_point(|piece| piece.least <= pos);
    let piece = pieces.get(after.saturating_sub(1))?;
    piece.place_of(pos)
}
