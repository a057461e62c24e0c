//! Moves of the cards of one deck, in order.

ghost use Rattle.std.specs.Prelude.{◌≡◌, ◌<◌, ◌≤◌, IsTrue, map, length, IfSome};
ghost use Rattle.std.specs.List.{AllByRecursion};
ghost use Rattle.upd_records.specs.Changes.{change_view, shifted};
ghost use Rattle.upd_records.specs.Fits.{CanMove};
ghost use Rattle.upd_row_store.specs.Shifts.{as_change};

use std::alloc::Global;
use upd_core::{Change, Serial};

/// A move of the cards of a deck at a place and after it.
#[derive(Clone, Copy, Debug)]
pub struct Move {
    pub from: u32,
    pub by: i64,
}

/// The moves that changes are, if each is one of this deck.
pub fn moves_of(alloc: Global, deck: Serial, changes: &[Change]) -> Option<Vec<Move>>
    ensures { IfSome result (λ moves. map change_view changes.now ≡ map (as_change deck) moves.items) }
{
    let mut moves = Vec::new(alloc);
    for change in changes {
        moves.push(move_in(deck, change)?).ok()?;
    }
    Some(moves)
}

/// The move that a change is, if it is one of this deck.
fn move_in(deck: Serial, change: &Change) -> Option<Move>
    ensures { IfSome result (λ m. change_view change.now ≡ as_change deck m) }
{
    match change {
        Change::CardsMoved {
            deck: moved,
            from,
            by,
        } if *moved == deck => Some(Move {
            from: *from,
            by: *by,
        }),
        _ => None,
    }
}

/// Whether two changes are of one part: moves of one deck, or each takes rows of a card away.
fn are_alike(one: &Change, other: &Change) -> bool {
    match (one, other) {
        (Change::CardsMoved { deck, .. }, Change::CardsMoved { deck: next, .. }) => deck == next,
        _ => is_gone(one) && is_gone(other),
    }
}

fn is_gone(change: &Change) -> bool {
    matches!(
        change,
        Change::EntriesGone(_) | Change::TargetsGone { .. } | Change::CardGone(_)
    )
}

/// How many changes at the front are of one part, which may be made at once.
pub fn part_ahead(changes: &[Change]) -> usize
    requires { 0 < length changes.now }
    ensures { (0 < result) × (result ≤ length changes.now) }
{
    let mut count = 1;
    while count < changes.len() && are_alike(&changes[0], &changes[count]) {
        count += 1;
    }
    count
}

/// A position after one move; none where it isn't a position.
pub(crate) fn moved(pos: u32, by: i64) -> Option<u32>
    ensures can { IfSome result (λ to. CanMove by pos) }
    ensures to { IfSome result (λ to. to ≡ shifted by pos) }
{
    let to = i64::from(pos).checked_add(by)?;
    u32::try_from(to).ok()
}

/// Whether none of these moves is of cards before a place.
pub fn are_behind(moves: &[Move], from: u32) -> bool
    ensures { IsTrue result → AllByRecursion (λ m. from ≤ m.from) moves.now }
{
    for m in moves {
        if m.from < from {
            return false;
        }
    }
    true
}
