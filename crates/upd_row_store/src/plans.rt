//! Moves in many decks, planned from all cards at once.

ghost use Rattle.std.specs.Prelude.{◌≡◌, ◌≤◌, map, IfSome, IsTrue};
ghost use Rattle.std.specs.List.{AllByRecursion, filter, flat_map};
ghost use Rattle.upd_records.specs.Changes.{change_view};
ghost use Rattle.upd_row_store.specs.Plans.{DecksRise, IsPlan, planned};
ghost use Rattle.upd_row_store.specs.Shifts.{IsRight, is_behind};

use crate::moves::{Move, are_behind, moves_of, part_ahead};
use crate::right::is_behind;
use crate::shift::Shift;
use crate::shifts::shifts_of;
use std::alloc::Global;
use upd_core::{Change, Serial};
use upd_records::CardRow;

/// The moves of a deck's cards at a place and after it, and the shifts that do the same.
#[derive(Debug, Drop)]
pub struct DeckPlan {
    pub deck: Serial,
    pub from: u32,
    pub moves: Vec<Move>,
    pub shifts: Vec<Shift>,
}

/// Copies of the cards of a deck that are at a place or after it.
fn behind(alloc: Global, deck: Serial, from: u32, rows: &[CardRow]) -> Option<Vec<CardRow>>
    ensures { IfSome result (λ own. own.items ≡ filter (is_behind deck from) rows.now) }
{
    let mut own = Vec::new(alloc);
    for row in rows {
        if is_behind(deck, from, row) {
            own.push(row.copy().ok()?).ok()?;
        }
    }
    Some(own)
}

/// The shifts that do to all cards what moves of a deck do.
fn shifts_among(
    alloc: Global,
    deck: Serial,
    from: u32,
    moves: &[Move],
    rows: &[CardRow],
) -> Option<Vec<Shift>>
    requires { AllByRecursion (λ m. from ≤ m.from) moves.now }
    ensures { IfSome result (λ shifts. AllByRecursion (IsRight deck from moves.now shifts.items) rows.now) }
{
    let own = behind(alloc, deck, from, rows)?;
    shifts_of(alloc, deck, from, moves, &own)
}

/// The plan for changes that are moves of one deck.
fn plan_of(alloc: Global, rows: &[CardRow], changes: &[Change]) -> Option<DeckPlan>
    ensures plan { IfSome result (IsPlan rows.now) }
    ensures whole { IfSome result (λ plan. planned plan ≡ map change_view changes.now) }
{
    let Some(Change::CardsMoved { deck, from, .. }) = changes.first() else {
        return None;
    };
    let moves = moves_of(alloc, *deck, changes)?;
    if !are_behind(&moves, *from) {
        return None;
    }
    let shifts = shifts_among(alloc, *deck, *from, &moves, rows)?;
    Some(DeckPlan {
        deck: *deck,
        from: *from,
        moves,
        shifts,
    })
}

/// The plans of changes, part by part.
fn plans_in(alloc: Global, rows: &[CardRow], changes: &[Change]) -> Option<Vec<DeckPlan>>
    ensures plans { IfSome result (λ plans. AllByRecursion (IsPlan rows.now) plans.items) }
    ensures whole { IfSome result (λ plans. flat_map planned plans.items ≡ map change_view changes.now) }
{
    let mut plans = Vec::new(alloc);
    let mut rest = changes;
    while !rest.is_empty() {
        let (part, after) = rest.split_at(part_ahead(rest));
        plans.push(plan_of(alloc, rows, part)?).ok()?;
        rest = after;
    }
    Some(plans)
}

/// Whether plans are of one deck after another.
fn do_decks_rise(plans: &[DeckPlan]) -> bool
    ensures { IsTrue result → DecksRise 0 plans.now }
{
    let mut least = 0;
    for plan in plans {
        if u64::from(plan.deck) < least {
            return false;
        }
        least = u64::from(plan.deck) + 1;
    }
    true
}

/// The plans for changes that are moves of many decks, one deck after another, by all cards that there are. None where the
/// changes are others, or where memory runs out.
pub fn plans_of(alloc: Global, rows: &[CardRow], changes: &[Change]) -> Option<Vec<DeckPlan>>
    ensures plans { IfSome result (λ plans. AllByRecursion (IsPlan rows.now) plans.items) }
    ensures rise { IfSome result (λ plans. DecksRise 0 plans.items) }
    ensures whole { IfSome result (λ plans. flat_map planned plans.items ≡ map change_view changes.now) }
{
    let plans = plans_in(alloc, rows, changes)?;
    if !do_decks_rise(&plans) {
        return None;
    }
    Some(plans)
}
