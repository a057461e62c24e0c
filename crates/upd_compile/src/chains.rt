//! Chains of calls: the decks that a change of a common deck reaches.

ghost use Rattle.std.specs.Prelude.{◌≡◌, ◌&&◌, not, map, IfOk, IsTrue, ◌↔◌};
ghost use Rattle.std.specs.List.{list_any, zip};
ghost use Rattle.upd_core.specs.Actives.{ActiveDeckView, ActivesView};
ghost use Rattle.upd_compile.specs.Chosen.{Chain, has_chain, is_changed, is_passed_on};
ghost use Rattle.upd_compile.specs.Idents.{passes};
ghost use Rattle.upd_compile.specs.Positions.{called_position, called_positions};
ghost use Rattle.upd_compile.specs.Reach.{is_flagged};

use crate::callers::callers;
use crate::flags::{and_flags, calls_flagged};
use crate::idents::ident_at;
use crate::indexed::Indexed;
use crate::reach::reached_positions;
use crate::walk::is_first;
use std::alloc::{AllocError, Global};
use upd_core::{ActiveCardRef, ActiveDeckRef, Ident, Serial};
use upd_text::line::{called, is_call};

/// A deck has a chain to a changed common deck exactly when there is a path of calls to it, of any length.
#[tactic(auto, using(crate::proofs::ChainLemmas::has_chain_path))]
pub fn chains_are_paths()
    ensures { (before a : ActivesView) (d : ActiveDeckView) → IsTrue (has_chain before a d) ↔ Chain before a d }
{}

/// The positions of the held common decks that a deck calls.
fn called_positions(
    alloc: Global,
    source: &Indexed,
    deck: &ActiveDeckRef,
) -> Result<Vec<usize>, AllocError>
    ensures { IfOk result (λ positions. positions.items ≡ called_positions source.now deck.now) }
{
    deck.cards
        .iter()
        .filter(|card| !is_first(card, deck.ident))
        .filter_map(|card| called_position(source, card))
        .collect(alloc)
}

/// The position of the held common deck that a card calls.
fn called_position(source: &Indexed, card: &ActiveCardRef) -> Option<usize>
    ensures { result ≡ called_position source.now card.now }
{
    if is_call(card.text) {
        source.position_named(called(card.text))
    } else {
        None
    }
}

/// The called positions of each deck.
fn calls(alloc: Global, source: &Indexed) -> Result<Vec<Vec<usize>>, AllocError>
    ensures { IfOk result (λ calls. map (λ list. list.items) calls.items
        ≡ map (called_positions source.now) source.now.decks) }
{
    let decks = source.decks();
    let mut calls = Vec::with_capacity(alloc, decks.len())?;
    for deck in decks {
        calls.push(called_positions(alloc, source, deck)?)?;
    }
    Ok(calls)
}

/// Whether a change of each deck is passed on to its callers.
fn passing_flags(alloc: Global, source: &Indexed) -> Result<Vec<bool>, AllocError>
    ensures { IfOk result (λ flags. flags.items ≡ map (is_passed_on source.now) source.now.decks) }
{
    source
        .decks()
        .iter()
        .map(|deck| is_passed_on(source.idents(), deck.ident))
        .collect(alloc)
}

fn is_passed_on(idents: &[Ident], deck: Serial) -> bool
    ensures { result ≡ not (passes (λ i. i.noprop) idents.now deck) }
{
    match ident_at(idents, deck) {
        Some(ident) => !ident.noprop,
        None => true,
    }
}

/// Whether each deck has a chain to a changed common deck, given which decks changed.
pub(crate) fn chain_flags(
    alloc: Global,
    source: &Indexed,
    changed: &[bool],
) -> Result<Vec<bool>, AllocError>
    ensures { IfOk result
        (λ flags. (before : ActivesView) → changed.now ≡ map (is_changed before) source.now.decks
        → flags.items ≡ map (has_chain before source.now) source.now.decks) }
{
    let calls = calls(alloc, source)?;
    let passed = passing_flags(alloc, source)?;
    let callers = callers(alloc, &calls, &passed)?;
    let seeds = and_flags(alloc, &passed, changed)?;
    let flags = reached_positions(alloc, &callers, seeds)?;
    calls_flagged(alloc, &calls, &flags)
}
