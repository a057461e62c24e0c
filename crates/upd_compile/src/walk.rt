//! The walk through a deck and the common decks that it calls.

ghost use Rattle.std.specs.Prelude.{List, ◌≡◌, ◌==◌, ◌&&◌, ◌↔◌, map};
ghost use Rattle.std.specs.List.{flat_map};
ghost use Rattle.upd_core.specs.Actives.{ActiveDeckView, ActivesView};
ghost use Rattle.upd_text.specs.Outcome.{Does};
ghost use Rattle.upd_text.specs.declared.limits.TheConstants.{MAX_DEPTH};
ghost use Rattle.upd_compile.specs.Depths.{Walks};
ghost use Rattle.upd_compile.specs.Progress.{after_events};
ghost use Rattle.upd_compile.specs.Walk.{WalkEvent, card_events, walk};

use crate::indexed::Indexed;
use crate::progress::Progress;
use upd_core::{ActiveCardRef, ActiveDeckRef, Serial};
use upd_text::FaultKind;
use upd_text::line::{called, is_call};

/// The walk through a deck is exactly the one that the rule of depths defines: a call in the deck has depth 1, a call
/// in a called deck is one deeper, and calls are followed down to [`MAX_DEPTH`](upd_text::limits::MAX_DEPTH).
#[tactic(auto, using(crate::proofs::DepthLemmas::walks_walk))]
pub fn walks_go_by_depth()
    ensures { (a : ActivesView) (d : ActiveDeckView) (events : List WalkEvent)
        → Walks a 1 d events ↔ (events ≡ walk MAX_DEPTH a d) }
{}

/// Walks through decks in order. Calls are followed `deep` levels deep.
pub(crate) fn walk_all(
    source: &Indexed,
    decks: &[&ActiveDeckRef],
    deep: usize,
    progress: &mut Progress,
) -> Result<(), FaultKind>
    ensures { Does result progress.new
        (after_events source.now.idents (flat_map (walk deep source.now) (map (λ d. d.now) decks.now)) progress.old) }
{
    for deck in decks {
        walk(source, deck, deep, progress)?;
    }
    Ok(())
}

/// Walks through a deck. Calls are followed `deep` levels deep; one beyond that is CallDepth.
#[cycle(walk)]
pub(crate) fn walk(
    source: &Indexed,
    deck: &ActiveDeckRef,
    deep: usize,
    progress: &mut Progress,
) -> Result<(), FaultKind>
    ensures { Does result progress.new
        (after_events source.now.idents (walk deep source.now deck.now) progress.old) }
{
    for card in &deck.cards {
        if !is_first(card, deck.ident) {
            meet(source, card, deep, progress)?;
        }
    }
    Ok(())
}

/// Writes the line of a card, or walks through the deck that it calls. CallUnknown where that is not a held common
/// deck.
#[cycle(walk)]
fn meet(
    source: &Indexed,
    card: &ActiveCardRef,
    deep: usize,
    progress: &mut Progress,
) -> Result<(), FaultKind>
    ensures { Does result progress.new
        (after_events source.now.idents (card_events deep source.now card.now) progress.old) }
{
    if !is_call(card.text) {
        return progress.line(source.idents(), card);
    }
    if deep == 0 {
        return Err(FaultKind::CallDepth);
    }
    let common = source
        .common_named(called(card.text))
        .ok_or(FaultKind::CallUnknown)?;
    progress.follow()?;
    walk(source, common, deep - 1, progress)
}

/// Whether a card is card 1 of a deck's own ident.
pub(crate) fn is_first(card: &ActiveCardRef, deck: Serial) -> bool
    ensures { result ≡ (card.now.ident == deck) && (card.now.number == 1) }
{
    card.ident == deck && card.number == 1
}
