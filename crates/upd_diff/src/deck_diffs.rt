//! The diffs of all decks of a library.
ghost use Rattle.std.specs.Prelude.{◌≡◌, ◌<◌, ◌≤◌, List, [], ◌∷◌, length, drop, slice_get, Some};
ghost use Rattle.std.specs.Prelude.{slice_index_or, IfOk, OnOk, MatchOption};
ghost use Rattle.upd_core.specs.Library.{DeckView, all_decks};
ghost use Rattle.upd_diff.specs.CardDiffs.{Await, Paired};

use crate::card_diffs::{DeckDiff, deck_diff};
use std::alloc::{AllocError, Global};
use upd_core::{Deck, Library, Serial};

/// The diffs of all decks, `YANK$$$` first. Cards of idents with a serial above `youngest` are taken to be new.
pub(crate) fn library_diff<'a>(
    alloc: Global,
    youngest: Serial,
    before: &'a Library,
    after: &'a Library,
) -> Result<Vec<DeckDiff<'a>>, AllocError>
    ensures { IfOk result (λ decks. Paired (all_decks before.now) (all_decks after.now) decks.items) }
{
    let mut found = Vec::new(alloc);
    found.push(deck_diff(alloc, 0, youngest, before.yanks(), after.yanks())?)?;
    let decks = after.decks();
    let next = add_decks(alloc, &mut found, youngest, before.decks(), decks)?;
    add_new_decks(alloc, &mut found, youngest, &decks[next..])?;
    Ok(found)
}

/// Adds the diffs of the decks before: a deck that is the next one after is kept, any other is gone. Returns the index
/// in `after` of the first new deck.
fn add_decks<'a>(
    alloc: Global,
    found: &mut Vec<DeckDiff<'a>>,
    youngest: Serial,
    before: &'a [Deck],
    after: &'a [Deck],
) -> Result<usize, AllocError>
    ensures within { IfOk result (λ next. next ≤ length after.now) }
    ensures paired { (olds news : List DeckView) → Await olds news found.old.items before.now after.now
        → IfOk result (λ next. Await olds news found.new.items [] (drop next after.now)) }
{
    let mut next = 0;
    for deck in before {
        next = add_deck(alloc, found, youngest, deck, after, next)?;
    }
    Ok(next)
}

fn add_deck<'a>(
    alloc: Global,
    found: &mut Vec<DeckDiff<'a>>,
    youngest: Serial,
    deck: &'a Deck,
    after: &'a [Deck],
    next: usize,
) -> Result<usize, AllocError>
    requires { next ≤ length after.now }
    ensures within { IfOk result (λ n. n ≤ length after.now) }
    ensures paired { (olds news before : List DeckView)
        → Await olds news found.old.items (deck.now ∷ before) (drop next after.now)
        → IfOk result (λ n. Await olds news found.new.items before (drop n after.now)) }
{
    match partner(deck, after, next) {
        Some(later) => {
            let card_diffs = deck_diff(alloc, deck.ident, youngest, &deck.cards, &later.cards)?;
            found.push(card_diffs)?;
            Ok(next + 1)
        }
        None => {
            let card_diffs = deck_diff(alloc, deck.ident, youngest, &deck.cards, &[])?;
            found.push(card_diffs)?;
            Ok(next)
        }
    }
}

/// The deck at an index, if it has the same serial.
fn partner<'a>(deck: &Deck, after: &'a [Deck], next: usize) -> Option<&'a Deck>
    ensures { MatchOption result
        ((d : DeckView) → slice_get after.now next ≡ Some d → d.ident ≡ deck.now.ident → ⊥)
        (λ d. (next < length after.now) × (slice_index_or after.now next d.now ≡ d.now)
        × (d.now.ident ≡ deck.now.ident)) }
{
    let later = after.get(next)?;
    if later.ident == deck.ident {
        Some(later)
    } else {
        None
    }
}

fn add_new_decks<'a>(
    alloc: Global,
    found: &mut Vec<DeckDiff<'a>>,
    youngest: Serial,
    decks: &'a [Deck],
) -> Result<(), AllocError>
    ensures { (olds news : List DeckView) → Await olds news found.old.items [] decks.now
        → OnOk result (Paired olds news found.new.items) }
{
    for deck in decks {
        let card_diffs = deck_diff(alloc, deck.ident, youngest, &[], &deck.cards)?;
        found.push(card_diffs)?;
    }
    Ok(())
}
