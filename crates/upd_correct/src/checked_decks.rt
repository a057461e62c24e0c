//! Decks before and after a run.

ghost use Rattle.std.specs.Prelude.{◌≡◌, ◌==◌, IsTrue};
ghost use Rattle.std.specs.Bool.{Decides};
ghost use Rattle.std.specs.List.{AllZip};
ghost use Rattle.upd_core.specs.Edits.{is_among};
ghost use Rattle.upd_correct.specs.Checked.{AreDecksFrom, IsDeckLeft};

use crate::checked_cards::are_same_cards;
use upd_core::{Deck, Serial};

/// Whether decks are the same.
fn is_same_deck(old: &Deck, new: &Deck) -> bool
    ensures { Decides result (old.now ≡ new.now) }
{
    old.ident == new.ident && are_same_cards(&old.cards, &new.cards)
}

/// Whether a serial is among these.
fn is_among(named: &[Serial], deck: Serial) -> bool
    ensures { result ≡ is_among named.now deck }
{
    named.iter().any(|&serial| serial == deck)
}

/// Whether a deck keeps its serial, and is as it was unless it is among the named ones.
fn is_deck_left(named: &[Serial], old: &Deck, new: &Deck) -> bool
    ensures { IsTrue result → IsDeckLeft named.now old.now new.now }
{
    if is_among(named, old.ident) {
        return new.ident == old.ident;
    }
    is_same_deck(old, new)
}

/// Whether each deck keeps its serial, and is as it was unless it is among the named ones.
pub(crate) fn are_decks_left(named: &[Serial], olds: &[Deck], news: &[Deck]) -> bool
    ensures { IsTrue result → AllZip (IsDeckLeft named.now) olds.now news.now }
{
    if olds.len() != news.len() {
        return false;
    }
    for (i, old) in olds.iter().enumerate() {
        if !is_deck_left(named, old, &news[i]) {
            return false;
        }
    }
    true
}

/// Whether decks have the serials from a number on.
pub(crate) fn are_decks_from(number: usize, decks: &[Deck]) -> bool
    ensures { IsTrue result → AreDecksFrom number decks.now }
{
    for (i, deck) in decks.iter().enumerate() {
        if deck.ident as usize != number.saturating_add(i) {
            return false;
        }
    }
    true
}
