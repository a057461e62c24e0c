//! The directory before and after a run.

ghost use Rattle.std.specs.Prelude.{◌≡◌, ◌+◌, ◌<◌, ◌^◌, [], map, length, true, false, IsTrue};
ghost use Rattle.std.specs.Bool.{Decides};
ghost use Rattle.upd_core.specs.declared.ident.Kind.TheVariants.{Set};
ghost use Rattle.upd_correct.specs.Corrected.{kind_of};
ghost use Rattle.upd_correct.specs.Checked.{Brings, deck_idents};

use crate::edited_deck::EditedDeck;
use upd_core::{Ident, Kind};

fn is_same_ident(old: &Ident, new: &Ident) -> bool
    ensures { Decides result (old.now ≡ new.now) }
{
    old.name == new.name
        && old.age == new.age
        && old.kind == new.kind
        && old.noprop == new.noprop
        && old.held == new.held
}

/// Whether directories are the same.
pub(crate) fn are_same_idents(olds: &[Ident], news: &[Ident]) -> bool
    ensures { IsTrue result → olds.now ≡ news.now }
{
    if olds.len() != news.len() {
        return false;
    }
    for (i, old) in olds.iter().enumerate() {
        if !is_same_ident(old, &news[i]) {
            return false;
        }
    }
    true
}

/// Whether an ident is a new set.
fn is_set(ident: &Ident, age: usize, set: &[u8]) -> bool
    ensures { IsTrue result
        → ident.now ≡ record { name = set.now; age = age; kind = Set; noprop = false; held = true } }
{
    ident.name.as_bytes() == set
        && ident.age as usize == age
        && ident.kind == Kind::Set
        && !ident.noprop
        && ident.held
}

/// Whether an ident is that of a new deck.
fn is_deck(ident: &Ident, age: usize, deck: &EditedDeck) -> bool
    ensures { IsTrue result → ident.now
        ≡ record { name = deck.now.name; age = age; kind = kind_of deck.now; noprop = deck.now.noprop; held = true } }
{
    ident.name == deck.name
        && ident.age as usize == age
        && ident.kind == kind_of(deck)
        && ident.noprop == deck.noprop
        && ident.held
}

/// The kind of a deck.
fn kind_of(deck: &EditedDeck) -> Kind
    ensures { result ≡ kind_of deck.now }
{
    if deck.common {
        Kind::Common
    } else {
        Kind::Deck
    }
}

/// Whether idents are those of new decks from a serial on.
fn are_deck_idents(idents: &[Ident], age: usize, decks: &[&EditedDeck]) -> bool
    requires { age + length idents.now < 2 ^ 64 }
    ensures { IsTrue result → idents.now ≡ deck_idents age (map (λ d. d.now) decks.now) }
{
    if idents.len() != decks.len() {
        return false;
    }
    for (i, ident) in idents.iter().enumerate() {
        if !is_deck(ident, age + i, decks[i]) {
            return false;
        }
    }
    true
}

/// Whether a run by a set introduced these idents.
pub(crate) fn brings(
    run: &[u8],
    age: usize,
    set: &[u8],
    decks: &[&EditedDeck],
    idents: &[Ident],
) -> bool
    requires { age + length idents.now < 2 ^ 64 }
    ensures { IsTrue result → Brings run.now age set.now (map (λ d. d.now) decks.now) idents.now }
{
    match idents {
        [] => run.is_empty() && decks.is_empty(),
        [first, rest @ ..] => { is_set(first, age, set) && are_deck_idents(rest, age + 1, decks) }
    }
}
