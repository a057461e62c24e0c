//! The parts of the invariant of libraries, each a test that goes over its part once.
ghost use Rattle.std.specs.Prelude.{◌≡◌, ◌↔◌, ◌++◌, ◌==◌, [], IfOk, IsTrue, List, length, map};
ghost use Rattle.std.specs.List.{filter, flat_map, list_all};
ghost use Rattle.std.proofs.lemmas.Map.Lookups.{CmpEqualImpliesEq};
ghost use Rattle.upd_core.specs.Library.{is_deck_kind};
ghost use Rattle.upd_core.specs.Sound.{AreApart, key_of};
ghost use Rattle.upd_examine.specs.SoundTests.{are_aged_from, are_yanks_from, begins_on, begins_with_its_own, has_entries_from};
ghost use Rattle.upd_examine.specs.SoundTests.{held_at, held_decks, is_of_held, is_older, takes_older};

use std::alloc::{AllocError, Global};
use upd_core::{Card, Deck, Entry, Ident, Serial, Target};
use upd_text::Name;

/// Whether the serials of a directory are 1, 2 and so on.
pub fn are_aged(idents: &[Ident]) -> bool
    ensures { result ≡ are_aged_from 1 idents.now }
{
    for (i, ident) in idents.iter().enumerate() {
        if ident.age as usize != i + 1 {
            return false;
        }
    }
    true
}

/// Whether the ident at the index of a serial is held.
pub fn is_held_at(idents: &[Ident], age: Serial) -> bool
    ensures { result ≡ held_at idents.now age }
{
    if age == 0 {
        return false;
    }
    match idents.get(age as usize - 1) {
        Some(ident) => ident.held,
        None => false,
    }
}

/// The serials of the held decks of a directory.
pub fn held_decks(alloc: Global, idents: &[Ident]) -> Result<Vec<Serial>, AllocError>
    ensures { IfOk result (λ ages. ages.items ≡ held_decks idents.now) }
{
    idents
        .iter()
        .filter(|ident| ident.held && ident.kind.is_deck())
        .map(|ident| ident.age)
        .collect(alloc)
}

/// The serials of decks.
pub fn deck_ages(alloc: Global, decks: &[Deck]) -> Result<Vec<Serial>, AllocError>
    ensures { IfOk result (λ ages. ages.items ≡ map (λ d. d.ident) decks.now) }
{
    decks.iter().map(|deck| deck.ident).collect(alloc)
}

/// The names of the held idents of a directory.
pub fn held_names(alloc: Global, idents: &[Ident]) -> Result<Vec<Name>, AllocError>
    ensures { IfOk result (λ names. names.items ≡ map (λ i. i.name) (filter (λ i. i.held) idents.now)) }
{
    idents
        .iter()
        .filter(|ident| ident.held)
        .map(|ident| ident.name)
        .collect(alloc)
}

/// Adds the keys of cards: of each its ident and its number.
pub fn add_keys(keys: &mut Vec<(Serial, u32)>, cards: &[Card]) -> Result<(), AllocError>
    ensures { IfOk result (λ _. keys.new.items ≡ keys.old.items ++ map key_of cards.now) }
{
    for card in cards {
        keys.push((card.ident, card.number))?;
    }
    Ok(())
}

/// Whether no two elements are the same.
pub fn are_apart<T: Ord + Drop>(items: Vec<T>) -> bool
    requires { CmpEqualImpliesEq T.cmp }
    ensures { IsTrue result ↔ AreApart items.items }
{
    let mut items = items;
    items.sort_unstable();
    for i in 1..items.len() {
        if items[i - 1].cmp(&items[i]).is_eq() {
            return false;
        }
    }
    true
}

/// Whether a deck begins with card 1 of its own ident.
pub fn begins_with_its_own(deck: &Deck) -> bool
    ensures { result ≡ begins_with_its_own deck.now }
{
    match deck.cards.first() {
        Some(card) => card.ident == deck.ident && card.number == 1,
        None => false,
    }
}

/// Whether a card's history begins with its own ident, switched on.
pub fn begins_on(card: &Card) -> bool
    ensures { result ≡ begins_on card.now }
{
    match card.history.first() {
        Some(entry) => entry.ident == card.ident && entry.active,
        None => false,
    }
}

/// Whether the idents of entries are held.
fn are_of_held(idents: &[Ident], history: &[Entry]) -> bool
    ensures { result ≡ list_all (λ e. held_at idents.now e.ident) history.now }
{
    history.iter().all(|entry| is_held_at(idents, entry.ident))
}

/// Whether a card's ident is held, and those of its entries.
pub fn is_of_held(idents: &[Ident], card: &Card) -> bool
    ensures { result ≡ is_of_held idents.now card.now }
{
    is_held_at(idents, card.ident) && are_of_held(idents, &card.history)
}

/// Whether a serial is less than another; that of `YANK$$$` is not.
fn is_older(age: Serial, other: Serial) -> bool
    ensures { result ≡ is_older age other }
{
    0 < other && other < age
}

/// Whether what a target names is older than a serial.
pub fn takes_older(age: Serial, target: Target) -> bool
    ensures { result ≡ takes_older age target }
{
    match target {
        Target::Set(ident) => is_older(age, ident),
        Target::SetIn(ident, deck) => is_older(age, ident) && is_older(age, deck),
        Target::Deck(deck) => is_older(age, deck),
    }
}

/// Whether all that a yank card takes is older than the card.
pub fn takes_only_older(card: &Card) -> bool
    ensures { result ≡ list_all (takes_older card.now.ident) card.now.targets }
{
    card.targets
        .iter()
        .all(|target| takes_older(card.ident, *target))
}

/// Whether the entries of a card have this serial or a greater one.
pub fn has_entries_from(age: Serial, card: &Card) -> bool
    ensures { result ≡ has_entries_from age card.now }
{
    card.history.iter().all(|entry| age <= entry.ident)
}

/// Whether `YANK$$$` is in order.
pub fn are_yanks_in_order(yanks: &[Card]) -> bool
    ensures { result ≡ are_yanks_from 0 yanks.now }
{
    let mut greatest: Serial = 0;
    for card in yanks {
        greatest = greatest.max(card.ident);
        if !takes_only_older(card) || !has_entries_from(greatest, card) {
            return false;
        }
    }
    true
}
