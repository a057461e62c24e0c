//! Whether a library is sound and whole.
ghost use Rattle.std.specs.Prelude.{◌≡◌, ◌↔◌, ◌++◌, ◌&&◌, IfOk, IsTrue, None, map};
ghost use Rattle.std.specs.List.{filter, flat_map, list_all, AllByRecursion};
ghost use Rattle.upd_text.specs.Names.{yank_name};
ghost use Rattle.upd_core.specs.Library.{held_named};
ghost use Rattle.upd_core.specs.Sound.{AreApart, IsSound, IsWhole, all_cards, key_of};
ghost use Rattle.upd_examine.specs.SoundTests.{are_aged_from, are_parts_sound, has_no_targets, held_decks, is_card_sound, is_deck_sound};
ghost use Rattle.upd_examine.specs.Whole.{IsDirectorySound};

use crate::conjunctions::all_three;
use crate::sound_tests::{
    add_keys, are_aged, are_apart, are_yanks_in_order, begins_on, begins_with_its_own, deck_ages,
    held_decks, held_names, is_of_held,
};
use std::alloc::{AllocError, Global};
use upd_core::{Card, Deck, Ident, Library, Serial};
use upd_text::Name;

/// Whether no two held idents of a library have one name.
pub fn are_names_apart(alloc: Global, library: &Library) -> Result<bool, AllocError>
    ensures { IfOk result (λ apart. IsTrue apart
        ↔ AreApart (map (λ i. i.name) (filter (λ i. i.held) library.now.idents))) }
{
    let names = held_names(alloc, library.idents())?;
    Ok(are_apart(names))
}

/// Whether the serials of the idents of a library are 1, 2 and so on.
fn are_idents_aged(library: &Library) -> bool
    ensures { result ≡ are_aged_from 1 library.now.idents }
{
    are_aged(library.idents())
}

/// Whether no held ident of a library has the name of `YANK$$$`.
pub fn is_yank_free(library: &Library) -> bool
    ensures { IsTrue result ↔ (held_named yank_name library.now.idents ≡ None) }
{
    match library.held(&Name::yank()) {
        Some(_) => false,
        None => true,
    }
}

/// Whether the idents of a library are numbered from 1, and no two held names are the same, nor that of `YANK$$$`.
pub fn is_directory_sound(alloc: Global, library: &Library) -> Result<bool, AllocError>
    ensures { IfOk result (λ sound. IsTrue sound ↔ IsDirectorySound library.now) }
{
    let apart = are_names_apart(alloc, library)?;
    let aged = are_idents_aged(library);
    let free = is_yank_free(library);
    Ok(all_three(apart, aged, free))
}

/// Whether the decks of a library are those that its directory holds, in order.
pub fn are_decks_those_held(alloc: Global, library: &Library) -> Result<bool, AllocError>
    ensures { IfOk result (λ same. IsTrue same ↔ (held_decks library.now.idents ≡ map (λ d. d.ident) library.now.decks)) }
{
    let held = held_decks(alloc, library.idents())?;
    let ages = deck_ages(alloc, library.decks())?;
    Ok(held == ages)
}

/// Adds the keys of the cards of decks.
fn add_deck_keys(keys: &mut Vec<(Serial, u32)>, decks: &[Deck]) -> Result<(), AllocError>
    ensures { IfOk result (λ _. keys.new.items ≡ keys.old.items ++ map key_of (flat_map (λ d. d.cards) decks.now)) }
{
    for deck in decks {
        add_keys(keys, &deck.cards)?;
    }
    Ok(())
}

/// Whether no two cards of a library have the same ident and number.
pub fn are_keys_apart(alloc: Global, library: &Library) -> Result<bool, AllocError>
    ensures { IfOk result (λ apart. IsTrue apart ↔ AreApart (map key_of (all_cards library.now))) }
{
    let mut keys = Vec::new(alloc);
    add_keys(&mut keys, library.yanks())?;
    add_deck_keys(&mut keys, library.decks())?;
    Ok(are_apart(keys))
}

/// Whether no yank card has a target twice.
pub fn are_targets_apart(alloc: Global, yanks: &[Card]) -> Result<bool, AllocError>
    ensures { IfOk result (λ apart. IsTrue apart ↔ AllByRecursion (λ c. AreApart c.targets) yanks.now) }
{
    for card in yanks {
        if !are_apart(Vec::from_slice(alloc, &card.targets)?) {
            return Ok(false);
        }
    }
    Ok(true)
}

/// Whether a card and its history are sound.
pub fn is_card_sound(idents: &[Ident], card: &Card) -> bool
    ensures { result ≡ is_card_sound idents.now card.now }
{
    is_of_held(idents, card) && begins_on(card)
}

/// Whether cards and their histories are sound.
pub fn are_cards_sound(idents: &[Ident], cards: &[Card]) -> bool
    ensures { result ≡ list_all (is_card_sound idents.now) cards.now }
{
    cards.iter().all(|card| is_card_sound(idents, card))
}

/// Whether no card of a deck has targets.
pub fn has_no_targets(deck: &Deck) -> bool
    ensures { result ≡ has_no_targets deck.now }
{
    deck.cards.iter().all(|card| card.targets.is_empty())
}

/// Whether a deck and its cards are sound.
pub fn is_deck_sound(idents: &[Ident], deck: &Deck) -> bool
    ensures { result ≡ is_deck_sound idents.now deck.now }
{
    begins_with_its_own(deck) && has_no_targets(deck) && are_cards_sound(idents, &deck.cards)
}

/// Whether decks and their cards are sound.
pub fn are_decks_sound(idents: &[Ident], decks: &[Deck]) -> bool
    ensures { result ≡ list_all (is_deck_sound idents.now) decks.now }
{
    decks.iter().all(|deck| is_deck_sound(idents, deck))
}

/// Whether all cards of a library are sound, and all of them are loaded.
fn are_parts_sound(library: &Library) -> bool
    ensures { result ≡ are_parts_sound library.now }
{
    let rest = library.rest();
    rest.cards == 0
        && rest.entries == 0
        && are_decks_sound(library.idents(), library.decks())
        && are_cards_sound(library.idents(), library.yanks())
        && are_yanks_in_order(library.yanks())
}

/// Whether all of these hold.
fn all_hold(a: bool, b: bool, c: bool, d: bool, e: bool) -> bool
    ensures { result ≡ (a && (b && (c && (d && e)))) }
{
    a && b && c && d && e
}

/// Whether a library is sound, and whole.
pub fn is_sound(alloc: Global, library: &Library) -> Result<bool, AllocError>
    ensures { IfOk result (λ sound. IsTrue sound ↔ (IsSound library.now × IsWhole library.now)) }
{
    let directory = is_directory_sound(alloc, library)?;
    let decks = are_decks_those_held(alloc, library)?;
    let keys = are_keys_apart(alloc, library)?;
    let targets = are_targets_apart(alloc, library.yanks())?;
    let parts = are_parts_sound(library);
    Ok(all_hold(directory, decks, keys, targets, parts))
}
