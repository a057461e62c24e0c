//! What is not sound in a library, each at the card, the deck or the ident where it is.

use crate::grown::{has_entries_in_order, is_begun_once, is_numbered};
use crate::line_texts::is_valid_name;
use crate::lines::Findings;
use crate::row_texts::{card_text, name_text};
use crate::sound::{are_decks_those_held, has_no_targets, is_directory_sound};
use crate::sound_tests::{
    are_yanks_in_order, begins_on, begins_with_its_own, is_held_at, is_of_held, takes_only_older,
};
use crate::text_findings::add_text;
use std::alloc::{AllocError, Global};
use upd_core::card::card_ref;
use upd_core::{Card, Deck, Ident, Library};

/// Findings about an ident whose serial is not its place, or whose name is not valid.
fn add_ident(
    alloc: Global,
    found: &mut Findings,
    ident: &Ident,
    numbered: bool,
) -> Result<(), AllocError> {
    let named = is_valid_name(&ident.name);
    if numbered && named {
        return Ok(());
    }
    let name = name_text(alloc, &ident.name)?;
    let row = format!(in alloc; "idents {} {}", ident.age, name)?;
    if !numbered {
        found.add_of(&row, " is not numbered one above the ident before it")?;
    }
    if !named {
        found.add_of(&row, " has a name that no ident of a run has")?;
    }
    Ok(())
}

fn add_idents(alloc: Global, found: &mut Findings, idents: &[Ident]) -> Result<(), AllocError> {
    for (i, ident) in idents.iter().enumerate() {
        let numbered = ident.age as usize == i + 1;
        add_ident(alloc, found, ident, numbered)?;
    }
    Ok(())
}

/// Findings about a card and its history.
fn add_card(
    alloc: Global,
    found: &mut Findings,
    idents: &[Ident],
    card: &Card,
) -> Result<(), AllocError> {
    let of_held = is_of_held(idents, card);
    let begins = begins_on(card);
    let ordered = has_entries_in_order(card);
    if of_held && begins && ordered {
        return Ok(());
    }
    let name = card_text(alloc, &card_ref(idents, card))?;
    let row = format!(in alloc; "cards {}", name)?;
    if !is_held_at(idents, card.ident) {
        found.add_of(&row, " is of an ident that is not held")?;
    } else if !of_held {
        found.add_of(&row, " has an entry of an ident that is not held")?;
    }
    if !begins {
        found.add_of(
            &row,
            " has a history that does not begin with its own ident, switched on",
        )?;
    }
    if !ordered {
        found.add_of(&row, " has entries that are not in order of their idents")?;
    }
    Ok(())
}

/// Findings about cards, their histories and their texts.
fn add_cards(
    alloc: Global,
    found: &mut Findings,
    idents: &[Ident],
    cards: &[Card],
) -> Result<(), AllocError> {
    for card in cards {
        add_card(alloc, found, idents, card)?;
        add_text(alloc, found, idents, card)?;
    }
    Ok(())
}

/// Findings about a deck and its cards.
fn add_deck(
    alloc: Global,
    found: &mut Findings,
    idents: &[Ident],
    deck: &Deck,
) -> Result<(), AllocError> {
    let row = format!(in alloc; "decks {}", deck.ident)?;
    if !begins_with_its_own(deck) {
        found.add_of(&row, " does not begin with card 1 of its own ident")?;
    }
    if !is_begun_once(deck) {
        found.add_of(&row, " has a first card that was switched")?;
    }
    if !is_numbered(deck) {
        found.add_of(
            &row,
            " has cards of its own ident that are not numbered 1, 2 and so on",
        )?;
    }
    if !has_no_targets(deck) {
        found.add_of(&row, " has a card with targets")?;
    }
    add_cards(alloc, found, idents, &deck.cards)
}

fn add_decks(
    alloc: Global,
    found: &mut Findings,
    idents: &[Ident],
    decks: &[Deck],
) -> Result<(), AllocError> {
    for deck in decks {
        add_deck(alloc, found, idents, deck)?;
    }
    Ok(())
}

/// Findings about what yank cards take.
fn add_yanks(
    alloc: Global,
    found: &mut Findings,
    idents: &[Ident],
    yanks: &[Card],
) -> Result<(), AllocError> {
    for card in yanks {
        if !takes_only_older(card) {
            let name = card_text(alloc, &card_ref(idents, card))?;
            let row = format!(in alloc; "targets {}", name)?;
            found.add_of(&row, " names what is not older than the card")?;
        }
    }
    Ok(())
}

/// What is not sound in a library.
pub fn add_unsound(
    alloc: Global,
    found: &mut Findings,
    library: &Library,
) -> Result<(), AllocError> {
    let idents = library.idents();
    add_idents(alloc, found, idents)?;
    if !is_directory_sound(alloc, library)? {
        found.add(b"idents have two held idents of one name, or one named YANK$$$, or a gap")?;
    }
    if !are_decks_those_held(alloc, library)? {
        found.add(b"cards are not those of the held decks, each deck once and none left out")?;
    }
    add_decks(alloc, found, idents, library.decks())?;
    add_cards(alloc, found, idents, library.yanks())?;
    add_yanks(alloc, found, idents, library.yanks())?;
    if !are_yanks_in_order(library.yanks()) {
        found.add(b"cards of YANK$$$ are not in order of their idents")?;
    }
    if !library.is_within_limits() {
        found.add(b"library is above a limit")?;
    }
    Ok(())
}
