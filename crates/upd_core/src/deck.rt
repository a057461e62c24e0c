//! Decks, and looking up cards in them.

ghost use Rattle.std.specs.Prelude.{◌≡◌, [], ◌∷◌, ◌<◌, length, find, IfSome, IfOk};
ghost use Rattle.std.specs.Option.{option_copied};
ghost use Rattle.upd_core.specs.Edits.{new_card};
ghost use Rattle.upd_core.specs.First.{index_from};
ghost use Rattle.upd_core.specs.Library.{is_card, is_deck, place_in};

use crate::card::{Card, copy_cards};
use crate::ident::Serial;
use crate::library::Place;
use std::alloc::{AllocError, Global};
use std::marker::Model;

/// A deck: its cards in order.
#[derive(Debug, Drop)]
pub struct Deck {
    /// The serial of the deck's own ident.
    pub ident: Serial,
    pub cards: Vec<Card>,
}

impl Model for Deck {
    ghost use Rattle.upd_core.specs.Library.{DeckView};

    ghost Value = { DeckView };

    ghost view = { λ d. record { ident = d.ident; cards = d.cards.items } };
}

impl Deck {
    /// A new deck with one card, which has this text.
    pub fn new(alloc: Global, ident: Serial, text: &[u8]) -> Result<Deck, AllocError>
        ensures { IfOk result (λ deck. deck ≡ record { ident = ident; cards = new_card ident 1 text.now [] ∷ [] }) }
    {
        let first = Card::new(alloc, ident, 1, text, Vec::new(alloc))?;
        let mut cards = Vec::new(alloc);
        cards.push(first)?;
        Ok(Deck { ident, cards })
    }

    /// A deep copy.
    pub(crate) fn copy(&self) -> Result<Deck, AllocError>
        ensures { IfOk result (λ copy. copy ≡ self.now) }
    {
        let cards = copy_cards(*self.cards.allocator(), &self.cards)?;
        Ok(Deck {
            ident: self.ident,
            cards,
        })
    }
}

/// Deep copies of decks.
pub(crate) fn copy_decks(alloc: Global, decks: &[Deck]) -> Result<Vec<Deck>, AllocError>
    ensures { IfOk result (λ copies. copies.items ≡ decks.now) }
{
    let mut copies = Vec::with_capacity(alloc, decks.len())?;
    for deck in decks {
        copies.push(deck.copy()?)?;
    }
    Ok(copies)
}

/// The deck with a serial.
pub fn deck_aged(decks: &[Deck], age: Serial) -> Option<&Deck>
    ensures { option_copied result ≡ find (is_deck age) decks.now }
{
    for deck in decks {
        if deck.ident == age {
            return Some(deck);
        }
    }
    None
}

/// The index of the card with an ident and a number.
pub(crate) fn card_index(cards: &[Card], ident: Serial, number: u32) -> Option<usize>
    ensures first { result ≡ index_from (is_card ident number) 0 cards.now }
    ensures within { IfSome result (λ i. i < length cards.now) }
{
    for (i, card) in cards.iter().enumerate() {
        if card.ident == ident && card.number == number {
            return Some(i);
        }
    }
    None
}

/// The place in these decks of the card with an ident and a number.
pub(crate) fn place_in(decks: &[Deck], ident: Serial, number: u32) -> Option<Place>
    ensures { result ≡ place_in decks.now ident number }
{
    for deck in decks {
        if let Some(index) = card_index(&deck.cards, ident, number) {
            return Some(Place {
                deck: deck.ident,
                index,
            });
        }
    }
    None
}
