//! The active cards of a library without histories and targets, by reference: no text is copied.

ghost use Rattle.std.specs.Prelude.{◌≡◌, IfOk, map};
ghost use Rattle.std.specs.List.{filter};
ghost use Rattle.upd_core.specs.Actives.{without_past, active_deck};
ghost use Rattle.upd_core.specs.Status.{is_active};

use crate::card::Card;
use crate::deck::Deck;
use crate::ident::{Ident, Serial};
use crate::live::is_active;
use crate::targets::Targets;
use std::alloc::{AllocError, Global};
use std::marker::Model;

/// An active card without its history and targets; its text is borrowed.
#[derive(Debug, Drop)]
pub struct ActiveCardRef<'a> {
    /// The serial of the card's ident.
    pub ident: Serial,
    pub number: u32,
    pub text: &'a [u8],
}

impl<'a> Model for ActiveCardRef<'a> {
    ghost use Rattle.upd_core.specs.Actives.{ActiveCardView};

    ghost Value = { ActiveCardView };

    ghost view = { λ c. record { ident = c.ident; number = c.number; text = c.text.now } };
}

/// The active cards of a deck, in order.
#[derive(Debug, Drop)]
pub struct ActiveDeckRef<'a> {
    /// The serial of the deck's own ident.
    pub ident: Serial,
    pub cards: Vec<ActiveCardRef<'a>>,
}

impl<'a> Model for ActiveDeckRef<'a> {
    ghost use Rattle.upd_core.specs.Actives.{ActiveDeckView};

    ghost Value = { ActiveDeckView };

    ghost view = { λ d. record { ident = d.ident; cards = d.cards.items } };
}

/// A directory and the active cards of its decks, borrowed.
#[derive(Debug, Drop)]
pub struct ActivesRef<'a> {
    pub idents: &'a [Ident],
    /// All decks other than `YANK$$$`, in order of serial, those with no active card included.
    pub decks: Vec<ActiveDeckRef<'a>>,
}

impl<'a> Model for ActivesRef<'a> {
    ghost use Rattle.upd_core.specs.Actives.{ActivesView};

    ghost Value = { ActivesView };

    ghost view = { λ a. record { idents = a.idents.now; decks = a.decks.items } };
}

/// The active cards among the cards of a deck.
pub(crate) fn active_cards<'a>(
    alloc: Global,
    live: &Targets,
    deck: Serial,
    cards: &'a [Card],
) -> Result<Vec<ActiveCardRef<'a>>, AllocError>
    ensures { IfOk result (λ found. found.items ≡ map without_past (filter (is_active live.now deck) cards.now)) }
{
    let mut found = Vec::with_capacity(alloc, cards.len())?;
    for card in cards {
        if is_active(live, deck, card) {
            found.push(ActiveCardRef {
                ident: card.ident,
                number: card.number,
                text: &card.text,
            })?;
        }
    }
    Ok(found)
}

/// The active cards of each of these decks.
pub(crate) fn active_decks<'a>(
    alloc: Global,
    live: &Targets,
    decks: &'a [Deck],
) -> Result<Vec<ActiveDeckRef<'a>>, AllocError>
    ensures { IfOk result (λ found. found.items ≡ map (active_deck live.now) decks.now) }
{
    let mut found = Vec::with_capacity(alloc, decks.len())?;
    for deck in decks {
        let cards = active_cards(alloc, live, deck.ident, &deck.cards)?;
        found.push(ActiveDeckRef {
            ident: deck.ident,
            cards,
        })?;
    }
    Ok(found)
}
