//! The active cards of a library without histories and targets, with texts of their own.

ghost use Rattle.std.specs.Prelude.{◌≡◌, [], ◌∷◌, ◌++◌, All, length, map, slice_get, IfOk, OnOk};
ghost use Rattle.upd_core.specs.ActiveTexts.{LiesIn, card_in_texts};

use crate::active_refs::{ActiveCardRef, ActiveDeckRef, ActivesRef};
use crate::ident::{Ident, Serial};
use std::alloc::{AllocError, Global};
use std::marker::Model;

/// An active card whose text is a range of the text buffer of its deck.
#[derive(Clone, Copy, Debug)]
struct Ranged {
    ident: Serial,
    number: u32,
    start: usize,
    end: usize,
}

/// The active cards of a deck, in order.
#[derive(Debug, Drop)]
pub struct ActiveDeck {
    /// The serial of the deck's own ident.
    pub ident: Serial,
    cards: Vec<Ranged>,
    /// The texts of the cards, concatenated.
    texts: Vec<u8>,
}

impl Model for ActiveDeck {
    ghost use Rattle.upd_core.specs.Actives.{ActiveDeckView};

    ghost Value = { ActiveDeckView };

    ghost use Rattle.upd_core.specs.ActiveTexts.{AreWithin, deck_in_texts};

    ghost view = { deck_in_texts };

    ghost invariant = { AreWithin };
}

/// A directory and the active cards of its decks: the input of a compile file.
#[derive(Debug)]
pub struct Actives {
    pub idents: Vec<Ident>,
    /// All decks other than `YANK$$$`, in order of serial, those with no active card included.
    pub decks: Vec<ActiveDeck>,
}

// By hand: see CONTRIBUTING.md.
impl Drop for Actives {
    fn drop(self) {
        let Actives {
            idents: _,
            decks: _,
        } = self;
    }
}

impl Model for Actives {
    ghost use Rattle.upd_core.specs.Actives.{ActivesView};

    ghost Value = { ActivesView };

    ghost view = { λ a. record { idents = a.idents.items; decks = a.decks.items } };
}

impl ActiveDeck {
    /// A deck with no active card. It does not allocate.
    pub fn new(alloc: Global, ident: Serial) -> ActiveDeck
        ensures { result ≡ record { ident = ident; cards = [] } }
    {
        ActiveDeck {
            ident,
            cards: Vec::new(alloc),
            texts: Vec::new(alloc),
        }
    }

    /// The number of active cards.
    pub fn len(&self) -> usize
        ensures { result ≡ length self.now.cards }
    {
        self.cards.len()
    }

    /// The active card at an index, from 0. It does not allocate.
    pub fn card(&self, index: usize) -> Option<ActiveCardRef<'_>>
        ensures { result ≡ slice_get self.now.cards index }
    {
        let card = self.cards.get(index)?;
        Some(ActiveCardRef {
            ident: card.ident,
            number: card.number,
            text: &self.texts[card.start..card.end],
        })
    }

    /// Adds a card at the end.
    pub fn push(&mut self, ident: Serial, number: u32, text: &[u8]) -> Result<(), AllocError>
        ensures { OnOk result (self.new ≡ record self.old {
          cards = self.old.cards ++ record { ident = ident; number = number; text = text.now } ∷ [];
        }) }
    {
        self.cards.reserve(1)?;
        let start = self.texts.len();
        self.texts.extend_from_slice(text)?;
        let end = self.texts.len();
        self.cards.push_reserved(Ranged {
            ident,
            number,
            start,
            end,
        });
        Ok(())
    }

    /// The deck as references into it: no text is copied.
    pub fn shown(&self) -> Result<ActiveDeckRef<'_>, AllocError>
        ensures { IfOk result (λ shown. shown ≡ self.now) }
    {
        let cards = shown_cards(*self.cards.allocator(), &self.texts, &self.cards)?;
        Ok(ActiveDeckRef {
            ident: self.ident,
            cards,
        })
    }

    /// A deep copy.
    pub fn copy(&self) -> Result<ActiveDeck, AllocError>
        ensures { IfOk result (λ copy. copy ≡ self.now) }
    {
        let alloc = *self.cards.allocator();
        let cards = Vec::from_slice(alloc, &self.cards)?;
        let texts = Vec::from_slice(alloc, &self.texts)?;
        Ok(ActiveDeck {
            ident: self.ident,
            cards,
            texts,
        })
    }
}

/// The cards as references into the buffer that holds their texts.
fn shown_cards<'a>(
    alloc: Global,
    texts: &'a [u8],
    cards: &[Ranged],
) -> Result<Vec<ActiveCardRef<'a>>, AllocError>
    requires { All (LiesIn texts.now) cards.now }
    ensures { IfOk result (λ shown. shown.items ≡ map (card_in_texts texts.now) cards.now) }
{
    let mut shown = Vec::with_capacity(alloc, cards.len())?;
    for card in cards {
        shown.push(ActiveCardRef {
            ident: card.ident,
            number: card.number,
            text: &texts[card.start..card.end],
        })?;
    }
    Ok(shown)
}

impl Actives {
    /// The decks and cards as references into them: no text is copied.
    pub fn shown(&self) -> Result<ActivesRef<'_>, AllocError>
        ensures { IfOk result (λ shown. shown ≡ self.now) }
    {
        let decks = shown_decks(*self.decks.allocator(), &self.decks)?;
        Ok(ActivesRef {
            idents: &self.idents,
            decks,
        })
    }
}

fn shown_decks(alloc: Global, decks: &[ActiveDeck]) -> Result<Vec<ActiveDeckRef<'_>>, AllocError>
    ensures { IfOk result (λ shown. shown.items ≡ decks.now) }
{
    let mut shown = Vec::with_capacity(alloc, decks.len())?;
    for deck in decks {
        shown.push(deck.shown()?)?;
    }
    Ok(shown)
}

impl<'a> ActiveDeckRef<'a> {
    /// A copy with texts of its own.
    pub fn copy(&self) -> Result<ActiveDeck, AllocError>
        ensures { IfOk result (λ copy. copy ≡ self.now) }
    {
        let mut deck = ActiveDeck::new(*self.cards.allocator(), self.ident);
        for card in &self.cards {
            deck.push(card.ident, card.number, card.text)?;
        }
        Ok(deck)
    }
}

impl<'a> ActivesRef<'a> {
    /// A copy with texts of its own.
    pub fn copy(&self) -> Result<Actives, AllocError>
        ensures { IfOk result (λ copy. copy ≡ self.now) }
    {
        let alloc = *self.decks.allocator();
        let idents = Vec::from_slice(alloc, self.idents)?;
        let decks = copied_decks(alloc, &self.decks)?;
        Ok(Actives { idents, decks })
    }
}

fn copied_decks(alloc: Global, decks: &[ActiveDeckRef]) -> Result<Vec<ActiveDeck>, AllocError>
    ensures { IfOk result (λ copies. copies.items ≡ decks.now) }
{
    let mut copies = Vec::with_capacity(alloc, decks.len())?;
    for deck in decks {
        copies.push(deck.copy()?)?;
    }
    Ok(copies)
}
