//! Cards and the entries of their histories.

ghost use Rattle.std.specs.Prelude.{◌≡◌, length, sum_by, IfOk};
ghost use Rattle.upd_core.specs.Counts.{capped};
ghost use Rattle.upd_core.specs.Edits.{new_card};
ghost use Rattle.upd_core.specs.Library.{ref_of};

use crate::ident::{Ident, Serial, name_at};
use crate::target::Target;
use std::alloc::{AllocError, Global};
use std::marker::Model;
use upd_text::{CardRef, Name};

/// One entry of a card's history: an ident, and whether it switched the card on or off.
#[derive(Clone, Copy, Debug, PartialEq, Eq)]
pub struct Entry {
    pub ident: Serial,
    pub active: bool,
}

/// A card: a numbered line of an ident, with its text and history.
#[derive(Debug, Drop)]
pub struct Card {
    /// The serial of the ident that introduced the card.
    pub ident: Serial,
    /// Its number within that ident, from 1.
    pub number: u32,
    pub text: Vec<u8>,
    /// Oldest entry first: it is of the card's own ident and switches on.
    pub history: Vec<Entry>,
    /// What a yank card takes out of use; empty for other cards.
    pub targets: Vec<Target>,
}

impl Model for Card {
    ghost use Rattle.upd_core.specs.Library.{CardView};

    ghost Value = { CardView };

    ghost view = { λ c. record {
      ident = c.ident;
      number = c.number;
      text = c.text.items;
      history = c.history.items;
      targets = c.targets.items;
    } };
}

impl Card {
    /// A new card. Its history is one entry: its own ident, on.
    pub fn new(
        alloc: Global,
        ident: Serial,
        number: u32,
        text: &[u8],
        targets: Vec<Target>,
    ) -> Result<Card, AllocError>
        ensures { IfOk result (λ card. card ≡ new_card ident number text.now targets.items) }
    {
        let text = Vec::from_slice(alloc, text)?;
        let history = Vec::from_slice(
            alloc,
            &[Entry {
                ident,
                active: true,
            }],
        )?;
        Ok(Card {
            ident,
            number,
            text,
            history,
            targets,
        })
    }

    /// A deep copy.
    pub(crate) fn copy(&self) -> Result<Card, AllocError>
        ensures { IfOk result (λ copy. copy ≡ self.now) }
    {
        let alloc = *self.text.allocator();
        let text = Vec::from_slice(alloc, &self.text)?;
        let history = Vec::from_slice(alloc, &self.history)?;
        let targets = Vec::from_slice(alloc, &self.targets)?;
        Ok(Card {
            ident: self.ident,
            number: self.number,
            text,
            history,
            targets,
        })
    }
}

/// Deep copies of cards.
pub(crate) fn copy_cards(alloc: Global, cards: &[Card]) -> Result<Vec<Card>, AllocError>
    ensures { IfOk result (λ copies. copies.items ≡ cards.now) }
{
    let mut copies = Vec::with_capacity(alloc, cards.len())?;
    for card in cards {
        copies.push(card.copy()?)?;
    }
    Ok(copies)
}

/// The reference by which directives name the card.
pub fn card_ref(idents: &[Ident], card: &Card) -> CardRef
    ensures { result ≡ ref_of idents.now card.now }
{
    CardRef {
        name: name_at(idents, card.ident).unwrap_or(Name::none()),
        number: card.number,
    }
}

/// The number of entries in the histories of cards; at most `usize::MAX` is counted.
pub fn entry_count(cards: &[Card]) -> usize
    ensures { result ≡ capped (sum_by (λ c. length c.history) cards.now) }
{
    let mut count: usize = 0;
    for card in cards {
        count = count.saturating_add(card.history.len());
    }
    count
}
