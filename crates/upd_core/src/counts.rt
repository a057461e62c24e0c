//! Sizes of a library, updated by each edit.

ghost use Rattle.std.specs.Prelude.{◌≡◌, ◌+◌, length, sum_by, count_by};
ghost use Rattle.upd_core.specs.Counts.{capped, AreOf};

use crate::card::{Card, entry_count};
use crate::deck::Deck;
use crate::ident::Ident;
use crate::library::Rest;

/// The numbers of held idents, cards, entries and targets of a library. A count saturates at `usize::MAX`.
#[derive(Clone, Copy, Debug)]
pub struct Counts {
    pub held: usize,
    pub cards: usize,
    pub entries: usize,
    pub targets: usize,
}

impl Counts {
    /// The counts of the empty library.
    pub(crate) fn none() -> Counts
        ensures { result ≡ record { held = 0; cards = 0; entries = 0; targets = 0 } }
    {
        Counts {
            held: 0,
            cards: 0,
            entries: 0,
            targets: 0,
        }
    }

    /// The counts of a library with these parts. It visits each ident and each card.
    pub(crate) fn of(idents: &[Ident], decks: &[Deck], yanks: &[Card], rest: Rest) -> Counts
        ensures { AreOf (record { idents = idents.now; decks = decks.now; yanks = yanks.now; rest = rest }) result }
    {
        let cards = yanks.len().saturating_add(card_count(decks));
        let entries = entry_count(yanks).saturating_add(deck_entry_count(decks));
        Counts {
            held: held_count(idents),
            cards: rest.cards.saturating_add(cards),
            entries: rest.entries.saturating_add(entries),
            targets: target_count(yanks),
        }
    }

    /// With one more deck.
    pub(crate) fn with_deck(self, deck: &Deck) -> Counts
        ensures { result ≡ record self {
          cards = capped (self.cards + length deck.now.cards);
          entries = capped (self.entries + sum_by (λ c. length c.history) deck.now.cards);
        } }
    {
        Counts {
            cards: self.cards.saturating_add(deck.cards.len()),
            entries: self.entries.saturating_add(entry_count(&deck.cards)),
            ..self
        }
    }

    /// With one more card.
    pub(crate) fn with_card(self, entries: usize, targets: usize) -> Counts
        ensures { result ≡ record self {
          cards = capped (self.cards + 1);
          entries = capped (self.entries + entries);
          targets = capped (self.targets + targets);
        } }
    {
        Counts {
            cards: self.cards.saturating_add(1),
            entries: self.entries.saturating_add(entries),
            targets: self.targets.saturating_add(targets),
            ..self
        }
    }
}

/// The number of held idents.
fn held_count(idents: &[Ident]) -> usize
    ensures { result ≡ capped (count_by (λ i. i.held) idents.now) }
{
    idents.iter().filter(|ident| ident.held).count()
}

/// The number of cards in decks.
fn card_count(decks: &[Deck]) -> usize
    ensures { result ≡ capped (sum_by (λ d. length d.cards) decks.now) }
{
    let mut count: usize = 0;
    for deck in decks {
        count = count.saturating_add(deck.cards.len());
    }
    count
}

/// The number of entries on the cards of decks.
fn deck_entry_count(decks: &[Deck]) -> usize
    ensures { result ≡ capped (sum_by (λ d. sum_by (λ c. length c.history) d.cards) decks.now) }
{
    let mut count: usize = 0;
    for deck in decks {
        count = count.saturating_add(entry_count(&deck.cards));
    }
    count
}

/// The number of targets on yank cards.
fn target_count(cards: &[Card]) -> usize
    ensures { result ≡ capped (sum_by (λ c. length c.targets) cards.now) }
{
    let mut count: usize = 0;
    for card in cards {
        count = count.saturating_add(card.targets.len());
    }
    count
}
