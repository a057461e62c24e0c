//! Whether a library is as runs leave one, as far as its invariant doesn't say it.
ghost use Rattle.std.specs.Prelude.{◌≡◌};
ghost use Rattle.std.specs.List.{list_all};
ghost use Rattle.upd_examine.specs.Grown.{are_entries_from, are_numbered_from, has_entries_in_order, is_begun_once, is_deck_grown, is_grown};

use upd_core::{Card, Deck, Entry, Library, Serial};

/// Whether entries are in order of their idents.
fn are_in_order(entries: &[Entry]) -> bool
    ensures { result ≡ are_entries_from 0 entries.now }
{
    let mut least: Serial = 0;
    for entry in entries {
        if entry.ident < least {
            return false;
        }
        least = entry.ident;
    }
    true
}

/// Whether the entries behind the first of a card are in order of their idents.
pub fn has_entries_in_order(card: &Card) -> bool
    ensures { result ≡ has_entries_in_order card.now }
{
    match card.history.as_slice() {
        [] => true,
        [_, later @ ..] => are_in_order(later),
    }
}

fn have_entries_in_order(cards: &[Card]) -> bool
    ensures { result ≡ list_all has_entries_in_order cards.now }
{
    cards.iter().all(|card| has_entries_in_order(card))
}

/// Whether a deck's own cards are numbered 1, 2 and so on, in order.
pub fn is_numbered(deck: &Deck) -> bool
    ensures { result ≡ are_numbered_from 1 deck.now.ident deck.now.cards }
{
    let mut next: u64 = 1;
    for card in &deck.cards {
        if card.ident == deck.ident {
            if u64::from(card.number) != next {
                return false;
            }
            next = u64::from(card.number) + 1;
        }
    }
    true
}

/// Whether no run has switched the first card of a deck.
pub fn is_begun_once(deck: &Deck) -> bool
    ensures { result ≡ is_begun_once deck.now }
{
    match deck.cards.first() {
        Some(card) => card.history.len() == 1,
        None => true,
    }
}

fn is_deck_grown(deck: &Deck) -> bool
    ensures { result ≡ is_deck_grown deck.now }
{
    is_begun_once(deck) && is_numbered(deck) && have_entries_in_order(&deck.cards)
}

fn are_decks_grown(decks: &[Deck]) -> bool
    ensures { result ≡ list_all is_deck_grown decks.now }
{
    decks.iter().all(|deck| is_deck_grown(deck))
}

/// Whether a library is as runs leave one.
pub fn is_grown(library: &Library) -> bool
    ensures { result ≡ is_grown library.now }
{
    are_decks_grown(library.decks()) && have_entries_in_order(library.yanks())
}
