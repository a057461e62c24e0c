//! Whether the names, texts and numbers in a library are those of runs.
ghost use Rattle.std.specs.Prelude.{◌≡◌};
ghost use Rattle.std.specs.List.{list_all};
ghost use Rattle.upd_text.specs.Names.{is_name};
ghost use Rattle.upd_examine.specs.TextTests.{has_line_texts, is_card_of_run, is_line_text, is_number_of_run};

use upd_core::{Card, Deck, Ident, Library};
use upd_deck::read::all_allowed;
use upd_text::Name;
use upd_text::limits::{MAX_LINE_BYTES, MAX_RUN_LINES};

/// Whether a name is valid: an ident of a run has such a name.
pub fn is_valid_name(name: &Name) -> bool
    ensures { result ≡ is_name name.now }
{
    Name::read(name.as_bytes()).is_some()
}

/// Whether the names of idents are valid.
fn are_valid_names(idents: &[Ident]) -> bool
    ensures { result ≡ list_all (λ i. is_name i.name) idents.now }
{
    idents.iter().all(|ident| is_valid_name(&ident.name))
}

/// Whether a text is that of a line.
pub fn is_line_text(text: &[u8]) -> bool
    ensures { result ≡ is_line_text text.now }
{
    text.len() <= MAX_LINE_BYTES && all_allowed(text)
}

/// Whether a number is one that a card of a run has.
pub fn is_number_of_run(number: u32) -> bool
    ensures { result ≡ is_number_of_run number }
{
    0 < number && number as usize <= MAX_RUN_LINES
}

/// Whether a card is as a run brings it.
fn is_card_of_run(card: &Card) -> bool
    ensures { result ≡ is_card_of_run card.now }
{
    is_line_text(&card.text) && is_number_of_run(card.number)
}

/// Whether cards are as runs bring them.
fn are_cards_of_runs(cards: &[Card]) -> bool
    ensures { result ≡ list_all is_card_of_run cards.now }
{
    cards.iter().all(|card| is_card_of_run(card))
}

/// Whether the cards of decks are as runs bring them.
fn are_decks_of_runs(decks: &[Deck]) -> bool
    ensures { result ≡ list_all (λ d. list_all is_card_of_run d.cards) decks.now }
{
    decks.iter().all(|deck| are_cards_of_runs(&deck.cards))
}

/// Whether the idents of a library have valid names, and its cards are as runs bring them.
pub fn has_line_texts(library: &Library) -> bool
    ensures { result ≡ has_line_texts library.now }
{
    are_valid_names(library.idents())
        && are_cards_of_runs(library.yanks())
        && are_decks_of_runs(library.decks())
}
