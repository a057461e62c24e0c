//! The texts of a deck after a run.

ghost use Rattle.std.specs.Prelude.{◌≡◌, map, IfOk};
ghost use Rattle.std.specs.Bool.{Decides};
ghost use Rattle.std.specs.List.{filter};
ghost use Rattle.upd_core.specs.Status.{is_active};
ghost use Rattle.upd_correct.specs.EditedText.{texts_of};

use crate::checked_cards::is_same_text;
use crate::edited_deck::EditedDeck;
use std::alloc::{AllocError, Global};
use upd_core::{Card, Live, Serial};

/// The texts of the active cards of a deck.
pub(crate) fn active_texts<'a>(
    alloc: Global,
    live: &Live,
    deck: Serial,
    cards: &'a [Card],
) -> Result<Vec<&'a [u8]>, AllocError>
    ensures { IfOk result (λ texts. map (λ t. t.now) texts.items
        ≡ map (λ c. c.text) (filter (is_active live.now.targets deck) cards.now)) }
{
    let mut texts = Vec::new(alloc);
    for card in cards {
        if live.is_active(deck, card) {
            texts.push(card.text.as_slice())?;
        }
    }
    Ok(texts)
}

/// Whether lists of texts are the same.
fn are_same_texts(some: &[&[u8]], others: &[&[u8]]) -> bool
    ensures { Decides result (map (λ t. t.now) some.now ≡ map (λ t. t.now) others.now) }
{
    if some.len() != others.len() {
        return false;
    }
    for (i, text) in some.iter().enumerate() {
        if !is_same_text(text, others[i]) {
            return false;
        }
    }
    true
}

/// Whether texts are those of a deck.
pub(crate) fn are_texts_of(texts: &[&[u8]], deck: &EditedDeck) -> bool
    ensures { Decides result (map (λ t. t.now) texts.now ≡ texts_of deck.now) }
{
    match texts {
        [] => false,
        [first, rest @ ..] => *first == deck.first && are_same_texts(rest, &deck.lines),
    }
}
