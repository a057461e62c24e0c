//! The cards that a run touched, from the card diffs.
ghost use Rattle.std.specs.Prelude.{◌≡◌, ◌≤◌, ◌&&◌, true, not, if◌then◌else◌, List, [], ◌∷◌, ◌++◌, map, slice_index_or};
ghost use Rattle.std.specs.Prelude.{EachIndex, IfOk, OnOk};
ghost use Rattle.std.specs.List.{AllByRecursion, Contains, filter, flat_map};
ghost use Rattle.upd_core.specs.Library.{CardView, DeckView, all_decks, is_card, ref_of};
ghost use Rattle.upd_core.specs.Sound.{AreApart, AreRising, all_cards, key_of};
ghost use Rattle.upd_diff.specs.CardDiffs.{Lead, card_after, card_diff_view};
ghost use Rattle.upd_diff.specs.Touched.{IsOf, same_history, stood_in, touched_in};

use crate::card_diffs::{CardDiff, DeckDiff};
use std::alloc::{AllocError, Global};
use upd_core::card::card_ref;
use upd_core::{Card, Deck, Entry, Ident, Library, Serial};
use upd_text::CardRef;

/// The cards of the library after that are new or whose history differs, in the order of their diffs.
pub(crate) fn touched(
    alloc: Global,
    before: &Library,
    idents: &[Ident],
    decks: &[DeckDiff],
) -> Result<Vec<CardRef>, AllocError>
    ensures { (after : List DeckView) → Lead (all_decks before.now) after decks.now
        → AreApart (map key_of (all_cards before.now))
        → IfOk result (λ cards. cards.items ≡ flat_map (touched_in idents.now before.now) after) }
{
    let mut found = Vec::new(alloc);
    let rising = are_rising(before.decks());
    for deck in decks {
        add_touched(
            &mut found,
            idents,
            before.cards_of(deck.deck),
            rising,
            &deck.card_diffs,
        )?;
    }
    Ok(found)
}

/// Whether decks are in order of serial: no two serials are equal, and none is that of `YANK$$$`.
fn are_rising(decks: &[Deck]) -> bool
    ensures { result ≡ true → AreRising (0 ∷ map (λ d. d.ident) decks.now) }
{
    let mut last = 0;
    for deck in decks {
        if deck.ident <= last {
            return false;
        }
        last = deck.ident;
    }
    true
}

/// Adds the touched cards of a deck whose cards were `before`. `sure` says that the decks before were in order of
/// serial, so that `before` are exactly the cards that the diffs compare; otherwise each card is searched for.
fn add_touched(
    found: &mut Vec<CardRef>,
    idents: &[Ident],
    before: &[Card],
    sure: bool,
    card_diffs: &[CardDiff],
) -> Result<(), AllocError>
    ensures { AreApart (map key_of before.now) → AllByRecursion (IsOf before.now sure) (map card_diff_view card_diffs.now)
        → OnOk result (found.new.items ≡ found.old.items ++ map (ref_of idents.now)
        (filter (λ c. not (stood_in before.now c)) (flat_map card_after (map card_diff_view card_diffs.now)))) }
{
    let youngest = youngest(before);
    for card_diff in card_diffs {
        match card_diff {
            CardDiff::Kept(was, is) => {
                let stood = has_stayed(before, youngest, sure, was, is);
                add_unless(found, idents, stood, is)?;
            }
            CardDiff::Gone(_) => {}
            CardDiff::New(is) => {
                let stood = has_stood(before, youngest, is);
                add_unless(found, idents, stood, is)?;
            }
        }
    }
    Ok(())
}

fn add_unless(
    found: &mut Vec<CardRef>,
    idents: &[Ident],
    stood: bool,
    card: &Card,
) -> Result<(), AllocError>
    ensures { OnOk result (found.new.items ≡ found.old.items
        ++ (if not stood then ref_of idents.now card.now ∷ [] else [])) }
{
    if !stood {
        found.push(card_ref(idents, card))?;
    }
    Ok(())
}

/// Whether a kept card has the same history as before. `sure` says that `was` is one of the cards before; otherwise the
/// card is searched for among them.
fn has_stayed(before: &[Card], youngest: Serial, sure: bool, was: &Card, is: &Card) -> bool
    requires { EachIndex before.now (λ i. (d : CardView) → (slice_index_or before.now i d).ident ≤ youngest) }
    ensures { AreApart (map key_of before.now) → (sure ≡ true → Contains before.now was.now)
        → is.now ≡ record was.now { history = is.now.history } → result ≡ stood_in before.now is.now }
{
    if sure {
        return is_same_history(&was.history, &is.history);
    }
    has_stood(before, youngest, is)
}

/// Whether a card is among `before`, with the same history. `youngest` bounds the serials of `before`.
fn has_stood(before: &[Card], youngest: Serial, card: &Card) -> bool
    requires { EachIndex before.now (λ i. (d : CardView) → (slice_index_or before.now i d).ident ≤ youngest) }
    ensures { result ≡ stood_in before.now card.now }
{
    if youngest < card.ident {
        return false;
    }
    stood_in(before, card)
}

fn stood_in(before: &[Card], card: &Card) -> bool
    ensures { result ≡ stood_in before.now card.now }
{
    for old in before {
        if is_same_card(old, card) {
            return true;
        }
    }
    false
}

/// Whether two cards have the same ident, number and history.
fn is_same_card(old: &Card, card: &Card) -> bool
    ensures { result ≡ is_card card.now.ident card.now.number old.now && same_history old.now.history card.now.history }
{
    old.ident == card.ident
        && old.number == card.number
        && is_same_history(&old.history, &card.history)
}

/// The greatest serial of the idents of these cards.
fn youngest(cards: &[Card]) -> Serial
    ensures { EachIndex cards.now (λ i. (d : CardView) → (slice_index_or cards.now i d).ident ≤ result) }
{
    let mut youngest = 0;
    for card in cards {
        youngest = youngest.max(card.ident);
    }
    youngest
}

fn is_same_history(history: &[Entry], other: &[Entry]) -> bool
    ensures { result ≡ same_history history.now other.now }
{
    if history.len() != other.len() {
        return false;
    }
    for (i, entry) in history.iter().enumerate() {
        if other[i] != *entry {
            return false;
        }
    }
    true
}
