//! Plans: the corrections of held decks, and the new decks.

ghost use Rattle.std.specs.Prelude.{◌≡◌, IfOk, map};
ghost use Rattle.std.specs.List.{list_any};
ghost use Rattle.std.specs.Str.{bytes_eq};
ghost use Rattle.upd_core.specs.Status.{live_of};
ghost use Rattle.upd_correct.specs.Checked.{new_decks};
ghost use Rattle.upd_correct.specs.Problems.{deck_problem, first_problem, name_problem, set_problem};

use crate::edited_deck::EditedDeck;
use crate::matching::matches_of;
use crate::refusal::Problem;
use crate::script::{Segment, segments_for};
use std::alloc::{AllocError, Global};
use upd_core::{Card, Library, Live, Serial};
use upd_text::Name;

/// A deck and its segments.
#[derive(Drop)]
pub(crate) struct Correction<'a> {
    pub(crate) deck: Serial,
    pub(crate) segments: Vec<Segment<'a>>,
}

impl<'a> Correction<'a> {
    /// Whether it changes the deck.
    pub(crate) fn is_change(&self) -> bool {
        self.segments.iter().any(|segment| segment.is_change())
    }
}

/// What is wrong with the name of a set.
pub(crate) fn set_problem(library: &Library, set: &[u8]) -> Option<Problem>
    ensures { result ≡ set_problem library.now set.now }
{
    let Some(name) = Name::read(set) else {
        return Some(Problem::BadName);
    };
    if name == Name::yank() {
        return Some(Problem::Reserved);
    }
    if library.held(&name).is_some() {
        return Some(Problem::NameTaken);
    }
    None
}

/// What is wrong with a deck that follows others in the text.
pub(crate) fn deck_problem(
    library: &Library,
    live: &Live,
    set: &[u8],
    earlier: &[EditedDeck],
    deck: &EditedDeck,
) -> Option<Problem>
    requires { live.now ≡ live_of library.now }
    ensures { result ≡ deck_problem library.now set.now (map (λ d. d.name) earlier.now) deck.now }
{
    if has_name(earlier, &deck.name) {
        return Some(Problem::DeckTwice);
    }
    match library.deck_of(&deck.name) {
        Some(age) => first_problem(live, age, deck.first, library.cards_of(age)),
        None => name_problem(library, set, &deck.name),
    }
}

/// Whether one of these decks has a name.
fn has_name(decks: &[EditedDeck], name: &Name) -> bool
    ensures { result ≡ list_any (λ n. bytes_eq n name.now) (map (λ d. d.name) decks.now) }
{
    decks.iter().map(|deck| deck.name).any(|held| held == *name)
}

/// What is wrong with the first line of a held deck.
fn first_problem(live: &Live, deck: Serial, text: &[u8], cards: &[Card]) -> Option<Problem>
    ensures { result ≡ first_problem live.now.targets deck text.now cards.now }
{
    match cards {
        [] => Some(Problem::FirstCard),
        [first, ..] => {
            if first.text.as_slice() != text {
                Some(Problem::FirstCard)
            } else if live.is_active(deck, first) {
                None
            } else {
                Some(Problem::OutOfUse)
            }
        }
    }
}

/// What is wrong with the name of a new deck.
fn name_problem(library: &Library, set: &[u8], name: &Name) -> Option<Problem>
    ensures { result ≡ name_problem library.now set.now name.now }
{
    if *name == Name::yank() {
        Some(Problem::Reserved)
    } else if library.held(name).is_some() || name.as_bytes() == set {
        Some(Problem::NameTaken)
    } else {
        None
    }
}

/// The corrections that lead the held decks of a text to their edited texts.
pub(crate) fn corrections_for<'a>(
    alloc: Global,
    library: &'a Library,
    live: &Live,
    decks: &[EditedDeck<'a>],
) -> Result<Vec<Correction<'a>>, AllocError> {
    let mut corrections = Vec::new(alloc);
    for deck in decks {
        if let Some(serial) = library.deck_of(&deck.name) {
            let cards = library.cards_of(serial);
            corrections.push(correction_of(alloc, live, serial, cards, deck)?)?;
        }
    }
    Ok(corrections)
}

/// The correction that leads a held deck to its edited text.
fn correction_of<'a>(
    alloc: Global,
    live: &Live,
    serial: Serial,
    cards: &'a [Card],
    deck: &EditedDeck<'a>,
) -> Result<Correction<'a>, AllocError> {
    let segments = match cards {
        [] => Vec::new(alloc),
        [first, rest @ ..] => {
            let matches = matches_of(alloc, live, serial, rest, &deck.lines)?;
            segments_for(alloc, live, serial, first, rest, &matches, &deck.lines)?
        }
    };
    Ok(Correction {
        deck: serial,
        segments,
    })
}

/// The decks of a text that are new.
pub(crate) fn added_decks<'b, 'a>(
    alloc: Global,
    library: &Library,
    decks: &'b [EditedDeck<'a>],
) -> Result<Vec<&'b EditedDeck<'a>>, AllocError>
    ensures { IfOk result (λ added. map (λ d. d.now) added.items ≡ new_decks library.now decks.now) }
{
    let mut added = Vec::new(alloc);
    for deck in decks {
        if library.deck_of(&deck.name).is_none() {
            added.push(deck)?;
        }
    }
    Ok(added)
}
