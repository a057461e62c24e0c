//! Correcting a deck that is known by its listing alone.

ghost use Rattle.std.specs.Prelude.{◌≡◌, ◌+◌, ◌≤◌, ◌++◌, None, map, length, IfOk, OnOk, IfErr};
ghost use Rattle.upd_text.specs.declared.limits.TheConstants.{MAX_CARDS};
ghost use Rattle.upd_correct.specs.ListedRuns.{IsListedCause, IsListedRun};
ghost use Rattle.upd_correct.specs.declared.listed_deck.ListedError.TheVariants.{NoMemory};
ghost use Rattle.upd_correct.specs.ListedDeck.{aged_card, bad_line, card_listed, cards_listed, library_listed, library_of, name_listed, with_idents};

use crate::correcting::correct_by;
use crate::edited_lines::cut_text;
use crate::listed_card::{ListedCard, bad_card, listed_cards, listed_name};
use crate::other_deck::first_other;
use crate::refusal::{CorrectError, Refusal};
use crate::writer::{Deletions, Form};
use std::alloc::{AllocError, AllocFailed, Global};
use upd_core::{Card, Deck, Entry, Kind, Library, Name, Serial};

/// Why there is no run for the edited text of a listed deck.
#[derive(Debug, Drop)]
pub enum ListedError {
    /// Out of memory.
    NoMemory,
    /// A line of the listing, by its number from 1, isn't one of a deck's listing; no line before it is wrong.
    NotListing(usize),
    /// A line of the text, by its number from 1, begins another deck than the listed one; no line before it does.
    OtherDeck(usize),
    /// The text is refused: all its problems, in order of line.
    Refused(Vec<Refusal>),
}

impl From<AllocError> for ListedError {
    ghost from_gives = { λ _ error. error ≡ NoMemory };

    fn from(_error: AllocError) -> ListedError {
        ListedError::NoMemory
    }
}

impl<T: Drop> From<AllocFailed<T>> for ListedError {
    ghost from_gives = { λ _ error. error ≡ NoMemory };

    fn from(_error: AllocFailed<T>) -> ListedError {
        ListedError::NoMemory
    }
}

/// The run that leads a deck to its edited text under the name of a new set, made from the listing of the deck alone.
/// Where nothing changes, the run is empty.
///
/// The run is checked in the library that the listing stands for. Each card that goes has a `*DELETE` of its own, unless
/// the run would be too long by it: so it takes no line that another has put in since. A listing doesn't tell which other names are held, nor
/// how much room the library has. So a run may still be refused when it arrives, for the name of its set or for a limit.
pub fn correct_listed(
    alloc: Global,
    listing: &[u8],
    set: &[u8],
    text: &[u8],
) -> Result<Vec<u8>, ListedError>
    ensures made { IfOk result (λ run. IsListedRun listing.now set.now text.now run.items) }
    ensures refused { IfErr result (IsListedCause listing.now set.now text.now) }
{
    let lines = cut_text(alloc, listing)?;
    if let Some(line) = bad_line(&lines) {
        return Err(ListedError::NotListing(line));
    }
    let name = name_listed(&lines);
    if let Some(index) = first_other(alloc, &name, text)? {
        return Err(ListedError::OtherDeck(index.saturating_add(1)));
    }
    let library = library_of(alloc, name, &lines)?;
    let form = Form::of(Deletions::Cards);
    match correct_by(alloc, &library, &form, set, text) {
        Ok(run) => Ok(run),
        Err(CorrectError::NoMemory) => Err(ListedError::NoMemory),
        Err(CorrectError::Refused(refusals)) => Err(ListedError::Refused(refusals)),
    }
}

/// The number of the first line that isn't one of a listing.
fn bad_line(lines: &[&[u8]]) -> Option<usize>
    ensures { result ≡ bad_line (map (λ t. t.now) lines.now) }
{
    let [head, cards @ ..] = lines else {
        return Some(1);
    };
    if listed_name(head).is_none() {
        return Some(1);
    }
    let index = bad_card(cards)?;
    Some(index + 2)
}

/// The name of the deck of a listing.
fn name_listed(lines: &[&[u8]]) -> Name
    ensures { result ≡ name_listed (map (λ t. t.now) lines.now) }
{
    match lines {
        [head, ..] => listed_name(head).unwrap_or(Name::none()),
        [] => Name::none(),
    }
}

/// The library that a listing stands for.
fn library_of(alloc: Global, name: Name, lines: &[&[u8]]) -> Result<Library, AllocError>
    requires read { bad_line (map (λ t. t.now) lines.now) ≡ None }
    requires named { name ≡ name_listed (map (λ t. t.now) lines.now) }
    ensures { IfOk result (λ library. library ≡ library_of (map (λ t. t.now) lines.now)) }
{
    let cards = cards_listed(alloc, lines)?;
    library_listed(alloc, name, &cards)
}

/// The cards of a listing.
fn cards_listed<'a>(alloc: Global, lines: &[&'a [u8]]) -> Result<Vec<ListedCard<'a>>, AllocError>
    ensures { IfOk result (λ cards. cards.items ≡ cards_listed (map (λ t. t.now) lines.now)) }
{
    match lines {
        [_, cards @ ..] => listed_cards(alloc, cards),
        [] => Ok(Vec::new(alloc)),
    }
}

/// The library whose only deck has these cards, with serial 1.
fn library_listed(alloc: Global, name: Name, cards: &[ListedCard]) -> Result<Library, AllocError>
    requires { length cards.now ≤ MAX_CARDS }
    ensures { IfOk result (λ library. library ≡ library_listed name cards.now) }
{
    let mut library = Library::new(alloc);
    library.introduce(name, Kind::Deck, false)?;
    introduce_idents(&mut library, cards)?;
    let mut deck = Vec::new(alloc);
    push_listed(alloc, &mut deck, &library, cards)?;
    library.push_deck(Deck {
        ident: 1,
        cards: deck,
    })?;
    Ok(library)
}

/// Introduces the idents of cards, as those of sets where no ident has the name.
fn introduce_idents(library: &mut Library, cards: &[ListedCard]) -> Result<(), AllocError>
    requires { length library.old.idents + length cards.now ≤ MAX_CARDS + 1 }
    ensures { OnOk result (library.new ≡ with_idents cards.now library.old) }
{
    for listed in cards {
        if library.held(&listed.card.name).is_none() {
            library.introduce(listed.card.name, Kind::Set, false)?;
        }
    }
    Ok(())
}

/// Appends the cards of a library that has their idents.
fn push_listed(
    alloc: Global,
    deck: &mut Vec<Card>,
    library: &Library,
    cards: &[ListedCard],
) -> Result<(), AllocError>
    ensures { OnOk result (deck.new.items ≡ deck.old.items ++ map (card_listed library.now) cards.now) }
{
    for listed in cards {
        let age = library.ident_of(&listed.card.name).unwrap_or(0);
        deck.push(aged_card(alloc, age, listed)?)?;
    }
    Ok(())
}

/// The card with the serial of its ident, which switched it off where it isn't active.
fn aged_card(alloc: Global, serial: Serial, listed: &ListedCard) -> Result<Card, AllocError>
    ensures { IfOk result (λ card. card ≡ aged_card serial listed.now) }
{
    let mut card = Card::new(
        alloc,
        serial,
        listed.card.number,
        listed.text,
        Vec::new(alloc),
    )?;
    if !listed.active {
        card.history.push(Entry {
            ident: serial,
            active: false,
        })?;
    }
    Ok(card)
}
