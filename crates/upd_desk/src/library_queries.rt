//! Listings of a library that a store keeps.

ghost use Rattle.std.specs.Prelude.{◌≡◌, ◌+◌, ◌≤◌};
ghost use Rattle.upd_desk.specs.Holding.{EachHeld, FindsMade, OnlyReads};
ghost use Rattle.upd_desk.specs.Queries.{decks_asked, listing};
ghost use Rattle.upd_row_store.specs.Keeping.{OpensOk};
ghost use Rattle.upd_text.specs.Outcome.{GivesAt};

use std::alloc::Global;
use upd_compile::{list_card, list_deck, list_idents, list_yanks};
use upd_core::{CardRef, Library, Name};
use upd_row_store::{DeckOf, RowStore};
use upd_text::Fault;

/// What is listed.
#[derive(Debug, Drop)]
pub(crate) enum Query {
    /// The cards of a deck, or of `YANK$$$`.
    Deck(Name),
    /// A card with its history.
    Card(CardRef),
    /// The directory.
    Idents,
    /// The yank cards with their targets.
    Yanks,
}

/// What a listing is made of: the directory, `YANK$$$`, and the deck that it is about, if there is one, or the card of it
/// where that is in memory.
pub(crate) fn load_listed<S: RowStore>(
    store: &mut S,
    alloc: Global,
    query: &Query,
) -> Result<Library, Fault>
    ensures found { FindsMade S.Meaning result store.old store.new
        (λ l rows found. listing query.now found ≡ listing query.now l) }
    ensures reads { EachHeld S.Meaning store.old store.new
        (λ journal. S.decks_read_of store.new ≤ S.decks_read_of store.old + decks_asked query.now) }
    ensures opens { OpensOk S.Meaning result store.new }
    ensures leaves { OnlyReads S.Meaning result store.old store.new }
{
    match query {
        Query::Deck(name) => store.load_deck_of(alloc, &DeckOf::Named(*name)),
        Query::Card(card) => {
            if let Some(alone) = store.card_alone(alloc, *card) {
                return Ok(alone);
            }
            store.load_deck_of(alloc, &DeckOf::Holding(*card))
        }
        Query::Idents | Query::Yanks => store.load_decks(alloc, &[]),
    }
}

/// The text of a listing.
pub(crate) fn list(alloc: Global, library: &Library, query: &Query) -> Result<Vec<u8>, Fault>
    ensures { GivesAt (λ text. text.items) result (listing query.now library.now) }
{
    match query {
        Query::Deck(name) => list_deck(alloc, library, name),
        Query::Card(card) => list_card(alloc, library, *card),
        Query::Idents => list_idents(alloc, library),
        Query::Yanks => list_yanks(alloc, library),
    }
}
