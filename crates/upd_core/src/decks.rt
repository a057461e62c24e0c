//! The decks of a library, with an index that shortens look-ups of cards.

ghost use Rattle.std.specs.Prelude.{◌≡◌, ◌≤◌, [], ◌∷◌, ◌++◌, true, false, find, is_some, IfOk, OnOk, OnErr};
ghost use Rattle.std.specs.Option.{option_map_or};
ghost use Rattle.upd_core.specs.EditParts.{entered_count, entered_in, inserted_in};
ghost use Rattle.upd_core.specs.Edits.{deck_without, decks_without};
ghost use Rattle.upd_core.specs.First.{at_first, index_from};
ghost use Rattle.upd_core.specs.Gone.{is_gone};
ghost use Rattle.upd_core.specs.Homes.{AreHome, IsHome, StayNoted, is_home, may_stray};
ghost use Rattle.upd_core.specs.Library.{is_card, is_deck, place_in};

use crate::card::{Card, Entry};
use crate::deck::{Deck, card_index, copy_decks, place_in};
use crate::edits::{enter_in, insert_in, purge_deck};
use crate::gone::{Gone, purge_decks};
use crate::ident::Serial;
use crate::library::Place;
use std::alloc::{AllocError, Global};
use std::marker::Model;
use upd_text::limits::MAX_INTRODUCED;

/// The decks other than `YANK$$$`.
#[derive(Debug, Drop)]
pub(crate) struct Decks {
    all: Vec<Deck>,
    /// By serial: whether the ident may have cards in a deck other than its own.
    strays: Vec<bool>,
}

impl Model for Decks {
    ghost use Rattle.std.specs.Prelude.{List};
    ghost use Rattle.upd_core.specs.Library.{DeckView};
    ghost use Rattle.upd_core.specs.Homes.{AreHome};

    ghost Value = { List DeckView };

    ghost view = { λ d. d.all.items };

    ghost invariant = { λ d. AreHome d.strays.items d.all.items };
}

impl Decks {
    /// These decks. Where memory for the flags runs out, each look-up of a card searches all decks.
    pub(crate) fn of(all: Vec<Deck>) -> Decks
        ensures { result ≡ all.items }
    {
        let mut strays = no_strays(&all);
        note_decks(&mut strays, &all);
        Decks { all, strays }
    }

    /// A deep copy.
    pub(crate) fn copy(&self) -> Result<Decks, AllocError>
        ensures { IfOk result (λ copy. copy ≡ self.now) }
    {
        let all = copy_decks(*self.all.allocator(), &self.all)?;
        Ok(Decks::of(all))
    }

    pub(crate) fn as_slice(&self) -> &[Deck]
        ensures { result.now ≡ self.now }
    {
        self.all.as_slice()
    }

    /// The place of the card with an ident and a number.
    pub(crate) fn place_of(&self, ident: Serial, number: u32) -> Option<Place>
        ensures { result ≡ place_in self.now ident number }
    {
        if may_stray(&self.strays, ident) {
            place_in(&self.all, ident, number)
        } else {
            place_at_home(&self.all, &self.strays, ident, number)
        }
    }

    /// Appends a deck.
    pub(crate) fn push(&mut self, deck: Deck) -> Result<(), AllocError>
        ensures ok { OnOk result (self.new ≡ self.old ++ deck ∷ []) }
        ensures err { OnErr result (self.new ≡ self.old) }
    {
        note_deck(&mut self.strays, &deck);
        self.all.push(deck)?;
        Ok(())
    }

    /// Inserts a card into the deck with a serial, in front of its last `behind` cards. Returns whether the deck
    /// exists.
    pub(crate) fn insert(
        &mut self,
        age: Serial,
        behind: usize,
        card: Card,
    ) -> Result<bool, AllocError>
        ensures found { IfOk result (λ found. found ≡ is_some (find (is_deck age) self.old)) }
        ensures ok { OnOk result (self.new ≡ inserted_in age behind card self.old) }
        ensures err { OnErr result (self.new ≡ self.old) }
    {
        note_kept(&mut self.strays, age, &card);
        let found = insert_in(&mut self.all, age, behind, card)?;
        Ok(found)
    }

    /// Appends an entry to the cards of a deck from one index to another, both included. Returns the number of these
    /// cards.
    pub(crate) fn enter(
        &mut self,
        age: Serial,
        from: usize,
        to: usize,
        entry: Entry,
    ) -> Result<usize, AllocError>
        requires { from ≤ to }
        ensures count { IfOk result
            (λ count. count ≡ option_map_or (λ d. entered_count from to d.cards) (find (is_deck age) self.old) 0) }
        ensures ok { OnOk result (self.new ≡ entered_in age from to entry self.old) }
        ensures err { OnErr result (self.new ≡ self.old) }
    {
        let count = enter_in(&mut self.all, age, from, to, entry)?;
        Ok(count)
    }

    /// Removes the decks of these idents, and their cards and entries from the other decks.
    pub(crate) fn purge(&mut self, gone: &Gone)
        ensures { self.new ≡ decks_without (is_gone gone.now) self.old }
    {
        purge_decks(&mut self.all, gone);
    }

    /// Removes the cards and entries of these idents from the deck with a serial.
    pub(crate) fn purge_in(&mut self, age: Serial, gone: &Gone)
        ensures { self.new ≡ at_first (is_deck age) (deck_without (is_gone gone.now)) self.old }
    {
        purge_deck(&mut self.all, age, gone);
    }
}

/// A false flag for each serial up to the youngest deck; no flags where memory runs out.
fn no_strays(decks: &Vec<Deck>) -> Vec<bool> {
    let alloc = *decks.allocator();
    let count = match decks.last() {
        Some(deck) => MAX_INTRODUCED.min(deck.ident as usize) + 1,
        None => 0,
    };
    match vec![in alloc; false; count] {
        Ok(flags) => flags,
        Err(_) => Vec::new(alloc),
    }
}

/// Whether an ident may have cards in a deck other than its own.
fn may_stray(strays: &[bool], ident: Serial) -> bool
    ensures { result ≡ may_stray strays.now ident }
{
    match strays.get(ident as usize) {
        Some(strays) => *strays,
        None => true,
    }
}

/// Notes that an ident may stray.
fn note_stray(strays: &mut [bool], ident: Serial)
    ensures kept { StayNoted strays.old strays.new }
    ensures noted { may_stray strays.new ident ≡ true }
{
    let index = ident as usize;
    if index < strays.len() {
        strays[index] = true;
    }
}

/// Notes that the ident of a card in a deck may stray, unless the deck is its own.
fn note_card(strays: &mut [bool], deck: Serial, card: &Card)
    ensures kept { StayNoted strays.old strays.new }
    ensures home { is_home strays.new deck card.now ≡ true }
    ensures own { card.now.ident ≡ deck → strays.new ≡ strays.old }
{
    if card.ident != deck {
        note_stray(strays, card.ident);
    }
}

/// [`note_card`] on a vector: its length is unchanged.
fn note_kept(strays: &mut Vec<bool>, deck: Serial, card: &Card)
    ensures kept { StayNoted strays.old.items strays.new.items }
    ensures home { is_home strays.new.items deck card.now ≡ true }
{
    note_card(strays, deck, card);
}

/// [`note_card`] for the cards of a deck.
fn note_deck(strays: &mut [bool], deck: &Deck)
    ensures kept { StayNoted strays.old strays.new }
    ensures home { IsHome strays.new deck.now }
{
    for card in &deck.cards {
        note_card(strays, deck.ident, card);
    }
}

/// [`note_card`] for the cards of all decks.
fn note_decks(strays: &mut [bool], decks: &[Deck])
    ensures { AreHome strays.new decks.now }
{
    for deck in decks {
        note_deck(strays, deck);
    }
}

/// The index in a deck of the card of an ident that doesn't stray.
fn index_at_home(deck: &Deck, strays: &[bool], ident: Serial, number: u32) -> Option<usize>
    requires home { IsHome strays.now deck.now }
    requires stays { may_stray strays.now ident ≡ false }
    ensures { result ≡ index_from (is_card ident number) 0 deck.now.cards }
{
    if deck.ident == ident {
        card_index(&deck.cards, ident, number)
    } else {
        None
    }
}

/// The place of the card of an ident that doesn't stray.
fn place_at_home(decks: &[Deck], strays: &[bool], ident: Serial, number: u32) -> Option<Place>
    requires home { AreHome strays.now decks.now }
    requires stays { may_stray strays.now ident ≡ false }
    ensures { result ≡ place_in decks.now ident number }
{
    for deck in decks {
        if let Some(index) = index_at_home(deck, strays, ident, number) {
            return Some(Place {
                deck: deck.ident,
                index,
            });
        }
    }
    None
}
