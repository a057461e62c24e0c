//! A library that counts the histories that callers read: the measure of how many cards were looked at.

ghost use Rattle.std.specs.Prelude.{◌≡◌, ◌++◌, if◌then◌else◌, is_some, map, IfOk, OnOk};
ghost use Rattle.std.specs.Option.{option_copied, option_map};
ghost use Rattle.std.specs.List.{list_any, filter, flat_map};
ghost use Rattle.std.specs.Result.{IsOkUnless};
ghost use Rattle.upd_text.specs.Faults.{fault_at};
ghost use Rattle.upd_text.specs.declared.fault.FaultKind.TheVariants.{NoMemory};
ghost use Rattle.upd_core.specs.Counted.{one_more, counted_card, yanks_of, others_of};
ghost use Rattle.upd_core.specs.Library.{card_named, ident_of, place_of, ref_of};
ghost use Rattle.upd_core.specs.Reach.{has_entry_of, covers, covered, is_retaken, is_reached};
ghost use Rattle.upd_core.specs.TargetCounts.{count_in};

use crate::card::{Card, Entry, card_ref};
use crate::deck::Deck;
use crate::ident::{Ident, Serial};
use crate::library::{Library, Place, Rest};
use crate::target::Target;
use crate::target_counts::TargetCounts;
use std::alloc::{AllocError, Global};
use std::marker::Model;
use upd_text::{CardRef, Fault, Name};

/// A library that returns histories one at a time and counts them.
#[derive(Drop)]
pub struct Counted<'a> {
    library: &'a Library,
    histories_read: u64,
}

impl<'a> Model for Counted<'a> {
    ghost use Rattle.upd_core.specs.Counted.{CountedView};

    ghost Value = { CountedView };

    ghost view = { λ c. record { library = c.library.now; histories_read = c.histories_read } };
}

/// A card of a counted library. Its reference, deck, targets and the idents of its entries can be read freely; its
/// history is read through the `Counted`, which counts it.
#[derive(Drop)]
pub struct CountedCard<'a> {
    reference: CardRef,
    deck: Serial,
    card: &'a Card,
}

impl<'a> Model for CountedCard<'a> {
    ghost use Rattle.upd_core.specs.Counted.{CountedCardView};

    ghost Value = { CountedCardView };

    ghost view = { λ c. record { card = c.reference; deck = c.deck; view = c.card.now } };
}

impl<'a> CountedCard<'a> {
    /// The reference by which directives name the card.
    pub fn reference(&self) -> CardRef
        ensures { result ≡ self.now.card }
    {
        self.reference
    }

    /// The serial of its deck, 0 for `YANK$$$`.
    pub fn deck(&self) -> Serial
        ensures { result ≡ self.now.deck }
    {
        self.deck
    }

    /// What it takes out of use; empty unless it is a yank card.
    pub fn targets(&self) -> &'a [Target]
        ensures { result.now ≡ self.now.view.targets }
    {
        let card = self.card;
        &card.targets
    }

    /// Whether some target covers the card whose count is 0 in exactly one of `before` and `now`. It reads only the
    /// idents of the card's entries.
    pub fn is_reached(&self, before: &TargetCounts, now: &TargetCounts) -> bool
        ensures { result ≡ is_reached (count_in before.now) (count_in now.now) self.now.deck self.now.view }
    {
        let card = self.card;
        has_retaken(before, now, self.deck, &card.history)
            || TargetCounts::is_flipped(before, now, Target::Deck(self.deck))
    }
}

fn has_retaken(before: &TargetCounts, now: &TargetCounts, deck: Serial, history: &[Entry]) -> bool
    ensures { result ≡ list_any (is_retaken (count_in before.now) (count_in now.now) deck) history.now }
{
    for entry in history {
        if TargetCounts::is_flipped(before, now, Target::Set(entry.ident))
            || TargetCounts::is_flipped(before, now, Target::SetIn(entry.ident, deck))
        {
            return true;
        }
    }
    false
}

impl<'a> Counted<'a> {
    /// A counted library of which no history has been read.
    pub fn new(library: &'a Library) -> Counted<'a>
        ensures { result ≡ record { library = library.now; histories_read = 0 } }
    {
        Counted {
            library,
            histories_read: 0,
        }
    }

    /// The number of histories that were read; it saturates at `u64::MAX`.
    pub fn reads(&self) -> u64
        ensures { result ≡ self.now.histories_read }
    {
        self.histories_read
    }

    /// The cards and entries of decks that aren't loaded: both 0 in a whole library.
    pub fn rest(&self) -> Rest
        ensures { result ≡ self.now.library.rest }
    {
        let library = self.library;
        library.rest()
    }

    /// The serial of the held ident with a name. It does not allocate.
    pub fn ident_of(&self, name: &Name) -> Option<Serial>
        ensures { result ≡ ident_of name.now self.now.library }
    {
        let library = self.library;
        library.ident_of(name)
    }

    /// The place of the card that a reference names. It does not allocate.
    pub fn place(&self, card: CardRef) -> Option<Place>
        ensures { result ≡ place_of card self.now.library }
    {
        let library = self.library;
        library.card_at(card)
    }

    /// The targets of the card that a reference names; empty unless it is a yank card. It does not allocate.
    pub fn targets(&self, card: CardRef) -> Option<&'a [Target]>
        ensures { option_copied result ≡ option_map (λ c. c.targets) (card_named card self.now.library) }
    {
        let library = self.library;
        let place = library.card_at(card)?;
        let card = library.card_in(place)?;
        Some(&card.targets)
    }

    /// The history of the card that a reference names. It adds 1 to the reads where the card exists, and does not
    /// allocate.
    pub fn history(&mut self, card: CardRef) -> Option<&'a [Entry]>
        ensures history { option_copied result ≡ option_map (λ c. c.history) (card_named card self.old.library) }
        ensures reads { self.new ≡ (if is_some (card_named card self.old.library) then one_more self.old else self.old) }
    {
        let library = self.library;
        let place = library.card_at(card)?;
        let card = library.card_in(place)?;
        self.count_read();
        Some(&card.history)
    }

    /// The history of a card of this library. It adds 1 to the reads.
    pub fn history_of(&mut self, card: &CountedCard<'a>) -> &'a [Entry]
        ensures history { result.now ≡ card.now.view.history }
        ensures reads { self.new ≡ one_more self.old }
    {
        self.count_read();
        let card = card.card;
        &card.history
    }

    fn count_read(&mut self)
        ensures { self.new ≡ one_more self.old }
    {
        self.histories_read = self.histories_read.saturating_add(1);
    }

    /// The cards that a target covers, in order of deck (`YANK$$$` first) and place.
    pub fn covered(&self, alloc: Global, target: Target) -> Result<Vec<CardRef>, Fault>
        ensures ok { IfOk result (λ cards. cards.items ≡ covered target self.now.library) }
        ensures err { IsOkUnless result (fault_at NoMemory 0) }
    {
        let library = self.library;
        let mut found = Vec::new(alloc);
        add_covered_of_deck(&mut found, library.idents(), 0, library.yanks(), target)?;
        add_covered_of_decks(&mut found, library.idents(), library.decks(), target)?;
        Ok(found)
    }

    /// The cards of `YANK$$$`.
    pub fn yanks(&self, alloc: Global) -> Result<Vec<CountedCard<'a>>, AllocError>
        ensures { IfOk result (λ cards. cards.items ≡ yanks_of self.now.library) }
    {
        let library = self.library;
        let mut found = Vec::with_capacity(alloc, library.yanks().len())?;
        add_cards(&mut found, library.idents(), 0, library.yanks())?;
        Ok(found)
    }

    /// The cards of the other decks, in order of deck and place.
    pub fn others(&self, alloc: Global) -> Result<Vec<CountedCard<'a>>, AllocError>
        ensures { IfOk result (λ cards. cards.items ≡ others_of self.now.library) }
    {
        let library = self.library;
        let mut found = Vec::new(alloc);
        add_cards_of(&mut found, library.idents(), library.decks())?;
        Ok(found)
    }
}

fn add_cards_of<'a>(
    found: &mut Vec<CountedCard<'a>>,
    idents: &[Ident],
    decks: &'a [Deck],
) -> Result<(), AllocError>
    ensures { OnOk result (found.new.items
        ≡ found.old.items ++ flat_map (λ d. map (counted_card idents.now d.ident) d.cards) decks.now) }
{
    for deck in decks {
        add_cards(found, idents, deck.ident, &deck.cards)?;
    }
    Ok(())
}

fn add_cards<'a>(
    found: &mut Vec<CountedCard<'a>>,
    idents: &[Ident],
    deck: Serial,
    cards: &'a [Card],
) -> Result<(), AllocError>
    ensures { OnOk result (found.new.items ≡ found.old.items ++ map (counted_card idents.now deck) cards.now) }
{
    for card in cards {
        found.push(CountedCard {
            reference: card_ref(idents, card),
            deck,
            card,
        })?;
    }
    Ok(())
}

fn add_covered_of_decks(
    found: &mut Vec<CardRef>,
    idents: &[Ident],
    decks: &[Deck],
    target: Target,
) -> Result<(), AllocError>
    ensures { OnOk result (found.new.items
        ≡ found.old.items
        ++ flat_map (λ d. map (ref_of idents.now) (filter (λ c. covers d.ident c target) d.cards)) decks.now) }
{
    for deck in decks {
        add_covered_of_deck(found, idents, deck.ident, &deck.cards, target)?;
    }
    Ok(())
}

fn add_covered_of_deck(
    found: &mut Vec<CardRef>,
    idents: &[Ident],
    deck: Serial,
    cards: &[Card],
    target: Target,
) -> Result<(), AllocError>
    ensures { OnOk result (found.new.items
        ≡ found.old.items ++ map (ref_of idents.now) (filter (λ c. covers deck c target) cards.now)) }
{
    for card in cards {
        if covers(deck, card, target) {
            found.push(card_ref(idents, card))?;
        }
    }
    Ok(())
}

fn covers(deck: Serial, card: &Card, target: Target) -> bool
    ensures { result ≡ covers deck card.now target }
{
    match target {
        Target::Set(ident) => has_entry_of(ident, card),
        Target::SetIn(ident, place) => has_entry_of(ident, card) && place == deck,
        Target::Deck(place) => place == deck,
    }
}

fn has_entry_of(ident: Serial, card: &Card) -> bool
    ensures { result ≡ has_entry_of ident card.now }
{
    card.history.iter().any(|entry| entry.ident == ident)
}
