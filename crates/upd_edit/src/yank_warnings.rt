//! Warnings of yanks and purges: what younger idents have made of the cards that go, and which decks stay.

ghost use Rattle.std.specs.Prelude.{◌≡◌, ◌≤◌, ◌++◌, drop, length, OnOk, IfOk};
ghost use Rattle.std.specs.List.{filter_map, find, flat_map, zip};
ghost use Rattle.std.specs.Option.{option_copied, option_map};
ghost use Rattle.upd_core.specs.Library.{name_of};
ghost use Rattle.upd_core.specs.Status.{live_of};
ghost use Rattle.upd_edit.specs.YankWarnings.{deck_after, deck_kind, deck_warning, deck_warnings, entry_kind, followed_kind, goes, is_followed};
ghost use Rattle.upd_edit.specs.YankWarnings.{is_set, is_switched, serials_of, stays, switched_kind, taking_warnings, younger_entry};
ghost use Rattle.upd_edit.specs.Found.{found};

use crate::meeting::Seen;
use crate::warning::{TakingWord, Warning, WarningKind, push};
use crate::warnings::{name_of, ref_of};
use std::alloc::{AllocError, Global};
use std::marker::Model;
use upd_core::{Card, Deck, Entry, Ident, Library, Live, Serial};
use upd_deck::NameRange;

/// The idents that a field names, by their serials, both ends included.
#[derive(Clone, Copy, Debug)]
pub(crate) struct Serials {
    from: Serial,
    to: Serial,
}

impl Model for Serials {
    ghost use Rattle.upd_apply.specs.Names.{Ages};

    ghost Value = { Ages };

    ghost view = { λ s. record { from = s.from; to = s.to } };

    ghost inverse = { λ s. record { from = s.from; to = s.to } };
}

/// A yank or purge that is tried on a library.
#[derive(Clone, Copy)]
pub(crate) struct Taking<'a> {
    library: &'a Library,
    live: &'a Live<'a>,
    /// The number of its line.
    number: usize,
    word: TakingWord,
    ranges: &'a [Serials],
}

/// Appends the warnings of a yank or purge of names.
pub(crate) fn push_taking(
    list: &mut Vec<Warning>,
    seen: &Seen,
    number: usize,
    word: TakingWord,
    names: &[NameRange],
) -> Result<(), AllocError>
    ensures { OnOk result (list.new.items ≡ list.old.items ++ taking_warnings number word seen.now.library names.now) }
{
    let ranges = serials_named(*list.allocator(), seen.library, names)?;
    let taking = Taking {
        library: seen.library,
        live: seen.live,
        number,
        word,
        ranges: &ranges,
    };
    taking.push_decks_after(list)?;
    taking.push_decks(list)
}

/// The serials of ranges of names; those with a name that isn't held are left out.
fn serials_named(
    alloc: Global,
    library: &Library,
    names: &[NameRange],
) -> Result<Vec<Serials>, AllocError>
    ensures { IfOk result (λ ranges. ranges.items ≡ filter_map (serials_of library.now) names.now) }
{
    names
        .iter()
        .filter_map(|range| serials_of(library, range))
        .collect(alloc)
}

/// The serials of a range of names.
fn serials_of(library: &Library, range: &NameRange) -> Option<Serials>
    ensures { result ≡ serials_of library.now range.now }
{
    let from = library.ident_of(&range.first)?;
    let to = library.ident_of(&range.last)?;
    Some(Serials { from, to })
}

impl<'a> Taking<'a> {
    /// Whether an ident goes.
    fn goes(&self, z: Serial) -> bool
        ensures { result ≡ goes self.now.ranges.now z }
    {
        self.ranges
            .iter()
            .any(|range| range.from <= z && z <= range.to)
    }

    /// Whether an ident that is younger than another stays in a deck.
    fn stays(&self, deck: Serial, z: Serial, y: Serial) -> bool
        ensures { result ≡ stays self.now.live.now.targets deck self.now.ranges.now z y }
    {
        z < y && !self.goes(y) && !self.live.is_taken(deck, y)
    }

    /// The first entry of a younger ident that stays.
    fn younger_entry(&self, deck: Serial, card: &Card) -> Option<Entry>
        ensures { result ≡ younger_entry self.now.live.now.targets deck self.now.ranges.now card.now }
    {
        card.history
            .iter()
            .find(|entry| self.stays(deck, card.ident, entry.ident))
            .copied()
    }

    /// Whether a card goes that a younger ident has switched.
    fn is_switched(&self, deck: Serial, card: &Card) -> bool
        ensures { result ≡ is_switched self.now.live.now.targets deck self.now.ranges.now card.now }
    {
        self.goes(card.ident) && self.younger_entry(deck, card).is_some()
    }

    /// The first such card of a deck.
    fn switched_card<'b>(&self, deck: &'b Deck) -> Option<&'b Card>
        ensures { option_copied result
            ≡ find (is_switched self.now.live.now.targets deck.now.ident self.now.ranges.now) deck.now.cards }
    {
        deck.cards
            .iter()
            .find(|card| self.is_switched(deck.ident, card))
    }

    /// Whether of two neighbours the first goes, and the second is of a younger ident that stays.
    fn is_followed(&self, deck: Serial, pair: &(&Card, &Card)) -> bool
        ensures { result ≡ is_followed self.now.live.now.targets deck self.now.ranges.now (pair.now.0.now, pair.now.1.now) }
    {
        let card: &Card = pair.0;
        let next: &Card = pair.1;
        self.goes(card.ident) && self.stays(deck, card.ident, next.ident)
    }

    /// The first such neighbours of a deck.
    fn followed_cards<'b>(&self, deck: &'b Deck) -> Option<(&'b Card, &'b Card)>
        ensures { option_map (λ p. (p.0.now, p.1.now)) result
            ≡ find (is_followed self.now.live.now.targets deck.now.ident self.now.ranges.now) (zip deck.now.cards (drop 1 deck.now.cards)) }
    {
        match deck.cards.as_slice() {
            [] => None,
            [_, next @ ..] => self.followed_pair(deck.ident, &deck.cards, next),
        }
    }

    /// The first such pair of a card and of that at the same index of another list.
    #[tactic(auto, using(crate::proofs::YankLemmas::find_zip_end))]
    fn followed_pair<'b>(
        &self,
        deck: Serial,
        cards: &'b [Card],
        next: &'b [Card],
    ) -> Option<(&'b Card, &'b Card)>
        requires { length next.now ≤ length cards.now }
        ensures { option_map (λ p. (p.0.now, p.1.now)) result
            ≡ find (is_followed self.now.live.now.targets deck self.now.ranges.now) (zip cards.now next.now) }
    {
        for i in 0..next.len() {
            let pair = (&cards[i], &next[i]);
            if self.is_followed(deck, &pair) {
                return Some(pair);
            }
        }
        None
    }

    /// Appends the warnings of all decks.
    fn push_decks(&self, list: &mut Vec<Warning>) -> Result<(), AllocError>
        requires { self.now.live.now ≡ live_of self.now.library.now }
        ensures { OnOk result (list.new.items ≡ list.old.items ++ flat_map (deck_warnings self.now.number self.now.word
            self.now.library.now self.now.ranges.now) self.now.library.now.decks) }
    {
        for deck in self.library.decks() {
            push(list, self.number, self.switched_kind(deck))?;
            push(list, self.number, self.followed_kind(deck))?;
        }
        Ok(())
    }

    /// The warning of the first card of a deck that goes and that a younger ident has switched.
    fn switched_kind(&self, deck: &Deck) -> Option<WarningKind>
        requires { self.now.live.now ≡ live_of self.now.library.now }
        ensures { result ≡ switched_kind self.now.word self.now.library.now self.now.ranges.now deck.now }
    {
        let card = self.switched_card(deck)?;
        let entry = self.younger_entry(deck.ident, card)?;
        Some(self.entry_kind(card, &entry))
    }

    /// The warning of a card that goes, by an entry.
    fn entry_kind(&self, card: &Card, entry: &Entry) -> WarningKind
        ensures { result ≡ entry_kind self.now.word self.now.library.now card.now entry.now }
    {
        WarningKind::TakesSwitched {
            word: self.word,
            card: ref_of(self.library, card),
            by: name_of(self.library, entry.ident),
        }
    }

    /// The warning of the first neighbours of a deck of which the first goes, and the second stays.
    fn followed_kind(&self, deck: &Deck) -> Option<WarningKind>
        requires { self.now.live.now ≡ live_of self.now.library.now }
        ensures { result ≡ followed_kind self.now.word self.now.library.now self.now.ranges.now deck.now }
    {
        let (card, next) = self.followed_cards(deck)?;
        Some(WarningKind::TakesFollowed {
            word: self.word,
            card: ref_of(self.library, card),
            next: ref_of(self.library, next),
        })
    }

    /// Appends the warnings of decks that came after the idents that go.
    fn push_decks_after(&self, list: &mut Vec<Warning>) -> Result<(), AllocError>
        ensures { OnOk result (list.new.items ≡ list.old.items ++ flat_map (deck_warning self.now.number self.now.word
            self.now.library.now self.now.ranges.now) self.now.ranges.now) }
    {
        for range in self.ranges {
            push(list, self.number, self.deck_kind(range))?;
        }
        Ok(())
    }

    /// The warning of a deck that came right after the last ident of a range, if it stays.
    fn deck_kind(&self, range: &Serials) -> Option<WarningKind>
        ensures { result ≡ deck_kind self.now.word self.now.library.now self.now.ranges.now range.now }
    {
        let deck = self.deck_after(range)?;
        Some(WarningKind::DeckStays {
            word: self.word,
            set: name_of(self.library, range.to),
            deck: deck.name,
            known: false,
        })
    }

    /// Whether the ident with a serial is a set.
    fn is_set(&self, z: Serial) -> bool
        ensures { result ≡ is_set self.now.library.now.idents z }
    {
        match self.library.idents().get((z as usize).saturating_sub(1)) {
            Some(ident) => !ident.kind.is_deck(),
            None => false,
        }
    }

    /// The deck that came right after the last ident of a range, if that is a set and the deck doesn't go.
    fn deck_after(&self, range: &Serials) -> Option<&Ident>
        ensures { option_copied result ≡ deck_after self.now.library.now self.now.ranges.now range.now }
    {
        if !self.is_set(range.to) {
            return None;
        }
        let ident = self.library.idents().get(range.to as usize)?;
        if ident.held && ident.kind.is_deck() && !self.goes(ident.age) {
            Some(ident)
        } else {
            None
        }
    }
}
