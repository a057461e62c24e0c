//! Where a line of a run meets what idents younger than SINCE have done.

ghost use Rattle.std.specs.Prelude.{◌≡◌, drop, find, take};
ghost use Rattle.std.specs.Option.{option_copied};
ghost use Rattle.upd_core.specs.Library.{cards_of};
ghost use Rattle.upd_edit.specs.Conflicts.{before_conflict, beside_conflict, between, end_of, insert_conflict, is_changed, is_line, is_now, is_put};
ghost use Rattle.upd_edit.specs.Conflicts.{line_before, line_behind, met, met_beside, met_inside, older_conflict, put_beside, put_inside, range_conflict};
ghost use Rattle.upd_edit.specs.Conflicts.{since_name, switched_by, was_then, yanks_conflict};

use crate::warning::Conflict;
use crate::warnings::{name_of, ref_of};
use std::marker::Model;
use upd_core::{Card, Library, Live, Name, Place, Serial};
use upd_text::CardRef;

/// A line that names cards: which, where its change begins and ends, and whether it deletes.
#[derive(Clone, Copy)]
pub(crate) struct Touched {
    pub first: CardRef,
    pub last: CardRef,
    pub from: usize,
    pub to: usize,
    pub deletes: bool,
}

impl Touched {
    /// A line that puts text beside a card, right before the index of another.
    fn between(card: &CardRef, index: usize) -> Touched
        ensures { result ≡ between card.now index }
    {
        Touched {
            first: *card,
            last: *card,
            from: index,
            to: index,
            deletes: false,
        }
    }
}

/// A library, and the serial of the youngest ident that the author of a run has seen.
#[derive(Drop)]
pub(crate) struct Seen<'a> {
    pub library: &'a Library,
    /// What is live now.
    pub live: &'a Live<'a>,
    /// What is live where all younger idents are yanked.
    pub earlier: &'a Live<'a>,
    pub since: Serial,
}

impl<'a> Model for Seen<'a> {
    ghost use Rattle.std.specs.Prelude.{◌≡◌};
    ghost use Rattle.upd_core.specs.Status.{live_of};
    ghost use Rattle.upd_edit.specs.Conflicts.{SeenView, live_since};

    ghost Value = { SeenView };

    ghost view = { λ s. record { library = s.library.now; since = s.since } };

    ghost invariant = { λ s. (s.live.now ≡ live_of s.library.now) × (s.earlier.now.targets ≡ live_since s.since s.library.now) };
}

/// The cards from an index on.
fn back_of(cards: &[Card], from: usize) -> &[Card]
    ensures { result.now ≡ drop from cards.now }
{
    if from < cards.len() {
        &cards[from..]
    } else {
        &[]
    }
}

/// The cards before an index.
fn front_of(cards: &[Card], from: usize) -> &[Card]
    ensures { result.now ≡ take from cards.now }
{
    if from < cards.len() {
        &cards[..from]
    } else {
        cards
    }
}

impl<'a> Seen<'a> {
    /// Whether a card is in the text of its deck now.
    fn is_now(&self, deck: Serial, card: &Card) -> bool
        ensures { result ≡ is_now self.now deck card.now }
    {
        self.live.is_active(deck, card)
    }

    /// Whether it was as of SINCE.
    fn was_then(&self, deck: Serial, card: &Card) -> bool
        ensures { result ≡ was_then self.now deck card.now }
    {
        self.earlier.is_active(deck, card)
    }

    /// Whether it is in one of these texts alone.
    fn is_changed(&self, deck: Serial, card: &Card) -> bool
        ensures { result ≡ is_changed self.now deck card.now }
    {
        if self.is_now(deck, card) {
            !self.was_then(deck, card)
        } else {
            self.was_then(deck, card)
        }
    }

    /// Whether it is in one of them.
    fn is_line(&self, deck: Serial, card: &Card) -> bool
        ensures { result ≡ is_line self.now deck card.now }
    {
        self.is_now(deck, card) || self.was_then(deck, card)
    }

    /// The name of the youngest ident that was seen.
    fn since_name(&self) -> Name
        ensures { result ≡ since_name self.now }
    {
        name_of(self.library, self.since)
    }

    /// The younger ident of the first entry of a card that counts.
    fn switched_by(&self, deck: Serial, card: &Card) -> Option<Serial>
        ensures { result ≡ switched_by self.now deck card.now }
    {
        let entry = card.history.iter().find(|entry| {
            self.since < entry.ident && !self.live.is_taken(deck, entry.ident)
        })?;
        Some(entry.ident)
    }

    /// The change of a card without such an entry.
    fn yanks_conflict(&self, deck: Serial, card: &Card) -> Conflict
        ensures { result ≡ yanks_conflict self.now deck card.now }
    {
        let (since, is_now) = (self.since_name(), self.is_now(deck, card));
        let card = ref_of(self.library, card);
        if is_now {
            Conflict::CameBack { card, since }
        } else {
            Conflict::TakenOut { card, since }
        }
    }

    /// The change of a card that was there before.
    fn older_conflict(&self, deck: Serial, card: &Card) -> Conflict
        ensures { result ≡ older_conflict self.now deck card.now }
    {
        match self.switched_by(deck, card) {
            Some(ident) => Conflict::Switched {
                card: ref_of(self.library, card),
                by: name_of(self.library, ident),
                since: self.since_name(),
            },
            None => self.yanks_conflict(deck, card),
        }
    }

    /// A card was put in where a line changes the deck.
    fn put_inside(&self, deletes: bool, card: &Card) -> Conflict
        ensures { result ≡ put_inside self.now deletes card.now }
    {
        let since = self.since_name();
        let card = ref_of(self.library, card);
        if deletes {
            Conflict::Deleted { card, since }
        } else {
            Conflict::CameLater { card, since }
        }
    }

    /// A card was put in beside the one that a line names, or is that one.
    fn put_beside(&self, named: &CardRef, card: CardRef) -> Conflict
        ensures { result ≡ put_beside self.now named.now card }
    {
        let since = self.since_name();
        if *named == card {
            Conflict::CameLater { card, since }
        } else {
            Conflict::Beside {
                card: *named,
                next: card,
                since,
            }
        }
    }

    /// The change of a card beside the one that a line names.
    fn beside_conflict(&self, deck: Serial, named: &CardRef, card: &Card) -> Conflict
        ensures { result ≡ beside_conflict self.now deck named.now card.now }
    {
        if self.since < card.ident {
            self.put_beside(named, ref_of(self.library, card))
        } else {
            self.older_conflict(deck, card)
        }
    }

    /// The first of some cards that has changed, and is of a younger ident.
    fn put_card<'b>(&self, deck: Serial, cards: &'b [Card]) -> Option<&'b Card>
        ensures { option_copied result ≡ find (is_put self.now deck) cards.now }
    {
        cards.iter().find(|card| self.since < card.ident && self.is_changed(deck, card))
    }

    /// The first of some cards that has changed.
    fn changed_card<'b>(&self, deck: Serial, cards: &'b [Card]) -> Option<&'b Card>
        ensures { option_copied result ≡ find (is_changed self.now deck) cards.now }
    {
        cards.iter().find(|card| self.is_changed(deck, card))
    }

    /// The conflict of a line in its range.
    fn met_inside(&self, deck: Serial, cards: &[Card], line: &Touched) -> Option<Conflict>
        ensures { result ≡ met_inside self.now deck cards.now line.now }
    {
        let range = back_of(front_of(cards, line.to), line.from);
        if let Some(card) = self.put_card(deck, range) {
            return Some(self.put_inside(line.deletes, card));
        }
        let card = self.changed_card(deck, range)?;
        Some(self.older_conflict(deck, card))
    }

    /// The conflict of a line that names a card with a card beside it.
    fn met_beside(&self, deck: Serial, named: &CardRef, beside: Option<&Card>) -> Option<Conflict>
        ensures { result ≡ met_beside self.now deck named.now (option_copied beside.entry) }
    {
        let card = beside?;
        if self.is_changed(deck, card) {
            Some(self.beside_conflict(deck, named, card))
        } else {
            None
        }
    }

    /// The last line before an index, of the one text or the other.
    fn line_before<'b>(&self, deck: Serial, cards: &'b [Card], from: usize) -> Option<&'b Card>
        ensures { option_copied result ≡ line_before self.now deck cards.now from }
    {
        front_of(cards, from)
            .iter()
            .rev()
            .find(|card| self.is_line(deck, card))
    }

    /// The first line from an index on.
    fn line_behind<'b>(&self, deck: Serial, cards: &'b [Card], to: usize) -> Option<&'b Card>
        ensures { option_copied result ≡ line_behind self.now deck cards.now to }
    {
        back_of(cards, to)
            .iter()
            .find(|card| self.is_line(deck, card))
    }

    /// The first conflict of a line at a deck: inside of its change, before it, and after it.
    fn met(&self, deck: Serial, line: &Touched) -> Option<Conflict>
        ensures { result ≡ met self.now deck line.now }
    {
        let cards = self.library.cards_of(deck);
        if let Some(conflict) = self.met_inside(deck, cards, line) {
            return Some(conflict);
        }
        let before = self.line_before(deck, cards, line.from);
        if let Some(conflict) = self.met_beside(deck, &line.first, before) {
            return Some(conflict);
        }
        self.met_beside(deck, &line.last, self.line_behind(deck, cards, line.to))
    }

    /// The conflict of a `*DELETE` or `*RESTORE` of a range.
    pub fn range_conflict(&self, first: &CardRef, last: &CardRef, deletes: bool) -> Option<Conflict>
        ensures { result ≡ range_conflict self.now first.now last.now deletes }
    {
        let from = self.library.card_at(*first)?;
        let to = self.library.card_at(*last)?;
        if from.deck != to.deck {
            return None;
        }
        let line = Touched {
            first: *first,
            last: *last,
            from: from.index,
            to: end_of(self.library, to),
            deletes,
        };
        self.met(from.deck, &line)
    }

    /// The conflict of an `*INSERT` after a card.
    pub fn insert_conflict(&self, card: &CardRef) -> Option<Conflict>
        ensures { result ≡ insert_conflict self.now card.now }
    {
        let place = self.library.card_at(*card)?;
        let index = end_of(self.library, place);
        self.met(place.deck, &Touched::between(card, index))
    }

    /// The conflict of a `*BEFORE` a card.
    pub fn before_conflict(&self, card: &CardRef) -> Option<Conflict>
        ensures { result ≡ before_conflict self.now card.now }
    {
        let place = self.library.card_at(*card)?;
        self.met(place.deck, &Touched::between(card, place.index))
    }
}

/// The index after a place, within its deck.
fn end_of(library: &Library, place: Place) -> usize
    ensures { result ≡ end_of library.now place }
{
    library
        .cards_of(place.deck)
        .len()
        .min(place.index.saturating_add(1))
}
