//! The state of a run in progress, and the directives for idents, decks, corrections and text.
ghost use Rattle.std.specs.Prelude.{◌≡◌, ◌+◌, ◌^◌, ◌<◌, ◌≤◌, ◌==◌, ◌||◌, false, nat_lt, not, [], length, Some, Ok, Err, MatchResult};
ghost use Rattle.upd_core.specs.Edits.{new_card, next_age};
ghost use Rattle.upd_core.specs.Library.{place_of};
ghost use Rattle.upd_core.specs.Limits.{is_within_limits};
ghost use Rattle.upd_deck.specs.Items.{Before, Ident, Insert};
ghost use Rattle.upd_text.specs.Outcome.{Does, need, refuse_if};
ghost use Rattle.upd_text.specs.declared.fault.FaultKind.TheVariants as fault;
ghost use Rattle.upd_apply.specs.Applying.{started};
ghost use Rattle.upd_apply.specs.declared.state.InsertPoint.TheVariants.{End, Inside, Nowhere};
ghost use Rattle.upd_apply.specs.Numbers.{next_most};
ghost use Rattle.upd_apply.specs.LineEdits.{behind};
ghost use Rattle.upd_apply.specs.Step.{carried_out, deck_judged, is_deck_card, judged, switch_judged, text_judged};

use crate::names::new_name;
use upd_core::{Card, Deck, Entry, Kind, Library, Place, Serial};
use upd_text::limits::MAX_INTRODUCED;
use upd_text::{CardRef, FaultKind, Name};

/// The correction set that lines act for, and the number of its next card.
#[derive(Clone, Copy)]
pub struct CurrentSet {
    pub ident: Serial,
    pub next: u32,
}

/// The place where the next text goes. (A `Place` is the place of a card.)
#[derive(Clone, Copy)]
pub enum InsertPoint {
    Nowhere,
    /// The end of a deck that this run introduced, and the number of its next card.
    End { deck: Serial, next: u32 },
    /// Inside a deck, in front of its last `behind` cards. It stays valid when text is inserted there: the next text
    /// follows this one.
    Inside { deck: Serial, behind: usize },
}

/// The state of a run in progress: the library so far, the current set and the insertion point.
#[derive(Drop)]
pub struct State {
    pub(crate) library: Library,
    pub(crate) current_set: Option<CurrentSet>,
    pub(crate) insert_point: InsertPoint,
}

/// The effect of each directive. A refused line may leave the state half changed; the run then discards it.
impl State {
    /// The state before the first line: no current set and no insertion point.
    pub(crate) fn new(library: Library) -> State
        ensures { result ≡ started library }
    {
        State {
            library,
            current_set: None,
            insert_point: InsertPoint::Nowhere,
        }
    }

    /// `*IDENT`: introduces a set, which is the current one.
    pub(crate) fn begin_set(&mut self, name: &Name) -> Result<(), FaultKind>
        ensures { Does result self.new (carried_out (judged (Ident name.now) [] self.old) self.old) }
    {
        new_name(&self.library, name)?;
        let ident = next_age(&self.library)?;
        self.library.introduce(*name, Kind::Set, false)?;
        check_limits(&self.library)?;
        self.current_set = Some(CurrentSet { ident, next: 1 });
        self.insert_point = InsertPoint::Nowhere;
        Ok(())
    }

    /// `*DECK` and `*COMDECK`: introduces a deck, whose first card is the line. The current set stays.
    pub(crate) fn begin_deck(
        &mut self,
        name: &Name,
        kind: Kind,
        noprop: bool,
        text: &[u8],
    ) -> Result<(), FaultKind>
        ensures { Does result self.new (carried_out (deck_judged name.now kind noprop text.now self.old) self.old) }
    {
        new_name(&self.library, name)?;
        let age = next_age(&self.library)?;
        let deck = Deck::new(self.library.allocator(), age, text)?;
        self.library.introduce(*name, kind, noprop)?;
        self.library.push_deck(deck)?;
        check_limits(&self.library)?;
        self.insert_point = InsertPoint::End { deck: age, next: 2 };
        Ok(())
    }

    /// `*INSERT`: the next text follows a card.
    pub(crate) fn place_after(&mut self, card: &CardRef) -> Result<(), FaultKind>
        ensures { MatchResult result
            (λ _. carried_out (judged (Insert card.now) [] self.old) self.old ≡ Ok self.new)
            (λ e. carried_out (judged (Insert card.now) [] self.old) self.old ≡ Err e) }
    {
        self.known_set()?;
        let place = known_card(&self.library, card)?;
        refuse_yanks(place.deck)?;
        self.insert_point = InsertPoint::Inside {
            deck: place.deck,
            behind: behind(&self.library, place),
        };
        Ok(())
    }

    /// `*BEFORE`: the next text precedes a card.
    pub(crate) fn place_before(&mut self, card: &CardRef) -> Result<(), FaultKind>
        ensures { MatchResult result
            (λ _. carried_out (judged (Before card.now) [] self.old) self.old ≡ Ok self.new)
            (λ e. carried_out (judged (Before card.now) [] self.old) self.old ≡ Err e) }
    {
        self.known_set()?;
        let place = known_card(&self.library, card)?;
        refuse_yanks(place.deck)?;
        refuse_deck_card(place)?;
        self.insert_point = InsertPoint::Inside {
            deck: place.deck,
            behind: behind(&self.library, place) + 1,
        };
        Ok(())
    }

    /// `*DELETE` and `*RESTORE`: appends an entry to each card of a range; the next text follows the last card.
    pub(crate) fn switch(
        &mut self,
        active: bool,
        first: &CardRef,
        last: &CardRef,
    ) -> Result<(), FaultKind>
        ensures { Does result self.new (carried_out (switch_judged active first.now last.now self.old) self.old) }
    {
        let current_set = self.known_set()?;
        let from = known_card(&self.library, first)?;
        let to = known_last(&self.library, first, from, last)?;
        refuse_disorder(from, to)?;
        refuse_deck_card(from)?;
        let behind = behind(&self.library, to);
        let entry = Entry {
            ident: current_set.ident,
            active,
        };
        self.library.enter(from.deck, from.index, to.index, entry)?;
        check_limits(&self.library)?;
        self.insert_point = InsertPoint::Inside {
            deck: to.deck,
            behind,
        };
        Ok(())
    }

    /// Text and calls: inserts a card at the insertion point.
    pub(crate) fn put_text(&mut self, text: &[u8]) -> Result<(), FaultKind>
        requires { next_most self.old + 1 < 2 ^ 32 }
        ensures done { Does result self.new
            (carried_out (text_judged text.now self.old.insert_point self.old.current_set) self.old) }
        ensures nowhere { self.old.insert_point ≡ Nowhere → result ≡ Err fault.TextNowhere }
    {
        match self.insert_point {
            InsertPoint::Nowhere => Err(FaultKind::TextNowhere),
            InsertPoint::End { deck, next } => self.put_at_end(deck, next, text),
            InsertPoint::Inside { deck, behind } => self.put_inside(deck, behind, text),
        }
    }

    /// Text at the end of a deck that this run introduced: it gets the deck's next number.
    fn put_at_end(&mut self, deck: Serial, next: u32, text: &[u8]) -> Result<(), FaultKind>
        requires insert_point { self.old.insert_point ≡ End deck next }
        requires number { next_most self.old + 1 < 2 ^ 32 }
        ensures { Does result self.new
            (carried_out (text_judged text.now self.old.insert_point self.old.current_set) self.old) }
    {
        let card = new_card(&self.library, deck, next, text)?;
        self.library.insert_card(deck, 0, card)?;
        check_limits(&self.library)?;
        self.insert_point = InsertPoint::End {
            deck,
            next: next + 1,
        };
        Ok(())
    }

    /// Text inside a deck: it gets the next number of the current set.
    fn put_inside(&mut self, deck: Serial, behind: usize, text: &[u8]) -> Result<(), FaultKind>
        requires insert_point { self.old.insert_point ≡ Inside deck behind }
        requires number { next_most self.old + 1 < 2 ^ 32 }
        ensures { Does result self.new
            (carried_out (text_judged text.now self.old.insert_point self.old.current_set) self.old) }
    {
        let CurrentSet { ident, next } = self.set_for_text()?;
        refuse_yanks(deck)?;
        let card = new_card(&self.library, ident, next, text)?;
        self.library.insert_card(deck, behind, card)?;
        check_limits(&self.library)?;
        self.current_set = Some(CurrentSet {
            ident,
            next: next + 1,
        });
        Ok(())
    }

    /// The current set; else NoIdent.
    pub(crate) fn known_set(&self) -> Result<CurrentSet, FaultKind>
        ensures { result ≡ need fault.NoIdent self.now.current_set }
    {
        self.current_set.ok_or(FaultKind::NoIdent)
    }

    /// The current set, for text inside a deck; else TextNowhere.
    fn set_for_text(&self) -> Result<CurrentSet, FaultKind>
        ensures { result ≡ need fault.TextNowhere self.now.current_set }
    {
        self.current_set.ok_or(FaultKind::TextNowhere)
    }
}

/// Refuses text in `YANK$$$`: YankText.
fn refuse_yanks(deck: Serial) -> Result<(), FaultKind>
    ensures { MatchResult result
        (λ _. refuse_if (deck == 0) fault.YankText ≡ Ok false)
        (λ e. refuse_if (deck == 0) fault.YankText ≡ Err e) }
{
    if deck == 0 {
        return Err(FaultKind::YankText);
    }
    Ok(())
}

/// Refuses the place of a deck's first card: DeckCard.
fn refuse_deck_card(place: Place) -> Result<(), FaultKind>
    ensures { MatchResult result
        (λ _. refuse_if (is_deck_card place) fault.DeckCard ≡ Ok false)
        (λ e. refuse_if (is_deck_card place) fault.DeckCard ≡ Err e) }
{
    if is_deck_card(place) {
        return Err(FaultKind::DeckCard);
    }
    Ok(())
}

/// Refuses a range over two decks, or one that ends before it begins: RangeOrder.
fn refuse_disorder(from: Place, to: Place) -> Result<(), FaultKind>
    ensures { MatchResult result
        (λ _. refuse_if (not (from.deck == to.deck) || nat_lt to.index from.index) fault.RangeOrder ≡ Ok false)
        (λ e. refuse_if (not (from.deck == to.deck) || nat_lt to.index from.index) fault.RangeOrder ≡ Err e) }
{
    if from.deck != to.deck || to.index < from.index {
        return Err(FaultKind::RangeOrder);
    }
    Ok(())
}

/// Full where a library exceeds a limit.
pub(crate) fn check_limits(library: &Library) -> Result<(), FaultKind>
    ensures { MatchResult result
        (λ _. refuse_if (not (is_within_limits library.now)) fault.Full ≡ Ok false)
        (λ e. refuse_if (not (is_within_limits library.now)) fault.Full ≡ Err e) }
{
    if library.is_within_limits() {
        Ok(())
    } else {
        Err(FaultKind::Full)
    }
}

/// The serial of the next ident; Full where no more may be introduced.
fn next_age(library: &Library) -> Result<Serial, FaultKind>
    ensures { MatchResult result
        (λ age. (age ≡ next_age library.now) × (length library.now.idents < MAX_INTRODUCED))
        (λ e. (e ≡ fault.Full) × (MAX_INTRODUCED ≤ length library.now.idents)) }
{
    if library.idents().len() < MAX_INTRODUCED {
        Ok(library.idents().len() as Serial + 1)
    } else {
        Err(FaultKind::Full)
    }
}

/// The place of the card that a reference names; else CardUnknown.
fn known_card(library: &Library, card: &CardRef) -> Result<Place, FaultKind>
    ensures { result ≡ need fault.CardUnknown (place_of card.now library.now) }
{
    library.card_at(*card).ok_or(FaultKind::CardUnknown)
}

/// The place of the last card of a range, whose first card is at `from`. A range of one card needs no second look-up.
fn known_last(
    library: &Library,
    first: &CardRef,
    from: Place,
    last: &CardRef,
) -> Result<Place, FaultKind>
    requires { place_of first.now library.now ≡ Some from }
    ensures { result ≡ need fault.CardUnknown (place_of last.now library.now) }
{
    if last == first {
        return Ok(from);
    }
    known_card(library, last)
}

/// The number of cards after a place in its deck.
fn behind(library: &Library, place: Place) -> usize
    ensures count { result ≡ behind place library.now }
    ensures room { result + 1 < 2 ^ 64 }
{
    library
        .cards_of(place.deck)
        .len()
        .saturating_sub(place.index)
        .saturating_sub(1)
}

/// Whether a place is that of a deck's first card; `YANK$$$` doesn't count.
fn is_deck_card(place: Place) -> bool
    ensures { result ≡ is_deck_card place }
{
    place.deck != 0 && place.index == 0
}

/// A new card without targets.
fn new_card(library: &Library, ident: Serial, number: u32, text: &[u8]) -> Result<Card, FaultKind>
    ensures { MatchResult result (λ card. card ≡ new_card ident number text.now []) (λ e. e ≡ fault.NoMemory) }
{
    let alloc = library.allocator();
    let card = Card::new(alloc, ident, number, text, Vec::new(alloc))?;
    Ok(card)
}
