//! The edits of a library. Its look-ups are in `library`.

ghost use Rattle.std.specs.Prelude.{◌≡◌, ◌-◌, ◌+◌, ◌<◌, ◌≤◌, length, map, take, insert};
ghost use Rattle.std.specs.Prelude.{find, is_some, IfOk, IfSome, OnOk, OnErr};
ghost use Rattle.std.specs.Option.{option_map_or};
ghost use Rattle.upd_core.specs.EditParts.{entered_count, entered_in, inserted_in, without_last};
ghost use Rattle.upd_core.specs.Edits.{introduced, with_deck, with_card, with_yank, entered, entered_range};
ghost use Rattle.upd_core.specs.Edits.{with_entries, deck_without, without_idents, purged, purged_among, purged_back, is_among};
ghost use Rattle.upd_core.specs.First.{index_from, at_first};
ghost use Rattle.upd_core.specs.Gone.{is_gone};
ghost use Rattle.upd_core.specs.Library.{is_deck, with_cards};

use crate::card::{Card, Entry};
use crate::counts::Counts;
use crate::deck::Deck;
use crate::gone::{Gone, purge_cards, unhold};
use crate::ident::{Ident, Kind, Serial};
use crate::library::Library;
use std::alloc::{AllocError, Global};
use upd_text::Name;
use upd_text::limits::MAX_INTRODUCED;

/// After an error the library is unchanged.
impl Library {
    /// The allocator of its vectors.
    pub fn allocator(&self) -> Global {
        *self.idents.allocator()
    }

    /// Appends an ident with the next serial to the directory.
    pub fn introduce(&mut self, name: Name, kind: Kind, noprop: bool) -> Result<(), AllocError>
        requires { length self.old.idents < MAX_INTRODUCED }
        ensures ok { OnOk result (self.new ≡ introduced name kind noprop self.old) }
        ensures err { OnErr result (self.new ≡ self.old) }
    {
        let age = self.idents.len() as Serial + 1;
        self.idents.push(Ident {
            name,
            age,
            kind,
            noprop,
            held: true,
        })?;
        self.counts.held = self.counts.held.saturating_add(1);
        Ok(())
    }

    /// Appends a deck.
    pub fn push_deck(&mut self, deck: Deck) -> Result<(), AllocError>
        ensures ok { OnOk result (self.new ≡ with_deck deck self.old) }
        ensures err { OnErr result (self.new ≡ self.old) }
    {
        let counts = self.counts.with_deck(&deck);
        self.decks.push(deck)?;
        self.counts = counts;
        Ok(())
    }

    /// Inserts a card into the deck with a serial, 0 for `YANK$$$`, in front of its last `behind` cards. Where the deck
    /// doesn't exist the card is dropped.
    pub fn insert_card(&mut self, deck: Serial, behind: usize, card: Card) -> Result<(), AllocError>
        ensures ok { OnOk result (self.new ≡ with_card deck behind card self.old) }
        ensures err { OnErr result (self.new ≡ self.old) }
    {
        let entries = card.history.len();
        let targets = card.targets.len();
        if deck == 0 {
            insert_behind(&mut self.yanks, behind, card)?;
            self.counts = self.counts.with_card(entries, targets);
        } else if self.decks.insert(deck, behind, card)? {
            self.counts = self.counts.with_card(entries, 0);
        }
        Ok(())
    }

    /// Appends a yank card to `YANK$$$`.
    pub fn push_yank(&mut self, card: Card) -> Result<(), AllocError>
        ensures ok { OnOk result (self.new ≡ with_yank card self.old) }
        ensures err { OnErr result (self.new ≡ self.old) }
    {
        let counts = self
            .counts
            .with_card(card.history.len(), card.targets.len());
        self.yanks.push(card)?;
        self.counts = counts;
        Ok(())
    }

    /// Appends an entry to each card of the deck with a serial, 0 for `YANK$$$`, from one index to another, both
    /// included. Indices past the last card are ignored.
    pub fn enter(
        &mut self,
        deck: Serial,
        from: usize,
        to: usize,
        entry: Entry,
    ) -> Result<(), AllocError>
        requires { from ≤ to }
        ensures ok { OnOk result (self.new ≡ with_entries deck from to entry self.old) }
        ensures err { OnErr result (self.new ≡ self.old) }
    {
        if deck == 0 {
            self.enter_yanks(from, to, entry)?;
        } else {
            self.enter_deck(deck, from, to, entry)?;
        }
        Ok(())
    }

    fn enter_yanks(&mut self, from: usize, to: usize, entry: Entry) -> Result<(), AllocError>
        requires { from ≤ to }
        ensures ok { OnOk result (self.new ≡ record self.old { yanks = entered_range from to entry self.old.yanks }) }
        ensures err { OnErr result (self.new ≡ self.old) }
    {
        let count = enter_range(&mut self.yanks, from, to, entry)?;
        self.counts.entries = self.counts.entries.saturating_add(count);
        Ok(())
    }

    fn enter_deck(
        &mut self,
        deck: Serial,
        from: usize,
        to: usize,
        entry: Entry,
    ) -> Result<(), AllocError>
        requires { from ≤ to }
        ensures ok { OnOk result (self.new ≡ record self.old { decks = entered_in deck from to entry self.old.decks }) }
        ensures err { OnErr result (self.new ≡ self.old) }
    {
        let count = self.decks.enter(deck, from, to, entry)?;
        self.counts.entries = self.counts.entries.saturating_add(count);
        Ok(())
    }

    /// Purges the idents with these serials. It allocates one flag for each serial up to the greatest.
    pub fn purge(&mut self, ages: &[Serial]) -> Result<(), AllocError>
        ensures ok { OnOk result (self.new ≡ purged (is_among ages.now) self.old) }
        ensures err { OnErr result (self.new ≡ self.old) }
    {
        let gone = Gone::among(*self.idents.allocator(), ages)?;
        self.purge_gone(&gone);
        Ok(())
    }

    /// Purges the ident with a serial and all younger ones. It does not allocate.
    pub fn purge_from(&mut self, age: Serial)
        ensures { self.new ≡ purged_back age self.old }
    {
        self.purge_gone(&Gone::From(age));
    }

    fn purge_gone(&mut self, gone: &Gone)
        ensures { self.new ≡ purged (is_gone gone.now) self.old }
    {
        unhold(&mut self.idents, gone);
        self.decks.purge(gone);
        purge_cards(&mut self.yanks, gone);
        self.counts = Counts::of(&self.idents, self.decks.as_slice(), &self.yanks, self.rest);
    }

    /// Purges idents in one deck, 0 for `YANK$$$`; they stay held. It allocates one flag for each serial up to the
    /// greatest.
    pub fn purge_in(&mut self, deck: Serial, idents: &[Serial]) -> Result<(), AllocError>
        ensures ok { OnOk result (self.new ≡ purged_among deck idents.now self.old) }
        ensures err { OnErr result (self.new ≡ self.old) }
    {
        let gone = Gone::among(*self.idents.allocator(), idents)?;
        self.purge_gone_in(deck, &gone);
        Ok(())
    }

    fn purge_gone_in(&mut self, deck: Serial, gone: &Gone)
        ensures { self.new ≡ with_cards deck (without_idents (is_gone gone.now)) self.old }
    {
        if deck == 0 {
            purge_cards(&mut self.yanks, gone);
        } else {
            self.decks.purge_in(deck, gone);
        }
        self.counts = Counts::of(&self.idents, self.decks.as_slice(), &self.yanks, self.rest);
    }
}

/// The index of the deck with a serial.
fn deck_index(decks: &[Deck], age: Serial) -> Option<usize>
    ensures first { result ≡ index_from (is_deck age) 0 decks.now }
    ensures within { IfSome result (λ i. i < length decks.now) }
{
    for (i, deck) in decks.iter().enumerate() {
        if deck.ident == age {
            return Some(i);
        }
    }
    None
}

/// Inserts a card in front of the last `behind` cards, or of all where there are fewer.
fn insert_behind(cards: &mut Vec<Card>, behind: usize, card: Card) -> Result<(), AllocError>
    ensures ok { OnOk result (cards.new.items ≡ insert cards.old.items (length cards.old.items - behind) card) }
    ensures err { OnErr result (cards.new.items ≡ cards.old.items) }
{
    let index = cards.len().saturating_sub(behind);
    cards.insert(index, card)?;
    Ok(())
}

/// [`insert_behind`] in the deck with a serial. Returns whether the deck exists.
pub(crate) fn insert_in(
    decks: &mut Vec<Deck>,
    age: Serial,
    behind: usize,
    card: Card,
) -> Result<bool, AllocError>
    ensures found { IfOk result (λ found. found ≡ is_some (find (is_deck age) decks.old.items)) }
    ensures ok { OnOk result (decks.new.items ≡ inserted_in age behind card decks.old.items) }
    ensures err { OnErr result (decks.new.items ≡ decks.old.items) }
{
    if let Some(i) = deck_index(decks, age) {
        let deck = &mut decks[i];
        insert_behind(&mut deck.cards, behind, card)?;
        Ok(true)
    } else {
        Ok(false)
    }
}

/// Appends an entry to a card's history.
fn enter_one(card: &mut Card, entry: Entry) -> Result<(), AllocError>
    ensures ok { OnOk result (card.new ≡ entered entry card.old) }
    ensures err { OnErr result (card.new ≡ card.old) }
{
    card.history.push(entry)?;
    Ok(())
}

/// Removes the last entry of a history.
fn drop_last(history: &mut Vec<Entry>)
    ensures { history.new.items ≡ take (length history.old.items - 1) history.old.items }
{
    let kept = history.len().saturating_sub(1);
    history.truncate(kept);
}

/// Removes the last entry of each card.
fn leave_each(cards: &mut [Card])
    ensures { cards.new ≡ map without_last cards.old }
{
    for card in cards.iter_mut() {
        drop_last(&mut card.history);
    }
}

/// Appends an entry to each card. Where memory runs out, the entries already added are removed.
fn enter_each(cards: &mut [Card], entry: Entry) -> Result<(), AllocError>
    ensures ok { OnOk result (cards.new ≡ map (entered entry) cards.old) }
    ensures err { OnErr result (cards.new ≡ cards.old) }
{
    for i in 0..cards.len() {
        if let Err(error) = enter_one(&mut cards[i], entry) {
            leave_each(&mut cards[..i]);
            return Err(error);
        }
    }
    Ok(())
}

/// Appends an entry to the cards from one index to another. Indices past the last card are ignored. Returns the number
/// of cards changed.
fn enter_some(cards: &mut [Card], from: usize, to: usize, entry: Entry) -> Result<usize, AllocError>
    requires { from ≤ to }
    ensures count { IfOk result (λ count. count ≡ entered_count from to cards.old) }
    ensures ok { OnOk result (cards.new ≡ entered_range from to entry cards.old) }
    ensures err { OnErr result (cards.new ≡ cards.old) }
{
    if to < cards.len() {
        enter_each(&mut cards[from..to + 1], entry)?;
        Ok(to + 1 - from)
    } else if from < cards.len() {
        enter_each(&mut cards[from..], entry)?;
        Ok(cards.len() - from)
    } else {
        Ok(0)
    }
}

/// [`enter_some`] on a deck's vector: its length is unchanged.
fn enter_range(
    cards: &mut Vec<Card>,
    from: usize,
    to: usize,
    entry: Entry,
) -> Result<usize, AllocError>
    requires { from ≤ to }
    ensures count { IfOk result (λ count. count ≡ entered_count from to cards.old.items) }
    ensures ok { OnOk result (cards.new.items ≡ entered_range from to entry cards.old.items) }
    ensures err { OnErr result (cards.new.items ≡ cards.old.items) }
{
    enter_some(cards, from, to, entry)
}

/// [`enter_range`] in the deck with a serial; it changes no card where there is no such deck.
pub(crate) fn enter_in(
    decks: &mut Vec<Deck>,
    age: Serial,
    from: usize,
    to: usize,
    entry: Entry,
) -> Result<usize, AllocError>
    requires { from ≤ to }
    ensures count { IfOk result
        (λ count. count ≡ option_map_or (λ d. entered_count from to d.cards) (find (is_deck age) decks.old.items) 0) }
    ensures ok { OnOk result (decks.new.items ≡ entered_in age from to entry decks.old.items) }
    ensures err { OnErr result (decks.new.items ≡ decks.old.items) }
{
    if let Some(i) = deck_index(decks, age) {
        let deck = &mut decks[i];
        let count = enter_range(&mut deck.cards, from, to, entry)?;
        Ok(count)
    } else {
        Ok(0)
    }
}

/// [`purge_cards`] for the deck with a serial.
pub(crate) fn purge_deck(decks: &mut Vec<Deck>, age: Serial, gone: &Gone)
    ensures { decks.new.items ≡ at_first (is_deck age) (deck_without (is_gone gone.now)) decks.old.items }
{
    if let Some(i) = deck_index(decks, age) {
        let deck = &mut decks[i];
        purge_cards(&mut deck.cards, gone);
    }
}
