//! Cards that go: those of an ident with numbers in a row as one range, so that a store takes them away at once.

ghost use Rattle.std.specs.Prelude.{◌≡◌, ◌||◌, map, IfSome, OnSome};
ghost use Rattle.upd_text.specs.declared.card_ref.CardRef.{CardRef};
ghost use Rattle.upd_records.specs.Changes.{change_view, done, done_all};
ghost use Rattle.upd_records.specs.Rows.{Rows, same_ref};
ghost use Rattle.upd_row_store.specs.Ranges.{in_range, in_ranges, is_among, without, without_cards};

use std::alloc::Global;
use upd_core::{CardRef, Change, Name};

/// Which rows of a card go: of one table, or its own row and its status.
#[derive(Clone, Copy, Debug)]
pub enum CardRows {
    Entries,
    Targets,
    Card,
}

/// The cards of an ident with these numbers, from the first to the last.
#[derive(Clone, Copy, Debug)]
pub struct CardRange {
    pub name: Name,
    pub first: u32,
    pub last: u32,
}

/// A range has no more cards. The last range goes first, and the cards of one range from its first: a page of a tree moves
/// the rows after one that goes, so few are to be left there.
const MOST_CARDS: u32 = 16;

impl CardRange {
    /// One card.
    pub fn of(card: &CardRef) -> CardRange
        ensures { (c : CardRef) → in_range result c ≡ same_ref card.now c }
    {
        CardRange {
            name: card.name,
            first: card.number,
            last: card.number,
        }
    }

    fn is_full(&self) -> bool {
        MOST_CARDS <= self.last.saturating_sub(self.first).saturating_add(1)
    }

    /// These cards and another one, if that is the next and there is room.
    fn and(&self, card: &CardRef) -> Option<CardRange>
        ensures { IfSome result (λ more. (c : CardRef) → in_range more c ≡ (in_range self.now c || same_ref card.now c)) }
    {
        let before = card.number.saturating_sub(1);
        if self.name != card.name
            || card.number < self.first
            || self.last != before
            || self.is_full()
        {
            return None;
        }
        Some(CardRange {
            name: self.name,
            first: self.first,
            last: card.number,
        })
    }
}

/// These cards, of which one is first, as ranges.
fn joined(alloc: Global, first: &CardRef, cards: &[CardRef]) -> Option<Vec<CardRange>>
    ensures { IfSome result (λ ranges. (c : CardRef) → in_ranges ranges.items c
        ≡ (same_ref first.now c || is_among cards.now c)) }
{
    let mut ranges = Vec::new(alloc);
    let mut last = CardRange::of(first);
    for card in cards {
        match last.and(card) {
            Some(more) => last = more,
            None => {
                ranges.push(last).ok()?;
                last = CardRange::of(card);
            }
        }
    }
    ranges.push(last).ok()?;
    Some(ranges)
}

/// Ranges, the last one first.
fn from_last(ranges: Vec<CardRange>) -> Vec<CardRange>
    ensures { (c : CardRef) → in_ranges result.items c ≡ in_ranges ranges.items c }
{
    let mut ranges = ranges;
    ranges.reverse();
    ranges
}

/// These cards as ranges, from the last card to the first; none where memory runs out.
fn ranges_of(alloc: Global, cards: Vec<CardRef>) -> Option<Vec<CardRange>>
    ensures { IfSome result (λ ranges. (c : CardRef) → in_ranges ranges.items c ≡ is_among cards.items c) }
{
    let mut cards = cards;
    cards.sort().ok()?;
    match cards.split_first() {
        Some((first, rest)) => Some(from_last(joined(alloc, first, rest)?)),
        None => Some(Vec::new(alloc)),
    }
}

/// The cards of which rows go, by what goes of them.
#[derive(Debug, Drop)]
pub struct Gone {
    pub entries: Vec<CardRange>,
    pub targets: Vec<CardRange>,
    pub cards: Vec<CardRange>,
}

/// The cards of which rows go, one by one.
#[derive(Debug, Drop)]
pub struct GoneCards {
    pub entries: Vec<CardRef>,
    pub targets: Vec<CardRef>,
    pub cards: Vec<CardRef>,
}

impl GoneCards {
    /// Adds the card of a change, if rows go by it.
    fn add(&mut self, change: &Change) -> Option<()>
        ensures { OnSome result ((rows : Rows) → without_cards self.new rows ≡ done (change_view change.now) (without_cards self.old rows)) }
    {
        match change {
            Change::EntriesGone(card) => self.entries.push(*card).ok()?,
            Change::TargetsGone { card, .. } => self.targets.push(*card).ok()?,
            Change::CardGone(card) => self.cards.push(*card).ok()?,
            _ => return None,
        }
        Some(())
    }
}

/// The cards of which rows go by changes; none where a change is another one, or where memory runs out.
pub fn gone_cards(alloc: Global, changes: &[Change]) -> Option<GoneCards>
    ensures { IfSome result (λ gone. (rows : Rows) → without_cards gone rows ≡ done_all (map change_view changes.now) rows) }
{
    let mut gone = GoneCards {
        entries: Vec::new(alloc),
        targets: Vec::new(alloc),
        cards: Vec::new(alloc),
    };
    for change in changes {
        gone.add(change)?;
    }
    Some(gone)
}

/// The cards of which rows go by changes, as ranges; none where a change is another one, or where memory runs out.
pub fn gone_of(alloc: Global, changes: &[Change]) -> Option<Gone>
    ensures { IfSome result (λ gone. (rows : Rows) → without gone rows ≡ done_all (map change_view changes.now) rows) }
{
    let gone = gone_cards(alloc, changes)?;
    let GoneCards {
        entries,
        targets,
        cards,
    } = gone;
    Some(Gone {
        entries: ranges_of(alloc, entries)?,
        targets: ranges_of(alloc, targets)?,
        cards: ranges_of(alloc, cards)?,
    })
}
