//! How far some cards move.

ghost use Rattle.std.specs.Prelude.{◌≡◌, ◌≤◌, true, IsTrue};
ghost use Rattle.std.specs.declared.cmp.Ordering.TheVariants.{Less};
ghost use Rattle.upd_text.specs.Order.{by_name};
ghost use Rattle.upd_row_store.specs.Shifts.{AreApart, IsAfter, covers_by, first_of, last_of};

use upd_core::{CardRef, Name};

/// The cards of an ident with these numbers, from the first to the last, move this far.
#[derive(Clone, Copy, Debug)]
pub struct Shift {
    pub name: Name,
    pub first: u32,
    pub last: u32,
    pub by: i64,
}

impl Shift {
    pub(crate) fn covers(&self, card: &CardRef) -> bool
        ensures { result ≡ covers_by self.now card.now }
    {
        self.name == card.name && self.first <= card.number && card.number <= self.last
    }

    pub(crate) fn first_card(&self) -> CardRef
        ensures { result ≡ first_of self.now }
    {
        CardRef {
            name: self.name,
            number: self.first,
        }
    }

    fn last_card(&self) -> CardRef
        ensures { result ≡ last_of self.now }
    {
        CardRef {
            name: self.name,
            number: self.last,
        }
    }

    /// Whether all its cards are after another card.
    fn is_after(&self, last: &Option<CardRef>) -> bool
        ensures { IsTrue result → IsAfter last.now self.now }
    {
        match last {
            Some(last) => *last < self.first_card() && self.first <= self.last,
            None => self.first <= self.last,
        }
    }
}

/// Whether no card is of two of these, since they are in order.
pub(crate) fn are_apart(shifts: &[Shift]) -> bool
    ensures { IsTrue result → AreApart shifts.now }
{
    let mut last = None;
    for shift in shifts {
        if !shift.is_after(&last) {
            return false;
        }
        last = Some(shift.last_card());
    }
    true
}
