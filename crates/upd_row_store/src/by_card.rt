//! Rows in order of their cards, in which the rows of one card after the other are looked up.

ghost use Rattle.std.specs.Prelude.{◌≡◌, ◌-◌, ◌≤◌, ◌<◌, true, false, length};
ghost use Rattle.std.specs.List.{AllWithin, HoldsAt, filter};
ghost use Rattle.std.specs.List.Sorted.{IsPartitionPoint};
ghost use Rattle.std.specs.Ordering.{is_le, is_lt};
ghost use Rattle.upd_text.specs.Order.{card_order};
ghost use Rattle.upd_text.specs.declared.card_ref.CardRef.{CardRef};
ghost use Rattle.upd_records.specs.Rows.{same_ref};
ghost use Rattle.upd_row_store.specs.ByCard.{AreByCard};

use upd_core::CardRef;
use upd_records::{EntryRow, StateRow, TargetRow};

/// A row of a card.
pub(crate) trait OfCard {
    ghost of: { Self → CardRef };

    fn card(&self) -> &CardRef
        ensures { result.now ≡ of self.now };
}

impl OfCard for EntryRow {
    ghost of = { λ row. row.card };

    fn card(&self) -> &CardRef {
        &self.card
    }
}

impl OfCard for TargetRow {
    ghost of = { λ row. row.card };

    fn card(&self) -> &CardRef {
        &self.card
    }
}

impl OfCard for StateRow {
    ghost of = { λ row. row.card };

    fn card(&self) -> &CardRef {
        &self.card
    }
}

/// Whether a row is of a card before this one.
fn is_below<T: OfCard>(row: &T, card: &CardRef) -> bool
    ensures { result ≡ is_lt (card_order (T.of row.now) card.now) }
{
    row.card().cmp(card).is_lt()
}

/// Whether a row is of this card or one before it.
fn is_at_most<T: OfCard>(row: &T, card: &CardRef) -> bool
    ensures { result ≡ is_le (card_order (T.of row.now) card.now) }
{
    row.card().cmp(card).is_le()
}

/// Whether the row before a place, if there is one, is of a card before this one.
fn is_behind<T: OfCard>(rows: &[T], place: usize, card: &CardRef) -> bool
    requires { place ≤ length rows.now }
    ensures { result ≡ true → 0 < place → HoldsAt (λ r. is_lt (card_order (T.of r) card.now) ≡ true) rows.now (place - 1) }
{
    if place == 0 {
        return true;
    }
    is_below(&rows[place - 1], card)
}

/// Whether the row at a place, if there is one, is of no card before this one.
fn is_in_front<T: OfCard>(rows: &[T], place: usize, card: &CardRef) -> bool
    ensures { result ≡ true → place < length rows.now
        → HoldsAt (λ r. is_lt (card_order (T.of r) card.now) ≡ false) rows.now place }
{
    if place >= rows.len() {
        return true;
    }
    !is_below(&rows[place], card)
}

/// Whether the rows of a card begin at a place, or would begin there.
fn begins_at<T: OfCard>(rows: &[T], place: usize, card: &CardRef) -> bool
    ensures within { result ≡ true → place ≤ length rows.now }
    ensures behind { result ≡ true → 0 < place → HoldsAt (λ r. is_lt (card_order (T.of r) card.now) ≡ true) rows.now (place - 1) }
    ensures in_front { result ≡ true → place < length rows.now
        → HoldsAt (λ r. is_lt (card_order (T.of r) card.now) ≡ false) rows.now place }
{
    place <= rows.len() && is_behind(rows, place, card) && is_in_front(rows, place, card)
}

/// The place where the rows of a card begin, or would begin. Where the guess is wrong they are searched by halves.
fn start_of<T: OfCard>(rows: &[T], guess: usize, card: &CardRef) -> usize
    requires { AreByCard T.of rows.now }
    ensures bound { result ≤ length rows.now }
    ensures start { IsPartitionPoint (λ r. is_lt (card_order (T.of r) card.now) ≡ true)
        (λ r. is_lt (card_order (T.of r) card.now) ≡ false) rows.now result }
{
    if begins_at(rows, guess, card) {
        return guess;
    }
    rows.partition_point(|row| is_below(row, card))
}

/// The number of rows at the front that are of this card or one before it.
fn count_to<T: OfCard>(rows: &[T], card: &CardRef) -> usize
    ensures bound { result ≤ length rows.now }
    ensures front { AllWithin (λ r. is_le (card_order (T.of r) card.now) ≡ true) rows.now 0 result }
    ensures next { result < length rows.now → HoldsAt (λ r. is_le (card_order (T.of r) card.now) ≡ false) rows.now result }
{
    let mut count = 0;
    while count < rows.len() && is_at_most(&rows[count], card) {
        count += 1;
    }
    count
}

/// The rows of a card, which stand side by side, and `next` is where they end. What it was is where they are looked for
/// first: the rows of cards that come one behind the other mostly do so, too.
pub(crate) fn rows_of<'a, T: OfCard>(rows: &'a [T], next: &mut usize, card: &CardRef) -> &'a [T]
    requires { AreByCard T.of rows.now }
    ensures { result.now ≡ filter (λ r. same_ref card.now (T.of r)) rows.now }
{
    let start = start_of(rows, *next, card);
    let behind = &rows[start..];
    let count = count_to(behind, card);
    *next = start + count;
    &behind[..count]
}
