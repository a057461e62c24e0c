//! Values that are looked up by card, one after the other.

ghost use Rattle.std.specs.Prelude.{◌≡◌, drop};
ghost use Rattle.std.specs.BTreeMap.{get};
ghost use Rattle.std.specs.Option.{option_copied};
ghost use Rattle.upd_text.specs.Order.{by_name};
ghost use Rattle.upd_memory.specs.Walk.{AreFound, first_at};

use std::collections::BTreeMap;
use std::collections::btree_map::Range;
use upd_core::CardRef;
use upd_records::same_ref;

/// The next of these values, if it is of this card.
fn taken<'a, V>(rest: &mut Range<'a, CardRef, V>, card: &CardRef) -> Option<&'a V>
    ensures first { option_copied result ≡ first_at card.now rest.old }
    ensures rest { rest.new ≡ drop 1 rest.old }
{
    match rest.next() {
        Some((next, value)) if same_ref(card, next) => Some(value),
        _ => None,
    }
}

/// The value of a card. It is looked for behind what was found last first: cards that come by name mostly have their
/// values side by side.
pub(crate) fn next_value<'a, V>(
    values: &'a BTreeMap<CardRef, V>,
    rest: &mut Range<'a, CardRef, V>,
    card: &CardRef,
) -> Option<&'a V>
    requires { AreFound values.now rest.old }
    ensures value { option_copied result ≡ get by_name values.now card.now }
    ensures rest { AreFound values.now rest.new }
{
    if let Some(value) = taken(rest, card) {
        return Some(value);
    }
    *rest = values.range(card..);
    taken(rest, card)
}
