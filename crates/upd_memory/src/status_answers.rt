//! The statuses of cards that are asked for.

ghost use Rattle.std.specs.Prelude.{◌≡◌, ◌++◌, List, map, IfOk, OnOk};
ghost use Rattle.std.specs.List.{filter, flat_map};
ghost use Rattle.upd_text.specs.declared.card_ref.CardRef.{CardRef};
ghost use Rattle.upd_records.specs.Rows.{IsSame, StateRow};
ghost use Rattle.upd_row_store.specs.Asked.{is_asked};
ghost use Rattle.upd_row_store.specs.Tables.{state_pair};
ghost use Rattle.upd_memory.specs.ActiveRows.{AreInOrder};
ghost use Rattle.upd_memory.specs.RowsByKey.{AreStatuses, pairs_at};
ghost use Rattle.upd_memory.specs.Walk.{AreFound};

use crate::card_walk::next_value;
use std::alloc::{AllocError, Global};
use std::collections::BTreeMap;
use std::collections::btree_map::Range;
use upd_core::CardRef;
use upd_row_store::cards_once;

/// Adds a card with its status, if it has one.
fn add_pair<'a>(
    pairs: &mut Vec<(CardRef, bool)>,
    statuses: &'a BTreeMap<CardRef, bool>,
    rest: &mut Range<'a, CardRef, bool>,
    card: &CardRef,
) -> Result<(), AllocError>
    requires { AreFound statuses.now rest.old }
    ensures pairs { OnOk result (pairs.new.items ≡ pairs.old.items ++ pairs_at statuses.now card.now) }
    ensures rest { AreFound statuses.now rest.new }
{
    if let Some(active) = next_value(statuses, rest, card) {
        pairs.push((*card, *active))?;
    }
    Ok(())
}

/// These cards with their statuses.
fn pairs_of(
    alloc: Global,
    statuses: &BTreeMap<CardRef, bool>,
    cards: &[CardRef],
) -> Result<Vec<(CardRef, bool)>, AllocError>
    ensures { IfOk result (λ pairs. pairs.items ≡ flat_map (pairs_at statuses.now) cards.now) }
{
    let mut pairs = Vec::with_capacity(alloc, cards.len())?;
    let mut rest = statuses.range(..);
    for card in cards {
        add_pair(&mut pairs, statuses, &mut rest, card)?;
    }
    Ok(pairs)
}

/// The statuses of those of these cards that have one, by name.
pub(crate) fn statuses_of(
    alloc: Global,
    statuses: &BTreeMap<CardRef, bool>,
    cards: &[CardRef],
) -> Result<Vec<(CardRef, bool)>, AllocError>
    ensures order { IfOk result (λ kept. AreInOrder kept.items) }
    ensures same { IfOk result (λ kept. (rows : List StateRow) → AreStatuses statuses.now rows
        → IsSame kept.items (map state_pair (filter (λ r. is_asked cards.now r.card) rows))) }
{
    let once = cards_once(alloc, cards)?;
    let pairs = pairs_of(alloc, statuses, &once)?;
    Ok(pairs)
}
