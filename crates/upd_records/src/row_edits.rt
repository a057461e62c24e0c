//! Edits of one table in memory, which every store with rows in memory makes.

ghost use Rattle.std.specs.Prelude.{◌≡◌, not, map, IfOk};
ghost use Rattle.std.specs.List.{filter};
ghost use Rattle.upd_records.specs.Changes.{purged_row};
ghost use Rattle.upd_records.specs.Rows.{same_ref};

use crate::rows::{CardRow, TargetRow, same_ref};
use std::alloc::{AllocError, Global};
use upd_core::{CardRef, Ident, Serial};

/// A copy of rows of cards; memory alone can fail.
pub fn copy_cards(alloc: Global, cards: &[CardRow]) -> Result<Vec<CardRow>, AllocError>
    ensures { IfOk result (λ copies. copies.items ≡ cards.now) }
{
    let mut copies = Vec::with_capacity(alloc, cards.len())?;
    for card in cards {
        copies.push(card.copy()?)?;
    }
    Ok(copies)
}

/// Takes a card's row away.
pub fn drop_card(cards: &mut Vec<CardRow>, card: &CardRef)
    ensures { cards.new.items ≡ filter (λ r. not (same_ref card.now r.card)) cards.old.items }
{
    cards.retain(|row| !same_ref(card, &row.card));
}

/// Takes a card's targets away.
pub fn drop_targets(targets: &mut Vec<TargetRow>, card: &CardRef)
    ensures { targets.new.items ≡ filter (λ r. not (same_ref card.now r.card)) targets.old.items }
{
    targets.retain(|row| !same_ref(card, &row.card));
}

/// An ident, no longer held where it is of an age.
fn purged(ident: Ident, age: Serial) -> Ident
    ensures { result ≡ purged_row age ident }
{
    if ident.age == age {
        Ident {
            held: false,
            ..ident
        }
    } else {
        ident
    }
}

/// The ident of an age, of these, is no longer held.
fn purge_in(idents: &mut [Ident], age: Serial)
    ensures { idents.new ≡ map (purged_row age) idents.old }
{
    for ident in idents.iter_mut() {
        *ident = purged(*ident, age);
    }
}

/// The ident of an age is no longer held.
pub fn purge_ident(idents: &mut Vec<Ident>, age: Serial)
    ensures { idents.new.items ≡ map (purged_row age) idents.old.items }
{
    purge_in(idents, age);
}
