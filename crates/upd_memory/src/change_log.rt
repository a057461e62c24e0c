//! Copies of row changes.

ghost use Rattle.std.specs.Prelude.{◌≡◌, map, IfOk};
ghost use Rattle.upd_records.specs.Changes.{change_view};

use std::alloc::{AllocError, Global};
use upd_core::Change;

/// A copy of a change; memory alone can fail.
fn copy_change(alloc: Global, change: &Change) -> Result<Change, AllocError>
    ensures { IfOk result (λ copy. change_view copy ≡ change_view change.now) }
{
    Ok(match *change {
        Change::IdentNew(ident) => Change::IdentNew(ident),
        Change::IdentPurged(age) => Change::IdentPurged(age),
        Change::CardNew {
            card,
            deck,
            pos,
            ref text,
        } => Change::CardNew {
            card,
            deck,
            pos,
            text: Vec::from_slice(alloc, text)?,
        },
        Change::CardGone(card) => Change::CardGone(card),
        Change::CardsMoved { deck, from, by } => Change::CardsMoved { deck, from, by },
        Change::EntryNew { card, ord, entry } => Change::EntryNew { card, ord, entry },
        Change::EntriesGone(card) => Change::EntriesGone(card),
        Change::TargetNew { card, ord, target } => Change::TargetNew { card, ord, target },
        Change::TargetsGone { card, ref targets } => Change::TargetsGone {
            card,
            targets: Vec::from_slice(alloc, targets)?,
        },
        Change::StatusNow { card, active } => Change::StatusNow { card, active },
        Change::CountNow { target, n } => Change::CountNow { target, n },
    })
}

/// A copy of changes; memory alone can fail.
pub(crate) fn copy_changes(alloc: Global, changes: &[Change]) -> Result<Vec<Change>, AllocError>
    ensures { IfOk result (λ copies. map change_view copies.items ≡ map change_view changes.now) }
{
    let mut copies = Vec::with_capacity(alloc, changes.len())?;
    for change in changes {
        copies.push(copy_change(alloc, change)?)?;
    }
    Ok(copies)
}
