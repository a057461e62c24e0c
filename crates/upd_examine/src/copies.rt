//! Copies of rows.
ghost use Rattle.std.specs.Prelude.{◌≡◌, IfOk};

use std::alloc::{AllocError, Global};
use upd_records::{LibraryRows, copy_cards};

/// A deep copy of the rows of a library.
pub fn copy_rows(alloc: Global, rows: &LibraryRows) -> Result<LibraryRows, AllocError>
    ensures idents { IfOk result (λ copy. copy.idents.items ≡ rows.now.idents.items) }
    ensures cards { IfOk result (λ copy. copy.cards.items ≡ rows.now.cards.items) }
    ensures entries { IfOk result (λ copy. copy.entries.items ≡ rows.now.entries.items) }
    ensures targets { IfOk result (λ copy. copy.targets.items ≡ rows.now.targets.items) }
{
    let idents = Vec::from_slice(alloc, &rows.idents)?;
    let cards = copy_cards(alloc, &rows.cards)?;
    let entries = Vec::from_slice(alloc, &rows.entries)?;
    let targets = Vec::from_slice(alloc, &rows.targets)?;
    Ok(LibraryRows {
        idents,
        cards,
        entries,
        targets,
    })
}
