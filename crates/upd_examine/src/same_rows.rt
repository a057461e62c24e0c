//! Whether the rows of a library's tables are exactly the library's own.
ghost use Rattle.std.specs.Prelude.{◌↔◌, IfOk, IsTrue};
ghost use Rattle.std.proofs.lemmas.Map.Lookups.{CmpEqualImpliesEq};
ghost use Rattle.upd_records.specs.Rows.{IsSame, rows_of};
ghost use Rattle.upd_row_store.specs.Assembling.{AreRowsOf};
ghost use Rattle.upd_examine.specs.Findings.{AreLibraryRows};

use crate::conjunctions::all_four;
use crate::line_texts::has_line_texts;
use crate::own_rows::own_rows;
use crate::row_keys::{card_keys, entry_keys, ident_keys, target_row_keys};
use crate::sound::is_sound;
use std::alloc::{AllocError, Global};
use upd_core::{Ident, Library};
use upd_records::{CardRow, EntryRow, LibraryRows, TargetRow};

/// Whether two lists have the same elements, each as often, in any order.
pub fn are_same<T: Ord + Drop>(some: Vec<T>, others: Vec<T>) -> bool
    requires { CmpEqualImpliesEq T.cmp }
    ensures { IsTrue result ↔ IsSame some.items others.items }
{
    let mut some = some;
    let mut others = others;
    some.sort_unstable();
    others.sort_unstable();
    some.cmp(&others).is_eq()
}

pub fn are_same_idents(alloc: Global, some: &[Ident], others: &[Ident]) -> Result<bool, AllocError>
    ensures { IfOk result (λ same. IsTrue same ↔ IsSame some.now others.now) }
{
    Ok(are_same(ident_keys(alloc, some)?, ident_keys(alloc, others)?))
}

pub fn are_same_cards(
    alloc: Global,
    some: &[CardRow],
    others: &[CardRow],
) -> Result<bool, AllocError>
    ensures { IfOk result (λ same. IsTrue same ↔ IsSame some.now others.now) }
{
    Ok(are_same(card_keys(alloc, some)?, card_keys(alloc, others)?))
}

pub fn are_same_entries(
    alloc: Global,
    some: &[EntryRow],
    others: &[EntryRow],
) -> Result<bool, AllocError>
    ensures { IfOk result (λ same. IsTrue same ↔ IsSame some.now others.now) }
{
    Ok(are_same(entry_keys(alloc, some)?, entry_keys(alloc, others)?))
}

pub fn are_same_targets(
    alloc: Global,
    some: &[TargetRow],
    others: &[TargetRow],
) -> Result<bool, AllocError>
    ensures { IfOk result (λ same. IsTrue same ↔ IsSame some.now others.now) }
{
    Ok(are_same(
        target_row_keys(alloc, some)?,
        target_row_keys(alloc, others)?,
    ))
}

/// Whether rows are exactly those of a library, in any order.
pub fn are_rows_of(alloc: Global, library: &Library, rows: &LibraryRows) -> Result<bool, AllocError>
    ensures { IfOk result (λ are. IsTrue are ↔ AreRowsOf (rows_of library.now) rows.now) }
{
    let own = own_rows(alloc, library)?;
    let idents = are_same_idents(alloc, &rows.idents, &own.idents)?;
    let cards = are_same_cards(alloc, &rows.cards, &own.cards)?;
    let entries = are_same_entries(alloc, &rows.entries, &own.entries)?;
    let targets = are_same_targets(alloc, &rows.targets, &own.targets)?;
    Ok(all_four(idents, cards, entries, targets))
}

/// Whether rows are exactly those of a library, and it is sound, whole and within its limits, with the names, texts and
/// numbers of runs.
pub fn are_library_rows(
    alloc: Global,
    library: &Library,
    rows: &LibraryRows,
) -> Result<bool, AllocError>
    ensures { IfOk result (λ are. IsTrue are ↔ AreLibraryRows rows.now library.now) }
{
    let sound = is_sound(alloc, library)?;
    let within = library.is_within_limits();
    let texts = has_line_texts(library);
    let own = are_rows_of(alloc, library, rows)?;
    Ok(all_four(sound, within, texts, own))
}
