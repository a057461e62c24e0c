//! The row changes and touched cards of a run, from the library before and the library after it.
ghost use Rattle.std.specs.Prelude.{◌≡◌, ◌-◌, length, map, slice_get, IfOk};
ghost use Rattle.std.specs.Option.{option_map_or};
ghost use Rattle.upd_core.specs.Sound.{AreApart, Continues, IsSound, all_cards, key_of};
ghost use Rattle.upd_records.specs.Changes.{change_view, done_all};
ghost use Rattle.upd_records.specs.Fits.{AllFit};
ghost use Rattle.upd_records.specs.Rows.{Rows, Shows};
ghost use Rattle.upd_diff.specs.States.{TakeGone};
ghost use Rattle.upd_diff.specs.RowChanges.{RowChanges};
ghost use Rattle.upd_diff.specs.Touched.{touched};

use crate::deck_diffs::library_diff;
use crate::row_changes::row_changes;
use crate::touched::touched;
use std::alloc::{AllocError, Global};
use upd_core::{Change, Ident, Library, Serial};
use upd_text::CardRef;

/// The difference of two libraries.
#[derive(Debug, Drop)]
pub struct Compared {
    pub changes: Vec<Change>,
    /// The cards that are new or whose history differs, in order of deck (`YANK$$$` first) and place.
    pub touched: Vec<CardRef>,
}

/// The row changes from one library to another, and the touched cards. The directory of `after` must extend that of
/// `before`. Changes are in the order in which they are carried out: idents, then deletions, then moves, then
/// insertions. Insertions and deletions at one place of a deck make one move.
pub fn compare(alloc: Global, before: &Library, after: &Library) -> Result<Compared, AllocError>
    ensures row_changes { IfOk result (λ d. RowChanges before.now after.now (map change_view d.changes.items)) }
    ensures shows { (rows : Rows) → IsSound before.now → Continues before.now.idents after.now.idents
        → Shows rows before.now
        → IfOk result (λ d. Shows (done_all (map change_view d.changes.items) rows) after.now) }
    ensures fits { (rows : Rows) → IsSound before.now → Continues before.now.idents after.now.idents
        → Shows rows before.now
        → IfOk result (λ d. AllFit (map change_view d.changes.items) rows) }
    ensures states { IsSound before.now → IsSound after.now → Continues before.now.idents after.now.idents
        → IfOk result (λ d. TakeGone before.now after.now (map change_view d.changes.items)) }
    ensures touched { AreApart (map key_of (all_cards before.now))
        → IfOk result (λ d. d.touched.items ≡ touched before.now after.now) }
{
    let idents = before.idents();
    let decks = library_diff(alloc, last_age(idents), before, after)?;
    let touched = touched(alloc, before, after.idents(), &decks)?;
    let changes = row_changes(alloc, idents, after.idents(), &decks)?;
    Ok(Compared { changes, touched })
}

/// The serial of the last ident; 0 for an empty directory.
fn last_age(idents: &[Ident]) -> Serial
    ensures { result ≡ option_map_or (λ i. i.age) (slice_get idents.now (length idents.now - 1)) 0 }
{
    match idents.last() {
        Some(ident) => ident.age,
        None => 0,
    }
}
