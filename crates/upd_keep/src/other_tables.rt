//! Which table has other rows than that of another library, and whether two lists of tables have the same.
ghost use Rattle.std.specs.Prelude.{◌≡◌, IfErr, IfOk, IsTrue};
ghost use Rattle.std.specs.Option.{option_map};
ghost use Rattle.upd_records.specs.Rows.{IsSame, Rows};
ghost use Rattle.upd_row_store.specs.Assembling.{AreRowsOf};
ghost use Rattle.upd_row_store.specs.Keeping.{IsLost};
ghost use Rattle.upd_row_store.specs.Tables.{AreRead};
ghost use Rattle.upd_keep.specs.Replaying.{AreStoredTables, DiffersFirst, IsFirstOther};

use crate::stored_tables::StoredTables;
use std::alloc::{AllocError, Global};
use upd_core::States;
use upd_examine::same_rows::{
    are_same, are_same_cards, are_same_entries, are_same_idents, are_same_targets,
};
use upd_memory::ListStore;
use upd_records::{LibraryRows, MarkRow, RunRow};
use upd_row_store::RowStore;
use upd_text::Fault;

/// The name of the first table that has other rows, in the order idents, cards, entries, targets, states, counts.
fn first_other(
    alloc: Global,
    some: &LibraryRows,
    states: &States,
    others: &LibraryRows,
    other_states: &States,
) -> Result<Option<&'static str>, AllocError>
    ensures { IfOk result (λ found. IsFirstOther (IsSame some.now.idents.items others.now.idents.items)
        (IsSame some.now.cards.items others.now.cards.items) (IsSame some.now.entries.items others.now.entries.items)
        (IsSame some.now.targets.items others.now.targets.items)
        (IsSame states.now.states.items other_states.now.states.items)
        (IsSame states.now.counts.items other_states.now.counts.items) (option_map (λ table. table.now) found)) }
{
    if !are_same_idents(alloc, &some.idents, &others.idents)? {
        return Ok(Some("idents"));
    }
    if !are_same_cards(alloc, &some.cards, &others.cards)? {
        return Ok(Some("cards"));
    }
    if !are_same_entries(alloc, &some.entries, &others.entries)? {
        return Ok(Some("entries"));
    }
    if !are_same_targets(alloc, &some.targets, &others.targets)? {
        return Ok(Some("targets"));
    }
    let own = Vec::from_slice(alloc, &states.states)?;
    if !are_same(own, Vec::from_slice(alloc, &other_states.states)?) {
        return Ok(Some("states"));
    }
    let own = Vec::from_slice(alloc, &states.counts)?;
    if !are_same(own, Vec::from_slice(alloc, &other_states.counts)?) {
        return Ok(Some("counts"));
    }
    Ok(None)
}

/// The name of the first table in which a library that was made has other rows. The fault is NoMemory or Store, at 0.
pub(crate) fn other_table(
    alloc: Global,
    library: LibraryRows,
    states: States,
    made: ListStore,
) -> Result<Option<&'static str>, Fault>
    ensures first { IfOk result (λ found. (rows : Rows) → AreRowsOf rows library → AreRead rows states
        → DiffersFirst rows made.tables (option_map (λ table. table.now) found)) }
    ensures lost { IfErr result IsLost }
{
    let mut made = made;
    let rows = made.library_rows(alloc)?;
    let own_states = made.load_states(alloc)?;
    drop(made);
    let found = first_other(alloc, &library, &states, &rows, &own_states)?;
    Ok(found)
}

/// A record that is compared whole.
trait Alike {
    fn is_as(&self, other: &Self) -> bool
        ensures { IsTrue result → self.now ≡ other.now };
}

impl Alike for RunRow {
    fn is_as(&self, other: &RunRow) -> bool {
        self.site == other.site
            && self.number == other.number
            && self.mode == other.mode
            && self.bytes == other.bytes
            && self.accepted == other.accepted
            && self.reply == other.reply
    }
}

impl Alike for MarkRow {
    fn is_as(&self, other: &MarkRow) -> bool {
        self.site == other.site && self.mark == other.mark
    }
}

/// Whether two lists are the same.
fn are_alike<T: Alike>(some: &[T], others: &[T]) -> bool
    ensures { IsTrue result → some.now ≡ others.now }
{
    if some.len() != others.len() {
        return false;
    }
    let mut at = 0;
    while at < some.len() {
        if !some[at].is_as(&others[at]) {
            return false;
        }
        at += 1;
    }
    true
}

/// Whether tables have the same rows, the runs in the same order.
pub(crate) fn are_same_tables(
    alloc: Global,
    some: &StoredTables,
    others: &StoredTables,
) -> Result<bool, AllocError>
    ensures { IfOk result (λ same. IsTrue same → (it : Rows) → AreStoredTables it others.now → AreStoredTables it some.now) }
{
    if !are_alike(&some.kept.runs, &others.kept.runs) {
        return Ok(false);
    }
    if !are_alike(&some.kept.marks, &others.kept.marks) {
        return Ok(false);
    }
    let found = first_other(
        alloc,
        &some.library,
        &some.states,
        &others.library,
        &others.states,
    )?;
    Ok(found.is_none())
}
