//! Whether a store's trees are a library's: its schema, as SQL would read it, and the row of `meta`. And what they serve.
ghost use Rattle.std.specs.Prelude.{◌≡◌, ◌∷◌, [], false, drop, map, IfOk, IfSome, IsTrue, OnOk};
ghost use Rattle.sqlite_catalog.specs.Listing.{Lists};
ghost use Rattle.sqlite_trees.specs.Objects.{catalog_tree};
ghost use Rattle.sqlite_trees.specs.View.{IsClean, IsQuiet};
ghost use Rattle.sqlite.specs.Steps.{IsFresh};
ghost use Rattle.upd_sql.specs.Encoded.{version_row};
ghost use Rattle.upd_sql.specs.Schema.{library_schema};
ghost use Rattle.upd_records.specs.Rows.{Rows};
ghost use Rattle.upd_sql.specs.Commits.{ShowsIn};
ghost use Rattle.upd_store.specs.OneOpen.{IsAnswered, IsServed};
ghost use Rattle.upd_store.specs.TreeReads.{IsAdopted, IsLibrary};
ghost use Rattle.sqlite_exec.specs.Calls.{OnlyReads};

use crate::one_open::Purpose;
use crate::tree_finds::{mark_under, run_under};
use crate::tree_reads::{walk, walk_index};
use crate::tree_records::Record;
use crate::tree_store::TreeStore;
use crate::tree_tallies::Tally;
use sqlite_catalog::load::load;
use sqlite_exec::check;
use sqlite_exec::work::Workspace;
use sqlite_trees::error::StoreError;
use sqlite_trees::store::{Alter, Store};
use sqlite_value::row::Row;
use sqlite_value::value::ValueRef;
use std::alloc::{AllocError, Global};
use upd_records::{MarkRow, RunRow};
use upd_sql::is_library_schema;

/// Whether the list of objects is that of the library's schema, as a connection reads it.
fn lists_library<S: Alter>(store: &S, alloc: Global) -> Result<bool, AllocError>
    requires { IsClean (S.Store.view store.now) → (S.Store.view store.now).is_broken ≡ false }
    ensures { IsClean (S.Store.view store.now) → IfOk result (λ found. IsTrue found
        → Lists ((S.Store.view store.now).trees catalog_tree) library_schema) }
{
    match load(store, alloc)? {
        Some(schema) => Ok(is_library_schema(&schema)),
        None => Ok(false),
    }
}

/// Whether a row of `meta` says version 3.
fn is_version_row(alloc: Global, row: &Row) -> Result<bool, AllocError>
    ensures { IfOk result (λ found. IsTrue found → drop 1 row.now ≡ version_row 3) }
{
    let mut wanted = Row::new(alloc);
    wanted.push(row.get(0))?;
    wanted.push(ValueRef::Text(b"version"))?;
    wanted.push(ValueRef::Int(3))?;
    Ok(row.is_same(&wanted))
}

fn is_third(alloc: Global, rows: &[Row]) -> Result<bool, AllocError>
    ensures { IfOk result (λ found. IsTrue found → map (drop 1) rows.now ≡ version_row 3 ∷ []) }
{
    match rows {
        [row] => is_version_row(alloc, row),
        _ => Ok(false),
    }
}

/// Whether `meta` has the one row of version 3.
fn has_version<S: Store>(store: &mut S, alloc: Global) -> Result<bool, StoreError>
    ensures version { IfOk result (λ found. IsClean (S.Store.view store.new) → IsTrue found
        → map (drop 1) ((S.Store.view store.old).trees 0) ≡ version_row 3 ∷ []) }
    ensures same { IsClean (S.Store.view store.new)
        → OnOk result (OnlyReads (S.Store.view store.old) (S.Store.view store.new)) }
    ensures quiet { IsQuiet S.Store.view S.Store.faults S.Store.recovers S.Store.is_shielded store.old store.new }
{
    let mut work = Workspace::new(alloc);
    let rows = check::all_rows(store, &mut work, 0)?;
    let found = is_third(alloc, rows.as_slice())?;
    Ok(found)
}

/// Whether the trees are a library's of version 3.
fn is_third_library<S: Alter>(store: &mut S, alloc: Global) -> Result<bool, StoreError>
    requires { IsClean (S.Store.view store.old) → (S.Store.view store.old).is_broken ≡ false }
    ensures ours { IfOk result (λ found. IsClean (S.Store.view store.new) → IsTrue found
        → IsLibrary (S.Store.view store.old).trees) }
    ensures same { IsClean (S.Store.view store.new)
        → OnOk result (OnlyReads (S.Store.view store.old) (S.Store.view store.new)) }
    ensures quiet { IsQuiet S.Store.view S.Store.faults S.Store.recovers S.Store.is_shielded store.old store.new }
{
    if !lists_library(&*store, alloc)? {
        return Ok(false);
    }
    has_version(store, alloc)
}

/// The records of a table. Corrupt where its index has other entries.
fn read_table<S: Store, T: Record + Drop>(
    store: &mut S,
    alloc: Global,
) -> Result<Vec<T>, StoreError>
    ensures found { IsClean (S.Store.view store.new) → IfOk result (λ found. (it : Rows)
        → ShowsIn (S.Store.view store.old).trees it → found.items ≡ T.listed it) }
    ensures same { IsClean (S.Store.view store.new)
        → OnOk result (OnlyReads (S.Store.view store.old) (S.Store.view store.new)) }
    ensures quiet { IsQuiet S.Store.view S.Store.faults S.Store.recovers S.Store.is_shielded store.old store.new }
{
    let mut rows = Tally::new();
    let found = walk(store, alloc, &mut rows)?;
    walk_index(store, alloc, T::INDEX, T::KEYS, &rows)?;
    Ok(found)
}

/// Whether the reply to a run of this key is stored, or settled.
fn is_answered<S: Store>(
    store: &mut S,
    alloc: Global,
    site: &str,
    number: u64,
) -> Result<bool, StoreError>
    ensures answered { IsClean (S.Store.view store.new) → IfOk result (λ found. IsTrue found → (it : Rows)
        → ShowsIn (S.Store.view store.old).trees it → IsAnswered site.now number it) }
    ensures same { IsClean (S.Store.view store.new)
        → OnOk result (OnlyReads (S.Store.view store.old) (S.Store.view store.new)) }
    ensures quiet { IsQuiet S.Store.view S.Store.faults S.Store.recovers S.Store.is_shielded store.old store.new }
{
    let runs: Vec<RunRow> = read_table(store, alloc)?;
    if run_under(runs, site, number).is_some() {
        return Ok(true);
    }
    let marks: Vec<MarkRow> = read_table(store, alloc)?;
    Ok(number <= mark_under(&marks, site))
}

/// Whether the trees are a library's of version 3, and serve a purpose.
pub(crate) fn serves<S: Alter>(
    store: &mut S,
    alloc: Global,
    purpose: Purpose<'_>,
) -> Result<bool, StoreError>
    requires { IsClean (S.Store.view store.old) → (S.Store.view store.old).is_broken ≡ false }
    ensures ours { IfOk result (λ found. IsClean (S.Store.view store.new) → IsTrue found
        → IsLibrary (S.Store.view store.old).trees) }
    ensures served { IfOk result (λ found. IsClean (S.Store.view store.new) → IsTrue found → (it : Rows)
        → ShowsIn (S.Store.view store.old).trees it → IsServed purpose.entry it) }
    ensures same { IsClean (S.Store.view store.new)
        → OnOk result (OnlyReads (S.Store.view store.old) (S.Store.view store.new)) }
    ensures quiet { IsQuiet S.Store.view S.Store.faults S.Store.recovers S.Store.is_shielded store.old store.new }
{
    if !is_third_library(store, alloc)? {
        return Ok(false);
    }
    match purpose {
        Purpose::Reading => Ok(true),
        Purpose::Run { site, number } => is_answered(store, alloc, site, number),
        Purpose::Writing => Ok(false),
    }
}

impl<S: Alter + Drop> TreeStore<S> {
    /// Takes a store that was just opened, or lets it go where its trees aren't a library's of version 3, or where memory
    /// is short. Nothing is written.
    pub fn adopt(alloc: Global, mut store: S) -> Option<TreeStore<S>>
        requires { IsClean (S.Store.view store) → IsFresh (S.Store.view store) }
        ensures adopted { IfSome result (λ s. IsAdopted S.Store store s.store) }
        ensures counts { IfSome result (λ s. (s.failures ≡ 0) × (s.decks_read ≡ 0)) }
    {
        if !lists_library(&store, alloc).ok()? || !has_version(&mut store, alloc).ok()? {
            return None;
        }
        Some(TreeStore {
            store,
            failures: 0,
            decks_read: 0,
        })
    }
}
