//! The library's tables, each read by one walk over its tree and one over its index, outside of a transaction.
ghost use Rattle.std.specs.Prelude.{◌≡◌};
ghost use Rattle.upd_row_store.specs.Tables.{AreByKey, AreRead, ListsRuns};
ghost use Rattle.upd_sql.specs.Part.{AreActiveRows};
ghost use Rattle.upd_store.specs.TreeReads.{Answers, Finds, IsWhole, ListsLibrary};

use crate::tree_records::Record;
use crate::tree_tallies::Tally;
use sqlite_trees::error::StoreError;
use sqlite_trees::store::{Direction, Store};
use sqlite_value::row::Row;
use std::alloc::Global;
use upd_core::States;
use upd_records::LibraryRows;
use upd_row_store::{StoredRuns, states_by_key};
use upd_sql::ActiveRows;

/// The records of a table, in the order of their rowids. Beside them one row is in memory at a time.
pub(crate) fn walk<S: Store, T: Record + Drop>(
    store: &mut S,
    alloc: Global,
    rows: &mut Tally,
) -> Result<Vec<T>, StoreError>
    ensures { Finds S.Store store.old store.new (λ it found. found.items ≡ T.listed it) result }
{
    let mut row = Row::new(alloc);
    store.seek(0, T::TREE, &row, Direction::Forward)?;
    let mut found = Vec::new(alloc);
    'rows: for _ in 0..u64::MAX {
        if !store.next(0, &mut row)? {
            return Ok(found);
        }
        rows.add_row(&row, T::KEYS);
        found.push(T::read(alloc, &row)?)?;
    }
    // No sound store has this many entries.
    Err(StoreError::OutOfMemory)
}

/// Compares the entries of an index with the rows of its table.
pub(crate) fn walk_index<S: Store>(
    store: &mut S,
    alloc: Global,
    tree: u32,
    keys: usize,
    rows: &Tally,
) -> Result<(), StoreError>
    ensures { Finds S.Store store.old store.new (λ it found. Unit {0}) result }
{
    let mut entry = Row::new(alloc);
    store.seek(0, tree, &entry, Direction::Forward)?;
    let mut entries = Tally::new();
    'entries: for _ in 0..u64::MAX {
        if !store.next(0, &mut entry)? {
            return entries.compared(rows);
        }
        entries.add_entry(&entry, keys);
    }
    // No sound store has this many entries.
    Err(StoreError::OutOfMemory)
}

// A walk that fails is rolled back, so that the next one finds the trees whole.

fn table_records<S: Store, T: Record + Drop>(
    store: &mut S,
    alloc: Global,
    rows: &mut Tally,
) -> Result<Vec<T>, StoreError>
    requires { IsWhole (S.Store.view store.old) }
    ensures { Answers S.Store store.old store.new (λ it found. found.items ≡ T.listed it) result }
{
    match walk(store, alloc, rows) {
        Ok(found) => Ok(found),
        Err(error) => {
            store.rollback();
            Err(error)
        }
    }
}

fn compare_index<S: Store>(
    store: &mut S,
    alloc: Global,
    tree: u32,
    keys: usize,
    rows: &Tally,
) -> Result<(), StoreError>
    requires { IsWhole (S.Store.view store.old) }
    ensures { Answers S.Store store.old store.new (λ it found. Unit {0}) result }
{
    match walk_index(store, alloc, tree, keys, rows) {
        Ok(()) => Ok(()),
        Err(error) => {
            store.rollback();
            Err(error)
        }
    }
}

/// The records of a table, in the order of their rowids. Corrupt where its index has other entries.
pub(crate) fn records<S: Store, T: Record + Drop>(
    store: &mut S,
    alloc: Global,
) -> Result<Vec<T>, StoreError>
    requires { IsWhole (S.Store.view store.old) }
    ensures { Answers S.Store store.old store.new (λ it found. found.items ≡ T.listed it) result }
{
    let mut rows = Tally::new();
    let found = table_records(store, alloc, &mut rows)?;
    compare_index(store, alloc, T::INDEX, T::KEYS, &rows)?;
    Ok(found)
}

/// The rows of the four tables that a library is made of.
pub(crate) fn library_rows<S: Store>(
    store: &mut S,
    alloc: Global,
) -> Result<LibraryRows, StoreError>
    requires { IsWhole (S.Store.view store.old) }
    ensures { Answers S.Store store.old store.new ListsLibrary result }
{
    Ok(LibraryRows {
        idents: records(store, alloc)?,
        cards: records(store, alloc)?,
        entries: records(store, alloc)?,
        targets: records(store, alloc)?,
    })
}

/// Statuses and counts in the order of the keys of their tables.
pub(crate) fn states<S: Store>(store: &mut S, alloc: Global) -> Result<States, StoreError>
    requires { IsWhole (S.Store.view store.old) }
    ensures { Answers S.Store store.old store.new (λ it found. AreRead it found × AreByKey found) result }
{
    let states = records(store, alloc)?;
    let counts = records(store, alloc)?;
    Ok(states_by_key(States { states, counts }))
}

/// The rows that give the active cards.
pub(crate) fn active_rows<S: Store>(store: &mut S, alloc: Global) -> Result<ActiveRows, StoreError>
    requires { IsWhole (S.Store.view store.old) }
    ensures { Answers S.Store store.old store.new AreActiveRows result }
{
    Ok(ActiveRows {
        idents: records(store, alloc)?,
        cards: records(store, alloc)?,
        states: records(store, alloc)?,
    })
}

/// The rows of stored runs and of marks.
pub(crate) fn stored_runs<S: Store>(store: &mut S, alloc: Global) -> Result<StoredRuns, StoreError>
    requires { IsWhole (S.Store.view store.old) }
    ensures { Answers S.Store store.old store.new ListsRuns result }
{
    Ok(StoredRuns {
        runs: records(store, alloc)?,
        marks: records(store, alloc)?,
    })
}
