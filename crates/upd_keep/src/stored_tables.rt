//! The rows of a library, with its stored runs in the order in which they were stored.
ghost use Rattle.std.specs.Prelude.{IfErr};
ghost use Rattle.upd_row_store.specs.Keeping.{FindsRows, IsLost, Keeps};
ghost use Rattle.upd_keep.specs.Replaying.{AreStoredTables};

use std::alloc::Global;
use upd_core::States;
use upd_records::LibraryRows;
use upd_row_store::{RowStore, StoredRuns};
use upd_text::Fault;

/// The rows of all tables but `meta`.
#[derive(Debug, Drop)]
pub(crate) struct StoredTables {
    pub(crate) library: LibraryRows,
    pub(crate) states: States,
    pub(crate) kept: StoredRuns,
}

/// The rows of a library, and its stored runs in the order in which they were stored. The fault is NoMemory or Store, at 0.
pub(crate) fn stored_tables<S: RowStore>(
    alloc: Global,
    store: &mut S,
) -> Result<StoredTables, Fault>
    ensures found { FindsRows S.Meaning result store.old store.new AreStoredTables }
    ensures keeps { Keeps S.Meaning store.old store.new }
    ensures lost { IfErr result IsLost }
{
    let library = store.library_rows(alloc)?;
    let states = store.load_states(alloc)?;
    let kept = store.stored_runs(alloc)?;
    Ok(StoredTables {
        library,
        states,
        kept,
    })
}
