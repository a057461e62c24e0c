//! What a file of an older schema lacks, made and filled inside a transaction.
ghost use Rattle.std.specs.Prelude.{◌≡◌, []};
ghost use Rattle.sqlite.specs.Held.{state};
ghost use Rattle.upd_core.specs.Library.{LibraryView};
ghost use Rattle.upd_records.specs.Rows.{Rows};
ghost use Rattle.upd_sqlite.specs.Steps.{Steps};
ghost use Rattle.upd_sqlite.specs.Stored.{HoldsAllRows};
ghost use Rattle.upd_sql.specs.Commits.{WasOpen};
ghost use Rattle.upd_sql.specs.Making.{Transforms};
ghost use Rattle.upd_sql.specs.LibraryTables.{HoldsTables};
ghost use Rattle.upd_migrate.specs.Migrated.{AreLibraryRows, IsFilled, IsMigrated, HoldsAfter};
ghost use Rattle.upd_migrate.specs.Older.{schema_of, stored_in};

use crate::completing::complete;
use crate::initial_states::initial_states;
use crate::older_version::Version;
use sqlite::{Alter, Error, ErrorCode, Transaction};
use std::alloc::Global;
use upd_row_store::assembled;
use upd_sql::{carry_out_all, library_rows_in};

/// The statuses and counts of the library that the tables show, where they have none.
fn fill_states<S: Alter>(tx: &mut Transaction<'_, S>, alloc: Global) -> Result<(), Error>
    ensures same_reference { tx.new.conn.ghost_name ≡ tx.old.conn.ghost_name }
    ensures steps { Steps (state S.Store tx.old.conn.now) (state S.Store tx.new.conn.now) result }
    ensures transforms { (l : LibraryView) (it : Rows) → AreLibraryRows l it → it.states ≡ [] → it.counts ≡ []
        → Transforms (HoldsTables it) (HoldsAfter (IsFilled l it))
        (state S.Store tx.old.conn.now) (state S.Store tx.new.conn.now) result }
{
    let rows = library_rows_in(tx, alloc)?;
    let library = assembled(alloc, rows)?;
    let changes = match initial_states(alloc, &library) {
        Ok(changes) => changes,
        Err(_) => return Err(Error::SqliteFailure(ErrorCode::OutOfMemory)),
    };
    carry_out_all(tx, &changes)
}

/// Makes what a version lacks, fills it, and sets the version of the present schema.
pub(crate) fn fill<S: Alter>(
    tx: &mut Transaction<'_, S>,
    alloc: Global,
    version: Version,
) -> Result<(), Error>
    ensures same_reference { tx.new.conn.ghost_name ≡ tx.old.conn.ghost_name }
    ensures steps { Steps (state S.Store tx.old.conn.now) (state S.Store tx.new.conn.now) result }
    ensures transforms { (l : LibraryView) (rows : Rows) → AreLibraryRows l rows
        → Transforms (HoldsAllRows (schema_of version) (stored_in version rows))
        (HoldsAfter (IsMigrated version l rows)) (state S.Store tx.old.conn.now) (state S.Store tx.new.conn.now) result }
    ensures was_open { WasOpen (state S.Store tx.old.conn.now) (state S.Store tx.new.conn.now) result }
{
    complete(tx, version)?;
    match version {
        Version::First => fill_states(tx, alloc),
        Version::Second | Version::Third => Ok(()),
    }
}
