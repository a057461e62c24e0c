//! The tables that a file of an older schema lacks.
ghost use Rattle.std.specs.Prelude.{◌≡◌, ◌+◌, ◌++◌, ℕ, List, [], ◌∷◌};
ghost use Rattle.sqlite_value.specs.Order.{Row};
ghost use Rattle.sqlite.specs.Held.{state};
ghost use Rattle.upd_records.specs.Rows.{Rows};
ghost use Rattle.upd_sqlite.specs.Steps.{Steps};
ghost use Rattle.upd_sqlite.specs.Stored.{HoldsAllRows};
ghost use Rattle.upd_sql.specs.Commits.{WasOpen};
ghost use Rattle.upd_sql.specs.Making.{schema_up_to, Transforms, MakesNext};
ghost use Rattle.upd_sql.specs.LibraryTables.{HoldsTables};
ghost use Rattle.upd_migrate.specs.Migrated.{completed};
ghost use Rattle.upd_migrate.specs.Older.{HasTables, schema_of, stored_in};
ghost use Rattle.upd_migrate.specs.declared.older_version.Version.{Version};

use crate::older_version::Version;
use sqlite::{Alter, Error, Transaction};
use upd_sql::{CREATE_COUNTS, CREATE_SETTLED, CREATE_STATES};
use upd_sqlite::run;

/// The text that sets the version of the present schema.
const SET_VERSION: &str = "UPDATE meta SET v = 3 WHERE k = 'version'";

/// Makes the next table, whatever rows the others have.
fn create<S: Alter>(tx: &mut Transaction<'_, S>, sql: &str) -> Result<(), Error>
    ensures same_reference { tx.new.conn.ghost_name ≡ tx.old.conn.ghost_name }
    ensures transforms { (n : ℕ) (all : List (List Row)) → MakesNext n sql.now
        → Transforms (HoldsAllRows (schema_up_to n) all) (HoldsAllRows (schema_up_to (n + 1)) (all ++ [] ∷ []))
        (state S.Store tx.old.conn.now) (state S.Store tx.new.conn.now) result }
{
    run(tx, sql, &[])
}

/// The tables of statuses and counts.
fn create_states<S: Alter>(tx: &mut Transaction<'_, S>) -> Result<(), Error>
    ensures same_reference { tx.new.conn.ghost_name ≡ tx.old.conn.ghost_name }
    ensures transforms { (all : List (List Row)) → Transforms (HoldsAllRows (schema_up_to 6) all)
        (HoldsAllRows (schema_up_to 8) ((all ++ [] ∷ []) ++ [] ∷ [])) (state S.Store tx.old.conn.now)
        (state S.Store tx.new.conn.now) result }
{
    create(tx, CREATE_STATES)?;
    create(tx, CREATE_COUNTS)
}

/// The table of settled marks.
fn create_settled<S: Alter>(tx: &mut Transaction<'_, S>) -> Result<(), Error>
    ensures same_reference { tx.new.conn.ghost_name ≡ tx.old.conn.ghost_name }
    ensures transforms { (all : List (List Row)) → Transforms (HoldsAllRows (schema_up_to 8) all)
        (HoldsAllRows (schema_up_to 9) (all ++ [] ∷ [])) (state S.Store tx.old.conn.now)
        (state S.Store tx.new.conn.now) result }
{
    create(tx, CREATE_SETTLED)
}

/// The tables that a version lacks, with no rows.
fn create_missing<S: Alter>(tx: &mut Transaction<'_, S>, version: Version) -> Result<(), Error>
    ensures same_reference { tx.new.conn.ghost_name ≡ tx.old.conn.ghost_name }
    ensures transforms { (it : Rows) → Transforms (HoldsAllRows (schema_of version) (stored_in version it))
        (HasTables version (completed version it))
        (state S.Store tx.old.conn.now) (state S.Store tx.new.conn.now) result }
{
    match version {
        Version::First => {
            create_states(tx)?;
            create_settled(tx)
        }
        Version::Second => create_settled(tx),
        Version::Third => Ok(()),
    }
}

/// Sets the version of the present schema.
fn set_version<S: Alter>(tx: &mut Transaction<'_, S>) -> Result<(), Error>
    ensures same_reference { tx.new.conn.ghost_name ≡ tx.old.conn.ghost_name }
    ensures transforms { (version : Version) (it : Rows) → Transforms (HasTables version it) (HoldsTables it)
        (state S.Store tx.old.conn.now) (state S.Store tx.new.conn.now) result }
    ensures was_open { WasOpen (state S.Store tx.old.conn.now) (state S.Store tx.new.conn.now) result }
{
    run(tx, SET_VERSION, &[])
}

/// Makes the tables that a version lacks, with no rows, and sets the version of the present schema; the rows stay.
pub(crate) fn complete<S: Alter>(tx: &mut Transaction<'_, S>, version: Version) -> Result<(), Error>
    ensures same_reference { tx.new.conn.ghost_name ≡ tx.old.conn.ghost_name }
    ensures steps { Steps (state S.Store tx.old.conn.now) (state S.Store tx.new.conn.now) result }
    ensures transforms { (it : Rows) → Transforms (HoldsAllRows (schema_of version) (stored_in version it))
        (HoldsTables (completed version it)) (state S.Store tx.old.conn.now) (state S.Store tx.new.conn.now) result }
    ensures was_open { WasOpen (state S.Store tx.old.conn.now) (state S.Store tx.new.conn.now) result }
{
    create_missing(tx, version)?;
    set_version(tx)
}
