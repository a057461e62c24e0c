//! Making the tables of a new library.
ghost use Rattle.std.specs.Prelude.{◌≡◌, false, IsTrue, OnErr, OnOk};
ghost use Rattle.sqlite.specs.Held.{state};
ghost use Rattle.sqlite.specs.State.{HasCleanDisk, Survives};
ghost use Rattle.upd_sql.specs.Commits.{Inside, WasOpen};
ghost use Rattle.upd_sql.specs.Making.{no_rows, HasEmptyTables, MakesTable, MakesThree, MayMake, Transforms};
ghost use Rattle.upd_sql.specs.Schema.{no_schema};
ghost use Rattle.upd_sql.specs.LibraryTables.{ShowsTables, HoldsTables};

use crate::texts;
use sqlite::{Alter, Connection, Error, Transaction};
use upd_sqlite::{Rising, begin, run};

/// Makes the next table.
fn create<S: Alter>(tx: &mut Transaction<'_, S>, sql: &str) -> Result<(), Error>
    ensures { Inside (state S.Store) (MakesTable sql.now) tx.old.conn tx.new.conn result }
{
    run(tx, sql, &[])
}

/// Writes the version of the schema.
fn insert_version<S: Alter>(tx: &mut Transaction<'_, S>) -> Result<(), Error>
    ensures transforms { Inside (state S.Store) (Transforms (HasEmptyTables 9) (HoldsTables no_rows)) tx.old.conn tx.new.conn result }
    ensures was_open { WasOpen (state S.Store tx.old.conn.now) (state S.Store tx.new.conn.now) result }
{
    run(tx, texts::INSERT_VERSION, &[])
}

/// Makes the next three tables.
fn create_three<S: Alter>(
    tx: &mut Transaction<'_, S>,
    first: &str,
    second: &str,
    third: &str,
) -> Result<(), Error>
    ensures { Inside (state S.Store) (MakesThree first.now second.now third.now) tx.old.conn tx.new.conn result }
{
    create(tx, first)?;
    create(tx, second)?;
    create(tx, third)
}

/// Makes all tables, and writes the version.
fn make_tables<S: Alter>(tx: &mut Transaction<'_, S>) -> Result<(), Error>
    ensures transforms { Inside (state S.Store) (Transforms (HasEmptyTables 0) (HoldsTables no_rows)) tx.old.conn tx.new.conn result }
    ensures was_open { WasOpen (state S.Store tx.old.conn.now) (state S.Store tx.new.conn.now) result }
{
    create_three(
        tx,
        texts::CREATE_META,
        texts::CREATE_IDENTS,
        texts::CREATE_CARDS,
    )?;
    create_three(
        tx,
        texts::CREATE_ENTRIES,
        texts::CREATE_TARGETS,
        texts::CREATE_RUNS,
    )?;
    create_three(
        tx,
        texts::CREATE_STATES,
        texts::CREATE_COUNTS,
        texts::CREATE_SETTLED,
    )?;
    insert_version(tx)
}

/// Makes the tables of an empty library in one transaction.
pub fn make_library<S: Rising>(conn: &mut Connection<S>) -> Result<(), Error>
    requires { conn.old.in_transaction ≡ false }
    ensures outside { conn.new.in_transaction ≡ false }
    ensures done { HasCleanDisk (state S.Store conn.new) → OnOk result (IsTrue (state S.Store conn.new).is_open
        × ((state S.Store conn.old).committed.schema ≡ no_schema → ShowsTables no_rows (state S.Store conn.new).committed)) }
    ensures was_open { HasCleanDisk (state S.Store conn.new) → IsTrue (state S.Store conn.new).is_open
        → IsTrue (state S.Store conn.old).is_open }
    ensures undone { HasCleanDisk (state S.Store conn.new) → IsTrue (state S.Store conn.new).is_open → OnErr result
        (IsTrue (state S.Store conn.old).is_open × ((state S.Store conn.new).committed ≡ (state S.Store conn.old).committed)) }
    ensures crash { Survives (state S.Store conn.old) (state S.Store conn.new) (MayMake (state S.Store conn.old)) }
{
    let mut tx = begin(conn);
    make_tables(&mut tx)?;
    tx.commit()
}
