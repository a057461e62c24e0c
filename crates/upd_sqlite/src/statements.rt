//! What statements do to tables that hold lists of rows, whatever the rows mean.
//!
//! Tables have a key of their own beside the rowid, and columns that are never NULL. The lemmas of `proofs/Shapes` say
//! what an INSERT of one row, a DELETE or an UPDATE of the rows that pass a test, a SELECT of one table and a CREATE
//! TABLE do to the lists. They are equations without rowids.
ghost use Rattle.std.specs.Prelude.{◌≡◌, ◌⊎◌, false, Err, IfErr, IfOk, IsTrue, Ok};
ghost use Rattle.sqlite.specs.Held.{state};
ghost use Rattle.sqlite.specs.State.{Executes, ExecutesInside, FailsToQuery, HasCleanDisk, IsTooLate, Shown};
ghost use Rattle.sqlite.specs.Values.{bound};
ghost use Rattle.upd_sqlite.specs.Steps.{Ran, Steps};

use sqlite::types::ValueRef;
use sqlite::{Alter, Error, ErrorCode, Row, Transaction};

/// Runs one statement. The error is that of SQLite, and TransactionState where no transaction is open.
pub fn run<S: Alter>(
    tx: &mut Transaction<'_, S>,
    sql: &str,
    params: &[ValueRef<'_>],
) -> Result<(), Error>
    ensures same_reference { tx.new.conn.ghost_name ≡ tx.old.conn.ghost_name }
    ensures ran { Ran sql.now (bound params.now) (state S.Store tx.old.conn.now)
        (state S.Store tx.new.conn.now) result }
    ensures failed { HasCleanDisk (state S.Store tx.new.conn.now) → IsTrue (state S.Store tx.old.conn.now).in_transaction
        → IfErr result (λ e. ExecutesInside 0 sql.now (bound params.now) (state S.Store tx.old.conn.now)
        (state S.Store tx.new.conn.now) (Err e)) }
    ensures ended { (state S.Store tx.old.conn.now).in_transaction ≡ false
        → (result ≡ Err (Error.SqliteFailure ErrorCode.TransactionState)) × (tx.new.conn.now ≡ tx.old.conn.now) }
{
    tx.execute(sql, params)?;
    Ok(())
}

/// Runs one statement and returns how many rows it changed. The error is that of SQLite, and TransactionState where no
/// transaction is open.
pub fn run_counted<S: Alter>(
    tx: &mut Transaction<'_, S>,
    sql: &str,
    params: &[ValueRef<'_>],
) -> Result<usize, Error>
    ensures same_reference { tx.new.conn.ghost_name ≡ tx.old.conn.ghost_name }
    ensures ran { Ran sql.now (bound params.now) (state S.Store tx.old.conn.now)
        (state S.Store tx.new.conn.now) result }
    ensures counted { HasCleanDisk (state S.Store tx.new.conn.now) → IsTrue (state S.Store tx.old.conn.now).in_transaction
        → IfOk result (λ n. Executes sql.now (bound params.now) (state S.Store tx.old.conn.now)
        (state S.Store tx.new.conn.now) (Ok n)) }
{
    tx.execute(sql, params)
}

/// Returns all rows of a query's answer. The error is that of SQLite.
pub fn ask<S: Alter>(
    tx: &mut Transaction<'_, S>,
    sql: &str,
    params: &[ValueRef<'_>],
) -> Result<Vec<Row>, Error>
    ensures same_reference { tx.new.conn.ghost_name ≡ tx.old.conn.ghost_name }
    ensures steps { Steps (state S.Store tx.old.conn.now) (state S.Store tx.new.conn.now) result }
    ensures shown { HasCleanDisk (state S.Store tx.new.conn.now)
        → IfOk result (λ rows. Shown sql.now (bound params.now) (state S.Store tx.old.conn.now)
        (state S.Store tx.new.conn.now) rows.items) }
    ensures failed { HasCleanDisk (state S.Store tx.new.conn.now)
        → IfErr result (λ e. FailsToQuery sql.now (bound params.now) (state S.Store tx.old.conn.now)
        (state S.Store tx.new.conn.now) e ⊎ IsTooLate sql.now (bound params.now) (state S.Store tx.old.conn.now)
        (state S.Store tx.new.conn.now) e) }
{
    tx.query_all(sql, params)
}
