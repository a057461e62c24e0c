//! The table of the schema's version, which has one row.
ghost use Rattle.std.specs.Prelude.{◌≡◌, false, IfOk, IsTrue};
ghost use Rattle.sqlite.specs.Held.{state};
ghost use Rattle.sqlite.specs.State.{HasCleanDisk, Survives};
ghost use Rattle.upd_sql.specs.Commits.{Inside};
ghost use Rattle.upd_keep.specs.Examining.{HasOneVersion, SeesVersion};

use sqlite::{Alter, Connection, Error, Transaction};
use upd_sql::{ILLEGIBLE, rows_of};
use upd_sqlite::{Rising, begin};

const ALL_VERSIONS: &str = "SELECT k, v FROM meta";

/// Reads the table inside a transaction. DatabaseCorrupt where it hasn't just one row.
fn only_version_in<S: Alter>(tx: &mut Transaction<'_, S>) -> Result<(), Error>
    ensures { Inside (state S.Store) SeesVersion tx.old.conn tx.new.conn result }
{
    let rows = rows_of(tx, ALL_VERSIONS, &[])?;
    match rows.len() {
        1 => Ok(()),
        _ => Err(ILLEGIBLE),
    }
}

/// Reads the table. DatabaseCorrupt where it hasn't just one row. Nothing changes.
pub(crate) fn only_version<S: Rising>(conn: &mut Connection<S>) -> Result<(), Error>
    requires { conn.old.in_transaction ≡ false }
    ensures outside { conn.new.in_transaction ≡ false }
    ensures was_open { HasCleanDisk (state S.Store conn.new) → IsTrue (state S.Store conn.new).is_open
        → IsTrue (state S.Store conn.old).is_open }
    ensures same { HasCleanDisk (state S.Store conn.new) → IsTrue (state S.Store conn.new).is_open
        → (state S.Store conn.new).committed ≡ (state S.Store conn.old).committed }
    ensures survives { Survives (state S.Store conn.old) (state S.Store conn.new) (λ _. ⊥) }
    ensures one { HasCleanDisk (state S.Store conn.new)
        → IfOk result (λ _. HasOneVersion (state S.Store conn.old).committed) }
{
    let mut tx = begin(conn);
    only_version_in(&mut tx)?;
    tx.rollback();
    Ok(())
}
