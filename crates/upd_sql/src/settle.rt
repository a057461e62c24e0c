//! Settlement of a site's runs.
ghost use Rattle.std.specs.Prelude.{◌≡◌, false, IfOk, IsTrue, OnErr, OnOk};
ghost use Rattle.sqlite.specs.Held.{state};
ghost use Rattle.sqlite.specs.State.{HasCleanDisk, Survives};
ghost use Rattle.upd_records.specs.Rows.{Rows};
ghost use Rattle.upd_row_store.specs.Tables.{mark_at, settled_to};
ghost use Rattle.upd_sqlite.specs.Steps.{Makes};
ghost use Rattle.upd_sql.specs.Commits.{Commits, Inside, MayCommit, WasOpen};
ghost use Rattle.upd_sql.specs.RowEdits.{with_runs_settled};
ghost use Rattle.upd_sql.specs.LibraryTables.{AnyTables, ShowsTables, HoldsTables};

use crate::reads::mark_in;
use crate::writes;
use sqlite::{Alter, Connection, Error, Transaction};
use upd_sqlite::{Rising, begin};

/// Removes the site's runs up to a number, and makes the number its mark.
fn set_mark<S: Alter>(tx: &mut Transaction<'_, S>, site: &str, number: u64) -> Result<(), Error>
    ensures { Inside (state S.Store) (Makes HoldsTables AnyTables (with_runs_settled site.now number)) tx.old.conn tx.new.conn result }
{
    writes::delete_runs(tx, site, number)?;
    writes::delete_mark(tx, site)?;
    writes::insert_mark(tx, site, number)
}

/// Settles a site's runs up to a number, and returns the site's mark afterwards.
fn settle_in<S: Alter>(tx: &mut Transaction<'_, S>, site: &str, number: u64) -> Result<u64, Error>
    ensures makes { Inside (state S.Store) (Makes HoldsTables AnyTables (settled_to site.now number)) tx.old.conn tx.new.conn result }
    ensures was_open { WasOpen (state S.Store tx.old.conn.now) (state S.Store tx.new.conn.now) result }
    ensures mark { HasCleanDisk (state S.Store tx.new.conn.now)
        → IfOk result (λ mark. (it : Rows) → HoldsTables it (state S.Store tx.old.conn.now).now → mark
        ≡ mark_at site.now (settled_to site.now number it)) }
{
    let mark = mark_in(tx, site)?;
    if number <= mark {
        return Ok(mark);
    }
    set_mark(tx, site, number)?;
    Ok(number)
}

/// Settles a site's runs up to a number in one transaction, and returns the site's mark afterwards.
pub fn settle_site<S: Rising>(
    conn: &mut Connection<S>,
    site: &str,
    number: u64,
) -> Result<u64, Error>
    requires { conn.old.in_transaction ≡ false }
    ensures outside { conn.new.in_transaction ≡ false }
    ensures done { HasCleanDisk (state S.Store conn.new) → OnOk result
        (Commits AnyTables (settled_to site.now number) (state S.Store conn.old) (state S.Store conn.new)) }
    ensures undone { HasCleanDisk (state S.Store conn.new) → IsTrue (state S.Store conn.new).is_open
        → OnErr result (IsTrue (state S.Store conn.old).is_open × ((state S.Store conn.new).committed
        ≡ (state S.Store conn.old).committed)) }
    ensures crash { Survives (state S.Store conn.old) (state S.Store conn.new)
        (MayCommit AnyTables (settled_to site.now number) (state S.Store conn.old)) }
    ensures mark { HasCleanDisk (state S.Store conn.new) → IfOk result (λ mark. (it : Rows)
        → ShowsTables it (state S.Store conn.old).committed
        → mark ≡ mark_at site.now (settled_to site.now number it)) }
{
    let mut tx = begin(conn);
    let mark = settle_in(&mut tx, site, number)?;
    tx.commit()?;
    Ok(mark)
}
