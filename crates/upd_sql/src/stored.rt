//! What is stored, each read in a transaction of its own. An error is out of memory, a failure of the disk, or a file
//! whose tables or rows are not a library's. None of these calls changes a table.
ghost use Rattle.std.specs.Prelude.{◌≡◌, false};
ghost use Rattle.sqlite.specs.Held.{state};
ghost use Rattle.upd_row_store.specs.Tables.{AreByKey, AreRead, ListsRuns, mark_at, run_at};
ghost use Rattle.upd_sql.specs.Commits.{ReadsTables};
ghost use Rattle.upd_row_store.specs.Assembling.{AreRowsOf};
ghost use Rattle.upd_sql.specs.Part.{AreActiveRows};

use crate::whole::ActiveRows;
use crate::{reads, whole};
use sqlite::{Connection, Error};
use std::alloc::Global;
use upd_core::States;
use upd_records::{LibraryRows, RunRow};
use upd_row_store::StoredRuns;
use upd_sqlite::{Rising, begin};

/// The number up to which a site has settled, 0 where it never did.
pub fn stored_mark<S: Rising>(conn: &mut Connection<S>, site: &str) -> Result<u64, Error>
    requires { conn.old.in_transaction ≡ false }
    ensures { ReadsTables (λ it mark. mark ≡ mark_at site.now it)
        (state S.Store conn.old) (state S.Store conn.new) result }
{
    let mut tx = begin(conn);
    let mark = reads::mark_in(&mut tx, site)?;
    tx.commit()?;
    Ok(mark)
}

/// The run that is stored under a key.
pub fn stored_run<S: Rising>(
    conn: &mut Connection<S>,
    alloc: Global,
    site: &str,
    number: u64,
) -> Result<Option<RunRow>, Error>
    requires { conn.old.in_transaction ≡ false }
    ensures { ReadsTables (λ it run. run ≡ run_at site.now number it)
        (state S.Store conn.old) (state S.Store conn.new) result }
{
    let mut tx = begin(conn);
    let run = reads::run_in(&mut tx, alloc, site, number)?;
    tx.commit()?;
    Ok(run)
}

/// The stored runs and the settled marks, each in the order of its table.
pub fn stored_runs<S: Rising>(conn: &mut Connection<S>, alloc: Global) -> Result<StoredRuns, Error>
    requires { conn.old.in_transaction ≡ false }
    ensures { ReadsTables ListsRuns
        (state S.Store conn.old) (state S.Store conn.new) result }
{
    let mut tx = begin(conn);
    let found = whole::stored_runs_in(&mut tx, alloc)?;
    tx.commit()?;
    Ok(found)
}

/// The rows of the four tables that a library is made of.
pub fn stored_library_rows<S: Rising>(
    conn: &mut Connection<S>,
    alloc: Global,
) -> Result<LibraryRows, Error>
    requires { conn.old.in_transaction ≡ false }
    ensures { ReadsTables AreRowsOf
        (state S.Store conn.old) (state S.Store conn.new) result }
{
    let mut tx = begin(conn);
    let found = whole::library_rows_in(&mut tx, alloc)?;
    tx.commit()?;
    Ok(found)
}

/// The status of each card and the count of each target that a live yank card has, by the keys of their tables.
pub fn stored_states<S: Rising>(conn: &mut Connection<S>, alloc: Global) -> Result<States, Error>
    requires { conn.old.in_transaction ≡ false }
    ensures { ReadsTables (λ it found. AreRead it found × AreByKey found)
        (state S.Store conn.old) (state S.Store conn.new) result }
{
    let mut tx = begin(conn);
    let found = whole::all_states_in(&mut tx, alloc)?;
    tx.commit()?;
    Ok(found)
}

/// The rows that give the active cards.
pub fn stored_active<S: Rising>(
    conn: &mut Connection<S>,
    alloc: Global,
) -> Result<ActiveRows, Error>
    requires { conn.old.in_transaction ≡ false }
    ensures { ReadsTables AreActiveRows
        (state S.Store conn.old) (state S.Store conn.new) result }
{
    let mut tx = begin(conn);
    let found = whole::active_in(&mut tx, alloc)?;
    tx.commit()?;
    Ok(found)
}
