//! All rows of a library, read of a connection.
ghost use Rattle.std.specs.Prelude.{◌≡◌, false, IfOk, IsTrue, OnOk};
ghost use Rattle.sqlite.specs.Held.{state};
ghost use Rattle.sqlite.specs.State.{HasCleanDisk};
ghost use Rattle.upd_records.specs.Rows.{Rows};
ghost use Rattle.upd_sql.specs.LibraryTables.{ShowsTables};
ghost use Rattle.upd_keep.specs.Examining.{HasOneVersion, Reads};
ghost use Rattle.upd_keep.specs.Replaying.{AreStoredTables};

use crate::stored_tables::StoredTables;
use crate::versions::only_version;
use sqlite::{Connection, Error};
use std::alloc::Global;
use upd_sql::{stored_library_rows, stored_runs, stored_states};
use upd_sqlite::Rising;

/// The rows of the tables that a library is made of, of its statuses and of what it keeps of sites. Nothing changes.
fn all_but_version<S: Rising>(
    conn: &mut Connection<S>,
    alloc: Global,
) -> Result<StoredTables, Error>
    requires { conn.old.in_transaction ≡ false }
    ensures outside { conn.new.in_transaction ≡ false }
    ensures open { HasCleanDisk (state S.Store conn.new) → OnOk result (IsTrue (state S.Store conn.old).is_open) }
    ensures reads { Reads (state S.Store conn.old) (state S.Store conn.new) }
    ensures found { HasCleanDisk (state S.Store conn.new) → IfOk result
        (λ all. (it : Rows) → ShowsTables it (state S.Store conn.old).committed → AreStoredTables it all) }
{
    let library = stored_library_rows(conn, alloc)?;
    let states = stored_states(conn, alloc)?;
    let kept = stored_runs(conn, alloc)?;
    Ok(StoredTables {
        library,
        states,
        kept,
    })
}

/// The rows of all tables of a library. DatabaseCorrupt where `meta` hasn't just one row. Nothing changes.
pub(crate) fn all_rows<S: Rising>(
    conn: &mut Connection<S>,
    alloc: Global,
) -> Result<StoredTables, Error>
    requires { conn.old.in_transaction ≡ false }
    ensures outside { conn.new.in_transaction ≡ false }
    ensures one { HasCleanDisk (state S.Store conn.new)
        → IfOk result (λ _. HasOneVersion (state S.Store conn.old).committed) }
    ensures reads { Reads (state S.Store conn.old) (state S.Store conn.new) }
    ensures found { HasCleanDisk (state S.Store conn.new) → IfOk result
        (λ all. (it : Rows) → ShowsTables it (state S.Store conn.old).committed → AreStoredTables it all) }
{
    only_version(conn)?;
    all_but_version(conn, alloc)
}
