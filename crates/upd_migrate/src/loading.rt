//! The library in the tables of a file, whichever schema it has.
ghost use Rattle.std.specs.Prelude.{◌≡◌, ◌⊎◌, ℕ, false, IfErr, IfOk, IsTrue};
ghost use Rattle.sqlite.specs.Held.{state};
ghost use Rattle.sqlite.specs.State.{HasCleanDisk, Survives};
ghost use Rattle.upd_core.specs.Library.{LibraryView};
ghost use Rattle.upd_records.specs.Rows.{Rows};
ghost use Rattle.upd_row_store.specs.Assembling.{AreRowsOf};
ghost use Rattle.upd_store.specs.Faults.{IsUnopened};
ghost use Rattle.upd_store.specs.Version.{HasVersion};
ghost use Rattle.upd_migrate.specs.Migrated.{AreLibraryRows};
ghost use Rattle.upd_migrate.specs.Older.{ShowsAs};
ghost use Rattle.upd_migrate.specs.declared.older_version.Version.{Version};

use crate::completing::complete;
use crate::older_version::{Version, known_version};
use sqlite::{Connection, Error};
use std::alloc::Global;
use upd_core::Library;
use upd_records::LibraryRows;
use upd_row_store::assembled;
use upd_sql::library_rows_in;
use upd_sqlite::{Rising, begin};
use upd_store::{fault_of, no_memory, store_at};
use upd_text::Fault;

/// The rows of the four tables that a library is made of, read in a transaction that is rolled back.
fn rows_of<S: Rising>(
    conn: &mut Connection<S>,
    alloc: Global,
    version: Version,
) -> Result<LibraryRows, Error>
    requires { conn.old.in_transaction ≡ false }
    ensures outside { conn.new.in_transaction ≡ false }
    ensures was_open { HasCleanDisk (state S.Store conn.new) → IsTrue (state S.Store conn.new).is_open
        → IsTrue (state S.Store conn.old).is_open }
    ensures same { HasCleanDisk (state S.Store conn.new) → IsTrue (state S.Store conn.new).is_open
        → (state S.Store conn.new).committed ≡ (state S.Store conn.old).committed }
    ensures survives { Survives (state S.Store conn.old) (state S.Store conn.new) (λ _. ⊥) }
    ensures found { HasCleanDisk (state S.Store conn.new) → IfOk result (λ found. (it : Rows)
        → ShowsAs version it (state S.Store conn.old).committed → AreRowsOf it found) }
{
    let mut tx = begin(conn);
    complete(&mut tx, version)?;
    let found = library_rows_in(&mut tx, alloc)?;
    tx.rollback();
    Ok(found)
}

/// The library in the tables of a file, of the present schema or an older one. No row is changed. Where the file has no
/// schema of the library's the fault is Store, at the version in the file, 0 where it has none.
pub fn load_rows<S: Rising>(alloc: Global, conn: &mut Connection<S>) -> Result<Library, Fault>
    ensures shown { HasCleanDisk (state S.Store conn.new) → IsTrue (state S.Store conn.new).is_open → IfOk result
        (λ library. (version : Version) (l : LibraryView) (rows : Rows) → AreLibraryRows l rows
        → ShowsAs version rows (state S.Store conn.old).committed → library ≡ l) }
    ensures same { HasCleanDisk (state S.Store conn.new) → IsTrue (state S.Store conn.new).is_open
        → (state S.Store conn.new).committed ≡ (state S.Store conn.old).committed }
    ensures version { IfErr result (λ e. HasCleanDisk (state S.Store conn.new) → (v : ℕ)
        → HasVersion v (state S.Store conn.old).committed → (e.at ≡ v) ⊎ (e.at ≡ 0)) }
    ensures mode { conn.new.in_transaction ≡ conn.old.in_transaction }
    ensures survives { Survives (state S.Store conn.old) (state S.Store conn.new) (λ _. ⊥) }
    ensures unopened { IfErr result IsUnopened }
{
    if !conn.is_autocommit() {
        return Err(store_at(0));
    }
    let version = known_version(conn)?;
    match rows_of(conn, alloc, version) {
        Ok(rows) => match assembled(alloc, rows) {
            Ok(library) => Ok(library),
            Err(lost) => Err(no_memory(lost)),
        },
        Err(error) => Err(fault_of(error)),
    }
}
