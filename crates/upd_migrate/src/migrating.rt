//! Migration of a file to the present schema.
ghost use Rattle.std.specs.Prelude.{◌≡◌, ◌⊎◌, ℕ, false, IfErr, IsTrue, OnErr, OnOk};
ghost use Rattle.sqlite.specs.Held.{state};
ghost use Rattle.sqlite.specs.State.{HasCleanDisk, Survives};
ghost use Rattle.upd_sql.specs.Schema.{library_schema};
ghost use Rattle.upd_store.specs.Faults.{IsUnopened};
ghost use Rattle.upd_store.specs.Version.{HasVersion};
ghost use Rattle.upd_migrate.specs.Migrated.{HasKnown, MayMigrate, MayMigrateFrom, Migrates, MigratesFrom};

use crate::filling::fill;
use crate::older_version::{Version, known_version};
use sqlite::{Connection, Error};
use std::alloc::Global;
use upd_sqlite::{Rising, begin};
use upd_store::{fault_of, store_at};
use upd_text::Fault;

/// Migrates a file of a version to the present schema, in one transaction.
fn migrate_from<S: Rising>(
    conn: &mut Connection<S>,
    alloc: Global,
    version: Version,
) -> Result<(), Error>
    requires { conn.old.in_transaction ≡ false }
    ensures outside { conn.new.in_transaction ≡ false }
    ensures done { HasCleanDisk (state S.Store conn.new) → OnOk result (IsTrue (state S.Store conn.new).is_open
        × IsTrue (state S.Store conn.old).is_open
        × MigratesFrom version (state S.Store conn.old) (state S.Store conn.new)) }
    ensures undone { HasCleanDisk (state S.Store conn.new) → IsTrue (state S.Store conn.new).is_open → OnErr result
        (IsTrue (state S.Store conn.old).is_open × ((state S.Store conn.new).committed
        ≡ (state S.Store conn.old).committed)) }
    ensures crash { Survives (state S.Store conn.old) (state S.Store conn.new)
        (MayMigrateFrom version (state S.Store conn.old)) }
{
    let mut tx = begin(conn);
    fill(&mut tx, alloc, version)?;
    tx.commit()
}

/// Migrates a file of an older schema to the present one, in one transaction. The missing tables are made; statuses and
/// counts are those of the library in the file, and nothing is settled. No other row is written. A file of the present
/// schema is not changed.
///
/// Where the file has no schema of the library's the fault is Store, at the version in the file, 0 where it has none.
/// After a fault the connection shows the file as before.
pub fn migrate<S: Rising>(alloc: Global, conn: &mut Connection<S>) -> Result<(), Fault>
    ensures done { HasCleanDisk (state S.Store conn.new) → IsTrue (state S.Store conn.new).is_open
        → OnOk result (Migrates (state S.Store conn.old) (state S.Store conn.new)) }
    ensures known { HasCleanDisk (state S.Store conn.new) → IsTrue (state S.Store conn.new).is_open
        → OnOk result (HasKnown (state S.Store conn.old).committed) }
    ensures present { HasCleanDisk (state S.Store conn.new) → IsTrue (state S.Store conn.new).is_open
        → (state S.Store conn.old).committed.schema ≡ library_schema
        → (state S.Store conn.new).committed ≡ (state S.Store conn.old).committed }
    ensures undone { HasCleanDisk (state S.Store conn.new) → IsTrue (state S.Store conn.new).is_open → OnErr result
        ((state S.Store conn.new).committed ≡ (state S.Store conn.old).committed) }
    ensures version { IfErr result (λ e. HasCleanDisk (state S.Store conn.new) → (v : ℕ)
        → HasVersion v (state S.Store conn.old).committed → (e.at ≡ v) ⊎ (e.at ≡ 0)) }
    ensures mode { conn.new.in_transaction ≡ conn.old.in_transaction }
    ensures crash { Survives (state S.Store conn.old) (state S.Store conn.new) (MayMigrate (state S.Store conn.old)) }
    ensures unopened { IfErr result IsUnopened }
{
    if !conn.is_autocommit() {
        return Err(store_at(0));
    }
    let version = known_version(conn)?;
    if matches!(version, Version::Third) {
        return Ok(());
    }
    match migrate_from(conn, alloc, version) {
        Ok(()) => Ok(()),
        Err(error) => Err(fault_of(error)),
    }
}
