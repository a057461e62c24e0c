//! Which schema a file has.
ghost use Rattle.std.specs.Prelude.{◌≡◌, ◌≤◌, ◌⊎◌, ℕ, false, IfErr, IfOk, IfSome, IsTrue};
ghost use Rattle.sqlite.specs.Held.{state};
ghost use Rattle.sqlite.specs.State.{HasCleanDisk, Survives};
ghost use Rattle.upd_store.specs.Faults.{IsUnopened};
ghost use Rattle.upd_store.specs.Version.{HasVersion};
ghost use Rattle.upd_migrate.specs.Older.{number_of, schema_of, tables_of};

use sqlite::Connection;
use sqlite_schema::schema::Schema;
use upd_sql::has_first_tables;
use upd_sqlite::{Rising, committed_schema};
use upd_store::{fault_of, store_at, version_of};
use upd_text::Fault;

/// A version of the schema. The third is the present one.
#[derive(Clone, Copy, Debug)]
pub enum Version {
    First,
    Second,
    Third,
}

/// The number of tables of a version.
fn table_count(version: Version) -> usize
    ensures value { result ≡ tables_of version }
    ensures few { result ≤ 9 }
{
    match version {
        Version::First => 6,
        Version::Second => 8,
        Version::Third => 9,
    }
}

/// The version of a number, where the schema has its tables and nothing else.
fn version_with(number: u32, schema: &Schema) -> Option<Version>
    ensures schema { IfSome result (λ version. schema.now ≡ schema_of version) }
    ensures number { IfSome result (λ version. number ≡ number_of version) }
{
    let version = match number {
        1 => Version::First,
        2 => Version::Second,
        3 => Version::Third,
        _ => return None,
    };
    if has_first_tables(schema, table_count(version)) {
        Some(version)
    } else {
        None
    }
}

/// The version in a file that also has the tables of this version. Else the fault is Store, at the version in the file,
/// 0 where it has none. Nothing is written.
pub(crate) fn known_version<S: Rising>(conn: &mut Connection<S>) -> Result<Version, Fault>
    requires { conn.old.in_transaction ≡ false }
    ensures outside { conn.new.in_transaction ≡ false }
    ensures found { IfOk result (λ version. IsTrue (state S.Store conn.new).is_open
        → (state S.Store conn.new).committed.schema ≡ schema_of version) }
    ensures value { IfOk result (λ version. HasCleanDisk (state S.Store conn.new) → (v : ℕ)
        → HasVersion v (state S.Store conn.old).committed → v ≡ number_of version) }
    ensures fault { IfErr result (λ e. HasCleanDisk (state S.Store conn.new) → (v : ℕ)
        → HasVersion v (state S.Store conn.old).committed → (e.at ≡ v) ⊎ (e.at ≡ 0)) }
    ensures was_open { HasCleanDisk (state S.Store conn.new) → IsTrue (state S.Store conn.new).is_open
        → IsTrue (state S.Store conn.old).is_open }
    ensures same { HasCleanDisk (state S.Store conn.new) → IsTrue (state S.Store conn.new).is_open
        → (state S.Store conn.new).committed ≡ (state S.Store conn.old).committed }
    ensures survives { Survives (state S.Store conn.old) (state S.Store conn.new) (λ _. ⊥) }
    ensures unopened { IfErr result IsUnopened }
{
    let number = match version_of(conn) {
        Ok(number) => number,
        Err(error) => return Err(fault_of(error)),
    };
    match version_with(number, committed_schema(conn)) {
        Some(version) => Ok(version),
        None => Err(store_at(number)),
    }
}
