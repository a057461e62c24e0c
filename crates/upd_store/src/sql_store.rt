//! The library in the tables of a connection.
ghost use Rattle.std.specs.Prelude.{◌≡◌, ◌⊎◌, ℕ, false, IfErr, IfOk, IsTrue};
ghost use Rattle.sqlite.specs.Held.{state};
ghost use Rattle.sqlite.specs.State.{HasCleanDisk, Survives};
ghost use Rattle.upd_sql.specs.Making.{no_rows};
ghost use Rattle.upd_sql.specs.Schema.{library_schema, no_schema};
ghost use Rattle.upd_sql.specs.LibraryTables.{ShowsTables};
ghost use Rattle.upd_store.specs.Beginning.{MayBegin};
ghost use Rattle.upd_store.specs.Faults.{IsUnopened};
ghost use Rattle.upd_store.specs.Version.{HasVersion};

use crate::store_faults::{fault_of, store_at, version_fault};
use crate::version::version_of;
use sqlite::Connection;
use upd_sql::{is_library_schema, is_no_schema, make_library};
use upd_sqlite::{Rising, committed_schema};
use upd_text::Fault;

/// The version of the schema.
const VERSION: u32 = 3;

/// The library in the tables of a connection, which is in no transaction.
pub struct SqlStore<S: Rising> {
    pub(crate) conn: Connection<S>,
    pub(crate) failures: u64,
    /// The number of decks that were loaded.
    pub(crate) decks_read: u64,
    ghost outside: { conn.in_transaction ≡ false },
}

// By hand: see CONTRIBUTING.md.
impl<S: Rising + Drop> Drop for SqlStore<S> {
    fn drop(self) {
        let SqlStore {
            conn: _,
            failures: _,
            decks_read: _,
        } = self;
    }
}

impl<S: Rising> SqlStore<S> {
    /// Takes a connection to a library's file. Where the file is not a library's the fault is Store, at the version in
    /// the file, 0 where it has none. Inside a transaction it is Store at 0, and out of memory is NoMemory at 0. The
    /// connection is returned with the fault. Nothing is written.
    pub fn adopt(mut conn: Connection<S>) -> Result<SqlStore<S>, (Fault, Connection<S>)>
        ensures ours { IfOk result (λ s. HasCleanDisk (state S.Store s.conn) → IsTrue (state S.Store s.conn).is_open
            → (state S.Store s.conn).committed.schema ≡ library_schema) }
        ensures same { IfOk result (λ s. HasCleanDisk (state S.Store s.conn) → IsTrue (state S.Store s.conn).is_open
            → (state S.Store s.conn).committed ≡ (state S.Store conn).committed) }
        ensures survives { IfOk result (λ s. Survives (state S.Store conn) (state S.Store s.conn) (λ _. ⊥)) }
        ensures same_back { IfErr result (λ e. HasCleanDisk (state S.Store e.1) → IsTrue (state S.Store e.1).is_open
            → (state S.Store e.1).committed ≡ (state S.Store conn).committed) }
        ensures survives_back { IfErr result (λ e. Survives (state S.Store conn) (state S.Store e.1) (λ _. ⊥)) }
        ensures counts { IfOk result (λ s. (s.failures ≡ 0) × (s.decks_read ≡ 0)) }
        ensures unopened { IfErr result (λ e. IsUnopened e.0) }
        ensures third { IfOk result (λ s. HasCleanDisk (state S.Store s.conn) → (v : ℕ)
            → HasVersion v (state S.Store conn).committed → v ≡ 3) }
        ensures version { IfErr result (λ e. HasCleanDisk (state S.Store e.1) → (v : ℕ)
            → HasVersion v (state S.Store conn).committed → (e.0.at ≡ v) ⊎ (e.0.at ≡ 0)) }
    {
        if !conn.is_autocommit() {
            return Err((store_at(0), conn));
        }
        let version = match version_of(&mut conn) {
            Ok(version) => version,
            Err(error) => return Err((fault_of(error), conn)),
        };
        if version != VERSION || !is_library_schema(committed_schema(&conn)) {
            return Err((store_at(version), conn));
        }
        Ok(SqlStore {
            conn,
            failures: 0,
            decks_read: 0,
        })
    }

    /// Makes the tables of an empty library. Where there is any table the fault is Store, at the version in the file, 0
    /// where it has none. Inside a transaction it is Store at 0, and out of memory is NoMemory at 0. The connection is
    /// returned with the fault.
    pub fn init(mut conn: Connection<S>) -> Result<SqlStore<S>, (Fault, Connection<S>)>
        ensures shows { IfOk result (λ s. HasCleanDisk (state S.Store s.conn)
            → IsTrue (state S.Store s.conn).is_open × ShowsTables no_rows (state S.Store s.conn).committed) }
        ensures survives { IfOk result (λ s. Survives (state S.Store conn) (state S.Store s.conn)
            (MayBegin (state S.Store conn))) }
        ensures same_back { IfErr result (λ e. HasCleanDisk (state S.Store e.1) → IsTrue (state S.Store e.1).is_open
            → (state S.Store e.1).committed ≡ (state S.Store conn).committed) }
        ensures survives_back { IfErr result (λ e. Survives (state S.Store conn) (state S.Store e.1)
            (MayBegin (state S.Store conn))) }
        ensures counts { IfOk result (λ s. (s.failures ≡ 0) × (s.decks_read ≡ 0)) }
        ensures unopened { IfErr result (λ e. IsUnopened e.0) }
        ensures empty { IfOk result (λ s. HasCleanDisk (state S.Store s.conn)
            → (state S.Store conn).committed.schema ≡ no_schema) }
        ensures version { IfErr result (λ e. HasCleanDisk (state S.Store e.1) → (v : ℕ)
            → HasVersion v (state S.Store conn).committed → (e.0.at ≡ v) ⊎ (e.0.at ≡ 0)) }
    {
        if !conn.is_autocommit() {
            return Err((store_at(0), conn));
        }
        if !is_no_schema(conn.schema()) {
            let found = version_of(&mut conn);
            return Err((version_fault(found), conn));
        }
        match make_library(&mut conn) {
            Ok(()) => Ok(SqlStore {
                conn,
                failures: 0,
                decks_read: 0,
            }),
            Err(error) => Err((fault_of(error), conn)),
        }
    }

    /// Returns the connection. Nothing is written.
    pub fn into_connection(self) -> Connection<S>
        ensures { result ≡ self.conn }
    {
        let SqlStore {
            conn,
            failures: _,
            decks_read: _,
        } = self;
        conn
    }
}
