//! What the kit's stores keep in order: the rows of each table of the last commit are in rising order of their rowids.
//!
//! No clause of a connection says so, and what INSERT and DELETE do to a table, row by row, rests on it. Here it is a
//! law of the store, true of the store over files and of the one in memory, so that nothing has to be read again to
//! know it of a connection in hand.
ghost use Rattle.std.specs.Prelude.{◌≡◌, false, true, IsTrue};
ghost use Rattle.sqlite.specs.Held.{state};
ghost use Rattle.upd_sqlite.specs.Rising.{Rises, TablesRise};

use sqlite::{Alter, Connection, FileStore, MemStore, Transaction};
use sqlite_disk::Disk;
use sqlite_schema::schema::Schema;

/// A store whose last commit is in order while it is open.
pub trait Rising: Alter {
    ghost rises: { (s : Self) → IsTrue (Self.Store.view s).is_open → Rises (Self.Store.view s) };
}

impl<D: Disk> Rising for FileStore<D> {
    ghost use Rattle.upd_sqlite.specs.RisingStores.{file_rises};

    ghost rises = { file_rises };
}

impl Rising for MemStore {
    ghost use Rattle.upd_sqlite.specs.RisingStores.{memory_rises};

    ghost rises = { λ s _. memory_rises s };
}

/// Begins a transaction. It sees the tables of the last commit, which are in order.
pub fn begin<S: Rising>(conn: &mut Connection<S>) -> Transaction<'_, S>
    requires { conn.old.in_transaction ≡ false }
    ensures same_reference { result.conn.ghost_name ≡ conn.entry.ghost_name }
    ensures begun { result.conn.now ≡ record conn.old { in_transaction = true } }
    ensures settled { IsTrue (state S.Store conn.old).is_open
        → (state S.Store conn.old).now ≡ (state S.Store conn.old).committed }
    ensures rise { IsTrue (state S.Store conn.old).is_open → TablesRise (state S.Store conn.old).now }
{
    // Both calls only read. The contract of the first says that no change is pending, that of the second that what
    // is committed is a database.
    let _outside = conn.is_autocommit();
    let _live = conn.schema();
    conn.transaction()
}

/// The schema of the last commit.
pub fn committed_schema<S: Alter>(conn: &Connection<S>) -> &Schema
    requires { conn.now.in_transaction ≡ false }
    ensures { IsTrue (state S.Store conn.now).is_open → result.now ≡ (state S.Store conn.now).committed.schema }
{
    // Its contract says that no change is pending.
    let _outside = conn.is_autocommit();
    conn.schema()
}
