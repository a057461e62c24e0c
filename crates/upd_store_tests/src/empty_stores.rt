//! Empty libraries in memory.
use sqlite::{Connection, MemStore};
use std::alloc::Global;
use std::test::Fail;
use upd_memory::{ListStore, MirrorStore};
use upd_row_store::RowStore;
use upd_store::SqlStore;
use upd_testkit::check::same;
use upd_testkit::session::Session;
use upd_text::{Fault, FaultKind};

/// A library in tables of SQLite, in memory.
pub type Tables = SqlStore<MemStore>;

/// What comes of a connection that becomes a library, or is adopted as one.
pub type Taken = Result<Tables, (Fault, Connection<MemStore>)>;

fn taken(store: Taken) -> Result<Tables, Fail> {
    match store {
        Ok(store) => Ok(store),
        Err((fault, _)) => Err(fault.into()),
    }
}

/// The library that a connection holds.
pub fn adopted(conn: Connection<MemStore>) -> Result<Tables, Fail> {
    taken(SqlStore::adopt(conn))
}

/// No library comes of a connection, for Store at this version; the connection comes back.
pub fn refused(taken: Taken, at: u32) -> Result<Connection<MemStore>, Fail> {
    match taken {
        Ok(_) => Err("there is a library".into()),
        Err((fault, conn)) => {
            let kind = FaultKind::Store;
            same("the fault", fault, Fault { kind, at })?;
            Ok(conn)
        }
    }
}

/// A store that can be made empty.
pub trait Fresh: RowStore + Drop {
    /// The store of an empty library.
    fn fresh(alloc: Global) -> Result<Self, Fail>;
}

impl Fresh for ListStore {
    fn fresh(alloc: Global) -> Result<ListStore, Fail> {
        Ok(ListStore::new(alloc))
    }
}

impl Fresh for SqlStore<MemStore> {
    fn fresh(alloc: Global) -> Result<SqlStore<MemStore>, Fail> {
        taken(SqlStore::init(Connection::open_in_memory(alloc)?))
    }
}

impl<S: Fresh> Fresh for MirrorStore<S> {
    fn fresh(alloc: Global) -> Result<MirrorStore<S>, Fail> {
        Ok(MirrorStore::new(S::fresh(alloc)?))
    }
}

/// A desk over an empty library, beside the reference desk.
pub fn fresh_session<S: Fresh>(alloc: Global) -> Result<Session<S>, Fail> {
    Ok(Session::new(alloc, S::fresh(alloc)?))
}
