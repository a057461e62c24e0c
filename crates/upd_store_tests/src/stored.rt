//! Runs over tables of SQLite, and databases that hold no library.
use crate::empty_stores::{Fresh, Tables, adopted, refused};
use sqlite::Connection;
use std::alloc::Global;
use std::test::Fail;
use upd_row_store::RowStore;
use upd_store::SqlStore;
use upd_testkit::asks::Ask;
use upd_testkit::check::{holds, same};
use upd_testkit::session::Session;

const DECK_A: &str = "*DECK A\nONE\nTWO\nTHREE\n";

const DECK_B: &str = "*DECK B\nBEE \"quoted\" \\ \tend\n";

const REPLACED: &str = "*IDENT X\n*DELETE A.2\nNEW\n";

const RUNS: &[&str] = &[DECK_A, DECK_B, REPLACED, "*IDENT Y\n*YANK X\n"];

const LISTINGS: &[Ask<'static>] = &[Ask::Idents, Ask::Deck("A"), Ask::Deck("B"), Ask::Yanks];

/// The same library, adopted again.
fn again(store: Tables) -> Result<Tables, Fail> {
    adopted(store.into_connection())
}

/// The library after these runs, numbered from 1, with the listings that the reference desk has. It is adopted again
/// after each run.
fn stored(alloc: Global, runs: &[&str]) -> Result<Tables, Fail> {
    let mut session = Session::new(alloc, Tables::fresh(alloc)?);
    for (number, run) in (1..).zip(runs) {
        session.ask(Ask::Lyon(number, "full", run))?;
        session = Session::over(again(session.desk.close())?, session.reference);
    }
    session.ask_all(LISTINGS)?;
    Ok(session.desk.close())
}

/// The run of this number is stored with these bytes.
fn stores(alloc: Global, store: &mut Tables, number: u64, wanted: &str) -> Result<(), Fail> {
    let run = store.kept_run(alloc, "LYON", number)?.ok_or("no run")?;
    same(number, run.bytes.as_slice(), wanted.as_bytes())
}

fn stores_none(alloc: Global, store: &mut Tables, number: u64) -> Result<(), Fail> {
    holds(number, store.kept_run(alloc, "LYON", number)?.is_none())
}

#[test]
fn what_runs_leave_is_stored(rt: HostRuntime) -> Result<(), Fail> {
    let mut store = stored(rt.alloc(), RUNS)?;
    stores(rt.alloc(), &mut store, 3, REPLACED)?;
    stores_none(rt.alloc(), &mut store, 5)?;
    same("failures", store.failures(), 0)
}

/// The marks that a site's settlements answer.
fn settled(alloc: Global, store: &mut Tables) -> Result<[u64; 4], Fail> {
    Ok([
        store.mark(alloc, "LYON")?,
        store.settle_to(alloc, "LYON", 1)?,
        store.settle_to(alloc, "LYON", 1)?,
        store.settle_to(alloc, "PARIS", 7)?,
    ])
}

#[test]
fn settled_runs_are_removed(rt: HostRuntime) -> Result<(), Fail> {
    let mut store = stored(rt.alloc(), &[DECK_A, DECK_B])?;
    same("the marks", settled(rt.alloc(), &mut store)?, [0, 1, 1, 7])?;
    let mut store = again(store)?;
    same("the mark", store.mark(rt.alloc(), "LYON")?, 1)?;
    stores_none(rt.alloc(), &mut store, 1)?;
    stores(rt.alloc(), &mut store, 2, DECK_B)
}

/// Changes of a library, and the version at which it is refused then.
const OTHERS: [(&str, u32); 2] = [
    ("DELETE FROM meta", 0),
    ("CREATE TABLE other (k INTEGER PRIMARY KEY) STRICT", 3),
];

/// A changed library is neither adopted nor made again.
fn is_refused(alloc: Global, change: &str, at: u32) -> Result<(), Fail> {
    let mut conn = Tables::fresh(alloc)?.into_connection();
    conn.execute(change, &[])?;
    let conn = refused(SqlStore::adopt(conn), at)?;
    refused(SqlStore::init(conn), at)?;
    Ok(())
}

#[test]
fn a_library_is_made_once(rt: HostRuntime) -> Result<(), Fail> {
    let conn = Tables::fresh(rt.alloc())?.into_connection();
    refused(SqlStore::init(conn), 3)?;
    Ok(())
}

#[test]
fn other_databases_are_refused(rt: HostRuntime) -> Result<(), Fail> {
    refused(SqlStore::adopt(Connection::open_in_memory(rt.alloc())?), 0)?;
    for (change, at) in OTHERS {
        is_refused(rt.alloc(), change, at)?;
    }
    Ok(())
}
