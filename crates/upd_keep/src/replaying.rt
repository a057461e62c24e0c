//! The stored runs of a library, handed in again at an empty library: whether they make the same library.
ghost use Rattle.std.specs.Prelude.{◌≡◌, IfErr, IfOk};
ghost use Rattle.upd_records.specs.Rows.{Rows};
ghost use Rattle.upd_row_store.specs.Keeping.{IsLost};
ghost use Rattle.upd_keep.specs.Replaying.{AreStoredTables, IsSaidOf, Replays, replayed_line, run_line, settled_line, table_line};

use crate::other_tables::other_table;
use crate::stored_replies::first_parting;
use crate::stored_tables::{StoredTables, stored_tables};
use itoa::Buffer;
use std::alloc::{AllocError, Global};
use upd_desk::Desk;
use upd_memory::ListStore;
use upd_records::RunRow;
use upd_row_store::RowStore;
use upd_text::Fault;

/// What the stored runs of a library make of an empty one.
#[derive(Debug, Drop)]
pub enum Replayed {
    /// The same library, with the same replies. The line has the number of runs.
    Same(Vec<u8>),
    /// Another one, or runs are settled. The line says which run or which table is another.
    Other(Vec<u8>),
}

/// Hands in the stored runs of a library at an empty library in memory, in the order in which they were stored, and compares
/// replies and tables. The store is only read, and let go before the first run. The fault is NoMemory or Store, at 0.
pub fn replay_store<S: RowStore + Drop>(alloc: Global, store: S) -> Result<Replayed, Fault>
    ensures { (last : S) × Replays S.Meaning result store last }
{
    let mut store = store;
    match stored_tables(alloc, &mut store) {
        Ok(tables) => {
            drop(store);
            replay_tables(alloc, tables)
        }
        Err(fault) => Err(fault),
    }
}

/// What the runs of tables make of an empty library. What is done with is let go: each run before the next one, and the
/// library that they make before its rows are compared.
fn replay_tables(alloc: Global, tables: StoredTables) -> Result<Replayed, Fault>
    ensures said { IfOk result (λ said. (it : Rows) → AreStoredTables it tables → IsSaidOf it said) }
    ensures lost { IfErr result IsLost }
{
    let StoredTables {
        library,
        states,
        kept,
    } = tables;
    if !kept.marks.is_empty() {
        return Ok(Replayed::Other(settled_line(alloc)?));
    }
    let count = kept.runs.len();
    let mut desk = Desk::open(ListStore::new(alloc));
    if let Some(run) = first_parting(&mut desk, alloc, kept.runs)? {
        return Ok(Replayed::Other(run_line(alloc, &run)?));
    }
    match other_table(alloc, library, states, desk.close())? {
        Some(table) => Ok(Replayed::Other(table_line(alloc, table)?)),
        None => Ok(Replayed::Same(replayed_line(alloc, count)?)),
    }
}

fn settled_line(alloc: Global) -> Result<Vec<u8>, AllocError>
    ensures { IfOk result (λ line. line.items ≡ settled_line) }
{
    Vec::from_slice(
        alloc,
        b"upd: runs are settled, so the library can't be replayed\n",
    )
}

/// The line of a run with another reply.
fn run_line(alloc: Global, run: &RunRow) -> Result<Vec<u8>, AllocError>
    ensures { IfOk result (λ line. line.items ≡ run_line run.now) }
{
    let mut line = Vec::from_slice(alloc, b"upd: run ")?;
    line.extend_from_slice(run.site.as_bytes())?;
    line.extend_from_slice(b" ")?;
    line.extend_from_slice(Buffer::new().format(run.number).as_bytes())?;
    line.extend_from_slice(b": the reply is another\n")?;
    Ok(line)
}

/// The line of a table with other rows.
fn table_line(alloc: Global, table: &str) -> Result<Vec<u8>, AllocError>
    ensures { IfOk result (λ line. line.items ≡ table_line table.now) }
{
    let mut line = Vec::from_slice(alloc, b"upd: the tables are others: ")?;
    line.extend_from_slice(table.as_bytes())?;
    line.extend_from_slice(b"\n")?;
    Ok(line)
}

/// The line of this number of runs that make the same library.
fn replayed_line(alloc: Global, runs: usize) -> Result<Vec<u8>, AllocError>
    ensures { IfOk result (λ line. line.items ≡ replayed_line runs) }
{
    let mut line = Vec::from_slice(alloc, b"replayed: runs ")?;
    line.extend_from_slice(Buffer::new().format(runs).as_bytes())?;
    line.extend_from_slice(b"\n")?;
    Ok(line)
}
