//! Whole tables, each read by one query, but the entries in four parts.
ghost use Rattle.std.specs.Prelude.{◌≡◌, ◌==◌, List, [], filter, map, nat_le};
ghost use Rattle.sqlite_value.specs.Order.{Row as SqlRow};
ghost use Rattle.sqlite.specs.Given.{IsPlain};
ghost use Rattle.sqlite.specs.Held.{state};
ghost use Rattle.sqlite.specs.Listing.{understood};
ghost use Rattle.sqlite.specs.State.{Shown};
ghost use Rattle.sqlite.specs.Values.{bound};
ghost use Rattle.upd_records.specs.Rows.{IsSame, Rows};
ghost use Rattle.upd_row_store.specs.Assembling.{AreRowsOf};
ghost use Rattle.upd_row_store.specs.Tables.{AreByKey, AreRead, ListsRuns, count_pair, state_pair};
ghost use Rattle.upd_sql.specs.Commits.{Inside, IsAnswered, Looks};
ghost use Rattle.upd_sql.specs.LibraryTables.{HoldsTables};
ghost use Rattle.upd_sql.specs.Part.{AreActiveRows};
ghost use Rattle.upd_sql.specs.Schema.{library_schema};

use crate::record::{Record, each};
use crate::{texts, values};
use sqlite::types::ValueRef;
use sqlite::{Alter, Error, Row, Transaction};
use std::alloc::Global;
use upd_core::{CardRef, Ident, States, Target};
use upd_records::{CardRow, EntryRow, LibraryRows, MarkRow, RunRow, StateRow, TargetRow};
use upd_row_store::{StoredRuns, states_by_key};
use upd_sqlite::ask;

/// All idents, cards and statuses.
#[derive(Debug, Drop)]
pub struct ActiveRows {
    pub idents: Vec<Ident>,
    pub cards: Vec<CardRow>,
    pub states: Vec<StateRow>,
}

/// The rows that a query returns.
pub fn rows_of<S: Alter>(
    tx: &mut Transaction<'_, S>,
    sql: &str,
    params: &[ValueRef<'_>],
) -> Result<Vec<Row>, Error>
    ensures { Inside (state S.Store) (IsAnswered (λ rows. rows.items) sql.now (bound params.now)) tx.old.conn tx.new.conn result }
{
    ask(tx, sql, params)
}

/// The records that a query returns.
fn all_of<S: Alter, T: Record + Drop>(
    tx: &mut Transaction<'_, S>,
    alloc: Global,
    sql: &str,
    params: &[ValueRef<'_>],
) -> Result<Vec<T>, Error>
    ensures { (listed : Rows → List T) → IsPlain (understood library_schema sql.now)
        → ((it : Rows) → HoldsTables it (state S.Store tx.old.conn.now).now → (rows : List SqlRow)
        → Shown sql.now (bound params.now) (state S.Store tx.old.conn.now) (state S.Store tx.new.conn.now) rows
        → (kept : List T) × (rows ≡ map T.stored kept) × IsSame kept (listed it))
        → Inside (state S.Store) (Looks (λ it found. IsSame found.items (listed it))) tx.old.conn tx.new.conn result }
{
    let rows = rows_of(tx, sql, params)?;
    each(alloc, &rows)
}

fn idents_in<S: Alter>(tx: &mut Transaction<'_, S>, alloc: Global) -> Result<Vec<Ident>, Error>
    ensures { Inside (state S.Store) (Looks (λ it found. IsSame found.items it.idents)) tx.old.conn tx.new.conn result }
{
    all_of(tx, alloc, texts::ALL_IDENTS, &[])
}

fn cards_in<S: Alter>(tx: &mut Transaction<'_, S>, alloc: Global) -> Result<Vec<CardRow>, Error>
    ensures { Inside (state S.Store) (Looks (λ it found. IsSame found.items it.cards)) tx.old.conn tx.new.conn result }
{
    all_of(tx, alloc, texts::ALL_CARDS, &[])
}

/// The entries at one place of their cards' histories.
fn entries_at<S: Alter>(
    tx: &mut Transaction<'_, S>,
    alloc: Global,
    ord: u32,
) -> Result<Vec<EntryRow>, Error>
    ensures { Inside (state S.Store) (Looks (λ it found. IsSame found.items (filter (λ e. e.ord == ord) it.entries)))
        tx.old.conn tx.new.conn result }
{
    all_of(tx, alloc, texts::ENTRIES_AT, &[values::number(ord)])
}

/// The entries from one place of their cards' histories on.
fn entries_from<S: Alter>(
    tx: &mut Transaction<'_, S>,
    alloc: Global,
    ord: u32,
) -> Result<Vec<EntryRow>, Error>
    ensures { Inside (state S.Store) (Looks (λ it found. IsSame found.items (filter (λ e. nat_le ord e.ord) it.entries)))
        tx.old.conn tx.new.conn result }
{
    all_of(tx, alloc, texts::ENTRIES_FROM, &[values::number(ord)])
}

/// All entries, read in parts: an answer's rows take many times the memory of its entries, and those of one part are let go
/// before the next is asked.
fn entries_in<S: Alter>(tx: &mut Transaction<'_, S>, alloc: Global) -> Result<Vec<EntryRow>, Error>
    ensures { Inside (state S.Store) (Looks (λ it found. IsSame found.items it.entries)) tx.old.conn tx.new.conn result }
{
    let mut found = entries_from(tx, alloc, 3)?;
    for ord in 0..3 {
        let mut part = entries_at(tx, alloc, ord)?;
        found.append(&mut part)?;
    }
    Ok(found)
}

fn targets_in<S: Alter>(tx: &mut Transaction<'_, S>, alloc: Global) -> Result<Vec<TargetRow>, Error>
    ensures { Inside (state S.Store) (Looks (λ it found. IsSame found.items it.targets)) tx.old.conn tx.new.conn result }
{
    all_of(tx, alloc, texts::ALL_TARGETS, &[])
}

fn state_rows_in<S: Alter>(
    tx: &mut Transaction<'_, S>,
    alloc: Global,
) -> Result<Vec<StateRow>, Error>
    ensures { Inside (state S.Store) (Looks (λ it found. IsSame found.items it.states)) tx.old.conn tx.new.conn result }
{
    all_of(tx, alloc, texts::ALL_STATES, &[])
}

fn states_in<S: Alter>(
    tx: &mut Transaction<'_, S>,
    alloc: Global,
) -> Result<Vec<(CardRef, bool)>, Error>
    ensures { Inside (state S.Store) (Looks (λ it found. IsSame found.items (map state_pair it.states)))
        tx.old.conn tx.new.conn result }
{
    all_of(tx, alloc, texts::ALL_STATES, &[])
}

fn counts_in<S: Alter>(
    tx: &mut Transaction<'_, S>,
    alloc: Global,
) -> Result<Vec<(Target, u32)>, Error>
    ensures { Inside (state S.Store) (Looks (λ it found. IsSame found.items (map count_pair it.counts)))
        tx.old.conn tx.new.conn result }
{
    all_of(tx, alloc, texts::ALL_COUNTS, &[])
}

/// The stored runs in the order in which they were stored, inside a transaction.
pub fn runs_in_turn<S: Alter>(
    tx: &mut Transaction<'_, S>,
    alloc: Global,
) -> Result<Vec<RunRow>, Error>
    ensures { Inside (state S.Store) (Looks (λ it found. found.items ≡ it.runs)) tx.old.conn tx.new.conn result }
{
    let rows = rows_of(tx, texts::RUNS_IN_TURN, &[])?;
    each(alloc, &rows)
}

/// The settled marks in the order of their table, inside a transaction.
fn marks_in_turn<S: Alter>(
    tx: &mut Transaction<'_, S>,
    alloc: Global,
) -> Result<Vec<MarkRow>, Error>
    ensures { Inside (state S.Store) (Looks (λ it found. found.items ≡ it.settled)) tx.old.conn tx.new.conn result }
{
    let rows = rows_of(tx, texts::MARKS_IN_TURN, &[])?;
    each(alloc, &rows)
}

/// The stored runs and the settled marks, each in the order of its table, inside a transaction.
pub(crate) fn stored_runs_in<S: Alter>(
    tx: &mut Transaction<'_, S>,
    alloc: Global,
) -> Result<StoredRuns, Error>
    ensures { Inside (state S.Store) (Looks ListsRuns) tx.old.conn tx.new.conn result }
{
    let runs = runs_in_turn(tx, alloc)?;
    let marks = marks_in_turn(tx, alloc)?;
    Ok(StoredRuns { runs, marks })
}

/// The rows of the four tables that a library is made of, inside a transaction.
pub fn library_rows_in<S: Alter>(
    tx: &mut Transaction<'_, S>,
    alloc: Global,
) -> Result<LibraryRows, Error>
    ensures { Inside (state S.Store) (Looks AreRowsOf) tx.old.conn tx.new.conn result }
{
    Ok(LibraryRows {
        idents: idents_in(tx, alloc)?,
        cards: cards_in(tx, alloc)?,
        entries: entries_in(tx, alloc)?,
        targets: targets_in(tx, alloc)?,
    })
}

/// The rows that give the active cards, inside a transaction.
pub(crate) fn active_in<S: Alter>(
    tx: &mut Transaction<'_, S>,
    alloc: Global,
) -> Result<ActiveRows, Error>
    ensures { Inside (state S.Store) (Looks AreActiveRows) tx.old.conn tx.new.conn result }
{
    Ok(ActiveRows {
        idents: idents_in(tx, alloc)?,
        cards: cards_in(tx, alloc)?,
        states: state_rows_in(tx, alloc)?,
    })
}

/// The status of each card and the count of each target that a live yank card has, by the keys of their tables.
pub(crate) fn all_states_in<S: Alter>(
    tx: &mut Transaction<'_, S>,
    alloc: Global,
) -> Result<States, Error>
    ensures { Inside (state S.Store) (Looks (λ it found. AreRead it found × AreByKey found)) tx.old.conn tx.new.conn result }
{
    let states = states_in(tx, alloc)?;
    let counts = counts_in(tx, alloc)?;
    Ok(states_by_key(States { states, counts }))
}
