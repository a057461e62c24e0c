//! A library made anew: its rows are put into an empty one in memory, read back and compared, and the bytes of that one are
//! written. What puts them there needs no proof.
ghost use Rattle.std.specs.Prelude.{◌≡◌, ◌⊎◌, IfErr, IfOk, MatchResult};
ghost use Rattle.sqlite.specs.Files.{file_state};
ghost use Rattle.sqlite.specs.Held.{state};
ghost use Rattle.upd_store.specs.Faults.{IsUnopened};
ghost use Rattle.upd_keep.specs.Copying.{HasOnlyRows, IsMadeAnew};
ghost use Rattle.upd_text.specs.declared.fault.FaultKind.TheVariants.{Write};

use crate::copying::backup;
use crate::other_tables::are_same_tables;
use crate::stored_tables::{StoredTables, stored_tables};
use crate::versions::only_version;
use sqlite::{Alter, Connection, Error, ErrorCode, FileStore, Options, Row, Transaction};
use sqlite_disk::{Disk, Files, Memory};
use std::alloc::{AllocError, Global};
use upd_sql::{ILLEGIBLE, rows_of};
use upd_sqlite::{Rising, begin, run};
use upd_store::{SqlStore, fault_of, no_memory, store_at};
use upd_text::{Fault, FaultKind};

/// The tables but `meta`, what their rows are copied by, and the places of their columns. Rows that come by key fill their pages;
/// runs stay in the order in which they were stored.
const TABLES: [(&str, &str, &str); 8] = [
    ("idents", "age", "?1, ?2, ?3, ?4, ?5"),
    ("cards", "ident, num", "?1, ?2, ?3, ?4, ?5"),
    ("entries", "ident, num, ord", "?1, ?2, ?3, ?4, ?5"),
    ("targets", "ident, num, ord", "?1, ?2, ?3, ?4, ?5, ?6"),
    ("runs", "rowid", "?1, ?2, ?3, ?4, ?5, ?6"),
    ("states", "ident, num", "?1, ?2, ?3"),
    ("counts", "kind, target, deck", "?1, ?2, ?3, ?4"),
    ("settled", "site", "?1, ?2"),
];

/// Puts a row into a table.
fn put_row<S: Alter>(
    tx: &mut Transaction<'_, S>,
    alloc: Global,
    sql: &str,
    row: &Row,
) -> Result<(), Error> {
    let mut values = Vec::new(alloc);
    for at in 0..row.column_count() {
        values.push(row.get_ref(at)?)?;
    }
    run(tx, sql, &values)
}

/// Puts rows into a table, in one transaction.
fn put_rows<S: Rising>(
    conn: &mut Connection<S>,
    alloc: Global,
    sql: &str,
    rows: &[Row],
) -> Result<(), Error> {
    if !conn.is_autocommit() {
        return Err(ILLEGIBLE);
    }
    let mut tx = begin(conn);
    for row in rows {
        put_row(&mut tx, alloc, sql, row)?;
    }
    tx.commit()
}

/// The fault of a library in memory: its disk fails only where memory ends.
fn of_memory(fault: Fault) -> Fault
    ensures { IsUnopened fault → IsUnopened result }
{
    match fault.kind {
        FaultKind::Store => no_memory(AllocError),
        _ => fault,
    }
}

/// The error of a database in memory, likewise.
fn in_memory(error: Error) -> Error {
    match error {
        Error::SqliteFailure(ErrorCode::SystemIoFailure | ErrorCode::DiskFull) => {
            Error::SqliteFailure(ErrorCode::OutOfMemory)
        }
        _ => error,
    }
}

/// Puts the rows of a library into an empty one in memory. DatabaseCorrupt where `meta` hasn't just one row.
fn copy_rows<S: Rising, T: Rising>(
    alloc: Global,
    from: &mut Connection<S>,
    to: &mut Connection<T>,
) -> Result<(), Error> {
    if !from.is_autocommit() {
        return Err(ILLEGIBLE);
    }
    only_version(from)?;
    let mut tx = begin(from);
    for (table, key, places) in TABLES {
        let read = format!(in alloc; "SELECT * FROM {table} ORDER BY {key}")?;
        let write = format!(in alloc; "INSERT INTO {table} VALUES ({places})")?;
        let rows = rows_of(&mut tx, read.as_str(), &[])?;
        put_rows(to, alloc, write.as_str(), &rows).map_err(in_memory)?;
    }
    Ok(())
}

/// A library whose tables, read back, are these. Else the fault is Store.
fn compared<S: Rising + Drop>(
    alloc: Global,
    tables: &StoredTables,
    made: Connection<S>,
) -> Result<Connection<S>, Fault>
    ensures same { IfOk result (λ made. HasOnlyRows tables.now (state S.Store made)) }
    ensures unopened { IfErr result IsUnopened }
{
    let mut made = match SqlStore::adopt(made) {
        Ok(made) => made,
        Err((fault, _)) => return Err(fault),
    };
    match stored_tables(alloc, &mut made) {
        Ok(found) => match are_same_tables(alloc, tables, &found) {
            Ok(true) => Ok(made.into_connection()),
            Ok(false) => Err(store_at(0)),
            Err(lost) => Err(no_memory(lost)),
        },
        Err(fault) => Err(fault),
    }
}

/// A library made in an empty database, with the rows of another, which were read before and are compared.
fn made_in<S: Rising, T: Rising + Drop>(
    alloc: Global,
    tables: &StoredTables,
    from: &mut Connection<S>,
    blank: Connection<T>,
) -> Result<Connection<T>, Fault>
    ensures same { IfOk result (λ made. HasOnlyRows tables.now (state T.Store made)) }
    ensures unopened { IfErr result IsUnopened }
{
    let mut made = match SqlStore::init(blank) {
        Ok(store) => store.into_connection(),
        Err((fault, _)) => return Err(of_memory(fault)),
    };
    match copy_rows(alloc, from, &mut made) {
        Ok(()) => compared(alloc, tables, made),
        Err(error) => Err(fault_of(error)),
    }
}

/// A library made in memory, with the rows of another. Its pages have sums.
fn made_anew<S: Rising>(
    alloc: Global,
    tables: StoredTables,
    from: &mut Connection<S>,
) -> Result<Connection<FileStore<Memory>>, Fault>
    ensures same { IfOk result (λ made. HasOnlyRows tables (file_state made)) }
    ensures unopened { IfErr result IsUnopened }
{
    let files = Files {
        log: Memory::new(alloc),
        db: Memory::new(alloc),
    };
    match Connection::open_files_with(alloc, files, Options::new(1), true) {
        Ok(blank) => made_in(alloc, &tables, from, blank),
        Err((error, _)) => Err(fault_of(error)),
    }
}

/// Makes a file that is a library with the rows of another, in the file that `file` names, as `create` would make it: its
/// pages have sums, and no page is free. It is written by `backup`, with its faults. The rows of both are read and compared
/// before; where they differ, as where the library has a row that can't be read, the fault is Store at 0.
pub fn compact<D: Disk + Drop>(
    rt: &HostRuntime,
    library: SqlStore<FileStore<D>>,
    file: &str,
    copy: &str,
) -> Result<(), Fault>
    ensures lost { IfErr result (λ fault. IsUnopened fault ⊎ (fault.kind ≡ Write)) }
    ensures made { MatchResult result (λ _. IsMadeAnew library.conn)
        (λ fault. fault.kind ≡ Write → IsMadeAnew library.conn) }
{
    let mut library = library;
    let tables = match stored_tables(rt.alloc(), &mut library) {
        Ok(tables) => tables,
        Err(fault) => return Err(fault),
    };
    let mut conn = library.into_connection();
    match made_anew(rt.alloc(), tables, &mut conn) {
        Ok(made) => {
            let written = backup(rt, made, file, copy);
            drop(conn);
            written
        }
        Err(fault) => Err(fault),
    }
}
