//! The rows of a library's tables, as text.
use crate::file_changes::connected;
use sqlite::types::ValueRef;
use sqlite::{Alter, Connection, FileStore, Row};
use sqlite_disk::Disk;
use std::alloc::Global;
use std::test::Fail;
use upd_testkit::check::same_text;
use upd_testkit::reference_rows::joined;

const TABLES: [&str; 9] = [
    "meta", "idents", "cards", "entries", "targets", "runs", "states", "counts", "settled",
];

/// The file of a library has these rows in all its tables: sorted lines, each with a table and its values.
pub fn has_rows(rt: &HostRuntime, file: &str, wanted: &str) -> Result<(), Fail> {
    let found = rows_and_close(rt.alloc(), connected(rt, file)?)?;
    same_text("the rows", &found, wanted)
}

fn rows_and_close<D: Disk + Drop>(
    alloc: Global,
    mut conn: Connection<FileStore<D>>,
) -> Result<String, Fail> {
    let rows = rows_of(alloc, &mut conn)?;
    conn.close()?;
    Ok(rows)
}

fn rows_of<S: Alter>(alloc: Global, conn: &mut Connection<S>) -> Result<String, Fail> {
    let mut lines = Vec::new(alloc);
    for table in TABLES {
        let query = format!(in alloc; "SELECT * FROM {table}")?;
        add_rows(&mut lines, table, &conn.query_all(&query, &[])?)?;
    }
    joined(alloc, lines)
}

fn add_rows(lines: &mut Vec<String>, table: &str, rows: &[Row]) -> Result<(), Fail> {
    for row in rows {
        let mut line = String::from_str(*lines.allocator(), table)?;
        for at in 0..row.column_count() {
            add_value(&mut line, row.get_ref(at)?)?;
        }
        lines.push(line)?;
    }
    Ok(())
}

fn add_value(line: &mut String, value: ValueRef<'_>) -> Result<(), Fail> {
    match value {
        ValueRef::Int(number) => Ok(write!(line, "|{number}")?),
        ValueRef::Text(bytes) | ValueRef::Blob(bytes) => {
            Ok(write!(line, "|{}", std::str::from_utf8(bytes)?)?)
        }
        _ => Err("a column of another kind".into()),
    }
}
