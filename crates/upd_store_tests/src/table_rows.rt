//! The rows of a library's tables as text, as SQL reads them.
use sqlite::types::ValueRef;
use sqlite::{Alter, Connection, Row};
use std::alloc::Global;
use std::test::Fail;
use upd_testkit::reference_rows::joined;

const TABLES: [&str; 9] = [
    "meta", "idents", "cards", "entries", "targets", "states", "counts", "runs", "settled",
];

/// Sorted lines: one for each row, with its table and its values, and one for each table that can't be read.
pub fn table_rows<S: Alter>(alloc: Global, conn: &mut Connection<S>) -> Result<String, Fail> {
    let mut lines = Vec::new(alloc);
    for table in TABLES {
        add_table(&mut lines, conn, table)?;
    }
    joined(alloc, lines)
}

fn add_table<S: Alter>(
    lines: &mut Vec<String>,
    conn: &mut Connection<S>,
    table: &str,
) -> Result<(), Fail> {
    let alloc = *lines.allocator();
    let query = format!(in alloc; "SELECT * FROM {table}")?;
    match conn.query_all(&query, &[]) {
        Ok(rows) => add_rows(lines, table, &rows),
        Err(_) => Ok(lines.push(format!(in alloc; "no {table}")?)?),
    }
}

fn add_rows(lines: &mut Vec<String>, table: &str, rows: &[Row]) -> Result<(), Fail> {
    for row in rows {
        let mut line = String::from_str(*lines.allocator(), table)?;
        add_values(&mut line, row)?;
        lines.push(line)?;
    }
    Ok(())
}

/// Adds the values of a row, each after a bar: texts and bytes in quotes.
fn add_values(line: &mut String, row: &Row) -> Result<(), Fail> {
    for at in 0..row.column_count() {
        match row.get_ref(at)? {
            ValueRef::Int(number) => write!(line, "|{number}")?,
            ValueRef::Text(text) => write!(line, "|'{}'", std::str::from_utf8(text)?)?,
            ValueRef::Blob(bytes) => write!(line, "|x'{}'", std::str::from_utf8(bytes)?)?,
            _ => return Err("a column of another kind".into()),
        }
    }
    Ok(())
}
