//! A library's file, opened below SQL.
//!
//! The log, the header, the free list, the schema and every page and tree are checked. Keys and indexes are not, as SQL's open
//! does: rows are read as they are.
ghost use Rattle.std.specs.Prelude.{◌≡◌, length, map, IfOk};
ghost use Rattle.sqlite.specs.Opening.{unrooted};
ghost use Rattle.sqlite_store.specs.FileStore.{view};
ghost use Rattle.sqlite_store.specs.Unopened.{AreUsable};
ghost use Rattle.sqlite_trees.specs.View.{IsClean};
ghost use Rattle.upd_store.specs.TreeOpening.{IsAttached};

use sqlite::{FileStore, Files};
use sqlite_disk::Disk;
use sqlite_store::{OpenError, Unopened};
use sqlite_trees::store::Shape;
use sqlite_value::keys::Order;
use sqlite_value::order::is_same;
use sqlite_value::row::Row;
use sqlite_value::value::ValueRef;
use std::alloc::{AllocError, Global};

/// Checks the files, under the schema that they list: each index in plain order, and all else a table. Whether that is
/// their schema is seen in the store. Where that fails the files are given back, with whether memory was short.
pub(crate) fn attached<D: Disk + Drop>(
    alloc: Global,
    files: Unopened<D>,
) -> Result<FileStore<D>, (Files<D>, bool)>
    requires { AreUsable files }
    ensures { IfOk result (λ store. IsClean (view store) → IsAttached files store) }
{
    let mut files = files;
    let listed = match files.read_catalog() {
        Ok(listed) => listed,
        Err(error) => return Err((files.close(), matches!(error, OpenError::OutOfMemory))),
    };
    let Ok((rows, layouts)) = laid_out(alloc, &listed) else {
        return Err((files.close(), true));
    };
    let Ok(is_listed) = files.list_schema(&rows, &layouts) else {
        return Err((files.close(), true));
    };
    if !is_listed {
        return Err((files.close(), false));
    }
    match files.open_numbered() {
        Ok(store) => Ok(store),
        Err((error, left)) => Err((left.close(), matches!(error, OpenError::OutOfMemory))),
    }
}

/// The rows of the list of objects without their roots, and the layout of each: its shape, and no column of real numbers.
fn laid_out(alloc: Global, listed: &[Row]) -> Result<(Vec<Row>, Vec<(Shape, u64)>), AllocError>
    ensures { IfOk result (λ out. (out.0.items ≡ map unrooted listed.now) × (length out.1.items ≡ length out.0.items)) }
{
    let mut rows = Vec::new(alloc);
    let mut layouts = Vec::new(alloc);
    for entry in listed {
        rows.push(without_root(alloc, entry)?)?;
        layouts.push((shape_of(entry), 0))?;
    }
    Ok((rows, layouts))
}

fn shape_of(entry: &Row) -> Shape {
    if is_same(entry.get(1), ValueRef::Text(b"index")) {
        Shape::Index(Order::PLAIN)
    } else {
        Shape::Table
    }
}

fn without_root(alloc: Global, entry: &Row) -> Result<Row, AllocError>
    ensures { IfOk result (λ row. row ≡ unrooted entry.now) }
{
    let mut row = Row::new(alloc);
    row.push(entry.get(0))?;
    row.push(entry.get(1))?;
    row.push(entry.get(2))?;
    row.push(entry.get(3))?;
    row.push(entry.get(5))?;
    Ok(row)
}
