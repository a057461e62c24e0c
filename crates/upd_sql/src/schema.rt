//! Whether a schema is the library's: each table by its columns and its key, each index by its table.

ghost use Rattle.std.specs.Prelude.{◌≡◌, ◌≤◌, [], ◌∷◌, map, slice_get, take, IsTrue, Some};
ghost use Rattle.upd_sqlite.specs.Keyed.{keyed, needed};
ghost use Rattle.upd_sql.specs.Schema.{cards, counts, entries, idents, library_schema, meta, no_schema, runs};
ghost use Rattle.upd_sql.specs.Schema.{settled, states, targets};
ghost use Rattle.upd_sql.specs.Wanted.{column_of, first_tables, key_index, key_indexes};

use sqlite_items::Items;
use sqlite_schema::schema::{Column, Index, Kind, Schema, Table};
use sqlite_value::keys::Collation;
use sqlite_value::value::Value;

/// A column that is asked for.
#[derive(Clone, Copy, Debug)]
pub(crate) struct Wanted<'a> {
    pub(crate) name: &'a str,
    pub(crate) kind: Kind,
}

pub(crate) fn is_column(column: &Column, wanted: &Wanted<'_>) -> bool
    ensures right { IsTrue result → column.now ≡ column_of wanted.now }
    ensures failed { column.now ≡ column_of wanted.now → IsTrue result }
{
    column.name.as_slice() == wanted.name.as_bytes()
        && column.kind == wanted.kind
        && column.is_strict
        && column.not_null
        && matches!(column.default, Value::Null)
        && column.collation == Collation::Binary
}

fn are_columns(columns: &[Column], wanted: &[Wanted<'_>]) -> bool
    ensures right { IsTrue result → columns.now ≡ map column_of wanted.now }
    ensures failed { columns.now ≡ map column_of wanted.now → IsTrue result }
{
    if columns.len() != wanted.len() {
        return false;
    }
    for at in 0..columns.len() {
        if !is_column(&columns[at], &wanted[at]) {
            return false;
        }
    }
    true
}

/// Nothing but columns and a key.
pub(crate) fn is_plain(table: &Table) -> bool
    ensures right { IsTrue result → table.now ≡ keyed table.now.tree table.now.name table.now.columns table.now.primary }
    ensures failed { table.now ≡ keyed table.now.tree table.now.name table.now.columns table.now.primary → IsTrue result }
{
    table.key.is_none()
        && has_one(&table.uniques, table.primary.as_slice())
        && table.orders.len() == 1
        && table.orders.as_slice()[0].digits == 0
        && table.checks.roots.is_empty()
        && table.references.is_empty()
        && table.computed.is_empty()
        && table.stamps.places.is_empty()
        && table.stamps.terms.roots.is_empty()
        && table.stamps.formats.is_empty()
        && !table.is_counted
}

fn has_one(keys: &Items<Items<usize>>, key: &[usize]) -> bool
    ensures right { IsTrue result → keys.now ≡ key.now ∷ [] }
    ensures failed { keys.now ≡ key.now ∷ [] → IsTrue result }
{
    keys.len() == 1 && keys.as_slice()[0].as_slice() == key
}

/// The index that SQLite makes for the key of the table in a tree.
fn is_automatic(index: &Index, tree: u32, name: &str, key: &[usize]) -> bool
    ensures right { IsTrue result → index.now ≡ key_index tree name.now key.now }
    ensures failed { index.now ≡ key_index tree name.now key.now → IsTrue result }
{
    index.name.as_slice() == name.as_bytes()
        && u64::from(index.tree) == u64::from(tree) + 1
        && index.table == tree
        && index.columns.as_slice() == key
        && index.order.digits == 0
        && index.is_unique
}

/// A table with these columns and this key.
pub(crate) fn is_table(
    table: &Table,
    tree: u32,
    name: &str,
    wanted: &[Wanted<'_>],
    key: &[usize],
) -> bool
    ensures right { IsTrue result → table.now ≡ keyed tree name.now (map column_of wanted.now) key.now }
    ensures failed { table.now ≡ keyed tree name.now (map column_of wanted.now) key.now → IsTrue result }
{
    table.tree == tree
        && table.name.as_slice() == name.as_bytes()
        && table.primary.as_slice() == key
        && are_columns(table.columns.as_slice(), wanted)
        && is_plain(table)
}

fn number(name: &str) -> Wanted<'_>
    ensures { column_of result ≡ needed name.now Kind.Integer }
{
    Wanted {
        name,
        kind: Kind::Integer,
    }
}

fn text(name: &str) -> Wanted<'_>
    ensures { column_of result ≡ needed name.now Kind.Text }
{
    Wanted {
        name,
        kind: Kind::Text,
    }
}

fn bytes(name: &str) -> Wanted<'_>
    ensures { column_of result ≡ needed name.now Kind.Blob }
{
    Wanted {
        name,
        kind: Kind::Blob,
    }
}

pub(crate) fn is_cards(table: &Table) -> bool
    ensures right { IsTrue result → table.now ≡ record cards { tree = 4 } }
    ensures failed { table.now ≡ record cards { tree = 4 } → IsTrue result }
{
    is_table(
        table,
        4,
        "cards",
        &[
            text("ident"),
            number("num"),
            number("deck"),
            number("pos"),
            text("body"),
        ],
        &[1, 2],
    )
}

pub(crate) fn is_meta(table: &Table) -> bool
    ensures right { IsTrue result → table.now ≡ record meta { tree = 0 } }
    ensures failed { table.now ≡ record meta { tree = 0 } → IsTrue result }
{
    is_table(table, 0, "meta", &[text("k"), number("v")], &[1])
}

pub(crate) fn is_idents(table: &Table) -> bool
    ensures right { IsTrue result → table.now ≡ record idents { tree = 2 } }
    ensures failed { table.now ≡ record idents { tree = 2 } → IsTrue result }
{
    is_table(
        table,
        2,
        "idents",
        &[
            number("age"),
            text("name"),
            number("kind"),
            number("noprop"),
            number("held"),
        ],
        &[1],
    )
}

pub(crate) fn is_entries(table: &Table) -> bool
    ensures right { IsTrue result → table.now ≡ record entries { tree = 6 } }
    ensures failed { table.now ≡ record entries { tree = 6 } → IsTrue result }
{
    is_table(
        table,
        6,
        "entries",
        &[
            text("ident"),
            number("num"),
            number("ord"),
            number("who"),
            number("active"),
        ],
        &[1, 2, 3],
    )
}

pub(crate) fn is_targets(table: &Table) -> bool
    ensures right { IsTrue result → table.now ≡ record targets { tree = 8 } }
    ensures failed { table.now ≡ record targets { tree = 8 } → IsTrue result }
{
    is_table(
        table,
        8,
        "targets",
        &[
            text("ident"),
            number("num"),
            number("ord"),
            number("kind"),
            number("target"),
            number("deck"),
        ],
        &[1, 2, 3],
    )
}

pub(crate) fn is_runs(table: &Table) -> bool
    ensures right { IsTrue result → table.now ≡ record runs { tree = 10 } }
    ensures failed { table.now ≡ record runs { tree = 10 } → IsTrue result }
{
    is_table(
        table,
        10,
        "runs",
        &[
            text("site"),
            number("num"),
            number("mode"),
            bytes("body"),
            number("accepted"),
            bytes("reply"),
        ],
        &[1, 2],
    )
}

pub(crate) fn is_states(table: &Table) -> bool
    ensures right { IsTrue result → table.now ≡ record states { tree = 12 } }
    ensures failed { table.now ≡ record states { tree = 12 } → IsTrue result }
{
    is_table(
        table,
        12,
        "states",
        &[text("ident"), number("num"), number("active")],
        &[1, 2],
    )
}

pub(crate) fn is_counts(table: &Table) -> bool
    ensures right { IsTrue result → table.now ≡ record counts { tree = 14 } }
    ensures failed { table.now ≡ record counts { tree = 14 } → IsTrue result }
{
    is_table(
        table,
        14,
        "counts",
        &[
            number("kind"),
            number("target"),
            number("deck"),
            number("n"),
        ],
        &[1, 2, 3],
    )
}

pub(crate) fn is_settled(table: &Table) -> bool
    ensures right { IsTrue result → table.now ≡ record settled { tree = 16 } }
    ensures failed { table.now ≡ record settled { tree = 16 } → IsTrue result }
{
    is_table(table, 16, "settled", &[text("site"), number("mark")], &[1])
}

/// The table at a place of the library's schema.
fn is_table_at(at: usize, table: &Table) -> bool
    ensures right { IsTrue result → slice_get library_schema.tables at ≡ Some table.now }
    ensures failed { slice_get library_schema.tables at ≡ Some table.now → IsTrue result }
{
    match at {
        0 => is_meta(table),
        1 => is_idents(table),
        2 => is_cards(table),
        3 => is_entries(table),
        4 => is_targets(table),
        5 => is_runs(table),
        6 => is_states(table),
        7 => is_counts(table),
        8 => is_settled(table),
        _ => false,
    }
}

/// The index at a place of the library's schema.
fn is_index_at(at: usize, index: &Index) -> bool
    ensures right { IsTrue result → slice_get key_indexes at ≡ Some index.now }
    ensures failed { slice_get key_indexes at ≡ Some index.now → IsTrue result }
{
    match at {
        0 => is_automatic(index, 0, "sqlite_autoindex_meta_1", &[1]),
        1 => is_automatic(index, 2, "sqlite_autoindex_idents_1", &[1]),
        2 => is_automatic(index, 4, "sqlite_autoindex_cards_1", &[1, 2]),
        3 => is_automatic(index, 6, "sqlite_autoindex_entries_1", &[1, 2, 3]),
        4 => is_automatic(index, 8, "sqlite_autoindex_targets_1", &[1, 2, 3]),
        5 => is_automatic(index, 10, "sqlite_autoindex_runs_1", &[1, 2]),
        6 => is_automatic(index, 12, "sqlite_autoindex_states_1", &[1, 2]),
        7 => is_automatic(index, 14, "sqlite_autoindex_counts_1", &[1, 2, 3]),
        8 => is_automatic(index, 16, "sqlite_autoindex_settled_1", &[1]),
        _ => false,
    }
}

/// Whether these are the first `count` tables.
fn are_tables(tables: &[Table], count: usize) -> bool
    requires { count ≤ 9 }
    ensures right { IsTrue result → tables.now ≡ take count library_schema.tables }
    ensures failed { tables.now ≡ take count library_schema.tables → IsTrue result }
{
    if tables.len() != count {
        return false;
    }
    for at in 0..tables.len() {
        if !is_table_at(at, &tables[at]) {
            return false;
        }
    }
    true
}

/// Whether these are the indexes of the first `count` tables.
fn are_indexes(indexes: &[Index], count: usize) -> bool
    requires { count ≤ 9 }
    ensures right { IsTrue result → indexes.now ≡ take count key_indexes }
    ensures failed { indexes.now ≡ take count key_indexes → IsTrue result }
{
    if indexes.len() != count {
        return false;
    }
    for at in 0..indexes.len() {
        if !is_index_at(at, &indexes[at]) {
            return false;
        }
    }
    true
}

/// Whether a schema is that of the first `count` of the library's tables, with the indexes of their keys and nothing else.
pub fn has_first_tables(schema: &Schema, count: usize) -> bool
    requires { count ≤ 9 }
    ensures right { IsTrue result → schema.now ≡ first_tables count }
    ensures failed { schema.now ≡ first_tables count → IsTrue result }
{
    if !schema.views.is_empty() {
        return false;
    }
    if !are_tables(schema.tables.as_slice(), count) {
        return false;
    }
    are_indexes(schema.indexes.as_slice(), count)
}

/// Whether a schema is that of the nine tables, with the indexes of their keys and nothing else.
pub fn is_library_schema(schema: &Schema) -> bool
    ensures right { IsTrue result → schema.now ≡ library_schema }
    ensures failed { schema.now ≡ library_schema → IsTrue result }
{
    has_first_tables(schema, 9)
}

/// Whether a schema has no table, index or view.
pub fn is_no_schema(schema: &Schema) -> bool
    ensures right { IsTrue result → schema.now ≡ no_schema }
    ensures failed { schema.now ≡ no_schema → IsTrue result }
{
    if !schema.tables.is_empty() {
        return false;
    }
    if !schema.indexes.is_empty() {
        return false;
    }
    schema.views.is_empty()
}
