//! The columns of a table's row, read from the row of its tree. The first column there is the rowid.
ghost use Rattle.std.specs.Prelude.{◌≡◌, ◌<◌, ◌+◌, [], ◌∷◌, drop, IfOk};
ghost use Rattle.sqlite_value.specs.declared.value.Value.TheVariants.{Text};
ghost use Rattle.sqlite_value.specs.Order.{column};
ghost use Rattle.sqlite_value.specs.Value.{owned};
ghost use Rattle.upd_sql.specs.Encoded.{flag, kind_code, num, target_code};

use sqlite::types::{FromSql, FromSqlError};
use sqlite_trees::error::StoreError;
use sqlite_value::row::Row;
use sqlite_value::value::ValueRef;
use std::alloc::Global;
use upd_core::{CardRef, Kind, Name, Serial, Target};

/// The error of a row that is not the row of a record.
const ILLEGIBLE: StoreError = StoreError::Corrupt;

/// The value in a column beside the rowid, and NULL past the end.
fn value_at(row: &Row, at: usize) -> ValueRef<'_>
    requires { at < 8 }
    ensures { owned result ≡ column (drop 1 row.now) at }
{
    row.get(at + 1)
}

/// A column. Out of memory apart it fails only where the column can't be read.
pub(crate) fn column_of<T: FromSql>(alloc: Global, row: &Row, at: usize) -> Result<T, StoreError>
    requires { at < 8 }
    ensures { IfOk result (T.FromSql.reads_as (column (drop 1 row.now) at)) }
{
    match T::column_result(alloc, value_at(row, at)) {
        Ok(value) => Ok(value),
        Err(FromSqlError::OutOfMemory) => Err(StoreError::OutOfMemory),
        Err(_) => Err(ILLEGIBLE),
    }
}

pub(crate) fn name_in(row: &Row, at: usize) -> Result<Name, StoreError>
    requires { at < 8 }
    ensures { IfOk result (λ name. column (drop 1 row.now) at ≡ Text name) }
{
    match value_at(row, at) {
        ValueRef::Text(text) => match Name::read(text) {
            Some(name) => Ok(name),
            None => Err(ILLEGIBLE),
        },
        _ => Err(ILLEGIBLE),
    }
}

pub(crate) fn text_in(alloc: Global, row: &Row, at: usize) -> Result<Vec<u8>, StoreError>
    requires { at < 8 }
    ensures { IfOk result (λ text. column (drop 1 row.now) at ≡ Text text.items) }
{
    match value_at(row, at) {
        ValueRef::Text(text) => Ok(Vec::from_slice(alloc, text)?),
        _ => Err(ILLEGIBLE),
    }
}

/// A column that is a number of 32 bits.
pub(crate) fn number_in(alloc: Global, row: &Row, at: usize) -> Result<u32, StoreError>
    requires { at < 8 }
    ensures { IfOk result (λ n. column (drop 1 row.now) at ≡ num n) }
{
    column_of(alloc, row, at)
}

/// The card that the first two columns name.
pub(crate) fn card_in(alloc: Global, row: &Row) -> Result<CardRef, StoreError>
    ensures { IfOk result (λ card. (column (drop 1 row.now) 0 ≡ Text card.name)
        × (column (drop 1 row.now) 1 ≡ num card.number)) }
{
    let name = name_in(row, 0)?;
    let number = number_in(alloc, row, 1)?;
    Ok(CardRef { name, number })
}

/// A column that is 0 or 1.
pub(crate) fn flag_in(alloc: Global, row: &Row, at: usize) -> Result<bool, StoreError>
    requires { at < 8 }
    ensures { IfOk result (λ found. column (drop 1 row.now) at ≡ flag found) }
{
    match column_of::<u32>(alloc, row, at)? {
        0 => Ok(false),
        1 => Ok(true),
        _ => Err(ILLEGIBLE),
    }
}

pub(crate) fn kind_of(code: u32) -> Result<Kind, StoreError>
    ensures { IfOk result (λ kind. kind_code kind ≡ code) }
{
    match code {
        0 => Ok(Kind::Set),
        1 => Ok(Kind::Deck),
        2 => Ok(Kind::Common),
        _ => Err(ILLEGIBLE),
    }
}

fn target_of(kind: u32, target: Serial, deck: Serial) -> Result<Target, StoreError>
    ensures { IfOk result (λ found. target_code found ≡ num kind ∷ num target ∷ num deck ∷ []) }
{
    match (kind, deck) {
        (0, 0) => Ok(Target::Set(target)),
        (1, _) => Ok(Target::SetIn(target, deck)),
        (2, 0) => Ok(Target::Deck(target)),
        _ => Err(ILLEGIBLE),
    }
}

/// The target in three columns that begin at a place.
pub(crate) fn target_in(alloc: Global, row: &Row, at: usize) -> Result<Target, StoreError>
    requires { at < 6 }
    ensures { IfOk result (λ found. target_code found ≡ column (drop 1 row.now) at
        ∷ column (drop 1 row.now) (at + 1) ∷ column (drop 1 row.now) (at + 2) ∷ []) }
{
    let kind = number_in(alloc, row, at)?;
    let target = number_in(alloc, row, at + 1)?;
    let deck = number_in(alloc, row, at + 2)?;
    target_of(kind, target, deck)
}
