//! Records that are stored as rows of a table, read back from the rows of a query.
ghost use Rattle.std.specs.Prelude.{◌≡◌, ◌<◌, ◌+◌, [], ◌∷◌, List, length, map, IfOk};
ghost use Rattle.sqlite_value.specs.declared.value.Value.TheVariants.{Text};
ghost use Rattle.sqlite_value.specs.Order.{column, Row as SqlRow};
ghost use Rattle.upd_sql.specs.Encoded.{flag, kind_code, num, target_code};

use sqlite::types::{FromSql, ValueRef};
use sqlite::{Error, ErrorCode, Row};
use std::alloc::Global;
use upd_core::{CardRef, Entry, Ident, Kind, Name, Serial, Target};
use upd_records::{CardRow, EntryRow, MarkRow, RunRow, StateRow, TargetRow};

/// A record that is stored as a row.
pub(crate) trait Record: Sized {
    // The row as which it is stored.
    ghost stored: { Self → SqlRow };

    fn read(alloc: Global, row: &Row) -> Result<Self, Error>
        ensures found { IfOk result (λ x. (kept : Self) → row.now ≡ stored kept → x ≡ kept) };
}

/// The error of a row that is not the row of a record.
pub const ILLEGIBLE: Error = Error::SqliteFailure(ErrorCode::DatabaseCorrupt);

fn name_in(row: &Row, at: usize) -> Result<Name, Error>
    ensures ok { IfOk result (λ name. column row.now at ≡ Text name) }
{
    match row.get_ref(at)? {
        ValueRef::Text(text) => match Name::read(text) {
            Some(name) => Ok(name),
            None => Err(ILLEGIBLE),
        },
        _ => Err(ILLEGIBLE),
    }
}

fn text_in(alloc: Global, row: &Row, at: usize) -> Result<Vec<u8>, Error>
    ensures ok { IfOk result (λ text. column row.now at ≡ Text text.items) }
{
    match row.get_ref(at)? {
        ValueRef::Text(text) => Ok(Vec::from_slice(alloc, text)?),
        _ => Err(ILLEGIBLE),
    }
}

/// The card that the first two columns name.
fn card_in(row: &Row) -> Result<CardRef, Error>
    ensures ok { IfOk result (λ card. (column row.now 0 ≡ Text card.name) × (column row.now 1 ≡ num card.number)) }
{
    let name = name_in(row, 0)?;
    let number = number_in(row, 1)?;
    Ok(CardRef { name, number })
}

/// A column of a row. Out of memory apart it fails only where the column isn't there, or can't be read.
pub(crate) fn column_of<T: FromSql>(row: &Row, at: usize) -> Result<T, Error>
    ensures ok { IfOk result (λ x. (at < length row.now) × T.FromSql.reads_as (column row.now at) x) }
{
    row.get(at)
}

/// A column that is a number of 32 bits.
fn number_in(row: &Row, at: usize) -> Result<u32, Error>
    ensures ok { IfOk result (λ n. column row.now at ≡ num n) }
{
    column_of(row, at)
}

/// A column that is 0 or 1.
fn flag_in(row: &Row, at: usize) -> Result<bool, Error>
    ensures ok { IfOk result (λ found. column row.now at ≡ flag found) }
{
    match column_of::<u32>(row, at)? {
        0 => Ok(false),
        1 => Ok(true),
        _ => Err(ILLEGIBLE),
    }
}

fn kind_of(code: u32) -> Result<Kind, Error>
    ensures ok { IfOk result (λ kind. kind_code kind ≡ code) }
{
    match code {
        0 => Ok(Kind::Set),
        1 => Ok(Kind::Deck),
        2 => Ok(Kind::Common),
        _ => Err(ILLEGIBLE),
    }
}

fn target_of(kind: u32, target: Serial, deck: Serial) -> Result<Target, Error>
    ensures ok { IfOk result (λ found. target_code found ≡ num kind ∷ num target ∷ num deck ∷ []) }
{
    match (kind, deck) {
        (0, 0) => Ok(Target::Set(target)),
        (1, _) => Ok(Target::SetIn(target, deck)),
        (2, 0) => Ok(Target::Deck(target)),
        _ => Err(ILLEGIBLE),
    }
}

/// The target in three columns that begin at a place.
fn target_in(row: &Row, at: usize) -> Result<Target, Error>
    requires { at < 8 }
    ensures ok { IfOk result (λ found. target_code found
        ≡ column row.now at ∷ column row.now (at + 1) ∷ column row.now (at + 2) ∷ []) }
{
    let kind = number_in(row, at)?;
    let target = number_in(row, at + 1)?;
    let deck = number_in(row, at + 2)?;
    target_of(kind, target, deck)
}

impl Record for Ident {
    ghost use Rattle.upd_sql.specs.Encoded.{ident_row};

    ghost stored = { ident_row };

    fn read(_: Global, row: &Row) -> Result<Ident, Error> {
        let age = number_in(row, 0)?;
        let name = name_in(row, 1)?;
        let code = number_in(row, 2)?;
        let kind = kind_of(code)?;
        let noprop = flag_in(row, 3)?;
        let held = flag_in(row, 4)?;
        Ok(Ident {
            age,
            name,
            kind,
            noprop,
            held,
        })
    }
}

impl Record for CardRow {
    ghost use Rattle.upd_sql.specs.Encoded.{card_row};

    ghost stored = { card_row };

    fn read(alloc: Global, row: &Row) -> Result<CardRow, Error> {
        let card = card_in(row)?;
        let deck = number_in(row, 2)?;
        let pos = number_in(row, 3)?;
        let body = text_in(alloc, row, 4)?;
        Ok(CardRow {
            card,
            deck,
            pos,
            body,
        })
    }
}

impl Record for EntryRow {
    ghost use Rattle.upd_sql.specs.Encoded.{entry_row};

    ghost stored = { entry_row };

    fn read(_: Global, row: &Row) -> Result<EntryRow, Error> {
        let card = card_in(row)?;
        let ord = number_in(row, 2)?;
        let ident = number_in(row, 3)?;
        let active = flag_in(row, 4)?;
        let entry = Entry { ident, active };
        Ok(EntryRow { card, ord, entry })
    }
}

impl Record for TargetRow {
    ghost use Rattle.upd_sql.specs.Encoded.{target_row};

    ghost stored = { target_row };

    fn read(_: Global, row: &Row) -> Result<TargetRow, Error> {
        let card = card_in(row)?;
        let ord = number_in(row, 2)?;
        let target = target_in(row, 3)?;
        Ok(TargetRow { card, ord, target })
    }
}

impl Record for StateRow {
    ghost use Rattle.upd_sql.specs.Encoded.{state_row};

    ghost stored = { state_row };

    fn read(_: Global, row: &Row) -> Result<StateRow, Error> {
        let card = card_in(row)?;
        let active = flag_in(row, 2)?;
        Ok(StateRow { card, active })
    }
}

impl Record for RunRow {
    ghost use Rattle.upd_sql.specs.Encoded.{run_row};

    ghost stored = { run_row };

    fn read(_: Global, row: &Row) -> Result<RunRow, Error> {
        let site = column_of(row, 0)?;
        let number = column_of(row, 1)?;
        let mode = column_of(row, 2)?;
        let bytes = column_of(row, 3)?;
        let accepted = flag_in(row, 4)?;
        let reply = column_of(row, 5)?;
        Ok(RunRow {
            site,
            number,
            mode,
            bytes,
            accepted,
            reply,
        })
    }
}

impl Record for MarkRow {
    ghost use Rattle.upd_sql.specs.Encoded.{mark_row};

    ghost stored = { mark_row };

    fn read(_: Global, row: &Row) -> Result<MarkRow, Error> {
        let site = column_of(row, 0)?;
        let mark = column_of(row, 1)?;
        Ok(MarkRow { site, mark })
    }
}

/// A card with its status.
impl Record for (CardRef, bool) {
    ghost use Rattle.upd_sql.specs.Encoded.{kept_state};

    ghost stored = { kept_state };

    fn read(_: Global, row: &Row) -> Result<(CardRef, bool), Error> {
        let card = card_in(row)?;
        let active = flag_in(row, 2)?;
        Ok((card, active))
    }
}

/// A target with its count.
impl Record for (Target, u32) {
    ghost use Rattle.upd_sql.specs.Encoded.{kept_count};

    ghost stored = { kept_count };

    fn read(_: Global, row: &Row) -> Result<(Target, u32), Error> {
        let target = target_in(row, 0)?;
        let n = number_in(row, 3)?;
        Ok((target, n))
    }
}

/// The records of all rows of an answer.
pub(crate) fn each<T: Record + Drop>(alloc: Global, rows: &[Row]) -> Result<Vec<T>, Error>
    ensures found { IfOk result (λ found. (kept : List T) → rows.now ≡ map T.stored kept → found.items ≡ kept) }
{
    let mut found = Vec::new(alloc);
    for row in rows {
        found.push(T::read(alloc, row)?)?;
    }
    Ok(found)
}
