//! Rows of an answer as records.
ghost use Rattle.std.specs.Prelude.{◌≡◌, List, map, IfOk};
ghost use Rattle.upd_records.specs.Rows.{MarkRow, RunView};
ghost use Rattle.upd_sql.specs.Encoded.{mark_row, run_row};
ghost use Rattle.upd_sql.specs.First.{first_mark, first_run};

use crate::record::{Record, column_of};
use sqlite::{Error, Row};
use std::alloc::Global;
use upd_records::RunRow;

fn mark_of(row: &Row) -> Result<u64, Error>
    ensures found { IfOk result (λ mark. (m : MarkRow) → row.now ≡ mark_row m → mark ≡ m.mark) }
{
    column_of(row, 1)
}

pub(crate) fn first_mark(rows: &[Row]) -> Result<u64, Error>
    ensures found { IfOk result (λ mark. (marks : List MarkRow) → rows.now ≡ map mark_row marks
        → mark ≡ first_mark marks) }
{
    match rows.first() {
        Some(row) => mark_of(row),
        None => Ok(0),
    }
}

pub(crate) fn first_run(alloc: Global, rows: &[Row]) -> Result<Option<RunRow>, Error>
    ensures found { IfOk result (λ run. (runs : List RunView) → rows.now ≡ map run_row runs → run ≡ first_run runs) }
{
    match rows.first() {
        Some(row) => Ok(Some(RunRow::read(alloc, row)?)),
        None => Ok(None),
    }
}
