//! Reading a line of an edited text.

ghost use Rattle.std.specs.Prelude.{◌≡◌, ◌≢◌, ◌+◌, ◌∷◌, [], not, length, IfOk, IsOk, Ok};
ghost use Rattle.upd_text.specs.Lines.{up_to};
ghost use Rattle.upd_text.specs.declared.fault.FaultKind.TheVariants.{NoMemory};
ghost use Rattle.upd_text.specs.Outcome.{FailsAt};
ghost use Rattle.upd_deck.specs.Reading.{is_allowed, reading};
ghost use Rattle.upd_correct.specs.LineReads.{IsTakenAs};
ghost use Rattle.upd_correct.specs.Problems.{problem_column};

use crate::edited_deck::EditedDeck;
use crate::refusal::Problem;
use std::alloc::{AllocError, Global};
use upd_deck::{Item, Line, read_run};
use upd_text::limits::MAX_LINE_BYTES;
use upd_text::{Fault, FaultKind};

/// A line of an edited text.
#[derive(Drop)]
pub(crate) enum LineRead<'a> {
    /// The first line of a deck.
    Head(EditedDeck<'a>),
    /// A further line of a deck, by its text.
    Card(&'a [u8]),
    /// A line with a problem, and its column.
    Wrong { column: usize, problem: Problem },
}

/// Reads a line, given with its LF.
pub(crate) fn read_line<'a>(alloc: Global, bytes: &'a [u8]) -> Result<LineRead<'a>, AllocError>
    ensures { IfOk result (IsTakenAs bytes.now) }
{
    let run = match read_run(alloc, bytes) {
        Ok(run) => run,
        Err(fault) => return refused_line(bytes, fault),
    };
    let lines = run.lines();
    if lines.is_empty() {
        return Ok(wrong(bytes, Problem::Comment));
    }
    if lines.len() > 1 {
        return Ok(wrong(bytes, Problem::Directive));
    }
    Ok(line_by_item(alloc, bytes, &lines[0]))
}

/// A line by its item.
fn line_by_item<'a>(alloc: Global, bytes: &[u8], line: &Line<'a>) -> LineRead<'a>
    ensures { reading bytes.now ≡ Ok (line.now ∷ []) → IsTakenAs bytes.now result }
{
    match &line.item {
        Item::Text => LineRead::Card(line.text),
        Item::Call(_) => LineRead::Card(line.text),
        Item::Deck(name) => {
            LineRead::Head(EditedDeck::new(alloc, *name, false, false, line.text))
        }
        Item::CommonDeck { name, noprop } => {
            LineRead::Head(EditedDeck::new(alloc, *name, true, *noprop, line.text))
        }
        _ => wrong(bytes, Problem::Directive),
    }
}

/// A line that a run may not have.
fn refused_line<'a>(bytes: &[u8], fault: Fault) -> Result<LineRead<'a>, AllocError>
    ensures taken { FailsAt fault (reading bytes.now) → IfOk result (IsTakenAs bytes.now) }
    ensures read { fault.kind ≢ NoMemory → IsOk result }
{
    match fault.kind {
        FaultKind::NoMemory => Err(AllocError),
        FaultKind::BadByte => Ok(wrong(bytes, Problem::BadByte)),
        FaultKind::LineLong | FaultKind::RunLong => Ok(wrong(bytes, Problem::LineLong)),
        _ => Ok(wrong(bytes, Problem::Directive)),
    }
}

/// A problem of a line, with its column.
fn wrong<'a>(bytes: &[u8], problem: Problem) -> LineRead<'a>
    ensures { result ≡ LineRead.Wrong (problem_column bytes.now problem) problem }
{
    let column = column_of(bytes, &problem);
    LineRead::Wrong { column, problem }
}

/// The column of a problem of a line.
fn column_of(bytes: &[u8], problem: &Problem) -> usize
    ensures { result ≡ problem_column bytes.now problem.now }
{
    match problem {
        Problem::BadByte => bad_column(bytes),
        Problem::LineLong => MAX_LINE_BYTES + 1,
        _ => 1,
    }
}

/// The column of the first byte that no line may have.
fn bad_column(bytes: &[u8]) -> usize
    ensures { result ≡ length (up_to (λ b. not (is_allowed b)) bytes.now) + 1 }
{
    for (index, &byte) in bytes.iter().enumerate() {
        if !matches!(byte, 0x20..=0x7E | b'\t') {
            return index + 1;
        }
    }
    bytes.len() + 1
}
