//! Decks of an edited text other than the one that may be edited.

ghost use Rattle.std.specs.Prelude.{◌≡◌, IfOk};
ghost use Rattle.upd_core.specs.First.{index_from};
ghost use Rattle.upd_correct.specs.EditedText.{lines_in};
ghost use Rattle.upd_correct.specs.ListedRuns.{begins_other};

use crate::edited_lines::cut_text;
use crate::read_line::{LineRead, read_line};
use std::alloc::{AllocError, Global};
use upd_text::Name;

/// The index of the first line of an edited text that begins a deck of another name.
pub(crate) fn first_other(
    alloc: Global,
    name: &Name,
    text: &[u8],
) -> Result<Option<usize>, AllocError>
    ensures { IfOk result (λ found. found ≡ index_from (begins_other name.now) 0 (lines_in text.now)) }
{
    let lines = cut_text(alloc, text)?;
    for (i, line) in lines.iter().enumerate() {
        if begins_other(alloc, name, line)? {
            return Ok(Some(i));
        }
    }
    Ok(None)
}

/// Whether a line begins a deck of another name.
fn begins_other(alloc: Global, name: &Name, line: &[u8]) -> Result<bool, AllocError>
    ensures { IfOk result (λ other. other ≡ begins_other name.now line.now) }
{
    match read_line(alloc, line)? {
        LineRead::Head(deck) => Ok(deck.name != *name),
        LineRead::Card(_) => Ok(false),
        LineRead::Wrong { .. } => Ok(false),
    }
}
