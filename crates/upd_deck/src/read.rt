//! Reading a run: its limits, then its lines in order.

ghost use Rattle.std.specs.Prelude.{◌≡◌, ℕ, ◌<◌, ◌≤◌, List, length, Ok, Err, IfOk, MatchResult};
ghost use Rattle.std.specs.List.{AllByRecursion, list_all};
ghost use Rattle.std.specs.Option.{option_to_list};
ghost use Rattle.upd_text.specs.declared.limits.TheConstants.{MAX_RUN_BYTES, MAX_RUN_LINES};
ghost use Rattle.upd_text.specs.Faults.{fault_at};
ghost use Rattle.upd_text.specs.declared.fault.FaultKind.TheVariants.{RunLong};
ghost use Rattle.upd_text.specs.Outcome.{Gives, GivesAt, each};
ghost use Rattle.upd_deck.specs.Order.{FollowFrom};
ghost use Rattle.upd_deck.specs.Reading.{cut, is_allowed, reading, said, said_at, text_of, trimmed};

use crate::cut::{CutLine, cut_lines};
use crate::fields::item_of;
use crate::run::{Line, Run, Span};
use std::alloc::Global;
use upd_text::limits::{MAX_LINE_BYTES, MAX_RUN_BYTES, MAX_RUN_LINES};
use upd_text::line::is_comment;
use upd_text::{Fault, FaultKind};

/// Reads a run. A run over a limit is refused at line 0, with RunLong (65,536 bytes) or TooManyLines (2,000 lines).
/// Otherwise the first faulty line decides, and the fault has its number: BadByte, LineLong, BadField, BadName or
/// BadCard. NoMemory is at line 0.
///
/// ```text
/// *IDENT X       the item Ident, with the name X
/// *DELETE A.2    the item Delete, from A.2 to A.2
/// NEW            the item Text
/// ```
pub fn read_run(alloc: Global, bytes: &[u8]) -> Result<Run<'_>, Fault>
    ensures reading { GivesAt (λ run. run) result (reading bytes.now) }
    ensures long { MAX_RUN_BYTES < length bytes.now → result ≡ Err (fault_at RunLong 0) }
{
    if bytes.len() > MAX_RUN_BYTES {
        return Err(FaultKind::RunLong.without_line());
    }
    let cut: Vec<CutLine<'_>> = cut_lines(bytes).collect(alloc)?;
    if cut.len() > MAX_RUN_LINES {
        return Err(FaultKind::TooManyLines.without_line());
    }
    let lines = read_lines(alloc, &cut)?;
    Ok(Run { lines })
}

/// The lines with their items, or the fault of the first faulty line.
fn read_lines<'a>(alloc: Global, cut: &[CutLine<'a>]) -> Result<Vec<Line<'a>>, Fault>
    ensures lines { GivesAt (λ lines. lines.items) result (each said_at cut.now) }
    ensures few { IfOk result (λ lines. length lines.items ≤ length cut.now) }
{
    let mut lines = Vec::new(alloc);
    for line in cut {
        if let Some(line) = read_line(alloc, line)? {
            lines.push(line)?;
        }
    }
    Ok(lines)
}

/// A line with its item, or its fault with its number; None for a comment.
fn read_line<'a>(alloc: Global, line: &CutLine<'a>) -> Result<Option<Line<'a>>, Fault>
    ensures { GivesAt option_to_list result (said_at line.now) }
{
    let number = line.number;
    said(alloc, line).map_err(|kind| kind.at_line(number))
}

/// A line with its item; None for a comment.
fn said<'a>(alloc: Global, line: &CutLine<'a>) -> Result<Option<Line<'a>>, FaultKind>
    ensures { Gives option_to_list result (said line.now) }
{
    let text = text_of(line.bytes)?;
    if is_comment(text) {
        return Ok(None);
    }
    let item = item_of(alloc, text)?;
    let span = Span {
        start: line.start,
        end: line.start + text.len(),
    };
    Ok(Some(Line {
        number: line.number,
        span,
        text,
        item,
    }))
}

/// The text of a line. BadByte is checked first, then LineLong, with trailing blanks not counted.
fn text_of(line: &[u8]) -> Result<&[u8], FaultKind>
    ensures text { MatchResult result (λ text. text_of line.now ≡ Ok text.now) (λ e. text_of line.now ≡ Err e) }
    ensures within { IfOk result (λ text. length text.now ≤ length line.now) }
{
    if !all_allowed(line) {
        return Err(FaultKind::BadByte);
    }
    let text = trimmed(line);
    if text.len() > MAX_LINE_BYTES {
        return Err(FaultKind::LineLong);
    }
    Ok(text)
}

/// Whether all bytes are allowed in a line: 0x20 to 0x7E and the tab.
pub fn all_allowed(line: &[u8]) -> bool
    ensures { result ≡ list_all is_allowed line.now }
{
    line.iter().all(|&byte| is_allowed(byte))
}

/// Whether a byte is allowed in a line: 0x20 to 0x7E and the tab.
fn is_allowed(byte: u8) -> bool
    ensures { result ≡ is_allowed byte }
{
    matches!(byte, 0x20..=0x7E | b'\t')
}

/// A line without its trailing blanks.
fn trimmed(line: &[u8]) -> &[u8]
    ensures trimmed { result.now ≡ trimmed line.now }
    ensures within { length result.now ≤ length line.now }
{
    let mut text = line;
    while let [before @ .., b' '] = text {
        text = before;
    }
    text
}

/// Line numbers rise from 1 to at most 2,000, and each span begins at or after the end of the one before it.
#[tactic(auto, using(crate::proofs::OrderLaws::lines_follow, crate::proofs::OrderLaws::numbers_are_few))]
pub fn lines_follow_one_another()
    ensures order { (bytes : List ℕ) → IfOk (reading bytes) (FollowFrom 1 0) }
    ensures numbers { (bytes : List ℕ) → IfOk (reading bytes) (AllByRecursion (λ line. line.number ≤ MAX_RUN_LINES)) }
{}
