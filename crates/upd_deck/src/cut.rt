//! Cutting a run into lines, at each LF.

ghost use Rattle.std.specs.Prelude.{◌≡◌, ℕ, ◌+◌, ◌-◌, ◌<◌, ◌≤◌, ◌∷◌, length};
ghost use Rattle.std.specs.List.{slice_split};
ghost use Rattle.std.specs.Str.Lines.{strip_carriage_return};
ghost use Rattle.upd_text.specs.declared.limits.TheConstants.{MAX_RUN_BYTES};
ghost use Rattle.upd_deck.specs.Reading.{cut, cut_from, is_feed};

use std::marker::Model;
use upd_text::limits::MAX_RUN_BYTES;
use upd_text::line::split_once;

/// A line of a run, without its LF and without a CR directly before that.
#[derive(Drop)]
pub(crate) struct CutLine<'a> {
    /// From 1.
    pub(crate) number: u32,
    /// The offset of its first byte in the run.
    pub(crate) start: usize,
    pub(crate) bytes: &'a [u8],
}

impl<'a> Model for CutLine<'a> {
    ghost use Rattle.std.specs.Prelude.{◌+◌, ◌≤◌, length};
    ghost use Rattle.upd_text.specs.declared.limits.TheConstants.{MAX_RUN_BYTES};
    ghost use Rattle.upd_deck.specs.Reading.{CutLine as CutLineView};

    ghost Value = { CutLineView };

    ghost view = { λ l. record { number = l.number; start = l.start; bytes = l.bytes.now } };

    ghost invariant = { λ l. l.start + length l.bytes.now ≤ MAX_RUN_BYTES };
}

/// The rest of a run, not yet cut.
#[derive(Drop)]
pub(crate) struct CutLines<'a> {
    number: u32,
    start: usize,
    rest: &'a [u8],
}

impl<'a> Model for CutLines<'a> {
    ghost use Rattle.std.specs.Prelude.{ℕ, ◌+◌, ◌≤◌, List, length};
    ghost use Rattle.std.specs.List.{slice_split};
    ghost use Rattle.upd_text.specs.declared.limits.TheConstants.{MAX_RUN_BYTES};
    ghost use Rattle.upd_deck.specs.Reading.{CutLine as CutLineView, cut_from, is_feed};

    ghost Value = { List CutLineView };

    ghost view = { λ l. cut_from l.number l.start (slice_split is_feed l.rest.now) };

    // Each line takes at least one byte of the rest, so numbers and offsets don't exceed the length of the run.
    ghost invariant = { λ l. (l.number + length l.rest.now ≤ MAX_RUN_BYTES + 1)
        × (l.start + length l.rest.now ≤ MAX_RUN_BYTES) };
}

/// Cuts a run into lines.
pub(crate) fn cut_lines(bytes: &[u8]) -> CutLines<'_>
    requires { length bytes.now ≤ MAX_RUN_BYTES }
    ensures { result ≡ cut bytes.now }
{
    CutLines {
        number: 1,
        start: 0,
        rest: bytes,
    }
}

impl<'a> Iterator for CutLines<'a> {
    ghost use Rattle.std.specs.Iterator.{YieldsFirst, item_count};

    type Item = CutLine<'a>;

    ghost next_gives = { YieldsFirst (λ left. left) };

    ghost remaining = { item_count (λ left. left) };

    fn next(&mut self) -> Option<CutLine<'a>> {
        if self.rest.is_empty() {
            return None;
        }
        let (bytes, rest) = first_line(self.rest);
        let line = CutLine {
            number: self.number,
            start: self.start,
            bytes,
        };
        self.number += 1;
        self.start += self.rest.len() - rest.len();
        self.rest = rest;
        Some(line)
    }
}

/// The first line of some bytes, and the bytes after its LF.
fn first_line(bytes: &[u8]) -> (&[u8], &[u8])
    requires { 0 < length bytes.now }
    ensures line { (number start : ℕ) → cut_from number start (slice_split is_feed bytes.now)
        ≡ record { number = number; start = start; bytes = result.0.now }
        ∷ cut_from (number + 1) (start + (length bytes.now - length result.1.now)) (slice_split is_feed result.1.now) }
    ensures shorter { length result.1.now < length bytes.now }
    ensures within { length result.0.now ≤ length bytes.now }
{
    match split_once(bytes, b'\n') {
        Some((piece, after)) => (without_return(piece), after),
        // The last line has no LF, so a CR at its end is one of its bytes.
        None => (bytes, &[]),
    }
}

/// A line that ended with LF, without a CR at its end.
fn without_return(line: &[u8]) -> &[u8]
    ensures { result.now ≡ strip_carriage_return line.now }
{
    match line {
        [before @ .., b'\r'] => before,
        _ => line,
    }
}
