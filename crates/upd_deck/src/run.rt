//! A run that was read: its lines and their spans.

ghost use Rattle.std.specs.Prelude.{◌≡◌, ◌≤◌, length};
ghost use Rattle.upd_text.specs.declared.limits.TheConstants.{MAX_RUN_LINES};

use crate::item::Item;
use std::marker::Model;

/// The offsets of a line's text in the run, in bytes: `start` included, `end` excluded.
#[derive(Clone, Copy, Debug, PartialEq, Eq)]
pub struct Span {
    pub start: usize,
    pub end: usize,
}

/// A line of a run that isn't a comment.
#[derive(Debug, Drop)]
pub struct Line<'a> {
    /// From 1; comments are counted.
    pub number: u32,
    pub span: Span,
    /// Without trailing blanks.
    pub text: &'a [u8],
    pub item: Item,
}

impl<'a> Model for Line<'a> {
    ghost use Rattle.upd_deck.specs.Items.{LineView};

    ghost Value = { LineView };

    ghost use Rattle.upd_deck.specs.LineFields.{line_seen};

    ghost view = { line_seen };
}

/// The lines of a run in order, without comments: at most 2,000.
#[derive(Debug)]
pub struct Run<'a> {
    pub(crate) lines: Vec<Line<'a>>,
}

// By hand: see CONTRIBUTING.md.
impl Drop for Run<'_> {
    fn drop(self) {
        let Run { lines: _ } = self;
    }
}

impl<'a> Model for Run<'a> {
    ghost use Rattle.std.specs.Prelude.{List, length, ◌≤◌};
    ghost use Rattle.upd_text.specs.declared.limits.TheConstants.{MAX_RUN_LINES};
    ghost use Rattle.upd_deck.specs.Items.{LineView};

    ghost Value = { List LineView };

    ghost view = { λ r. r.lines.items };

    ghost invariant = { λ r. length r.lines.items ≤ MAX_RUN_LINES };
}

impl<'a> Run<'a> {
    /// The lines in order.
    pub fn lines(&self) -> &[Line<'a>]
        ensures lines { result.now ≡ self.now }
        ensures few { length self.now ≤ MAX_RUN_LINES }
    {
        &self.lines
    }
}
