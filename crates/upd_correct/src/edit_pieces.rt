//! An edit as a list of lines, which can be cut anywhere: up to a cut the edit is done, and after it not yet.
//!
//! The lines that stand for a range that goes are put by share before the cards of the range go, so that at no cut both
//! are missing. Nothing is proved of it: each text at a cut is only one on the way, and is led to by a run that is checked.

use crate::edited_deck::EditedDeck;
use crate::plan::{Correction, added_decks, corrections_for};
use crate::script::Segment;
use std::alloc::{AllocError, Global};
use upd_compile::text_parts::push_parts;
use upd_core::{Card, Library, Live, Serial};
use upd_text::limits::{MAX_RUN_BYTES, MAX_RUN_LINES};

/// The most bytes of a `*DELETE` or `*INSERT`.
const MAX_DIRECTIVE_BYTES: usize = 48;

/// What an edit does with a line of a deck.
#[derive(Clone, Copy, PartialEq, Eq)]
enum Step {
    Keep,
    Delete,
    Insert,
}

/// A line of a deck before or after an edit.
#[derive(Drop)]
pub(crate) struct Piece<'a> {
    step: Step,
    /// Whether the run has a directive for it and for the lines after it.
    begins: bool,
    text: &'a [u8],
}

impl<'a> Piece<'a> {
    /// The number of lines that it adds to a run.
    fn lines(&self) -> usize {
        usize::from(self.begins).saturating_add(usize::from(self.step == Step::Insert))
    }

    /// At most how many bytes it adds to a run.
    fn bytes(&self) -> usize {
        let text = if self.step == Step::Insert {
            self.text.len().saturating_add(1)
        } else {
            0
        };
        text.saturating_add(usize::from(self.begins) * MAX_DIRECTIVE_BYTES)
    }

    /// Whether its line is in the text, once it is done or before.
    fn is_in_text(&self, done: bool) -> bool {
        match self.step {
            Step::Keep => true,
            Step::Delete => !done,
            Step::Insert => done,
        }
    }
}

/// The lines of an edit: first those of the new decks, so that they can be called, and then those of the held ones.
pub(crate) fn pieces_of<'a>(
    alloc: Global,
    library: &'a Library,
    live: &Live,
    decks: &[EditedDeck<'a>],
) -> Result<Vec<Piece<'a>>, AllocError> {
    let mut pieces = Vec::new(alloc);
    push_added(&mut pieces, &added_decks(alloc, library, decks)?)?;
    for correction in &corrections_for(alloc, library, live, decks)? {
        push_correction(&mut pieces, live, correction)?;
    }
    Ok(pieces)
}

/// Appends the lines of new decks.
fn push_added<'a>(
    pieces: &mut Vec<Piece<'a>>,
    decks: &[&EditedDeck<'a>],
) -> Result<(), AllocError> {
    for deck in decks {
        push_lines(pieces, false, &[deck.first])?;
        push_lines(pieces, false, &deck.lines)?;
    }
    Ok(())
}

/// Appends the lines of a held deck.
fn push_correction<'a>(
    pieces: &mut Vec<Piece<'a>>,
    live: &Live,
    correction: &Correction<'a>,
) -> Result<(), AllocError> {
    for segment in &correction.segments {
        if segment.goes {
            push_change(pieces, segment)?;
        } else {
            push_kept(pieces, live, correction.deck, &segment.cards)?;
            push_lines(pieces, true, &segment.lines)?;
        }
    }
    Ok(())
}

/// Appends the lines that stand for a segment that goes, and its cards, by share: where i of the cards are gone, at least as
/// large a share of the lines is there.
fn push_change<'a>(pieces: &mut Vec<Piece<'a>>, segment: &Segment<'a>) -> Result<(), AllocError> {
    let count = segment.cards.len();
    let mut next = 0;
    for (i, card) in segment.cards.iter().enumerate() {
        let all = segment.lines.len().saturating_mul(i.saturating_add(1));
        let end = all.div_ceil(count);
        let lines = lines_between(&segment.lines, next, end);
        push_lines(pieces, i == 0, lines)?;
        pieces.push(Piece {
            step: Step::Delete,
            begins: i == 0 && lines.is_empty(),
            text: &card.text,
        })?;
        next = end;
    }
    Ok(())
}

/// The lines from one index to another.
fn lines_between<'b, 'a>(lines: &'b [&'a [u8]], first: usize, end: usize) -> &'b [&'a [u8]] {
    let (before, _) = lines.split_at(end.min(lines.len()));
    let (_, between) = before.split_at(first.min(before.len()));
    between
}

/// Appends the lines of the active ones of cards that stay.
fn push_kept<'a>(
    pieces: &mut Vec<Piece<'a>>,
    live: &Live,
    deck: Serial,
    cards: &[&'a Card],
) -> Result<(), AllocError> {
    for card in cards {
        if live.is_active(deck, card) {
            pieces.push(Piece {
                step: Step::Keep,
                begins: false,
                text: &card.text,
            })?;
        }
    }
    Ok(())
}

/// Appends lines that are put. The first may need a directive.
fn push_lines<'a>(
    pieces: &mut Vec<Piece<'a>>,
    begins: bool,
    lines: &[&'a [u8]],
) -> Result<(), AllocError> {
    for (i, text) in lines.iter().enumerate() {
        pieces.push(Piece {
            step: Step::Insert,
            begins: begins && i == 0,
            text,
        })?;
    }
    Ok(())
}

/// Where an edit is cut, by the number of lines before each cut: what is between two cuts takes at most a run's lines and
/// bytes, divided by `share`. A run begins with its `*IDENT`, and with a directive for what it continues. One that is not
/// the first names a card of the one before it.
pub(crate) fn cuts_of(
    alloc: Global,
    pieces: &[Piece],
    share: usize,
) -> Result<Vec<usize>, AllocError> {
    let mut cuts = Vec::new(alloc);
    let (mut lines, mut bytes) = (2, 2 * MAX_DIRECTIVE_BYTES);
    for (i, piece) in pieces.iter().enumerate() {
        lines = piece.lines().saturating_add(lines);
        bytes = piece.bytes().saturating_add(bytes);
        if lines.saturating_mul(share) > MAX_RUN_LINES
            || bytes.saturating_mul(share) > MAX_RUN_BYTES
        {
            cuts.push(i)?;
            lines = piece.lines().saturating_add(3);
            bytes = piece.bytes().saturating_add(3 * MAX_DIRECTIVE_BYTES);
        }
    }
    Ok(cuts)
}

/// The text of the decks at a cut.
pub(crate) fn text_at(alloc: Global, pieces: &[Piece], cut: usize) -> Result<Vec<u8>, AllocError> {
    let mut text = Vec::new(alloc);
    for (i, piece) in pieces.iter().enumerate() {
        if piece.is_in_text(i < cut) {
            push_parts(&mut text, &[piece.text, b"\n"])?;
        }
    }
    Ok(text)
}
