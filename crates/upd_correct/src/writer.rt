//! Writing runs.
//!
//! A run is checked before it is returned, so nothing is proved here.

use crate::edited_deck::EditedDeck;
use crate::plan::Correction;
use crate::script::Segment;
use itoa::Buffer;
use std::alloc::{AllocError, Global};
use upd_compile::text_parts::push_parts;
use upd_core::card::card_ref;
use upd_core::{Card, CardRef, Ident};

/// How cards that go are named.
#[derive(Clone, Copy, PartialEq, Eq)]
pub(crate) enum Deletions {
    /// Each alone. So a run takes no card that another has put between them.
    Cards,
    /// Neighbours by a range.
    Ranges,
}

/// How a run is written.
#[derive(Drop)]
pub(crate) struct Form {
    pub(crate) deletions: Deletions,
    /// A card of a run before it. A run that names none of the same ident begins with an `*INSERT` of the card, so that it
    /// is refused where the one before it was.
    pub(crate) anchor: Option<CardRef>,
}

impl Form {
    /// The form without a run before it.
    pub(crate) fn of(deletions: Deletions) -> Form {
        Form {
            deletions,
            anchor: None,
        }
    }
}

/// The run that corrects decks and introduces others, under the name of a new set.
pub(crate) fn write_run(
    alloc: Global,
    idents: &[Ident],
    form: &Form,
    set: &[u8],
    corrections: &[Correction],
    added: &[&EditedDeck],
) -> Result<Vec<u8>, AllocError> {
    let edits = edits_of(alloc, idents, form.deletions, corrections, added)?;
    let mut run = Vec::new(alloc);
    push_parts(&mut run, &[b"*IDENT ", set, b"\n"])?;
    if let Some(card) = form.anchor
        && !is_named(&edits, card.name.as_bytes())
    {
        push_parts(&mut run, &[b"*INSERT "])?;
        push_reference(&mut run, card)?;
        push_parts(&mut run, &[b"\n"])?;
    }
    push_parts(&mut run, &[&edits])?;
    Ok(run)
}

/// Whether a directive of a run names a card of an ident.
fn is_named(run: &[u8], ident: &[u8]) -> bool {
    run.split(|&byte| byte == b'\n').any(|line| is_first(line, b"*INSERT ", ident)
        || is_first(line, b"*DELETE ", ident))
}

/// Whether a line begins with a word and then the name of a card of an ident.
fn is_first(line: &[u8], word: &[u8], ident: &[u8]) -> bool {
    match line.strip_prefix(word) {
        Some(field) => matches!(field.strip_prefix(ident), Some([b'.', ..])),
        None => false,
    }
}

/// The lines of a run behind its `*IDENT`.
fn edits_of(
    alloc: Global,
    idents: &[Ident],
    deletions: Deletions,
    corrections: &[Correction],
    added: &[&EditedDeck],
) -> Result<Vec<u8>, AllocError> {
    let mut run = Vec::new(alloc);
    for correction in corrections {
        for segment in &correction.segments {
            push_segment(&mut run, idents, deletions, segment)?;
        }
    }
    for deck in added {
        push_parts(&mut run, &[deck.first, b"\n"])?;
        push_lines(&mut run, &deck.lines)?;
    }
    Ok(run)
}

/// Appends the lines for a segment.
fn push_segment(
    run: &mut Vec<u8>,
    idents: &[Ident],
    deletions: Deletions,
    segment: &Segment,
) -> Result<(), AllocError> {
    if segment.goes {
        push_deletion(run, idents, deletions, &segment.cards)?;
    } else if !segment.lines.is_empty()
        && let Some(last) = segment.cards.last()
    {
        push_directive(run, b"*INSERT ", idents, last, last)?;
    }
    push_lines(run, &segment.lines)
}

/// Appends the `*DELETE` of neighbouring cards, or one for each.
fn push_deletion(
    run: &mut Vec<u8>,
    idents: &[Ident],
    deletions: Deletions,
    cards: &[&Card],
) -> Result<(), AllocError> {
    match cards {
        [first, .., last] if deletions == Deletions::Ranges => {
            push_directive(run, b"*DELETE ", idents, first, last)
        }
        _ => {
            for card in cards {
                push_directive(run, b"*DELETE ", idents, card, card)?;
            }
            Ok(())
        }
    }
}

/// Appends a directive that names a card, or a range.
fn push_directive(
    run: &mut Vec<u8>,
    word: &[u8],
    idents: &[Ident],
    first: &Card,
    last: &Card,
) -> Result<(), AllocError> {
    push_parts(run, &[word])?;
    push_reference(run, card_ref(idents, first))?;
    if card_ref(idents, first) != card_ref(idents, last) {
        push_parts(run, &[b","])?;
        push_reference(run, card_ref(idents, last))?;
    }
    push_parts(run, &[b"\n"])
}

/// Appends lines that become cards.
fn push_lines(run: &mut Vec<u8>, lines: &[&[u8]]) -> Result<(), AllocError> {
    for line in lines {
        push_parts(run, &[line, b"\n"])?;
    }
    Ok(())
}

/// Appends a card reference.
fn push_reference(run: &mut Vec<u8>, card: CardRef) -> Result<(), AllocError> {
    push_parts(run, &[card.name.as_bytes(), b"."])?;
    run.extend_from_slice(Buffer::new().format(card.number).as_bytes())
}
