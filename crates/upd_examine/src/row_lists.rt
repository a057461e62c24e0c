//! Lists of rows as texts.

use crate::row_texts::{
    card_row_text, count_text, entry_text, ident_text, state_text, target_row_text,
};
use std::alloc::{AllocError, Global};
use upd_core::{Card, CardRef, Ident, Live, Target, TargetCounts};
use upd_records::{CardRow, EntryRow, LibraryRows, TargetRow};

fn add_idents(alloc: Global, texts: &mut Vec<String>, idents: &[Ident]) -> Result<(), AllocError> {
    for ident in idents {
        texts.push(ident_text(alloc, ident)?)?;
    }
    Ok(())
}

fn add_cards(alloc: Global, texts: &mut Vec<String>, rows: &[CardRow]) -> Result<(), AllocError> {
    for row in rows {
        texts.push(card_row_text(alloc, &row.card, row.deck, row.pos as usize, &row.body)?)?;
    }
    Ok(())
}

fn add_entries(
    alloc: Global,
    texts: &mut Vec<String>,
    rows: &[EntryRow],
) -> Result<(), AllocError> {
    for row in rows {
        texts.push(entry_text(alloc, &row.card, row.ord as usize, row.entry)?)?;
    }
    Ok(())
}

fn add_targets(
    alloc: Global,
    texts: &mut Vec<String>,
    rows: &[TargetRow],
) -> Result<(), AllocError> {
    for row in rows {
        texts.push(target_row_text(alloc, &row.card, row.ord as usize, row.target)?)?;
    }
    Ok(())
}

/// The texts of the rows of a library's four tables.
pub fn row_texts(alloc: Global, rows: &LibraryRows) -> Result<Vec<String>, AllocError> {
    let mut texts = Vec::new(alloc);
    add_idents(alloc, &mut texts, &rows.idents)?;
    add_cards(alloc, &mut texts, &rows.cards)?;
    add_entries(alloc, &mut texts, &rows.entries)?;
    add_targets(alloc, &mut texts, &rows.targets)?;
    Ok(texts)
}

/// The texts of statuses.
pub fn state_texts(alloc: Global, states: &[(CardRef, bool)]) -> Result<Vec<String>, AllocError> {
    let mut texts = Vec::with_capacity(alloc, states.len())?;
    for (card, active) in states {
        texts.push(state_text(alloc, card, *active)?)?;
    }
    Ok(texts)
}

/// The texts of counts.
pub fn count_texts(alloc: Global, counts: &[(Target, u32)]) -> Result<Vec<String>, AllocError> {
    let mut texts = Vec::with_capacity(alloc, counts.len())?;
    for (target, count) in counts {
        texts.push(count_text(alloc, *target, *count)?)?;
    }
    Ok(texts)
}

/// The count of each target that a live yank card has.
pub fn own_counts(
    alloc: Global,
    yanks: &[Card],
    live: &Live,
) -> Result<Vec<(Target, u32)>, AllocError> {
    let mut counts = TargetCounts::new(alloc);
    for card in yanks {
        if live.is_good(0, card) {
            counts.raise(&card.targets)?;
        }
    }
    counts.all(alloc)
}
