//! Texts and numbers of cards that no run brings.

use crate::line_texts::{is_line_text, is_number_of_run};
use crate::lines::Findings;
use crate::row_texts::card_text;
use std::alloc::{AllocError, Global};
use upd_core::card::card_ref;
use upd_core::{Card, Ident};

/// Findings about a card's text and number.
pub fn add_text(
    alloc: Global,
    found: &mut Findings,
    idents: &[Ident],
    card: &Card,
) -> Result<(), AllocError> {
    let is_text = is_line_text(&card.text);
    let is_number = is_number_of_run(card.number);
    if is_text && is_number {
        return Ok(());
    }
    let name = card_text(alloc, &card_ref(idents, card))?;
    let row = format!(in alloc; "cards {}", name)?;
    if !is_text {
        found.add_of(&row, " has a text that no line has")?;
    }
    if !is_number {
        found.add_of(&row, " has a number that no card of a run has")?;
    }
    Ok(())
}
