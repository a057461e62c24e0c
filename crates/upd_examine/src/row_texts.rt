//! Rows as texts: the table, the key and what the row says.

use std::alloc::{AllocError, Global};
use upd_core::{CardRef, Entry, Ident, Kind, Serial, Target};
use upd_text::Name;

/// The text of a name. The empty name, of a card whose ident is not in the directory, is `?`.
pub fn name_text(alloc: Global, name: &Name) -> Result<String, AllocError> {
    let bytes = name.as_bytes();
    let shown = if bytes.is_empty() {
        b"?".as_slice()
    } else {
        bytes
    };
    String::from_utf8_lossy(alloc, shown)
}

/// The text of a card's reference.
pub fn card_text(alloc: Global, card: &CardRef) -> Result<String, AllocError> {
    let name = name_text(alloc, &card.name)?;
    format!(in alloc; "{}.{}", name, card.number)
}

fn kind_text(kind: Kind) -> &'static str {
    match kind {
        Kind::Set => "set",
        Kind::Deck => "deck",
        Kind::Common => "common",
    }
}

pub fn ident_text(alloc: Global, ident: &Ident) -> Result<String, AllocError> {
    let name = name_text(alloc, &ident.name)?;
    let kind = kind_text(ident.kind);
    let noprop = if ident.noprop { " noprop" } else { "" };
    let held = if ident.held { "held" } else { "purged" };
    format!(in alloc;
        "idents {} {} ({}{}, {})",
        ident.age, name, kind, noprop, held
    )
}

/// A card's row: its deck, its place there, from 0, and its text.
pub fn card_row_text(
    alloc: Global,
    card: &CardRef,
    deck: Serial,
    place: usize,
    text: &[u8],
) -> Result<String, AllocError> {
    let card = card_text(alloc, card)?;
    let text = String::from_utf8_lossy(alloc, text)?;
    format!(in alloc;
        "cards {} (deck {}, place {}, text {})",
        card, deck, place, text
    )
}

/// An entry of a card's history, and its place there, from 0.
pub fn entry_text(
    alloc: Global,
    card: &CardRef,
    place: usize,
    entry: Entry,
) -> Result<String, AllocError> {
    let card = card_text(alloc, card)?;
    let on = switch_text(entry);
    format!(in alloc;
        "entries {} {} ({} by ident {})",
        card, place, on, entry.ident
    )
}

fn switch_text(entry: Entry) -> &'static str {
    if entry.active { "on" } else { "off" }
}

pub fn target_text(alloc: Global, target: Target) -> Result<String, AllocError> {
    match target {
        Target::Set(ident) => format!(in alloc; "ident {}", ident),
        Target::SetIn(ident, deck) => format!(in alloc; "ident {} in deck {}", ident, deck),
        Target::Deck(deck) => format!(in alloc; "deck {}", deck),
    }
}

/// A target of a card, and its place among them, from 0.
pub fn target_row_text(
    alloc: Global,
    card: &CardRef,
    place: usize,
    target: Target,
) -> Result<String, AllocError> {
    let card = card_text(alloc, card)?;
    let target = target_text(alloc, target)?;
    format!(in alloc; "targets {} {} ({})", card, place, target)
}

pub fn state_text(alloc: Global, card: &CardRef, active: bool) -> Result<String, AllocError> {
    let card = card_text(alloc, card)?;
    let status = if active { "active" } else { "not active" };
    format!(in alloc; "states {} ({})", card, status)
}

pub fn count_text(alloc: Global, target: Target, count: u32) -> Result<String, AllocError> {
    let target = target_text(alloc, target)?;
    format!(in alloc; "counts {} ({})", target, count)
}
