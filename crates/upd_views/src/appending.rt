//! Appending to a text: lines of decks, and fields in columns.

ghost use Rattle.std.specs.Prelude.{◌≡◌, ◌≤◌, ◌∷◌, ◌++◌, [], if◌then◌else◌, codes, OnOk};
ghost use Rattle.upd_compile.specs.File.{blanks, from_left};
ghost use Rattle.upd_compile.specs.Listings.{card_name, deck_name, line_of};
ghost use Rattle.upd_core.specs.Status.{is_active};
ghost use Rattle.upd_views.specs.IdentReport.{card_line};

use crate::printing::push_card_text;
use std::alloc::AllocError;
use upd_compile::listings::{deck_name, push_card_name};
use upd_compile::text_parts::push_parts;
use upd_core::{Card, Ident, Live, Serial};

/// The widest column.
pub(crate) const MAX_COLUMN: usize = 18;

const BLANKS: &[u8; MAX_COLUMN] = &[b' '; MAX_COLUMN];

/// Appends the line of a deck's name.
pub(crate) fn push_deck_line(
    text: &mut Vec<u8>,
    idents: &[Ident],
    deck: Serial,
) -> Result<(), AllocError>
    ensures { OnOk result (text.new.items
        ≡ text.old.items ++ line_of (codes "DECK" ∷ deck_name idents.now deck ∷ [])) }
{
    push_parts(text, &[b"DECK ", deck_name(idents, deck), b"\n"])
}

/// Appends a line of a card: a word, its reference and its text.
pub(crate) fn push_card_line(
    text: &mut Vec<u8>,
    word: &[u8],
    idents: &[Ident],
    card: &Card,
) -> Result<(), AllocError>
    ensures { OnOk result (text.new.items ≡ text.old.items ++ card_line word.now idents.now card.now) }
{
    push_parts(text, &[word, b" "])?;
    push_card_name(text, idents, card)?;
    text.extend_from_slice(b" ")?;
    push_card_text(text, &card.text)?;
    text.extend_from_slice(b"\n")
}

/// A for an active card of a deck, I for an inactive one.
pub(crate) fn status_letter(live: &Live, deck: Serial, card: &Card) -> &'static [u8]
    ensures { result.now ≡ (if is_active live.now.targets deck card.now then codes "A" else codes "I") }
{
    if live.is_active(deck, card) {
        b"A"
    } else {
        b"I"
    }
}

/// Appends a field, padded with blanks on the right to a width.
pub(crate) fn push_column(text: &mut Vec<u8>, field: &[u8], width: usize) -> Result<(), AllocError>
    requires { width ≤ MAX_COLUMN }
    ensures { OnOk result (text.new.items ≡ text.old.items ++ from_left width field.now) }
{
    text.extend_from_slice(field)?;
    text.extend_from_slice(blanks(width.saturating_sub(field.len())))
}

/// Appends the reference of a card, padded with blanks on the right to a width.
pub(crate) fn push_card_column(
    text: &mut Vec<u8>,
    idents: &[Ident],
    card: &Card,
    width: usize,
) -> Result<(), AllocError>
    requires { width ≤ MAX_COLUMN }
    ensures { OnOk result (text.new.items ≡ text.old.items ++ from_left width (card_name idents.now card.now)) }
{
    let start = text.len();
    push_card_name(text, idents, card)?;
    let used = text.len() - start;
    text.extend_from_slice(blanks(width.saturating_sub(used)))
}

fn blanks(count: usize) -> &'static [u8]
    requires { count ≤ MAX_COLUMN }
    ensures { result.now ≡ blanks count }
{
    &BLANKS[..count]
}
