//! Texts of a file that somebody else made, as lines for people have them: no byte of them acts on a terminal.

ghost use Rattle.std.specs.Prelude.{◌≡◌, ◌++◌, if◌then◌else◌, ℕ, List, OnOk, true};
ghost use Rattle.std.specs.List.{list_all};
ghost use Rattle.upd_views.specs.Printed.{is_printed, printed, printed_field, printed_text};

use std::alloc::AllocError;

/// Appends a field of a line. What is not printable ASCII becomes `?`.
pub(crate) fn push_field(line: &mut Vec<u8>, field: &[u8]) -> Result<(), AllocError>
    ensures { OnOk result (line.new.items ≡ line.old.items ++ printed_field field.now) }
{
    push_printed(line, field, b' ')
}

/// Appends the text of a card. What is neither printable ASCII nor a tab becomes `?`.
pub(crate) fn push_card_text(line: &mut Vec<u8>, text: &[u8]) -> Result<(), AllocError>
    ensures { OnOk result (line.new.items ≡ line.old.items ++ printed_text text.now) }
{
    push_printed(line, text, b'\t')
}

fn push_printed(line: &mut Vec<u8>, text: &[u8], kept: u8) -> Result<(), AllocError>
    ensures { OnOk result (line.new.items ≡ line.old.items ++ printed kept text.now) }
{
    for byte in text {
        line.push(printed_byte(*byte, kept))?;
    }
    Ok(())
}

fn printed_byte(byte: u8, kept: u8) -> u8
    ensures { result ≡ (if is_printed kept byte then byte else 63) }
{
    if (32 <= byte && byte <= 126) || byte == kept {
        byte
    } else {
        b'?'
    }
}

/// A field has no byte but printable ASCII, and the text of a card has tabs besides.
pub fn printed_texts_are_printable()
    ensures fields { (field : List ℕ) → list_all (is_printed 32) (printed_field field) ≡ true }
    ensures texts { (text : List ℕ) → list_all (is_printed 9) (printed_text text) ≡ true }
{}
