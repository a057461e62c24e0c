//! Texts in HTML: a text is shown as it is, whatever bytes it has.

ghost use Rattle.std.specs.Prelude.{◌≡◌, ◌++◌, ℕ, List, OnOk, true, false};
ghost use Rattle.std.specs.List.{list_any};
ghost use Rattle.upd_views.specs.Escaped.{escaped, escaped_byte, is_markup, are_entities};

use std::alloc::AllocError;

/// Appends a text with each byte of markup escaped.
pub(crate) fn push_escaped(page: &mut Vec<u8>, text: &[u8]) -> Result<(), AllocError>
    ensures { OnOk result (page.new.items ≡ page.old.items ++ escaped text.now) }
{
    for byte in text {
        push_escaped_byte(page, *byte)?;
    }
    Ok(())
}

fn push_escaped_byte(page: &mut Vec<u8>, byte: u8) -> Result<(), AllocError>
    ensures { OnOk result (page.new.items ≡ page.old.items ++ escaped_byte byte) }
{
    match byte {
        b'&' => page.extend_from_slice(b"&amp;"),
        b'<' => page.extend_from_slice(b"&lt;"),
        b'>' => page.extend_from_slice(b"&gt;"),
        b'"' => page.extend_from_slice(b"&quot;"),
        b'\'' => page.extend_from_slice(b"&#39;"),
        other => page.extend_from_slice(&[other]),
    }
}

/// No escaped text has `<`, `>` or a quote, and each `&` in it begins one of the five entities.
pub fn escaped_texts_have_no_markup()
    ensures markup { (text : List ℕ) → list_any is_markup (escaped text) ≡ false }
    ensures entities { (text : List ℕ) → are_entities (escaped text) ≡ true }
{}
