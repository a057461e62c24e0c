//! Cutting an edited text into lines.

ghost use Rattle.std.specs.Prelude.{◌≡◌, ◌<◌, ◌∷◌, length, map, IfOk};
ghost use Rattle.upd_correct.specs.EditedText.{lines_in};

use std::alloc::{AllocError, Global};

/// The lines of a text, each with its LF; the last line may lack it.
pub(crate) fn cut_text(alloc: Global, text: &[u8]) -> Result<Vec<&[u8]>, AllocError>
    ensures { IfOk result (λ lines. map (λ t. t.now) lines.items ≡ lines_in text.now) }
{
    let mut lines = Vec::new(alloc);
    let mut rest = text;
    while !rest.is_empty() {
        let (line, after) = first_line(rest);
        lines.push(line)?;
        rest = after;
    }
    Ok(lines)
}

/// The first line of a text, with its LF, and what follows it.
fn first_line(text: &[u8]) -> (&[u8], &[u8])
    requires { 0 < length text.now }
    ensures lines { lines_in text.now ≡ result.0.now ∷ lines_in result.1.now }
    ensures shorter { length result.1.now < length text.now }
{
    for (index, &byte) in text.iter().enumerate() {
        if byte == b'\n' {
            return text.split_at(index + 1);
        }
    }
    (text, &[])
}
