//! Lines: cutting a line into its word and its fields.
//!
//! Words and fields are slices of the line. These calls don't check the bytes or the length of a line.

ghost use Rattle.std.specs.Prelude.{◌≡◌, ◌+◌, ◌≤◌, ◌==◌, [], ◌∷◌, length, map, take, drop, position, is_some, IfNone};
ghost use Rattle.std.specs.Prelude.{IfSome, IfOk};
ghost use Rattle.std.specs.List.{list_any, slice_split, before_first, after_first};
ghost use Rattle.upd_text.specs.Lines.{after_blanks, after_comma, body, called, ends_word, field, fields, from_first};
ghost use Rattle.upd_text.specs.Lines.{is_blank, is_call, is_comment, is_starred, remark, up_to, word};

use std::alloc::{AllocError, Global};

/// Whether the line begins with a star.
pub fn is_starred(line: &[u8]) -> bool
    ensures { result ≡ is_starred line.now }
{
    matches!(line, [b'*', ..])
}

/// Whether the line begins with `*/`.
pub fn is_comment(line: &[u8]) -> bool
    ensures { result ≡ is_comment line.now }
{
    matches!(line, [b'*', b'/', ..])
}

/// Whether the line calls a common deck: `*CALL` or `*CA`.
pub fn is_call(line: &[u8]) -> bool
    ensures { result ≡ is_call line.now }
{
    is_starred(line) && matches!(word(line), b"CALL" | b"CA")
}

/// The word of a starred line: the bytes after the star, up to the first blank or comma.
pub fn word(line: &[u8]) -> &[u8]
    ensures { result.now ≡ word line.now }
{
    let text = behind_star(line);
    &text[..end_of_word(text)]
}

/// The first field of a starred line; empty where it has no field.
pub fn called(line: &[u8]) -> &[u8]
    ensures { result.now ≡ called line.now }
{
    let body = body(line);
    let piece = split_once(body, b',').map_or(body, |(piece, _)| piece);
    let (field, _) = split_field(piece);
    field
}

/// The fields of a starred line, up to its remark.
pub fn fields<'a>(alloc: Global, line: &'a [u8]) -> Result<Vec<&'a [u8]>, AllocError>
    ensures { IfOk result (λ found. map (λ x. x.now) found.items ≡ fields line.now) }
{
    let mut found = Vec::new(alloc);
    let mut rest = body(line);
    if rest.is_empty() {
        return Ok(found);
    }
    while let Some((piece, after)) = split_once(rest, b',') {
        let (field, behind) = split_field(piece);
        found.push(field)?;
        if !after_blanks(behind).is_empty() {
            return Ok(found);
        }
        rest = after;
    }
    let (field, _) = split_field(rest);
    found.push(field)?;
    Ok(found)
}

/// The bytes before and after the first occurrence of a byte; None where it does not occur.
pub fn split_once(text: &[u8], at: u8) -> Option<(&[u8], &[u8])>
    ensures found { is_some result ≡ list_any (λ b. b == at) text.now }
    ensures before { IfSome result (λ parts. parts.0.now ≡ before_first (λ b. b == at) text.now) }
    ensures behind { IfSome result (λ parts. parts.1.now ≡ after_first (λ b. b == at) text.now) }
    ensures missing { IfNone result (after_first (λ b. b == at) text.now ≡ []) }
    ensures pieces { IfSome result
        (λ parts. slice_split (λ b. b == at) text.now ≡ parts.0.now ∷ slice_split (λ b. b == at) parts.1.now) }
    ensures whole { IfNone result (slice_split (λ b. b == at) text.now ≡ text.now ∷ []) }
    ensures lengths { IfSome result (λ parts. length parts.0.now + 1 + length parts.1.now ≡ length text.now) }
{
    let index = first_index(text, at)?;
    Some((&text[..index], &text[index + 1..]))
}

fn first_index(text: &[u8], at: u8) -> Option<usize>
    ensures { result ≡ position (λ b. b == at) text.now }
{
    text.iter().position(|&byte| byte == at)
}

fn behind_star(line: &[u8]) -> &[u8]
    ensures { result.now ≡ drop 1 line.now }
{
    match line {
        [] => line,
        [_, text @ ..] => text,
    }
}

/// The fields and the remark of a starred line: what follows its word and at most one comma, blanks dropped.
fn body(line: &[u8]) -> &[u8]
    ensures { result.now ≡ body line.now }
{
    let text = behind_star(line);
    let lead = &text[end_of_word(text)..];
    after_blanks(after_comma(after_blanks(lead)))
}

/// The field of a piece between two commas, and what follows it.
fn split_field(piece: &[u8]) -> (&[u8], &[u8])
    ensures field { result.0.now ≡ field piece.now }
    ensures behind { after_blanks result.1.now ≡ remark piece.now }
{
    let text = after_blanks(piece);
    text.split_at(first_blank(text))
}

fn after_comma(text: &[u8]) -> &[u8]
    ensures { result.now ≡ after_comma text.now }
{
    match text {
        [b',', behind @ ..] => behind,
        _ => text,
    }
}

fn after_blanks(text: &[u8]) -> &[u8]
    ensures { result.now ≡ after_blanks text.now }
{
    for (index, &byte) in text.iter().enumerate() {
        if byte != b' ' {
            return &text[index..];
        }
    }
    &[]
}

/// The index of the first blank, or the length.
fn first_blank(text: &[u8]) -> usize
    ensures within { result ≤ length text.now }
    ensures before { take result text.now ≡ up_to is_blank text.now }
    ensures behind { drop result text.now ≡ from_first is_blank text.now }
{
    for (index, &byte) in text.iter().enumerate() {
        if byte == b' ' {
            return index;
        }
    }
    text.len()
}

/// The index of the first blank or comma, or the length.
fn end_of_word(text: &[u8]) -> usize
    ensures within { result ≤ length text.now }
    ensures before { take result text.now ≡ up_to ends_word text.now }
    ensures behind { drop result text.now ≡ from_first ends_word text.now }
{
    for (index, &byte) in text.iter().enumerate() {
        if byte == b' ' || byte == b',' {
            return index;
        }
    }
    text.len()
}
