//! Texts that are made of parts.

ghost use Rattle.std.specs.Prelude.{◌≡◌, ◌∷◌, ◌++◌, if◌then◌else◌, drop, OnOk};
ghost use Rattle.std.specs.List.{flat_map};
ghost use Rattle.upd_compile.specs.Listings.{word_if};

use std::alloc::AllocError;

/// Appends parts in order.
pub fn push_parts(text: &mut Vec<u8>, parts: &[&[u8]]) -> Result<(), AllocError>
    ensures { OnOk result (text.new.items ≡ text.old.items ++ flat_map (λ part. part.now) parts.now) }
{
    for part in parts {
        text.extend_from_slice(part)?;
    }
    Ok(())
}

/// `word` where the test holds, else `other`.
pub(crate) fn word_of<'a>(test: bool, word: &'a [u8], other: &'a [u8]) -> &'a [u8]
    ensures { result.now ≡ (if test then word.now else other.now) }
{
    if test { word } else { other }
}

/// The suffix where the test holds, else nothing. It begins with a blank.
pub(crate) fn suffix_if<'a>(test: bool, suffix: &'a [u8]) -> &'a [u8]
    requires { suffix.now ≡ 32 ∷ drop 1 suffix.now }
    ensures { result.now ≡ flat_map (λ x. 32 ∷ x) (word_if test (drop 1 suffix.now)) }
{
    if test { suffix } else { b"" }
}
