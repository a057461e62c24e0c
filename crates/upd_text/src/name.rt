//! Names of idents.

ghost use Rattle.std.specs.Prelude.{◌≡◌, [], ℕ, ◌<◌, ◌≤◌, ◌↔◌, get_or, length, take, Some, IfSome, IsSome, IsTrue};
ghost use Rattle.std.specs.Cmp.{partial_order_from_own_ties};
ghost use Rattle.std.specs.Cmp.Lexicographic.{slice_cmp};
ghost use Rattle.std.specs.Cmp.Rules.{comparing};
ghost use Rattle.std.specs.List.{list_all};
ghost use Rattle.std.specs.Ordering.{nat_cmp, as_partial_cmp};
ghost use Rattle.std.specs.Slice.Scan.{big_endian};
ghost use Rattle.std.specs.Str.{bytes_eq};
ghost use Rattle.std.proofs.Common.{rules};
ghost use Rattle.upd_text.specs.Names.{is_name, is_name_byte, yank_name};
ghost use Rattle.upd_text.specs.NameKeys.{back, front, padded};

use crate::limits::MAX_NAME_BYTES;
use std::cmp::Ordering;
use std::marker::Model;
use std::{fmt, str};

/// A name of an ident: 1 to 9 of `A-Z 0-9 + - * / ( ) $ =`, but not the single `*`. `read` makes these. `none` makes
/// the empty name, for an ident that isn't in the directory.
#[derive(Clone, Copy, Debug)]
pub struct Name {
    bytes: [u8; 9],
    len: u8,
}

impl Model for Name {
    ghost use Rattle.std.specs.Prelude.{List, ℕ};

    ghost Value = { List ℕ };

    ghost use Rattle.upd_text.specs.NameFields.{shown, IsPadded, inside_of, fields_again};

    ghost view = { shown };

    ghost invariant = { IsPadded };

    ghost inverse = { inside_of };

    ghost inverse_ok = { fields_again };
}

impl Name {
    /// Reads a whole text as a name.
    ///
    /// ```text
    /// b"ORBIT"  ORBIT
    /// b"P1.2"   none: a period is between a name and a number
    /// ```
    pub fn read(text: &[u8]) -> Option<Name>
        ensures name { IsSome result ↔ IsTrue (is_name text.now) }
        ensures value { IfSome result (λ n. n ≡ text.now) }
    {
        if is_name(text) {
            Some(Name::of(text))
        } else {
            None
        }
    }

    /// The name of the deck of yank cards, `YANK$$$`. It is reserved: no ident has it.
    pub fn yank() -> Name
        ensures { result ≡ yank_name }
    {
        Name::of(b"YANK$$$")
    }

    /// The empty name, for an ident that isn't in the directory. No name that `read` returns equals it.
    pub fn none() -> Name
        ensures { result ≡ [] }
    {
        Name::of(b"")
    }

    fn of(text: &[u8]) -> Name
        requires { length text.now ≤ MAX_NAME_BYTES }
        ensures { result ≡ text.now }
    {
        let mut bytes = [0; 9];
        bytes[..text.len()].copy_from_slice(text);
        Name {
            bytes,
            len: text.len() as u8,
        }
    }

    /// The bytes of the name.
    pub fn as_bytes(&self) -> &[u8]
        ensures { result.now ≡ self.now }
    {
        &self.bytes[..usize::from(self.len)]
    }

    /// The first eight bytes of the name padded with zeros, as a number.
    fn front(&self) -> u64
        ensures number { result ≡ front self.now }
        ensures bytes { (k : ℕ) → get_or (padded self.now) k 0 < 256 }
    {
        front_of(&self.bytes)
    }

    /// The ninth byte and the length, as a number.
    fn back(&self) -> u16
        ensures number { result ≡ back self.now }
        ensures short { length self.now ≤ 9 }
    {
        u16::from(self.bytes[8]) * 256 + u16::from(self.len)
    }
}

/// The first eight bytes as a number.
fn front_of(bytes: &[u8; 9]) -> u64
    ensures number { result ≡ big_endian 0 (take 8 bytes.now) }
    ensures bytes { (k : ℕ) → get_or bytes.now k 0 < 256 }
{
    u64::from_be_bytes([
        bytes[0], bytes[1], bytes[2], bytes[3], bytes[4], bytes[5], bytes[6], bytes[7],
    ])
}

/// Whether a text is a name.
fn is_name(text: &[u8]) -> bool
    ensures { result ≡ is_name text.now }
{
    !text.is_empty()
        && text.len() <= MAX_NAME_BYTES
        && all_name_bytes(text)
        && text != b"*".as_slice()
}

fn all_name_bytes(text: &[u8]) -> bool
    ensures { result ≡ list_all is_name_byte text.now }
{
    text.iter().all(|&byte| is_name_byte(byte))
}

fn is_name_byte(byte: u8) -> bool
    ensures { result ≡ is_name_byte byte }
{
    matches!(byte, b'A'..=b'Z' | b'0'..=b'9' | b'+' | b'-' | b'*' | b'/' | b'(' | b')' | b'$' | b'=')
}

impl PartialEq for Name {
    ghost eq = { bytes_eq };

    ghost laws = { Prim.search (comparing, rules) };

    fn eq(&self, other: &Name) -> bool {
        self.cmp(other).is_eq()
    }
}

impl Eq for Name {
    ghost laws = { Prim.search (comparing, rules) };
}

impl PartialOrd for Name {
    ghost partial_cmp = { as_partial_cmp (slice_cmp nat_cmp) };

    ghost laws = { partial_order_from_own_ties (Prim.search (comparing, rules)) (Prim.search (comparing, rules)) };

    fn partial_cmp(&self, other: &Name) -> Option<Ordering> {
        Some(self.cmp(other))
    }
}

impl Ord for Name {
    ghost cmp = { slice_cmp nat_cmp };

    ghost total = { Prim.search (comparing, rules) };

    ghost matches_partial_cmp = { Prim.search (comparing, rules) };

    ghost matches_eq = { Prim.search (comparing, rules) };

    fn cmp(&self, other: &Name) -> Ordering {
        let front = self.front().cmp(&other.front());
        front.then(self.back().cmp(&other.back()))
    }
}

impl fmt::Display for Name {
    ghost output = { λ name. Some name };

    fn fmt<W: fmt::Write>(&self, f: &mut fmt::Formatter<W>) -> fmt::Result {
        let text = str::from_utf8(self.as_bytes()).map_err(|_| fmt::Error)?;
        f.write_str(text)
    }
}
