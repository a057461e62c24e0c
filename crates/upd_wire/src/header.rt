//! The header of a frame.

ghost use Rattle.std.specs.Prelude.{◌≡◌, List, ℕ, Some};
ghost use Rattle.std.specs.List.{list_all};
ghost use Rattle.std.specs.Option.{option_map};
ghost use Rattle.upd_wire.specs.Header.{IsHeader, HeaderView, cut, header_of, header_text, is_visible};
ghost use Rattle.upd_wire.specs.Header.{is_word};
ghost use Rattle.upd_wire.specs.Header.{size_of, where_true};

use crate::read_number;
use std::marker::Model;
use std::str;
use upd_text::limits::MAX_RUN_BYTES;
use upd_text::line::split_once;

/// The longest header, in bytes, without its LF.
pub const MAX_HEADER_BYTES: usize = 63;

/// What a frame's header says of its run. Site, number and mode are judged by the desk.
#[derive(Debug, Drop)]
pub struct Header<'a> {
    pub site: &'a str,
    /// At most 999,999,999.
    pub number: u32,
    pub mode: &'a str,
    /// How many bytes the run has: at most `MAX_RUN_BYTES`.
    pub size: usize,
}

impl<'a> Model for Header<'a> {
    ghost use Rattle.upd_wire.specs.Header.{HeaderView};

    ghost Value = { HeaderView };

    ghost view = { λ h. record { site = h.site.now; number = h.number; mode = h.mode.now; size = h.size } };
}

/// Reads a header without its LF. It is read in one way, or not at all.
#[tactic(auto, unfolding(crate::specs::Header::header_of))]
pub fn read_header(line: &[u8]) -> Option<Header<'_>>
    ensures { result ≡ header_of line.now }
{
    if line.len() > MAX_HEADER_BYTES {
        return None;
    }
    let (command, behind) = cut(line, b' ')?;
    if command != b"RUN".as_slice() {
        return None;
    }
    let (site, behind) = cut(behind, b' ')?;
    let site = read_word(site)?;
    let (number, behind) = cut(behind, b' ')?;
    let number = read_number(number)?;
    let (mode, size) = cut(behind, b' ')?;
    let mode = read_word(mode)?;
    let size = read_size(size)?;
    Some(Header {
        site,
        number,
        mode,
        size,
    })
}

/// What stands before the first of a byte, and behind it.
fn cut(text: &[u8], at: u8) -> Option<(&[u8], &[u8])>
    ensures { option_map (λ parts. (parts.0.now, parts.1.now)) result ≡ cut at text.now }
{
    split_once(text, at)
}

/// A word as text.
fn read_word(text: &[u8]) -> Option<&str>
    ensures { option_map (λ word. word.now) result ≡ where_true (is_word text.now) text.now }
{
    if is_word(text) {
        str::from_utf8(text).ok()
    } else {
        None
    }
}

fn is_word(text: &[u8]) -> bool
    ensures { result ≡ is_word text.now }
{
    !text.is_empty() && all_visible(text)
}

fn all_visible(text: &[u8]) -> bool
    ensures { result ≡ list_all is_visible text.now }
{
    text.iter().all(|&byte| 33 <= byte && byte <= 126)
}

/// A number that may be the length of a run.
fn read_size(digits: &[u8]) -> Option<usize>
    ensures { result ≡ size_of digits.now }
{
    let size = read_number(digits)? as usize;
    if size <= MAX_RUN_BYTES {
        Some(size)
    } else {
        None
    }
}

/// A header is read from the one text that it is written as, and from no other.
pub fn headers_are_as_spelled()
    ensures read { (h : HeaderView) → IsHeader h → header_of (header_text h) ≡ Some h }
    ensures spelled { (text : List ℕ) (h : HeaderView) → header_of text ≡ Some h → IsHeader h × (text ≡ header_text h) }
{}
