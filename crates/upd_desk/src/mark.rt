//! The answer to a settlement.
ghost use Rattle.std.specs.Prelude.{◌≡◌, ◌≤◌, ◌+◌, length};
ghost use Rattle.std.specs.List.{flat_map};
ghost use Rattle.upd_desk.specs.ReplyTexts.{settled_bytes};

use itoa::Buffer;

/// The room that the text of a mark needs besides its site, in bytes.
pub const SETTLED_ROOM: usize = 64;

/// The text of a site's mark in parts, so that it can be written without allocating. The site is in it as it is.
pub fn settled_parts<'a>(site: &'a str, mark: u64, digits: &'a mut Buffer) -> [&'a [u8]; 5]
    ensures text { flat_map (λ part. part.now) result ≡ settled_bytes site.entry.now mark }
    ensures count { length result ≡ 5 }
    ensures short { length (settled_bytes site.entry.now mark) ≤ length site.entry.now + SETTLED_ROOM }
{
    [
        b"{\"settled\":",
        digits.format(mark).as_bytes(),
        b",\"site\":\"",
        site.as_bytes(),
        b"\"}",
    ]
}
