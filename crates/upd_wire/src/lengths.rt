//! The length of a body.

ghost use Rattle.std.specs.Prelude.{◌≡◌, ◌<◌, ◌≤◌, ◌+◌, ◌*◌, All, IsTrue, length, map};
ghost use Rattle.httparse.specs.Spans.{IsHeaderWithin, header_bytes};
ghost use Rattle.upd_text.specs.Names.{number_behind};
ghost use Rattle.upd_wire.specs.Lengths.{both_say, field_says, fields_say, is_named, length_said};

use httparse::spans::HeaderSpan;
use upd_text::all_digits;
use upd_text::limits::MAX_RUN_BYTES;

/// What the fields of a head say about the length of the body.
#[derive(Clone, Copy, Debug, PartialEq, Eq)]
pub enum BodyLength {
    /// Nothing.
    Absent,
    /// This number of bytes, at most that of the longest run.
    Bytes(usize),
    /// More bytes than the longest run has.
    Long,
    /// A length that is empty or has other bytes than digits, two lengths, or any `Transfer-Encoding`.
    Bad,
}

/// What these headers of a head say together.
pub(crate) fn body_length(buf: &[u8], headers: &[HeaderSpan]) -> BodyLength
    requires { All (IsHeaderWithin (length buf.now)) headers.now }
    ensures { result ≡ fields_say (map (header_bytes buf.now) headers.now) }
{
    let mut found = BodyLength::Absent;
    'headers: for header in headers {
        found = combine(found, field_length(buf, header));
    }
    found
}

fn combine(one: BodyLength, other: BodyLength) -> BodyLength
    ensures { result ≡ both_say one other }
{
    match (one, other) {
        (BodyLength::Absent, other) => other,
        (one, BodyLength::Absent) => one,
        _ => BodyLength::Bad,
    }
}

fn field_length(buf: &[u8], header: &HeaderSpan) -> BodyLength
    requires { IsHeaderWithin (length buf.now) header.now }
    ensures { result ≡ field_says (header_bytes buf.now header.now) }
{
    let name = header.name.of(buf);
    if is_named(b"transfer-encoding", name) {
        return BodyLength::Bad;
    }
    if is_named(b"content-length", name) {
        return read_length(header.value.of(buf));
    }
    BodyLength::Absent
}

fn is_named(word: &[u8], name: &[u8]) -> bool
    ensures { result ≡ is_named word.now name.now }
{
    name.eq_ignore_ascii_case(word)
}

/// The length that digits spell: Long as soon as it passes the limit, however many digits follow, and Bad where the
/// text is empty or has other bytes.
fn read_length(text: &[u8]) -> BodyLength
    ensures { result ≡ length_said text.now }
{
    if text.is_empty() || !all_digits(text) {
        return BodyLength::Bad;
    }
    let mut number = 0;
    'digits: for digit in text {
        number = 10 * number + usize::from(digit - b'0');
        if number > MAX_RUN_BYTES {
            return BodyLength::Long;
        }
    }
    BodyLength::Bytes(number)
}
