//! Numbers as sites and clients write them: `0`, or 1 to 9 digits without a leading zero.
ghost use Rattle.std.specs.Prelude.{◌≡◌, ◌≤◌, length, true};
ghost use Rattle.std.specs.List.{list_all};
ghost use Rattle.upd_wire.specs.Numbers.{is_number, number_of};
ghost use Rattle.upd_text.specs.Names.{is_digit, number_behind};

use upd_text::all_digits;

/// The most digits of a number.
pub const MAX_DIGITS: usize = 9;

/// The number that digits spell, if there are one to nine and no 0 precedes others.
pub fn read_number(digits: &[u8]) -> Option<u32>
    ensures { result ≡ number_of digits.now }
{
    if is_number(digits) {
        Some(value_of(digits))
    } else {
        None
    }
}

fn is_number(digits: &[u8]) -> bool
    ensures { result ≡ is_number digits.now }
{
    !digits.is_empty()
        && digits.len() <= MAX_DIGITS
        && all_digits(digits)
        && (digits[0] != b'0' || digits.len() == 1)
}

/// The number that digits spell. It fits, since there are at most 9 of them.
fn value_of(digits: &[u8]) -> u32
    requires short { length digits.now ≤ MAX_DIGITS }
    requires digits { list_all is_digit digits.now ≡ true }
    ensures { result ≡ number_behind 0 digits.now }
{
    let mut number = 0;
    for digit in digits {
        number = 10 * number + u32::from(digit - b'0');
    }
    number
}
