//! Card references: reading, writing and order.

ghost use Rattle.std.specs.Prelude.{◌≡◌, ◌↔◌, ℕ, List, if◌then◌else◌, Option, Some, None, IfSome, IsTrue};
ghost use Rattle.std.specs.List.{list_all};
ghost use Rattle.std.specs.Ordering.{is_eq};
ghost use Rattle.std.specs.declared.cmp.Ordering.TheVariants.{Equal};
ghost use Rattle.upd_text.specs.Order.{by_name, card_order, is_same_reference};
ghost use Rattle.upd_text.specs.declared.card_ref.CardRef.{CardRef};
ghost use Rattle.upd_text.specs.Names.{IsReference, card_of, card_text, is_card_number, is_digit, number_behind};

use crate::limits::MAX_NUMBER_DIGITS;
use crate::line::split_once;
use crate::name::Name;
use std::fmt;

/// A card as directives and listings name it: the name of its ident and its number, written `ident.number`.
#[derive(Clone, Copy, Debug, PartialEq, Eq, PartialOrd, Ord)]
pub struct CardRef {
    pub name: Name,
    /// 1 to 999,999 where it was read from a card field.
    pub number: u32,
}

impl CardRef {
    /// Reads a whole field as a card reference.
    pub fn read(field: &[u8]) -> Option<CardRef>
        ensures { result ≡ card_of field.now }
    {
        let (name, digits) = split_once(field, b'.')?;
        let name = Name::read(name)?;
        let number = read_number(digits)?;
        Some(CardRef { name, number })
    }
}

impl fmt::Display for CardRef {
    ghost output = { λ card. Some (card_text card) };

    fn fmt<W: fmt::Write>(&self, f: &mut fmt::Formatter<W>) -> fmt::Result {
        write!(f, "{}.{}", self.name, self.number)
    }
}

/// The number that the digits spell; None where they are not a card number.
fn read_number(digits: &[u8]) -> Option<u32>
    ensures { result ≡ (if is_card_number digits.now then Some (number_behind 0 digits.now) else None) }
{
    if is_card_number(digits) {
        Some(value_of(digits))
    } else {
        None
    }
}

fn is_card_number(digits: &[u8]) -> bool
    ensures { result ≡ is_card_number digits.now }
{
    !digits.is_empty()
        && digits.len() <= MAX_NUMBER_DIGITS
        && all_digits(digits)
        && digits[0] != b'0'
}

/// Whether a text consists of digits only; true for the empty text.
pub fn all_digits(text: &[u8]) -> bool
    ensures { result ≡ list_all is_digit text.now }
{
    text.iter().all(|byte| byte.is_ascii_digit())
}

/// The number that the digits spell. At most 6 digits, so it fits.
fn value_of(digits: &[u8]) -> u32
    requires { IsTrue (is_card_number digits.now) }
    ensures { result ≡ number_behind 0 digits.now }
{
    let mut number = 0;
    for digit in digits {
        number = 10 * number + u32::from(digit - b'0');
    }
    number
}

/// Reading and writing card references round-trips: each reference is read from exactly the one text that it is
/// written as.
pub fn card_references_are_read_from_one_text()
    ensures written { (field : List ℕ) → IfSome (card_of field) (λ card. field ≡ card_text card) }
    ensures spelled { (field : List ℕ) → IfSome (card_of field) IsReference }
    ensures read_back { (card : CardRef) → IsReference card → card_of (card_text card) ≡ Some card }
{}

/// References are ordered by the bytes of their names, then by number. Two are equal in this order exactly when they
/// are the same.
pub fn card_references_are_ordered_by_name()
    ensures order { (a b : CardRef) → card_order a b ≡ by_name a b }
    ensures equality { (a b : CardRef) → is_same_reference a b ≡ is_eq (card_order a b) }
    ensures exact { (a b : CardRef) → (card_order a b ≡ Equal) ↔ (a ≡ b) }
{}
