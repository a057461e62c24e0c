//! Operands of commands, as they are written.
ghost use Rattle.std.specs.Prelude.{◌≡◌, ◌≤◌, MatchOption, codes, length, true};
ghost use Rattle.std.specs.List.{list_all};
ghost use Rattle.std.specs.Net.Grammar.{IsSocketText};
ghost use Rattle.clap.specs.Words.{found_of, rows_of};
ghost use Rattle.upd_text.specs.Names.{is_digit, number_behind};
ghost use Rattle.upd_words.specs.Operands.{IsNoAddress, card_read, is_number, name_read, number_read};
ghost use Rattle.upd_words.specs.Words.{IsCount, SpellsCount, operand_in};
ghost use Rattle.upd_words.specs.declared.operands.TheConstants.{MAX_DIGITS};

use clap::ArgMatches;
use std::net::SocketAddr;
use upd_text::{CardRef, Fault, FaultKind, Name, all_digits};

/// The most digits of a run number.
pub const MAX_DIGITS: usize = 9;

/// The most digits of a run number, as a number.
pub fn most_digits_are_nine()
    ensures { MAX_DIGITS ≡ 9 }
{}

/// The word of an operand, which is required.
pub(crate) fn word<'a>(operands: &ArgMatches<'a>, name: &str) -> &'a str
    ensures { result.now ≡ operand_in name.now (rows_of (found_of operands.now)) }
{
    operands.get_str(name).unwrap_or("")
}

/// The number of connections, which clap has let through.
pub(crate) fn count(operands: &ArgMatches<'_>) -> u32
    ensures { SpellsCount (operand_in (codes "COUNT") (rows_of (found_of operands.now)))
        → IsCount (operand_in (codes "COUNT") (rows_of (found_of operands.now))) result }
{
    word(operands, "COUNT").parse::<u32>().unwrap_or(0)
}

/// A run number: 1 to 9 digits without a leading zero, or `0`, which the desk refuses. Another word is BadNumber, at 0.
pub(crate) fn number(operands: &ArgMatches<'_>) -> Result<u64, Fault>
    ensures { result ≡ number_read (operand_in (codes "NUMBER") (rows_of (found_of operands.now))) }
{
    let digits = word(operands, "NUMBER").as_bytes();
    if is_number(digits) {
        Ok(value_of(digits))
    } else {
        Err(FaultKind::BadNumber.without_line())
    }
}

fn is_number(digits: &[u8]) -> bool
    ensures { result ≡ is_number digits.now }
{
    !digits.is_empty()
        && digits.len() <= MAX_DIGITS
        && all_digits(digits)
        && (digits[0] != b'0' || digits.len() == 1)
}

/// The number that digits spell.
fn value_of(digits: &[u8]) -> u64
    requires short { length digits.now ≤ MAX_DIGITS }
    requires digits { list_all is_digit digits.now ≡ true }
    ensures { result ≡ number_behind 0 digits.now }
{
    let mut number = 0;
    for digit in digits {
        number = 10 * number + u64::from(digit - b'0');
    }
    number
}

/// The name of a deck or an ident, in the operand of this name. Another word is BadName, at 0.
pub(crate) fn name<'a>(operands: &ArgMatches<'a>, operand: &str) -> Result<Name, Fault>
    ensures { result ≡ name_read (operand_in operand.now (rows_of (found_of operands.now))) }
{
    match Name::read(word(operands, operand).as_bytes()) {
        Some(name) => Ok(name),
        None => Err(FaultKind::BadName.without_line()),
    }
}

/// A card. Another word is BadCard, at 0.
pub(crate) fn card(operands: &ArgMatches<'_>) -> Result<CardRef, Fault>
    ensures { result ≡ card_read (operand_in (codes "CARD") (rows_of (found_of operands.now))) }
{
    match CardRef::read(word(operands, "CARD").as_bytes()) {
        Some(card) => Ok(card),
        None => Err(FaultKind::BadCard.without_line()),
    }
}

/// An IP address and a port.
pub(crate) fn read_address(word: &str) -> Option<SocketAddr>
    ensures { MatchOption result (IsNoAddress word.now) (IsSocketText word.now) }
{
    match word.parse::<SocketAddr>() {
        Ok(address) => Some(address),
        Err(_) => None,
    }
}
