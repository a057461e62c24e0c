//! Numbers and runs that look random, the same each time.
ghost use Rattle.std.specs.Prelude.{◌<◌};

use crate::asks::Ask;
use std::alloc::Global;
use std::test::Fail;

/// Three decks, the third one common, on which the random runs act.
pub const DECKS: &str =
    "*DECK P0\nONE\nTWO\nTHREE\n*DECK P1\nONE\nTWO\n*CALL P2\n*COMDECK P2\nONE\nTWO\nTHREE\n";

/// Listings of what random runs may leave on these decks.
pub const LISTINGS: [Ask<'static>; 11] = [
    Ask::Idents,
    Ask::Yanks,
    Ask::Deck("P0"),
    Ask::Deck("P1"),
    Ask::Deck("P2"),
    Ask::Deck("S1"),
    Ask::Deck("YANK$$$"),
    Ask::Card("P0.2"),
    Ask::Card("S3.1"),
    Ask::Card("Q.1"),
    Ask::Compile,
];

/// Numbers that look random; the field is the seed.
#[derive(Drop)]
pub struct Dice(pub u32);

impl Dice {
    /// A number below another one; 0 where that is 0.
    pub fn below(&mut self, limit: u32) -> u32
        ensures { 0 < limit → result < limit }
    {
        self.0 = self.0.wrapping_mul(1_664_525).wrapping_add(1_013_904_223);
        (self.0 >> 8).checked_rem(limit).unwrap_or(0)
    }
}

/// Adds a line of the `n`th run, on a set or a deck that may be there.
fn add_line(text: &mut String, dice: &mut Dice, n: u32) -> Result<(), Fail> {
    let set = dice.below(n.saturating_add(1));
    let deck = dice.below(3);
    let card = dice.below(4).saturating_add(1);
    let written = match dice.below(13) {
        0 | 1 => write!(text, "*INSERT P{deck}.{card}\nSAY \"{n}\"\t\\\n"),
        2 | 3 => write!(text, "*DELETE P{deck}.{card}\n"),
        4 => write!(text, "*RESTORE P{deck}.{card}\n"),
        5 => write!(text, "*YANK S{set}\n"),
        6 => write!(text, "*SELYANK P{deck}.S{set}\n"),
        7 => write!(text, "*YANKDECK P{deck}\n"),
        8 | 9 => write!(text, "*DELETE S{set}.1\n"),
        10 => write!(text, "*RESTORE S{set}.1\n"),
        11 => write!(text, "*SELPURGE P{deck}.S{set}\n*IDENT T{n}\n"),
        _ => write!(text, "*PURGE S{set}\n*IDENT T{n}\n"),
    };
    Ok(written?)
}

/// The `n`th run: one to three lines.
pub fn random_run(alloc: Global, dice: &mut Dice, n: u32) -> Result<String, Fail> {
    let mut text = format!(in alloc; "*IDENT S{n}\n")?;
    for _ in 0..dice.below(3).saturating_add(1) {
        add_line(&mut text, dice, n)?;
    }
    Ok(text)
}
