//! Refusals of edited texts.

ghost use Rattle.std.specs.Prelude.{◌≡◌};
ghost use Rattle.upd_correct.specs.declared.refusal.CorrectError.TheVariants.{NoMemory};

use std::alloc::{AllocError, AllocFailed};
use upd_core::CardRef;
use upd_text::Name;

/// Why a line of an edited text, or the text as a whole, is refused.
#[derive(Clone, Copy, Debug, PartialEq, Eq)]
pub enum Problem {
    /// A byte that no line may have: other than 0x20 to 0x7E and the tab.
    BadByte,
    /// A line of more than 80 bytes, trailing blanks not counted.
    LineLong,
    /// A comment: a run would drop it.
    Comment,
    /// A directive's word in column 1: a run would carry it out.
    Directive,
    /// A line before the first line of any deck.
    NoDeck,
    /// The first line of a held deck isn't the text of its first card.
    FirstCard,
    /// No run can lead the deck to a text, because it is taken out of use.
    OutOfUse,
    /// The deck occurs twice in the text.
    DeckTwice,
    /// A new name that is held.
    NameTaken,
    /// `YANK$$$` as a new name.
    Reserved,
    /// The name of the set isn't a name.
    BadName,
    /// The run that was made has more than 2,000 lines.
    TooManyLines,
    /// The run that was made has more than 65,536 bytes.
    RunLong,
    /// The run that was made would exceed a limit of the library.
    Full,
    /// The run that was made isn't accepted, doesn't lead to the text or changes something else. That is a fault of this
    /// program, or of the listing that the library stands for.
    Unchecked,
    /// The sets of parts have no name.
    NoSet,
    /// The name of the sets of parts leaves no room for a number.
    SetLong,
    /// The set of a part, by its number, has a name that is held.
    PartTaken(usize),
    /// The set of a part has a name that isn't one.
    PartName(usize),
    /// The run of a part would exceed a limit of the library.
    PartFull(usize),
    /// A number that a part would have is used or settled.
    NumberUsed(u64),
    /// The run that was made would change a deck that a later set took out of use.
    Conflict { card: CardRef, set: Name },
}

/// A problem and where it is.
#[derive(Clone, Copy, Debug, PartialEq, Eq)]
pub struct Refusal {
    /// The number of the line in the text, from 1; 0 where the problem is not one of a line.
    pub line: usize,
    /// The column in the line, from 1; 0 where the problem is not one of a line.
    pub column: usize,
    pub problem: Problem,
}

/// Why there is no run.
#[derive(Debug, Drop)]
pub enum CorrectError {
    /// Out of memory.
    NoMemory,
    /// The text is refused: all its problems, in order of line.
    Refused(Vec<Refusal>),
}

impl From<AllocError> for CorrectError {
    ghost from_gives = { λ _ error. error ≡ NoMemory };

    fn from(_error: AllocError) -> CorrectError {
        CorrectError::NoMemory
    }
}

impl<T: Drop> From<AllocFailed<T>> for CorrectError {
    ghost from_gives = { λ _ error. error ≡ NoMemory };

    fn from(_error: AllocFailed<T>) -> CorrectError {
        CorrectError::NoMemory
    }
}
