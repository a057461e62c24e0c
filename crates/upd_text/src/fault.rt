//! Refusals: the 33 kinds, and where each was met.

ghost use Rattle.std.specs.Prelude.{◌≡◌};
ghost use Rattle.upd_text.specs.Faults.{fault_at, fault_name, fault_number};
ghost use Rattle.upd_text.specs.declared.fault.FaultKind.TheVariants.{NoMemory};

use std::alloc::{AllocError, AllocFailed};
use thiserror::Error;

/// Why a call was refused.
#[derive(Clone, Copy, Debug, PartialEq, Eq)]
pub enum FaultKind {
    /// The run has more than 65,536 bytes.
    RunLong = 1,
    /// The run has more than 2,000 lines.
    TooManyLines,
    /// A byte that no line may have: other than 0x20 to 0x7E and the tab.
    BadByte,
    /// A line of more than 80 bytes, trailing blanks not counted.
    LineLong,
    /// A field that is not a name, a pair or a range of names.
    BadName,
    /// A field that is not a card reference.
    BadCard,
    /// A wrong number of fields, an empty field, a second field of `*COMDECK` other than `NOPROP`.
    BadField,
    /// A correction or yank with no current set.
    NoIdent,
    /// Text with no insertion point.
    TextNowhere,
    /// A new ident with the name of a held ident.
    NameTaken,
    /// No held ident of that name.
    IdentUnknown,
    /// No held deck of that name.
    DeckUnknown,
    /// No such card in the library.
    CardUnknown,
    /// A range that runs backwards, or over two decks.
    RangeOrder,
    /// A deck's first card or own ident where it may not be named.
    DeckCard,
    /// Text that would go into `YANK$$$`.
    YankText,
    /// A yank of an ident that isn't older than the current set.
    YankSelf,
    /// `YANK$$$` as a name where it isn't allowed.
    Reserved,
    /// The run would exceed a limit of the library.
    Full,
    /// A call whose name is not a held common deck.
    CallUnknown,
    /// A call at depth 9.
    CallDepth,
    /// A compile file of more than 10,000 lines, or one that follows more than 10,000 calls.
    CompileLong,
    /// The site isn't 1 to 8 of `A-Z` and `0-9`.
    BadSite,
    /// The number isn't 1 to 999,999,999.
    BadNumber,
    /// The mode isn't `full`, `quick` or `normal`.
    BadMode,
    /// A run of a known number with another mode or other bytes.
    RunChanged,
    /// A run whose number is at or below the site's settled mark.
    Settled,
    /// Out of memory; the call can be repeated.
    NoMemory,
    /// The store failed, or the file is not a library of the current schema.
    Store,
    /// A malformed frame or request, no route, or a method that the route doesn't have.
    BadFrame,
    /// The input ended inside a frame or request.
    CutFrame,
    /// The reader, an accept or a bind failed.
    Read,
    /// The writer failed or accepted no bytes.
    Write,
}

impl FaultKind {
    /// The number of the kind in replies.
    pub fn number(self) -> u32
        ensures { result ≡ fault_number self }
    {
        self as u32
    }

    /// The name of the kind in replies.
    pub fn name(self) -> &'static str
        ensures { result.now ≡ fault_name self }
    {
        match self {
            FaultKind::RunLong => "RunLong",
            FaultKind::TooManyLines => "TooManyLines",
            FaultKind::BadByte => "BadByte",
            FaultKind::LineLong => "LineLong",
            FaultKind::BadName => "BadName",
            FaultKind::BadCard => "BadCard",
            FaultKind::BadField => "BadField",
            FaultKind::NoIdent => "NoIdent",
            FaultKind::TextNowhere => "TextNowhere",
            FaultKind::NameTaken => "NameTaken",
            FaultKind::IdentUnknown => "IdentUnknown",
            FaultKind::DeckUnknown => "DeckUnknown",
            FaultKind::CardUnknown => "CardUnknown",
            FaultKind::RangeOrder => "RangeOrder",
            FaultKind::DeckCard => "DeckCard",
            FaultKind::YankText => "YankText",
            FaultKind::YankSelf => "YankSelf",
            FaultKind::Reserved => "Reserved",
            FaultKind::Full => "Full",
            FaultKind::CallUnknown => "CallUnknown",
            FaultKind::CallDepth => "CallDepth",
            FaultKind::CompileLong => "CompileLong",
            FaultKind::BadSite => "BadSite",
            FaultKind::BadNumber => "BadNumber",
            FaultKind::BadMode => "BadMode",
            FaultKind::RunChanged => "RunChanged",
            FaultKind::Settled => "Settled",
            FaultKind::NoMemory => "NoMemory",
            FaultKind::Store => "Store",
            FaultKind::BadFrame => "BadFrame",
            FaultKind::CutFrame => "CutFrame",
            FaultKind::Read => "Read",
            FaultKind::Write => "Write",
        }
    }

    /// The refusal at a line of a run, counted from 1. Out of memory has no line: it is at 0.
    pub fn at_line(self, number: u32) -> Fault
        ensures { result ≡ fault_at self number }
    {
        match self {
            FaultKind::NoMemory => Fault::from(AllocError),
            kind => Fault { kind, at: number },
        }
    }

    /// The refusal where no line is at fault: it is at 0.
    pub fn without_line(self) -> Fault
        ensures { result ≡ fault_at self 0 }
    {
        self.at_line(0)
    }
}

impl From<AllocError> for FaultKind {
    ghost from_gives = { λ _ kind. kind ≡ NoMemory };

    fn from(_error: AllocError) -> FaultKind {
        FaultKind::NoMemory
    }
}

impl<T: Drop> From<AllocFailed<T>> for FaultKind {
    ghost from_gives = { λ _ kind. kind ≡ NoMemory };

    fn from(_error: AllocFailed<T>) -> FaultKind {
        FaultKind::NoMemory
    }
}

/// A refusal: its kind and where it was met.
#[derive(Clone, Copy, Debug, PartialEq, Eq, Error)]
#[error("{} ({}) at {at}", .kind.name(), .kind.number())]
pub struct Fault {
    pub kind: FaultKind,
    /// A line of a run counted from 1, a frame of a spool, a schema version where a library is opened; otherwise 0.
    pub at: u32,
}

impl From<AllocError> for Fault {
    ghost from_gives = { λ _ fault. fault ≡ record { kind = NoMemory; at = 0 } };

    fn from(_error: AllocError) -> Fault {
        Fault {
            kind: FaultKind::NoMemory,
            at: 0,
        }
    }
}

impl<T: Drop> From<AllocFailed<T>> for Fault {
    ghost from_gives = { λ _ fault. fault ≡ record { kind = NoMemory; at = 0 } };

    fn from(_error: AllocFailed<T>) -> Fault {
        Fault {
            kind: FaultKind::NoMemory,
            at: 0,
        }
    }
}
