//! What a request asks of the desk, or why it asks nothing.

ghost use Rattle.std.specs.Prelude.{◌≡◌};
ghost use Rattle.upd_text.specs.Faults.{fault_at};
ghost use Rattle.upd_text.specs.declared.fault.FaultKind.TheVariants.{NoMemory};

use crate::routes::Route;
use std::alloc::{AllocError, AllocFailed};
use upd_text::{CardRef, Fault, FaultKind, Name};

/// What a request asks of the desk. Its parameters are decoded.
#[derive(Debug, Drop)]
pub enum DeskCall {
    /// A run arrives.
    Run {
        site: String,
        number: u64,
        mode: String,
        body: Vec<u8>,
    },
    /// A site settles its runs up to a number.
    Settle {
        site: String,
        number: u64,
    },
    /// The full compile file.
    Compile,
    /// A deck's listing.
    Deck(Name),
    /// A card's listing.
    Card(CardRef),
    /// The directory.
    Idents,
    /// The yank cards.
    Yanks,
}

/// Why a request asks nothing of the desk.
#[derive(Clone, Copy, Debug, PartialEq, Eq)]
pub enum Refusal {
    /// CutFrame or Read: nothing is answered.
    Silent(Fault),
    /// The answer is this fault, with its own status.
    Answered(Fault),
    /// No route: BadFrame with status 404.
    NoRoute,
    /// The path has this route, and the method is not the route's: BadFrame with status 405.
    OtherMethod(Route),
}

impl Refusal {
    /// The refusal that answers a fault of this kind, which has no line.
    pub(crate) fn of(kind: FaultKind) -> Refusal
        ensures { result ≡ Refusal.Answered (fault_at kind 0) }
    {
        Refusal::Answered(kind.without_line())
    }

    /// The refusal that answers nothing, by a fault of this kind.
    pub(crate) fn silent(kind: FaultKind) -> Refusal
        ensures { result ≡ Refusal.Silent (fault_at kind 0) }
    {
        Refusal::Silent(kind.without_line())
    }
}

impl From<AllocError> for Refusal {
    ghost use Rattle.upd_wire.specs.declared.call.Refusal.{Refusal};

    ghost from_gives = { λ _ refusal. refusal ≡ Refusal.Answered (fault_at NoMemory 0) };

    fn from(_error: AllocError) -> Refusal {
        Refusal::of(FaultKind::NoMemory)
    }
}

impl<T: Drop> From<AllocFailed<T>> for Refusal {
    ghost use Rattle.upd_wire.specs.declared.call.Refusal.{Refusal};

    ghost from_gives = { λ _ refusal. refusal ≡ Refusal.Answered (fault_at NoMemory 0) };

    fn from(_error: AllocFailed<T>) -> Refusal {
        Refusal::of(FaultKind::NoMemory)
    }
}
