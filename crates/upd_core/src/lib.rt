//! The program library: idents, decks of numbered cards, correction histories and yank cards, and their statuses.
//!
//! The rules are in `docs/rules.md`. A library changes only by the edits in `edits`; each is defined in `specs/Edits`.
//! Each call that returns an `AllocError` fails only when memory runs out. Where it returns a `Fault`, that is NoMemory
//! at line 0.
#![tactic(auto)]

pub mod active_refs;
pub mod actives;
pub mod card;
pub mod change;
pub mod counted;
mod counts;
pub mod deck;
mod decks;
pub mod edits;
mod gone;
pub mod ident;
pub mod library;
mod limits;
pub mod live;
pub mod sound_laws;
pub mod states;
pub mod status_laws;
pub mod target;
pub mod target_counts;
mod targets;

pub use active_refs::{ActiveCardRef, ActiveDeckRef, ActivesRef};
pub use actives::{ActiveDeck, Actives};
pub use card::{Card, Entry};
pub use change::Change;
pub use counted::{Counted, CountedCard};
pub use deck::Deck;
pub use ident::{Ident, Kind, Serial};
pub use library::{Library, Place, Rest};
pub use live::Live;
pub use states::States;
pub use target::Target;
pub use target_counts::TargetCounts;
pub use upd_text::{CardRef, Fault, FaultKind, Name};
