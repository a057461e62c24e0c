//! The text layer of the program library: names, card references, words and fields of a line, refusals and limits.
//!
//! `upd_deck`, `upd_core` and `upd_compile` build on these types; `docs/rules.md` has their rules. Each call that
//! returns an `AllocError` fails only when memory runs out.
#![tactic(auto)]

pub mod card_ref;
pub mod fault;
pub mod keys;
pub mod limits;
pub mod line;
pub mod name;

pub use card_ref::{CardRef, all_digits};
pub use fault::{Fault, FaultKind};
pub use name::Name;
