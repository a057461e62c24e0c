//! The difference of two libraries: the cards that a run touched, and the row changes from one to the other.
//!
//! `AllocError` is the only error. It is also returned where the index of a card, an entry or a target exceeds 32 bits,
//! which is far above the limits of a library.
#![tactic(auto)]

mod card_diffs;
mod deck_diffs;
pub mod difference;
mod row_changes;
mod touched;

pub use difference::{Compared, compare};
