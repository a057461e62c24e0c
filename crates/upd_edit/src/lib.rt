//! What a programmer asks of a library in order to edit it: the text of a deck, its source, the run that corrects it,
//! and what a run would do.
//!
//! The calls of `editing` and `condition` ask a desk, the others a `Library`.
#![tactic(auto)]

pub mod condition;
pub mod deck_source;
pub mod deck_text;
pub mod earlier;
pub mod editing;
mod meeting;
mod near_words;
mod purges_since;
pub mod refused;
pub mod staying_decks;
pub mod warning;
pub mod warning_text;
pub mod warnings;
mod yank_warnings;

pub use condition::arrive_since;
pub use deck_source::source;
pub use deck_text::active_text;
pub use earlier::as_of;
pub use editing::{EditError, MAX_TEXT_BYTES, correct_at, parts_at, try_at};
pub use refused::refusal_lines;
pub use staying_decks::{all_by_runs, ask_runs};
pub use warning::{Conflict, TakingWord, Warning, WarningKind};
pub use warning_text::write_warnings;
pub use warnings::{conflicts, warning_list};
