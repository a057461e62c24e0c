//! From an edited text to a correction run.
//!
//! `correct` is the entry point: it compares decks of a library with their edited texts, and writes the run that leads
//! each of these decks to its text. It applies the run to a copy of the library and returns it only if nothing else
//! changes (`checking`). `correct_listed` does it for a deck that is known by its listing alone.
#![tactic(auto)]

mod bits;
mod checked_cards;
mod checked_decks;
mod checked_idents;
mod checked_library;
mod checked_texts;
mod checking;
pub mod correcting;
pub mod edit_parts;
mod edit_paths;
mod edit_pieces;
mod edited_deck;
mod edited_lines;
pub mod in_the_way;
mod listed_card;
pub mod listed_deck;
mod matching;
mod older_cards;
mod other_deck;
mod plan;
mod read_line;
pub mod refusal;
mod script;
mod writer;

pub use correcting::{correct, correct_since};
pub use edit_parts::correct_parts;
pub use listed_deck::{ListedError, correct_listed};
pub use refusal::{CorrectError, Problem, Refusal};
