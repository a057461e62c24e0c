//! Whether a library is sound and whole, part by part; and what is wrong with the rows of a library, a line each.
#![tactic(auto)]

pub mod bytes;
mod conjunctions;
mod copies;
mod differing;
pub mod examining;
mod grown;
pub mod line_texts;
mod lines;
pub mod own_rows;
pub mod row_keys;
mod row_lists;
mod row_texts;
mod run_findings;
pub mod same_rows;
pub mod sound;
pub mod sound_rows;
pub mod sound_tests;
pub mod stored_runs;
pub mod stored_states;
mod text_findings;
mod unsound;

pub use examining::findings;
pub use sound::is_sound;
pub use sound_rows::are_sound_rows;
