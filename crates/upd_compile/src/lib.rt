//! Compile files and listings: the texts that a site gets of a library.
//!
//! Each call that returns an `AllocError` fails only when memory runs out; a `Fault` may also be NoMemory, at line 0.
#![tactic(auto)]

mod callers;
mod chains;
pub mod changes;
mod chosen;
pub mod compiled_file;
mod flags;
pub mod idents;
mod indexed;
pub mod listings;
pub mod mode;
mod progress;
mod reach;
pub mod text_parts;
mod walk;

pub use chains::chains_are_paths;
pub use changes::changed;
pub use compiled_file::{
    CompileFile, compile_active, compile_file, quick_file_of_no_decks_is_empty,
};
pub use listings::{list_card, list_deck, list_idents, list_yanks};
pub use mode::Mode;
pub use walk::walks_go_by_depth;
