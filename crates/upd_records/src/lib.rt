//! The tables of a library as records, and the effect of row changes on them. `AllocError` is the only error.
#![tactic(auto)]

pub mod row_edits;
pub mod rows;
pub mod run_row;

pub use row_edits::{copy_cards, drop_card, drop_targets, purge_ident};
pub use rows::{
    CardRow, CountRow, EntryRow, LibraryRows, MarkRow, StateRow, TargetRow, copy_run, same_ref,
};
pub use run_row::{RunRow, mode_word};
