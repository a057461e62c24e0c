//! Stores with rows in memory: `MirrorStore`, which keeps the rows of another store beside it, and `ListStore`, which has
//! nothing below it: a library is replayed in it, and other stores are compared with it in tests.
#![tactic(auto)]

mod active_rows;
mod card_sets;
mod card_walk;
mod change_log;
mod from_memory;
pub mod list_store;
pub mod list_tables;
mod made;
pub mod mirror;
mod mirror_rows;
pub mod mirror_store;
mod moved_idents;
mod row_copies;
mod status_answers;
mod status_lookup;
mod tables;

pub use list_store::ListStore;
pub use list_tables::ListTables;
pub use mirror_store::MirrorStore;
