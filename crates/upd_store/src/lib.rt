//! The stores of a library's file: over a connection of SQLite, and, for reading, over the trees below SQL.
#![tactic(auto)]

mod exposure;
pub mod file;
mod log_file;
mod one_open;
mod row_store;
mod sql_store;
mod store_faults;
mod tree_columns;
mod tree_finds;
mod tree_library;
mod tree_opening;
mod tree_reads;
mod tree_records;
mod tree_store;
mod tree_tallies;
mod version;

pub use exposure::{is_foreign_file, is_foreign_log, is_open_folder};
pub use log_file::{has_frames, is_beside_file, is_closed_log, is_log_alone};
pub use one_open::{Opened, Purpose, open_once, opened};
pub use sql_store::SqlStore;
pub use store_faults::{fault_of, no_memory, refused, store_at};
pub use tree_store::TreeStore;
pub use version::version_of;
