//! Stores of rows: what a store promises, a store over lists, and the store over SQLite.
#![tactic(auto)]

pub use upd_memory::ListStore;
pub use upd_migrate::load_rows;
pub use upd_records::RunRow;
pub use upd_row_store::{Homes, Meaning, RowStore};
pub use upd_store::SqlStore;
