//! The order that the kit's SQLite keeps its rows in, and what single statements do to tables of rows, whatever the rows
//! mean.
#![tactic(auto)]

pub mod order;
pub mod statements;

pub use order::{Rising, begin, committed_schema};
pub use statements::{ask, run, run_counted};
