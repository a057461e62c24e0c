//! Stored statuses of cards and counts of targets, updated after each run. An update reads only the histories of cards
//! whose status the run may have changed.
//!
//! Each call that returns an `AllocError`, or a `Fault` (NoMemory at line 0), fails only when memory runs out.
#![tactic(auto)]

pub mod cache;
mod cascade;
pub mod laws;
mod renewing;
mod status_changes;
mod statuses;
mod touched_set;

pub use cache::Cache;
