//! Applying correction runs to a library: the effect of each line, whole runs, and purging back.
//!
//! `apply` is the entry point; `docs/rules.md` has the rules. Besides the refusals of the rules only NoMemory occurs,
//! when memory runs out.
#![tactic(auto)]

pub mod applying;
mod compile;
mod names;
mod purges;
pub mod state;
mod step;
mod yanks;

pub use applying::{Applied, ReachedLibrary, apply, purge_back, reach};
pub use state::{CurrentSet, InsertPoint, State};
pub use step::numbers_rise_by_one;
