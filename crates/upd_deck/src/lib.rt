//! The reader of correction runs: cuts a run into lines, and reads the directive, call or text of each.
//!
//! `read_run` is the entry point; `docs/rules.md` has the rules. A fault is that of the first faulty line; besides
//! those of the rules only NoMemory occurs, at line 0, when memory runs out.
#![tactic(auto)]

mod cut;
mod fields;
pub mod grammar;
pub mod item;
pub mod read;
pub mod run;
pub mod word;

pub use item::{IdentIn, Item, NameRange};
pub use read::read_run;
pub use run::{Line, Run, Span};
