//! The commands of the program: the library in a file is opened, a command does its work, and the exit status says how
//! it ended. What commands do with streams and a desk is in `upd_subcommands`.
//!
//! Where clauses speak of both outcomes of a call, it stands in a `match` of two arms, so that each is a path of its
//! own (docs/DECISIONS.md, D-56).
#![tactic(auto)]

mod command;
mod desk_work;
mod examined;
mod library_file;
mod process;
mod replay_report;

pub use command::{run_command, run_command_from};
pub use process::run_process;
pub use upd_subcommands::{report_words, trial};
pub use upd_words::{serve_is_read, trial_is_read};
