//! What the commands of the program do with streams and any desk. Nothing here needs a library in a file.
//!
//! Where clauses speak of both outcomes of a call, it stands in a `match` of two arms, so that each is a path of its
//! own (docs/DECISIONS.md, D-56).
#![tactic(auto)]

mod arriving;
mod binding;
mod correction_command;
mod desk_command;
mod exit_status;
mod explaining;
mod listening;
mod listing_file;
mod local_socket;
mod parts_command;
mod queries;
mod streams;
mod trial_run;

pub use binding::{Bound, Host, bind};
pub use desk_command::{carry_out_at, read_first};
pub use exit_status::{DONE, FAILED, REFUSED, finish, finish_with, report_unread, report_words};
pub use explaining::carry_out_explaining;
pub use listing_file::{correct_listing, read_listing};
pub use streams::{write_out, write_parts_out};
pub use trial_run::{carry_out_trial, trial};
