//! What whoever keeps a library asks of its file: a whole copy, one made anew, whether it is sound, and whether its stored
//! runs make it again. What is read stays as it is.
#![tactic(auto)]

mod all_rows;
mod compacting;
mod copying;
mod crash_law;
mod file_examination;
mod looking_at;
mod other_tables;
mod page_sums;
mod replaying;
mod situation;
mod stored_replies;
mod stored_tables;
mod versions;

pub use compacting::compact;
pub use copying::{backup, whole_copy};
pub use crash_law::crash_after_arrival;
pub use file_examination::{Examined, Report, examine, examine_tables};
pub use replaying::{Replayed, replay_store};
pub use situation::Situation;
