//! What the words of a command line ask for, and what help says of each command.
//!
//! Where clauses speak of both outcomes of a call, it stands in a `match` of two arms, so that each is a path of its
//! own (docs/DECISIONS.md, D-56).
#![tactic(auto)]

mod app;
mod changing;
mod keeping;
mod operands;
mod querying;
mod words;

pub use operands::most_digits_are_nine;
pub use querying::{Query, View};
pub use words::{
    Command, Endpoint, Request, read_words, requests_have_names, serve_is_read, trial_is_read,
};
