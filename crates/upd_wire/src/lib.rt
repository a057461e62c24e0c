//! The desk on the wire: spool files, and HTTP with one request for each connection.
//!
//! `specs/` defines what a request means. `httparse` reads the head, `matchit` finds the route and its parameters, and this
//! crate reads lengths and decodes parameters. Of a spool, frames are read one after the other, and the answer to each
//! is out before the next is read.
//!
//! Where clauses speak of both outcomes of a call, it is in a `match` of two arms, so that each is a path of its
//! own (docs/DECISIONS.md, D-56).
#![tactic(auto)]

mod ask;
mod call;
mod connections;
pub mod digits;
mod frame_answer;
mod frame_exchange;
mod frame_reads;
pub mod frames;
mod head;
pub mod header;
mod http_answer;
mod http_exchange;
mod http_laws;
mod http_status;
mod http_writes;
mod lengths;
mod log_lines;
mod parameters;
pub mod reading;
mod request;
mod request_laws;
mod routes;
pub mod spool_laws;
mod table;
pub mod writing;

pub use call::{DeskCall, Refusal};
pub use connections::{Listener, serve_on, serve_on_within};
pub use digits::read_number;
pub use frames::spool;
pub use http_exchange::serve_one;
pub use http_laws::{answers_are_owed, served_calls_continue_the_journal};
pub use reading::read_up_to;
pub use request::read_call;
pub use request_laws::{head_limits_are_these, requests_ask_one_thing};
pub use routes::{Route, routes_are_plain};
pub use table::RouteTable;
pub use writing::write_parts;
