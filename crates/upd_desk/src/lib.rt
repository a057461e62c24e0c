//! The desk: each run acts once, in the order of first arrival.
//!
//! What the desk owes after a journal of arrivals and settlements stands in `specs/`, and here are laws of it
//! and the desk, over any store of rows.
#![tactic(auto)]

pub mod arrival;
mod arrive;
pub mod desk;
pub mod desk_laws;
mod library_queries;
mod mark;
mod outcome;
pub mod reply;
mod reply_texts;
mod reply_values;
mod run_loading;
pub mod trying;

pub use arrival::Arrival;
pub use desk::Desk;
pub use mark::{SETTLED_ROOM, settled_parts};
pub use reply::{Reply, fault_answer};
pub use reply_texts::fault_text;
pub use trying::reply_on;
