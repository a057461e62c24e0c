//! Laws of whole runs: what holds of every library that runs can reach, and what purging back undoes.
//!
//! Each function has an empty body. Each clause of it is a law about the definitions that other contracts cite.
#![tactic(auto)]

pub mod compile_lines;
pub mod numbers;
pub mod purging_back;
pub mod read_runs;
pub mod soundness;
