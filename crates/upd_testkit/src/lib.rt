//! What the crates of tests share: checks, random runs, a reference desk, a desk beside it, and streams
//! that fail.
//!
//! A check ends a test by an error, since a library may not end a program.
#![tactic(auto)]

pub mod applying;
pub mod asks;
pub mod check;
pub mod fake_streams;
pub mod random_runs;
pub mod reference_desk;
pub mod reference_rows;
pub mod replies;
pub mod session;
pub mod worked_spool;
