//! Runs on parts of a library: which decks a run needs, and why a run on these decks is a run on the whole.
//!
//! `needs` reads a run; an `AllocError` there is out of memory. Each function of `part_laws` and of `partial_updates` has an
//! empty body, and each clause of it is a law about the definitions that other contracts cite. In these laws a plain run
//! is one without yanks and purges.
#![tactic(auto)]

pub mod needs;
pub mod part_laws;
pub mod partial_updates;
