//! Tests of spools and of HTTP: worked input and its answers, input that is cut or garbled, readers and writers that
//! fail, connections, and desks that are refused memory.
//!
//! Those of `memory_of_desks` and `memory_of_streams` hold wherever one request for memory is refused:
//! `bench/memory.py` refuses each in turn. Expected values are worked by hand from `docs/rules.md`.
#![tactic(auto)]

#[cfg(test)]
mod cut_input;
#[cfg(test)]
mod http_answers;
#[cfg(test)]
mod http_connections;
#[cfg(test)]
mod http_desk;
#[cfg(test)]
mod http_frames;
#[cfg(test)]
mod list_desks;
#[cfg(test)]
mod log_of_connections;
#[cfg(test)]
mod memory_of_desks;
#[cfg(test)]
mod memory_of_streams;
#[cfg(test)]
mod spool_frames;
#[cfg(test)]
mod spool_streams;
#[cfg(test)]
mod twin_desks;
