//! Tests of how runs are read, of whole runs from their bytes to compile files and listings, of statuses and limits, of
//! edited texts, runs that are tried and lists of runs, and of public calls that no other test has (`surface`).
//!
//! Expected values are worked by hand from `docs/rules.md`, or come from a second implementation. Tests are in crates of
//! their own, since a crate with tests is proved once more with them.
#![tactic(auto)]

#[cfg(test)]
mod asked_library;
#[cfg(test)]
mod common_deck_runs;
#[cfg(test)]
mod conflicts;
#[cfg(test)]
mod correction_runs;
#[cfg(test)]
mod edited_texts;
#[cfg(test)]
mod examined_rows;
#[cfg(test)]
mod examined_tables;
#[cfg(test)]
mod explained_faults;
#[cfg(test)]
mod great_texts;
#[cfg(test)]
mod library_limits;
#[cfg(test)]
mod listed_decks;
#[cfg(test)]
mod listed_runs;
#[cfg(test)]
mod long_runs;
#[cfg(test)]
mod purge_runs;
#[cfg(test)]
mod surface;
#[cfg(test)]
mod texts_in_parts;
#[cfg(test)]
mod texts_read;
#[cfg(test)]
mod texts_since;
#[cfg(test)]
mod tried_runs;
#[cfg(test)]
mod yank_runs;
