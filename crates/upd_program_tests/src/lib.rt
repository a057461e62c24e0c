//! Tests of whole command lines, over memory and on a library in a file in the folder of temporary files.
//!
//! Expected values are worked by hand from `docs/protocol.md`.
#![tactic(auto)]

#[cfg(test)]
mod command_streams;
#[cfg(test)]
mod conditional_runs;
#[cfg(test)]
mod console;
#[cfg(test)]
mod deck_commands;
#[cfg(test)]
mod examined_files;
#[cfg(test)]
mod exposed_files;
#[cfg(test)]
mod file_changes;
#[cfg(test)]
mod file_sessions;
#[cfg(test)]
mod great_sizes;
#[cfg(test)]
mod kept_rows;
#[cfg(test)]
mod large_purges;
#[cfg(test)]
mod library_copies;
#[cfg(test)]
mod library_files;
#[cfg(test)]
mod listing_files;
#[cfg(test)]
mod lone_logs;
#[cfg(test)]
mod printed_fields;
#[cfg(test)]
mod refusals;
#[cfg(test)]
mod replayed_files;
#[cfg(test)]
mod served_address;
#[cfg(test)]
mod site_commands;
#[cfg(test)]
mod table_rows;
