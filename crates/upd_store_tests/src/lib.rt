//! Tests of the desk and of its stores. Over lists and over SQLite: worked lists of runs, random lists beside the reference
//! desk, the decks that it reads, row changes, commits that fail, and a store with its rows in memory beside the plain one.
//! In SQLite: rows that another connection reads again, crashes at calls of the disk, files of the older schemas, one open
//! for both stores, and random lists whose tables are compared row by row. Those of `surface_desk` and `surface_wire` make
//! each public call of stores, the desk and its wire once, by its path.
//!
//! Expected values are worked by hand from `docs/rules.md` and `docs/protocol.md`, or come from the reference desk.
#![tactic(auto)]

#[cfg(test)]
mod changes_of_runs;
#[cfg(test)]
mod decks_read;
#[cfg(test)]
mod desk_crashes;
#[cfg(test)]
mod empty_stores;
#[cfg(test)]
mod failed_commits;
#[cfg(test)]
mod fused_files;
#[cfg(test)]
mod late_decks;
#[cfg(test)]
mod list_rows;
#[cfg(test)]
mod migrated;
#[cfg(test)]
mod migration_crashes;
#[cfg(test)]
mod moved_places;
#[cfg(test)]
mod older_files;
#[cfg(test)]
mod once_opened;
#[cfg(test)]
mod random_lists;
#[cfg(test)]
mod refused_directives;
#[cfg(test)]
mod stored;
#[cfg(test)]
mod surface_desk;
#[cfg(test)]
mod surface_wire;
#[cfg(test)]
mod table_rows;
#[cfg(test)]
mod tree_answers;
#[cfg(test)]
mod worked_lists;
#[cfg(test)]
mod written_store;
