//! Files of older schemas: read as they are, or migrated to the present schema.
//!
//! A version of the schema has the first six, eight or nine of the library's tables. In a transaction a file gets the
//! tables that it lacks, and is then read and filled by the statements of the present schema. A read rolls this
//! transaction back, a migration commits it.
#![tactic(auto)]

mod completing;
mod filling;
mod initial_states;
mod loading;
mod migrating;
mod older_version;

pub use loading::load_rows;
pub use migrating::migrate;
