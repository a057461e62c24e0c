//! The library in a file that any SQLite shell opens.
//!
//! Nine tables of whole numbers, texts and bytes. Each SQL statement is a fixed string. Except for those that make the
//! tables, each is in a function of its own, whose contract says what the statement reads or changes.
#![tactic(auto)]

mod commits;
mod decode;
mod make;
mod many_decks;
mod moving;
mod moving_texts;
mod reads;
mod record;
mod removing;
mod row_writes;
mod schema;
mod settle;
mod stored;
mod texts;
mod values;
mod whole;
mod writes;

pub use commits::commit_changes;
pub use make::make_library;
pub use record::ILLEGIBLE;
pub use row_writes::carry_out_all;
pub use schema::{has_first_tables, is_library_schema, is_no_schema};
pub use settle::settle_site;
pub use stored::{
    stored_active, stored_library_rows, stored_mark, stored_run, stored_runs, stored_states,
};
pub use texts::{CREATE_COUNTS, CREATE_SETTLED, CREATE_STATES};
pub use whole::{ActiveRows, library_rows_in, rows_of, runs_in_turn};
