//! What whoever keeps a library asks of it: who switched the cards of a deck last, what an ident did, what a fault means,
//! which runs and sites there are, and one page of all of it.
//!
//! Nothing changes. Each text is lines, each with LF.
#![tactic(auto)]

mod appending;
pub mod deck_blame;
pub mod escaping;
pub mod fault_texts;
pub mod ident_report;
mod introducing_run;
pub mod library_page;
mod printing;
mod runs;
mod sites;

pub use deck_blame::{blame, texts_begin_in_one_column};
pub use escaping::escaped_texts_have_no_markup;
pub use fault_texts::{each_fault_has_one_text, explain, fault_list};
pub use ident_report::show;
pub use introducing_run::{introducer, introduces};
pub use library_page::{page, pages_need_nothing_outside};
pub use printing::printed_texts_are_printable;
pub use runs::{run_lines, run_list};
pub use sites::{greatest_number_is_this, site_lines};
