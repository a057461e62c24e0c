//! Stored statuses and counts.

use crate::target::Target;
use upd_text::CardRef;

/// Statuses by card, of all cards or of those asked for; and by target the number of live yank cards that have it.
#[derive(Debug, Drop)]
pub struct States {
    pub states: Vec<(CardRef, bool)>,
    /// Only counts above 0 are listed.
    pub counts: Vec<(Target, u32)>,
}
