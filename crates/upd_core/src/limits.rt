//! The limits of a library.

ghost use Rattle.std.specs.Prelude.{◌≡◌};
ghost use Rattle.upd_core.specs.Limits.{is_within_limits};

use crate::library::Library;
use upd_text::limits::{MAX_CARDS, MAX_ENTRIES, MAX_HELD, MAX_INTRODUCED, MAX_TARGETS};

impl Library {
    /// Whether the library is within all its limits.
    pub fn is_within_limits(&self) -> bool
        ensures { result ≡ is_within_limits self.now }
    {
        self.idents.len() <= MAX_INTRODUCED
            && self.counts.held <= MAX_HELD
            && self.counts.cards <= MAX_CARDS
            && self.counts.entries <= MAX_ENTRIES
            && self.counts.targets <= MAX_TARGETS
    }
}
