//! Row changes: what a run changes in the tables of a store.

use crate::card::Entry;
use crate::ident::{Ident, Serial};
use crate::target::Target;
use upd_text::CardRef;

/// One change of the tables. A store carries out a list of them in order.
#[derive(Debug, Drop)]
pub enum Change {
    IdentNew(Ident),
    /// The ident with this serial is no longer held.
    IdentPurged(Serial),
    CardNew {
        card: CardRef,
        /// 0 for `YANK$$$`.
        deck: Serial,
        /// From 0 in each deck.
        pos: u32,
        text: Vec<u8>,
    },
    /// The card is deleted, and its status with it.
    CardGone(CardRef),
    /// The cards of a deck at position `from` or later move by `by`: towards the front where it is negative.
    CardsMoved {
        deck: Serial,
        from: u32,
        by: i64,
    },
    EntryNew {
        card: CardRef,
        /// From 0 on each card.
        ord: u32,
        entry: Entry,
    },
    /// All entries of the card are deleted; those that stay follow as `EntryNew`.
    EntriesGone(CardRef),
    TargetNew {
        card: CardRef,
        /// From 0 on each card.
        ord: u32,
        target: Target,
    },
    /// All targets of the card are deleted. They are listed, so that a store that counts targets needs no look-up.
    TargetsGone {
        card: CardRef,
        targets: Vec<Target>,
    },
    /// Whether the card is active now; for a yank card, whether it is live.
    StatusNow {
        card: CardRef,
        active: bool,
    },
    /// The number of live yank cards that have the target; 0 leaves no row.
    CountNow {
        target: Target,
        n: u32,
    },
}
