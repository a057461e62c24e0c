//! What a run that is tried does that its author may not mean.
ghost use Rattle.std.specs.Prelude.{◌≡◌, ◌++◌, OnOk};
ghost use Rattle.upd_edit.specs.Found.{found, is_conflict};

use std::alloc::AllocError;
use upd_core::Name;
use upd_text::CardRef;

/// A warning, by the number of its line from 1.
#[derive(Clone, Copy, Debug)]
pub struct Warning {
    pub line: usize,
    pub kind: WarningKind,
}

/// What a line does that its author may not mean.
#[derive(Clone, Copy, Debug)]
pub enum WarningKind {
    /// This number of comments is dropped, the first here.
    Comments(usize),
    /// The run has no lines.
    Empty,
    /// The text begins with a word that may be meant for that of a directive or call.
    NearWord,
    /// The card is off already, by an ident.
    OffAlready {
        card: CardRef,
        by: Name,
    },
    /// The range has this number of cards, more than 20.
    Wide(usize),
    /// The line meets an ident that is younger than SINCE.
    Conflict(Conflict),
    /// A run after the one that introduced SINCE purged this name, which an ident has that came no later.
    Purged {
        name: Name,
        since: Name,
    },
    /// A card that goes was switched by a younger ident that stays.
    TakesSwitched {
        word: TakingWord,
        card: CardRef,
        by: Name,
    },
    /// After a card that goes there is one of a younger ident that stays.
    TakesFollowed {
        word: TakingWord,
        card: CardRef,
        next: CardRef,
    },
    /// A deck right after a set that goes stays. Whether they came by one run is known, or it may be so.
    DeckStays {
        word: TakingWord,
        set: Name,
        deck: Name,
        known: bool,
    },
}

/// The word of a line that takes idents.
#[derive(Clone, Copy, Debug)]
pub enum TakingWord {
    Yank,
    Purge,
}

/// How a line meets an ident that is younger than SINCE.
#[derive(Clone, Copy, Debug)]
pub enum Conflict {
    /// A card that such an ident put in is deleted.
    Deleted {
        card: CardRef,
        since: Name,
    },
    /// The line names a card that such an ident put in, or restores a range with it.
    CameLater {
        card: CardRef,
        since: Name,
    },
    /// Such an ident put a card beside the one that the line names.
    Beside {
        card: CardRef,
        next: CardRef,
        since: Name,
    },
    /// Such an ident switched the card.
    Switched {
        card: CardRef,
        by: Name,
        since: Name,
    },
    /// The card was active, and is no more, by yanks alone.
    TakenOut {
        card: CardRef,
        since: Name,
    },
    /// The card was inactive, and is active, by yanks alone.
    CameBack {
        card: CardRef,
        since: Name,
    },
    /// The name was held before by an ident that is purged: which one the author saw isn't known.
    CameAgain {
        since: Name,
    },
}

impl WarningKind {
    /// Whether it is a conflict.
    pub fn is_conflict(&self) -> bool
        ensures { result ≡ is_conflict self.now }
    {
        matches!(self, WarningKind::Conflict(_))
    }
}

/// Appends a warning at a line, if there is one.
pub(crate) fn push(
    list: &mut Vec<Warning>,
    line: usize,
    kind: Option<WarningKind>,
) -> Result<(), AllocError>
    ensures { OnOk result (list.new.items ≡ list.old.items ++ found line kind) }
{
    if let Some(kind) = kind {
        list.extend_from_slice(&[Warning { line, kind }])?;
    }
    Ok(())
}
