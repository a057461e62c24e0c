//! Yanks, and yanks of yanks.

use crate::asked_library::{Ask, Asked, DECK_A, check};
use std::test::Fail;

const REPLACED: &str = "*IDENT X\n*DELETE A.2\nNEW\n";

const IN_TWO_DECKS: &str = "*IDENT X\n*INSERT A.2\nXA\n*INSERT B.2\nXB\n";

const SELECTED: &str = "*IDENT Y\n*SELYANK A.X,B.X\n*YANKDECK B\n";

const ASKED: Asked = &[
    // A yank takes back what a set did (rule 5.5).
    (Ask::Run(DECK_A), "accepted"),
    (Ask::Run(REPLACED), "accepted"),
    (Ask::Active, "X.1 A.3 A.4"),
    (Ask::Run("*IDENT Z\n*YANK X\n"), "accepted"),
    (Ask::Active, "A.2 A.3 A.4"),
    (
        Ask::Deck("A"),
        "DECK A\nA A.1 *DECK A\nA A.2 ONE\nI X.1 NEW\nA A.3 TWO\nA A.4 THREE\n",
    ),
    // Each deletion is an entry (rule 1.15).
    (Ask::Empty, ""),
    (Ask::Run(DECK_A), "accepted"),
    (Ask::Run("*IDENT X\n*DELETE A.2\n"), "accepted"),
    (Ask::Run("*IDENT Y\n*DELETE A.2\n"), "accepted"),
    (Ask::Run("*IDENT Z\n*YANK X\n"), "accepted"),
    (
        Ask::Card("A.2"),
        "CARD A.2\nDECK A\nTEXT ONE\nSTATUS inactive\nENTRY A on\nENTRY X off taken\nENTRY Y off\n",
    ),
    // Two yanks of one set (rule 5.1).
    (Ask::Empty, ""),
    (Ask::Run(DECK_A), "accepted"),
    (Ask::Run(REPLACED), "accepted"),
    (Ask::Run("*IDENT V\n*YANK X\n"), "accepted"),
    (Ask::Run("*IDENT W\n*YANK X\n"), "accepted"),
    (Ask::Run("*IDENT U\n*DELETE V.1\n"), "accepted"),
    (Ask::Active, "A.2 A.3 A.4"),
    (Ask::Run("*IDENT T\n*DELETE W.1\n"), "accepted"),
    (Ask::Active, "X.1 A.3 A.4"),
    (Ask::Run("*IDENT S\n*RESTORE V.1\n"), "accepted"),
    (Ask::Active, "A.2 A.3 A.4"),
    // A yank of a yank (rule 5.6).
    (Ask::Empty, ""),
    (Ask::Run(DECK_A), "accepted"),
    (Ask::Run(REPLACED), "accepted"),
    (Ask::Run("*IDENT Y\n*YANK X\n"), "accepted"),
    (Ask::Run("*IDENT Z\n*YANK Y\n"), "accepted"),
    (Ask::Active, "X.1 A.3 A.4"),
    (Ask::Run("*IDENT W\n*DELETE Z.1\n"), "accepted"),
    (Ask::Active, "A.2 A.3 A.4"),
    (
        Ask::Yanks,
        "live Y.1 *YANK X\n set X\ndead Z.1 *YANK Y\n set Y\n",
    ),
    // Yanks in one deck (rules 4.14 and 4.15).
    (Ask::Empty, ""),
    (Ask::Run(DECK_A), "accepted"),
    (Ask::Run("*DECK B\nBEE\n"), "accepted"),
    (Ask::Run(IN_TWO_DECKS), "accepted"),
    (Ask::Run("*IDENT Y\n*SELYANK A.X\n"), "accepted"),
    (Ask::Active, "A.2 A.3 A.4 B.2 X.2"),
    (Ask::Run("*SELPURGE B.X\n"), "accepted"),
    (Ask::Active, "A.2 A.3 A.4 B.2"),
    (Ask::Run("*IDENT W\n*DELETE Y.1\n"), "accepted"),
    (Ask::Active, "A.2 X.1 A.3 A.4 B.2"),
    (Ask::Run("*IDENT Z\n*YANKDECK A\n"), "accepted"),
    (Ask::Active, "B.2"),
    (Ask::Run("*PURDECK A\n"), "accepted"),
    (Ask::Active, "B.2"),
    (Ask::Run("*IDENT V\n*DELETE A.2\n"), "CardUnknown (13) at 2"),
    // A target of a purged deck is marked (rules 6.6 and 9.11).
    (Ask::Empty, ""),
    (Ask::Run(DECK_A), "accepted"),
    (Ask::Run("*DECK B\nBEE\n"), "accepted"),
    (Ask::Run(IN_TWO_DECKS), "accepted"),
    (Ask::Run(SELECTED), "accepted"),
    (
        Ask::Yanks,
        "live Y.1 *SELYANK A.X,B.X\n setin X A\n setin X B\nlive Y.2 *YANKDECK B\n deck B\n",
    ),
    (Ask::Run("*PURDECK B\n"), "accepted"),
    (
        Ask::Yanks,
        "live Y.1 *SELYANK A.X,B.X\n setin X A\n setin X B purged\nlive Y.2 *YANKDECK B\n deck B purged\n",
    ),
    // So is one of a purged set (rules 6.6 and 9.11).
    (Ask::Empty, ""),
    (Ask::Run(DECK_A), "accepted"),
    (Ask::Run("*DECK B\nBEE\n"), "accepted"),
    (Ask::Run(IN_TWO_DECKS), "accepted"),
    (Ask::Run(SELECTED), "accepted"),
    (Ask::Run("*PURGE X\n"), "accepted"),
    (
        Ask::Yanks,
        "live Y.1 *SELYANK A.X,B.X\n setin X A purged\n setin X B purged\nlive Y.2 *YANKDECK B\n deck B\n",
    ),
];

#[test]
fn yanks_are_as_the_rules_say(rt: HostRuntime) -> Result<(), Fail> {
    check(rt.alloc(), ASKED)
}
