//! Insertions, deletions and restorations.

use crate::asked_library::{Ask, Asked, DECK_A, check};
use std::test::Fail;

const ASKED: Asked = &[
    // Later insertions at one place come first (rule 4.6).
    (Ask::Run(DECK_A), "accepted"),
    (Ask::Run("*IDENT X\n*INSERT A.2\nXX\n"), "accepted"),
    (Ask::Run("*IDENT Y\n*INSERT A.2\nYY\n"), "accepted"),
    (Ask::Active, "A.2 Y.1 X.1 A.3 A.4"),
    // Short forms, remarks and comments (rules 2.8 and 2.15).
    (Ask::Empty, ""),
    (Ask::Run(DECK_A), "accepted"),
    (
        Ask::Run("*ID X cleanup\n*D A.2 , A.3 old lines\n*/ note\nNEW\n*FOO\n"),
        "accepted",
    ),
    (Ask::Active, "X.1 X.2 A.4"),
    (
        Ask::Card("X.2"),
        "CARD X.2\nDECK A\nTEXT *FOO\nSTATUS active\nENTRY X on\n",
    ),
    // Texts before a card keep their order (rule 4.6).
    (Ask::Empty, ""),
    (Ask::Run(DECK_A), "accepted"),
    (Ask::Run("*IDENT X\n*BEFORE A.3\nXX\nXY\n"), "accepted"),
    (Ask::Active, "A.2 X.1 X.2 A.3 A.4"),
    // A deleted card is restored (rule 4.11).
    (Ask::Empty, ""),
    (Ask::Run(DECK_A), "accepted"),
    (Ask::Run("*IDENT X\n*DELETE A.2,A.3\n"), "accepted"),
    (Ask::Run("*IDENT Y\n*RESTORE A.3\nNEW\n"), "accepted"),
    (Ask::Active, "A.3 Y.1 A.4"),
    // A name has nine bytes (rule 2.10).
    (Ask::Empty, ""),
    (Ask::Run("*DECK ABCDEFGHIJ\n"), "BadName (5) at 1"),
    (Ask::Run("*DECK ABCDEFGHI\n"), "accepted"),
    (Ask::Idents, "1 ABCDEFGHI deck held\n"),
    // What a run introduced, named to be compiled, and touched (rules 4.7, 4.8 and 4.23).
    (Ask::Empty, ""),
    (Ask::Run(DECK_A), "accepted"),
    (
        Ask::Applied("*DECK B\n*IDENT X\n*DELETE A.2\nNEW\n*YANK A\n*C B,A.B\n"),
        "[2, 3] [1, 2] X.2 A.2 X.1 B.1",
    ),
    (Ask::Applied("*PURGE X\n"), "[] [] A.2"),
];

#[test]
fn corrections_are_as_the_rules_say(rt: HostRuntime) -> Result<(), Fail> {
    check(rt.alloc(), ASKED)
}
