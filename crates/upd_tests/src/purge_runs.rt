//! Purges, purging back, and names that come again.

use crate::asked_library::{Ask, Asked, DECK_A, check};
use std::test::Fail;

const REPLACED: &str = "*IDENT X\n*DELETE A.2\nNEW\n";

const THREE: &str = "*IDENT X\n*INSERT A.4\nEND\n*DECK B\nBEE\n*IDENT Y\n*YANK A\n";

const PURGED: &str = "1 A deck held\n2 X set purged\n3 B deck purged\n4 Y set purged\n";

const ASKED: Asked = &[
    // A purge takes cards and entries (rule 6.1).
    (Ask::Run(DECK_A), "accepted"),
    (Ask::Run(REPLACED), "accepted"),
    (Ask::Run("*IDENT Y\n*YANK X\n"), "accepted"),
    (Ask::Run("*PURGE X\n"), "accepted"),
    (Ask::Active, "A.2 A.3 A.4"),
    (
        Ask::Card("A.2"),
        "CARD A.2\nDECK A\nTEXT ONE\nSTATUS active\nENTRY A on\n",
    ),
    (Ask::Run("*IDENT W\n*DELETE Y.1\n"), "accepted"),
    (Ask::Active, "A.2 A.3 A.4"),
    (Ask::Run("*IDENT X\n"), "accepted"),
    // Purging back by a run (rule 4.20).
    (Ask::Empty, ""),
    (Ask::Run(DECK_A), "accepted"),
    (Ask::Run(THREE), "accepted"),
    (Ask::Active, "X.1 B.2"),
    (Ask::Run("*PURGE X,*\n"), "accepted"),
    (Ask::Active, "A.2 A.3 A.4"),
    (Ask::Idents, PURGED),
    // Purging back by the call (rule 6.9).
    (Ask::Empty, ""),
    (Ask::Run(DECK_A), "accepted"),
    (Ask::Run(THREE), "accepted"),
    (Ask::PurgeBack(2), ""),
    (Ask::Active, "A.2 A.3 A.4"),
    (Ask::Idents, PURGED),
    // Names come again (rule 6.7).
    (Ask::Empty, ""),
    (Ask::Run(DECK_A), "accepted"),
    (Ask::Run(REPLACED), "accepted"),
    (Ask::Run("*IDENT Y\n*YANK X\n"), "accepted"),
    (Ask::Run("*PURGE X\n"), "accepted"),
    (Ask::Run("*IDENT X\n*DELETE A.3\n"), "accepted"),
    (Ask::Active, "A.2 A.4"),
    (
        Ask::Idents,
        "1 A deck held\n2 X set purged\n3 Y set held\n4 X set held\n",
    ),
    (Ask::Yanks, "live Y.1 *YANK X\n set X purged\n"),
    (Ask::Run("*IDENT Z\n*YANK X\n"), "accepted"),
    (Ask::Active, "A.2 A.3 A.4"),
    (
        Ask::Yanks,
        "live Y.1 *YANK X\n set X purged\nlive Z.1 *YANK X\n set X\n",
    ),
    // A name comes again in one run (rule 6.7).
    (Ask::Empty, ""),
    (Ask::Run(DECK_A), "accepted"),
    (Ask::Run("*IDENT X\n*INSERT A.2\nNEW\n"), "accepted"),
    (
        Ask::Run("*PURGE X\n*IDENT X\n*INSERT A.4\nEND\n"),
        "accepted",
    ),
    (Ask::Active, "A.2 A.3 A.4 X.1"),
];

#[test]
fn purges_are_as_the_rules_say(rt: HostRuntime) -> Result<(), Fail> {
    check(rt.alloc(), ASKED)
}
