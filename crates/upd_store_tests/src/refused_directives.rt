//! Each refusal of a directive, by a desk, in the order of the rules. Rules 4.3 to 4.23.
use crate::empty_stores::fresh_session;
use std::test::Fail;
use upd_memory::ListStore;
use upd_testkit::asks::{Ask, lyon};

/// Decks A and B, set X with a card in A, and set Y, which yanks X.
const FIRST: &str =
    "*DECK A\nONE\nTWO\n*DECK B\nBEE\n*IDENT X\n*INSERT A.2\nNEW\n*IDENT Y\n*YANK X\n";

/// The third line has 81 bytes, and the second names a card that isn't there.
const LONG_LINE: &str = "*IDENT Z\n*DELETE A.9\n\
TTTTTTTTTTTTTTTTTTTTTTTTTTTTTTTTTTTTTTTTTTTTTTTTTTTTTTTTTTTTTTTTTTTTTTTTTTTTTTTTT\n";

/// A run, and the name, number and line of its fault.
const REFUSED: &[(&str, &str)] = &[
    ("*IDENT YANK$$$\n", "Reserved 18 at 1"),
    ("*IDENT X\n", "NameTaken 10 at 1"),
    ("*DECK YANK$$$\n", "Reserved 18 at 1"),
    ("*COMDECK A\n", "NameTaken 10 at 1"),
    ("TEXT\n", "TextNowhere 9 at 1"),
    (LONG_LINE, "LineLong 4 at 3"),
    ("*INSERT A.2\n", "NoIdent 8 at 1"),
    ("*IDENT Z\n*INSERT A.9\n", "CardUnknown 13 at 2"),
    ("*IDENT Z\n*INSERT Y.1\n", "YankText 16 at 2"),
    ("*BEFORE A.2\n", "NoIdent 8 at 1"),
    ("*IDENT Z\n*BEFORE Y.1\n", "YankText 16 at 2"),
    ("*IDENT Z\n*BEFORE A.1\n", "DeckCard 15 at 2"),
    ("*DELETE A.2\n", "NoIdent 8 at 1"),
    ("*IDENT Z\n*DELETE A.2,A.9\n", "CardUnknown 13 at 2"),
    ("*IDENT Z\n*DELETE A.3,A.2\n", "RangeOrder 14 at 2"),
    ("*IDENT Z\n*RESTORE A.2,B.2\n", "RangeOrder 14 at 2"),
    ("*IDENT Z\n*RESTORE A.1,A.2\n", "DeckCard 15 at 2"),
    ("*IDENT Z\n*DELETE Y.1\nTEXT\n", "YankText 16 at 3"),
    ("*YANK X\n", "NoIdent 8 at 1"),
    ("*IDENT Z\n*YANK YANK$$$\n", "Reserved 18 at 2"),
    ("*IDENT Z\n*YANK X,Q\n", "IdentUnknown 11 at 2"),
    ("*IDENT Z\n*YANK Z\n", "YankSelf 17 at 2"),
    ("*IDENT Z\n*YANK A.Z\n", "YankSelf 17 at 2"),
    ("*IDENT Z\n*YANK X.A\n", "RangeOrder 14 at 2"),
    ("*SELYANK A.X\n", "NoIdent 8 at 1"),
    ("*IDENT Z\n*SELYANK YANK$$$.X\n", "Reserved 18 at 2"),
    ("*IDENT Z\n*SELYANK X.A\n", "DeckUnknown 12 at 2"),
    ("*IDENT Z\n*SELYANK A.Q\n", "IdentUnknown 11 at 2"),
    ("*IDENT Z\n*SELYANK A.Z\n", "YankSelf 17 at 2"),
    ("*YANKDECK A\n", "NoIdent 8 at 1"),
    ("*IDENT Z\n*YANKDECK YANK$$$\n", "Reserved 18 at 2"),
    ("*IDENT Z\n*YANKDECK X\n", "DeckUnknown 12 at 2"),
    ("*IDENT Z\n*DECK C\n*YANKDECK C\n", "YankSelf 17 at 3"),
    ("*PURGE YANK$$$\n", "Reserved 18 at 1"),
    ("*PURGE Q,*\n", "IdentUnknown 11 at 1"),
    ("*PURGE X.A\n", "RangeOrder 14 at 1"),
    ("*PURGE X\nTEXT\n", "TextNowhere 9 at 2"),
    ("*SELPURGE X.A\n", "DeckUnknown 12 at 1"),
    ("*SELPURGE A.Q\n", "IdentUnknown 11 at 1"),
    ("*SELPURGE A.A\n", "DeckCard 15 at 1"),
    ("*PURDECK YANK$$$\n", "Reserved 18 at 1"),
    ("*PURDECK X\n", "DeckUnknown 12 at 1"),
    ("*PURDECK B.A\n", "RangeOrder 14 at 1"),
    ("*COMPILE YANK$$$\n", "Reserved 18 at 1"),
    ("*COMPILE A.YANK$$$\n", "Reserved 18 at 1"),
    ("*COMPILE YANK$$$\n*DELETE A.2\n", "NoIdent 8 at 2"),
    ("*COMPILE X\n", "DeckUnknown 12 at 1"),
    ("*COMPILE B.A\n", "RangeOrder 14 at 1"),
    ("*COMPILE X\n*DECK C\n", "DeckUnknown 12 at 1"),
];

#[test]
fn each_refusal_of_a_directive_is_answered(rt: HostRuntime) -> Result<(), Fail> {
    let mut session = fresh_session::<ListStore>(rt.alloc())?;
    session.accepts(lyon(1, "quick", FIRST), &["A", "B", "X", "Y"], &[])?;
    for (number, (text, fault)) in (2..).zip(REFUSED) {
        session.refuses(lyon(number, "quick", text), fault)?;
    }
    let idents = "1 A deck held\n2 B deck held\n3 X set held\n4 Y set held\n";
    session.says(Ask::Idents, idents)
}
