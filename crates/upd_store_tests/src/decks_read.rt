//! The number of decks that are read for a run: those that it needs, and none for a repeat.
use std::alloc::Global;
use std::test::Fail;
use upd_memory::ListStore;
use upd_row_store::RowStore;
use upd_testkit::asks::Ask;
use upd_testkit::check::same;
use upd_testkit::session::Session;

/// The store is handed to another desk: the number of decks that it has read.
fn counted(session: Session<ListStore>) -> (Session<ListStore>, u64) {
    let Session {
        desk,
        reference,
        ..
    } = session;
    let store = desk.close();
    let read = store.decks_read();
    (Session::over(store, reference), read)
}

/// Both are asked the same, and this number of decks is read for it.
fn reads(
    session: Session<ListStore>,
    asks: &[Ask<'_>],
    decks: u64,
) -> Result<Session<ListStore>, Fail> {
    let (mut session, before) = counted(session);
    session.ask_all(asks)?;
    let (session, after) = counted(session);
    same(asks, after.wrapping_sub(before), decks)?;
    Ok(session)
}

/// Quick runs of LYON on an empty library, and the number of decks that are read for each.
fn runs_read(alloc: Global, runs: &[(u64, &str, u64)]) -> Result<Session<ListStore>, Fail> {
    let mut session = Session::new(alloc, ListStore::new(alloc));
    for (number, text, decks) in runs {
        session = reads(session, &[Ask::Lyon(*number, "quick", text)], *decks)?;
    }
    Ok(session)
}

/// Runs of LYON on decks A and B, and the number of decks that are read for each: those of the cards that it names,
/// both if it yanks, purges or names a yank card, and none if it isn't read.
const NEEDS: &[(u64, &str, u64)] = &[
    (1, "*DECK A\nONE\nTWO\nTHREE\n", 0),
    (2, "*DECK B\nBEE\n*IDENT X\n*INSERT A.2\nNEW\n", 1),
    (3, "*IDENT Y\n*DELETE B.2\n", 1),
    (3, "*IDENT Y\n*DELETE B.2\n", 0),
    (3, "*IDENT Y\n*DELETE B.1\n", 0),
    (4, "*IDENT\n*DELETE B.2\n", 0),
    (5, "*IDENT Z\n", 0),
    (6, "*IDENT U\n*YANK X\n", 2),
    (7, "*IDENT W\n*DELETE U.1\n", 2),
    (8, "*IDENT V\n*DELETE Q.1\n", 0),
    (9, "*IDENT V\n*DELETE X.1\n*RESTORE B.2\n", 2),
    (10, "*IDENT T\n*DELETE A.2,A.4\n*COMPILE B\n", 1),
    (11, "*PURGE T\n", 2),
];

#[test]
fn a_quick_run_reads_the_decks_of_its_cards(rt: HostRuntime) -> Result<(), Fail> {
    runs_read(rt.alloc(), NEEDS)?;
    Ok(())
}

/// The first run of a library reads no deck.
const TWO_DECKS: (u64, &str, u64) = (1, "*DECK A\nONE\n*DECK B\nBEE\n*IDENT X\n*YANK A\n", 0);

/// What is listed, and the number of decks that are read for it: one for a deck, the one of a card, and none for what
/// is in `YANK$$$` or nowhere, for idents, yanks and the full compile file.
const LISTED: &[(&[Ask<'static>], u64)] = &[
    (&[Ask::Compile, Ask::Idents, Ask::Yanks], 0),
    (&[Ask::Deck("A")], 1),
    (&[Ask::Card("B.2")], 1),
    (&[Ask::Deck("YANK$$$"), Ask::Card("X.1")], 0),
    (&[Ask::Deck("Q"), Ask::Card("Q.1")], 0),
    (&[Ask::Compile, Ask::Idents, Ask::Yanks], 0),
];

#[test]
fn a_listing_of_a_deck_or_a_card_reads_one_deck(rt: HostRuntime) -> Result<(), Fail> {
    let mut session = runs_read(rt.alloc(), &[TWO_DECKS])?;
    for (asks, decks) in LISTED {
        session = reads(session, asks, *decks)?;
    }
    Ok(())
}
