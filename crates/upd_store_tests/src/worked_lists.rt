//! Worked lists of runs, over both stores. A run in full mode shows all active cards in its reply.
use crate::empty_stores::{Fresh, Tables, fresh_session};
use std::alloc::Global;
use std::test::Fail;
use upd_memory::ListStore;
use upd_row_store::RowStore;
use upd_testkit::asks::{Ask, Sent, lyon};
use upd_testkit::check::{holds, same};
use upd_testkit::replies::Line;
use upd_testkit::session::Session;

/// What is asked of a desk, and its answer.
#[derive(Clone, Copy)]
enum Step {
    /// A run of LYON, by number, mode and text, is accepted: the idents that it introduces, and its compile lines.
    Accepts(u64, &'static str, &'static str, &'static [&'static str], &'static [Line<'static>]),
    /// A run of LYON, by number, mode and text, is refused, and that is stored.
    Refuses(u64, &'static str, &'static str, &'static str),
    /// The empty run 1 of PARIS in full mode is accepted: its compile lines.
    Paris(&'static [Line<'static>]),
    /// A settlement, a listing, or what has none, and a run without a reply.
    Says(Ask<'static>, &'static str),
    /// The full compile file.
    Compiles(&'static [Line<'static>]),
    /// Run 3 of LYON is accepted, with two compile lines: as many yanks, of set X and each of the one before it.
    Chain(u32),
    /// The number of cards that were looked at for the last run.
    Works(u64),
}

use Step::{Accepts, Chain, Compiles, Paris, Refuses, Says, Works};

const DECK_A: &str = "*DECK A\nONE\nTWO\nTHREE\n";

const ONE: Line<'static> = ("ONE", "A", 2);

const TWO: Line<'static> = ("TWO", "A", 3);

const THREE: Line<'static> = ("THREE", "A", 4);

const ALL: &[Line<'static>] = &[ONE, TWO, THREE];

const NEW: Line<'static> = ("NEW", "X", 1);

const REPLACED: &[Line<'static>] = &[NEW, TWO, THREE];

const BEE: Line<'static> = ("BEE", "B", 2);

/// Deck A is introduced, with three lines.
const DECK: Step = Accepts(1, "full", DECK_A, &["A"], ALL);

/// Set X replaces its first line.
const SET: Step = Accepts(2, "full", "*IDENT X\n*DELETE A.2\nNEW\n", &["X"], REPLACED);

const A_YANK_IS_YANKED_AND_CORRECTED: &[Step] = &[
    DECK,
    SET,
    Accepts(3, "full", "*IDENT Y\n*YANK X\n", &["Y"], ALL),
    Accepts(4, "full", "*IDENT Z\n*YANK Y\n", &["Z"], REPLACED),
    Accepts(5, "full", "*IDENT W\n*DELETE Z.1\n", &["W"], ALL),
    Says(
        Ask::Yanks,
        "live Y.1 *YANK X\n set X\ndead Z.1 *YANK Y\n set Y\n",
    ),
    Says(
        Ask::Deck("YANK$$$"),
        "DECK YANK$$$\nA Y.1 *YANK X\nI Z.1 *YANK Y\n",
    ),
];

const SEVENTH: Step = Accepts(7, "full", DECK_A, &["A"], ALL);

const SIXTH: Step = Accepts(6, "full", "*IDENT X\n*DELETE A.3\n", &["X"], &[ONE, THREE]);

const RUNS_ACT_IN_ORDER_OF_FIRST_ARRIVAL: &[Step] = &[
    SEVENTH,
    SIXTH,
    SEVENTH,
    SIXTH,
    Says(
        Ask::Card("A.3"),
        "CARD A.3\nDECK A\nTEXT TWO\nSTATUS inactive\nENTRY A on\nENTRY X off\n",
    ),
];

const UNKNOWN: Step = Refuses(3, "full", "*IDENT X\n*DELETE A.2\n", "CardUnknown 13 at 2");

const CHANGED: &str = "RunChanged (26) at 0";

const REFUSALS_ARE_STORED: &[Step] = &[
    UNKNOWN,
    Accepts(4, "full", DECK_A, &["A"], ALL),
    UNKNOWN,
    Says(Ask::Lyon(3, "full", "*IDENT X\n*DELETE A.3\n"), CHANGED),
    Says(Ask::Lyon(3, "quick", "*IDENT X\n*DELETE A.2\n"), CHANGED),
    UNKNOWN,
    Says(Ask::Idents, "1 A deck held\n"),
    Compiles(ALL),
];

const RUN_NUMBERS_HAVE_ENDS: &[Step] = &[
    Accepts(999_999_999, "quick", "", &[], &[]),
    Says(Ask::Lyon(1_000_000_000, "quick", ""), "BadNumber (24) at 0"),
    Says(Ask::Lyon(0, "quick", ""), "BadNumber (24) at 0"),
    Says(Ask::Settle("LYON", 1_000_000_000), "BadNumber (24) at 0"),
    Says(Ask::Settle("lyon", 1), "BadSite (23) at 0"),
    Says(Ask::Settle("LYON", 999_999_999), "999999999"),
    Says(Ask::Lyon(999_999_999, "quick", ""), "Settled (27) at 0"),
];

const A_PURGED_COMMON_DECK_IS_MISSED: &[Step] = &[
    Accepts(
        1,
        "quick",
        "*COMDECK C\nCEE\n*DECK A\n*CALL C\n*DECK B\nBEE\n",
        &["C", "A", "B"],
        &[],
    ),
    Compiles(&[("CEE", "C", 2), BEE]),
    Accepts(2, "quick", "*PURDECK C\n", &[], &[]),
    Says(Ask::Compile, "CallUnknown (20) at 0"),
    Accepts(3, "normal", "", &[], &[]),
    Refuses(4, "full", "", "CallUnknown 20 at 0"),
    Refuses(4, "full", "", "CallUnknown 20 at 0"),
];

const SECOND: Step = Accepts(2, "full", "*IDENT X\n*DELETE A.3\n", &["X"], &[ONE, THREE]);

const A_SETTLED_RUN_NEVER_ACTS_AGAIN: &[Step] = &[
    DECK,
    SECOND,
    Says(Ask::Settle("LYON", 1), "1"),
    Says(Ask::Lyon(1, "full", DECK_A), "Settled (27) at 0"),
    Says(Ask::Lyon(1, "quick", ""), "Settled (27) at 0"),
    SECOND,
    Paris(&[ONE, THREE]),
    Says(Ask::Settle("LYON", 3), "3"),
    Says(Ask::Lyon(3, "full", ""), "Settled (27) at 0"),
    Says(Ask::Settle("LYON", 2), "3"),
    Says(Ask::Settle("LYON", 0), "BadNumber (24) at 0"),
    Paris(&[ONE, THREE]),
    Compiles(&[ONE, THREE]),
];

/// Deck A, whose first line is deleted; that is yanked, and each yank but the last is yanked. The last is taken back: each of
/// the yank cards is looked at, and the card that was deleted.
const THE_LAST_OF_900_YANKS_IS_TAKEN_BACK: &[Step] = &[
    DECK,
    Accepts(2, "full", "*IDENT X\n*DELETE A.2\n", &["X"], &[TWO, THREE]),
    Chain(900),
    TAKEN_BACK,
    Works(901),
    TAKEN_BACK,
    Works(0),
];

const TAKEN_BACK: Step = Accepts(4, "full", "*IDENT W\n*DELETE Y900.1\n", &["W"], ALL);

const FIVE: &str =
    "*DECK A\nA1\nA2\n*DECK B\nB1\nB2\n*DECK C\nC1\nC2\n*DECK D\nD1\nD2\n*DECK E\nE1\nE2\n";

const OF_FIVE: &[Line<'static>] = &[
    ("A1", "A", 2),
    ("A2", "A", 3),
    ("B1", "B", 2),
    ("B2", "B", 3),
    ("C1", "C", 2),
    ("C2", "C", 3),
    ("D1", "D", 2),
    ("D2", "D", 3),
    ("E1", "E", 2),
    ("E2", "E", 3),
];

const IN_EACH: &str = "*IDENT X\n*I A.1\nXA\n*I B.2\nXB\n*I C.1\nXC\n*I D.2\nXD\n*B E.3\nXE\n";

const WITH_ONE_IN_EACH: &[Line<'static>] = &[
    ("XA", "X", 1),
    ("A1", "A", 2),
    ("A2", "A", 3),
    ("B1", "B", 2),
    ("XB", "X", 2),
    ("B2", "B", 3),
    ("XC", "X", 3),
    ("C1", "C", 2),
    ("C2", "C", 3),
    ("D1", "D", 2),
    ("XD", "X", 4),
    ("D2", "D", 3),
    ("E1", "E", 2),
    ("XE", "X", 5),
    ("E2", "E", 3),
];

/// A set puts a card into each of five decks, and is purged.
const CARDS_COME_INTO_MANY_DECKS_AND_GO: &[Step] = &[
    Accepts(1, "full", FIVE, &["A", "B", "C", "D", "E"], OF_FIVE),
    Accepts(2, "full", IN_EACH, &["X"], WITH_ONE_IN_EACH),
    Accepts(3, "full", "*PURGE X\n", &[], OF_FIVE),
    Accepts(4, "full", IN_EACH, &["X"], WITH_ONE_IN_EACH),
];

const LISTS: [&[Step]; 8] = [
    A_YANK_IS_YANKED_AND_CORRECTED,
    RUNS_ACT_IN_ORDER_OF_FIRST_ARRIVAL,
    REFUSALS_ARE_STORED,
    RUN_NUMBERS_HAVE_ENDS,
    A_PURGED_COMMON_DECK_IS_MISSED,
    A_SETTLED_RUN_NEVER_ACTS_AGAIN,
    THE_LAST_OF_900_YANKS_IS_TAKEN_BACK,
    CARDS_COME_INTO_MANY_DECKS_AND_GO,
];

/// The empty run 1 of PARIS in full mode.
const PARIS: Sent<'static> = Sent {
    site: "PARIS",
    number: 1,
    mode: "full",
    text: "",
};

/// A run of the sets Y1, Y2 and so on: Y1 yanks X, and each other one yanks the one before it.
fn yanks_in_a_row(alloc: Global, sets: u32) -> Result<String, Fail> {
    let mut text = String::from_str(alloc, "*IDENT Y1\n*YANK X\n")?;
    for n in 1..sets {
        write!(text, "*IDENT Y{}\n*YANK Y{n}\n", n.saturating_add(1))?;
    }
    Ok(text)
}

fn take_yanks<S: RowStore>(session: &mut Session<S>, sets: u32) -> Result<(), Fail> {
    let chain = yanks_in_a_row(session.alloc, sets)?;
    let reply = session.ask(Ask::Lyon(3, "full", chain.as_str()))?;
    let end = "\"lines\":2,\"mode\":\"full\",\"run\":3,\"site\":\"LYON\",\"state\":\"accepted\"}";
    holds(reply.as_str(), reply.ends_with(end))
}

fn take<S: RowStore>(session: &mut Session<S>, step: Step) -> Result<(), Fail> {
    match step {
        Accepts(number, mode, text, idents, lines) => {
            session.accepts(lyon(number, mode, text), idents, lines)
        }
        Refuses(number, mode, text, fault) => session.refuses(lyon(number, mode, text), fault),
        Paris(lines) => session.accepts(PARIS, &[], lines),
        Says(ask, text) => session.says(ask, text),
        Compiles(lines) => session.compiles(lines),
        Chain(sets) => take_yanks(session, sets),
        Works(work) => same("the work", session.desk.work(), work),
    }
}

fn take_from_empty<S: Fresh>(alloc: Global, list: &[Step]) -> Result<(), Fail> {
    let mut session = fresh_session::<S>(alloc)?;
    for step in list {
        take(&mut session, *step)?;
    }
    Ok(())
}

/// Takes each list on an empty library of its own.
fn take_all<S: Fresh>(alloc: Global) -> Result<(), Fail> {
    for list in LISTS {
        take_from_empty::<S>(alloc, list)?;
    }
    Ok(())
}

#[test]
fn lists_answer_as_worked(rt: HostRuntime) -> Result<(), Fail> {
    take_all::<ListStore>(rt.alloc())
}

#[test]
fn tables_of_sqlite_answer_as_worked(rt: HostRuntime) -> Result<(), Fail> {
    take_all::<Tables>(rt.alloc())
}
