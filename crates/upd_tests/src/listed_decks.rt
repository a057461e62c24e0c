//! Runs that are made from listings. Rules 10.83 to 10.86.

use crate::edited_texts::{changed_lines, deck_text};
use std::alloc::Global;
use std::test::Fail;
use upd_compile::list_deck;
use upd_core::Library;
use upd_correct::correct_listed;
use upd_edit::active_text;
use upd_testkit::applying::{after, applied, name};
use upd_testkit::check::same_text;
use upd_testkit::random_runs::Dice;

/// The listing of deck A, which sets X and Y have changed.
const LISTING: &str =
    "DECK A\nA A.1 *DECK A\nA A.2 ONE\nI A.3 TWO\nA X.1  indented\nA Y.1 \nA A.4 THREE\n";

/// Listings and edited texts, and the run of each, or why there isn't one: the first line that isn't one of a deck's
/// listing, the first that begins another deck, or a refusal of the text.
const EDITS: &[(&str, &str, &str)] = &[
    (
        LISTING,
        "*DECK A\nUN\n indented\n\nTHREE\nFOUR\n",
        "*IDENT Z\n*DELETE A.2\nUN\n*INSERT A.4\nFOUR\n",
    ),
    (
        "COMDECK C\nA C.1 *COMDECK C\n",
        "*COMDECK C\nONE\n",
        "*IDENT Z\n*INSERT C.1\nONE\n",
    ),
    (
        "COMDECK C NOPROP\nA C.1 *COMDECK C\n",
        "*COMDECK C\nONE\n",
        "*IDENT Z\n*INSERT C.1\nONE\n",
    ),
    // Each card that goes is named alone (rule 10.65.3).
    (
        LISTING,
        "*DECK A\nTHREE\n",
        "*IDENT Z\n*DELETE A.2\n*DELETE X.1\n*DELETE Y.1\n",
    ),
    ("DECK A", "*DECK A\n", "NotListing(1)"),
    ("DECK a\n", "*DECK A\n", "NotListing(1)"),
    ("DECK A NOPROP\n", "*DECK A\n", "NotListing(1)"),
    (
        "DECK YANK$$$\nA Y.1 *YANK X\n",
        "*DECK A\n",
        "NotListing(1)",
    ),
    (
        "1 A deck held\n2 X set held\n",
        "*DECK A\n",
        "NotListing(1)",
    ),
    ("DECK A\nA A.1 *DECK A", "*DECK A\n", "NotListing(2)"),
    (
        "DECK A\nA A.1 *DECK A\nA A.0 ONE\n",
        "*DECK A\n",
        "NotListing(3)",
    ),
    (
        "DECK A\nA A.1 *DECK A\n\nA A.2 ONE\n",
        "*DECK A\n",
        "NotListing(3)",
    ),
    (LISTING, "*DECK A\nONE\n*DECK B\nTWO\n", "OtherDeck(3)"),
    (
        LISTING,
        "*DECK  A\nONE\n",
        "Refused([Refusal { line: 1, column: 1, problem: FirstCard }])",
    ),
];

/// The run of set Z for an edited text of a listed deck, or why there isn't one.
fn listed_run(alloc: Global, listing: &[u8], text: &str) -> Result<String, Fail> {
    match correct_listed(alloc, listing, b"Z", text.as_bytes()) {
        Ok(run) => Ok(String::from_utf8(run)?),
        Err(error) => Ok(format!(in alloc; "{error:?}")?),
    }
}

fn gives(alloc: Global, listing: &[u8], text: &str, wanted: &str) -> Result<(), Fail> {
    let found = listed_run(alloc, listing, text)?;
    same_text(text, found.as_str(), wanted)
}

#[test]
fn a_listing_is_enough_for_a_run(rt: HostRuntime) -> Result<(), Fail> {
    for (listing, text, wanted) in EDITS {
        gives(rt.alloc(), listing.as_bytes(), text, wanted)?;
    }
    Ok(())
}

/// Runs after which deck A has these lines. The last one yanks X.
const RUNS: &[&str] = &[
    "*DECK B\nELSE\n*DECK A\nA\nB\nC\nD\nE\nF\nG\nH\n",
    "*IDENT X\n*INSERT A.4\nXA\nXB\n*DELETE A.6,A.7\n*INSERT B.2\nXC\n",
    "*IDENT Y\n*DELETE X.1\nP\n*BEFORE A.2\nQ\nR\n*DELETE A.9\n",
    "*IDENT V\n*YANK X\n",
];

const LINES: &[u8] = b"QRABCPDEFG";

/// The run that the listing gives leads the library to the edited text.
fn leads_to(library: &Library, listing: &[u8], edited: &str) -> Result<(), Fail> {
    let alloc = library.allocator();
    let run = listed_run(alloc, listing, edited)?;
    let mut library = after(alloc, RUNS)?;
    applied(&mut library, run.as_str())?;
    let found = active_text(alloc, &library, &name("A")?)?;
    same_text("deck A", std::str::from_utf8(&found)?, edited)
}

/// 60 random edits of deck A.
fn edits_agree(library: &Library, dice: &mut Dice) -> Result<(), Fail> {
    let alloc = library.allocator();
    let listing = list_deck(alloc, library, &name("A")?)?;
    for _ in 0..60 {
        let lines = changed_lines(alloc, LINES, dice)?;
        leads_to(library, &listing, deck_text(alloc, &lines)?.as_str())?;
    }
    Ok(())
}

#[test]
fn random_edits_of_a_listing_lead_the_library_to_their_texts(rt: HostRuntime) -> Result<(), Fail> {
    edits_agree(&after(rt.alloc(), RUNS)?, &mut Dice(11))
}
