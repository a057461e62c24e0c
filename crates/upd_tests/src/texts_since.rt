//! Texts that were taken when an older ident was the youngest, and the runs that correct them.
//! Rules 10.61.2 and 10.63.3.

use crate::asked_library::{Ask, check_on};
use crate::long_runs::Part;
use std::alloc::Global;
use std::test::Fail;
use upd_core::Library;
use upd_correct::{CorrectError, correct_since};
use upd_edit::{active_text, as_of, refusal_lines};
use upd_testkit::applying::{after, name};
use upd_testkit::check::same_text;

const DECK: &str = "*DECK A\nONE\nTWO\nTHREE\n";

/// A later run, an edit of the text of deck A as of A, the run for it, and deck A after it.
const EDITS: &[[&str; 4]] = &[
    // A card that came between two deleted ones stays (rule 10.63.3).
    [
        "*IDENT Y\n*INSERT A.2\nNEW\n",
        "*DECK A\nTHREE\n",
        "*IDENT Z\n*DELETE A.2\n*DELETE A.3\n",
        "*DECK A\nNEW\nTHREE\n",
    ],
    // A line that was changed since stays changed (rule 10.63.3).
    [
        "*IDENT Y\n*DELETE A.2\nUN\n",
        "*DECK A\nONE\nTWO\nDREI\n",
        "*IDENT Z\n*DELETE A.4\nDREI\n",
        "*DECK A\nUN\nTWO\nDREI\n",
    ],
    // So does a line in a block that goes, and one at a place where the lines before it went.
    [
        "*IDENT Y\n*INSERT A.3\nNEW\n",
        "*DECK A\nONE\n",
        "*IDENT Z\n*DELETE A.3\n*DELETE A.4\n",
        "*DECK A\nONE\nNEW\n",
    ],
    [
        "*IDENT Y\n*DELETE A.2,A.3\n",
        "*DECK A\nONE\nMINE\nTWO\nTHREE\n",
        "*IDENT Z\n*INSERT A.2\nMINE\n",
        "*DECK A\nMINE\nTHREE\n",
    ],
];

fn is_deck(library: &Library, text: &str) -> Result<(), Fail> {
    let found = active_text(library.allocator(), library, &name("A")?)?;
    same_text("deck A", std::str::from_utf8(&found)?, text)
}

/// The run of set Z for an edit of a library as of an ident, or why there isn't one.
fn found_since(library: &Library, since: &str, edited: &str) -> Result<String, Fail> {
    let alloc = library.allocator();
    let taken = as_of(alloc, library, &name(since)?)?;
    let last = library.ident_of(&name(since)?).unwrap_or(0);
    match correct_since(alloc, library, &taken, last, b"Z", edited.as_bytes()) {
        Ok(run) => Ok(String::from_utf8(run)?),
        Err(CorrectError::Refused(refusals)) => {
            Ok(String::from_utf8(refusal_lines(alloc, &refusals)?)?)
        }
        Err(CorrectError::NoMemory) => Err("out of memory".into()),
    }
}

/// What comes of an edit as of an ident, after a later run, is this.
fn gives_since(library: &Library, since: &str, edited: &str, wanted: &str) -> Result<(), Fail> {
    let found = found_since(library, since, edited)?;
    same_text(edited, found.as_str(), wanted)
}

#[test]
fn what_came_later_stays(rt: HostRuntime) -> Result<(), Fail> {
    for [later, edited, run, left] in EDITS {
        let library = after(rt.alloc(), &[DECK, later])?;
        is_deck(&as_of(rt.alloc(), &library, &name("A")?)?, DECK)?;
        gives_since(&library, "A", edited, run)?;
        is_deck(&after(rt.alloc(), &[DECK, later, run])?, left)?;
    }
    Ok(())
}

/// Runs before a text of deck A is taken: ONE, TWO, THREE, and FOUR of set X.
const TAKEN: [&str; 2] = [DECK, "*IDENT X\n*INSERT A.4\nFOUR\n"];

/// A later run that takes lines out of use, an edit of the text of deck A as of X that takes them out too, the run for it,
/// and deck A after it.
const GONE: &[[&str; 4]] = &[
    [
        "*IDENT Y\n*DELETE A.4\n",
        "*DECK A\nONE\nTWO\nFOUR\n",
        "*IDENT Z\n*DELETE A.4\n",
        "*DECK A\nONE\nTWO\nFOUR\n",
    ],
    // In a block that is rewritten: what the other set has put there stays.
    [
        "*IDENT Y\n*DELETE A.3\nZWEI\n",
        "*DECK A\nUN\nDEUX\nTROIS\nFOUR\n",
        "*IDENT Z\n*DELETE A.2,A.3\nUN\nDEUX\nTROIS\n*DELETE A.4\n",
        "*DECK A\nUN\nDEUX\nTROIS\nZWEI\nFOUR\n",
    ],
    // By a yank of its set.
    [
        "*IDENT Y\n*YANK X\n",
        "*DECK A\nONE\nTWO\nTHREE\nVIER\n",
        "*IDENT Z\n*DELETE X.1\nVIER\n",
        "*DECK A\nONE\nTWO\nTHREE\nVIER\n",
    ],
];

#[test]
fn what_both_delete_stays_deleted(rt: HostRuntime) -> Result<(), Fail> {
    for [later, edited, run, left] in GONE {
        let library = after(rt.alloc(), &[TAKEN[0], TAKEN[1], later])?;
        gives_since(&library, "X", edited, run)?;
        is_deck(&after(rt.alloc(), &[TAKEN[0], TAKEN[1], later, run])?, left)?;
    }
    Ok(())
}

#[test]
fn a_deck_that_came_later_is_refused(rt: HostRuntime) -> Result<(), Fail> {
    let library = after(rt.alloc(), &[DECK, "*DECK B\nB\n"])?;
    gives_since(
        &library,
        "A",
        "*DECK B\nC\n",
        "OutOfUse 1:1 a yank takes this deck out of use, or it came after SINCE, so no run can change its text\n",
    )
}

#[test]
fn a_deck_that_was_yanked_later_is_in_the_way(rt: HostRuntime) -> Result<(), Fail> {
    let library = after(rt.alloc(), &[TAKEN[0], TAKEN[1], "*IDENT Y\n*YANKDECK A\n"])?;
    gives_since(
        &library,
        "X",
        "*DECK A\nONE\nZWEI\nTHREE\nFOUR\n",
        "Conflict 0:0 A.1 was taken out of use by Y, which came after this text\n",
    )
}

/// A yank of a yank brings back a yank that takes the deck.
#[test]
fn a_yank_that_came_back_is_in_the_way(rt: HostRuntime) -> Result<(), Fail> {
    let runs = [
        DECK,
        "*IDENT X\n*YANKDECK A\n",
        "*IDENT Y\n*YANK X\n",
        "*IDENT W\n*YANK Y\n",
    ];
    gives_since(
        &after(rt.alloc(), &runs)?,
        "Y",
        "*DECK A\nONE\nZWEI\nTHREE\n",
        "Conflict 0:0 A.1 was taken out of use by W, which came after this text\n",
    )
}

/// The limits are those of the library that the run meets: it has room for one ident more.
#[test]
fn a_run_fits_where_one_ident_is_left(rt: HostRuntime) -> Result<(), Fail> {
    let mut library = after(rt.alloc(), &[DECK])?;
    let idents = [
        (Ask::Long(&[Part::Idents(0, 1999)]), "accepted"),
        (Ask::Long(&[Part::Idents(2000, 3999)]), "accepted"),
        (Ask::Long(&[Part::Idents(4000, 4093)]), "accepted"),
    ];
    check_on(&mut library, &idents)?;
    let run = "*IDENT Z\n*DELETE A.2\nUN\n";
    gives_since(&library, "A", "*DECK A\nUN\nTWO\nTHREE\n", run)?;
    check_on(&mut library, &[(Ask::Run("*IDENT LAST\n"), "accepted")])?;
    gives_since(
        &library,
        "A",
        "*DECK A\nUN\nTWO\nTHREE\n",
        "Full 0:0 the library has no room for this run\n",
    )
}
