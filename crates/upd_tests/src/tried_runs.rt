//! Warnings of runs that are tried on a small library. Rule 10.68.

use crate::examined_tables::{RunText, put_runs};
use std::alloc::Global;
use std::test::Fail;
use upd_apply::apply;
use upd_core::{Library, Name};
use upd_deck::read_run;
use upd_edit::{Warning, WarningKind, all_by_runs, warning_list, write_warnings};
use upd_records::RunRow;
use upd_testkit::applying::{after, name};
use upd_testkit::check::same_text;

/// Deck A of 25 lines, of which X has replaced the second, A.3, and switched A.4 off; Y has yanked W, which had switched
/// A.5 off.
const SMALL: &[&str] = &[
    "*DECK A\n1\n2\n3\n4\n5\n6\n7\n8\n9\n10\n11\n12\n13\n14\n15\n16\n17\n18\n19\n20\n21\n22\n23\n24\n25\n",
    "*IDENT W\n*DELETE A.5\n",
    "*IDENT X\n*DELETE A.3\nTWO\n*DELETE A.4\n",
    "*IDENT Y\n*YANK W\n",
];

/// Runs, and what is reported of them.
const WARNINGS: &[(&str, &str)] = &[
    // Cards that are off already (rule 10.68.4).
    (
        "*IDENT Z\n*DELETE A.3,A.4\n*DELETE A.2,A.6\n*DELETE A.5\n*DELETE X.1\n*RESTORE A.3\n",
        "upd: 2: A.3 is off already, by X\nupd: 2: A.4 is off already, by X\n",
    ),
    // Wide ranges (rule 10.68.4).
    (
        "*IDENT Z\n*DELETE A.7,A.26\n*DELETE A.6,A.26\n*RESTORE A.2,A.21\n*DELETE A.26,A.2\n*DELETE A.2,Q.1\n",
        "upd: 3: the range has 21 cards\nupd: 4: the range has 21 cards\n",
    ),
    // Text that may be meant for a directive (rule 10.69).
    (
        "*IDENT Z\n*INSERT A.2\n*delete A.3\n*DELTE A.3\n*DLEETE A.3\n*DELETTE\n*DEKETE,A.3\n*d A.3\n*CAL C\n",
        "upd: 3: *delete is text, not *DELETE\nupd: 4: *DELTE is text, not *DELETE\nupd: 5: *DLEETE is text, not *DELETE\n\
upd: 6: *DELETTE is text, not *DELETE\nupd: 7: *DEKETE is text, not *DELETE\nupd: 8: *d is text, not *D\n\
upd: 9: *CAL is text, not *CALL\n",
    ),
    // The same where lines end in CR and LF (rule 2.2).
    (
        "*IDENT Z\r\n*INSERT A.2\r\n*YANKS\r\n*ident \r\n",
        "upd: 3: *YANKS is text, not *YANK\nupd: 4: *ident is text, not *IDENT\n",
    ),
    // Comments; a run that isn't read has no warnings.
    (
        "*IDENT Z\n*/ one\n*INSERT A.2\n*/two\n*delete\n*/",
        "upd: 2: dropped comments: 3, the first here\nupd: 5: *delete is text, not *DELETE\n",
    ),
    ("*/ one\n*DELETE\n", ""),
    // A run without lines (rule 10.68.4).
    (
        "*/ note\n",
        "upd: 1: dropped comments: 1, the first here\nupd: 1: the run is empty: it changes nothing\n",
    ),
];

/// Deck A, into which P3 has put two cards; P8 has replaced the second of them. S has put a card into A, and its run has
/// added the deck NEWD.
const EDITED_BY_MANY: &[&str] = &[
    "*DECK A\n1\n2\n3\n",
    "*IDENT P3\n*INSERT A.2\nONE\nTWO\n",
    "*IDENT P8\n*DELETE P3.2\nNEW\n",
    "*IDENT S\n*INSERT A.4\nLAST\n*DECK NEWD\nLINE\n",
];

/// Yanks and purges below younger sets, and a yank that leaves a deck.
const TAKEN: &[(&str, &str)] = &[
    (
        "*IDENT Z\n*YANK P3\n",
        "upd: 2: P8 switched P3.2, which this yank takes\nupd: 2: P8.1 follows P3.2, which this yank takes\n",
    ),
    (
        "*PURGE P3\n",
        "upd: 1: P8 switched P3.2, which this purge takes\nupd: 1: P8.1 follows P3.2, which this purge takes\n",
    ),
    ("*IDENT Z\n*YANK P8,P3\n*YANK P3.P8\n", ""),
    (
        "*IDENT Z\n*YANK S\n",
        "upd: 2: if NEWD came with S, it stays: yank S,NEWD\n",
    ),
    ("*IDENT Z\n*YANK S,NEWD\n", ""),
];

/// Deck A, S and NEWD by one run, both purged by the next, and again by a run of each.
const CAME_AGAIN: &[&str] = &[
    "*DECK A\n1\n2\n",
    "*IDENT S\n*INSERT A.2\nLAST\n*DECK NEWD\nLINE\n",
    "*PURGE S\n*PURDECK NEWD\n",
    "*IDENT S\n*INSERT A.2\nLAST\n",
    "*DECK NEWD\nLINE\n",
];

/// Stored runs of S and NEWD by what their replies say, the run, and what is reported of the deck that stays.
const STAYING: &[(&[RunText], &str, &str)] = &[
    // One run introduced both.
    (
        &[P8_ONLY, (4, 1, true, b"{\"idents\":[\"S\",\"NEWD\"]}")],
        "*IDENT Z\n*YANK S\n",
        "upd: 2: NEWD came with S and stays: yank S,NEWD\n",
    ),
    (
        &[(4, 1, true, b"{\"idents\":[\"S\",\"NEWD\"]}")],
        "*PURGE S\n",
        "upd: 1: NEWD came with S and stays: purge S,NEWD\n",
    ),
    // One introduced the set without the deck, or the deck without the set; other warnings stay.
    (&[S_ONLY, NEWD_ONLY], "*IDENT Z\n*YANK S\n", ""),
    (&[NEWD_ONLY], "*IDENT Z\n*YANK S\n", ""),
    (
        &[S_ONLY],
        "*IDENT Z\n*YANK S\n*YANK P8,P3\n*DELETE P3.2\n",
        "upd: 4: P3.2 is off already, by P8\n",
    ),
    // Neither is stored; a refused run introduced nothing.
    (
        &[P8_ONLY, (4, 1, false, b"{\"idents\":[\"S\",\"NEWD\"]}")],
        "*IDENT Z\n*YANK S\n",
        "upd: 2: if NEWD came with S, it stays: yank S,NEWD\n",
    ),
];

/// The same where both names came again.
const STAYING_AGAIN: &[(&[RunText], &str, &str)] = &[
    // The stored run may be that of the purged ones.
    (
        &[(2, 1, true, b"{\"idents\":[\"S\",\"NEWD\"]}")],
        "*IDENT Z\n*YANK S\n",
        "upd: 2: if NEWD came with S, it stays: yank S,NEWD\n",
    ),
    (
        &[(2, 1, true, b"{\"idents\":[\"S\",\"NEWD\"]}"), NEWD_ONLY],
        "*IDENT Z\n*YANK S\n",
        "",
    ),
];

const P8_ONLY: RunText = (3, 1, true, b"{\"idents\":[\"P8\"]}");

const S_ONLY: RunText = (4, 1, true, b"{\"idents\":[\"S\"]}");

const NEWD_ONLY: RunText = (5, 1, true, b"{\"idents\":[\"NEWD\"]}");

/// Deck A, of which X has replaced a line, and Z.
const A_X_Z: &[&str] = &[
    "*DECK A\nL1\nL2\nL3\nL4\nL5\nL6\nL7\nL8\n",
    "*IDENT X\n*DELETE A.4\nX1\n",
    "*IDENT Z\n",
];

/// Runs after these, how many of all are settled, SINCE, and the name that is reported as purged (rule 10.94.5).
const PURGES: &[(&[&str], usize, &str, &str)] = &[
    // X goes from the deck, or everywhere, or the deck goes.
    (&["*SELPURGE A.X\n"], 0, "X", "X"),
    (&["*PURGE X\n"], 2, "Z", "X"),
    (&["*PURDECK A\n"], 0, "Z", "A"),
    (&["*IDENT P\n", "*PURGE P,X\n*PURDECK A\n"], 0, "Z", "X"),
    // The run of SINCE is settled; it came later; the purge was refused.
    (&["*PURGE X\n"], 3, "Z", ""),
    (&["*PURGE X\n", "*IDENT P\n"], 0, "P", ""),
    (&["*DELETE Q.1\n*PURGE X\n"], 0, "Z", ""),
    // What came later goes; SINCE came again.
    (&["*IDENT P\n", "*PURGE P\n"], 0, "Z", ""),
    (&["*IDENT P\n", "*PURGE P,*\n"], 0, "Z", ""),
    (&["*PURGE X\n", "*IDENT X\n", "*PURGE Z\n"], 0, "X", ""),
];

/// The youngest ident that the author of a run on the same library has seen, the run, and what is reported of it.
const LATER: &[(&str, &str, &str)] = &[
    (
        "A",
        "*IDENT Z\n*DELETE A.2,A.3\n",
        "upd: 2: P3.1 came after A and is deleted\n",
    ),
    // P3.2 is off, and P8.1 stands behind it.
    (
        "P3",
        "*IDENT Z\n*DELETE P3.1,A.3\n*DELETE S.1\n*RESTORE P8.1\n",
        "upd: 2: P8.1 came after P3 and is deleted\nupd: 3: S.1 came after P3 and is deleted\nupd: 4: P8.1 came after P3\n",
    ),
    (
        "A",
        "*IDENT Z\n*DELETE P3.2\n",
        "upd: 2: P3.2 is off already, by P8\nupd: 2: P3.2 stands beside P3.1, which came after A\n",
    ),
    (
        "P8",
        "*IDENT Z\n*DELETE A.2,A.3\n*DELETE A.4,NEWD.2\n*DELETE Q.1\n",
        "",
    ),
    (
        "S",
        "*IDENT Z\n*DELETE A.2,S.1\n*DELETE NEWD.2\n",
        "upd: 3: NEWD.2 came after S and is deleted\n",
    ),
];

fn has_warnings(
    library: &Library,
    since: Option<Name>,
    run: &str,
    wanted: &str,
) -> Result<(), Fail> {
    let alloc = library.allocator();
    let list = warning_list(alloc, library, since, run.as_bytes())?;
    are_written_as(library, &list, run, wanted)
}

fn are_written_as(
    library: &Library,
    list: &[Warning],
    run: &str,
    wanted: &str,
) -> Result<(), Fail> {
    let found = write_warnings(library.allocator(), run.as_bytes(), list)?;
    same_text(run, std::str::from_utf8(&found)?, wanted)
}

fn have_warnings_by_runs(
    library: &Library,
    cases: &[(&[RunText], &str, &str)],
) -> Result<(), Fail> {
    let alloc = library.allocator();
    let mut runs = Vec::new(alloc);
    for (stored, run, wanted) in cases {
        put_runs(alloc, &mut runs, stored)?;
        let list = warning_list(alloc, library, None, run.as_bytes())?;
        let told = all_by_runs(alloc, library, &runs, &None, &list)?;
        are_written_as(library, &told, run, wanted)?;
    }
    Ok(())
}

/// A run that changes L8 is tried.
fn has_purge(
    alloc: Global,
    later: &[&str],
    settled: usize,
    since: &str,
    purged: &str,
) -> Result<(), Fail> {
    const RUN: &str = "*IDENT M\n*DELETE A.9\nMINE\n";
    let mut library = Library::new(alloc);
    let mut runs = Vec::new(alloc);
    for text in A_X_Z {
        runs.push(sent(&mut library, text)?)?;
    }
    for text in later {
        runs.push(sent(&mut library, text)?)?;
    }
    let stored = runs.get(settled..).ok_or("fewer runs")?;
    let as_of = Some(name(since)?);
    let list = warning_list(alloc, &library, as_of, RUN.as_bytes())?;
    let mut told = all_by_runs(alloc, &library, stored, &as_of, &list)?;
    told.retain(|warning| matches!(warning.kind, WarningKind::Purged { .. }));
    let mut wanted = String::new(alloc);
    if !purged.is_empty() {
        wanted = format!(in alloc; "upd: 1: {purged} was purged after {since}\n")?;
    }
    are_written_as(&library, &told, RUN, &wanted)
}

/// Sends a run, which introduces at most one ident.
fn sent(library: &mut Library, text: &str) -> Result<RunRow, Fail> {
    let alloc = library.allocator();
    let count = library.idents().len();
    let run = read_run(alloc, text.as_bytes())?;
    let accepted = apply(alloc, library, &run).is_ok();
    let introduced = match library.idents().get(count) {
        Some(ident) => ident.name,
        None => Name::none(),
    };
    Ok(RunRow {
        site: String::from_str(alloc, "PARIS")?,
        number: 1,
        mode: 1,
        bytes: Vec::from_slice(alloc, text.as_bytes())?,
        accepted,
        reply: format!(in alloc; "{{\"idents\":[\"{introduced}\"]}}")?.into_bytes(),
    })
}

fn have_warnings(library: &Library, runs: &[(&str, &str)]) -> Result<(), Fail> {
    for (run, wanted) in runs {
        has_warnings(library, None, run, wanted)?;
    }
    Ok(())
}

#[test]
fn what_may_not_be_meant_is_reported(rt: HostRuntime) -> Result<(), Fail> {
    have_warnings(&after(rt.alloc(), SMALL)?, WARNINGS)
}

#[test]
fn what_is_taken_below_others_is_reported(rt: HostRuntime) -> Result<(), Fail> {
    have_warnings(&after(rt.alloc(), EDITED_BY_MANY)?, TAKEN)
}

#[test]
fn stored_runs_say_whether_a_deck_came_with_a_set(rt: HostRuntime) -> Result<(), Fail> {
    have_warnings_by_runs(&after(rt.alloc(), EDITED_BY_MANY)?, STAYING)?;
    have_warnings_by_runs(&after(rt.alloc(), CAME_AGAIN)?, STAYING_AGAIN)
}

#[test]
fn what_was_purged_after_an_ident_is_reported(rt: HostRuntime) -> Result<(), Fail> {
    for (later, settled, since, purged) in PURGES {
        has_purge(rt.alloc(), later, *settled, since, purged)?;
    }
    Ok(())
}

#[test]
fn what_came_after_an_ident_is_reported(rt: HostRuntime) -> Result<(), Fail> {
    let library = after(rt.alloc(), EDITED_BY_MANY)?;
    for (since, run, wanted) in LATER {
        has_warnings(&library, Some(name(since)?), run, wanted)?;
    }
    Ok(())
}
