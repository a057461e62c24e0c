//! Edited texts that several runs lead to. Rules 10.63.5 to 10.63.7.

use crate::edited_texts::refused;
use crate::long_runs::{Part, after_long, text, text_of};
use std::alloc::Global;
use std::test::Fail;
use upd_core::Library;
use upd_correct::correct_parts;
use upd_edit::active_text;
use upd_testkit::applying::{applied, name};
use upd_testkit::check::{holds, same, same_text};

/// Deck A of 3,000 cards: its first, 1,999 of its own and 1,000 of X. And deck B.
const LONG: &[&[Part<'_>]] = &[
    &[Part::Text("*DECK A\n1999 x OLD")],
    &[Part::Text("*IDENT X\n*INSERT A.2000\n1000 x OLD\n*DECK B\nB")],
];

/// Decks of the library, an edited text of them, and the runs that lead to it.
const EDITS: &[(&[&str], &str, &[&str])] = &[
    // An edit of 2,500 lines is two runs (rule 10.63.5).
    (
        &["A"],
        "*DECK A\n2500 x NEW\n499 x OLD",
        &[
            "*IDENT Z1\n*INSERT A.1\n1997 x NEW",
            "*IDENT Z2\n*INSERT Z1.1997\n503 x NEW\n*DELETE A.501,X.1000",
        ],
    ),
    // 1,500 lines of 70 letters are two runs: beside 921 of them the first has two directives, for which 96 bytes are
    // reserved, and one that would be continued, with 48 more. With another line they would be 65,606 bytes.
    (
        &["A"],
        "*DECK A\n1500 x LLLLLLLLLLLLLLLLLLLLLLLLLLLLLLLLLLLLLLLLLLLLLLLLLLLLLLLLLLLLLLLLLLLLLL\n2999 x OLD",
        &[
            "*IDENT Z1\n*INSERT A.1\n921 x LLLLLLLLLLLLLLLLLLLLLLLLLLLLLLLLLLLLLLLLLLLLLLLLLLLLLLLLLLLLLLLLLLLLLL",
            "*IDENT Z2\n*INSERT Z1.921\n579 x LLLLLLLLLLLLLLLLLLLLLLLLLLLLLLLLLLLLLLLLLLLLLLLLLLLLLLLLLLLLLLLLLLLLLL",
        ],
    ),
    // One that fits is one run, and no edit is none (rule 10.63.5).
    (
        &["A"],
        "*DECK A\nNEW\n2999 x OLD",
        &["*IDENT Z1\n*INSERT A.1\nNEW"],
    ),
    (&["A"], "*DECK A\n2999 x OLD", &[]),
    // New decks come first.
    (
        &["B", "N"],
        "*DECK B\nB\nC\n*COMDECK N\n2100 x NEW",
        &[
            "*IDENT Z1\n*COMDECK N\n1997 x NEW",
            "*IDENT Z2\n*INSERT B.2\nC\n*INSERT N.1998\n103 x NEW",
        ],
    ),
];

/// Deck A of 2,501 cards, whose lines but the first are all replaced.
const RANGE: &[&[Part<'_>]] = &[
    &[Part::Text("*DECK A\n1999 x OLD")],
    &[Part::Text("*IDENT X\n*INSERT A.2000\n501 x OLD")],
];

/// How many lines a deck has with a text.
fn count(library: &Library, line: &str) -> Result<usize, Fail> {
    let text = active_text(library.allocator(), library, &name("A")?)?;
    Ok(
        std::str::from_utf8(&text)?
            .lines()
            .filter(|&found| found == line)
            .count(),
    )
}

/// After each part the deck has as many new lines as old ones are gone, but for the share of one line.
fn is_between(library: &Library) -> Result<(), Fail> {
    let (old, new) = (count(library, "OLD")?, count(library, "NEW")?);
    let lines = old.saturating_add(new);
    holds(
        "the lines between the parts",
        2_499 <= lines && lines <= 2_501,
    )
}

#[test]
fn a_range_goes_with_the_lines_that_stand_for_it(rt: HostRuntime) -> Result<(), Fail> {
    let alloc = rt.alloc();
    let mut library = after_long(alloc, RANGE)?;
    let edited = text_of(alloc, &[Part::Text("*DECK A\n2500 x NEW")])?;
    let runs = match correct_parts(alloc, &library, b"Z", edited.as_bytes()) {
        Ok(runs) => runs,
        Err(_) => return Err("the text is refused".into()),
    };
    same("the number of runs", runs.len(), 2)?;
    for run in &runs {
        applied(&mut library, text(run)?)?;
        is_between(&library)?;
    }
    have_text(&library, &["A"], edited.as_str())?;
    let Some(second) = runs.get(1) else {
        return Err("there is one run".into());
    };
    let anchor = "*IDENT Z2\n*INSERT Z1.";
    holds(
        "the second run names the first",
        text(second)?.starts_with(anchor),
    )
}

/// Deck A with five lines that are replaced.
const FIVE: &[&[Part<'_>]] = &[&[Part::Text("*DECK A\nFIRST\nSECOND\n5 x OLD\nLAST")]];

/// Of a range of five lines behind so many new ones no line, old or new, is missing after a part.
fn is_never_short(alloc: Global, before: usize) -> Result<(), Fail> {
    let mut library = after_long(alloc, FIVE)?;
    let lines = format!(in alloc; "*DECK A\nFIRST\n{before} x LINE\nSECOND\n5 x NEW\nLAST")?;
    let edited = text_of(alloc, &[Part::Text(lines.as_str())])?;
    let Ok(runs) = correct_parts(alloc, &library, b"Z", edited.as_bytes()) else {
        return Err("the text is refused".into());
    };
    for run in &runs {
        applied(&mut library, text(run)?)?;
        let there = count(&library, "OLD")?.saturating_add(count(&library, "NEW")?);
        holds("the lines of the range", there >= 5)?;
    }
    have_text(&library, &["A"], edited.as_str())
}

/// Wherever the parts are cut. Rule 10.63.6.
#[test]
fn no_line_of_a_range_is_missing_between_parts(rt: HostRuntime) -> Result<(), Fail> {
    for before in 1_986..2_000 {
        is_never_short(rt.alloc(), before)?;
    }
    Ok(())
}

/// A run has this text, and is applied.
fn is_run(library: &mut Library, run: &[u8], wanted: &str) -> Result<(), Fail> {
    let wanted = text_of(library.allocator(), &[Part::Text(wanted)])?;
    same_text("a run", text(run)?, wanted.as_str())?;
    applied(library, wanted.as_str())?;
    Ok(())
}

fn are_runs(library: &mut Library, found: &[Vec<u8>], runs: &[&str]) -> Result<(), Fail> {
    same("the number of runs", found.len(), runs.len())?;
    for (run, wanted) in found.iter().zip(runs) {
        is_run(library, run, wanted)?;
    }
    Ok(())
}

/// The texts of decks, one after the other, are this text.
fn have_text(library: &Library, decks: &[&str], edited: &str) -> Result<(), Fail> {
    let alloc = library.allocator();
    let mut reached = String::new(alloc);
    for deck in decks {
        let found = active_text(alloc, library, &name(deck)?)?;
        reached.push_str(text(&found)?)?;
    }
    same_text("the texts", reached.as_str(), edited)
}

/// A library is led to a text of decks by these runs.
fn is_led(
    library: &mut Library,
    (decks, edited): (&[&str], &str),
    runs: &[&str],
) -> Result<(), Fail> {
    let alloc = library.allocator();
    let edited = text_of(alloc, &[Part::Text(edited)])?;
    match correct_parts(alloc, library, b"Z", edited.as_bytes()) {
        Ok(found) => are_runs(library, &found, runs)?,
        Err(_) => return Err("the text is refused".into()),
    }
    have_text(library, decks, edited.as_str())
}

#[test]
fn long_edits_are_several_runs(rt: HostRuntime) -> Result<(), Fail> {
    for (decks, edited, runs) in EDITS {
        is_led(&mut after_long(rt.alloc(), LONG)?, (decks, edited), runs)?;
    }
    Ok(())
}

/// Sets and edited texts, and why no runs can be: the name of a set, or of a deck.
const REFUSED: &[(&str, &str, &str)] = &[
    ("ABCDEFGHI", "*DECK B", "0:0 SetLong\n"),
    ("", "*DECK B", "0:0 NoSet\n"),
    ("z", "*DECK B", "0:0 PartName(1)\n"),
    ("Z", "*DECK Z1", "1:1 NameTaken\n"),
    ("Z", "*DECK Z2\n2100 x NEW", "0:0 PartTaken(2)\n"),
];

fn is_refused(library: &Library, set: &str, edited: &str, wanted: &str) -> Result<(), Fail> {
    let alloc = library.allocator();
    let text = text_of(alloc, &[Part::Text(edited)])?;
    match correct_parts(alloc, library, set.as_bytes(), text.as_bytes()) {
        Ok(_) => Err("the text isn't refused".into()),
        Err(error) => same_text(edited, refused(alloc, error)?.as_str(), wanted),
    }
}

#[test]
fn a_set_or_a_run_that_cant_be_is_refused(rt: HostRuntime) -> Result<(), Fail> {
    let library = after_long(rt.alloc(), LONG)?;
    for (set, edited, wanted) in REFUSED {
        is_refused(&library, set, edited, wanted)?;
    }
    Ok(())
}
