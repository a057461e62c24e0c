//! What is written of a deck of as many cards as several runs put, of all idents of a library, and of many stored runs.
//! Rules 10.61.1, 10.67, 10.73, 10.78, 10.79.

use crate::edited_texts::FULL;
use crate::examined_tables::put_runs;
use crate::long_runs::{Part, after_long, text, text_of};
use std::alloc::Global;
use std::test::Fail;
use upd_compile::{list_deck, list_idents};
use upd_core::Library;
use upd_edit::{active_text, as_of, source};
use upd_testkit::applying::name;
use upd_testkit::check::{holds, same, same_text};
use upd_views::{blame, page, run_list, show, site_lines};

/// Deck A of 6,000 cards.
const RUNS: &[&[Part<'_>]] = &[
    &[Part::Text("*DECK A\n1999 x ONE")],
    &[Part::Text("*IDENT X\n*INSERT A.2000\n1998 x TWO")],
    &[Part::Text("*IDENT Y\n*INSERT X.1998\n1998 x THREE")],
    &[Part::Text("*IDENT Z\n*INSERT Y.1998\n4 x FOUR")],
];

const TEXT: &[Part<'_>] = &[Part::Text("*DECK A\n1999 x ONE\n1998 x TWO\n1998 x THREE\n4 x FOUR")];

/// The text of the deck without what Y and Z did.
const EARLIER: &[Part<'_>] = &[Part::Text("*DECK A\n1999 x ONE\n1998 x TWO")];

/// The deck has this text.
fn has_text(library: &Library, wanted: &[Part<'_>]) -> Result<(), Fail> {
    let alloc = library.allocator();
    let found = active_text(alloc, library, &name("A")?)?;
    same_text("deck A", text(&found)?, text_of(alloc, wanted)?.as_str())
}

#[test]
fn a_deck_of_6000_cards_has_a_text(rt: HostRuntime) -> Result<(), Fail> {
    let library = after_long(rt.alloc(), RUNS)?;
    has_text(&library, TEXT)?;
    has_text(&as_of(rt.alloc(), &library, &name("X")?)?, EARLIER)
}

/// How many lines a text has.
fn count(text: &[u8]) -> usize {
    text.iter().filter(|byte| **byte == b'\n').count()
}

/// The lines of the deck's listing, its blame and its source.
fn deck_counts(alloc: Global, library: &Library) -> Result<[usize; 3], Fail> {
    let deck = name("A")?;
    Ok([
        count(&list_deck(alloc, library, &deck)?),
        count(&blame(alloc, library, &deck)?),
        count(&source(alloc, library, &deck)?.bytes),
    ])
}

/// A listing has a line for the deck, and a report two before the cards; a source has no first card.
#[test]
fn a_deck_of_6000_cards_is_listed(rt: HostRuntime) -> Result<(), Fail> {
    let library = after_long(rt.alloc(), RUNS)?;
    let counts = deck_counts(rt.alloc(), &library)?;
    same("listing, blame, source", counts, [6001, 6000, 5999])?;
    let report = show(rt.alloc(), &library, &[], &name("X")?)?;
    same("the report", count(&report), 2000)?;
    let html = page(rt.alloc(), &library)?;
    holds("the page", html.ends_with(b"</html>\n"))
}

#[test]
fn all_4096_idents_are_listed(rt: HostRuntime) -> Result<(), Fail> {
    let library = after_long(rt.alloc(), FULL)?;
    let text = list_idents(rt.alloc(), &library)?;
    same("the lines", count(&text), 4096)?;
    holds("the last one", text.ends_with(b"\n4096 N4095 set held\n"))
}

/// Five thousand runs of one site, each of 8 bytes.
#[test]
fn five_thousand_runs_are_listed(rt: HostRuntime) -> Result<(), Fail> {
    let (mut rows, mut runs) = (Vec::new(rt.alloc()), Vec::new(rt.alloc()));
    for number in 1..=5000_u64 {
        rows.push((number, 2, false, b"".as_slice()))?;
    }
    put_runs(rt.alloc(), &mut runs, &rows)?;
    let sites = site_lines(rt.alloc(), &runs, &[])?;
    same_text("the site", text(&sites)?, "SITEA 0 5000 5001 40000\n")?;
    let list = run_list(rt.alloc(), runs)?;
    same("the lines", count(&list), 5000)
}
