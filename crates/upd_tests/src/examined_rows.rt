//! What is found of the rows of a small library, of which one row is changed, lost or doubled, or none that a run brings.
//! Rules 10.89 and 10.90.
use crate::examined_tables::{
    A_1, A_2, B_1, DECK_A, DECK_B, DECK_C, REFUSED, RUN_6, Rows, S_1, SET_S, found,
};
use std::alloc::Global;
use std::test::Fail;
use upd_core::{Kind, Target};
use upd_testkit::check::same_text;

/// Rows that take the place of sound ones, and what is found then.
const CHANGED: &[(&[Rows], &str)] = &[
    (&[], ""),
    // Rows may come in any order.
    (
        &[
            Rows::Idents(&[SET_S, DECK_C, DECK_B, DECK_A]),
            Rows::Cards(&[B_1, A_2, A_1, S_1]),
            Rows::Entries(&[("S.1", 0, 4), ("B.1", 0, 2), ("A.2", 0, 1), ("A.1", 0, 1)]),
            Rows::States(&[("S.1", true), ("B.1", false), ("A.2", true), ("A.1", true)]),
        ],
        "",
    ),
    // A status differs.
    (
        &[Rows::States(&[("A.1", true), ("A.2", true), ("B.1", true), ("S.1", true)])],
        "states B.1 (active) is stored, and the library does not have it
states B.1 (not active) is not stored, and the library has it
",
    ),
    // A status is lost, and one is doubled.
    (
        &[Rows::States(&[("A.2", true), ("B.1", false), ("S.1", true), ("S.1", true)])],
        "states A.1 (active) is not stored, and the library has it
states S.1 (active) is stored, and the library does not have it
",
    ),
    // A count differs.
    (
        &[Rows::Counts(&[(Target::Deck(2), 2)])],
        "counts deck 2 (1) is not stored, and the library has it
counts deck 2 (2) is stored, and the library does not have it
",
    ),
    // A count is lost.
    (
        &[Rows::Counts(&[])],
        "counts deck 2 (1) is not stored, and the library has it\n",
    ),
    // A target is lost. The yank card takes nothing then, so deck B is active.
    (
        &[Rows::Targets(&[])],
        "states B.1 (active) is not stored, and the library has it
states B.1 (not active) is stored, and the library does not have it
counts deck 2 (1) is stored, and the library does not have it
",
    ),
    // A target of no card.
    (
        &[Rows::Targets(&[("S.1", Target::Deck(2)), ("S.2", Target::Set(1))])],
        "targets S.2 0 (ident 1) is stored, and the library does not have it\n",
    ),
    // A place differs.
    (
        &[Rows::Cards(&[S_1, A_1, ("A.2", 1, 7, b"ONE"), B_1])],
        "cards A.2 (deck 1, place 1, text ONE) is not stored, and the library has it
cards A.2 (deck 1, place 7, text ONE) is stored, and the library does not have it
",
    ),
    // A card is lost.
    (
        &[Rows::Cards(&[S_1, A_1, B_1])],
        "entries A.2 0 (on by ident 1) is stored, and the library does not have it
states A.2 (active) is stored, and the library does not have it
",
    ),
    // An entry is lost.
    (
        &[Rows::Entries(&[("A.1", 0, 1), ("B.1", 0, 2), ("S.1", 0, 4)])],
        "cards A.2 has a history that does not begin with its own ident, switched on
states A.2 (active) is stored, and the library does not have it
states A.2 (not active) is not stored, and the library has it
",
    ),
    // An entry is doubled.
    (
        &[Rows::Entries(&[
            ("A.1", 0, 1),
            ("A.2", 0, 1),
            ("B.1", 0, 2),
            ("S.1", 0, 4),
            ("A.2", 0, 1),
        ])],
        "entries A.2 0 (on by ident 1) is stored, and the library does not have it
entries A.2 1 (on by ident 1) is not stored, and the library has it
",
    ),
    // An entry of a purged ident.
    (
        &[Rows::Entries(&[
            ("A.1", 0, 1),
            ("A.2", 0, 1),
            ("B.1", 0, 2),
            ("S.1", 0, 4),
            ("A.2", 1, 3),
        ])],
        "cards A.2 has an entry of an ident that is not held\n",
    ),
    // An ident is doubled.
    (
        &[Rows::Idents(&[DECK_A, DECK_B, DECK_C, SET_S, ("S", 5, Kind::Set, true)])],
        "idents have two held idents of one name, or one named YANK$$$, or a gap\n",
    ),
    // A held deck has no cards.
    (
        &[Rows::Idents(&[DECK_A, DECK_B, DECK_C, SET_S, ("D", 5, Kind::Deck, true)])],
        "cards are not those of the held decks, each deck once and none left out\n",
    ),
    // Texts that no line has.
    (
        &[Rows::Cards(&[
            S_1,
            A_1,
            ("A.2", 1, 1, &[b'X'; 81]),
            ("B.1", 2, 0, b"*DECK B\xC3"),
        ])],
        "cards A.2 has a text that no line has\ncards B.1 has a text that no line has\n",
    ),
    // A run is at the mark.
    (
        &[Rows::Marks(&[("SITEA", 6)])],
        "runs SITEA 6 is at or below the mark 6\n",
    ),
    // A reply of another run.
    (
        &[Rows::Runs(&[RUN_6, (8, 1, false, REFUSED)])],
        "runs SITEA 8 has a reply that no run gets\n",
    ),
    // A run has switched a deck's first card.
    (
        &[Rows::Entries(&[
            ("A.1", 0, 1),
            ("A.1", 1, 4),
            ("A.2", 0, 1),
            ("B.1", 0, 2),
            ("S.1", 0, 4),
        ])],
        "decks 1 has a first card that was switched\n",
    ),
    // A deck's own cards have a gap.
    (
        &[
            Rows::Cards(&[S_1, A_1, ("A.3", 1, 1, b"ONE"), B_1]),
            Rows::Entries(&[("A.1", 0, 1), ("A.3", 0, 1), ("B.1", 0, 2), ("S.1", 0, 4)]),
            Rows::States(&[("A.1", true), ("A.3", true), ("B.1", false), ("S.1", true)]),
        ],
        "decks 1 has cards of its own ident that are not numbered 1, 2 and so on\n",
    ),
    // Entries behind the first are not in order of their idents.
    (
        &[Rows::Entries(&[
            ("A.1", 0, 1),
            ("A.2", 0, 1),
            ("A.2", 1, 4),
            ("A.2", 2, 2),
            ("B.1", 0, 2),
            ("S.1", 0, 4),
        ])],
        "cards A.2 has entries that are not in order of their idents\n",
    ),
    // A refusal of an accepted run.
    (
        &[Rows::Runs(&[RUN_6, (7, 1, true, REFUSED)])],
        "runs SITEA 7 has a reply that no run gets\n",
    ),
    // A run is doubled.
    (
        &[Rows::Runs(&[RUN_6, (7, 1, false, REFUSED), RUN_6])],
        "runs SITEA 6 is stored twice\n",
    ),
    // A number above those of runs.
    (
        &[Rows::Runs(&[
            RUN_6,
            (7, 1, false, REFUSED),
            (
                1_000_000_000,
                1,
                true,
                b"{\"compile\":\"\",\"idents\":[],\"lines\":0,\"mode\":\"quick\",\"run\":1000000000,\"site\":\"SITEA\",\"state\":\"accepted\"}",
            ),
        ])],
        "runs SITEA 1000000000 has a number that no run has\n",
    ),
    // A mark is doubled.
    (
        &[Rows::Marks(&[("SITEA", 5), ("SITEA", 4)])],
        "settled SITEA has two marks\n",
    ),
    // A site in small letters.
    (
        &[Rows::Marks(&[("sitea", 5)])],
        "settled sitea has a site that no run has\n",
    ),
    // A mark of 0.
    (
        &[Rows::Marks(&[("SITEA", 0)])],
        "settled SITEA has a mark that is no run's number\n",
    ),
];

/// Finds exactly these lines.
fn finds(alloc: Global, changed: &[Rows], wanted: &str) -> Result<(), Fail> {
    let found = found(alloc, changed)?;
    same_text("the findings", found.as_str(), wanted)
}

#[test]
fn what_no_library_has_is_found(rt: HostRuntime) -> Result<(), Fail> {
    for (changed, wanted) in CHANGED {
        finds(rt.alloc(), changed, wanted)?;
    }
    Ok(())
}

/// These lines are found first.
#[test]
fn an_ident_that_is_lost_is_found(rt: HostRuntime) -> Result<(), Fail> {
    const WANTED: &str = "\
idents 4 S is not numbered one above the ident before it
idents have two held idents of one name, or one named YANK$$$, or a gap
";
    let found = found(rt.alloc(), &[Rows::Idents(&[DECK_A, DECK_B, SET_S])])?;
    let first = found.get(..WANTED.len()).unwrap_or("");
    same_text("the first findings", first, WANTED)
}

#[test]
fn a_mode_that_no_run_has_is_found(rt: HostRuntime) -> Result<(), Fail> {
    let runs = Rows::Runs(&[RUN_6, (7, 3, false, REFUSED)]);
    let wanted = "runs SITEA 7 has a mode that no run has\n";
    finds(rt.alloc(), &[runs], wanted)
}

/// Three statuses are missing, and one is there 104 times.
#[test]
fn a_hundred_findings_are_listed(rt: HostRuntime) -> Result<(), Fail> {
    let mut wanted = String::from_str(
        rt.alloc(),
        "states A.1 (active) is not stored, and the library has it
states A.2 (active) is not stored, and the library has it
states B.1 (not active) is not stored, and the library has it
",
    )?;
    for _ in 0..97 {
        wanted.push_str("states S.1 (active) is stored, and the library does not have it\n")?;
    }
    finds(rt.alloc(), &[Rows::States(&[("S.1", true); 104])], &wanted)
}
