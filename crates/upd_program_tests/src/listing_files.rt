//! `correct` with a deck's listing in place of a library's file. Rules 10.83 to 10.86.
use crate::console::{answers, answers_of, fresh, remove};
use crate::file_sessions::{NO_LIBRARY, Step, Wanted, session_without_file};
use std::alloc::Global;
use std::fs;
use std::test::Fail;
use upd_testkit::check::holds;

#[test]
fn libraries_and_listings_correct_decks(rt: HostRuntime) -> Result<(), Fail> {
    /// The listing of deck A after its two runs.
    const LISTING: &str = "DECK A\nA A.1 *DECK A\nA A.2 ONE\nI A.3 TWO\nA S.1 DEUX\nA A.4 THREE\n";
    const LISTED: &[u8] = b"DECK A\nA A.1 *DECK A\nA A.2 ONE\nI A.3 TWO\nA S.1 DEUX\nA A.4 THREE\n";
    const EDITED: &str = "*DECK A\nUN\nDEUX\nTHREE\nFOUR\n";
    /// The run that corrects the deck.
    const RUN: &str = "*IDENT T\n*DELETE A.2\nUN\n*INSERT A.4\nFOUR\n";
    const CORRECTED: Step<'static> = Step::Answers("correct", &["T"], EDITED, (0, RUN, ""));
    const OTHER_DECK: &str = "OtherDeck 3:1 this line begins a deck that FILE does not list\n";
    const NO_DECK: &str = "NoDeck 1:1 no deck begins before this line\n\
Comment 3:1 a run would drop this line as a comment\n";
    const RUN_LONG: Wanted<'static> = (1, "", "upd: RunLong (1) at 0\n");
    const TWO_DECKS: &str = "*DECK A\nONE\n*DECK B\nNEW\n";
    const AHEAD: &str = "AHEAD\n*DECK A\n*/ C\n";
    const STEPS: &[Step<'_>] = &[
        Step::New("a library corrects a deck that it lists"),
        Step::Sends(&[
            ("1", "quick", "*DECK A\nONE\nTWO\nTHREE\n"),
            ("2", "quick", "*IDENT S\n*DELETE A.3\nDEUX\n"),
        ]),
        Step::Writes("list", &["A"], LISTING),
        CORRECTED,
        Step::Accepts("3", "quick", RUN),
        Step::Writes("text", &["A"], EDITED),
        Step::NoFile("at a path without a file"),
        Step::File("a listing serves as its library does (rule 10.84)", LISTED),
        CORRECTED,
        Step::Answers("correct", &["T"], TWO_DECKS, (1, "", OTHER_DECK)),
        Step::Answers("correct", &["T"], AHEAD, (1, "", NO_DECK)),
        Step::AnswersLong("correct", &["T"], ("", "X", 4_050_001), RUN_LONG),
        Step::File(
            "a SQLite file is opened as a library (rule 10.83)",
            b"SQLite format 3\0",
        ),
        Step::Answers("correct", &["T"], "", NO_LIBRARY),
    ];
    session_without_file(&rt, "listed", STEPS)
}

/// A file with this text is refused at this line.
fn is_neither(rt: &HostRuntime, file: &str, text: &[u8], line: &str) -> Result<(), Fail> {
    fs::write(rt, file, text)?;
    let why = format!(in rt.alloc();
        "NotListing {line}:1 FILE is not a library, and this line of it is not one of a deck's listing\n"
    )?;
    answers(rt, &["correct", file, "T"], "*DECK A\n", (1, "", &why))
}

#[test]
fn a_file_that_is_neither_is_refused_at_its_line(rt: HostRuntime) -> Result<(), Fail> {
    /// Files that are neither a library nor a listing, and the line of each that shows it.
    const NEITHER: &[(&str, &str)] = &[
        ("{\"at\":0,\"fault\":12,\"name\":\"DeckUnknown\"}", "1"),
        ("\n", "1"),
        ("SQLite format 3", "1"),
        ("DECK YANK$$$\n", "1"),
        ("DECK A\nA A.1 *DECK A\n1 A deck held\n", "3"),
        ("DECK A\nA A.1 *DECK A\nA A.2 ON", "3"),
    ];
    let file = fresh(&rt, "neither")?;
    for (text, line) in NEITHER {
        is_neither(&rt, &file, text.as_bytes(), line)?;
    }
    is_neither(&rt, &file, &vec![in rt.alloc(); b'\n'; 5_000_025]?, "1")?;
    remove(&rt, &file)
}

/// A file that is longer than any listing is opened as a library.
#[test]
fn a_file_that_is_too_long_is_opened_as_a_library(rt: HostRuntime) -> Result<(), Fail> {
    let file = fresh(&rt, "opened")?;
    fs::write(&rt, file.as_str(), &vec![in rt.alloc(); b'\n'; 5_000_026]?)?;
    answers_of(&rt, &file, "correct", &["T"], "", NO_LIBRARY)?;
    remove(&rt, &file)
}

/// The listing of a deck of 1,000 cards, and its text, where the last card has another one.
fn long_deck(alloc: Global) -> Result<(String, String), Fail> {
    let mut listing = String::from_str(alloc, "DECK A\nA A.1 *DECK A\n")?;
    let mut text = String::from_str(alloc, "*DECK A\n")?;
    for number in 2..1000_u32 {
        write!(listing, "A A.{number} {number:>70}\n")?;
        write!(text, "{number:>70}\n")?;
    }
    listing.push_str("A A.1000 LAST\n")?;
    text.push_str("OTHER\n")?;
    Ok((listing, text))
}

/// A listing of more than 65,536 bytes is read to its end.
#[test]
fn a_long_listing_is_corrected_in_its_last_line(rt: HostRuntime) -> Result<(), Fail> {
    let (listing, text) = long_deck(rt.alloc())?;
    holds("a long listing", listing.len() > 65_536)?;
    let file = fresh(&rt, "long-listing")?;
    fs::write(&rt, file.as_str(), listing.as_str())?;
    let wanted = (0, "*IDENT T\n*DELETE A.1000\nOTHER\n", "");
    answers_of(&rt, &file, "correct", &["T"], &text, wanted)?;
    remove(&rt, &file)
}
