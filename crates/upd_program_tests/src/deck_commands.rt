//! How a deck is edited: its text, the run that corrects it, what the run would do, and its compile file.
//! Rules 10.61 to 10.77.
use crate::console::{accepts, answers_of, ask, ask_of, begins, contains, library, remove};
use crate::file_sessions::{NO_LIBRARY, Step, Wanted, session_without_file};
use std::test::Fail;
use upd_testkit::check::{holds, same};

/// A common deck, a deck that calls it, and a correction of the latter; and a used number.
const SENT: Step<'static> = Step::Sends(&[
    (
        "1",
        "quick",
        "*COMDECK C,NOPROP\n      X = 1\n*DECK A\nONE\n*CALL C\nTWO\nTHREE\n",
    ),
    ("2", "quick", "*IDENT S\n*DELETE A.4\nDEUX\n"),
    ("7", "quick", "*/ used\n"),
]);

const NO_IDENT: Wanted<'static> = (1, "", "upd: IdentUnknown (11) at 0\n");

/// Deck A as it is to be, and a new deck.
const EDITED: &str = "*DECK A\nUN\n*CALL C\nDEUX\nTHREE\nFOUR\n*DECK B\nNEW\n";

#[test]
fn decks_are_edited(rt: HostRuntime) -> Result<(), Fail> {
    const UNKNOWN: Wanted<'static> = (1, "", "upd: DeckUnknown (12) at 0\n");
    /// The source of deck A, with the common deck that it calls.
    const SOURCE: &str = "\
ONE                                                                              A             2
      X = 1                                                                      C             2
DEUX                                                                             S             1
THREE                                                                            A             5
";
    /// The run that corrects the decks to their texts.
    const RUN: &str = "*IDENT T\n*DELETE A.2\nUN\n*INSERT A.5\nFOUR\n*DECK B\nNEW\n";
    /// The old text of deck A with another line, and the run that changes it.
    const NEW: &str = "*DECK A\nUN\n*CALL C\nTWO\nTHREE\n";
    const CHANGES: &str = "*IDENT T\n*DELETE A.2\nUN\n";
    const REFUSED: &str = "AHEAD\n*DECK A\n*/ C\n\x01\n*INSERT A.2\n*DECK  C\n";
    const REFUSALS: &str = "NameTaken 0:0 this name is in use\n\
NoDeck 1:1 no deck begins before this line\n\
Comment 3:1 a run would drop this line as a comment\n\
BadByte 4:1 a line can't have this byte\n\
Directive 5:1 a run would carry this line out as a directive\n\
FirstCard 6:1 the first card of a deck can't be changed\n";
    const TRIED: &str =
        "{\"compile\":\"\",\"idents\":[\"T\"],\"lines\":0,\"mode\":\"quick\",\"run\":1,\"site\":\"TRY\",\
\"state\":\"accepted\"}\n";
    const NOWHERE: &str =
        "{\"at\":1,\"fault\":9,\"mode\":\"quick\",\"name\":\"TextNowhere\",\"run\":1,\"site\":\"TRY\",\
\"state\":\"refused\"}\n";
    const DELTE: &str = "*IDENT T\n*INSERT A.1\n*DELTE A.2\n";
    const WARNED: Wanted<'static> = (0, TRIED, "upd: 3: *DELTE is text, not *DELETE\n");
    const MEETS: &str = "*IDENT T\n*DELETE S.1\n";
    const MET: Wanted<'static> = (0, TRIED, "upd: 2: S.1 came after A and is deleted\n");
    const EDITS: &[Step<'_>] = &[
        Step::New("the text of a deck is its active cards, and may add it (rule 10.61.1)"),
        SENT,
        Step::Writes("text", &["C"], "*COMDECK C,NOPROP\n      X = 1\n"),
        Step::Writes("text", &["A"], "*DECK A\nONE\n*CALL C\nDEUX\nTHREE\n"),
        Step::Answers("text", &["S"], "", UNKNOWN),
        Step::Writes(
            "text-at",
            &["A", "A"],
            "*DECK A\nONE\n*CALL C\nTWO\nTHREE\n",
        ),
        Step::Shows("the source of a deck follows its calls (rule 10.67)"),
        Step::Writes("source", &["A"], SOURCE),
        Step::Shows("all refusals of a text are reported (rule 10.64)"),
        Step::Answers("correct", &["S"], REFUSED, (1, "", REFUSALS)),
        Step::Shows("a run that is tried is not stored (rule 10.66)"),
        Step::Answers("try", &["quick"], DELTE, WARNED),
        Step::Answers("try", &["quick"], "HELLO\n", (1, NOWHERE, "")),
        Step::Answers("try-at", &["quick", "A"], MEETS, MET),
        Step::Answers("try-at", &["quick", "Q"], "HELLO\n", NO_IDENT),
        Step::Shows("a text of before S is corrected, and what S did stays (rule 10.63.3)"),
        Step::Answers("correct-at", &["T", "A"], NEW, (0, CHANGES, "")),
        Step::Shows("a correction run leads decks to their texts (rules 10.63.1 and 10.63.2)"),
        Step::Answers("correct", &["T"], EDITED, (0, RUN, "")),
        Step::Accepts("3", "quick", RUN),
        Step::Answers("correct", &["U"], EDITED, (0, "", "")),
    ];
    session_without_file(&rt, "edited", EDITS)
}

/// A deck that came with a set stays where the set goes.
#[test]
fn a_deck_that_stays_is_reported(rt: HostRuntime) -> Result<(), Fail> {
    const TRIED: &str =
        "{\"compile\":\"\",\"idents\":[\"Z\"],\"lines\":0,\"mode\":\"quick\",\"run\":1,\"site\":\"TRY\",\
\"state\":\"accepted\"}\n";
    const PURGED: &str =
        "{\"compile\":\"\",\"idents\":[],\"lines\":0,\"mode\":\"quick\",\"run\":1,\"site\":\"TRY\",\
\"state\":\"accepted\"}\n";
    const STAYS: &str = "upd: 2: NEWD came with S and stays: yank S,NEWD\n";
    const STAYS_OF_PURGE: &str = "upd: 1: NEWD came with S and stays: purge S,NEWD\n";
    const MAY_STAY: &str = "upd: 2: if NEWD came with S, it stays: yank S,NEWD\n";
    const BOTH: &str = "*IDENT S\n*INSERT A.2\nTWO\n*DECK NEWD\nLINE\n";
    const YANK: &str = "*IDENT Z\n*YANK S\n";
    const YANK_BOTH: &str = "*IDENT Z\n*YANK S,NEWD\n";
    const STEPS: &[Step<'_>] = &[
        Step::New("the stored run introduced both (rule 10.68.4)"),
        Step::Sends(&[("1", "quick", "*DECK A\nONE\n"), ("2", "quick", BOTH)]),
        Step::Answers("try", &["quick"], YANK, (0, TRIED, STAYS)),
        Step::Answers("try", &["quick"], "*PURGE S\n", (0, PURGED, STAYS_OF_PURGE)),
        Step::Answers("try", &["quick"], YANK_BOTH, (0, TRIED, "")),
        Step::Shows("the run is settled, so that it is not known (rule 10.68.4)"),
        Step::Settles("LYON", "2", "2"),
        Step::Answers("try", &["quick"], YANK, (0, TRIED, MAY_STAY)),
    ];
    session_without_file(&rt, "staying", STEPS)
}

const PARTS: &str = "correct-parts";

const LAST: &[&str] = &["T", "LYON", "999999999", "quick"];

#[test]
fn decks_are_edited_in_parts(rt: HostRuntime) -> Result<(), Fail> {
    /// The frame of this run, and what the desk answers it.
    const SPOOL: &str =
        "RUN LYON 3 quick 54\n*IDENT T1\n*DELETE A.2\nUN\n*INSERT A.5\nFOUR\n*DECK B\nNEW\n\n";
    const SPOOLED: &str =
        "{\"compile\":\"\",\"idents\":[\"T1\",\"B\"],\"lines\":0,\"mode\":\"quick\",\"run\":3,\"site\":\"LYON\",\
\"state\":\"accepted\"}\n";
    const BAD_NUMBER: Wanted<'static> = (1, "", "upd: BadNumber (24) at 0\n");
    const BAD_SITE: Wanted<'static> = (1, "", "upd: BadSite (23) at 0\n");
    const LONG_NAME: Wanted<'static> = (
        1,
        "",
        "BadName 0:0 the name of the sets has at most 8 bytes, since a number follows it\n",
    );
    const SEVENTH_USED: Wanted<'static> = (1, "", "NumberUsed 0:0 number 7 is used or settled\n");
    const THIRD: &[&str] = &["T", "LYON", "3", "quick"];
    const FIFTH: &[&str] = &["T", "LYON", "5", "quick"];
    const LONG: &[&str] = &["ABCDEFGHI", "LYON", "3", "quick"];
    const EDITS_IN_PARTS: &[Step<'_>] = &[
        Step::New("a spool leads decks to their texts (rule 10.63.5)"),
        SENT,
        Step::Answers(PARTS, &["T", "lyon", "3", "quick"], "", BAD_SITE),
        Step::Answers(PARTS, LONG, EDITED, LONG_NAME),
        Step::Shows("no frame is numbered past the greatest (rule 10.63.7)"),
        Step::AnswersLong(PARTS, LAST, ("*DECK B\n", "NEW\n", 2_100), BAD_NUMBER),
        Step::Shows("a text in three parts gets no number that is used (rule 10.63.7)"),
        Step::AnswersLong(PARTS, FIFTH, ("*DECK B\n", "NEW\n", 4_100), SEVENTH_USED),
        Step::Shows("a spool leads decks to their texts (rule 10.63.5)"),
        Step::Answers(PARTS, THIRD, EDITED, (0, SPOOL, "")),
        Step::Answers("spool", &[], SPOOL, (0, SPOOLED, "")),
        Step::Answers(PARTS, &["U", "LYON", "3", "quick"], EDITED, (0, "", "")),
        Step::Shows("rows that can't be read are Store, whatever meets them (rule 11.1)"),
        Step::Changes("UPDATE cards SET deck = -1"),
        Step::Answers(PARTS, THIRD, EDITED, NO_LIBRARY),
        Step::Answers("list", &["A"], "", NO_LIBRARY),
    ];
    session_without_file(&rt, "parts", EDITS_IN_PARTS)
}

/// A run may have 65,536 bytes and the number 999,999,999: its frame has both.
#[test]
fn a_part_may_be_the_greatest(rt: HostRuntime) -> Result<(), Fail> {
    let (alloc, file) = (rt.alloc(), library(&rt, "greatest")?);
    let lines = format!(in alloc; "{}\n", "X".repeat(alloc, 80)?.as_str())?.repeat(alloc, 808)?;
    let text = format!(in alloc; "*DECK B\n{lines}{}\n", "X".repeat(alloc, 69)?.as_str())?;
    let frame = format!(in alloc; "RUN LYON 999999999 quick 65536\n*IDENT T1\n{text}\n")?;
    answers_of(&rt, &file, PARTS, LAST, &text, (0, &frame, ""))?;
    remove(&rt, &file)
}

#[test]
fn libraries_are_looked_at(rt: HostRuntime) -> Result<(), Fail> {
    const BLAME: &str = "\
A A.1               A           *DECK A
I A.2               X           ONE
A X.1               X           NEW
A A.3               A           TWO
A A.4               A           THREE
";
    const REPORT: &str = "IDENT X set\nYANKED Y.1 set X\nDECK A\noff A.2 ONE\nI X.1 NEW\n";
    /// What Y did, and the run that introduced it.
    const INTRODUCED: &str =
        "IDENT Y set\nDECK YANK$$$\nA Y.1 *YANK X\n set X\nRUN LYON 3 normal # take it back\n";
    const LOOKS: &[Step<'_>] = &[
        Step::New("a library is looked at (rules 10.70 and 10.73)"),
        Step::Sends(&[
            ("1", "quick", "*DECK A\nONE\nTWO\nTHREE\n"),
            ("2", "quick", "*IDENT X\n*DELETE A.2\nNEW\n*/ second\n"),
        ]),
        Step::Writes("blame", &["A"], BLAME),
        Step::Accepts("3", "normal", "*/ take it back\n*IDENT Y\n*YANK X\n"),
        Step::Writes("show", &["X"], REPORT),
        Step::Writes("show", &["Y"], INTRODUCED),
        Step::Shows("a run's message is shown while the runs of a name are stored (rule 10.73)"),
        Step::Sends(&[
            ("4", "quick", "*PURGE Y\n"),
            ("5", "quick", "*/ again\n*IDENT Y\n"),
        ]),
        Step::Writes("show", &["Y"], "IDENT Y set\nRUN LYON 5 quick # again\n"),
        Step::Settles("LYON", "3", "3"),
        Step::Writes("show", &["Y"], "IDENT Y set\n"),
    ];
    session_without_file(&rt, "look", LOOKS)
}

/// The page of a library begins and ends as HTML does.
#[test]
fn the_page_of_a_library_has_its_texts_escaped(rt: HostRuntime) -> Result<(), Fail> {
    let file = library(&rt, "page")?;
    accepts(&rt, &file, "1", "quick", "*DECK B\n<b>&\n")?;
    let page = ask_of(&rt, &file, "page", &[], "")?;
    begins(&page, (0, "<!DOCTYPE html>\n", ""))?;
    contains(&page, (0, "&lt;b&gt;&amp;", ""))?;
    holds("the end", page.output.ends_with(b"</html>\n"))?;
    remove(&rt, &file)
}

/// What names no fault is answered by BadName, and a line for each fault.
fn is_not_explained(rt: &HostRuntime, word: &str) -> Result<(), Fail> {
    let found = ask(rt, &["explain", word], &mut b"".as_slice())?;
    begins(
        &found,
        (1, "", "upd: BadName (5) at 0\n1 RunLong\n2 TooManyLines\n"),
    )?;
    holds(word, found.faults.ends_with(b"\n32 Read\n33 Write\n"))?;
    let count = found.faults.iter().filter(|b| **b == b'\n').count();
    same("the lines", count, 34)
}

#[test]
fn a_fault_is_explained(rt: HostRuntime) -> Result<(), Fail> {
    for word in ["Settled", "settled", "SETTLED", "27"] {
        let found = ask(&rt, &["explain", word], &mut b"".as_slice())?;
        begins(&found, (0, "Settled (27): ", ""))?;
    }
    for word in ["settle", "34", "027", ""] {
        is_not_explained(&rt, word)?;
    }
    Ok(())
}
