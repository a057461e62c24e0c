//! Runs for edited texts of small libraries and of long decks.

use crate::long_runs::{Part, after_long, text, text_of};
use std::alloc::Global;
use std::test::Fail;
use upd_core::Library;
use upd_correct::{CorrectError, Refusal, correct};
use upd_edit::active_text;
use upd_testkit::applying::{after, applied, name};
use upd_testkit::check::{holds, same, same_text};
use upd_testkit::random_runs::Dice;

/// Refusals as `1:2 BadByte`, each with LF.
pub fn refusal_text(alloc: Global, refusals: &[Refusal]) -> Result<String, Fail> {
    let mut text = String::new(alloc);
    for refusal in refusals {
        let (line, column) = (refusal.line, refusal.column);
        write!(text, "{line}:{column} {:?}\n", refusal.problem)?;
    }
    Ok(text)
}

/// Why a text is refused.
pub fn refused(alloc: Global, error: CorrectError) -> Result<String, Fail> {
    match error {
        CorrectError::Refused(refusals) => refusal_text(alloc, &refusals),
        CorrectError::NoMemory => Err("out of memory".into()),
    }
}

/// The run of a set for an edited text, or why the text is refused.
pub fn run_for(alloc: Global, library: &Library, set: &str, text: &str) -> Result<String, Fail> {
    match correct(alloc, library, set.as_bytes(), text.as_bytes()) {
        Ok(run) => Ok(String::from_utf8(run)?),
        Err(error) => refused(alloc, error),
    }
}

/// Deck A of ONE, TWO, which is inactive, and THREE; and deck B, which is taken out of use.
const SMALL: &[&[Part<'_>]] = &[
    &[Part::Text("*DECK A\nONE\nTWO\nTHREE\nFOUR\n*DECK B")],
    &[Part::Text("*IDENT X\n*DELETE A.3\n*YANKDECK B")],
];

const LETTERS: &[&[Part<'_>]] = &[&[Part::Text(
    "*DECK A\nA\nB\nC\nD\nE\nF\nG\nH\nI\nJ\nK\nL\nM\nN\nO\nP\nQ\nR\nS\nT",
)]];

const EQUAL_LINES: &[&[Part<'_>]] = &[
    &[Part::Text("*DECK A\n#else\n#endif")],
    &[Part::Text("*IDENT X\n*INSERT A.3\nONE\n#else\nTWO\n#endif\nONE")],
    &[Part::Text("*IDENT Y\n*DELETE X.1")],
];

/// Deck D of 2,500 cards: D.1 to D.2000 and P.1 to P.500, which have the lines of the numbers 2 to 2,500.
const LONG: &[&[Part<'_>]] = &[
    &[Part::Text("*DECK D"), Part::Numbered(2, 2_000)],
    &[
        Part::Text("*IDENT P\n*INSERT D.2000"),
        Part::Numbered(2_001, 2_500),
    ],
];

/// Deck A, and sets: as many idents as a library holds.
pub const FULL: &[&[Part<'_>]] = &[
    &[Part::Text("*DECK A\nONE")],
    &[Part::Idents(1, 2000)],
    &[Part::Idents(2001, 4000)],
    &[Part::Idents(4001, 4095)],
];

/// The runs of a library, a set, an edited text, and the run for it, or why the text is refused.
type Edit = (
    &'static [&'static [Part<'static>]],
    &'static str,
    &'static [Part<'static>],
    &'static str,
);

const EDITS: &[Edit] = &[
    // Lines are replaced and added, and a deck is introduced (rule 10.63.1).
    (
        SMALL,
        "Z",
        &[Part::Text("*DECK A\nUN\nTHREE\nFOUR\nQUATRE\n*DECK C\nCINQ")],
        "*IDENT Z\n*DELETE A.2\nUN\n*INSERT A.5\nQUATRE\n*DECK C\nCINQ\n",
    ),
    // A range leaves an inactive card out (rule 10.65.2).
    (
        SMALL,
        "Z",
        &[Part::Text("*DECK A\nZERO")],
        "*IDENT Z\n*DELETE A.2\nZERO\n*DELETE A.4,A.5\n",
    ),
    // A range takes all cards that go (rule 10.65.2).
    (
        LETTERS,
        "Z",
        &[Part::Text("*DECK A\nA\nT")],
        "*IDENT Z\n*DELETE A.3,A.20\n",
    ),
    // Of equal cards those of the older ident stay (rule 10.65.1).
    (
        EQUAL_LINES,
        "Z",
        &[Part::Text("*DECK A\n#else\nTWO\n#endif")],
        "*IDENT Z\n*DELETE A.3\n*DELETE X.2\n*DELETE X.5\n",
    ),
    // The first and the last line of a long deck are replaced (rule 10.65.1).
    (
        LONG,
        "Z",
        &[
            Part::Text("*DECK D\nONE"),
            Part::Numbered(3, 2_499),
            Part::Text("TWO"),
        ],
        "*IDENT Z\n*DELETE D.2\nONE\n*DELETE P.500\nTWO\n",
    ),
    // All problems are named (rule 10.64).
    (
        SMALL,
        "X",
        &[Part::Text(
            "AHEAD\n*DECK A\nA\x01\n*/ C\n*INSERT A.1\n*DECK A\n*DECK X\n*DECK YANK$$$\n*DECK B\n*DECK",
        )],
        "0:0 NameTaken
1:1 NoDeck
3:2 BadByte
4:1 Comment
5:1 Directive
6:1 DeckTwice
7:1 NameTaken
8:1 Reserved
9:1 OutOfUse
10:1 Directive
",
    ),
    // A first card is changed, and a line has 81 bytes (rule 10.64).
    (
        SMALL,
        "Z",
        &[Part::Text(
            "*DECK  A\nLLLLLLLLLLLLLLLLLLLLLLLLLLLLLLLLLLLLLLLLLLLLLLLLLLLLLLLLLLLLLLLLLLLLLLLLLLLLLLLLL",
        )],
        "1:1 FirstCard\n2:81 LineLong\n",
    ),
    // The run has more than 2,000 lines (rule 10.64).
    (
        SMALL,
        "Z",
        &[Part::Text("*DECK A\n2000 x L")],
        "0:0 TooManyLines\n",
    ),
    // The library has no room for another set (rule 10.64).
    (FULL, "Z", &[Part::Text("*DECK A\nTWO")], "0:0 Full\n"),
];

/// What comes of an edit is this.
fn gives(alloc: Global, (runs, set, edited, wanted): Edit) -> Result<(), Fail> {
    let library = after_long(alloc, runs)?;
    let edited = text_of(alloc, edited)?;
    let found = run_for(alloc, &library, set, edited.as_str())?;
    same_text(set, found.as_str(), wanted)
}

#[test]
fn edited_texts_have_runs_or_refusals(rt: HostRuntime) -> Result<(), Fail> {
    for edit in EDITS {
        gives(rt.alloc(), *edit)?;
    }
    Ok(())
}

/// Deck D of 2,500 cards that are all alike: D.2 to D.2000, and P.1 to P.500.
const ALIKE: &[&[Part<'_>]] = &[
    &[Part::Text("*DECK D\n1999 x SAME")],
    &[Part::Text("*IDENT P\n*INSERT D.2000\n500 x SAME")],
];

/// A run puts a line at the front and one at the end, where it deletes one range.
fn deletes_one_range(run: &str) -> Result<(), Fail> {
    let begins = run.starts_with("*IDENT Z\n*INSERT D.1\nFIRST\n*DELETE P.");
    let found = (begins, run.ends_with("\nLAST\n"), run.lines().count());
    same("it begins, it ends, its lines", found, (true, true, 5))
}

#[test]
fn lines_that_are_all_alike_are_matched(rt: HostRuntime) -> Result<(), Fail> {
    let library = after_long(rt.alloc(), ALIKE)?;
    let text = text_of(
        rt.alloc(),
        &[Part::Text("*DECK D\nFIRST\n2489 x SAME\nLAST")],
    )?;
    deletes_one_range(run_for(rt.alloc(), &library, "Z", text.as_str())?.as_str())
}

/// Some letters, changed at random.
pub fn changed_lines(alloc: Global, lines: &[u8], dice: &mut Dice) -> Result<Vec<u8>, Fail> {
    let mut changed = Vec::new(alloc);
    for line in lines {
        match dice.below(8) {
            0 => {}
            1 => changed.extend_from_slice(&[random_letter(dice), *line])?,
            _ => changed.push(*line)?,
        }
    }
    Ok(changed)
}

/// One of the letters A to D.
fn random_letter(dice: &mut Dice) -> u8 {
    let at = dice.below(4) as usize;
    b"ABCD".get(at).copied().unwrap_or(b'A')
}

/// A deck whose lines are single letters.
pub fn deck_text(alloc: Global, lines: &[u8]) -> Result<String, Fail> {
    let mut text = String::from_str(alloc, "*DECK A\n")?;
    for line in lines {
        text.push(char::from(*line))?;
        text.push('\n')?;
    }
    Ok(text)
}

/// Replaces a row of the table by the next one, of one letter more.
fn extend_row(row: &mut [usize], letter: u8, lines: &[u8]) {
    let mut diagonal: usize = 0;
    let mut before: usize = 0;
    for (cell, line) in row.iter_mut().zip(lines) {
        let above = *cell;
        let longest = if letter == *line {
            diagonal.saturating_add(1)
        } else {
            above.max(before)
        };
        *cell = longest;
        diagonal = above;
        before = longest;
    }
}

/// The length of a longest common subsequence, by one row of the usual table.
fn common_length(alloc: Global, old: &[u8], new: &[u8]) -> Result<usize, Fail> {
    let mut row = vec![in alloc; 0usize; new.len()]?;
    for letter in old {
        extend_row(&mut row, *letter, new);
    }
    Ok(row.last().copied().unwrap_or(0))
}

/// Applies the run for a text, and gives the number of its directives.
fn lead(alloc: Global, library: &mut Library, text: &str) -> Result<usize, Fail> {
    let run = run_for(alloc, library, "Z", text)?;
    applied(library, run.as_str())?;
    Ok(run.bytes().filter(|byte| *byte == b'*').count())
}

/// A library is led to a text of its deck A, by few directives.
fn is_led_to(alloc: Global, library: &mut Library, edited: &str, most: usize) -> Result<(), Fail> {
    let count = lead(alloc, library, edited)?;
    let found = active_text(alloc, library, &name("A")?)?;
    same_text("the deck", text(&found)?, edited)?;
    holds("few directives", count <= most)
}

/// Deck A of some lines is led to others, by twice the directives of a shortest edit, and two.
fn is_led(alloc: Global, old: &[u8], new: &[u8]) -> Result<(), Fail> {
    let common = common_length(alloc, old, new)?;
    let lines = old.len().saturating_add(new.len());
    let changed = lines.saturating_sub(common.saturating_mul(2));
    let most = changed.saturating_mul(2).saturating_add(2);
    let mut library = after(alloc, &[deck_text(alloc, old)?.as_str()])?;
    is_led_to(alloc, &mut library, deck_text(alloc, new)?.as_str(), most)
}

#[test]
fn runs_lead_to_random_texts_by_few_directives(rt: HostRuntime) -> Result<(), Fail> {
    let alloc = rt.alloc();
    let mut dice = Dice(7);
    for _ in 0..40 {
        let old = changed_lines(alloc, b"ABCDABBACADDBCABAADCABDB", &mut dice)?;
        let new = changed_lines(alloc, &old, &mut dice)?;
        is_led(alloc, &old, &new)?;
    }
    Ok(())
}
