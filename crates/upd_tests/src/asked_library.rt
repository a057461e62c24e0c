//! A library to which runs come one after the other, and what it answers as text.

use crate::long_runs::{Part, text, text_of};
use std::alloc::Global;
use std::ops::Range;
use std::test::Fail;
use upd_apply::{Applied, apply, purge_back};
use upd_compile::{
    CompileFile, Mode, changed, compile_file, list_card, list_deck, list_idents, list_yanks,
};
use upd_core::{Library, Serial};
use upd_deck::read_run;
use upd_testkit::applying::{applied, card_ref, name};
use upd_testkit::asks::shown;
use upd_testkit::check::same_text;
use upd_text::Fault;

/// The run that introduces deck A with three lines.
pub const DECK_A: &str = "*DECK A\nONE\nTWO\nTHREE\n";

/// What is asked of a library.
#[derive(Clone, Copy)]
pub enum Ask<'a> {
    /// From here on the library is another, which begins empty; the answer is empty.
    Empty,
    /// A run: "accepted", or its fault.
    Run(&'a str),
    /// The same as `Run` for a run that is made of parts.
    Long(&'a [Part<'a>]),
    /// A run: the serials that it introduced and those to compile, and the cards that it touched.
    Applied(&'a str),
    /// A run: the serials of the decks that it changed.
    Changed(&'a str),
    /// A run: the cards of its compile file as `A.2 X.1`, or the fault.
    Compiled(Mode, &'a str),
    /// A run that is made of parts: the number of lines of its full compile file, or the fault.
    Lines(&'a [Part<'a>]),
    /// The cards of the full compile file.
    Active,
    Deck(&'a str),
    Card(&'a str),
    Idents,
    Yanks,
    /// The call purges everything from this serial on; its answer is empty.
    PurgeBack(Serial),
}

/// What is asked one after the other, each with its answer.
pub type Asked = &'static [(Ask<'static>, &'static str)];

/// Asks all this of a library that begins empty.
pub fn check(alloc: Global, asked: &[(Ask<'_>, &str)]) -> Result<(), Fail> {
    check_on(&mut Library::new(alloc), asked)
}

/// Asks one after the other, and compares each answer with the expected one. An error has the index of the answer.
pub fn check_on(library: &mut Library, asked: &[(Ask<'_>, &str)]) -> Result<(), Fail> {
    for (index, (ask, wanted)) in asked.iter().enumerate() {
        let answer = answer(library, *ask)?;
        same_text(index, answer.as_str(), wanted)?;
    }
    Ok(())
}

fn answer(library: &mut Library, ask: Ask<'_>) -> Result<String, Fail> {
    let alloc = library.allocator();
    match ask {
        Ask::Empty => {
            *library = Library::new(alloc);
            Ok(String::new(alloc))
        }
        Ask::Run(run) => accepted(library, run),
        Ask::Long(parts) => long(library, parts),
        Ask::Applied(run) => applied_text(alloc, &applied(library, run)?),
        Ask::Changed(run) => changed_by(library, run),
        Ask::Compiled(mode, run) => compiled_by(library, mode, run),
        Ask::Lines(parts) => lines(library, parts),
        Ask::Active => compiled(library, library, Mode::Full, &[]),
        Ask::Deck(deck) => shown(alloc, list_deck(alloc, library, &name(deck)?)),
        Ask::Card(card) => shown(alloc, list_card(alloc, library, card_ref(card)?)),
        Ask::Idents => shown(alloc, list_idents(alloc, library)),
        Ask::Yanks => shown(alloc, list_yanks(alloc, library)),
        Ask::PurgeBack(serial) => {
            purge_back(library, serial);
            Ok(String::new(alloc))
        }
    }
}

/// Whether a run is accepted, or why not.
fn accepted(library: &mut Library, text: &str) -> Result<String, Fail> {
    let alloc = library.allocator();
    match try_run(library, text) {
        Ok(_) => Ok(String::from_str(alloc, "accepted")?),
        Err(fault) => shown(alloc, Err(fault)),
    }
}

fn try_run(library: &mut Library, text: &str) -> Result<Applied, Fault> {
    let alloc = library.allocator();
    let run = read_run(alloc, text.as_bytes())?;
    apply(alloc, library, &run)
}

fn long(library: &mut Library, parts: &[Part<'_>]) -> Result<String, Fail> {
    let text = text_of(library.allocator(), parts)?;
    accepted(library, text.as_str())
}

fn applied_text(alloc: Global, applied: &Applied) -> Result<String, Fail> {
    let (idents, compile) = (applied.idents.as_slice(), applied.compile.as_slice());
    let mut text = format!(in alloc; "{idents:?} {compile:?}")?;
    for card in &applied.touched {
        write!(text, " {card}")?;
    }
    Ok(text)
}

fn changed_by(library: &mut Library, run: &str) -> Result<String, Fail> {
    let before = library.copy()?;
    applied(library, run)?;
    changes(&before, library)
}

fn changes(before: &Library, after: &Library) -> Result<String, Fail> {
    let alloc = after.allocator();
    let changed = changed(alloc, before, after)?;
    Ok(format!(in alloc; "{:?}", changed.as_slice())?)
}

fn compiled_by(library: &mut Library, mode: Mode, run: &str) -> Result<String, Fail> {
    let before = library.copy()?;
    let applied = applied(library, run)?;
    compiled(&before, library, mode, &applied.compile)
}

fn compiled(
    before: &Library,
    after: &Library,
    mode: Mode,
    named: &[Serial],
) -> Result<String, Fail> {
    let alloc = after.allocator();
    match compile_file(alloc, after, before, mode, named) {
        Ok(file) => cards(alloc, &file),
        Err(fault) => shown(alloc, Err(fault)),
    }
}

fn lines(library: &mut Library, parts: &[Part<'_>]) -> Result<String, Fail> {
    long(library, parts)?;
    let alloc = library.allocator();
    match compile_file(alloc, library, library, Mode::Full, &[]) {
        Ok(file) => Ok(format!(in alloc; "{}", file.lines)?),
        Err(fault) => shown(alloc, Err(fault)),
    }
}

/// The cards of a compile file, as `A.2 X.1`.
fn cards(alloc: Global, file: &CompileFile) -> Result<String, Fail> {
    let mut cards = String::new(alloc);
    for line in file.bytes.chunks(97) {
        if !cards.is_empty() {
            cards.push(' ')?;
        }
        push_card(&mut cards, line)?;
    }
    Ok(cards)
}

fn push_card(cards: &mut String, line: &[u8]) -> Result<(), Fail> {
    let (ident, number) = (columns(line, 81..90)?, columns(line, 90..96)?);
    Ok(write!(cards, "{}.{}", ident.trim_end(), number.trim_start())?)
}

fn columns(line: &[u8], range: Range<usize>) -> Result<&str, Fail> {
    text(line.get(range).ok_or("a short line")?)
}
