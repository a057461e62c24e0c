//! Edits that are too long for one run: runs that lead decks to an edited text one after the other.

ghost use Rattle.std.specs.Prelude.{◌≡◌, ◌+◌, ℕ, [], List, length, map, IfErr, IfOk, OnOk};
ghost use Rattle.upd_core.specs.Library.{LibraryView};
ghost use Rattle.upd_correct.specs.Causes.{IsCause};
ghost use Rattle.upd_correct.specs.Correcting.{CorrectsTo};
ghost use Rattle.upd_correct.specs.LineReads.{HasDecks};
ghost use Rattle.upd_correct.specs.Parts.{CorrectsInParts, Follows, IsInPart, IsPartCause, IsPartsCause, IsReached, in_part, part_name};
ghost use Rattle.upd_correct.specs.Parts.{part_problem, series_problem};
ghost use Rattle.upd_correct.specs.Refusals.{refusals_of};

use crate::checked_library::is_led;
use crate::correcting::correct_by;
use crate::edit_pieces::{Piece, cuts_of, pieces_of, text_at};
use crate::edited_deck::{EditedDeck, decks_of, refusal_at_0};
use crate::refusal::{CorrectError, Problem, Refusal};
use crate::writer::{Deletions, Form};
use itoa::Buffer;
use std::alloc::{AllocError, Global};
use upd_apply::apply;
use upd_compile::text_parts::push_parts;
use upd_core::card::card_ref;
use upd_core::{CardRef, Library, Live};
use upd_deck::read_run;

/// The longest name of the sets of parts, in bytes: a number follows it.
const MAX_SERIES_BYTES: usize = 8;

/// The shares of a run's limits that the parts of an edit may take, one after the other until each part fits. A run can
/// be longer than its part of the edit: it is found again, and may put the same lines in more places.
const SHARES: [usize; 3] = [1, 3, 9];

/// The runs that lead the decks of an edited text to it one after the other, by the sets SET1, SET2 and so on. Where one
/// run is enough, it is the only one, as `correct` makes it. Where nothing changes, there isn't one.
///
/// Each run is made and applied to a copy of the library, and returned only if the last leads to the text and no other
/// deck is changed. A run names a card of the one before it, so that it is refused where that one was. A text is refused as
/// by `correct`, with the number of the part whose set or room is the problem; TooManyLines or RunLong says that no cut was
/// found whose parts fit.
pub fn correct_parts<'a>(
    alloc: Global,
    library: &'a Library,
    set: &[u8],
    text: &'a [u8],
) -> Result<Vec<Vec<u8>>, CorrectError>
    ensures corrects { IfOk result (λ runs. CorrectsInParts library.now set.now text.now (map (λ run. run.items) runs.items)) }
    ensures clean { OnOk result (refusals_of library.now (part_name set.now 1) text.now ≡ []) }
    ensures refused { IfErr result (IsPartsCause library.now set.now text.now) }
{
    if let Some(problem) = series_problem(set) {
        return Err(CorrectError::Refused(refusal_at_0(alloc, problem)?));
    }
    let Ok(live) = library.live_yanks() else {
        return Err(CorrectError::NoMemory);
    };
    let first = part_name(alloc, set, 1)?;
    match decks_of(alloc, library, &live, &first, text) {
        Ok(decks) => parts_for(alloc, library, &live, set, text, &decks),
        Err(error) => Err(error_in_part(alloc, 1, error)),
    }
}

/// What is wrong with the name of the sets of parts, which a number follows.
fn series_problem(set: &[u8]) -> Option<Problem>
    ensures { result ≡ series_problem set.now }
{
    if set.is_empty() {
        Some(Problem::NoSet)
    } else if set.len() > MAX_SERIES_BYTES {
        Some(Problem::SetLong)
    } else {
        None
    }
}

/// The runs for decks without problems.
fn parts_for<'a>(
    alloc: Global,
    library: &'a Library,
    live: &Live,
    set: &[u8],
    text: &[u8],
    decks: &[EditedDeck<'a>],
) -> Result<Vec<Vec<u8>>, CorrectError>
    ensures corrects { HasDecks text.now decks.now
        → IfOk result (λ runs. CorrectsInParts library.now set.now text.now (map (λ run. run.items) runs.items)) }
    ensures refused { IfErr result (IsPartCause library.now set.now) }
{
    let whole = parts_at(alloc, library, set, text, decks, &[], &[]);
    if !is_too_long(&whole) {
        return whole;
    }
    let pieces = pieces_of(alloc, library, live, decks)?;
    for share in SHARES {
        let cuts = cuts_of(alloc, &pieces, share)?;
        let parts = parts_at(alloc, library, set, text, decks, &pieces, &cuts);
        if !is_too_long(&parts) {
            return parts;
        }
    }
    whole
}

/// The runs that lead a copy of a library to the texts at the cuts of an edit, and then to the whole text.
fn parts_at(
    alloc: Global,
    library: &Library,
    set: &[u8],
    text: &[u8],
    decks: &[EditedDeck],
    pieces: &[Piece],
    cuts: &[usize],
) -> Result<Vec<Vec<u8>>, CorrectError>
    ensures corrects { HasDecks text.now decks.now
        → IfOk result (λ runs. CorrectsInParts library.now set.now text.now (map (λ run. run.items) runs.items)) }
    ensures refused { IfErr result (IsPartCause library.now set.now) }
{
    let Ok(mut after) = library.copy() else {
        return Err(CorrectError::NoMemory);
    };
    let mut runs = Vec::new(alloc);
    let mut anchor = None;
    for &cut in cuts {
        let part = text_at(alloc, pieces, cut)?;
        let next = push_part(alloc, set, &part, anchor, &mut after, &mut runs)?;
        anchor = next;
    }
    push_part(alloc, set, text, anchor, &mut after, &mut runs)?;
    match is_led(alloc, library, &after, decks, runs.is_empty()) {
        Ok(true) => Ok(runs),
        Ok(false) => Err(CorrectError::Refused(refusal_at_0(alloc, Problem::Unchecked)?)),
        Err(_) => Err(CorrectError::NoMemory),
    }
}

/// Applies the run that leads a library to a text, and appends it; nothing where nothing changes. Returns a card that the
/// run has put, if there is one, or else that of the form.
fn push_part(
    alloc: Global,
    set: &[u8],
    text: &[u8],
    anchor: Option<CardRef>,
    library: &mut Library,
    runs: &mut Vec<Vec<u8>>,
) -> Result<Option<CardRef>, CorrectError>
    ensures follows { (l : LibraryView) → Follows l set.now (map (λ run. run.items) runs.old.items) library.old
        → OnOk result (Follows l set.now (map (λ run. run.items) runs.new.items) library.new) }
    ensures refused { (l : LibraryView) → Follows l set.now (map (λ run. run.items) runs.old.items) library.old
        → IfErr result (IsPartCause l set.now) }
{
    let number = runs.len() + 1;
    let name = part_name(alloc, set, number)?;
    match part_run(alloc, library, &anchor, &name, text) {
        Ok(run) => push_run(alloc, anchor, library, runs, run),
        Err(error) => Err(error_in_part(alloc, number, error)),
    }
}

/// The run of a part, which names a card.
fn part_run(
    alloc: Global,
    library: &Library,
    anchor: &Option<CardRef>,
    set: &[u8],
    text: &[u8],
) -> Result<Vec<u8>, CorrectError>
    ensures corrects { IfOk result (λ run. CorrectsTo library.now set.now text.now run.items) }
    ensures refused { IfErr result (IsCause library.now set.now text.now) }
{
    let form = Form {
        deletions: Deletions::Ranges,
        anchor: *anchor,
    };
    correct_by(alloc, library, &form, set, text)
}

/// Applies a run that was checked, and appends it; nothing where it is empty. Returns a card that it has put, or else the
/// given one.
fn push_run(
    alloc: Global,
    anchor: Option<CardRef>,
    library: &mut Library,
    runs: &mut Vec<Vec<u8>>,
    run: Vec<u8>,
) -> Result<Option<CardRef>, CorrectError>
    ensures follows { (l : LibraryView) (set text : List ℕ) → Follows l set (map (λ run. run.items) runs.old.items) library.old
        → CorrectsTo library.old (part_name set (length runs.old.items + 1)) text run.items
        → OnOk result (Follows l set (map (λ run. run.items) runs.new.items) library.new) }
    ensures refused { (l : LibraryView) (set : List ℕ) → IfErr result (IsPartCause l set) }
{
    if run.is_empty() {
        return Ok(anchor);
    }
    let count = library.idents().len();
    apply_run(alloc, library, &run)?;
    runs.push(run)?;
    Ok(new_card(library, count).or(anchor))
}

/// An error with the number of the part.
fn error_in_part(alloc: Global, number: usize, error: CorrectError) -> CorrectError
    ensures { IsInPart number error result }
{
    let CorrectError::Refused(refusals) = error else {
        return CorrectError::NoMemory;
    };
    match in_part(alloc, number, &refusals) {
        Ok(found) => CorrectError::Refused(found),
        Err(_) => CorrectError::NoMemory,
    }
}

/// Refusals with the number of the part.
fn in_part(alloc: Global, number: usize, refusals: &[Refusal]) -> Result<Vec<Refusal>, AllocError>
    ensures { IfOk result (λ found. found.items ≡ map (in_part number) refusals.now) }
{
    refusals
        .iter()
        .map(|refusal| Refusal {
            line: refusal.line,
            column: refusal.column,
            problem: part_problem(number, refusal.line, refusal.problem),
        })
        .collect(alloc)
}

/// A problem of the set or of the run of a part.
fn part_problem(number: usize, line: usize, problem: Problem) -> Problem
    ensures { result ≡ part_problem number line problem }
{
    match problem {
        Problem::NameTaken if line == 0 => Problem::PartTaken(number),
        Problem::BadName if line == 0 => Problem::PartName(number),
        Problem::Full => Problem::PartFull(number),
        _ => problem,
    }
}

/// A card of an ident that is younger than a number of idents.
fn new_card(library: &Library, count: usize) -> Option<CardRef> {
    for deck in library.decks() {
        if let Some(card) = deck.cards.iter().find(|card| card.ident as usize > count) {
            return Some(card_ref(library.idents(), card));
        }
    }
    None
}

/// Applies a run that was checked: only memory can run out.
fn apply_run(alloc: Global, library: &mut Library, run: &[u8]) -> Result<(), AllocError>
    ensures { OnOk result (IsReached run.now library.old library.new) }
{
    let Ok(lines) = read_run(alloc, run) else {
        return Err(AllocError);
    };
    match apply(alloc, library, &lines) {
        Ok(_) => Ok(()),
        Err(_) => Err(AllocError),
    }
}

/// The name of the set of a part, by its number from 1.
fn part_name(alloc: Global, set: &[u8], number: usize) -> Result<Vec<u8>, AllocError>
    ensures { IfOk result (λ name. name.items ≡ part_name set.now number) }
{
    let mut name = Vec::new(alloc);
    let mut digits = Buffer::new();
    push_parts(&mut name, &[set, digits.format(number).as_bytes()])?;
    Ok(name)
}

/// Whether runs were refused because one of them is too long.
fn is_too_long(parts: &Result<Vec<Vec<u8>>, CorrectError>) -> bool {
    match parts {
        Err(CorrectError::Refused(refusals)) => refusals.iter().any(|refusal| matches!(
            refusal.problem,
            Problem::TooManyLines | Problem::RunLong
        )),
        _ => false,
    }
}
