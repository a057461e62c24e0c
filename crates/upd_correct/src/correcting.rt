//! From an edited text to a run.

ghost use Rattle.std.specs.Prelude.{◌≡◌, ℕ, [], List, length, map, IfErr, IfOk, IsErr, OnOk};
ghost use Rattle.std.specs.List.{filter};
ghost use Rattle.upd_text.specs.Outcome.{FailsAt};
ghost use Rattle.upd_core.specs.Library.{LibraryView};
ghost use Rattle.upd_deck.specs.Reading.{is_feed};
ghost use Rattle.upd_correct.specs.Causes.{IsCause, IsCauseSince, IsRunProblem, conflicts};
ghost use Rattle.upd_correct.specs.Checked.{result_of};
ghost use Rattle.upd_correct.specs.Correcting.{CorrectsSince, CorrectsTo};
ghost use Rattle.upd_correct.specs.LineReads.{HasDecks};
ghost use Rattle.upd_correct.specs.Refusals.{refusals_of};

use crate::checking::checked;
use crate::edited_deck::{EditedDeck, decks_of, refusal_at_0};
use crate::in_the_way::{InTheWay, cards_in_the_way};
use crate::plan::{Correction, added_decks, corrections_for};
use crate::refusal::{CorrectError, Problem, Refusal};
use crate::writer::{Deletions, Form, write_run};
use std::alloc::{AllocError, Global};
use upd_core::{Library, Live, Serial};
use upd_text::limits::{MAX_RUN_BYTES, MAX_RUN_LINES};
use upd_text::{Fault, FaultKind};

/// What a run is made of and judged by.
#[derive(Drop)]
pub(crate) struct EditBase<'a> {
    /// The library that the text was taken from.
    pub(crate) taken: &'a Library,
    /// The library that the run meets.
    pub(crate) library: &'a Library,
    /// The serial of the ident that was the youngest when the text was taken.
    pub(crate) last: usize,
    pub(crate) form: &'a Form,
}

/// The run that leads the decks of an edited text to it, under the name of a new set. Where nothing changes, the run
/// is empty.
///
/// The text is one or more decks, each with its first line. A deck that isn't held is introduced. Cards that stay are
/// not touched, and inactive cards are left as they are. The run is applied to a copy of the library, and returned only
/// if this leads to the text and changes nothing else.
///
/// ```text
/// deck A         edited to      run
/// ONE            NEW            *IDENT X
/// TWO            TWO            *DELETE A.2
///                               NEW
/// ```
pub fn correct(
    alloc: Global,
    library: &Library,
    set: &[u8],
    text: &[u8],
) -> Result<Vec<u8>, CorrectError>
    ensures corrects { IfOk result (λ run. CorrectsTo library.now set.now text.now run.items) }
    ensures clean { OnOk result (refusals_of library.now set.now text.now ≡ []) }
    ensures refused { IfErr result (IsCause library.now set.now text.now) }
{
    correct_by(alloc, library, &Form::of(Deletions::Ranges), set, text)
}

/// The run that `correct` makes, and its form.
pub(crate) fn correct_by(
    alloc: Global,
    library: &Library,
    form: &Form,
    set: &[u8],
    text: &[u8],
) -> Result<Vec<u8>, CorrectError>
    ensures corrects { IfOk result (λ run. CorrectsTo library.now set.now text.now run.items) }
    ensures clean { OnOk result (refusals_of library.now set.now text.now ≡ []) }
    ensures refused { IfErr result (IsCause library.now set.now text.now) }
{
    let base = EditBase {
        taken: library,
        library,
        last: library.idents().len(),
        form,
    };
    correct_on(alloc, &base, set, text)
}

/// The run for a text that was taken from another library, of the same decks and idents, when the ident with a serial was
/// the youngest. It is applied to a copy of the library that it meets, and returned only if this leads to the text, where
/// the yanks of the other library are live, and leaves each younger card as it was. Where it doesn't, the cards that are in
/// the way are refused.
pub fn correct_since(
    alloc: Global,
    library: &Library,
    taken: &Library,
    last: Serial,
    set: &[u8],
    text: &[u8],
) -> Result<Vec<u8>, CorrectError>
    ensures corrects { IfOk result (λ run. CorrectsSince last taken.now library.now set.now text.now run.items) }
    ensures clean { OnOk result (refusals_of taken.now set.now text.now ≡ []) }
    ensures refused { IfErr result (IsCauseSince taken.now library.now set.now text.now) }
{
    let base = EditBase {
        taken,
        library,
        last: last as usize,
        form: &Form::of(Deletions::Ranges),
    };
    correct_on(alloc, &base, set, text)
}

/// The run for a text.
fn correct_on(
    alloc: Global,
    base: &EditBase,
    set: &[u8],
    text: &[u8],
) -> Result<Vec<u8>, CorrectError>
    ensures corrects { IfOk result (λ run. CorrectsSince base.now.last base.now.taken.now base.now.library.now
        set.now text.now run.items) }
    ensures clean { OnOk result (refusals_of base.now.taken.now set.now text.now ≡ []) }
    ensures refused { IfErr result (IsCauseSince base.now.taken.now base.now.library.now set.now text.now) }
{
    let Ok(live) = base.taken.live_yanks() else {
        return Err(CorrectError::NoMemory);
    };
    let decks = decks_of(alloc, base.taken, &live, set, text)?;
    run_for(alloc, base, &live, set, &decks)
}

/// The run for decks without problems, if it passes the check.
fn run_for(
    alloc: Global,
    base: &EditBase,
    live: &Live,
    set: &[u8],
    decks: &[EditedDeck],
) -> Result<Vec<u8>, CorrectError>
    ensures corrects { (text : List ℕ) → HasDecks text decks.now
        → IfOk result (λ run. CorrectsSince base.now.last base.now.taken.now base.now.library.now set.now text run.items) }
    ensures refused { (text : List ℕ) → refusals_of base.now.taken.now set.now text ≡ []
        → IfErr result (IsCauseSince base.now.taken.now base.now.library.now set.now text) }
{
    let corrections = corrections_for(alloc, base.taken, live, decks)?;
    let run = made_run(alloc, base, set, decks, &corrections)?;
    if line_count(&run) > MAX_RUN_LINES {
        return refused(alloc, Problem::TooManyLines, &run);
    }
    if run.len() > MAX_RUN_BYTES {
        return refused(alloc, Problem::RunLong, &run);
    }
    match checked(alloc, base, set, decks, &run) {
        Ok(true) => Ok(run),
        Ok(false) => unchecked(alloc, base, &corrections, &run),
        Err(fault) => failed(alloc, fault, &run),
    }
}

/// The run as it is made: of the given form, or with ranges where it would else be too long.
fn made_run(
    alloc: Global,
    base: &EditBase,
    set: &[u8],
    decks: &[EditedDeck],
    corrections: &[Correction],
) -> Result<Vec<u8>, AllocError> {
    let added = added_decks(alloc, base.taken, decks)?;
    if added.is_empty() && !corrections.iter().any(|correction| correction.is_change()) {
        return Ok(Vec::new(alloc));
    }
    let idents = base.taken.idents();
    let run = write_run(alloc, idents, base.form, set, corrections, &added)?;
    if run.len() > MAX_RUN_BYTES || line_count(&run) > MAX_RUN_LINES {
        let form = Form {
            deletions: Deletions::Ranges,
            anchor: base.form.anchor,
        };
        return write_run(alloc, idents, &form, set, corrections, &added);
    }
    Ok(run)
}

/// The number of lines of a run.
fn line_count(run: &[u8]) -> usize
    ensures { result ≡ length (filter is_feed run.now) }
{
    run.iter().filter(|&&byte| byte == b'\n').count()
}

/// The error of a run that does not pass the check: the cards that are in its way, if there are any.
fn unchecked(
    alloc: Global,
    base: &EditBase,
    corrections: &[Correction],
    run: &[u8],
) -> Result<Vec<u8>, CorrectError>
    ensures err { IsErr result }
    ensures refused { (text set : List ℕ) (taken l : LibraryView) → refusals_of taken set text ≡ []
        → IfErr result (IsCauseSince taken l set text) }
{
    let found = cards_in_the_way(alloc, base, corrections)?;
    if found.is_empty() {
        return refused(alloc, Problem::Unchecked, run);
    }
    let refusals = conflicts(alloc, &found)?;
    Err(CorrectError::Refused(refusals))
}

/// The refusals for cards that are in the way.
fn conflicts(alloc: Global, found: &[InTheWay]) -> Result<Vec<Refusal>, AllocError>
    ensures { IfOk result (λ refusals. refusals.items ≡ conflicts found.now) }
{
    found
        .iter()
        .map(|way| Refusal {
            line: 0,
            column: 0,
            problem: Problem::Conflict {
                card: way.card,
                set: way.set,
            },
        })
        .collect(alloc)
}

/// The error of a run that is not accepted.
fn failed(alloc: Global, fault: Fault, run: &[u8]) -> Result<Vec<u8>, CorrectError>
    ensures err { IsErr result }
    ensures refused { (text set : List ℕ) (taken l : LibraryView) → refusals_of taken set text ≡ []
        → FailsAt fault (result_of run.now l) → IfErr result (IsCauseSince taken l set text) }
{
    match fault.kind {
        FaultKind::NoMemory => Err(CorrectError::NoMemory),
        FaultKind::Full => refused(alloc, Problem::Full, run),
        _ => refused(alloc, Problem::Unchecked, run),
    }
}

/// The error of a run that can't be, for a problem that is not one of a line.
fn refused(alloc: Global, problem: Problem, run: &[u8]) -> Result<Vec<u8>, CorrectError>
    ensures err { IsErr result }
    ensures refused { (text set : List ℕ) (taken l : LibraryView) → refusals_of taken set text ≡ []
        → IsRunProblem l run.now problem → IfErr result (IsCauseSince taken l set text) }
{
    Err(CorrectError::Refused(refusal_at_0(alloc, problem)?))
}
