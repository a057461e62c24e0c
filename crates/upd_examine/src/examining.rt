//! What is wrong with the rows of a library.
ghost use Rattle.std.specs.Prelude.{◌≡◌, ◌↔◌, ◌<◌, length, IfOk, IsTrue};
ghost use Rattle.std.specs.Result.{IsOkUnless};
ghost use Rattle.upd_text.specs.Faults.{fault_at};
ghost use Rattle.upd_text.specs.declared.fault.FaultKind.TheVariants.{NoMemory};
ghost use Rattle.upd_examine.specs.Findings.{AreSoundRows};

use crate::copies::copy_rows;
use crate::differing::add_differing;
use crate::lines::Findings;
use crate::own_rows::own_rows;
use crate::row_lists::{count_texts, own_counts, row_texts, state_texts};
use crate::run_findings::add_runs_and_marks;
use crate::sound_rows::are_sound_rows;
use crate::stored_states::own_states;
use crate::unsound::add_unsound;
use std::alloc::{AllocError, Global};
use upd_core::{CardRef, Fault, Library, States, Target};
use upd_records::{LibraryRows, MarkRow, RunRow};
use upd_row_store::assembled;
use upd_yank::Cache;

/// What is wrong with the rows of a library, a line each, at most 100 lines. The text is empty exactly where some sound,
/// whole library, as runs leave one, has these rows. Which lines there are is tested, and no clause says it.
pub fn findings(
    alloc: Global,
    rows: &LibraryRows,
    states: &States,
    runs: &[RunRow],
    marks: &[MarkRow],
) -> Result<Vec<u8>, AllocError>
    ensures { IfOk result (λ text. (length text.items ≡ 0) ↔ AreSoundRows rows.now states.now runs.now marks.now) }
{
    let sound = are_sound(alloc, rows, states, runs, marks)?;
    let text = findings_text(alloc, sound, rows, states, runs, marks)?;
    Ok(text)
}

/// Whether rows are sound; memory alone can fail.
fn are_sound(
    alloc: Global,
    rows: &LibraryRows,
    states: &States,
    runs: &[RunRow],
    marks: &[MarkRow],
) -> Result<bool, AllocError>
    ensures { IfOk result (λ are. IsTrue are ↔ AreSoundRows rows.now states.now runs.now marks.now) }
{
    match are_sound_rows(alloc, rows, states, runs, marks) {
        Ok(are) => Ok(are),
        Err(_) => Err(AllocError),
    }
}

/// No text where rows are sound, else what is wrong with them.
fn findings_text(
    alloc: Global,
    sound: bool,
    rows: &LibraryRows,
    states: &States,
    runs: &[RunRow],
    marks: &[MarkRow],
) -> Result<Vec<u8>, AllocError>
    ensures { IfOk result (λ text. (length text.items ≡ 0) ↔ IsTrue sound) }
{
    if sound {
        return Ok(Vec::new(alloc));
    }
    let text = lines(alloc, rows, states, runs, marks)?;
    Ok(text)
}

/// What is wrong with rows, in at least one line.
fn lines(
    alloc: Global,
    rows: &LibraryRows,
    states: &States,
    runs: &[RunRow],
    marks: &[MarkRow],
) -> Result<Vec<u8>, AllocError>
    ensures { IfOk result (λ text. 0 < length text.items) }
{
    match collect_findings(alloc, rows, states, runs, marks) {
        Ok(found) => found.into_text(alloc),
        Err(_) => Err(AllocError),
    }
}

/// The findings. The only error is NoMemory.
fn collect_findings(
    alloc: Global,
    rows: &LibraryRows,
    states: &States,
    runs: &[RunRow],
    marks: &[MarkRow],
) -> Result<Findings, Fault>
    ensures { IsOkUnless result (fault_at NoMemory 0) }
{
    let mut found = Findings::new(alloc);
    let copy = copy_rows(alloc, rows)?;
    let library = assembled(alloc, copy)?;
    add_unsound(alloc, &mut found, &library)?;
    add_of_rows(alloc, &mut found, &library, rows)?;
    add_of_states(alloc, &mut found, &library, states)?;
    add_of_counts(alloc, &mut found, &library, states)?;
    add_runs_and_marks(alloc, &mut found, runs, marks)?;
    Ok(found)
}

/// Findings about the rows of idents, cards, entries and targets. The only error is NoMemory.
fn add_of_rows(
    alloc: Global,
    found: &mut Findings,
    library: &Library,
    rows: &LibraryRows,
) -> Result<(), AllocError> {
    let own = own_rows(alloc, library)?;
    let own = row_texts(alloc, &own)?;
    add_differing(found, row_texts(alloc, rows)?, own)
}

/// Findings about statuses. The only error is NoMemory.
fn add_of_states(
    alloc: Global,
    found: &mut Findings,
    library: &Library,
    states: &States,
) -> Result<(), Fault>
    ensures { IsOkUnless result (fault_at NoMemory 0) }
{
    let cache = Cache::build(alloc, library)?;
    let own = own_states(alloc, library, &cache)?;
    add_other_states(alloc, found, &own, states)?;
    Ok(())
}

/// Findings about statuses that aren't the library's own.
fn add_other_states(
    alloc: Global,
    found: &mut Findings,
    own: &[(CardRef, bool)],
    states: &States,
) -> Result<(), AllocError> {
    let own = state_texts(alloc, own)?;
    add_differing(found, state_texts(alloc, &states.states)?, own)
}

/// Findings about counts. The only error is NoMemory.
fn add_of_counts(
    alloc: Global,
    found: &mut Findings,
    library: &Library,
    states: &States,
) -> Result<(), Fault>
    ensures { IsOkUnless result (fault_at NoMemory 0) }
{
    let live = library.live_yanks()?;
    let own = own_counts(alloc, library.yanks(), &live)?;
    add_other_counts(alloc, found, &own, states)?;
    Ok(())
}

/// Findings about counts that aren't the library's own.
fn add_other_counts(
    alloc: Global,
    found: &mut Findings,
    own: &[(Target, u32)],
    states: &States,
) -> Result<(), AllocError> {
    let own = count_texts(alloc, own)?;
    add_differing(found, count_texts(alloc, &states.counts)?, own)
}
