//! What is asked of the library that a desk holds. Nothing changes, and no number is used.
ghost use Rattle.std.specs.Prelude.{◌≡◌, ◌<◌, ◌≤◌, ◌⊎◌, ℕ, Err, IfErr, IfOk, None, OnOk, Some, length, map};
ghost use Rattle.std.specs.Result.{result_map_both};
ghost use Rattle.upd_text.specs.Faults.{fault_at};
ghost use Rattle.upd_text.specs.declared.fault.FaultKind.TheVariants.{RunLong};
ghost use Rattle.upd_correct.specs.Parts.{CorrectsInParts};
ghost use Rattle.upd_desk.specs.Arrivals.{check_arrival};
ghost use Rattle.upd_desk.specs.Holding.{EachHeld, Tells};
ghost use Rattle.upd_desk.specs.Journal.{library_after};
ghost use Rattle.upd_desk.specs.Outcomes.{reply_on};
ghost use Rattle.upd_edit.specs.EditCauses.{IsAnswerIn, IsEditLoss, IsPartsRefusal, base_in, edit_error, edited_in, failures_after_edit};
ghost use Rattle.upd_edit.specs.Trying.{tried};
ghost use Rattle.upd_edit.specs.declared.editing.EditError.TheVariants.{Failed};
ghost use Rattle.upd_row_store.specs.Keeping.{CountsFailure, IsLost, Keeps};

use crate::earlier::as_of;
use std::alloc::Global;
use upd_core::{Library, Name};
use upd_correct::{CorrectError, Refusal, correct, correct_parts, correct_since};
use upd_desk::{Arrival, Desk, Reply, reply_on};
use upd_row_store::RowStore;
use upd_text::limits::{MAX_CARDS, MAX_LINE_BYTES};
use upd_text::{Fault, FaultKind};

/// The longest edited text, in bytes: one of as many lines as a library has cards, all as long as a line can be.
pub const MAX_TEXT_BYTES: usize = MAX_CARDS * (MAX_LINE_BYTES + 1);

/// Why there is no run for an edited text.
#[derive(Debug, Drop)]
pub enum EditError {
    /// Out of memory, a failure of the store, or a text of more than `MAX_TEXT_BYTES`, which is RunLong. All are at 0.
    Failed(Fault),
    /// The text is refused: all its problems, in order of line.
    Refused(Vec<Refusal>),
}

impl From<Fault> for EditError {
    ghost from_gives = { λ fault error. error ≡ Failed fault };

    fn from(fault: Fault) -> EditError {
        EditError::Failed(fault)
    }
}

impl From<CorrectError> for EditError {
    ghost from_gives = { λ error edit. edit ≡ edit_error error };

    fn from(error: CorrectError) -> EditError {
        match error {
            CorrectError::NoMemory => EditError::Failed(FaultKind::NoMemory.without_line()),
            CorrectError::Refused(refusals) => EditError::Refused(refusals),
        }
    }
}

/// The reply that a run would get now, from the site `TRY` under the number 1. BadMode or RunLong, at 0, by the
/// admission checks; after NoMemory or Store, at 0, it can be asked again.
pub fn try_at<S: RowStore>(
    alloc: Global,
    desk: &mut Desk<S>,
    mode: &str,
    run: &[u8],
) -> Result<Reply, Fault>
    ensures reply { Tells S.Meaning (reply_on (tried mode.now run.now)) result
        desk.old.store desk.new.store }
    ensures same { Keeps S.Meaning desk.old.store desk.new.store }
    ensures refused { IfErr result (λ fault. IsLost fault ⊎ (check_arrival (tried mode.now run.now) ≡ Err fault)) }
    ensures failed { CountsFailure S.Meaning result desk.old.store desk.new.store }
{
    let library = desk.library(alloc)?;
    let arrival = Arrival {
        site: "TRY",
        number: 1,
        mode,
        bytes: run,
    };
    match reply_on(alloc, &library, &arrival) {
        Ok(reply) => Ok(reply),
        Err(fault) => Err(fault),
    }
}

/// The run that leads decks to their edited texts under the name of a new set, as `upd_correct::correct` makes it. Where
/// an ident is given, the texts were taken when it was the youngest: the run is checked in the library as it is, what came
/// later is left alone, and a card that is in the way is refused. RunLong comes first, then the fault of `as_of`, at 0, and
/// then the refusals. After NoMemory or Store, at 0, it can be asked again.
pub fn correct_at<S: RowStore>(
    alloc: Global,
    desk: &mut Desk<S>,
    since: Option<Name>,
    set: &[u8],
    text: &[u8],
) -> Result<Vec<u8>, EditError>
    ensures answer { EachHeld S.Meaning desk.old.store desk.new.store
        (λ journal. IsAnswerIn (edited_in text.now since (library_after journal)) set.now text.now
        (result_map_both (λ run. run.items) (λ error. error) result)) }
    ensures long { MAX_TEXT_BYTES < length text.now
        → IfErr result (λ error. error ≡ Failed (fault_at RunLong 0)) }
    ensures same { Keeps S.Meaning desk.old.store desk.new.store }
    ensures failed { S.failures_of desk.new.store ≡ failures_after_edit result (S.failures_of desk.old.store) }
{
    if text.len() > MAX_TEXT_BYTES {
        return Err(EditError::Failed(FaultKind::RunLong.without_line()));
    }
    let library = desk.library(alloc)?;
    match since {
        None => corrected_now(alloc, &library, set, text),
        Some(since) => corrected_since(alloc, &library, &since, set, text),
    }
}

/// The run for a text of a library as it is that is not too long.
fn corrected_now(
    alloc: Global,
    library: &Library,
    set: &[u8],
    text: &[u8],
) -> Result<Vec<u8>, EditError>
    ensures answer { IsAnswerIn (base_in None library.now) set.now text.now
        (result_map_both (λ run. run.items) (λ error. error) result) }
    ensures kept { (failures : ℕ) → failures_after_edit result failures ≡ failures }
{
    Ok(correct(alloc, library, set, text)?)
}

/// The run for such a text of a library as it was.
fn corrected_since(
    alloc: Global,
    library: &Library,
    since: &Name,
    set: &[u8],
    text: &[u8],
) -> Result<Vec<u8>, EditError>
    ensures answer { IsAnswerIn (base_in (Some since.now) library.now) set.now text.now
        (result_map_both (λ run. run.items) (λ error. error) result) }
    ensures kept { (failures : ℕ) → failures_after_edit result failures ≡ failures }
{
    let last = library.ident_of(since).unwrap_or(0);
    let taken = as_of(alloc, library, since)?;
    Ok(correct_since(alloc, library, &taken, last, set, text)?)
}

/// The runs that lead decks to their edited texts one after the other, as `upd_correct::correct_parts` makes them.
///
/// After NoMemory or Store, at 0, it can be asked again.
pub fn parts_at<S: RowStore>(
    alloc: Global,
    desk: &mut Desk<S>,
    set: &[u8],
    text: &[u8],
) -> Result<Vec<Vec<u8>>, EditError>
    ensures corrects { EachHeld S.Meaning desk.old.store desk.new.store
        (λ journal. IfOk result (λ runs. CorrectsInParts (library_after journal) set.now text.now (map (λ run. run.items) runs.items))) }
    ensures refused { EachHeld S.Meaning desk.old.store desk.new.store
        (λ journal. IfErr result (IsPartsRefusal (library_after journal) set.now text.now)) }
    ensures lost { IfErr result (IsEditLoss text.now) }
    ensures short { OnOk result (length text.now ≤ MAX_TEXT_BYTES) }
    ensures long { MAX_TEXT_BYTES < length text.now
        → IfErr result (λ error. error ≡ Failed (fault_at RunLong 0)) }
    ensures same { Keeps S.Meaning desk.old.store desk.new.store }
    ensures failed { S.failures_of desk.new.store ≡ failures_after_edit result (S.failures_of desk.old.store) }
{
    if text.len() > MAX_TEXT_BYTES {
        return Err(EditError::Failed(FaultKind::RunLong.without_line()));
    }
    let library = desk.library(alloc)?;
    Ok(correct_parts(alloc, &library, set, text)?)
}
