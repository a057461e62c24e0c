//! `correct` and `correct-at`: from an edited text to a run on the output.
ghost use Rattle.std.specs.Prelude.{◌≡◌, ◌⊎◌, Ok};
ghost use Rattle.std.specs.Result.{result_map_both};
ghost use Rattle.upd_subcommands.specs.Command.{ending};
ghost use Rattle.upd_subcommands.specs.Correcting.{IsRefusedBy, ReportsCorrection};
ghost use Rattle.upd_subcommands.specs.DeskCommands.{CorrectsText};

use crate::exit_status::{DONE, FAILED, REFUSED, finish};
use crate::streams::write_out;
use std::alloc::Global;
use std::io::Write;
use upd_correct::Refusal;
use upd_desk::Desk;
use upd_edit::{EditError, correct_at, refusal_lines};
use upd_row_store::RowStore;
use upd_text::{Fault, Name};

/// The run that leads decks to an edited text, which may have been taken when an ident was the youngest, goes to the
/// output. Where there isn't one, a line for each refusal, or that of a fault, goes to the fault stream. Returns the exit
/// status: 0 for a run, 1 for refusals, and that of the fault.
pub(crate) fn correct_text<S: RowStore, W: Write, E: Write>(
    alloc: Global,
    desk: &mut Desk<S>,
    since: Option<Name>,
    set: &str,
    text: &[u8],
    output: &mut W,
    faults: &mut E,
) -> u8
    ensures reports { CorrectsText S.Meaning since set.now text.now desk.old.store desk.new.store
        (ending result (W.contents output.old) (W.contents output.new) (E.contents faults.old) (E.contents faults.new)) }
    ensures silent { (result ≡ 1) ⊎ (result ≡ 2) → output.new ≡ output.old }
    ensures clean { result ≡ 0 → faults.new ≡ faults.old }
{
    let answer = correct_at(alloc, desk, since, set.as_bytes(), text);
    report_correction(alloc, answer, output, faults)
}

/// Writes a run, or why there isn't one. Returns the exit status.
pub(crate) fn report_correction<W: Write, E: Write>(
    alloc: Global,
    answer: Result<Vec<u8>, EditError>,
    output: &mut W,
    faults: &mut E,
) -> u8
    ensures reports { ReportsCorrection (result_map_both (λ run. run.items) (λ error. error) answer)
        (ending result (W.contents output.old) (W.contents output.new) (E.contents faults.old) (E.contents faults.new)) }
    ensures silent { (result ≡ 1) ⊎ (result ≡ 2) → output.new ≡ output.old }
    ensures clean { result ≡ 0 → faults.new ≡ faults.old }
{
    match answer {
        Ok(run) => write_run(&run, output, faults),
        Err(EditError::Failed(fault)) => finish(Err(fault), faults),
        Err(EditError::Refused(refusals)) => write_refusals(alloc, &refusals, faults),
    }
}

/// Writes a run, or the line of a write that failed. Returns the exit status.
pub(crate) fn write_run<W: Write, E: Write>(run: &[u8], output: &mut W, faults: &mut E) -> u8
    ensures reports { ReportsCorrection (Ok run.now)
        (ending result (W.contents output.old) (W.contents output.new) (E.contents faults.old) (E.contents faults.new)) }
    ensures status { (result ≡ 0) ⊎ (result ≡ 3) }
    ensures clean { result ≡ 0 → faults.new ≡ faults.old }
{
    match write_out(output, run) {
        Ok(()) => DONE,
        Err(fault) => finish(Err(fault), faults),
    }
}

/// Writes the lines of refusals. Returns the exit status.
pub(crate) fn write_refusals<E: Write>(alloc: Global, refusals: &[Refusal], faults: &mut E) -> u8
    ensures reported { IsRefusedBy refusals.now result (E.contents faults.old) (E.contents faults.new) }
    ensures status { (result ≡ 1) ⊎ (result ≡ 3) }
{
    match refusal_lines(alloc, refusals) {
        Ok(text) => match write_out(faults, &text) {
            Ok(()) => REFUSED,
            Err(_) => FAILED,
        },
        Err(error) => finish(Err(Fault::from(error)), faults),
    }
}
