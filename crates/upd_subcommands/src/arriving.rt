//! Commands that change a library: runs that arrive, and settlements.
ghost use Rattle.std.specs.Prelude.{◌≡◌, ◌≢◌, ◌⊎◌, ◌+◌, ◌∷◌, ◌++◌, [], Err, IfErr, IfOk, Ok};
ghost use Rattle.std.specs.Result.{result_map_both};
ghost use Rattle.upd_subcommands.specs.Command.{IsReported, ending};
ghost use Rattle.upd_edit.specs.StayingDecks.{all_by_runs, tried_warnings};
ghost use Rattle.upd_row_store.specs.Keeping.{FindsRows, IsLost, Keeps};
ghost use Rattle.upd_subcommands.specs.DeskCommands.{HandsIn, HandsInSince, SettlesSite, TellsOfRuns, TellsSince, TriesRun};
ghost use Rattle.upd_subcommands.specs.Status.{exit_status};
ghost use Rattle.upd_subcommands.specs.Streams.{TakesFront};
ghost use Rattle.upd_subcommands.specs.Reporting.{ReportsConflicts, ReportsMark, ReportsRun, ReportsTried, Writes};
ghost use Rattle.upd_text.specs.declared.limits.TheConstants.{MAX_RUN_BYTES};

use crate::exit_status::{DONE, FAILED, REFUSED, finish};
use crate::streams::{read_input, write_out, write_parts_out};
use itoa::Buffer;
use std::alloc::Global;
use std::io::{Read, Write};
use upd_core::Library;
use upd_desk::{Desk, Reply, fault_answer, settled_parts};
use upd_edit::{
    Warning, all_by_runs, arrive_since, ask_runs, try_at, warning_list, write_warnings,
};
use upd_row_store::RowStore;
use upd_text::{Fault, FaultKind, Name};

/// The run on the input arrives, and its reply goes to the output as a line. So does the text of a fault, except
/// NoMemory and Store. Nothing is allocated between the reply and its output.
pub(crate) fn hand_in<S: RowStore, R: Read, W: Write>(
    alloc: Global,
    desk: &mut Desk<S>,
    site: &str,
    number: u64,
    mode: &str,
    input: &mut R,
    output: &mut W,
) -> Result<u8, Fault>
    ensures reports { HandsIn S.Meaning site.now number mode.now
        (R.remaining input.old) result desk.old.store desk.new.store (W.contents output.old) (W.contents output.new) }
    ensures front { TakesFront (MAX_RUN_BYTES + 1) (R.remaining input.old) (R.remaining input.new) }
    ensures status { IfOk result (λ status. (status ≡ 0) ⊎ (status ≡ 1)) }
{
    let run = read_input(alloc, input)?;
    let answer = desk.arrive(alloc, site, number, mode, &run);
    write_answer(alloc, answer, output)
}

/// The run on the input arrives where it meets nothing that idents younger than SINCE have done. Else nothing is stored,
/// and its conflicts go to the fault stream. IdentUnknown, at 0, where no held ident has SINCE's name.
pub(crate) fn hand_in_since<S: RowStore, R: Read, W: Write, E: Write>(
    alloc: Global,
    desk: &mut Desk<S>,
    since: &Name,
    site: &str,
    number: u64,
    mode: &str,
    input: &mut R,
    output: &mut W,
    faults: &mut E,
) -> Result<u8, Fault>
    ensures reports { HandsInSince S.Meaning since.now site.now number mode.now
        (R.remaining input.old) result desk.old.store desk.new.store (W.contents output.old) (W.contents output.new)
        (E.contents faults.old) (E.contents faults.new) }
    ensures front { TakesFront (MAX_RUN_BYTES + 1) (R.remaining input.old) (R.remaining input.new) }
    ensures status { IfOk result (λ status. (status ≡ 0) ⊎ ((status ≡ 1) ⊎ (status ≡ 3))) }
    ensures clean { IfOk result (λ status. status ≡ 0 → faults.new ≡ faults.old) }
    ensures quiet { IfErr result (λ _. faults.new ≡ faults.old) }
{
    let run = read_input(alloc, input)?;
    let answer = arrive_since(alloc, desk, since, site, number, mode, &run);
    tell_since(alloc, answer, &run, output, faults)
}

/// Writes the answer to a run with a condition. IdentUnknown is left to the caller.
fn tell_since<W: Write, E: Write>(
    alloc: Global,
    answer: Result<Result<Reply, Vec<Warning>>, Fault>,
    run: &[u8],
    output: &mut W,
    faults: &mut E,
) -> Result<u8, Fault>
    ensures reports { TellsSince (result_map_both (result_map_both (λ reply. reply) (λ met. met.items)) (λ fault. fault) answer)
        result (W.contents output.old) (W.contents output.new) (E.contents faults.old) (E.contents faults.new) }
    ensures status { IfOk result (λ status. (status ≡ 0) ⊎ ((status ≡ 1) ⊎ (status ≡ 3))) }
    ensures clean { IfOk result (λ status. status ≡ 0 → faults.new ≡ faults.old) }
    ensures quiet { IfErr result (λ _. faults.new ≡ faults.old) }
{
    match answer {
        Ok(Ok(reply)) => write_reply(&reply, output),
        Ok(Err(met)) => write_conflicts(alloc, run, &met, faults),
        Err(fault) if fault.kind == FaultKind::IdentUnknown => Err(fault),
        Err(fault) => write_refusal(alloc, fault, output),
    }
}

/// Writes the conflicts of a run, and returns the exit status of a refusal, or of a write that failed.
fn write_conflicts<E: Write>(
    alloc: Global,
    run: &[u8],
    met: &[Warning],
    faults: &mut E,
) -> Result<u8, Fault>
    ensures reports { ReportsConflicts result (E.contents faults.old) (E.contents faults.new) }
    ensures status { IfOk result (λ status. (status ≡ 1) ⊎ (status ≡ 3)) }
    ensures quiet { IfErr result (λ _. faults.new ≡ faults.old) }
{
    let text = write_warnings(alloc, run, met)?;
    Ok(report_warnings(&text, REFUSED, faults))
}

/// The reply that a run would get goes to the output as a line, as `hand_in` writes it, and its warnings to the fault
/// stream behind it. Both are made before either is written. Nothing is stored. Returns the exit status.
pub(crate) fn try_run<S: RowStore, W: Write, E: Write>(
    alloc: Global,
    desk: &mut Desk<S>,
    mode: &str,
    since: Option<Name>,
    run: &[u8],
    output: &mut W,
    faults: &mut E,
) -> u8
    ensures reports { TriesRun S.Meaning mode.now since run.now desk.old.store desk.new.store
        (ending result (W.contents output.old) (W.contents output.new) (E.contents faults.old) (E.contents faults.new)) }
    ensures status { result ≢ 2 }
{
    let answer = try_at(alloc, desk, mode, run);
    match warnings_at(alloc, desk, since, run) {
        Ok(list) => match write_warnings(alloc, run, &list) {
            Ok(warnings) => write_tried(alloc, answer, &warnings, output, faults),
            Err(error) => finish(Err(Fault::from(error)), faults),
        },
        Err(fault) => finish(Err(fault), faults),
    }
}

/// The warnings of a run that is tried now, as the stored runs have them. After NoMemory or Store, at 0, it can be asked
/// again.
fn warnings_at<S: RowStore>(
    alloc: Global,
    desk: &mut Desk<S>,
    since: Option<Name>,
    run: &[u8],
) -> Result<Vec<Warning>, Fault>
    ensures list { TellsOfRuns S.Meaning (tried_warnings since run.now)
        (result_map_both (λ list. list.items) (λ fault. fault) result) desk.old.store desk.new.store }
    ensures same { Keeps S.Meaning desk.old.store desk.new.store }
{
    let library = desk.library(alloc)?;
    match warning_list(alloc, &library, since, run) {
        Ok(list) => by_stored_runs(alloc, desk, &library, &since, list),
        Err(fault) => Err(fault),
    }
}

/// Warnings as the stored runs have them. These are read only where they can make a difference.
fn by_stored_runs<S: RowStore>(
    alloc: Global,
    desk: &mut Desk<S>,
    library: &Library,
    since: &Option<Name>,
    list: Vec<Warning>,
) -> Result<Vec<Warning>, Fault>
    ensures list { FindsRows S.Meaning result desk.old.store desk.new.store
        (λ rows told. told.items ≡ all_by_runs since.now rows.runs library.now list.items) }
    ensures lost { IfErr result IsLost }
    ensures same { Keeps S.Meaning desk.old.store desk.new.store }
{
    if since.is_none() && !ask_runs(&list) {
        return Ok(list);
    }
    let stored = desk.stored_runs(alloc)?;
    match all_by_runs(alloc, library, &stored.runs, since, &list) {
        Ok(told) => Ok(told),
        Err(error) => Err(Fault::from(error)),
    }
}

/// Writes the answer to a run that was tried, and its warnings behind it. Returns the exit status.
fn write_tried<W: Write, E: Write>(
    alloc: Global,
    answer: Result<Reply, Fault>,
    warnings: &[u8],
    output: &mut W,
    faults: &mut E,
) -> u8
    ensures reports { ReportsTried answer (Ok warnings.now)
        (ending result (W.contents output.old) (W.contents output.new) (E.contents faults.old) (E.contents faults.new)) }
    ensures status { result ≢ 2 }
{
    match write_answer(alloc, answer, output) {
        Ok(status) => report_warnings(warnings, status, faults),
        Err(fault) => finish(Err(fault), faults),
    }
}

/// Writes warnings, if there are any, and returns the exit status: the given one, or that of a write that failed.
fn report_warnings<E: Write>(warnings: &[u8], status: u8, faults: &mut E) -> u8
    ensures reported { IsReported status warnings.now result (E.contents faults.old) (E.contents faults.new) }
    ensures status { (result ≡ status) ⊎ (result ≡ 3) }
{
    if warnings.is_empty() {
        return status;
    }
    match write_out(faults, warnings) {
        Ok(()) => status,
        Err(_) => FAILED,
    }
}

/// A reply goes to the output as a line. So does the text of a fault, except NoMemory and Store.
fn write_answer<W: Write>(
    alloc: Global,
    answer: Result<Reply, Fault>,
    output: &mut W,
) -> Result<u8, Fault>
    ensures reports { ReportsRun answer result (W.contents output.old) (W.contents output.new) }
    ensures status { IfOk result (λ status. (status ≡ 0) ⊎ (status ≡ 1)) }
{
    match answer {
        Ok(reply) => write_reply(&reply, output),
        Err(fault) => write_refusal(alloc, fault, output),
    }
}

fn write_reply<W: Write>(reply: &Reply, output: &mut W) -> Result<u8, Fault>
    ensures reports { ReportsRun (Ok reply.now) result (W.contents output.old) (W.contents output.new) }
    ensures status { IfOk result (λ status. (status ≡ 0) ⊎ (status ≡ 1)) }
{
    if reply.accepted {
        write_line(output, &reply.text, DONE)
    } else {
        write_line(output, &reply.text, REFUSED)
    }
}

fn write_refusal<W: Write>(alloc: Global, fault: Fault, output: &mut W) -> Result<u8, Fault>
    ensures reports { ReportsRun (Err fault) result (W.contents output.old) (W.contents output.new) }
    ensures status { IfOk result (λ status. (status ≡ 0) ⊎ (status ≡ 1)) }
{
    let text = fault_answer(alloc, fault)?;
    write_line(output, &text, REFUSED)
}

/// Writes a text and LF, and returns the exit status that is given.
fn write_line<W: Write>(output: &mut W, text: &[u8], status: u8) -> Result<u8, Fault>
    ensures { Writes status (text.now ++ 10 ∷ []) result (W.contents output.old) (W.contents output.new) }
{
    write_parts_out(output, &[text, b"\n"])?;
    Ok(status)
}

/// Settles a site's runs up to a number, and the site's mark goes to the output as a line. Nothing is allocated after
/// the settlement.
pub(crate) fn settle<S: RowStore, W: Write>(
    alloc: Global,
    desk: &mut Desk<S>,
    site: &str,
    number: u64,
    output: &mut W,
) -> Result<u8, Fault>
    ensures reports { SettlesSite S.Meaning site.now number
        result desk.old.store desk.new.store (W.contents output.old) (W.contents output.new) }
    ensures status { IfOk result (λ status. status ≡ 0) }
    ensures silent { IfErr result (λ fault. exit_status fault.kind ≡ 1 → output.new ≡ output.old) }
{
    let mark = desk.settle_site(alloc, site, number)?;
    write_mark(output, site, mark)
}

/// Writes the text of a mark, and LF.
fn write_mark<W: Write>(output: &mut W, site: &str, mark: u64) -> Result<u8, Fault>
    ensures reports { ReportsMark site.now (Ok mark) result (W.contents output.old) (W.contents output.new) }
    ensures status { IfOk result (λ status. status ≡ 0) }
    ensures silent { IfErr result (λ fault. exit_status fault.kind ≡ 1 → output.new ≡ output.old) }
{
    let mut digits = Buffer::new();
    let [start, number, key, name, end] = settled_parts(site, mark, &mut digits);
    match write_parts_out(output, &[start, number, key, name, end, b"\n"]) {
        Ok(()) => Ok(DONE),
        Err(fault) => Err(fault),
    }
}
