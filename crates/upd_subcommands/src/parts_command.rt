//! `correct-parts`: from an edited text to a spool on the output.
ghost use Rattle.std.specs.Prelude.{◌≡◌, ◌+◌, ◌<◌, ◌≤◌, ◌⊎◌, ◌++◌, ◌∷◌, [], Err, IfErr, IfOk, IsOk, Ok, OnOk, length, map};
ghost use Rattle.upd_desk.specs.Arrivals.{arrival_view, check_arrival};
ghost use Rattle.upd_desk.specs.Holding.{EachHeld};
ghost use Rattle.upd_row_store.specs.Keeping.{IsLost, Keeps};
ghost use Rattle.upd_subcommands.specs.Command.{ending};
ghost use Rattle.upd_subcommands.specs.Parts.{CorrectsParts, IsAdmitted, IsFirstUsed, IsFreeSpool, IsSpoolFailure, IsSpoolRefusal, IsUsedError};
ghost use Rattle.upd_subcommands.specs.Parts.{check_frames, frames_from};
ghost use Rattle.upd_wire.specs.Frames.{frame_text, frames_text};

use crate::correction_command::report_correction;
use itoa::Buffer;
use std::alloc::{AllocError, Global};
use std::io::Write;
use upd_compile::Mode;
use upd_compile::text_parts::push_parts;
use upd_correct::{Problem, Refusal};
use upd_desk::Desk;
use upd_edit::{EditError, parts_at};
use upd_row_store::RowStore;
use upd_text::keys::{is_run_number, is_site};
use upd_text::limits::MAX_RUN_BYTES;
use upd_text::{Fault, FaultKind};

/// The spool of runs that lead decks to an edited text one after the other goes to the output, for a site and from a
/// number on. Where there isn't one, nothing does, and the fault stream says why, as for `correct`; BadSite, BadNumber and
/// BadMode, at 0, are also faults, and NumberUsed is a problem: the site has used or settled one of the numbers. Returns
/// the exit status.
pub(crate) fn correct_text_in_parts<S: RowStore, W: Write, E: Write>(
    alloc: Global,
    desk: &mut Desk<S>,
    set: &str,
    site: &str,
    number: u64,
    mode: &str,
    text: &[u8],
    output: &mut W,
    faults: &mut E,
) -> u8
    ensures reports { CorrectsParts S.Meaning set.now site.now number mode.now text.now desk.old.store desk.new.store
        (ending result (W.contents output.old) (W.contents output.new) (E.contents faults.old) (E.contents faults.new)) }
    ensures silent { (result ≡ 1) ⊎ (result ≡ 2) → output.new ≡ output.old }
    ensures clean { result ≡ 0 → faults.new ≡ faults.old }
{
    let answer = spool_at(alloc, desk, set, site, number, mode, text);
    report_correction(alloc, answer, output, faults)
}

/// The spool for an edited text, if its numbers are free.
fn spool_at<S: RowStore>(
    alloc: Global,
    desk: &mut Desk<S>,
    set: &str,
    site: &str,
    number: u64,
    mode: &str,
    text: &[u8],
) -> Result<Vec<u8>, EditError>
    ensures spool { EachHeld S.Meaning desk.old.store desk.new.store
        (λ journal. IfOk result (λ spool. IsFreeSpool journal set.now site.now number mode.now text.now spool.items)) }
    ensures refused { EachHeld S.Meaning desk.old.store desk.new.store
        (λ journal. IfErr result (IsSpoolRefusal journal set.now site.now number mode.now text.now)) }
    ensures failed { IfErr result (IsSpoolFailure S.Meaning set.now site.now number mode.now text.now desk.old.store desk.new.store) }
    ensures same { Keeps S.Meaning desk.old.store desk.new.store }
{
    match parts_at(alloc, desk, set.as_bytes(), text) {
        Ok(runs) => match spool_of(alloc, site, number, mode, &runs) {
            Ok(spool) => {
                let end = number + runs.len() as u64;
                match first_used(alloc, desk, site, number, end) {
                    Ok(None) => Ok(spool),
                    Ok(Some(used)) => Err(number_used(alloc, used)),
                    Err(fault) => Err(EditError::Failed(fault)),
                }
            }
            Err(fault) => Err(EditError::Failed(fault)),
        },
        Err(error) => Err(error),
    }
}

/// The first number of a range that a site has used or settled.
fn first_used<S: RowStore>(
    alloc: Global,
    desk: &mut Desk<S>,
    site: &str,
    number: u64,
    end: u64,
) -> Result<Option<u64>, Fault>
    ensures first { EachHeld S.Meaning desk.old.store desk.new.store
        (λ journal. IfOk result (IsFirstUsed journal site.now number end)) }
    ensures lost { IfErr result IsLost }
    ensures same { Keeps S.Meaning desk.old.store desk.new.store }
{
    for next in number..end {
        match desk.is_known(alloc, site, next) {
            Ok(false) => {}
            Ok(true) => return Ok(Some(next)),
            Err(fault) => return Err(fault),
        }
    }
    Ok(None)
}

/// The error of a number that is used or settled.
fn number_used(alloc: Global, number: u64) -> EditError
    ensures { IsUsedError number result }
{
    let mut refusals = Vec::new(alloc);
    let pushed = refusals.push(Refusal {
        line: 0,
        column: 0,
        problem: Problem::NumberUsed(number),
    });
    match pushed {
        Ok(()) => EditError::Refused(refusals),
        Err(error) => EditError::Failed(Fault::from(error)),
    }
}

/// The frames of runs of a site, from a number on. BadSite, BadNumber or BadMode, at 0, where a frame would be refused.
fn spool_of(
    alloc: Global,
    site: &str,
    number: u64,
    mode: &str,
    runs: &[Vec<u8>],
) -> Result<Vec<u8>, Fault>
    ensures frames { IfOk result (λ spool. spool.items
        ≡ frames_text (frames_from site.now number mode.now (map (λ run. run.items) runs.now))) }
    ensures admitted { OnOk result (IsOk (check_frames site.now number mode.now (map (λ run. run.items) runs.now))) }
    ensures fits { OnOk result (number + length runs.now ≤ 1000000000) }
    ensures refused { IfErr result (λ fault. IsLost fault
        ⊎ (check_frames site.now number mode.now (map (λ run. run.items) runs.now) ≡ Err fault)) }
{
    let mut spool = Vec::new(alloc);
    check_frame(site, number, mode, b"")?;
    let mut next = number;
    for run in runs {
        check_frame(site, next, mode, run)?;
        push_frame(&mut spool, site, next, mode, run)?;
        next += 1;
    }
    Ok(spool)
}

/// Appends a frame.
#[tactic(auto, using(crate::proofs::PartLemmas::frame_made))]
fn push_frame(
    spool: &mut Vec<u8>,
    site: &str,
    number: u64,
    mode: &str,
    run: &[u8],
) -> Result<(), AllocError>
    ensures { OnOk result (spool.new.items ≡ spool.old.items ++ frame_text (arrival_view site.now number mode.now run.now)) }
{
    let (mut digits, mut size) = (Buffer::new(), Buffer::new());
    push_parts(spool, &[b"RUN ", site.as_bytes(), b" "])?;
    push_parts(spool, &[digits.format(number).as_bytes(), b" "])?;
    push_parts(spool, &[mode.as_bytes(), b" "])?;
    push_parts(spool, &[size.format(run.len()).as_bytes(), b"\n"])?;
    push_parts(spool, &[run, b"\n"])?;
    Ok(())
}

/// The admission checks of a frame.
fn check_frame(site: &str, number: u64, mode: &str, run: &[u8]) -> Result<(), Fault>
    ensures admitted { OnOk result (IsAdmitted (arrival_view site.now number mode.now run.now)) }
    ensures fits { OnOk result (number < 1000000000) }
    ensures refused { IfErr result (λ fault. check_arrival (arrival_view site.now number mode.now run.now) ≡ Err fault) }
{
    if !is_site(site.as_bytes()) {
        return Err(FaultKind::BadSite.without_line());
    }
    if !is_run_number(number) {
        return Err(FaultKind::BadNumber.without_line());
    }
    if Mode::read(mode).is_none() {
        return Err(FaultKind::BadMode.without_line());
    }
    if run.len() > MAX_RUN_BYTES {
        return Err(FaultKind::RunLong.without_line());
    }
    Ok(())
}
