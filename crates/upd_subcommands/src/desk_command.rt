//! Commands at the desk of a library.
ghost use Rattle.std.specs.Prelude.{◌≡◌, ◌≤◌, ◌⊎◌, ◌+◌, ℕ, List, length, IfErr, IfOk, OnOk};
ghost use Rattle.upd_wire.specs.LogLines.{Logs, ServedView};
ghost use Rattle.upd_wire.specs.Serving.{LeadsThrough, Made};
ghost use Rattle.upd_subcommands.specs.DeskCommands.{Does, EndsServing, EndsSpool};
ghost use Rattle.upd_subcommands.specs.Inputs.{HandsRuns, IsFirstRead, IsSpool, UsesFaults, ReadsFirst, WritesRefusals, most_read};
ghost use Rattle.upd_subcommands.specs.Status.{exit_status, no_memory, read_failed};
ghost use Rattle.upd_subcommands.specs.Streams.{TakesFront, stream};
ghost use Rattle.upd_text.specs.declared.fault.Fault.{Fault};
ghost use Rattle.upd_text.specs.declared.limits.TheConstants.{MAX_RUN_BYTES};

use crate::arriving::{hand_in, hand_in_since, settle, try_run};
use crate::binding::{Bound, Host};
use crate::correction_command::correct_text;
use crate::exit_status::DONE;
use crate::listening::{report_path, report_place};
use crate::parts_command::correct_text_in_parts;
use crate::queries::answer_query;
use crate::streams::{read_front, read_input};
use std::alloc::Global;
use std::io::{Read, Write};
use std::time::Clock;
use upd_desk::Desk;
use upd_edit::MAX_TEXT_BYTES;
use upd_row_store::RowStore;
use upd_text::{Fault, FaultKind};
use upd_wire::{Listener, serve_on_within, spool};
use upd_words::{Command, Endpoint};

/// What `try` and the commands for edited texts read of the input before the file is opened, so that it can come from a command on the same
/// file. Nothing for another command.
pub fn read_first<R: Read>(
    alloc: Global,
    command: &Command<'_>,
    input: &mut R,
) -> Result<Vec<u8>, Fault>
    ensures read { IfOk result (λ text. IsFirstRead command.now (R.remaining input.old) (R.remaining input.new) text.items) }
    ensures front { TakesFront (most_read command.now) (R.remaining input.old) (R.remaining input.new) }
    ensures waits { ¬ ReadsFirst command.now → input.new ≡ input.old }
    ensures first { IfErr result (λ _. ReadsFirst command.now) }
    ensures err { IfErr result (λ fault. (fault ≡ no_memory) ⊎ (fault ≡ read_failed)) }
{
    match command {
        Command::Try { .. } => read_input(alloc, input),
        Command::Correct { .. } | Command::CorrectAt { .. } | Command::CorrectParts { .. } => {
            read_front(alloc, input, MAX_TEXT_BYTES + 1)
        }
        _ => Ok(Vec::new(alloc)),
    }
}

/// Carries a command out at a desk, over streams, and returns the exit status. `text` is what was read first.
/// `host` can open no file.
pub fn carry_out_at<C: Clock, S: RowStore, R: Read, W: Write, E: Write>(
    host: &Host<'_, C>,
    desk: &mut Desk<S>,
    command: &Command<'_>,
    text: &[u8],
    input: &mut R,
    output: &mut W,
    faults: &mut E,
) -> Result<u8, Fault>
    ensures does { Does S.Meaning command.now text.now result desk.old.store desk.new.store
        (stream R.remaining input.old input.new) (stream W.contents output.old output.new)
        (stream E.contents faults.old faults.new) }
    ensures front { ¬ IsSpool command.now → TakesFront (MAX_RUN_BYTES + 1) (R.remaining input.old) (R.remaining input.new) }
    ensures waits { ¬ HandsRuns command.now → input.new ≡ input.old }
    ensures refused { IfOk result (λ status. (status ≡ 2) ⊎ ((status ≡ 1) × ¬ WritesRefusals command.now)
        → output.new ≡ output.old) }
    ensures failed { IfErr result (λ fault. exit_status fault.kind ≡ 1
        → WritesRefusals command.now ⊎ (output.new ≡ output.old)) }
    ensures clean { IfOk result (λ status. status ≡ 0 → ¬ UsesFaults command.now → faults.new ≡ faults.old) }
    ensures quiet { IfErr result (λ _. ¬ UsesFaults command.now → faults.new ≡ faults.old) }
{
    let alloc = host.alloc;
    match command {
        Command::Run {
            site,
            number,
            mode,
            since,
        } => match since {
            None => hand_in(alloc, desk, site, *number, mode, input, output),
            Some(since) => hand_in_since(
                alloc, desk, since, site, *number, mode, input, output, faults,
            ),
        },
        Command::Settle { site, number } => settle(alloc, desk, site, *number, output),
        Command::Spool => read_spool(alloc, desk, input, output),
        Command::Serve { endpoint, count } => { serve(host, endpoint, *count, desk, faults) }
        Command::Correct { set } => {
            Ok(correct_text(alloc, desk, None, set, text, output, faults))
        }
        Command::CorrectAt { set, since } => Ok(correct_text(
            alloc,
            desk,
            Some(*since),
            set,
            text,
            output,
            faults,
        )),
        Command::CorrectParts {
            set,
            site,
            number,
            mode,
        } => Ok(correct_text_in_parts(alloc, desk, set, site, *number, mode, text, output, faults)),
        Command::Try { mode, since } => {
            Ok(try_run(alloc, desk, mode, *since, text, output, faults))
        }
        Command::Ask(query) => answer_query(alloc, desk, query, output),
    }
}

/// The frames of a spool arrive one after the other, and their answers go to the output.
fn read_spool<S: RowStore, R: Read, W: Write>(
    alloc: Global,
    desk: &mut Desk<S>,
    input: &mut R,
    output: &mut W,
) -> Result<u8, Fault>
    ensures ends { EndsSpool S.Meaning result desk.old.store desk.new.store
        (R.remaining input.old) (R.remaining input.new) (W.contents output.old) (W.contents output.new) }
    ensures status { IfOk result (λ status. status ≡ 0) }
{
    match spool(alloc, input, output, desk) {
        Ok(_) => Ok(DONE),
        Err(fault) => Err(fault),
    }
}

/// Serves `count` connections at an endpoint. Where it listens goes to `faults`, and a line for each connection; a
/// failure of that doesn't end it. Read, at 0, where the endpoint isn't bound; why there is no socket goes to `faults`.
fn serve<C: Clock, S: RowStore, E: Write>(
    host: &Host<'_, C>,
    endpoint: &Endpoint<'_>,
    count: u32,
    desk: &mut Desk<S>,
    faults: &mut E,
) -> Result<u8, Fault>
    ensures { EndsServing S.Meaning endpoint.now count result desk.old.store desk.new.store
        (E.contents faults.old) (E.contents faults.new) }
{
    match endpoint {
        Endpoint::Address(_) => match &host.bound {
            Bound::Tcp(listener) => {
                let _ = report_place(listener, faults);
                serve_at(host, Listener::Tcp(listener), count, desk, faults)
            }
            _ => Err(FaultKind::Read.without_line()),
        },
        Endpoint::Path(path) => match &host.bound {
            Bound::Unix(listener) => {
                let _ = report_path(host.alloc, "listening on ", path, "", faults);
                serve_at(host, Listener::Unix(listener), count, desk, faults)
            }
            _ => {
                let _ = report_path(host.alloc, "no socket at ", path, host.bound.why(), faults);
                Err(FaultKind::Read.without_line())
            }
        },
    }
}

/// Serves `count` connections at a listener. A line for each goes to `faults`.
fn serve_at<C: Clock, S: RowStore, E: Write>(
    host: &Host<'_, C>,
    listener: Listener<'_>,
    count: u32,
    desk: &mut Desk<S>,
    faults: &mut E,
) -> Result<u8, Fault>
    ensures leads { (made : List Made) × (length made ≤ count) × OnOk result (length made ≡ count)
        × LeadsThrough S.Meaning made desk.old.store desk.new.store
        × ((served : List ServedView) × (lost : ℕ) × Logs served made lost (E.contents faults.old) (E.contents faults.new)) }
    ensures status { IfOk result (λ status. status ≡ 0) }
    ensures err { IfErr result (λ fault. fault ≡ read_failed) }
{
    match serve_on_within(host.alloc, host.clock, listener, count, desk, faults) {
        Ok(_) => Ok(DONE),
        Err(fault) => Err(fault),
    }
}
