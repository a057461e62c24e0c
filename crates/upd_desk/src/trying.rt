//! What a desk would answer: a run is tried on a copy of a library, and nothing is stored.

ghost use Rattle.std.specs.Prelude.{◌≡◌, Ok, IfErr, IfOk};
ghost use Rattle.upd_compile.specs.declared.mode.Mode.{Mode};
ghost use Rattle.upd_desk.specs.Arrivals.{check_arrival};
ghost use Rattle.upd_desk.specs.Compiling.{IsSeen};
ghost use Rattle.upd_desk.specs.Made.{IsMade};
ghost use Rattle.upd_desk.specs.Outcomes.{Compiled, compiled, outcome, reply_on};
ghost use Rattle.upd_text.specs.Outcome.{FailsAt, GivesAt};
ghost use Rattle.upd_text.specs.declared.fault.FaultKind.TheVariants.{NoMemory};

use crate::arrival::{Arrival, check_arrival};
use crate::outcome::{AppliedRun, accepted_reply, refused};
use crate::reply::Reply;
use std::alloc::Global;
use upd_apply::apply;
use upd_compile::{CompileFile, Mode, compile_file};
use upd_core::Library;
use upd_deck::read_run;
use upd_text::Fault;

/// A run that was applied to a copy of a library, and its compile file.
#[derive(Drop)]
struct TriedRun {
    run: AppliedRun,
    file: CompileFile,
}

/// The reply that a new run would get from a desk with this library. Nothing is stored, and the library stays. A fault
/// is at 0: BadSite, BadNumber, BadMode or RunLong by the admission checks, or NoMemory.
pub fn reply_on(alloc: Global, library: &Library, arrival: &Arrival<'_>) -> Result<Reply, Fault>
    ensures reply { IsMade library.now → GivesAt (λ reply. reply) result (reply_on arrival.now library.now) }
    ensures refused { IfErr result (λ fault. FailsAt fault (check_arrival arrival.now)) }
{
    let mode = check_arrival(arrival)?;
    reply_in(alloc, library, mode, arrival)
}

/// The reply to a run that has passed the admission checks.
fn reply_in(
    alloc: Global,
    library: &Library,
    mode: Mode,
    arrival: &Arrival<'_>,
) -> Result<Reply, Fault>
    requires passed { check_arrival arrival.now ≡ Ok mode }
    ensures reply { IsMade library.now
        → GivesAt (λ reply. reply) result (Ok (outcome mode arrival.now library.now).reply) }
    ensures lost { IfErr result (λ fault. (fault.kind ≡ NoMemory) × (fault.at ≡ 0)) }
{
    match try_run(alloc, library, mode, arrival.bytes) {
        Ok(tried) => match accepted_reply(alloc, arrival, &tried.run, &tried.file) {
            Ok(reply) => Ok(reply),
            Err(error) => Err(Fault::from(error)),
        },
        Err(fault) => Ok(refused(alloc, arrival, fault)?.reply),
    }
}

/// A run applied to a copy of the library, and its compile file.
fn try_run(alloc: Global, library: &Library, mode: Mode, bytes: &[u8]) -> Result<TriedRun, Fault>
    ensures ok { IfOk result (λ tried. (done : Compiled)
        × (compiled mode bytes.now library.now ≡ Ok done) × IsSeen done tried.run tried.file) }
    ensures refused { IfErr result (λ fault. FailsAt fault (compiled mode bytes.now library.now)) }
{
    let run = read_run(alloc, bytes)?;
    let mut after = library.copy()?;
    let applied = apply(alloc, &mut after, &run)?;
    let file = compile_file(alloc, &after, library, mode, &applied.compile)?;
    Ok(TriedRun {
        run: AppliedRun {
            library: after,
            applied,
        },
        file,
    })
}
