//! How a desk answers an arrival, over any store.

ghost use Rattle.std.specs.Prelude.{◌≡◌, ◌≤◌, length, None, Ok, Some, IfErr, IfOk, OnErr, OnOk};
ghost use Rattle.std.specs.Result.{result_map_both};
ghost use Rattle.upd_records.specs.Rows.{ShowsStates};
ghost use Rattle.upd_core.specs.Library.{LibraryView};
ghost use Rattle.upd_desk.specs.Arrivals.{check_arrival};
ghost use Rattle.upd_desk.specs.Holding.{Arrives, Becomes, FindsMade, LooksAt};
ghost use Rattle.upd_desk.specs.Holding.{IsArrivalFault, IsUnadmitted, ReadsAtMost, ReadsNeeded, TriesRun};
ghost use Rattle.upd_desk.specs.Made.{looked_at};
ghost use Rattle.upd_desk.specs.Needed.{needed};
ghost use Rattle.upd_desk.specs.Journal.{reply_to, run_of};
ghost use Rattle.upd_desk.specs.Outcomes.{compiled, outcome};
ghost use Rattle.upd_row_store.specs.Keeping.{CountsFailure, IsLost, OpensOk};
ghost use Rattle.upd_text.specs.Faults.{fault_at};
ghost use Rattle.upd_text.specs.declared.fault.FaultKind.TheVariants.{NoMemory};
ghost use Rattle.upd_yank.specs.Affected.{altered};

use crate::arrival::{Arrival, check_arrival, mode_number};
use crate::outcome::run_outcome;
use crate::reply::Reply;
use std::alloc::Global;
use upd_compile::Mode;
use upd_records::RunRow;
use upd_row_store::RowStore;
use upd_text::{Fault, FaultKind};

/// A reply, and the number of cards that were looked at for it.
#[derive(Drop)]
pub(crate) struct Answered {
    pub reply: Reply,
    pub work: u64,
}

/// The answer to an arrival whose key has a stored run: the first reply again, where mode and bytes are the same.
fn repeat_answer(run: RunRow, mode: Mode, arrival: &Arrival<'_>) -> Result<Reply, Fault>
    ensures { (l : LibraryView) → result ≡ reply_to mode arrival.now l (Some run) }
{
    if run.mode == mode_number(mode) && run.bytes.as_slice() == arrival.bytes {
        Ok(Reply {
            accepted: run.accepted,
            text: run.reply,
        })
    } else {
        Err(FaultKind::RunChanged.without_line())
    }
}

/// A run with its reply, as the store has it.
fn stored_row(
    alloc: Global,
    mode: Mode,
    arrival: &Arrival<'_>,
    reply: &Reply,
) -> Result<RunRow, Fault>
    ensures run { IfOk result (λ run. run
        ≡ run_of (record { arrival = arrival.now; mode = mode; carried = None }) reply.now) }
    ensures lost { IfErr result (λ fault. fault ≡ fault_at NoMemory 0) }
{
    Ok(RunRow {
        site: String::from_str(alloc, arrival.site)?,
        number: arrival.number,
        mode: mode_number(mode),
        bytes: Vec::from_slice(alloc, arrival.bytes)?,
        accepted: reply.accepted,
        reply: Vec::from_slice(alloc, &reply.text)?,
    })
}

/// Answers a new run, and commits its row changes together with its reply.
fn keep_new<S: RowStore>(
    store: &mut S,
    alloc: Global,
    mode: Mode,
    arrival: &Arrival<'_>,
) -> Result<Answered, Fault>
    requires passed { check_arrival arrival.now ≡ Ok mode }
    ensures tries { TriesRun S.Meaning mode arrival.now store.old store.new }
    ensures opens { OpensOk S.Meaning result store.new }
    ensures becomes { S.is_honest store.new
        → OnOk result (Becomes S.shows mode arrival.now (S.image store.old) (S.image store.new)) }
    ensures reply { FindsMade S.Meaning result store.old store.new
        (λ l rows answered. ShowsStates rows l → answered.reply ≡ (outcome mode arrival.now l).reply) }
    ensures work { FindsMade S.Meaning result store.old store.new
        (λ l rows answered. ShowsStates rows l → answered.work ≡ looked_at l (compiled mode arrival.now.bytes l)) }
    ensures least { FindsMade S.Meaning result store.old store.new
        (λ l rows answered. ShowsStates rows l
        → length (altered l (outcome mode arrival.now l).library) ≤ answered.work) }
    ensures reads { ReadsAtMost S.Meaning result store.old store.new (λ l. length (needed arrival.now.bytes l)) }
    ensures undone { S.is_honest store.new → S.is_open store.new
        → OnErr result (S.image store.new ≡ S.image store.old) }
    ensures lost { IfErr result IsLost }
    ensures failed { CountsFailure S.Meaning result store.old store.new }
{
    let outcome = run_outcome(store, alloc, mode, arrival)?;
    let run = stored_row(alloc, mode, arrival, &outcome.reply)?;
    store.commit(alloc, &outcome.changes, run)?;
    Ok(Answered {
        reply: outcome.reply,
        work: outcome.work,
    })
}

/// The answer to an arrival: by the admission checks, by the site's mark, by the stored run of its key, or by what its
/// run makes of the library.
pub(crate) fn arrive_at<S: RowStore>(
    store: &mut S,
    alloc: Global,
    arrival: &Arrival<'_>,
) -> Result<Answered, Fault>
    ensures arrives { Arrives S.Meaning arrival.now
        (result_map_both (λ answered. answered.reply) (λ fault. fault) result) store.old store.new }
    ensures work { LooksAt S.Meaning arrival.now result (λ answered. answered.work) store.old store.new }
    ensures reads { ReadsNeeded S.Meaning arrival.now result store.old store.new }
    ensures unadmitted { IsUnadmitted (check_arrival arrival.now) result store.old store.new }
    ensures faults { IfErr result (IsArrivalFault arrival.now) }
    ensures failed { CountsFailure S.Meaning result store.old store.new }
{
    let mode = check_arrival(arrival)?;
    let mark = store.mark(alloc, arrival.site)?;
    if arrival.number <= mark {
        return Err(FaultKind::Settled.without_line());
    }
    let kept = store.kept_run(alloc, arrival.site, arrival.number)?;
    match kept {
        Some(run) => {
            let reply = repeat_answer(run, mode, arrival)?;
            Ok(Answered { reply, work: 0 })
        }
        None => keep_new(store, alloc, mode, arrival),
    }
}
