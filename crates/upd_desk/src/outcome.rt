//! What a new run makes of the library that a store keeps.

ghost use Rattle.std.specs.Prelude.{◌≡◌, [], List, None, length, map, Ok, IfErr, IfOk};
ghost use Rattle.std.specs.Result.{IsOkUnless};
ghost use Rattle.upd_desk.specs.Holding.{FindsMade, OnlyReads, ReadsAtMost};
ghost use Rattle.upd_text.specs.Faults.{fault_at};
ghost use Rattle.upd_text.specs.Outcome.{FailsAt};
ghost use Rattle.upd_text.specs.declared.fault.FaultKind.TheVariants.{NoMemory};
ghost use Rattle.upd_core.specs.Library.{LibraryView, name_of};
ghost use Rattle.upd_core.specs.Parts.{part_of};
ghost use Rattle.upd_records.specs.Rows.{Rows, Shows, ShowsStates};
ghost use Rattle.upd_deck.specs.Items.{LineView};
ghost use Rattle.upd_deck.specs.Reading.{reading};
ghost use Rattle.upd_apply.specs.Applying.{Reached, applied};
ghost use Rattle.upd_compile.specs.File.{compile_file_of};
ghost use Rattle.upd_compile.specs.declared.mode.Mode.{Mode};
ghost use Rattle.upd_compile.specs.declared.mode.Mode.TheVariants.{Quick};
ghost use Rattle.upd_partial.specs.Needed.{decks_needed};
ghost use Rattle.upd_yank.specs.Right.{IsRight, AreStatesOf};
ghost use Rattle.upd_desk.specs.Arrivals.{check_arrival};
ghost use Rattle.upd_desk.specs.Compiling.{AreActivesFor, IsOutcomeOf, IsAppliedRun, IsRefusal, IsSeen};
ghost use Rattle.upd_desk.specs.Made.{IsMade};
ghost use Rattle.upd_desk.specs.Needed.{needed};
ghost use Rattle.upd_desk.specs.Outcomes.{Compiled, compiled, outcome_by};

use crate::arrival::Arrival;
use crate::reply::Reply;
use crate::reply_texts::{accepted_text, refused_text};
use crate::run_loading::{load_needed, references};
use std::alloc::{AllocError, Global};
use upd_apply::{Applied, apply};
use upd_compile::{CompileFile, Mode, compile_active};
use upd_core::ident::name_at;
use upd_core::{Actives, Change, Counted, Ident, Library, Serial, States};
use upd_deck::{Run, read_run};
use upd_row_store::RowStore;
use upd_text::{Fault, FaultKind, Name};
use upd_yank::Cache;

/// What a new run makes of the library: row changes and a reply.
#[derive(Debug, Drop)]
pub(crate) struct RunOutcome {
    /// The row changes for the store, in the order in which it carries them out.
    pub(crate) changes: Vec<Change>,
    pub(crate) reply: Reply,
    /// The number of cards that were looked at.
    pub(crate) work: u64,
}

/// A library after a run was applied, and what `apply` reports.
#[derive(Debug, Drop)]
pub(crate) struct AppliedRun {
    /// The part with the decks that the run needed, and with its own.
    pub(crate) library: Library,
    pub(crate) applied: Applied,
}

/// What a run that has passed the admission checks makes of the library of a store: it is read, applied to the decks
/// that it needs, and compiled with the statuses that it leaves. The first fault in this refuses it: a refused run has
/// a reply as well, and no row changes. Out of memory, and a failure of the store, end it unanswered. A run that can't
/// be read loads nothing.
pub(crate) fn run_outcome<S: RowStore>(
    store: &mut S,
    alloc: Global,
    mode: Mode,
    arrival: &Arrival<'_>,
) -> Result<RunOutcome, Fault>
    requires passed { check_arrival arrival.now ≡ Ok mode }
    ensures found { FindsMade S.Meaning result store.old store.new
        (λ l rows o. ShowsStates rows l → IsOutcomeOf mode arrival.now l rows o) }
    ensures reads { ReadsAtMost S.Meaning result store.old store.new (λ l. length (needed arrival.now.bytes l)) }
    ensures leaves { OnlyReads S.Meaning result store.old store.new }
{
    let run = match read_run(alloc, arrival.bytes) {
        Ok(run) => run,
        Err(fault) => return refused(alloc, arrival, fault),
    };
    let part = load_needed(store, alloc, &run)?;
    let cards = references(alloc, &part)?;
    let run = match apply_run(alloc, part, &run) {
        Ok(run) => run,
        Err(fault) => return refused(alloc, arrival, fault),
    };
    let states = store.states_of(alloc, &cards)?;
    let before = active_before(store, alloc, mode, &run)?;
    compiled_outcome(alloc, mode, arrival, &states, before, run)
}

/// What a run that was applied makes of the statuses, and its compile file and reply.
fn compiled_outcome(
    alloc: Global,
    mode: Mode,
    arrival: &Arrival<'_>,
    states: &States,
    before: Option<Actives>,
    run: AppliedRun,
) -> Result<RunOutcome, Fault>
    requires passed { check_arrival arrival.now ≡ Ok mode }
    ensures found { IfOk result (λ o. (lines : List LineView) (l loaded : LibraryView) (reached : Reached)
        → reading arrival.now.bytes ≡ Ok lines → IsMade l → IsAppliedRun lines l loaded reached run
        → AreActivesFor mode run.applied.compile.items l before → (rows : Rows) → Shows rows l → ShowsStates rows l
        → AreStatesOf states.now loaded → IsOutcomeOf mode arrival.now l rows o) }
    ensures lost { IsOkUnless result (fault_at NoMemory 0) }
{
    let mut cache = Cache::of_rows(alloc, states)?;
    let mut updates = cache.settle(&mut Counted::new(&run.library), &run.applied)?;
    let file = match compile_run(alloc, mode, &cache, &before, &run) {
        Ok(file) => file,
        Err(fault) => return refused(alloc, arrival, fault),
    };
    let reply = accepted_reply(alloc, arrival, &run, &file)?;
    let applied = run.applied;
    let mut changes = applied.changes;
    changes.append(&mut updates)?;
    Ok(RunOutcome {
        changes,
        reply,
        work: cache.work(),
    })
}

/// The active cards before a run, where its compile file can have a line.
fn active_before<S: RowStore>(
    store: &mut S,
    alloc: Global,
    mode: Mode,
    run: &AppliedRun,
) -> Result<Option<Actives>, Fault>
    ensures found { FindsMade S.Meaning result store.old store.new
        (λ l rows before. ShowsStates rows l → AreActivesFor mode run.now.applied.compile.items l before) }
    ensures spared { mode ≡ Quick → run.now.applied.compile.items ≡ [] → IfOk result (λ before. before ≡ None) }
    ensures unread { S.decks_read_of store.new ≡ S.decks_read_of store.old }
    ensures leaves { OnlyReads S.Meaning result store.old store.new }
{
    if mode == Mode::Quick && run.applied.compile.is_empty() {
        Ok(None)
    } else {
        Ok(Some(store.load_active(alloc)?))
    }
}

/// Applies a run to the decks that it needs.
fn apply_run(alloc: Global, part: Library, run: &Run<'_>) -> Result<AppliedRun, Fault>
    ensures ok { (l : LibraryView) → IsMade l → part ≡ part_of (decks_needed run.now l) l
        → IfOk result (λ applied. (reached : Reached) × IsAppliedRun run.now l part reached applied) }
    ensures refused { IfErr result (λ fault. FailsAt fault (applied run.now part)) }
{
    let mut library = part;
    let applied = apply(alloc, &mut library, run)?;
    Ok(AppliedRun { library, applied })
}

/// The compile file of a run: empty where no active cards are at hand.
fn compile_run(
    alloc: Global,
    mode: Mode,
    cache: &Cache,
    before: &Option<Actives>,
    run: &AppliedRun,
) -> Result<CompileFile, Fault>
    ensures ok { (lines : List LineView) (l loaded : LibraryView) (reached : Reached) → IsMade l
        → IsAppliedRun lines l loaded reached run.now
        → AreActivesFor mode run.now.applied.compile.items l before.now → IsRight run.now.library cache.now
        → IfOk result (λ file. compile_file_of mode reached.compile l reached.library ≡ Ok file) }
    ensures refused { (lines : List LineView) (l loaded : LibraryView) (reached : Reached) → IsMade l
        → IsAppliedRun lines l loaded reached run.now
        → AreActivesFor mode run.now.applied.compile.items l before.now → IsRight run.now.library cache.now
        → IfErr result (λ fault. FailsAt fault (compile_file_of mode reached.compile l reached.library)) }
    ensures lost { IfErr result (λ fault. fault.kind ≡ NoMemory → fault.at ≡ 0) }
{
    match before {
        Some(before) => {
            let after = cache.renew(&run.library, before)?;
            compile_active(alloc, &after, before, mode, &run.applied.compile)
        }
        None => Ok(CompileFile {
            bytes: Vec::new(alloc),
            lines: 0,
        }),
    }
}

/// The reply to an accepted run.
pub(crate) fn accepted_reply(
    alloc: Global,
    arrival: &Arrival<'_>,
    run: &AppliedRun,
    file: &CompileFile,
) -> Result<Reply, AllocError>
    ensures { (mode : Mode) (l : LibraryView) (done : Compiled) → IsMade l → check_arrival arrival.now ≡ Ok mode
        → compiled mode arrival.now.bytes l ≡ Ok done → IsSeen done run.now file.now
        → IfOk result (λ reply. reply ≡ (outcome_by arrival.now l (Ok done)).reply) }
{
    let idents = names(alloc, run.library.idents(), &run.applied.idents)?;
    let text = accepted_text(
        alloc,
        arrival.site,
        arrival.number,
        arrival.mode,
        &idents,
        &file.bytes,
        file.lines,
    )?;
    Ok(Reply {
        accepted: true,
        text,
    })
}

/// The names of the idents of these ages.
fn names(alloc: Global, idents: &[Ident], ages: &[Serial]) -> Result<Vec<Name>, AllocError>
    ensures { IfOk result (λ names. names.items ≡ map (name_of idents.now) ages.now) }
{
    let mut names = Vec::new(alloc);
    for age in ages {
        names.push(name_at(idents, *age).unwrap_or(Name::none()))?;
    }
    Ok(names)
}

/// A refused run has a reply and changes nothing. Out of memory is no refusal.
pub(crate) fn refused(
    alloc: Global,
    arrival: &Arrival<'_>,
    fault: Fault,
) -> Result<RunOutcome, Fault>
    requires { fault.kind ≡ NoMemory → fault.at ≡ 0 }
    ensures refusal { IfOk result (IsRefusal arrival.now fault) }
    ensures lost { IsOkUnless result (fault_at NoMemory 0) }
{
    if fault.kind == FaultKind::NoMemory {
        return Err(fault);
    }
    let text = refused_text(alloc, arrival.site, arrival.number, arrival.mode, fault)?;
    Ok(RunOutcome {
        changes: Vec::new(alloc),
        reply: Reply {
            accepted: false,
            text,
        },
        work: 0,
    })
}
