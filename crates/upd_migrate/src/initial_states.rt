//! The statuses and counts of a library, as row changes.
ghost use Rattle.std.specs.Prelude.{◌≡◌, [], map, true, IfOk};
ghost use Rattle.std.specs.List.{AllByRecursion};
ghost use Rattle.std.specs.Result.{IsOkUnless};
ghost use Rattle.upd_core.specs.Sound.{IsSound};
ghost use Rattle.upd_records.specs.Changes.{change_view, done_all};
ghost use Rattle.upd_records.specs.Rows.{Rows, ShowsStates};
ghost use Rattle.upd_diff.specs.States.{row_changes_state};
ghost use Rattle.upd_text.specs.Faults.{fault_at};
ghost use Rattle.upd_text.specs.declared.fault.FaultKind.TheVariants.{NoMemory};

use std::alloc::Global;
use upd_apply::Applied;
use upd_core::{Change, Counted, Library};
use upd_diff::compare;
use upd_text::{Fault, FaultKind};
use upd_yank::Cache;

/// The changes that set the status of each card of a library and the count of each target: those of a status update
/// after one run that added everything. The only fault is NoMemory, also where there are 2^32 yank cards or more.
pub(crate) fn initial_states(alloc: Global, library: &Library) -> Result<Vec<Change>, Fault>
    ensures states { IsSound library.now → (rows : Rows) → rows.states ≡ [] → rows.counts ≡ [] → IfOk result
        (λ changes. ShowsStates (done_all (map change_view changes.items) rows) library.now) }
    ensures only { IfOk result (λ changes.
        AllByRecursion (λ c. row_changes_state c ≡ true) (map change_view changes.items)) }
    ensures err { IsOkUnless result (fault_at NoMemory 0) }
{
    if u32::try_from(library.yanks().len()).is_err() {
        return Err(FaultKind::NoMemory.without_line());
    }
    let nothing = Library::new(alloc);
    let brought = compare(alloc, &nothing, library)?;
    let run = Applied {
        idents: Vec::new(alloc),
        compile: Vec::new(alloc),
        touched: brought.touched,
        changes: Vec::new(alloc),
    };
    let mut cache = Cache::build(alloc, &nothing)?;
    let changes = cache.settle(&mut Counted::new(library), &run)?;
    Ok(changes)
}
