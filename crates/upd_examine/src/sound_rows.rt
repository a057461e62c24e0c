//! Whether the rows of a library are those of a sound, whole library.
ghost use Rattle.std.specs.Prelude.{◌≡◌, ◌↔◌, ◌&&◌, IfOk, IsTrue};
ghost use Rattle.std.specs.Result.{IsOkUnless};
ghost use Rattle.upd_text.specs.Faults.{fault_at};
ghost use Rattle.upd_text.specs.declared.fault.FaultKind.TheVariants.{NoMemory};
ghost use Rattle.upd_examine.specs.Findings.{AreSoundRows};

use crate::conjunctions::all_four;
use crate::copies::copy_rows;
use crate::grown::is_grown;
use crate::same_rows::are_library_rows;
use crate::stored_runs::are_runs_sound;
use crate::stored_states::are_states_of;
use std::alloc::Global;
use upd_core::{Fault, States};
use upd_records::{LibraryRows, MarkRow, RunRow};
use upd_row_store::assembled;

/// Whether some sound, whole library, as runs leave one, has exactly these rows, statuses and counts, and stored runs and
/// marks are right.
/// The only error is NoMemory.
pub fn are_sound_rows(
    alloc: Global,
    rows: &LibraryRows,
    states: &States,
    runs: &[RunRow],
    marks: &[MarkRow],
) -> Result<bool, Fault>
    ensures ok { IfOk result (λ are. IsTrue are ↔ AreSoundRows rows.now states.now runs.now marks.now) }
    ensures err { IsOkUnless result (fault_at NoMemory 0) }
{
    let copy = copy_rows(alloc, rows)?;
    let library = assembled(alloc, copy)?;
    let own = are_library_rows(alloc, &library, rows)?;
    let grown = is_grown(&library);
    let right = are_states_of(alloc, &library, states)?;
    let kept = are_runs_sound(alloc, runs, marks)?;
    Ok(all_four(own, grown, right, kept))
}
