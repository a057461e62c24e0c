//! The row changes of a status update: statuses that are new or differ, statuses of cards that were deleted and
//! inserted again, and counts that differ.

ghost use Rattle.std.specs.Prelude.{◌≡◌, ◌++◌, Some, map, IfOk, OnOk};
ghost use Rattle.std.specs.List.{flat_map};
ghost use Rattle.upd_records.specs.Changes.{change_view};
ghost use Rattle.upd_core.specs.TargetCounts.{count_in};
ghost use Rattle.upd_yank.specs.Affected.{is_other};
ghost use Rattle.upd_yank.specs.Right.{kept_status};
ghost use Rattle.upd_yank.specs.StatusChanges.{all_repeated_statuses, count_changes, all_count_changes, update_changes, status_of_card};
ghost use Rattle.upd_yank.specs.StatusChanges.{status_changes, zero_changes};

use crate::cascade::{Before, UpdatedStatuses};
use crate::statuses::Statuses;
use std::alloc::{AllocError, Global};
use upd_core::{CardRef, Change, Target, TargetCounts};

/// The row changes of a status update, to be carried out after those of its run.
pub(crate) fn row_changes(
    alloc: Global,
    before: &Before,
    left: &UpdatedStatuses,
    run: &[Change],
) -> Result<Vec<Change>, AllocError>
    ensures { IfOk result (λ changes. map change_view changes.items ≡ update_changes before.now.statuses.now
        left.now.found.statuses.items left.now.statuses (map change_view run.now) before.now.counts.now
        left.now.found.counts) }
{
    let mut changes = Vec::new(alloc);
    add_status_changes(&mut changes, before.statuses, &left.found.statuses)?;
    add_repeated_statuses(&mut changes, &left.statuses, run)?;
    tell_counts(alloc, &mut changes, before.counts, &left.found.counts)?;
    Ok(changes)
}

/// Adds each status found that is new or differs from the known one.
fn add_status_changes(
    changes: &mut Vec<Change>,
    known: &Statuses,
    found: &[(CardRef, bool)],
) -> Result<(), AllocError>
    ensures { OnOk result (map change_view changes.new.items ≡ map change_view changes.old.items
        ++ status_changes (kept_status known.now) found.now) }
{
    for (card, active) in found {
        if is_other(*active, known.of(*card)) {
            push_status(changes, card, *active)?;
        }
    }
    Ok(())
}

/// Whether a status is new or differs.
fn is_other(now: bool, was: Option<bool>) -> bool
    ensures { result ≡ is_other now was }
{
    match was {
        Some(was) => was != now,
        None => true,
    }
}

fn push_status(changes: &mut Vec<Change>, card: &CardRef, active: bool) -> Result<(), AllocError>
    ensures { OnOk result (map change_view changes.new.items ≡ map change_view changes.old.items
        ++ status_of_card card.now (Some active)) }
{
    changes.push(Change::StatusNow {
        card: *card,
        active,
    })?;
    Ok(())
}

/// Adds the status of each card that the run deleted, with its status, and that exists after the run: its name was
/// purged and introduced again, or its diff was gone and new.
fn add_repeated_statuses(
    changes: &mut Vec<Change>,
    now: &Statuses,
    run: &[Change],
) -> Result<(), AllocError>
    ensures { OnOk result (map change_view changes.new.items ≡ map change_view changes.old.items
        ++ all_repeated_statuses (kept_status now.now) (map change_view run.now)) }
{
    for change in run {
        if let Change::CardGone(card) = change {
            push_kept(changes, now, card)?;
        }
    }
    Ok(())
}

fn push_kept(changes: &mut Vec<Change>, now: &Statuses, card: &CardRef) -> Result<(), AllocError>
    ensures { OnOk result (map change_view changes.new.items ≡ map change_view changes.old.items
        ++ status_of_card card.now (kept_status now.now card.now)) }
{
    match now.of(*card) {
        Some(active) => push_status(changes, card, active)?,
        None => {}
    }
    Ok(())
}

/// Adds the count of each target whose count differs from before.
fn tell_counts(
    alloc: Global,
    changes: &mut Vec<Change>,
    before: &TargetCounts,
    now: &TargetCounts,
) -> Result<(), AllocError>
    ensures { OnOk result (map change_view changes.new.items ≡ map change_view changes.old.items
        ++ all_count_changes before.now now.now) }
{
    add_listed_changes(changes, before, now, &now.all(alloc)?)?;
    add_zero_changes(changes, before, now, &before.all(alloc)?)?;
    Ok(())
}

fn add_listed_changes(
    changes: &mut Vec<Change>,
    before: &TargetCounts,
    now: &TargetCounts,
    listed: &[(Target, u32)],
) -> Result<(), AllocError>
    ensures { OnOk result (map change_view changes.new.items ≡ map change_view changes.old.items
        ++ flat_map (count_changes (count_in before.now) (count_in now.now)) listed.now) }
{
    for (target, _) in listed {
        let n = now.of(*target);
        if n != before.of(*target) {
            changes.push(Change::CountNow { target: *target, n })?;
        }
    }
    Ok(())
}

fn add_zero_changes(
    changes: &mut Vec<Change>,
    before: &TargetCounts,
    now: &TargetCounts,
    listed: &[(Target, u32)],
) -> Result<(), AllocError>
    ensures { OnOk result (map change_view changes.new.items ≡ map change_view changes.old.items
        ++ flat_map (zero_changes (count_in before.now) (count_in now.now)) listed.now) }
{
    for (target, _) in listed {
        if now.of(*target) == 0 && before.of(*target) != 0 {
            changes.push(Change::CountNow {
                target: *target,
                n: 0,
            })?;
        }
    }
    Ok(())
}
