//! The cache of statuses and counts: built from histories or from rows, and updated after each run.

ghost use Rattle.std.specs.Prelude.{◌≡◌, ◌<◌, ◌≤◌, ◌^◌, length, map, true, IfOk, OnErr, OnOk};
ghost use Rattle.std.specs.List.{AllByRecursion};
ghost use Rattle.std.specs.Result.{IsOkUnless};
ghost use Rattle.upd_core.specs.Library.{LibraryView};
ghost use Rattle.upd_core.specs.declared.target.Target.{Target};
ghost use Rattle.upd_core.specs.Sound.{IsSound};
ghost use Rattle.upd_core.specs.TargetCounts.{count_in};
ghost use Rattle.upd_text.specs.Faults.{fault_at};
ghost use Rattle.upd_text.specs.declared.fault.FaultKind.TheVariants.{NoMemory};
ghost use Rattle.upd_records.specs.Changes.{change_view, done_all};
ghost use Rattle.upd_records.specs.Rows.{Rows, ShowsStates};
ghost use Rattle.upd_diff.specs.States.{TakeGone, row_changes_state};
ghost use Rattle.upd_yank.specs.Affected.{affected, altered};
ghost use Rattle.upd_yank.specs.Enough.{IsEnough};
ghost use Rattle.upd_yank.specs.Renewed.{renewed};
ghost use Rattle.upd_yank.specs.Right.{IsRight, IsRunBetween, AreStatesOf, kept_status, put_counts};

use crate::cascade::{Before, update_statuses};
use crate::renewing::renewed_decks;
use crate::status_changes::row_changes;
use crate::statuses::Statuses;
use crate::touched_set::Touched;
use std::alloc::{AllocError, Global};
use std::marker::Model;
use upd_apply::Applied;
use upd_core::{Actives, CardRef, Change, Counted, Fault, Library, States, Target, TargetCounts};

/// Statuses of cards and counts of targets: those of a whole library, or of the cards that were loaded for a run.
pub struct Cache {
    alloc: Global,
    statuses: Statuses,
    counts: TargetCounts,
    work: u64,
}

// By hand: see CONTRIBUTING.md.
impl Drop for Cache {
    fn drop(self) {
        let Cache {
            alloc: _,
            statuses: _,
            counts: _,
            work: _,
        } = self;
    }
}

impl Model for Cache {
    ghost use Rattle.upd_yank.specs.Right.{CacheView};

    ghost Value = { CacheView };

    ghost view = { λ c. record { states = c.statuses; counts = c.counts; work = c.work } };
}

impl Cache {
    /// The cache of a library, from its histories.
    pub fn build(alloc: Global, library: &Library) -> Result<Cache, Fault>
        ensures right { IsSound library.now → length library.now.yanks < 2 ^ 32 → IfOk result (IsRight library.now) }
        ensures work { IfOk result (λ cache. cache.work ≡ 0) }
        ensures err { IsOkUnless result (fault_at NoMemory 0) }
    {
        let mut counted = Counted::new(library);
        let mut touched = Touched::new(alloc);
        touched.add_all(&counted.yanks(alloc)?)?;
        touched.add_all(&counted.others(alloc)?)?;
        let before = Before {
            touched: &touched,
            statuses: &Statuses::new(alloc),
            counts: &TargetCounts::new(alloc),
        };
        let left = update_statuses(alloc, &mut counted, &before)?;
        Ok(Cache {
            alloc,
            statuses: left.statuses,
            counts: left.found.counts,
            work: 0,
        })
    }

    /// The cache that rows of a store hold. Where they show the statuses of a library, it is the cache of that library.
    pub fn of_rows(alloc: Global, rows: &States) -> Result<Cache, Fault>
        ensures right { (l : LibraryView) → AreStatesOf rows.now l → IfOk result (IsRight l) }
        ensures work { IfOk result (λ cache. cache.work ≡ 0) }
        ensures err { IsOkUnless result (fault_at NoMemory 0) }
    {
        let statuses = Statuses::of_rows(alloc, &rows.states)?;
        let mut counts = TargetCounts::new(alloc);
        put_counts(&mut counts, &rows.counts)?;
        Ok(Cache {
            alloc,
            statuses,
            counts,
            work: 0,
        })
    }

    /// Updates the cache after a run. `counted` is the library after the run, with no history read, or a part of it
    /// that is enough (`IsEnough`); statuses of cards that the part lacks stay.
    ///
    /// Returns row changes that update the stored statuses and counts, to be carried out after those of the run:
    /// statuses that are new or differ, statuses of cards that the run deleted and inserted again, and counts that
    /// differ.
    ///
    /// NoMemory leaves the cache unchanged; some histories may have been read then.
    pub fn settle(
        &mut self,
        counted: &mut Counted<'_>,
        applied: &Applied,
    ) -> Result<Vec<Change>, Fault>
        ensures right { (old new : LibraryView) → IsEnough applied.now.touched.items old new counted.old.library →
            IsRunBetween old new self.old applied.now.touched.items → OnOk result (IsRight new self.new) }
        ensures work { (old new : LibraryView) → IsEnough applied.now.touched.items old new counted.old.library →
            IsRunBetween old new self.old applied.now.touched.items →
            OnOk result (self.new.work ≡ length (affected applied.now.touched.items old new)) }
        ensures least { (old new : LibraryView) → IsEnough applied.now.touched.items old new counted.old.library →
            IsRunBetween old new self.old applied.now.touched.items →
            OnOk result (length (altered old new) ≤ self.new.work) }
        ensures changes { (old new : LibraryView) → IsEnough applied.now.touched.items old new counted.old.library →
            IsRunBetween old new self.old applied.now.touched.items →
            TakeGone old new (map change_view applied.now.changes.items) →
            (rows : Rows) → ShowsStates rows old → IfOk result (λ changes.
            ShowsStates (done_all (map change_view changes.items) (done_all (map change_view applied.now.changes.items)
            rows)) new) }
        ensures only { IfOk result (λ changes.
            AllByRecursion (λ c. row_changes_state c ≡ true) (map change_view changes.items)) }
        ensures reads { counted.old.histories_read ≡ 0 → OnOk result (counted.new.histories_read ≡ self.new.work) }
        ensures err { IsOkUnless result (fault_at NoMemory 0) × OnErr result (self.new ≡ self.old) }
    {
        let touched = Touched::of(self.alloc, &applied.touched)?;
        let before = Before {
            touched: &touched,
            statuses: &self.statuses,
            counts: &self.counts,
        };
        let left = update_statuses(self.alloc, counted, &before)?;
        let changes = row_changes(self.alloc, &before, &left, &applied.changes)?;
        self.work = left.found.statuses.len() as u64;
        self.statuses = left.statuses;
        self.counts = left.found.counts;
        Ok(changes)
    }

    /// The active cards of every held deck after a run: those of a deck in `part` by the cached statuses, those of any
    /// other deck from `before`.
    pub fn renew(&self, part: &Library, before: &Actives) -> Result<Actives, Fault>
        ensures ok { IfOk result (λ actives. actives ≡ renewed self.now.states part.now before.now) }
        ensures err { IsOkUnless result (fault_at NoMemory 0) }
    {
        let idents = Vec::from_slice(self.alloc, part.idents())?;
        let decks = renewed_decks(self.alloc, &self.statuses, part, before)?;
        Ok(Actives { idents, decks })
    }

    /// Whether a card is active; for a yank card, whether it is live. None where there is no such card.
    pub fn active(&self, card: CardRef) -> Option<bool>
        ensures { result ≡ kept_status self.now.states card }
    {
        self.statuses.of(card)
    }

    /// The number of live yank cards that have a target.
    pub fn count(&self, target: Target) -> u32
        ensures { result ≡ count_in self.now.counts target }
    {
        self.counts.of(target)
    }

    /// The number of cards that the last update examined; 0 before one.
    pub fn work(&self) -> u64
        ensures { result ≡ self.now.work }
    {
        self.work
    }
}

fn put_counts(counts: &mut TargetCounts, rows: &[(Target, u32)]) -> Result<(), AllocError>
    ensures { OnOk result ((t : Target) → count_in counts.new t ≡ put_counts rows.now (count_in counts.old) t) }
{
    for (target, count) in rows {
        counts.put(*target, *count)?;
    }
    Ok(())
}
