//! The number of live yank cards that have each target. A target with a count above 0 is in force.

ghost use Rattle.std.specs.Prelude.{◌≡◌, ◌<◌, ◌+◌, ◌^◌, [], if◌then◌else◌, count_by, IfOk, OnOk};
ghost use Rattle.upd_core.specs.declared.target.Target.{Target};
ghost use Rattle.upd_core.specs.Reach.{is_flipped};
ghost use Rattle.upd_core.specs.TargetCounts.{count_in};
ghost use Rattle.upd_core.specs.Targets.{is_same};

use crate::target::Target;
use std::alloc::{AllocError, Global};
use std::collections::BTreeMap;
use std::marker::Model;

/// A count for each target; one that isn't listed has count 0.
#[derive(Drop)]
pub struct TargetCounts {
    counts: BTreeMap<Target, u32>,
}

impl Model for TargetCounts {
    ghost use Rattle.std.specs.Prelude.{List, ℕ};
    ghost use Rattle.upd_core.specs.declared.target.Target.{Target};

    ghost Value = { List (Target × ℕ) };

    ghost view = { λ c. c.counts.entries };
}

impl TargetCounts {
    /// No counts: each target has count 0.
    pub fn new(alloc: Global) -> TargetCounts
        ensures { result ≡ [] }
    {
        TargetCounts {
            counts: BTreeMap::new(alloc),
        }
    }

    /// The count of a target.
    pub fn of(&self, target: Target) -> u32
        ensures { result ≡ count_in self.now target }
    {
        match self.counts.get(&target) {
            Some(count) => *count,
            None => 0,
        }
    }

    /// Sets the count of a target.
    pub fn put(&mut self, target: Target, count: u32) -> Result<(), AllocError>
        ensures { OnOk result ((t : Target) →
            count_in self.new t ≡ (if is_same target t then count else count_in self.old t)) }
    {
        self.counts.insert(target, count)?;
        Ok(())
    }

    /// The counts that have been set, in order of target.
    pub fn all(&self, alloc: Global) -> Result<Vec<(Target, u32)>, AllocError>
        ensures { IfOk result (λ all. all.items ≡ self.now) }
    {
        let mut all = Vec::with_capacity(alloc, self.counts.len())?;
        for (target, count) in &self.counts {
            all.push((*target, *count))?;
        }
        Ok(all)
    }

    /// Adds 1 for each of these targets. A count saturates at `u32::MAX`.
    pub fn raise(&mut self, targets: &[Target]) -> Result<(), AllocError>
        ensures { OnOk result ((t : Target) → count_in self.old t + count_by (is_same t) targets.now < 2 ^ 32 →
            count_in self.new t ≡ count_in self.old t + count_by (is_same t) targets.now) }
    {
        for target in targets {
            let count = self.of(*target).saturating_add(1);
            self.put(*target, count)?;
        }
        Ok(())
    }

    /// Whether the count of a target is 0 in exactly one of the two.
    pub fn is_flipped(before: &TargetCounts, now: &TargetCounts, target: Target) -> bool
        ensures { result ≡ is_flipped (count_in before.now) (count_in now.now) target }
    {
        (before.of(target) == 0) != (now.of(target) == 0)
    }
}
