//! Graph search: the positions that are reached from flagged ones.

ghost use Rattle.std.specs.Prelude.{◌≡◌, ◌==◌, ℕ, map, IfOk, OnOk};
ghost use Rattle.upd_compile.specs.Reach.{AreReached, VisitsMore, is_in, is_flagged};

use std::alloc::{AllocError, Global};

/// Flags all positions that are reached from the seeds along the lists of followers.
pub(crate) fn reached_positions(
    alloc: Global,
    followers: &[Vec<usize>],
    seeds: Vec<bool>,
) -> Result<Vec<bool>, AllocError>
    ensures { IfOk result (λ flags. AreReached (map (λ list. list.items) followers.now) seeds.items flags.items) }
{
    let mut work = flagged_positions(alloc, &seeds)?;
    let mut flags = seeds;
    while let Some(position) = work.pop() {
        if let Some(next) = followers.get(position) {
            visit_all(&mut flags, &mut work, next)?;
        }
    }
    Ok(flags)
}

/// The flagged positions.
fn flagged_positions(alloc: Global, flags: &[bool]) -> Result<Vec<usize>, AllocError>
    ensures { IfOk result (λ positions. (k : ℕ) → is_in positions.items k ≡ is_flagged flags.now k) }
{
    let mut positions = Vec::new(alloc);
    for (position, is_flagged) in flags.iter().enumerate() {
        if *is_flagged {
            positions.push(position)?;
        }
    }
    Ok(positions)
}

/// Flags these positions, and adds those that weren't flagged before to the work.
fn visit_all(
    flags: &mut Vec<bool>,
    work: &mut Vec<usize>,
    positions: &[usize],
) -> Result<(), AllocError>
    ensures { OnOk result
        (VisitsMore (is_in positions.now) flags.old.items flags.new.items work.old.items work.new.items) }
{
    for position in positions {
        visit(flags, work, *position)?;
    }
    Ok(())
}

fn visit(flags: &mut Vec<bool>, work: &mut Vec<usize>, position: usize) -> Result<(), AllocError>
    ensures { OnOk result
        (VisitsMore (λ k. position == k) flags.old.items flags.new.items work.old.items work.new.items) }
{
    if position < flags.len() && !flags[position] {
        flags[position] = true;
        work.push(position)?;
    }
    Ok(())
}
