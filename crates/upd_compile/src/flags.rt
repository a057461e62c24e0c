//! Flags: a `bool` for each deck.

ghost use Rattle.std.specs.Prelude.{◌≡◌, ◌&&◌, ◌||◌, map, IfOk};
ghost use Rattle.std.specs.List.{list_any, zip};
ghost use Rattle.upd_compile.specs.Reach.{is_flagged};

use std::alloc::{AllocError, Global};

/// The conjunction of two lists of flags.
pub(crate) fn and_flags(
    alloc: Global,
    left: &[bool],
    right: &[bool],
) -> Result<Vec<bool>, AllocError>
    ensures { IfOk result (λ flags. flags.items ≡ map (λ pair. pair.0 && pair.1) (zip left.now right.now)) }
{
    left.iter()
        .zip(right)
        .map(|(left, right)| *left && *right)
        .collect(alloc)
}

/// The disjunction of three lists of flags.
pub(crate) fn any_of(
    alloc: Global,
    first: &[bool],
    second: &[bool],
    third: &[bool],
) -> Result<Vec<bool>, AllocError>
    ensures { IfOk result (λ flags. flags.items
        ≡ map (λ each. each.0.0 || each.0.1 || each.1) (zip (zip first.now second.now) third.now)) }
{
    first
        .iter()
        .zip(second)
        .zip(third)
        .map(|((first, second), third)| *first || *second || *third)
        .collect(alloc)
}

fn any_flagged(flags: &[bool], positions: &[usize]) -> bool
    ensures { result ≡ list_any (is_flagged flags.now) positions.now }
{
    positions
        .iter()
        .any(|position| is_flagged(flags, *position))
}

fn is_flagged(flags: &[bool], position: usize) -> bool
    ensures { result ≡ is_flagged flags.now position }
{
    flags.get(position).copied().unwrap_or(false)
}

/// Whether each list has a flagged position.
pub(crate) fn calls_flagged(
    alloc: Global,
    calls: &[Vec<usize>],
    flags: &[bool],
) -> Result<Vec<bool>, AllocError>
    ensures { IfOk result (λ found. found.items
        ≡ map (list_any (is_flagged flags.now)) (map (λ list. list.items) calls.now)) }
{
    let mut found = Vec::with_capacity(alloc, calls.len())?;
    for positions in calls {
        found.push(any_flagged(flags, positions))?;
    }
    Ok(found)
}
