//! The callers of each deck, from the calls of each deck.

ghost use Rattle.std.specs.Prelude.{◌≡◌, ◌==◌, ◌&&◌, [], map, length, replicate, IfOk, OnOk};
ghost use Rattle.upd_compile.specs.Reach.{AreCallers, FollowsMore, is_in};

use std::alloc::{AllocError, Global};

/// For each position the flagged positions that call it. Calls of positions past the end are ignored.
pub(crate) fn callers(
    alloc: Global,
    calls: &[Vec<usize>],
    flags: &[bool],
) -> Result<Vec<Vec<usize>>, AllocError>
    requires { length flags.now ≡ length calls.now }
    ensures { IfOk result
        (λ callers. AreCallers (map (λ list. list.items) calls.now) flags.now
        (map (λ list. list.items) callers.items)) }
{
    let mut callers = empty_lists(alloc, calls.len())?;
    for position in 0..calls.len() {
        if flags[position] {
            add_to_all(&mut callers, &calls[position], position)?;
        }
    }
    Ok(callers)
}

fn empty_lists(alloc: Global, count: usize) -> Result<Vec<Vec<usize>>, AllocError>
    ensures { IfOk result (λ lists. map (λ list. list.items) lists.items ≡ replicate count []) }
{
    let mut lists = Vec::with_capacity(alloc, count)?;
    for _position in 0..count {
        lists.push(Vec::new(alloc))?;
    }
    Ok(lists)
}

/// Adds a caller to the lists of these positions.
fn add_to_all(
    lists: &mut Vec<Vec<usize>>,
    positions: &[usize],
    caller: usize,
) -> Result<(), AllocError>
    ensures { OnOk result
        (FollowsMore (λ c d. is_in positions.now c && (caller == d)) (map (λ list. list.items) lists.old.items)
        (map (λ list. list.items) lists.new.items)) }
{
    for position in positions {
        add_to(lists, *position, caller)?;
    }
    Ok(())
}

fn add_to(lists: &mut Vec<Vec<usize>>, position: usize, caller: usize) -> Result<(), AllocError>
    ensures { OnOk result
        (FollowsMore (λ c d. (position == c) && (caller == d)) (map (λ list. list.items) lists.old.items)
        (map (λ list. list.items) lists.new.items)) }
{
    if position < lists.len() {
        let list = &mut lists[position];
        list.push(caller)?;
    }
    Ok(())
}
