//! Whether stored statuses and counts are those of a library.
ghost use Rattle.std.specs.Prelude.{◌≡◌, ◌↔◌, ◌&&◌, ◌<◌, ◌^◌, ◌++◌, ◌==◌, length, map, IfOk, IsTrue};
ghost use Rattle.std.specs.List.{list_all};
ghost use Rattle.std.specs.Result.{IsOkUnless};
ghost use Rattle.upd_text.specs.Faults.{fault_at};
ghost use Rattle.upd_text.specs.declared.fault.FaultKind.TheVariants.{NoMemory};
ghost use Rattle.upd_core.specs.Sound.{IsSound};
ghost use Rattle.upd_core.specs.TargetCounts.{count_in};
ghost use Rattle.upd_core.specs.declared.target.Target.{Target};
ghost use Rattle.upd_records.specs.Rows.{IsSame};
ghost use Rattle.upd_yank.specs.Right.{AreStatesOf, put_counts};
ghost use Rattle.upd_examine.specs.StateTests.{AreCounts, is_count, own_state, own_states};

use crate::conjunctions::all_three;
use crate::same_rows::are_same;
use crate::sound_tests::are_apart;
use std::alloc::{AllocError, Global};
use upd_core::{Card, CardRef, Counted, CountedCard, Fault, Library, States, Target, TargetCounts};
use upd_yank::Cache;

/// Adds the statuses that a cache has of cards.
fn add_states(
    states: &mut Vec<(CardRef, bool)>,
    cache: &Cache,
    cards: &[CountedCard],
) -> Result<(), AllocError>
    ensures { IfOk result (λ _. states.new.items ≡ states.old.items ++ map (own_state cache.now.states) cards.now) }
{
    for card in cards {
        let active = cache.active(card.reference()).unwrap_or(false);
        states.push((card.reference(), active))?;
    }
    Ok(())
}

/// The status of each card of a library, by a cache.
pub fn own_states(
    alloc: Global,
    library: &Library,
    cache: &Cache,
) -> Result<Vec<(CardRef, bool)>, AllocError>
    ensures { IfOk result (λ states. states.items ≡ own_states cache.now.states library.now) }
{
    let counted = Counted::new(library);
    let yanks = counted.yanks(alloc)?;
    let others = counted.others(alloc)?;
    let mut states = Vec::new(alloc);
    add_states(&mut states, cache, &yanks)?;
    add_states(&mut states, cache, &others)?;
    Ok(states)
}

/// Whether stored statuses are those that a cache has of the cards of a library, each as often.
fn are_statuses(
    alloc: Global,
    library: &Library,
    cache: &Cache,
    stored: &[(CardRef, bool)],
) -> Result<bool, AllocError>
    ensures { IfOk result (λ are. IsTrue are ↔ IsSame stored.now (own_states cache.now.states library.now)) }
{
    let own = own_states(alloc, library, cache)?;
    let stored = Vec::from_slice(alloc, stored)?;
    Ok(are_same(stored, own))
}

/// The targets of stored counts.
fn targets_of(alloc: Global, stored: &[(Target, u32)]) -> Result<Vec<Target>, AllocError>
    ensures { IfOk result (λ targets. targets.items ≡ map (λ p. p.0) stored.now) }
{
    stored.iter().map(|row| row.0).collect(alloc)
}

/// Stored counts by target; the last of a target counts.
fn by_target(alloc: Global, stored: &[(Target, u32)]) -> Result<TargetCounts, AllocError>
    ensures { IfOk result (λ counts. (t : Target) → count_in counts t ≡ put_counts stored.now (λ _. 0) t) }
{
    let mut counts = TargetCounts::new(alloc);
    for (target, count) in stored {
        counts.put(*target, *count)?;
    }
    Ok(counts)
}

/// Whether each stored count is that of its target, and not 0.
fn are_each_right(cache: &Cache, stored: &[(Target, u32)]) -> bool
    ensures { result ≡ list_all (is_count cache.now.counts) stored.now }
{
    stored
        .iter()
        .all(|row| row.1 != 0 && row.1 == cache.count(row.0))
}

/// Whether the counts of targets are those that a cache has.
fn are_counted(cache: &Cache, counts: &TargetCounts, targets: &[Target]) -> bool
    ensures { result ≡ list_all (λ t. count_in counts.now t == count_in cache.now.counts t) targets.now }
{
    targets
        .iter()
        .all(|target| counts.of(*target) == cache.count(*target))
}

/// Whether the counts of the targets of yank cards are those that a cache has.
fn are_all_counted(cache: &Cache, counts: &TargetCounts, yanks: &[Card]) -> bool
    ensures { result ≡ list_all (λ c. list_all (λ t. count_in counts.now t == count_in cache.now.counts t) c.targets) yanks.now }
{
    yanks
        .iter()
        .all(|card| are_counted(cache, counts, &card.targets))
}

/// Whether stored counts are those that a cache has of the targets of yank cards, one each.
fn are_counts(
    alloc: Global,
    yanks: &[Card],
    cache: &Cache,
    stored: &[(Target, u32)],
) -> Result<bool, AllocError>
    ensures { IfOk result (λ are. IsTrue are ↔ AreCounts cache.now.counts stored.now yanks.now) }
{
    let targets = targets_of(alloc, stored)?;
    let apart = are_apart(targets);
    let each = are_each_right(cache, stored);
    let counts = by_target(alloc, stored)?;
    let all = are_all_counted(cache, &counts, yanks);
    Ok(all_three(apart, each, all))
}

/// Whether these two hold.
fn both_hold(a: bool, b: bool) -> bool
    ensures { result ≡ (a && b) }
{
    a && b
}

/// Whether stored statuses and counts are those of a library. The only error is NoMemory.
pub fn are_states_of(alloc: Global, library: &Library, stored: &States) -> Result<bool, Fault>
    ensures ok { IsSound library.now → length library.now.yanks < 2 ^ 32
        → IfOk result (λ are. IsTrue are ↔ AreStatesOf stored.now library.now) }
    ensures err { IsOkUnless result (fault_at NoMemory 0) }
{
    let cache = Cache::build(alloc, library)?;
    let statuses = are_statuses(alloc, library, &cache, &stored.states)?;
    let counts = are_counts(alloc, library.yanks(), &cache, &stored.counts)?;
    Ok(both_hold(statuses, counts))
}
