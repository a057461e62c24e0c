//! The cascade: `YANK$$$` from the youngest card to the oldest, then the other cards. No card is examined twice, and
//! none is examined that is neither touched nor reached by a flipped target.

ghost use Rattle.std.specs.Prelude.{◌≡◌, ◌↔◌, ℕ, ◌+◌, ◌<◌, ◌^◌, ◌==◌, [], ◌∷◌, ◌++◌, if◌then◌else◌, length, count_by};
ghost use Rattle.std.specs.Prelude.{true, IfOk, None, OnOk, Some};
ghost use Rattle.std.specs.List.{list_any};
ghost use Rattle.upd_core.specs.Counted.{one_more, others_of, yanks_of};
ghost use Rattle.upd_core.specs.declared.target.Target.{Target};
ghost use Rattle.upd_core.specs.Reach.{is_flipped};
ghost use Rattle.upd_core.specs.Status.{stays_on};
ghost use Rattle.upd_core.specs.TargetCounts.{count_in, count_on};
ghost use Rattle.upd_core.specs.Targets.{is_same};
ghost use Rattle.upd_yank.specs.Affected.{is_touched};
ghost use Rattle.upd_yank.specs.Cascade.{found_of, found_others, found_yanks, is_active_by, is_due, is_taken_by};
ghost use Rattle.upd_yank.specs.Cascade.{live_now, status_now, views};
ghost use Rattle.upd_yank.specs.Cascade.{ArePut, found_of_all};
ghost use Rattle.upd_yank.specs.Right.{AreCountable, kept_status, was_active};

use crate::statuses::Statuses;
use crate::touched_set::Touched;
use std::alloc::{AllocError, Global};
use upd_core::{CardRef, Counted, CountedCard, Entry, Serial, Target, TargetCounts};

/// The input of the cascade: the touched cards, and the statuses and counts before the run.
#[derive(Drop)]
pub(crate) struct Before<'a> {
    pub(crate) touched: &'a Touched,
    pub(crate) statuses: &'a Statuses,
    pub(crate) counts: &'a TargetCounts,
}

/// The results of the cascade so far: the counts of the live yank cards, and the status of each card examined.
#[derive(Drop)]
pub(crate) struct Found {
    pub(crate) counts: TargetCounts,
    pub(crate) statuses: Vec<(CardRef, bool)>,
}

/// Whether an ident is taken in a deck.
fn is_taken(counts: &TargetCounts, deck: Serial, ident: Serial) -> bool
    ensures { result ≡ is_taken_by (count_in counts.now) deck ident }
{
    counts.of(Target::Set(ident)) != 0 || counts.of(Target::SetIn(ident, deck)) != 0
}

/// Whether a history stays on in a deck: the last entry of an ident that isn't taken there decides.
fn stays_on(counts: &TargetCounts, deck: Serial, history: &[Entry]) -> bool
    ensures { result ≡ stays_on (is_taken_by (count_in counts.now) deck) history.now }
{
    for i in (0..history.len()).rev() {
        if !is_taken(counts, deck, history[i].ident) {
            return history[i].active;
        }
    }
    false
}

/// Reads the history of a card, and returns whether it is active by these counts.
fn judge<'a>(counted: &mut Counted<'a>, counts: &TargetCounts, card: &CountedCard<'a>) -> bool
    ensures active { result ≡ is_active_by (count_in counts.now) card.now.deck card.now.view }
    ensures reads { counted.new ≡ one_more counted.old }
{
    let history = counted.history_of(card);
    stays_on(counts, card.deck(), history) && counts.of(Target::Deck(card.deck())) == 0
}

/// Whether a card is due to be examined: it is touched, or a flipped target reaches it.
fn is_due(before: &Before, now: &TargetCounts, card: &CountedCard) -> bool
    ensures { result ≡ is_due (is_touched before.now.touched.now) (count_in before.now.counts.now)
        (count_in now.now) card.now }
{
    before.touched.has(card.reference()) || card.is_reached(before.counts, now)
}

/// The new status of a card that is due, which is added to what is found; None where it isn't due.
fn judge_if_due<'a>(
    counted: &mut Counted<'a>,
    before: &Before,
    found: &mut Found,
    card: &CountedCard<'a>,
) -> Result<Option<bool>, AllocError>
    ensures active { IfOk result (λ active. active
        ≡ (if is_due (is_touched before.now.touched.now) (count_in before.now.counts.now)
        (count_in found.old.counts) card.now
        then Some (is_active_by (count_in found.old.counts) card.now.deck card.now.view) else None)) }
    ensures counts { OnOk result (found.new.counts ≡ found.old.counts) }
    ensures statuses { OnOk result (found.new.statuses.items ≡ found.old.statuses.items
        ++ (if is_due (is_touched before.now.touched.now) (count_in before.now.counts.now)
        (count_in found.old.counts) card.now
        then found_of (count_in found.old.counts) card.now ∷ [] else [])) }
    ensures reads { OnOk result (counted.new
        ≡ (if is_due (is_touched before.now.touched.now) (count_in before.now.counts.now)
        (count_in found.old.counts) card.now
        then one_more counted.old else counted.old)) }
{
    if is_due(before, &found.counts, card) {
        let active = judge(counted, &found.counts, card);
        found.statuses.push((card.reference(), active))?;
        Ok(Some(active))
    } else {
        Ok(None)
    }
}

/// The status of a card: the new one if it is due, else the one before.
fn status_now<'a>(
    counted: &mut Counted<'a>,
    before: &Before,
    found: &mut Found,
    card: &CountedCard<'a>,
) -> Result<bool, AllocError>
    ensures active { IfOk result (λ active. active
        ≡ status_now (is_touched before.now.touched.now) (was_active before.now.statuses.now)
        (count_in before.now.counts.now) (count_in found.old.counts) card.now) }
    ensures counts { OnOk result (found.new.counts ≡ found.old.counts) }
    ensures statuses { OnOk result (found.new.statuses.items ≡ found.old.statuses.items
        ++ (if is_due (is_touched before.now.touched.now) (count_in before.now.counts.now)
        (count_in found.old.counts) card.now
        then found_of (count_in found.old.counts) card.now ∷ [] else [])) }
    ensures reads { OnOk result (counted.new
        ≡ (if is_due (is_touched before.now.touched.now) (count_in before.now.counts.now)
        (count_in found.old.counts) card.now
        then one_more counted.old else counted.old)) }
{
    match judge_if_due(counted, before, found, card)? {
        Some(active) => Ok(active),
        None => Ok(before.statuses.of(card.reference()).unwrap_or(false)),
    }
}

/// Updates a card of `YANK$$$`. Its targets are counted if it is live.
fn update_yank<'a>(
    counted: &mut Counted<'a>,
    before: &Before,
    found: &mut Found,
    card: &CountedCard<'a>,
) -> Result<(), AllocError>
    ensures counts { OnOk result ((t : Target) → count_in found.old.counts t
        + count_by (is_same t) card.now.view.targets < 2 ^ 32 →
        count_in found.new.counts t ≡ count_in found.old.counts t
        + (if status_now (is_touched before.now.touched.now) (was_active before.now.statuses.now)
        (count_in before.now.counts.now) (count_in found.old.counts) card.now
        then count_by (is_same t) card.now.view.targets else 0)) }
    ensures statuses { OnOk result (found.new.statuses.items ≡ found.old.statuses.items
        ++ (if is_due (is_touched before.now.touched.now) (count_in before.now.counts.now)
        (count_in found.old.counts) card.now
        then found_of (count_in found.old.counts) card.now ∷ [] else [])) }
    ensures reads { OnOk result (counted.new
        ≡ (if is_due (is_touched before.now.touched.now) (count_in before.now.counts.now)
        (count_in found.old.counts) card.now
        then one_more counted.old else counted.old)) }
{
    if status_now(counted, before, found, card)? {
        found.counts.raise(card.targets())?;
    }
    Ok(())
}

/// Updates `YANK$$$` from the youngest card to the oldest: what can take an entry of a card is younger than the card,
/// so its status is known before the card is examined.
fn update_yanks<'a>(
    alloc: Global,
    counted: &mut Counted<'a>,
    before: &Before,
    yanks: &[CountedCard<'a>],
) -> Result<Found, AllocError>
    ensures counts { AreCountable (views yanks.now) → IfOk result (λ found. (t : Target) → count_in found.counts t
        ≡ count_on (live_now (is_touched before.now.touched.now) (was_active before.now.statuses.now)
        (count_in before.now.counts.now) yanks.now) t) }
    ensures statuses { AreCountable (views yanks.now) → IfOk result (λ found. found.statuses.items
        ≡ found_yanks (is_touched before.now.touched.now) (was_active before.now.statuses.now)
        (count_in before.now.counts.now) yanks.now) }
    ensures reads { counted.old.histories_read + length yanks.now < 2 ^ 64 →
        IfOk result (λ found. counted.new.histories_read ≡ counted.old.histories_read + length found.statuses.items) }
{
    let mut found = Found {
        counts: TargetCounts::new(alloc),
        statuses: Vec::new(alloc),
    };
    for i in (0..yanks.len()).rev() {
        update_yank(counted, before, &mut found, &yanks[i])?;
    }
    Ok(found)
}

/// Whether some count is 0 in exactly one of the two.
fn has_flipped(alloc: Global, before: &TargetCounts, now: &TargetCounts) -> Result<bool, AllocError>
    ensures { IfOk result (λ flipped. (flipped ≡ true)
        ↔ ((t : Target) × (is_flipped (count_in before.now) (count_in now.now) t ≡ true))) }
{
    let had = before.all(alloc)?;
    let has = now.all(alloc)?;
    Ok(has_flipped_of(before, now, &had) || has_flipped_of(before, now, &has))
}

fn has_flipped_of(before: &TargetCounts, now: &TargetCounts, listed: &[(Target, u32)]) -> bool
    ensures { result ≡ list_any (λ p. is_flipped (count_in before.now) (count_in now.now) p.0) listed.now }
{
    for (target, _) in listed {
        if TargetCounts::is_flipped(before, now, *target) {
            return true;
        }
    }
    false
}

/// Examines each of these cards that is due, by the final counts. Where no count flipped, only touched cards are due.
fn judge_others<'a>(
    alloc: Global,
    counted: &mut Counted<'a>,
    before: &Before,
    found: &mut Found,
    cards: &[CountedCard<'a>],
) -> Result<(), AllocError>
    ensures counts { OnOk result (found.new.counts ≡ found.old.counts) }
    ensures statuses { OnOk result (found.new.statuses.items ≡ found.old.statuses.items
        ++ found_others (is_touched before.now.touched.now) (count_in before.now.counts.now)
        (count_in found.old.counts) cards.now) }
    ensures reads { counted.old.histories_read + length cards.now < 2 ^ 64 → OnOk result (counted.new.histories_read
        + length found.old.statuses.items
        ≡ counted.old.histories_read + length found.new.statuses.items) }
{
    let flipped = has_flipped(alloc, before.counts, &found.counts)?;
    for card in cards {
        if !flipped && !before.touched.has(card.reference()) {
            continue;
        }
        judge_if_due(counted, before, found, card)?;
    }
    Ok(())
}

/// The results of a status update: statuses, counts, and what was found of the cards examined.
#[derive(Drop)]
pub(crate) struct UpdatedStatuses {
    pub(crate) statuses: Statuses,
    pub(crate) found: Found,
}

/// The statuses of all cards and the counts of all targets after a run. On a whole library a card that is gone has no
/// status.
pub(crate) fn update_statuses<'a>(
    alloc: Global,
    counted: &mut Counted<'a>,
    before: &Before,
) -> Result<UpdatedStatuses, AllocError>
    ensures counts { AreCountable counted.old.library.yanks → IfOk result (λ left. (t : Target) →
        count_in left.found.counts t
        ≡ count_on (live_now (is_touched before.now.touched.now) (was_active before.now.statuses.now)
        (count_in before.now.counts.now) (yanks_of counted.old.library)) t) }
    ensures found { AreCountable counted.old.library.yanks → IfOk result (λ left. left.found.statuses.items
        ≡ found_of_all (is_touched before.now.touched.now) (was_active before.now.statuses.now)
        (count_in before.now.counts.now) counted.old.library) }
    ensures statuses { IfOk result (λ left. ArePut (kept_status before.now.statuses.now)
        counted.old.library.rest.cards (yanks_of counted.old.library) (others_of counted.old.library) left.found.statuses.items left.statuses) }
    ensures reads { counted.old.histories_read ≡ 0 → IfOk result (λ left. counted.new.histories_read ≡ length left.found.statuses.items) }
{
    let rest = counted.rest().cards;
    let yanks = counted.yanks(alloc)?;
    let others = counted.others(alloc)?;
    let mut found = update_yanks(alloc, counted, before, &yanks)?;
    judge_others(alloc, counted, before, &mut found, &others)?;
    let statuses = put_found(
        alloc,
        before.statuses,
        rest,
        &yanks,
        &others,
        &found.statuses,
    )?;
    Ok(UpdatedStatuses { statuses, found })
}

/// The known statuses, updated by those found. Where some cards aren't loaded, every known status stays. Where all are
/// loaded, and there are then as many statuses as cards, no card is gone; otherwise only the statuses of these cards
/// are kept.
fn put_found(
    alloc: Global,
    known: &Statuses,
    rest: usize,
    yanks: &[CountedCard],
    others: &[CountedCard],
    found: &[(CardRef, bool)],
) -> Result<Statuses, AllocError>
    ensures { IfOk result (λ statuses. ArePut (kept_status known.now) rest yanks.now others.now found.now statuses) }
{
    let mut whole = known.copy()?;
    whole.put_all(found)?;
    if rest > 0 || is_sum(whole.len(), yanks.len(), others.len()) {
        return Ok(whole);
    }
    let mut statuses = Statuses::new(alloc);
    statuses.keep(known, yanks)?;
    statuses.keep(known, others)?;
    statuses.put_all(found)?;
    Ok(statuses)
}

fn is_sum(sum: usize, a: usize, b: usize) -> bool
    ensures { result ≡ (sum == a + b) }
{
    a <= sum && sum - a == b
}
