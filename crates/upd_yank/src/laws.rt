//! Laws on which the cascade rests.

ghost use Rattle.std.specs.Prelude.{◌≡◌, ◌≤◌, ◌↔◌, ℕ, Bool, true, false, Some, List, length};
ghost use Rattle.std.specs.List.{AllByRecursion, Contains, filter};
ghost use Rattle.upd_apply.specs.Applying.{touched};
ghost use Rattle.upd_core.specs.declared.target.Target.{Target};
ghost use Rattle.upd_core.specs.Actives.{actives_of};
ghost use Rattle.upd_core.specs.Serials.{Serial};
ghost use Rattle.upd_core.specs.Counted.{counted_card};
ghost use Rattle.upd_core.specs.Library.{CardView, DeckView, LibraryView, all_decks, ref_of};
ghost use Rattle.upd_core.specs.Reach.{covers, is_flipped, is_reached};
ghost use Rattle.upd_core.specs.Sound.{Continues, IsSound, IsWhole};
ghost use Rattle.upd_core.specs.Parts.{part};
ghost use Rattle.upd_core.specs.Status.{is_active, status_of, targets_of};
ghost use Rattle.upd_core.specs.TargetCounts.{count_on, live_count};
ghost use Rattle.upd_yank.specs.Affected.{affected, altered, is_touched};
ghost use Rattle.upd_yank.specs.Cascade.{is_active_by};
ghost use Rattle.upd_yank.specs.Renewed.{IsAsBefore, renewed};
ghost use Rattle.upd_yank.specs.Right.{CacheView, IsRight};

/// The counts of the live cards determine each status, and a card that no flipped target reaches keeps its status.
pub fn counts_tell_statuses()
    ensures counts { (live : List CardView) (d : ℕ) (c : CardView) → is_active (targets_of live) d c
        ≡ is_active_by (count_on live) d c }
    ensures kept { (before now : Target → ℕ) (d : ℕ) (c : CardView) → is_reached before now d c ≡ false →
        is_active_by before d c ≡ is_active_by now d c }
{}

/// A card that a run didn't touch had, before the run, the status that its history gives by the counts before it.
pub fn untouched_cards_stood()
    ensures { (old new : LibraryView) (d : DeckView) (c : CardView) → IsSound old → Continues old.idents new.idents →
        Contains (all_decks new) d → Contains d.cards c → is_touched (touched old new)
        (counted_card new.idents d.ident c) ≡ false →
        status_of (ref_of new.idents c) old ≡ Some (is_active_by (live_count old) d.ident c) }
{}

/// The cards that are new or differ in status are at most as many as the run affects.
#[tactic(auto, using(crate::proofs::RightLemmas::least_affected))]
pub fn altered_cards_are_affected()
    ensures { (old new : LibraryView) → IsSound old → Continues old.idents new.idents →
        length (altered old new) ≤ length (affected (touched old new) old new) }
{}

/// A card is reached exactly when a target covers it whose count is 0 in exactly one of before and now.
pub fn what_flipped_covers_is_reached()
    ensures { (before now : Target → ℕ) (d : ℕ) (c : CardView) → (is_reached before now d c ≡ true)
        ↔ ((t : Target) × (is_flipped before now t ≡ true) × (covers d c t ≡ true)) }
{}

/// The active cards after a run can be made from a part of the library, a right cache and the active cards before the
/// run, where the decks left out are as before.
#[tactic(auto, using(crate::proofs::RenewLemmas::renewed_is))]
pub fn renewed_active_cards_are_those_reached()
    ensures { (out : Serial → Bool) (old new : LibraryView) (cache : CacheView) → IsSound old → IsSound new → IsWhole new
        → IsRight new cache → AllByRecursion (IsAsBefore old new) (filter (λ d. out d.ident) new.decks)
        → renewed cache.states (part out new) (actives_of old) ≡ actives_of new }
{}
