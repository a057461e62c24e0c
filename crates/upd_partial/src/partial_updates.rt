//! Laws: a part on which the status update of a run, and the new active cards, are those of the whole library.
ghost use Rattle.std.specs.Prelude.{◌≡◌, ◌==◌, Bool, false, true, if◌then◌else◌, List, None, Ok};
ghost use Rattle.std.specs.List.{AllByRecursion, list_any};
ghost use Rattle.upd_text.specs.declared.card_ref.CardRef.{CardRef};
ghost use Rattle.upd_core.specs.Actives.{actives_of};
ghost use Rattle.upd_core.specs.Serials.{Serial};
ghost use Rattle.upd_core.specs.Counted.{counted_cards};
ghost use Rattle.upd_core.specs.Library.{LibraryView};
ghost use Rattle.upd_core.specs.Parts.{part};
ghost use Rattle.upd_core.specs.Sound.{IsSound, IsWhole};
ghost use Rattle.upd_core.specs.Status.{status_of};
ghost use Rattle.upd_records.specs.Changes.{ChangeView, done_all};
ghost use Rattle.upd_records.specs.Rows.{Rows, ShowsStates, same_ref};
ghost use Rattle.upd_diff.specs.States.{row_changes_state};
ghost use Rattle.upd_diff.specs.RowChanges.{RowChanges};
ghost use Rattle.upd_diff.specs.Touched.{touched};
ghost use Rattle.upd_deck.specs.Items.{LineView};
ghost use Rattle.upd_apply.specs.Applying.{Reached, applied};
ghost use Rattle.upd_yank.specs.Affected.{affected};
ghost use Rattle.upd_yank.specs.Enough.{IsEnough};
ghost use Rattle.upd_yank.specs.Renewed.{renewed};
ghost use Rattle.upd_yank.specs.Right.{CacheView, IsRight};
ghost use Rattle.upd_partial.specs.Needless.{DoesWithout, NamesNone};

/// For a plain run that names no yank card, the part without the decks that it doesn't need is enough for the status
/// update: the run affects no card of these decks and deletes no card.
pub fn parts_are_enough_for_plain_runs()
    ensures { (out : Serial → Bool) (lines : List LineView) (l : LibraryView) (reached : Reached) → IsSound l
        → DoesWithout out lines l → NamesNone (λ d. d == 0) lines l
        → applied lines l ≡ Ok reached
        → IsEnough (touched l reached.library) l reached.library (part out reached.library) }
{}

/// After such a run, the active cards made from the part, a cache of the whole and the active cards before the run are
/// those of the whole library after it.
pub fn parts_renew_active_cards()
    ensures { (out : Serial → Bool) (lines : List LineView) (l : LibraryView) (reached : Reached) (cache : CacheView)
        → IsSound l → IsWhole l → DoesWithout out lines l → NamesNone (λ d. d == 0) lines l
        → applied lines l ≡ Ok reached → IsRight reached.library cache
        → renewed cache.states (part out reached.library) (actives_of l) ≡ actives_of reached.library }
{}

/// In a part with the yank cards each card has the same status as in the whole, and no other reference has one.
pub fn statuses_of_a_part_are_those_of_the_whole()
    ensures { (out : Serial → Bool) (l : LibraryView) (card : CardRef) → IsSound l → out 0 ≡ false
        → status_of card (part out l)
        ≡ (if list_any (λ k. same_ref k.card card) (counted_cards (part out l)) then status_of card l else None) }
{}

/// For a plain run that names no yank card, the status update may treat the part as the whole library: it affects the
/// same cards, row changes that update the statuses of the part update those of the whole, and a cache of the part is
/// enough to make all active cards.
pub fn parts_are_updated_alone()
    ensures enough { (out : Serial → Bool) (lines : List LineView) (l : LibraryView) (reached : Reached) → out 0 ≡ false
        → IsSound l → DoesWithout out lines l → NamesNone (λ d. d == 0) lines l → applied lines l ≡ Ok reached
        → IsEnough (touched (part out l) (part out reached.library)) (part out l) (part out reached.library)
        (part out reached.library) }
    ensures affected { (out : Serial → Bool) (lines : List LineView) (l : LibraryView) (reached : Reached) → IsSound l
        → DoesWithout out lines l → NamesNone (λ d. d == 0) lines l → applied lines l ≡ Ok reached
        → affected (touched l reached.library) (part out l) (part out reached.library)
        ≡ affected (touched l reached.library) l reached.library }
    ensures states { (out : Serial → Bool) (lines : List LineView) (l : LibraryView) (reached : Reached)
        → (run updates : List ChangeView) → out 0 ≡ false → IsSound l → DoesWithout out lines l
        → NamesNone (λ d. d == 0) lines l → applied lines l ≡ Ok reached
        → RowChanges (part out l) (part out reached.library) run → AllByRecursion (λ c. row_changes_state c ≡ true) updates
        → ((rows : Rows) → ShowsStates rows (part out l)
        → ShowsStates (done_all updates (done_all run rows)) (part out reached.library))
        → (rows : Rows) → ShowsStates rows l → ShowsStates (done_all updates (done_all run rows)) reached.library }
    ensures renews { (out : Serial → Bool) (lines : List LineView) (l : LibraryView) (reached : Reached)
        → (cache : CacheView) → IsSound l → IsWhole l → DoesWithout out lines l → NamesNone (λ d. d == 0) lines l
        → applied lines l ≡ Ok reached → IsRight (part out reached.library) cache
        → renewed cache.states (part out reached.library) (actives_of l) ≡ actives_of reached.library }
{}
