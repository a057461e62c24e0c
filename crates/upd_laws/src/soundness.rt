//! The invariant of libraries, and of the states within a run.
ghost use Rattle.std.specs.Prelude.{◌≡◌, ℕ, Bool, IsTrue, List, Some, Ok, Err};
ghost use Rattle.upd_core.specs.Edits.{purged};
ghost use Rattle.upd_core.specs.Library.{LibraryView, empty};
ghost use Rattle.upd_core.specs.Limits.{is_within_limits};
ghost use Rattle.upd_core.specs.Sound.{Continues, IsSound, IsWhole};
ghost use Rattle.upd_core.specs.Status.{IsAged};
ghost use Rattle.upd_deck.specs.Items.{LineView, Text};
ghost use Rattle.upd_text.specs.declared.fault.FaultKind.TheVariants as fault;
ghost use Rattle.upd_apply.specs.declared.CurrentSet.{CurrentSet};
ghost use Rattle.upd_apply.specs.declared.state.InsertPoint.TheVariants.{Nowhere, Inside};
ghost use Rattle.upd_apply.specs.declared.state.State.{State};
ghost use Rattle.upd_apply.specs.Applying.{Reached, applied, started, stepped};
ghost use Rattle.upd_apply.specs.Step.{carried_out, judged, step};
ghost use Rattle.upd_laws.specs.KeptCards.{KeepsCards};
ghost use Rattle.upd_laws.specs.Soundness.{after_runs, IsSoundState};

/// Each line keeps a state sound. The state before the first line is sound where its library is.
pub fn lines_keep_states_sound()
    ensures started { (l : LibraryView) → IsSound l → IsSoundState (started l) }
    ensures kept { (line : LineView) (s t : State) → IsSoundState s → step line s ≡ Ok t → IsSoundState t }
    ensures all { (lines : List LineView) (s t : State) → IsSoundState s → stepped lines s ≡ Ok t → IsSoundState t }
{}

/// In a run, text inside a deck has a set in hand, and is refused as TextNowhere only where there is no insert point.
pub fn text_inside_has_a_set_in_hand()
    ensures in_hand { (lines : List LineView) (l : LibraryView) (s : State) (d after : ℕ) → IsSound l
        → stepped lines (started l) ≡ Ok s
        → s.insert_point ≡ Inside d after → (h : CurrentSet) × (s.current_set ≡ Some h) }
    ensures nowhere { (lines : List LineView) (l : LibraryView) (s : State) (text : List ℕ) → IsSound l
        → stepped lines (started l) ≡ Ok s
        → carried_out (judged Text text s) s ≡ Err fault.TextNowhere → s.insert_point ≡ Nowhere }
{}

/// A run keeps a sound library sound, and so does a purge of any idents. A whole library stays whole.
pub fn runs_keep_libraries_sound()
    ensures run { (lines : List LineView) (l : LibraryView) (r : Reached) → IsSound l → applied lines l ≡ Ok r
        → IsSound r.library }
    ensures whole { (lines : List LineView) (l : LibraryView) (r : Reached) → IsWhole l → applied lines l ≡ Ok r
        → IsWhole r.library }
    ensures purge { (gone : ℕ → Bool) (l : LibraryView) → IsSound l → IsSound (purged gone l) }
{}

/// In each deck a run leaves the cards that it had, in their order and with their texts and targets, but for all cards of
/// some idents, those that it purged there; every other card of the deck is of a new ident.
pub fn old_cards_keep_their_order()
    ensures { (lines : List LineView) (l : LibraryView) (r : Reached) (d : ℕ) → applied lines l ≡ Ok r
        → KeepsCards l r.library d }
{}

/// Each library that runs can reach is sound, so its yank cards are in order of serial.
pub fn reached_libraries_are_sound()
    ensures empty { IsSound empty }
    ensures sound { (runs : List (List LineView)) → IsSound (after_runs runs empty) }
    ensures aged { (runs : List (List LineView)) → IsAged (after_runs runs empty).yanks }
{}

/// Each library that runs can reach is within the limits.
pub fn reached_libraries_are_within_limits()
    ensures run { (lines : List LineView) (l : LibraryView) (r : Reached) → IsTrue (is_within_limits l)
        → applied lines l ≡ Ok r
        → IsTrue (is_within_limits r.library) }
    ensures reached { (runs : List (List LineView)) → IsTrue (is_within_limits (after_runs runs empty)) }
    ensures purge { (gone : ℕ → Bool) (l : LibraryView) → IsTrue (is_within_limits l)
        → IsTrue (is_within_limits (purged gone l)) }
{}

/// The directory is only extended: idents are appended, and purged ones are no longer held.
pub fn directories_go_on()
    ensures line { (line : LineView) (s t : State) → step line s ≡ Ok t → Continues s.library.idents t.library.idents }
    ensures run { (lines : List LineView) (l : LibraryView) (r : Reached) → applied lines l ≡ Ok r
        → Continues l.idents r.library.idents }
    ensures runs { (runs : List (List LineView)) (l : LibraryView) → Continues l.idents (after_runs runs l).idents }
    ensures purge { (gone : ℕ → Bool) (l : LibraryView) → Continues l.idents (purged gone l).idents }
{}
