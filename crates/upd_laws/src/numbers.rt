//! The card numbers that a run assigns, and the limits.
ghost use Rattle.std.specs.Prelude.{◌≡◌, ℕ, ◌+◌, List, Ok, Some};
ghost use Rattle.upd_text.specs.declared.limits.TheConstants.{MAX_CALLS, MAX_CARDS, MAX_COMPILE_LINES, MAX_DEPTH};
ghost use Rattle.upd_text.specs.declared.limits.TheConstants.{MAX_ENTRIES, MAX_HELD, MAX_INTRODUCED, MAX_LINE_BYTES};
ghost use Rattle.upd_text.specs.declared.limits.TheConstants.{MAX_NAME_BYTES, MAX_NUMBER_DIGITS, MAX_RUN_BYTES, MAX_RUN_LINES};
ghost use Rattle.upd_text.specs.declared.limits.TheConstants.{MAX_TARGETS};
ghost use Rattle.upd_core.specs.Library.{LibraryView};
ghost use Rattle.upd_core.specs.Sound.{IsSound};
ghost use Rattle.upd_deck.specs.Items.{LineView};
ghost use Rattle.upd_apply.specs.declared.CurrentSet.{CurrentSet};
ghost use Rattle.upd_apply.specs.declared.state.InsertPoint.TheVariants.{End};
ghost use Rattle.upd_apply.specs.declared.state.State.{State};
ghost use Rattle.upd_apply.specs.Applying.{started, stepped};
ghost use Rattle.upd_laws.specs.Soundness.{count_of};

/// The next card number of the current set, or of the deck whose end is the insertion point, is one more than the
/// number of its cards in the library.
pub fn next_numbers_count_cards()
    ensures current_set { (lines : List LineView) (l : LibraryView) (s : State) (current_set : CurrentSet) → IsSound l
        → stepped lines (started l) ≡ Ok s
        → s.current_set ≡ Some current_set → current_set.next ≡ count_of current_set.ident s.library + 1 }
    ensures end { (lines : List LineView) (l : LibraryView) (s : State) (d next : ℕ) → IsSound l
        → stepped lines (started l) ≡ Ok s
        → s.insert_point ≡ End d next → next ≡ count_of d s.library + 1 }
{}

/// The limits, as numbers.
pub fn limits_are_these()
    ensures run { (MAX_RUN_BYTES ≡ 65536) × (MAX_RUN_LINES ≡ 2000) × (MAX_LINE_BYTES ≡ 80) }
    ensures name { (MAX_NAME_BYTES ≡ 9) × (MAX_NUMBER_DIGITS ≡ 6) }
    ensures library { (MAX_HELD ≡ 4096) × (MAX_INTRODUCED ≡ 65536) × (MAX_CARDS ≡ 50000)
        × (MAX_ENTRIES ≡ 200000) × (MAX_TARGETS ≡ 100000) }
    ensures compile_file { (MAX_COMPILE_LINES ≡ 10000) × (MAX_CALLS ≡ 10000) × (MAX_DEPTH ≡ 8) }
{}
