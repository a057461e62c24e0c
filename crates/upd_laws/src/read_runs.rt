//! The names, texts and numbers in libraries that runs have made.
ghost use Rattle.std.specs.Prelude.{◌≡◌, ℕ, Bool, List, Ok};
ghost use Rattle.std.specs.List.{AllByRecursion};
ghost use Rattle.upd_core.specs.Edits.{purged};
ghost use Rattle.upd_core.specs.Library.{LibraryView, empty};
ghost use Rattle.upd_deck.specs.Items.{LineView};
ghost use Rattle.upd_apply.specs.Applying.{Reached, applied};
ghost use Rattle.upd_laws.specs.ReadRuns.{HasLineTexts, WereRead};
ghost use Rattle.upd_laws.specs.Soundness.{after_runs};

/// Runs that `read_run` accepts introduce valid names, and cards with texts of lines and numbers from 1 to 2,000.
pub fn read_runs_bring_cards_of_lines()
    ensures run { (lines : List LineView) (l : LibraryView) (r : Reached) → WereRead lines → HasLineTexts l
        → applied lines l ≡ Ok r → HasLineTexts r.library }
    ensures reached { (runs : List (List LineView)) → AllByRecursion WereRead runs
        → HasLineTexts (after_runs runs empty) }
    ensures purge { (gone : ℕ → Bool) (l : LibraryView) → HasLineTexts l → HasLineTexts (purged gone l) }
{}
