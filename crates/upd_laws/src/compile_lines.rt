//! Laws of compile files and listings, for libraries that runs have made.
ghost use Rattle.std.specs.Prelude.{◌≡◌, ℕ, ◌++◌, ◌*◌, ◌==◌, ◌||◌, length, IsTrue, List, Ok};
ghost use Rattle.std.specs.List.{AllByRecursion, Contains, flat_map};
ghost use Rattle.upd_text.specs.Names.{yank_name};
ghost use Rattle.upd_core.specs.Actives.{without_past};
ghost use Rattle.upd_core.specs.Library.{CardView, LibraryView};
ghost use Rattle.upd_core.specs.Sound.{IsSound, all_cards};
ghost use Rattle.upd_core.specs.Status.{live_targets};
ghost use Rattle.upd_deck.specs.Reading.{is_allowed};
ghost use Rattle.upd_compile.specs.declared.mode.Mode.{Mode};
ghost use Rattle.upd_compile.specs.File.{FileView, card_line, compile_file_of};
ghost use Rattle.upd_compile.specs.Listings.{deck_heading, deck_listing};
ghost use Rattle.upd_laws.specs.ReadRuns.{HasLineTexts};
ghost use Rattle.upd_laws.specs.YankLines.{yank_line};

/// Each line of a compile file has 97 bytes, where names and cards are those of runs.
pub fn compile_lines_have_97_bytes()
    ensures line { (l : LibraryView) (c : CardView) → HasLineTexts l → Contains (all_cards l) c
        → length (card_line l.idents (without_past c)) ≡ 97 }
    ensures file { (mode : Mode) (named : List ℕ) (before after : LibraryView) (file : FileView) → HasLineTexts after
        → compile_file_of mode named before after ≡ Ok file → length file.bytes ≡ 97 * file.lines }
{}

/// A compile file has only bytes that lines may have, and LF at the line ends, where names and cards are those of runs.
pub fn compile_files_have_bytes_of_lines()
    ensures { (mode : Mode) (named : List ℕ) (before after : LibraryView) (file : FileView) → HasLineTexts after
        → compile_file_of mode named before after ≡ Ok file
        → AllByRecursion (λ b. IsTrue (is_allowed b || (b == 10))) file.bytes }
{}

/// The two listings of yank cards agree: the listing of `YANK$$$` shows `A` exactly where that of the yanks says live.
pub fn yank_listings_agree()
    ensures { (l : LibraryView) → IsSound l → deck_listing yank_name l
        ≡ Ok (deck_heading l.idents 0 ++ flat_map (yank_line l.idents (live_targets l)) l.yanks) }
{}
