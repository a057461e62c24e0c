//! Laws: a plain run changes no deck of which it names no card.
ghost use Rattle.std.specs.Prelude.{◌≡◌, ◌==◌, Bool, true, false, List, IsTrue, Some, Ok};
ghost use Rattle.std.specs.List.{Contains, list_any};
ghost use Rattle.upd_core.specs.Serials.{Serial};
ghost use Rattle.upd_text.specs.declared.card_ref.CardRef.{CardRef};
ghost use Rattle.upd_text.specs.Units.{Bytes};
ghost use Rattle.upd_core.specs.declared.library.Place.{Place};
ghost use Rattle.upd_core.specs.Library.{CardView, DeckView, LibraryView, all_decks, deck_of, place_of, ref_of};
ghost use Rattle.upd_compile.specs.Listings.{card_listing, deck_listing, ident_listing, yank_listing};
ghost use Rattle.upd_core.specs.Limits.{is_within_limits};
ghost use Rattle.upd_core.specs.Sound.{IsSound};
ghost use Rattle.upd_core.specs.Status.{status_of};
ghost use Rattle.upd_records.specs.Changes.{ChangeView, done_all};
ghost use Rattle.upd_records.specs.Fits.{AllFit};
ghost use Rattle.upd_records.specs.Rows.{Rows, Shows, same_ref};
ghost use Rattle.upd_diff.specs.States.{TakeGone};
ghost use Rattle.upd_diff.specs.RowChanges.{RowChanges};
ghost use Rattle.upd_diff.specs.Touched.{touched};
ghost use Rattle.upd_deck.specs.Items.{LineView};
ghost use Rattle.upd_apply.specs.Applying.{Reached, applied};
ghost use Rattle.upd_core.specs.Parts.{part, part_of};
ghost use Rattle.upd_partial.specs.Needed.{cards_named, is_yank_card};
ghost use Rattle.upd_partial.specs.Needless.{DoesWithout, IsOnWhole, NamesNone, is_plain, is_left_out, left_out};
ghost use Rattle.upd_partial.specs.Needless.{reached_in_part};

/// A plain run on the decks that have the cards which it names gives the same refusal as on the whole library, or the
/// same idents and named decks. The library after it is the part of the whole library after it: the loaded decks and
/// the new ones.
pub fn runs_need_the_decks_that_they_name()
    ensures { (ages : List Serial) (lines : List LineView) (l : LibraryView) → IsSound l → IsTrue (is_plain lines)
        → NamesNone (is_left_out ages l) lines l
        → applied lines (part_of ages l) ≡ reached_in_part (is_left_out ages l) (applied lines l) }
{}

/// The other decks are unchanged; so is `YANK$$$` where the run names no yank card.
pub fn other_decks_stay()
    ensures decks { (out : Serial → Bool) (lines : List LineView) (l : LibraryView) (reached : Reached) → IsSound l
        → DoesWithout out lines l
        → applied lines l ≡ Ok reached → left_out out reached.library ≡ left_out out l }
    ensures yanks { (out : Serial → Bool) (lines : List LineView) (l : LibraryView) (reached : Reached) → IsSound l
        → DoesWithout out lines l
        → applied lines l ≡ Ok reached → out 0 ≡ true → reached.library.yanks ≡ l.yanks }
{}

/// A plain run that names no yank card changes only statuses of cards that it touches.
pub fn untouched_cards_keep_their_status()
    ensures { (out : Serial → Bool) (lines : List LineView) (l : LibraryView) (reached : Reached) → IsSound l
        → DoesWithout out lines l
        → applied lines l ≡ Ok reached → out 0 ≡ true
        → (d : DeckView) (c : CardView) → Contains (all_decks reached.library) d → Contains d.cards c
        → list_any (same_ref (ref_of reached.library.idents c)) (touched l reached.library) ≡ false
        → status_of (ref_of reached.library.idents c) reached.library ≡ status_of (ref_of reached.library.idents c) l }
{}

/// A part of a sound library is sound.
pub fn parts_of_sound_libraries_are_sound()
    ensures { (out : Serial → Bool) (l : LibraryView) → IsSound l → IsSound (part out l) }
{}

/// The row changes of a run on a part are row changes of the run on the whole, since decks that are left out have no
/// changes. The run touches the same cards in both.
pub fn changes_of_a_part_are_changes_of_the_whole()
    ensures row_changes { (out : Serial → Bool) (lines : List LineView) (l : LibraryView) (reached : Reached)
        → (changes : List ChangeView) → out 0 ≡ false → IsSound l → IsTrue (is_within_limits l)
        → DoesWithout out lines l → applied lines l ≡ Ok reached
        → RowChanges (part out l) (part out reached.library) changes → RowChanges l reached.library changes }
    ensures touched { (out : Serial → Bool) (lines : List LineView) (l : LibraryView) (reached : Reached)
        → out 0 ≡ false → IsSound l → DoesWithout out lines l → applied lines l ≡ Ok reached
        → touched (part out l) (part out reached.library) ≡ touched l reached.library }
{}

/// A plain run on the decks that have the cards which it names is a run on the whole library.
pub fn runs_on_a_part_are_runs_on_the_whole()
    ensures { (ages : List Serial) (lines : List LineView) (l : LibraryView) (here : Reached)
        → (changes : List ChangeView) → IsSound l → IsTrue (is_within_limits l) → IsTrue (is_plain lines)
        → NamesNone (is_left_out ages l) lines l → applied lines (part_of ages l) ≡ Ok here
        → RowChanges (part_of ages l) here.library changes → IsOnWhole (is_left_out ages l) lines l here changes }
{}

/// The row changes of a run on a sound library can be carried out on tables that show it, and then the tables show the
/// library after the run. They delete the cards that are gone.
pub fn changes_lead_to_what_is_reached()
    ensures shows { (lines : List LineView) (l : LibraryView) (reached : Reached) (changes : List ChangeView)
        → (rows : Rows) → IsSound l → applied lines l ≡ Ok reached → RowChanges l reached.library changes → Shows rows l
        → Shows (done_all changes rows) reached.library }
    ensures fits { (lines : List LineView) (l : LibraryView) (reached : Reached) (changes : List ChangeView)
        → (rows : Rows) → IsSound l → applied lines l ≡ Ok reached → RowChanges l reached.library changes → Shows rows l
        → AllFit changes rows }
    ensures states { (lines : List LineView) (l : LibraryView) (reached : Reached) (changes : List ChangeView)
        → IsSound l → applied lines l ≡ Ok reached → RowChanges l reached.library changes
        → TakeGone l reached.library changes }
{}

/// A plain run that names no yank card leaves `YANK$$$` unchanged, and the cards in decks that it doesn't need keep
/// their statuses.
pub fn cards_left_out_keep_their_statuses()
    ensures named { (lines : List LineView) (l : LibraryView) → list_any (is_yank_card l) (cards_named lines) ≡ false
        → NamesNone (λ d. d == 0) lines l }
    ensures yanks { (lines : List LineView) (l : LibraryView) (reached : Reached) → IsSound l
        → IsTrue (is_plain lines) → list_any (is_yank_card l) (cards_named lines) ≡ false
        → applied lines l ≡ Ok reached → reached.library.yanks ≡ l.yanks }
    ensures statuses { (out : Serial → Bool) (lines : List LineView) (l : LibraryView) (reached : Reached) → IsSound l
        → DoesWithout out lines l → list_any (is_yank_card l) (cards_named lines) ≡ false
        → applied lines l ≡ Ok reached
        → (d : DeckView) (c : CardView) → Contains (left_out out l) d → Contains d.cards c
        → status_of (ref_of l.idents c) reached.library ≡ status_of (ref_of l.idents c) l }
{}

/// The row changes of a run on the decks that hold the cards which it names can be carried out on tables that show the
/// whole library, and then these show what the run reaches from the whole.
pub fn changes_of_a_part_lead_the_whole()
    ensures { (ages : List Serial) (lines : List LineView) (l : LibraryView) (here : Reached)
        → (changes : List ChangeView) (rows : Rows) → IsSound l → IsTrue (is_within_limits l) → IsTrue (is_plain lines)
        → NamesNone (is_left_out ages l) lines l → applied lines (part_of ages l) ≡ Ok here
        → RowChanges (part_of ages l) here.library changes → Shows rows l
        → (there : Reached) × (applied lines l ≡ Ok there) × AllFit changes rows
        × Shows (done_all changes rows) there.library }
{}

/// A listing of a part is that of the whole, where the part has the deck or the card that is asked for, or neither has.
pub fn listings_of_a_part_are_those_of_the_whole()
    ensures deck { (out : Serial → Bool) (l : LibraryView) (name : Bytes)
        → ((d : Serial) → deck_of name l ≡ Some d → out d ≡ false)
        → deck_listing name (part out l) ≡ deck_listing name l }
    ensures card { (out : Serial → Bool) (l : LibraryView) (card : CardRef) → IsSound l → out 0 ≡ false
        → ((p : Place) → place_of card l ≡ Some p → out p.deck ≡ false)
        → card_listing card (part out l) ≡ card_listing card l }
    ensures idents { (out : Serial → Bool) (l : LibraryView) → ident_listing (part out l) ≡ ident_listing l }
    ensures yanks { (out : Serial → Bool) (l : LibraryView) → yank_listing (part out l) ≡ yank_listing l }
{}
