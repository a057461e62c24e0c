//! Laws of sound libraries: places of cards and their statuses.
ghost use Rattle.std.specs.Prelude.{◌≡◌, ℕ, Bool, IsTrue, map, slice_get, Some};
ghost use Rattle.std.specs.List.{Contains};
ghost use Rattle.upd_text.specs.declared.card_ref.CardRef.{CardRef};
ghost use Rattle.upd_core.specs.declared.library.Place.{Place};
ghost use Rattle.upd_core.specs.Library.{CardView, DeckView, LibraryView, all_decks, card_in, ident_of, name_of};
ghost use Rattle.upd_core.specs.Library.{place_of, ref_of};
ghost use Rattle.upd_core.specs.Sound.{AreApart, IsSound, all_cards, is_held};
ghost use Rattle.upd_core.specs.Status.{is_active, is_good, live_of, live_targets, live_yank, liveness, status_of};

/// A held ident is found by its name.
pub fn held_idents_are_found()
    ensures { (l : LibraryView) (z : ℕ) → IsSound l → IsTrue (is_held l.idents z)
        → ident_of (name_of l.idents z) l ≡ Some z }
{}

/// A look-up of a card's own reference returns the card's place and its status there.
pub fn cards_are_found()
    ensures place { (l : LibraryView) (d : DeckView) (i : ℕ) (c : CardView) → IsSound l → Contains (all_decks l) d
        → slice_get d.cards i ≡ Some c → place_of (ref_of l.idents c) l ≡ Some (record { deck = d.ident; index = i }) }
    ensures card { (l : LibraryView) (d : DeckView) (i : ℕ) (c : CardView) → IsSound l → Contains (all_decks l) d
        → slice_get d.cards i ≡ Some c → card_in (record { deck = d.ident; index = i }) l ≡ Some c }
    ensures status { (l : LibraryView) (d : DeckView) (c : CardView) → IsSound l → Contains (all_decks l) d
        → Contains d.cards c → status_of (ref_of l.idents c) l ≡ Some (is_active (live_targets l) d.ident c) }
{}

/// A look-up returns only a card that has the reference looked up, and no two cards have one reference.
pub fn references_find_no_other_card()
    ensures own { (l : LibraryView) (card : CardRef) (p : Place) → IsSound l → place_of card l ≡ Some p
        → (c : CardView) × (card_in p l ≡ Some c) × (ref_of l.idents c ≡ card) }
    ensures one { (l : LibraryView) (b c : CardView) → IsSound l → Contains (all_cards l) b → Contains (all_cards l) c
        → ref_of l.idents b ≡ ref_of l.idents c → b ≡ c }
    ensures apart { (l : LibraryView) → IsSound l → AreApart (map (ref_of l.idents) (all_cards l)) }
{}

/// A yank card is active exactly when it is good, since no target names `YANK$$$`. That is when it is live, so its
/// status is its liveness.
pub fn yank_cards_are_active_where_live()
    ensures good { (l : LibraryView) (c : CardView) → IsSound l
        → is_active (live_targets l) 0 c ≡ is_good (live_targets l) 0 c }
    ensures flags { (l : LibraryView) → IsSound l → liveness l.yanks ≡ map (is_active (live_targets l) 0) l.yanks }
    ensures status { (l : LibraryView) (card : CardRef) (live : Bool) → IsSound l → live_yank card (live_of l)
        ≡ Some live
        → status_of card l ≡ Some live }
{}
