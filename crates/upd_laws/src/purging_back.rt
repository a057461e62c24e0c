//! Purging back undoes all that runs without purges did.
ghost use Rattle.std.specs.Prelude.{◌≡◌, List, length};
ghost use Rattle.upd_text.specs.declared.card_ref.CardRef.{CardRef};
ghost use Rattle.upd_core.specs.Edits.{next_age, purged_back};
ghost use Rattle.upd_core.specs.Library.{LibraryView};
ghost use Rattle.upd_core.specs.Sound.{IsSound};
ghost use Rattle.upd_core.specs.Status.{status_of};
ghost use Rattle.upd_deck.specs.Items.{LineView};
ghost use Rattle.upd_laws.specs.PurgingBack.{IsAgain, IsGrown, LeadWithoutPurge};

/// Runs without purges only add: all cards stay, in order and with their histories, and everything new is of the idents
/// that the runs introduce.
pub fn runs_only_add()
    ensures { (runs : List (List LineView)) (before after : LibraryView) → LeadWithoutPurge runs before after
        → IsGrown before after }
{}

/// Runs without purges that introduce no ident change nothing.
pub fn runs_without_idents_change_nothing()
    ensures { (runs : List (List LineView)) (before after : LibraryView) → LeadWithoutPurge runs before after
        → length after.idents ≡ length before.idents
        → after ≡ before }
{}

/// A purge of the first ident that such runs introduce, and of all younger ones, restores the library and the status of
/// each card.
pub fn purging_back_undoes_runs()
    ensures again { (runs : List (List LineView)) (before after : LibraryView) → IsSound before
        → LeadWithoutPurge runs before after
        → IsAgain before (purged_back (next_age before) after) }
    ensures statuses { (runs : List (List LineView)) (before after : LibraryView) → IsSound before
        → LeadWithoutPurge runs before after
        → (card : CardRef) → status_of card (purged_back (next_age before) after) ≡ status_of card before }
{}
