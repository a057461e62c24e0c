//! Laws of live yank cards.

ghost use Rattle.std.specs.Prelude.{◌≡◌, List};
ghost use Rattle.upd_core.specs.Library.{CardView};
ghost use Rattle.upd_core.specs.Status.{live_cards, AreLive, IsAged};

/// A yank card is live exactly when it is good, given the targets of all live cards. Where cards are in order of
/// serial, this equation has one solution: the live cards.
pub fn liveness_is_well_founded()
    ensures solves { (yanks : List CardView) → IsAged yanks → AreLive (live_cards yanks) yanks }
    ensures only { (yanks live : List CardView) → IsAged yanks → AreLive live yanks → live ≡ live_cards yanks }
{}
