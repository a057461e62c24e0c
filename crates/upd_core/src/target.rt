//! Targets: what a yank card takes out of use, and their order.

ghost use Rattle.std.specs.Prelude.{◌≡◌, ◌↔◌};
ghost use Rattle.std.specs.Ordering.{is_eq};
ghost use Rattle.std.specs.declared.cmp.Ordering.TheVariants.{Equal};
ghost use Rattle.upd_core.specs.Order.{key_order, target_key, target_order};
ghost use Rattle.upd_core.specs.Targets.{is_same};
ghost use Rattle.upd_core.specs.declared.target.Target.{Target};

use crate::ident::Serial;

/// What a yank card takes out of use while it is live.
#[derive(Clone, Copy, Debug, PartialEq, Eq, PartialOrd, Ord, Hash)]
pub enum Target {
    /// All that an ident, a set or a deck, introduced and switched; `set z` in listings.
    Set(Serial),
    /// All that an ident introduced and switched in one deck: the ident, then the deck.
    SetIn(Serial, Serial),
    /// All cards of a deck.
    Deck(Serial),
}

/// Targets are ordered by their keys. Two are equal in this order exactly when they are the same.
pub fn targets_are_ordered_by_key()
    ensures order { (s t : Target) → target_order s t ≡ key_order (target_key s) (target_key t) }
    ensures equality { (s t : Target) → is_same s t ≡ is_eq (target_order s t) }
    ensures exact { (s t : Target) → (target_order s t ≡ Equal) ↔ (s ≡ t) }
{}
