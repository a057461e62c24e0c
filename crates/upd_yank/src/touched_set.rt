//! The cards that a run touched, as a set with fast look-ups.

ghost use Rattle.std.specs.Prelude.{◌≡◌, ◌||◌, [], OnOk, IfOk};
ghost use Rattle.std.specs.List.{list_any};
ghost use Rattle.upd_records.specs.Rows.{same_ref};
ghost use Rattle.upd_text.specs.declared.card_ref.CardRef.{CardRef};

use std::alloc::{AllocError, Global};
use std::collections::BTreeSet;
use std::marker::Model;
use upd_core::{CardRef, CountedCard};

#[derive(Drop)]
pub(crate) struct Touched {
    cards: BTreeSet<CardRef>,
}

impl Model for Touched {
    ghost use Rattle.std.specs.Prelude.{List};
    ghost use Rattle.upd_text.specs.declared.card_ref.CardRef.{CardRef};

    ghost Value = { List CardRef };

    ghost view = { λ t. t.cards.keys };
}

impl Touched {
    /// The set of these cards.
    pub(crate) fn of(alloc: Global, cards: &[CardRef]) -> Result<Touched, AllocError>
        ensures { IfOk result (λ touched. (card : CardRef) → list_any (same_ref card) touched
            ≡ list_any (same_ref card) cards.now) }
    {
        let mut touched = Touched::new(alloc);
        for card in cards {
            touched.add(*card)?;
        }
        Ok(touched)
    }

    /// The empty set. It does not allocate.
    pub(crate) fn new(alloc: Global) -> Touched
        ensures { result ≡ [] }
    {
        Touched {
            cards: BTreeSet::new(alloc),
        }
    }

    /// Adds these cards.
    pub(crate) fn add_all(&mut self, cards: &[CountedCard]) -> Result<(), AllocError>
        ensures { OnOk result ((r : CardRef) → list_any (same_ref r) self.new
            ≡ (list_any (same_ref r) self.old || list_any (λ k. same_ref r k.card) cards.now)) }
    {
        for card in cards {
            self.add(card.reference())?;
        }
        Ok(())
    }

    fn add(&mut self, card: CardRef) -> Result<(), AllocError>
        ensures { OnOk result ((r : CardRef) → list_any (same_ref r) self.new
            ≡ (list_any (same_ref r) self.old || same_ref r card)) }
    {
        self.cards.insert(card)?;
        Ok(())
    }

    /// Whether a card is in the set.
    pub(crate) fn has(&self, card: CardRef) -> bool
        ensures { result ≡ list_any (same_ref card) self.now }
    {
        self.cards.contains(&card)
    }
}
