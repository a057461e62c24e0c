//! Statuses by card.

ghost use Rattle.std.specs.Prelude.{◌≡◌, [], None, Some, if◌then◌else◌, length, OnOk, IfOk};
ghost use Rattle.std.specs.Map.{update_all};
ghost use Rattle.std.specs.List.{list_any};
ghost use Rattle.std.specs.Option.{option_or};
ghost use Rattle.upd_records.specs.Rows.{same_ref};
ghost use Rattle.upd_text.specs.declared.card_ref.CardRef.{CardRef};
ghost use Rattle.upd_yank.specs.Right.{kept_status};

use std::alloc::{AllocError, Global};
use std::collections::BTreeMap;
use std::marker::Model;
use upd_core::{CardRef, CountedCard};

/// The statuses of some cards: whether each is active; for a yank card, whether it is live.
#[derive(Drop)]
pub(crate) struct Statuses {
    statuses: BTreeMap<CardRef, bool>,
}

impl Model for Statuses {
    ghost use Rattle.std.specs.Prelude.{List, Bool};
    ghost use Rattle.upd_text.specs.declared.card_ref.CardRef.{CardRef};

    ghost Value = { List (CardRef × Bool) };

    ghost view = { λ s. s.statuses.entries };
}

impl Statuses {
    pub(crate) fn new(alloc: Global) -> Statuses
        ensures { result ≡ [] }
    {
        Statuses {
            statuses: BTreeMap::new(alloc),
        }
    }

    /// The statuses in these rows; the last row of a card counts. Rows in order of card need one comparison each.
    pub(crate) fn of_rows(alloc: Global, rows: &[(CardRef, bool)]) -> Result<Statuses, AllocError>
        ensures { IfOk result (λ statuses. (r : CardRef) → kept_status statuses r
            ≡ update_all same_ref (λ _. None) rows.now r) }
    {
        let statuses = rows.iter().copied().collect(alloc)?;
        Ok(Statuses { statuses })
    }

    /// A deep copy.
    pub(crate) fn copy(&self) -> Result<Statuses, AllocError>
        ensures { IfOk result (λ copy. copy ≡ self.now) }
    {
        let statuses = self.statuses.clone()?;
        Ok(Statuses { statuses })
    }

    /// The number of cards that have a status here.
    pub(crate) fn len(&self) -> usize
        ensures { result ≡ length self.now }
    {
        self.statuses.len()
    }

    /// The status of a card.
    pub(crate) fn of(&self, card: CardRef) -> Option<bool>
        ensures { result ≡ kept_status self.now card }
    {
        self.statuses.get(&card).copied()
    }

    /// Sets the status of a card.
    pub(crate) fn put(&mut self, card: CardRef, active: bool) -> Result<(), AllocError>
        ensures { OnOk result ((r : CardRef) → kept_status self.new r
            ≡ (if same_ref card r then Some active else kept_status self.old r)) }
    {
        self.statuses.insert(card, active)?;
        Ok(())
    }

    /// Sets these statuses, in order.
    pub(crate) fn put_all(&mut self, found: &[(CardRef, bool)]) -> Result<(), AllocError>
        ensures { OnOk result ((r : CardRef) → kept_status self.new r
            ≡ update_all same_ref (kept_status self.old) found.now r) }
    {
        for (card, active) in found {
            self.put(*card, *active)?;
        }
        Ok(())
    }

    /// Adds the statuses that these cards have in `known`.
    pub(crate) fn keep(&mut self, known: &Statuses, cards: &[CountedCard]) -> Result<(), AllocError>
        ensures { OnOk result ((r : CardRef) → kept_status self.new r ≡ (if list_any (λ k. same_ref k.card r) cards.now
            then option_or (kept_status known.now r) (kept_status self.old r) else kept_status self.old r)) }
    {
        for card in cards {
            self.keep_one(known, card)?;
        }
        Ok(())
    }

    fn keep_one(&mut self, known: &Statuses, card: &CountedCard) -> Result<(), AllocError>
        ensures { OnOk result ((r : CardRef) → kept_status self.new r ≡ (if same_ref card.now.card r
            then option_or (kept_status known.now r) (kept_status self.old r) else kept_status self.old r)) }
    {
        match known.of(card.reference()) {
            Some(active) => self.put(card.reference(), active),
            None => Ok(()),
        }
    }
}
