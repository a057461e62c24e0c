//! The effect of a line, by its item.
ghost use Rattle.std.specs.Prelude.{◌≡◌, ◌+◌, ◌^◌, ◌<◌, ◌≤◌, Ok};
ghost use Rattle.upd_deck.specs.Items.{LineView};
ghost use Rattle.upd_text.specs.Outcome.{Does};
ghost use Rattle.upd_apply.specs.declared.state.State.{State};
ghost use Rattle.upd_apply.specs.Numbers.{next_most};
ghost use Rattle.upd_apply.specs.Step.{step};

use crate::state::State;
use upd_core::Kind;
use upd_deck::{Item, Line};
use upd_text::FaultKind;

impl State {
    /// Applies a line. After a refusal the state must be discarded.
    pub(crate) fn step(&mut self, line: &Line) -> Result<(), FaultKind>
        requires { next_most self.old + 1 < 2 ^ 32 }
        ensures { Does result self.new (step line.now self.old) }
    {
        let text = line.text;
        match &line.item {
            Item::Text | Item::Call(_) => self.put_text(text),
            Item::Ident(name) => self.begin_set(name),
            Item::Deck(name) => self.begin_deck(name, Kind::Deck, false, text),
            Item::CommonDeck { name, noprop } => {
                self.begin_deck(name, Kind::Common, *noprop, text)
            }
            Item::Insert(card) => self.place_after(card),
            Item::Before(card) => self.place_before(card),
            Item::Delete { first, last } => self.switch(false, first, last),
            Item::Restore { first, last } => self.switch(true, first, last),
            Item::Yank(ranges) => self.yank_sets(text, ranges),
            Item::SelYank(pairs) => self.yank_pairs(text, pairs),
            Item::YankDeck(names) => self.yank_decks(text, names),
            Item::Purge(ranges) => self.purge_idents(ranges),
            Item::PurgeFrom(name) => self.purge_from(name),
            Item::SelPurge(pairs) => self.purge_pairs(pairs),
            Item::PurDeck(ranges) => self.purge_decks(ranges),
            Item::Compile(_) => Ok(()),
        }
    }
}

/// A line raises the next card number by at most 1, so the numbers of a run fit into 32 bits.
#[tactic(auto, using(crate::proofs::StepLemmas::step_rises))]
pub fn numbers_rise_by_one()
    ensures { (line : LineView) (s t : State) → step line s ≡ Ok t → next_most t ≤ next_most s + 1 }
{}
