//! Statuses in order of their cards, in which one card after the other is looked up.

ghost use Rattle.std.specs.Prelude.{◌≡◌, ◌<◌, false, map, length, IfSome};
ghost use Rattle.std.specs.List.{HoldsAt, list_any};
ghost use Rattle.std.specs.Option.{MatchOption};
ghost use Rattle.upd_records.specs.Rows.{same_ref};
ghost use Rattle.upd_row_store.specs.Activating.{is_active_in};
ghost use Rattle.upd_memory.specs.ActiveRows.{AreInOrder};
ghost use Rattle.upd_memory.specs.Mirrored.{state_row};

use upd_core::CardRef;
use upd_records::same_ref;

/// The statuses of cards, in order of the cards, and the place where the next card is looked for first.
#[derive(Drop)]
pub(crate) struct Statuses<'a> {
    pub(crate) pairs: &'a [(CardRef, bool)],
    pub(crate) next: usize,
}

/// Where a card stands among cards in order. Where it isn't at the guess it is searched by halves.
fn place_of(pairs: &[(CardRef, bool)], guess: usize, card: &CardRef) -> Option<usize>
    ensures within { IfSome result (λ place. place < length pairs.now) }
    ensures place { AreInOrder pairs.now → MatchOption result
        (list_any (λ p. same_ref card.now p.0) pairs.now ≡ false) (HoldsAt (λ p. p.0 ≡ card.now) pairs.now) }
{
    if guess < pairs.len() && same_ref(card, &pairs[guess].0) {
        return Some(guess);
    }
    pairs.binary_search_by(|pair| pair.0.cmp(card)).ok()
}

impl<'a> Statuses<'a> {
    /// Whether a card is active. The next card is looked for behind it first: cards of a deck that stand side by side
    /// mostly have their statuses side by side.
    pub(crate) fn is_active(&mut self, card: &CardRef) -> bool
        ensures active { AreInOrder self.old.pairs.now
            → result ≡ is_active_in (map state_row self.old.pairs.now) card.now }
        ensures pairs { self.new.pairs ≡ self.old.pairs }
    {
        let Some(place) = place_of(self.pairs, self.next, card) else {
            return false;
        };
        self.next = place + 1;
        self.pairs[place].1
    }
}
