//! Which yank cards are live, and which cards are good and active given these.

ghost use Rattle.std.specs.Prelude.{◌≡◌, IfOk};
ghost use Rattle.std.specs.Option.{option_and_then};
ghost use Rattle.upd_core.specs.Status.{stays_on, is_taken, is_good, is_active, targets_of, live_cards, liveness};
ghost use Rattle.upd_core.specs.Status.{live_of, live_yank, yank_at};
ghost use Rattle.upd_core.specs.Library.{LibraryView, place_of};
ghost use Rattle.upd_core.specs.Sound.{IsSound};

use crate::card::{Card, Entry};
use crate::deck::card_index;
use crate::ident::{Ident, Serial, held_named};
use crate::targets::Targets;
use std::alloc::{AllocError, Global};
use std::marker::Model;
use upd_text::CardRef;

/// Which yank cards of a library are live, and the targets of the live ones.
#[derive(Drop)]
pub struct Live<'a> {
    pub(crate) idents: &'a [Ident],
    pub(crate) yanks: &'a [Card],
    pub(crate) live: Vec<bool>,
    pub(crate) targets: Targets,
}

impl<'a> Model for Live<'a> {
    ghost use Rattle.upd_core.specs.Status.{LiveView};

    ghost Value = { LiveView };

    ghost view = { λ l. record {
      idents = l.idents.now;
      yanks = l.yanks.now;
      live = l.live.items;
      targets = l.targets;
    } };
}

impl<'a> Live<'a> {
    /// Whether the yank card that a reference names is live; None where there is no such card.
    pub fn live_yank(&self, card: CardRef) -> Option<bool>
        ensures { result ≡ live_yank card self.now }
    {
        let ident = held_named(self.idents, &card.name)?;
        let index = card_index(self.yanks, ident.age, card.number)?;
        self.live.get(index).copied()
    }

    /// Whether an ident is taken in a deck.
    pub fn is_taken(&self, deck: Serial, ident: Serial) -> bool
        ensures { result ≡ is_taken self.now.targets deck ident }
    {
        self.targets.is_taken(deck, ident)
    }

    /// Whether a card of a deck is good. The caller says which deck: it isn't checked.
    pub fn is_good(&self, deck: Serial, card: &Card) -> bool
        ensures { result ≡ is_good self.now.targets deck card.now }
    {
        is_good(&self.targets, deck, card)
    }

    /// Whether a card of a deck is active. The caller says which deck: it isn't checked.
    pub fn is_active(&self, deck: Serial, card: &Card) -> bool
        ensures { result ≡ is_active self.now.targets deck card.now }
    {
        is_active(&self.targets, deck, card)
    }
}

/// In a sound library, looking up a yank card by reference and by place gives the same liveness.
pub fn references_find_their_yank_cards()
    ensures { (l : LibraryView) (card : CardRef) → IsSound l
        → live_yank card (live_of l) ≡ option_and_then (yank_at l) (place_of card l) }
{}

/// Whether a history stays on in a deck: the last entry of an ident that isn't taken there decides.
pub(crate) fn stays_on(targets: &Targets, deck: Serial, history: &[Entry]) -> bool
    ensures { result ≡ stays_on (is_taken targets.now deck) history.now }
{
    for i in (0..history.len()).rev() {
        if !targets.is_taken(deck, history[i].ident) {
            return history[i].active;
        }
    }
    false
}

/// Whether a card of a deck is good.
pub(crate) fn is_good(targets: &Targets, deck: Serial, card: &Card) -> bool
    ensures { result ≡ is_good targets.now deck card.now }
{
    stays_on(targets, deck, &card.history)
}

/// Whether a card of a deck is active.
pub(crate) fn is_active(targets: &Targets, deck: Serial, card: &Card) -> bool
    ensures { result ≡ is_active targets.now deck card.now }
{
    is_good(targets, deck, card) && !targets.takes_deck(deck)
}

/// Whether each yank card is live, and the targets of the live ones. The loop runs from the last card to the first:
/// only younger cards can take what switched a card, so all that decides a card is known when the loop reaches it.
pub(crate) fn live_flags(alloc: Global, yanks: &[Card]) -> Result<(Vec<bool>, Targets), AllocError>
    ensures live { IfOk result (λ found. found.0.items ≡ liveness yanks.now) }
    ensures targets { IfOk result (λ found. found.1 ≡ targets_of (live_cards yanks.now)) }
{
    let mut live = vec![in alloc; false; yanks.len()]?;
    let mut targets = Targets::new(alloc);
    for i in (0..yanks.len()).rev() {
        let card = &yanks[i];
        live[i] = is_good(&targets, 0, card);
        if live[i] {
            targets.add(&card.targets)?;
        }
    }
    Ok((live, targets))
}
