//! What is in the way of a run: decks that it would change, and that a later set has taken out of use.
//!
//! Nothing is proved of it: it only says why a run did not pass its check.

use crate::correcting::EditBase;
use crate::plan::Correction;
use std::alloc::{AllocError, Global};
use upd_core::card::card_ref;
use upd_core::ident::name_at;
use upd_core::{Card, CardRef, Serial, Target};
use upd_text::Name;

/// The first card of a deck that is in the way, and the set that took it out of use.
#[derive(Clone, Copy, Debug, PartialEq, Eq)]
pub struct InTheWay {
    pub card: CardRef,
    pub set: Name,
}

/// The first cards of the decks that corrections change, and that later sets took out of use.
pub(crate) fn cards_in_the_way(
    alloc: Global,
    base: &EditBase,
    corrections: &[Correction],
) -> Result<Vec<InTheWay>, AllocError> {
    let mut found = Vec::new(alloc);
    let Ok(live) = base.library.live_yanks() else {
        return Err(AllocError);
    };
    for correction in corrections {
        if let [first, ..] = base.library.cards_of(correction.deck)
            && correction.is_change()
            && !live.is_active(correction.deck, first)
            && let Some(set) = taker_of(alloc, base, correction.deck, first)?
        {
            found.push(InTheWay {
                card: card_ref(base.library.idents(), first),
                set,
            })?;
        }
    }
    Ok(found)
}

/// The later set that took a card out of use: that of its last entry, or the last of those whose yanks take it, or yank or
/// bring back such a yank.
fn taker_of(
    alloc: Global,
    base: &EditBase,
    deck: Serial,
    card: &Card,
) -> Result<Option<Name>, AllocError> {
    let idents = base.library.idents();
    let taker = match card.history.last() {
        Some(entry) if entry.ident as usize > base.last => Some(entry.ident),
        _ => last_taker(alloc, base, deck, card)?,
    };
    match taker {
        Some(ident) if ident as usize > base.last => Ok(name_at(idents, ident)),
        _ => Ok(None),
    }
}

/// The last set whose yanks take a card, or yank such a set.
fn last_taker(
    alloc: Global,
    base: &EditBase,
    deck: Serial,
    card: &Card,
) -> Result<Option<Serial>, AllocError> {
    let mut takers: Vec<Serial> = Vec::new(alloc);
    for yank in base.library.yanks() {
        if is_taken(yank, deck, card) || yanks_one(yank, &takers) {
            takers.push(yank.ident)?;
        }
    }
    Ok(takers.last().copied())
}

/// Whether a yank takes a deck, or the ident of a card or of one of its entries.
fn is_taken(yank: &Card, deck: Serial, card: &Card) -> bool {
    yank.targets.iter().any(|target| match target {
        Target::Deck(taken) => *taken == deck,
        Target::Set(ident) => has_ident(card, *ident),
        Target::SetIn(ident, taken) => *taken == deck && has_ident(card, *ident),
    })
}

/// Whether a yank yanks one of some sets.
fn yanks_one(yank: &Card, sets: &[Serial]) -> bool {
    yank.targets.iter().any(|target| matches!(target, Target::Set(ident) if sets.contains(ident)))
}

/// Whether an ident is that of a card or of one of its entries.
fn has_ident(card: &Card, ident: Serial) -> bool {
    card.ident == ident || card.history.iter().any(|entry| entry.ident == ident)
}
