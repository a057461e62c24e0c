//! The active cards after a run.

ghost use Rattle.std.specs.Prelude.{◌≡◌, ◌++◌, map, IfOk, OnOk};
ghost use Rattle.std.specs.List.{filter, find, flat_map};
ghost use Rattle.std.specs.Option.{option_copied};
ghost use Rattle.upd_core.specs.Actives.{without_past};
ghost use Rattle.upd_core.specs.Counted.{counted_card};
ghost use Rattle.upd_yank.specs.Renewed.{deck_anew, deck_of_age, deck_renewed, is_active_deck};
ghost use Rattle.upd_yank.specs.Right.{was_active};

use crate::statuses::Statuses;
use std::alloc::{AllocError, Global};
use upd_core::card::card_ref;
use upd_core::deck::deck_aged;
use upd_core::{ActiveDeck, Actives, Card, Deck, Ident, Library, Serial};

/// The active cards of each held deck of a directory: from the part where it has the deck, else as before.
pub(crate) fn renewed_decks(
    alloc: Global,
    statuses: &Statuses,
    part: &Library,
    before: &Actives,
) -> Result<Vec<ActiveDeck>, AllocError>
    ensures { IfOk result (λ decks. decks.items
        ≡ flat_map (deck_renewed statuses.now part.now before.now) part.now.idents) }
{
    let mut decks = Vec::new(alloc);
    push_decks(alloc, &mut decks, statuses, part, before, part.idents())?;
    Ok(decks)
}

fn push_decks(
    alloc: Global,
    decks: &mut Vec<ActiveDeck>,
    statuses: &Statuses,
    part: &Library,
    before: &Actives,
    idents: &[Ident],
) -> Result<(), AllocError>
    ensures { OnOk result (decks.new.items ≡ decks.old.items
        ++ flat_map (deck_renewed statuses.now part.now before.now) idents.now) }
{
    for ident in idents {
        push_ident(alloc, decks, statuses, part, before, ident)?;
    }
    Ok(())
}

fn push_ident(
    alloc: Global,
    decks: &mut Vec<ActiveDeck>,
    statuses: &Statuses,
    part: &Library,
    before: &Actives,
    ident: &Ident,
) -> Result<(), AllocError>
    ensures { OnOk result (decks.new.items ≡ decks.old.items ++ deck_renewed statuses.now part.now before.now ident.now) }
{
    if ident.held && ident.kind.is_deck() {
        push_aged(alloc, decks, statuses, part, before, ident.age)?;
    }
    Ok(())
}

fn push_aged(
    alloc: Global,
    decks: &mut Vec<ActiveDeck>,
    statuses: &Statuses,
    part: &Library,
    before: &Actives,
    serial: Serial,
) -> Result<(), AllocError>
    ensures { OnOk result (decks.new.items ≡ decks.old.items ++ deck_of_age statuses.now part.now before.now serial) }
{
    if let Some(deck) = deck_aged(part.decks(), serial) {
        let renewed = renewed_deck(alloc, statuses, part.idents(), deck)?;
        decks.push(renewed)?;
    } else if let Some(deck) = active_deck_aged(&before.decks, serial) {
        let copy = deck.copy()?;
        decks.push(copy)?;
    }
    Ok(())
}

fn active_deck_aged(decks: &[ActiveDeck], serial: Serial) -> Option<&ActiveDeck>
    ensures { option_copied result ≡ find (is_active_deck serial) decks.now }
{
    for deck in decks {
        if deck.ident == serial {
            return Some(deck);
        }
    }
    None
}

/// The active cards of a deck, by the cached statuses.
fn renewed_deck(
    alloc: Global,
    statuses: &Statuses,
    idents: &[Ident],
    deck: &Deck,
) -> Result<ActiveDeck, AllocError>
    ensures { IfOk result (λ renewed. renewed ≡ deck_anew statuses.now idents.now deck.now) }
{
    let mut renewed = ActiveDeck::new(alloc, deck.ident);
    push_active(&mut renewed, statuses, idents, &deck.cards)?;
    Ok(renewed)
}

fn push_active(
    deck: &mut ActiveDeck,
    statuses: &Statuses,
    idents: &[Ident],
    cards: &[Card],
) -> Result<(), AllocError>
    ensures { OnOk result (deck.new ≡ record deck.old {
      cards = deck.old.cards ++ map without_past
          (filter (λ c. was_active statuses.now (counted_card idents.now deck.old.ident c)) cards.now);
    }) }
{
    for card in cards {
        if statuses.of(card_ref(idents, card)).unwrap_or(false) {
            deck.push(card.ident, card.number, &card.text)?;
        }
    }
    Ok(())
}
