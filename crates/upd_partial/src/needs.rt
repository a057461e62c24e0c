//! The decks that a run needs, from its lines.

ghost use Rattle.std.specs.Prelude.{◌≡◌, ◌++◌, IfOk, OnOk};
ghost use Rattle.std.specs.List.{list_any};
ghost use Rattle.std.specs.List.Sorted.{IsStrictlySortedBy};
ghost use Rattle.upd_text.specs.Order.{by_name};
ghost use Rattle.upd_deck.specs.LineFields.{seen};
ghost use Rattle.upd_partial.specs.Needed.{AreAlike, cards_named, is_yank_card};
ghost use Rattle.upd_partial.specs.Needless.{cards_of_item, is_plain, is_plain_item};

use std::alloc::{AllocError, Global};
use upd_core::Library;
use upd_deck::{Item, Run};
use upd_row_store::cards_once;
use upd_text::CardRef;

/// Whether no line of a run yanks or purges.
pub fn is_plain(run: &Run<'_>) -> bool
    ensures { result ≡ is_plain run.now }
{
    run.lines().iter().all(|line| is_plain_item(&line.item))
}

fn is_plain_item(item: &Item) -> bool
    ensures { result ≡ is_plain_item (seen item.now) }
{
    match item {
        Item::Yank(_)
        | Item::SelYank(_)
        | Item::YankDeck(_)
        | Item::Purge(_)
        | Item::PurgeFrom(_)
        | Item::SelPurge(_)
        | Item::PurDeck(_) => false,
        _ => true,
    }
}

/// The cards that the lines of a run name, by name, each once.
pub fn cards_named(alloc: Global, run: &Run<'_>) -> Result<Vec<CardRef>, AllocError>
    ensures order { IfOk result (λ cards. IsStrictlySortedBy by_name cards.items) }
    ensures same { IfOk result (λ cards. AreAlike cards.items (cards_named run.now)) }
{
    let named = cards_by_line(alloc, run)?;
    let cards = cards_once(alloc, &named)?;
    Ok(cards)
}

/// The cards that the lines of a run name, in the order of the lines, as often as they name them.
fn cards_by_line(alloc: Global, run: &Run<'_>) -> Result<Vec<CardRef>, AllocError>
    ensures { IfOk result (λ cards. cards.items ≡ cards_named run.now) }
{
    let mut cards = Vec::new(alloc);
    for line in run.lines() {
        push_cards_of_item(&mut cards, &line.item)?;
    }
    Ok(cards)
}

fn push_cards_of_item(cards: &mut Vec<CardRef>, item: &Item) -> Result<(), AllocError>
    ensures { OnOk result (cards.new.items ≡ cards.old.items ++ cards_of_item (seen item.now)) }
{
    match item {
        Item::Insert(card) | Item::Before(card) => cards.push(*card)?,
        Item::Delete { first, last } | Item::Restore { first, last } => {
            cards.push(*first)?;
            cards.push(*last)?;
        }
        _ => {}
    }
    Ok(())
}

/// Whether one of these references names a yank card.
pub fn any_names_yank_card(cards: &[CardRef], library: &Library) -> bool
    ensures { result ≡ list_any (is_yank_card library.now) cards.now }
{
    cards.iter().any(|card| is_yank_card(*card, library))
}

fn is_yank_card(card: CardRef, library: &Library) -> bool
    ensures { result ≡ is_yank_card library.now card }
{
    match library.card_at(card) {
        Some(place) => place.deck == 0,
        None => false,
    }
}
