//! The text of a deck.
ghost use Rattle.std.specs.Prelude.{◌≡◌, ◌++◌, IfOk, OnOk};
ghost use Rattle.std.specs.List.{filter, flat_map};
ghost use Rattle.std.specs.Result.{IsOkUnless};
ghost use Rattle.upd_core.specs.Status.{is_active};
ghost use Rattle.upd_edit.specs.ActiveText.{active_text, card_line, lines_of_deck};
ghost use Rattle.upd_text.specs.Faults.{fault_at};
ghost use Rattle.upd_text.specs.Outcome.{GivesAt};
ghost use Rattle.upd_text.specs.declared.fault.FaultKind.TheVariants.{NoMemory};

use std::alloc::{AllocError, Global};
use upd_core::{Card, Library, Live, Name, Serial};
use upd_text::{Fault, FaultKind};

/// The active cards of a deck as plain text, each with LF, the deck's first card included. DeckUnknown, at 0, where no
/// held deck has the name.
pub fn active_text(alloc: Global, library: &Library, name: &Name) -> Result<Vec<u8>, Fault>
    ensures { GivesAt (λ text. text.items) result (active_text name.now library.now) }
{
    let unknown = FaultKind::DeckUnknown.without_line();
    let deck = library.deck_of(name).ok_or(unknown)?;
    lines_of_deck(alloc, library, deck)
}

/// The text of a deck by its serial. The only error is NoMemory.
fn lines_of_deck(alloc: Global, library: &Library, deck: Serial) -> Result<Vec<u8>, Fault>
    ensures ok { IfOk result (λ text. text.items ≡ lines_of_deck deck library.now) }
    ensures err { IsOkUnless result (fault_at NoMemory 0) }
{
    let live = library.live_yanks()?;
    let mut text = Vec::new(alloc);
    push_active(&mut text, &live, deck, library.cards_of(deck))?;
    Ok(text)
}

/// Appends the texts of the active ones of these cards.
fn push_active(
    text: &mut Vec<u8>,
    live: &Live,
    deck: Serial,
    cards: &[Card],
) -> Result<(), AllocError>
    ensures { OnOk result (text.new.items
        ≡ text.old.items ++ flat_map card_line (filter (is_active live.now.targets deck) cards.now)) }
{
    for card in cards {
        if live.is_active(deck, card) {
            push_line(text, card)?;
        }
    }
    Ok(())
}

fn push_line(text: &mut Vec<u8>, card: &Card) -> Result<(), AllocError>
    ensures { OnOk result (text.new.items ≡ text.old.items ++ card_line card.now) }
{
    text.extend_from_slice(&card.text)?;
    text.push(b'\n')?;
    Ok(())
}
