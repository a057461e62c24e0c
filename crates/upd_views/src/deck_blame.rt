//! Who switched the cards of a deck last.

ghost use Rattle.std.specs.Prelude.{◌≡◌, ◌≤◌, ◌+◌, ◌++◌, ℕ, List, decimal, length, IfOk, OnOk};
ghost use Rattle.std.specs.List.{flat_map};
ghost use Rattle.std.specs.Result.{IsOkUnless};
ghost use Rattle.upd_core.specs.Library.{CardView, name_of};
ghost use Rattle.upd_core.specs.declared.ident.Ident.{Ident};
ghost use Rattle.upd_core.specs.declared.target.Target.{Target};
ghost use Rattle.upd_views.specs.Blame.{blame, blame_line, blame_lines, switcher};
ghost use Rattle.upd_text.specs.Faults.{fault_at};
ghost use Rattle.upd_text.specs.Outcome.{GivesAt};
ghost use Rattle.upd_text.specs.declared.fault.FaultKind.TheVariants.{NoMemory};

use crate::appending::{push_card_column, push_column, status_letter};
use crate::printing::push_card_text;
use std::alloc::{AllocError, Global};
use upd_compile::idents::name_of;
use upd_core::{Card, Ident, Library, Live, Name, Serial};
use upd_text::{Fault, FaultKind};

/// The columns of a line in front of the card's text. They have 32 bytes together, so that tabs in the text lead to
/// the same places as in the text by itself.
const STATUS_COLUMN: usize = 2;

const CARD_COLUMN: usize = 18;

const SWITCHER_COLUMN: usize = 12;

/// A line for each card of a deck: A (active) or I (inactive), its reference, who switched it last, and its text.
/// DeckUnknown, at 0, where no held deck has the name.
pub fn blame(alloc: Global, library: &Library, name: &Name) -> Result<Vec<u8>, Fault>
    ensures { GivesAt (λ text. text.items) result (blame name.now library.now) }
{
    let unknown = FaultKind::DeckUnknown.without_line();
    let deck = library.deck_of(name).ok_or(unknown)?;
    blame_text(alloc, library, deck)
}

/// The lines of a deck by its serial. The only error is NoMemory.
fn blame_text(alloc: Global, library: &Library, deck: Serial) -> Result<Vec<u8>, Fault>
    ensures ok { IfOk result (λ text. text.items ≡ blame_lines deck library.now) }
    ensures err { IsOkUnless result (fault_at NoMemory 0) }
{
    let live = library.live_yanks()?;
    let mut text = Vec::new(alloc);
    push_blame(
        &mut text,
        library.idents(),
        &live,
        deck,
        library.cards_of(deck),
    )?;
    Ok(text)
}

fn push_blame(
    text: &mut Vec<u8>,
    idents: &[Ident],
    live: &Live,
    deck: Serial,
    cards: &[Card],
) -> Result<(), AllocError>
    ensures { OnOk result (text.new.items
        ≡ text.old.items ++ flat_map (blame_line idents.now live.now.targets deck) cards.now) }
{
    for card in cards {
        push_blame_line(text, idents, live, deck, card)?;
    }
    Ok(())
}

/// Appends the line of a card.
pub(crate) fn push_blame_line(
    text: &mut Vec<u8>,
    idents: &[Ident],
    live: &Live,
    deck: Serial,
    card: &Card,
) -> Result<(), AllocError>
    ensures { OnOk result (text.new.items ≡ text.old.items ++ blame_line idents.now live.now.targets deck card.now) }
{
    let switcher = name_of(idents, switcher(live, deck, card));
    push_column(text, status_letter(live, deck, card), STATUS_COLUMN)?;
    push_card_column(text, idents, card, CARD_COLUMN)?;
    push_column(text, switcher, SWITCHER_COLUMN)?;
    push_card_text(text, &card.text)?;
    text.extend_from_slice(b"\n")
}

/// The serial of who switched a card last: of its last entry that isn't taken in the deck, else of the card's own
/// ident.
fn switcher(live: &Live, deck: Serial, card: &Card) -> Serial
    ensures { result ≡ switcher live.now.targets deck card.now }
{
    let mut last = card.ident;
    for entry in &card.history {
        if !live.is_taken(deck, entry.ident) {
            last = entry.ident;
        }
    }
    last
}

/// Where names have at most 9 bytes and the card's number at most 6 digits, the columns in front of a card's text have
/// 32 bytes: texts begin in one column.
pub fn texts_begin_in_one_column()
    ensures { (idents : List Ident) (live : List Target) (deck : ℕ) (c : CardView) → length (name_of idents c.ident) ≤ 9
        → length (decimal c.number) ≤ 6 → length (name_of idents (switcher live deck c)) ≤ 9
        → length (blame_line idents live deck c) ≡ 33 + length c.text }
{}
