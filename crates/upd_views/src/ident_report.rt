//! What an ident did: the cards that it added, what it switched, and what yanks it.

ghost use Rattle.std.specs.Prelude.{◌≡◌, ◌==◌, ◌++◌, if◌then◌else◌, codes, drop, IfOk, OnOk};
ghost use Rattle.std.specs.List.{filter, flat_map};
ghost use Rattle.std.specs.Result.{IsOkUnless};
ghost use Rattle.upd_core.specs.Library.{all_decks};
ghost use Rattle.upd_core.specs.Status.{is_good};
ghost use Rattle.upd_views.specs.IdentReport.{added_lines, card_part, deck_part, ident_heading, is_of};
ghost use Rattle.upd_views.specs.IdentReport.{report, show, switch_line, yanked_line, yanked_lines};
ghost use Rattle.upd_text.specs.Faults.{fault_at};
ghost use Rattle.upd_text.specs.Outcome.{GivesAt};
ghost use Rattle.upd_text.specs.declared.fault.FaultKind.TheVariants.{NoMemory};

use crate::appending::{push_card_line, push_deck_line, status_letter};
use crate::introducing_run::push_introducer;
use std::alloc::{AllocError, Global};
use upd_compile::listings::{push_card_name, push_target, push_targets};
use upd_compile::text_parts::push_parts;
use upd_core::{Card, Deck, Entry, Ident, Kind, Library, Live, Name, Serial, Target};
use upd_records::RunRow;
use upd_text::{Fault, FaultKind};

/// What the held ident with a name did: its kind, the live yanks that take it, and deck by deck the cards that it
/// added and the cards that it switched; and the run that introduced it, where it is one of these stored runs and has a
/// message. IdentUnknown, at 0, where no held ident has the name.
pub fn show(
    alloc: Global,
    library: &Library,
    runs: &[RunRow],
    name: &Name,
) -> Result<Vec<u8>, Fault>
    ensures { GivesAt (λ text. text.items) result (show name.now runs.now library.now) }
{
    let unknown = FaultKind::IdentUnknown.without_line();
    let ident = library.held(name).ok_or(unknown)?;
    let mut text = report(alloc, library, ident)?;
    push_introducer(&mut text, runs, library.idents(), name)?;
    Ok(text)
}

/// The report of an ident. The only error is NoMemory.
fn report(alloc: Global, library: &Library, ident: &Ident) -> Result<Vec<u8>, Fault>
    ensures ok { IfOk result (λ text. text.items ≡ report ident.now library.now) }
    ensures err { IsOkUnless result (fault_at NoMemory 0) }
{
    let live = library.live_yanks()?;
    let mut text = Vec::new(alloc);
    push_heading(&mut text, ident)?;
    push_yanked(
        &mut text,
        library.idents(),
        &live,
        ident.age,
        library.yanks(),
    )?;
    push_all_decks(&mut text, library, &live, ident.age)?;
    Ok(text)
}

#[tactic(auto, unfolding(crate::specs::IdentReport::ident_heading))]
fn push_heading(text: &mut Vec<u8>, ident: &Ident) -> Result<(), AllocError>
    ensures { OnOk result (text.new.items ≡ text.old.items ++ ident_heading ident.now) }
{
    let kind: &[u8] = match ident.kind {
        Kind::Set => b" set",
        Kind::Deck => b" deck",
        Kind::Common => b" comdeck",
    };
    let end: &[u8] = if ident.noprop { b" NOPROP\n" } else { b"\n" };
    push_parts(text, &[b"IDENT ", ident.name.as_bytes(), kind, end])
}

/// The lines of the live yank cards that take an ident.
fn push_yanked(
    text: &mut Vec<u8>,
    idents: &[Ident],
    live: &Live,
    ident: Serial,
    yanks: &[Card],
) -> Result<(), AllocError>
    ensures { OnOk result (text.new.items ≡ text.old.items
        ++ flat_map (yanked_lines idents.now ident) (filter (is_good live.now.targets 0) yanks.now)) }
{
    for card in yanks {
        if live.is_good(0, card) {
            push_yanked_lines(text, idents, ident, card)?;
        }
    }
    Ok(())
}

fn push_yanked_lines(
    text: &mut Vec<u8>,
    idents: &[Ident],
    ident: Serial,
    card: &Card,
) -> Result<(), AllocError>
    ensures { OnOk result (text.new.items ≡ text.old.items ++ yanked_lines idents.now ident card.now) }
{
    for target in &card.targets {
        if is_of(*target, ident) {
            push_yanked_line(text, idents, card, *target)?;
        }
    }
    Ok(())
}

fn push_yanked_line(
    text: &mut Vec<u8>,
    idents: &[Ident],
    card: &Card,
    target: Target,
) -> Result<(), AllocError>
    ensures { OnOk result (text.new.items ≡ text.old.items ++ yanked_line idents.now card.now target) }
{
    text.extend_from_slice(b"YANKED ")?;
    push_card_name(text, idents, card)?;
    push_target(text, idents, target)
}

/// Whether a target takes an ident, everywhere or in one deck, or takes its deck.
fn is_of(target: Target, ident: Serial) -> bool
    ensures { result ≡ is_of ident target }
{
    match target {
        Target::Set(set) | Target::SetIn(set, _) => set == ident,
        Target::Deck(deck) => deck == ident,
    }
}

/// What an ident did in each deck, `YANK$$$` first.
fn push_all_decks(
    text: &mut Vec<u8>,
    library: &Library,
    live: &Live,
    ident: Serial,
) -> Result<(), AllocError>
    ensures { OnOk result (text.new.items ≡ text.old.items
        ++ flat_map (deck_part library.now.idents live.now.targets ident) (all_decks library.now)) }
{
    let idents = library.idents();
    push_deck(text, idents, live, ident, 0, library.yanks())?;
    push_decks(text, idents, live, ident, library.decks())
}

fn push_decks(
    text: &mut Vec<u8>,
    idents: &[Ident],
    live: &Live,
    ident: Serial,
    decks: &[Deck],
) -> Result<(), AllocError>
    ensures { OnOk result (text.new.items
        ≡ text.old.items ++ flat_map (deck_part idents.now live.now.targets ident) decks.now) }
{
    for deck in decks {
        push_deck(text, idents, live, ident, deck.ident, &deck.cards)?;
    }
    Ok(())
}

/// What an ident did in a deck, if anything.
fn push_deck(
    text: &mut Vec<u8>,
    idents: &[Ident],
    live: &Live,
    ident: Serial,
    deck: Serial,
    cards: &[Card],
) -> Result<(), AllocError>
    ensures { OnOk result (text.new.items ≡ text.old.items
        ++ deck_part idents.now live.now.targets ident (record { ident = deck; cards = cards.now })) }
{
    let mut lines = Vec::new(*text.allocator());
    push_cards(&mut lines, idents, live, ident, deck, cards)?;
    if lines.is_empty() {
        return Ok(());
    }
    push_deck_line(text, idents, deck)?;
    text.extend_from_slice(&lines)
}

fn push_cards(
    text: &mut Vec<u8>,
    idents: &[Ident],
    live: &Live,
    ident: Serial,
    deck: Serial,
    cards: &[Card],
) -> Result<(), AllocError>
    ensures { OnOk result (text.new.items
        ≡ text.old.items ++ flat_map (card_part idents.now live.now.targets ident deck) cards.now) }
{
    for card in cards {
        push_added(text, idents, live, ident, deck, card)?;
        push_switched(text, idents, ident, card, later_entries(&card.history))?;
    }
    Ok(())
}

/// The lines of a card, where the ident added it.
fn push_added(
    text: &mut Vec<u8>,
    idents: &[Ident],
    live: &Live,
    ident: Serial,
    deck: Serial,
    card: &Card,
) -> Result<(), AllocError>
    ensures { OnOk result (text.new.items
        ≡ text.old.items ++ added_lines idents.now live.now.targets ident deck card.now) }
{
    if card.ident != ident {
        return Ok(());
    }
    push_card_line(text, status_letter(live, deck, card), idents, card)?;
    push_targets(text, idents, &card.targets)
}

/// The lines of the ident's entries among these of a card.
fn push_switched(
    text: &mut Vec<u8>,
    idents: &[Ident],
    ident: Serial,
    card: &Card,
    entries: &[Entry],
) -> Result<(), AllocError>
    ensures { OnOk result (text.new.items ≡ text.old.items
        ++ flat_map (switch_line idents.now card.now) (filter (λ e. e.ident == ident) entries.now)) }
{
    for entry in entries {
        if entry.ident == ident {
            push_card_line(text, switch_word(entry), idents, card)?;
        }
    }
    Ok(())
}

/// The entries after the first.
fn later_entries(history: &[Entry]) -> &[Entry]
    ensures { result.now ≡ drop 1 history.now }
{
    if history.is_empty() {
        history
    } else {
        &history[1..]
    }
}

fn switch_word(entry: &Entry) -> &'static [u8]
    ensures { result.now ≡ (if entry.now.active then codes "on" else codes "off") }
{
    if entry.active { b"on" } else { b"off" }
}
