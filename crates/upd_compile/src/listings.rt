//! The four listings, and the lines that they are made of. Each line ends with LF.
ghost use Rattle.std.specs.Prelude.{◌≡◌, ◌∷◌, ◌++◌, [], ℕ, Err, List, None, if◌then◌else◌, codes, OnOk, IfOk, not};
ghost use Rattle.std.specs.List.{flat_map, list_any};
ghost use Rattle.std.specs.Result.{IsOkUnless};
ghost use Rattle.upd_core.specs.declared.ident.Ident.{Ident};
ghost use Rattle.upd_text.specs.declared.fault.FaultKind.TheVariants.{CardUnknown, DeckUnknown, NoMemory};
ghost use Rattle.upd_text.specs.Faults.{fault_at};
ghost use Rattle.upd_text.specs.Outcome.{GivesAt};
ghost use Rattle.upd_core.specs.Library.{place_of};
ghost use Rattle.upd_core.specs.Sound.{AreAgedFrom, is_held};
ghost use Rattle.upd_core.specs.Status.{is_active, live_targets};
ghost use Rattle.upd_compile.specs.Listings.{deck_heading, deck_line, deck_listing, deck_name, listed_deck};
ghost use Rattle.upd_compile.specs.Listings.{card_lines, card_listing, card_name, entry_line, line_of};
ghost use Rattle.upd_compile.specs.Listings.{ident_line, ident_listing, is_purged, purged_suffix, target_line, yank_lines, yank_listing};

use crate::idents::{ident_at, name_of};
use crate::text_parts::{push_parts, suffix_if, word_of};
use itoa::Buffer;
use std::alloc::{AllocError, Global};
use upd_core::{Card, Entry, Ident, Kind, Library, Live, Serial, Target};
use upd_text::{CardRef, Fault, FaultKind, Name};

/// Lists a deck: its head line, then its cards, each with A (active) or I (inactive). `YANK$$$` can be listed too;
/// there active means live. DeckUnknown where no held deck has the name.
///
/// ```text
/// DECK A
/// A A.1 *DECK A
/// I A.2 ONE
/// A X.1 NEW
/// ```
pub fn list_deck(alloc: Global, library: &Library, name: &Name) -> Result<Vec<u8>, Fault>
    ensures listing { GivesAt (λ text. text.items) result (deck_listing name.now library.now) }
    ensures unknown { listed_deck name.now library.now ≡ None → result ≡ Err (fault_at DeckUnknown 0) }
{
    let deck = listed_deck(library, name).ok_or(FaultKind::DeckUnknown.without_line())?;
    deck_text(alloc, library, deck, library.cards_of(deck))
}

/// Lists a card with its status and history. CardUnknown where there is no such card.
pub fn list_card(alloc: Global, library: &Library, card: CardRef) -> Result<Vec<u8>, Fault>
    ensures listing { GivesAt (λ text. text.items) result (card_listing card library.now) }
    ensures unknown { place_of card library.now ≡ None → result ≡ Err (fault_at CardUnknown 0) }
{
    let unknown = FaultKind::CardUnknown.without_line();
    let place = library.card_at(card).ok_or(unknown)?;
    let card = library.card_in(place).ok_or(unknown)?;
    card_text(alloc, library, place.deck, card)
}

/// Lists all idents ever introduced, in order of serial.
///
/// ```text
/// 1 UNITS comdeck held
/// 2 ORBIT deck held
/// 3 P1 set held
/// 4 P2 set purged
/// ```
pub fn list_idents(alloc: Global, library: &Library) -> Result<Vec<u8>, Fault>
    ensures ok { IfOk result (λ text. text.items ≡ ident_listing library.now) }
    ensures err { IsOkUnless result (fault_at NoMemory 0) }
{
    let mut text = Vec::new(alloc);
    push_ident_lines(&mut text, library.idents())?;
    Ok(text)
}

/// Lists all yank cards, each live or dead, with their targets.
pub fn list_yanks(alloc: Global, library: &Library) -> Result<Vec<u8>, Fault>
    ensures ok { IfOk result (λ text. text.items ≡ yank_listing library.now) }
    ensures err { IsOkUnless result (fault_at NoMemory 0) }
{
    let live = library.live_yanks()?;
    let mut text = Vec::new(alloc);
    push_yanks(&mut text, library.idents(), &live, library.yanks())?;
    Ok(text)
}

/// Where the serials of a directory are 1, 2, .., the suffix `purged` is on exactly the serials that are not held.
#[tactic(auto, using(crate::proofs::ListingLemmas::purged_not_held))]
pub fn suffixes_show_the_purged_idents()
    ensures { (idents : List Ident) (z : ℕ) → AreAgedFrom 1 idents → is_purged idents z ≡ not (is_held idents z) }
{}

/// The serial of the deck with a name; 0 for `YANK$$$`.
fn listed_deck(library: &Library, name: &Name) -> Option<Serial>
    ensures { result ≡ listed_deck name.now library.now }
{
    if *name == Name::yank() {
        Some(0)
    } else {
        library.deck_of(name)
    }
}

/// The head line of a deck, and a line for each of these cards.
fn deck_text(
    alloc: Global,
    library: &Library,
    deck: Serial,
    cards: &[Card],
) -> Result<Vec<u8>, Fault>
    ensures ok { IfOk result (λ text. text.items
        ≡ deck_heading library.now.idents deck
        ++ flat_map (deck_line library.now.idents (live_targets library.now) deck) cards.now) }
    ensures err { IsOkUnless result (fault_at NoMemory 0) }
{
    let live = library.live_yanks()?;
    let mut text = Vec::new(alloc);
    push_heading(&mut text, library.idents(), deck)?;
    push_deck_lines(&mut text, library.idents(), &live, deck, cards)?;
    Ok(text)
}

fn push_heading(text: &mut Vec<u8>, idents: &[Ident], deck: Serial) -> Result<(), AllocError>
    ensures { OnOk result (text.new.items ≡ text.old.items ++ deck_heading idents.now deck) }
{
    match ident_at(idents, deck) {
        Some(ident) if ident.kind.is_common() => push_parts(
            text,
            &[
                b"COMDECK ",
                deck_name(idents, deck),
                suffix_if(ident.noprop, b" NOPROP"),
                b"\n",
            ],
        ),
        _ => push_parts(text, &[b"DECK ", deck_name(idents, deck), b"\n"]),
    }
}

fn push_deck_lines(
    text: &mut Vec<u8>,
    idents: &[Ident],
    live: &Live,
    deck: Serial,
    cards: &[Card],
) -> Result<(), AllocError>
    ensures { OnOk result (text.new.items
        ≡ text.old.items ++ flat_map (deck_line idents.now live.now.targets deck) cards.now) }
{
    for card in cards {
        let status = word_of(live.is_active(deck, card), b"A", b"I");
        push_card(text, status, idents, card)?;
    }
    Ok(())
}

/// The listing of a card, with its status and history.
fn card_text(alloc: Global, library: &Library, deck: Serial, card: &Card) -> Result<Vec<u8>, Fault>
    ensures ok { IfOk result (λ text. text.items
        ≡ card_lines library.now.idents (live_targets library.now) deck card.now) }
    ensures err { IsOkUnless result (fault_at NoMemory 0) }
{
    let live = library.live_yanks()?;
    let mut text = Vec::new(alloc);
    push_card_lines(&mut text, library.idents(), &live, deck, card)?;
    Ok(text)
}

fn push_card_lines(
    text: &mut Vec<u8>,
    idents: &[Ident],
    live: &Live,
    deck: Serial,
    card: &Card,
) -> Result<(), AllocError>
    ensures { OnOk result (text.new.items ≡ text.old.items ++ card_lines idents.now live.now.targets deck card.now) }
{
    push_head(text, idents, card)?;
    push_fields(text, idents, live, deck, card)?;
    push_entries(text, idents, live, deck, &card.history)
}

fn push_head(text: &mut Vec<u8>, idents: &[Ident], card: &Card) -> Result<(), AllocError>
    ensures { OnOk result (text.new.items
        ≡ text.old.items ++ line_of (codes "CARD" ∷ card_name idents.now card.now ∷ [])) }
{
    text.extend_from_slice(b"CARD ")?;
    push_card_name(text, idents, card)?;
    text.extend_from_slice(b"\n")
}

fn push_fields(
    text: &mut Vec<u8>,
    idents: &[Ident],
    live: &Live,
    deck: Serial,
    card: &Card,
) -> Result<(), AllocError>
    ensures { OnOk result (text.new.items ≡ text.old.items
        ++ line_of (codes "DECK" ∷ deck_name idents.now deck ∷ []) ++ line_of (codes "TEXT" ∷ card.now.text ∷ [])
        ++ line_of (codes "STATUS"
        ∷ (if is_active live.now.targets deck card.now then codes "active" else codes "inactive") ∷ [])) }
{
    push_parts(text, &[b"DECK ", deck_name(idents, deck), b"\nTEXT "])?;
    let status = word_of(live.is_active(deck, card), b"active", b"inactive");
    push_parts(text, &[&card.text, b"\nSTATUS ", status, b"\n"])
}

/// Appends the lines of a card's history in a deck.
pub fn push_entries(
    text: &mut Vec<u8>,
    idents: &[Ident],
    live: &Live,
    deck: Serial,
    history: &[Entry],
) -> Result<(), AllocError>
    ensures { OnOk result (text.new.items
        ≡ text.old.items ++ flat_map (entry_line idents.now live.now.targets deck) history.now) }
{
    for entry in history {
        push_entry(text, idents, live, deck, entry)?;
    }
    Ok(())
}

fn push_entry(
    text: &mut Vec<u8>,
    idents: &[Ident],
    live: &Live,
    deck: Serial,
    entry: &Entry,
) -> Result<(), AllocError>
    ensures { OnOk result (text.new.items ≡ text.old.items ++ entry_line idents.now live.now.targets deck entry.now) }
{
    push_parts(
        text,
        &[
            b"ENTRY ",
            name_of(idents, entry.ident),
            word_of(entry.active, b" on", b" off"),
            suffix_if(live.is_taken(deck, entry.ident), b" taken"),
            b"\n",
        ],
    )
}

fn push_ident_lines(text: &mut Vec<u8>, idents: &[Ident]) -> Result<(), AllocError>
    ensures { OnOk result (text.new.items ≡ text.old.items ++ flat_map ident_line idents.now) }
{
    for ident in idents {
        push_ident(text, ident)?;
    }
    Ok(())
}

fn push_ident(text: &mut Vec<u8>, ident: &Ident) -> Result<(), AllocError>
    ensures { OnOk result (text.new.items ≡ text.old.items ++ ident_line ident.now) }
{
    let kind: &[u8] = match ident.kind {
        Kind::Set => b"set",
        Kind::Deck => b"deck",
        Kind::Common => b"comdeck",
    };
    let state = word_of(ident.held, b"held", b"purged");
    text.extend_from_slice(Buffer::new().format(ident.age).as_bytes())?;
    push_parts(
        text,
        &[b" ", ident.name.as_bytes(), b" ", kind, b" ", state, b"\n"],
    )
}

fn push_yanks(
    text: &mut Vec<u8>,
    idents: &[Ident],
    live: &Live,
    yanks: &[Card],
) -> Result<(), AllocError>
    ensures { OnOk result (text.new.items
        ≡ text.old.items ++ flat_map (yank_lines idents.now live.now.targets) yanks.now) }
{
    for card in yanks {
        let status = word_of(live.is_good(0, card), b"live", b"dead");
        push_card(text, status, idents, card)?;
        push_targets(text, idents, &card.targets)?;
    }
    Ok(())
}

/// Appends the lines of targets, as the listing of the yanks has them.
pub fn push_targets(
    text: &mut Vec<u8>,
    idents: &[Ident],
    targets: &[Target],
) -> Result<(), AllocError>
    ensures { OnOk result (text.new.items ≡ text.old.items ++ flat_map (target_line idents.now) targets.now) }
{
    for target in targets {
        push_target(text, idents, *target)?;
    }
    Ok(())
}

/// Appends the line of a target.
pub fn push_target(text: &mut Vec<u8>, idents: &[Ident], target: Target) -> Result<(), AllocError>
    ensures { OnOk result (text.new.items ≡ text.old.items ++ target_line idents.now target) }
{
    match target {
        Target::Set(set) => push_parts(
            text,
            &[
                b" set ",
                name_of(idents, set),
                purged_suffix(idents, &[set]),
                b"\n",
            ],
        ),
        Target::SetIn(set, deck) => push_parts(
            text,
            &[
                b" setin ",
                name_of(idents, set),
                b" ",
                name_of(idents, deck),
                purged_suffix(idents, &[set, deck]),
                b"\n",
            ],
        ),
        Target::Deck(deck) => push_parts(
            text,
            &[
                b" deck ",
                name_of(idents, deck),
                purged_suffix(idents, &[deck]),
                b"\n",
            ],
        ),
    }
}

/// The suffix ` purged` where one of these idents is purged; else nothing.
fn purged_suffix<'a>(idents: &'a [Ident], ages: &[Serial]) -> &'a [u8]
    ensures { result.now ≡ flat_map (λ x. 32 ∷ x) (purged_suffix idents.now ages.now) }
{
    suffix_if(is_any_purged(idents, ages), b" purged")
}

fn is_any_purged(idents: &[Ident], ages: &[Serial]) -> bool
    ensures { result ≡ list_any (is_purged idents.now) ages.now }
{
    ages.iter().any(|&age| is_purged(idents, age))
}

fn is_purged(idents: &[Ident], age: Serial) -> bool
    ensures { result ≡ is_purged idents.now age }
{
    match ident_at(idents, age) {
        Some(ident) => !ident.held,
        None => true,
    }
}

/// The name of the deck with a serial.
pub fn deck_name(idents: &[Ident], age: Serial) -> &[u8]
    ensures { result.now ≡ deck_name idents.now age }
{
    if age == 0 {
        b"YANK$$$"
    } else {
        name_of(idents, age)
    }
}

/// Appends a line of a card: a word, its reference and its text.
pub fn push_card(
    text: &mut Vec<u8>,
    status: &[u8],
    idents: &[Ident],
    card: &Card,
) -> Result<(), AllocError>
    ensures { OnOk result (text.new.items
        ≡ text.old.items ++ line_of (status.now ∷ card_name idents.now card.now ∷ card.now.text ∷ [])) }
{
    push_parts(text, &[status, b" "])?;
    push_card_name(text, idents, card)?;
    push_parts(text, &[b" ", &card.text, b"\n"])
}

/// Appends the reference of a card.
pub fn push_card_name(text: &mut Vec<u8>, idents: &[Ident], card: &Card) -> Result<(), AllocError>
    ensures { OnOk result (text.new.items ≡ text.old.items ++ card_name idents.now card.now) }
{
    push_parts(text, &[name_of(idents, card.ident), b"."])?;
    text.extend_from_slice(Buffer::new().format(card.number).as_bytes())
}
