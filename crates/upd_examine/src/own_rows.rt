//! The rows that a library itself has.
ghost use Rattle.std.specs.Prelude.{◌≡◌, ◌≤◌, ◌^◌, ◌++◌, IfOk, OnErr};
ghost use Rattle.std.specs.List.{flat_map};
ghost use Rattle.upd_core.specs.Library.{ref_of};
ghost use Rattle.upd_records.specs.Rows.{card_rows, entry_rows, rows_of, target_rows};

use std::alloc::{AllocError, Global};
use upd_core::card::card_ref;
use upd_core::{Card, CardRef, Deck, Entry, Ident, Library, Serial, Target};
use upd_records::{CardRow, EntryRow, LibraryRows, TargetRow};

/// A place as rows have it. It returns `AllocError` for 2^32 and more.
fn index_u32(index: usize) -> Result<u32, AllocError>
    ensures place { IfOk result (λ place. place ≡ index) }
    ensures err { OnErr result (2 ^ 32 ≤ index) }
{
    match u32::try_from(index) {
        Ok(place) => Ok(place),
        Err(_) => Err(AllocError),
    }
}

fn add_card_rows(
    rows: &mut Vec<CardRow>,
    idents: &[Ident],
    deck: Serial,
    cards: &[Card],
) -> Result<(), AllocError>
    ensures { IfOk result (λ _. rows.new.items ≡ rows.old.items ++ card_rows idents.now deck 0 cards.now) }
{
    for (i, card) in cards.iter().enumerate() {
        let body = Vec::from_slice(*rows.allocator(), &card.text)?;
        rows.push(CardRow {
            card: card_ref(idents, card),
            deck,
            pos: index_u32(i)?,
            body,
        })?;
    }
    Ok(())
}

fn add_entry_rows(
    rows: &mut Vec<EntryRow>,
    card: CardRef,
    history: &[Entry],
) -> Result<(), AllocError>
    ensures { IfOk result (λ _. rows.new.items ≡ rows.old.items ++ entry_rows card 0 history.now) }
{
    for (i, entry) in history.iter().enumerate() {
        rows.push(EntryRow {
            card,
            ord: index_u32(i)?,
            entry: *entry,
        })?;
    }
    Ok(())
}

fn add_target_rows(
    rows: &mut Vec<TargetRow>,
    card: CardRef,
    targets: &[Target],
) -> Result<(), AllocError>
    ensures { IfOk result (λ _. rows.new.items ≡ rows.old.items ++ target_rows card 0 targets.now) }
{
    for (i, target) in targets.iter().enumerate() {
        rows.push(TargetRow {
            card,
            ord: index_u32(i)?,
            target: *target,
        })?;
    }
    Ok(())
}

/// Adds the rows of the entries of cards.
fn add_entries(rows: &mut Vec<EntryRow>, idents: &[Ident], cards: &[Card]) -> Result<(), AllocError>
    ensures { IfOk result (λ _. rows.new.items
        ≡ rows.old.items ++ flat_map (λ c. entry_rows (ref_of idents.now c) 0 c.history) cards.now) }
{
    for card in cards {
        add_entry_rows(rows, card_ref(idents, card), &card.history)?;
    }
    Ok(())
}

/// Adds the rows of the targets of cards.
fn add_targets(
    rows: &mut Vec<TargetRow>,
    idents: &[Ident],
    cards: &[Card],
) -> Result<(), AllocError>
    ensures { IfOk result (λ _. rows.new.items
        ≡ rows.old.items ++ flat_map (λ c. target_rows (ref_of idents.now c) 0 c.targets) cards.now) }
{
    for card in cards {
        add_target_rows(rows, card_ref(idents, card), &card.targets)?;
    }
    Ok(())
}

/// The rows of the cards of decks.
fn card_rows_of(
    alloc: Global,
    idents: &[Ident],
    yanks: &[Card],
    decks: &[Deck],
) -> Result<Vec<CardRow>, AllocError>
    ensures { IfOk result (λ rows. rows.items
        ≡ card_rows idents.now 0 0 yanks.now ++ flat_map (λ d. card_rows idents.now d.ident 0 d.cards) decks.now) }
{
    let mut rows = Vec::new(alloc);
    add_card_rows(&mut rows, idents, 0, yanks)?;
    for deck in decks {
        add_card_rows(&mut rows, idents, deck.ident, &deck.cards)?;
    }
    Ok(rows)
}

/// The rows of the entries of the cards of decks.
fn entry_rows_of(
    alloc: Global,
    idents: &[Ident],
    yanks: &[Card],
    decks: &[Deck],
) -> Result<Vec<EntryRow>, AllocError>
    ensures { IfOk result (λ rows. rows.items
        ≡ flat_map (λ c. entry_rows (ref_of idents.now c) 0 c.history) yanks.now
        ++ flat_map (λ d. flat_map (λ c. entry_rows (ref_of idents.now c) 0 c.history) d.cards) decks.now) }
{
    let mut rows = Vec::new(alloc);
    add_entries(&mut rows, idents, yanks)?;
    for deck in decks {
        add_entries(&mut rows, idents, &deck.cards)?;
    }
    Ok(rows)
}

/// The rows of the targets of the cards of decks.
fn target_rows_of(
    alloc: Global,
    idents: &[Ident],
    yanks: &[Card],
    decks: &[Deck],
) -> Result<Vec<TargetRow>, AllocError>
    ensures { IfOk result (λ rows. rows.items
        ≡ flat_map (λ c. target_rows (ref_of idents.now c) 0 c.targets) yanks.now
        ++ flat_map (λ d. flat_map (λ c. target_rows (ref_of idents.now c) 0 c.targets) d.cards) decks.now) }
{
    let mut rows = Vec::new(alloc);
    add_targets(&mut rows, idents, yanks)?;
    for deck in decks {
        add_targets(&mut rows, idents, &deck.cards)?;
    }
    Ok(rows)
}

/// The rows of a library. It returns `AllocError` also where a deck has 2^32 cards, or a card as many entries or targets.
pub fn own_rows(alloc: Global, library: &Library) -> Result<LibraryRows, AllocError>
    ensures idents { IfOk result (λ rows. rows.idents.items ≡ (rows_of library.now).idents) }
    ensures cards { IfOk result (λ rows. rows.cards.items ≡ (rows_of library.now).cards) }
    ensures entries { IfOk result (λ rows. rows.entries.items ≡ (rows_of library.now).entries) }
    ensures targets { IfOk result (λ rows. rows.targets.items ≡ (rows_of library.now).targets) }
{
    let idents = library.idents();
    let yanks = library.yanks();
    let decks = library.decks();
    let own = Vec::from_slice(alloc, idents)?;
    let cards = card_rows_of(alloc, idents, yanks, decks)?;
    let entries = entry_rows_of(alloc, idents, yanks, decks)?;
    let targets = target_rows_of(alloc, idents, yanks, decks)?;
    Ok(LibraryRows {
        idents: own,
        cards,
        entries,
        targets,
    })
}
