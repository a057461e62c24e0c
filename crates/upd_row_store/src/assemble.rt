//! A library out of its rows, which come in any order.
ghost use Rattle.std.specs.Prelude.{◌≡◌, ℕ, ◌==◌, Bool, false, List, [], ◌∷◌, ◌++◌, Some, IfOk, OnOk, length};
ghost use Rattle.std.specs.BTreeSet as sorted;
ghost use Rattle.std.specs.Cmp.Lexicographic.{slice_cmp};
ghost use Rattle.std.specs.List.{filter, find, list_any};
ghost use Rattle.std.specs.Ordering.{nat_cmp};
ghost use Rattle.std.specs.Str.{bytes_eq};
ghost use Rattle.upd_text.specs.Units.{Bytes};
ghost use Rattle.upd_text.specs.declared.card_ref.CardRef.{CardRef};
ghost use Rattle.upd_core.specs.Library.{LibraryView, empty};
ghost use Rattle.upd_core.specs.Sound.{IsSound, IsWhole};
ghost use Rattle.upd_core.specs.declared.ident.Ident.{Ident};
ghost use Rattle.upd_records.specs.Rows.{CardRow, EntryRow, IsSame, Rows, Shows, TargetRow, same_ref};
ghost use Rattle.upd_row_store.specs.Asked.{ShowsCard, ages_asked};
ghost use Rattle.upd_row_store.specs.declared.asked.DeckOf.TheVariants.{Named};
ghost use Rattle.upd_row_store.specs.Assembling.{AreAgesOf, AreEntriesByCard, AreRowsOf};
ghost use Rattle.upd_row_store.specs.Assembling.{AreTargetsByCard, age_named, card_of_row, decks_from, decks_in, entries_of};
ghost use Rattle.upd_row_store.specs.Assembling.{library_of, targets_of};
ghost use Rattle.upd_core.specs.Parts.{part_of};
ghost use Rattle.upd_row_store.specs.PartRows.{AreOfDistinctCards, part_rows};

use crate::asked::{DeckOf, ages_of_decks, decks_by_age};
use crate::by_card::rows_of;
use crate::parts::{name_set, rows_of_part};
use crate::sorted_rows::{by_age, by_place, entries_by_card, targets_by_card};
use std::alloc::{AllocError, Global};
use std::collections::{BTreeMap, BTreeSet};
use std::mem;
use upd_core::{Card, CardRef, Deck, Entry, Ident, Library, Rest, Serial, Target};
use upd_records::{CardRow, EntryRow, LibraryRows, TargetRow};
use upd_text::Name;

/// The places where the rows of the next card are looked for first.
#[derive(Drop)]
struct Places {
    entry: usize,
    target: usize,
}

/// The history of a card.
fn history_of(
    alloc: Global,
    rows: &[EntryRow],
    next: &mut usize,
    card: &CardRef,
) -> Result<Vec<Entry>, AllocError>
    requires { AreEntriesByCard rows.now }
    ensures { IfOk result (λ history. history.items ≡ entries_of card.now rows.now) }
{
    let own = rows_of(rows, next, card);
    let mut history = Vec::with_capacity(alloc, own.len())?;
    for row in own {
        history.push(row.entry)?;
    }
    Ok(history)
}

/// What a yank card takes.
fn targets_of(
    alloc: Global,
    rows: &[TargetRow],
    next: &mut usize,
    card: &CardRef,
) -> Result<Vec<Target>, AllocError>
    requires { AreTargetsByCard rows.now }
    ensures { IfOk result (λ targets. targets.items ≡ targets_of card.now rows.now) }
{
    let own = rows_of(rows, next, card);
    let mut targets = Vec::with_capacity(alloc, own.len())?;
    for row in own {
        targets.push(row.target)?;
    }
    Ok(targets)
}

/// The ages of held idents, by name.
pub fn held_ages(alloc: Global, idents: &[Ident]) -> Result<BTreeMap<Name, Serial>, AllocError>
    ensures { IfOk result (λ ages. AreAgesOf idents.now ages) }
{
    let mut ages = BTreeMap::new(alloc);
    for i in (0..idents.len()).rev() {
        let ident = idents[i];
        if ident.held {
            ages.insert(ident.name, ident.age)?;
        }
    }
    Ok(ages)
}

/// The serial of the held ident of a name, 0 where no ident has it.
pub fn age_of(ages: &BTreeMap<Name, Serial>, name: &Name) -> Serial
    ensures { (idents : List Ident) → AreAgesOf idents ages.now → result ≡ age_named idents name.now }
{
    match ages.get(name) {
        Some(age) => *age,
        None => 0,
    }
}

/// The card of a row, whose text it takes.
fn card_of(
    alloc: Global,
    row: CardRow,
    ages: &BTreeMap<Name, Serial>,
    entries: &[EntryRow],
    targets: &[TargetRow],
    places: &mut Places,
) -> Result<Card, AllocError>
    requires entries { AreEntriesByCard entries.now }
    requires targets { AreTargetsByCard targets.now }
    ensures { (idents : List Ident) → AreAgesOf idents ages.now
        → IfOk result (λ card. card ≡ card_of_row idents entries.now targets.now row) }
{
    let history = history_of(alloc, entries, &mut places.entry, &row.card)?;
    let targets = targets_of(alloc, targets, &mut places.target, &row.card)?;
    Ok(Card {
        ident: age_of(ages, &row.card.name),
        number: row.card.number,
        text: row.body,
        history,
        targets,
    })
}

/// Adds a card to the last deck, or begins its deck where that is another one.
fn add_in_order(
    decks: &mut Vec<Deck>,
    deck: &mut Deck,
    age: Serial,
    card: Card,
) -> Result<(), AllocError>
    ensures { OnOk result ((idents : List Ident) (entries : List EntryRow) (targets : List TargetRow)
        → (row : CardRow) (rows : List CardRow) → row.deck ≡ age → card ≡ card_of_row idents entries targets row
        → decks.new.items ++ decks_from idents entries targets deck.new rows
        ≡ decks.old.items ++ decks_from idents entries targets deck.old (row ∷ rows)) }
{
    if age != deck.ident {
        let next = Deck {
            ident: age,
            cards: Vec::new(*decks.allocator()),
        };
        decks.push(mem::replace(deck, next))?;
    }
    deck.cards.push(card)?;
    Ok(())
}

/// All decks of rows of cards in order, `YANK$$$` in front.
fn decks_in(
    alloc: Global,
    idents: &[Ident],
    cards: Vec<CardRow>,
    entries: &[EntryRow],
    targets: &[TargetRow],
) -> Result<Vec<Deck>, AllocError>
    requires entries { AreEntriesByCard entries.now }
    requires targets { AreTargetsByCard targets.now }
    ensures { IfOk result (λ decks. decks.items ≡ decks_in idents.now entries.now targets.now cards.items) }
{
    let ages = held_ages(alloc, idents)?;
    let mut decks = Vec::new(alloc);
    let mut deck = Deck {
        ident: 0,
        cards: Vec::new(alloc),
    };
    let mut places = Places {
        entry: 0,
        target: 0,
    };
    for row in cards {
        let age = row.deck;
        let card = card_of(alloc, row, &ages, entries, targets, &mut places)?;
        add_in_order(&mut decks, &mut deck, age, card)?;
    }
    decks.push(deck)?;
    Ok(decks)
}

/// The idents that have a name of a set.
fn idents_named(
    alloc: Global,
    idents: &[Ident],
    names: &BTreeSet<Name>,
) -> Result<Vec<Ident>, AllocError>
    ensures { IfOk result (λ named. named.items
        ≡ filter (λ i. sorted.contains (slice_cmp nat_cmp) names.now i.name) idents.now) }
{
    idents
        .iter()
        .filter(|ident| names.contains(&ident.name))
        .copied()
        .collect(alloc)
}

/// The decks in which cards stand. Where the idents are more than the cards, only those of the cards' names are put into a
/// map.
fn decks_among(
    alloc: Global,
    idents: &[Ident],
    cards: Vec<CardRow>,
    entries: &[EntryRow],
    targets: &[TargetRow],
) -> Result<Vec<Deck>, AllocError>
    requires { AreEntriesByCard entries.now × AreTargetsByCard targets.now }
    ensures { IfOk result (λ decks. decks.items ≡ decks_in idents.now entries.now targets.now cards.items) }
{
    if idents.len() <= cards.len() {
        return decks_in(alloc, idents, cards, entries, targets);
    }
    let names = name_set(alloc, &cards)?;
    let named = idents_named(alloc, idents, &names)?;
    decks_in(alloc, &named, cards, entries, targets)
}

/// Takes the cards of the first deck, which is `YANK$$$`.
fn take_yanks(alloc: Global, decks: &mut Vec<Deck>) -> Vec<Card>
    ensures { (idents : List Ident) → library_of idents decks.old.items
        ≡ record { idents = idents; decks = decks.new.items; yanks = result.items; rest = empty.rest } }
{
    if decks.is_empty() {
        return Vec::new(alloc);
    }
    let yanks = decks.remove(0);
    yanks.cards
}

/// The library of a directory and decks, of which the first is `YANK$$$`, with a rest.
fn library_with(alloc: Global, idents: Vec<Ident>, decks: Vec<Deck>, rest: Rest) -> Library
    ensures { result ≡ record (library_of idents.items decks.items) { rest = rest } }
{
    let mut decks = decks;
    let yanks = take_yanks(alloc, &mut decks);
    Library::of_parts(idents, decks, yanks, rest)
}

/// The library of a directory, with the first of some decks as `YANK$$$`, and other decks but for their first.
fn library_beside(alloc: Global, idents: Vec<Ident>, decks: Vec<Deck>, others: Vec<Deck>) -> Library
    ensures { result ≡ record (library_of idents.items others.items) { yanks = (library_of idents.items decks.items).yanks } }
{
    let mut decks = decks;
    let mut others = others;
    let yanks = take_yanks(alloc, &mut decks);
    let _ = take_yanks(alloc, &mut others);
    let rest = Rest {
        cards: 0,
        entries: 0,
    };
    Library::of_parts(idents, others, yanks, rest)
}

/// The library of a directory and decks, of which the first is `YANK$$$`, with no rest.
fn library_of(alloc: Global, idents: Vec<Ident>, decks: Vec<Deck>) -> Library
    ensures { result ≡ library_of idents.items decks.items }
{
    let rest = Rest {
        cards: 0,
        entries: 0,
    };
    library_with(alloc, idents, decks, rest)
}

/// The directory and the decks of rows that come in any order.
fn idents_and_decks(alloc: Global, rows: LibraryRows) -> Result<(Vec<Ident>, Vec<Deck>), AllocError>
    ensures { (tables : Rows) (l : LibraryView) → IsSound l → Shows tables l → AreRowsOf tables rows
        → IfOk result (λ found. library_of found.0.items found.1.items ≡ record l { rest = empty.rest }) }
{
    let idents = by_age(rows.idents);
    let cards = by_place(rows.cards);
    let entries = entries_by_card(rows.entries);
    let targets = targets_by_card(rows.targets);
    let decks = decks_among(alloc, &idents, cards, &entries, &targets)?;
    Ok((idents, decks))
}

/// The library of rows that come in any order; memory alone can fail. Where they are no library's rows it is some
/// library, of which nothing is promised.
pub fn assembled(alloc: Global, rows: LibraryRows) -> Result<Library, AllocError>
    ensures part { (tables : Rows) (l : LibraryView) → IsSound l → Shows tables l → AreRowsOf tables rows
        → IfOk result (λ found. found ≡ record l { rest = empty.rest }) }
    ensures whole { (tables : Rows) (l : LibraryView) → IsSound l → IsWhole l → Shows tables l → AreRowsOf tables rows
        → IfOk result (λ found. found ≡ l) }
{
    let (idents, decks) = idents_and_decks(alloc, rows)?;
    Ok(library_of(alloc, idents, decks))
}

/// The library of rows that come in any order, without the decks other than `YANK$$$` that aren't of these ages: what
/// they have is counted. Memory alone can fail.
pub fn assembled_part(
    alloc: Global,
    rows: LibraryRows,
    ages: &[Serial],
) -> Result<Library, AllocError>
    ensures { (tables : Rows) (l : LibraryView) → IsSound l → IsWhole l → Shows tables l → AreRowsOf tables rows
        → IfOk result (λ found. found ≡ part_of ages.now l) }
{
    let cards = rows.cards.len() as u64;
    let entries = rows.entries.len() as u64;
    let part = rows_of_part(alloc, rows, ages)?;
    assembled_with_rest(alloc, part, cards, entries)
}

/// The age of the held deck of a name, where there is one, from idents that come in any order.
pub fn deck_named(alloc: Global, idents: &[Ident], name: &Name) -> Result<Vec<Serial>, AllocError>
    ensures { (tables : Rows) (l : LibraryView) → IsSound l → Shows tables l → IsSame idents.now tables.idents
        → IfOk result (λ ages. ages.items ≡ ages_asked (Named name.now) l) }
{
    let idents = by_age(Vec::from_slice(alloc, idents)?);
    let directory = library_of(alloc, idents, Vec::new(alloc));
    match directory.deck_of(name) {
        Some(age) => Vec::from_slice(alloc, &[age]),
        None => Ok(Vec::new(alloc)),
    }
}

/// The age of the deck that is asked for, where there is one, from rows that come in any order.
fn ages_asked(alloc: Global, rows: &LibraryRows, asked: &DeckOf) -> Result<Vec<Serial>, AllocError>
    ensures { (tables : Rows) (l : LibraryView) → IsSound l → Shows tables l → AreRowsOf tables rows.now
        → IfOk result (λ ages. ages.items ≡ ages_asked asked.now l) }
{
    match asked {
        DeckOf::Named(name) => deck_named(alloc, &rows.idents, name),
        DeckOf::Holding(card) => {
            let ages = ages_of_decks(alloc, &rows.cards, &[*card])?;
            Ok(decks_by_age(ages))
        }
    }
}

/// The library of rows that come in any order, without the decks other than `YANK$$$` and the one that is asked for:
/// what they have is counted. Memory alone can fail.
pub fn assembled_deck(
    alloc: Global,
    rows: LibraryRows,
    asked: &DeckOf,
) -> Result<Library, AllocError>
    ensures { (tables : Rows) (l : LibraryView) → IsSound l → IsWhole l → Shows tables l → AreRowsOf tables rows
        → IfOk result (λ found. found ≡ part_of (ages_asked asked.now l) l) }
{
    let ages = ages_asked(alloc, &rows, asked)?;
    assembled_part(alloc, rows, &ages)
}

/// A part of a library from its own rows: all idents and targets, the cards of `YANK$$$` and of the decks that are
/// loaded, and the entries of these cards. `cards` and `entries` are the numbers in the whole library: what isn't among
/// the rows is the rest.
pub fn assembled_with_rest(
    alloc: Global,
    rows: LibraryRows,
    cards: u64,
    entries: u64,
) -> Result<Library, AllocError>
    ensures { (ages : List ℕ) (tables : Rows) (l : LibraryView) → IsSound l → IsWhole l → Shows tables l
        → (AreOfDistinctCards tables.cards → AreRowsOf (part_rows ages tables) rows) → cards ≡ length tables.cards
        → entries ≡ length tables.entries → IfOk result (λ found. found ≡ part_of ages l) }
{
    let rest = Rest {
        cards: (cards as usize).saturating_sub(rows.cards.len()),
        entries: (entries as usize).saturating_sub(rows.entries.len()),
    };
    let (idents, decks) = idents_and_decks(alloc, rows)?;
    Ok(library_with(alloc, idents, decks, rest))
}

/// The directory and `YANK$$$` of these rows, and a card in its deck alone, from its own row and its entries: rows and
/// entries come in any order. Memory alone can fail.
pub fn assembled_card(
    alloc: Global,
    rows: LibraryRows,
    row: CardRow,
    entries: Vec<EntryRow>,
) -> Result<Library, AllocError>
    ensures { (card : CardRef) (tables : Rows) (l : LibraryView) → IsSound l → Shows tables l
        → (AreOfDistinctCards tables.cards → AreRowsOf (part_rows [] tables) rows) → (row.deck == 0) ≡ false
        → (keep : CardRow → Bool) (kept : List CardRow) → IsSame kept (filter keep tables.cards)
        → find (λ r. same_ref card r.card) kept ≡ Some row
        → IsSame entries.items (filter (λ r. same_ref card r.card) tables.entries)
        → IfOk result (λ found. ShowsCard card l found) }
{
    let (idents, decks) = idents_and_decks(alloc, rows)?;
    let entries = entries_by_card(entries);
    let mut cards = Vec::new(alloc);
    cards.push(row)?;
    let own = decks_among(alloc, &idents, cards, &entries, &[])?;
    Ok(library_beside(alloc, idents, decks, own))
}
