//! The idents of the cards that row changes move, from the rows in memory: a store can look for these cards by their keys.

ghost use Rattle.std.specs.Prelude.{◌≡◌, ◌==◌, ◌&&◌, ◌||◌, ℕ, map, nat_le, IfOk, IfSome, OnOk};
ghost use Rattle.std.specs.List.{list_any};
ghost use Rattle.upd_text.specs.declared.card_ref.CardRef.{CardRef};
ghost use Rattle.upd_records.specs.Changes.{change_view};
ghost use Rattle.upd_records.specs.Fits.{AllFit};
ghost use Rattle.upd_records.specs.Rows.{Rows};
ghost use Rattle.upd_row_store.specs.Keeping.{LeavesWrite};
ghost use Rattle.upd_row_store.specs.Movable.{AllMoveListed, is_listed, moves_at};
ghost use Rattle.upd_row_store.specs.Tables.{committed};
ghost use Rattle.upd_memory.specs.Mirrored.{Agrees, AgreesIfAny};
ghost use Rattle.upd_memory.specs.MovedIdents.{adds_from, is_from, is_reached};
ghost use Rattle.upd_memory.specs.RowsByKey.{cards_at};

use crate::mirror::Mirror;
use std::alloc::{AllocError, Global};
use std::collections::BTreeMap;
use upd_core::{CardRef, Change, Name, Serial};
use upd_records::{CardRow, RunRow};
use upd_row_store::RowStore;
use upd_text::Fault;

/// Notes a place from which on the cards of a deck move.
fn note_place(places: &mut BTreeMap<Serial, u32>, deck: Serial, from: u32) -> Result<(), AllocError>
    ensures { OnOk result ((d p : ℕ) → is_reached places.new d p
        ≡ (is_reached places.old d p || ((d == deck) && nat_le from p))) }
{
    if let Some(noted) = places.get(&deck)
        && *noted <= from
    {
        return Ok(());
    }
    places.insert(deck, from)?;
    Ok(())
}

/// Notes the place from which on a change moves cards, if it does.
fn note_move(places: &mut BTreeMap<Serial, u32>, change: &Change) -> Result<(), AllocError>
    ensures { OnOk result ((d p : ℕ) → is_reached places.new d p
        ≡ (is_reached places.old d p || moves_at (change_view change.now) d p)) }
{
    match change {
        Change::CardsMoved { deck, from, .. } => note_place(places, *deck, *from),
        _ => Ok(()),
    }
}

/// The decks that changes move, each with the first place from which on its cards move.
fn moved_places(alloc: Global, changes: &[Change]) -> Result<BTreeMap<Serial, u32>, AllocError>
    ensures { IfOk result (λ places. (d p : ℕ) → is_reached places d p
        ≡ list_any (λ c. moves_at c d p) (map change_view changes.now)) }
{
    let mut places = BTreeMap::new(alloc);
    for change in changes {
        note_move(&mut places, change)?;
    }
    Ok(places)
}

/// Lists the ident of a card, with the card's number if none before it is listed.
fn list_card(movable: &mut BTreeMap<Name, u32>, card: &CardRef) -> Result<(), AllocError>
    ensures { OnOk result ((c : CardRef) → is_listed movable.new c ≡ (is_listed movable.old c || is_from card.now c)) }
{
    if let Some(least) = movable.get(&card.name)
        && *least <= card.number
    {
        return Ok(());
    }
    movable.insert(card.name, card.number)?;
    Ok(())
}

/// Lists the card of a row that is at a place or after it.
fn list_row(movable: &mut BTreeMap<Name, u32>, row: &CardRow, from: u32) -> Result<(), AllocError>
    ensures { OnOk result ((c : CardRef) → is_listed movable.new c
        ≡ (is_listed movable.old c || (nat_le from row.now.pos && is_from row.now.card c))) }
{
    if from <= row.pos {
        list_card(movable, &row.card)?;
    }
    Ok(())
}

/// Lists those of these cards that are at a place or after it.
fn list_cards(
    movable: &mut BTreeMap<Name, u32>,
    rows: &[CardRow],
    from: u32,
) -> Result<(), AllocError>
    ensures { OnOk result ((c : CardRef) → is_listed movable.new c
        ≡ (is_listed movable.old c || list_any (λ r. nat_le from r.pos && is_from r.card c) rows.now)) }
{
    for row in rows {
        list_row(movable, row, from)?;
    }
    Ok(())
}

/// Lists those cards of a deck that are at a place or after it.
fn list_deck(
    movable: &mut BTreeMap<Name, u32>,
    decks: &BTreeMap<Serial, Vec<CardRow>>,
    deck: &Serial,
    from: u32,
) -> Result<(), AllocError>
    ensures { OnOk result ((c : CardRef) → is_listed movable.new c ≡ (is_listed movable.old c
        || list_any (λ r. nat_le from r.pos && is_from r.card c) (cards_at decks.now deck.now))) }
{
    match decks.get(deck) {
        Some(rows) => list_cards(movable, rows, from),
        None => Ok(()),
    }
}

/// Lists the cards of decks that are at the decks' places or after them.
fn list_moved(
    movable: &mut BTreeMap<Name, u32>,
    decks: &BTreeMap<Serial, Vec<CardRow>>,
    places: &BTreeMap<Serial, u32>,
) -> Result<(), AllocError>
    ensures { OnOk result ((c : CardRef) → is_listed movable.new c ≡ (is_listed movable.old c
        || list_any (λ e. list_any (λ r. nat_le e.1 r.pos && is_from r.card c) (cards_at decks.now e.0))
        places.now.entries)) }
{
    for (deck, from) in places {
        list_deck(movable, decks, deck, *from)?;
    }
    Ok(())
}

/// Lists the card that a change adds, if it does.
fn list_added(movable: &mut BTreeMap<Name, u32>, change: &Change) -> Result<(), AllocError>
    ensures { OnOk result ((c : CardRef) → is_listed movable.new c
        ≡ (is_listed movable.old c || adds_from (change_view change.now) c)) }
{
    match change {
        Change::CardNew { card, .. } => list_card(movable, card),
        _ => Ok(()),
    }
}

/// Lists the cards that changes add, which later changes may move.
fn list_new(movable: &mut BTreeMap<Name, u32>, changes: &[Change]) -> Result<(), AllocError>
    ensures { OnOk result ((c : CardRef) → is_listed movable.new c
        ≡ (is_listed movable.old c || list_any (λ ch. adds_from ch c) (map change_view changes.now))) }
{
    for change in changes {
        list_added(movable, change)?;
    }
    Ok(())
}

impl Mirror {
    /// The idents of the cards that changes move, each with the least number of these cards; memory alone can fail.
    fn moved_idents(
        &self,
        alloc: Global,
        changes: &[Change],
    ) -> Result<BTreeMap<Name, u32>, AllocError>
        ensures { IfOk result (λ movable. (rows : Rows) → Agrees self.now rows
            → AllMoveListed movable (map change_view changes.now) rows) }
    {
        let places = moved_places(alloc, changes)?;
        let mut movable = BTreeMap::new(alloc);
        list_moved(&mut movable, &self.decks, &places)?;
        list_new(&mut movable, changes)?;
        Ok(movable)
    }
}

/// How many cards of a deck are at a place or after it.
fn cards_behind(decks: &BTreeMap<Serial, Vec<CardRow>>, deck: &Serial, from: u32) -> usize {
    match decks.get(deck) {
        Some(rows) => rows.len().saturating_sub(from as usize),
        None => 0,
    }
}

/// How many moves of each deck there are.
fn move_counts(alloc: Global, changes: &[Change]) -> Result<BTreeMap<Serial, usize>, AllocError> {
    let mut counts = BTreeMap::new(alloc);
    for change in changes {
        if let Change::CardsMoved { deck, .. } = change {
            let before = counts.get(deck).copied().unwrap_or(0_usize);
            counts.insert(*deck, before.saturating_add(1))?;
        }
    }
    Ok(counts)
}

/// What a look at all cards costs, in cards that are written.
fn scan_cost(mirror: &Mirror) -> usize {
    mirror.homes.len() / 14
}

/// What moves cost by keys, in cards that are written: each card as often as it moves, and those to the front look at all.
fn cost_by_keys(mirror: &Mirror, changes: &[Change]) -> usize {
    let mut cost: usize = 0;
    for change in changes {
        if let Change::CardsMoved { deck, from, by } = change {
            cost = cost.saturating_add(cards_behind(&mirror.decks, deck, *from));
            if *by < 0 {
                cost = cost.saturating_add(scan_cost(mirror));
            }
        }
    }
    cost
}

/// What moves cost where the store below is not told which cards move, in cards that are written: where a deck has many,
/// each card is read and written once; else each move looks at all cards.
fn cost_at_once(alloc: Global, mirror: &Mirror, changes: &[Change]) -> Result<usize, AllocError> {
    let counts = move_counts(alloc, changes)?;
    let mut cost: usize = 0;
    for (deck, from) in &moved_places(alloc, changes)? {
        let behind = cards_behind(&mirror.decks, deck, *from);
        let moves = counts.get(deck).copied().unwrap_or(0);
        let (cards, scans) = if moves < 3 {
            (behind.saturating_mul(moves), moves)
        } else {
            (behind.saturating_mul(2), 1)
        };
        cost = cost
            .saturating_add(cards)
            .saturating_add(scan_cost(mirror).saturating_mul(scans));
    }
    Ok(cost)
}

/// Whether cards move so often that it costs less to look at all cards and to move each once.
fn are_moved_often(alloc: Global, mirror: &Mirror, changes: &[Change]) -> Result<bool, AllocError> {
    Ok(cost_by_keys(mirror, changes) > cost_at_once(alloc, mirror, changes)?)
}

/// The idents of the cards that changes move; none where they aren't known, or where a look at all cards costs less.
fn few_idents(
    alloc: Global,
    mirror: &Option<Mirror>,
    changes: &[Change],
) -> Option<BTreeMap<Name, u32>>
    ensures { IfSome result (λ movable. (rows : Rows) → AgreesIfAny mirror.now rows
        → AllMoveListed movable (map change_view changes.now) rows) }
{
    let Some(mirror) = mirror else {
        return None;
    };
    if are_moved_often(alloc, mirror, changes).ok()? {
        return None;
    }
    let movable = mirror.moved_idents(alloc, changes).ok()?;
    // A statement that looks for the cards of one ident costs as much as to pass over some ten cards.
    if movable.len() > mirror.homes.len() / 16 {
        return None;
    }
    Some(movable)
}

/// Commits changes to the store whose rows a mirror has, if there is one.
pub(crate) fn commit_below<S: RowStore>(
    inner: &mut S,
    alloc: Global,
    mirror: &Option<Mirror>,
    changes: &[Change],
    run: RunRow,
) -> Result<(), Fault>
    ensures done { S.is_honest inner.new → OnOk result ((rows : Rows) → S.shows (S.image inner.old) rows
        → AgreesIfAny mirror.now rows → AllFit (map change_view changes.now) rows
        → S.shows (S.image inner.new) (committed (map change_view changes.now) run rows)) }
    ensures leaves { LeavesWrite S.Meaning (λ rows. AgreesIfAny mirror.now rows
        × AllFit (map change_view changes.now) rows) (committed (map change_view changes.now) run)
        result inner.old inner.new }
{
    match few_idents(alloc, mirror, changes) {
        Some(movable) => inner.commit_moving(alloc, changes, run, &movable),
        None => inner.commit(alloc, changes, run),
    }
}
