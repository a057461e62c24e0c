//! Row changes from card diffs: idents, then deletions, then moves, then insertions.
ghost use Rattle.std.specs.Prelude.{◌≡◌, ◌+◌, ◌<◌, ◌≤◌, true, ◌^◌, ◌==◌, ◌&&◌, not, if◌then◌else◌, [], ◌∷◌, ◌++◌, map};
ghost use Rattle.std.specs.Prelude.{length, drop, IfOk, OnErr, OnOk};
ghost use Rattle.std.specs.List.{flat_map};
ghost use Rattle.upd_records.specs.Changes.{CardNew, IdentPurged, TargetsGone, change_view};
ghost use Rattle.upd_diff.specs.CardDiffs.{Gone, Kept, card_diff_view};
ghost use Rattle.upd_diff.specs.RowChanges.{begins, brought, card_new, entries_new, gone_of, grown, ident_changes, move_to};
ghost use Rattle.upd_diff.specs.RowChanges.{moves};
ghost use Rattle.upd_diff.specs.RowChanges.{targets_new, row_changes};

use crate::card_diffs::{CardDiff, DeckDiff};
use std::alloc::{AllocError, Global};
use upd_core::card::card_ref;
use upd_core::{Card, CardRef, Change, Entry, Ident, Serial, Target};

/// The row changes from one directory and its cards to another.
pub(crate) fn row_changes(
    alloc: Global,
    before: &[Ident],
    after: &[Ident],
    decks: &[DeckDiff],
) -> Result<Vec<Change>, AllocError>
    ensures { IfOk result (λ changes. map change_view changes.items ≡ row_changes before.now after.now decks.now) }
{
    let mut changes = Vec::new(alloc);
    add_idents(&mut changes, before, after)?;
    add_all_gone(&mut changes, after, decks)?;
    add_all_moves(&mut changes, decks)?;
    add_all_brought(&mut changes, after, decks)?;
    Ok(changes)
}

fn add_idents(
    changes: &mut Vec<Change>,
    before: &[Ident],
    after: &[Ident],
) -> Result<(), AllocError>
    ensures { OnOk result (map change_view changes.new.items ≡ map change_view changes.old.items
        ++ ident_changes before.now after.now) }
{
    for (i, ident) in after.iter().enumerate() {
        match before.get(i) {
            Some(was) => add_purged(changes, was, ident)?,
            None => changes.push(Change::IdentNew(*ident))?,
        }
    }
    Ok(())
}

fn add_purged(changes: &mut Vec<Change>, was: &Ident, is: &Ident) -> Result<(), AllocError>
    ensures { OnOk result (map change_view changes.new.items
        ≡ map change_view changes.old.items
        ++ (if was.now.held && not is.now.held then IdentPurged was.now.age ∷ [] else [])) }
{
    if was.held && !is.held {
        changes.push(Change::IdentPurged(was.age))?;
    }
    Ok(())
}

fn add_all_gone(
    changes: &mut Vec<Change>,
    idents: &[Ident],
    decks: &[DeckDiff],
) -> Result<(), AllocError>
    ensures { OnOk result (map change_view changes.new.items
        ≡ map change_view changes.old.items ++ flat_map (λ k. flat_map (gone_of idents.now) k.card_diffs) decks.now) }
{
    for deck in decks {
        add_gone(changes, idents, &deck.card_diffs)?;
    }
    Ok(())
}

fn add_gone(
    changes: &mut Vec<Change>,
    idents: &[Ident],
    card_diffs: &[CardDiff],
) -> Result<(), AllocError>
    ensures { OnOk result (map change_view changes.new.items
        ≡ map change_view changes.old.items ++ flat_map (gone_of idents.now) (map card_diff_view card_diffs.now)) }
{
    for card_diff in card_diffs {
        match card_diff {
            CardDiff::Kept(was, is) => add_old_entries(changes, idents, was, is)?,
            CardDiff::Gone(was) => add_gone_card(changes, idents, was)?,
            CardDiff::New(_) => {}
        }
    }
    Ok(())
}

/// Deletes the entries of a kept card, unless its history was only extended.
fn add_old_entries(
    changes: &mut Vec<Change>,
    idents: &[Ident],
    was: &Card,
    is: &Card,
) -> Result<(), AllocError>
    ensures { OnOk result (map change_view changes.new.items ≡ map change_view changes.old.items
        ++ gone_of idents.now (Kept was.now is.now)) }
{
    if begins(&was.history, &is.history) {
        return Ok(());
    }
    changes.push(Change::EntriesGone(card_ref(idents, was)))?;
    Ok(())
}

fn add_gone_card(changes: &mut Vec<Change>, idents: &[Ident], was: &Card) -> Result<(), AllocError>
    ensures { OnOk result (map change_view changes.new.items ≡ map change_view changes.old.items
        ++ gone_of idents.now (Gone was.now)) }
{
    let card = card_ref(idents, was);
    add_gone_targets(changes, &card, &was.targets)?;
    changes.push(Change::EntriesGone(card))?;
    changes.push(Change::CardGone(card))?;
    Ok(())
}

fn add_gone_targets(
    changes: &mut Vec<Change>,
    card: &CardRef,
    targets: &[Target],
) -> Result<(), AllocError>
    ensures { OnOk result (map change_view changes.new.items
        ≡ map change_view changes.old.items
        ++ (if length targets.now == 0 then [] else TargetsGone card.now targets.now ∷ [])) }
{
    if targets.is_empty() {
        return Ok(());
    }
    let targets = Vec::from_slice(*changes.allocator(), targets)?;
    changes.push(Change::TargetsGone {
        card: *card,
        targets,
    })?;
    Ok(())
}

fn add_all_moves(changes: &mut Vec<Change>, decks: &[DeckDiff]) -> Result<(), AllocError>
    ensures { OnOk result (map change_view changes.new.items
        ≡ map change_view changes.old.items ++ flat_map (λ k. moves k.deck 0 0 k.card_diffs) decks.now) }
{
    for deck in decks {
        add_moves(changes, deck.deck, &deck.card_diffs)?;
    }
    Ok(())
}

/// Moves each kept card that is not at its new position, with all cards after it: insertions and deletions at one place
/// make one move.
fn add_moves(
    changes: &mut Vec<Change>,
    deck: Serial,
    card_diffs: &[CardDiff],
) -> Result<(), AllocError>
    requires { length card_diffs.now < 2 ^ 32 }
    ensures { OnOk result (map change_view changes.new.items
        ≡ map change_view changes.old.items ++ moves deck 0 0 (map card_diff_view card_diffs.now)) }
{
    let mut from = 0;
    let mut to = 0;
    for card_diff in card_diffs {
        match card_diff {
            CardDiff::Kept(..) => {
                add_move(changes, deck, from, to)?;
                to += 1;
                from = to;
            }
            CardDiff::Gone(_) => from += 1,
            CardDiff::New(_) => to += 1,
        }
    }
    Ok(())
}

fn add_move(changes: &mut Vec<Change>, deck: Serial, from: u32, to: u32) -> Result<(), AllocError>
    ensures { OnOk result (map change_view changes.new.items ≡ map change_view changes.old.items
        ++ move_to deck from to) }
{
    if from == to {
        return Ok(());
    }
    let by = i64::from(to) - i64::from(from);
    changes.push(Change::CardsMoved { deck, from, by })?;
    Ok(())
}

fn add_all_brought(
    changes: &mut Vec<Change>,
    idents: &[Ident],
    decks: &[DeckDiff],
) -> Result<(), AllocError>
    ensures { OnOk result (map change_view changes.new.items
        ≡ map change_view changes.old.items ++ flat_map (λ k. brought idents.now k.deck 0 k.card_diffs) decks.now) }
{
    for deck in decks {
        add_brought(changes, idents, deck.deck, &deck.card_diffs)?;
    }
    Ok(())
}

fn add_brought(
    changes: &mut Vec<Change>,
    idents: &[Ident],
    deck: Serial,
    card_diffs: &[CardDiff],
) -> Result<(), AllocError>
    requires { length card_diffs.now < 2 ^ 32 }
    ensures { OnOk result (map change_view changes.new.items
        ≡ map change_view changes.old.items ++ brought idents.now deck 0 (map card_diff_view card_diffs.now)) }
{
    let mut pos = 0;
    for card_diff in card_diffs {
        match card_diff {
            CardDiff::Kept(was, is) => {
                add_grown(changes, idents, was, is)?;
                pos += 1;
            }
            CardDiff::Gone(_) => {}
            CardDiff::New(is) => {
                add_card(changes, idents, deck, pos, is)?;
                pos += 1;
            }
        }
    }
    Ok(())
}

/// Adds the entries of a kept card: those that extend its history, or all of them where they were deleted.
fn add_grown(
    changes: &mut Vec<Change>,
    idents: &[Ident],
    was: &Card,
    is: &Card,
) -> Result<(), AllocError>
    ensures { OnOk result (map change_view changes.new.items ≡ map change_view changes.old.items
        ++ grown idents.now was.now is.now) }
{
    let card = card_ref(idents, was);
    let from = if begins(&was.history, &is.history) {
        was.history.len()
    } else {
        0
    };
    add_entries(changes, &card, from, &is.history[from..])
}

fn add_card(
    changes: &mut Vec<Change>,
    idents: &[Ident],
    deck: Serial,
    pos: u32,
    is: &Card,
) -> Result<(), AllocError>
    ensures { OnOk result (map change_view changes.new.items ≡ map change_view changes.old.items
        ++ card_new idents.now deck pos is.now) }
{
    let card = card_ref(idents, is);
    add_card_row(changes, &card, deck, pos, &is.text)?;
    add_entries(changes, &card, 0, &is.history)?;
    add_targets(changes, &card, &is.targets)
}

fn add_card_row(
    changes: &mut Vec<Change>,
    card: &CardRef,
    deck: Serial,
    pos: u32,
    text: &[u8],
) -> Result<(), AllocError>
    ensures { OnOk result (map change_view changes.new.items ≡ map change_view changes.old.items
        ++ CardNew card.now deck pos text.now ∷ []) }
{
    let text = Vec::from_slice(*changes.allocator(), text)?;
    changes.push(Change::CardNew {
        card: *card,
        deck,
        pos,
        text,
    })?;
    Ok(())
}

/// Adds entries of a card; the first has index `from`. It returns `AllocError` where an index exceeds 32 bits.
fn add_entries(
    changes: &mut Vec<Change>,
    card: &CardRef,
    from: usize,
    entries: &[Entry],
) -> Result<(), AllocError>
    requires { from + length entries.now < 2 ^ 64 }
    ensures { OnOk result (map change_view changes.new.items ≡ map change_view changes.old.items
        ++ entries_new card.now from entries.now) }
{
    for (i, entry) in entries.iter().enumerate() {
        let ord = row_number(from + i)?;
        changes.push(Change::EntryNew {
            card: *card,
            ord,
            entry: *entry,
        })?;
    }
    Ok(())
}

fn add_targets(
    changes: &mut Vec<Change>,
    card: &CardRef,
    targets: &[Target],
) -> Result<(), AllocError>
    ensures { OnOk result (map change_view changes.new.items ≡ map change_view changes.old.items
        ++ targets_new card.now 0 targets.now) }
{
    for (ord, target) in targets.iter().enumerate() {
        let ord = row_number(ord)?;
        changes.push(Change::TargetNew {
            card: *card,
            ord,
            target: *target,
        })?;
    }
    Ok(())
}

fn row_number(place: usize) -> Result<u32, AllocError>
    ensures number { IfOk result (λ number. number ≡ place) }
    ensures err { OnErr result (2 ^ 32 ≤ place) }
{
    u32::try_from(place).map_err(|_| AllocError)
}

/// Whether `history` is a prefix of `later`.
fn begins(history: &[Entry], later: &[Entry]) -> bool
    ensures begins { result ≡ begins history.now later.now }
    ensures short { result ≡ true → length history.now ≤ length later.now }
{
    if later.len() < history.len() {
        return false;
    }
    for (i, entry) in history.iter().enumerate() {
        if later[i] != *entry {
            return false;
        }
    }
    true
}
