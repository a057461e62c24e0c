//! Rows as pairs, which have an order.
ghost use Rattle.std.specs.Prelude.{◌≡◌, map, IfOk};
ghost use Rattle.upd_examine.specs.RowKeys.{card_key, entry_key, ident_key, kind_number, target_row_key};

use crate::bytes::Bytes;
use std::alloc::{AllocError, Global};
use upd_core::{CardRef, Ident, Kind, Serial, Target};
use upd_records::{CardRow, EntryRow, TargetRow};
use upd_text::Name;

/// An ident's serial and name, its kind as a number, whether it is NOPROP, and whether it is held.
pub type IdentKey = ((Serial, Name), (u8, (bool, bool)));

/// A card, its deck, its place there, and its text.
pub type CardKey = ((CardRef, Serial), (u32, Bytes));

/// A card, the place of an entry in its history, the entry's ident, and whether it switches on.
pub type EntryKey = ((CardRef, u32), (Serial, bool));

/// A card, the place of a target among its targets, and the target.
pub type TargetRowKey = ((CardRef, u32), Target);

fn kind_number(kind: Kind) -> u8
    ensures { result ≡ kind_number kind }
{
    match kind {
        Kind::Set => 0,
        Kind::Deck => 1,
        Kind::Common => 2,
    }
}

pub fn ident_keys(alloc: Global, idents: &[Ident]) -> Result<Vec<IdentKey>, AllocError>
    ensures { IfOk result (λ keys. keys.items ≡ map ident_key idents.now) }
{
    let mut keys = Vec::with_capacity(alloc, idents.len())?;
    for ident in idents {
        keys.push((
            (ident.age, ident.name),
            (kind_number(ident.kind), (ident.noprop, ident.held)),
        ))?;
    }
    Ok(keys)
}

pub fn card_keys(alloc: Global, rows: &[CardRow]) -> Result<Vec<CardKey>, AllocError>
    ensures { IfOk result (λ keys. keys.items ≡ map card_key rows.now) }
{
    let mut keys = Vec::with_capacity(alloc, rows.len())?;
    for row in rows {
        let text = Bytes::of(alloc, &row.body)?;
        keys.push(((row.card, row.deck), (row.pos, text)))?;
    }
    Ok(keys)
}

pub fn entry_keys(alloc: Global, rows: &[EntryRow]) -> Result<Vec<EntryKey>, AllocError>
    ensures { IfOk result (λ keys. keys.items ≡ map entry_key rows.now) }
{
    let mut keys = Vec::with_capacity(alloc, rows.len())?;
    for row in rows {
        keys.push(((row.card, row.ord), (row.entry.ident, row.entry.active)))?;
    }
    Ok(keys)
}

pub fn target_row_keys(alloc: Global, rows: &[TargetRow]) -> Result<Vec<TargetRowKey>, AllocError>
    ensures { IfOk result (λ keys. keys.items ≡ map target_row_key rows.now) }
{
    let mut keys = Vec::with_capacity(alloc, rows.len())?;
    for row in rows {
        keys.push(((row.card, row.ord), row.target))?;
    }
    Ok(keys)
}
