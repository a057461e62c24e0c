//! The rows of the tables, one struct for each table. A row of the table of idents is the `Ident` itself.

ghost use Rattle.std.specs.Prelude.{◌≡◌, IfOk};
ghost use Rattle.upd_records.specs.Rows.{RunView, same_ref};

use crate::run_row::RunRow;
use std::alloc::{AllocError, Global};
use std::marker::Model;
use upd_core::{CardRef, Entry, Ident, Serial, Target};

/// The row of a card: its deck, its position there and its text.
#[derive(Debug, Drop)]
pub struct CardRow {
    pub card: CardRef,
    /// 0 for `YANK$$$`.
    pub deck: Serial,
    /// From 0 in each deck.
    pub pos: u32,
    pub body: Vec<u8>,
}

impl Model for CardRow {
    ghost use Rattle.upd_records.specs.Rows as tables;

    ghost Value = { tables.CardRow };

    ghost view = { λ r. record { card = r.card; deck = r.deck; pos = r.pos; body = r.body.items } };
}

impl CardRow {
    /// A deep copy.
    pub fn copy(&self) -> Result<CardRow, AllocError>
        ensures { IfOk result (λ copy. copy ≡ self.now) }
    {
        let body = Vec::from_slice(*self.body.allocator(), &self.body)?;
        Ok(CardRow {
            card: self.card,
            deck: self.deck,
            pos: self.pos,
            body,
        })
    }
}

/// An entry of a card's history.
#[derive(Clone, Copy, Debug)]
pub struct EntryRow {
    pub card: CardRef,
    /// From 0 on each card.
    pub ord: u32,
    pub entry: Entry,
}

impl Model for EntryRow {
    ghost use Rattle.upd_records.specs.Rows as tables;

    ghost Value = { tables.EntryRow };

    ghost view = { λ r. record { card = r.card; ord = r.ord; entry = r.entry } };

    ghost inverse = { λ r. record { card = r.card; ord = r.ord; entry = r.entry } };
}

/// A target of a yank card.
#[derive(Clone, Copy, Debug)]
pub struct TargetRow {
    pub card: CardRef,
    /// From 0 on each card.
    pub ord: u32,
    pub target: Target,
}

impl Model for TargetRow {
    ghost use Rattle.upd_records.specs.Rows as tables;

    ghost Value = { tables.TargetRow };

    ghost view = { λ r. record { card = r.card; ord = r.ord; target = r.target } };

    ghost inverse = { λ r. record { card = r.card; ord = r.ord; target = r.target } };
}

/// A card's status.
#[derive(Clone, Copy, Debug)]
pub struct StateRow {
    pub card: CardRef,
    /// Active or not; of a yank card, live or not.
    pub active: bool,
}

impl Model for StateRow {
    ghost use Rattle.upd_records.specs.Rows as tables;

    ghost Value = { tables.StateRow };

    ghost view = { λ r. record { card = r.card; active = r.active } };

    ghost inverse = { λ r. record { card = r.card; active = r.active } };
}

/// The number of live yank cards that have a target.
#[derive(Clone, Copy, Debug)]
pub struct CountRow {
    pub target: Target,
    /// Not 0.
    pub n: u32,
}

impl Model for CountRow {
    ghost use Rattle.upd_records.specs.Rows as tables;

    ghost Value = { tables.CountRow };

    ghost view = { λ r. record { target = r.target; n = r.n } };

    ghost inverse = { λ r. record { target = r.target; n = r.n } };
}

/// A site's mark: its runs up to this number are settled.
#[derive(Debug, Drop)]
pub struct MarkRow {
    pub site: String,
    pub mark: u64,
}

impl Model for MarkRow {
    ghost use Rattle.std.specs.Prelude.{string_bytes};
    ghost use Rattle.upd_records.specs.Rows as tables;

    ghost Value = { tables.MarkRow };

    ghost view = { λ r. record { site = string_bytes r.site; mark = r.mark } };
}

impl MarkRow {
    /// A deep copy.
    pub fn copy(&self, alloc: Global) -> Result<MarkRow, AllocError>
        ensures { IfOk result (λ copy. copy ≡ self.now) }
    {
        let site = String::from_str(alloc, &self.site)?;
        Ok(MarkRow {
            site,
            mark: self.mark,
        })
    }
}

/// The rows of a library, in any order.
#[derive(Debug, Drop)]
pub struct LibraryRows {
    pub idents: Vec<Ident>,
    pub cards: Vec<CardRow>,
    pub entries: Vec<EntryRow>,
    pub targets: Vec<TargetRow>,
}

/// A deep copy of a stored run.
pub fn copy_run(alloc: Global, run: &RunRow) -> Result<RunRow, AllocError>
    ensures { IfOk result (λ copy. copy ≡ run.now) }
{
    let site = String::from_str(alloc, &run.site)?;
    let bytes = Vec::from_slice(alloc, &run.bytes)?;
    let reply = Vec::from_slice(alloc, &run.reply)?;
    Ok(RunRow {
        site,
        number: run.number,
        mode: run.mode,
        bytes,
        accepted: run.accepted,
        reply,
    })
}

/// Whether two references are the same.
pub fn same_ref(a: &CardRef, b: &CardRef) -> bool
    ensures { result ≡ same_ref a.now b.now }
{
    a.name == b.name && a.number == b.number
}
