//! Records that are stored as rows of a table, read from the rows of its tree. The first column of these is the rowid.
ghost use Rattle.std.specs.Prelude.{◌≡◌, ℕ, List, drop, map, IfOk};
ghost use Rattle.sqlite_trees.specs.Tree.{Trees};
ghost use Rattle.sqlite_value.specs.Order.{Row as SqlRow};
ghost use Rattle.upd_records.specs.Rows.{Rows};
ghost use Rattle.upd_sql.specs.Commits.{ShowsIn};

use crate::tree_columns::{
    card_in, column_of, flag_in, kind_of, name_in, number_in, target_in, text_in,
};
use sqlite_trees::error::StoreError;
use sqlite_value::row::Row;
use std::alloc::Global;
use upd_core::{CardRef, Entry, Ident, Target};
use upd_records::{CardRow, EntryRow, MarkRow, RunRow, StateRow, TargetRow};

/// A record that is stored as a row of one table.
pub(crate) trait Record: Sized {
    /// The table's tree.
    const TREE: u32;

    /// The tree of the index of its key.
    const INDEX: u32;

    /// The number of columns of its key, which come first.
    const KEYS: usize;

    ghost TREE: { ℕ };

    // The records of this kind.
    ghost listed: { Rows → List Self };

    // The row as which one is stored, rowid aside.
    ghost stored: { Self → SqlRow };

    fn read(alloc: Global, row: &Row) -> Result<Self, StoreError>
        ensures { IfOk result (λ x. (kept : Self) → drop 1 row.now ≡ stored kept → x ≡ kept) };

    // The tree has the rows of these records.
    ghost shows: { (trees : Trees) (it : Rows) → ShowsIn trees it → map (drop 1) (trees TREE) ≡ map stored (listed it) };
}

impl Record for Ident {
    ghost use Rattle.upd_sql.specs.Encoded.{ident_row};

    const TREE: u32 = 2;

    const INDEX: u32 = 3;

    const KEYS: usize = 1;

    ghost stored = { ident_row };

    ghost TREE = { 2 };

    ghost listed = { λ it. it.idents };

    ghost shows = { λ trees it h. h.1.0 };

    fn read(alloc: Global, row: &Row) -> Result<Ident, StoreError> {
        let age = number_in(alloc, row, 0)?;
        let name = name_in(row, 1)?;
        let code = number_in(alloc, row, 2)?;
        let kind = kind_of(code)?;
        let noprop = flag_in(alloc, row, 3)?;
        let held = flag_in(alloc, row, 4)?;
        Ok(Ident {
            age,
            name,
            kind,
            noprop,
            held,
        })
    }
}

impl Record for CardRow {
    ghost use Rattle.upd_sql.specs.Encoded.{card_row};

    const TREE: u32 = 4;

    const INDEX: u32 = 5;

    const KEYS: usize = 2;

    ghost stored = { card_row };

    ghost TREE = { 4 };

    ghost listed = { λ it. it.cards };

    ghost shows = { λ trees it h. h.1.1.0 };

    fn read(alloc: Global, row: &Row) -> Result<CardRow, StoreError> {
        let card = card_in(alloc, row)?;
        let deck = number_in(alloc, row, 2)?;
        let pos = number_in(alloc, row, 3)?;
        let body = text_in(alloc, row, 4)?;
        Ok(CardRow {
            card,
            deck,
            pos,
            body,
        })
    }
}

impl Record for EntryRow {
    ghost use Rattle.upd_sql.specs.Encoded.{entry_row};

    const TREE: u32 = 6;

    const INDEX: u32 = 7;

    const KEYS: usize = 3;

    ghost stored = { entry_row };

    ghost TREE = { 6 };

    ghost listed = { λ it. it.entries };

    ghost shows = { λ trees it h. h.1.1.1.0 };

    fn read(alloc: Global, row: &Row) -> Result<EntryRow, StoreError> {
        let card = card_in(alloc, row)?;
        let ord = number_in(alloc, row, 2)?;
        let ident = number_in(alloc, row, 3)?;
        let active = flag_in(alloc, row, 4)?;
        let entry = Entry { ident, active };
        Ok(EntryRow { card, ord, entry })
    }
}

impl Record for TargetRow {
    ghost use Rattle.upd_sql.specs.Encoded.{target_row};

    const TREE: u32 = 8;

    const INDEX: u32 = 9;

    const KEYS: usize = 3;

    ghost stored = { target_row };

    ghost TREE = { 8 };

    ghost listed = { λ it. it.targets };

    ghost shows = { λ trees it h. h.1.1.1.1.0 };

    fn read(alloc: Global, row: &Row) -> Result<TargetRow, StoreError> {
        let card = card_in(alloc, row)?;
        let ord = number_in(alloc, row, 2)?;
        let target = target_in(alloc, row, 3)?;
        Ok(TargetRow { card, ord, target })
    }
}

impl Record for RunRow {
    ghost use Rattle.upd_sql.specs.Encoded.{run_row};

    const TREE: u32 = 10;

    const INDEX: u32 = 11;

    const KEYS: usize = 2;

    ghost stored = { run_row };

    ghost TREE = { 10 };

    ghost listed = { λ it. it.runs };

    ghost shows = { λ trees it h. h.1.1.1.1.1.0 };

    fn read(alloc: Global, row: &Row) -> Result<RunRow, StoreError> {
        let site = column_of(alloc, row, 0)?;
        let number = column_of(alloc, row, 1)?;
        let mode = column_of(alloc, row, 2)?;
        let bytes = column_of(alloc, row, 3)?;
        let accepted = flag_in(alloc, row, 4)?;
        let reply = column_of(alloc, row, 5)?;
        Ok(RunRow {
            site,
            number,
            mode,
            bytes,
            accepted,
            reply,
        })
    }
}

impl Record for StateRow {
    ghost use Rattle.upd_sql.specs.Encoded.{state_row};

    const TREE: u32 = 12;

    const INDEX: u32 = 13;

    const KEYS: usize = 2;

    ghost stored = { state_row };

    ghost TREE = { 12 };

    ghost listed = { λ it. it.states };

    ghost shows = { λ trees it h. h.1.1.1.1.1.1.0 };

    fn read(alloc: Global, row: &Row) -> Result<StateRow, StoreError> {
        let card = card_in(alloc, row)?;
        let active = flag_in(alloc, row, 2)?;
        Ok(StateRow { card, active })
    }
}

impl Record for MarkRow {
    ghost use Rattle.upd_sql.specs.Encoded.{mark_row};

    const TREE: u32 = 16;

    const INDEX: u32 = 17;

    const KEYS: usize = 1;

    ghost stored = { mark_row };

    ghost TREE = { 16 };

    ghost listed = { λ it. it.settled };

    ghost shows = { λ trees it h. h.1.1.1.1.1.1.1.1.0 };

    fn read(alloc: Global, row: &Row) -> Result<MarkRow, StoreError> {
        let site = column_of(alloc, row, 0)?;
        let mark = column_of(alloc, row, 1)?;
        Ok(MarkRow { site, mark })
    }
}

/// A card with its status.
impl Record for (CardRef, bool) {
    ghost use Rattle.std.proofs.Common.{map, sym, ◌∙◌};
    ghost use Rattle.sqlite_keyed.proofs.ListLemmas.{map-map};
    ghost use Rattle.upd_row_store.specs.Tables.{state_pair};
    ghost use Rattle.upd_sql.specs.Encoded.{kept_state};

    const TREE: u32 = 12;

    const INDEX: u32 = 13;

    const KEYS: usize = 2;

    ghost stored = { kept_state };

    ghost TREE = { 12 };

    ghost listed = { λ it. map state_pair it.states };

    ghost shows = { λ trees it h. h.1.1.1.1.1.1.0 ∙ sym (map-map kept_state state_pair it.states) };

    fn read(alloc: Global, row: &Row) -> Result<(CardRef, bool), StoreError> {
        let card = card_in(alloc, row)?;
        let active = flag_in(alloc, row, 2)?;
        Ok((card, active))
    }
}

/// A target with its count.
impl Record for (Target, u32) {
    ghost use Rattle.std.proofs.Common.{map, sym, ◌∙◌};
    ghost use Rattle.sqlite_keyed.proofs.ListLemmas.{map-map};
    ghost use Rattle.upd_row_store.specs.Tables.{count_pair};
    ghost use Rattle.upd_sql.specs.Encoded.{kept_count};

    const TREE: u32 = 14;

    const INDEX: u32 = 15;

    const KEYS: usize = 3;

    ghost stored = { kept_count };

    ghost TREE = { 14 };

    ghost listed = { λ it. map count_pair it.counts };

    ghost shows = { λ trees it h. h.1.1.1.1.1.1.1.0 ∙ sym (map-map kept_count count_pair it.counts) };

    fn read(alloc: Global, row: &Row) -> Result<(Target, u32), StoreError> {
        let target = target_in(alloc, row, 0)?;
        let n = number_in(alloc, row, 3)?;
        Ok((target, n))
    }
}
