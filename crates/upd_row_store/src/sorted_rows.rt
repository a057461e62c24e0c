//! Rows in the order in which a library is made of them.
ghost use Rattle.std.specs.Prelude.{IsPermutation};
ghost use Rattle.upd_row_store.specs.Assembling.{AreByAge, AreByPlace, AreEntriesByCard, AreTargetsByCard};

use upd_core::Ident;
use upd_records::{CardRow, EntryRow, TargetRow};

pub fn by_age(idents: Vec<Ident>) -> Vec<Ident>
    ensures permutation { IsPermutation idents.items result.items }
    ensures sorted { AreByAge result.items }
{
    let mut idents = idents;
    idents.sort_unstable_by_key(|ident| ident.age);
    idents
}

pub(crate) fn by_place(rows: Vec<CardRow>) -> Vec<CardRow>
    ensures permutation { IsPermutation rows.items result.items }
    ensures sorted { AreByPlace result.items }
{
    let mut rows = rows;
    rows.sort_unstable_by_key(|row| (row.deck, row.pos));
    rows
}

pub(crate) fn entries_by_card(rows: Vec<EntryRow>) -> Vec<EntryRow>
    ensures permutation { IsPermutation rows.items result.items }
    ensures sorted { AreEntriesByCard result.items }
{
    let mut rows = rows;
    rows.sort_unstable_by_key(|row| (row.card, row.ord));
    rows
}

pub(crate) fn targets_by_card(rows: Vec<TargetRow>) -> Vec<TargetRow>
    ensures permutation { IsPermutation rows.items result.items }
    ensures sorted { AreTargetsByCard result.items }
{
    let mut rows = rows;
    rows.sort_unstable_by_key(|row| (row.card, row.ord));
    rows
}
