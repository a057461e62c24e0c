//! Rows that were read from a store, taken into memory.

ghost use Rattle.std.specs.Prelude.{◌∷◌, ◌++◌, [], map, OnSome};
ghost use Rattle.upd_records.specs.Rows.{IsSame, Rows};
ghost use Rattle.upd_row_store.specs.Keeping.{Keeps};
ghost use Rattle.upd_row_store.specs.Assembling.{AreRowsOf};
ghost use Rattle.upd_row_store.specs.Tables.{AreRead, count_pair};
ghost use Rattle.upd_memory.specs.Lists.{no_rows};
ghost use Rattle.upd_memory.specs.Mirrored.{Agrees, AgreesIfAny, state_row};

use crate::mirror::Mirror;
use crate::tables::{put_status, status_of};
use std::alloc::Global;
use std::collections::BTreeMap;
use upd_core::{CardRef, Ident, States, Target};
use upd_records::{CardRow, EntryRow, LibraryRows, TargetRow};
use upd_row_store::RowStore;

impl Mirror {
    /// A mirror of these idents, targets and counts, without cards. It does not allocate.
    fn without_cards(
        alloc: Global,
        idents: Vec<Ident>,
        targets: Vec<TargetRow>,
        counts: Vec<(Target, u32)>,
    ) -> Mirror
        ensures { (rows : Rows) → IsSame idents.items rows.idents → IsSame targets.items rows.targets
            → IsSame counts.items (map count_pair rows.counts)
            → Agrees result (record rows { cards = []; entries = []; states = [] }) }
    {
        Mirror {
            idents,
            decks: BTreeMap::new(alloc),
            homes: BTreeMap::new(alloc),
            entries: BTreeMap::new(alloc),
            entry_count: 0,
            targets,
            statuses: BTreeMap::new(alloc),
            counts,
        }
    }

    /// A mirror of empty tables. It does not allocate.
    pub(crate) fn empty(alloc: Global) -> Mirror
        ensures { Agrees result no_rows }
    {
        Mirror::without_cards(alloc, Vec::new(alloc), Vec::new(alloc), Vec::new(alloc))
    }

    fn add_cards(&mut self, cards: Vec<CardRow>) -> Option<()>
        ensures { OnSome result ((rows : Rows) → Agrees self.old rows
            → Agrees self.new (record rows { cards = rows.cards ++ cards.items })) }
    {
        for card in cards {
            self.add_card(card)?;
        }
        Some(())
    }

    fn add_entries(&mut self, alloc: Global, entries: Vec<EntryRow>) -> Option<()>
        ensures { OnSome result ((rows : Rows) → Agrees self.old rows
            → Agrees self.new (record rows { entries = rows.entries ++ entries.items })) }
    {
        for entry in entries {
            self.add_entry(alloc, entry)?;
        }
        Some(())
    }

    /// Adds the status of a card. A card that has one can't have another.
    fn add_state(&mut self, state: &(CardRef, bool)) -> Option<()>
        ensures { OnSome result ((rows : Rows) → Agrees self.old rows
            → Agrees self.new (record rows { states = rows.states ++ state_row state.now ∷ [] })) }
    {
        if status_of(&self.statuses, &state.0).is_some() {
            return None;
        }
        put_status(&mut self.statuses, state.0, state.1).ok()?;
        Some(())
    }

    fn add_states(&mut self, states: &[(CardRef, bool)]) -> Option<()>
        ensures { OnSome result ((rows : Rows) → Agrees self.old rows
            → Agrees self.new (record rows { states = rows.states ++ map state_row states.now })) }
    {
        for state in states {
            self.add_state(state)?;
        }
        Some(())
    }
}

/// Rows by deck and place: each is then added as the last of its deck.
fn by_place(rows: Vec<CardRow>) -> Vec<CardRow>
    ensures { IsSame result.items rows.items }
{
    let mut rows = rows;
    rows.sort_unstable_by_key(|row| (row.deck, row.pos));
    rows
}

/// A mirror of rows that were read; none where memory runs out, or where a card has two rows or two statuses.
fn of_rows(alloc: Global, rows: LibraryRows, states: States) -> Option<Mirror>
    ensures { (tables : Rows) → AreRowsOf tables rows → AreRead tables states → AgreesIfAny result tables }
{
    let LibraryRows {
        idents,
        cards,
        entries,
        targets,
    } = rows;
    let States { states, counts } = states;
    let cards = by_place(cards);
    let mut mirror = Mirror::without_cards(alloc, idents, targets, counts);
    mirror.add_cards(cards)?;
    mirror.add_entries(alloc, entries)?;
    mirror.add_states(&states)?;
    Some(mirror)
}

/// The rows of a store in memory; none where they can't be read, or where they are not those of a library.
pub(crate) fn made<S: RowStore>(inner: &mut S, alloc: Global) -> Option<Mirror>
    ensures agrees { S.is_honest inner.new → S.is_open inner.new → (rows : Rows) → S.shows (S.image inner.old) rows
        → AgreesIfAny result rows }
    ensures opens { S.is_honest inner.new → OnSome result (S.is_open inner.new) }
    ensures same { Keeps S.Meaning inner.old inner.new }
{
    let rows = inner.library_rows(alloc).ok()?;
    let states = inner.load_states(alloc).ok()?;
    of_rows(alloc, rows, states)
}

/// The rows of a store in memory, where they are wanted.
pub(crate) fn made_where<S: RowStore>(inner: &mut S, alloc: Global, wanted: bool) -> Option<Mirror>
    ensures agrees { S.is_honest inner.new → S.is_open inner.new → (rows : Rows) → S.shows (S.image inner.old) rows
        → AgreesIfAny result rows }
    ensures same { Keeps S.Meaning inner.old inner.new }
{
    if !wanted {
        return None;
    }
    made(inner, alloc)
}

/// The first of two mirrors, or else the second.
pub(crate) fn one_of(first: Option<Mirror>, second: Option<Mirror>) -> Option<Mirror>
    ensures { (rows : Rows) → AgreesIfAny first rows → AgreesIfAny second rows → AgreesIfAny result rows }
{
    match first {
        Some(mirror) => Some(mirror),
        None => second,
    }
}
