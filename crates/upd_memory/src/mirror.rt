//! The rows of a library and its statuses in memory, and how row changes change them.

ghost use Rattle.std.specs.Prelude.{◌≡◌, ◌==◌, ◌∷◌, ◌++◌, [], not, List, map, OnSome};
ghost use Rattle.std.specs.List.{filter};
ghost use Rattle.upd_records.specs.Changes.{change_view, done, done_all};
ghost use Rattle.upd_records.specs.Changes.{CardNew, CountNow};
ghost use Rattle.upd_records.specs.Changes.{EntriesGone, EntryNew, IdentNew, IdentPurged};
ghost use Rattle.upd_records.specs.Changes.{StatusNow, TargetNew, TargetsGone};
ghost use Rattle.upd_records.specs.Fits.{AllFit};
ghost use Rattle.upd_records.specs.Rows.{MarkRow, Rows, RunView, same_ref};
ghost use Rattle.upd_row_store.specs.Ranges.{is_among, without_cards, without_rows};
ghost use Rattle.upd_row_store.specs.Shifts.{as_change};
ghost use Rattle.upd_row_store.specs.declared.ranges.CardRows.TheVariants.{Card, Entries, Targets};
ghost use Rattle.upd_memory.specs.Lists.{made_tables};
ghost use Rattle.upd_memory.specs.Mirrored.{Agrees, AgreesIfAny};

use crate::card_sets::{drop_set_of_all, homes_listed, set_of};
use crate::tables::{
    add_card, add_entry, drop_count, drop_entries, drop_homes, drop_statuses, home_of,
    place_cards_of, put_home, put_status,
};
use std::alloc::Global;
use std::collections::BTreeMap;
use upd_core::{CardRef, Change, Entry, Ident, Serial, Target};
use upd_records::{CardRow, EntryRow, TargetRow, drop_targets, purge_ident};
use upd_row_store::{GoneCards, Move, gone_cards, moves_of, part_ahead, pieces_of};

/// The rows of idents, cards, entries and targets, the statuses and the counts.
pub struct Mirror {
    pub(crate) idents: Vec<Ident>,
    /// The rows of the cards of each deck, in no promised order.
    pub(crate) decks: BTreeMap<Serial, Vec<CardRow>>,
    /// The deck of each card.
    pub(crate) homes: BTreeMap<CardRef, Serial>,
    pub(crate) entries: BTreeMap<CardRef, Vec<EntryRow>>,
    pub(crate) entry_count: u64,
    pub(crate) targets: Vec<TargetRow>,
    pub(crate) statuses: BTreeMap<CardRef, bool>,
    pub(crate) counts: Vec<(Target, u32)>,
}

// By hand: see CONTRIBUTING.md.
impl Drop for Mirror {
    fn drop(self) {
        let Mirror {
            idents: _,
            decks: _,
            homes: _,
            entries: _,
            entry_count: _,
            targets: _,
            statuses: _,
            counts: _,
        } = self;
    }
}

impl Mirror {
    fn add_ident(&mut self, ident: Ident) -> Option<()>
        ensures { OnSome result ((rows : Rows) → Agrees self.old rows → Agrees self.new (done (IdentNew ident) rows)) }
    {
        self.idents.push(ident).ok()?;
        Some(())
    }

    fn purge_ident(&mut self, age: Serial)
        ensures { (rows : Rows) → Agrees self.old rows → Agrees self.new (done (IdentPurged age) rows) }
    {
        purge_ident(&mut self.idents, age);
    }

    /// Adds a card. A card that is in a deck already can't be added.
    pub(crate) fn add_card(&mut self, row: CardRow) -> Option<()>
        ensures { OnSome result ((rows : Rows) → Agrees self.old rows
            → Agrees self.new (record rows { cards = rows.cards ++ row ∷ [] })) }
    {
        if home_of(&self.homes, &row.card).is_some() {
            return None;
        }
        put_home(&mut self.homes, row.card, row.deck).ok()?;
        add_card(&mut self.decks, row).ok()?;
        Some(())
    }

    /// Takes cards away, those of a deck at once.
    fn take_cards(&mut self, alloc: Global, cards: &[CardRef]) -> Option<()>
        ensures { OnSome result ((rows : Rows) → Agrees self.old rows → Agrees self.new (without_rows Card (is_among cards.now) rows)) }
    {
        let gone = set_of(alloc, cards).ok()?;
        let decks = homes_listed(alloc, &self.homes, cards).ok()?;
        drop_set_of_all(&mut self.decks, &decks, &gone);
        drop_homes(&mut self.homes, cards);
        drop_statuses(&mut self.statuses, cards);
        Some(())
    }

    /// Makes moves of the cards of a deck, each card at once.
    fn move_deck(&mut self, alloc: Global, deck: Serial, moves: &[Move]) -> Option<()>
        ensures { OnSome result ((rows : Rows) → Agrees self.old rows
            → Agrees self.new (done_all (map (as_change deck) moves.now) rows)) }
    {
        let pieces = pieces_of(alloc, moves)?;
        place_cards_of(&mut self.decks, deck, &pieces)
    }

    pub(crate) fn add_entry(&mut self, alloc: Global, row: EntryRow) -> Option<()>
        ensures { OnSome result ((rows : Rows) → Agrees self.old rows
            → Agrees self.new (record rows { entries = rows.entries ++ row ∷ [] })) }
    {
        self.entry_count = self.entry_count.checked_add(1)?;
        add_entry(alloc, &mut self.entries, row).ok()?;
        Some(())
    }

    fn take_entries(&mut self, card: &CardRef)
        ensures { (rows : Rows) → Agrees self.old rows → Agrees self.new (done (EntriesGone card.now) rows) }
    {
        let gone = drop_entries(&mut self.entries, card);
        self.entry_count = self.entry_count.saturating_sub(gone as u64);
    }

    fn take_all_entries(&mut self, cards: &[CardRef])
        ensures { (rows : Rows) → Agrees self.old rows → Agrees self.new (without_rows Entries (is_among cards.now) rows) }
    {
        for card in cards {
            self.take_entries(card);
        }
    }

    fn add_target(&mut self, row: TargetRow) -> Option<()>
        ensures { OnSome result ((rows : Rows) → Agrees self.old rows
            → Agrees self.new (record rows { targets = rows.targets ++ row ∷ [] })) }
    {
        self.targets.push(row).ok()?;
        Some(())
    }

    fn take_targets(&mut self, card: &CardRef)
        ensures { (rows : Rows) → Agrees self.old rows
            → Agrees self.new (record rows { targets = filter (λ r. not (same_ref card.now r.card)) rows.targets }) }
    {
        drop_targets(&mut self.targets, card);
    }

    fn take_all_targets(&mut self, cards: &[CardRef])
        ensures { (rows : Rows) → Agrees self.old rows → Agrees self.new (without_rows Targets (is_among cards.now) rows) }
    {
        for card in cards {
            self.take_targets(card);
        }
    }

    /// Takes rows of cards away.
    fn take_gone(&mut self, alloc: Global, gone: &GoneCards) -> Option<()>
        ensures { OnSome result ((rows : Rows) → Agrees self.old rows → Agrees self.new (without_cards gone.now rows)) }
    {
        self.take_all_entries(&gone.entries);
        self.take_all_targets(&gone.targets);
        self.take_cards(alloc, &gone.cards)
    }

    fn put_status(&mut self, card: CardRef, active: bool) -> Option<()>
        ensures { OnSome result ((rows : Rows) → Agrees self.old rows
            → Agrees self.new (done (StatusNow card active) rows)) }
    {
        put_status(&mut self.statuses, card, active).ok()?;
        Some(())
    }

    fn put_count(&mut self, target: Target, n: u32) -> Option<()>
        ensures { OnSome result ((rows : Rows) → Agrees self.old rows
            → Agrees self.new (done (CountNow target n) rows)) }
    {
        drop_count(&mut self.counts, target);
        if n == 0 {
            return Some(());
        }
        self.counts.push((target, n)).ok()?;
        Some(())
    }

    /// Carries out one change; where it can't, it may be done in part.
    fn carry_out(&mut self, alloc: Global, change: &Change) -> Option<()>
        ensures { OnSome result ((rows : Rows) → Agrees self.old rows
            → Agrees self.new (done (change_view change.now) rows)) }
    {
        match change {
            Change::IdentNew(ident) => self.add_ident(*ident)?,
            Change::IdentPurged(age) => self.purge_ident(*age),
            Change::CardNew {
                card,
                deck,
                pos,
                text,
            } => {
                let body = Vec::from_slice(alloc, text).ok()?;
                self.add_card(CardRow {
                    card: *card,
                    deck: *deck,
                    pos: *pos,
                    body,
                })?
            }
            Change::CardGone(card) => self.take_cards(alloc, &[*card])?,
            Change::CardsMoved { deck, from, by } => self.move_deck(
                alloc,
                *deck,
                &[Move {
                    from: *from,
                    by: *by,
                }],
            )?,
            Change::EntryNew { card, ord, entry } => self.add_entry(
                alloc,
                EntryRow {
                    card: *card,
                    ord: *ord,
                    entry: *entry,
                },
            )?,
            Change::EntriesGone(card) => self.take_entries(card),
            Change::TargetNew { card, ord, target } => self.add_target(TargetRow {
                card: *card,
                ord: *ord,
                target: *target,
            })?,
            Change::TargetsGone { card, .. } => self.take_targets(card),
            Change::StatusNow { card, active } => self.put_status(*card, *active)?,
            Change::CountNow { target, n } => self.put_count(*target, *n)?,
        }
        Some(())
    }

    /// Carries out changes in order, one after another; where one can't be carried out, they may be done in part.
    fn carry_out_each(&mut self, alloc: Global, changes: &[Change]) -> Option<()>
        ensures { OnSome result ((rows : Rows) → Agrees self.old rows
            → Agrees self.new (done_all (map change_view changes.now) rows)) }
    {
        for change in changes {
            self.carry_out(alloc, change)?;
        }
        Some(())
    }

    /// Carries out changes in order: at once, where they are moves of one deck, or where rows of cards go.
    fn carry_out_part(&mut self, alloc: Global, changes: &[Change]) -> Option<()>
        ensures { OnSome result ((rows : Rows) → Agrees self.old rows
            → Agrees self.new (done_all (map change_view changes.now) rows)) }
    {
        match changes.first() {
            Some(Change::CardsMoved { deck, .. }) => {
                let moves = moves_of(alloc, *deck, changes)?;
                self.move_deck(alloc, *deck, &moves)
            }
            _ => match gone_cards(alloc, changes) {
                Some(gone) => self.take_gone(alloc, &gone),
                None => self.carry_out_each(alloc, changes),
            },
        }
    }

    /// Carries out changes in order; where one can't be carried out, they may be done in part.
    fn carry_out_all(&mut self, alloc: Global, changes: &[Change]) -> Option<()>
        ensures { OnSome result ((rows : Rows) → Agrees self.old rows
            → Agrees self.new (done_all (map change_view changes.now) rows)) }
    {
        let mut rest = changes;
        while !rest.is_empty() {
            let (part, after) = rest.split_at(part_ahead(rest));
            self.carry_out_part(alloc, part)?;
            rest = after;
        }
        Some(())
    }
}

/// A mirror after changes; none where there was none, or where they can't be carried out.
pub(crate) fn changed(alloc: Global, mirror: Option<Mirror>, changes: &[Change]) -> Option<Mirror>
    ensures { (rows : Rows) → AgreesIfAny mirror rows
        → AgreesIfAny result (done_all (map change_view changes.now) rows) }
{
    let mut mirror = mirror?;
    mirror.carry_out_all(alloc, changes)?;
    Some(mirror)
}

/// A mirror of the rows that changes make of empty tables; none where they can't be carried out.
pub(crate) fn made_of(alloc: Global, changes: &[Change]) -> Option<Mirror>
    ensures { (runs : List RunView) → (marks : List MarkRow)
        → AgreesIfAny result (made_tables changes.now runs marks) }
{
    changed(alloc, Some(Mirror::empty(alloc)), changes)
}

/// A mirror after changes that fit its rows; none where there was none, or where memory runs out.
pub(crate) fn carried(alloc: Global, mirror: Option<Mirror>, changes: &[Change]) -> Option<Mirror>
    ensures { (rows : Rows) → AgreesIfAny mirror rows → AllFit (map change_view changes.now) rows
        → AgreesIfAny result (done_all (map change_view changes.now) rows) }
{
    changed(alloc, mirror, changes)
}
