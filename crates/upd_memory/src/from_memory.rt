//! What a store is asked for, from the rows in memory.

ghost use Rattle.std.specs.Prelude.{◌≡◌, length, IfOk, IfSome, OnOk};
ghost use Rattle.std.specs.BTreeMap.{IsOrdered};
ghost use Rattle.upd_text.specs.Order.{by_name};
ghost use Rattle.upd_core.specs.Actives.{actives_of};
ghost use Rattle.upd_core.specs.Library.{LibraryView};
ghost use Rattle.upd_core.specs.Parts.{part_of};
ghost use Rattle.upd_core.specs.Sound.{IsSound, IsWhole};
ghost use Rattle.upd_records.specs.Rows.{Rows, Shows, ShowsStates};
ghost use Rattle.upd_row_store.specs.Asked.{AreHomes, ShowsCard, ages_asked, decks_with};
ghost use Rattle.upd_row_store.specs.Assembling.{AreRowsOf};
ghost use Rattle.upd_row_store.specs.PartRows.{AreOfDistinctCards, part_rows};
ghost use Rattle.upd_row_store.specs.Tables.{AreByKey, AreRead, AreReadOf};
ghost use Rattle.upd_memory.specs.Mirrored.{Agrees};

use crate::active_rows::{active_decks, all_by_place};
use crate::mirror::Mirror;
use crate::row_copies::{
    all_cards, all_entries, all_states, card_count, cards_of, entries_of, homes_of, row_in,
    sorted_references,
};
use crate::status_answers::statuses_of;
use crate::status_lookup::Statuses;
use crate::tables::home_of;
use std::alloc::{AllocError, Global};
use std::collections::BTreeMap;
use upd_core::{Actives, CardRef, Library, Serial, States};
use upd_records::LibraryRows;
use upd_row_store::{
    DeckOf, Homes, assembled, assembled_active, assembled_card, assembled_with_rest, by_age,
    deck_named, decks_by_age, held_ages, homes_by_age, states_by_key,
};

/// The cards of a map with their statuses.
fn pairs_of(
    alloc: Global,
    statuses: &BTreeMap<CardRef, bool>,
) -> Result<Vec<(CardRef, bool)>, AllocError>
    ensures pairs { IfOk result (λ pairs. pairs.items ≡ statuses.now.entries) }
    ensures ordered { OnOk result (IsOrdered by_name statuses.now) }
{
    let mut pairs = Vec::with_capacity(alloc, statuses.len())?;
    for (card, active) in statuses {
        pairs.push((*card, *active))?;
    }
    Ok(pairs)
}

impl Mirror {
    /// All statuses and counts, by their keys; memory alone can fail.
    pub(crate) fn states(&self, alloc: Global) -> Result<States, AllocError>
        ensures read { IfOk result (λ found. (rows : Rows) → Agrees self.now rows → AreRead rows found) }
        ensures order { IfOk result AreByKey }
    {
        let states = pairs_of(alloc, &self.statuses)?;
        let counts = Vec::from_slice(alloc, &self.counts)?;
        Ok(states_by_key(States { states, counts }))
    }

    /// The statuses of those of these cards that have one, and all counts, by their keys; memory alone can fail.
    pub(crate) fn states_of(&self, alloc: Global, cards: &[CardRef]) -> Result<States, AllocError>
        ensures read { IfOk result (λ found. (rows : Rows) → Agrees self.now rows → AreReadOf cards.now rows found) }
        ensures order { IfOk result AreByKey }
    {
        let states = statuses_of(alloc, &self.statuses, cards)?;
        let counts = Vec::from_slice(alloc, &self.counts)?;
        let States { states: _, counts } = states_by_key(States {
            states: Vec::new(alloc),
            counts,
        });
        Ok(States { states, counts })
    }

    /// The rows that make the library; memory alone can fail.
    pub(crate) fn library_rows(&self, alloc: Global) -> Result<LibraryRows, AllocError>
        ensures { IfOk result (λ found. (rows : Rows) → Agrees self.now rows → AreRowsOf rows found) }
    {
        let idents = Vec::from_slice(alloc, &self.idents)?;
        let cards = all_cards(alloc, &self.decks)?;
        let entries = all_entries(alloc, &self.entries)?;
        let targets = Vec::from_slice(alloc, &self.targets)?;
        Ok(LibraryRows {
            idents,
            cards,
            entries,
            targets,
        })
    }

    /// The rows that make the part of the library with the decks of these ages; memory alone can fail.
    fn part_rows(&self, alloc: Global, ages: &[Serial]) -> Result<LibraryRows, AllocError>
        ensures { IfOk result (λ found. (rows : Rows) → Agrees self.now rows → AreOfDistinctCards rows.cards
            → AreRowsOf (part_rows ages.now rows) found) }
    {
        let idents = Vec::from_slice(alloc, &self.idents)?;
        let cards = cards_of(alloc, &self.decks, ages)?;
        let by_name = sorted_references(alloc, &cards)?;
        let entries = entries_of(alloc, &self.entries, &by_name)?;
        let targets = Vec::from_slice(alloc, &self.targets)?;
        Ok(LibraryRows {
            idents,
            cards,
            entries,
            targets,
        })
    }

    /// The library; memory alone can fail.
    pub(crate) fn library(&self, alloc: Global) -> Result<Library, AllocError>
        ensures { (rows : Rows) → Agrees self.now rows → (l : LibraryView) → IsSound l → IsWhole l → Shows rows l
            → IfOk result (λ found. found ≡ l) }
    {
        let rows = self.library_rows(alloc)?;
        let library = assembled(alloc, rows)?;
        Ok(library)
    }

    /// The library without the decks that aren't of these ages; memory alone can fail.
    pub(crate) fn part(&self, alloc: Global, ages: &[Serial]) -> Result<Library, AllocError>
        ensures { (rows : Rows) → Agrees self.now rows → (l : LibraryView) → IsSound l → IsWhole l → Shows rows l
            → IfOk result (λ found. found ≡ part_of ages.now l) }
    {
        let rows = self.part_rows(alloc, ages)?;
        let Some(cards) = self.card_count() else {
            return Err(AllocError);
        };
        let library = assembled_with_rest(alloc, rows, cards, self.entry_count)?;
        Ok(library)
    }

    /// The age of the deck that is asked for, where there is one; memory alone can fail.
    fn ages_asked(&self, alloc: Global, asked: &DeckOf) -> Result<Vec<Serial>, AllocError>
        ensures { (rows : Rows) → Agrees self.now rows → (l : LibraryView) → IsSound l → Shows rows l
            → IfOk result (λ found. found.items ≡ ages_asked asked.now l) }
    {
        match asked {
            DeckOf::Named(name) => deck_named(alloc, &self.idents, name),
            DeckOf::Holding(card) => self.decks_of(alloc, &[*card]),
        }
    }

    /// The library with the deck that is asked for alone; memory alone can fail.
    pub(crate) fn part_asked(&self, alloc: Global, asked: &DeckOf) -> Result<Library, AllocError>
        ensures { (rows : Rows) → Agrees self.now rows → (l : LibraryView) → IsSound l → IsWhole l → Shows rows l
            → IfOk result (λ found. found ≡ part_of (ages_asked asked.now l) l) }
    {
        let ages = self.ages_asked(alloc, asked)?;
        self.part(alloc, &ages)
    }

    /// The directory, `YANK$$$`, and of a deck other than it this card alone, if it's there; none where memory runs out.
    pub(crate) fn card_alone(&self, alloc: Global, card: &CardRef) -> Option<Library>
        ensures { (rows : Rows) → Agrees self.now rows → (l : LibraryView) → IsSound l → Shows rows l
            → IfSome result (λ found. ShowsCard card.now l found) }
    {
        let deck = home_of(&self.homes, card)?;
        let row = row_in(&self.decks, deck, card)?;
        if row.deck == 0 {
            return None;
        }
        let row = row.copy().ok()?;
        let rows = self.part_rows(alloc, &[]).ok()?;
        let entries = entries_of(alloc, &self.entries, &[*card]).ok()?;
        assembled_card(alloc, rows, row, entries).ok()
    }

    /// The number of cards; none where it is no number of 64 bits.
    fn card_count(&self) -> Option<u64>
        ensures { IfSome result (λ count. (rows : Rows) → Agrees self.now rows → count ≡ length rows.cards) }
    {
        let count = card_count(&self.decks)?;
        Some(count)
    }

    /// The decks other than `YANK$$$` that hold one of these cards; memory alone can fail.
    pub(crate) fn decks_of(
        &self,
        alloc: Global,
        cards: &[CardRef],
    ) -> Result<Vec<Serial>, AllocError>
        ensures { (rows : Rows) → Agrees self.now rows → (l : LibraryView) → IsSound l → Shows rows l
            → IfOk result (λ found. found.items ≡ decks_with cards.now l) }
    {
        let ages = homes_of(alloc, &self.homes, cards)?;
        Ok(decks_by_age(ages))
    }

    /// The decks that hold one of these cards, and whether `YANK$$$` does; memory alone can fail.
    pub(crate) fn homes_of(&self, alloc: Global, cards: &[CardRef]) -> Result<Homes, AllocError>
        ensures { (rows : Rows) → Agrees self.now rows → (l : LibraryView) → IsSound l → Shows rows l
            → IfOk result (λ found. AreHomes cards.now l found) }
    {
        let ages = homes_of(alloc, &self.homes, cards)?;
        Ok(homes_by_age(ages))
    }

    /// The active cards, by the statuses; memory alone can fail.
    pub(crate) fn actives(&self, alloc: Global) -> Result<Actives, AllocError>
        ensures { (rows : Rows) → Agrees self.now rows → (l : LibraryView) → IsSound l → Shows rows l
            → ShowsStates rows l → IfOk result (λ found. found ≡ actives_of l) }
    {
        if !all_by_place(&self.decks) {
            return self.actives_sorted(alloc);
        }
        let idents = by_age(Vec::from_slice(alloc, &self.idents)?);
        let ages = held_ages(alloc, &idents)?;
        let pairs = pairs_of(alloc, &self.statuses)?;
        let mut statuses = Statuses {
            pairs: &pairs,
            next: 0,
        };
        let decks = active_decks(alloc, &self.decks, &ages, &mut statuses)?;
        Ok(Actives { idents, decks })
    }

    /// The active cards, of cards in any order: they are copied and sorted.
    fn actives_sorted(&self, alloc: Global) -> Result<Actives, AllocError>
        ensures { (rows : Rows) → Agrees self.now rows → (l : LibraryView) → IsSound l → Shows rows l
            → ShowsStates rows l
            → IfOk result (λ found. found ≡ actives_of l) }
    {
        let idents = Vec::from_slice(alloc, &self.idents)?;
        let cards = all_cards(alloc, &self.decks)?;
        let states = all_states(alloc, &self.statuses)?;
        let actives = assembled_active(alloc, idents, cards, states)?;
        Ok(actives)
    }
}
