//! A store with nothing below it.

ghost use Rattle.std.specs.Prelude.{◌≡◌, refl, []};
ghost use Rattle.std.proofs.Common.{sym, ◌∙◌};
ghost use Rattle.upd_records.specs.Rows.{Rows};

use crate::list_tables::ListTables;
use std::alloc::Global;
use upd_core::{Actives, CardRef, Change, Library, Serial, States};
use upd_records::{LibraryRows, RunRow, copy_run};
use upd_row_store::{Homes, Meaning, RowStore, StoredRuns, reads_with};
use upd_text::Fault;

/// Tables in memory. Only out of memory can occur.
#[derive(Debug, Drop)]
pub struct ListStore {
    pub(crate) tables: ListTables,
    /// How many decks loads have brought.
    pub(crate) decks_read: u64,
}

impl ListStore {
    /// Tables with no rows: they show the empty library, and keep no run. It does not allocate.
    pub fn new(alloc: Global) -> ListStore
        ensures { result ≡ record {
          tables = record {
            idents = [];
            cards = [];
            entries = [];
            targets = [];
            runs = [];
            states = [];
            counts = [];
            settled = [];
          };
          decks_read = 0;
        } }
    {
        ListStore {
            tables: ListTables::new(alloc),
            decks_read: 0,
        }
    }

    /// The tables.
    pub fn tables(&self) -> &ListTables
        ensures { result.now ≡ self.now.tables }
    {
        &self.tables
    }
}

impl Meaning for ListStore {
    ghost Image = { Rows };

    ghost shows = { λ image rows. image ≡ rows };

    ghost image = { λ s. s.tables };

    ghost is_open = { λ _. Unit {0} };

    ghost open_once = { λ _ _ _. refl };

    ghost is_honest = { λ _. Unit {0} };

    ghost may_leave = { λ s image. image ≡ s.tables };

    ghost failures_of = { λ _. 0 };

    ghost disk_failures_of = { λ _. 0 };

    ghost decks_read_of = { λ s. s.decks_read };
}

impl RowStore for ListStore {
    fn load(&mut self, alloc: Global) -> Result<Library, Fault> {
        let library = self.tables.library(alloc)?;
        self.decks_read = reads_with(self.decks_read, &library);
        Ok(library)
    }

    fn load_decks(&mut self, alloc: Global, decks: &[Serial]) -> Result<Library, Fault> {
        let library = self.tables.part(alloc, decks)?;
        self.decks_read = reads_with(self.decks_read, &library);
        Ok(library)
    }

    fn decks_of(&mut self, alloc: Global, cards: &[CardRef]) -> Result<Vec<Serial>, Fault> {
        let decks = self.tables.decks_of(alloc, cards)?;
        Ok(decks)
    }

    fn homes_of(&mut self, alloc: Global, cards: &[CardRef]) -> Result<Homes, Fault> {
        let homes = self.tables.homes_of(alloc, cards)?;
        Ok(homes)
    }

    fn library_rows(&mut self, alloc: Global) -> Result<LibraryRows, Fault> {
        let rows = self.tables.library_rows(alloc)?;
        Ok(rows)
    }

    fn load_states(&mut self, alloc: Global) -> Result<States, Fault> {
        let states = self.tables.all_states(alloc)?;
        Ok(states)
    }

    fn states_of(&mut self, alloc: Global, cards: &[CardRef]) -> Result<States, Fault> {
        let states = self.tables.states_of(alloc, cards)?;
        Ok(states)
    }

    fn load_active(&mut self, alloc: Global) -> Result<Actives, Fault> {
        let actives = self.tables.actives(alloc)?;
        Ok(actives)
    }

    fn kept_run(
        &mut self,
        alloc: Global,
        site: &str,
        number: u64,
    ) -> Result<Option<RunRow>, Fault> {
        match self.tables.run_under(site, number) {
            Some(run) => {
                let run = copy_run(alloc, run)?;
                Ok(Some(run))
            }
            None => Ok(None),
        }
    }

    fn mark(&mut self, _alloc: Global, site: &str) -> Result<u64, Fault> {
        Ok(self.tables.mark_of(site))
    }

    fn stored_runs(&mut self, alloc: Global) -> Result<StoredRuns, Fault> {
        let runs = self.tables.stored_runs(alloc)?;
        Ok(runs)
    }

    fn commit(&mut self, alloc: Global, changes: &[Change], run: RunRow) -> Result<(), Fault> {
        self.tables.commit_all(alloc, changes, run)?;
        Ok(())
    }

    fn settle_to(&mut self, alloc: Global, site: &str, number: u64) -> Result<u64, Fault> {
        let mark = self.tables.settle(alloc, site, number)?;
        Ok(mark)
    }

    fn failures(&self) -> u64 {
        0
    }

    fn decks_read(&self) -> u64 {
        self.decks_read
    }

    ghost shows_one = { λ i a b shown other. sym shown ∙ other };

    ghost leaves_image = { λ s i _ _ left rows shown. left ∙ shown };

    ghost survives = { λ s _. ∣ (_, refl) ∣₁ };
}
