//! A store that is written to the list of a store's calls: each further call has a default body.
ghost use Rattle.std.specs.Prelude.{◌≡◌, refl};
ghost use Rattle.std.proofs.Common.{sym, ◌∙◌};
ghost use Rattle.upd_records.specs.Rows.{Rows};

use std::alloc::Global;
use upd_core::{Actives, CardRef, Change, Fault, Library, Serial, States};
use upd_row_store::Meaning;
use upd_rows::{ListStore, RowStore, RunRow};

/// A store whose calls pass on to lists.
#[derive(Drop)]
pub struct WrittenStore {
    lists: ListStore,
}

impl WrittenStore {
    /// The store of an empty library.
    pub fn new(alloc: Global) -> WrittenStore {
        WrittenStore {
            lists: ListStore::new(alloc),
        }
    }
}

impl Meaning for WrittenStore {
    ghost Image = { Rows };

    ghost shows = { λ image rows. image ≡ rows };

    ghost image = { λ s. s.lists.tables };

    ghost is_open = { λ _. Unit {0} };

    ghost open_once = { λ _ _ _. refl };

    ghost is_honest = { λ _. Unit {0} };

    ghost may_leave = { λ s image. image ≡ s.lists.tables };

    ghost failures_of = { λ _. 0 };

    ghost disk_failures_of = { λ _. 0 };

    ghost decks_read_of = { λ s. s.lists.decks_read };
}

impl RowStore for WrittenStore {
    fn load(&mut self, alloc: Global) -> Result<Library, Fault> {
        self.lists.load(alloc)
    }

    fn load_decks(&mut self, alloc: Global, decks: &[Serial]) -> Result<Library, Fault> {
        self.lists.load_decks(alloc, decks)
    }

    fn decks_of(&mut self, alloc: Global, cards: &[CardRef]) -> Result<Vec<Serial>, Fault> {
        self.lists.decks_of(alloc, cards)
    }

    fn load_states(&mut self, alloc: Global) -> Result<States, Fault> {
        self.lists.load_states(alloc)
    }

    fn load_active(&mut self, alloc: Global) -> Result<Actives, Fault> {
        self.lists.load_active(alloc)
    }

    fn kept_run(
        &mut self,
        alloc: Global,
        site: &str,
        number: u64,
    ) -> Result<Option<RunRow>, Fault> {
        self.lists.kept_run(alloc, site, number)
    }

    fn mark(&mut self, alloc: Global, site: &str) -> Result<u64, Fault> {
        self.lists.mark(alloc, site)
    }

    fn commit(&mut self, alloc: Global, changes: &[Change], run: RunRow) -> Result<(), Fault> {
        self.lists.commit(alloc, changes, run)
    }

    fn settle_to(&mut self, alloc: Global, site: &str, number: u64) -> Result<u64, Fault> {
        self.lists.settle_to(alloc, site, number)
    }

    fn failures(&self) -> u64 {
        self.lists.failures()
    }

    fn decks_read(&self) -> u64 {
        self.lists.decks_read()
    }

    ghost shows_one = { λ i a b shown other. sym shown ∙ other };

    ghost leaves_image = { λ s i _ _ left rows shown. left ∙ shown };

    ghost survives = { λ s _. ∣ (_, refl) ∣₁ };
}
