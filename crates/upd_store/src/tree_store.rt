//! The library in the trees of a store below SQL, as a `RowStore` that only reads.
ghost use Rattle.std.specs.Prelude.{◌≡◌, ◌≤◌, IfErr};
ghost use Rattle.upd_row_store.specs.Keeping.{IsLost, failures_with};
ghost use Rattle.upd_row_store.specs.Tables.{ListsRuns};
ghost use Rattle.upd_store.specs.TreeReads.{Answers, IsWhole, kind_of_read};

use crate::store_faults::{no_memory, refused};
use crate::tree_finds::{mark_under, run_under};
use crate::tree_reads::{active_rows, library_rows, records, states, stored_runs};
use sqlite_trees::error::StoreError;
use sqlite_trees::store::Store;
use std::alloc::{AllocError, Global};
use upd_core::{Actives, CardRef, Change, Library, Serial, States};
use upd_records::{LibraryRows, MarkRow, RunRow};
use upd_row_store::{
    DeckOf, Meaning, RowStore, StoredRuns, ages_of_decks, assembled, assembled_active,
    assembled_deck, assembled_part, decks_by_age, reads_with,
};
use upd_text::Fault;

/// The library in the trees of a store, in which nothing is written.
pub struct TreeStore<S: Store> {
    pub(crate) store: S,
    pub(crate) failures: u64,
    /// The number of decks that were loaded.
    pub(crate) decks_read: u64,
    ghost whole: { IsWhole (S.Store.view store) },
}

// By hand: see CONTRIBUTING.md.
impl<S: Store + Drop> Drop for TreeStore<S> {
    fn drop(self) {
        let TreeStore {
            store: _,
            failures: _,
            decks_read: _,
        } = self;
    }
}

impl<S: Store> TreeStore<S> {
    /// Returns the store. Nothing is written.
    pub fn into_store(self) -> S
        ensures { result ≡ self.store }
    {
        let TreeStore {
            store,
            failures: _,
            decks_read: _,
        } = self;
        store
    }
}

/// The fault of a read that failed. A failure of the store is counted, out of memory is not.
fn failed_read(error: StoreError, failures: &mut u64) -> Fault
    ensures lost { IsLost result }
    ensures kind { result.kind ≡ kind_of_read error }
    ensures count { failures.new ≡ failures_with result.kind failures.old }
    ensures grows { failures.old ≤ failures.new }
{
    match error {
        StoreError::OutOfMemory => no_memory(AllocError),
        _ => refused(failures),
    }
}

impl<S: Store> Meaning for TreeStore<S> {
    ghost use Rattle.std.specs.Prelude.{IsTrue};
    ghost use Rattle.sqlite_trees.specs.Tree.{Trees};
    ghost use Rattle.sqlite_trees.specs.View.{IsClean};
    ghost use Rattle.upd_sql.specs.Commits.{ShowsIn};
    ghost use Rattle.upd_store.specs.One.{is_once};

    ghost Image = { Trees };

    ghost shows = { ShowsIn };

    ghost image = { λ s. (S.Store.view s.store).committed };

    ghost is_open = { λ s. IsTrue (S.Store.view s.store).is_open };

    ghost open_once = { λ s. is_once (S.Store.view s.store).is_open };

    ghost is_honest = { λ s. IsClean (S.Store.view s.store) };

    ghost may_leave = { λ s. S.Store.recovers s.store };

    ghost failures_of = { λ s. s.failures };

    ghost disk_failures_of = { λ s. S.Store.faults s.store };

    ghost decks_read_of = { λ s. s.decks_read };
}

impl<S: Store> TreeStore<S> {
    /// The stored runs and the marks, in the order of their tables. The fault is NoMemory or Store, at 0.
    pub fn stored_runs(&mut self, alloc: Global) -> Result<StoredRuns, Fault>
        ensures answers { Answers S.Store self.old.store self.new.store ListsRuns result }
        ensures lost { IfErr result IsLost }
    {
        match stored_runs(&mut self.store, alloc) {
            Ok(runs) => Ok(runs),
            Err(error) => Err(failed_read(error, &mut self.failures)),
        }
    }
}

/// Each write answers Store, counts it and changes nothing.
impl<S: Store> RowStore for TreeStore<S> {
    ghost use Rattle.std.proofs.Common.{subst, sym};
    ghost use Rattle.upd_sql.specs.Commits.{ShowsIn};
    ghost use Rattle.upd_store.specs.One.{shows_one};

    fn load(&mut self, alloc: Global) -> Result<Library, Fault> {
        match library_rows(&mut self.store, alloc) {
            Ok(rows) => match assembled(alloc, rows) {
                Ok(library) => {
                    self.decks_read = reads_with(self.decks_read, &library);
                    Ok(library)
                }
                Err(lost) => Err(no_memory(lost)),
            },
            Err(error) => Err(failed_read(error, &mut self.failures)),
        }
    }

    fn load_decks(&mut self, alloc: Global, decks: &[Serial]) -> Result<Library, Fault> {
        match library_rows(&mut self.store, alloc) {
            Ok(rows) => match assembled_part(alloc, rows, decks) {
                Ok(library) => {
                    self.decks_read = reads_with(self.decks_read, &library);
                    Ok(library)
                }
                Err(lost) => Err(no_memory(lost)),
            },
            Err(error) => Err(failed_read(error, &mut self.failures)),
        }
    }

    fn load_deck_of(&mut self, alloc: Global, asked: &DeckOf) -> Result<Library, Fault> {
        match library_rows(&mut self.store, alloc) {
            Ok(rows) => match assembled_deck(alloc, rows, asked) {
                Ok(library) => {
                    self.decks_read = reads_with(self.decks_read, &library);
                    Ok(library)
                }
                Err(lost) => Err(no_memory(lost)),
            },
            Err(error) => Err(failed_read(error, &mut self.failures)),
        }
    }

    fn decks_of(&mut self, alloc: Global, cards: &[CardRef]) -> Result<Vec<Serial>, Fault> {
        match library_rows(&mut self.store, alloc) {
            Ok(rows) => match ages_of_decks(alloc, rows.cards.as_slice(), cards) {
                Ok(ages) => Ok(decks_by_age(ages)),
                Err(lost) => Err(no_memory(lost)),
            },
            Err(error) => Err(failed_read(error, &mut self.failures)),
        }
    }

    fn library_rows(&mut self, alloc: Global) -> Result<LibraryRows, Fault> {
        match library_rows(&mut self.store, alloc) {
            Ok(rows) => Ok(rows),
            Err(error) => Err(failed_read(error, &mut self.failures)),
        }
    }

    fn load_states(&mut self, alloc: Global) -> Result<States, Fault> {
        match states(&mut self.store, alloc) {
            Ok(states) => Ok(states),
            Err(error) => Err(failed_read(error, &mut self.failures)),
        }
    }

    fn load_active(&mut self, alloc: Global) -> Result<Actives, Fault> {
        match active_rows(&mut self.store, alloc) {
            Ok(rows) => match assembled_active(alloc, rows.idents, rows.cards, rows.states) {
                Ok(actives) => Ok(actives),
                Err(lost) => Err(no_memory(lost)),
            },
            Err(error) => Err(failed_read(error, &mut self.failures)),
        }
    }

    fn kept_run(
        &mut self,
        alloc: Global,
        site: &str,
        number: u64,
    ) -> Result<Option<RunRow>, Fault> {
        match records(&mut self.store, alloc) {
            Ok(runs) => Ok(run_under(runs, site, number)),
            Err(error) => Err(failed_read(error, &mut self.failures)),
        }
    }

    fn mark(&mut self, alloc: Global, site: &str) -> Result<u64, Fault> {
        match records::<S, MarkRow>(&mut self.store, alloc) {
            Ok(rows) => Ok(mark_under(rows.as_slice(), site)),
            Err(error) => Err(failed_read(error, &mut self.failures)),
        }
    }

    fn stored_runs(&mut self, alloc: Global) -> Result<StoredRuns, Fault> {
        match stored_runs(&mut self.store, alloc) {
            Ok(runs) => Ok(runs),
            Err(error) => Err(failed_read(error, &mut self.failures)),
        }
    }

    fn commit(&mut self, _: Global, _: &[Change], _: RunRow) -> Result<(), Fault> {
        Err(refused(&mut self.failures))
    }

    fn settle_to(&mut self, _: Global, _: &str, _: u64) -> Result<u64, Fault> {
        Err(refused(&mut self.failures))
    }

    fn failures(&self) -> u64 {
        self.failures
    }

    fn decks_read(&self) -> u64 {
        self.decks_read
    }

    ghost shows_one = { shows_one };

    ghost leaves_image = { λ s i clean is_open may rows shown.
        subst (λ kept. ShowsIn kept rows) (sym (S.Store.settled s.store i is_open may)) shown };

    ghost survives = { λ s clean. S.Store.survives s.store clean };
}
