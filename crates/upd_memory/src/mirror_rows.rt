//! `MirrorStore` as a `RowStore`.
ghost use Rattle.std.specs.Prelude.{◌≡◌};
ghost use Rattle.upd_row_store.specs.Keeping.{failures_with};

use crate::made::{made_where, one_of};
use crate::mirror::carried;
use crate::mirror_store::MirrorStore;
use crate::moved_idents::commit_below;
use std::alloc::Global;
use upd_core::{Actives, CardRef, Change, Library, Serial, States};
use upd_records::{LibraryRows, RunRow};
use upd_row_store::{DeckOf, Homes, RowStore, StoredRuns, reads_with};
use upd_text::{Fault, FaultKind};

/// How often a call has answered Store, with one more fault; it stops at the last value.
fn failures_with(failures: u64, fault: &Fault) -> u64
    ensures { result ≡ failures_with fault.now.kind failures }
{
    match fault.kind {
        FaultKind::Store => failures.saturating_add(1),
        _ => failures,
    }
}

impl<S: RowStore> RowStore for MirrorStore<S> {
    ghost use Rattle.upd_memory.specs.Overlaid.{left_over, none_agrees};

    fn load(&mut self, alloc: Global) -> Result<Library, Fault> {
        if self.is_live
            && let Some(mirror) = &self.mirror
        {
            let library = mirror.library(alloc)?;
            self.reads = reads_with(self.reads, &library);
            return Ok(library);
        }
        match self.inner.load(alloc) {
            Ok(library) => {
                self.is_live = true;
                self.reads = reads_with(self.reads, &library);
                Ok(library)
            }
            Err(fault) => {
                self.is_live = false;
                self.failures = failures_with(self.failures, &fault);
                Err(fault)
            }
        }
    }

    fn load_decks(&mut self, alloc: Global, decks: &[Serial]) -> Result<Library, Fault> {
        if self.is_live
            && let Some(mirror) = &self.mirror
        {
            let library = mirror.part(alloc, decks)?;
            self.reads = reads_with(self.reads, &library);
            return Ok(library);
        }
        match self.inner.load_decks(alloc, decks) {
            Ok(library) => {
                self.is_live = true;
                self.reads = reads_with(self.reads, &library);
                Ok(library)
            }
            Err(fault) => {
                self.is_live = false;
                self.failures = failures_with(self.failures, &fault);
                Err(fault)
            }
        }
    }

    fn load_deck_of(&mut self, alloc: Global, asked: &DeckOf) -> Result<Library, Fault> {
        if self.is_live
            && let Some(mirror) = &self.mirror
        {
            let library = mirror.part_asked(alloc, asked)?;
            self.reads = reads_with(self.reads, &library);
            return Ok(library);
        }
        match self.inner.load_deck_of(alloc, asked) {
            Ok(library) => {
                self.is_live = true;
                self.reads = reads_with(self.reads, &library);
                Ok(library)
            }
            Err(fault) => {
                self.is_live = false;
                self.failures = failures_with(self.failures, &fault);
                Err(fault)
            }
        }
    }

    fn card_alone(&self, alloc: Global, card: CardRef) -> Option<Library> {
        match &self.mirror {
            Some(mirror) if self.is_live => mirror.card_alone(alloc, &card),
            _ => None,
        }
    }

    fn decks_of(&mut self, alloc: Global, cards: &[CardRef]) -> Result<Vec<Serial>, Fault> {
        if self.is_live
            && let Some(mirror) = &self.mirror
        {
            let decks = mirror.decks_of(alloc, cards)?;
            return Ok(decks);
        }
        match self.inner.decks_of(alloc, cards) {
            Ok(decks) => {
                self.is_live = true;
                Ok(decks)
            }
            Err(fault) => {
                self.is_live = false;
                self.failures = failures_with(self.failures, &fault);
                Err(fault)
            }
        }
    }

    fn homes_of(&mut self, alloc: Global, cards: &[CardRef]) -> Result<Homes, Fault> {
        if self.is_live
            && let Some(mirror) = &self.mirror
        {
            let homes = mirror.homes_of(alloc, cards)?;
            return Ok(homes);
        }
        match self.inner.homes_of(alloc, cards) {
            Ok(homes) => {
                self.is_live = true;
                Ok(homes)
            }
            Err(fault) => {
                self.is_live = false;
                self.failures = failures_with(self.failures, &fault);
                Err(fault)
            }
        }
    }

    fn library_rows(&mut self, alloc: Global) -> Result<LibraryRows, Fault> {
        match self.inner.library_rows(alloc) {
            Ok(rows) => {
                self.is_live = true;
                Ok(rows)
            }
            Err(fault) => {
                self.is_live = false;
                self.failures = failures_with(self.failures, &fault);
                Err(fault)
            }
        }
    }

    fn load_states(&mut self, alloc: Global) -> Result<States, Fault> {
        if self.is_live
            && let Some(mirror) = &self.mirror
        {
            let states = mirror.states(alloc)?;
            return Ok(states);
        }
        match self.inner.load_states(alloc) {
            Ok(states) => {
                self.is_live = true;
                Ok(states)
            }
            Err(fault) => {
                self.is_live = false;
                self.failures = failures_with(self.failures, &fault);
                Err(fault)
            }
        }
    }

    fn states_of(&mut self, alloc: Global, cards: &[CardRef]) -> Result<States, Fault> {
        if self.is_live
            && let Some(mirror) = &self.mirror
        {
            let states = mirror.states_of(alloc, cards)?;
            return Ok(states);
        }
        match self.inner.states_of(alloc, cards) {
            Ok(states) => {
                self.is_live = true;
                Ok(states)
            }
            Err(fault) => {
                self.is_live = false;
                self.failures = failures_with(self.failures, &fault);
                Err(fault)
            }
        }
    }

    fn load_active(&mut self, alloc: Global) -> Result<Actives, Fault> {
        if self.is_live
            && let Some(mirror) = &self.mirror
        {
            let actives = mirror.actives(alloc)?;
            return Ok(actives);
        }
        match self.inner.load_active(alloc) {
            Ok(actives) => {
                self.is_live = true;
                Ok(actives)
            }
            Err(fault) => {
                self.is_live = false;
                self.failures = failures_with(self.failures, &fault);
                Err(fault)
            }
        }
    }

    fn kept_run(
        &mut self,
        alloc: Global,
        site: &str,
        number: u64,
    ) -> Result<Option<RunRow>, Fault> {
        match self.inner.kept_run(alloc, site, number) {
            Ok(run) => {
                self.is_live = true;
                Ok(run)
            }
            Err(fault) => {
                self.is_live = false;
                self.failures = failures_with(self.failures, &fault);
                Err(fault)
            }
        }
    }

    fn mark(&mut self, alloc: Global, site: &str) -> Result<u64, Fault> {
        match self.inner.mark(alloc, site) {
            Ok(mark) => {
                self.is_live = true;
                Ok(mark)
            }
            Err(fault) => {
                self.is_live = false;
                self.failures = failures_with(self.failures, &fault);
                Err(fault)
            }
        }
    }

    fn stored_runs(&mut self, alloc: Global) -> Result<StoredRuns, Fault> {
        match self.inner.stored_runs(alloc) {
            Ok(runs) => {
                self.is_live = true;
                Ok(runs)
            }
            Err(fault) => {
                self.is_live = false;
                self.failures = failures_with(self.failures, &fault);
                Err(fault)
            }
        }
    }

    fn commit(&mut self, alloc: Global, changes: &[Change], run: RunRow) -> Result<(), Fault> {
        let wanted = self.has_committed && self.mirror.is_none();
        let made = made_where(&mut self.inner, alloc, wanted);
        match commit_below(&mut self.inner, alloc, &self.mirror, changes, run) {
            Ok(()) => {
                self.is_live = true;
                self.has_committed = true;
                let mirror = one_of(self.mirror.take(), made);
                self.mirror = carried(alloc, mirror, changes);
                Ok(())
            }
            Err(fault) => {
                self.is_live = false;
                self.failures = failures_with(self.failures, &fault);
                Err(fault)
            }
        }
    }

    fn settle_to(&mut self, alloc: Global, site: &str, number: u64) -> Result<u64, Fault> {
        match self.inner.settle_to(alloc, site, number) {
            Ok(mark) => {
                self.is_live = true;
                Ok(mark)
            }
            Err(fault) => {
                self.is_live = false;
                self.failures = failures_with(self.failures, &fault);
                Err(fault)
            }
        }
    }

    fn failures(&self) -> u64 {
        self.failures
    }

    fn decks_read(&self) -> u64 {
        self.reads
    }

    ghost shows_one = { λ i a b shown other. S.RowStore.shows_one i.0 a b shown.0 other.0 };

    ghost leaves_image = { λ s i honest is_open left rows shown.
        (S.RowStore.leaves_image s.inner i.0 honest is_open left.0 rows shown.0, none_agrees i.1 rows left.1) };

    ghost survives = { λ s honest. left_over (S.may_leave s.inner) (S.RowStore.survives s.inner honest) };
}
