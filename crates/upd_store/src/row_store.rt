//! `SqlStore` as a `RowStore`.
ghost use Rattle.std.specs.Prelude.{◌≡◌, false, IfErr, IfOk, IsTrue, OnOk};
ghost use Rattle.sqlite.specs.Held.{state};
ghost use Rattle.sqlite.specs.State.{HasCleanDisk};
ghost use Rattle.upd_sql.specs.Schema.{library_schema};

use crate::sql_store::SqlStore;
use crate::store_faults::{counted, no_memory, refused};
use sqlite::Connection;
use std::alloc::Global;
use std::collections::BTreeMap;
use upd_core::{Actives, CardRef, Change, Library, Name, Serial, States};
use upd_records::{LibraryRows, RunRow};
use upd_row_store::{
    Meaning, RowStore, StoredRuns, ages_of_decks, assembled, assembled_active, assembled_part,
    decks_by_age, reads_with,
};
use upd_sql::{
    commit_changes, is_library_schema, settle_site, stored_active, stored_library_rows,
    stored_mark, stored_run, stored_runs, stored_states,
};
use upd_sqlite::{Rising, committed_schema};
use upd_text::Fault;

/// Whether the last commit has the library's schema.
fn is_ours<S: Rising>(conn: &Connection<S>) -> bool
    requires { conn.now.in_transaction ≡ false }
    ensures { IsTrue result → IsTrue (state S.Store conn.now).is_open
        → (state S.Store conn.now).committed.schema ≡ library_schema }
{
    is_library_schema(committed_schema(conn))
}

impl<S: Rising> Meaning for SqlStore<S> {
    ghost use Rattle.std.specs.Prelude.{IsTrue};
    ghost use Rattle.sqlite_trees.specs.Tree.{Trees};
    ghost use Rattle.sqlite.specs.Held.{state};
    ghost use Rattle.sqlite.specs.State.{HasCleanDisk};
    ghost use Rattle.upd_sql.specs.Commits.{ShowsIn};
    ghost use Rattle.upd_store.specs.One.{is_once};

    ghost Image = { Trees };

    ghost shows = { ShowsIn };

    ghost image = { λ s. (state S.Store s.conn).committed.trees };

    ghost is_open = { λ s. IsTrue (state S.Store s.conn).is_open };

    ghost open_once = { λ s. is_once (state S.Store s.conn).is_open };

    ghost is_honest = { λ s. HasCleanDisk (state S.Store s.conn) };

    ghost may_leave = { λ s. (state S.Store s.conn).may_leave };

    ghost failures_of = { λ s. s.failures };

    ghost disk_failures_of = { λ s. (state S.Store s.conn).faults };

    ghost decks_read_of = { λ s. s.decks_read };
}

impl<S: Rising> RowStore for SqlStore<S> {
    ghost use Rattle.std.proofs.Common.{subst, sym};
    ghost use Rattle.upd_sql.specs.Commits.{ShowsIn};
    ghost use Rattle.upd_store.specs.One.{shows_one};

    fn load(&mut self, alloc: Global) -> Result<Library, Fault> {
        if !is_ours(&self.conn) {
            return Err(refused(&mut self.failures));
        }
        match stored_library_rows(&mut self.conn, alloc) {
            Ok(rows) => match assembled(alloc, rows) {
                Ok(library) => {
                    self.decks_read = reads_with(self.decks_read, &library);
                    Ok(library)
                }
                Err(lost) => Err(no_memory(lost)),
            },
            Err(error) => Err(counted(error, &mut self.failures)),
        }
    }

    fn load_decks(&mut self, alloc: Global, decks: &[Serial]) -> Result<Library, Fault> {
        if !is_ours(&self.conn) {
            return Err(refused(&mut self.failures));
        }
        match stored_library_rows(&mut self.conn, alloc) {
            Ok(rows) => match assembled_part(alloc, rows, decks) {
                Ok(library) => {
                    self.decks_read = reads_with(self.decks_read, &library);
                    Ok(library)
                }
                Err(lost) => Err(no_memory(lost)),
            },
            Err(error) => Err(counted(error, &mut self.failures)),
        }
    }

    fn decks_of(&mut self, alloc: Global, cards: &[CardRef]) -> Result<Vec<Serial>, Fault> {
        if !is_ours(&self.conn) {
            return Err(refused(&mut self.failures));
        }
        match stored_library_rows(&mut self.conn, alloc) {
            Ok(rows) => match ages_of_decks(alloc, &rows.cards, cards) {
                Ok(ages) => Ok(decks_by_age(ages)),
                Err(lost) => Err(no_memory(lost)),
            },
            Err(error) => Err(counted(error, &mut self.failures)),
        }
    }

    fn library_rows(&mut self, alloc: Global) -> Result<LibraryRows, Fault> {
        if !is_ours(&self.conn) {
            return Err(refused(&mut self.failures));
        }
        match stored_library_rows(&mut self.conn, alloc) {
            Ok(rows) => Ok(rows),
            Err(error) => Err(counted(error, &mut self.failures)),
        }
    }

    fn load_states(&mut self, alloc: Global) -> Result<States, Fault> {
        if !is_ours(&self.conn) {
            return Err(refused(&mut self.failures));
        }
        match stored_states(&mut self.conn, alloc) {
            Ok(states) => Ok(states),
            Err(error) => Err(counted(error, &mut self.failures)),
        }
    }

    fn load_active(&mut self, alloc: Global) -> Result<Actives, Fault> {
        if !is_ours(&self.conn) {
            return Err(refused(&mut self.failures));
        }
        match stored_active(&mut self.conn, alloc) {
            Ok(rows) => match assembled_active(alloc, rows.idents, rows.cards, rows.states) {
                Ok(actives) => Ok(actives),
                Err(lost) => Err(no_memory(lost)),
            },
            Err(error) => Err(counted(error, &mut self.failures)),
        }
    }

    fn kept_run(
        &mut self,
        alloc: Global,
        site: &str,
        number: u64,
    ) -> Result<Option<RunRow>, Fault> {
        if !is_ours(&self.conn) {
            return Err(refused(&mut self.failures));
        }
        match stored_run(&mut self.conn, alloc, site, number) {
            Ok(run) => Ok(run),
            Err(error) => Err(counted(error, &mut self.failures)),
        }
    }

    fn mark(&mut self, _: Global, site: &str) -> Result<u64, Fault> {
        if !is_ours(&self.conn) {
            return Err(refused(&mut self.failures));
        }
        match stored_mark(&mut self.conn, site) {
            Ok(mark) => Ok(mark),
            Err(error) => Err(counted(error, &mut self.failures)),
        }
    }

    fn stored_runs(&mut self, alloc: Global) -> Result<StoredRuns, Fault> {
        if !is_ours(&self.conn) {
            return Err(refused(&mut self.failures));
        }
        match stored_runs(&mut self.conn, alloc) {
            Ok(runs) => Ok(runs),
            Err(error) => Err(counted(error, &mut self.failures)),
        }
    }

    fn commit(&mut self, alloc: Global, changes: &[Change], run: RunRow) -> Result<(), Fault> {
        if !is_ours(&self.conn) {
            return Err(refused(&mut self.failures));
        }
        match commit_changes(&mut self.conn, alloc, None, changes, &run) {
            Ok(()) => Ok(()),
            Err(error) => Err(counted(error, &mut self.failures)),
        }
    }

    fn commit_moving(
        &mut self,
        alloc: Global,
        changes: &[Change],
        run: RunRow,
        movable: &BTreeMap<Name, u32>,
    ) -> Result<(), Fault> {
        if !is_ours(&self.conn) {
            return Err(refused(&mut self.failures));
        }
        match commit_changes(&mut self.conn, alloc, Some(movable), changes, &run) {
            Ok(()) => Ok(()),
            Err(error) => Err(counted(error, &mut self.failures)),
        }
    }

    fn settle_to(&mut self, _: Global, site: &str, number: u64) -> Result<u64, Fault> {
        if !is_ours(&self.conn) {
            return Err(refused(&mut self.failures));
        }
        match settle_site(&mut self.conn, site, number) {
            Ok(mark) => Ok(mark),
            Err(error) => Err(counted(error, &mut self.failures)),
        }
    }

    fn failures(&self) -> u64 {
        self.failures
    }

    fn decks_read(&self) -> u64 {
        self.decks_read
    }

    ghost shows_one = { shows_one };

    ghost leaves_image = { λ s i clean is_open may rows shown.
        subst (λ kept. ShowsIn kept rows) (sym (S.Store.settled s.conn.store i is_open may)) shown };

    ghost survives = { λ s clean. S.Store.survives s.conn.store clean };
}
