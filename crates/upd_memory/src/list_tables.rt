//! Tables in memory, as the row changes that made them.

ghost use Rattle.std.specs.Prelude.{◌≡◌, ◌≤◌, [], ◌∷◌, ◌++◌, not, map, IfOk, IfSome, OnErr, OnOk};
ghost use Rattle.std.specs.List.{filter};
ghost use Rattle.std.specs.Option.{option_copied};
ghost use Rattle.std.specs.Vec.{vec_capacity, vec_len};
ghost use Rattle.upd_core.specs.Actives.{actives_of};
ghost use Rattle.upd_core.specs.Library.{LibraryView};
ghost use Rattle.upd_core.specs.Parts.{part_of};
ghost use Rattle.upd_core.specs.Sound.{IsSound, IsWhole};
ghost use Rattle.upd_records.specs.Changes.{change_view};
ghost use Rattle.upd_records.specs.Fits.{AllFit};
ghost use Rattle.upd_records.specs.Rows.{Rows, Shows, ShowsStates};
ghost use Rattle.upd_row_store.specs.Asked.{AreHomes, decks_with};
ghost use Rattle.upd_row_store.specs.Assembling.{AreRowsOf};
ghost use Rattle.upd_row_store.specs.Tables.{AreByKey, AreRead, AreReadOf, ListsRuns, committed, is_mark_of, is_settled};
ghost use Rattle.upd_row_store.specs.Tables.{mark_at, run_at, settled_to};
ghost use Rattle.upd_memory.specs.Mirrored.{Agrees};

use crate::change_log::copy_changes;
use crate::mirror::{Mirror, changed, made_of};
use std::alloc::{AllocError, Global};
use std::fmt;
use std::marker::Model;
use upd_core::{Actives, CardRef, Change, Library, Serial, States};
use upd_records::{LibraryRows, MarkRow, RunRow, copy_run};
use upd_row_store::{Homes, StoredRuns};

/// Tables, as the row changes of all commits, and the rows in memory that the changes make. A commit adds to both. The
/// changes alone know in which order the rows of a table are.
pub struct ListTables {
    changes: Vec<Change>,
    runs: Vec<RunRow>,
    settled: Vec<MarkRow>,
    /// The rows that the changes make. Where memory ran out there are none, and they are made again.
    mirror: Option<Mirror>,
}

// By hand: see CONTRIBUTING.md.
impl Drop for ListTables {
    fn drop(self) {
        let ListTables {
            changes: _,
            runs: _,
            settled: _,
            mirror: _,
        } = self;
    }
}

impl Model for ListTables {
    ghost use Rattle.upd_records.specs.Rows.{Rows};
    ghost use Rattle.upd_memory.specs.Lists.{made_tables};
    ghost use Rattle.upd_memory.specs.Mirrored.{AgreesIfAny};

    ghost Value = { Rows };

    ghost view = { λ s. made_tables s.changes.items s.runs.items s.settled.items };

    ghost invariant = { λ s. AgreesIfAny s.mirror (made_tables s.changes.items s.runs.items s.settled.items) };
}

impl fmt::Debug for ListTables {
    fn fmt<W: fmt::Write>(&self, f: &mut fmt::Formatter<W>) -> fmt::Result {
        f.debug_struct("ListTables")
            .field("changes", &self.changes)
            .field("runs", &self.runs)
            .field("settled", &self.settled)
            .finish()
    }
}

impl ListTables {
    /// Tables with no rows: they show the empty library, and keep no run. It does not allocate.
    pub fn new(alloc: Global) -> ListTables
        ensures { result ≡ record {
          idents = [];
          cards = [];
          entries = [];
          targets = [];
          runs = [];
          states = [];
          counts = [];
          settled = [];
        } }
    {
        ListTables {
            changes: Vec::new(alloc),
            runs: Vec::new(alloc),
            settled: Vec::new(alloc),
            mirror: Some(Mirror::empty(alloc)),
        }
    }

    /// The rows in memory, where there are any.
    fn rows(&self) -> Option<&Mirror>
        ensures { IfSome result (λ mirror. Agrees mirror.now self.now) }
    {
        self.mirror.as_ref()
    }

    /// The rows in memory, made again; memory alone can fail.
    fn remade(&self, alloc: Global) -> Result<Mirror, AllocError>
        ensures { IfOk result (λ mirror. Agrees mirror self.now) }
    {
        made_of(alloc, &self.changes).ok_or(AllocError)
    }

    /// The rows that make the library; memory alone can fail.
    pub(crate) fn library_rows(&self, alloc: Global) -> Result<LibraryRows, AllocError>
        ensures { IfOk result (AreRowsOf self.now) }
    {
        match self.rows() {
            Some(mirror) => mirror.library_rows(alloc),
            None => self.remade(alloc)?.library_rows(alloc),
        }
    }

    /// The library; memory alone can fail.
    pub(crate) fn library(&self, alloc: Global) -> Result<Library, AllocError>
        ensures { (l : LibraryView) → IsSound l → IsWhole l → Shows self.now l → IfOk result (λ found. found ≡ l) }
    {
        match self.rows() {
            Some(mirror) => mirror.library(alloc),
            None => self.remade(alloc)?.library(alloc),
        }
    }

    /// The library without the decks that aren't of these ages; memory alone can fail.
    pub(crate) fn part(&self, alloc: Global, ages: &[Serial]) -> Result<Library, AllocError>
        ensures { (l : LibraryView) → IsSound l → IsWhole l → Shows self.now l
            → IfOk result (λ found. found ≡ part_of ages.now l) }
    {
        match self.rows() {
            Some(mirror) => mirror.part(alloc, ages),
            None => self.remade(alloc)?.part(alloc, ages),
        }
    }

    /// Copies of the stored runs and of the marks, in their order; memory alone can fail.
    pub(crate) fn stored_runs(&self, alloc: Global) -> Result<StoredRuns, AllocError>
        ensures { IfOk result (ListsRuns self.now) }
    {
        let runs = copied_runs(alloc, &self.runs)?;
        let marks = copied_marks(alloc, &self.settled)?;
        Ok(StoredRuns { runs, marks })
    }

    /// The run that is kept under a key.
    pub(crate) fn run_under(&self, site: &str, number: u64) -> Option<&RunRow>
        ensures { option_copied result ≡ run_at site.now number self.now }
    {
        for run in &self.runs {
            if run.number == number && run.site.as_str() == site {
                return Some(run);
            }
        }
        None
    }

    /// The number up to which a site has settled, 0 where it never did.
    pub(crate) fn mark_of(&self, site: &str) -> u64
        ensures { result ≡ mark_at site.now self.now }
    {
        for row in &self.settled {
            if row.site.as_str() == site {
                return row.mark;
            }
        }
        0
    }

    /// All statuses and counts, by their keys; memory alone can fail.
    pub(crate) fn all_states(&self, alloc: Global) -> Result<States, AllocError>
        ensures read { IfOk result (λ found. AreRead self.now found) }
        ensures order { IfOk result AreByKey }
    {
        match self.rows() {
            Some(mirror) => mirror.states(alloc),
            None => self.remade(alloc)?.states(alloc),
        }
    }

    /// The statuses of those of these cards that have one, and all counts, by their keys; only memory can run out.
    pub(crate) fn states_of(&self, alloc: Global, cards: &[CardRef]) -> Result<States, AllocError>
        ensures read { IfOk result (λ found. AreReadOf cards.now self.now found) }
        ensures order { IfOk result AreByKey }
    {
        match self.rows() {
            Some(mirror) => mirror.states_of(alloc, cards),
            None => self.remade(alloc)?.states_of(alloc, cards),
        }
    }

    /// The decks other than `YANK$$$` that hold one of these cards; memory alone can fail.
    pub(crate) fn decks_of(
        &self,
        alloc: Global,
        cards: &[CardRef],
    ) -> Result<Vec<Serial>, AllocError>
        ensures { (l : LibraryView) → IsSound l → Shows self.now l
            → IfOk result (λ found. found.items ≡ decks_with cards.now l) }
    {
        match self.rows() {
            Some(mirror) => mirror.decks_of(alloc, cards),
            None => self.remade(alloc)?.decks_of(alloc, cards),
        }
    }

    /// The decks that hold one of these cards, and whether `YANK$$$` does; memory alone can fail.
    pub(crate) fn homes_of(&self, alloc: Global, cards: &[CardRef]) -> Result<Homes, AllocError>
        ensures { (l : LibraryView) → IsSound l → Shows self.now l
            → IfOk result (λ found. AreHomes cards.now l found) }
    {
        match self.rows() {
            Some(mirror) => mirror.homes_of(alloc, cards),
            None => self.remade(alloc)?.homes_of(alloc, cards),
        }
    }

    /// The active cards, by the table of statuses; memory alone can fail.
    pub(crate) fn actives(&self, alloc: Global) -> Result<Actives, AllocError>
        ensures { (l : LibraryView) → IsSound l → Shows self.now l → ShowsStates self.now l
            → IfOk result (λ found. found ≡ actives_of l) }
    {
        match self.rows() {
            Some(mirror) => mirror.actives(alloc),
            None => self.remade(alloc)?.actives(alloc),
        }
    }

    /// One commit: where memory runs out nothing is changed.
    pub(crate) fn commit_all(
        &mut self,
        alloc: Global,
        changes: &[Change],
        run: RunRow,
    ) -> Result<(), AllocError>
        ensures done { OnOk result (AllFit (map change_view changes.now) self.old
            → self.new ≡ committed (map change_view changes.now) run self.old) }
        ensures undone { OnErr result (self.new ≡ self.old) }
    {
        let mut copies = copy_changes(alloc, changes)?;
        self.runs.reserve(1)?;
        self.changes.append(&mut copies)?;
        if self.runs.push(run).is_err() {
            unreachable!();
        }
        self.mirror = changed(alloc, self.mirror.take(), changes);
        if self.mirror.is_none() {
            self.mirror = made_of(alloc, &self.changes);
        }
        Ok(())
    }

    /// One settlement: where memory runs out nothing is changed.
    pub(crate) fn settle(
        &mut self,
        alloc: Global,
        site: &str,
        number: u64,
    ) -> Result<u64, AllocError>
        ensures mark { IfOk result (λ mark. mark ≡ mark_at site.now (settled_to site.now number self.old)) }
        ensures done { OnOk result (self.new ≡ settled_to site.now number self.old) }
        ensures undone { OnErr result (self.new ≡ self.old) }
    {
        let mark = self.mark_of(site);
        if number <= mark {
            return Ok(mark);
        }
        let row = MarkRow {
            site: String::from_str(alloc, site)?,
            mark: number,
        };
        put_mark(&mut self.settled, row)?;
        drop_runs(&mut self.runs, site, number);
        Ok(number)
    }
}

fn copied_runs(alloc: Global, runs: &[RunRow]) -> Result<Vec<RunRow>, AllocError>
    ensures { IfOk result (λ copies. copies.items ≡ runs.now) }
{
    let mut copies = Vec::with_capacity(alloc, runs.len())?;
    for run in runs {
        copies.push(copy_run(alloc, run)?)?;
    }
    Ok(copies)
}

fn copied_marks(alloc: Global, marks: &[MarkRow]) -> Result<Vec<MarkRow>, AllocError>
    ensures { IfOk result (λ copies. copies.items ≡ marks.now) }
{
    let mut copies = Vec::with_capacity(alloc, marks.len())?;
    for mark in marks {
        copies.push(mark.copy(alloc)?)?;
    }
    Ok(copies)
}

/// Puts a mark in the place of the site's other marks; where memory runs out nothing is changed.
fn put_mark(marks: &mut Vec<MarkRow>, row: MarkRow) -> Result<(), AllocError>
    ensures done { OnOk result (marks.new.items
        ≡ filter (λ m. not (is_mark_of row.site m)) marks.old.items ++ row ∷ []) }
    ensures undone { OnErr result (marks.new.items ≡ marks.old.items) }
{
    marks.reserve(1)?;
    drop_marks(marks, &row.site);
    if marks.push(row).is_err() {
        unreachable!();
    }
    Ok(())
}

/// Takes a site's marks away.
fn drop_marks(marks: &mut Vec<MarkRow>, site: &str)
    ensures rest { marks.new.items ≡ filter (λ m. not (is_mark_of site.now m)) marks.old.items }
    ensures len { vec_len marks.new ≤ vec_len marks.old }
    ensures capacity { vec_capacity marks.new ≡ vec_capacity marks.old }
{
    marks.retain(|mark| mark.site.as_str() != site);
}

/// Takes a site's runs away up to a number.
fn drop_runs(runs: &mut Vec<RunRow>, site: &str, number: u64)
    ensures { runs.new.items ≡ filter (λ r. not (is_settled site.now number r)) runs.old.items }
{
    runs.retain(|run| !(run.site.as_str() == site && run.number <= number));
}
