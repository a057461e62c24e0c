//! What is opened again after a crash.
ghost use Rattle.std.specs.Prelude.{List};
ghost use Rattle.sqlite_store.specs.FileStore.{view};
ghost use Rattle.sqlite_trees.specs.View.{IsClean};
ghost use Rattle.upd_desk.specs.Arrivals.{arrival_view};
ghost use Rattle.upd_desk.specs.Holding.{Guards, IsLeft, after, in_hand_after};
ghost use Rattle.upd_desk.specs.Journal.{Event, Journal};
ghost use Rattle.upd_sql.specs.Commits.{ShowsIn};
ghost use Rattle.upd_store.specs.OpenedAgain.{OpensAgain};

use sqlite::FileStore;
use sqlite_disk::Disk;
use std::alloc::Global;
use upd_desk::{Desk, Reply};
use upd_row_store::Meaning;
use upd_store::SqlStore;
use upd_store::file::stopped;
use upd_text::Fault;

/// An arrival, and then a crash: the library that is opened again is that of the answered runs, with or without a run in hand.
///
/// A crash within the arrival is one where each later call of the disk has failed: then its run is in hand.
pub fn crash_after_arrival<D: Disk + Drop>(
    alloc: Global,
    desk: Desk<SqlStore<FileStore<D>>>,
    site: &str,
    number: u64,
    mode: &str,
    bytes: &[u8],
) -> (Result<Reply, Fault>, FileStore<D>)
    ensures { IsClean (view result.1) → (journal : Journal) (in_hand : List Event)
        → Guards ⟦<SqlStore<FileStore<D>> as Meaning>⟧ journal in_hand desk.store
        → OpensAgain (IsLeft ShowsIn (after journal (arrival_view site.now number mode.now bytes.now) result.0)
        (in_hand_after (arrival_view site.now number mode.now bytes.now) in_hand result.0)) result.1 }
{
    let mut desk = desk;
    let answer = desk.arrive(alloc, site, number, mode, bytes);
    (answer, stopped(desk.close()))
}
