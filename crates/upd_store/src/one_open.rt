//! One open of a library's file: over its trees where they serve, and else through SQL, from the very same files.
ghost use Rattle.std.specs.Prelude.{◌≡◌, IfErr, IfOk, IsTrue};
ghost use Rattle.sqlite.specs.Files.{image_of, file_state};
ghost use Rattle.sqlite.specs.Start.{FindsIn};
ghost use Rattle.sqlite.specs.State.{HasCleanDisk};
ghost use Rattle.sqlite.specs.Steps.{IsFresh};
ghost use Rattle.sqlite_store.specs.FileStore.{view};
ghost use Rattle.sqlite_trees.specs.View.{IsClean};
ghost use Rattle.upd_sql.specs.Schema.{library_schema};
ghost use Rattle.sqlite_wal.specs.Files.{image_at};
ghost use Rattle.upd_store.specs.Faults.{IsUnopened};
ghost use Rattle.upd_text.specs.declared.fault.FaultKind.TheVariants.{NoMemory};
ghost use Rattle.upd_store.specs.TreeReads.{IsLibrary};
ghost use Rattle.upd_sql.specs.Commits.{ShowsIn};
ghost use Rattle.upd_records.specs.Rows.{Rows};
ghost use Rattle.upd_store.specs.OneOpen.{IsBelow, IsKept, IsServed, IsTaken, MayFind, pages_kept};
ghost use Rattle.upd_store.specs.TreeOpening.{FindsTrees};

use crate::file::{adopted, begins_as_database, file_fault, is_small, refuse_exposed};
use crate::sql_store::SqlStore;
use crate::store_faults::{fault_of, no_memory, store_at};
use crate::tree_library::serves;
use crate::tree_opening::attached;
use crate::tree_store::TreeStore;
use sqlite::{Connection, FileFrom, FileStore, Files, Start};
use sqlite_disk::Disk;
use sqlite_pager::{Options, Pager};
use sqlite_std_file::OpenError;
use sqlite_store::Unopened;
use sqlite_trees::error::StoreError;
use sqlite_wal::{Error, probe_first_page, probe_page_size};
use std::alloc::{AllocError, AllocFailed, Global};
use std::hash::{BuildHasher, RandomState};
use std::io;
use upd_sqlite::Rising;
use upd_text::Fault;

/// The four bytes of a header at 20 where eight bytes of each page are reserved for its sum.
const WITH_SUMS: u32 = 0x0840_2020;

/// What a library's file is opened for.
#[derive(Clone, Copy, Debug, Drop)]
pub enum Purpose<'a> {
    /// A question, which writes nothing.
    Reading,
    /// A run with this key.
    Run { site: &'a str, number: u64 },
    /// Whatever else may write.
    Writing,
}

/// Whether trees may serve a purpose.
fn is_below(purpose: Purpose<'_>) -> bool
    ensures { IsTrue result → IsBelow purpose.entry }
{
    !matches!(purpose, Purpose::Writing)
}

/// For one run half the pages that are usual are kept in memory: 4 MB, which lie beside the rows of a whole library. Of a
/// small file few are kept, but more than it has: an open writes them all. Who writes again and again keeps the usual ones.
fn options(seed: u64, purpose: Purpose<'_>, is_small: bool) -> Options
    ensures { (result.cache_pages ≡ pages_kept purpose.entry is_small) × (result.seed ≡ seed) }
{
    let usual = Options::new(seed);
    match purpose {
        Purpose::Run { .. } => Options {
            cache_pages: if is_small { 320 } else { 1_000 },
            ..usual
        },
        Purpose::Reading => Options {
            cache_pages: if is_small { 320 } else { 2_000 },
            ..usual
        },
        Purpose::Writing => usual,
    }
}

/// A library that was opened: over its trees, or through SQL.
pub type Opened<S> = Result<TreeStore<S>, SqlStore<S>>;

/// The store over two files, under the schema that they list. Where they aren't opened so they are given back, with whether
/// memory was short.
fn stored<D: Disk + Drop>(
    alloc: Global,
    files: Files<D>,
    options: Options,
) -> Result<FileStore<D>, (Files<D>, bool)>
    requires log { IsTrue (D.Disk.is_usable files.log) }
    requires db { IsTrue (D.Disk.is_usable files.db) }
    ensures { IfOk result (λ store. IsClean (view store) → MayFind (image_of D.Disk files) (view store)) }
{
    let mut files = files;
    let found = match probe_page_size(&mut files) {
        Ok(found) => found,
        Err(error) => return Err((files, error.kind() == io::ErrorKind::OutOfMemory)),
    };
    let Some(size) = found else {
        return Err((files, false));
    };
    let head = match probe_first_page(alloc, &mut files, size) {
        Ok(head) => head,
        Err(error) => return Err((files, matches!(error, Error::OutOfMemory))),
    };
    let pager = match Pager::new(alloc, files, size, options) {
        Ok(pager) => pager,
        Err(AllocFailed { value }) => return Err((value, true)),
    };
    let unopened = match Unopened::with_sums(alloc, pager, &[], head.1 == WITH_SUMS) {
        Ok(unopened) => unopened,
        Err(AllocFailed { value }) => return Err((value.close(), true)),
    };
    attached(alloc, unopened)
}

/// The library through SQL, over a store that was just opened.
fn over_store<S: Rising + Drop>(alloc: Global, store: S) -> Result<SqlStore<S>, Fault>
    requires { IsClean (S.Store.view store) → IsFresh (S.Store.view store) }
    ensures taken { IfOk result (λ s. IsTaken S.Store store s.conn) }
    ensures unopened { IfErr result IsUnopened }
{
    let conn = match Connection::over(alloc, store) {
        Ok(conn) => conn,
        Err((error, _)) => return Err(fault_of(error)),
    };
    match SqlStore::adopt(conn) {
        Ok(library) => Ok(library),
        Err((fault, _)) => Err(fault),
    }
}

/// The library over a store that was just opened: over its trees where they are a library's of version 3 and serve the
/// purpose, and else through SQL.
fn over_either<S: Rising + Drop>(
    alloc: Global,
    store: S,
    purpose: Purpose<'_>,
) -> Result<Opened<S>, Fault>
    requires { IsClean (S.Store.view store) → IsFresh (S.Store.view store) }
    ensures below { IfOk result (λ l. IfOk l (λ s. IsKept S.Store store s.store)) }
    ensures served { IfOk result (λ l. IfOk l (λ s. IsClean (S.Store.view s.store)
        → (it : Rows) → ShowsIn (S.Store.view s.store).committed it → IsServed purpose.entry it)) }
    ensures above { IfOk result (λ l. IfErr l (λ s. IsTaken S.Store store s.conn)) }
    ensures unopened { IfErr result IsUnopened }
{
    let mut store = store;
    let is_served = match serves(&mut store, alloc, purpose) {
        Ok(is_served) => is_served,
        Err(StoreError::OutOfMemory) => return Err(no_memory(AllocError)),
        Err(_) => return Err(store_at(0)),
    };
    if is_served {
        return Ok(Ok(TreeStore {
            store,
            failures: 0,
            decks_read: 0,
        }));
    }
    match over_store(alloc, store) {
        Ok(library) => Ok(Err(library)),
        Err(fault) => Err(fault),
    }
}

/// The library in two files, through SQL.
fn through_sql<D: Disk + Drop>(
    alloc: Global,
    files: Files<D>,
    options: Options,
) -> Result<SqlStore<FileStore<D>>, Fault>
    requires log { IsTrue (D.Disk.is_usable files.log) }
    requires db { IsTrue (D.Disk.is_usable files.db) }
    ensures found { IfOk result (λ s. HasCleanDisk (file_state s.conn) → IsTrue (file_state s.conn).is_open
        → FindsIn (image_of D.Disk files) (file_state s.conn)) }
    ensures ours { IfOk result (λ s. HasCleanDisk (file_state s.conn) → IsTrue (file_state s.conn).is_open
        → (file_state s.conn).committed.schema ≡ library_schema) }
    ensures unopened { IfErr result IsUnopened }
{
    match Connection::open_files_with(alloc, files, options, false) {
        Ok(conn) => match adopted(conn) {
            Ok(library) => Ok(library),
            Err(fault) => Err(fault),
        },
        Err((error, _)) => Err(fault_of(error)),
    }
}

/// Why files aren't opened: memory was short, or what SQL's open says of them.
fn why_not<D: Disk + Drop>(
    alloc: Global,
    files: Files<D>,
    is_short: bool,
    options: Options,
) -> Fault
    ensures unopened { IsUnopened result }
    ensures short { IsTrue is_short → result.kind ≡ NoMemory }
{
    if is_short {
        return no_memory(AllocError);
    }
    if !files.log.may_be_used() || !files.db.may_be_used() {
        return store_at(0);
    }
    match through_sql(alloc, files, options) {
        Ok(_) => store_at(0),
        Err(fault) => fault,
    }
}

/// Opens the library in two files that the caller has opened, once: below SQL for a question and a repeat, and else through
/// SQL.
pub fn opened<D: Disk + Drop>(
    alloc: Global,
    files: Files<D>,
    options: Options,
    purpose: Purpose<'_>,
) -> Result<Opened<FileStore<D>>, Fault>
    requires log { IsTrue (D.Disk.is_usable files.log) }
    requires db { IsTrue (D.Disk.is_usable files.db) }
    ensures below { IfOk result (λ l. IfOk l (λ s. IsClean (view s.store)
        → FindsTrees (image_of D.Disk files) (view s.store).committed × IsLibrary (view s.store).committed)) }
    ensures found { IfOk result (λ l. IfErr l (λ s. HasCleanDisk (file_state s.conn) → IsTrue (file_state s.conn).is_open
        → FindsIn (image_of D.Disk files) (file_state s.conn))) }
    ensures ours { IfOk result (λ l. IfErr l (λ s. HasCleanDisk (file_state s.conn) → IsTrue (file_state s.conn).is_open
        → (file_state s.conn).committed.schema ≡ library_schema)) }
    ensures only { IfOk result (λ l. IfOk l (λ _. IsBelow purpose.entry)) }
    ensures served { IfOk result (λ l. IfOk l (λ s. IsClean (view s.store)
        → (it : Rows) → ShowsIn (view s.store).committed it → IsServed purpose.entry it)) }
    ensures unopened { IfErr result IsUnopened }
{
    if !is_below(purpose) {
        return match through_sql(alloc, files, options) {
            Ok(library) => Ok(Err(library)),
            Err(fault) => Err(fault),
        };
    }
    match stored(alloc, files, options) {
        Ok(store) => over_either(alloc, store, purpose),
        Err((left, is_short)) => Err(why_not(alloc, left, is_short, options)),
    }
}

/// The fault of files that can't be opened.
fn files_fault(error: OpenError) -> Fault
    ensures { IsUnopened result }
{
    match error {
        OpenError::OutOfMemory => no_memory(AllocError),
        OpenError::Io(error) => file_fault(error),
        _ => store_at(0),
    }
}

/// Opens the library in a file, once: below SQL for a question and for a repeat, and else through SQL. The faults are those of
/// `SqlStore::open`.
pub fn open_once<St: Start>(
    rt: &HostRuntime,
    path: &str,
    start: St,
    purpose: Purpose<'_>,
) -> Result<Opened<FileStore<FileFrom<St>>>, Fault>
    ensures below { IfOk result (λ l. IfOk l (λ s. IsClean (view s.store)
        → FindsTrees (image_at St.Start) (view s.store).committed × IsLibrary (view s.store).committed)) }
    ensures found { IfOk result (λ l. IfErr l (λ s. HasCleanDisk (file_state s.conn) → IsTrue (file_state s.conn).is_open
        → FindsIn (image_at St.Start) (file_state s.conn))) }
    ensures ours { IfOk result (λ l. IfErr l (λ s. HasCleanDisk (file_state s.conn) → IsTrue (file_state s.conn).is_open
        → (file_state s.conn).committed.schema ≡ library_schema)) }
    ensures only { IfOk result (λ l. IfOk l (λ _. IsBelow purpose.entry)) }
    ensures served { IfOk result (λ l. IfOk l (λ s. IsClean (view s.store)
        → (it : Rows) → ShowsIn (view s.store).committed it → IsServed purpose.entry it)) }
    ensures unopened { IfErr result IsUnopened }
{
    if !begins_as_database(rt, path).unwrap_or(false) {
        return Err(store_at(0));
    }
    refuse_exposed(rt, path)?;
    let files = match sqlite_std_file::open(rt, path, start) {
        Ok(files) => files,
        Err(error) => return Err(files_fault(error)),
    };
    let Ok(state) = RandomState::new(rt) else {
        return Err(store_at(0));
    };
    let options = options(state.hash_one(&0u8), purpose, is_small(rt, path));
    opened(rt.alloc(), files, options, purpose)
}
