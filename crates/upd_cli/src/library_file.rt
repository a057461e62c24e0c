//! Commands on a library's file: it is opened or made, something is done, and it is closed.
ghost use Rattle.std.specs.Prelude.{◌≡◌, IfErr, IfOk};
ghost use Rattle.sqlite_wal.specs.Files.{image_at};
ghost use Rattle.upd_cli.specs.Commands.{LeavesFiles};
ghost use Rattle.upd_cli.specs.Opened.{Copies, MakesLibrary, MigratesLibrary, MigratesTables};
ghost use Rattle.upd_keep.specs.Copying.{IsMadeAnew, IsReadWhole};
ghost use Rattle.upd_store.specs.OpenedAgain.{Closes};
ghost use Rattle.upd_subcommands.specs.Status.{exit_status};
ghost use Rattle.upd_store.specs.Faults.{IsUnopened};

use sqlite::{Connection, FileFrom, FileStore, Files, Start};
use sqlite_disk::Disk;
use std::alloc::Global;
use upd_keep::{backup, compact};
use upd_migrate::migrate;
use upd_store::SqlStore;
use upd_store::file::{closed, connect, create};
use upd_text::Fault;

/// Makes an empty library in the file, and returns the closed files.
pub(crate) fn init_file<St: Start>(
    rt: &HostRuntime,
    file: &str,
    start: St,
) -> Result<Files<FileFrom<St>>, Fault>
    ensures made { IfOk result (λ files. MakesLibrary {g = ⟦<FileFrom<St> as Disk>⟧} (image_at St.Start) (Closes files)) }
    ensures failed { IfErr result (λ fault. exit_status fault.kind ≡ 3) }
{
    match create(rt, file, start) {
        Ok(library) => Ok(closed(library.into_connection())),
        Err(fault) => Err(fault),
    }
}

/// Makes a copy of the library in the file, whole, its log included.
pub(crate) fn backup_file<St: Start>(
    rt: &HostRuntime,
    file: &str,
    start: St,
    copy: &str,
) -> Result<(), Fault>
    ensures copies { Copies ⟦<FileFrom<St> as Disk>⟧ IsReadWhole (image_at St.Start) result }
    ensures failed { IfErr result (λ fault. exit_status fault.kind ≡ 3) }
{
    match SqlStore::open(rt, file, false, start) {
        Ok(library) => backup(rt, library.into_connection(), file, copy),
        Err(fault) => Err(fault),
    }
}

/// Makes a copy of the library in the file from its rows, with sums and no free page.
pub(crate) fn compact_file<St: Start>(
    rt: &HostRuntime,
    file: &str,
    start: St,
    copy: &str,
) -> Result<(), Fault>
    ensures compacts { Copies ⟦<FileFrom<St> as Disk>⟧ IsMadeAnew (image_at St.Start) result }
    ensures failed { IfErr result (λ fault. exit_status fault.kind ≡ 3) }
{
    match SqlStore::open(rt, file, false, start) {
        Ok(library) => compact(rt, library, file, copy),
        Err(fault) => Err(fault),
    }
}

/// Migrates the file to the current schema, and returns the closed files where it was opened.
pub(crate) fn migrate_file<St: Start>(
    rt: &HostRuntime,
    file: &str,
    start: St,
) -> (Result<(), Fault>, Option<Files<FileFrom<St>>>)
    ensures migrates { MigratesLibrary ⟦<FileFrom<St> as Disk>⟧ (image_at St.Start) result.0
        (LeavesFiles ⟦<FileFrom<St> as Disk>⟧ (image_at St.Start) result.1) }
    ensures failed { IfErr result.0 (λ fault. exit_status fault.kind ≡ 3) }
{
    match connect(rt, file, start) {
        Ok(conn) => {
            let (ended, files) = migrate_tables(rt.alloc(), conn);
            (ended, Some(files))
        }
        Err(fault) => (Err(fault), None),
    }
}

/// Migrates the tables in open files to the current schema, and closes the files.
fn migrate_tables<D: Disk + Drop>(
    alloc: Global,
    conn: Connection<FileStore<D>>,
) -> (Result<(), Fault>, Files<D>)
    ensures migrates { MigratesTables conn result.0 (Closes result.1) }
    ensures unopened { IfErr result.0 IsUnopened }
{
    let mut conn = conn;
    let ended = migrate(alloc, &mut conn);
    (ended, closed(conn))
}
