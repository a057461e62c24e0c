//! Crashes at calls of the disk: the file opened again is the old one or the migrated one, and can be migrated.
use crate::fused_files::{Bytes, Cut, Fused, Work, survives_crashes, work_in};
use crate::older_files::Older;
use sqlite::Connection;
use sqlite_disk::Files;
use std::alloc::Global;
use std::test::Fail;
use upd_migrate::migrate;
use upd_sqlite::Rising;
use upd_testkit::check::{holds, same};
use upd_text::FaultKind;

/// What is done with the database of an older file.
#[derive(Clone, Copy)]
enum Task {
    /// Its tables and rows are made.
    Make,
    /// It is migrated, until a call fails.
    Migrate,
    /// It is the old one or the migrated one, and is migrated.
    Hold,
}

/// Migrates a database: whether that ends. A migration that doesn't end has met a failed call, which is its fault.
fn is_migrated<S: Rising>(alloc: Global, conn: &mut Connection<S>) -> Result<bool, Fail> {
    match migrate(alloc, conn) {
        Ok(()) => Ok(true),
        Err(fault) => {
            same("the fault", fault, FaultKind::Store.without_line())?;
            Ok(false)
        }
    }
}

/// A task with an older file.
#[derive(Clone, Copy)]
struct Migration(Older, Task);

impl Migration {
    /// Does it: whether it ends.
    fn done<S: Rising>(self, alloc: Global, conn: &mut Connection<S>) -> Result<bool, Fail> {
        match self.1 {
            Task::Make => self.0.make(conn)?,
            Task::Migrate => return is_migrated(alloc, conn),
            Task::Hold => {
                self.0.is_either(alloc, conn)?;
                migrate(alloc, conn)?;
                self.0.has(alloc, conn, 3)?;
            }
        }
        Ok(true)
    }

    /// Does it with files: whether it ends, and the files.
    fn done_in(self, alloc: Global, files: Files<Fused>) -> Result<(bool, Files<Fused>), Fail> {
        let (is_done, files) = work_in(alloc, files, self)?;
        Ok((is_done.unwrap_or(false), files))
    }
}

impl Work for Migration {
    type Outcome = bool;

    fn over<S: Rising + Drop>(
        self,
        alloc: Global,
        mut conn: Connection<S>,
    ) -> Result<(bool, Connection<S>), Fail> {
        let is_done = self.done(alloc, &mut conn)?;
        Ok((is_done, conn))
    }
}

impl Cut for Older {
    type Part = ();

    fn cut(&self, alloc: Global, files: Files<Fused>) -> Result<(Option<()>, Files<Fused>), Fail> {
        let (is_migrated, files) = Migration(*self, Task::Migrate).done_in(alloc, files)?;
        Ok((if is_migrated { None } else { Some(()) }, files))
    }

    fn left_holds(&self, alloc: Global, _: &(), left: &Bytes) -> Result<(), Fail> {
        let files = left.whole_files(alloc)?;
        let (is_done, _) = Migration(*self, Task::Hold).done_in(alloc, files)?;
        holds("the files can be opened", is_done)
    }
}

/// Crashes at calls of the log, then of the database file; there are more than ten calls.
fn survives(alloc: Global, file: Older) -> Result<(), Fail> {
    let files = Bytes::none(alloc).whole_files(alloc)?;
    let (is_made, files) = Migration(file, Task::Make).done_in(alloc, files)?;
    holds("the file is made", is_made)?;
    survives_crashes(alloc, &file, &Bytes::written(alloc, &files)?, 10)
}

#[test]
fn migrations_survive_crashes(rt: HostRuntime) -> Result<(), Fail> {
    survives(rt.alloc(), Older::First)?;
    survives(rt.alloc(), Older::Second)
}
