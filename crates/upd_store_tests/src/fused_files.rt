//! Files in memory that fail after a number of calls, what a kill and a crash leave of them, and crashes at many calls.
use sqlite::{Connection, FileStore, Options};
use sqlite_disk::{Crash, Disk, Files, Fuse, Memory};
use std::alloc::Global;
use std::test::Fail;
use upd_sqlite::Rising;
use upd_testkit::check::holds;

/// A file in memory that fails after a number of calls.
pub type Fused = Fuse<Memory>;

/// The bytes of the database file and of its log.
#[derive(Drop, PartialEq)]
pub struct Bytes {
    log: Vec<u8>,
    db: Vec<u8>,
}

impl Bytes {
    /// Empty files.
    pub fn none(alloc: Global) -> Bytes {
        Bytes {
            log: Vec::new(alloc),
            db: Vec::new(alloc),
        }
    }

    /// What another process finds after a kill: all bytes that were written.
    pub fn written(alloc: Global, files: &Files<Fused>) -> Result<Bytes, Fail> {
        Ok(Bytes {
            log: Vec::from_slice(alloc, files.log.inner().bytes())?,
            db: Vec::from_slice(alloc, files.db.inner().bytes())?,
        })
    }

    /// What is found after a crash of the machine: the bytes that were synced.
    fn synced(alloc: Global, mut files: Files<Fused>) -> Result<Bytes, Fail> {
        files.log.crash();
        files.db.crash();
        Bytes::written(alloc, &files)
    }

    /// Files of these bytes whose log and database file fail after these numbers of calls.
    pub fn files(&self, alloc: Global, (log, db): (u64, u64)) -> Result<Files<Fused>, Fail> {
        Ok(Files {
            log: file_of(alloc, &self.log, log)?,
            db: file_of(alloc, &self.db, db)?,
        })
    }

    /// Files of these bytes that don't fail.
    pub fn whole_files(&self, alloc: Global) -> Result<Files<Fused>, Fail> {
        self.files(alloc, (u64::MAX, u64::MAX))
    }
}

fn file_of(alloc: Global, bytes: &[u8], calls: u64) -> Result<Fused, Fail> {
    let mut file = Memory::new(alloc);
    file.write_at(0, bytes)?;
    file.sync()?;
    Ok(Fuse::new(file, calls))
}

/// How a test opens its files: more pages are kept than its database has, and few, since each open writes them all.
pub fn few_pages() -> Options {
    Options {
        cache_pages: 64,
        ..Options::new(1)
    }
}

/// The database in files of any kind, which come back if it can't be opened.
fn opened_on<D: Disk + Drop>(
    alloc: Global,
    files: Files<D>,
) -> Result<Connection<FileStore<D>>, Files<D>> {
    if !files.may_be_used() {
        return Err(files);
    }
    match Connection::open_files(alloc, files, few_pages()) {
        Ok(conn) => Ok(conn),
        Err((_, left)) => Err(left.into_files()),
    }
}

/// What is done with a database, whatever holds it.
pub trait Work: Drop {
    /// What comes of it.
    type Outcome: Drop;

    fn over<S: Rising + Drop>(
        self,
        alloc: Global,
        conn: Connection<S>,
    ) -> Result<(Self::Outcome, Connection<S>), Fail>;
}

/// Does this with a database: what comes of it, and the store.
fn worked<S: Rising + Drop, W: Work>(
    alloc: Global,
    conn: Connection<S>,
    work: W,
) -> Result<(W::Outcome, S), Fail> {
    let (outcome, conn) = work.over(alloc, conn)?;
    Ok((outcome, conn.into_store()))
}

/// Does this with the database in files of any kind: what comes of it, which is none where they can't be opened, and the
/// files. No other function names the store over a file.
pub fn work_in<D: Disk + Drop, W: Work>(
    alloc: Global,
    files: Files<D>,
    work: W,
) -> Result<(Option<W::Outcome>, Files<D>), Fail> {
    match opened_on(alloc, files) {
        Ok(conn) => {
            let (outcome, store) = worked(alloc, conn, work)?;
            Ok((Some(outcome), store.close()))
        }
        Err(files) => Ok((None, files)),
    }
}

/// What a call of the disk that fails may cut off.
pub trait Cut {
    /// What was done before the cut.
    type Part: Drop + PartialEq;

    /// Does it with files: what was done, if a call failed, and the files.
    fn cut(
        &self,
        alloc: Global,
        files: Files<Fused>,
    ) -> Result<(Option<Self::Part>, Files<Fused>), Fail>;

    /// What is found after a cut is right.
    fn left_holds(&self, alloc: Global, part: &Self::Part, left: &Bytes) -> Result<(), Fail>;
}

/// What a cut leaves.
#[derive(Drop, PartialEq)]
struct Left<P> {
    part: P,
    killed: Bytes,
    crashed: Bytes,
}

/// A kill of the process and a crash of the machine after these calls: what they leave, if a call failed.
fn left_after<C: Cut>(
    alloc: Global,
    it: &C,
    files: Files<Fused>,
) -> Result<Option<Left<C::Part>>, Fail> {
    let (part, files) = it.cut(alloc, files)?;
    let Some(part) = part else {
        return Ok(None);
    };
    let killed = Bytes::written(alloc, &files)?;
    let crashed = Bytes::synced(alloc, files)?;
    Ok(Some(Left {
        part,
        killed,
        crashed,
    }))
}

/// What is found after a cut is right, after a kill and after a crash.
fn both_hold<C: Cut>(alloc: Global, it: &C, left: &Left<C::Part>) -> Result<(), Fail> {
    it.left_holds(alloc, &left.part, &left.killed)?;
    if left.crashed == left.killed {
        return Ok(());
    }
    it.left_holds(alloc, &left.part, &left.crashed)
}

/// A crash at each fifth call of the log, or of the database file, and how many calls there are, up to the next fifth. A
/// crash that leaves the same as the one before it, as a failed read does, is the same to whoever opens the files.
fn all_crashes<C: Cut>(alloc: Global, it: &C, bytes: &Bytes, of_log: bool) -> Result<u64, Fail> {
    let mut before = None;
    for at in 0..10_000 {
        if at % 5 != 0 {
            continue;
        }
        let calls = if of_log {
            (at, u64::MAX)
        } else {
            (u64::MAX, at)
        };
        let Some(left) = left_after(alloc, it, bytes.files(alloc, calls)?)? else {
            return Ok(at);
        };
        if before.as_ref() != Some(&left) {
            both_hold(alloc, it, &left)?;
        }
        before = Some(left);
    }
    Err("no end of crashes".into())
}

/// Crashes at calls of the log, then of the database file; there are more than `least` calls.
pub fn survives_crashes<C: Cut>(
    alloc: Global,
    it: &C,
    bytes: &Bytes,
    least: u64,
) -> Result<(), Fail> {
    let of_log = all_crashes(alloc, it, bytes, true)?;
    let count = all_crashes(alloc, it, bytes, false)?.saturating_add(of_log);
    holds(("calls", count), count > least)
}
