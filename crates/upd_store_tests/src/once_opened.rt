//! A library's files, opened once: below SQL for a question and a repeat, through SQL for a new run and where the trees aren't
//! a library's, and with a fault where a call of the disk fails.
use crate::fused_files::{Bytes, Fused, Work, few_pages, work_in};
use sqlite::Connection;
use sqlite_disk::Files;
use std::alloc::Global;
use std::test::Fail;
use upd_sqlite::Rising;
use upd_store::{Purpose, SqlStore, opened};
use upd_testkit::check::{holds, same};
use upd_text::FaultKind;

/// Makes a library and executes a statement.
#[derive(Drop)]
struct Making<'a> {
    sql: &'a str,
}

impl Work for Making<'_> {
    type Outcome = bool;

    fn over<S: Rising + Drop>(
        self,
        _: Global,
        conn: Connection<S>,
    ) -> Result<(bool, Connection<S>), Fail> {
        match SqlStore::init(conn) {
            Ok(store) => {
                let mut conn = store.into_connection();
                Ok((conn.execute_batch(self.sql).is_ok(), conn))
            }
            Err((_, conn)) => Ok((false, conn)),
        }
    }
}

/// The bytes of a library after a statement.
fn made(alloc: Global, sql: &str) -> Result<Bytes, Fail> {
    let files = Bytes::none(alloc).whole_files(alloc)?;
    let (is_made, files) = work_in(alloc, files, Making { sql })?;
    holds(sql, is_made == Some(true))?;
    Bytes::written(alloc, &files)
}

/// How files are opened.
#[derive(Clone, Copy, Debug, PartialEq, Eq)]
enum Way {
    Trees,
    Sql,
    Fault(FaultKind, u32),
}

fn way_of(alloc: Global, files: Files<Fused>, purpose: Purpose<'_>) -> Result<Way, Fail> {
    if !files.may_be_used() {
        return Err("files that may not be used".into());
    }
    Ok(match opened(alloc, files, few_pages(), purpose) {
        Ok(Ok(_)) => Way::Trees,
        Ok(Err(_)) => Way::Sql,
        Err(fault) => Way::Fault(fault.kind, fault.at),
    })
}

/// A library after a statement is opened so for a question.
fn is_asked(alloc: Global, sql: &str, wanted: Way) -> Result<(), Fail> {
    let files = made(alloc, sql)?.whole_files(alloc)?;
    same(sql, way_of(alloc, files, Purpose::Reading)?, wanted)
}

#[test]
fn a_question_gets_the_trees_of_a_library(rt: HostRuntime) -> Result<(), Fail> {
    const STRANGE: &str = "INSERT INTO meta VALUES ('other', 7)";
    const OLDER: &str = "UPDATE meta SET v = 2";
    is_asked(rt.alloc(), "", Way::Trees)?;
    is_asked(rt.alloc(), STRANGE, Way::Sql)?;
    is_asked(rt.alloc(), OLDER, Way::Fault(FaultKind::Store, 2))
}

/// A library with the stored run 9 of NORTH, and with its runs up to 7 settled.
const RUNS: &str =
    "INSERT INTO runs VALUES ('NORTH', 9, 2, x'', 0, x''); INSERT INTO settled VALUES ('NORTH', 7)";

/// How the library is opened for a run.
fn run_way(alloc: Global, site: &str, number: u64) -> Result<Way, Fail> {
    let files = made(alloc, RUNS)?.whole_files(alloc)?;
    way_of(alloc, files, Purpose::Run { site, number })
}

#[test]
fn a_repeat_gets_the_trees_and_a_new_run_a_connection(rt: HostRuntime) -> Result<(), Fail> {
    let alloc = rt.alloc();
    same("stored", run_way(alloc, "NORTH", 9)?, Way::Trees)?;
    same("settled", run_way(alloc, "NORTH", 7)?, Way::Trees)?;
    same("new", run_way(alloc, "NORTH", 8)?, Way::Sql)?;
    same("another site's", run_way(alloc, "SOUTH", 7)?, Way::Sql)?;
    let files = made(alloc, RUNS)?.whole_files(alloc)?;
    same("writing", way_of(alloc, files, Purpose::Writing)?, Way::Sql)
}

/// Until about this number of calls of the log, or of the file, an open fails with Store: each tenth is tried.
fn each_call_counts(alloc: Global, bytes: &Bytes, of_log: bool) -> Result<u64, Fail> {
    for at in 0..10_000 {
        if at % 10 != 0 {
            continue;
        }
        let calls = if of_log {
            (at, u64::MAX)
        } else {
            (u64::MAX, at)
        };
        let way = way_of(alloc, bytes.files(alloc, calls)?, Purpose::Reading)?;
        if way == Way::Trees {
            return Ok(at);
        }
        same(("calls", at), way, Way::Fault(FaultKind::Store, 0))?;
    }
    Err("no open succeeds".into())
}

#[test]
fn an_open_fails_by_a_call_of_the_disk(rt: HostRuntime) -> Result<(), Fail> {
    let bytes = made(rt.alloc(), "")?;
    let of_log = each_call_counts(rt.alloc(), &bytes, true)?;
    let count = each_call_counts(rt.alloc(), &bytes, false)?.saturating_add(of_log);
    holds(("calls", count), count > 4)
}
