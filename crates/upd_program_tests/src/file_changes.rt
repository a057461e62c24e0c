//! Changes of a library's file by hand, past the program.
use sqlite::{Connection, FileFrom, FileStore};
use sqlite_disk::{Disk, Unknown};
use std::test::Fail;
use upd_store::file::connect;
use upd_testkit::check::holds;

/// A connection to the file of a library.
pub type FileConnection = Connection<FileStore<FileFrom<Unknown>>>;

pub fn connected(rt: &HostRuntime, file: &str) -> Result<FileConnection, Fail> {
    Ok(connect(rt, file, Unknown)?)
}

/// Executes a statement and closes the connection.
fn execute_and_close<D: Disk + Drop>(
    mut conn: Connection<FileStore<D>>,
    sql: &str,
) -> Result<(), Fail> {
    let is_done = conn.execute_batch(sql).is_ok();
    conn.close()?;
    holds(sql, is_done)
}

/// Executes a statement and lets the connection go, as a program does that ends without copying its log into the file.
fn execute_and_leave<D: Disk + Drop>(
    mut conn: Connection<FileStore<D>>,
    sql: &str,
) -> Result<(), Fail> {
    holds(sql, conn.execute_batch(sql).is_ok())
}

/// Changes the tables of a library.
pub fn change(rt: &HostRuntime, file: &str, sql: &str) -> Result<(), Fail> {
    execute_and_close(connected(rt, file)?, sql)
}

/// Changes a library, and leaves what it committed in the log.
pub fn change_log(rt: &HostRuntime, file: &str, sql: &str) -> Result<(), Fail> {
    execute_and_leave(connected(rt, file)?, sql)
}
