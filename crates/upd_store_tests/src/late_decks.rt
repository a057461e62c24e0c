//! A deck after many sets, with a card without text and one of a high number, of a site of 8 letters and the greatest number,
//! and many yanks: over each store, and after a migration.
use crate::empty_stores::{Fresh, Tables};
use crate::table_rows::table_rows;
use crate::tree_answers::{LATE, late_session};
use sqlite::{Connection, MemStore};
use std::alloc::Global;
use std::test::Fail;
use upd_memory::{ListStore, MirrorStore};
use upd_migrate::migrate;
use upd_testkit::asks::Ask;
use upd_testkit::check::same_text;
use upd_testkit::reference_rows::lists_stored;
use upd_testkit::session::Session;

/// Questions of it are answered over a store as by the reference desk, which would store the same runs and marks.
fn is_answered_over<S: Fresh>(alloc: Global) -> Result<(), Fail> {
    let mut session = late_session::<S>(alloc)?;
    session.ask_all(LATE)?;
    session.says(Ask::Settle("EIGHTLET", 999_999_999), "999999999")?;
    let Session {
        desk,
        reference,
        ..
    } = session;
    let mut store = desk.close();
    lists_stored(&mut store, &reference)
}

#[test]
fn a_late_deck_is_answered_over_each_store(rt: HostRuntime) -> Result<(), Fail> {
    is_answered_over::<ListStore>(rt.alloc())?;
    is_answered_over::<Tables>(rt.alloc())?;
    is_answered_over::<MirrorStore<Tables>>(rt.alloc())
}

/// What makes a library without marks one of an older schema.
const OLDER: [&str; 2] = [
    "DROP TABLE settled; UPDATE meta SET v = 2",
    "DROP TABLE settled; DROP TABLE states; DROP TABLE counts; UPDATE meta SET v = 1",
];

/// A migration makes the tables again that it had before.
fn is_migrated_back(
    alloc: Global,
    conn: &mut Connection<MemStore>,
    older: &str,
) -> Result<(), Fail> {
    let wanted = table_rows(alloc, conn)?;
    conn.execute_batch(older)?;
    migrate(alloc, conn)?;
    same_text(older, &table_rows(alloc, conn)?, &wanted)
}

#[test]
fn a_late_deck_is_migrated(rt: HostRuntime) -> Result<(), Fail> {
    let tables = late_session::<Tables>(rt.alloc())?.desk.close();
    let mut conn = tables.into_connection();
    for older in OLDER {
        is_migrated_back(rt.alloc(), &mut conn, older)?;
    }
    Ok(())
}
