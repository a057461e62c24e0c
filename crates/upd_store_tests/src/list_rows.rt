//! Random lists over a store with nothing below it and over SQLite: both have the same rows.
use crate::empty_stores::Tables;
use crate::random_lists::{Tried, after_decks, random_step};
use std::alloc::Global;
use std::fmt::Debug;
use std::test::Fail;
use upd_memory::ListStore;
use upd_row_store::RowStore;
use upd_testkit::check::{holds, same_text};
use upd_testkit::random_runs::{DECKS, Dice};
use upd_testkit::reference_rows::joined;
use upd_testkit::session::Session;

fn add_rows<T: Debug>(lines: &mut Vec<String>, rows: &[T]) -> Result<(), Fail> {
    for row in rows {
        lines.push(format!(in *lines.allocator(); "{row:?}")?)?;
    }
    Ok(())
}

/// Sorted lines: one for each row of the library, status and count.
fn rows_of<S: RowStore>(alloc: Global, store: &mut S) -> Result<String, Fail> {
    let rows = store.library_rows(alloc)?;
    let states = store.load_states(alloc)?;
    let mut lines = Vec::new(alloc);
    add_rows(&mut lines, &rows.idents)?;
    add_rows(&mut lines, &rows.cards)?;
    add_rows(&mut lines, &rows.entries)?;
    add_rows(&mut lines, &rows.targets)?;
    add_rows(&mut lines, &states.states)?;
    add_rows(&mut lines, &states.counts)?;
    joined(alloc, lines)
}

/// The rows after random steps, and the number of accepted runs.
fn rows_after<S: Tried>(alloc: Global, list: u32) -> Result<(String, u64), Fail> {
    let mut dice = Dice(list.saturating_add(1978));
    let mut session = after_decks::<S>(alloc, DECKS)?;
    for _ in 0..40 {
        random_step(&mut session, &mut dice, list)?;
    }
    let Session {
        desk,
        reference,
        ..
    } = session;
    let mut store = desk.close();
    Ok((rows_of(alloc, &mut store)?, reference.accepted))
}

#[test]
fn commits_make_the_rows_that_sql_makes(rt: HostRuntime) -> Result<(), Fail> {
    let mut accepted: u64 = 0;
    for list in 0..4 {
        let (found, runs) = rows_after::<ListStore>(rt.alloc(), list)?;
        let (wanted, _) = rows_after::<Tables>(rt.alloc(), list)?;
        same_text(("the rows after list", list), &found, &wanted)?;
        accepted = accepted.saturating_add(runs);
    }
    holds(("accepted runs", accepted), accepted > 8)
}
