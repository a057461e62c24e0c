//! Desks over lists, and the runs of LYON that their stores have.
use std::alloc::Global;
use std::mem;
use std::test::Fail;
use upd_desk::Desk;
use upd_memory::ListStore;
use upd_row_store::RowStore;
use upd_testkit::check::same;

/// A desk over lists.
pub type Lists = Desk<ListStore>;

/// A desk over an empty library.
pub fn empty_desk(alloc: Global) -> Lists {
    Desk::open(ListStore::new(alloc))
}

/// A desk over the rows of a store, which has none until the desk is closed into it.
pub fn desk_over(alloc: Global, store: &mut ListStore) -> Lists {
    Desk::open(mem::replace(store, ListStore::new(alloc)))
}

/// Whether a run of LYON is stored.
fn is_stored(alloc: Global, store: &mut ListStore, number: u32) -> Result<bool, Fail> {
    Ok(store.kept_run(alloc, "LYON", u64::from(number))?.is_some())
}

/// Of the runs 1 to 3 of LYON, a store has those up to `last`.
pub fn are_stored(alloc: Global, store: &mut ListStore, last: u32) -> Result<(), Fail> {
    for number in 1..=3_u32 {
        let is_there = is_stored(alloc, store, number)?;
        same("a run", (number, is_there), (number, number <= last))?;
    }
    Ok(())
}

/// Of the runs 1 to 3 of LYON, a desk has stored those up to `last`. It is closed and opened again.
pub fn has_stored(alloc: Global, desk: &mut Lists, last: u32) -> Result<(), Fail> {
    let mut store = mem::replace(desk, empty_desk(alloc)).close();
    are_stored(alloc, &mut store, last)?;
    *desk = Desk::open(store);
    Ok(())
}
