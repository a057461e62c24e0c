//! Names out of texts, and runs applied to a library.
use std::alloc::Global;
use std::test::Fail;
use upd_apply::{Applied, ReachedLibrary, apply, reach};
use upd_core::{CardRef, Library, Name};
use upd_deck::read_run;

pub fn name(text: &str) -> Result<Name, Fail> {
    Ok(Name::read(text.as_bytes()).ok_or("no name")?)
}

pub fn card_ref(text: &str) -> Result<CardRef, Fail> {
    Ok(CardRef::read(text.as_bytes()).ok_or("no card reference")?)
}

/// Applies a run to a library.
pub fn applied(library: &mut Library, text: &str) -> Result<Applied, Fail> {
    let alloc = library.allocator();
    let run = read_run(alloc, text.as_bytes())?;
    Ok(apply(alloc, library, &run)?)
}

/// Takes a run, whose row changes nobody asks for.
pub fn take_run(library: &mut Library, text: &str) -> Result<(), Fail> {
    let alloc = library.allocator();
    let run = read_run(alloc, text.as_bytes())?;
    let ReachedLibrary { library: after, .. } = reach(alloc, library, &run)?;
    *library = after;
    Ok(())
}

/// The library that runs make of the empty one.
pub fn after(alloc: Global, runs: &[&str]) -> Result<Library, Fail> {
    let mut library = Library::new(alloc);
    for run in runs {
        applied(&mut library, run)?;
    }
    Ok(library)
}
