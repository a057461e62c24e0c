//! A purge of many cards of a library in a file, which is one commit.
use crate::console::{ask, library, remove};
use crate::file_sessions::{Step, take_all};
use std::alloc::Global;
use std::test::Fail;
use upd_testkit::check::same;

/// A quick run of site LYON, as a frame of a spool.
fn add_frame(spool: &mut String, number: u32, run: &str) -> Result<(), Fail> {
    Ok(write!(spool, "RUN LYON {number} quick {}\n{run}\n", run.len())?)
}

/// A run that introduces a deck of 2,000 cards.
pub fn add_deck(spool: &mut String, number: u32) -> Result<(), Fail> {
    let alloc = *spool.allocator();
    let lines = "X\n".repeat(alloc, 1999)?;
    let run = format!(in alloc; "*DECK B{number}\n{}", lines.as_str())?;
    add_frame(spool, number, run.as_str())
}

/// Deck A, a deck after it, and the purge of this.
fn purged_decks(alloc: Global) -> Result<String, Fail> {
    let mut spool = String::new(alloc);
    add_frame(&mut spool, 1, "*DECK A\nONE\n")?;
    add_deck(&mut spool, 2)?;
    add_frame(&mut spool, 10, "*PURGE B2,*\n")?;
    Ok(spool)
}

/// All frames of a spool are answered.
pub fn is_sent(rt: &HostRuntime, file: &str, spool: &str) -> Result<(), Fail> {
    let found = ask(rt, &["spool", file], &mut spool.as_bytes())?;
    same("the status", found.status, 0)
}

/// Each of the cards goes, with its entry: more than 4,000 row changes.
#[test]
fn two_thousand_cards_are_purged_in_one_commit(rt: HostRuntime) -> Result<(), Fail> {
    /// The site settles its runs, and deck A is left.
    const LEFT: &[Step<'static>] = &[
        Step::Settles("LYON", "10", "10"),
        Step::HasRows(
            "cards|A|1|1|0|*DECK A\ncards|A|2|1|1|ONE\nentries|A|1|0|1|1\nentries|A|2|0|1|1\n\
idents|1|A|1|0|1\nidents|2|B2|1|0|0\n\
meta|version|3\nsettled|LYON|10\nstates|A|1|1\nstates|A|2|1\n",
        ),
    ];
    let file = library(&rt, "purged")?;
    let spool = purged_decks(rt.alloc())?;
    is_sent(&rt, &file, spool.as_str())?;
    take_all(&rt, &file, LEFT)?;
    remove(&rt, &file)
}
