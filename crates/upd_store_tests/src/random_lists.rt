//! Random lists of arrivals and settlements over three stores, beside the reference desk: the answers, and the tables of
//! SQLite row by row.
use crate::empty_stores::{Fresh, Tables, adopted, fresh_session};
use crate::table_rows::table_rows;
use sqlite::MemStore;
use std::alloc::Global;
use std::test::Fail;
use upd_memory::{ListStore, MirrorStore};
use upd_row_store::RowStore;
use upd_store::SqlStore;
use upd_testkit::asks::{Ask, Sent};
use upd_testkit::check::{holds, same_text};
use upd_testkit::random_runs::{DECKS, Dice, LISTINGS, random_run};
use upd_testkit::reference_desk::ReferenceDesk;
use upd_testkit::reference_rows::{lists_stored, reference_tables};
use upd_testkit::session::Session;

/// A store over which random lists are tried.
pub trait Tried: Fresh {
    /// Whether its rows are in memory.
    fn is_in_memory(&self) -> bool;

    /// It holds what the reference desk would store, and is opened again.
    fn compared(self, dice: &mut Dice, reference: &ReferenceDesk) -> Result<Self, Fail>;
}

impl Tried for ListStore {
    fn is_in_memory(&self) -> bool {
        false
    }

    fn compared(self, _: &mut Dice, _: &ReferenceDesk) -> Result<ListStore, Fail> {
        Ok(self)
    }
}

impl Tried for SqlStore<MemStore> {
    fn is_in_memory(&self) -> bool {
        false
    }

    fn compared(self, _: &mut Dice, reference: &ReferenceDesk) -> Result<SqlStore<MemStore>, Fail> {
        let mut conn = self.into_connection();
        let found = table_rows(reference.library.allocator(), &mut conn)?;
        same_text("the tables", &found, &reference_tables(reference)?)?;
        adopted(conn)
    }
}

impl<S: Tried> Tried for MirrorStore<S> {
    fn is_in_memory(&self) -> bool {
        self.has_rows()
    }

    /// The rows in memory are read, are let go while the store below is compared, or stay.
    fn compared(mut self, dice: &mut Dice, reference: &ReferenceDesk) -> Result<Self, Fail> {
        match dice.below(4) {
            0 => self.warm(reference.library.allocator()),
            1 => self = MirrorStore::new(self.into_inner().compared(dice, reference)?),
            _ => {}
        }
        Ok(self)
    }
}

const BAD_SITES: [&str; 4] = ["", "lyon", "LYON-1", "NINEBYTES"];

const MODES: [&str; 3] = ["full", "quick", "normal"];

fn bad_site(dice: &mut Dice) -> &'static str {
    BAD_SITES.get(dice.below(4) as usize).copied().unwrap_or("")
}

fn either_site(dice: &mut Dice) -> &'static str {
    if dice.below(2) == 0 { "LYON" } else { "PARIS" }
}

/// A run that is refused on admission.
fn bad_run<'a>(dice: &mut Dice, long: &'a str) -> Sent<'a> {
    let (site, number, mode, text) = match dice.below(5) {
        0 => (bad_site(dice), 1, "full", ""),
        1 => ("LYON", 0, "full", ""),
        2 => ("LYON", 1_000_000_000, "full", ""),
        3 => ("LYON", 1, "FULL", ""),
        _ => ("LYON", 1, "full", long),
    };
    Sent {
        site,
        number,
        mode,
        text,
    }
}

/// The text of a run, by the list and the number, but for some that are changed.
fn random_text(alloc: Global, dice: &mut Dice, list: u32, number: u32) -> Result<String, Fail> {
    let changed = if dice.below(10) == 0 { 1 } else { 0 };
    let seed = list
        .wrapping_mul(100)
        .wrapping_add(number.wrapping_mul(2))
        .wrapping_add(changed);
    random_run(alloc, &mut Dice(seed), number)
}

/// The mode of a run, by its number, but for some that are changed.
fn random_mode(dice: &mut Dice, number: u32) -> &'static str {
    let mode = if dice.below(12) == 0 { 0 } else { number % 3 };
    MODES.get(mode as usize).copied().unwrap_or("")
}

/// A run at random. Numbers are few, so that runs come again.
fn random_sent<'a>(dice: &mut Dice, number: u32, text: &'a str) -> Sent<'a> {
    Sent {
        site: either_site(dice),
        number: u64::from(number),
        mode: random_mode(dice, number),
        text,
    }
}

/// An arrival, a settlement or something bad.
pub fn random_step<S: RowStore>(
    session: &mut Session<S>,
    dice: &mut Dice,
    list: u32,
) -> Result<(), Fail> {
    let number = dice.below(24).saturating_add(1);
    let text = random_text(session.alloc, dice, list, number)?;
    let kind = dice.below(24);
    let long = " ".repeat(session.alloc, if kind == 2 { 65_537 } else { 0 })?;
    let ask = match kind {
        0 | 1 => Ask::Settle(either_site(dice), u64::from(dice.below(12))),
        2 => Ask::Run(bad_run(dice, &long)),
        3 => Ask::Settle(bad_site(dice), 1),
        _ => Ask::Run(random_sent(dice, number, &text)),
    };
    session.ask(ask)?;
    Ok(())
}

/// The store is compared and opened again: whether its rows were in memory.
fn compared<S: Tried>(session: Session<S>, dice: &mut Dice) -> Result<(Session<S>, bool), Fail> {
    let Session {
        desk,
        reference,
        ..
    } = session;
    let store = desk.close();
    let is_in_memory = store.is_in_memory();
    let store = store.compared(dice, &reference)?;
    Ok((Session::over(store, reference), is_in_memory))
}

/// A desk after run 1 of the site BASE, which introduces the decks.
pub fn after_decks<S: Fresh>(alloc: Global, decks: &str) -> Result<Session<S>, Fail> {
    let mut session = fresh_session::<S>(alloc)?;
    let base = Sent {
        site: "BASE",
        number: 1,
        mode: "full",
        text: decks,
    };
    session.ask(Ask::Run(base))?;
    Ok(session)
}

/// Steps on these decks, and then the listings and the stored runs: the store is compared after each step, or after every
/// tenth. The number of accepted runs, and how often rows were in memory.
fn random_list<S: Tried>(
    alloc: Global,
    dice: &mut Dice,
    decks: &str,
    (list, steps): (u32, u32),
) -> Result<(u64, u64), Fail> {
    let mut session = after_decks::<S>(alloc, decks)?;
    let mut in_memory: u64 = 0;
    for step in 0..steps {
        random_step(&mut session, dice, list)?;
        if list % 2 == 0 || step % 10 == 9 {
            let (again, is_in_memory) = compared(session, dice)?;
            session = again;
            in_memory = in_memory.saturating_add(u64::from(is_in_memory));
        }
    }
    session.ask_all(&LISTINGS)?;
    let Session {
        desk,
        reference,
        ..
    } = session;
    let mut store = desk.close();
    lists_stored(&mut store, &reference)?;
    Ok((reference.accepted, in_memory))
}

/// As many lists of as many steps: the number of accepted runs, and how often rows were in memory.
fn random_lists<S: Tried>(
    alloc: Global,
    seed: u32,
    decks: &str,
    (lists, steps): (u32, u32),
) -> Result<(u64, u64), Fail> {
    let mut dice = Dice(seed);
    let (mut accepted, mut in_memory): (u64, u64) = (0, 0);
    for list in 0..lists {
        let (runs, rows) = random_list::<S>(alloc, &mut dice, decks, (list, steps))?;
        accepted = accepted.saturating_add(runs);
        in_memory = in_memory.saturating_add(rows);
    }
    Ok((accepted, in_memory))
}

#[test]
fn answers_60_random_lists_as_the_reference_desk(rt: HostRuntime) -> Result<(), Fail> {
    let (accepted, _) = random_lists::<ListStore>(rt.alloc(), 1973, DECKS, (60, 36))?;
    holds(("accepted runs", accepted), accepted > 150)
}

#[test]
fn answers_random_lists_as_the_reference_desk(rt: HostRuntime) -> Result<(), Fail> {
    let (accepted, _) = random_lists::<Tables>(rt.alloc(), 1974, DECKS, (40, 20))?;
    holds(("accepted runs", accepted), accepted > 80)
}

#[test]
fn rows_in_memory_answer_as_the_tables(rt: HostRuntime) -> Result<(), Fail> {
    let found = random_lists::<MirrorStore<Tables>>(rt.alloc(), 1975, DECKS, (20, 20))?;
    holds(
        ("accepted runs, rows in memory", found),
        found.0 > 80 && found.1 > 100,
    )
}

/// The three decks, and a large one: only a small part of all cards moves in a run.
#[test]
fn cards_that_move_by_their_keys_answer_as_the_tables(rt: HostRuntime) -> Result<(), Fail> {
    let large = "LINE\n".repeat(rt.alloc(), 400)?;
    let decks = format!(in rt.alloc(); "{DECKS}*DECK P3\n{large}")?;
    let (accepted, _) = random_lists::<MirrorStore<Tables>>(rt.alloc(), 1976, &decks, (5, 20))?;
    holds(("accepted runs", accepted), accepted > 20)
}
