//! What the trees of a library answer below SQL: the rows that SQL reads, and what the reference desk answers.
ghost use Rattle.std.specs.Prelude.{IfOk};
ghost use Rattle.sqlite.specs.Steps.{IsFresh};
ghost use Rattle.sqlite_trees.specs.Memory.{memory_view};
ghost use Rattle.sqlite_trees.specs.View.{IsClean};

use crate::empty_stores::{Fresh, Tables, adopted, fresh_session};
use crate::random_lists::{after_decks, random_step};
use crate::table_rows::table_rows;
use sqlite::{Connection, MemStore};
use sqlite_trees::store::Reopen;
use std::alloc::Global;
use std::fmt::Debug;
use std::test::Fail;
use upd_core::{CardRef, Change, Entry, Ident, Kind, Target};
use upd_records::RunRow;
use upd_row_store::RowStore;
use upd_store::TreeStore;
use upd_testkit::applying::name;
use upd_testkit::asks::{Ask, Sent};
use upd_testkit::check::{same, same_text};
use upd_testkit::random_runs::{DECKS, Dice, LISTINGS};
use upd_testkit::reference_desk::ReferenceDesk;
use upd_testkit::reference_rows::{joined, lists_stored, reference_tables};
use upd_testkit::session::Session;

/// The store of a connection, as it is just after it was opened.
fn reopened(conn: Connection<MemStore>) -> Result<MemStore, Fail>
    ensures { IfOk result (λ store. IsClean (memory_view store) → IsFresh (memory_view store)) }
{
    let mut store = conn.into_store();
    match store.crash_and_reopen() {
        Ok(()) => Ok(store),
        Err(_) => Err("the store isn't opened again".into()),
    }
}

/// The library of a connection, opened below SQL.
fn trees_of(alloc: Global, conn: Connection<MemStore>) -> Result<TreeStore<MemStore>, Fail> {
    let store = reopened(conn)?;
    Ok(TreeStore::adopt(alloc, store).ok_or("no library")?)
}

fn add_rows<T: Debug>(lines: &mut Vec<String>, rows: &[T]) -> Result<(), Fail> {
    for row in rows {
        lines.push(format!(in *lines.allocator(); "{row:?}")?)?;
    }
    Ok(())
}

fn add_library<S: RowStore>(lines: &mut Vec<String>, store: &mut S) -> Result<(), Fail> {
    let rows = store.library_rows(*lines.allocator())?;
    add_rows(lines, &rows.idents)?;
    add_rows(lines, &rows.cards)?;
    add_rows(lines, &rows.entries)?;
    add_rows(lines, &rows.targets)
}

fn add_statuses<S: RowStore>(lines: &mut Vec<String>, store: &mut S) -> Result<(), Fail> {
    let found = store.load_states(*lines.allocator())?;
    add_rows(lines, &found.states)?;
    add_rows(lines, &found.counts)
}

/// Adds the stored runs of a site, among those that have these numbers, and its mark.
fn add_site<S: RowStore>(
    lines: &mut Vec<String>,
    store: &mut S,
    site: &str,
    numbers: &[u64],
) -> Result<(), Fail> {
    let alloc = *lines.allocator();
    for number in numbers {
        add_rows(lines, &[store.kept_run(alloc, site, *number)?])?;
    }
    add_rows(lines, &[store.mark(alloc, site)?])
}

const SITES: [&str; 4] = ["BASE", "LYON", "PARIS", "EIGHTLET"];

const NUMBERS: [u64; 8] = [1, 2, 3, 4, 8, 16, 24, 999_999_999];

fn add_stored<S: RowStore>(lines: &mut Vec<String>, store: &mut S) -> Result<(), Fail> {
    let found = store.stored_runs(*lines.allocator())?;
    add_rows(lines, &found.runs)?;
    add_rows(lines, &found.marks)
}

/// What a store answers of all rows: sorted lines.
fn rows_of<S: RowStore>(alloc: Global, store: &mut S) -> Result<String, Fail> {
    let mut lines = Vec::new(alloc);
    add_library(&mut lines, store)?;
    add_statuses(&mut lines, store)?;
    add_stored(&mut lines, store)?;
    for site in SITES {
        add_site(&mut lines, store, site, &NUMBERS)?;
    }
    joined(alloc, lines)
}

/// A library is read below SQL as by SQL.
fn is_read_below(alloc: Global, mut tables: Tables) -> Result<TreeStore<MemStore>, Fail> {
    let wanted = rows_of(alloc, &mut tables)?;
    let mut trees = trees_of(alloc, tables.into_connection())?;
    same_text("the rows", &rows_of(alloc, &mut trees)?, &wanted)?;
    Ok(trees)
}

/// The library of a session is read below SQL as by SQL. Questions over it are answered as by the reference desk.
fn is_answered_below(session: Session<Tables>, asks: &[Ask<'_>]) -> Result<(), Fail> {
    let Session {
        desk,
        reference,
        alloc,
    } = session;
    let mut trees = is_read_below(alloc, desk.close())?;
    lists_stored(&mut trees, &reference)?;
    Session::over(trees, reference).ask_all(asks)
}

/// What twenty random steps leave.
fn random_session(alloc: Global, dice: &mut Dice, list: u32) -> Result<Session<Tables>, Fail> {
    let mut session = after_decks::<Tables>(alloc, DECKS)?;
    for _ in 0..20 {
        random_step(&mut session, dice, list)?;
    }
    Ok(session)
}

#[test]
fn trees_answer_random_lists_as_the_tables(rt: HostRuntime) -> Result<(), Fail> {
    let mut dice = Dice(1977);
    for list in 0..10 {
        is_answered_below(random_session(rt.alloc(), &mut dice, list)?, &LISTINGS)?;
    }
    Ok(())
}

/// A run that adds 301 sets.
fn sets(alloc: Global) -> Result<String, Fail> {
    let mut run = String::new(alloc);
    for number in 0..301_u32 {
        write!(run, "*IDENT N{number}\n")?;
    }
    Ok(run)
}

/// The site of the longest name and the greatest number: a deck with a card without text and 301 more.
fn late_deck(alloc: Global) -> Result<String, Fail> {
    Ok(format!(in alloc; "*DECK LATE\n\n{}", "X\n".repeat(alloc, 301)?.as_str())?)
}

/// Questions of that deck.
pub const LATE: &[Ask<'static>] = &[
    Ask::Card("LATE.2"),
    Ask::Card("LATE.303"),
    Ask::Card("NEW.1"),
    Ask::Deck("LATE"),
    Ask::Idents,
    Ask::Yanks,
    Ask::Compile,
];

const TAKEN: &str = "CARD NEW.1\nDECK LATE\nTEXT NEW\nSTATUS inactive\nENTRY NEW on taken\n";

/// A yank of each of those sets, and one in the deck.
fn yanks(alloc: Global) -> Result<String, Fail> {
    let mut run = String::from_str(alloc, "*IDENT Y\n*SELYANK LATE.NEW\n")?;
    for number in 0..301_u32 {
        write!(run, "*YANK N{number}\n")?;
    }
    Ok(run)
}

/// Many sets, a deck after them, and many yanks.
pub fn late_session<S: Fresh>(alloc: Global) -> Result<Session<S>, Fail> {
    let mut session = fresh_session::<S>(alloc)?;
    session.ask(Ask::Lyon(1, "quick", &sets(alloc)?))?;
    let text = late_deck(alloc)?;
    session.ask(Ask::Run(Sent {
        site: "EIGHTLET",
        number: 999_999_999,
        mode: "normal",
        text: &text,
    }))?;
    session.ask(Ask::Lyon(2, "full", "*IDENT NEW\n*INSERT LATE.2\nNEW\n"))?;
    session.ask(Ask::Lyon(3, "full", &yanks(alloc)?))?;
    session.says(Ask::Card("NEW.1"), TAKEN)?;
    Ok(session)
}

/// The tables are what the reference desk would store.
fn is_stored(tables: Tables, reference: &ReferenceDesk) -> Result<Tables, Fail> {
    let mut conn = tables.into_connection();
    let found = table_rows(reference.library.allocator(), &mut conn)?;
    same_text("the tables", &found, &reference_tables(reference)?)?;
    adopted(conn)
}

#[test]
fn a_late_deck_is_stored_and_read(rt: HostRuntime) -> Result<(), Fail> {
    let Session {
        desk,
        reference,
        alloc,
    } = late_session::<Tables>(rt.alloc())?;
    let tables = is_stored(desk.close(), &reference)?;
    is_answered_below(Session::over(tables, reference), LATE)
}

/// A deck of 2,000 cards, and a run that deletes 1,999 of them 34 times: 69,966 entries.
fn entries_session(alloc: Global) -> Result<Session<Tables>, Fail> {
    let mut session = fresh_session::<Tables>(alloc)?;
    let lines = "X\n".repeat(alloc, 1999)?;
    let deck = format!(in alloc; "*DECK A\n{lines}")?;
    session.ask(Ask::Lyon(1, "quick", &deck))?;
    let deletions = "*DELETE A.2,A.2000\n".repeat(alloc, 34)?;
    let run = format!(in alloc; "*IDENT X\n{deletions}")?;
    session.ask(Ask::Lyon(2, "quick", &run))?;
    Ok(session)
}

#[test]
fn trees_of_more_than_65536_rows_are_read(rt: HostRuntime) -> Result<(), Fail> {
    let tables = entries_session(rt.alloc())?.desk.close();
    let mut trees = trees_of(rt.alloc(), tables.into_connection())?;
    let rows = trees.library_rows(rt.alloc())?;
    same("entries", rows.entries.len(), 69_966)
}

/// Row changes that no run makes, of numbers near 2 to the power of 32.
fn great_changes(alloc: Global) -> Result<Vec<Change>, Fail> {
    let (name, number) = (name("EIGHTLET")?, 4_000_000_002);
    let (card, target) = (
        CardRef { name, number },
        Target::SetIn(4_000_000_008, 4_000_000_009),
    );
    Ok(vec![in alloc;
        Change::IdentNew(Ident {
            name,
            age: 4_000_000_001,
            kind: Kind::Common,
            noprop: true,
            held: false,
        }),
        Change::CardNew {
            card,
            deck: 4_000_000_003,
            pos: 4_000_000_004,
            text: Vec::new(alloc),
        },
        Change::EntryNew {
            card,
            ord: 4_000_000_005,
            entry: Entry {
                ident: 4_000_000_006,
                active: false,
            },
        },
        Change::TargetNew {
            card,
            ord: 4_000_000_007,
            target,
        },
        Change::StatusNow {
            card,
            active: false,
        },
        Change::CountNow {
            target,
            n: 4_000_000_010,
        },
    ]?)
}

/// The rows of these changes, of their run, and of a mark above 2 to the power of 32.
const GREAT: &str = "cards|'EIGHTLET'|4000000002|4000000003|4000000004|''\n\
counts|1|4000000008|4000000009|4000000010\n\
entries|'EIGHTLET'|4000000002|4000000005|4000000006|0\n\
idents|4000000001|'EIGHTLET'|2|1|0\n\
meta|'version'|3\n\
runs|'EIGHTLET'|999999999|2|x''|0|x''\n\
settled|'PARIS'|5000000011\n\
states|'EIGHTLET'|4000000002|0\n\
targets|'EIGHTLET'|4000000002|4000000007|1|4000000008|4000000009\n";

/// Tables after these changes and that settlement.
fn great_tables(alloc: Global) -> Result<Tables, Fail> {
    let mut tables = Tables::fresh(alloc)?;
    let run = RunRow {
        site: String::from_str(alloc, "EIGHTLET")?,
        number: 999_999_999,
        mode: 2,
        bytes: Vec::new(alloc),
        accepted: false,
        reply: Vec::new(alloc),
    };
    tables.commit(alloc, &great_changes(alloc)?, run)?;
    tables.settle_to(alloc, "PARIS", 5_000_000_011)?;
    Ok(tables)
}

#[test]
fn great_values_are_stored_and_read(rt: HostRuntime) -> Result<(), Fail> {
    let mut conn = great_tables(rt.alloc())?.into_connection();
    same_text("the tables", &table_rows(rt.alloc(), &mut conn)?, GREAT)?;
    is_read_below(rt.alloc(), adopted(conn)?)?;
    Ok(())
}
