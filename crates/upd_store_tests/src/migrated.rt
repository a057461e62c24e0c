//! Older files in memory, migrated to the current schema: the same listings, the same repeats, and a desk over them.
//! Rule 10.49.
use crate::empty_stores::{adopted, refused};
use crate::older_files::Older;
use crate::table_rows::table_rows;
use sqlite::{Connection, MemStore};
use std::alloc::Global;
use std::test::Fail;
use upd_migrate::{load_rows, migrate};
use upd_store::SqlStore;
use upd_testkit::asks::Ask;
use upd_testkit::check::{same, same_text};
use upd_testkit::reference_desk::ReferenceDesk;
use upd_testkit::session::Session;
use upd_text::{Fault, FaultKind};

fn older(alloc: Global, file: Older) -> Result<Connection<MemStore>, Fail> {
    let mut conn = Connection::open_in_memory(alloc)?;
    file.make(&mut conn)?;
    Ok(conn)
}

/// What is listed of each file.
const ASKED: [Ask<'static>; 4] = [Ask::Idents, Ask::Deck("A"), Ask::Yanks, Ask::Card("A.3")];

const FIRST_LISTED: &str = "1 A deck held\n2 X set held\n3 Y set held\n4 Z set held\n5 W set held\n\
DECK A\nA A.1 *DECK A\nA A.2 ONE\nI X.1 NEW\nA A.3 TWO\nA A.4 THREE\n\
live Y.1 *YANK X\n set X\ndead Z.1 *YANK Y\n set Y\n\
CARD A.3\nDECK A\nTEXT TWO\nSTATUS active\nENTRY A on\n";

const SECOND_LISTED: &str = "1 A deck held\n2 X set purged\n3 Y set held\n4 X set held\n\
DECK A\nA A.1 *DECK A\nA A.2 ONE\nI A.3 TWO\nA A.4 THREE\n\
live Y.1 *YANK X\n set X purged\n\
CARD A.3\nDECK A\nTEXT TWO\nSTATUS inactive\nENTRY A on\nENTRY X off\n";

/// The library that is read is the one of the file.
fn is_listed(alloc: Global, conn: &mut Connection<MemStore>, file: Older) -> Result<(), Fail> {
    let wanted = match file {
        Older::First => FIRST_LISTED,
        Older::Second => SECOND_LISTED,
    };
    let mut library = ReferenceDesk::over(load_rows(alloc, conn)?);
    let mut found = String::new(alloc);
    for ask in ASKED {
        found.push_str(&library.answer(ask)?)?;
    }
    same_text(file, &found, wanted)
}

/// A migration fills the tables, and a second one changes nothing.
fn is_migrated(alloc: Global, conn: &mut Connection<MemStore>, file: Older) -> Result<(), Fail> {
    for _ in 0..2 {
        migrate(alloc, conn)?;
        file.has(alloc, conn, 3)?;
    }
    Ok(())
}

/// Reading an older file shows its library and changes no row; so it does after a migration.
fn migrated(alloc: Global, file: Older) -> Result<Connection<MemStore>, Fail> {
    let mut conn = older(alloc, file)?;
    is_listed(alloc, &mut conn, file)?;
    file.has(alloc, &mut conn, file.version())?;
    is_migrated(alloc, &mut conn, file)?;
    is_listed(alloc, &mut conn, file)?;
    Ok(conn)
}

const DECK_A: &str = "*DECK A\nONE\nTWO\nTHREE\n";

/// Repeats get the stored replies, a refusal too; a known number with another mode is refused.
const REPEATS: &[(Ask<'static>, &str)] = &[
    (Ask::Lyon(1, "quick", DECK_A), "kept 1"),
    (Ask::Lyon(6, "full", "*IDENT X\n"), "kept 6"),
    (Ask::Lyon(6, "quick", "*IDENT X\n"), "RunChanged (26) at 0"),
];

/// A desk over a file that was migrated answers the repeats, and then these.
fn answers(alloc: Global, file: Older, asked: &[(Ask<'_>, &str)]) -> Result<(), Fail> {
    let mut session = Session::new(alloc, adopted(migrated(alloc, file)?)?);
    for (ask, wanted) in REPEATS.iter().chain(asked) {
        same_text(ask, &session.ask_desk(*ask)?, wanted)?;
    }
    Ok(())
}

#[test]
fn a_file_of_the_first_schema_is_migrated(rt: HostRuntime) -> Result<(), Fail> {
    const REPLY: &str =
        "{\"compile\":\"\",\"idents\":[\"V\"],\"lines\":0,\"mode\":\"quick\",\"run\":7,\"site\":\"LYON\",\
\"state\":\"accepted\"}";
    const YANKS: &str = "dead Y.1 *YANK X\n set X\ndead Z.1 *YANK Y\n set Y\n";
    const CARD: &str = "CARD A.2\nDECK A\nTEXT ONE\nSTATUS inactive\nENTRY A on\nENTRY X off\n";
    let asked = [
        (Ask::Lyon(7, "quick", "*IDENT V\n*DELETE Y.1\n"), REPLY),
        (Ask::Yanks, YANKS),
        (Ask::Card("A.2"), CARD),
    ];
    answers(rt.alloc(), Older::First, &asked)
}

#[test]
fn a_file_of_the_second_schema_is_migrated(rt: HostRuntime) -> Result<(), Fail> {
    let asked = [
        (Ask::Settle("LYON", 1), "1"),
        (Ask::Lyon(1, "quick", DECK_A), "Settled (27) at 0"),
        (Ask::Lyon(6, "full", "*IDENT X\n"), "kept 6"),
    ];
    answers(rt.alloc(), Older::Second, &asked)
}

/// A file of an older schema isn't adopted as it is: the fault has its version, and the tables stay.
#[test]
fn older_files_are_not_adopted(rt: HostRuntime) -> Result<(), Fail> {
    for file in [Older::First, Older::Second] {
        let taken = SqlStore::adopt(older(rt.alloc(), file)?);
        let mut conn = refused(taken, file.version())?;
        file.has(rt.alloc(), &mut conn, file.version())?;
    }
    Ok(())
}

/// A file that a change made is neither migrated nor read, for Store at this version, and its tables stay.
fn is_refused(
    alloc: Global,
    conn: &mut Connection<MemStore>,
    change: &str,
    at: u32,
) -> Result<(), Fail> {
    let kind = FaultKind::Store;
    let before = table_rows(alloc, conn)?;
    same(change, migrate(alloc, conn).err(), Some(Fault { kind, at }))?;
    same(
        change,
        load_rows(alloc, conn).err(),
        Some(Fault { kind, at }),
    )?;
    same_text(change, &table_rows(alloc, conn)?, &before)
}

/// Changes of a file of the first schema, and the version at which it is refused: another one, none, and one table more.
const OTHERS: [(&str, u32); 4] = [
    ("UPDATE meta SET v = 7", 7),
    ("UPDATE meta SET v = 2", 2),
    ("DELETE FROM meta", 0),
    ("CREATE TABLE notes (text TEXT NOT NULL) STRICT", 1),
];

#[test]
fn other_files_are_refused(rt: HostRuntime) -> Result<(), Fail> {
    let mut none = Connection::open_in_memory(rt.alloc())?;
    is_refused(rt.alloc(), &mut none, "no tables", 0)?;
    for (change, at) in OTHERS {
        let mut conn = older(rt.alloc(), Older::First)?;
        conn.execute(change, &[])?;
        is_refused(rt.alloc(), &mut conn, change, at)?;
    }
    Ok(())
}
