//! Crashes at calls of the disk: what is opened again holds the answered arrivals, with or without the one in hand.
use crate::fused_files::{Bytes, Cut, Fused, Work, survives_crashes, work_in};
use crate::table_rows::table_rows;
use sqlite::Connection;
use sqlite_disk::Files;
use std::alloc::Global;
use std::test::Fail;
use upd_row_store::RowStore;
use upd_sqlite::Rising;
use upd_store::SqlStore;
use upd_testkit::asks::{Ask, shown};
use upd_testkit::check::same_text;
use upd_testkit::reference_desk::ReferenceDesk;
use upd_testkit::reference_rows::reference_tables;
use upd_testkit::session::Session;
use upd_text::{Fault, FaultKind};

/// The library in a database; a new one if there is no library in it.
fn library_in<S: Rising + Drop>(conn: Connection<S>) -> Result<SqlStore<S>, Connection<S>> {
    match SqlStore::adopt(conn) {
        Ok(store) => Ok(store),
        Err((_, conn)) => match SqlStore::init(conn) {
            Ok(store) => Ok(store),
            Err((_, conn)) => Err(conn),
        },
    }
}

/// Reads the tables as text; none if the database holds no library.
#[derive(Clone, Copy)]
struct ReadTables;

impl Work for ReadTables {
    type Outcome = String;

    fn over<S: Rising + Drop>(
        self,
        alloc: Global,
        conn: Connection<S>,
    ) -> Result<(String, Connection<S>), Fail> {
        match SqlStore::adopt(conn) {
            Ok(store) => {
                let mut conn = store.into_connection();
                let text = table_rows(alloc, &mut conn)?;
                Ok((text, conn))
            }
            Err((_, conn)) => Ok((String::new(alloc), conn)),
        }
    }
}

/// The tables in files that can be opened; no text if they hold no library.
fn tables_in(alloc: Global, files: Files<Fused>) -> Result<(String, Files<Fused>), Fail> {
    let (text, files) = work_in(alloc, files, ReadTables)?;
    Ok((text.ok_or("the files can't be opened")?, files))
}

/// What came of a list.
#[derive(Drop, PartialEq)]
struct Sending {
    /// Whether there was a library at the start.
    opened: bool,
    /// The number of answers up to the first failure, and these, one a line.
    count: usize,
    answers: String,
}

fn is_lost(fault: Fault) -> bool {
    matches!(fault.kind, FaultKind::NoMemory | FaultKind::Store)
}

/// The answers up to the first failure: their number, and these, one a line.
fn answers<R: RowStore>(
    session: &mut Session<R>,
    list: &[Ask<'_>],
) -> Result<(usize, String), Fail> {
    let mut text = String::new(session.alloc);
    for (count, ask) in list.iter().enumerate() {
        match session.answer(*ask)? {
            Err(fault) if is_lost(fault) => return Ok((count, text)),
            answer => write!(text, "{}\n", shown(session.alloc, answer)?)?,
        }
    }
    Ok((list.len(), text))
}

/// Asks the library in a store until a call fails: what came of it, and the store.
fn asked<R: RowStore + Drop>(
    alloc: Global,
    store: R,
    list: &[Ask<'_>],
) -> Result<(Sending, R), Fail> {
    let mut session = Session::new(alloc, store);
    let (count, answers) = answers(&mut session, list)?;
    let sending = Sending {
        opened: true,
        count,
        answers,
    };
    Ok((sending, session.desk.close()))
}

/// Asks the library in a database until a call fails.
#[derive(Clone, Copy)]
struct Asking<'a> {
    list: &'a [Ask<'a>],
}

impl Work for Asking<'_> {
    type Outcome = Sending;

    fn over<S: Rising + Drop>(
        self,
        alloc: Global,
        conn: Connection<S>,
    ) -> Result<(Sending, Connection<S>), Fail> {
        match library_in(conn) {
            Ok(store) => {
                let (sending, store) = asked(alloc, store, self.list)?;
                Ok((sending, store.into_connection()))
            }
            Err(conn) => Ok((none_sent(alloc), conn)),
        }
    }
}

/// What comes of a list where there is no library.
fn none_sent(alloc: Global) -> Sending {
    Sending {
        opened: false,
        count: 0,
        answers: String::new(alloc),
    }
}

/// What the reference desk has after the first of a list: the tables, the answers to the whole list, sent again, one a
/// line, and the tables then.
#[derive(Drop)]
struct Wanted {
    tables: String,
    answers: String,
    end: String,
}

/// The answers of the reference desk, one a line.
fn reference_answers(reference: &mut ReferenceDesk, list: &[Ask<'_>]) -> Result<String, Fail> {
    let mut text = String::new(reference.library.allocator());
    for ask in list {
        write!(text, "{}\n", reference.answer(*ask)?)?;
    }
    Ok(text)
}

fn wanted_after(alloc: Global, list: &[Ask<'_>], count: usize) -> Result<Wanted, Fail> {
    let mut reference = ReferenceDesk::new(alloc);
    reference_answers(&mut reference, list.get(..count).unwrap_or(list))?;
    Ok(Wanted {
        tables: reference_tables(&reference)?,
        answers: reference_answers(&mut reference, list)?,
        end: reference_tables(&reference)?,
    })
}

impl Asking<'_> {
    /// Asks until a call fails: what came of it, and the files.
    fn send(&self, alloc: Global, files: Files<Fused>) -> Result<(Sending, Files<Fused>), Fail> {
        let (sending, files) = work_in(alloc, files, *self)?;
        Ok((sending.unwrap_or_else(|| none_sent(alloc)), files))
    }

    /// What is expected after a crash that left these tables: they are those after the answered part of the list, or after
    /// one more. Before the first answer there may also be no library.
    fn wanted(&self, alloc: Global, sending: &Sending, found: &str) -> Result<Wanted, Fail> {
        let wanted = wanted_after(alloc, self.list, sending.count)?;
        if found == wanted.tables.as_str() || found.is_empty() && !sending.opened {
            return Ok(wanted);
        }
        let wanted = wanted_after(alloc, self.list, sending.count.saturating_add(1))?;
        same_text(("after", sending.count), found, &wanted.tables)?;
        Ok(wanted)
    }
}

impl Cut for Asking<'_> {
    type Part = Sending;

    fn cut(
        &self,
        alloc: Global,
        files: Files<Fused>,
    ) -> Result<(Option<Sending>, Files<Fused>), Fail> {
        let (sending, files) = self.send(alloc, files)?;
        let is_whole = sending.count == self.list.len();
        Ok((if is_whole { None } else { Some(sending) }, files))
    }

    /// The whole list, sent again, is answered as the reference desk answers, whose tables are in the files then.
    fn left_holds(&self, alloc: Global, sending: &Sending, left: &Bytes) -> Result<(), Fail> {
        let (found, files) = tables_in(alloc, left.whole_files(alloc)?)?;
        let wanted = self.wanted(alloc, sending, &found)?;
        let (again, files) = self.send(alloc, files)?;
        same_text(
            ("answers after", sending.count),
            &again.answers,
            &wanted.answers,
        )?;
        let (found, _) = tables_in(alloc, files)?;
        same_text(("tables after", sending.count), &found, &wanted.end)
    }
}

const DECK: Ask<'static> = Ask::Lyon(7, "full", "*DECK A\nONE\nTWO\nTHREE\n");

const SETS: &str = "*IDENT X\n*DELETE A.2\nNEW\n*IDENT Y\n*YANK X\n";

/// A run, one of a lower number, a repeat of the first, and a settlement of the one that came second.
const LIST: &[Ask<'static>] = &[
    DECK,
    Ask::Lyon(6, "full", SETS),
    DECK,
    Ask::Settle("LYON", 6),
];

#[test]
fn runs_a_repeat_and_a_settlement_survive_crashes(rt: HostRuntime) -> Result<(), Fail> {
    let asking = Asking { list: LIST };
    survives_crashes(rt.alloc(), &asking, &Bytes::none(rt.alloc()), 30)
}
