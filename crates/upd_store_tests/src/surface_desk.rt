//! Each public call of stores, the desk and its wire once, by its path, with an answer worked by hand.
use crate::empty_stores::{Fresh, Tables, adopted};
use crate::written_store::WrittenStore;
use sqlite::MemStore;
use std::alloc::Global;
use std::test::Fail;
use upd_compile::CompileFile;
use upd_core::{Change, Library};
use upd_desk::{Arrival, Desk, Reply};
use upd_memory::MirrorStore;
use upd_migrate::migrate;
use upd_rows::{ListStore, RowStore, RunRow, SqlStore, load_rows};
use upd_testkit::applying::{applied, card_ref, name};
use upd_testkit::check::{holds, same, same_text};
use upd_wire::{serve_one, spool};

const DECK: &str = "*DECK A\nONE\n";

/// The compile line of the card A.2: 97 bytes.
const LINE: &str =
    "ONE                                                                              A             2\n";

fn is_text(found: &[u8], wanted: &str) -> Result<(), Fail> {
    same_text("the text", std::str::from_utf8(found)?, wanted)
}

/// The row of run 1 of site LYON.
fn row(alloc: Global) -> Result<RunRow, Fail> {
    Ok(RunRow {
        site: String::from_str(alloc, "LYON")?,
        number: 1,
        mode: 0,
        bytes: Vec::from_slice(alloc, DECK.as_bytes())?,
        accepted: true,
        reply: Vec::from_slice(alloc, b"{}")?,
    })
}

/// Commits the run that introduces deck A, whose key is free.
fn commit_deck<S: RowStore>(alloc: Global, store: &mut S) -> Result<(), Fail> {
    holds("a free key", store.kept_run(alloc, "LYON", 1)?.is_none())?;
    let changes: Vec<Change> = applied(&mut Library::new(alloc), DECK)?.changes;
    Ok(store.commit(alloc, &changes, row(alloc)?)?)
}

/// The number of decks of a load, of a load of deck 1, and of the decks that hold A.2.
fn loads<S: RowStore>(alloc: Global, store: &mut S) -> Result<[usize; 3], Fail> {
    Ok([
        store.load(alloc)?.decks().len(),
        store.load_decks(alloc, &[1])?.decks().len(),
        store.decks_of(alloc, &[card_ref("A.2")?])?.len(),
    ])
}

/// The number of decks with active cards, of all statuses, and of those of A.2, asked 10,001 times. The run commits no
/// status.
fn statuses<S: RowStore>(alloc: Global, store: &mut S) -> Result<[usize; 3], Fail> {
    let cards = vec![in alloc; card_ref("A.2")?; 10_001]?;
    Ok([
        store.load_active(alloc)?.decks.len(),
        store.load_states(alloc)?.states.len(),
        store.states_of(alloc, &cards)?.states.len(),
    ])
}

/// The run is stored with its bytes, until its site settles it.
fn is_settled<S: RowStore>(alloc: Global, store: &mut S) -> Result<(), Fail> {
    let run = store.kept_run(alloc, "LYON", 1)?.ok_or("no run")?;
    is_text(&run.bytes, DECK)?;
    same("the mark", store.mark(alloc, "LYON")?, 0)?;
    same("the mark", store.settle_to(alloc, "LYON", 1)?, 1)?;
    holds("a free key", store.kept_run(alloc, "LYON", 1)?.is_none())
}

/// Each call of a store answers as it should.
fn answers<S: RowStore>(alloc: Global, store: &mut S) -> Result<(), Fail> {
    commit_deck(alloc, store)?;
    same("loads", loads(alloc, store)?, [1, 1, 1])?;
    same("statuses", statuses(alloc, store)?, [1, 0, 0])?;
    is_settled(alloc, store)?;
    same("counts", (store.failures(), store.decks_read()), (0, 2))
}

#[test]
fn stores_over_lists_answer(rt: HostRuntime) -> Result<(), Fail> {
    answers(rt.alloc(), &mut ListStore::new(rt.alloc()))?;
    answers(rt.alloc(), &mut WrittenStore::new(rt.alloc()))
}

#[test]
fn a_store_over_sqlite_answers(rt: HostRuntime) -> Result<(), Fail> {
    let conn = Tables::fresh(rt.alloc())?.into_connection();
    answers(rt.alloc(), &mut adopted(conn)?)
}

#[test]
fn rows_of_a_connection_are_loaded_and_migrated(rt: HostRuntime) -> Result<(), Fail> {
    let mut store: SqlStore<MemStore> = Tables::fresh(rt.alloc())?;
    commit_deck(rt.alloc(), &mut store)?;
    let mut conn = store.into_connection();
    migrate(rt.alloc(), &mut conn)?;
    let library: Library = load_rows(rt.alloc(), &mut conn)?;
    same("cards", library.cards_of(1).len(), 2)
}

/// A run that introduces deck A is accepted.
fn accepts_deck<S: RowStore>(alloc: Global, desk: &mut Desk<S>) -> Result<(), Fail> {
    let reply: Reply = desk.arrive(alloc, "LYON", 1, "quick", DECK.as_bytes())?;
    same("accepted, work", (reply.accepted, desk.work()), (true, 2))?;
    let wanted = "{\"compile\":\"\",\"idents\":[\"A\"],\"lines\":0,\"mode\":\"quick\",\"run\":1,\
\"site\":\"LYON\",\"state\":\"accepted\"}";
    is_text(&reply.text, wanted)
}

/// A desk over lists with deck A.
fn desk(alloc: Global) -> Result<Desk<ListStore>, Fail> {
    let mut desk = Desk::open(ListStore::new(alloc));
    accepts_deck(alloc, &mut desk)?;
    Ok(desk)
}

/// The decks of a desk are compiled and listed.
fn is_written<S: RowStore>(alloc: Global, desk: &mut Desk<S>) -> Result<(), Fail> {
    let file: CompileFile = desk.full_compile(alloc)?;
    same("lines", file.lines, 1)?;
    is_text(&file.bytes, LINE)?;
    is_text(
        &desk.deck_list(alloc, &name("A")?)?,
        "DECK A\nA A.1 *DECK A\nA A.2 ONE\n",
    )?;
    let card = "CARD A.2\nDECK A\nTEXT ONE\nSTATUS active\nENTRY A on\n";
    is_text(&desk.card_list(alloc, card_ref("A.2")?)?, card)?;
    is_text(&desk.ident_list(alloc)?, "1 A deck held\n")?;
    is_text(&desk.yank_list(alloc)?, "")
}

#[test]
fn a_desk_over_rows_in_memory_lists_a_card(rt: HostRuntime) -> Result<(), Fail> {
    let mut store = MirrorStore::new(desk(rt.alloc())?.close());
    store.warm(rt.alloc());
    holds("rows in memory", store.has_rows())?;
    is_written(rt.alloc(), &mut Desk::open(store))
}

/// A site settles its run, and the store that the desk leaves has its mark.
fn is_marked<S: RowStore + Drop>(alloc: Global, mut desk: Desk<S>) -> Result<(), Fail> {
    same("the mark", desk.settle_site(alloc, "LYON", 1)?, 1)?;
    same("the mark", desk.close().mark(alloc, "LYON")?, 1)
}

#[test]
fn a_desk_answers(rt: HostRuntime) -> Result<(), Fail> {
    let mut desk = desk(rt.alloc())?;
    is_written(rt.alloc(), &mut desk)?;
    is_marked(rt.alloc(), desk)
}

/// Run 1 of site PARIS, which is empty.
const EMPTY: Arrival<'static> = Arrival {
    site: "PARIS",
    number: 1,
    mode: "full",
    bytes: b"",
};

#[test]
fn a_list_of_runs_is_answered(rt: HostRuntime) -> Result<(), Fail> {
    let mut desk = Desk::open(ListStore::new(rt.alloc()));
    let answers = desk.run_all(rt.alloc(), &[EMPTY, EMPTY])?;
    let mut accepted: u32 = 0;
    for answer in &answers {
        accepted = accepted.saturating_add(u32::from(answer.is_ok()));
    }
    same("answers, accepted", (answers.len(), accepted), (2, 2))
}

/// A request for the idents is answered.
fn is_served<S: RowStore>(alloc: Global, desk: &mut Desk<S>) -> Result<(), Fail> {
    let mut output = Vec::new(alloc);
    let mut request = b"GET /idents HTTP/1.1\r\n\r\n".as_slice();
    serve_one(alloc, &mut request, &mut output, desk)?;
    let wanted = "HTTP/1.1 200 OK\r\nContent-Type: text/plain\r\nContent-Length: 14\r\n\
Connection: close\r\n\r\n1 A deck held\n";
    is_text(&output, wanted)
}

#[test]
fn a_request_and_a_spool_are_answered(rt: HostRuntime) -> Result<(), Fail> {
    let mut desk = desk(rt.alloc())?;
    is_served(rt.alloc(), &mut desk)?;
    let mut frames = b"RUN LYON 2 quick 0\n\n".as_slice();
    let mut output = Vec::new(rt.alloc());
    let frames = spool(rt.alloc(), &mut frames, &mut output, &mut desk)?;
    same("frames", frames, 1)
}
