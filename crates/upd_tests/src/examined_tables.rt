//! The rows of a small library, sound as they are, and what is found in rows.
//!
//! The library has deck A with two cards and deck B with one, both held; set S, whose yank card S.1 takes deck B; and a
//! deck C that was purged. Its site has two stored runs, and settled those before.
use std::alloc::Global;
use std::test::Fail;
use upd_core::{Entry, Ident, Kind, Serial, States, Target};
use upd_examine::findings;
use upd_records::{CardRow, EntryRow, LibraryRows, MarkRow, RunRow, TargetRow};
use upd_testkit::applying::{card_ref, name};

/// A name, its serial and kind, and whether the ident is held.
pub type IdentText = (&'static str, Serial, Kind, bool);

/// A card, its deck, its place there, and its text.
pub type CardText = (&'static str, Serial, u32, &'static [u8]);

/// A card, the ordinal of the entry, and the ident that switched the card on.
pub type EntryText = (&'static str, u32, Serial);

/// A number, the mode, whether the run was accepted, and its reply.
pub type RunText = (u64, u32, bool, &'static [u8]);

/// All rows of a table, as constants.
#[derive(Clone, Copy)]
pub enum Rows {
    Idents(&'static [IdentText]),
    Cards(&'static [CardText]),
    Entries(&'static [EntryText]),
    Targets(&'static [(&'static str, Target)]),
    States(&'static [(&'static str, bool)]),
    Counts(&'static [(Target, u32)]),
    Runs(&'static [RunText]),
    Marks(&'static [(&'static str, u64)]),
}

pub const DECK_A: IdentText = ("A", 1, Kind::Deck, true);

pub const DECK_B: IdentText = ("B", 2, Kind::Deck, true);

pub const DECK_C: IdentText = ("C", 3, Kind::Deck, false);

pub const SET_S: IdentText = ("S", 4, Kind::Set, true);

pub const S_1: CardText = ("S.1", 0, 0, b"*YANK B");

pub const A_1: CardText = ("A.1", 1, 0, b"*DECK A");

pub const A_2: CardText = ("A.2", 1, 1, b"ONE");

pub const B_1: CardText = ("B.1", 2, 0, b"*DECK B");

pub const RUN_6: RunText = (
    6,
    1,
    true,
    b"{\"compile\":\"\",\"idents\":[\"A\"],\"lines\":0,\"mode\":\"quick\",\"run\":6,\"site\":\"SITEA\",\"state\":\"accepted\"}",
);

pub const REFUSED: &[u8] =
    b"{\"at\":1,\"fault\":13,\"mode\":\"quick\",\"name\":\"CardUnknown\",\"run\":7,\"site\":\"SITEA\",\"state\":\"refused\"}";

/// The rows of the library.
const SOUND: [Rows; 8] = [
    Rows::Idents(&[DECK_A, DECK_B, DECK_C, SET_S]),
    Rows::Cards(&[S_1, A_1, A_2, B_1]),
    Rows::Entries(&[("A.1", 0, 1), ("A.2", 0, 1), ("B.1", 0, 2), ("S.1", 0, 4)]),
    Rows::Targets(&[("S.1", Target::Deck(2))]),
    Rows::States(&[("A.1", true), ("A.2", true), ("B.1", false), ("S.1", true)]),
    Rows::Counts(&[(Target::Deck(2), 1)]),
    Rows::Runs(&[RUN_6, (7, 1, false, REFUSED)]),
    Rows::Marks(&[("SITEA", 5)]),
];

/// All tables.
#[derive(Drop)]
struct Tables {
    library: LibraryRows,
    states: States,
    runs: Vec<RunRow>,
    marks: Vec<MarkRow>,
}

fn no_rows(alloc: Global) -> Tables {
    Tables {
        library: LibraryRows {
            idents: Vec::new(alloc),
            cards: Vec::new(alloc),
            entries: Vec::new(alloc),
            targets: Vec::new(alloc),
        },
        states: States {
            states: Vec::new(alloc),
            counts: Vec::new(alloc),
        },
        runs: Vec::new(alloc),
        marks: Vec::new(alloc),
    }
}

fn put_idents(idents: &mut Vec<Ident>, rows: &[IdentText]) -> Result<(), Fail> {
    idents.clear();
    for (text, age, kind, held) in rows {
        idents.push(Ident {
            name: name(text)?,
            age: *age,
            kind: *kind,
            noprop: false,
            held: *held,
        })?;
    }
    Ok(())
}

fn put_cards(alloc: Global, cards: &mut Vec<CardRow>, rows: &[CardText]) -> Result<(), Fail> {
    cards.clear();
    for (card, deck, pos, text) in rows {
        cards.push(CardRow {
            card: card_ref(card)?,
            deck: *deck,
            pos: *pos,
            body: Vec::from_slice(alloc, text)?,
        })?;
    }
    Ok(())
}

fn put_entries(entries: &mut Vec<EntryRow>, rows: &[EntryText]) -> Result<(), Fail> {
    entries.clear();
    for (card, ord, ident) in rows {
        entries.push(EntryRow {
            card: card_ref(card)?,
            ord: *ord,
            entry: Entry {
                ident: *ident,
                active: true,
            },
        })?;
    }
    Ok(())
}

fn put_targets(targets: &mut Vec<TargetRow>, rows: &[(&str, Target)]) -> Result<(), Fail> {
    targets.clear();
    for (card, target) in rows {
        targets.push(TargetRow {
            card: card_ref(card)?,
            ord: 0,
            target: *target,
        })?;
    }
    Ok(())
}

fn put_states(states: &mut States, rows: &[(&str, bool)]) -> Result<(), Fail> {
    states.states.clear();
    for (card, active) in rows {
        states.states.push((card_ref(card)?, *active))?;
    }
    Ok(())
}

fn put_counts(states: &mut States, rows: &[(Target, u32)]) -> Result<(), Fail> {
    states.counts.clear();
    Ok(states.counts.extend_from_slice(rows)?)
}

pub fn put_runs(alloc: Global, runs: &mut Vec<RunRow>, rows: &[RunText]) -> Result<(), Fail> {
    runs.clear();
    for (number, mode, accepted, reply) in rows {
        runs.push(RunRow {
            site: String::from_str(alloc, "SITEA")?,
            number: *number,
            mode: *mode,
            bytes: Vec::from_slice(alloc, b"*DECK A\n")?,
            accepted: *accepted,
            reply: Vec::from_slice(alloc, reply)?,
        })?;
    }
    Ok(())
}

fn put_marks(alloc: Global, marks: &mut Vec<MarkRow>, rows: &[(&str, u64)]) -> Result<(), Fail> {
    marks.clear();
    for (site, mark) in rows {
        marks.push(MarkRow {
            site: String::from_str(alloc, site)?,
            mark: *mark,
        })?;
    }
    Ok(())
}

/// The rows of a table are these only.
fn put(alloc: Global, tables: &mut Tables, rows: Rows) -> Result<(), Fail> {
    match rows {
        Rows::Idents(rows) => put_idents(&mut tables.library.idents, rows),
        Rows::Cards(rows) => put_cards(alloc, &mut tables.library.cards, rows),
        Rows::Entries(rows) => put_entries(&mut tables.library.entries, rows),
        Rows::Targets(rows) => put_targets(&mut tables.library.targets, rows),
        Rows::States(rows) => put_states(&mut tables.states, rows),
        Rows::Counts(rows) => put_counts(&mut tables.states, rows),
        Rows::Runs(rows) => put_runs(alloc, &mut tables.runs, rows),
        Rows::Marks(rows) => put_marks(alloc, &mut tables.marks, rows),
    }
}

fn put_all(alloc: Global, tables: &mut Tables, all: &[Rows]) -> Result<(), Fail> {
    for rows in all {
        put(alloc, tables, *rows)?;
    }
    Ok(())
}

fn found_in(alloc: Global, tables: &Tables) -> Result<String, Fail> {
    let (library, states) = (&tables.library, &tables.states);
    let found = findings(alloc, library, states, &tables.runs, &tables.marks)?;
    Ok(String::from_utf8(found)?)
}

/// The findings in the library where some of its tables have these rows.
pub fn found(alloc: Global, changed: &[Rows]) -> Result<String, Fail> {
    let mut tables = no_rows(alloc);
    put_all(alloc, &mut tables, &SOUND)?;
    put_all(alloc, &mut tables, changed)?;
    found_in(alloc, &tables)
}
