//! Older files, statement by statement, and what their tables hold after a migration. Rule 10.60.
use crate::table_rows::table_rows;
use sqlite::{Alter, Connection};
use std::alloc::Global;
use std::test::Fail;
use upd_testkit::check::{holds, same_text};

/// The tables that each schema has.
const FIRST_TABLES: [&str; 6] = [
    "CREATE TABLE meta (k TEXT NOT NULL, v INT NOT NULL, PRIMARY KEY (k)) STRICT",
    "CREATE TABLE idents (age INT NOT NULL, name TEXT NOT NULL, kind INT NOT NULL, noprop INT NOT NULL, held \
INT NOT NULL, PRIMARY KEY (age)) STRICT",
    "CREATE TABLE cards (ident TEXT NOT NULL, num INT NOT NULL, deck INT NOT NULL, pos INT NOT NULL, body TEXT \
NOT NULL, PRIMARY KEY (ident, num)) STRICT",
    "CREATE TABLE entries (ident TEXT NOT NULL, num INT NOT NULL, ord INT NOT NULL, who INT NOT NULL, active \
INT NOT NULL, PRIMARY KEY (ident, num, ord)) STRICT",
    "CREATE TABLE targets (ident TEXT NOT NULL, num INT NOT NULL, ord INT NOT NULL, kind INT NOT NULL, target \
INT NOT NULL, deck INT NOT NULL, PRIMARY KEY (ident, num, ord)) STRICT",
    "CREATE TABLE runs (site TEXT NOT NULL, num INT NOT NULL, mode INT NOT NULL, body BLOB NOT NULL, accepted \
INT NOT NULL, reply BLOB NOT NULL, PRIMARY KEY (site, num)) STRICT",
];

/// What the second schema has besides.
const SECOND_TABLES: [&str; 2] = [
    "CREATE TABLE states (ident TEXT NOT NULL, num INT NOT NULL, active INT NOT NULL, PRIMARY KEY (ident, num)) STRICT",
    "CREATE TABLE counts (kind INT NOT NULL, target INT NOT NULL, deck INT NOT NULL, n INT NOT NULL, PRIMARY \
KEY (kind, target, deck)) STRICT",
];

/// Deck A; X deletes a card of it and inserts one; Y yanks X; Z yanks Y; W deletes the card of Z.
const FIRST_ROWS: [&str; 6] = [
    "INSERT INTO meta (k, v) VALUES ('version', 1)",
    "INSERT INTO idents (age, name, kind, noprop, held) VALUES (1, 'A', 1, 0, 1), (2, 'X', 0, 0, 1), (3, 'Y', \
0, 0, 1), (4, 'Z', 0, 0, 1), (5, 'W', 0, 0, 1)",
    "INSERT INTO cards (ident, num, deck, pos, body) VALUES ('A', 1, 1, 0, '*DECK A'), ('A', 2, 1, 1, 'ONE'), \
('X', 1, 1, 2, 'NEW'), ('A', 3, 1, 3, 'TWO'), ('A', 4, 1, 4, 'THREE'), ('Y', 1, 0, 0, '*YANK X'), ('Z', 1, 0, \
1, '*YANK Y')",
    "INSERT INTO entries (ident, num, ord, who, active) VALUES ('A', 1, 0, 1, 1), ('A', 2, 0, 1, 1), ('A', 2, \
1, 2, 0), ('X', 1, 0, 2, 1), ('A', 3, 0, 1, 1), ('A', 4, 0, 1, 1), ('Y', 1, 0, 3, 1), ('Z', 1, 0, 4, 1), ('Z', \
1, 1, 5, 0)",
    "INSERT INTO targets (ident, num, ord, kind, target, deck) VALUES ('Y', 1, 0, 0, 2, 0), ('Z', 1, 0, 0, 3, 0)",
    "INSERT INTO runs (site, num, mode, body, accepted, reply) VALUES ('LYON', 1, 1, \
x'2a4445434b20410a4f4e450a54574f0a54485245450a', 1, x'6b6570742031'), ('LYON', 6, 0, x'2a4944454e5420580a', 0, \
x'6b6570742036')",
];

/// Deck A; X deletes a card of it and inserts one; Y yanks X; X is purged, comes again and deletes another card.
const SECOND_ROWS: [&str; 8] = [
    "INSERT INTO meta (k, v) VALUES ('version', 2)",
    "INSERT INTO idents (age, name, kind, noprop, held) VALUES (1, 'A', 1, 0, 1), (2, 'X', 0, 0, 0), (3, 'Y', \
0, 0, 1), (4, 'X', 0, 0, 1)",
    "INSERT INTO cards (ident, num, deck, pos, body) VALUES ('A', 1, 1, 0, '*DECK A'), ('A', 2, 1, 1, 'ONE'), \
('A', 3, 1, 2, 'TWO'), ('A', 4, 1, 3, 'THREE'), ('Y', 1, 0, 0, '*YANK X')",
    "INSERT INTO entries (ident, num, ord, who, active) VALUES ('A', 1, 0, 1, 1), ('A', 2, 0, 1, 1), ('A', 3, \
0, 1, 1), ('A', 3, 1, 4, 0), ('A', 4, 0, 1, 1), ('Y', 1, 0, 3, 1)",
    "INSERT INTO targets (ident, num, ord, kind, target, deck) VALUES ('Y', 1, 0, 0, 2, 0)",
    "INSERT INTO runs (site, num, mode, body, accepted, reply) VALUES ('LYON', 1, 1, \
x'2a4445434b20410a4f4e450a54574f0a54485245450a', 1, x'6b6570742031'), ('LYON', 6, 0, x'2a4944454e5420580a', 0, \
x'6b6570742036')",
    "INSERT INTO states (ident, num, active) VALUES ('A', 1, 1), ('A', 2, 1), ('A', 3, 0), ('A', 4, 1), ('Y', 1, 1)",
    "INSERT INTO counts (kind, target, deck, n) VALUES (0, 2, 0, 1)",
];

/// Their rows as text: the cards, the entries and idents, the statuses, and the targets.
const FIRST_TEXTS: [&str; 4] = [
    "cards|'A'|1|1|0|'*DECK A'\ncards|'A'|2|1|1|'ONE'\ncards|'A'|3|1|3|'TWO'\ncards|'A'|4|1|4|'THREE'\n\
cards|'X'|1|1|2|'NEW'\ncards|'Y'|1|0|0|'*YANK X'\ncards|'Z'|1|0|1|'*YANK Y'\n",
    "entries|'A'|1|0|1|1\nentries|'A'|2|0|1|1\nentries|'A'|2|1|2|0\nentries|'A'|3|0|1|1\nentries|'A'|4|0|1|1\n\
entries|'X'|1|0|2|1\nentries|'Y'|1|0|3|1\nentries|'Z'|1|0|4|1\nentries|'Z'|1|1|5|0\n\
idents|1|'A'|1|0|1\nidents|2|'X'|0|0|1\nidents|3|'Y'|0|0|1\nidents|4|'Z'|0|0|1\nidents|5|'W'|0|0|1\n",
    "states|'A'|1|1\nstates|'A'|2|1\nstates|'A'|3|1\nstates|'A'|4|1\nstates|'X'|1|0\nstates|'Y'|1|1\nstates|'Z'|1|0\n",
    "targets|'Y'|1|0|0|2|0\ntargets|'Z'|1|0|0|3|0\n",
];

const SECOND_TEXTS: [&str; 4] = [
    "cards|'A'|1|1|0|'*DECK A'\ncards|'A'|2|1|1|'ONE'\ncards|'A'|3|1|2|'TWO'\ncards|'A'|4|1|3|'THREE'\n\
cards|'Y'|1|0|0|'*YANK X'\n",
    "entries|'A'|1|0|1|1\nentries|'A'|2|0|1|1\nentries|'A'|3|0|1|1\nentries|'A'|3|1|4|0\nentries|'A'|4|0|1|1\n\
entries|'Y'|1|0|3|1\n\
idents|1|'A'|1|0|1\nidents|2|'X'|0|0|0\nidents|3|'Y'|0|0|1\nidents|4|'X'|0|0|1\n",
    "states|'A'|1|1\nstates|'A'|2|1\nstates|'A'|3|0\nstates|'A'|4|1\nstates|'Y'|1|1\n",
    "targets|'Y'|1|0|0|2|0\n",
];

const RUNS: &str =
    "runs|'LYON'|1|1|x'*DECK A\nONE\nTWO\nTHREE\n'|1|x'kept 1'\nruns|'LYON'|6|0|x'*IDENT X\n'|0|x'kept 6'\n";

/// X is yanked by one live card.
const COUNTS: &str = "counts|0|2|0|1\n";

/// An older file: how it is made, and its tables as text.
#[derive(Clone, Copy, Debug)]
pub enum Older {
    First,
    Second,
}

impl Older {
    /// The version of its schema.
    pub fn version(self) -> u32 {
        match self {
            Older::First => 1,
            Older::Second => 2,
        }
    }

    /// Makes the file's tables and rows.
    pub fn make<S: Alter>(self, conn: &mut Connection<S>) -> Result<(), Fail> {
        run_all(conn, &FIRST_TABLES)?;
        match self {
            Older::First => run_all(conn, &FIRST_ROWS),
            Older::Second => {
                run_all(conn, &SECOND_TABLES)?;
                run_all(conn, &SECOND_ROWS)
            }
        }
    }

    /// Its tables in a schema of this version.
    fn tables(self, alloc: Global, version: u32) -> Result<String, Fail> {
        let [cards, entries, states, targets] = match self {
            Older::First => FIRST_TEXTS,
            Older::Second => SECOND_TEXTS,
        };
        let (counts, lacking, states) = match version {
            1 => ("", "no counts\nno settled\nno states\n", ""),
            2 => (COUNTS, "no settled\n", states),
            _ => (COUNTS, "", states),
        };
        Ok(format!(in alloc;
            "{cards}{counts}{entries}meta|'version'|{version}\n{lacking}{RUNS}{states}{targets}"
        )?)
    }

    /// A connection has its tables, in a schema of this version.
    pub fn has<S: Alter>(
        self,
        alloc: Global,
        conn: &mut Connection<S>,
        version: u32,
    ) -> Result<(), Fail> {
        let found = table_rows(alloc, conn)?;
        same_text((self, version), &found, &self.tables(alloc, version)?)
    }

    /// A connection has its tables, as they are or after a migration.
    pub fn is_either<S: Alter>(self, alloc: Global, conn: &mut Connection<S>) -> Result<(), Fail> {
        let found = table_rows(alloc, conn)?;
        let is_before = found == self.tables(alloc, self.version())?;
        let is_after = found == self.tables(alloc, 3)?;
        holds(found.as_str(), is_before || is_after)
    }
}

fn run_all<S: Alter>(conn: &mut Connection<S>, texts: &[&str]) -> Result<(), Fail> {
    for text in texts {
        conn.execute(text, &[])?;
    }
    Ok(())
}
