//! The SQL texts. Each is a fixed string; `specs/` and `proofs/` cite it by its name.

// The tables, in the order in which they are made.
pub(crate) const CREATE_META: &str =
    "CREATE TABLE meta (k TEXT NOT NULL, v INT NOT NULL, PRIMARY KEY (k)) STRICT";

pub(crate) const CREATE_IDENTS: &str = "\
    CREATE TABLE idents (age INT NOT NULL, name TEXT NOT NULL, kind INT NOT NULL, noprop INT NOT NULL, \
    held INT NOT NULL, PRIMARY KEY (age)) STRICT";

pub(crate) const CREATE_CARDS: &str = "\
    CREATE TABLE cards (ident TEXT NOT NULL, num INT NOT NULL, deck INT NOT NULL, pos INT NOT NULL, \
    body TEXT NOT NULL, PRIMARY KEY (ident, num)) STRICT";

pub(crate) const CREATE_ENTRIES: &str = "\
    CREATE TABLE entries (ident TEXT NOT NULL, num INT NOT NULL, ord INT NOT NULL, who INT NOT NULL, \
    active INT NOT NULL, PRIMARY KEY (ident, num, ord)) STRICT";

pub(crate) const CREATE_TARGETS: &str = "\
    CREATE TABLE targets (ident TEXT NOT NULL, num INT NOT NULL, ord INT NOT NULL, kind INT NOT NULL, \
    target INT NOT NULL, deck INT NOT NULL, PRIMARY KEY (ident, num, ord)) STRICT";

pub(crate) const CREATE_RUNS: &str = "\
    CREATE TABLE runs (site TEXT NOT NULL, num INT NOT NULL, mode INT NOT NULL, body BLOB NOT NULL, \
    accepted INT NOT NULL, reply BLOB NOT NULL, PRIMARY KEY (site, num)) STRICT";

/// The table of statuses.
pub const CREATE_STATES: &str = "\
    CREATE TABLE states (ident TEXT NOT NULL, num INT NOT NULL, active INT NOT NULL, \
    PRIMARY KEY (ident, num)) STRICT";

/// The table of counts.
pub const CREATE_COUNTS: &str = "\
    CREATE TABLE counts (kind INT NOT NULL, target INT NOT NULL, deck INT NOT NULL, n INT NOT NULL, \
    PRIMARY KEY (kind, target, deck)) STRICT";

/// The table of settled marks.
pub const CREATE_SETTLED: &str =
    "CREATE TABLE settled (site TEXT NOT NULL, mark INT NOT NULL, PRIMARY KEY (site)) STRICT";

// One row more.
pub(crate) const INSERT_VERSION: &str = "INSERT INTO meta (k, v) VALUES ('version', 3)";

pub(crate) const INSERT_IDENT: &str =
    "INSERT INTO idents (age, name, kind, noprop, held) VALUES (?1, ?2, ?3, ?4, ?5)";

pub(crate) const INSERT_CARD: &str =
    "INSERT INTO cards (ident, num, deck, pos, body) VALUES (?1, ?2, ?3, ?4, ?5)";

pub(crate) const INSERT_ENTRY: &str =
    "INSERT INTO entries (ident, num, ord, who, active) VALUES (?1, ?2, ?3, ?4, ?5)";

pub(crate) const INSERT_TARGET: &str =
    "INSERT INTO targets (ident, num, ord, kind, target, deck) VALUES (?1, ?2, ?3, ?4, ?5, ?6)";

pub(crate) const INSERT_RUN: &str =
    "INSERT INTO runs (site, num, mode, body, accepted, reply) VALUES (?1, ?2, ?3, ?4, ?5, ?6)";

pub(crate) const INSERT_STATE: &str = "INSERT INTO states (ident, num, active) VALUES (?1, ?2, ?3)";

pub(crate) const INSERT_COUNT: &str =
    "INSERT INTO counts (kind, target, deck, n) VALUES (?1, ?2, ?3, ?4)";

pub(crate) const INSERT_MARK: &str = "INSERT INTO settled (site, mark) VALUES (?1, ?2)";

// Rows removed.
pub(crate) const DELETE_CARDS: &str =
    "DELETE FROM cards WHERE ident = ?1 AND num >= ?2 AND num <= ?3";

pub(crate) const DELETE_ENTRIES: &str =
    "DELETE FROM entries WHERE ident = ?1 AND num >= ?2 AND num <= ?3";

pub(crate) const DELETE_TARGETS: &str =
    "DELETE FROM targets WHERE ident = ?1 AND num >= ?2 AND num <= ?3";

pub(crate) const DELETE_STATES: &str =
    "DELETE FROM states WHERE ident = ?1 AND num >= ?2 AND num <= ?3";

pub(crate) const DELETE_COUNT: &str =
    "DELETE FROM counts WHERE kind = ?1 AND target = ?2 AND deck = ?3";

pub(crate) const DELETE_MARK: &str = "DELETE FROM settled WHERE site = ?1";

pub(crate) const DELETE_RUNS: &str = "DELETE FROM runs WHERE site = ?1 AND num <= ?2";

// Rows changed in place.
pub(crate) const PURGE_IDENT: &str = "UPDATE idents SET held = 0 WHERE age = ?1";

pub(crate) const UPDATE_STATE: &str = "UPDATE states SET active = ?3 WHERE ident = ?1 AND num = ?2";

pub(crate) const MOVE_BACK: &str = "UPDATE cards SET pos = pos + ?3 WHERE deck = ?1 AND pos >= ?2";

pub(crate) const MOVE_BACK_OF: &str =
    "UPDATE cards SET pos = pos + ?5 WHERE ident = ?1 AND num >= ?2 AND deck = ?3 AND pos >= ?4";

pub(crate) const MOVE_UP: &str = "UPDATE cards SET pos = pos - ?3 WHERE deck = ?1 AND pos >= ?2";

// Rows read.
pub(crate) const ALL_IDENTS: &str = "SELECT age, name, kind, noprop, held FROM idents";

pub(crate) const ALL_CARDS: &str = "SELECT ident, num, deck, pos, body FROM cards";

pub(crate) const ENTRIES_AT: &str =
    "SELECT ident, num, ord, who, active FROM entries WHERE ord = ?1";

pub(crate) const ENTRIES_FROM: &str =
    "SELECT ident, num, ord, who, active FROM entries WHERE ord >= ?1";

pub(crate) const ALL_TARGETS: &str = "SELECT ident, num, ord, kind, target, deck FROM targets";

pub(crate) const ALL_STATES: &str = "SELECT ident, num, active FROM states";

pub(crate) const ALL_COUNTS: &str = "SELECT kind, target, deck, n FROM counts";

pub(crate) const RUNS_IN_TURN: &str =
    "SELECT site, num, mode, body, accepted, reply FROM runs ORDER BY rowid";

pub(crate) const MARKS_IN_TURN: &str = "SELECT site, mark FROM settled ORDER BY rowid";

pub(crate) const RUN_OF_KEY: &str =
    "SELECT site, num, mode, body, accepted, reply FROM runs WHERE site = ?1 AND num = ?2 ORDER BY rowid";

pub(crate) const MARK_OF_SITE: &str =
    "SELECT site, mark FROM settled WHERE site = ?1 ORDER BY rowid";
