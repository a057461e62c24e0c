//! The limits of runs, of libraries and of compile files.

/// The longest run, in bytes.
pub const MAX_RUN_BYTES: usize = 65_536;

/// The most lines of a run, comments included.
pub const MAX_RUN_LINES: usize = 2_000;

/// The longest line, in bytes, trailing blanks not counted.
pub const MAX_LINE_BYTES: usize = 80;

/// The longest name, in bytes.
pub const MAX_NAME_BYTES: usize = 9;

/// The most digits of a card's number in a card reference.
pub const MAX_NUMBER_DIGITS: usize = 6;

/// The most idents held at the same time.
pub const MAX_HELD: usize = 4_096;

/// The most idents ever introduced.
pub const MAX_INTRODUCED: usize = 65_536;

/// The most cards in a library, those of `YANK$$$` included.
pub const MAX_CARDS: usize = 50_000;

/// The most history entries in a library.
pub const MAX_ENTRIES: usize = 200_000;

/// The most targets on the yank cards of a library.
pub const MAX_TARGETS: usize = 100_000;

/// The most lines of a compile file.
pub const MAX_COMPILE_LINES: usize = 10_000;

/// The most calls that a compile file follows.
pub const MAX_CALLS: usize = 10_000;

/// How deep calls go: a call in a chosen deck has depth 1.
pub const MAX_DEPTH: usize = 8;
