//! Commands that ask a library: what they ask, and their help.
ghost use Rattle.std.specs.Prelude.{◌≡◌, fold, take};
ghost use Rattle.clap.specs.Words.{found_of, rows_of};
ghost use Rattle.upd_words.specs.Words.{HasQueried, IsOneOf, IsOther, IsRead, app_with, desk_commands, file_commands};
ghost use Rattle.upd_words.specs.Words.{query_name, upd_commands, with_row};

use crate::app::{CommandRow, DECK, FILE, SINCE};
use crate::operands::{card, name};
use clap::ArgMatches;
use clap::builder::ValueParser;
use upd_text::{CardRef, Fault, Name};

/// What a command asks of a library, for a text that is made of it.
#[derive(Drop)]
pub enum Query {
    Compile,
    Deck(Name),
    Card(CardRef),
    Idents,
    Yanks,
    /// What an ident did, and the run that introduced it.
    Show(Name),
    /// The stored runs.
    Runs,
    /// The sites that have a stored run or have settled.
    Sites,
    View(View),
}

/// What a command asks of a whole library.
#[derive(Drop)]
pub enum View {
    /// The cards of a deck, each with who switched it last.
    Blame(Name),
    /// The library as a page of HTML.
    Page,
    /// The active cards of a deck as plain text.
    Text(Name),
    /// That text as it was when an ident was the youngest.
    TextAt { deck: Name, since: Name },
    /// The compile file of a deck alone.
    Source(Name),
}

/// What a command asks of a library.
pub(crate) fn read_query(command: &str, operands: &ArgMatches<'_>) -> Result<Query, Fault>
    requires known { IsOneOf command.now upd_commands }
    requires other { IsOther command.now file_commands }
    requires not_at_desk { IsOther command.now desk_commands }
    ensures { IsRead (λ query. (command.now ≡ query_name query) × HasQueried (rows_of (found_of operands.now)) query)
        (command.now, rows_of (found_of operands.now)) result }
{
    match command {
        "compile" => Ok(Query::Compile),
        "list" => Ok(Query::Deck(name(operands, "DECK")?)),
        "history" => Ok(Query::Card(card(operands)?)),
        "idents" => Ok(Query::Idents),
        "yanks" => Ok(Query::Yanks),
        "blame" => Ok(Query::View(View::Blame(name(operands, "DECK")?))),
        "show" => Ok(Query::Show(name(operands, "IDENT")?)),
        "runs" => Ok(Query::Runs),
        "sites" => Ok(Query::Sites),
        "page" => Ok(Query::View(View::Page)),
        "text" => Ok(Query::View(View::Text(name(operands, "DECK")?))),
        "text-at" => Ok(Query::View(View::TextAt {
            deck: name(operands, "DECK")?,
            since: name(operands, "SINCE")?,
        })),
        _ => Ok(Query::View(View::Source(name(operands, "DECK")?))),
    }
}

/// Commands that ask a library, which come next.
pub(crate) fn querying_commands() -> &'static [CommandRow]
    ensures { fold with_row (app_with (take 7 upd_commands)) result.now ≡ app_with (take 17 upd_commands) }
{
    QUERYING
}

const QUERYING: &[CommandRow] = &[
    CommandRow {
        name: "compile",
        about: "Writes the compile file of all decks that aren't common",
        more: "\
Reads nothing, and writes lines of 97 bytes. Changes nothing.

Exit status: 0 done; 1 a call can't be followed, or the file would be too long; 2 the command line
can't be read; 3 out of memory, or the library or a write failed. The fault is one line on standard
error.

Example, after `upd init library.db`:
  upd compile library.db",
        operands: &[FILE],
    },
    CommandRow {
        name: "list",
        about: "Lists the cards of a deck, active or inactive",
        more: "\
Reads nothing, and writes a line for the deck and a line for each card. Changes nothing.

Exit status: 0 done; 1 DECK is not a name, or there is no such deck; 2 the command line can't be
read; 3 out of memory, or the library or a write failed. The fault is one line on standard error.

Example, after `upd init library.db`:
  printf '*DECK A\\nONE\\n' | upd run library.db LYON 1 full
  upd list library.db A",
        operands: &[
            FILE,
            (
                "DECK",
                "the name of a deck, or YANK$$$",
                ValueParser::String,
            ),
        ],
    },
    CommandRow {
        name: "history",
        about: "Lists what is known of a card: its deck, its text, its status and its history",
        more: "\
Reads nothing, and writes a line for each. Changes nothing.

Exit status: 0 done; 1 CARD is not a card's name, or there is no such card; 2 the command line can't
be read; 3 out of memory, or the library or a write failed. The fault is one line on standard error.

Example, after `upd init library.db`:
  printf '*DECK A\\nONE\\n' | upd run library.db LYON 1 full
  upd history library.db A.2",
        operands: &[FILE, ("CARD", "a card, as A.2", ValueParser::String)],
    },
    CommandRow {
        name: "blame",
        about: "Lists the cards of a deck with who switched each of them last",
        more: "\
Reads nothing, and writes a line for each card: A (active) or I (inactive), the card, the set that
switched it last and isn't yanked, and the text. Changes nothing.

Exit status: 0 done; 1 DECK is not a name, or there is no such deck; 2 the command line can't be
read; 3 out of memory, or the library or a write failed. The fault is one line on standard error.

Example, after `upd init library.db`:
  printf '*DECK A\\nONE\\n' | upd run library.db LYON 1 full
  upd blame library.db A",
        operands: &[FILE, DECK],
    },
    CommandRow {
        name: "show",
        about: "Shows what a deck or a correction set did: its cards, what it switched, what it yanks",
        more: "\
Reads nothing, and writes a line for each card that IDENT added, switched off or on, or yanks with,
and for each live card that yanks it. The last line is the run that added IDENT with its message, as
long as that run is stored and has one. Changes nothing.

Exit status: 0 done; 1 IDENT is not a name, or nothing of this name is held; 2 the command line can't
be read; 3 out of memory, or the library or a write failed. The fault is one line on standard error.

Example, after `upd init library.db`:
  printf '*DECK A\\nONE\\n' | upd run library.db LYON 1 full
  upd show library.db A",
        operands: &[
            FILE,
            (
                "IDENT",
                "the name of a deck or a correction set",
                ValueParser::String,
            ),
        ],
    },
    CommandRow {
        name: "idents",
        about: "Lists all decks and correction sets, the oldest first, purged ones included",
        more: "\
Reads nothing, and writes a line for each. Changes nothing.

Exit status: 0 done; 2 the command line can't be read; 3 out of memory, or the library or a write
failed. The fault is one line on standard error.

Example, after `upd init library.db`:
  upd idents library.db",
        operands: &[FILE],
    },
    CommandRow {
        name: "yanks",
        about: "Lists the yank cards, live or dead, with what each of them yanks",
        more: "\
Reads nothing, and writes a line for each card and for each of its targets. Changes nothing.

Exit status: 0 done; 2 the command line can't be read; 3 out of memory, or the library or a write
failed. The fault is one line on standard error.

Example, after `upd init library.db`:
  upd yanks library.db",
        operands: &[FILE],
    },
    CommandRow {
        name: "page",
        about: "Writes the library as one page for a browser",
        more: "\
Reads nothing, and writes HTML that stands alone: the directory, the decks with their cards, each
card's history at a click, and the yanks. There is no script in it. Changes nothing.

Exit status: 0 done; 2 the command line can't be read; 3 out of memory, or the library or a write
failed. The fault is one line on standard error.

Example, after `upd init library.db`:
  upd page library.db > library.html",
        operands: &[FILE],
    },
    CommandRow {
        name: "text",
        about: "Writes the active cards of a deck as plain text, to be edited",
        more: "\
Reads nothing, and writes a line for each active card, the deck's first line included; calls stay
calls. Changes nothing. What it writes is what `upd correct` takes once it is edited, and, without
calls and in at most 2,000 lines, a run that adds the deck to an empty library.

Exit status: 0 done; 1 DECK is not a name, or there is no such deck; 2 the command line can't be
read; 3 out of memory, or the library or a write failed. The fault is one line on standard error.

Example, after `upd init library.db`:
  printf '*DECK A\\nONE\\n' | upd run library.db LYON 1 full
  upd text library.db A",
        operands: &[FILE, DECK],
    },
    CommandRow {
        name: "text-at",
        about: "Writes the text of a deck as it was when the ident SINCE was the youngest",
        more: "\
Reads nothing, and writes what `upd text` writes, as if all younger idents were yanked. What was
purged since is missing. Changes nothing. The last held ident of `upd idents` is the youngest.

Exit status: 0 done; 1 DECK or SINCE is not a name, or there is no such deck or ident; 2 the command
line can't be read; 3 out of memory, or the library or a write failed.

Example, after `upd init library.db`:
  printf '*DECK A\\nONE\\n' | upd run library.db LYON 1 full
  upd text-at library.db A A",
        operands: &[FILE, DECK, SINCE],
    },
];
