//! Commands for edited texts and for whoever keeps a library.
ghost use Rattle.std.specs.Prelude.{◌≡◌, fold, take};
ghost use Rattle.upd_words.specs.Words.{app_with, upd_app, upd_commands, with_row};

use crate::app::{CommandRow, DECK, FILE, MODE, NUMBER, Operand, SINCE, SITE};
use clap::builder::ValueParser;

const COPY: Operand = (
    "COPY",
    "the file to be made, which must not exist",
    ValueParser::String,
);

const SET: Operand = (
    "SET",
    "the name of a new correction set",
    ValueParser::String,
);

/// Commands for edited texts, and for runs that are tried first or may meet others, which come third.
pub(crate) fn correcting_commands() -> &'static [CommandRow]
    ensures { fold with_row (app_with (take 17 upd_commands)) result.now ≡ app_with (take 23 upd_commands) }
{
    CORRECTING
}

const CORRECTING: &[CommandRow] = &[
    CommandRow {
        name: "correct",
        about: "Writes the run that corrects decks to the edited text on standard input",
        more: "\
Reads one or more decks as `upd text` writes them, edited, and writes a run: `*IDENT SET` and the
corrections that lead each deck to exactly this text. A deck that isn't in the library is added.
Cards that stay aren't touched, nor are inactive cards. Where nothing differs the run has no lines.
Changes nothing: send the run with `upd run`.

FILE can also be a deck's listing, as `upd list` writes it and GET /decks/DECK answers it. Then only
that deck can be edited.

A text is refused where no run could lead to it. Each problem is one line on standard error, with the
line and column of the text, as `LineLong 7:81 a line has at most 80 bytes`. Other faults, and a text
of more than 4050000 bytes, are one line too.

Exit status: 0 done; 1 the text is refused; 2 the command line can't be read; 3 out of memory, or the
library, a read or a write failed.

Example, after `upd init library.db`:
  printf '*DECK A\\nONE\\n' | upd run library.db LYON 1 full
  upd text library.db A | sed 's/ONE/TWO/' | upd correct library.db FIX > fix.run
  upd run library.db LYON 2 full < fix.run",
        operands: &[FILE, SET],
    },
    CommandRow {
        name: "correct-at",
        about: "Writes the run that does what an edit did of a text that `upd text-at` wrote",
        more: "\
Reads a text as `upd correct` does, that was taken when the ident SINCE was the youngest, and writes
the run by SET that does what was edited. What came later is left alone, and a later deck is refused.
Changes nothing: send the run with `upd run`.

Exit status: 0 done; 1 the text is refused, or SINCE is not a name or no ident; 2 the command line
can't be read; 3 out of memory, or the library, a read or a write failed.

Example, after `upd init library.db`:
  printf '*DECK A\\nONE\\n' | upd run library.db LYON 1 full
  upd text library.db A | sed 's/ONE/TWO/' | upd correct-at library.db FIX A > fix.run",
        operands: &[FILE, SET, SINCE],
    },
    CommandRow {
        name: "correct-parts",
        about: "Writes the spool of runs that correct decks to the edited text on standard input",
        more: "\
Reads a text as `upd correct` does, and writes frames for `upd spool`. Where one run is enough, there
is one frame; a longer edit is cut into runs that lead to the text one after the other. Their sets
are SET1, SET2 and so on, their numbers NUMBER, NUMBER+1 and so on. Where nothing differs there is no
frame. Changes nothing: send the frames in order, with no other run between them.

A text is refused as by `upd correct`, and nothing is written then.

Exit status: 0 done; 1 the text is refused, or SITE, MODE or a number is not valid; 2 the command line
can't be read; 3 out of memory, or the library, a read or a write failed.

Example, after `upd init library.db`:
  printf '*DECK A\\nONE\\n' | upd run library.db LYON 1 full
  upd text library.db A | sed 's/ONE/TWO/' | upd correct-parts library.db FIX LYON 2 full > fix.spool
  upd spool library.db < fix.spool",
        operands: &[FILE, SET, SITE, NUMBER, MODE],
    },
    CommandRow {
        name: "try",
        about: "Writes the reply that the run on standard input would get now, and stores nothing",
        more: "\
Reads a run of at most 65536 bytes and writes the reply that `upd run` would write, a line of JSON,
but for the site and the number: they are TRY and 1. Changes nothing, and no number is used.

Warnings follow on standard error, a line each, with the number of the line of the run: comments,
which are dropped, text that may be meant for a directive, a card that is off already, a range of
more than 20 cards, a yank or purge that younger sets stand on. They don't change the exit status.

Exit status: 0 the run would be accepted; 1 refused; 2 the command line can't be read; 3 out of
memory, or the library, a read or a write failed. A refusal is a line of JSON on standard output;
any other fault is one line on standard error.

Example, after `upd init library.db`:
  printf '*DECK A\\nONE\\n' | upd try library.db full",
        operands: &[FILE, MODE],
    },
    CommandRow {
        name: "try-at",
        about: "Does what `try` does, and warns where the run meets what others have done after SINCE",
        more: "\
Reads and writes as `upd try` does. SINCE is the youngest ident that the author of the run has seen:
of a site's stored runs the last name that `upd runs` has. Each line of the run has a warning, a
conflict, that meets a later ident: where one has put in, switched or yanked a card that the line
names, one of its range, or the next one beside these.

Exit status: 0 the run would be accepted; 1 refused, or SINCE is not a name or no ident; 2 the command
line can't be read; 3 out of memory, or the library, a read or a write failed.

Example, after `upd init library.db`:
  printf '*DECK A\\nONE\\n' | upd run library.db LYON 1 full
  printf '*IDENT B\\n*DELETE A.2\\n' | upd try-at library.db full A",
        operands: &[FILE, MODE, SINCE],
    },
    CommandRow {
        name: "run-at",
        about: "Does what `run` does, where no line of the run meets what others have done after SINCE",
        more: "\
Reads and writes as `upd run` does, if `upd try-at` would warn of no conflict: that a line meets an
ident younger than SINCE. Else nothing is stored, the number stays free, and the conflicts are lines
on standard error, as `upd try-at` writes them. A number that is stored gets its first reply,
whatever came since.

Exit status: 0 accepted; 1 refused, stopped by conflicts, or NUMBER or SINCE is not valid, or SINCE is
no ident; 2 the command line can't be read; 3 out of memory, or the library, a read or a write failed.

Example, after `upd init library.db`:
  printf '*DECK A\\nONE\\n' | upd run library.db LYON 1 full
  printf '*IDENT B\\n*DELETE A.2\\n' | upd run-at library.db LYON 2 full A",
        operands: &[FILE, SITE, NUMBER, MODE, SINCE],
    },
];

/// The source of a deck, and commands for whoever keeps a library, which come last.
pub(crate) fn keeping_commands() -> &'static [CommandRow]
    ensures { fold with_row (app_with (take 23 upd_commands)) result.now ≡ upd_app }
{
    KEEPING
}

const KEEPING: &[CommandRow] = &[
    CommandRow {
        name: "source",
        about: "Writes the compile file of one deck",
        more: "\
Reads nothing, and writes lines of 97 bytes: the deck's active cards, with its calls followed.
Changes nothing. The compile file of a common deck has no lines.

Exit status: 0 done; 1 DECK is not a name, there is no such deck, a call can't be followed, or the
file would be too long; 2 the command line can't be read; 3 out of memory, or the library or a write
failed. The fault is one line on standard error.

Example, after `upd init library.db`:
  printf '*DECK A\\nONE\\n' | upd run library.db LYON 1 full
  upd source library.db A",
        operands: &[FILE, DECK],
    },
    CommandRow {
        name: "runs",
        about: "Lists the stored runs, by site and number",
        more: "\
Reads nothing, and writes a line for each stored run: the site, the number, the mode, and `accepted`
with the idents that the run introduced, or the name of its refusal; then ` # ` and its message,
where its first line is a comment, as `*/ mend the tables`. Changes nothing. A settled run is no
longer stored.

Exit status: 0 done; 2 the command line can't be read; 3 out of memory, or the library or a write
failed. The fault is one line on standard error.

Example, after `upd init library.db`:
  printf '*DECK A\\nONE\\n' | upd run library.db LYON 1 full
  upd runs library.db",
        operands: &[FILE],
    },
    CommandRow {
        name: "sites",
        about: "Lists the sites, each with its settled mark and its next number",
        more: "\
Reads nothing, and writes a line for each site that has a stored run or has settled: the site, its
settled mark or 0, its greatest number, the next one that is free, and how many bytes its stored
runs and their replies have. Changes nothing.

Exit status: 0 done; 2 the command line can't be read; 3 out of memory, or the library or a write
failed. The fault is one line on standard error.

Example, after `upd init library.db`:
  printf '*DECK A\\nONE\\n' | upd run library.db LYON 1 full
  upd sites library.db",
        operands: &[FILE],
    },
    CommandRow {
        name: "backup",
        about: "Makes a whole copy of a library's file",
        more: "\
Copies the library in FILE, with what is still in the log beside it, to the new file COPY: a library by
itself. COPY must not exist, nor COPY-wal, COPY-journal or COPY.part. The library stays, and no other
command may have it open. Nothing is read from standard input or written to standard output.

Exit status: 0 done; 2 the command line can't be read; 3 COPY exists or can't be made, out of memory,
or the library failed. The fault is one line on standard error.

Example, after `upd init library.db`:
  upd backup library.db copy.db",
        operands: &[FILE, COPY],
    },
    CommandRow {
        name: "compact",
        about: "Makes a library anew in another file, with the same rows and no free space",
        more: "\
Reads the library in FILE, and makes one with the same rows in the new file COPY, as `upd init` makes
it: its pages have sums, so that a changed byte is noticed. The rows of both are compared first. COPY
must not exist, nor COPY-wal, COPY-journal or COPY.part. The library stays, and no other command may
have it open. Nothing is read from standard input or written to standard output.

Exit status: 0 done; 2 the command line can't be read; 3 COPY exists or can't be made, out of memory,
or the library failed. The fault is one line on standard error.

Example, after `upd init library.db`:
  upd compact library.db small.db",
        operands: &[FILE, COPY],
    },
    CommandRow {
        name: "examine",
        about: "Says what is at a path, and whether it is a sound library",
        more: "\
Reads nothing. FILE can be anything. Where it is a library whose rows are sound, writes a line with the
numbers of its decks, cards and stored runs, and of the bytes of their replies and of the file. Else
standard error says what there is and what to do, or what is wrong with the rows, a line each, at most
100. Changes nothing; an empty log may be left beside a database. No other command may have FILE open.

Exit status: 0 a sound library; 1 a library that is not sound; 2 the command line can't be read; 3 no
library that can be read, out of memory, or the library or a write failed.

Example, after `upd init library.db`:
  upd examine library.db",
        operands: &[FILE],
    },
    CommandRow {
        name: "replay",
        about: "Hands the stored runs in again, at an empty library, and compares",
        more: "\
Reads nothing. The stored runs are handed in at an empty library in memory, in the order in which they
were stored. Where each reply and all rows are those of FILE, writes a line with the number of runs.
Else standard error says in a line which run or table differs first. Changes nothing; an empty log may
be left beside FILE. Where a site has settled runs, nothing can be compared.

A library that was migrated may have refusals by older rules: it differs at the first of them.

Exit status: 0 the same library; 1 another one, or runs are settled; 2 the command line can't be read;
3 out of memory, or the library or a write failed.

Example, after `upd init library.db`:
  printf '*DECK A\\nONE\\n' | upd run library.db LYON 1 full
  upd replay library.db",
        operands: &[FILE],
    },
    CommandRow {
        name: "migrate",
        about: "Migrates the file of an older schema to the present schema",
        more: "\
Reads and writes nothing. A file of the present schema is left as it is.

Exit status: 0 done; 2 the command line can't be read; 3 FILE is not a library of a known schema, out
of memory, or the library failed. The fault is one line on standard error.

Example:
  upd migrate library.db",
        operands: &[FILE],
    },
    CommandRow {
        name: "explain",
        about: "Explains a fault: what it means, where it comes from, and what to do",
        more: "\
Reads nothing, and writes three lines. FAULT is a fault's name or its number.

Exit status: 0 done; 1 no fault has this name or number: BadName, and then all faults; 2 the command
line can't be read; 3 out of memory, or a write failed. The fault is one line on standard error.

Example:
  upd explain Store",
        operands: &[(
            "FAULT",
            "the name or the number of a fault",
            ValueParser::String,
        )],
    },
];
