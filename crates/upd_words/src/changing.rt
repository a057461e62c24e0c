//! Commands that make a library and send runs to it.
ghost use Rattle.std.specs.Prelude.{◌≡◌, fold, take};
ghost use Rattle.upd_words.specs.Words.{app_with, upd_commands, upd_top, with_row};

use crate::app::{CommandRow, FILE, MODE, NUMBER, Operand, SITE};
use clap::builder::ValueParser;

/// How many connections a command may serve.
const COUNT: Operand = (
    "COUNT",
    "how many connections are served, 1 to 1000000",
    ValueParser::Unsigned(1, 1_000_000),
);

/// Commands that make a library and send runs to it: the first of the program.
pub(crate) fn changing_commands() -> &'static [CommandRow]
    ensures { fold with_row upd_top result.now ≡ app_with (take 7 upd_commands) }
{
    CHANGING
}

const CHANGING: &[CommandRow] = &[
    CommandRow {
        name: "trial",
        about: "Applies the run on standard input to an empty library and writes its compile file",
        more: "\
Reads a run of at most 65536 bytes and writes the compile file, in lines of 97 bytes. Stores nothing.

Exit status: 0 done; 1 the run is refused; 2 the command line can't be read; 3 out of memory, or a
read or a write failed. The fault is one line on standard error.

Example:
  printf '*DECK A\\nONE\\n' | upd trial full",
        operands: &[MODE],
    },
    CommandRow {
        name: "init",
        about: "Makes an empty library in a file",
        more: "\
Reads and writes nothing. FILE is made if it doesn't exist; a file that has tables is left as it is,
and so is a log FILE-wal with commits whose file was moved away.

Exit status: 0 done; 2 the command line can't be read; 3 FILE has tables or such a log, or can't be
made, or out of memory. The fault is one line on standard error.

Example:
  upd init library.db",
        operands: &[FILE],
    },
    CommandRow {
        name: "run",
        about: "Sends the run on standard input to a library under a site's number, and writes the reply",
        more: "\
Reads a run of at most 65536 bytes and writes the reply, a line of JSON. The same run under the same
number gets its first reply again and changes nothing: send a run until it is answered.

Exit status: 0 accepted; 1 refused, or NUMBER is not valid; 2 the command line can't be read; 3 out
of memory, or the library, a read or a write failed. A refusal is a line of JSON on standard output;
any other fault is one line on standard error.

Example, after `upd init library.db`:
  printf '*DECK A\\nONE\\n' | upd run library.db LYON 1 full",
        operands: &[FILE, SITE, NUMBER, MODE],
    },
    CommandRow {
        name: "settle",
        about: "Settles a site's runs up to a number: their replies are removed, the numbers refused from then on",
        more: "\
Reads nothing and writes the site's mark, the greatest number that it settled, as a line of JSON.
A mark never goes down, so a NUMBER that is too great can't be taken back.

Exit status: 0 done; 1 SITE or NUMBER is not valid; 2 the command line can't be read; 3 out of
memory, or the library or a write failed. The fault is one line on standard error.

Example, after `upd init library.db`:
  upd settle library.db LYON 7",
        operands: &[FILE, SITE, NUMBER],
    },
    CommandRow {
        name: "spool",
        about: "Sends the runs of a spool on standard input to a library, and writes a line for each",
        more: "\
Reads frames: each is a header `RUN site number mode length`, `length` bytes of a run, and a line
end. Writes each frame's reply, or the fault that refused it, before it reads the next frame.

Exit status: 0 all frames are answered, whatever the answers say; 1 the input is not a spool, or
ends inside a frame; 2 the command line can't be read; 3 out of memory, or the library, a read or a
write failed. The fault that ended it is one line on standard error, with the number of its frame:
send the spool again from the start.

Example, after `upd init library.db`:
  printf 'RUN LYON 1 full 12\\n*DECK A\\nONE\\n\\n' | upd spool library.db",
        operands: &[FILE],
    },
    CommandRow {
        name: "serve",
        about: "Serves COUNT HTTP connections to a library, one after the other, one request each",
        more: "\
Reads and writes only connections, but for standard error: one line once clients can connect, as
`upd: listening on 127.0.0.1:8080`, and one for each connection that has ended, as
`upd: GET /idents - - 200 ok 92 98 1ms`. With port 0 the system chooses a port, and the line has it.

A client that is idle for 4 seconds, or takes more than 30, gets no complete answer. After an
answer the next client is served when this one closes its connection or is idle for a second, or
for 4 where its request may not have been read to its end.

Exit status: 0 done; 2 the command line can't be read, or ADDRESS or COUNT is not valid; 3 out of
memory, the library failed, the address can't be bound, or no connection can be accepted a hundred
times in a row. The fault is one line on standard error.

Example, after `upd init library.db`:
  upd serve library.db 127.0.0.1:8080 1 &
  curl --silent --retry 3 --retry-connrefused http://127.0.0.1:8080/idents",
        operands: &[
            FILE,
            (
                "ADDRESS",
                "an IP address and a port, as 127.0.0.1:8080",
                ValueParser::String,
            ),
            COUNT,
        ],
    },
    CommandRow {
        name: "serve-local",
        about: "Does what `serve` does, on a Unix socket that only its owner can use",
        more: "\
Reads, writes and ends as `serve` does, but listens on a Unix socket of mode 0600 at PATH: no other
user but root can connect. PATH has at most 100 bytes. A socket there that nobody serves is replaced;
anything else there is left as it is. The socket stays when the command has ended.

Exit status: 0 done; 2 the command line can't be read, or COUNT is not valid; 3 as of `serve`, or
the socket can't be made: a line on standard error says why, before the one of the fault.

Example, after `upd init library.db`:
  upd serve-local library.db desk.socket 1 & sleep 1
  curl --silent --unix-socket desk.socket http://desk/idents",
        operands: &[
            FILE,
            (
                "PATH",
                "where the socket is made, at most 100 bytes",
                ValueParser::String,
            ),
            COUNT,
        ],
    },
];
