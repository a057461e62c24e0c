//! What is said of faults: the limits of `docs/rules.md` and `docs/protocol.md`, and what to do. Rule 10.75.

use std::test::Fail;
use upd_testkit::check::holds;
use upd_views::explain;

/// The number of a fault, and what its text has.
const SAID: &[(&str, &str)] = &[
    ("1", "RunLong (1): the run has more than 65,536 bytes\n"),
    ("1", "do: cut it in two\n"),
    ("2", "TooManyLines (2): the run has more than 2,000 lines\n"),
    ("2", "do: cut it in two;"),
    ("3", "from: reading the run; at the line\n"),
    (
        "3",
        "do: remove UTF-8, form feeds and CRs that no LF follows\n",
    ),
    (
        "4",
        "LineLong (4): the line has more than 80 bytes without its trailing blanks\n",
    ),
    ("4", "do: break the line\n"),
    (
        "5",
        "from: reading the run, at the line; or a question, at 0\n",
    ),
    ("6", "do: write the name, a point and the number, as A.2\n"),
    ("8", "do: put *IDENT NAME before it;"),
    (
        "9",
        "do: put *DECK, *INSERT or another directive before it;",
    ),
    ("10", "do: choose another name\n"),
    ("11", "do: look at upd idents;"),
    ("12", "do: look at upd idents;"),
    ("13", "do: look at upd list;"),
    (
        "14",
        "do: name the earlier one first, and both in one deck\n",
    ),
    ("15", "do: leave the deck's first card out;"),
    ("16", "do: leave YANK$$$ out\n"),
    ("17", "do: yank only what is older than the set\n"),
    ("18", "do: leave YANK$$$ out\n"),
    ("19", "do: purge what is no longer needed;"),
    ("20", "do: add the common deck, or delete the call\n"),
    ("21", "CallDepth (21): calls are more than 8 deep\n"),
    (
        "22",
        "CompileLong (22): more than 10,000 lines, or more than 10,000 calls followed\n",
    ),
    ("22", "from: the compile file; at 0\n"),
    ("22", "do: use quick or normal, which write fewer decks;"),
    ("23", "BadSite (23): the site isn't 1 to 8 of A-Z and 0-9\n"),
    ("24", "BadNumber (24): the number isn't 1 to 999,999,999\n"),
    ("25", "BadMode (25): the mode isn't full, quick or normal\n"),
    ("26", "then send the rest under a new number\n"),
    ("27", "do: take a greater number for a new run;"),
    ("28", "do: send it again\n"),
    ("29", "do: let upd examine FILE say which of these it is,"),
    ("30", "do: correct it, and send it again\n"),
    ("31", "do: send all of it again\n"),
    (
        "32",
        "from: the input, or a server; at 0, in a spool at the frame\n",
    ),
    ("33", "do: send the run again for its reply,"),
];

#[test]
fn faults_are_explained_by_the_limits(rt: HostRuntime) -> Result<(), Fail> {
    for (number, said) in SAID {
        let text = explain(number.as_bytes()).ok_or("no text")?;
        holds(said, text.contains(said))?;
    }
    Ok(())
}
