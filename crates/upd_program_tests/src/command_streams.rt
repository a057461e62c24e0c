//! Whole command lines over readers and writers in memory.
use crate::console::{answers, ask, begins, contains, is_answer};
use std::io;
use std::io::ErrorKind;
use std::test::Fail;
use upd_cli::report_words;
use upd_testkit::check::same;
use upd_testkit::fake_streams::{Endless, Pieces};

const INSERTION: &str = "*DECK A\nONE\nTWO\nTHREE\n*IDENT X\n*INSERT A.2\nNEW\n";

const FULL: &[&str] = &["trial", "full"];

#[test]
fn a_run_that_is_too_long_is_not_read_to_its_end(rt: HostRuntime) -> Result<(), Fail> {
    let mut input = Endless { given: 0 };
    let found = ask(&rt, FULL, &mut input)?;
    is_answer(&found, (1, "", "upd: RunLong (1) at 0\n"))?;
    same("bytes", input.given, 65_537)
}

/// A run ends where its read number `fails_at` fails in this way.
fn ends(rt: &HostRuntime, fails_at: usize, kind: ErrorKind) -> Result<(), Fail> {
    let mut run = Pieces::failing(INSERTION.as_bytes(), 1, fails_at, kind);
    is_answer(&ask(rt, FULL, &mut run)?, (3, "", "upd: Read (32) at 0\n"))
}

/// A read that is out of memory is a failed read as any other: the first, one within the run, and its last.
#[test]
fn a_failed_read_ends_the_run(rt: HostRuntime) -> Result<(), Fail> {
    for fails_at in [1, 20, INSERTION.len()] {
        ends(&rt, fails_at, ErrorKind::Other)?;
        ends(&rt, fails_at, ErrorKind::OutOfMemory)?;
    }
    Ok(())
}

const ABOUT_ALL: &str =
    "Keeps a library of program source in a file, and changes it by runs from many sites\n";

/// Each command, and how its help begins.
const ABOUT: &[(&str, &str)] = &[
    ("init", "Makes an empty library"),
    ("run", "Sends the run on standard input"),
    ("settle", "Settles a site's runs"),
    ("spool", "Sends the runs of a spool"),
    ("serve", "Serves COUNT HTTP connections"),
    ("serve-local", "Does what `serve` does"),
    ("compile", "Writes the compile file"),
    ("list", "Lists the cards of a deck"),
    ("history", "Lists what is known of a card"),
    ("blame", "Lists the cards of a deck with who"),
    ("show", "Shows what a deck or"),
    ("idents", "Lists all decks and"),
    ("yanks", "Lists the yank cards"),
    ("page", "Writes the library as one page"),
    ("text", "Writes the active cards of a deck"),
    ("text-at", "Writes the text of a deck as it was"),
    ("correct", "Writes the run that corrects decks"),
    ("correct-at", "Writes the run that does what an edit"),
    ("correct-parts", "Writes the spool of runs that correct"),
    ("try", "Writes the reply that the run"),
    ("try-at", "Does what `try` does, and warns"),
    ("run-at", "Does what `run` does, where no line"),
    ("source", "Writes the compile file of one"),
    ("runs", "Lists the stored runs"),
    ("sites", "Lists the sites"),
    ("backup", "Makes a whole copy"),
    ("compact", "Makes a library anew"),
    ("examine", "Says what is at a path"),
    ("replay", "Hands the stored runs"),
    ("migrate", "Migrates the file of an older"),
    ("explain", "Explains a fault"),
];

/// `help` and these words write what the words of the option write, which begins like this.
fn is_help(rt: &HostRuntime, words: &[&str], option: &[&str], front: &str) -> Result<(), Fail> {
    let wanted = ask(rt, option, &mut b"".as_slice())?;
    begins(&wanted, (0, front, ""))?;
    let text = std::str::from_utf8(&wanted.output)?;
    answers(rt, words, "", (0, text, ""))
}

#[test]
fn each_command_has_its_own_help(rt: HostRuntime) -> Result<(), Fail> {
    is_help(&rt, &["help"], &["--help"], ABOUT_ALL)?;
    for (name, front) in ABOUT {
        is_help(&rt, &["help", *name], &[*name, "--help"], front)?;
    }
    Ok(())
}

/// A command line and a run, the exit status, and what is written on the output and on the fault stream.
type Case = (
    &'static [&'static str],
    &'static str,
    u8,
    &'static str,
    &'static str,
);

#[test]
fn command_lines_are_answered(rt: HostRuntime) -> Result<(), Fail> {
    const INSERTED: &str = "\
ONE                                                                              A             2
NEW                                                                              X             1
TWO                                                                              A             3
THREE                                                                            A             4
";
    const CYCLE: &str = "*COMDECK C\n*CALL C\n*DECK A\n*CALL C\n";
    const TRIAL_HELP: &str = "\
Applies the run on standard input to an empty library and writes its compile file

Usage: upd trial <MODE>

Arguments:
  <MODE>  full, quick or normal

Options:
  -h, --help  Print help

Reads a run of at most 65536 bytes and writes the compile file, in lines of 97 bytes. Stores nothing.

Exit status: 0 done; 1 the run is refused; 2 the command line can't be read; 3 out of memory, or a
read or a write failed. The fault is one line on standard error.

Example:
  printf '*DECK A\\nONE\\n' | upd trial full
";
    const NO_MODE: &str = "\
error: the following required arguments were not provided:
  <MODE>

Usage: upd trial <MODE>

For more information, try '--help'.
";
    const ONE_MORE: &str = "\
error: unexpected argument 'A' found

Usage: upd trial <MODE>

For more information, try '--help'.
";
    const MISSPELT: &str = "\
error: unrecognized subcommand 'trail'

  tip: some similar subcommands exist: 'try-at', 'trial'

Usage: upd <COMMAND>

For more information, try '--help'.
";
    const NORMAL: &[&str] = &["trial", "normal"];
    const QUICK: &[&str] = &["trial", "quick"];
    /// Runs give compile files or refusals, words that ask for a text have it on the output, and mistakes are reported
    /// on the fault stream. Rules 10.20 to 10.22, 10.46 and 10.52.
    const CASES: &[Case] = &[
        (FULL, INSERTION, 0, INSERTED, ""),
        (NORMAL, INSERTION, 0, INSERTED, ""),
        (QUICK, INSERTION, 0, "", ""),
        (FULL, "", 0, "", ""),
        (FULL, "HELLO\n", 1, "", "upd: TextNowhere (9) at 1\n"),
        (FULL, "*DECK A\nX\x07\n", 1, "", "upd: BadByte (3) at 2\n"),
        (FULL, CYCLE, 1, "", "upd: CallDepth (21) at 0\n"),
        (QUICK, CYCLE, 0, "", ""),
        (&["--version"], "", 0, "upd 1.0\n", ""),
        (&["trial", "--help"], "", 0, TRIAL_HELP, ""),
        (&["help", "trial"], "", 0, TRIAL_HELP, ""),
        (&["trial"], "", 2, "", NO_MODE),
        (&["trial", "full", "A"], "", 2, "", ONE_MORE),
        (&["trail", "full"], "", 2, "", MISSPELT),
    ];
    for (words, run, status, output, faults) in CASES {
        answers(&rt, words, run, (*status, *output, *faults))?;
    }
    Ok(())
}

#[test]
fn long_answers_begin_as_they_should(rt: HostRuntime) -> Result<(), Fail> {
    const NONSENSE: &str = "error: unrecognized subcommand 'nonsense'\n";
    const NO_COMMAND: &str = "error: 'upd' requires a subcommand but one was not provided\n";
    /// Words without an input, the exit status, and how the text on the output or the fault stream begins.
    const FRONTS: &[(&[&str], u8, &str, &str)] = &[
        (&["help", "nonsense"], 2, "", NONSENSE),
        (&[], 2, "", NO_COMMAND),
    ];
    for (words, status, output, faults) in FRONTS {
        let found = ask(&rt, words, &mut b"".as_slice())?;
        begins(&found, (*status, *output, *faults))?;
    }
    Ok(())
}

#[test]
fn commands_of_git_get_a_hint(rt: HostRuntime) -> Result<(), Fail> {
    /// What a command of git gets beside the mistake.
    const HINTS: &[(&str, &str)] = &[
        ("commit", "\nhint: `upd run` "),
        ("diff", "\nhint: `upd correct FILE SET` "),
        ("log", "\nhint: `upd idents FILE` "),
        ("status", "\nhint: `upd sites FILE` "),
        ("yank", "\nhint: `*YANK SET` "),
    ];
    for (word, hint) in HINTS {
        let found = ask(&rt, &[*word], &mut b"".as_slice())?;
        begins(&found, (2, "", "error: unrecognized subcommand '"))?;
        let found = ask(&rt, &[*word, "--all"], &mut b"".as_slice())?;
        contains(&found, (2, "", *hint))?;
    }
    Ok(())
}

#[test]
fn words_that_cannot_be_read_are_reported(rt: HostRuntime) -> Result<(), Fail> {
    const UNREADABLE: &str = "error: the words of the command line can't be read as text\n";
    /// Errors of the words, the exit status and the line of each.
    const UNREAD: &[(ErrorKind, u8, &str)] = &[
        (ErrorKind::InvalidData, 2, UNREADABLE),
        (ErrorKind::OutOfMemory, 3, "upd: NoMemory (28) at 0\n"),
    ];
    for (kind, status, line) in UNREAD {
        let mut faults = Vec::new(rt.alloc());
        let found = report_words(&io::Error::from(*kind), &mut faults);
        same(*line, found, *status)?;
        same(*line, faults.as_slice(), line.as_bytes())?;
    }
    Ok(())
}
