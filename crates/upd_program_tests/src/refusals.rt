//! What is refused, in which order, and on which stream. Rules 10.47 to 10.52.
use crate::console::{answers, answers_of, ask, fresh, is_answer, is_gone, remove};
use crate::file_sessions::{NO_LIBRARY, SILENT, Step, Wanted, has_bytes, session_without_file};
use std::fs;
use std::io::ErrorKind;
use std::test::Fail;
use upd_testkit::fake_streams::Pieces;

#[test]
fn operands_are_checked_before_the_file(rt: HostRuntime) -> Result<(), Fail> {
    /// The words of a command line after its name and file, and the fault on the fault stream, with status 1.
    const OPERANDS: &[(&str, &[&str], &str)] = &[
        ("run", &["LYON", "01", "full"], "BadNumber (24)"),
        ("run", &["LYON", "+1", "full"], "BadNumber (24)"),
        ("run", &["LYON", "1000000000", "full"], "BadNumber (24)"),
        ("settle", &["LYON", "x"], "BadNumber (24)"),
        ("list", &["a"], "BadName (5)"),
        ("text", &["a"], "BadName (5)"),
        ("text-at", &["a", "A"], "BadName (5)"),
        ("correct-at", &["X", "a"], "BadName (5)"),
        ("try-at", &["full", "a"], "BadName (5)"),
        ("source", &["a"], "BadName (5)"),
        ("history", &["A"], "BadCard (6)"),
    ];
    let file = fresh(&rt, "operands")?;
    for (name, words, wanted) in OPERANDS {
        let line = format!(in rt.alloc(); "upd: {wanted} at 0\n")?;
        answers_of(&rt, &file, name, words, "", (1, "", &line))?;
    }
    is_gone(&rt, &file)
}

const LYON: &[&str] = &["LYON", "1", "full"];

/// A command's name, and the words after its file.
pub type Command = (&'static str, &'static [&'static str]);

/// A command for each way in which the file of a library is opened. A copy has no folder, so that none is made.
pub const WAYS: &[Command] = &[
    ("run", LYON),
    ("settle", &["LYON", "1"]),
    ("idents", &[]),
    ("backup", &["upd-no-folder/copy.db"]),
    ("replay", &[]),
    ("migrate", &[]),
];

/// The commands that need a library.
pub const COMMANDS: &[Command] = &[
    ("run", LYON),
    ("run-at", &["LYON", "1", "full", "A"]),
    ("settle", &["LYON", "1"]),
    ("spool", &[]),
    ("serve", &["127.0.0.1:0", "1"]),
    ("serve-local", &["upd.socket", "1"]),
    ("compile", &[]),
    ("list", &["A"]),
    ("history", &["A.2"]),
    ("blame", &["A"]),
    ("show", &["X"]),
    ("idents", &[]),
    ("yanks", &[]),
    ("page", &[]),
    ("runs", &[]),
    ("sites", &[]),
    ("text", &["A"]),
    ("text-at", &["A", "A"]),
    ("correct", &["Z"]),
    ("correct-at", &["Z", "A"]),
    ("correct-parts", &["Z", "LYON", "5", "full"]),
    ("try", &["full"]),
    ("try-at", &["full", "A"]),
    ("source", &["A"]),
    ("backup", &["upd-no-folder/copy.db"]),
    ("compact", &["upd-no-folder/copy.db"]),
    ("replay", &[]),
    ("migrate", &[]),
];

/// A command line whose input can't be read has this line on the fault stream, with status 3.
fn fails_unread(rt: &HostRuntime, words: &[&str], line: &str) -> Result<(), Fail> {
    let found = ask(rt, words, &mut Pieces::failing(b"", 1, 1, ErrorKind::Other))?;
    is_answer(&found, (3, "", line))
}

#[test]
fn a_missing_file_is_reported_before_the_run_is_read(rt: HostRuntime) -> Result<(), Fail> {
    let file = fresh(&rt, "unheard")?;
    let words = ["run", &file, "LYON", "1", "full"];
    fails_unread(&rt, &words, "upd: Store (29) at 0\n")?;
    answers(&rt, &["init", &file], "", SILENT)?;
    fails_unread(&rt, &words, "upd: Read (32) at 0\n")?;
    remove(&rt, &file)
}

#[test]
fn another_file_is_refused_and_stays(rt: HostRuntime) -> Result<(), Fail> {
    /// `correct` takes such a file for a listing.
    const NEITHER: &str =
        "NotListing 1:1 FILE is not a library, and this line of it is not one of a deck's listing\n";
    const TEXT: &[u8] = b"SQLite format 2\0 is how this text begins, which is not a library\n";
    let file = fresh(&rt, "text")?;
    fs::write(&rt, file.as_str(), TEXT)?;
    for (name, words) in COMMANDS {
        let wanted = match *name {
            "correct" => (1, "", NEITHER),
            _ => NO_LIBRARY,
        };
        answers_of(&rt, &file, name, words, "", wanted)?;
    }
    is_gone(&rt, &format!(in rt.alloc(); "{file}-wal")?)?;
    answers(&rt, &["init", &file], "", NO_LIBRARY)?;
    has_bytes(&rt, &file, TEXT)?;
    remove(&rt, &file)
}

#[test]
fn refusals_are_reported(rt: HostRuntime) -> Result<(), Fail> {
    const OTHER: Wanted<'static> = (3, "", "upd: Store (29) at 2\n");
    const BAD_SITE: &str = "{\"at\":0,\"fault\":23,\"name\":\"BadSite\"}\n";
    const BAD_MODE: &str = "{\"at\":0,\"fault\":25,\"name\":\"BadMode\"}\n";
    const RUN_LONG: &str = "{\"at\":0,\"fault\":1,\"name\":\"RunLong\"}\n";
    const NO_DECK: Wanted<'static> = (1, "", "upd: DeckUnknown (12) at 0\n");
    const NO_CARD: Wanted<'static> = (1, "", "upd: CardUnknown (13) at 0\n");
    const NO_SITE: Wanted<'static> = (1, "", "upd: BadSite (23) at 0\n");
    const STEPS: &[Step<'_>] = &[
        Step::NoFile("a missing file is refused and not made (rule 10.48.1)"),
        Step::AllAnswer(NO_LIBRARY),
        Step::IsGone,
        Step::New(
            "a run is refused by admission checks, or as too long, on the output (rule 10.50)",
        ),
        Step::Answers("run", &["lyon", "1", "full"], "", (1, BAD_SITE, "")),
        Step::Answers("run", &["LYON", "1", "slow"], "", (1, BAD_MODE, "")),
        Step::AnswersLong("run", LYON, ("", "T", 65_537), (1, RUN_LONG, "")),
        Step::Shows("a query of an unknown name is refused (rule 10.51.1)"),
        Step::Answers("list", &["NOPE"], "", NO_DECK),
        Step::Answers("history", &["A.2"], "", NO_CARD),
        Step::Answers("settle", &["lyon", "1"], "", NO_SITE),
        Step::Shows(
            "another version is refused at it, though it is only in the log (rule 10.48.1)",
        ),
        Step::Logs("UPDATE meta SET v = 2"),
        Step::WaysAnswer(OTHER),
        Step::Answers("init", &[], "", OTHER),
    ];
    session_without_file(&rt, "refused", STEPS)
}

#[test]
fn an_address_or_a_count_that_is_not_valid_is_a_mistake(rt: HostRuntime) -> Result<(), Fail> {
    const ADDRESS: &str = "'localhost' for '<ADDRESS>': no IP address and port";
    const NONE: &str = "'0' for '<COUNT>': 0 is not in 1..=1000000";
    const GREAT: &str = "'1000001' for '<COUNT>': 1000001 is not in 1..=1000000";
    const WORD: &str = "'many' for '<COUNT>': invalid digit found in string";
    /// The words after `serve FILE`, and what is said on the fault stream between the same words.
    const UNREAD: &[(&[&str], &str)] = &[
        (&["localhost", "1"], ADDRESS),
        (&["localhost", "0"], NONE),
        (&["127.0.0.1:0", "0"], NONE),
        (&["127.0.0.1:0", "1000001"], GREAT),
        (&["127.0.0.1:0", "many"], WORD),
    ];
    let file = fresh(&rt, "unread")?;
    for (words, wanted) in UNREAD {
        let lines = format!(in rt.alloc();
            "error: invalid value {wanted}\n\nFor more information, try '--help'.\n"
        )?;
        answers_of(&rt, &file, "serve", words, "", (2, "", &lines))?;
    }
    is_gone(&rt, &file)
}
