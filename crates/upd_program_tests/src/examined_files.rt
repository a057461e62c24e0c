//! What is said of a path that is examined, whatever is there. Rules 10.87 to 10.91.
use crate::console::{fresh, is_gone, library, remove};
use crate::file_sessions::{Step, session_without_file, stays, take_all};
use crate::lone_logs::logged;
use crate::site_commands::{NO_MARKS, SECOND_SCHEMA};
use std::fs;
use std::os::unix::fs::symlink;
use std::test::Fail;
use upd_keep::Situation;

const EMPTY_LINE: &str = "sound: decks 0, cards 0, runs 0, replies 0";

const IS_EMPTY: Step<'static> = Step::IsSound(EMPTY_LINE, false);

const LOGGED: Step<'static> = Step::Logs("INSERT INTO settled (site, mark) VALUES ('LYON', 3)");

const LOG_LINES: &str = "\
log: keep FILE-wal with the file, it may have commits that the file lacks
sound: decks 0, cards 0, runs 0, replies 0";

#[test]
fn libraries_are_examined(rt: HostRuntime) -> Result<(), Fail> {
    const STATUS_LINES: &str = "\
states A.2 (active) is not stored, and the library has it
states A.2 (not active) is stored, and the library does not have it
";
    const MARK_ONE: &str = "INSERT INTO settled (site, mark) VALUES ('LYON', 1)";
    const LOGGED_LINES: &str = "\
log: keep FILE-wal with the file, it may have commits that the file lacks
runs LYON 1 is at or below the mark 1
";
    const OFF: &str =
        "DELETE FROM settled; UPDATE states SET active = 0 WHERE ident = 'A' AND num = 2";
    /// What is found in a library, and what the command writes of it.
    const LIBRARIES: &[Step<'_>] = &[
        Step::New("a sound library is counted (rule 10.89.2)"),
        IS_EMPTY,
        Step::Sends(&[
            ("1", "full", "*DECK A\nONE\n*IDENT X\n*INSERT A.1\nTWO\n"),
            ("2", "full", "*COMDECK B\nONE\n"),
        ]),
        Step::IsSound("sound: decks 2, cards 5, runs 2, replies 584", false),
        Step::Shows("findings follow the line of a log (rules 10.90 and 10.91)"),
        Step::Logs(MARK_ONE),
        Step::Answers("examine", &[], "", (1, "", LOGGED_LINES)),
        Step::Shows("a status changed by hand is found (rule 10.90)"),
        Step::Changes(OFF),
        Step::Answers("examine", &[], "", (1, "", STATUS_LINES)),
    ];
    session_without_file(&rt, "examined-libraries", LIBRARIES)
}

#[test]
fn other_files_are_named(rt: HostRuntime) -> Result<(), Fail> {
    const NO_FILE_LINE: &str =
        "upd: there is no such file: check the path; `upd init` makes a library\n";
    const OLDER_LINE: &str = "upd: a library of an older schema: copy it, then `upd migrate`\n";
    const UNREADABLE_LINE: &str =
        "upd: a library with a row that upd can't read, or a damaged one: restore a backup\n";
    /// A database with none of a library's tables.
    const OTHER: &str =
        "DROP TABLE meta; DROP TABLE idents; DROP TABLE cards; DROP TABLE entries; DROP TABLE targets; \
DROP TABLE states; DROP TABLE counts; DROP TABLE runs; DROP TABLE settled; \
CREATE TABLE note (id INTEGER PRIMARY KEY) STRICT";
    const OTHER_TABLE: &str =
        "DELETE FROM meta WHERE k = 'x'; CREATE TABLE other (k INTEGER PRIMARY KEY) STRICT";
    /// Files that are no library of the current schema.
    const OTHERS: &[Step<'_>] = &[
        Step::NoFile("the command writes what was found (rule 10.88)"),
        Step::Answers("examine", &[], "", (3, "", NO_FILE_LINE)),
        Step::NoFile("what is no database is named (rule 10.88)"),
        Step::File("an empty file", b""),
        Step::Is(Situation::Empty),
        Step::File("a short text", b"*DECK A\n"),
        Step::Is(Situation::NotSqlite),
        Step::File("a long text", b"*DECK A\nLONGER THAN A HEADER\n"),
        Step::Is(Situation::NotSqlite),
        Step::New("a newer schema that is only in the log is named (rules 10.88 and 10.91)"),
        Step::Logs("UPDATE meta SET v = 12"),
        Step::Is(Situation::NewerSchema),
        Step::Answers("migrate", &[], "", (3, "", "upd: Store (29) at 12\n")),
        Step::Shows("a row beside the version is found (rule 10.88)"),
        Step::Changes("UPDATE meta SET v = 3; INSERT INTO meta (k, v) VALUES ('x', 1)"),
        Step::Answers("examine", &[], "", (3, "", UNREADABLE_LINE)),
        Step::Shows("another table is found (rule 10.88)"),
        Step::Changes(OTHER_TABLE),
        Step::Is(Situation::OtherTables),
        Step::New("an older schema is named (rule 10.88)"),
        NO_MARKS,
        SECOND_SCHEMA,
        Step::Answers("examine", &[], "", (3, "", OLDER_LINE)),
        Step::New("another database is named (rule 10.88)"),
        Step::Changes(OTHER),
        Step::Is(Situation::NotLibrary),
    ];
    session_without_file(&rt, "examined-others", OTHERS)?;
    take_all(&rt, "/dev/null", &[Step::Is(Situation::NotRegular)])
}

/// The size, the log and the first bytes are those of the file, and not of a link to it. No byte changes. Rule 10.88.
#[test]
fn a_file_is_examined_by_a_link(rt: HostRuntime) -> Result<(), Fail> {
    const STEPS: &[Step<'_>] = &[
        Step::Examines(LOG_LINES),
        Step::File("a text beside a log with commits", b"*DECK A\n"),
        Step::Is(Situation::NotSqlite),
        Step::File("an empty file beside a log with commits", b""),
        Step::Is(Situation::LogAlone),
    ];
    let (file, link) = (library(&rt, "pointed-at")?, fresh(&rt, "pointer")?);
    symlink(&rt, file.as_str(), link.as_str())?;
    let beside_link = format!(in rt.alloc(); "{link}-wal")?;
    fs::write(&rt, beside_link.as_str(), &vec![in rt.alloc(); 1u8; 600]?)?;
    stays(&rt, &link, &[IS_EMPTY])?;
    take_all(&rt, &file, &[LOGGED])?;
    take_all(&rt, &link, STEPS)?;
    remove(&rt, &link)?;
    remove(&rt, &file)
}

/// A second name is named before what the file holds, and after a log whose file is empty. Rule 10.88.
#[test]
fn a_second_name_is_named(rt: HostRuntime) -> Result<(), Fail> {
    const LINE: &str =
        "upd: the file has a second name, a hard link: remove that name, or make it a copy\n";
    const STEPS: &[Step<'_>] = &[
        Step::Answers("examine", &[], "", (3, "", LINE)),
        Step::File("a text with a second name", b"*DECK A\n"),
        Step::Is(Situation::SecondName),
        Step::File(
            "an empty file with a second name beside a log with commits",
            b"",
        ),
        Step::Is(Situation::LogAlone),
        Step::LosesLog,
        Step::Is(Situation::SecondName),
    ];
    let (file, name) = (logged(&rt, "bound")?, fresh(&rt, "bound-too")?);
    fs::hard_link(&rt, file.as_str(), name.as_str())?;
    take_all(&rt, &file, STEPS)?;
    remove(&rt, &name)?;
    take_all(&rt, &file, &[Step::Is(Situation::Empty)])?;
    remove(&rt, &file)
}

/// Nothing is made at a path without a file, nor in a folder that is missing, and a folder is named.
#[test]
fn a_path_without_a_file_is_named(rt: HostRuntime) -> Result<(), Fail> {
    let file = fresh(&rt, "named")?;
    take_all(&rt, &file, &[Step::Is(Situation::NoFile)])?;
    let below = format!(in rt.alloc(); "{file}/a.db")?;
    take_all(&rt, &below, &[Step::Is(Situation::NoFile)])?;
    is_gone(&rt, &file)?;
    fs::create_dir(&rt, file.as_str())?;
    take_all(&rt, &file, &[Step::Is(Situation::Folder)])?;
    Ok(fs::remove_dir(&rt, file.as_str())?)
}

/// The second page of a file is overwritten.
fn damage(rt: &HostRuntime, file: &str) -> Result<(), Fail> {
    let mut bytes = fs::read(rt, file)?;
    for byte in bytes.iter_mut().skip(4096).take(512) {
        *byte = 255;
    }
    Ok(fs::write(rt, file, &bytes)?)
}

#[test]
fn a_damaged_page_is_named(rt: HostRuntime) -> Result<(), Fail> {
    const LINES: &str = "\
upd: the file or its log is damaged, or another program wrote to one: copy both; then move away a log of another file, \
restore a backup, or use `sqlite3 COPY .dump`
upd: pages with a wrong sum: 2
";
    const STEPS: &[Step<'_>] = &[Step::Answers("examine", &[], "", (3, "", LINES))];
    let file = library(&rt, "damaged")?;
    damage(&rt, &file)?;
    take_all(&rt, &file, STEPS)?;
    remove(&rt, &file)
}
