//! What is done with a library in a file, step by step, and what each step has to give.
use crate::console::{
    accepts, answers, answers_of, ask_of, fresh, is_gone, library, remove, without_log,
};
use crate::file_changes::{change, change_log};
use crate::refusals::{COMMANDS, Command, WAYS};
use crate::table_rows::has_rows;
use sqlite_disk::Unknown;
use std::alloc::Global;
use std::fs;
use std::test::Fail;
use upd_keep::{Examined, Report, Situation, examine};
use upd_testkit::check::{holds, same, same_text};

/// The exit status, the output, and the text on the fault stream.
pub type Wanted<'a> = (u8, &'a str, &'a str);

/// A command that writes nothing, as it should.
pub const SILENT: Wanted<'static> = (0, "", "");

/// What commands answer where the file can't be read as a library.
pub const NO_LIBRARY: Wanted<'static> = (3, "", "upd: Store (29) at 0\n");

/// A step with the library in a file.
#[derive(Clone, Copy)]
pub enum Step<'a> {
    /// What the next steps show is this. They begin with a new library at the path.
    New(&'a str),
    /// What the next steps show is this. They begin with nothing at the path.
    NoFile(&'a str),
    /// What the next steps show is this. They begin with a file of these bytes, and the log that is there.
    File(&'a str, &'a [u8]),
    /// What the next steps show is this.
    Shows(&'a str),
    /// The file has these bytes.
    Has(&'a [u8]),
    /// No file is at the path.
    IsGone,
    /// The run of LYON with this number arrives in this mode and is accepted.
    Accepts(&'a str, &'a str, &'a str),
    /// Runs of LYON, each with its number and mode, arrive in one spool and are accepted.
    Sends(&'a [(&'a str, &'a str, &'a str)]),
    /// This site settles its runs up to this number, and its mark is this then.
    Settles(&'a str, &'a str, &'a str),
    /// A command, with these words after the file and no input, has this output only.
    Writes(&'a str, &'a [&'a str], &'a str),
    /// A command, with these words after the file and over a text before another that is repeated, has this answer.
    AnswersLong(&'a str, &'a [&'a str], (&'a str, &'a str, usize), Wanted<'a>),
    /// A command, with these words after the file and over this input, has this answer.
    Answers(&'a str, &'a [&'a str], &'a str, Wanted<'a>),
    /// All commands that need a library have this answer.
    AllAnswer(Wanted<'a>),
    /// A command for each way to open a file has this answer.
    WaysAnswer(Wanted<'a>),
    /// A statement changes the tables past the program.
    Changes(&'a str),
    /// A statement changes the tables past the program, and stays in the log.
    Logs(&'a str),
    /// The log is removed, if there is one.
    LosesLog,
    /// The tables have these rows: sorted lines, each with a table and its values.
    HasRows(&'a str),
    /// The library is sound when examined: its line up to the size of the file, and whether its log has frames.
    IsSound(&'a str, bool),
    /// `examine` writes this only, and then the size of the file.
    Examines(&'a str),
    /// The library is not sound when examined, and these are the lines.
    IsUnsound(&'a str),
    /// No library is examined at the path, which is in this situation.
    Is(Situation),
}

/// A text with the size of a file at its end.
fn with_size(rt: &HostRuntime, file: &str, text: &str) -> Result<String, Fail> {
    let size = fs::metadata(rt, file)?.len();
    Ok(format!(in rt.alloc(); "{text}, file {size}\n")?)
}

/// What was found is that all is sound, with this line, and the log has frames or not.
fn is_sound(report: &Report, line: &str, frames: bool) -> Result<(), Fail> {
    match report {
        Report::Library(Examined::Sound(text), log) => {
            same((line, "the log"), *log, frames)?;
            same_text("the line", std::str::from_utf8(text)?, line)
        }
        _ => Err(Fail::new(format_args!("the library is not sound: {line}"))),
    }
}

/// The tables were found not to be sound, with these lines.
fn is_unsound(report: &Report, lines: &str) -> Result<(), Fail> {
    match report {
        Report::Library(Examined::Unsound(found), _) => {
            same_text("the lines", std::str::from_utf8(found)?, lines)
        }
        _ => Err(Fail::new(format_args!("no library with findings: {lines}"))),
    }
}

/// No library was examined, but a path in this situation.
fn is_other(report: &Report, wanted: Situation) -> Result<(), Fail> {
    match report {
        Report::Other(situation, _) => same("the situation", *situation, wanted),
        Report::Library(_, _) => Err(Fail::new(format_args!("a library, not {wanted:?}"))),
    }
}

fn examined(rt: &HostRuntime, path: &str) -> Result<Report, Fail> {
    Ok(examine(rt, path, Unknown)?)
}

fn examines_sound(rt: &HostRuntime, file: &str, line: &str, frames: bool) -> Result<(), Fail> {
    is_sound(&examined(rt, file)?, &with_size(rt, file, line)?, frames)
}

fn examines_unsound(rt: &HostRuntime, file: &str, lines: &str) -> Result<(), Fail> {
    is_unsound(&examined(rt, file)?, lines)
}

fn examines_other(rt: &HostRuntime, file: &str, situation: Situation) -> Result<(), Fail> {
    is_other(&examined(rt, file)?, situation)
}

fn examines(rt: &HostRuntime, file: &str, text: &str) -> Result<(), Fail> {
    let output = with_size(rt, file, text)?;
    answers_of(rt, file, "examine", &[], "", (0, &output, ""))
}

fn each_answers(
    rt: &HostRuntime,
    file: &str,
    commands: &[Command],
    wanted: Wanted<'_>,
) -> Result<(), Fail> {
    for (name, words) in commands {
        answers_of(rt, file, name, words, "", wanted)?;
    }
    Ok(())
}

/// A text before another that is repeated.
fn long(alloc: Global, (front, text, count): (&str, &str, usize)) -> Result<String, Fail> {
    let texts = text.repeat(alloc, count)?;
    Ok(format!(in alloc; "{front}{texts}")?)
}

fn answers_long<'a>(
    rt: &HostRuntime,
    file: &'a str,
    name: &'a str,
    words: &[&'a str],
    input: (&str, &str, usize),
    wanted: Wanted<'_>,
) -> Result<(), Fail> {
    let input = long(rt.alloc(), input)?;
    answers_of(rt, file, name, words, &input, wanted)
}

fn put(rt: &HostRuntime, file: &str, bytes: &[u8]) -> Result<(), Fail> {
    Ok(fs::write(rt, file, bytes)?)
}

/// The file at a path has these bytes.
pub fn has_bytes(rt: &HostRuntime, path: &str, bytes: &[u8]) -> Result<(), Fail> {
    holds(path, fs::read(rt, path)?.as_slice() == bytes)
}

fn settles(
    rt: &HostRuntime,
    file: &str,
    (site, number, mark): (&str, &str, &str),
) -> Result<(), Fail> {
    let output = format!(in rt.alloc(); "{{\"settled\":{mark},\"site\":\"{site}\"}}\n")?;
    answers(rt, &["settle", file, site, number], "", (0, &output, ""))
}

/// Runs of LYON arrive in one spool and are accepted.
fn sends(rt: &HostRuntime, file: &str, runs: &[(&str, &str, &str)]) -> Result<(), Fail> {
    let mut spool = String::new(rt.alloc());
    for (number, mode, run) in runs {
        write!(spool, "RUN LYON {number} {mode} {}\n{run}\n", run.len())?;
    }
    let found = ask_of(rt, file, "spool", &[], &spool)?;
    same("the status of a spool", found.status, 0)?;
    let replies = std::str::from_utf8(&found.output)?;
    holds(replies, !replies.contains("refused"))
}

/// A new library is in place of what is at a path.
fn begin(rt: &HostRuntime, file: &str) -> Result<(), Fail> {
    remove(rt, file)?;
    answers(rt, &["init", file], "", SILENT)
}

/// A step is as it says.
fn take(rt: &HostRuntime, file: &str, step: Step<'_>) -> Result<(), Fail> {
    match step {
        Step::New(_) => begin(rt, file),
        Step::NoFile(_) => remove(rt, file),
        Step::Shows(_) => Ok(()),
        Step::File(_, bytes) => put(rt, file, bytes),
        Step::Has(bytes) => has_bytes(rt, file, bytes),
        Step::IsGone => is_gone(rt, file),
        Step::Settles(site, number, mark) => settles(rt, file, (site, number, mark)),
        Step::Accepts(number, mode, run) => accepts(rt, file, number, mode, run),
        Step::Sends(runs) => sends(rt, file, runs),
        Step::Writes(name, words, output) => answers_of(rt, file, name, words, "", (0, output, "")),
        Step::Answers(name, words, input, wanted) => {
            answers_of(rt, file, name, words, input, wanted)
        }
        Step::AnswersLong(name, words, input, wanted) => {
            answers_long(rt, file, name, words, input, wanted)
        }
        Step::AllAnswer(wanted) => each_answers(rt, file, COMMANDS, wanted),
        Step::WaysAnswer(wanted) => each_answers(rt, file, WAYS, wanted),
        Step::Changes(sql) => change(rt, file, sql),
        Step::Logs(sql) => change_log(rt, file, sql),
        Step::LosesLog => without_log(rt, file),
        Step::HasRows(rows) => has_rows(rt, file, rows),
        Step::IsSound(line, frames) => examines_sound(rt, file, line, frames),
        Step::Examines(text) => examines(rt, file, text),
        Step::IsUnsound(lines) => examines_unsound(rt, file, lines),
        Step::Is(situation) => examines_other(rt, file, situation),
    }
}

/// What a step and those after it show, where those before it show `before`.
fn shown<'a>(step: Step<'a>, before: &'a str) -> &'a str {
    match step {
        Step::New(words) | Step::NoFile(words) | Step::Shows(words) => words,
        Step::File(words, _) => words,
        _ => before,
    }
}

/// All steps on the file at a path are as they say. Where one isn't, what it shows is written on the fault stream.
pub fn take_all(rt: &HostRuntime, file: &str, steps: &[Step<'_>]) -> Result<(), Fail> {
    let mut words = "";
    for step in steps {
        words = shown(*step, words);
        let taken = take(rt, file, *step);
        if taken.is_err() {
            let _ = eprintln!(rt; "not so: {words}");
        }
        taken?;
    }
    Ok(())
}

/// All steps on the file at a path are as they say, and change no byte of it.
pub fn stays(rt: &HostRuntime, file: &str, steps: &[Step<'_>]) -> Result<(), Fail> {
    let before = fs::read(rt, file)?;
    take_all(rt, file, steps)?;
    has_bytes(rt, file, &before)
}

/// All steps on a new library are as they say. The library is removed then.
pub fn session(rt: &HostRuntime, name: &str, steps: &[Step<'_>]) -> Result<(), Fail> {
    let file = library(rt, name)?;
    take_all(rt, &file, steps)?;
    remove(rt, &file)
}

/// All steps at a path without a file are as they say. What is there is removed then.
pub fn session_without_file(rt: &HostRuntime, name: &str, steps: &[Step<'_>]) -> Result<(), Fail> {
    let file = fresh(rt, name)?;
    take_all(rt, &file, steps)?;
    remove(rt, &file)
}
