//! A command line, what it reads, and what it answers.
use std::io::Read;
use std::test::Fail;
use std::{env, fs, process};
use upd_cli::run_command;
use upd_testkit::check::{holds, same, same_text};

/// A path for a library of this test and process, where no file is.
pub fn fresh(rt: &HostRuntime, name: &str) -> Result<String, Fail> {
    let file = format!(in rt.alloc(); "upd-{}-{name}.db", process::id(rt.process()))?;
    let path = env::temp_dir(rt)?.join(rt.alloc(), file.as_str())?;
    remove(rt, path.as_str())?;
    Ok(String::from_str(rt.alloc(), path.as_str())?)
}

/// Removes the log of a library, if there is one.
pub fn without_log(rt: &HostRuntime, path: &str) -> Result<(), Fail> {
    let _ = fs::remove_file(rt, format!(in rt.alloc(); "{path}-wal")?.as_str());
    Ok(())
}

/// No file is at a path.
pub fn is_gone(rt: &HostRuntime, path: &str) -> Result<(), Fail> {
    holds(path, !fs::exists(rt, path)?)
}

/// Removes a library with its log.
pub fn remove(rt: &HostRuntime, path: &str) -> Result<(), Fail> {
    let _ = fs::remove_file(rt, path);
    without_log(rt, path)
}

/// What a command line answered: its exit status, its output, and what it said on the fault stream.
#[derive(Drop)]
pub struct Answer {
    pub status: u8,
    pub output: Vec<u8>,
    pub faults: Vec<u8>,
}

/// The answer to the words of a command line after the program's name, over this input.
pub fn ask<R: Read>(rt: &HostRuntime, words: &[&str], input: &mut R) -> Result<Answer, Fail> {
    let mut line = Vec::new(rt.alloc());
    line.push("upd")?;
    line.extend_from_slice(words)?;
    let (mut output, mut faults) = (Vec::new(rt.alloc()), Vec::new(rt.alloc()));
    let status = run_command(rt, &line, input, &mut output, &mut faults);
    Ok(Answer {
        status,
        output,
        faults,
    })
}

/// An answer has this exit status, this output and this text on the fault stream.
pub fn is_answer(found: &Answer, (status, output, faults): (u8, &str, &str)) -> Result<(), Fail> {
    same("the status", found.status, status)?;
    same_text("the output", std::str::from_utf8(&found.output)?, output)?;
    same_text("the faults", std::str::from_utf8(&found.faults)?, faults)
}

/// An answer has this exit status. Each stream has a text that begins like this, or nothing where this is empty.
pub fn begins(found: &Answer, (status, output, faults): (u8, &str, &str)) -> Result<(), Fail> {
    same((output, faults), found.status, status)?;
    has_front(&found.output, output)?;
    has_front(&found.faults, faults)
}

fn has_front(found: &[u8], front: &str) -> Result<(), Fail> {
    same(front, found.is_empty(), front.is_empty())?;
    holds(front, found.starts_with(front.as_bytes()))
}

/// An answer has this exit status, and each stream has this within it.
pub fn contains(found: &Answer, (status, output, faults): (u8, &str, &str)) -> Result<(), Fail> {
    same((output, faults), found.status, status)?;
    holds(output, std::str::from_utf8(&found.output)?.contains(output))?;
    holds(faults, std::str::from_utf8(&found.faults)?.contains(faults))
}

/// A command line over this input has this answer.
pub fn answers(
    rt: &HostRuntime,
    words: &[&str],
    input: &str,
    wanted: (u8, &str, &str),
) -> Result<(), Fail> {
    let found = ask(rt, words, &mut input.as_bytes())?;
    is_answer(&found, wanted)
}

/// The answer of a command on the library in a file: its name, its words after the file, and its input.
pub fn ask_of<'a>(
    rt: &HostRuntime,
    file: &'a str,
    name: &'a str,
    words: &[&'a str],
    input: &str,
) -> Result<Answer, Fail> {
    let mut line = vec![in rt.alloc(); name, file]?;
    line.extend_from_slice(words)?;
    ask(rt, &line, &mut input.as_bytes())
}

/// A command on the library in a file has this answer.
pub fn answers_of<'a>(
    rt: &HostRuntime,
    file: &'a str,
    name: &'a str,
    words: &[&'a str],
    input: &str,
    wanted: (u8, &str, &str),
) -> Result<(), Fail> {
    let found = ask_of(rt, file, name, words, input)?;
    is_answer(&found, wanted)
}

/// A path of a new library without decks.
pub fn library(rt: &HostRuntime, name: &str) -> Result<String, Fail> {
    let file = fresh(rt, name)?;
    answers(rt, &["init", &file], "", (0, "", ""))?;
    Ok(file)
}

/// A run of site LYON arrives and is accepted.
pub fn accepts(
    rt: &HostRuntime,
    file: &str,
    number: &str,
    mode: &str,
    run: &str,
) -> Result<(), Fail> {
    let found = ask_of(rt, file, "run", &["LYON", number, mode], run)?;
    same("the status of a run", found.status, 0)
}
