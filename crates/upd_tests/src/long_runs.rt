//! Long runs, as texts that are put together from parts.

use std::alloc::Global;
use std::test::Fail;
use upd_core::Library;
use upd_testkit::applying::applied;

/// A part of the text of a run.
#[derive(Clone, Copy)]
pub enum Part<'a> {
    /// Lines. One as `100 x *CALL C` stands for a hundred lines `*CALL C`.
    Text(&'a str),
    /// Lines by their numbers from `first` to `last`, each third of which is the same.
    Numbered(u32, u32),
    /// `*IDENT` lines for names from N`first` to N`last`.
    Idents(u32, u32),
    /// A number of deletions of one card each, all over the decks DECK0 to DECK24.
    Deletions(u32),
    /// Common decks C`first` to C`last`, each with a number of calls of the next.
    Chain(u32, u32, u32),
}

/// Bytes as text.
pub fn text(bytes: &[u8]) -> Result<&str, Fail> {
    Ok(std::str::from_utf8(bytes)?)
}

/// The text that the parts make.
pub fn text_of(alloc: Global, parts: &[Part<'_>]) -> Result<String, Fail> {
    let mut text = String::new(alloc);
    for part in parts {
        push_part(&mut text, *part)?;
    }
    Ok(text)
}

/// The library that runs make of the empty one.
pub fn after_long(alloc: Global, runs: &[&[Part<'_>]]) -> Result<Library, Fail> {
    let mut library = Library::new(alloc);
    for run in runs {
        applied(&mut library, text_of(alloc, run)?.as_str())?;
    }
    Ok(library)
}

fn push_part(text: &mut String, part: Part<'_>) -> Result<(), Fail> {
    match part {
        Part::Text(lines) => push_lines(text, lines),
        Part::Numbered(first, last) => push_numbered(text, first, last),
        Part::Idents(first, last) => push_idents(text, first, last),
        Part::Deletions(count) => push_deletions(text, count),
        Part::Chain(first, last, calls) => push_chain(text, first, last, calls),
    }
}

fn push_lines(text: &mut String, lines: &str) -> Result<(), Fail> {
    for line in lines.lines() {
        match line.split_once(" x ") {
            Some((count, line)) => push_times(text, count.parse::<u32>()?, line)?,
            None => push_times(text, 1, line)?,
        }
    }
    Ok(())
}

fn push_times(text: &mut String, count: u32, line: &str) -> Result<(), Fail> {
    for _ in 0..count {
        write!(text, "{line}\n")?;
    }
    Ok(())
}

fn push_numbered(text: &mut String, first: u32, last: u32) -> Result<(), Fail> {
    for n in first..=last {
        if n % 3 == 0 {
            text.push_str("END\n")?;
        } else {
            write!(text, "LINE {n}\n")?;
        }
    }
    Ok(())
}

fn push_idents(text: &mut String, first: u32, last: u32) -> Result<(), Fail> {
    for n in first..=last {
        write!(text, "*IDENT N{n}\n")?;
    }
    Ok(())
}

fn push_deletions(text: &mut String, count: u32) -> Result<(), Fail> {
    for n in 0..count {
        write!(text, "*DELETE DECK{}.{}\n", n % 25, n.saturating_add(2))?;
    }
    Ok(())
}

fn push_chain(text: &mut String, first: u32, last: u32, calls: u32) -> Result<(), Fail> {
    for n in first..=last {
        let call = format!(in *text.allocator(); "*CALL C{}", n.saturating_add(1))?;
        write!(text, "*COMDECK C{n}\n")?;
        push_times(text, calls, call.as_str())?;
    }
    Ok(())
}
