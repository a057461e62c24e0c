//! Replies as texts, from what they say.
use crate::asks::Sent;
use std::alloc::Global;
use std::fmt::Display;
use std::test::Fail;

/// A compile line: its text, and the name and the number of its card.
pub type Line<'a> = (&'a str, &'a str, u32);

/// The name, the number and the line of a fault that is given as "CardUnknown 13 at 2".
fn fault_parts(fault: &str) -> Option<(&str, &str, &str)> {
    let (name, rest) = fault.split_once(' ')?;
    let (number, at) = rest.split_once(" at ")?;
    Some((name, number, at))
}

/// The reply to a refused run, whose fault is given as "CardUnknown 13 at 2".
pub fn refused(alloc: Global, sent: Sent<'_>, fault: &str) -> Result<String, Fail> {
    let (name, number, at) = fault_parts(fault).ok_or("no fault")?;
    let Sent { site, mode, .. } = sent;
    let run = sent.number;
    Ok(format!(in alloc;
        "{{\"at\":{at},\"fault\":{number},\"mode\":\"{mode}\",\"name\":\"{name}\",\"run\":{run},\
\"site\":\"{site}\",\"state\":\"refused\"}}"
    )?)
}

/// The reply to an accepted run, with the idents that it introduced, its compile file as JSON has it, and the number of
/// its lines.
pub fn accepted_with<T: Display>(
    alloc: Global,
    sent: Sent<'_>,
    idents: &[T],
    compile: &str,
    lines: usize,
) -> Result<String, Fail> {
    let Sent {
        site,
        number,
        mode,
        ..
    } = sent;
    let idents = in_quotes(alloc, idents)?;
    Ok(format!(in alloc;
        "{{\"compile\":\"{compile}\",\"idents\":[{idents}],\"lines\":{lines},\"mode\":\"{mode}\",\
         \"run\":{number},\"site\":\"{site}\",\"state\":\"accepted\"}}"
    )?)
}

/// The reply to an accepted run, with the idents that it introduced and its compile lines.
pub fn accepted(
    alloc: Global,
    sent: Sent<'_>,
    idents: &[&str],
    lines: &[Line<'_>],
) -> Result<String, Fail> {
    let compile = compile_lines(alloc, lines, "\\n")?;
    accepted_with(alloc, sent, idents, &compile, lines.len())
}

/// Names in quotes, with commas between them.
fn in_quotes<T: Display>(alloc: Global, names: &[T]) -> Result<String, Fail> {
    let mut text = String::new(alloc);
    let mut comma = "";
    for name in names {
        write!(text, "{comma}\"{name}\"")?;
        comma = ",";
    }
    Ok(text)
}

/// Compile lines, each with this end.
pub fn compile_lines(alloc: Global, lines: &[Line<'_>], end: &str) -> Result<String, Fail> {
    let mut text = String::new(alloc);
    for (line, name, number) in lines {
        write!(text, "{line:<80} {name:<9}{number:>6}{end}")?;
    }
    Ok(text)
}
