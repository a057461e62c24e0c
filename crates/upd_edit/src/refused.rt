//! The lines that report the refusals of an edited text.
ghost use Rattle.std.specs.Prelude.{◌≡◌, ◌++◌, IfOk, OnOk};
ghost use Rattle.std.specs.List.{flat_map};
ghost use Rattle.upd_edit.specs.RefusalLines.{part_text, problem_subject, problem_words, refusal_line, refusal_lines};
ghost use Rattle.upd_edit.specs.RefusalLines.{refusal_place, refusal_words};

use itoa::Buffer;
use std::alloc::{AllocError, Global};
use upd_core::CardRef;
use upd_correct::{Problem, Refusal};
use upd_text::Name;

/// A line for each refusal, with LF: the name of the problem, line and column, and what it is in words.
pub fn refusal_lines(alloc: Global, refusals: &[Refusal]) -> Result<Vec<u8>, AllocError>
    ensures { IfOk result (λ text. text.items ≡ refusal_lines refusals.now) }
{
    let mut text = Vec::new(alloc);
    push_refusals(&mut text, refusals)?;
    Ok(text)
}

fn push_refusals(text: &mut Vec<u8>, refusals: &[Refusal]) -> Result<(), AllocError>
    ensures { OnOk result (text.new.items ≡ text.old.items ++ flat_map refusal_line refusals.now) }
{
    for refusal in refusals {
        push_refusal(text, refusal)?;
    }
    Ok(())
}

fn push_refusal(text: &mut Vec<u8>, refusal: &Refusal) -> Result<(), AllocError>
    ensures { OnOk result (text.new.items ≡ text.old.items ++ refusal_line refusal.now) }
{
    push_place(text, refusal)?;
    push_words(text, refusal)
}

/// Appends the name and the place of the problem.
fn push_place(text: &mut Vec<u8>, refusal: &Refusal) -> Result<(), AllocError>
    ensures { OnOk result (text.new.items ≡ text.old.items ++ refusal_place refusal.now) }
{
    let (name, _) = problem_words(refusal.problem);
    text.extend_from_slice(name.as_bytes())?;
    text.extend_from_slice(b" ")?;
    text.extend_from_slice(Buffer::new().format(refusal.line).as_bytes())?;
    text.extend_from_slice(b":")?;
    text.extend_from_slice(Buffer::new().format(refusal.column).as_bytes())?;
    text.extend_from_slice(b" ")
}

/// Appends what the problem names, and what it is in words.
fn push_words(text: &mut Vec<u8>, refusal: &Refusal) -> Result<(), AllocError>
    ensures { OnOk result (text.new.items ≡ text.old.items ++ refusal_words refusal.now) }
{
    push_subject(text, refusal.problem)?;
    let (_, words) = problem_words(refusal.problem);
    text.extend_from_slice(words.as_bytes())?;
    text.extend_from_slice(b"\n")
}

/// The name of a problem, and what it is in words.
fn problem_words(problem: Problem) -> (&'static str, &'static str)
    ensures name { result.0.now ≡ (problem_words problem).0 }
    ensures words { result.1.now ≡ (problem_words problem).1 }
{
    match problem {
        Problem::BadByte => ("BadByte", "a line can't have this byte"),
        Problem::LineLong => ("LineLong", "a line has at most 80 bytes"),
        Problem::Comment => ("Comment", "a run would drop this line as a comment"),
        Problem::Directive => (
            "Directive",
            "a run would carry this line out as a directive",
        ),
        Problem::NoDeck => ("NoDeck", "no deck begins before this line"),
        Problem::FirstCard => ("FirstCard", "the first card of a deck can't be changed"),
        Problem::OutOfUse => (
            "OutOfUse",
            "a yank takes this deck out of use, or it came after SINCE, so no run can change its text",
        ),
        Problem::DeckTwice => ("DeckTwice", "this deck is in the text twice"),
        Problem::NameTaken => ("NameTaken", "this name is in use"),
        Problem::Reserved => ("Reserved", "the library keeps this name for itself"),
        Problem::BadName => ("BadName", "the set's name is not a name"),
        Problem::TooManyLines => (
            "TooManyLines",
            "the run would have more than 2000 lines: correct it in parts",
        ),
        Problem::RunLong => (
            "RunLong",
            "the run would have more than 65536 bytes: correct it in parts",
        ),
        Problem::Full => ("Full", "the library has no room for this run"),
        Problem::Unchecked => (
            "Unchecked",
            "the run that was made does not lead to this text: report it",
        ),
        Problem::Conflict { .. } => ("Conflict", ", which came after this text"),
        Problem::NoSet => ("BadName", "the name of the sets is empty"),
        Problem::SetLong => (
            "BadName",
            "the name of the sets has at most 8 bytes, since a number follows it",
        ),
        Problem::PartTaken(_) => ("NameTaken", "its set's name is in use"),
        Problem::PartName(_) => ("BadName", "its set's name is not a name"),
        Problem::PartFull(_) => ("Full", "the library has no room for its run"),
        Problem::NumberUsed(_) => ("NumberUsed", " is used or settled"),
    }
}

/// Appends what a problem names.
fn push_subject(text: &mut Vec<u8>, problem: Problem) -> Result<(), AllocError>
    ensures { OnOk result (text.new.items ≡ text.old.items ++ problem_subject problem) }
{
    match problem {
        Problem::Conflict { card, set } => push_taken(text, card, set),
        Problem::PartTaken(number) => push_part(text, number),
        Problem::PartName(number) => push_part(text, number),
        Problem::PartFull(number) => push_part(text, number),
        Problem::NumberUsed(number) => push_number(text, number),
        _ => Ok(()),
    }
}

fn push_taken(text: &mut Vec<u8>, card: CardRef, set: Name) -> Result<(), AllocError>
    ensures { OnOk result (text.new.items ≡ text.old.items ++ problem_subject (Problem.Conflict card set)) }
{
    text.extend_from_slice(card.name.as_bytes())?;
    text.extend_from_slice(b".")?;
    text.extend_from_slice(Buffer::new().format(card.number).as_bytes())?;
    text.extend_from_slice(b" was taken out of use by ")?;
    text.extend_from_slice(set.as_bytes())
}

fn push_part(text: &mut Vec<u8>, number: usize) -> Result<(), AllocError>
    ensures { OnOk result (text.new.items ≡ text.old.items ++ part_text number) }
{
    text.extend_from_slice(b"part ")?;
    text.extend_from_slice(Buffer::new().format(number).as_bytes())?;
    text.extend_from_slice(b": ")
}

fn push_number(text: &mut Vec<u8>, number: u64) -> Result<(), AllocError>
    ensures { OnOk result (text.new.items ≡ text.old.items ++ problem_subject (Problem.NumberUsed number)) }
{
    text.extend_from_slice(b"number ")?;
    text.extend_from_slice(Buffer::new().format(number).as_bytes())
}
