//! One line for each stored run.

ghost use Rattle.std.specs.Prelude.{◌≡◌, ◌++◌, IfOk, IsPermutation, IsSorted, OnOk, option_map};
ghost use Rattle.serde_json.specs.View.{items_view, view};
ghost use Rattle.upd_views.specs.RunLines.{IsRunList, by_key, first_line, idents_said, key_words, message, outcome};
ghost use Rattle.upd_views.specs.RunLines.{refusal_said, reply_value, run_line, run_lines, trimmed, word_of, words_of};

use crate::printing::push_field;
use itoa::Buffer;
use serde_json::Value;
use std::alloc::{AllocError, Global};
use upd_compile::text_parts::push_parts;
use upd_records::{RunRow, mode_word};
use upd_text::line::{is_comment, split_once};

/// The lines of runs by site and number, as in `run_lines`.
pub fn run_list(alloc: Global, runs: Vec<RunRow>) -> Result<Vec<u8>, AllocError>
    ensures { IfOk result (λ text. IsRunList runs.items text.items) }
{
    let runs = by_key(runs);
    run_lines(alloc, &runs)
}

fn by_key(runs: Vec<RunRow>) -> Vec<RunRow>
    ensures permutation { IsPermutation runs.items result.items }
    ensures sorted { IsSorted by_key result.items }
{
    let mut runs = runs;
    runs.sort_unstable_by(|a, b| a
        .site
        .as_str()
        .cmp(b.site.as_str())
        .then(a.number.cmp(&b.number)));
    runs
}

/// The lines of runs, in the order in which they come: site, number, mode, and `accepted` with the idents that the run
/// introduced, or the name of its refusal; and its message, a comment on its first line.
pub fn run_lines(alloc: Global, runs: &[RunRow]) -> Result<Vec<u8>, AllocError>
    ensures { IfOk result (λ text. text.items ≡ run_lines runs.now) }
{
    let mut text = Vec::new(alloc);
    for run in runs {
        push_run(alloc, &mut text, run)?;
    }
    Ok(text)
}

fn push_run(alloc: Global, text: &mut Vec<u8>, run: &RunRow) -> Result<(), AllocError>
    ensures { OnOk result (text.new.items ≡ text.old.items ++ run_line run.now) }
{
    let value = reply_value(alloc, &run.reply)?;
    push_key(text, run)?;
    push_outcome(text, run.accepted, value.as_ref())?;
    push_message(text, &run.bytes)?;
    text.extend_from_slice(b"\n")
}

pub(crate) fn push_key(text: &mut Vec<u8>, run: &RunRow) -> Result<(), AllocError>
    ensures { OnOk result (text.new.items ≡ text.old.items ++ key_words run.now) }
{
    push_field(text, run.site.as_bytes())?;
    text.extend_from_slice(b" ")?;
    text.extend_from_slice(Buffer::new().format(run.number).as_bytes())?;
    push_parts(text, &[b" ", mode_word(run.mode)])
}

/// The value of a reply, where it is one.
pub(crate) fn reply_value(alloc: Global, reply: &[u8]) -> Result<Option<Value>, AllocError>
    ensures { IfOk result (λ value. option_map (λ v. view v) value ≡ reply_value reply.now) }
{
    match Value::from_slice(alloc, reply) {
        Ok(value) => Ok(Some(value)),
        Err(error) => {
            if error.is_memory() {
                Err(AllocError)
            } else {
                Ok(None)
            }
        }
    }
}

fn push_outcome(text: &mut Vec<u8>, accepted: bool, value: Option<&Value>) -> Result<(), AllocError>
    ensures { OnOk result (text.new.items
        ≡ text.old.items ++ outcome accepted (option_map (λ v. view v.now) value.entry)) }
{
    if accepted {
        text.extend_from_slice(b" accepted")?;
        push_idents(text, value)
    } else {
        push_refusal(text, value)
    }
}

fn push_idents(text: &mut Vec<u8>, value: Option<&Value>) -> Result<(), AllocError>
    ensures { OnOk result (text.new.items
        ≡ text.old.items ++ idents_said (option_map (λ v. view v.now) value.entry)) }
{
    match value
        .and_then(|value| value.get("idents"))
        .and_then(Value::as_array)
    {
        Some(items) => push_words(text, items),
        None => Ok(()),
    }
}

fn push_refusal(text: &mut Vec<u8>, value: Option<&Value>) -> Result<(), AllocError>
    ensures { OnOk result (text.new.items
        ≡ text.old.items ++ refusal_said (option_map (λ v. view v.now) value.entry)) }
{
    match value.and_then(|value| value.get("name")) {
        Some(name) => push_word(text, name),
        None => text.extend_from_slice(b" refused"),
    }
}

fn push_words(text: &mut Vec<u8>, items: &[Value]) -> Result<(), AllocError>
    ensures { OnOk result (text.new.items ≡ text.old.items ++ words_of (items_view items.now)) }
{
    for item in items {
        push_word(text, item)?;
    }
    Ok(())
}

fn push_word(text: &mut Vec<u8>, value: &Value) -> Result<(), AllocError>
    ensures { OnOk result (text.new.items ≡ text.old.items ++ word_of (view value.now)) }
{
    match value.as_str() {
        Some(word) => {
            text.extend_from_slice(b" ")?;
            push_field(text, word.as_bytes())
        }
        None => Ok(()),
    }
}

pub(crate) fn push_message(text: &mut Vec<u8>, run: &[u8]) -> Result<(), AllocError>
    ensures { OnOk result (text.new.items ≡ text.old.items ++ message run.now) }
{
    let line = first_line(run);
    if is_comment(line) {
        text.extend_from_slice(b" #")?;
        push_field(text, trimmed(&line[2..]))
    } else {
        Ok(())
    }
}

/// A text without the blanks and carriage returns at its end, which are no part of a line.
fn trimmed(text: &[u8]) -> &[u8]
    ensures { result.now ≡ trimmed text.now }
{
    let mut rest = text;
    while let [before @ .., b' ' | b'\r'] = rest {
        rest = before;
    }
    rest
}

pub(crate) fn first_line(run: &[u8]) -> &[u8]
    ensures { result.now ≡ first_line run.now }
{
    match split_once(run, b'\n') {
        Some((line, _)) => line,
        None => run,
    }
}
