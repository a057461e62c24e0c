//! The stored run that introduced an ident, and its line.

ghost use Rattle.std.specs.Prelude.{◌≡◌, ◌++◌, codes, count_by, false, option_and_then, option_map, IfOk, OnOk};
ghost use Rattle.std.specs.Option.{option_copied, option_map_or};
ghost use Rattle.std.specs.Str.{bytes_eq};
ghost use Rattle.serde_json.specs.View.{items_view, view};
ghost use Rattle.upd_views.specs.IntroducingRun.{introducer, introducer_line, introduces, is_among_words, is_word};
ghost use Rattle.upd_views.specs.IntroducingRun.{message_line, says_ident};

use crate::runs::{first_line, push_key, push_message, reply_value};
use serde_json::Value;
use std::alloc::{AllocError, Global};
use upd_core::{Ident, Name};
use upd_records::RunRow;
use upd_text::line::is_comment;

/// The line of the run that introduced the youngest ident of a name, where it is stored and has a message.
pub(crate) fn push_introducer(
    text: &mut Vec<u8>,
    runs: &[RunRow],
    idents: &[Ident],
    name: &Name,
) -> Result<(), AllocError>
    ensures { OnOk result (text.new.items ≡ text.old.items ++ introducer_line name.now runs.now idents.now) }
{
    match introducer(*text.allocator(), runs, idents, name)? {
        Some(run) => push_message_line(text, run),
        None => Ok(()),
    }
}

/// The run that introduced the youngest ident of a name, where the runs of all idents of that name are among these.
pub fn introducer<'a>(
    alloc: Global,
    runs: &'a [RunRow],
    idents: &[Ident],
    name: &Name,
) -> Result<Option<&'a RunRow>, AllocError>
    ensures { IfOk result (λ run. option_copied run ≡ introducer name.now runs.now idents.now) }
{
    let mut last = None;
    let mut count = 0usize;
    for run in runs {
        if introduces(alloc, run, name)? {
            last = Some(run);
            count += 1;
        }
    }
    if count == idents_named(idents, name) {
        Ok(last)
    } else {
        Ok(None)
    }
}

fn idents_named(idents: &[Ident], name: &Name) -> usize
    ensures { result ≡ count_by (λ i. bytes_eq i.name name.now) idents.now }
{
    idents.iter().filter(|ident| ident.name == *name).count()
}

/// Whether a stored run introduced an ident of this name, as its reply says.
pub fn introduces(alloc: Global, run: &RunRow, name: &Name) -> Result<bool, AllocError>
    ensures { IfOk result (λ is. is ≡ introduces name.now run.now) }
{
    if !run.accepted {
        return Ok(false);
    }
    let value = reply_value(alloc, &run.reply)?;
    Ok(says_ident(value.as_ref(), name))
}

fn says_ident(value: Option<&Value>, name: &Name) -> bool
    ensures { result ≡ says_ident name.now (option_map (λ v. view v.now) value.entry) }
{
    match value
        .and_then(|value| value.get("idents"))
        .and_then(Value::as_array)
    {
        Some(items) => is_among_words(items, name),
        None => false,
    }
}

fn is_among_words(items: &[Value], name: &Name) -> bool
    ensures { result ≡ is_among_words name.now (items_view items.now) }
{
    for item in items {
        if is_word(item, name) {
            return true;
        }
    }
    false
}

fn is_word(value: &Value, name: &Name) -> bool
    ensures { result ≡ is_word name.now (view value.now) }
{
    match value.as_str() {
        Some(word) => word.as_bytes() == name.as_bytes(),
        None => false,
    }
}

fn push_message_line(text: &mut Vec<u8>, run: &RunRow) -> Result<(), AllocError>
    ensures { OnOk result (text.new.items ≡ text.old.items ++ message_line run.now) }
{
    if !is_comment(first_line(&run.bytes)) {
        return Ok(());
    }
    text.extend_from_slice(b"RUN ")?;
    push_key(text, run)?;
    push_message(text, &run.bytes)?;
    text.extend_from_slice(b"\n")
}
