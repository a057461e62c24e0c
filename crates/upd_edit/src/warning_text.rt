//! The texts of warnings.
ghost use Rattle.std.specs.Prelude.{◌≡◌, [], IfOk};

use crate::near_words::near_word;
use crate::warning::{Conflict, TakingWord, Warning, WarningKind};
use std::alloc::{AllocError, Global};
use upd_text::line::word;

/// The texts of warnings of a run, a line each: `upd: LINE: words` and LF.
pub fn write_warnings(
    alloc: Global,
    run: &[u8],
    warnings: &[Warning],
) -> Result<Vec<u8>, AllocError>
    ensures { IfOk result (λ text. warnings.now ≡ [] → text.items ≡ []) }
{
    if warnings.is_empty() {
        return Ok(Vec::new(alloc));
    }
    let mut text = Vec::new(alloc);
    for warning in warnings {
        let line = warning_line(alloc, run, warning)?;
        text.extend_from_slice(line.as_bytes())?;
    }
    Ok(text)
}

/// The text of a warning.
fn warning_line(alloc: Global, run: &[u8], warning: &Warning) -> Result<String, AllocError> {
    let words = match &warning.kind {
        WarningKind::NearWord => near_words(alloc, run, warning.line)?,
        WarningKind::Conflict(conflict) => conflict_words(alloc, conflict)?,
        kind => kind_words(alloc, kind)?,
    };
    format!(in alloc; "upd: {}: {}\n", warning.line, words)
}

/// The words of a warning of a text that may be meant for a directive or call. The text is the line with a number.
fn near_words(alloc: Global, run: &[u8], line: usize) -> Result<String, AllocError> {
    let line = run
        .split(|&byte| byte == b'\n')
        .nth(line.saturating_sub(1))
        .unwrap_or(b"");
    let text = match line {
        [before @ .., b'\r'] => before,
        _ => line,
    };
    let meant = near_word(alloc, word(text))?.unwrap_or(b"");
    let mut words = String::from_str(alloc, "*")?;
    words.push_str(shown(word(text)))?;
    words.push_str(" is text, not *")?;
    words.push_str(shown(meant))?;
    Ok(words)
}

/// A text of printable bytes.
fn shown(text: &[u8]) -> &str {
    std::str::from_utf8(text).unwrap_or("")
}

/// The words of a warning that is neither of these.
fn kind_words(alloc: Global, kind: &WarningKind) -> Result<String, AllocError> {
    match kind {
        WarningKind::Comments(count) => format!(in alloc;
            "dropped comments: {count}, the first here"
        ),
        WarningKind::OffAlready { card, by } => format!(in alloc; "{card} is off already, by {by}"),
        WarningKind::Wide(count) => format!(in alloc; "the range has {count} cards"),
        WarningKind::Purged { name, since } => format!(in alloc; "{name} was purged after {since}"),
        WarningKind::TakesSwitched { word, card, by } => {
            let word = taking(*word);
            format!(in alloc; "{by} switched {card}, which this {word} takes")
        }
        WarningKind::TakesFollowed { word, card, next } => {
            let word = taking(*word);
            format!(in alloc; "{next} follows {card}, which this {word} takes")
        }
        WarningKind::DeckStays {
            word,
            set,
            deck,
            known,
        } => {
            let word = taking(*word);
            if *known {
                format!(in alloc; "{deck} came with {set} and stays: {word} {set},{deck}")
            } else {
                format!(in alloc; "if {deck} came with {set}, it stays: {word} {set},{deck}")
            }
        }
        _ => String::from_str(alloc, "the run is empty: it changes nothing"),
    }
}

fn taking(word: TakingWord) -> &'static str {
    match word {
        TakingWord::Yank => "yank",
        TakingWord::Purge => "purge",
    }
}

/// The words of a conflict.
fn conflict_words(alloc: Global, conflict: &Conflict) -> Result<String, AllocError> {
    match conflict {
        Conflict::Deleted { card, since } => {
            format!(in alloc; "{card} came after {since} and is deleted")
        }
        Conflict::CameLater { card, since } => format!(in alloc; "{card} came after {since}"),
        Conflict::Beside { card, next, since } => {
            format!(in alloc; "{card} stands beside {next}, which came after {since}")
        }
        Conflict::Switched { card, by, since } => {
            format!(in alloc; "{card} was switched by {by}, which came after {since}")
        }
        Conflict::TakenOut { card, since } => {
            format!(in alloc; "{card} was taken out by yanks after {since}")
        }
        Conflict::CameBack { card, since } => {
            format!(in alloc; "{card} came back by yanks after {since}")
        }
        Conflict::CameAgain { since } => {
            format!(in alloc;
                "{since} was purged and came again: what its purge took out isn't seen"
            )
        }
    }
}
