//! Stored runs and marks.

use crate::lines::Findings;
use crate::stored_runs::{has_reply, is_above};
use std::alloc::{AllocError, Global};
use upd_records::{MarkRow, RunRow};
use upd_text::keys::{is_run_number, is_site};

const NO_SITE: &str = " has a site that no run has";

/// The mark of a site, 0 where it has none.
fn mark_of(marks: &[MarkRow], site: &str) -> u64 {
    for row in marks {
        if row.site.as_bytes() == site.as_bytes() {
            return row.mark;
        }
    }
    0
}

/// Findings about a stored run.
fn add_run(
    alloc: Global,
    found: &mut Findings,
    marks: &[MarkRow],
    run: &RunRow,
) -> Result<(), AllocError> {
    let row = format!(in alloc; "runs {} {}", run.site, run.number)?;
    if !is_site(run.site.as_bytes()) {
        found.add_of(&row, NO_SITE)?;
    }
    if !is_run_number(run.number) {
        found.add_of(&row, " has a number that no run has")?;
    }
    if !is_above(marks, run) {
        let mark = mark_of(marks, &run.site);
        let wrong = format!(in alloc; " is at or below the mark {}", mark)?;
        found.add_of(&row, &wrong)?;
    }
    if run.mode > 2 {
        found.add_of(&row, " has a mode that no run has")?;
    }
    if !has_reply(alloc, run)? {
        found.add_of(&row, " has a reply that no run gets")?;
    }
    Ok(())
}

fn add_each_run(
    alloc: Global,
    found: &mut Findings,
    marks: &[MarkRow],
    runs: &[RunRow],
) -> Result<(), AllocError> {
    for run in runs {
        add_run(alloc, found, marks, run)?;
    }
    Ok(())
}

/// Findings about each mark.
fn add_each_mark(alloc: Global, found: &mut Findings, marks: &[MarkRow]) -> Result<(), AllocError> {
    for row in marks {
        let key = format!(in alloc; "settled {}", row.site)?;
        if !is_site(row.site.as_bytes()) {
            found.add_of(&key, NO_SITE)?;
        }
        if !is_run_number(row.mark) {
            found.add_of(&key, " has a mark that is no run's number")?;
        }
    }
    Ok(())
}

/// The rows of stored runs as texts, in order.
fn run_texts(alloc: Global, runs: &[RunRow]) -> Result<Vec<String>, AllocError> {
    let mut texts = Vec::with_capacity(alloc, runs.len())?;
    for run in runs {
        texts.push(format!(in alloc; "runs {} {}", run.site, run.number)?)?;
    }
    texts.sort_unstable();
    Ok(texts)
}

/// The rows of marks as texts, in order.
fn mark_texts(alloc: Global, marks: &[MarkRow]) -> Result<Vec<String>, AllocError> {
    let mut texts = Vec::with_capacity(alloc, marks.len())?;
    for row in marks {
        texts.push(format!(in alloc; "settled {}", row.site)?)?;
    }
    texts.sort_unstable();
    Ok(texts)
}

/// A finding for each text that is in order next to the same one.
fn add_twins(found: &mut Findings, texts: &[String], wrong: &str) -> Result<(), AllocError> {
    for i in 1..texts.len() {
        if texts[i - 1].cmp(&texts[i]).is_eq() {
            found.add_of(&texts[i], wrong)?;
        }
    }
    Ok(())
}

/// Findings about stored runs and marks.
pub fn add_runs_and_marks(
    alloc: Global,
    found: &mut Findings,
    runs: &[RunRow],
    marks: &[MarkRow],
) -> Result<(), AllocError> {
    add_each_mark(alloc, found, marks)?;
    let texts = mark_texts(alloc, marks)?;
    add_twins(found, &texts, " has two marks")?;
    add_each_run(alloc, found, marks, runs)?;
    let texts = run_texts(alloc, runs)?;
    add_twins(found, &texts, " is stored twice")
}
