//! What was purged after SINCE: a purge leaves no trace in the library, but its run may be stored.
ghost use Rattle.std.specs.Prelude.{◌≡◌, if◌then◌else◌, None, IfOk};
ghost use Rattle.upd_deck.specs.Reading.{reading};
ghost use Rattle.upd_edit.specs.PurgesSince.{first_of_pairs, first_of_ranges, is_seen, item_purges, lines_purge, purged_after, purged_kind, reading_purges};

use crate::warning::WarningKind;
use crate::warnings::came_again;
use std::alloc::{AllocError, Global};
use upd_core::{Ident, Library, Name, Serial};
use upd_deck::{IdentIn, Item, Line, NameRange, read_run};
use upd_records::RunRow;
use upd_text::FaultKind;
use upd_views::introduces;

/// The warning of the first name that was purged after SINCE, of an ident that came no later. None where the run that
/// introduced SINCE isn't stored, and where a purged ident has its name, which is a conflict.
pub(crate) fn purged_kind(
    alloc: Global,
    library: &Library,
    runs: &[RunRow],
    since: &Name,
) -> Result<Option<WarningKind>, AllocError>
    ensures { IfOk result (λ kind. kind ≡ purged_kind since.now runs.now library.now) }
{
    match library.ident_of(since) {
        Some(last) if !came_again(library, since) => {
            let name = purged_after(alloc, runs, since, last, library.idents())?;
            Ok(name.map(|name| WarningKind::Purged {
                name,
                since: *since,
            }))
        }
        _ => Ok(None),
    }
}

/// The first such name that the runs purge after the one that introduced SINCE.
fn purged_after(
    alloc: Global,
    runs: &[RunRow],
    since: &Name,
    last: Serial,
    idents: &[Ident],
) -> Result<Option<Name>, AllocError>
    ensures { IfOk result (λ name. name ≡ purged_after since.now last idents.now runs.now) }
{
    let mut is_after = false;
    for run in runs {
        if is_after {
            let name = run_purges(alloc, run, last, idents)?;
            if name.is_some() {
                return Ok(name);
            }
        } else {
            is_after = introduces(alloc, run, since)?;
        }
    }
    Ok(None)
}

/// The first such name that a stored run purges.
fn run_purges(
    alloc: Global,
    run: &RunRow,
    last: Serial,
    idents: &[Ident],
) -> Result<Option<Name>, AllocError>
    ensures { IfOk result (λ name. name ≡ if run.now.accepted then reading_purges last idents.now (reading run.now.bytes) else None) }
{
    if !run.accepted {
        return Ok(None);
    }
    match read_run(alloc, &run.bytes) {
        Ok(read) => Ok(lines_purge(read.lines(), last, idents)),
        Err(fault) => match fault.kind {
            FaultKind::NoMemory => Err(AllocError),
            _ => Ok(None),
        },
    }
}

fn lines_purge(lines: &[Line], last: Serial, idents: &[Ident]) -> Option<Name>
    ensures { result ≡ lines_purge last idents.now lines.now }
{
    for line in lines {
        let name = line_purges(line, last, idents);
        if name.is_some() {
            return name;
        }
    }
    None
}

fn line_purges(line: &Line, last: Serial, idents: &[Ident]) -> Option<Name>
    ensures { result ≡ item_purges last idents.now line.now.item }
{
    match &line.item {
        Item::Purge(ranges) | Item::PurDeck(ranges) => first_of_ranges(ranges, last, idents),
        Item::SelPurge(pairs) => first_of_pairs(pairs, last, idents),
        _ => None,
    }
}

fn first_of_ranges(ranges: &[NameRange], last: Serial, idents: &[Ident]) -> Option<Name>
    ensures { result ≡ first_of_ranges last idents.now ranges.now }
{
    let range = ranges
        .iter()
        .find(|range| is_seen(idents, last, &range.first))?;
    Some(range.first)
}

fn first_of_pairs(pairs: &[IdentIn], last: Serial, idents: &[Ident]) -> Option<Name>
    ensures { result ≡ first_of_pairs last idents.now pairs.now }
{
    let pair = pairs
        .iter()
        .find(|pair| is_seen(idents, last, &pair.ident))?;
    Some(pair.ident)
}

/// Whether an ident of a name came no later than the one with a serial.
fn is_seen(idents: &[Ident], last: Serial, name: &Name) -> bool
    ensures { result ≡ is_seen last idents.now name.now }
{
    idents
        .iter()
        .any(|ident| ident.name == *name && ident.age <= last)
}
