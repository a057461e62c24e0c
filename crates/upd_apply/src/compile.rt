//! `*COMPILE`: the decks that the lines of a run name. They are looked up after all lines have been applied.
ghost use Rattle.std.specs.Prelude.{◌≡◌, ◌&&◌, map, IfOk};
ghost use Rattle.std.specs.List.{filter, list_any};
ghost use Rattle.upd_core.specs.Library.{is_deck_kind};
ghost use Rattle.upd_text.specs.Outcome.{Gives, GivesAt, at_line, each};
ghost use Rattle.upd_apply.specs.Compile.{decks_in_any, line_ranges, named_decks, range_ages, ranges_named};
ghost use Rattle.upd_apply.specs.Names.{is_in};

use crate::names::{AgeRange, deck_ages};
use std::alloc::{AllocError, Global};
use upd_core::{Ident, Library, Serial};
use upd_deck::{Item, Line, NameRange};
use upd_text::{Fault, FaultKind};

/// The serials of the decks that lines name, each once, in rising order. A refusal has the number of its line.
pub(crate) fn named_decks(
    alloc: Global,
    library: &Library,
    lines: &[Line],
) -> Result<Vec<Serial>, Fault>
    ensures { GivesAt (λ found. found.items) result (named_decks lines.now library.now) }
{
    let ranges = ranges_named(alloc, library, lines)?;
    let decks = decks_in_any(alloc, library.idents(), &ranges)?;
    Ok(decks)
}

/// The ranges of decks that lines name.
fn ranges_named(alloc: Global, library: &Library, lines: &[Line]) -> Result<Vec<AgeRange>, Fault>
    ensures { GivesAt (λ found. found.items) result (ranges_named lines.now library.now) }
{
    let mut found = Vec::new(alloc);
    for line in lines {
        let ranges = line_ranges(alloc, library, line)?;
        found.extend_from_slice(&ranges)?;
    }
    Ok(found)
}

/// The ranges of decks that a line names; none unless it is `*COMPILE`.
fn line_ranges(alloc: Global, library: &Library, line: &Line) -> Result<Vec<AgeRange>, Fault>
    ensures { GivesAt (λ found. found.items) result (at_line line.now.number (line_ranges library.now line.now.item)) }
{
    let ranges = match &line.item {
        Item::Compile(ranges) => range_ages(alloc, library, ranges),
        _ => Ok(Vec::new(alloc)),
    };
    match ranges {
        Ok(found) => Ok(found),
        Err(kind) => Err(kind.at_line(line.number)),
    }
}

/// The serials of ranges of decks.
fn range_ages(
    alloc: Global,
    library: &Library,
    ranges: &[NameRange],
) -> Result<Vec<AgeRange>, FaultKind>
    ensures { Gives (λ found. found.items) result (each (range_ages library.now) ranges.now) }
{
    let mut found = Vec::new(alloc);
    for range in ranges {
        let ages = deck_ages(library, range)?;
        found.push(ages)?;
    }
    Ok(found)
}

/// The serials of the held decks in any of these ranges.
fn decks_in_any(
    alloc: Global,
    idents: &[Ident],
    ranges: &[AgeRange],
) -> Result<Vec<Serial>, AllocError>
    ensures { IfOk result (λ found. found.items
        ≡ map (λ i. i.age)
        (filter (λ i. i.held && is_deck_kind i.kind && list_any (λ r. is_in r i.age) ranges.now) idents.now)) }
{
    let mut found = Vec::new(alloc);
    for ident in idents {
        if is_deck_in_any(ident, ranges) {
            found.push(ident.age)?;
        }
    }
    Ok(found)
}

/// Whether an ident is a held deck in any of these ranges.
fn is_deck_in_any(ident: &Ident, ranges: &[AgeRange]) -> bool
    ensures { result
        ≡ (ident.now.held && is_deck_kind ident.now.kind && list_any (λ r. is_in r ident.now.age) ranges.now) }
{
    ident.held && ident.kind.is_deck() && is_in_any(ranges, ident.age)
}

/// Whether a serial is in any of these ranges.
fn is_in_any(ranges: &[AgeRange], serial: Serial) -> bool
    ensures { result ≡ list_any (λ r. is_in r serial) ranges.now }
{
    ranges.iter().any(|range| range.has(serial))
}
