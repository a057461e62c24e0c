//! Decks that stay where a set goes: whether both came by one run, as the stored runs say.
ghost use Rattle.std.specs.Prelude.{◌≡◌, ◌++◌, IfOk, OnOk};
ghost use Rattle.std.specs.List.{list_any};
ghost use Rattle.upd_edit.specs.StayingDecks.{all_by_runs, asks_runs, came_together, came_with, kind_by_runs, kind_of_deck, warnings_by_runs};

use crate::purges_since::purged_kind;
use crate::warning::{TakingWord, Warning, WarningKind, push};
use std::alloc::{AllocError, Global};
use upd_core::{Ident, Library, Name};
use upd_records::RunRow;
use upd_views::{introducer, introduces};

/// All warnings of a run that is tried, as the stored runs have them: first that of a purge after SINCE. Of a deck that
/// didn't come with the set that goes there isn't one.
pub fn all_by_runs(
    alloc: Global,
    library: &Library,
    runs: &[RunRow],
    since: &Option<Name>,
    list: &[Warning],
) -> Result<Vec<Warning>, AllocError>
    ensures { IfOk result (λ told. told.items ≡ all_by_runs since.now runs.now library.now list.now) }
{
    let mut told = Vec::new(alloc);
    if let Some(name) = since {
        push(&mut told, 1, purged_kind(alloc, library, runs, name)?)?;
    }
    push_by_runs(&mut told, runs, library.idents(), list)?;
    Ok(told)
}

/// Appends warnings as the stored runs have them.
fn push_by_runs(
    told: &mut Vec<Warning>,
    runs: &[RunRow],
    idents: &[Ident],
    list: &[Warning],
) -> Result<(), AllocError>
    ensures { OnOk result (told.new.items ≡ told.old.items ++ warnings_by_runs runs.now idents.now list.now) }
{
    for warning in list {
        let kind = kind_by_runs(*told.allocator(), runs, idents, &warning.kind)?;
        push(told, warning.line, kind)?;
    }
    Ok(())
}

fn kind_by_runs(
    alloc: Global,
    runs: &[RunRow],
    idents: &[Ident],
    kind: &WarningKind,
) -> Result<Option<WarningKind>, AllocError>
    ensures { IfOk result (λ told. told ≡ kind_by_runs runs.now idents.now kind.now) }
{
    match kind {
        WarningKind::DeckStays {
            word,
            set,
            deck,
            known,
        } => {
            let together = came_together(alloc, runs, idents, set, deck)?;
            Ok(kind_of_deck(together, *word, set, deck, *known))
        }
        _ => Ok(Some(*kind)),
    }
}

/// What is warned of a deck that stays, by whether it came with the set, as far as it is known.
fn kind_of_deck(
    together: Option<bool>,
    word: TakingWord,
    set: &Name,
    deck: &Name,
    known: bool,
) -> Option<WarningKind>
    ensures { result ≡ kind_of_deck together word set.now deck.now known }
{
    let known = match together {
        Some(true) => true,
        Some(false) => return None,
        None => known,
    };
    Some(WarningKind::DeckStays {
        word,
        set: *set,
        deck: *deck,
        known,
    })
}

/// Whether a set and a deck came by one run; None where the runs of both aren't stored.
fn came_together(
    alloc: Global,
    runs: &[RunRow],
    idents: &[Ident],
    set: &Name,
    deck: &Name,
) -> Result<Option<bool>, AllocError>
    ensures { IfOk result (λ is. is ≡ came_together set.now deck.now runs.now idents.now) }
{
    match came_with(alloc, runs, idents, deck, set)? {
        Some(is) => Ok(Some(is)),
        None => came_with(alloc, runs, idents, set, deck),
    }
}

/// Whether the stored run that introduced an ident introduced another one, too; None where it isn't stored.
fn came_with(
    alloc: Global,
    runs: &[RunRow],
    idents: &[Ident],
    name: &Name,
    other: &Name,
) -> Result<Option<bool>, AllocError>
    ensures { IfOk result (λ is. is ≡ came_with name.now other.now runs.now idents.now) }
{
    match introducer(alloc, runs, idents, name)? {
        Some(run) => Ok(Some(introduces(alloc, run, other)?)),
        None => Ok(None),
    }
}

/// Whether the stored runs can make a difference to some warnings.
pub fn ask_runs(list: &[Warning]) -> bool
    ensures { result ≡ list_any (λ w. asks_runs w.kind) list.now }
{
    list.iter().any(|warning| matches!(warning.kind, WarningKind::DeckStays { .. }))
}
