//! The decks of a compile file.

ghost use Rattle.std.specs.Prelude.{◌≡◌, ℕ, Bool, ◌&&◌, ◌||◌, not, nat_eq, map, replicate, true, length, IfOk};
ghost use Rattle.std.specs.HashSet as bag;
ghost use Rattle.std.specs.List.{filter, zip};
ghost use Rattle.upd_core.specs.Actives.{ActiveDeckView};
ghost use Rattle.upd_core.specs.Edits.{is_among};
ghost use Rattle.upd_core.specs.Library.{is_common};
ghost use Rattle.upd_compile.specs.Chosen.{chosen, chooses, is_common_deck};
ghost use Rattle.upd_compile.specs.Idents.{passes};

use crate::chains::chain_flags;
use crate::changes::change_flags;
use crate::flags::any_of;
use crate::idents::ident_at;
use crate::indexed::Indexed;
use crate::mode::Mode;
use std::alloc::{AllocError, Global};
use std::collections::HashSet;
use upd_core::{ActiveDeckRef, ActivesRef, Ident, Serial};

/// The decks of a compile file, in library order.
pub(crate) fn chosen_decks<'a, 'b>(
    alloc: Global,
    mode: Mode,
    named: &[Serial],
    before: &ActivesRef,
    after: &Indexed<'a, 'b>,
) -> Result<Vec<&'a ActiveDeckRef<'b>>, AllocError>
    ensures { IfOk result (λ decks. map (λ d. d.now) decks.items ≡ chosen mode named.now before.now after.now) }
{
    let choices = choices(alloc, mode, named, before, after)?;
    picked_decks(alloc, after, &choices)
}

/// The flagged decks that aren't common.
fn picked_decks<'a, 'b>(
    alloc: Global,
    source: &Indexed<'a, 'b>,
    flags: &[bool],
) -> Result<Vec<&'a ActiveDeckRef<'b>>, AllocError>
    requires { length flags.now ≡ length source.now.decks }
    ensures { IfOk result (λ found. (test : ActiveDeckView → Bool) → flags.now ≡ map test source.now.decks
        → map (λ d. d.now) found.items ≡ filter (λ d. not (is_common_deck source.now d) && test d) source.now.decks) }
{
    let decks = source.decks();
    let mut found = Vec::new(alloc);
    for (i, deck) in decks.iter().enumerate() {
        if is_picked(source.idents(), deck.ident, flags[i]) {
            found.push(deck)?;
        }
    }
    Ok(found)
}

fn is_picked(idents: &[Ident], deck: Serial, is_flagged: bool) -> bool
    ensures { result ≡ not (passes (λ i. is_common i.kind) idents.now deck) && is_flagged }
{
    match ident_at(idents, deck) {
        Some(ident) => !ident.kind.is_common() && is_flagged,
        None => is_flagged,
    }
}

/// Whether the mode chooses each deck; common decks are left out later.
fn choices(
    alloc: Global,
    mode: Mode,
    named: &[Serial],
    before: &ActivesRef,
    after: &Indexed,
) -> Result<Vec<bool>, AllocError>
    ensures { IfOk result
        (λ flags. flags.items ≡ map (chooses mode named.now before.now after.now) after.now.decks) }
{
    match mode {
        Mode::Full => all_flags(alloc, after.decks()),
        Mode::Quick => named_flags(alloc, named, after.decks()),
        Mode::Normal => normal_flags(alloc, named, before, after),
    }
}

/// Whether each deck is named, or changed, or has a chain to a changed common deck.
fn normal_flags(
    alloc: Global,
    named: &[Serial],
    before: &ActivesRef,
    after: &Indexed,
) -> Result<Vec<bool>, AllocError>
    ensures { IfOk result
        (λ flags. flags.items ≡ map (chooses Mode.Normal named.now before.now after.now) after.now.decks) }
{
    let named = named_flags(alloc, named, after.decks())?;
    let changed = change_flags(alloc, before, after.decks())?;
    let chained = chain_flags(alloc, after, &changed)?;
    any_of(alloc, &named, &changed, &chained)
}

fn all_flags(alloc: Global, decks: &[ActiveDeckRef]) -> Result<Vec<bool>, AllocError>
    ensures { IfOk result (λ flags. flags.items ≡ map (λ d. true) decks.now) }
{
    decks.iter().map(|_| true).collect(alloc)
}

/// Whether each deck is among the named ones.
fn named_flags(
    alloc: Global,
    named: &[Serial],
    decks: &[ActiveDeckRef],
) -> Result<Vec<bool>, AllocError>
    ensures { IfOk result (λ flags. flags.items ≡ map (λ d. is_among named.now d.ident) decks.now) }
{
    let named = set_of(alloc, named)?;
    decks
        .iter()
        .map(|deck| named.contains(&deck.ident))
        .collect(alloc)
}

fn set_of(alloc: Global, ages: &[Serial]) -> Result<HashSet<Serial>, AllocError>
    ensures { IfOk result (λ set. (age : ℕ) → bag.contains nat_eq set age ≡ is_among ages.now age) }
{
    ages.iter().copied().collect(alloc)
}
