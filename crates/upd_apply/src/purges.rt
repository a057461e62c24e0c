//! Purges: `*PURGE`, `*SELPURGE`, `*PURDECK`, and the idents that they name.
ghost use Rattle.std.specs.Prelude.{◌≡◌, ◌&&◌, [], ◌∷◌, ◌++◌, map, Ok, Err, MatchResult, IfOk, OnOk};
ghost use Rattle.std.specs.List.{filter};
ghost use Rattle.upd_core.specs.Library.{is_deck_kind};
ghost use Rattle.upd_text.specs.Outcome.{Does, Gives};
ghost use Rattle.upd_deck.specs.Items.{PurDeck, Purge, PurgeFrom, SelPurge};
ghost use Rattle.upd_apply.specs.LineEdits.{ended, purged_in_all};
ghost use Rattle.upd_apply.specs.Step.{carried_out, judged};
ghost use Rattle.upd_apply.specs.Names.{is_in};
ghost use Rattle.upd_apply.specs.Purges.{decks_purged, idents_purged, idents_with, pair_ages, pairs_purged};

use crate::names::{AgeRange, deck_ages, ident_ages, known_deck, known_ident};
use crate::state::{InsertPoint, State};
use std::alloc::AllocError;
use std::marker::Model;
use upd_core::{Ident, Library, Serial};
use upd_deck::{IdentIn, NameRange};
use upd_text::{FaultKind, Name};

/// The serials of an ident and a deck.
#[derive(Clone, Copy)]
pub struct AgePair {
    pub deck: Serial,
    pub ident: Serial,
}

impl Model for AgePair {
    ghost use Rattle.upd_apply.specs.Purges.{AgesIn};

    ghost Value = { AgesIn };

    ghost view = { λ a. record { deck = a.deck; ident = a.ident } };

    ghost inverse = { λ a. record { deck = a.deck; ident = a.ident } };
}

/// Purges need no current set, and clear it.
impl State {
    /// `*PURGE` of names and ranges.
    pub(crate) fn purge_idents(&mut self, ranges: &[NameRange]) -> Result<(), FaultKind>
        ensures { Does result self.new (carried_out (judged (Purge ranges.now) [] self.old) self.old) }
    {
        let ages = idents_purged(&self.library, ranges)?;
        self.library.purge(&ages)?;
        self.end();
        Ok(())
    }

    /// `*PURGE` of an ident and all younger ones.
    pub(crate) fn purge_from(&mut self, name: &Name) -> Result<(), FaultKind>
        ensures { MatchResult result
            (λ _. carried_out (judged (PurgeFrom name.now) [] self.old) self.old ≡ Ok self.new)
            (λ e. carried_out (judged (PurgeFrom name.now) [] self.old) self.old ≡ Err e) }
    {
        let age = known_ident(&self.library, name)?;
        self.library.purge_from(age);
        self.end();
        Ok(())
    }

    /// `*SELPURGE`: idents, each in one deck.
    pub(crate) fn purge_pairs(&mut self, pairs: &[IdentIn]) -> Result<(), FaultKind>
        ensures { Does result self.new (carried_out (judged (SelPurge pairs.now) [] self.old) self.old) }
    {
        let ages = pairs_purged(&self.library, pairs)?;
        purge_in_all(&mut self.library, ages)?;
        self.end();
        Ok(())
    }

    /// `*PURDECK`: decks with their cards.
    pub(crate) fn purge_decks(&mut self, ranges: &[NameRange]) -> Result<(), FaultKind>
        ensures { Does result self.new (carried_out (judged (PurDeck ranges.now) [] self.old) self.old) }
    {
        let ages = decks_purged(&self.library, ranges)?;
        self.library.purge(&ages)?;
        self.end();
        Ok(())
    }

    /// Clears the current set and the insertion point, as each purge does.
    fn end(&mut self)
        ensures { self.new ≡ ended self.old.library }
    {
        self.current_set = None;
        self.insert_point = InsertPoint::Nowhere;
    }
}

/// Purges idents, each in one deck: those of one deck together, since a purge visits each card of its deck.
fn purge_in_all(library: &mut Library, pairs: Vec<AgePair>) -> Result<(), AllocError>
    ensures { OnOk result (library.new ≡ purged_in_all pairs.items library.old) }
{
    let mut left = pairs;
    while !left.is_empty() {
        let deck = left[0].deck;
        let idents = idents_with(&left, deck)?;
        library.purge_in(deck, &idents)?;
        left.retain(|pair| pair.deck != deck);
    }
    Ok(())
}

/// The idents that pairs have with a deck.
fn idents_with(pairs: &Vec<AgePair>, deck: Serial) -> Result<Vec<Serial>, AllocError>
    ensures { IfOk result (λ idents. idents.items ≡ idents_with deck pairs.now.items) }
{
    let mut idents = Vec::new(*pairs.allocator());
    for pair in pairs {
        if pair.deck == deck {
            idents.push(pair.ident)?;
        }
    }
    Ok(idents)
}

/// The serials of the idents that `*PURGE` names.
pub(crate) fn idents_purged(
    library: &Library,
    ranges: &[NameRange],
) -> Result<Vec<Serial>, FaultKind>
    ensures { Gives (λ found. found.items) result (idents_purged ranges.now library.now) }
{
    let mut found = Vec::new(library.allocator());
    for range in ranges {
        let ages = ident_ages(library, range)?;
        add_idents(&mut found, library.idents(), ages)?;
    }
    Ok(found)
}

/// The serials of the decks that `*PURDECK` names.
pub(crate) fn decks_purged(
    library: &Library,
    ranges: &[NameRange],
) -> Result<Vec<Serial>, FaultKind>
    ensures { Gives (λ found. found.items) result (decks_purged ranges.now library.now) }
{
    let mut found = Vec::new(library.allocator());
    for range in ranges {
        let ages = deck_ages(library, range)?;
        add_decks(&mut found, library.idents(), ages)?;
    }
    Ok(found)
}

/// The idents and decks that `*SELPURGE` names. DeckCard where an ident is the deck's own.
pub(crate) fn pairs_purged(library: &Library, pairs: &[IdentIn]) -> Result<Vec<AgePair>, FaultKind>
    ensures { Gives (λ found. found.items) result (pairs_purged pairs.now library.now) }
{
    let mut found = Vec::new(library.allocator());
    for pair in pairs {
        let ages = pair_ages(library, pair)?;
        found.push(ages)?;
    }
    Ok(found)
}

/// An ident in a deck, which isn't the deck's own; else Reserved, DeckUnknown, IdentUnknown or DeckCard.
fn pair_ages(library: &Library, pair: &IdentIn) -> Result<AgePair, FaultKind>
    ensures { MatchResult result
        (λ ages. pair_ages library.now pair.now ≡ Ok (ages ∷ []))
        (λ e. pair_ages library.now pair.now ≡ Err e) }
{
    let deck = known_deck(library, &pair.deck)?;
    let ident = known_ident(library, &pair.ident)?;
    if ident == deck {
        return Err(FaultKind::DeckCard);
    }
    Ok(AgePair { deck, ident })
}

/// Adds the serials of the held idents in a range.
fn add_idents(found: &mut Vec<Serial>, idents: &[Ident], ages: AgeRange) -> Result<(), AllocError>
    ensures { OnOk result (found.new.items
        ≡ found.old.items ++ map (λ i. i.age) (filter (λ i. i.held && is_in ages i.age) idents.now)) }
{
    for ident in idents {
        if ident.held && ages.has(ident.age) {
            found.push(ident.age)?;
        }
    }
    Ok(())
}

/// Adds the serials of the held decks in a range.
fn add_decks(found: &mut Vec<Serial>, idents: &[Ident], ages: AgeRange) -> Result<(), AllocError>
    ensures { OnOk result (found.new.items
        ≡ found.old.items
        ++ map (λ i. i.age) (filter (λ i. i.held && is_deck_kind i.kind && is_in ages i.age) idents.now)) }
{
    for ident in idents {
        if ident.held && ident.kind.is_deck() && ages.has(ident.age) {
            found.push(ident.age)?;
        }
    }
    Ok(())
}
