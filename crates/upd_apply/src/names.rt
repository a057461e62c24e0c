//! Looking up names and ranges of names in a library.
ghost use Rattle.std.specs.Prelude.{◌≡◌, false, MatchResult};
ghost use Rattle.upd_apply.specs.Step.{new_name};
ghost use Rattle.upd_apply.specs.Names.{ages_by, is_in, is_reserved, known_deck, known_ident};

use std::marker::Model;
use upd_core::{Library, Serial};
use upd_deck::NameRange;
use upd_text::{FaultKind, Name};

/// A range of serials, both ends included.
#[derive(Clone, Copy)]
pub struct AgeRange {
    pub from: Serial,
    pub to: Serial,
}

impl Model for AgeRange {
    ghost use Rattle.upd_apply.specs.Names.{Ages};

    ghost Value = { Ages };

    ghost view = { λ a. record { from = a.from; to = a.to } };

    ghost inverse = { λ a. record { from = a.from; to = a.to } };
}

impl AgeRange {
    /// Whether a serial is in the range.
    pub(crate) fn has(&self, serial: Serial) -> bool
        ensures { result ≡ is_in self.now serial }
    {
        self.from <= serial && serial <= self.to
    }
}

/// Whether a name is `YANK$$$`.
fn is_reserved(name: &Name) -> bool
    ensures { result ≡ is_reserved name.now }
{
    *name == Name::yank()
}

/// Refuses a name that a new ident may not have, with Reserved or NameTaken.
pub(crate) fn new_name(library: &Library, name: &Name) -> Result<(), FaultKind>
    ensures { MatchResult result
        (λ _. new_name name.now library.now ≡ Ok false)
        (λ e. new_name name.now library.now ≡ Err e) }
{
    if is_reserved(name) {
        return Err(FaultKind::Reserved);
    }
    if library.held(name).is_some() {
        return Err(FaultKind::NameTaken);
    }
    Ok(())
}

/// The serial of the held ident with a name; else Reserved or IdentUnknown.
pub(crate) fn known_ident(library: &Library, name: &Name) -> Result<Serial, FaultKind>
    ensures { result ≡ known_ident name.now library.now }
{
    if is_reserved(name) {
        return Err(FaultKind::Reserved);
    }
    library.ident_of(name).ok_or(FaultKind::IdentUnknown)
}

/// The serial of the held deck with a name; else Reserved or DeckUnknown.
pub(crate) fn known_deck(library: &Library, name: &Name) -> Result<Serial, FaultKind>
    ensures { result ≡ known_deck name.now library.now }
{
    if is_reserved(name) {
        return Err(FaultKind::Reserved);
    }
    library.deck_of(name).ok_or(FaultKind::DeckUnknown)
}

/// The serials of a range of idents; else Reserved, IdentUnknown or RangeOrder.
pub(crate) fn ident_ages(library: &Library, range: &NameRange) -> Result<AgeRange, FaultKind>
    ensures { result ≡ ages_by known_ident range.now library.now }
{
    let from = known_ident(library, &range.first)?;
    let to = known_ident(library, &range.last)?;
    if to < from {
        return Err(FaultKind::RangeOrder);
    }
    Ok(AgeRange { from, to })
}

/// The serials of a range of decks; else Reserved, DeckUnknown or RangeOrder.
pub(crate) fn deck_ages(library: &Library, range: &NameRange) -> Result<AgeRange, FaultKind>
    ensures { result ≡ ages_by known_deck range.now library.now }
{
    let from = known_deck(library, &range.first)?;
    let to = known_deck(library, &range.last)?;
    if to < from {
        return Err(FaultKind::RangeOrder);
    }
    Ok(AgeRange { from, to })
}
