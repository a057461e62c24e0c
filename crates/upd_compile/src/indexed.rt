//! Active cards with an index, for look-ups by name and by serial in constant time.

ghost use Rattle.std.specs.Prelude.{◌≡◌, ℕ, List, nat_eq, IfOk};
ghost use Rattle.std.specs.HashMap as hash;
ghost use Rattle.std.specs.Option.{option_copied};
ghost use Rattle.std.specs.Str.{bytes_eq};
ghost use Rattle.upd_compile.specs.Positions.{held_kind, position_aged, position_named};
ghost use Rattle.upd_compile.specs.Walk.{common_named, deck_aged};

use std::alloc::{AllocError, Global};
use std::collections::HashMap;
use std::marker::Model;
use upd_core::{ActiveDeckRef, ActivesRef, Ident, Kind, Serial};

/// Active cards, with an index of held idents by name and of decks by serial.
#[derive(Drop)]
pub(crate) struct Indexed<'a, 'b> {
    actives: &'a ActivesRef<'b>,
    names: HashMap<&'a [u8], (Kind, Serial)>,
    positions: HashMap<Serial, usize>,
}

impl<'a, 'b> Model for Indexed<'a, 'b> {
    ghost use Rattle.upd_core.specs.Actives.{ActivesView};

    ghost Value = { ActivesView };

    ghost use Rattle.upd_compile.specs.Indexed.{IsIndex};

    ghost view = { λ x. x.actives.now };

    ghost invariant = { IsIndex };
}

impl<'a, 'b> Indexed<'a, 'b> {
    pub(crate) fn new(
        alloc: Global,
        actives: &'a ActivesRef<'b>,
    ) -> Result<Indexed<'a, 'b>, AllocError>
        ensures { IfOk result (λ indexed. indexed ≡ actives.now) }
    {
        let names = held_names(alloc, actives.idents)?;
        let positions = deck_positions(alloc, &actives.decks)?;
        Ok(Indexed {
            actives,
            names,
            positions,
        })
    }

    /// The directory.
    pub(crate) fn idents(&self) -> &[Ident]
        ensures { result.now ≡ self.now.idents }
    {
        let actives = self.actives;
        actives.idents
    }

    /// The decks.
    pub(crate) fn decks(&self) -> &'a [ActiveDeckRef<'b>]
        ensures { result.now ≡ self.now.decks }
    {
        let actives = self.actives;
        &actives.decks
    }

    /// The position of the deck with a serial.
    pub(crate) fn position_aged(&self, age: Serial) -> Option<usize>
        ensures { result ≡ position_aged age self.now.decks }
    {
        self.positions.get(&age).copied()
    }

    /// The position of the held common deck with a name.
    pub(crate) fn position_named(&self, name: &[u8]) -> Option<usize>
        ensures { result ≡ position_named name.now self.now }
    {
        let (kind, age) = *self.names.get(name)?;
        if kind.is_common() {
            self.position_aged(age)
        } else {
            None
        }
    }

    /// The deck with a serial.
    pub(crate) fn deck_aged(&self, age: Serial) -> Option<&'a ActiveDeckRef<'b>>
        ensures { option_copied result ≡ deck_aged age self.now }
    {
        let position = self.position_aged(age)?;
        let actives = self.actives;
        actives.decks.get(position)
    }

    /// The held common deck with a name.
    pub(crate) fn common_named(&self, name: &[u8]) -> Option<&'a ActiveDeckRef<'b>>
        ensures { option_copied result ≡ common_named name.now self.now }
    {
        let position = self.position_named(name)?;
        let actives = self.actives;
        actives.decks.get(position)
    }
}

/// The held ident of each name; the first in the directory where there are several.
fn held_names(alloc: Global, idents: &[Ident]) -> Result<HashMap<&[u8], (Kind, Serial)>, AllocError>
    ensures { IfOk result
        (λ names. (name : List ℕ) → hash.get_by (λ k. bytes_eq name k.now) names ≡ held_kind name idents.now) }
{
    let mut names = HashMap::new(alloc);
    // From the last to the first: an earlier entry replaces a later one, so that the first wins.
    for i in (0..idents.len()).rev() {
        let ident = &idents[i];
        if ident.held {
            names.insert(ident.name.as_bytes(), (ident.kind, ident.age))?;
        }
    }
    Ok(names)
}

/// The position of the deck with each serial; the first where there are several.
fn deck_positions(
    alloc: Global,
    decks: &[ActiveDeckRef],
) -> Result<HashMap<Serial, usize>, AllocError>
    ensures { IfOk result
        (λ positions. (age : ℕ) → hash.get nat_eq positions age ≡ position_aged age decks.now) }
{
    let mut positions = HashMap::new(alloc);
    // From the last to the first, as above.
    for i in (0..decks.len()).rev() {
        let deck = &decks[i];
        positions.insert(deck.ident, i)?;
    }
    Ok(positions)
}
