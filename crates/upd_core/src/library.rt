//! The library and its look-ups. Its edits are in `edits`, its limits in `limits`.

ghost use Rattle.std.specs.Prelude.{◌≡◌, IfOk};
ghost use Rattle.std.specs.Option.{option_copied};
ghost use Rattle.std.specs.Result.{IsOkUnless};
ghost use Rattle.upd_core.specs.Actives.{actives_of};
ghost use Rattle.upd_text.specs.Faults.{fault_at};
ghost use Rattle.upd_text.specs.declared.fault.FaultKind.TheVariants.{NoMemory};
ghost use Rattle.upd_core.specs.Library.{empty, held_named, ident_of, deck_of, place_of, cards_of, card_in};
ghost use Rattle.upd_core.specs.Status.{live_of, status_of};

use crate::active_refs::{ActivesRef, active_decks};
use crate::actives::Actives;
use crate::card::{Card, copy_cards};
use crate::counts::Counts;
use crate::deck::{Deck, card_index, deck_aged};
use crate::decks::Decks;
use crate::ident::{Ident, Serial, held_named};
use crate::live::{Live, is_active, live_flags};
use std::alloc::Global;
use std::marker::Model;
use upd_text::{CardRef, Fault, Name};

/// The place of a card: the serial of its deck (0 for `YANK$$$`) and its index there, from 0.
#[derive(Clone, Copy, Debug, PartialEq, Eq)]
pub struct Place {
    pub deck: Serial,
    pub index: usize,
}

/// The cards and entries of the decks that aren't loaded. They count towards the limits.
#[derive(Clone, Copy, Debug, PartialEq, Eq)]
pub struct Rest {
    pub cards: usize,
    pub entries: usize,
}

/// A program library.
#[derive(Debug)]
pub struct Library {
    pub(crate) idents: Vec<Ident>,
    pub(crate) decks: Decks,
    pub(crate) yanks: Vec<Card>,
    pub(crate) rest: Rest,
    /// Its sizes, updated by each edit.
    pub(crate) counts: Counts,
}

// By hand: see CONTRIBUTING.md.
impl Drop for Library {
    fn drop(self) {
        let Library {
            idents: _,
            decks: _,
            yanks: _,
            rest: _,
            counts: _,
        } = self;
    }
}

impl Model for Library {
    ghost use Rattle.upd_core.specs.Counts.{AreOf};
    ghost use Rattle.upd_core.specs.Library.{LibraryView};

    ghost Value = { LibraryView };

    ghost view = { λ l. record {
      idents = l.idents.items;
      decks = l.decks;
      yanks = l.yanks.items;
      rest = l.rest;
    } };

    ghost invariant = { λ l. AreOf (record {
      idents = l.idents.items;
      decks = l.decks;
      yanks = l.yanks.items;
      rest = l.rest;
    }) l.counts };
}

impl Library {
    /// The empty library. It does not allocate.
    pub fn new(alloc: Global) -> Library
        ensures { result ≡ empty }
    {
        Library {
            idents: Vec::new(alloc),
            decks: Decks::of(Vec::new(alloc)),
            yanks: Vec::new(alloc),
            rest: Rest {
                cards: 0,
                entries: 0,
            },
            counts: Counts::none(),
        }
    }

    /// A library of these parts.
    pub fn of_parts(idents: Vec<Ident>, decks: Vec<Deck>, yanks: Vec<Card>, rest: Rest) -> Library
        ensures { result ≡ record {
          idents = idents.items;
          decks = decks.items;
          yanks = yanks.items;
          rest = rest;
        } }
    {
        let counts = Counts::of(&idents, &decks, &yanks, rest);
        Library {
            idents,
            decks: Decks::of(decks),
            yanks,
            rest,
            counts,
        }
    }

    /// A deep copy.
    pub fn copy(&self) -> Result<Library, Fault>
        ensures ok { IfOk result (λ copy. copy ≡ self.now) }
        ensures err { IsOkUnless result (fault_at NoMemory 0) }
    {
        let alloc = *self.idents.allocator();
        let idents = Vec::from_slice(alloc, &self.idents)?;
        let decks = self.decks.copy()?;
        let yanks = copy_cards(alloc, &self.yanks)?;
        Ok(Library {
            idents,
            decks,
            yanks,
            rest: self.rest,
            counts: self.counts,
        })
    }

    /// The directory: all idents ever introduced, in order of serial.
    pub fn idents(&self) -> &[Ident]
        ensures { result.now ≡ self.now.idents }
    {
        self.idents.as_slice()
    }

    /// The decks other than `YANK$$$`, in order of serial.
    pub fn decks(&self) -> &[Deck]
        ensures { result.now ≡ self.now.decks }
    {
        self.decks.as_slice()
    }

    /// The cards of `YANK$$$`.
    pub fn yanks(&self) -> &[Card]
        ensures { result.now ≡ self.now.yanks }
    {
        self.yanks.as_slice()
    }

    /// The cards and entries of decks that aren't loaded: both 0 in a whole library.
    pub fn rest(&self) -> Rest
        ensures { result ≡ self.now.rest }
    {
        self.rest
    }

    /// The held ident with a name.
    pub fn held(&self, name: &Name) -> Option<&Ident>
        ensures { option_copied result ≡ held_named name.now self.now.idents }
    {
        held_named(&self.idents, name)
    }

    /// The serial of the held ident with a name.
    pub fn ident_of(&self, name: &Name) -> Option<Serial>
        ensures { result ≡ ident_of name.now self.now }
    {
        self.held(name).map(|ident| ident.age)
    }

    /// The serial of the held deck with a name, common or not.
    pub fn deck_of(&self, name: &Name) -> Option<Serial>
        ensures { result ≡ deck_of name.now self.now }
    {
        let ident = self.held(name)?;
        if ident.kind.is_deck() {
            Some(ident.age)
        } else {
            None
        }
    }

    /// The cards of the deck with a serial, 0 for `YANK$$$`; empty where there is no such deck.
    pub fn cards_of(&self, age: Serial) -> &[Card]
        ensures { result.now ≡ cards_of age self.now }
    {
        if age == 0 {
            return &self.yanks;
        }
        match deck_aged(self.decks(), age) {
            Some(deck) => &deck.cards,
            None => &[],
        }
    }

    /// The place of the card that a reference names.
    pub fn card_at(&self, card: CardRef) -> Option<Place>
        ensures { result ≡ place_of card self.now }
    {
        let ident = self.ident_of(&card.name)?;
        match card_index(&self.yanks, ident, card.number) {
            Some(index) => Some(Place { deck: 0, index }),
            None => self.decks.place_of(ident, card.number),
        }
    }

    /// The card at a place.
    pub fn card_in(&self, place: Place) -> Option<&Card>
        ensures { option_copied result ≡ card_in place self.now }
    {
        self.cards_of(place.deck).get(place.index)
    }

    /// Which yank cards are live.
    pub fn live_yanks(&self) -> Result<Live<'_>, Fault>
        ensures ok { IfOk result (λ live. live ≡ live_of self.now) }
        ensures err { IsOkUnless result (fault_at NoMemory 0) }
    {
        let (live, targets) = live_flags(*self.yanks.allocator(), &self.yanks)?;
        Ok(Live {
            idents: &self.idents,
            yanks: &self.yanks,
            live,
            targets,
        })
    }

    /// Whether the card that a reference names is active; for a yank card, whether it is live. None where there is no
    /// such card.
    pub fn status(&self, live: &Live, card: CardRef) -> Option<bool>
        requires { live.now ≡ live_of self.now }
        ensures { result ≡ status_of card self.now }
    {
        let place = self.card_at(card)?;
        let card = self.card_in(place)?;
        Some(is_active(&live.targets, place.deck, card))
    }

    /// Copies of the active cards of all decks other than `YANK$$$`.
    pub fn actives(&self) -> Result<Actives, Fault>
        ensures ok { IfOk result (λ actives. actives ≡ actives_of self.now) }
        ensures err { IsOkUnless result (fault_at NoMemory 0) }
    {
        let shown = self.actives_shown()?;
        let actives = shown.copy()?;
        Ok(actives)
    }

    /// [`Library::actives`] by reference: no text is copied.
    pub fn actives_shown(&self) -> Result<ActivesRef<'_>, Fault>
        ensures ok { IfOk result (λ actives. actives ≡ actives_of self.now) }
        ensures err { IsOkUnless result (fault_at NoMemory 0) }
    {
        let alloc = *self.idents.allocator();
        let (_, targets) = live_flags(alloc, &self.yanks)?;
        let decks = active_decks(alloc, &targets, self.decks())?;
        Ok(ActivesRef {
            idents: &self.idents,
            decks,
        })
    }
}
