//! The targets of live cards, with an index for fast look-ups.

ghost use Rattle.std.specs.Prelude.{◌≡◌, [], ◌∷◌, ◌++◌, OnOk};
ghost use Rattle.std.specs.List.{list_any};
ghost use Rattle.upd_core.specs.Status.{takes_deck, is_taken};

use crate::ident::Serial;
use crate::target::Target;
use std::alloc::{AllocError, Global};
use std::collections::HashSet;
use std::marker::Model;

/// The targets of live cards, with an index. Cards are added from the last to the first, so the card added last comes
/// first in the list.
#[derive(Drop)]
pub(crate) struct Targets {
    /// From the last to the first. The code never reads it: it is what the Model shows.
    all: Vec<Target>,
    index: HashSet<Target>,
}

impl Model for Targets {
    ghost use Rattle.std.specs.Prelude.{List};
    ghost use Rattle.upd_core.specs.declared.target.Target.{Target};

    ghost Value = { List Target };

    ghost use Rattle.upd_core.specs.Targets.{IsIndexed, shown};

    ghost view = { shown };

    ghost invariant = { IsIndexed };
}

impl Targets {
    /// No targets. It does not allocate.
    pub(crate) fn new(alloc: Global) -> Targets
        ensures { result ≡ [] }
    {
        Targets {
            all: Vec::new(alloc),
            index: HashSet::new(alloc),
        }
    }

    /// Adds the targets of one more card, in front of all others.
    pub(crate) fn add(&mut self, targets: &[Target]) -> Result<(), AllocError>
        ensures { OnOk result (self.new ≡ targets.now ++ self.old) }
    {
        for i in (0..targets.len()).rev() {
            self.push_front(targets[i])?;
        }
        Ok(())
    }

    /// Room is reserved first: where memory runs out, each target of the index is in the list.
    fn push_front(&mut self, target: Target) -> Result<(), AllocError>
        ensures { OnOk result (self.new ≡ target ∷ self.old) }
    {
        self.all.reserve(1)?;
        self.index.insert(target)?;
        self.all.push_reserved(target);
        Ok(())
    }

    /// Whether a target takes an ident in a deck.
    pub(crate) fn is_taken(&self, deck: Serial, ident: Serial) -> bool
        ensures { result ≡ is_taken self.now deck ident }
    {
        self.index.contains(&Target::Set(ident)) || self.index.contains(&Target::SetIn(ident, deck))
    }

    /// Whether a target takes all cards of a deck.
    pub(crate) fn takes_deck(&self, deck: Serial) -> bool
        ensures { result ≡ list_any (takes_deck deck) self.now }
    {
        self.index.contains(&Target::Deck(deck))
    }
}
