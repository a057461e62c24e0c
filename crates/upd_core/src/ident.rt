//! Idents and the directory.

ghost use Rattle.std.specs.Prelude.{◌≡◌};
ghost use Rattle.std.specs.Option.{option_copied};
ghost use Rattle.upd_core.specs.Library.{held_named, is_deck_kind, is_common, name_at};

use upd_text::Name;

/// The serial number of an ident: 1 for the first ever introduced, and a younger ident has a greater one. `YANK$$$`
/// has serial 0.
pub type Serial = u32;

/// What an ident names.
#[derive(Clone, Copy, Debug, PartialEq, Eq)]
pub enum Kind {
    /// A correction set.
    Set,
    /// A deck that isn't common.
    Deck,
    /// A common deck: its cards are copied to where it is called.
    Common,
}

/// A correction set or a deck in the directory. Its serial identifies it: a purged name may be introduced again, with
/// a new serial.
#[derive(Clone, Copy, Debug)]
pub struct Ident {
    pub name: Name,
    pub age: Serial,
    pub kind: Kind,
    /// NOPROP, for a common deck: in mode normal, a change of it doesn't put its callers into the compile file. They
    /// may be chosen for another reason.
    pub noprop: bool,
    /// Introduced and not purged.
    pub held: bool,
}

impl Kind {
    /// Whether it is a deck, common or not.
    pub fn is_deck(self) -> bool
        ensures { result ≡ is_deck_kind self }
    {
        match self {
            Kind::Set => false,
            Kind::Deck | Kind::Common => true,
        }
    }

    /// Whether it is a common deck.
    pub fn is_common(self) -> bool
        ensures { result ≡ is_common self }
    {
        match self {
            Kind::Set | Kind::Deck => false,
            Kind::Common => true,
        }
    }
}

/// The held ident with a name.
pub(crate) fn held_named<'a>(idents: &'a [Ident], name: &Name) -> Option<&'a Ident>
    ensures { option_copied result ≡ held_named name.now idents.now }
{
    for ident in idents {
        if ident.held && ident.name == *name {
            return Some(ident);
        }
    }
    None
}

/// The name of the ident with a serial, held or not.
pub fn name_at(idents: &[Ident], age: Serial) -> Option<Name>
    ensures { result ≡ name_at idents.now age }
{
    if age == 0 {
        return None;
    }
    let ident = idents.get(age as usize - 1)?;
    Some(ident.name)
}
