//! Items: what a line of a run asks for.

use upd_text::{CardRef, Name};

/// The idents or decks from one name to another, in order of serial. A single name is the range from it to itself.
#[derive(Clone, Copy, Debug)]
pub struct NameRange {
    pub first: Name,
    pub last: Name,
}

/// An ident in one deck, written `deck.ident`.
#[derive(Clone, Copy, Debug)]
pub struct IdentIn {
    pub deck: Name,
    pub ident: Name,
}

/// The item of a line that isn't a comment.
#[derive(Debug, Drop)]
pub enum Item {
    /// A text card.
    Text,
    /// A text card that calls a common deck: a compile file has the deck's cards in its place.
    Call(Name),
    /// A new set.
    Ident(Name),
    /// A new deck.
    Deck(Name),
    /// A new common deck. With `noprop`, a change of it doesn't put the decks that call it into a normal compile file.
    CommonDeck { name: Name, noprop: bool },
    /// Text follows the card.
    Insert(CardRef),
    /// Text precedes the card.
    Before(CardRef),
    /// Switches a range of cards off; a single card is the range from it to itself.
    Delete { first: CardRef, last: CardRef },
    /// Switches a range of cards on.
    Restore { first: CardRef, last: CardRef },
    /// Takes idents out of use while the yank card is live.
    Yank(Vec<NameRange>),
    /// Takes idents out of use, each in one deck.
    SelYank(Vec<IdentIn>),
    /// Takes whole decks out of use.
    YankDeck(Vec<Name>),
    /// Removes idents permanently.
    Purge(Vec<NameRange>),
    /// Removes an ident and all younger ones permanently.
    PurgeFrom(Name),
    /// Removes the cards and entries of idents permanently, each in one deck.
    SelPurge(Vec<IdentIn>),
    /// Removes decks permanently.
    PurDeck(Vec<NameRange>),
    /// Requests decks for the compile file.
    Compile(Vec<NameRange>),
}
