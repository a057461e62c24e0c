//! The words that begin directives and calls.

ghost use Rattle.std.specs.Prelude.{◌≡◌, map};
ghost use Rattle.upd_deck.specs.Reading.{meaning, meaning_in, spelled};

/// The words of the profile. A line with any other word is a text card.
#[derive(Clone, Copy, Debug, PartialEq, Eq)]
pub enum Word {
    Call,
    Ident,
    Deck,
    CommonDeck,
    Insert,
    Before,
    Delete,
    Restore,
    Yank,
    SelYank,
    YankDeck,
    Purge,
    SelPurge,
    PurDeck,
    Compile,
}

/// The spellings of the words, in full and short. No two are equal.
const SPELLINGS: [(&[u8], Word); 25] = [
    (b"IDENT", Word::Ident),
    (b"ID", Word::Ident),
    (b"DECK", Word::Deck),
    (b"DK", Word::Deck),
    (b"COMDECK", Word::CommonDeck),
    (b"CD", Word::CommonDeck),
    (b"INSERT", Word::Insert),
    (b"I", Word::Insert),
    (b"BEFORE", Word::Before),
    (b"B", Word::Before),
    (b"DELETE", Word::Delete),
    (b"D", Word::Delete),
    (b"RESTORE", Word::Restore),
    (b"R", Word::Restore),
    (b"CALL", Word::Call),
    (b"CA", Word::Call),
    (b"COMPILE", Word::Compile),
    (b"C", Word::Compile),
    (b"YANK", Word::Yank),
    (b"Y", Word::Yank),
    (b"SELYANK", Word::SelYank),
    (b"YANKDECK", Word::YankDeck),
    (b"PURGE", Word::Purge),
    (b"SELPURGE", Word::SelPurge),
    (b"PURDECK", Word::PurDeck),
];

impl Word {
    /// Reads a whole text as a word or its short form.
    pub fn read(text: &[u8]) -> Option<Word>
        ensures { result ≡ meaning text.now }
    {
        meaning_in(&SPELLINGS, text)
    }
}

/// The meaning of the first spelling that equals the text.
fn meaning_in(spellings: &[(&[u8], Word)], text: &[u8]) -> Option<Word>
    ensures { result ≡ meaning_in (map (λ s. spelled s.0.now s.1) spellings.now) text.now }
{
    for spelling in spellings {
        if text == spelling.0 {
            return Some(spelling.1);
        }
    }
    None
}
