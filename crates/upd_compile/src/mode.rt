//! The modes of a compile file.

ghost use Rattle.std.specs.Prelude.{◌≡◌};

/// Which decks a compile file has. Common decks are only in it where they are called.
#[derive(Clone, Copy, Debug, PartialEq, Eq)]
pub enum Mode {
    /// All decks.
    Full,
    /// The decks that `*COMPILE` names.
    Quick,
    /// The decks that `*COMPILE` names, those that the run changed, and callers of changed common decks.
    Normal,
}

impl Mode {
    ghost use Rattle.upd_compile.specs.Modes.{mode_named};

    /// The mode of a word: `full`, `quick` or `normal`.
    pub fn read(word: &str) -> Option<Mode>
        ensures { result ≡ mode_named word.now }
    {
        match word {
            "full" => Some(Mode::Full),
            "quick" => Some(Mode::Quick),
            "normal" => Some(Mode::Normal),
            _ => None,
        }
    }
}
