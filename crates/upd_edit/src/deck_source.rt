//! The compile file of one deck.
ghost use Rattle.upd_edit.specs.Source.{source};
ghost use Rattle.upd_text.specs.Outcome.{GivesAt};

use std::alloc::Global;
use upd_compile::{CompileFile, Mode, compile_file};
use upd_core::{Library, Name};
use upd_text::{Fault, FaultKind};

/// The compile file that has only one deck, its calls followed. That of a common deck has no lines. DeckUnknown, at 0,
/// where no held deck has the name; CallUnknown, CallDepth or CompileLong, at 0, where the walk through the deck meets
/// one.
pub fn source(alloc: Global, library: &Library, name: &Name) -> Result<CompileFile, Fault>
    ensures { GivesAt (λ file. file) result (source name.now library.now) }
{
    let unknown = FaultKind::DeckUnknown.without_line();
    let deck = library.deck_of(name).ok_or(unknown)?;
    compile_file(alloc, library, library, Mode::Quick, &[deck])
}
