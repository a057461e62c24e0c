//! Compile files.

ghost use Rattle.std.specs.Prelude.{◌≡◌, [], map, Ok};
ghost use Rattle.std.specs.List.{flat_map};
ghost use Rattle.upd_core.specs.Actives.{ActivesView};
ghost use Rattle.upd_text.specs.Outcome.{GivesAt};
ghost use Rattle.upd_compile.specs.File.{compile_file_of, file_of, written};
ghost use Rattle.upd_compile.specs.Walk.{walk};

use crate::chosen::chosen_decks;
use crate::indexed::Indexed;
use crate::mode::Mode;
use crate::progress::Progress;
use crate::walk::walk_all;
use std::alloc::Global;
use std::marker::Model;
use upd_core::{ActiveDeckRef, Actives, ActivesRef, Library, Serial};
use upd_text::Fault;
use upd_text::limits::MAX_DEPTH;

/// A compile file: lines of 97 bytes, LF included.
#[derive(Debug, Drop)]
pub struct CompileFile {
    pub bytes: Vec<u8>,
    /// The number of lines.
    pub lines: u32,
}

impl Model for CompileFile {
    ghost use Rattle.upd_compile.specs.File.{FileView};

    ghost Value = { FileView };

    ghost view = { λ f. record { bytes = f.bytes.items; lines = f.lines } };
}

/// The compile file of the library `after` a run. `before` is the library before it, and `named` are the serials of the
/// decks that the run named for the file. CallUnknown, CallDepth or CompileLong, at 0: the first that the walk meets.
pub fn compile_file(
    alloc: Global,
    after: &Library,
    before: &Library,
    mode: Mode,
    named: &[Serial],
) -> Result<CompileFile, Fault>
    ensures { GivesAt (λ f. f) result (compile_file_of mode named.now before.now after.now) }
{
    let before = before.actives_shown()?;
    let after = after.actives_shown()?;
    compile_shown(alloc, &before, &after, mode, named)
}

/// A quick compile file of no decks is empty, whatever the libraries hold. So a run that names no deck needs no active
/// cards.
pub fn quick_file_of_no_decks_is_empty()
    ensures { (before after : ActivesView)
        → file_of Mode.Quick [] before after ≡ Ok (record { bytes = []; lines = 0 }) }
{}

/// `compile_file`, from the active cards of the two libraries.
pub fn compile_active(
    alloc: Global,
    after: &Actives,
    before: &Actives,
    mode: Mode,
    named: &[Serial],
) -> Result<CompileFile, Fault>
    ensures { GivesAt (λ f. f) result (file_of mode named.now before.now after.now) }
{
    let before = before.shown()?;
    let after = after.shown()?;
    compile_shown(alloc, &before, &after, mode, named)
}

fn compile_shown(
    alloc: Global,
    before: &ActivesRef,
    after: &ActivesRef,
    mode: Mode,
    named: &[Serial],
) -> Result<CompileFile, Fault>
    ensures { GivesAt (λ f. f) result (file_of mode named.now before.now after.now) }
{
    let source = Indexed::new(alloc, after)?;
    let decks = chosen_decks(alloc, mode, named, before, &source)?;
    file_of_walks(alloc, &source, &decks)
}

/// The file of the walks through these decks, in order.
fn file_of_walks(
    alloc: Global,
    source: &Indexed,
    decks: &[&ActiveDeckRef],
) -> Result<CompileFile, Fault>
    ensures { GivesAt (λ f. f) result
        (written source.now.idents (flat_map (walk MAX_DEPTH source.now) (map (λ d. d.now) decks.now))) }
{
    let mut progress = Progress::new(alloc);
    match walk_all(source, decks, MAX_DEPTH, &mut progress) {
        Ok(()) => Ok(progress.finish()),
        Err(kind) => Err(kind.without_line()),
    }
}
