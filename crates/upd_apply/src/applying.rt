//! Applying whole runs, and purging back.
ghost use Rattle.std.specs.Prelude.{◌≡◌, ◌+◌, ◌^◌, ◌<◌, map, drop, length, Ok, IfErr, IfOk, OnErr};
ghost use Rattle.upd_core.specs.Edits.{purged_back};
ghost use Rattle.upd_records.specs.Changes.{change_view, done_all};
ghost use Rattle.upd_records.specs.Fits.{AllFit};
ghost use Rattle.upd_records.specs.Rows.{Rows, Shows};
ghost use Rattle.upd_diff.specs.States.{TakeGone};
ghost use Rattle.upd_diff.specs.RowChanges.{RowChanges};
ghost use Rattle.upd_core.specs.Sound.{AreApart, Continues, IsSound, all_cards, key_of};
ghost use Rattle.upd_text.specs.Outcome.{DoesAt, FailsAt, at_line};
ghost use Rattle.upd_apply.specs.Applying.{applied, stepped, touched};
ghost use Rattle.upd_apply.specs.Numbers.{next_most};
ghost use Rattle.upd_apply.specs.Step.{step};

use crate::compile::named_decks;
use crate::state::State;
use std::alloc::{AllocError, Global};
use upd_core::{Change, Ident, Library, Serial};
use upd_deck::{Line, Run};
use upd_diff::{Compared, compare};
use upd_text::{CardRef, Fault};

/// The results of a run, besides the new library.
#[derive(Debug, Drop)]
pub struct Applied {
    /// The serials of the idents that it introduced.
    pub idents: Vec<Serial>,
    /// The serials of the decks that `*COMPILE` named.
    pub compile: Vec<Serial>,
    /// The cards that are new or whose history differs, in order of deck (`YANK$$$` first) and place.
    pub touched: Vec<CardRef>,
    /// The row changes by which a store follows the run, in the order in which they are carried out.
    pub changes: Vec<Change>,
}

/// Applies a run. A refusal has the number of its line; NoMemory is at 0. After either the library is unchanged. The
/// results are allocated in `alloc`; the library keeps its own allocator.
///
/// ```text
/// *DECK A        after these three lines deck A has the cards A.1 (this line), A.2 and A.3,
/// ONE            `idents` is the serial of A, and `touched` the three cards
/// TWO
/// ```
pub fn apply(alloc: Global, library: &mut Library, run: &Run) -> Result<Applied, Fault>
    ensures ok { IfOk result (λ a. applied run.now library.old
        ≡ Ok (record { library = library.new; idents = a.idents.items; compile = a.compile.items })) }
    ensures touched { AreApart (map key_of (all_cards library.old))
        → IfOk result (λ a. a.touched.items ≡ touched library.old library.new) }
    ensures row_changes { IfOk result (λ a. RowChanges library.old library.new (map change_view a.changes.items)) }
    ensures changes { (rows : Rows) → IsSound library.old → Shows rows library.old
        → IfOk result (λ a. Shows (done_all (map change_view a.changes.items) rows) library.new) }
    ensures states { IsSound library.old → IsSound library.new
        → IfOk result (λ a. TakeGone library.old library.new (map change_view a.changes.items)) }
    ensures fits { (rows : Rows) → IsSound library.old → Shows rows library.old
        → IfOk result (λ a. AllFit (map change_view a.changes.items) rows) }
    ensures refused { IfErr result (λ fault. FailsAt fault (applied run.now library.old)) }
    ensures err { OnErr result (library.new ≡ library.old) }
{
    let after = reach(alloc, library, run)?;
    let Compared { changes, touched } = compare(alloc, library, &after.library)?;
    *library = after.library;
    Ok(Applied {
        idents: after.idents,
        compile: after.compile,
        touched,
        changes,
    })
}

/// A library that a run reaches, with the serials of the idents that it introduced and of the decks that `*COMPILE` named.
#[derive(Debug, Drop)]
pub struct ReachedLibrary {
    pub library: Library,
    pub idents: Vec<Serial>,
    pub compile: Vec<Serial>,
}

/// What a run makes of a library, which stays as it is.
pub fn reach(alloc: Global, library: &Library, run: &Run) -> Result<ReachedLibrary, Fault>
    ensures ok { IfOk result (λ r. applied run.now library.now
        ≡ Ok (record { library = r.library; idents = r.idents.items; compile = r.compile.items })) }
    ensures continues { IfOk result (λ r. Continues library.now.idents r.library.idents) }
    ensures refused { IfErr result (λ fault. FailsAt fault (applied run.now library.now)) }
{
    let mut state = State::new(library.copy()?);
    take_steps(&mut state, run.lines())?;
    let compile = named_decks(alloc, &state.library, run.lines())?;
    let idents = ages_from(alloc, state.library.idents(), library.idents().len())?;
    Ok(ReachedLibrary {
        library: state.library,
        idents,
        compile,
    })
}

/// Purges the ident with a serial and all younger ones. It does not allocate. A serial that no ident has changes
/// nothing.
///
/// ```text
/// UNITS 1, ORBIT 2, P1 3, P2 4    purge_back(library, 3) purges P1 and P2
/// ```
pub fn purge_back(library: &mut Library, serial: Serial)
    ensures { library.new ≡ purged_back serial library.old }
{
    library.purge_from(serial);
}

/// Applies the lines in order, up to the first refusal.
fn take_steps(state: &mut State, lines: &[Line]) -> Result<(), Fault>
    requires { next_most state.old + length lines.now < 2 ^ 32 }
    ensures { DoesAt result state.new (stepped lines.now state.old) }
{
    for line in lines {
        take_step(state, line)?;
    }
    Ok(())
}

/// Applies a line. A refusal has the line's number.
fn take_step(state: &mut State, line: &Line) -> Result<(), Fault>
    requires { next_most state.old + 1 < 2 ^ 32 }
    ensures { DoesAt result state.new (at_line line.now.number (step line.now state.old)) }
{
    match state.step(line) {
        Ok(()) => Ok(()),
        Err(kind) => Err(kind.at_line(line.number)),
    }
}

/// The serials of idents, from an index on.
fn ages_from(alloc: Global, idents: &[Ident], from: usize) -> Result<Vec<Serial>, AllocError>
    ensures { IfOk result (λ ages. ages.items ≡ map (λ i. i.age) (drop from idents.now)) }
{
    idents
        .iter()
        .skip(from)
        .map(|ident| ident.age)
        .collect(alloc)
}
