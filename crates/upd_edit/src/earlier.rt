//! The library as it was when an ident was the youngest.
ghost use Rattle.std.specs.Prelude.{◌≡◌, ◌≢◌, ◌⊎◌, IfErr, IfOk};
ghost use Rattle.std.specs.Result.{IsOkUnless};
ghost use Rattle.upd_core.specs.Status.{live_targets};
ghost use Rattle.upd_edit.specs.Conflicts.{live_since};
ghost use Rattle.upd_edit.specs.Earlier.{as_of, yanked, younger};
ghost use Rattle.upd_text.specs.Faults.{fault_at};
ghost use Rattle.upd_text.specs.Outcome.{GivesAt};
ghost use Rattle.upd_text.specs.declared.fault.FaultKind.TheVariants.{Full, NoMemory, Store};

use std::alloc::{AllocError, Global};
use upd_core::{Card, Kind, Library, Name, Serial, Target};
use upd_text::limits::MAX_INTRODUCED;
use upd_text::{Fault, FaultKind};

/// The library as it was when the held ident with a name was the youngest. All younger idents are yanked, by a set that
/// has no name: their cards are out of use, and in place. IdentUnknown, at 0, where no held ident has the name; Full, at
/// 0, where no more idents can be introduced.
pub fn as_of(alloc: Global, library: &Library, since: &Name) -> Result<Library, Fault>
    ensures library { GivesAt (λ l. l) result (as_of since.now library.now) }
    ensures kind { IfErr result (λ fault. fault.kind ≢ Store) }
{
    let unknown = FaultKind::IdentUnknown.without_line();
    let age = library.ident_of(since).ok_or(unknown)?;
    let targets = younger(alloc, library, age)?;
    yanked(alloc, library, targets)
}

/// The held idents that are younger than one, as targets.
fn younger(alloc: Global, library: &Library, since: Serial) -> Result<Vec<Target>, AllocError>
    ensures { IfOk result (λ targets. targets.items ≡ younger since library.now) }
{
    library
        .idents()
        .iter()
        .skip(since as usize)
        .filter(|ident| ident.held)
        .map(|ident| Target::Set(ident.age))
        .collect(alloc)
}

/// A copy of a library with a yank card that takes all idents younger than one. It is of no ident of the directory, so
/// only what is live is of use.
pub(crate) fn with_younger_yanked(
    alloc: Global,
    library: &Library,
    since: Serial,
) -> Result<Library, Fault>
    ensures live { IfOk result (λ l. live_targets l ≡ live_since since library.now) }
    ensures err { IsOkUnless result (fault_at NoMemory 0) }
{
    let targets = younger(alloc, library, since)?;
    let mut earlier = library.copy()?;
    earlier.push_yank(Card::new(alloc, 0, 1, b"", targets)?)?;
    Ok(earlier)
}

/// A copy of a library in which a new set yanks these targets, if there are any.
fn yanked(alloc: Global, library: &Library, targets: Vec<Target>) -> Result<Library, Fault>
    ensures library { GivesAt (λ l. l) result (yanked targets.items library.now) }
    ensures kind { IfErr result (λ fault. (fault.kind ≡ NoMemory) ⊎ (fault.kind ≡ Full)) }
{
    let mut earlier = library.copy()?;
    if targets.is_empty() {
        return Ok(earlier);
    }
    if library.idents().len() >= MAX_INTRODUCED {
        return Err(FaultKind::Full.without_line());
    }
    let set = library.idents().len() as Serial + 1;
    earlier.introduce(Name::none(), Kind::Set, false)?;
    earlier.push_yank(Card::new(alloc, set, 1, b"", targets)?)?;
    Ok(earlier)
}
