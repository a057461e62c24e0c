//! Errors of SQLite as faults.
ghost use Rattle.std.specs.Prelude.{◌≡◌, ℕ, ◌≤◌, MatchResult};
ghost use Rattle.upd_text.specs.declared.fault.FaultKind.TheVariants.{NoMemory, Store};
ghost use Rattle.upd_row_store.specs.Keeping.{IsLost, failures_with};
ghost use Rattle.upd_store.specs.Faults.{IsUnopened, kind_for};

use sqlite::{Error, ErrorCode};
use std::alloc::AllocError;
use upd_text::{Fault, FaultKind};

/// Out of memory, as a fault. It counts as no failure of the store.
pub fn no_memory(lost: AllocError) -> Fault
    ensures lost { IsLost result }
    ensures kind { result.kind ≡ NoMemory }
    ensures at { result.at ≡ 0 }
    ensures count { (failures : ℕ) → failures ≡ failures_with result.kind failures }
{
    Fault::from(lost)
}

/// A failure of the store, at the version that was found.
pub fn store_at(version: u32) -> Fault
    ensures unopened { IsUnopened result }
    ensures kind { result.kind ≡ Store }
    ensures at { result.at ≡ version }
{
    FaultKind::Store.at_line(version)
}

/// Out of memory is NoMemory, any other error a failure of the store.
pub fn fault_of(error: Error) -> Fault
    ensures lost { IsLost result }
    ensures kind { result.kind ≡ kind_for error }
    ensures at { result.at ≡ 0 }
{
    match error {
        Error::SqliteFailure(ErrorCode::OutOfMemory) => no_memory(AllocError),
        _ => store_at(0),
    }
}

/// The fault of a file of another schema, at the version in the file.
pub(crate) fn version_fault(found: Result<u32, Error>) -> Fault
    ensures unopened { IsUnopened result }
    ensures kind { MatchResult found (λ _. result.kind ≡ Store) (λ error. result.kind ≡ kind_for error) }
    ensures at { MatchResult found (λ version. result.at ≡ version) (λ _. result.at ≡ 0) }
{
    match found {
        Ok(version) => store_at(version),
        Err(error) => fault_of(error),
    }
}

/// The fault of a call that was not begun. It counts as a failure of the store.
pub fn refused(failures: &mut u64) -> Fault
    ensures lost { IsLost result }
    ensures kind { result.kind ≡ Store }
    ensures count { failures.new ≡ failures_with result.kind failures.old }
    ensures grows { failures.old ≤ failures.new }
{
    *failures = failures.saturating_add(1);
    store_at(0)
}

/// The fault of a call that failed. A failure of the store is counted, out of memory is not.
pub(crate) fn counted(error: Error, failures: &mut u64) -> Fault
    ensures lost { IsLost result }
    ensures kind { result.kind ≡ kind_for error }
    ensures count { failures.new ≡ failures_with result.kind failures.old }
    ensures grows { failures.old ≤ failures.new }
{
    let fault = fault_of(error);
    if fault.kind == FaultKind::Store {
        *failures = failures.saturating_add(1);
    }
    fault
}
