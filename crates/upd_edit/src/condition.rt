//! Runs that are handed in only where they meet nothing that others have done.
ghost use Rattle.std.specs.Prelude.{◌≡◌, IfErr};
ghost use Rattle.std.specs.Result.{result_map_both};
ghost use Rattle.upd_desk.specs.Arrivals.{arrival_view};
ghost use Rattle.upd_desk.specs.Holding.{EachHeld, IsOwed, Tells};
ghost use Rattle.upd_edit.specs.Conditions.{ArrivesSince, IsLookFault, stops};
ghost use Rattle.upd_edit.specs.Warnings.{conflicts};
ghost use Rattle.upd_row_store.specs.Keeping.{CountsFailure, Keeps};

use crate::warning::Warning;
use crate::warnings::conflicts;
use std::alloc::Global;
use upd_core::Name;
use upd_desk::{Desk, Reply};
use upd_row_store::RowStore;
use upd_text::Fault;

/// The answer to a run, as `Desk::arrive` gives it, where it has no conflict with what idents younger than SINCE have done;
/// else these conflicts, and nothing is stored. A number that is stored or settled is answered whatever came since.
/// IdentUnknown, at 0, where no held ident has SINCE's name; the other faults are those of `arrive`.
pub fn arrive_since<S: RowStore>(
    alloc: Global,
    desk: &mut Desk<S>,
    since: &Name,
    site: &str,
    number: u64,
    mode: &str,
    run: &[u8],
) -> Result<Result<Reply, Vec<Warning>>, Fault>
    ensures arrives { ArrivesSince S.Meaning since.now (arrival_view site.now number mode.now run.now)
        (result_map_both (result_map_both (λ reply. reply) (λ met. met.items)) (λ fault. fault) result)
        desk.old.store desk.new.store }
    ensures failed { CountsFailure S.Meaning result desk.old.store desk.new.store }
{
    match conflicts_at(alloc, desk, since, site, number, run) {
        Ok(met) => {
            if met.is_empty() {
                match desk.arrive(alloc, site, number, mode, run) {
                    Ok(reply) => Ok(Ok(reply)),
                    Err(fault) => Err(fault),
                }
            } else {
                Ok(Err(met))
            }
        }
        Err(fault) => Err(fault),
    }
}

/// The conflicts of a run whose number is new; none of another.
fn conflicts_at<S: RowStore>(
    alloc: Global,
    desk: &mut Desk<S>,
    since: &Name,
    site: &str,
    number: u64,
    run: &[u8],
) -> Result<Vec<Warning>, Fault>
    ensures list { EachHeld S.Meaning desk.old.store desk.new.store
        (λ journal. IsOwed (stops since.now site.now number run.now journal)
        (result_map_both (λ list. list.items) (λ fault. fault) result)) }
    ensures faults { IfErr result IsLookFault }
    ensures same { Keeps S.Meaning desk.old.store desk.new.store }
    ensures failed { CountsFailure S.Meaning result desk.old.store desk.new.store }
{
    match desk.is_known(alloc, site, number) {
        Ok(true) => Ok(Vec::new(alloc)),
        Ok(false) => conflicts_now(alloc, desk, since, run),
        Err(fault) => Err(fault),
    }
}

/// The conflicts of a run with the library as it is.
fn conflicts_now<S: RowStore>(
    alloc: Global,
    desk: &mut Desk<S>,
    since: &Name,
    run: &[u8],
) -> Result<Vec<Warning>, Fault>
    ensures list { Tells S.Meaning (conflicts since.now run.now)
        (result_map_both (λ list. list.items) (λ fault. fault) result) desk.old.store desk.new.store }
    ensures faults { IfErr result IsLookFault }
    ensures same { Keeps S.Meaning desk.old.store desk.new.store }
    ensures failed { CountsFailure S.Meaning result desk.old.store desk.new.store }
{
    match desk.library(alloc) {
        Ok(library) => match conflicts(alloc, &library, since, run) {
            Ok(list) => Ok(list),
            Err(fault) => Err(fault),
        },
        Err(fault) => Err(fault),
    }
}
