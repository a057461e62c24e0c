//! `explain`: what a fault means.
ghost use Rattle.std.specs.Prelude.{◌≡◌, ◌⊎◌};
ghost use Rattle.upd_subcommands.specs.Command.{IsReported, ending};
ghost use Rattle.upd_subcommands.specs.Explaining.{IsExplained, not_explained};

use crate::exit_status::{DONE, FAILED, REFUSED, finish};
use crate::streams::{write_out, write_parts_out};
use std::io::Write;
use upd_views::{explain, fault_list};

/// `explain`: what is said of a fault, by its name or its number, goes to the output. Of another word the line of BadName
/// and a list of all faults go to `faults`, in one write.
pub fn carry_out_explaining<W: Write, E: Write>(fault: &str, output: &mut W, faults: &mut E) -> u8
    ensures reported { IsExplained fault.now
        (ending result (W.contents output.old) (W.contents output.new) (E.contents faults.old) (E.contents faults.new)) }
    ensures silent { (result ≡ 1) ⊎ (result ≡ 2) → output.new ≡ output.old }
    ensures clean { result ≡ 0 → faults.new ≡ faults.old }
{
    match explain(fault.as_bytes()) {
        Some(text) => match write_out(output, text.as_bytes()) {
            Ok(()) => DONE,
            Err(fault) => finish(Err(fault), faults),
        },
        None => list_faults(faults),
    }
}

/// Writes that a word names no fault, and which faults there are. Returns the exit status.
fn list_faults<E: Write>(faults: &mut E) -> u8
    ensures reported { IsReported 1 not_explained result (E.contents faults.old) (E.contents faults.new) }
    ensures status { (result ≡ 1) ⊎ (result ≡ 3) }
{
    match write_parts_out(
        faults,
        &[b"upd: BadName (5) at 0\n", fault_list().as_bytes()],
    ) {
        Ok(()) => REFUSED,
        Err(_) => FAILED,
    }
}
