//! Rows that a library's tables have and the library doesn't, and the other way round.

use crate::lines::Findings;
use std::alloc::AllocError;
use std::cmp::Ordering;

/// A finding for each row that is in only one of the two lists.
pub fn add_differing(
    found: &mut Findings,
    stored: Vec<String>,
    own: Vec<String>,
) -> Result<(), AllocError> {
    let mut stored = stored;
    let mut own = own;
    stored.sort_unstable();
    own.sort_unstable();
    let mut i = 0;
    let mut k = 0;
    while i < stored.len() && k < own.len() {
        match stored[i].cmp(&own[k]) {
            Ordering::Less => {
                found.add_of(&stored[i], EXTRA)?;
                i += 1;
            }
            Ordering::Greater => {
                found.add_of(&own[k], MISSING)?;
                k += 1;
            }
            Ordering::Equal => {
                i += 1;
                k += 1;
            }
        }
    }
    add_each(found, &stored[i..], EXTRA)?;
    add_each(found, &own[k..], MISSING)
}

const EXTRA: &str = " is stored, and the library does not have it";

const MISSING: &str = " is not stored, and the library has it";

fn add_each(found: &mut Findings, rows: &[String], wrong: &str) -> Result<(), AllocError> {
    for row in rows {
        found.add_of(row, wrong)?;
    }
    Ok(())
}
