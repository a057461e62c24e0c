//! What arrives at the desk, and the admission checks.

ghost use Rattle.std.specs.Prelude.{◌≡◌, false};
ghost use Rattle.std.specs.Result.{result_map_both};
ghost use Rattle.upd_desk.specs.Arrivals.{check_arrival, check_key, mode_number};

use std::marker::Model;
use upd_compile::Mode;
use upd_text::keys::{is_run_number, is_site};
use upd_text::limits::MAX_RUN_BYTES;
use upd_text::{Fault, FaultKind};

/// A run that arrives, as it was sent: nothing of it is checked yet. Its key is the site and the number.
#[derive(Debug, Drop)]
pub struct Arrival<'a> {
    pub site: &'a str,
    pub number: u64,
    /// A word: the admission checks take only `full`, `quick` and `normal`.
    pub mode: &'a str,
    pub bytes: &'a [u8],
}

impl<'a> Model for Arrival<'a> {
    ghost use Rattle.upd_desk.specs.Arrivals.{ArrivalView};

    ghost Value = { ArrivalView };

    ghost view = { λ a. record { site = a.site.now; number = a.number; mode = a.mode.now; bytes = a.bytes.now } };
}

/// The admission checks, before the store is called: the mode, or the first refusal, which stores nothing.
pub(crate) fn check_arrival(arrival: &Arrival<'_>) -> Result<Mode, Fault>
    ensures { result ≡ check_arrival arrival.now }
{
    check_key(arrival.site, arrival.number)?;
    let Some(mode) = Mode::read(arrival.mode) else {
        return Err(FaultKind::BadMode.without_line());
    };
    if arrival.bytes.len() > MAX_RUN_BYTES {
        return Err(FaultKind::RunLong.without_line());
    }
    Ok(mode)
}

/// The checks of a site and a number.
pub(crate) fn check_key(site: &str, number: u64) -> Result<(), Fault>
    ensures { result_map_both (λ _. false) (λ fault. fault) result ≡ check_key site.now number }
{
    if !is_site(site.as_bytes()) {
        return Err(FaultKind::BadSite.without_line());
    }
    if !is_run_number(number) {
        return Err(FaultKind::BadNumber.without_line());
    }
    Ok(())
}

/// The number by which the tables know a mode.
pub(crate) fn mode_number(mode: Mode) -> u32
    ensures { result ≡ mode_number mode }
{
    match mode {
        Mode::Full => 0,
        Mode::Quick => 1,
        Mode::Normal => 2,
    }
}
