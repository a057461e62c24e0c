//! `correct` where the file is the listing of a deck in place of a library.
ghost use Rattle.std.specs.Prelude.{◌≡◌, ◌≤◌, ◌⊎◌, IfErr, IfOk, IfSome, IsTrue, length, vec_len};
ghost use Rattle.upd_subcommands.specs.Command.{IsReported, ending};
ghost use Rattle.upd_subcommands.specs.ListingFile.{CorrectsListing, IsListedFault, is_listing_length, place_line};
ghost use Rattle.upd_subcommands.specs.Status.{no_memory};

use crate::correction_command::{write_refusals, write_run};
use crate::exit_status::{FAILED, REFUSED, finish};
use crate::streams::write_parts_out;
use itoa::Buffer;
use std::alloc::Global;
use std::fs::File;
use std::io::{Read, Write};
use upd_correct::{ListedError, correct_listed};
use upd_edit::MAX_TEXT_BYTES;
use upd_text::limits::{MAX_CARDS, MAX_LINE_BYTES};
use upd_text::{Fault, FaultKind};
use upd_wire::read_up_to;

/// The longest listing of a deck, in bytes: a head line, and as many cards as a library has, each as long as it can be.
const MAX_LISTING_BYTES: usize = 25 + MAX_CARDS * (MAX_LINE_BYTES + 20);

/// The first bytes of each file of SQLite.
const FIRST_BYTES: &[u8; 16] = b"SQLite format 3\0";

/// The bytes of a file that is taken for a listing: it can be read, has no more bytes than a listing can have, is not
/// empty, and does not begin as a file of SQLite. The only error is NoMemory, at 0.
pub fn read_listing(rt: &HostRuntime, path: &str) -> Result<Option<Vec<u8>>, Fault>
    ensures length { IfOk result (λ read. IfSome read (λ bytes. IsTrue (is_listing_length (length bytes.items)))) }
    ensures err { IfErr result (λ fault. fault ≡ no_memory) }
{
    let Ok(mut file) = File::open(rt, path) else {
        return Ok(None);
    };
    let mut bytes = Vec::new(rt.alloc());
    if !fill(&mut file, FIRST_BYTES.len(), &mut bytes)?
        || bytes.starts_with(FIRST_BYTES)
        || !fill(&mut file, MAX_LISTING_BYTES + 1, &mut bytes)?
        || !is_listing_length(bytes.len())
    {
        return Ok(None);
    }
    Ok(Some(bytes))
}

/// Whether a file of this many bytes can be a listing.
fn is_listing_length(length: usize) -> bool
    ensures { result ≡ is_listing_length length }
{
    0 < length && length <= MAX_LISTING_BYTES
}

/// Whether a file could be read up to a number of bytes. The only error is NoMemory, at 0.
fn fill<R: Read>(file: &mut R, size: usize, bytes: &mut Vec<u8>) -> Result<bool, Fault>
    requires { vec_len bytes.old ≤ size }
    ensures most { IfOk result (λ read. IsTrue read → vec_len bytes.new ≤ size) }
    ensures err { IfErr result (λ fault. fault ≡ no_memory) }
{
    match read_up_to(file, size, bytes) {
        Ok(()) => Ok(true),
        Err(FaultKind::NoMemory) => Err(FaultKind::NoMemory.without_line()),
        Err(_) => Ok(false),
    }
}

/// The run that leads the deck of a listing to an edited text goes to the output. Where there isn't one, the line or the
/// lines that say why go to the fault stream. Returns the exit status, as `correct_text` does.
pub fn correct_listing<W: Write, E: Write>(
    alloc: Global,
    listing: &[u8],
    set: &str,
    text: &[u8],
    output: &mut W,
    faults: &mut E,
) -> u8
    ensures reports { CorrectsListing listing.now set.now text.now
        (ending result (W.contents output.old) (W.contents output.new) (E.contents faults.old) (E.contents faults.new)) }
    ensures silent { (result ≡ 1) ⊎ (result ≡ 2) → output.new ≡ output.old }
    ensures clean { result ≡ 0 → faults.new ≡ faults.old }
{
    if text.len() > MAX_TEXT_BYTES {
        return finish(Err(FaultKind::RunLong.without_line()), faults);
    }
    match correct_listed(alloc, listing, set.as_bytes(), text) {
        Ok(run) => write_run(&run, output, faults),
        Err(error) => write_listed_error(alloc, &error, faults),
    }
}

/// Says why there is no run from a listing. Returns the exit status.
fn write_listed_error<E: Write>(alloc: Global, error: &ListedError, faults: &mut E) -> u8
    ensures reported { IsListedFault error.now result (E.contents faults.old) (E.contents faults.new) }
    ensures status { (result ≡ 1) ⊎ (result ≡ 3) }
{
    match error {
        ListedError::NoMemory => finish(Err(FaultKind::NoMemory.without_line()), faults),
        ListedError::NotListing(line) => write_place(
            b"NotListing",
            *line,
            b"FILE is not a library, and this line of it is not one of a deck's listing",
            faults,
        ),
        ListedError::OtherDeck(line) => write_place(
            b"OtherDeck",
            *line,
            b"this line begins a deck that FILE does not list",
            faults,
        ),
        ListedError::Refused(refusals) => write_refusals(alloc, refusals, faults),
    }
}

/// Writes the line of what is wrong in a line. Returns the exit status.
fn write_place<E: Write>(name: &[u8], line: usize, what: &[u8], faults: &mut E) -> u8
    ensures reported { IsReported 1 (place_line name.now line what.now) result (E.contents faults.old) (E.contents faults.new) }
    ensures status { (result ≡ 1) ⊎ (result ≡ 3) }
{
    let mut number = Buffer::new();
    let parts: [&[u8]; 6] = [
        name,
        b" ",
        number.format(line).as_bytes(),
        b":1 ",
        what,
        b"\n",
    ];
    match write_parts_out(faults, &parts) {
        Ok(()) => REFUSED,
        Err(_) => FAILED,
    }
}
