//! `examine`: what there is at a path, and whether it is a sound library.
ghost use Rattle.std.specs.Prelude.{◌≡◌, ◌⊎◌, ◌++◌, ℕ, Result};
ghost use Rattle.sqlite.specs.Files.{file_state};
ghost use Rattle.sqlite_wal.specs.Files.{image_at};
ghost use Rattle.upd_subcommands.specs.Command.{IsEndOf, IsReported, ending};
ghost use Rattle.upd_cli.specs.Commands.{IsExamined, WritesReport, log_line, situation_line};
ghost use Rattle.upd_subcommands.specs.Reporting.{Writes};
ghost use Rattle.upd_text.specs.declared.fault.Fault.{Fault};

use sqlite::{FileFrom, Start};
use sqlite_disk::Disk;
use std::io::Write;
use upd_keep::{Examined, Report, examine};
use upd_subcommands::{DONE, FAILED, REFUSED, finish, write_parts_out};

/// What is at a path goes to the output where it is a sound library, and else to the fault stream. Returns the exit
/// status.
pub(crate) fn report_on<St: Start, W: Write, E: Write>(
    rt: &HostRuntime,
    path: &str,
    start: St,
    output: &mut W,
    faults: &mut E,
) -> u8
    ensures reported { IsExamined (file_state {g = ⟦<FileFrom<St> as Disk>⟧}) (image_at St.Start)
        (ending result (W.contents output.old) (W.contents output.new) (E.contents faults.old) (E.contents faults.new)) }
    ensures silent { (result ≡ 1) ⊎ (result ≡ 2) → output.new ≡ output.old }
    ensures clean { result ≡ 0 → faults.new ≡ faults.old }
{
    match examine(rt, path, start) {
        Ok(report) => write_report(&report, output, faults),
        Err(fault) => finish(Err(fault), faults),
    }
}

/// Writes a report, and returns the exit status.
fn write_report<W: Write, E: Write>(report: &Report, output: &mut W, faults: &mut E) -> u8
    ensures reported { WritesReport report.now (ending result (W.contents output.old) (W.contents output.new)
        (E.contents faults.old) (E.contents faults.new)) }
    ensures silent { (result ≡ 1) ⊎ (result ≡ 2) → output.new ≡ output.old }
    ensures clean { result ≡ 0 → faults.new ≡ faults.old }
{
    match report {
        Report::Library(Examined::Sound(line), log) => {
            write_sound(log_line(*log), line, output, faults)
        }
        Report::Library(Examined::Unsound(lines), log) => {
            write_unsound(log_line(*log), lines, faults)
        }
        Report::Other(situation, pages) => write_situation(situation.words(), pages, faults),
    }
}

/// The line that comes first where the log beside a file has frames.
fn log_line(log: bool) -> &'static [u8]
    ensures { result.now ≡ log_line log }
{
    if log {
        b"log: keep FILE-wal with the file, it may have commits that the file lacks\n"
    } else {
        b""
    }
}

/// Writes what comes first and the line of a sound library to the output, and returns the exit status.
pub(crate) fn write_sound<W: Write, E: Write>(
    first: &[u8],
    line: &[u8],
    output: &mut W,
    faults: &mut E,
) -> u8
    ensures reported { (ended : Result ℕ Fault) × Writes 0 (first.now ++ line.now) ended (W.contents output.old) (W.contents output.new)
        × IsEndOf ended result (E.contents faults.old) (E.contents faults.new) }
    ensures status { (result ≡ 0) ⊎ (result ≡ 3) }
    ensures clean { result ≡ 0 → faults.new ≡ faults.old }
{
    match write_parts_out(output, &[first, line]) {
        Ok(()) => DONE,
        Err(fault) => finish(Err(fault), faults),
    }
}

/// Writes what comes first and what is wrong with a library to the fault stream, and returns the exit status.
pub(crate) fn write_unsound<E: Write>(first: &[u8], lines: &[u8], faults: &mut E) -> u8
    ensures reported { IsReported 1 (first.now ++ lines.now) result (E.contents faults.old) (E.contents faults.new) }
    ensures status { (result ≡ 1) ⊎ (result ≡ 3) }
{
    match write_parts_out(faults, &[first, lines]) {
        Ok(()) => REFUSED,
        Err(_) => FAILED,
    }
}

/// Writes why there is no library to examine, and a line on pages, to the fault stream. Returns the exit status.
fn write_situation<E: Write>(words: &str, pages: &[u8], faults: &mut E) -> u8
    ensures reported { IsReported 3 (situation_line words.now ++ pages.now) result (E.contents faults.old) (E.contents faults.new) }
    ensures status { result ≡ 3 }
{
    let _ = write_parts_out(faults, &[b"upd: ", words.as_bytes(), b"\n", pages]);
    FAILED
}
