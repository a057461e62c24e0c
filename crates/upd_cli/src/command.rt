//! Carries out a command line over any input, output and fault stream.
ghost use Rattle.std.specs.Prelude.{◌≡◌, ◌≢◌, ◌⊎◌, ◌+◌, map};
ghost use Rattle.sqlite_wal.specs.Files.{image_at};
ghost use Rattle.upd_cli.specs.Commands.{Carries, IsInitialized, IsMigrated, RunsCommand, no_address_line};
ghost use Rattle.upd_subcommands.specs.Command.{IsReported};
ghost use Rattle.upd_subcommands.specs.Inputs.{IsOf, IsSpool, UsesFaults, ReadsFor, WritesRefusals, most_read_for};
ghost use Rattle.upd_subcommands.specs.Streams.{TakesFront, stream};

use crate::desk_work::{FileRows, TreeRows, run_on_file};
use crate::examined::report_on;
use crate::library_file::{backup_file, compact_file, init_file, migrate_file};
use crate::replay_report::replay_on;
use sqlite::{FileFrom, Files, Start, Unknown};
use sqlite_disk::Disk;
use std::convert::AsStr;
use std::io::{Read, Write};
use upd_row_store::Meaning;
use upd_subcommands::{
    DONE, carry_out_explaining, carry_out_trial, finish, finish_with, report_unread, write_out,
};
use upd_words::{Request, read_words};

/// Carries out the command line `words`, the program's own name first, and returns the exit status: 0 where all is
/// done; 1 for a refusal, whose line goes to `faults`, or to the output where the desk refuses the run of `run`; 2
/// where the words are not a command line, and `faults` says why; 3 where memory, the store, a read or a write failed.
/// `try` writes its warnings to `faults`, whatever the status is, and `serve` where it listens and a line for each
/// connection.
pub fn run_command<S: AsStr, R: Read, W: Write, E: Write>(
    rt: &HostRuntime,
    words: &[S],
    input: &mut R,
    output: &mut W,
    faults: &mut E,
) -> u8
    ensures { (left : _) × RunsCommand ⟦<FileRows<Unknown> as Meaning>⟧ (λ rows. rows.inner.conn)
        ⟦<TreeRows<Unknown> as Meaning>⟧ (λ rows. rows.inner.store) (image_at ⟦<Unknown as Start>⟧) left
        (stream R.remaining input.old input.new) (stream W.contents output.old output.new)
        (stream E.contents faults.old faults.new) (map S.text words.entry.now) result }
{
    let (status, _) = run_command_from(rt, Unknown, words, input, output, faults);
    status
}

/// `run_command` where the file and its log held this when they are opened. No code can read it: it is there for the contract,
/// which says what a command does with a library that a file holds. `Unknown` stands for any contents. Beside the status the
/// file and its log are returned, closed, after a command at a desk, `init` and `migrate`, unless they can't be opened: what
/// a crash leaves of them is what the next command finds.
pub fn run_command_from<St: Start, S: AsStr, R: Read, W: Write, E: Write>(
    rt: &HostRuntime,
    start: St,
    words: &[S],
    input: &mut R,
    output: &mut W,
    faults: &mut E,
) -> (u8, Option<Files<FileFrom<St>>>)
    ensures { RunsCommand ⟦<FileRows<St> as Meaning>⟧ (λ rows. rows.inner.conn)
        ⟦<TreeRows<St> as Meaning>⟧ (λ rows. rows.inner.store) (image_at St.Start) result.1
        (stream R.remaining input.old input.new) (stream W.contents output.old output.new)
        (stream E.contents faults.old faults.new) (map S.text words.entry.now) result.0 }
{
    match read_words(rt.alloc(), words) {
        Ok(request) => carry_out(rt, start, &request, input, output, faults),
        Err(fault) => (finish(Err(fault), faults), None),
    }
}

/// Carries out what the words of a command line ask for, and returns the exit status.
fn carry_out<St: Start, R: Read, W: Write, E: Write>(
    rt: &HostRuntime,
    start: St,
    request: &Request<'_>,
    input: &mut R,
    output: &mut W,
    faults: &mut E,
) -> (u8, Option<Files<FileFrom<St>>>)
    ensures done { Carries ⟦<FileRows<St> as Meaning>⟧ (λ rows. rows.inner.conn)
        ⟦<TreeRows<St> as Meaning>⟧ (λ rows. rows.inner.store) (image_at St.Start) result.1
        (stream R.remaining input.old input.new) (stream W.contents output.old output.new)
        (stream E.contents faults.old faults.new) request.now result.0 }
    ensures front { ¬ IsOf IsSpool request.now
        → TakesFront (most_read_for request.now) (R.remaining input.old) (R.remaining input.new) }
    ensures waits { ¬ ReadsFor request.now → input.new ≡ input.old }
    ensures silent { (result.0 ≡ 2) ⊎ ((result.0 ≡ 1) × ¬ IsOf WritesRefusals request.now) → output.new ≡ output.old }
    ensures clean { ¬ IsOf UsesFaults request.now → result.0 ≡ 0 → faults.new ≡ faults.old }
{
    match request {
        Request::Trial(mode) => {
            let ended = carry_out_trial(rt.alloc(), mode, input, output);
            (finish(ended, faults), None)
        }
        Request::Init(file) => carry_out_init(rt, file, start, faults),
        Request::Library { file, command } => {
            let (ended, left) = run_on_file(rt, file, start, command, input, output, faults);
            (finish_with(ended, faults), left)
        }
        Request::Backup { file, copy } => {
            (finish(backup_file(rt, file, start, copy), faults), None)
        }
        Request::Compact { file, copy } => {
            (finish(compact_file(rt, file, start, copy), faults), None)
        }
        Request::Examine(file) => (report_on(rt, file, start, output, faults), None),
        Request::Replay(file) => (replay_on(rt, file, start, output, faults), None),
        Request::Migrate(file) => carry_out_migrate(rt, file, start, faults),
        Request::Explain(fault) => (carry_out_explaining(fault, output, faults), None),
        Request::Shown(text) => (finish(write_out(output, text.as_bytes()), faults), None),
        Request::Unread(text) => (report_unread(&[text.as_bytes()], faults), None),
        Request::NoAddress(word) => (report_no_address(word, faults), None),
    }
}

/// Reports that a word is no address, and returns the exit status.
fn report_no_address<E: Write>(word: &str, faults: &mut E) -> u8
    ensures status { (result ≡ 2) ⊎ (result ≡ 3) }
    ensures reported { IsReported 2 (no_address_line word.now) result (E.contents faults.old) (E.contents faults.new) }
{
    report_unread(
        &[
            b"error: invalid value '",
            word.as_bytes(),
            b"' for '<ADDRESS>': no IP address and port\n\nFor more information, try '--help'.\n",
        ],
        faults,
    )
}

/// Makes an empty library in the file, and returns the exit status and the closed files.
fn carry_out_init<St: Start, E: Write>(
    rt: &HostRuntime,
    file: &str,
    start: St,
    faults: &mut E,
) -> (u8, Option<Files<FileFrom<St>>>)
    ensures made { IsInitialized ⟦<FileFrom<St> as Disk>⟧ (image_at St.Start) result.1 result.0
        (E.contents faults.old) (E.contents faults.new) }
    ensures clean { result.0 ≡ 0 → faults.new ≡ faults.old }
{
    match init_file(rt, file, start) {
        Ok(files) => (DONE, Some(files)),
        Err(fault) => (finish(Err(fault), faults), None),
    }
}

/// Migrates the file, and returns the exit status and the closed files.
fn carry_out_migrate<St: Start, E: Write>(
    rt: &HostRuntime,
    file: &str,
    start: St,
    faults: &mut E,
) -> (u8, Option<Files<FileFrom<St>>>)
    ensures migrated { IsMigrated ⟦<FileFrom<St> as Disk>⟧ (image_at St.Start) result.1 result.0
        (E.contents faults.old) (E.contents faults.new) }
    ensures clean { result.0 ≡ 0 → faults.new ≡ faults.old }
{
    let (ended, left) = migrate_file(rt, file, start);
    (finish(ended, faults), left)
}
