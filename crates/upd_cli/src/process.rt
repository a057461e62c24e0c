//! The process: its words, and the status that it ends with.
ghost use Rattle.std.specs.Prelude.{◌≡◌};
ghost use Rattle.std.specs.Process.{exit_status};
ghost use Rattle.sqlite_wal.specs.Files.{image_at};
ghost use Rattle.upd_cli.specs.Commands.{EndsProcess};
ghost use Rattle.upd_subcommands.specs.Streams.{stream};

use crate::command::run_command;
use crate::desk_work::{FileRows, TreeRows};
use sqlite::{Start, Unknown};
use std::convert::AsStr;
use std::io::{Read, Write};
use std::process::ExitCode;
use std::{env, io};
use upd_row_store::Meaning;
use upd_subcommands::report_words;

/// Carries out the words of the process over streams, and gives the status that it ends with.
pub fn run_process<R: Read, W: Write, E: Write>(
    rt: &HostRuntime,
    input: &mut R,
    output: &mut W,
    faults: &mut E,
) -> ExitCode
    ensures { EndsProcess ⟦<FileRows<Unknown> as Meaning>⟧ (λ rows. rows.inner.conn)
        ⟦<TreeRows<Unknown> as Meaning>⟧ (λ rows. rows.inner.store) (image_at ⟦<Unknown as Start>⟧)
        (stream R.remaining input.old input.new) (stream W.contents output.old output.new)
        (stream E.contents faults.old faults.new) (exit_status result) }
{
    match words(rt) {
        Ok(words) => carried_out(rt, &words, input, output, faults),
        Err(error) => exit_code(report_words(&error, faults)),
    }
}

/// Carries out some words over streams, and gives the status that the process ends with.
fn carried_out<S: AsStr, R: Read, W: Write, E: Write>(
    rt: &HostRuntime,
    words: &[S],
    input: &mut R,
    output: &mut W,
    faults: &mut E,
) -> ExitCode
    ensures { EndsProcess ⟦<FileRows<Unknown> as Meaning>⟧ (λ rows. rows.inner.conn)
        ⟦<TreeRows<Unknown> as Meaning>⟧ (λ rows. rows.inner.store) (image_at ⟦<Unknown as Start>⟧)
        (stream R.remaining input.old input.new) (stream W.contents output.old output.new)
        (stream E.contents faults.old faults.new) (exit_status result) }
{
    exit_code(run_command(rt, words, input, output, faults))
}

/// The process ends with this status.
fn exit_code(status: u8) -> ExitCode
    ensures { exit_status result ≡ status }
{
    ExitCode::from(status)
}

fn words(rt: &HostRuntime) -> io::Result<Vec<String>> {
    let words = env::args(rt)?.collect(rt.alloc())?;
    Ok(words)
}
