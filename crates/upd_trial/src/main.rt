//! `upd trial` as a program of its own, which needs no library in a file and no SQLite: `upd_trial MODE < RUN`.
#![tactic(auto)]

ghost use Rattle.std.specs.Prelude.{◌≡◌};
ghost use Rattle.std.specs.Process.{exit_status};

use std::alloc::Global;
use std::io::{Read, Write};
use std::process::ExitCode;
use std::{env, io};
use upd_subcommands::{carry_out_trial, finish, report_unread, report_words};

fn main(rt: HostRuntime) -> ExitCode {
    let (mut input, mut output, mut faults) = (rt.stdin(), rt.stdout(), rt.stderr());
    let status = match words(&rt) {
        Ok(words) => match words.as_slice() {
            [_, mode] => answer_trial(rt.alloc(), mode, &mut input, &mut output, &mut faults),
            _ => report_unread(&[b"usage: upd_trial MODE < RUN\n"], &mut faults),
        },
        Err(error) => report_words(&error, &mut faults),
    };
    exit_code(status)
}

/// Answers the run on the input as `upd trial MODE` does, and returns the exit status.
fn answer_trial<R: Read, W: Write, E: Write>(
    alloc: Global,
    mode: &str,
    input: &mut R,
    output: &mut W,
    faults: &mut E,
) -> u8 {
    let ended = carry_out_trial(alloc, mode, input, output);
    finish(ended, faults)
}

/// The process ends with the status of the trial.
fn exit_code(status: u8) -> ExitCode
    ensures { exit_status result ≡ status }
{
    ExitCode::from(status)
}

fn words(rt: &HostRuntime) -> io::Result<Vec<String>> {
    let words = env::args(rt)?.collect(rt.alloc())?;
    Ok(words)
}
