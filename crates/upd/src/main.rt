//! The desk of a program library, over the process's own words and streams.
#![tactic(auto)]

use std::process::ExitCode;
use upd_cli::run_process;

fn main(rt: HostRuntime) -> ExitCode {
    let (mut input, mut output, mut faults) = (rt.stdin(), rt.stdout(), rt.stderr());
    run_process(&rt, &mut input, &mut output, &mut faults)
}
