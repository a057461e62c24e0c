//! A run on its own, against an empty library.
ghost use Rattle.std.specs.Prelude.{◌≡◌, ◌+◌, ℕ, IfErr, List, None};
ghost use Rattle.upd_wire.specs.Inputs.{IsInput};
ghost use Rattle.upd_text.specs.Outcome.{GivesAt, at_line, need};
ghost use Rattle.upd_text.specs.declared.fault.FaultKind.TheVariants.{BadMode};
ghost use Rattle.upd_text.specs.declared.limits.TheConstants.{MAX_RUN_BYTES};
ghost use Rattle.upd_compile.specs.Modes.{mode_named};
ghost use Rattle.upd_subcommands.specs.Command.{EndsTrial, GivesUnlessFailed};
ghost use Rattle.upd_subcommands.specs.Status.{exit_status};
ghost use Rattle.upd_subcommands.specs.Streams.{TakesFront};
ghost use Rattle.upd_subcommands.specs.Trial.{trial_named, trial_of};

use crate::streams::{read_input, write_out};
use std::alloc::Global;
use std::io::{Read, Write};
use upd_apply::apply;
use upd_compile::{CompileFile, Mode, compile_file};
use upd_core::Library;
use upd_deck::read_run;
use upd_text::{Fault, FaultKind};

/// The compile file of a run that is applied to an empty library, or the run's first refusal. Nothing is stored.
///
/// ```text
/// *DECK A        full: two lines, ONE of card A.2 and TWO of card A.3
/// ONE
/// TWO
/// ```
pub fn trial(alloc: Global, mode: Mode, run: &[u8]) -> Result<CompileFile, Fault>
    ensures { GivesAt (λ file. file) result (trial_of mode run.now) }
{
    let run = read_run(alloc, run)?;
    let before = Library::new(alloc);
    let mut after = Library::new(alloc);
    let applied = apply(alloc, &mut after, &run)?;
    compile_file(alloc, &after, &before, mode, &applied.compile)
}

/// The mode of a word. Another word is BadMode, at 0.
fn read_mode(word: &str) -> Result<Mode, Fault>
    ensures { result ≡ at_line 0 (need BadMode (mode_named word.now)) }
{
    Mode::read(word).ok_or(FaultKind::BadMode.without_line())
}

/// `trial MODE`: the compile file of the run on the input goes to the output.
pub fn carry_out_trial<R: Read, W: Write>(
    alloc: Global,
    mode: &str,
    input: &mut R,
    output: &mut W,
) -> Result<(), Fault>
    ensures ends { (run : List ℕ) × IsInput (R.remaining input.old) run
        × EndsTrial result (W.contents output.old) (W.contents output.new) (trial_named mode.now run) }
    ensures front { TakesFront (MAX_RUN_BYTES + 1) (R.remaining input.old) (R.remaining input.new) }
    ensures waits { mode_named mode.now ≡ None → input.new ≡ input.old }
    ensures silent { IfErr result (λ fault. exit_status fault.kind ≡ 1 → output.new ≡ output.old) }
{
    let file = trial_of_input(alloc, mode, input)?;
    write_out(output, &file.bytes)
}

/// The compile file of the run on the input. The mode is looked at before the input is read.
fn trial_of_input<R: Read>(alloc: Global, mode: &str, input: &mut R) -> Result<CompileFile, Fault>
    ensures gives { (run : List ℕ) × IsInput (R.remaining input.old) run × GivesUnlessFailed result (trial_named mode.now run) }
    ensures front { TakesFront (MAX_RUN_BYTES + 1) (R.remaining input.old) (R.remaining input.new) }
    ensures waits { mode_named mode.now ≡ None → input.new ≡ input.old }
{
    let mode = read_mode(mode)?;
    let run = read_input(alloc, input)?;
    let file = trial(alloc, mode, &run)?;
    Ok(file)
}
