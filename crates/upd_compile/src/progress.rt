//! A compile file while it is written.

ghost use Rattle.std.specs.Prelude.{◌≡◌, ◌≤◌, [], ◌++◌, Err, OnOk};
ghost use Rattle.upd_text.specs.declared.limits.TheConstants.{MAX_CALLS, MAX_COMPILE_LINES};
ghost use Rattle.upd_text.specs.declared.fault.FaultKind.TheVariants.{CompileLong};
ghost use Rattle.upd_text.specs.Outcome.{Does};
ghost use Rattle.upd_text.specs.declared.fault.FaultKind.{FaultKind};
ghost use Rattle.upd_compile.specs.File.{blanks, card_line, from_left, from_right};
ghost use Rattle.upd_compile.specs.Progress.{at_start, after_event, file_so_far};
ghost use Rattle.upd_compile.specs.Walk.WalkEvent.{Line, Follow};

use crate::compiled_file::CompileFile;
use crate::idents::name_of;
use itoa::Buffer;
use std::alloc::{AllocError, Global};
use std::marker::Model;
use upd_core::{ActiveCardRef, Ident};
use upd_text::FaultKind;
use upd_text::limits::{MAX_CALLS, MAX_COMPILE_LINES};

/// A compile file while it is written, and the number of calls followed.
#[derive(Debug, Drop)]
pub(crate) struct Progress {
    bytes: Vec<u8>,
    lines: u32,
    calls: usize,
}

impl Model for Progress {
    ghost use Rattle.upd_compile.specs.Progress.{ProgressView};

    ghost Value = { ProgressView };

    ghost view = { λ p. record { bytes = p.bytes.items; lines = p.lines; calls = p.calls } };
}

impl Progress {
    pub(crate) fn new(alloc: Global) -> Progress
        ensures { result ≡ at_start }
    {
        Progress {
            bytes: Vec::new(alloc),
            lines: 0,
            calls: 0,
        }
    }

    /// Writes the line of a card; CompileLong after 10,000 lines.
    pub(crate) fn line(&mut self, idents: &[Ident], card: &ActiveCardRef) -> Result<(), FaultKind>
        ensures line { Does result self.new (after_event idents.now (Line card.now) self.old) }
        ensures long { MAX_COMPILE_LINES ≤ self.old.lines → result ≡ Err CompileLong }
    {
        if self.lines as usize >= MAX_COMPILE_LINES {
            return Err(FaultKind::CompileLong);
        }
        push_line(&mut self.bytes, idents, card)?;
        self.lines += 1;
        Ok(())
    }

    /// The finished file.
    pub(crate) fn finish(self) -> CompileFile
        ensures { result ≡ file_so_far self }
    {
        let Progress { bytes, lines, .. } = self;
        CompileFile { bytes, lines }
    }

    /// Counts a call; CompileLong after 10,000 calls.
    pub(crate) fn follow(&mut self) -> Result<(), FaultKind>
        ensures follows { Does result self.new (after_event [] Follow self.old) }
        ensures long { MAX_CALLS ≤ self.old.calls → result ≡ Err CompileLong }
    {
        if self.calls >= MAX_CALLS {
            return Err(FaultKind::CompileLong);
        }
        self.calls += 1;
        Ok(())
    }
}

/// The columns of a line: the text, a blank, the name of the card's ident, the card's number.
const TEXT_COLUMNS: usize = 80;

const NAME_COLUMNS: usize = 9;

const NUMBER_COLUMNS: usize = 6;

const BLANKS: &[u8; TEXT_COLUMNS] = &[b' '; TEXT_COLUMNS];

/// Appends the line of a card.
pub(crate) fn push_line(
    bytes: &mut Vec<u8>,
    idents: &[Ident],
    card: &ActiveCardRef,
) -> Result<(), AllocError>
    ensures { OnOk result (bytes.new.items ≡ bytes.old.items ++ card_line idents.now card.now) }
{
    push_padded(bytes, card.text, TEXT_COLUMNS)?;
    bytes.extend_from_slice(b" ")?;
    push_padded(bytes, name_of(idents, card.ident), NAME_COLUMNS)?;
    push_padded_left(
        bytes,
        Buffer::new().format(card.number).as_bytes(),
        NUMBER_COLUMNS,
    )?;
    bytes.extend_from_slice(b"\n")
}

/// Appends a text, padded with blanks on the right to a width.
fn push_padded(bytes: &mut Vec<u8>, text: &[u8], width: usize) -> Result<(), AllocError>
    requires { width ≤ TEXT_COLUMNS }
    ensures { OnOk result (bytes.new.items ≡ bytes.old.items ++ from_left width text.now) }
{
    bytes.extend_from_slice(text)?;
    bytes.extend_from_slice(blanks(width.saturating_sub(text.len())))
}

/// Appends a text, padded with blanks on the left to a width.
fn push_padded_left(bytes: &mut Vec<u8>, text: &[u8], width: usize) -> Result<(), AllocError>
    requires { width ≤ TEXT_COLUMNS }
    ensures { OnOk result (bytes.new.items ≡ bytes.old.items ++ from_right width text.now) }
{
    bytes.extend_from_slice(blanks(width.saturating_sub(text.len())))?;
    bytes.extend_from_slice(text)
}

fn blanks(count: usize) -> &'static [u8]
    requires { count ≤ TEXT_COLUMNS }
    ensures { result.now ≡ blanks count }
{
    &BLANKS[..count]
}
