//! Reads the parts of a frame. A read that was interrupted counts as failed, like any other.
ghost use Rattle.std.specs.Prelude.{◌≡◌, List, ℕ, [], ◌∷◌, ◌++◌, IfErr, IfOk, OnOk, length};
ghost use Rattle.std.specs.Io.KnownBytes.{Consumes, IsAtEnd};
ghost use Rattle.upd_wire.specs.Exchange.{LineRead, StopsEnd, StopsNothing, StopsRun};
ghost use Rattle.upd_wire.specs.Spools.{Stops};

use crate::header::MAX_HEADER_BYTES;
use crate::read_up_to;
use std::io::Read;
use upd_text::FaultKind;

/// Reads a line of at most `MAX_HEADER_BYTES` into an empty vector, without its LF. `false`: the input ends before it.
pub(crate) fn read_line<R: Read>(reader: &mut R, line: &mut Vec<u8>) -> Result<bool, FaultKind>
    requires { line.old.items ≡ [] }
    ensures ok { IfOk result (λ found.
        LineRead found line.new.items (R.remaining reader.old) (R.remaining reader.new)) }
    ensures err { IfErr result (λ kind. (taken : List ℕ)
        × Consumes (R.remaining reader.old) (R.remaining reader.new) taken
        × Stops kind taken (R.remaining reader.new)) }
{
    let mut byte = [0u8; 1];
    'line: while line.len() <= MAX_HEADER_BYTES {
        match reader.read(&mut byte) {
            Ok(0) if line.is_empty() => return Ok(false),
            Ok(0) => return Err(FaultKind::CutFrame),
            Ok(_) => {}
            Err(_) => return Err(FaultKind::Read),
        }
        if byte[0] == b'\n' {
            return Ok(true);
        }
        if line.push(byte[0]).is_err() {
            return Err(FaultKind::NoMemory);
        }
    }
    Err(FaultKind::BadFrame)
}

/// Reads the bytes of a run into an empty vector, and the LF behind them.
pub(crate) fn read_run<R: Read>(
    reader: &mut R,
    size: usize,
    run: &mut Vec<u8>,
) -> Result<(), FaultKind>
    requires { run.old.items ≡ [] }
    ensures ok { OnOk result (Consumes (R.remaining reader.old) (R.remaining reader.new) (run.new.items ++ 10 ∷ [])) }
    ensures size { OnOk result (length run.new.items ≡ size) }
    ensures err { IfErr result (λ kind. (taken : List ℕ)
        × Consumes (R.remaining reader.old) (R.remaining reader.new) taken
        × StopsRun kind size taken (R.remaining reader.new)) }
{
    read_bytes(reader, size, run)?;
    match read_end(reader) {
        Ok(()) => Ok(()),
        Err(kind) => Err(kind),
    }
}

/// Reads this number of bytes into an empty vector.
fn read_bytes<R: Read>(reader: &mut R, size: usize, run: &mut Vec<u8>) -> Result<(), FaultKind>
    requires { run.old.items ≡ [] }
    ensures ok { OnOk result (Consumes (R.remaining reader.old) (R.remaining reader.new) run.new.items) }
    ensures size { OnOk result (length run.new.items ≡ size) }
    ensures err { IfErr result (λ kind. (taken : List ℕ)
        × Consumes (R.remaining reader.old) (R.remaining reader.new) taken
        × StopsRun kind size taken (R.remaining reader.new)) }
{
    read_up_to(reader, size, run)?;
    if run.len() < size {
        return Err(FaultKind::CutFrame);
    }
    Ok(())
}

/// Reads the LF that ends a frame.
fn read_end<R: Read>(reader: &mut R) -> Result<(), FaultKind>
    ensures ok { OnOk result (Consumes (R.remaining reader.old) (R.remaining reader.new) (10 ∷ [])) }
    ensures err { IfErr result (λ kind. (taken : List ℕ)
        × Consumes (R.remaining reader.old) (R.remaining reader.new) taken
        × StopsEnd kind taken (R.remaining reader.new)) }
{
    let mut byte = [0u8; 1];
    match reader.read(&mut byte) {
        Ok(0) => Err(FaultKind::CutFrame),
        Ok(_) if byte[0] == b'\n' => Ok(()),
        Ok(_) => Err(FaultKind::BadFrame),
        Err(_) => Err(FaultKind::Read),
    }
}

/// Whether the input ends here: another byte is BadFrame.
pub(crate) fn read_nothing<R: Read>(reader: &mut R) -> Result<(), FaultKind>
    ensures ok { OnOk result (Consumes (R.remaining reader.old) (R.remaining reader.new) []
        × IsAtEnd (R.remaining reader.new)) }
    ensures err { IfErr result (λ kind. (taken : List ℕ)
        × Consumes (R.remaining reader.old) (R.remaining reader.new) taken × StopsNothing kind taken) }
{
    let mut byte = [0u8; 1];
    match reader.read(&mut byte) {
        Ok(0) => Ok(()),
        Ok(_) => Err(FaultKind::BadFrame),
        Err(_) => Err(FaultKind::Read),
    }
}
