//! Reads from any reader. A call that was interrupted counts as failed, like any other.
ghost use Rattle.std.specs.Prelude.{◌≡◌, ◌<◌, ◌≤◌, ◌+◌, ◌++◌, List, ℕ, IfErr, OnOk, length, vec_len};
ghost use Rattle.std.specs.Io.KnownBytes.{Consumes, IsAtEnd};
ghost use Rattle.upd_wire.specs.Inputs.{IsReadFailure};

use std::io::Read;
use upd_text::FaultKind;

/// Reads until a vector has `size` bytes, or to the end of the input. The error is NoMemory where the vector can't
/// grow, and Read where a read failed, whatever its reason.
pub fn read_up_to<R: Read>(
    reader: &mut R,
    size: usize,
    bytes: &mut Vec<u8>,
) -> Result<(), FaultKind>
    requires { vec_len bytes.old ≤ size }
    ensures ok { OnOk result ((taken : List ℕ) × (bytes.new.items ≡ bytes.old.items ++ taken)
        × Consumes (R.remaining reader.old) (R.remaining reader.new) taken) }
    ensures most { OnOk result (vec_len bytes.new ≤ size) }
    ensures end { OnOk result (vec_len bytes.new < size → IsAtEnd (R.remaining reader.new)) }
    ensures err { IfErr result IsReadFailure }
    ensures front { IfErr result (λ _. (taken : List ℕ) × (vec_len bytes.old + length taken ≤ size)
        × Consumes (R.remaining reader.old) (R.remaining reader.new) taken) }
{
    let mut chunk = [0u8; 4096];
    'input: while bytes.len() < size {
        let room = (size - bytes.len()).min(4096);
        let part = &mut chunk[..room];
        match reader.read(part) {
            Ok(0) => return Ok(()),
            Ok(count) => {
                if bytes.extend_from_slice(&part[..count]).is_err() {
                    return Err(FaultKind::NoMemory);
                }
            }
            Err(_) => return Err(FaultKind::Read),
        }
    }
    Ok(())
}
