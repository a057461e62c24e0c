//! Replies and fault texts, as compact JSON.
//!
//! Texts in them are lines of runs, names, sites and modes: printable ASCII, tabs and LF. Other bytes are replaced as
//! `String::from_utf8_lossy` does it, or escaped as JSON requires. No clause says more about a text with such bytes.
ghost use Rattle.std.specs.Prelude.{◌≡◌, IfOk};
ghost use Rattle.std.specs.List.{AllByRecursion};
ghost use Rattle.upd_desk.specs.ReplyTexts.{AreShown, accepted_text, fault_text, refused_text};

use crate::reply_values::{accepted_value, fault_value, refused_value};
use std::alloc::{AllocError, Global};
use upd_text::{Fault, Name};

/// The reply to an accepted run: the compile file with the number of its lines, and the names of the idents that the
/// run introduced, by age.
pub(crate) fn accepted_text(
    alloc: Global,
    site: &str,
    number: u64,
    mode: &str,
    idents: &[Name],
    file: &[u8],
    lines: u32,
) -> Result<Vec<u8>, AllocError>
    ensures { AreShown site.now → AreShown mode.now → AllByRecursion AreShown idents.now → AreShown file.now
        → IfOk result (λ text. text.items ≡ accepted_text site.now number mode.now idents.now file.now lines) }
{
    let value = accepted_value(alloc, site, number, mode, idents, file, lines)?;
    let text = value.to_vec(alloc)?;
    Ok(text)
}

/// The reply to a refused run.
pub(crate) fn refused_text(
    alloc: Global,
    site: &str,
    number: u64,
    mode: &str,
    fault: Fault,
) -> Result<Vec<u8>, AllocError>
    ensures { AreShown site.now → AreShown mode.now
        → IfOk result (λ text. text.items ≡ refused_text site.now number mode.now fault) }
{
    let value = refused_value(alloc, site, number, mode, fault)?;
    let text = value.to_vec(alloc)?;
    Ok(text)
}

/// The text of a fault where there is no reply.
pub fn fault_text(alloc: Global, fault: Fault) -> Result<Vec<u8>, AllocError>
    ensures { IfOk result (λ text. text.items ≡ fault_text fault) }
{
    let value = fault_value(alloc, fault)?;
    let text = value.to_vec(alloc)?;
    Ok(text)
}
