//! Replies as values.
ghost use Rattle.std.specs.Prelude.{◌≡◌, IfOk};
ghost use Rattle.std.specs.Str.{IsUtf8};
ghost use Rattle.serde_json.specs.Data.{array};
ghost use Rattle.serde_json.specs.View.{view};
ghost use Rattle.std.specs.List.{AllByRecursion};
ghost use Rattle.upd_desk.specs.ReplyValues.{accepted_value, fault_value, items, refused_value};

use serde_json::{Value, json};
use std::alloc::{AllocError, Global};
use upd_text::{Fault, Name};

pub(crate) fn accepted_value(
    alloc: Global,
    site: &str,
    number: u64,
    mode: &str,
    idents: &[Name],
    file: &[u8],
    lines: u32,
) -> Result<Value, AllocError>
    ensures { AllByRecursion IsUtf8 idents.now → IsUtf8 file.now
        → IfOk result (λ v. view v ≡ accepted_value site.now number mode.now idents.now file.now lines) }
{
    let names = names(alloc, idents)?;
    let compile = String::from_utf8_lossy(alloc, file)?;
    json!(in alloc; {"compile": compile, "idents": names, "lines": lines, "mode": mode, "run": number, "site": site,
        "state": "accepted"})
}

/// Names as the items of an array.
fn names(alloc: Global, idents: &[Name]) -> Result<Value, AllocError>
    ensures { AllByRecursion IsUtf8 idents.now → IfOk result (λ v. view v ≡ array (items idents.now)) }
{
    let mut list = Vec::new(alloc);
    for ident in idents {
        let name = String::from_utf8_lossy(alloc, ident.as_bytes())?;
        list.push(Value::String(name))?;
    }
    Ok(Value::Array(list))
}

pub(crate) fn refused_value(
    alloc: Global,
    site: &str,
    number: u64,
    mode: &str,
    fault: Fault,
) -> Result<Value, AllocError>
    ensures { IfOk result (λ v. view v ≡ refused_value site.now number mode.now fault) }
{
    json!(in alloc; {"at": fault.at, "fault": fault.kind.number(), "mode": mode, "name": fault.kind.name(),
        "run": number, "site": site, "state": "refused"})
}

pub(crate) fn fault_value(alloc: Global, fault: Fault) -> Result<Value, AllocError>
    ensures { IfOk result (λ v. view v ≡ fault_value fault) }
{
    json!(in alloc; {"at": fault.at, "fault": fault.kind.number(), "name": fault.kind.name()})
}
