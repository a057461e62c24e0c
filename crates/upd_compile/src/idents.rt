//! Idents by serial.

ghost use Rattle.std.specs.Prelude.{◌≡◌};
ghost use Rattle.std.specs.Option.{option_copied};
ghost use Rattle.upd_core.specs.Library.{name_of};
ghost use Rattle.upd_compile.specs.Idents.{ident_at};

use upd_core::{Ident, Serial};

/// The ident with a serial, held or not.
pub(crate) fn ident_at(idents: &[Ident], age: Serial) -> Option<&Ident>
    ensures { option_copied result ≡ ident_at idents.now age }
{
    if age == 0 {
        return None;
    }
    idents.get(age as usize - 1)
}

/// The name of the ident with a serial; empty where there is no such ident.
pub fn name_of(idents: &[Ident], age: Serial) -> &[u8]
    ensures { result.now ≡ name_of idents.now age }
{
    match ident_at(idents, age) {
        Some(ident) => ident.name.as_bytes(),
        None => b"",
    }
}
