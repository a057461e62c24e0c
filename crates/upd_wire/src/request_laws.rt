//! Laws of requests: functions with empty bodies, whose clauses are theorems about the definitions.
ghost use Rattle.std.specs.Prelude.{◌≡◌, List, ℕ};
ghost use Rattle.upd_wire.specs.Calls.{Asked};
ghost use Rattle.upd_wire.specs.Requests.{HasCutHead, Says};
ghost use Rattle.upd_wire.specs.declared.head.TheConstants.{MAX_HEADERS, MAX_HEAD_BYTES};
ghost use Rattle.upd_wire.specs.declared.log_lines.TheConstants.{MAX_FIELD};

/// An input asks at most one thing of the desk. One that asks something is not cut in its head.
pub fn requests_ask_one_thing()
    ensures one { (input : List ℕ) (asked other : Asked) → Says input (Ok asked) → Says input (Ok other)
        → asked ≡ other }
    ensures whole { (input : List ℕ) (asked : Asked) → Says input (Ok asked) → ¬ (HasCutHead input) }
{}

/// The limits of a head, and of a field of a connection's line, as numbers.
pub fn head_limits_are_these()
    ensures { (MAX_HEAD_BYTES ≡ 8192) × (MAX_HEADERS ≡ 32) × (MAX_FIELD ≡ 200) }
{}
