//! Replies, and the text that answers a run without one.

ghost use Rattle.std.specs.Prelude.{◌≡◌, Err, IfErr, IfOk, false};
ghost use Rattle.upd_desk.specs.Answers.{IsUntold};
ghost use Rattle.upd_desk.specs.Holding.{is_lost};
ghost use Rattle.upd_desk.specs.ReplyTexts.{fault_text};

use crate::reply_texts::fault_text;
use std::alloc::Global;
use std::marker::Model;
use upd_text::{Fault, FaultKind};

/// The reply to a run, as its site gets it.
#[derive(Debug, Drop)]
pub struct Reply {
    /// The library has taken the run in.
    pub accepted: bool,
    /// Compact JSON.
    pub text: Vec<u8>,
}

impl Model for Reply {
    ghost use Rattle.upd_desk.specs.Outcomes.{ReplyView};

    ghost Value = { ReplyView };

    ghost view = { λ r. record { accepted = r.accepted; text = r.text.items } };
}

/// The text of a fault that leaves a run answered.
///
/// The fault itself comes back where the run was lost: after NoMemory or Store it can be sent again. NoMemory, at 0,
/// where there is no memory for the text; the run was answered then, and gets the text when it is sent again.
pub fn fault_answer(alloc: Global, fault: Fault) -> Result<Vec<u8>, Fault>
    ensures ok { IfOk result (λ text. (is_lost fault.kind ≡ false) × (text.items ≡ fault_text fault)) }
    ensures err { IfErr result (IsUntold (Err fault)) }
{
    match fault.kind {
        FaultKind::NoMemory | FaultKind::Store => Err(fault),
        _ => match fault_text(alloc, fault) {
            Ok(text) => Ok(text),
            Err(lost) => Err(Fault::from(lost)),
        },
    }
}
