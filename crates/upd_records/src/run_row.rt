//! The row of a stored run.

ghost use Rattle.std.specs.Prelude.{◌≡◌};
ghost use Rattle.upd_records.specs.Rows.{mode_word};

use std::marker::Model;

/// A run with its reply, stored so that a repeat gets the same reply. Site and number are its key.
#[derive(Debug, Drop)]
pub struct RunRow {
    pub site: String,
    pub number: u64,
    /// 0 full, 1 quick, 2 normal.
    pub mode: u32,
    /// The run as it arrived.
    pub bytes: Vec<u8>,
    pub accepted: bool,
    /// The reply as it was sent.
    pub reply: Vec<u8>,
}

impl Model for RunRow {
    ghost use Rattle.std.specs.Prelude.{string_bytes};
    ghost use Rattle.upd_records.specs.Rows.{RunView};

    ghost Value = { RunView };

    ghost view = { λ r. record {
      site = string_bytes r.site;
      number = r.number;
      mode = r.mode;
      bytes = r.bytes.items;
      accepted = r.accepted;
      reply = r.reply.items;
    } };
}

/// The word of a mode, by its number in a row.
pub fn mode_word(mode: u32) -> &'static [u8]
    ensures { result.now ≡ mode_word mode }
{
    match mode {
        0 => b"full",
        1 => b"quick",
        _ => b"normal",
    }
}
