//! Laws of frames and of whole spools, as definitions. The functions do nothing: each clause is a theorem.
ghost use Rattle.std.specs.Prelude.{◌≡◌, ◌++◌, List, ℕ, Some};
ghost use Rattle.upd_desk.specs.Arrivals.{ArrivalView};
ghost use Rattle.upd_wire.specs.Frames.{IsFrame, frame_of, frame_text};
ghost use Rattle.upd_wire.specs.Spools.{IsSpool};
ghost use Rattle.upd_wire.specs.declared.frames.TheConstants.{MAX_FRAMES};
ghost use Rattle.upd_wire.specs.declared.header.TheConstants.{MAX_HEADER_BYTES};
ghost use Rattle.upd_wire.specs.declared.digits.TheConstants.{MAX_DIGITS};

/// A frame is read from the one text that it is written as, and from no other; and no frame is the beginning of
/// another.
pub fn frames_are_as_spelled()
    ensures read { (a : ArrivalView) (behind : List ℕ) → IsFrame a
        → frame_of (frame_text a ++ behind) ≡ Some (a, behind) }
    ensures spelled { (text behind : List ℕ) (a : ArrivalView) → frame_of text ≡ Some (a, behind)
        → IsFrame a × (text ≡ frame_text a ++ behind) }
    ensures no_prefix { (a b : ArrivalView) (behind : List ℕ) → IsFrame a → IsFrame b
        → frame_text b ≡ frame_text a ++ behind → a ≡ b }
{}

/// Each text is that of a spool, and no other list of frames fits it.
pub fn texts_are_spools_in_one_way()
    ensures some { (text : List ℕ) → (frames : List ArrivalView) × (rest : List ℕ) × IsSpool text frames rest }
    ensures one { (text : List ℕ) (frames others : List ArrivalView) (rest other : List ℕ)
        → IsSpool text frames rest → IsSpool text others other → (frames ≡ others) × (rest ≡ other) }
{}

/// The limits of spools and numbers, as numbers.
pub fn spool_limits_are_these()
    ensures { (MAX_FRAMES ≡ 100000) × (MAX_HEADER_BYTES ≡ 63) × (MAX_DIGITS ≡ 9) }
{}
