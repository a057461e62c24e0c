//! The path of a target, and what the segments of a path spell.

ghost use Rattle.std.specs.Prelude.{◌≡◌, ◌++◌, ◌∷◌, IfOk};
ghost use Rattle.std.specs.String.{string_bytes};
ghost use Rattle.percent_encoding.specs.Percent.{percent_decode};
ghost use Rattle.upd_wire.specs.Numbers.{number_of};
ghost use Rattle.upd_text.specs.Names.{card_of};
ghost use Rattle.upd_text.specs.declared.fault.FaultKind.TheVariants.{BadCard, BadName, BadNumber};
ghost use Rattle.upd_wire.specs.Calls.{Gives};
ghost use Rattle.upd_wire.specs.Parameters.{name_of, or_refuse, path_of, text_of};

use crate::call::Refusal;
use crate::read_number;
use percent_encoding::{DecodeError, percent_decode_str};
use std::alloc::{AllocError, Global};
use upd_text::{CardRef, FaultKind, Name};

/// The path of a target, without its query.
pub(crate) fn path_of(target: &str) -> &str
    ensures { result.now ≡ path_of target.now }
{
    match target.split_once('?') {
        Some((path, _)) => path,
        None => target,
    }
}

/// A segment, decoded.
fn decoded(alloc: Global, segment: &str) -> Result<Vec<u8>, AllocError>
    ensures { IfOk result (λ bytes. bytes.items ≡ percent_decode segment.now) }
{
    let mut bytes = Vec::new(alloc);
    percent_decode_str(segment).append_to(&mut bytes)?;
    Ok(bytes)
}

/// A segment as a text. The fault is `kind` where it is not UTF-8.
#[tactic(auto, using(crate::proofs::ParameterLemmas::text_is, crate::proofs::ParameterLemmas::text_not))]
pub(crate) fn text_in(alloc: Global, segment: &str, kind: FaultKind) -> Result<String, Refusal>
    ensures { Gives string_bytes result (or_refuse kind (text_of (percent_decode segment.now))) }
{
    match percent_decode_str(segment).decode_utf8(alloc) {
        Ok(text) => {
            let text = text.into_owned(alloc)?;
            Ok(text)
        }
        Err(DecodeError::OutOfMemory) => Err(Refusal::of(FaultKind::NoMemory)),
        Err(DecodeError::Utf8(_)) => Err(Refusal::of(kind)),
    }
}

/// A segment as a number, or BadNumber.
pub(crate) fn number_in(alloc: Global, segment: &str) -> Result<u64, Refusal>
    ensures { Gives (λ n. n) result (or_refuse BadNumber (number_of (percent_decode segment.now))) }
{
    let text = decoded(alloc, segment)?;
    match read_number(&text) {
        Some(number) => Ok(u64::from(number)),
        None => Err(Refusal::of(FaultKind::BadNumber)),
    }
}

/// A segment as a name, or BadName.
pub(crate) fn name_in(alloc: Global, segment: &str) -> Result<Name, Refusal>
    ensures { Gives (λ n. n) result (or_refuse BadName (name_of (percent_decode segment.now))) }
{
    let text = decoded(alloc, segment)?;
    match Name::read(&text) {
        Some(name) => Ok(name),
        None => Err(Refusal::of(FaultKind::BadName)),
    }
}

/// Two segments as one card reference, or BadCard.
pub(crate) fn card_in(alloc: Global, ident: &str, number: &str) -> Result<CardRef, Refusal>
    ensures { Gives (λ c. c) result (or_refuse BadCard (card_of (percent_decode ident.now ++ (46 ∷ percent_decode number.now)))) }
{
    let mut text = decoded(alloc, ident)?;
    let number = decoded(alloc, number)?;
    text.push(b'.')?;
    text.extend_from_slice(&number)?;
    match CardRef::read(&text) {
        Some(card) => Ok(card),
        None => Err(Refusal::of(FaultKind::BadCard)),
    }
}
