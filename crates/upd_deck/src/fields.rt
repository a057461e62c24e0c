//! The item of a line, from its word and its fields.
//!
//! The fields are checked as a whole first, and then read one by one from the left. Faults are reported in this order.

ghost use Rattle.std.specs.Prelude.{◌≡◌, ◌==◌, ℕ, false, List, Result, map, length, is_some, Err, Some, IfSome};
ghost use Rattle.std.specs.Str.{bytes_eq};
ghost use Rattle.std.specs.List.{list_any};
ghost use Rattle.upd_text.specs.declared.fault.FaultKind.{FaultKind};
ghost use Rattle.upd_text.specs.declared.fault.FaultKind.TheVariants as fault;
ghost use Rattle.upd_text.specs.Outcome.{Gives};
ghost use Rattle.upd_deck.specs.declared.word.Word.TheVariants as words;
ghost use Rattle.upd_deck.specs.LineFields.{seen};
ghost use Rattle.upd_deck.specs.Reading.{are_its_fields, card_ref_in, each_in, first_field, ident_in, is_from_name};
ghost use Rattle.upd_deck.specs.Reading.{is_marked_right, item_by, item_of, item_with, last_of_two, may_have, name_in};
ghost use Rattle.upd_deck.specs.Reading.{range_in};

use crate::item::{IdentIn, Item, NameRange};
use crate::word::Word;
use std::alloc::Global;
use upd_text::line::{fields, is_starred, split_once, word};
use upd_text::{CardRef, FaultKind, Name};

/// The value of a field: a name, a card reference, a range of names, or an ident in a deck.
trait FieldValue: Drop {
    ghost field_gives: { List ℕ → Result Self FaultKind };

    fn from_field(field: &[u8]) -> Result<Self, FaultKind>
        ensures { result ≡ field_gives field.now };
}

impl FieldValue for Name {
    ghost field_gives = { name_in };

    fn from_field(field: &[u8]) -> Result<Name, FaultKind> {
        Name::read(field).ok_or(FaultKind::BadName)
    }
}

impl FieldValue for CardRef {
    ghost field_gives = { card_ref_in };

    fn from_field(field: &[u8]) -> Result<CardRef, FaultKind> {
        CardRef::read(field).ok_or(FaultKind::BadCard)
    }
}

impl FieldValue for NameRange {
    ghost field_gives = { range_in };

    fn from_field(field: &[u8]) -> Result<NameRange, FaultKind> {
        // A single name is the range from it to itself.
        let (first, last) = split_once(field, b'.').unwrap_or((field, field));
        Ok(NameRange {
            first: Name::from_field(first)?,
            last: Name::from_field(last)?,
        })
    }
}

impl FieldValue for IdentIn {
    ghost field_gives = { ident_in };

    fn from_field(field: &[u8]) -> Result<IdentIn, FaultKind> {
        let (deck, ident) = split_once(field, b'.').ok_or(FaultKind::BadName)?;
        Ok(IdentIn {
            deck: Name::from_field(deck)?,
            ident: Name::from_field(ident)?,
        })
    }
}

/// The values of the fields, or the fault of the leftmost bad one.
fn each_in<T: FieldValue>(alloc: Global, fields: &[&[u8]]) -> Result<Vec<T>, FaultKind>
    ensures { Gives (λ found. found.items) result (each_in T.field_gives (map (λ x. x.now) fields.now)) }
{
    let mut found = Vec::with_capacity(alloc, fields.len())?;
    for field in fields {
        found.push(T::from_field(field)?)?;
    }
    Ok(found)
}

/// The item of a line that isn't a comment: text, unless the line begins with a star and a word of the profile.
pub(crate) fn item_of(alloc: Global, text: &[u8]) -> Result<Item, FaultKind>
    ensures { Gives seen result (item_of text.now) }
{
    if !is_starred(text) {
        return Ok(Item::Text);
    }
    match Word::read(word(text)) {
        Some(word) => directive(alloc, word, &fields(alloc, text)?),
        None => Ok(Item::Text),
    }
}

/// The item of a line with a word of the profile: a directive or a call. A wrong number of fields, an empty field or a
/// second field of a common deck other than NOPROP is BadField.
fn directive(alloc: Global, word: Word, fields: &[&[u8]]) -> Result<Item, FaultKind>
    ensures item { Gives seen result (item_by (Some word) (map (λ x. x.now) fields.now)) }
    ensures field { are_its_fields word (map (λ x. x.now) fields.now) ≡ false → result ≡ Err fault.BadField }
{
    if !are_its_fields(word, fields) {
        return Err(FaultKind::BadField);
    }
    item_with(alloc, word, fields)
}

/// The item of a word with its fields, of which it may have this number.
fn item_with(alloc: Global, word: Word, fields: &[&[u8]]) -> Result<Item, FaultKind>
    ensures { Gives seen result (item_with word (map (λ x. x.now) fields.now)) }
{
    let first = first_field(fields);
    let last = last_of_two(fields);
    match word {
        Word::Call => Ok(Item::Call(Name::from_field(first)?)),
        Word::Ident => Ok(Item::Ident(Name::from_field(first)?)),
        Word::Deck => Ok(Item::Deck(Name::from_field(first)?)),
        Word::CommonDeck => Ok(Item::CommonDeck {
            name: Name::from_field(first)?,
            noprop: fields.len() == 2,
        }),
        Word::Insert => Ok(Item::Insert(CardRef::from_field(first)?)),
        Word::Before => Ok(Item::Before(CardRef::from_field(first)?)),
        Word::Delete => Ok(Item::Delete {
            first: CardRef::from_field(first)?,
            last: CardRef::from_field(last)?,
        }),
        Word::Restore => Ok(Item::Restore {
            first: CardRef::from_field(first)?,
            last: CardRef::from_field(last)?,
        }),
        Word::Yank => Ok(Item::Yank(each_in(alloc, fields)?)),
        Word::SelYank => Ok(Item::SelYank(each_in(alloc, fields)?)),
        Word::YankDeck => Ok(Item::YankDeck(each_in(alloc, fields)?)),
        Word::Purge => purge_with(alloc, fields),
        Word::SelPurge => Ok(Item::SelPurge(each_in(alloc, fields)?)),
        Word::PurDeck => Ok(Item::PurDeck(each_in(alloc, fields)?)),
        Word::Compile => Ok(Item::Compile(each_in(alloc, fields)?)),
    }
}

/// A purge with its fields: ranges, or a name and a star.
fn purge_with(alloc: Global, fields: &[&[u8]]) -> Result<Item, FaultKind>
    ensures { Gives seen result (item_with words.Purge (map (λ x. x.now) fields.now)) }
{
    match from_name(fields) {
        Some(name) => Ok(Item::PurgeFrom(name)),
        None => Ok(Item::Purge(each_in(alloc, fields)?)),
    }
}

/// The name in fields that are exactly a name and a star.
fn from_name(fields: &[&[u8]]) -> Option<Name>
    ensures found { is_some result ≡ is_from_name (map (λ x. x.now) fields.now) }
    ensures name { IfSome result (λ name. name ≡ first_field (map (λ x. x.now) fields.now)) }
{
    if fields.len() == 2 && last_of_two(fields) == b"*".as_slice() {
        Name::read(first_field(fields))
    } else {
        None
    }
}

/// Whether the word may have this number of fields, no field is empty, and a second field of a common deck is NOPROP.
fn are_its_fields(word: Word, fields: &[&[u8]]) -> bool
    ensures { result ≡ are_its_fields word (map (λ x. x.now) fields.now) }
{
    may_have(word, fields.len()) && !has_empty(fields) && is_marked_right(word, fields)
}

/// Whether the word may have this number of fields.
fn may_have(word: Word, count: usize) -> bool
    ensures { result ≡ may_have word count }
{
    match word {
        Word::Call | Word::Ident | Word::Deck | Word::Insert | Word::Before => count == 1,
        Word::CommonDeck | Word::Delete | Word::Restore => count == 1 || count == 2,
        Word::Yank
        | Word::SelYank
        | Word::YankDeck
        | Word::Purge
        | Word::SelPurge
        | Word::PurDeck
        | Word::Compile => 1 <= count,
    }
}

/// Whether a field is empty, as between two commas in a row.
fn has_empty(fields: &[&[u8]]) -> bool
    ensures { result ≡ list_any (λ f. length f == 0) (map (λ x. x.now) fields.now) }
{
    for field in fields {
        if field.is_empty() {
            return true;
        }
    }
    false
}

/// Whether the second field is NOPROP, where the word is `*COMDECK` and has a second field.
fn is_marked_right(word: Word, fields: &[&[u8]]) -> bool
    ensures { result ≡ is_marked_right word (map (λ x. x.now) fields.now) }
{
    word != Word::CommonDeck || fields.len() == 1 || last_of_two(fields) == b"NOPROP".as_slice()
}

/// The first field; empty for no fields.
fn first_field<'a>(fields: &[&'a [u8]]) -> &'a [u8]
    ensures { result.now ≡ first_field (map (λ x. x.now) fields.now) }
{
    match fields {
        [] => &[],
        [first, ..] => first,
    }
}

/// The second field, or the first where there is only one: a single card is the range from it to itself.
fn last_of_two<'a>(fields: &[&'a [u8]]) -> &'a [u8]
    ensures { result.now ≡ last_of_two (map (λ x. x.now) fields.now) }
{
    match fields {
        [] => &[],
        [only] => only,
        [_, second, ..] => second,
    }
}
