//! The lines of a deck's listing.

ghost use Rattle.std.specs.Prelude.{◌≡◌, ◌<◌, ◌≤◌, length, map, IfOk, IfSome};
ghost use Rattle.std.specs.Option.{option_map};
ghost use Rattle.std.specs.List.{filter_map};
ghost use Rattle.upd_correct.specs.ListedDeck.{bad_card, common_name_read, cut_word, deck_name_read, line_text};
ghost use Rattle.upd_correct.specs.ListedDeck.{is_other, listed_card, listed_name, status_read};
ghost use Rattle.upd_core.specs.First.{index_from};
ghost use Rattle.upd_text.specs.declared.limits.TheConstants.{MAX_CARDS};

use std::alloc::{AllocError, Global};
use std::marker::Model;
use upd_text::limits::MAX_CARDS;
use upd_text::line::split_once;
use upd_text::{CardRef, Name};

/// A card as its line in a listing has it.
#[derive(Drop)]
pub(crate) struct ListedCard<'a> {
    pub(crate) active: bool,
    pub(crate) card: CardRef,
    pub(crate) text: &'a [u8],
}

impl<'a> Model for ListedCard<'a> {
    ghost use Rattle.upd_correct.specs.ListedDeck.{ListedView};

    ghost Value = { ListedView };

    ghost view = { λ c. record { active = c.active; card = c.card; text = c.text.now } };
}

/// The cards of the lines that are those of cards.
pub(crate) fn listed_cards<'a>(
    alloc: Global,
    lines: &[&'a [u8]],
) -> Result<Vec<ListedCard<'a>>, AllocError>
    ensures { IfOk result (λ cards. cards.items ≡ filter_map listed_card (map (λ t. t.now) lines.now)) }
{
    let mut cards = Vec::new(alloc);
    for line in lines {
        if let Some(card) = listed_card(line) {
            cards.push(card)?;
        }
    }
    Ok(cards)
}

/// The index of the first line that isn't that of a card, or of the first that is too much for a library.
pub(crate) fn bad_card(lines: &[&[u8]]) -> Option<usize>
    ensures first { result ≡ bad_card (map (λ t. t.now) lines.now) }
    ensures within { IfSome result (λ i. i ≤ MAX_CARDS) }
{
    if lines.len() > MAX_CARDS {
        Some(MAX_CARDS)
    } else {
        other_line(lines)
    }
}

/// The index of the first line that isn't that of a card.
fn other_line(lines: &[&[u8]]) -> Option<usize>
    ensures first { result ≡ index_from is_other 0 (map (λ t. t.now) lines.now) }
    ensures within { IfSome result (λ i. i < length lines.now) }
{
    for (i, line) in lines.iter().enumerate() {
        if listed_card(line).is_none() {
            return Some(i);
        }
    }
    None
}

/// The card of a line, which ends with LF: its status, its reference and its text.
fn listed_card<'a>(line: &'a [u8]) -> Option<ListedCard<'a>>
    ensures { result ≡ listed_card line.now }
{
    let line = line_text(line)?;
    let (status, rest) = cut_word(line)?;
    let (field, text) = cut_word(rest)?;
    let active = read_status(status)?;
    let card = CardRef::read(field)?;
    Some(ListedCard { active, card, text })
}

/// The status that a word names.
fn read_status(word: &[u8]) -> Option<bool>
    ensures { result ≡ status_read word.now }
{
    match word {
        b"A" => Some(true),
        b"I" => Some(false),
        _ => None,
    }
}

/// The name of the deck of a head line, which ends with LF. `YANK$$$` is none, since nothing corrects it.
pub(crate) fn listed_name(line: &[u8]) -> Option<Name>
    ensures { result ≡ listed_name line.now }
{
    let line = line_text(line)?;
    let (word, name) = cut_word(line)?;
    match word {
        b"DECK" => read_deck_name(name),
        b"COMDECK" => read_common_name(name),
        _ => None,
    }
}

/// The name of a common deck, which NOPROP may follow.
fn read_common_name(text: &[u8]) -> Option<Name>
    ensures { result ≡ common_name_read text.now }
{
    match cut_word(text) {
        Some((name, b"NOPROP")) => read_deck_name(name),
        Some(_) => None,
        None => read_deck_name(text),
    }
}

/// A name that a deck can have.
fn read_deck_name(text: &[u8]) -> Option<Name>
    ensures { result ≡ deck_name_read text.now }
{
    let name = Name::read(text)?;
    if name == Name::yank() {
        return None;
    }
    Some(name)
}

/// A line without its LF; None where it has none.
fn line_text(line: &[u8]) -> Option<&[u8]>
    ensures { option_map (λ t. t.now) result ≡ line_text line.now }
{
    let (text, _) = split_once(line, b'\n')?;
    Some(text)
}

/// The bytes before the first blank and those behind it; None where there is no blank.
fn cut_word(text: &[u8]) -> Option<(&[u8], &[u8])>
    ensures { option_map (λ parts. (parts.0.now, parts.1.now)) result ≡ cut_word text.now }
{
    split_once(text, b' ')
}
