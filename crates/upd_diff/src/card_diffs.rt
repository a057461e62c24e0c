//! Card diffs: one loop over the cards of a deck before and after a run.
ghost use Rattle.std.specs.Prelude.{◌≡◌, ◌↔◌, ◌+◌, ◌<◌, ◌≤◌, ◌^◌, [], ◌∷◌, ◌++◌, true, nat_lt, map, length, take, IfOk, OnOk};
ghost use Rattle.std.specs.List.{flat_map, AllByRecursion};
ghost use Rattle.upd_core.specs.Library.{CardView};
ghost use Rattle.upd_diff.specs.CardDiffs.{AreCardDiffs, IsNextOf, IsShort, Gone, Kept, New, card_after, card_before};
ghost use Rattle.upd_diff.specs.CardDiffs.{card_diff_view};

use std::alloc::{AllocError, Global};
use std::marker::Model;
use upd_core::{Card, Serial, Target};

/// Whether a card is kept, gone or new.
#[derive(Clone, Copy, Debug)]
pub(crate) enum CardDiff<'a> {
    /// The card before, and the card after.
    Kept(&'a Card, &'a Card),
    Gone(&'a Card),
    New(&'a Card),
}

impl<'a> CardDiff<'a> {
    /// How many cards before the run the diff covers: 0 or 1.
    fn before(&self) -> usize
        ensures { result ≡ length (card_before (card_diff_view self.now)) }
    {
        match self {
            CardDiff::Kept(..) | CardDiff::Gone(_) => 1,
            CardDiff::New(_) => 0,
        }
    }

    /// How many cards after the run the diff covers: 0 or 1.
    fn after(&self) -> usize
        ensures { result ≡ length (card_after (card_diff_view self.now)) }
    {
        match self {
            CardDiff::Kept(..) | CardDiff::New(_) => 1,
            CardDiff::Gone(_) => 0,
        }
    }
}

/// The card diffs of a deck, in order. There are fewer than 2^32, so that positions are numbers of 32 bits.
#[derive(Debug, Drop)]
pub(crate) struct DeckDiff<'a> {
    pub(crate) deck: Serial,
    pub(crate) card_diffs: Vec<CardDiff<'a>>,
}

impl<'a> Model for DeckDiff<'a> {
    ghost use Rattle.std.specs.Prelude.{◌<◌, ◌^◌, length, map};
    ghost use Rattle.upd_diff.specs.CardDiffs.{DeckDiffView, card_diff_view};

    ghost Value = { DeckDiffView };

    ghost view = { λ k. record { deck = k.deck; card_diffs = map card_diff_view k.card_diffs.items } };

    ghost invariant = { λ k. length k.card_diffs.items < 2 ^ 32 };
}

/// Whether two cards differ at most in their histories.
fn is_kept(was: &Card, is: &Card) -> bool
    ensures { (result ≡ true) ↔ (is.now ≡ record was.now { history = is.now.history }) }
{
    if was.ident != is.ident || was.number != is.number {
        return false;
    }
    is_same_text(&was.text, &is.text) && are_same_targets(&was.targets, &is.targets)
}

fn is_same_text(text: &[u8], other: &[u8]) -> bool
    ensures { (result ≡ true) ↔ (text.now ≡ other.now) }
{
    text == other
}

fn are_same_targets(targets: &[Target], others: &[Target]) -> bool
    ensures { (result ≡ true) ↔ (targets.now ≡ others.now) }
{
    if targets.len() != others.len() {
        return false;
    }
    for (i, target) in targets.iter().enumerate() {
        if others[i] != *target {
            return false;
        }
    }
    true
}

/// The diff of the next card before and the next card after. A card of an ident younger than `youngest`, the youngest
/// ident before, is new. Otherwise an old card that isn't the next one after is gone.
fn next_diff<'a>(youngest: Serial, was: &'a Card, is: &'a Card) -> CardDiff<'a>
    ensures next { IsNextOf was.now is.now (card_diff_view result) }
    ensures stays { is.now.ident ≤ youngest → is.now ≡ record was.now { history = is.now.history }
        → card_diff_view result ≡ Kept was.now is.now }
{
    if youngest < is.ident {
        return CardDiff::New(is);
    }
    if is_kept(was, is) {
        CardDiff::Kept(was, is)
    } else {
        CardDiff::Gone(was)
    }
}

/// The diffs of the cards of one deck, before and after.
fn card_diffs<'a>(
    alloc: Global,
    youngest: Serial,
    before: &'a [Card],
    after: &'a [Card],
) -> Result<Vec<CardDiff<'a>>, AllocError>
    ensures { IfOk result (λ card_diffs. AreCardDiffs before.now after.now (map card_diff_view card_diffs.items)) }
{
    let mut card_diffs = Vec::with_capacity(alloc, after.len())?;
    let mut i = 0;
    let mut j = 0;
    while i < before.len() && j < after.len() {
        let card_diff = next_diff(youngest, &before[i], &after[j]);
        card_diffs.push(card_diff)?;
        i += card_diff.before();
        j += card_diff.after();
    }
    add_gone(&mut card_diffs, &before[i..])?;
    add_new(&mut card_diffs, &after[j..])?;
    Ok(card_diffs)
}

fn add_gone<'a>(card_diffs: &mut Vec<CardDiff<'a>>, cards: &'a [Card]) -> Result<(), AllocError>
    ensures { OnOk result (map card_diff_view card_diffs.new.items ≡ map card_diff_view card_diffs.old.items ++ map Gone cards.now) }
{
    for card in cards {
        card_diffs.push(CardDiff::Gone(card))?;
    }
    Ok(())
}

fn add_new<'a>(card_diffs: &mut Vec<CardDiff<'a>>, cards: &'a [Card]) -> Result<(), AllocError>
    ensures { OnOk result (map card_diff_view card_diffs.new.items ≡ map card_diff_view card_diffs.old.items ++ map New cards.now) }
{
    for card in cards {
        card_diffs.push(CardDiff::New(card))?;
    }
    Ok(())
}

/// The diff of a deck. It returns `AllocError` for 2^32 card diffs or more.
pub(crate) fn deck_diff<'a>(
    alloc: Global,
    deck: Serial,
    youngest: Serial,
    before: &'a [Card],
    after: &'a [Card],
) -> Result<DeckDiff<'a>, AllocError>
    ensures deck { IfOk result (λ k. k.deck ≡ deck) }
    ensures card_diffs { IfOk result (λ k. AreCardDiffs before.now after.now k.card_diffs) }
    ensures short { IfOk result IsShort }
{
    let card_diffs = card_diffs(alloc, youngest, before, after)?;
    if !is_short(card_diffs.len()) {
        return Err(AllocError);
    }
    Ok(DeckDiff { deck, card_diffs })
}

/// Whether the places of this number of card diffs are numbers of 32 bits.
fn is_short(count: usize) -> bool
    ensures { result ≡ nat_lt count (2 ^ 32) }
{
    u32::try_from(count).is_ok()
}
