//! Cards before and after a run.

ghost use Rattle.std.specs.Prelude.{◌≡◌, ◌∷◌, ◌++◌, [], false, List, IsTrue, IfSome};
ghost use Rattle.std.specs.Bool.{Decides};
ghost use Rattle.upd_core.specs.Library.{CardView};
ghost use Rattle.upd_core.specs.Status.{is_active};
ghost use Rattle.upd_correct.specs.Checked.{AreLeft, IsLeft};

use upd_core::{Card, Entry, Live, Serial, Target};

/// Whether two cards are the same.
pub(crate) fn is_same_card(old: &Card, new: &Card) -> bool
    ensures { Decides result (old.now ≡ new.now) }
{
    is_same_face(old, new) && is_same_history(&old.history, &new.history)
}

/// Whether two cards are the same but for their histories.
fn is_same_face(old: &Card, new: &Card) -> bool
    ensures { Decides result (record old.now { history = new.now.history } ≡ new.now) }
{
    old.ident == new.ident
        && old.number == new.number
        && is_same_text(&old.text, &new.text)
        && are_same_targets(&old.targets, &new.targets)
}

pub(crate) fn is_same_text(old: &[u8], new: &[u8]) -> bool
    ensures { Decides result (old.now ≡ new.now) }
{
    old == new
}

fn is_same_history(old: &[Entry], new: &[Entry]) -> bool
    ensures { Decides result (old.now ≡ new.now) }
{
    old == new
}

fn are_same_targets(old: &[Target], new: &[Target]) -> bool
    ensures { Decides result (old.now ≡ new.now) }
{
    old == new
}

/// Whether lists of cards are the same.
pub(crate) fn are_same_cards(old: &[Card], new: &[Card]) -> bool
    ensures { Decides result (old.now ≡ new.now) }
{
    if old.len() != new.len() {
        return false;
    }
    for (i, card) in old.iter().enumerate() {
        if !is_same_card(card, &new[i]) {
            return false;
        }
    }
    true
}

/// Whether a card of a deck is as it was, or is not younger than an ident, was active for the text and is off by one entry
/// more, of a set.
fn is_left(
    taken: &Live,
    live: &Live,
    deck: Serial,
    set: usize,
    last: usize,
    old: &Card,
    new: &Card,
) -> bool
    ensures { IsTrue result → IsLeft taken.now.targets live.now.targets deck set last old.now new.now }
{
    if is_same_card(old, new) {
        return true;
    }
    old.ident as usize <= last
        && taken.is_active(deck, old)
        && !live.is_active(deck, new)
        && is_same_face(old, new)
        && is_entered(&old.history, &new.history, set)
}

/// Whether a history is another with one entry more, by which a set switches off.
fn is_entered(old: &[Entry], new: &[Entry], set: usize) -> bool
    ensures { Decides result (new.now ≡ old.now ++ record { ident = set; active = false } ∷ []) }
{
    match new {
        [] => false,
        [front @ .., last] => is_off(last, set) && is_same_history(front, old),
    }
}

/// Whether an entry is that of a set, by which it switches off.
fn is_off(entry: &Entry, set: usize) -> bool
    ensures { Decides result (entry.now ≡ record { ident = set; active = false }) }
{
    entry.ident as usize == set && !entry.active
}

/// The old cards that are left to be found after the next card of the deck; none where the card may not stand there.
fn next_left<'a>(
    taken: &Live,
    live: &Live,
    deck: Serial,
    set: usize,
    last: usize,
    olds: &'a [Card],
    new: &Card,
) -> Option<&'a [Card]>
    ensures { (news : List CardView)
        → IfSome result (λ rest. AreLeft taken.now.targets live.now.targets deck set last rest.now news
        → AreLeft taken.now.targets live.now.targets deck set last olds.now (new.now ∷ news)) }
{
    if new.ident as usize == set {
        if live.is_active(deck, new) {
            return Some(olds);
        }
        return None;
    }
    match olds {
        [] => None,
        [old, rest @ ..] => {
            if is_left(taken, live, deck, set, last, old, new) {
                Some(rest)
            } else {
                None
            }
        }
    }
}

/// Whether the cards of a deck after a run by a set are those before it, each as it was or, if it is not younger than an
/// ident and active for the text, switched off, and active cards of the set.
pub(crate) fn are_left(
    taken: &Live,
    live: &Live,
    deck: Serial,
    set: usize,
    last: usize,
    olds: &[Card],
    news: &[Card],
) -> bool
    ensures { IsTrue result → AreLeft taken.now.targets live.now.targets deck set last olds.now news.now }
{
    let mut rest = olds;
    for card in news {
        match next_left(taken, live, deck, set, last, rest, card) {
            Some(after) => rest = after,
            None => return false,
        }
    }
    rest.is_empty()
}
