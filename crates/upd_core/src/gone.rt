//! Purges: what is removed with the purged idents.

ghost use Rattle.std.specs.Prelude.{◌≡◌, ℕ, ◌<◌, not, map, slice_index, EachIndex, IfOk};
ghost use Rattle.std.specs.List.{filter};
ghost use Rattle.upd_core.specs.Edits.{unheld, without_entries, without_idents, deck_without, decks_without, is_among};
ghost use Rattle.upd_core.specs.Gone.{is_listed, is_gone};

use crate::card::{Card, Entry};
use crate::deck::Deck;
use crate::ident::{Ident, Serial};
use std::alloc::{AllocError, Global};

/// The set of idents that a purge removes.
#[derive(Drop)]
pub enum Gone {
    /// An ident and all younger ones.
    From(Serial),
    /// The serials whose flag is set.
    Listed(Vec<bool>),
}

impl Gone {
    /// The idents with these serials. It allocates one flag for each serial up to the greatest.
    pub(crate) fn among(alloc: Global, ages: &[Serial]) -> Result<Gone, AllocError>
        ensures { IfOk result (λ gone. (z : ℕ) → is_gone gone z ≡ is_among ages.now z) }
    {
        let flags = flags(alloc, ages)?;
        Ok(Gone::Listed(flags))
    }

    /// Whether the purge removes the ident with a serial.
    pub(crate) fn covers(&self, age: Serial) -> bool
        ensures { result ≡ is_gone self.now age }
    {
        match self {
            Gone::From(oldest) => *oldest <= age,
            Gone::Listed(flags) => is_listed(flags, age),
        }
    }
}

/// The flag of a serial; false past the last flag.
fn is_listed(flags: &[bool], age: Serial) -> bool
    ensures { result ≡ is_listed flags.now age }
{
    let age = age as usize;
    age < flags.len() && flags[age]
}

/// The flags of these serials, up to the greatest.
fn flags(alloc: Global, ages: &[Serial]) -> Result<Vec<bool>, AllocError>
    ensures { IfOk result (λ flags. (z : ℕ) → is_listed flags.items z ≡ is_among ages.now z) }
{
    let mut flags = vec![in alloc; false; after_all(ages)]?;
    for age in ages {
        flags[*age as usize] = true;
    }
    Ok(flags)
}

/// One more than the greatest serial; 0 for none.
fn after_all(ages: &[Serial]) -> usize
    ensures { EachIndex ages.now (λ k. slice_index ages.now k < result) }
{
    match ages.iter().copied().max() {
        Some(greatest) => greatest as usize + 1,
        None => 0,
    }
}

/// An ident after the purge.
fn unheld(ident: Ident, gone: &Gone) -> Ident
    ensures { result ≡ unheld (is_gone gone.now) ident }
{
    let held = ident.held && !gone.covers(ident.age);
    Ident { held, ..ident }
}

/// Clears `held` of these idents.
pub(crate) fn unhold(idents: &mut [Ident], gone: &Gone)
    ensures { idents.new ≡ map (unheld (is_gone gone.now)) idents.old }
{
    for ident in idents.iter_mut() {
        *ident = unheld(*ident, gone);
    }
}

/// Removes the entries of these idents from a history.
fn purge_history(history: &mut Vec<Entry>, gone: &Gone)
    ensures { history.new.items ≡ filter (λ e. not (is_gone gone.now e.ident)) history.old.items }
{
    history.retain(|entry| !gone.covers(entry.ident));
}

/// [`purge_history`] for the history of each card.
fn purge_histories(cards: &mut [Card], gone: &Gone)
    ensures { cards.new ≡ map (without_entries (is_gone gone.now)) cards.old }
{
    for card in cards.iter_mut() {
        purge_history(&mut card.history, gone);
    }
}

/// Removes the cards of these idents.
fn drop_cards(cards: &mut Vec<Card>, gone: &Gone)
    ensures { cards.new.items ≡ filter (λ c. not (is_gone gone.now c.ident)) cards.old.items }
{
    cards.retain(|card| !gone.covers(card.ident));
}

/// Removes the cards of these idents, and their entries from the other cards.
pub(crate) fn purge_cards(cards: &mut Vec<Card>, gone: &Gone)
    ensures { cards.new.items ≡ without_idents (is_gone gone.now) cards.old.items }
{
    drop_cards(cards, gone);
    purge_histories(cards, gone);
}

/// [`purge_cards`] for each deck.
fn purge_each(decks: &mut [Deck], gone: &Gone)
    ensures { decks.new ≡ map (deck_without (is_gone gone.now)) decks.old }
{
    for deck in decks.iter_mut() {
        purge_cards(&mut deck.cards, gone);
    }
}

/// Removes the decks of these idents, with all their cards.
fn drop_decks(decks: &mut Vec<Deck>, gone: &Gone)
    ensures { decks.new.items ≡ filter (λ d. not (is_gone gone.now d.ident)) decks.old.items }
{
    decks.retain(|deck| !gone.covers(deck.ident));
}

/// Removes the decks of these idents, and their cards and entries from the other decks.
pub(crate) fn purge_decks(decks: &mut Vec<Deck>, gone: &Gone)
    ensures { decks.new.items ≡ decks_without (is_gone gone.now) decks.old.items }
{
    drop_decks(decks, gone);
    purge_each(decks, gone);
}
