//! What stores answer, whatever they keep their rows in.
ghost use Rattle.std.specs.Prelude.{◌≡◌, Bool, IfOk, List, map};
ghost use Rattle.std.specs.BTreeSet as sorted;
ghost use Rattle.std.specs.List.{filter, list_any};
ghost use Rattle.std.specs.List.Sorted.{IsStrictlySortedBy};
ghost use Rattle.upd_text.specs.Order.{by_name};
ghost use Rattle.upd_text.specs.declared.card_ref.CardRef.{CardRef};
ghost use Rattle.upd_core.specs.Library.{LibraryView};
ghost use Rattle.upd_core.specs.Sound.{IsSound};
ghost use Rattle.upd_records.specs.Rows.{Rows, Shows};
ghost use Rattle.upd_row_store.specs.Asked.{AreDecksOf, AreHomes, decks_with, is_asked};
ghost use Rattle.upd_row_store.specs.Keeping.{reads_with};
ghost use Rattle.upd_row_store.specs.Tables.{AreByKey, AreRead, AreReadOf};

use std::alloc::{AllocError, Global};
use std::collections::BTreeSet;
use upd_core::{CardRef, Library, Name, Serial, States};
use upd_records::{CardRow, same_ref};

/// Where cards are.
#[derive(Debug, Drop)]
pub struct Homes {
    /// The decks other than `YANK$$$` that hold one of them, by age, each once.
    pub decks: Vec<Serial>,
    /// Whether one of them may be in `YANK$$$`. A store that doesn't look there says yes.
    pub may_be_yanks: bool,
}

/// The deck that is asked for.
#[derive(Debug, Drop)]
pub enum DeckOf {
    /// The held deck of this name.
    Named(Name),
    /// The deck that holds this card.
    Holding(CardRef),
}

/// How many decks are read with one more library; it stops at the last value.
pub fn reads_with(reads: u64, library: &Library) -> u64
    ensures { result ≡ reads_with library.now reads }
{
    reads.saturating_add(library.decks().len() as u64)
}

/// Whether a card is one of those that are asked for.
fn is_asked(cards: &[CardRef], card: &CardRef) -> bool
    ensures { result ≡ is_asked cards.now card.now }
{
    cards.iter().any(|asked| same_ref(asked, card))
}

/// The ages of the decks in the rows of cards that are asked for, as often; memory alone can fail.
pub fn ages_of_decks(
    alloc: Global,
    rows: &[CardRow],
    cards: &[CardRef],
) -> Result<Vec<Serial>, AllocError>
    ensures { IfOk result (λ ages. ages.items ≡ map (λ r. r.deck) (filter (λ r. is_asked cards.now r.card) rows.now)) }
{
    let mut ages = Vec::new(alloc);
    for row in rows {
        if is_asked(cards, &row.card) {
            ages.push(row.deck)?;
        }
    }
    Ok(ages)
}

/// The decks of rows of cards by age, each once, without `YANK$$$`.
pub fn decks_by_age(ages: Vec<Serial>) -> Vec<Serial>
    ensures { (cards : List CardRef) (rows : Rows) (l : LibraryView) → IsSound l → Shows rows l
        → AreDecksOf cards rows.cards ages.items → result.items ≡ decks_with cards l }
{
    let mut ages = ages;
    ages.retain(|age| *age != 0);
    ages.sort_unstable();
    ages.dedup();
    ages
}

/// The decks of rows of cards by age, each once, and whether `YANK$$$` is among them.
pub fn homes_by_age(ages: Vec<Serial>) -> Homes
    ensures { (cards : List CardRef) (rows : Rows) (l : LibraryView) → IsSound l → Shows rows l
        → AreDecksOf cards rows.cards ages.items → AreHomes cards l result }
{
    let may_be_yanks = ages.contains(&0);
    Homes {
        decks: decks_by_age(ages),
        may_be_yanks,
    }
}

/// These cards by name, each once. Cards of a deck mostly come in a few runs by name, which a stable sort joins.
pub fn cards_once(alloc: Global, cards: &[CardRef]) -> Result<Vec<CardRef>, AllocError>
    ensures order { IfOk result (λ once. IsStrictlySortedBy by_name once.items) }
    ensures same { IfOk result (λ once. (test : CardRef → Bool) → list_any test once.items ≡ list_any test cards.now) }
{
    let mut once = Vec::from_slice(alloc, cards)?;
    once.sort()?;
    once.dedup();
    Ok(once)
}

/// These cards as a set; memory alone can fail.
pub fn card_set(alloc: Global, cards: &[CardRef]) -> Result<BTreeSet<CardRef>, AllocError>
    ensures { IfOk result (λ set. (card : CardRef) → sorted.contains by_name set card ≡ is_asked cards.now card) }
{
    let mut set = BTreeSet::new(alloc);
    for card in cards {
        set.insert(*card)?;
    }
    Ok(set)
}

/// Takes the statuses of other cards away.
pub fn keep_states(states: &mut Vec<(CardRef, bool)>, cards: &BTreeSet<CardRef>)
    ensures { states.new.items ≡ filter (λ p. sorted.contains by_name cards.now p.0) states.old.items }
{
    states.retain(|pair| cards.contains(&pair.0));
}

/// Statuses and counts in the order of their tables' keys.
pub fn states_by_key(states: States) -> States
    ensures read { (rows : Rows) → AreRead rows states → AreRead rows result }
    ensures order { AreByKey result }
{
    let mut states = states;
    states.states.sort_unstable_by_key(|pair| pair.0);
    states.counts.sort_unstable_by_key(|pair| pair.0);
    states
}

/// The statuses of these cards and all counts, in the order of their tables' keys; only memory can run out.
pub fn states_among(alloc: Global, states: States, cards: &[CardRef]) -> Result<States, AllocError>
    ensures read { IfOk result (λ found. (rows : Rows) → AreRead rows states → AreReadOf cards.now rows found) }
    ensures order { IfOk result AreByKey }
{
    let set = card_set(alloc, cards)?;
    let mut states = states;
    keep_states(&mut states.states, &set);
    Ok(states_by_key(states))
}
