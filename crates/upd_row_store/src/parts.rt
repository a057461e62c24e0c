//! The rows of some decks.
ghost use Rattle.std.specs.Prelude.{◌≡◌, ℕ, ◌==◌, ◌&&◌, ◌||◌, IfOk};
ghost use Rattle.std.specs.BTreeSet as sorted;
ghost use Rattle.std.specs.Cmp.Lexicographic.{slice_cmp};
ghost use Rattle.std.specs.List.{filter, list_any};
ghost use Rattle.std.specs.Ordering.{nat_cmp};
ghost use Rattle.std.specs.Str.{bytes_eq};
ghost use Rattle.upd_text.specs.Order.{by_name};
ghost use Rattle.upd_text.specs.Units.{Bytes};
ghost use Rattle.upd_text.specs.declared.card_ref.CardRef.{CardRef};
ghost use Rattle.upd_core.specs.Edits.{is_among};
ghost use Rattle.upd_records.specs.Rows.{Rows, same_ref};
ghost use Rattle.upd_row_store.specs.Assembling.{AreRowsOf};
ghost use Rattle.upd_row_store.specs.PartRows.{part_rows};

use std::alloc::{AllocError, Global};
use std::collections::BTreeSet;
use upd_core::{CardRef, Serial};
use upd_records::{CardRow, EntryRow, LibraryRows};
use upd_text::Name;

/// The names of cards as a set.
pub(crate) fn name_set(alloc: Global, cards: &[CardRow]) -> Result<BTreeSet<Name>, AllocError>
    ensures { IfOk result (λ set. (name : Bytes) → sorted.contains (slice_cmp nat_cmp) set name
        ≡ list_any (λ r. bytes_eq r.card.name name) cards.now) }
{
    let mut set = BTreeSet::new(alloc);
    for row in cards {
        set.insert(row.card.name)?;
    }
    Ok(set)
}

/// The cards themselves as a set.
fn row_set(alloc: Global, cards: &[CardRow]) -> Result<BTreeSet<CardRef>, AllocError>
    ensures { IfOk result (λ set. (card : CardRef) → sorted.contains by_name set card
        ≡ list_any (λ r. same_ref r.card card) cards.now) }
{
    let mut set = BTreeSet::new(alloc);
    for row in cards {
        set.insert(row.card)?;
    }
    Ok(set)
}

fn age_set(alloc: Global, ages: &[Serial]) -> Result<BTreeSet<Serial>, AllocError>
    ensures { IfOk result (λ set. (age : ℕ) → sorted.contains nat_cmp set age ≡ is_among ages.now age) }
{
    let mut set = BTreeSet::new(alloc);
    for age in ages {
        set.insert(*age)?;
    }
    Ok(set)
}

/// Takes the cards of decks other than `YANK$$$` and these away.
fn keep_cards(cards: &mut Vec<CardRow>, ages: &BTreeSet<Serial>)
    ensures { cards.new.items
        ≡ filter (λ r. (r.deck == 0) || sorted.contains nat_cmp ages.now r.deck) cards.old.items }
{
    cards.retain(|row| row.deck == 0 || ages.contains(&row.deck));
}

/// Takes the entries of other cards away. `names` has the names of the cards: they are fewer, so looked at first.
fn keep_entries(entries: &mut Vec<EntryRow>, names: &BTreeSet<Name>, cards: &BTreeSet<CardRef>)
    ensures { entries.new.items ≡ filter (λ e. sorted.contains (slice_cmp nat_cmp) names.now e.card.name
        && sorted.contains by_name cards.now e.card) entries.old.items }
{
    entries.retain(|row| names.contains(&row.card.name) && cards.contains(&row.card));
}

/// The rows of a library without those of the decks that aren't of these ages; memory alone can fail.
pub(crate) fn rows_of_part(
    alloc: Global,
    rows: LibraryRows,
    ages: &[Serial],
) -> Result<LibraryRows, AllocError>
    ensures { (tables : Rows) → AreRowsOf tables rows
        → IfOk result (λ part. AreRowsOf (part_rows ages.now tables) part) }
{
    let mut rows = rows;
    let ages = age_set(alloc, ages)?;
    keep_cards(&mut rows.cards, &ages);
    let names = name_set(alloc, &rows.cards)?;
    let cards = row_set(alloc, &rows.cards)?;
    keep_entries(&mut rows.entries, &names, &cards);
    Ok(rows)
}
