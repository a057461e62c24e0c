//! Rows of cards that go, those of an ident with numbers in a row by one statement.
ghost use Rattle.std.specs.Prelude.{map};
ghost use Rattle.sqlite.specs.Held.{state};
ghost use Rattle.upd_records.specs.Changes.{change_view, done_all};
ghost use Rattle.upd_records.specs.Rows.{same_ref};
ghost use Rattle.upd_row_store.specs.Ranges.{in_range, in_ranges, without, without_rows};
ghost use Rattle.upd_row_store.specs.declared.ranges.CardRows.TheVariants.{Card};
ghost use Rattle.upd_sqlite.specs.Steps.{Makes};
ghost use Rattle.upd_sql.specs.Commits.{Inside};
ghost use Rattle.upd_sql.specs.LibraryTables.{AnyTables, HoldsTables};
ghost use Rattle.upd_sql.specs.Moving.{MakesIf};

use crate::writes;
use sqlite::{Alter, Error, Transaction};
use std::alloc::Global;
use upd_core::{CardRef, Change};
use upd_row_store::{CardRange, CardRows, Gone, gone_of};

/// Removes the rows of cards and their statuses.
fn remove_cards<S: Alter>(tx: &mut Transaction<'_, S>, range: &CardRange) -> Result<(), Error>
    ensures { Inside (state S.Store) (Makes HoldsTables AnyTables (without_rows Card (in_range range.now))) tx.old.conn tx.new.conn result }
{
    writes::delete_cards(tx, range)?;
    writes::delete_states(tx, range)
}

/// Removes these rows of the cards of a range.
fn remove_range<S: Alter>(
    tx: &mut Transaction<'_, S>,
    which: CardRows,
    range: &CardRange,
) -> Result<(), Error>
    ensures { Inside (state S.Store) (Makes HoldsTables AnyTables (without_rows which (in_range range.now))) tx.old.conn tx.new.conn result }
{
    match which {
        CardRows::Entries => writes::delete_entries(tx, range),
        CardRows::Targets => writes::delete_targets(tx, range),
        CardRows::Card => remove_cards(tx, range),
    }
}

/// Removes these rows of a card.
pub(crate) fn remove<S: Alter>(
    tx: &mut Transaction<'_, S>,
    which: CardRows,
    card: &CardRef,
) -> Result<(), Error>
    ensures { Inside (state S.Store) (Makes HoldsTables AnyTables (without_rows which (same_ref card.now))) tx.old.conn tx.new.conn result }
{
    remove_range(tx, which, &CardRange::of(card))
}

/// Removes these rows of the cards of ranges.
fn remove_ranges<S: Alter>(
    tx: &mut Transaction<'_, S>,
    which: CardRows,
    ranges: &[CardRange],
) -> Result<(), Error>
    ensures { Inside (state S.Store) (Makes HoldsTables AnyTables (without_rows which (in_ranges ranges.now))) tx.old.conn tx.new.conn result }
{
    for range in ranges {
        remove_range(tx, which, range)?;
    }
    Ok(())
}

/// Removes the rows of all cards that go.
fn remove_gone<S: Alter>(tx: &mut Transaction<'_, S>, gone: &Gone) -> Result<(), Error>
    ensures { Inside (state S.Store) (Makes HoldsTables AnyTables (without gone.now)) tx.old.conn tx.new.conn result }
{
    remove_ranges(tx, CardRows::Entries, &gone.entries)?;
    remove_ranges(tx, CardRows::Targets, &gone.targets)?;
    remove_ranges(tx, CardRows::Card, &gone.cards)
}

/// Makes changes at once, if each takes rows of a card away. Answers whether they are made.
pub(crate) fn remove_together<S: Alter>(
    tx: &mut Transaction<'_, S>,
    alloc: Global,
    changes: &[Change],
) -> Result<bool, Error>
    ensures { Inside (state S.Store) (MakesIf (done_all (map change_view changes.now))) tx.old.conn tx.new.conn result }
{
    match gone_of(alloc, changes) {
        Some(gone) => {
            remove_gone(tx, &gone)?;
            Ok(true)
        }
        None => Ok(false),
    }
}
