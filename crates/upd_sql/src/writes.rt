//! One function for each statement that changes rows; `make.rt` has those that make the tables.
ghost use Rattle.std.specs.Prelude.{◌≡◌, ◌<◌, ◌-◌, pos, negsuc};
ghost use Rattle.sqlite.specs.Held.{state};
ghost use Rattle.upd_records.specs.Changes.{done, CardNew, CardsMoved, EntryNew, IdentNew, IdentPurged, TargetNew};
ghost use Rattle.upd_records.specs.Fits.{Fits};
ghost use Rattle.upd_row_store.specs.Tables.{with_run};
ghost use Rattle.upd_row_store.specs.Ranges.{in_range, without_rows};
ghost use Rattle.upd_row_store.specs.declared.ranges.CardRows.TheVariants.{Entries, Targets};
ghost use Rattle.upd_sqlite.specs.Steps.{Makes};
ghost use Rattle.upd_sql.specs.RowEdits.{CanMoveOf, with_count, with_mark, with_moved, with_restated, with_state, without_card_rows};
ghost use Rattle.upd_sql.specs.RowEdits.{without_count, without_mark, without_runs, without_states};
ghost use Rattle.upd_sql.specs.Commits.{CountsStatuses, Inside, WasOpen};
ghost use Rattle.upd_sql.specs.LibraryTables.{AnyTables, HoldsTables};

use crate::texts;
use crate::values::{self, blob, codes_of, flag, integer_of, kind, name, number, text};
use sqlite::{Alter, Error, Transaction};
use upd_core::{CardRef, Entry, Ident, Name, Serial, Target};
use upd_records::RunRow;
use upd_row_store::CardRange;
use upd_sqlite::{run, run_counted};

pub(crate) fn insert_ident<S: Alter>(
    tx: &mut Transaction<'_, S>,
    ident: &Ident,
) -> Result<(), Error>
    ensures { Inside (state S.Store) (Makes HoldsTables AnyTables (done (IdentNew ident.now))) tx.old.conn tx.new.conn result }
{
    run(
        tx,
        texts::INSERT_IDENT,
        &[
            number(ident.age),
            name(&ident.name),
            kind(ident.kind),
            flag(ident.noprop),
            flag(ident.held),
        ],
    )
}

pub(crate) fn purge_ident<S: Alter>(tx: &mut Transaction<'_, S>, age: Serial) -> Result<(), Error>
    ensures { Inside (state S.Store) (Makes HoldsTables AnyTables (done (IdentPurged age))) tx.old.conn tx.new.conn result }
{
    run(tx, texts::PURGE_IDENT, &[number(age)])
}

pub(crate) fn insert_card<S: Alter>(
    tx: &mut Transaction<'_, S>,
    card: &CardRef,
    deck: Serial,
    pos: u32,
    body: &[u8],
) -> Result<(), Error>
    ensures { Inside (state S.Store) (Makes HoldsTables AnyTables (done (CardNew card.now deck pos body.now)))
        tx.old.conn tx.new.conn result }
{
    run(
        tx,
        texts::INSERT_CARD,
        &[
            name(&card.name),
            number(card.number),
            number(deck),
            number(pos),
            text(body),
        ],
    )
}

/// Removes only the cards' rows; `delete_states` removes their statuses.
pub(crate) fn delete_cards<S: Alter>(
    tx: &mut Transaction<'_, S>,
    range: &CardRange,
) -> Result<(), Error>
    ensures { Inside (state S.Store) (Makes HoldsTables AnyTables (without_card_rows (in_range range.now))) tx.old.conn tx.new.conn result }
{
    run(
        tx,
        texts::DELETE_CARDS,
        &[name(&range.name), number(range.first), number(range.last)],
    )
}

pub(crate) fn insert_entry<S: Alter>(
    tx: &mut Transaction<'_, S>,
    card: &CardRef,
    ord: u32,
    entry: &Entry,
) -> Result<(), Error>
    ensures { Inside (state S.Store) (Makes HoldsTables AnyTables (done (EntryNew card.now ord entry.now))) tx.old.conn tx.new.conn result }
{
    run(
        tx,
        texts::INSERT_ENTRY,
        &[
            name(&card.name),
            number(card.number),
            number(ord),
            number(entry.ident),
            flag(entry.active),
        ],
    )
}

pub(crate) fn delete_entries<S: Alter>(
    tx: &mut Transaction<'_, S>,
    range: &CardRange,
) -> Result<(), Error>
    ensures { Inside (state S.Store) (Makes HoldsTables AnyTables (without_rows Entries (in_range range.now))) tx.old.conn tx.new.conn result }
{
    run(
        tx,
        texts::DELETE_ENTRIES,
        &[name(&range.name), number(range.first), number(range.last)],
    )
}

pub(crate) fn insert_target<S: Alter>(
    tx: &mut Transaction<'_, S>,
    card: &CardRef,
    ord: u32,
    target: Target,
) -> Result<(), Error>
    ensures { Inside (state S.Store) (Makes HoldsTables AnyTables (done (TargetNew card.now ord target))) tx.old.conn tx.new.conn result }
{
    let codes = codes_of(target);
    run(
        tx,
        texts::INSERT_TARGET,
        &[
            name(&card.name),
            number(card.number),
            number(ord),
            number(codes.kind),
            number(codes.target),
            number(codes.deck),
        ],
    )
}

pub(crate) fn delete_targets<S: Alter>(
    tx: &mut Transaction<'_, S>,
    range: &CardRange,
) -> Result<(), Error>
    ensures { Inside (state S.Store) (Makes HoldsTables AnyTables (without_rows Targets (in_range range.now))) tx.old.conn tx.new.conn result }
{
    run(
        tx,
        texts::DELETE_TARGETS,
        &[name(&range.name), number(range.first), number(range.last)],
    )
}

pub(crate) fn insert_run<S: Alter>(tx: &mut Transaction<'_, S>, row: &RunRow) -> Result<(), Error>
    ensures makes { Inside (state S.Store) (Makes HoldsTables AnyTables (with_run row.now)) tx.old.conn tx.new.conn result }
    ensures was_open { WasOpen (state S.Store tx.old.conn.now) (state S.Store tx.new.conn.now) result }
{
    let run_number = integer_of(row.number)?;
    run(
        tx,
        texts::INSERT_RUN,
        &[
            values::site(&row.site),
            run_number,
            number(row.mode),
            blob(&row.bytes),
            flag(row.accepted),
            blob(&row.reply),
        ],
    )
}

pub(crate) fn insert_state<S: Alter>(
    tx: &mut Transaction<'_, S>,
    card: &CardRef,
    active: bool,
) -> Result<(), Error>
    ensures { Inside (state S.Store) (Makes HoldsTables AnyTables (with_state card.now active)) tx.old.conn tx.new.conn result }
{
    run(
        tx,
        texts::INSERT_STATE,
        &[name(&card.name), number(card.number), flag(active)],
    )
}

pub(crate) fn delete_states<S: Alter>(
    tx: &mut Transaction<'_, S>,
    range: &CardRange,
) -> Result<(), Error>
    ensures { Inside (state S.Store) (Makes HoldsTables AnyTables (without_states (in_range range.now))) tx.old.conn tx.new.conn result }
{
    run(
        tx,
        texts::DELETE_STATES,
        &[name(&range.name), number(range.first), number(range.last)],
    )
}

/// Changes a card's status in place. Returns the number of rows that are of the card.
pub(crate) fn update_state<S: Alter>(
    tx: &mut Transaction<'_, S>,
    card: &CardRef,
    active: bool,
) -> Result<usize, Error>
    ensures makes { Inside (state S.Store) (Makes HoldsTables AnyTables (with_restated card.now active)) tx.old.conn tx.new.conn result }
    ensures counted { CountsStatuses card.now (state S.Store tx.old.conn.now) (state S.Store tx.new.conn.now) result }
{
    run_counted(
        tx,
        texts::UPDATE_STATE,
        &[name(&card.name), number(card.number), flag(active)],
    )
}

pub(crate) fn insert_count<S: Alter>(
    tx: &mut Transaction<'_, S>,
    target: Target,
    n: u32,
) -> Result<(), Error>
    ensures { Inside (state S.Store) (Makes HoldsTables AnyTables (with_count target n)) tx.old.conn tx.new.conn result }
{
    let codes = codes_of(target);
    run(
        tx,
        texts::INSERT_COUNT,
        &[
            number(codes.kind),
            number(codes.target),
            number(codes.deck),
            number(n),
        ],
    )
}

pub(crate) fn delete_count<S: Alter>(
    tx: &mut Transaction<'_, S>,
    target: Target,
) -> Result<(), Error>
    ensures { Inside (state S.Store) (Makes HoldsTables AnyTables (without_count target)) tx.old.conn tx.new.conn result }
{
    let codes = codes_of(target);
    run(
        tx,
        texts::DELETE_COUNT,
        &[number(codes.kind), number(codes.target), number(codes.deck)],
    )
}

pub(crate) fn insert_mark<S: Alter>(
    tx: &mut Transaction<'_, S>,
    site: &str,
    mark: u64,
) -> Result<(), Error>
    ensures makes { Inside (state S.Store) (Makes HoldsTables AnyTables (with_mark site.now mark)) tx.old.conn tx.new.conn result }
    ensures was_open { WasOpen (state S.Store tx.old.conn.now) (state S.Store tx.new.conn.now) result }
{
    let mark_value = integer_of(mark)?;
    run(tx, texts::INSERT_MARK, &[values::site(site), mark_value])
}

pub(crate) fn delete_mark<S: Alter>(tx: &mut Transaction<'_, S>, site: &str) -> Result<(), Error>
    ensures { Inside (state S.Store) (Makes HoldsTables AnyTables (without_mark site.now)) tx.old.conn tx.new.conn result }
{
    run(tx, texts::DELETE_MARK, &[values::site(site)])
}

pub(crate) fn delete_runs<S: Alter>(
    tx: &mut Transaction<'_, S>,
    site: &str,
    number: u64,
) -> Result<(), Error>
    ensures { Inside (state S.Store) (Makes HoldsTables AnyTables (without_runs site.now number)) tx.old.conn tx.new.conn result }
{
    let up_to = integer_of(number)?;
    run(tx, texts::DELETE_RUNS, &[values::site(site), up_to])
}

/// Moves the cards of a deck at a place and after it away from the front.
pub(crate) fn move_back<S: Alter>(
    tx: &mut Transaction<'_, S>,
    deck: Serial,
    from: u32,
    by: u64,
) -> Result<(), Error>
    ensures { Inside (state S.Store) (Makes HoldsTables (Fits (CardsMoved deck from (pos by))) (done (CardsMoved deck from (pos by))))
        tx.old.conn tx.new.conn result }
{
    let distance = integer_of(by)?;
    run(
        tx,
        texts::MOVE_BACK,
        &[number(deck), number(from), distance],
    )
}

/// Moves the cards of a deck at a place and after it away from the front, only those of an ident from a number on.
pub(crate) fn move_back_of<S: Alter>(
    tx: &mut Transaction<'_, S>,
    ident: &Name,
    least: u32,
    deck: Serial,
    from: u32,
    by: u64,
) -> Result<(), Error>
    ensures { Inside (state S.Store) (Makes HoldsTables (CanMoveOf (ident.now, least) deck from by) (with_moved (ident.now, least) deck from by)) tx.old.conn tx.new.conn result }
{
    let distance = integer_of(by)?;
    run(
        tx,
        texts::MOVE_BACK_OF,
        &[
            name(ident),
            number(least),
            number(deck),
            number(from),
            distance,
        ],
    )
}

/// Moves the cards of a deck at a place and after it towards the front.
pub(crate) fn move_up<S: Alter>(
    tx: &mut Transaction<'_, S>,
    deck: Serial,
    from: u32,
    by: u64,
) -> Result<(), Error>
    requires { 0 < by }
    ensures { Inside (state S.Store) (Makes HoldsTables (Fits (CardsMoved deck from (negsuc (by - 1))))
        (done (CardsMoved deck from (negsuc (by - 1))))) tx.old.conn tx.new.conn result }
{
    let distance = integer_of(by)?;
    run(tx, texts::MOVE_UP, &[number(deck), number(from), distance])
}
