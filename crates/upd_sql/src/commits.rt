//! Whole transactions.
ghost use Rattle.std.specs.Prelude.{◌≡◌, false, map, option_copied, IsTrue, OnErr, OnOk};
ghost use Rattle.sqlite.specs.Held.{state};
ghost use Rattle.sqlite.specs.State.{HasCleanDisk, Survives};
ghost use Rattle.upd_records.specs.Changes.{change_view};
ghost use Rattle.upd_row_store.specs.Tables.{committed};
ghost use Rattle.upd_sql.specs.Commits.{Commits, MayCommit};
ghost use Rattle.upd_sql.specs.Doable.{AllCanBeDone};

use crate::row_writes::carry_out_moving;
use crate::writes::insert_run;
use sqlite::{Connection, Error};
use std::alloc::Global;
use std::collections::BTreeMap;
use upd_core::{Change, Name};
use upd_records::RunRow;
use upd_sqlite::{Rising, begin};

/// Carries out row changes and stores the run that made them, all or nothing. Where it is known which cards may move, it
/// looks for these only: they are of the idents listed, with the numbers there or later ones.
pub fn commit_changes<S: Rising>(
    conn: &mut Connection<S>,
    alloc: Global,
    movable: Option<&BTreeMap<Name, u32>>,
    changes: &[Change],
    row: &RunRow,
) -> Result<(), Error>
    requires { conn.old.in_transaction ≡ false }
    ensures outside { conn.new.in_transaction ≡ false }
    ensures done { HasCleanDisk (state S.Store conn.new) → OnOk result
        (Commits (AllCanBeDone (option_copied movable.entry) (map change_view changes.now))
        (committed (map change_view changes.now) row.now) (state S.Store conn.old) (state S.Store conn.new)) }
    ensures undone { HasCleanDisk (state S.Store conn.new) → IsTrue (state S.Store conn.new).is_open
        → OnErr result (IsTrue (state S.Store conn.old).is_open × ((state S.Store conn.new).committed
        ≡ (state S.Store conn.old).committed)) }
    ensures crash { Survives (state S.Store conn.old) (state S.Store conn.new)
        (MayCommit (AllCanBeDone (option_copied movable.entry) (map change_view changes.now))
        (committed (map change_view changes.now) row.now) (state S.Store conn.old)) }
{
    let mut tx = begin(conn);
    carry_out_moving(&mut tx, alloc, movable, changes)?;
    insert_run(&mut tx, row)?;
    tx.commit()
}
