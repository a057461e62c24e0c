//! The queries that read a site's stored run and its mark.
ghost use Rattle.std.specs.Prelude.{◌≡◌};
ghost use Rattle.sqlite.specs.Held.{state};
ghost use Rattle.upd_row_store.specs.Tables.{mark_at, run_at};
ghost use Rattle.upd_sql.specs.Commits.{Inside, Looks};

use crate::decode::{first_mark, first_run};
use crate::texts;
use crate::values::{self, integer_of};
use crate::whole::rows_of;
use sqlite::{Alter, Error, Transaction};
use std::alloc::Global;
use upd_records::RunRow;

/// The number up to which a site has settled, 0 where it never did.
pub(crate) fn mark_in<S: Alter>(tx: &mut Transaction<'_, S>, site: &str) -> Result<u64, Error>
    ensures { Inside (state S.Store) (Looks (λ it mark. mark ≡ mark_at site.now it)) tx.old.conn tx.new.conn result }
{
    let rows = rows_of(tx, texts::MARK_OF_SITE, &[values::site(site)])?;
    first_mark(&rows)
}

/// The run that is stored under a key.
pub(crate) fn run_in<S: Alter>(
    tx: &mut Transaction<'_, S>,
    alloc: Global,
    site: &str,
    number: u64,
) -> Result<Option<RunRow>, Error>
    ensures { Inside (state S.Store) (Looks (λ it run. run ≡ run_at site.now number it)) tx.old.conn tx.new.conn result }
{
    let number = integer_of(number)?;
    let rows = rows_of(tx, texts::RUN_OF_KEY, &[values::site(site), number])?;
    first_run(alloc, &rows)
}
