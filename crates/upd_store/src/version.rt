//! The version of the schema in a file.
ghost use Rattle.std.specs.Prelude.{◌≡◌, ◌∷◌, [], ℕ, false, IfOk, IsTrue};
ghost use Rattle.sqlite.specs.Held.{state};
ghost use Rattle.sqlite.specs.State.{HasCleanDisk, Survives};
ghost use Rattle.upd_sqlite.specs.Steps.{Steps};
ghost use Rattle.upd_sql.specs.Commits.{WasOpen};
ghost use Rattle.upd_sql.specs.Encoded.{num};
ghost use Rattle.upd_store.specs.Version.{HasVersion};

use sqlite::{Alter, Connection, Error, Row, Transaction};
use upd_sqlite::{Rising, ask, begin};

/// The text that reads the version.
const READ_VERSION: &str = "SELECT v FROM meta WHERE k = 'version'";

/// The number in the first column of the first row, 0 where there is no row.
fn first_number(rows: &[Row]) -> Result<u32, Error>
    ensures first { IfOk result (λ n. (v : ℕ) → rows.now ≡ (num v ∷ []) ∷ [] → n ≡ v) }
    ensures none { IfOk result (λ n. rows.now ≡ [] → n ≡ 0) }
{
    match rows.first() {
        Some(row) => row.get(0),
        None => Ok(0),
    }
}

fn version_in<S: Alter>(tx: &mut Transaction<'_, S>) -> Result<u32, Error>
    ensures same_reference { tx.new.conn.ghost_name ≡ tx.old.conn.ghost_name }
    ensures steps { Steps (state S.Store tx.old.conn.now) (state S.Store tx.new.conn.now) result }
    ensures was_open { WasOpen (state S.Store tx.old.conn.now) (state S.Store tx.new.conn.now) result }
    ensures value { HasCleanDisk (state S.Store tx.new.conn.now)
        → IfOk result (λ n. (v : ℕ) → HasVersion v (state S.Store tx.old.conn.now).now → n ≡ v) }
{
    let rows = ask(tx, READ_VERSION, &[])?;
    first_number(&rows)
}

/// The version in a file, 0 where its table has none. A file without such a table is an error. Nothing is written.
pub fn version_of<S: Rising>(conn: &mut Connection<S>) -> Result<u32, Error>
    requires { conn.old.in_transaction ≡ false }
    ensures outside { conn.new.in_transaction ≡ false }
    ensures was_open { HasCleanDisk (state S.Store conn.new) → IsTrue (state S.Store conn.new).is_open
        → IsTrue (state S.Store conn.old).is_open }
    ensures same { HasCleanDisk (state S.Store conn.new) → IsTrue (state S.Store conn.new).is_open
        → (state S.Store conn.new).committed ≡ (state S.Store conn.old).committed }
    ensures survives { Survives (state S.Store conn.old) (state S.Store conn.new) (λ _. ⊥) }
    ensures value { HasCleanDisk (state S.Store conn.new) → IfOk result
        (λ n. (v : ℕ) → HasVersion v (state S.Store conn.old).committed → n ≡ v) }
{
    let mut tx = begin(conn);
    let version = version_in(&mut tx)?;
    tx.rollback();
    Ok(version)
}
