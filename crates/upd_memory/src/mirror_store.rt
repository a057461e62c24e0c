//! A store over another store, with its rows in memory.

ghost use Rattle.std.specs.Prelude.{◌≡◌, is_some, None, true};
ghost use Rattle.std.specs.Coded.{→_prop};
ghost use Rattle.upd_records.specs.Rows.{Rows};
ghost use Rattle.upd_row_store.specs.Keeping.{Keeps};
ghost use Rattle.upd_memory.specs.Mirrored.{AgreesIfAny};

use crate::made::made;
use crate::mirror::Mirror;
use std::alloc::Global;
use upd_row_store::{Meaning, RowStore};

/// A store that answers reads from its rows in memory, and writes to the store below.
///
/// The rows are read by `warm`, or in a commit after the first: in the second, unless memory runs out there. They are let
/// go where memory runs out, or where a change can't be made in them; a commit never fails for their sake.
pub struct MirrorStore<S: RowStore> {
    pub(crate) inner: S,
    pub(crate) mirror: Option<Mirror>,
    /// The last call of the store below succeeded: it is open.
    pub(crate) is_live: bool,
    pub(crate) has_committed: bool,
    /// How often a call has answered Store.
    pub(crate) failures: u64,
    /// The number of decks that were loaded.
    pub(crate) reads: u64,
    ghost live: { is_live ≡ true → S.is_honest inner → S.is_open inner } by { →_prop (→_prop (S.open_once inner)) },
}

// By hand: see CONTRIBUTING.md.
impl<S: RowStore + Drop> Drop for MirrorStore<S> {
    fn drop(self) {
        let MirrorStore {
            inner: _,
            mirror: _,
            is_live: _,
            has_committed: _,
            failures: _,
            reads: _,
        } = self;
    }
}

impl<S: RowStore> MirrorStore<S> {
    /// A store over another, with no rows in memory yet.
    pub fn new(inner: S) -> MirrorStore<S>
        ensures inner { result.inner ≡ inner }
        ensures mirror { result.mirror ≡ None }
        ensures counts { (result.failures ≡ 0) × (result.reads ≡ 0) }
    {
        MirrorStore {
            inner,
            mirror: None,
            is_live: false,
            has_committed: false,
            failures: 0,
            reads: 0,
        }
    }

    /// Whether there are rows in memory.
    pub fn has_rows(&self) -> bool
        ensures { result ≡ is_some self.now.mirror }
    {
        self.mirror.is_some()
    }

    /// Reads the rows into memory, if they aren't there. Where they can't be read or kept, there are none.
    pub fn warm(&mut self, alloc: Global)
        ensures same { Keeps S.Meaning self.old.inner self.new.inner }
        ensures shows { S.is_honest self.new.inner → S.is_open self.new.inner → (rows : Rows)
            → S.shows (S.image self.old.inner) rows → AgreesIfAny self.old.mirror rows
            → AgreesIfAny self.new.mirror rows }
        ensures counts { (self.new.failures ≡ self.old.failures) × (self.new.reads ≡ self.old.reads) }
    {
        if self.mirror.is_some() {
            return;
        }
        match made(&mut self.inner, alloc) {
            Some(mirror) => {
                self.is_live = true;
                self.mirror = Some(mirror);
            }
            None => self.is_live = false,
        }
    }

    /// The store below.
    pub fn into_inner(self) -> S
        ensures { result ≡ self.inner }
    {
        let MirrorStore {
            inner,
            mirror: _,
            is_live: _,
            has_committed: _,
            failures: _,
            reads: _,
        } = self;
        inner
    }
}

impl<S: RowStore> Meaning for MirrorStore<S> {
    ghost use Rattle.std.specs.Prelude.{Option, None, ◌≡◌};
    ghost use Rattle.upd_memory.specs.Mirrored.{AgreesIfAny};
    ghost use Rattle.upd_memory.specs.declared.mirror.Mirror.{Mirror};

    ghost Image = { S.Image × Option Mirror };

    ghost shows = { λ i rows. S.shows i.0 rows × AgreesIfAny i.1 rows };

    ghost image = { λ s. (S.image s.inner, s.mirror) };

    ghost is_open = { λ s. S.is_open s.inner };

    ghost open_once = { λ s. S.open_once s.inner };

    ghost is_honest = { λ s. S.is_honest s.inner };

    ghost may_leave = { λ s i. S.may_leave s.inner i.0 × (i.1 ≡ None) };

    ghost failures_of = { λ s. s.failures };

    ghost disk_failures_of = { λ s. S.disk_failures_of s.inner };

    ghost decks_read_of = { λ s. s.reads };
}
