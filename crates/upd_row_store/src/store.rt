//! What a store of rows promises.
ghost use Rattle.std.specs.Prelude.{◌≡◌, IfSome, OnOk, map};
ghost use Rattle.upd_core.specs.Actives.{actives_of};
ghost use Rattle.upd_records.specs.Changes.{change_view};
ghost use Rattle.upd_records.specs.Rows.{Rows, Shows, ShowsStates};
ghost use Rattle.upd_records.specs.Fits.{AllFit};
ghost use Rattle.upd_core.specs.Library.{LibraryView};
ghost use Rattle.upd_core.specs.Sound.{IsSound};
ghost use Rattle.upd_row_store.specs.Asked.{AreHomes, ShowsCard, ages_asked, decks_with};
ghost use Rattle.upd_row_store.specs.Assembling.{AreRowsOf};
ghost use Rattle.upd_row_store.specs.Keeping.{FindsLibrary, FindsRows, IsShown, LeavesDeck, LeavesLoad, LeavesRead, LeavesWrite};
ghost use Rattle.upd_row_store.specs.Movable.{AllMoveListed};
ghost use Rattle.upd_core.specs.Parts.{part_of};
ghost use Rattle.upd_row_store.specs.Tables.{AreByKey, AreRead, AreReadOf, ListsRuns, committed, mark_at, run_at};
ghost use Rattle.upd_row_store.specs.Tables.{settled_to};

use crate::asked::{DeckOf, Homes, states_among};
use crate::meaning::Meaning;
use std::alloc::Global;
use std::collections::BTreeMap;
use upd_core::{Actives, CardRef, Change, Library, Name, Serial, States};
use upd_records::{LibraryRows, MarkRow, RunRow};
use upd_text::{Fault, FaultKind};

/// Stored runs and settled marks.
#[derive(Debug, Drop)]
pub struct StoredRuns {
    pub runs: Vec<RunRow>,
    pub marks: Vec<MarkRow>,
}

/// Tables of rows that are changed by commits, each of which is all or nothing, also in a crash.
///
/// Each call but `failures` and `decks_read` can answer NoMemory or Store, at 0. Nothing is changed then, as long as the
/// store is open. Only a failure of the disk closes it: from then on each call answers Store. Whether the commit that
/// met the failure was carried out, as a whole or not at all, is found when the store is opened again.
pub trait RowStore: Meaning {
    /// The whole library, from its idents, cards, entries and targets.
    fn load(&mut self, alloc: Global) -> Result<Library, Fault>
        ensures found { FindsLibrary Self.Meaning result self.old self.new (λ l rows found. found ≡ l) }
        ensures leaves { LeavesLoad Self.Meaning result self.old self.new };

    /// The directory, `YANK$$$` and those of these decks that are held; the rest counts what the others have.
    fn load_decks(&mut self, alloc: Global, decks: &[Serial]) -> Result<Library, Fault>
        ensures found { FindsLibrary Self.Meaning result self.old self.new (λ l rows found. found ≡ part_of decks.now l) }
        ensures leaves { LeavesLoad Self.Meaning result self.old self.new };

    /// The decks other than `YANK$$$` that hold one of these cards, by age, each once.
    fn decks_of(&mut self, alloc: Global, cards: &[CardRef]) -> Result<Vec<Serial>, Fault>
        ensures found { FindsLibrary Self.Meaning result self.old self.new
            (λ l rows found. found.items ≡ decks_with cards.now l) }
        ensures leaves { LeavesRead Self.Meaning result self.old self.new };

    /// The directory, `YANK$$$` and the deck that is asked for, if there is one; the rest counts what the others have.
    fn load_deck_of(&mut self, alloc: Global, asked: &DeckOf) -> Result<Library, Fault>
        ensures found { FindsLibrary Self.Meaning result self.old self.new
            (λ l rows found. found ≡ part_of (ages_asked asked.now l) l) }
        ensures leaves { LeavesDeck Self.Meaning result self.old self.new }
    {
        match asked {
            DeckOf::Named(name) => {
                let head = self.load_decks(alloc, &[])?;
                match head.deck_of(name) {
                    Some(deck) => self.load_decks(alloc, &[deck]),
                    None => Ok(head),
                }
            }
            DeckOf::Holding(card) => {
                let decks = self.decks_of(alloc, &[*card])?;
                self.load_decks(alloc, &decks)
            }
        }
    }

    /// The directory, `YANK$$$`, and of its deck this card alone. None where that isn't in memory, or memory runs out.
    fn card_alone(&self, _: Global, card: CardRef) -> Option<Library>
        ensures { Self.is_honest self.now → IfSome result (λ found. Self.is_open self.now
            × ((l : LibraryView) → IsSound l → (rows : Rows) → IsShown Self.Meaning rows self.now → Shows rows l
            → ShowsCard card l found)) }
    {
        None
    }

    /// The decks of `decks_of`, and whether one of these cards may be in `YANK$$$`: false only where none is.
    fn homes_of(&mut self, alloc: Global, cards: &[CardRef]) -> Result<Homes, Fault>
        ensures found { FindsLibrary Self.Meaning result self.old self.new
            (λ l rows found. AreHomes cards.now l found) }
        ensures leaves { LeavesRead Self.Meaning result self.old self.new }
    {
        let decks = self.decks_of(alloc, cards)?;
        Ok(Homes {
            decks,
            may_be_yanks: true,
        })
    }

    /// The rows that make a library, in no order. A store without this call answers NoMemory: none is kept in memory.
    fn library_rows(&mut self, _: Global) -> Result<LibraryRows, Fault>
        ensures found { FindsRows Self.Meaning result self.old self.new AreRowsOf }
        ensures leaves { LeavesRead Self.Meaning result self.old self.new }
    {
        Err(FaultKind::NoMemory.without_line())
    }

    /// The status of each card and the count of each target that a live yank card has, by the keys of their tables.
    fn load_states(&mut self, alloc: Global) -> Result<States, Fault>
        ensures found { FindsRows Self.Meaning result self.old self.new AreRead }
        ensures order { FindsRows Self.Meaning result self.old self.new (λ rows found. AreByKey found) }
        ensures leaves { LeavesRead Self.Meaning result self.old self.new };

    /// The statuses of those of these cards that have one, and the count of each target that a live yank card has, by
    /// the keys of their tables.
    fn states_of(&mut self, alloc: Global, cards: &[CardRef]) -> Result<States, Fault>
        ensures found { FindsRows Self.Meaning result self.old self.new (AreReadOf cards.now) }
        ensures order { FindsRows Self.Meaning result self.old self.new (λ rows found. AreByKey found) }
        ensures leaves { LeavesRead Self.Meaning result self.old self.new }
    {
        let states = self.load_states(alloc)?;
        let states = states_among(alloc, states, cards)?;
        Ok(states)
    }

    /// The directory, and the active cards of each deck other than `YANK$$$` by the table of statuses.
    fn load_active(&mut self, alloc: Global) -> Result<Actives, Fault>
        ensures found { FindsLibrary Self.Meaning result self.old self.new
            (λ l rows found. ShowsStates rows l → found ≡ actives_of l) }
        ensures leaves { LeavesRead Self.Meaning result self.old self.new };

    /// The stored run of a key.
    fn kept_run(&mut self, alloc: Global, site: &str, number: u64) -> Result<Option<RunRow>, Fault>
        ensures found { FindsRows Self.Meaning result self.old self.new
            (λ rows found. found ≡ run_at site.now number rows) }
        ensures leaves { LeavesRead Self.Meaning result self.old self.new };

    /// The number up to which a site has settled its runs, 0 where it never did.
    fn mark(&mut self, alloc: Global, site: &str) -> Result<u64, Fault>
        ensures found { FindsRows Self.Meaning result self.old self.new (λ rows found. found ≡ mark_at site.now rows) }
        ensures leaves { LeavesRead Self.Meaning result self.old self.new };

    /// The stored runs in the order in which they were stored, and the settled marks. A store without this call answers
    /// NoMemory.
    fn stored_runs(&mut self, _: Global) -> Result<StoredRuns, Fault>
        ensures found { FindsRows Self.Meaning result self.old self.new ListsRuns }
        ensures leaves { LeavesRead Self.Meaning result self.old self.new }
    {
        Err(FaultKind::NoMemory.without_line())
    }

    /// Carries out row changes that fit the tables, and stores their run, in one transaction. No clause covers others.
    fn commit(&mut self, alloc: Global, changes: &[Change], run: RunRow) -> Result<(), Fault>
        ensures done { Self.is_honest self.new → OnOk result ((rows : Rows) → IsShown Self.Meaning rows self.old
            → AllFit (map change_view changes.now) rows
            → IsShown Self.Meaning (committed (map change_view changes.now) run rows) self.new) }
        ensures leaves { LeavesWrite Self.Meaning (AllFit (map change_view changes.now)) (committed (map change_view changes.now) run)
            result self.old self.new };

    /// Carries out row changes as `commit` does, where it is known which cards they move: each is of an ident in
    /// `movable`, and its number is the one there or a later one. A store may look for these cards only.
    fn commit_moving(
        &mut self,
        alloc: Global,
        changes: &[Change],
        run: RunRow,
        movable: &BTreeMap<Name, u32>,
    ) -> Result<(), Fault>
        ensures done { Self.is_honest self.new → OnOk result ((rows : Rows) → IsShown Self.Meaning rows self.old
            → AllFit (map change_view changes.now) rows → AllMoveListed movable.now (map change_view changes.now) rows
            → IsShown Self.Meaning (committed (map change_view changes.now) run rows) self.new) }
        ensures leaves { LeavesWrite Self.Meaning (λ rows. AllFit (map change_view changes.now) rows
            × AllMoveListed movable.now (map change_view changes.now) rows)
            (committed (map change_view changes.now) run) result self.old self.new }
    {
        self.commit(alloc, changes, run)
    }

    /// Settles a site's runs up to a number, and answers the site's mark afterwards.
    fn settle_to(&mut self, alloc: Global, site: &str, number: u64) -> Result<u64, Fault>
        ensures done { FindsRows Self.Meaning result self.old self.new
            (λ rows mark. (mark ≡ mark_at site.now (settled_to site.now number rows))
            × IsShown Self.Meaning (settled_to site.now number rows) self.new) }
        ensures leaves { LeavesWrite Self.Meaning (λ _. Unit {0}) (settled_to site.now number) result self.old self.new };

    /// How often a call has answered Store, up to the greatest value.
    fn failures(&self) -> u64
        ensures { result ≡ Self.failures_of self.now };

    /// How many decks `load`, `load_decks` and `load_deck_of` have read, without `YANK$$$`, up to the greatest value.
    fn decks_read(&self) -> u64
        ensures { result ≡ Self.decks_read_of self.now };

    // An image shows one set of tables, at most.
    ghost shows_one: { (i : Self.Image) (a b : Rows) → Self.shows i a → Self.shows i b → a ≡ b };
    // While the store is open, a crash leaves the tables that it keeps, and no others.
    ghost leaves_image: { (s : Self) (i : Self.Image) → Self.is_honest s → Self.is_open s → Self.may_leave s i
        → (rows : Rows) → Self.shows (Self.image s) rows → Self.shows i rows };
    // A crash leaves something, whatever failed before it.
    ghost survives: { (s : Self) → Self.is_honest s → ∥ ((i : Self.Image) × Self.may_leave s i) ∥₁ };
}
