//! A store over lists of which some commits run out of memory and one fails, by itself and below rows in memory: what was
//! in hand is lost, and may arrive again.
ghost use Rattle.std.specs.Prelude.{◌≡◌, ℕ, ◌+◌, ◌-◌, ◌^◌, min, refl};
ghost use Rattle.std.proofs.Common.{sym, ◌∙◌};
ghost use Rattle.upd_records.specs.Rows.{Rows};
ghost use Rattle.upd_row_store.specs.Keeping.{IsLost, failures_with};

use std::alloc::Global;
use std::test::Fail;
use upd_core::{Actives, CardRef, Change, Library, Serial, States};
use upd_desk::{Arrival, Desk};
use upd_memory::{ListStore, MirrorStore};
use upd_records::{LibraryRows, RunRow};
use upd_row_store::{Meaning, RowStore};
use upd_testkit::asks::{lyon, shown};
use upd_testkit::check::same_text;
use upd_testkit::replies::{accepted, refused};
use upd_text::{Fault, FaultKind};

/// Lists of which some commits run out of memory, and then one fails.
#[derive(Drop)]
struct Failing {
    lists: ListStore,
    /// The number of commits before the first that is lost.
    passing: u64,
    /// The number of commits that run out of memory.
    short: u64,
    failures: u64,
}

impl Failing {
    fn new(alloc: Global, passing: u64, short: u64) -> Failing {
        Failing {
            lists: ListStore::new(alloc),
            passing,
            short,
            failures: 0,
        }
    }
}

/// Counts as one failure.
fn store_failed() -> Fault
    ensures lost { IsLost result }
    ensures count { (n : ℕ) → failures_with result.kind n ≡ min (n + 1) (2 ^ 64 - 1) }
{
    FaultKind::Store.without_line()
}

/// The fault of lists, which only run out of memory. It counts as no failure.
fn no_memory() -> Fault
    ensures lost { IsLost result }
    ensures count { (n : ℕ) → n ≡ failures_with result.kind n }
{
    FaultKind::NoMemory.without_line()
}

impl Meaning for Failing {
    ghost Image = { Rows };

    ghost shows = { λ image rows. image ≡ rows };

    ghost image = { λ s. s.lists.tables };

    ghost is_open = { λ _. Unit {0} };

    ghost open_once = { λ _ _ _. refl };

    ghost is_honest = { λ _. Unit {0} };

    ghost may_leave = { λ s image. image ≡ s.lists.tables };

    ghost failures_of = { λ s. s.failures };

    ghost disk_failures_of = { λ _. 0 };

    ghost decks_read_of = { λ s. s.lists.decks_read };
}

impl RowStore for Failing {
    fn load(&mut self, alloc: Global) -> Result<Library, Fault> {
        match self.lists.load(alloc) {
            Ok(library) => Ok(library),
            Err(_) => Err(no_memory()),
        }
    }

    fn load_decks(&mut self, alloc: Global, decks: &[Serial]) -> Result<Library, Fault> {
        match self.lists.load_decks(alloc, decks) {
            Ok(library) => Ok(library),
            Err(_) => Err(no_memory()),
        }
    }

    fn decks_of(&mut self, alloc: Global, cards: &[CardRef]) -> Result<Vec<Serial>, Fault> {
        match self.lists.decks_of(alloc, cards) {
            Ok(decks) => Ok(decks),
            Err(_) => Err(no_memory()),
        }
    }

    fn library_rows(&mut self, alloc: Global) -> Result<LibraryRows, Fault> {
        match self.lists.library_rows(alloc) {
            Ok(rows) => Ok(rows),
            Err(_) => Err(no_memory()),
        }
    }

    fn load_states(&mut self, alloc: Global) -> Result<States, Fault> {
        match self.lists.load_states(alloc) {
            Ok(states) => Ok(states),
            Err(_) => Err(no_memory()),
        }
    }

    fn load_active(&mut self, alloc: Global) -> Result<Actives, Fault> {
        match self.lists.load_active(alloc) {
            Ok(actives) => Ok(actives),
            Err(_) => Err(no_memory()),
        }
    }

    fn kept_run(
        &mut self,
        alloc: Global,
        site: &str,
        number: u64,
    ) -> Result<Option<RunRow>, Fault> {
        match self.lists.kept_run(alloc, site, number) {
            Ok(run) => Ok(run),
            Err(_) => Err(no_memory()),
        }
    }

    fn mark(&mut self, alloc: Global, site: &str) -> Result<u64, Fault> {
        match self.lists.mark(alloc, site) {
            Ok(mark) => Ok(mark),
            Err(_) => Err(no_memory()),
        }
    }

    fn commit(&mut self, alloc: Global, changes: &[Change], run: RunRow) -> Result<(), Fault> {
        if self.passing == 0 && self.short > 0 {
            self.short = self.short.saturating_sub(1);
            return Err(no_memory());
        }
        if self.passing == 0 && self.failures == 0 {
            self.failures = self.failures.saturating_add(1);
            return Err(store_failed());
        }
        self.passing = self.passing.saturating_sub(1);
        match self.lists.commit(alloc, changes, run) {
            Ok(()) => Ok(()),
            Err(_) => Err(no_memory()),
        }
    }

    fn settle_to(&mut self, alloc: Global, site: &str, number: u64) -> Result<u64, Fault> {
        match self.lists.settle_to(alloc, site, number) {
            Ok(mark) => Ok(mark),
            Err(_) => Err(no_memory()),
        }
    }

    fn failures(&self) -> u64 {
        self.failures
    }

    fn decks_read(&self) -> u64 {
        self.lists.decks_read()
    }

    ghost shows_one = { λ i a b shown other. sym shown ∙ other };

    ghost leaves_image = { λ s i _ _ left rows shown. left ∙ shown };

    ghost survives = { λ s _. ∣ (_, refl) ∣₁ };
}

/// Run 7 introduces deck A.
const DECK: Arrival<'static> = Arrival {
    site: "LYON",
    number: 7,
    mode: "full",
    bytes: b"*DECK A\nONE\nTWO\nTHREE\n",
};

/// Run 6 deletes a card of deck A.
const DELETED: Arrival<'static> = Arrival {
    site: "LYON",
    number: 6,
    mode: "full",
    bytes: b"*IDENT X\n*DELETE A.3\n",
};

/// The answers of a desk over a store to the two runs and their repeats, one a line.
fn answers<S: RowStore + Drop>(alloc: Global, store: S) -> Result<String, Fail> {
    let answers = Desk::open(store).run_all(alloc, &[DECK, DELETED, DECK, DELETED])?;
    let mut text = String::new(alloc);
    for answer in answers {
        let answer = shown(alloc, answer.map(|reply| reply.text))?;
        write!(text, "{answer}\n")?;
    }
    Ok(text)
}

/// The answers are these if after `passing` commits `short` run out of memory and the next fails, also below rows in
/// memory.
fn answers_are(alloc: Global, (passing, short): (u64, u64), wanted: &str) -> Result<(), Fail> {
    let plain = answers(alloc, Failing::new(alloc, passing, short))?;
    same_text("the answers", &plain, wanted)?;
    let mirrored = MirrorStore::new(Failing::new(alloc, passing, short));
    same_text(
        "the answers with rows in memory",
        &answers(alloc, mirrored)?,
        wanted,
    )
}

/// The reply to the second run, while there is no deck.
fn unknown(alloc: Global) -> Result<String, Fail> {
    refused(alloc, lyon(6, "full", ""), "CardUnknown 13 at 2")
}

#[test]
fn a_lost_run_is_passed_over(rt: HostRuntime) -> Result<(), Fail> {
    let alloc = rt.alloc();
    let lines = [("ONE", "A", 2), ("TWO", "A", 3), ("THREE", "A", 4)];
    let made = accepted(alloc, lyon(7, "full", ""), &["A"], &lines)?;
    let lines = [("ONE", "A", 2), ("THREE", "A", 4)];
    let corrected = accepted(alloc, lyon(6, "full", ""), &["X"], &lines)?;
    let unknown = unknown(alloc)?;
    let wanted = format!(in alloc; "Store (29) at 0\n{unknown}\n{made}\n{unknown}\n")?;
    answers_are(alloc, (0, 0), &wanted)?;
    let wanted = format!(in alloc; "{made}\nStore (29) at 0\n{made}\n{corrected}\n")?;
    answers_are(alloc, (1, 0), &wanted)
}

/// Two runs run out of memory, and the store fails in the third. The fourth is still looked at.
#[test]
fn runs_after_three_losses_are_answered(rt: HostRuntime) -> Result<(), Fail> {
    let lost = "NoMemory (28) at 0\nNoMemory (28) at 0\nStore (29) at 0";
    let wanted = format!(in rt.alloc(); "{lost}\n{}\n", unknown(rt.alloc())?)?;
    answers_are(rt.alloc(), (0, 2), &wanted)
}
