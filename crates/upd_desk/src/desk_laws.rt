//! Laws of whole journals.
ghost use Rattle.std.specs.Prelude.{◌≡◌, ◌≤◌, ℕ, nat_lt, false, true, ◌⊎◌, List, [], ◌∷◌, ◌++◌, None, Some, Ok, Err};
ghost use Rattle.std.specs.List.{Contains};
ghost use Rattle.upd_text.specs.declared.fault.Fault.{Fault};
ghost use Rattle.upd_core.specs.Library.{LibraryView};
ghost use Rattle.upd_records.specs.Rows.{Rows};
ghost use Rattle.upd_compile.specs.declared.mode.Mode.{Mode};
ghost use Rattle.upd_desk.specs.Arrivals.{ArrivalView, check_arrival};
ghost use Rattle.upd_desk.specs.Holding.{Holds};
ghost use Rattle.upd_desk.specs.Journal.{Alike, Came, Journal, Settled, answer, distinct, first_arrivals, heard, kept};
ghost use Rattle.upd_desk.specs.Journal.{mark, run_of, library_after};
ghost use Rattle.upd_desk.specs.Made.{IsMade};
ghost use Rattle.upd_desk.specs.Outcomes.{ReplyView, outcome};

/// The distinct runs are the arrivals that are heard and whose key isn't heard earlier.
#[tactic(auto, using(crate::proofs::LawLemmas::distinct_first))]
pub fn distinct_runs_are_first_arrivals()
    ensures { (journal : Journal) → distinct journal ≡ first_arrivals (heard journal) }
{}

/// Tables without rows, as those of a library that has just been made, hold the empty journal.
pub fn empty_tables_hold_the_empty_journal()
    ensures { Holds [] (record {
      idents = [];
      cards = [];
      entries = [];
      targets = [];
      runs = [];
      states = [];
      counts = [];
      settled = [];
    }) }
{}

/// A site's mark is the greatest number that it has settled, and 0 where it never did.
pub fn marks_are_the_greatest_settled()
    ensures none_above { (journal : Journal) (site : List ℕ) (n : ℕ) → Contains journal (Settled site n)
        → n ≤ mark journal site }
    ensures settled { (journal : Journal) (site : List ℕ) → (mark journal site ≡ 0)
        ⊎ Contains journal (Settled site (mark journal site)) }
{}

/// Journals with the same distinct runs in the same order and the same marks leave the same library. Tables that hold
/// one, with its statuses and its stored replies, hold the other. After both the same answer is expected to each
/// arrival, and they are continued alike.
pub fn alike_journals_owe_the_same()
    ensures library { (a b : Journal) → Alike a b → library_after a ≡ library_after b }
    ensures kept { (a b : Journal) → Alike a b → (site : List ℕ) (n : ℕ) → kept a site n ≡ kept b site n }
    ensures tables { (a b : Journal) → Alike a b → (rows : Rows) → Holds a rows → Holds b rows }
    ensures answers { (a b : Journal) → Alike a b → (arrival : ArrivalView) → answer a arrival ≡ answer b arrival }
    ensures later { (a b later : Journal) → Alike a b → Alike (later ++ a) (later ++ b) }
{}

/// An arrival that gets a reply is kept with it under its key, and under the other keys the same is kept as before.
pub fn replies_are_kept()
    ensures own { (journal : Journal) (a : ArrivalView) (mode : Mode) (reply : ReplyView) → check_arrival a ≡ Ok mode
        → answer journal a ≡ Ok reply → kept (Came a ∷ journal) a.site a.number
        ≡ Some (run_of (record { arrival = a; mode = mode; carried = None }) reply) }
    ensures others { (journal : Journal) (a : ArrivalView) (site : List ℕ) (n : ℕ)
        → ((a.site ≡ site) × (a.number ≡ n) → ⊥) → kept (Came a ∷ journal) site n ≡ kept journal site n }
{}

/// A run that is refused leaves the library as it was.
#[tactic(auto, using(crate::proofs::LawLemmas::refused_leaves))]
pub fn refused_runs_leave_the_library()
    ensures { (journal : Journal) (a : ArrivalView) (reply : ReplyView) → answer journal a ≡ Ok reply
        → reply.accepted ≡ false → library_after (Came a ∷ journal) ≡ library_after journal }
{}

/// An arrival that is refused without being kept leaves the distinct runs as they were, and with them the library and
/// all stored replies.
#[tactic(auto, using(crate::proofs::RepeatLemmas::refused_unheard))]
pub fn refusals_change_nothing()
    ensures { (journal : Journal) (a : ArrivalView) (fault : Fault) → answer journal a ≡ Err fault
        → distinct (Came a ∷ journal) ≡ distinct journal }
{}

/// An arrival that comes again, whatever came between, gets its first answer, as long as its number isn't settled by
/// then.
#[tactic(auto, using(crate::proofs::RepeatLemmas::repeated))]
pub fn repeats_get_first_answers()
    ensures { (between before : Journal) (a : ArrivalView) (mode : Mode) → check_arrival a ≡ Ok mode
        → nat_lt (mark (between ++ Came a ∷ before) a.site) a.number ≡ true
        → answer (between ++ Came a ∷ before) a ≡ answer before a }
{}

/// The library after each journal is sound and whole, no limit is passed, and its names and cards are as runs bring
/// them: a new run keeps it so.
pub fn libraries_are_as_runs_make_them()
    ensures library_after { (journal : Journal) → IsMade (library_after journal) }
    ensures outcome { (mode : Mode) (a : ArrivalView) (l : LibraryView) → IsMade l → IsMade (outcome mode a l).library }
{}
