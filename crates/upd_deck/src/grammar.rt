//! Laws of the grammar: `read_run` reads exactly the runs that the grammar spells.

ghost use Rattle.std.specs.Prelude.{◌≡◌, ◌↔◌, ℕ, ◌<◌, length, List, IsTrue, Some, Ok, Err};
ghost use Rattle.std.specs.List.{AllByRecursion};
ghost use Rattle.upd_text.specs.declared.fault.Fault.{Fault};
ghost use Rattle.upd_text.specs.Lines.{called, fields, is_call, is_starred, word};
ghost use Rattle.upd_deck.specs.declared.word.Word.TheVariants as words;
ghost use Rattle.upd_deck.specs.Grammar.{IsStarLine, Reads, Says, StandsIn};
ghost use Rattle.upd_deck.specs.Items.{Call, ItemView, LineView};
ghost use Rattle.upd_deck.specs.Reading.{meaning, reading};
ghost use Rattle.upd_deck.specs.Refusals.{RunFails};

/// Words and fields round-trip: a line spelled with a word and fields is read as these, and a line that is read without
/// an empty field has that spelling. So a line has at most one reading.
#[tactic(auto, using(crate::proofs::GrammarFields::star_line_read, crate::proofs::GrammarFields::star_line_back, crate::proofs::GrammarFields::star_line_once))]
pub fn fields_are_as_spelled()
    ensures read { (line w : List ℕ) (fs : List (List ℕ)) → IsStarLine line w fs
        → (word line ≡ w) × (fields line ≡ fs) }
    ensures spelled { (line : List ℕ) → IsTrue (is_starred line) → AllByRecursion (λ f. 0 < length f) (fields line)
        → IsStarLine line (word line) (fields line) }
    ensures once { (line v w : List ℕ) (es fs : List (List ℕ)) → IsStarLine line v es → IsStarLine line w fs
        → (v ≡ w) × (es ≡ fs) }
{}

/// A run is read as lines exactly when the grammar spells these lines.
#[tactic(auto, using(crate::proofs::GrammarRuns::runs))]
pub fn runs_are_as_spelled()
    ensures { (bytes : List ℕ) (lines : List LineView) → Reads bytes lines ↔ (reading bytes ≡ Ok lines) }
{}

/// A run is refused exactly for its first fault: its limits, then its first faulty line. Within a line the order is:
/// its bytes, its length, its fields as a whole, then the leftmost field that is not what the word requires.
#[tactic(auto, using(crate::proofs::RefusalRuns::run_fails))]
pub fn runs_are_refused_in_order()
    ensures { (bytes : List ℕ) (fault : Fault) → RunFails bytes fault ↔ (reading bytes ≡ Err fault) }
{}

/// The span of each line gives the offsets of its text in the run, and its number counts the lines up to it.
#[tactic(auto, using(crate::proofs::GrammarSpans::stand))]
pub fn lines_stand_in_their_run()
    ensures { (bytes : List ℕ) (lines : List LineView) → reading bytes ≡ Ok lines
        → AllByRecursion (StandsIn bytes) lines }
{}

/// A line is read as a call exactly when a compile file follows it as a call, and the name is the same.
#[tactic(auto, using(crate::proofs::CallLaws::call_words, crate::proofs::CallLaws::call_read, crate::proofs::CallLaws::call_said))]
pub fn calls_are_what_is_called()
    ensures words { (text : List ℕ) → IsTrue (is_call text)
        ↔ (IsTrue (is_starred text) × (meaning (word text) ≡ Some words.Call)) }
    ensures read { (text name : List ℕ) → Says text (Call name)
        → IsTrue (is_call text) × (called text ≡ name) }
    ensures said { (text : List ℕ) (item : ItemView) → Says text item → IsTrue (is_call text)
        → item ≡ Call (called text) }
{}
