//! Laws of answers.

ghost use Rattle.std.specs.Prelude.{List, Result};
ghost use Rattle.upd_desk.specs.Holding.{Guards, IsHeld, IsOwed};
ghost use Rattle.upd_desk.specs.Journal.{Event, Journal};
ghost use Rattle.upd_wire.specs.Calls.{Asked};
ghost use Rattle.upd_text.specs.declared.fault.Fault.{Fault};
ghost use Rattle.upd_wire.specs.Owed.{owed};
ghost use Rattle.upd_wire.specs.Responses.{Response};
ghost use Rattle.upd_wire.specs.Served.{after_calls, in_hand_after_calls};
ghost use Rattle.upd_wire.specs.Serving.{DoesAsAsked, LeadsThrough, Made};

use upd_row_store::RowStore;

/// What the desk returned, and an answer says, is what the specification requires after every journal that its store
/// held: the reply, the mark, the compile file or the listing, or the refusal. Or the call was lost: out of memory, or
/// the store failed.
pub fn answers_are_owed<S: RowStore>()
    ensures { (asked : Asked) (told : Result Response Fault) (old new : S)
        → DoesAsAsked S.Meaning asked told old new → S.is_honest new
        → (journal : Journal) → IsHeld S.Meaning journal old
        → IsOwed (owed journal asked) told }
{}

/// A desk that has served calls holds the journal that goes on with them, each arrival and settlement that was answered
/// in the order of the calls. A crash leaves that, with or without what was lost since the last answer.
pub fn served_calls_continue_the_journal<S: RowStore>()
    ensures { (made : List Made) (old new : S) → LeadsThrough S.Meaning made old new → S.is_honest new
        → (journal : Journal) (in_hand : List Event) → Guards S.Meaning journal in_hand old
        → Guards S.Meaning (after_calls journal made) (in_hand_after_calls in_hand made) new }
{}
