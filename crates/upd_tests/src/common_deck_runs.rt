//! Common decks, calls, modes and the limits of compile files.

use crate::asked_library::{Ask, Asked, check};
use crate::long_runs::Part;
use std::test::Fail;
use upd_compile::Mode;

const COMMON: &str = "*COMDECK C\nCEE\n*DECK A\n*CALL C\n*DECK B\nBEE\n";

const NOPROP: &str = "*COMDECK C,NOPROP\nCEE\n*DECK A\n*CALL C\n*DECK B\nBEE\n";

const MORE: &str = "*IDENT X\n*INSERT C.2\nMORE\n";

const CALLED_BY_TWO: &str =
    "*COMDECK C\nCEE\n*COMDECK D\n*CALL C\nDEE\n*DECK A\n*CALL D\n*DECK B\nBEE\n";

const NOPROP_BETWEEN: &str =
    "*COMDECK C\nCEE\n*COMDECK D,NOPROP\n*CALL C\nDEE\n*DECK A\n*CALL D\n*DECK B\nBEE\n";

const CHANGES: Asked = &[
    // Callers of a changed common deck (rule 7.6).
    (Ask::Compiled(Mode::Normal, COMMON), "C.2 B.2"),
    (Ask::Compiled(Mode::Normal, MORE), "C.2 X.1"),
    (Ask::Compiled(Mode::Quick, "*COMPILE B\n"), "B.2"),
    (Ask::Changed("*IDENT Y\n*DELETE C.2\n"), "[1]"),
    // Changes that are not passed on (rule 7.7).
    (Ask::Empty, ""),
    (Ask::Run(NOPROP), "accepted"),
    (Ask::Compiled(Mode::Normal, MORE), ""),
    (
        Ask::Deck("C"),
        "COMDECK C NOPROP\nA C.1 *COMDECK C,NOPROP\nA C.2 CEE\nA X.1 MORE\n",
    ),
    // Changes are passed on along calls (rule 7.6).
    (Ask::Empty, ""),
    (Ask::Run(CALLED_BY_TWO), "accepted"),
    (Ask::Compiled(Mode::Normal, MORE), "C.2 X.1 D.3"),
    // Calls in a deck that passes nothing on are followed (rule 7.7).
    (Ask::Empty, ""),
    (Ask::Run(NOPROP_BETWEEN), "accepted"),
    (Ask::Compiled(Mode::Normal, MORE), ""),
    (Ask::Active, "C.2 X.1 D.3 B.2"),
    // A yank of a common deck leaves what sets inserted (rule 8.4).
    (Ask::Empty, ""),
    (Ask::Run(COMMON), "accepted"),
    (Ask::Run(MORE), "accepted"),
    (Ask::Active, "C.2 X.1 B.2"),
    (Ask::Run("*IDENT Y\n*YANK C\n"), "accepted"),
    (Ask::Active, "X.1 B.2"),
    (Ask::Run("*IDENT Z\n*YANKDECK C\n"), "accepted"),
    (Ask::Active, "B.2"),
    // Calls of a purged common deck (rule 8.2).
    (Ask::Empty, ""),
    (Ask::Run(COMMON), "accepted"),
    (Ask::Compiled(Mode::Quick, "*PURDECK C\n"), ""),
    (Ask::Compiled(Mode::Full, ""), "CallUnknown (20) at 0"),
    (Ask::Compiled(Mode::Normal, ""), ""),
    // Cards without text are listed (rule 9.7).
    (Ask::Empty, ""),
    (Ask::Run("*COMDECK C,NOPROP\n\n"), "accepted"),
    (
        Ask::Deck("C"),
        "COMDECK C NOPROP\nA C.1 *COMDECK C,NOPROP\nA C.2 \n",
    ),
];

#[test]
fn changes_of_common_decks_are_passed_on(rt: HostRuntime) -> Result<(), Fail> {
    check(rt.alloc(), CHANGES)
}

const LIMITS: Asked = &[
    // Calls go eight deep (rule 7.9).
    (
        Ask::Long(&[
            Part::Chain(1, 7, 1),
            Part::Text("*COMDECK C8\nDEEP\n*DECK A\n*CALL C1"),
        ]),
        "accepted",
    ),
    (Ask::Active, "C8.2"),
    // They go no deeper (rule 8.1).
    (Ask::Empty, ""),
    (
        Ask::Long(&[
            Part::Chain(1, 8, 1),
            Part::Text("*COMDECK C9\nDEEP\n*DECK A\n*CALL C1"),
        ]),
        "accepted",
    ),
    (Ask::Active, "CallDepth (21) at 0"),
    // A cycle of calls ends (rules 8.1 and 8.3).
    (Ask::Empty, ""),
    (
        Ask::Compiled(Mode::Quick, "*COMDECK C\n*CALL C\n*DECK A\n*CALL C\n"),
        "",
    ),
    (Ask::Active, "CallDepth (21) at 0"),
    // Calls that multiply end (rule 7.10).
    (Ask::Empty, ""),
    (
        Ask::Lines(&[
            Part::Chain(1, 7, 10),
            Part::Text("*COMDECK C8\n*/ no text\n*DECK A\n*CALL C1"),
        ]),
        "CompileLong (22) at 0",
    ),
    // Compile files have 10,000 lines (rule 7.10).
    (Ask::Empty, ""),
    (
        Ask::Lines(&[Part::Text("*COMDECK C\n100 x       CONTINUE\n*DECK A\n100 x *CALL C")]),
        "10000",
    ),
    (Ask::Run("*IDENT X\n*INSERT A.1\nONE MORE\n"), "accepted"),
    (Ask::Active, "CompileLong (22) at 0"),
    // Compile files follow 10,000 calls (rule 7.10).
    (Ask::Empty, ""),
    (
        Ask::Lines(&[Part::Text("*COMDECK C\n*COMDECK D\n99 x *CALL C\n*DECK A\n100 x *CALL D")]),
        "0",
    ),
    (Ask::Run("*IDENT X\n*INSERT A.1\n*CALL C\n"), "accepted"),
    (Ask::Active, "CompileLong (22) at 0"),
];

#[test]
fn calls_and_compile_files_have_limits(rt: HostRuntime) -> Result<(), Fail> {
    check(rt.alloc(), LIMITS)
}
