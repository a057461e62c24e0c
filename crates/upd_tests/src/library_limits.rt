//! Libraries at their limits; `bench/apply.py` times these tests. Rule 8.5.
use crate::asked_library::{Ask, Asked, check, check_on};
use crate::long_runs::Part;
use std::alloc::Global;
use std::test::Fail;
use upd_compile::Mode;
use upd_core::{Ident, Kind, Library};
use upd_records::LibraryRows;
use upd_row_store::assembled;
use upd_testkit::applying::name;

const ALL_IDENTS: Asked = &[
    (Ask::Long(&[Part::Idents(0, 1999)]), "accepted"),
    (Ask::Long(&[Part::Idents(2000, 3999)]), "accepted"),
    (Ask::Long(&[Part::Idents(4000, 4095)]), "accepted"),
];

/// Asks all this of a library with all idents.
fn check_with_idents(library: &mut Library, asked: Asked) -> Result<(), Fail> {
    check_on(library, ALL_IDENTS)?;
    check_on(library, asked)
}

/// One more ident is held after one is purged.
#[test]
fn holds_4096_idents(rt: HostRuntime) -> Result<(), Fail> {
    const ASKED: Asked = &[
        (Ask::Run("*IDENT LAST\n"), "Full (19) at 1"),
        (Ask::Run("*PURGE N0\n*IDENT LAST\n"), "accepted"),
    ];
    check_with_idents(&mut Library::new(rt.alloc()), ASKED)
}

/// A library that has introduced 65,535 idents, all of which are purged, from its rows.
fn with_purged_idents(alloc: Global) -> Result<Library, Fail> {
    let mut idents = Vec::new(alloc);
    for age in 1..=65_535 {
        idents.push(Ident {
            name: name("N")?,
            age,
            kind: Kind::Set,
            noprop: false,
            held: false,
        })?;
    }
    let rows = LibraryRows {
        idents,
        cards: Vec::new(alloc),
        entries: Vec::new(alloc),
        targets: Vec::new(alloc),
    };
    Ok(assembled(alloc, rows)?)
}

/// A purged ident counts among those that were introduced.
#[test]
fn introduces_65536_idents(rt: HostRuntime) -> Result<(), Fail> {
    const ASKED: Asked = &[
        (Ask::Run("*IDENT LAST\n"), "accepted"),
        (Ask::Run("*IDENT OVER\n"), "Full (19) at 1"),
    ];
    check_on(&mut with_purged_idents(rt.alloc())?, ASKED)
}

fn take_2000_cards(library: &mut Library, alloc: Global, n: u32) -> Result<(), Fail> {
    let deck = format!(in alloc; "*DECK DECK{n}\n1999 x       CONTINUE")?;
    check_on(
        library,
        &[(Ask::Long(&[Part::Text(deck.as_str())]), "accepted")],
    )
}

/// Asks all this of an empty library after 50,000 cards in the decks DECK0 to DECK24.
fn check_full(library: &mut Library, alloc: Global, asked: Asked) -> Result<(), Fail> {
    for n in 0..25 {
        take_2000_cards(library, alloc, n)?;
    }
    check_on(library, asked)
}

#[test]
fn holds_50000_cards(rt: HostRuntime) -> Result<(), Fail> {
    const ASKED: Asked = &[(Ask::Run("*DECK Z\n"), "Full (19) at 1")];
    check_full(&mut Library::new(rt.alloc()), rt.alloc(), ASKED)
}

#[test]
fn takes_1999_corrections_on_50000_cards(rt: HostRuntime) -> Result<(), Fail> {
    const PARTS: &[Part<'_>] = &[Part::Text("*IDENT X"), Part::Deletions(1999)];
    const ASKED: Asked = &[(Ask::Long(PARTS), "accepted")];
    check_full(&mut Library::new(rt.alloc()), rt.alloc(), ASKED)
}

#[test]
fn holds_200000_entries(rt: HostRuntime) -> Result<(), Fail> {
    const DECK: Part<'_> = Part::Text("*DECK A\n1999 x       CONTINUE");
    const OVER: Part<'_> = Part::Text("*IDENT X\n99 x *DELETE A.2,A.2000\n*DELETE A.2,A.101");
    const FULL: Part<'_> = Part::Text("*IDENT X\n99 x *DELETE A.2,A.2000\n*DELETE A.2,A.100");
    const ASKED: Asked = &[
        (Ask::Long(&[DECK]), "accepted"),
        (Ask::Long(&[OVER]), "Full (19) at 101"),
        (Ask::Long(&[FULL]), "accepted"),
    ];
    check(rt.alloc(), ASKED)
}

#[test]
fn holds_100000_targets(rt: HostRuntime) -> Result<(), Fail> {
    const OVER: Part<'_> = Part::Text("*IDENT Z\n25 x *YANK N1.N4000\n*YANK N1");
    const FULL: Part<'_> = Part::Text("*IDENT Z\n25 x *YANK N1.N4000");
    const ASKED: Asked = &[
        (Ask::Long(&[Part::Idents(1, 2000)]), "accepted"),
        (Ask::Long(&[Part::Idents(2001, 4000)]), "accepted"),
        (Ask::Long(&[OVER]), "Full (19) at 27"),
        (Ask::Long(&[FULL]), "accepted"),
    ];
    check(rt.alloc(), ASKED)
}

#[test]
fn follows_4000_common_decks_in_one_chain(rt: HostRuntime) -> Result<(), Fail> {
    const CHANGE: &str = "*IDENT X\n*INSERT C3999.1\nMORE\n";
    const ASKED: Asked = &[
        (Ask::Long(&[Part::Chain(0, 499, 1)]), "accepted"),
        (Ask::Long(&[Part::Chain(500, 999, 1)]), "accepted"),
        (Ask::Long(&[Part::Chain(1000, 1499, 1)]), "accepted"),
        (Ask::Long(&[Part::Chain(1500, 1999, 1)]), "accepted"),
        (Ask::Long(&[Part::Chain(2000, 2499, 1)]), "accepted"),
        (Ask::Long(&[Part::Chain(2500, 2999, 1)]), "accepted"),
        (Ask::Long(&[Part::Chain(3000, 3499, 1)]), "accepted"),
        (Ask::Long(&[Part::Chain(3500, 3999, 1)]), "accepted"),
        (Ask::Run("*DECK A\n*CALL C0\n"), "accepted"),
        (Ask::Compiled(Mode::Normal, CHANGE), "CallDepth (21) at 0"),
    ];
    check(rt.alloc(), ASKED)
}
