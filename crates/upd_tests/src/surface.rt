//! Public calls that no other test has, by their paths, with answers that are worked by hand.
//!
//! The library is that of three runs: deck A with one line; set X, which replaces the line; and Y, which yanks X.
use std::alloc::Global;
use std::test::Fail;
use upd_apply::Applied;
use upd_core::{Actives, Change, Counted, Entry, Fault, FaultKind, Library, Place, Target};
use upd_deck::{Item, Line, Run, read_run};
use upd_testkit::applying::{after, applied, card_ref, name};
use upd_testkit::check::{holds, same};
use upd_yank::Cache;

const DECK: &str = "*DECK A\nONE\n";

const SET: &str = "*IDENT X\n*DELETE A.2\nNEW\n";

const YANK: &str = "*IDENT Y\n*YANK X\n";

/// The text of the second active card of the first deck, which is read in place.
fn second_active(actives: &Actives) -> Option<&[u8]> {
    let deck = actives.decks.first()?;
    let card = deck.card(1)?;
    Some(card.text)
}

fn are_read_in_place(actives: &Actives) -> Result<(), Fail> {
    let found = (actives.idents.len(), second_active(actives));
    let wanted = (3, Some(b"ONE".as_slice()));
    same("idents, the second card", found, wanted)
}

#[test]
fn active_cards_are_read_in_place(rt: HostRuntime) -> Result<(), Fail> {
    let library = after(rt.alloc(), &[DECK, SET, YANK])?;
    are_read_in_place(&library.actives()?)
}

/// The entry of A.2 by deck A, and the one by set X.
const HISTORY: &[Entry] = &[
    Entry {
        ident: 1,
        active: true,
    },
    Entry {
        ident: 2,
        active: false,
    },
];

/// One history is read, and one that is asked of no card isn't.
fn history_is_counted(counted: &mut Counted<'_>) -> Result<(), Fail> {
    let (card, other) = (card_ref("A.2")?, card_ref("A.3")?);
    let found = (counted.history(card), counted.history(other));
    let wanted = (Some(HISTORY), None);
    same("histories, reads", (found, counted.reads()), (wanted, 1))
}

/// Where X.1 is.
const PLACE: Place = Place { deck: 1, index: 2 };

/// What Y.1 takes.
const TARGETS: &[Target] = &[Target::Set(2)];

fn are_looked_up(counted: &Counted<'_>) -> Result<(), Fail> {
    let (ident, card, yank) = (name("Y")?, card_ref("X.1")?, card_ref("Y.1")?);
    let found = (counted.ident_of(&ident), counted.place(card));
    same("an ident, a place", found, (Some(3), Some(PLACE)))?;
    same("targets", counted.targets(yank), Some(TARGETS))
}

/// The cards that set X covers are A.2 and its own card.
fn two_are_covered(alloc: Global, counted: &Counted<'_>) -> Result<(), Fail> {
    let wanted = [card_ref("A.2")?, card_ref("X.1")?];
    let covered = counted.covered(alloc, Target::Set(2))?;
    same("covered", covered.as_slice(), wanted.as_slice())
}

fn are_answers(alloc: Global, library: &Library) -> Result<(), Fail> {
    let mut counted = Counted::new(library);
    are_looked_up(&counted)?;
    history_is_counted(&mut counted)?;
    two_are_covered(alloc, &counted)
}

#[test]
fn a_counted_library_answers(rt: HostRuntime) -> Result<(), Fail> {
    are_answers(rt.alloc(), &after(rt.alloc(), &[DECK, SET, YANK])?)
}

/// The run that yanks X is applied. Looked at are its yank card and the two cards that X covers.
fn is_updated(cache: &mut Cache, library: &mut Library) -> Result<(), Fail> {
    let run = applied(library, YANK)?;
    let mut counted = Counted::new(library);
    cache.settle(&mut counted, &run)?;
    let found = (counted.reads(), cache.work(), cache.count(Target::Set(2)));
    same("reads, work, yanks of X", found, (3, 3, 1))
}

/// The statuses of A.2, X.1, Y.1 and of no card.
fn has_statuses(cache: &Cache) -> Result<(), Fail> {
    const WANTED: &[(&str, Option<bool>)] = &[
        ("A.2", Some(true)),
        ("X.1", Some(false)),
        ("Y.1", Some(true)),
        ("A.3", None),
    ];
    for (card, wanted) in WANTED {
        same(card, cache.active(card_ref(card)?), *wanted)?;
    }
    Ok(())
}

#[test]
fn a_cache_of_statuses_is_updated(rt: HostRuntime) -> Result<(), Fail> {
    let mut library = after(rt.alloc(), &[DECK, SET])?;
    let mut cache = Cache::build(rt.alloc(), &library)?;
    is_updated(&mut cache, &mut library)?;
    has_statuses(&cache)
}

/// The place of a row change among the eleven of them.
fn number_of(change: &Change) -> u32 {
    match change {
        Change::IdentNew(_) => 1,
        Change::IdentPurged(_) => 2,
        Change::CardNew { .. } => 3,
        Change::CardGone(_) => 4,
        Change::CardsMoved { .. } => 5,
        Change::EntryNew { .. } => 6,
        Change::EntriesGone(_) => 7,
        Change::TargetNew { .. } => 8,
        Change::TargetsGone { .. } => 9,
        Change::StatusNow { .. } => 10,
        Change::CountNow { .. } => 11,
    }
}

/// The numbers of row changes, sorted.
fn numbers(alloc: Global, changes: &[Change]) -> Result<Vec<u32>, Fail> {
    let mut numbers = Vec::new(alloc);
    for change in changes {
        numbers.push(number_of(change))?;
    }
    numbers.sort()?;
    Ok(numbers)
}

/// Set X introduces an ident, an entry of A.2, a card and its entry; no card is after it that would move.
#[test]
fn a_run_lists_what_it_did(rt: HostRuntime) -> Result<(), Fail> {
    let mut library = after(rt.alloc(), &[DECK])?;
    is_listed(rt.alloc(), &applied(&mut library, SET)?)
}

fn is_listed(alloc: Global, run: &Applied) -> Result<(), Fail> {
    let sizes = (run.idents.as_slice(), run.compile.len(), run.touched.len());
    same("idents, decks, cards", sizes, ([2].as_slice(), 0, 2))?;
    let found = numbers(alloc, &run.changes)?;
    same("changes", found.as_slice(), [1, 3, 6, 6].as_slice())
}

/// The number, the span and the text of a line.
fn parts<'a>(line: &Line<'a>) -> (u32, usize, usize, &'a [u8]) {
    let Line {
        number,
        span,
        text,
        item: _,
    } = line;
    (*number, span.start, span.end, *text)
}

#[test]
fn a_run_has_lines(rt: HostRuntime) -> Result<(), Fail> {
    let run: Run<'_> = read_run(rt.alloc(), DECK.as_bytes())?;
    are_its_lines(run.lines())
}

fn are_its_lines(lines: &[Line<'_>]) -> Result<(), Fail> {
    let [first, second] = lines else {
        return Err("not two lines".into());
    };
    let wanted = (
        (1, 0, 7, b"*DECK A".as_slice()),
        (2, 8, 11, b"ONE".as_slice()),
    );
    same("the lines", (parts(first), parts(second)), wanted)?;
    let is_deck = matches!(&first.item, Item::Deck(deck) if deck.as_bytes() == b"A".as_slice());
    holds("the items", is_deck && matches!(second.item, Item::Text))
}

#[test]
fn faults_have_numbers_and_lines(rt: HostRuntime) -> Result<(), Fail> {
    let fault: Fault = match read_run(rt.alloc(), b"*DECK A\n\x01") {
        Ok(_) => return Err("the run is read".into()),
        Err(fault) => fault,
    };
    let found = (fault.kind, fault.kind.number(), fault.at);
    same("the fault", found, (FaultKind::BadByte, 3, 2))
}
