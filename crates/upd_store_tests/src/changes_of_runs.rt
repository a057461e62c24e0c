//! The row changes of runs, most of them on 48,000 cards; `bench/apply.py` times these tests.
use std::alloc::Global;
use std::test::Fail;
use upd_core::{Change, Library};
use upd_desk::Desk;
use upd_memory::{ListStore, MirrorStore};
use upd_testkit::applying::{after, applied, take_run};
use upd_testkit::check::{holds, same, same_text};

/// A run that introduces a deck of 2,000 cards.
fn deck_of_2000(alloc: Global, deck: u32) -> Result<String, Fail> {
    let mut text = format!(in alloc; "*DECK DECK{deck}\n")?;
    for _ in 1..2000 {
        text.push_str("      CONTINUE\n")?;
    }
    Ok(text)
}

/// A library with this number of decks of 2,000 cards.
pub fn with_decks(alloc: Global, decks: u32) -> Result<Library, Fail> {
    let mut library = Library::new(alloc);
    for deck in 0..decks {
        take_run(&mut library, deck_of_2000(alloc, deck)?.as_str())?;
    }
    Ok(library)
}

#[test]
fn holds_48000_cards(rt: HostRuntime) -> Result<(), Fail> {
    let library = with_decks(rt.alloc(), 24)?;
    same("the decks", library.decks().len(), 24)
}

/// A run of 1,998 texts of a set after one card.
fn texts_after(alloc: Global, set: &str, card: &str) -> Result<String, Fail> {
    let mut text = format!(in alloc; "*IDENT {set}\n*INSERT {card}\n")?;
    for _ in 0..1998 {
        text.push_str("TEXT\n")?;
    }
    Ok(text)
}

/// A run on 48,000 cards: its row changes, and the number of decks that it leaves.
fn run_on_48000_cards(alloc: Global, text: &str) -> Result<(Vec<Change>, usize), Fail> {
    let mut library = with_decks(alloc, 24)?;
    let changes = applied(&mut library, text)?.changes;
    Ok((changes, library.decks().len()))
}

/// The moves of cards: their deck, the place of the first, and by how much; a line each.
fn moves(alloc: Global, changes: &[Change]) -> Result<String, Fail> {
    let mut text = String::new(alloc);
    for change in changes {
        if let Change::CardsMoved { deck, from, by } = change {
            write!(text, "{deck} {from} {by}\n")?;
        }
    }
    Ok(text)
}

/// The number of cards that are gone.
fn cards_gone(changes: &[Change]) -> u32 {
    let mut gone: u32 = 0;
    for change in changes {
        gone = gone.saturating_add(u32::from(matches!(change, Change::CardGone(_))));
    }
    gone
}

/// An ident, a move, and each card with its entry; no card is gone that comes again.
#[test]
fn takes_1998_texts_at_one_place_of_48000_cards(rt: HostRuntime) -> Result<(), Fail> {
    let text = texts_after(rt.alloc(), "X", "DECK7.1000")?;
    let (changes, _) = run_on_48000_cards(rt.alloc(), text.as_str())?;
    let found = moves(rt.alloc(), &changes)?;
    same_text("the moves", found.as_str(), "8 1000 1998\n")?;
    let found = (changes.len(), cards_gone(&changes));
    same("changes, cards gone", found, (3_998, 0))
}

/// Each card goes with its entries, and the idents of 20 decks.
#[test]
fn purges_40000_of_48000_cards(rt: HostRuntime) -> Result<(), Fail> {
    let (changes, left) = run_on_48000_cards(rt.alloc(), "*PURGE DECK4,*\n")?;
    let found = (changes.len(), cards_gone(&changes), left);
    same(
        "changes, cards gone, decks left",
        found,
        (80_020, 40_000, 4),
    )
}

/// The cards behind one that is gone move, and stay.
#[test]
fn cards_behind_a_purged_one_move(rt: HostRuntime) -> Result<(), Fail> {
    let runs = ["*DECK A\nONE\nTWO\n", "*IDENT X\n*INSERT A.2\nNEW\n"];
    let mut library = after(rt.alloc(), &runs)?;
    let changes = applied(&mut library, "*PURGE X\n")?.changes;
    let found = moves(rt.alloc(), &changes)?;
    same_text("the moves", found.as_str(), "1 3 -1\n")?;
    let found = (changes.len(), cards_gone(&changes));
    same("changes, cards gone", found, (4, 1))
}

/// A library of one deck of 2,000 cards, with 1,998 more of each of these sets behind them.
fn with_sets(alloc: Global, sets: u32) -> Result<Library, Fail> {
    let mut library = with_decks(alloc, 1)?;
    let mut last = String::from_str(alloc, "DECK0.2000")?;
    for set in 0..sets {
        let name = format!(in alloc; "X{set}")?;
        take_run(&mut library, texts_after(alloc, &name, &last)?.as_str())?;
        last = format!(in alloc; "{name}.1998")?;
    }
    Ok(library)
}

/// The ident, and an entry of the last card.
#[test]
fn the_last_of_35966_cards_of_a_deck_is_deleted(rt: HostRuntime) -> Result<(), Fail> {
    let mut library = with_sets(rt.alloc(), 17)?;
    let changes = applied(&mut library, "*IDENT Y\n*DELETE X16.1998\n")?.changes;
    same("changes", changes.len(), 2)
}

/// A run of a desk over rows in memory is accepted.
fn accepts(
    alloc: Global,
    desk: &mut Desk<MirrorStore<ListStore>>,
    number: u32,
    text: &str,
) -> Result<(), Fail> {
    let reply = desk.arrive(alloc, "LYON", u64::from(number), "quick", text.as_bytes())?;
    holds(number, reply.accepted)
}

/// There may be no more cards.
#[test]
fn all_of_50000_cards_are_in_memory(rt: HostRuntime) -> Result<(), Fail> {
    let mut desk = Desk::open(MirrorStore::new(ListStore::new(rt.alloc())));
    for deck in 0..25 {
        let text = deck_of_2000(rt.alloc(), deck)?;
        accepts(rt.alloc(), &mut desk, deck.saturating_add(1), &text)?;
    }
    accepts(rt.alloc(), &mut desk, 26, "*IDENT X\n*DELETE DECK24.2000\n")?;
    holds("rows in memory", desk.close().has_rows())
}
