//! The tables as text, as the reference desk would store them.
use crate::check::same_text;
use crate::reference_desk::{ReferenceDesk, StoredRun};
use std::alloc::Global;
use std::test::Fail;
use upd_core::ident::name_at;
use upd_core::{Card, CardRef, Ident, Kind, Library, Name, Target};
use upd_row_store::{RowStore, StoredRuns};

/// Sorted lines.
pub fn joined(alloc: Global, mut lines: Vec<String>) -> Result<String, Fail> {
    lines.sort()?;
    in_turn(alloc, &lines)
}

/// Lines in their order.
fn in_turn(alloc: Global, lines: &[String]) -> Result<String, Fail> {
    let mut text = String::new(alloc);
    for line in lines {
        write!(text, "{line}\n")?;
    }
    Ok(text)
}

/// A store lists the runs and the marks that the reference desk would store, in the same order.
pub fn lists_stored<S: RowStore>(store: &mut S, reference: &ReferenceDesk) -> Result<(), Fail> {
    let alloc = reference.library.allocator();
    let mut lines = Vec::new(alloc);
    add_runs(&mut lines, reference)?;
    add_marks(&mut lines, reference)?;
    let wanted = in_turn(alloc, &lines)?;
    let found = listed_lines(alloc, &store.stored_runs(alloc)?)?;
    same_text("the stored runs", &in_turn(alloc, &found)?, &wanted)
}

/// The lines of stored runs and marks.
fn listed_lines(alloc: Global, stored: &StoredRuns) -> Result<Vec<String>, Fail> {
    let mut lines = Vec::new(alloc);
    for run in &stored.runs {
        let bytes = std::str::from_utf8(&run.bytes)?;
        let reply = std::str::from_utf8(&run.reply)?;
        lines.push(format!(in alloc;
            "runs|'{}'|{}|{}|x'{bytes}'|{}|x'{reply}'",
            run.site,
            run.number,
            run.mode,
            u8::from(run.accepted)
        )?)?;
    }
    for row in &stored.marks {
        lines.push(format!(in alloc; "settled|'{}'|{}", row.site, row.mark)?)?;
    }
    Ok(lines)
}

/// The sorted lines of the tables that the reference desk would store.
pub fn reference_tables(reference: &ReferenceDesk) -> Result<String, Fail> {
    let alloc = reference.library.allocator();
    let mut lines = Vec::new(alloc);
    lines.push(String::from_str(alloc, "meta|'version'|3")?)?;
    add_library(&mut lines, &reference.library)?;
    add_runs(&mut lines, reference)?;
    add_marks(&mut lines, reference)?;
    joined(alloc, lines)
}

/// Adds the lines of the runs that are not settled.
fn add_runs(lines: &mut Vec<String>, reference: &ReferenceDesk) -> Result<(), Fail> {
    for run in &reference.stored {
        if run.number > reference.mark(run.site.as_str()) {
            lines.push(run_line(*lines.allocator(), run)?)?;
        }
    }
    Ok(())
}

/// Adds the line of each site's mark.
fn add_marks(lines: &mut Vec<String>, reference: &ReferenceDesk) -> Result<(), Fail> {
    for (site, mark) in &reference.marks {
        if *mark == reference.mark(site.as_str()) {
            lines.push(format!(in *lines.allocator(); "settled|'{site}'|{mark}")?)?;
        }
    }
    Ok(())
}

fn run_line(alloc: Global, run: &StoredRun) -> Result<String, Fail> {
    let mode = match run.mode.as_str() {
        "full" => 0,
        "quick" => 1,
        _ => 2,
    };
    let accepted = u8::from(run.answer.ends_with("\"state\":\"accepted\"}"));
    Ok(format!(in alloc;
        "runs|'{}'|{}|{mode}|x'{}'|{accepted}|x'{}'",
        run.site, run.number, run.text, run.answer
    )?)
}

/// Adds the lines of a library, with the statuses and counts of its histories.
fn add_library(lines: &mut Vec<String>, library: &Library) -> Result<(), Fail> {
    for ident in library.idents() {
        lines.push(ident_line(*lines.allocator(), ident)?)?;
    }
    add_cards(lines, library, 0, library.yanks())?;
    for deck in library.decks() {
        add_cards(lines, library, deck.ident, &deck.cards)?;
    }
    add_counts(lines, library)
}

fn ident_line(alloc: Global, ident: &Ident) -> Result<String, Fail> {
    let kind = match ident.kind {
        Kind::Set => 0,
        Kind::Deck => 1,
        Kind::Common => 2,
    };
    let (noprop, held) = (u8::from(ident.noprop), u8::from(ident.held));
    Ok(format!(in alloc;
        "idents|{}|'{}'|{kind}|{noprop}|{held}",
        ident.age, ident.name
    )?)
}

fn add_cards(
    lines: &mut Vec<String>,
    library: &Library,
    deck: u32,
    cards: &[Card],
) -> Result<(), Fail> {
    let live = library.live_yanks()?;
    for (pos, card) in cards.iter().enumerate() {
        let name = name_at(library.idents(), card.ident).ok_or("no name")?;
        let number = card.number;
        let active = library
            .status(&live, CardRef { name, number })
            .ok_or("no status")?;
        add_card(lines, (name, active), (deck, pos), card)?;
    }
    Ok(())
}

/// Adds all rows of a card with this name and status, at a place: that of its deck, and its own.
fn add_card(
    lines: &mut Vec<String>,
    (name, active): (Name, bool),
    (deck, pos): (u32, usize),
    card: &Card,
) -> Result<(), Fail> {
    let text = std::str::from_utf8(&card.text)?;
    let (alloc, number, active) = (*lines.allocator(), card.number, u8::from(active));
    lines.push(format!(in alloc; "cards|'{name}'|{number}|{deck}|{pos}|'{text}'")?)?;
    lines.push(format!(in alloc; "states|'{name}'|{number}|{active}")?)?;
    add_entries(lines, name, card)?;
    add_targets(lines, name, card)
}

/// Adds the entries of a card.
fn add_entries(lines: &mut Vec<String>, name: Name, card: &Card) -> Result<(), Fail> {
    let (alloc, number) = (*lines.allocator(), card.number);
    for (ord, entry) in card.history.iter().enumerate() {
        let active = u8::from(entry.active);
        lines.push(format!(in alloc; "entries|'{name}'|{number}|{ord}|{}|{active}", entry.ident)?)?;
    }
    Ok(())
}

/// Adds the targets of a card.
fn add_targets(lines: &mut Vec<String>, name: Name, card: &Card) -> Result<(), Fail> {
    let (alloc, number) = (*lines.allocator(), card.number);
    for (ord, target) in card.targets.iter().enumerate() {
        let key = key_of(alloc, *target)?;
        lines.push(format!(in alloc; "targets|'{name}'|{number}|{ord}|{key}")?)?;
    }
    Ok(())
}

fn key_of(alloc: Global, target: Target) -> Result<String, Fail> {
    Ok(match target {
        Target::Set(set) => format!(in alloc; "0|{set}|0")?,
        Target::SetIn(set, deck) => format!(in alloc; "1|{set}|{deck}")?,
        Target::Deck(deck) => format!(in alloc; "2|{deck}|0")?,
    })
}

/// The targets of live yank cards, sorted.
fn live_targets(alloc: Global, library: &Library) -> Result<Vec<Target>, Fail> {
    let mut targets = Vec::new(alloc);
    let live = library.live_yanks()?;
    for card in library.yanks() {
        let name = name_at(library.idents(), card.ident).ok_or("no name")?;
        let number = card.number;
        if live.live_yank(CardRef { name, number }) == Some(true) {
            targets.extend_from_slice(&card.targets)?;
        }
    }
    targets.sort()?;
    Ok(targets)
}

/// Adds the number of live yank cards of each target.
fn add_counts(lines: &mut Vec<String>, library: &Library) -> Result<(), Fail> {
    let alloc = *lines.allocator();
    let targets = live_targets(alloc, library)?;
    for same in targets.chunk_by(|a, b| a == b) {
        if let Some(target) = same.first() {
            let key = key_of(alloc, *target)?;
            lines.push(format!(in alloc; "counts|{key}|{}", same.len())?)?;
        }
    }
    Ok(())
}
