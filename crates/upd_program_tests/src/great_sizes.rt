//! Texts, cards, runs and libraries of great sizes are answered as small ones are.
use crate::console::{accepts, answers_of, ask, ask_of, begins, contains, library, remove};
use crate::file_changes::change;
use crate::file_sessions::{Step, take_all};
use crate::large_purges::{add_deck, is_sent};
use std::test::Fail;
use upd_testkit::check::{holds, same};

/// A text may have 4,050,000 bytes: here its only line is refused, and not its length.
#[test]
fn the_longest_text_is_read(rt: HostRuntime) -> Result<(), Fail> {
    let file = library(&rt, "longest")?;
    let text = vec![in rt.alloc(); b'X'; 4_050_000]?;
    let found = ask(&rt, &["correct", &file, "T"], &mut text.as_slice())?;
    begins(&found, (1, "", "LineLong 1:81 "))?;
    remove(&rt, &file)
}

#[test]
fn a_card_of_80_columns_is_edited_and_blamed(rt: HostRuntime) -> Result<(), Fail> {
    let file = library(&rt, "columns")?;
    let alloc = rt.alloc();
    let (old, new) = ("X".repeat(alloc, 80)?, "Y".repeat(alloc, 80)?);
    let run = format!(in alloc; "*DECK A\n{old}\n")?;
    accepts(&rt, &file, "1", "quick", &run)?;
    contains(&ask_of(&rt, &file, "blame", &["A"], "")?, (0, &old, ""))?;
    let text = format!(in alloc; "*DECK A\n{new}\n")?;
    let run = format!(in alloc; "*IDENT T\n*DELETE A.2\n{new}\n")?;
    answers_of(&rt, &file, "correct", &["T"], &text, (0, &run, ""))?;
    remove(&rt, &file)
}

#[test]
fn forty_decks_of_one_run_are_compiled(rt: HostRuntime) -> Result<(), Fail> {
    let file = library(&rt, "forty")?;
    let mut run = String::new(rt.alloc());
    for number in 1..=40_u32 {
        write!(run, "*DECK D{number}\nX\n")?;
    }
    let found = ask_of(&rt, &file, "run", &["LYON", "1", "normal"], &run)?;
    contains(&found, (0, "\"lines\":40,", ""))?;
    remove(&rt, &file)
}

/// 80 findings have more than 4,096 bytes.
#[test]
fn eighty_findings_are_written_whole(rt: HostRuntime) -> Result<(), Fail> {
    let file = library(&rt, "eighty")?;
    let run = format!(in rt.alloc(); "*DECK A\n{}", "X\n".repeat(rt.alloc(), 39)?.as_str())?;
    accepts(&rt, &file, "1", "quick", &run)?;
    change(&rt, &file, "UPDATE states SET active = 0")?;
    let found = ask_of(&rt, &file, "examine", &[], "")?;
    let text = std::str::from_utf8(&found.faults)?;
    same(
        "status, lines",
        (found.status, text.lines().count()),
        (1, 80),
    )?;
    for number in 1..=40_u32 {
        let line = format!(in rt.alloc(); "states A.{number} (active) is not stored,")?;
        holds(number, text.contains(line.as_str()))?;
    }
    remove(&rt, &file)
}

#[test]
fn a_library_of_2000_cards_is_examined(rt: HostRuntime) -> Result<(), Fail> {
    const LINE: &str = "sound: decks 1, cards 2000, runs 1, replies 96";
    let file = library(&rt, "examined")?;
    let mut spool = String::new(rt.alloc());
    add_deck(&mut spool, 2)?;
    is_sent(&rt, &file, spool.as_str())?;
    take_all(&rt, &file, &[Step::IsSound(LINE, false)])?;
    remove(&rt, &file)
}
