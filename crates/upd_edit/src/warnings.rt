//! Warnings of a run that is tried: what it does that its author may not mean.
ghost use Rattle.std.specs.Prelude.{◌≡◌, ◌+◌, ◌<◌, ◌^◌, ◌++◌, count_by, position, IfSome, Ok, OnOk};
ghost use Rattle.std.specs.List.{flat_map};
ghost use Rattle.std.specs.Result.{result_map_both};
ghost use Rattle.upd_core.specs.Library.{name_of, ref_of};
ghost use Rattle.upd_core.specs.Status.{live_of};
ghost use Rattle.upd_deck.specs.Reading.{reading};
ghost use Rattle.upd_text.specs.Lines.{is_comment};
ghost use Rattle.upd_text.specs.Outcome.{GivesAt};
ghost use Rattle.upd_edit.specs.Found.{conflicts_among, found};
ghost use Rattle.upd_edit.specs.Warnings.{again_kind, came_again, cards_between, comment_warnings, conflict_kind, conflicts, deletion_warnings};
ghost use Rattle.upd_edit.specs.Warnings.{empty_kind, last_entry, line_warnings, lines_of, off_kind, read_warnings, restored_warnings};
ghost use Rattle.upd_edit.specs.Warnings.{run_warnings, seen_by, switched_off_by, text_kind, warning_list, wide_kind};

use crate::earlier::with_younger_yanked;
use crate::meeting::Seen;
use crate::near_words::near_word;
use crate::warning::{Conflict, TakingWord, Warning, WarningKind, push};
use crate::yank_warnings::push_taking;
use std::alloc::{AllocError, Global};
use upd_core::ident::name_at;
use upd_core::{Card, Entry, Library, Live, Name, Place, Serial};
use upd_deck::{Item, Line, read_run};
use upd_text::limits::MAX_INTRODUCED;
use upd_text::line::{is_comment, is_starred, word};
use upd_text::{CardRef, Fault, FaultKind};

/// The most cards of a range that isn't wide.
const NARROW: usize = 20;

/// The warnings of a run that is tried on a library. None where the run can't be read. Where an ident is given, each line
/// has one that meets an ident younger than it. IdentUnknown, at 0, where no held ident has its name.
pub fn warning_list(
    alloc: Global,
    library: &Library,
    since: Option<Name>,
    run: &[u8],
) -> Result<Vec<Warning>, Fault>
    ensures { GivesAt (λ list. list.items) result (warning_list since run.now library.now) }
{
    let last = serial_since(library, &since)?;
    warnings_since(alloc, library, &since, last, run)
}

/// Those of the warnings that are conflicts, where an ident is given. IdentUnknown, at 0, where no held ident has its name.
pub fn conflicts(
    alloc: Global,
    library: &Library,
    since: &Name,
    run: &[u8],
) -> Result<Vec<Warning>, Fault>
    ensures { GivesAt (λ list. list.items) result (conflicts since.now run.now library.now) }
{
    let mut list = warning_list(alloc, library, Some(*since), run)?;
    keep_conflicts(&mut list);
    Ok(list)
}

/// Removes the warnings that aren't conflicts.
fn keep_conflicts(list: &mut Vec<Warning>)
    ensures { list.new.items ≡ conflicts_among list.old.items }
{
    list.retain(|warning| warning.kind.is_conflict());
}

/// The serial of the youngest ident that the author of a run has seen: where no name is given, of all.
fn serial_since(library: &Library, since: &Option<Name>) -> Result<Serial, Fault>
    ensures { result_map_both (λ z. record { library = library.now; since = z }) (λ fault. fault) result ≡ seen_by since.now library.now }
{
    match since {
        None => Ok(MAX_INTRODUCED as Serial),
        Some(name) => match library.ident_of(name) {
            Some(serial) => Ok(serial),
            None => Err(FaultKind::IdentUnknown.without_line()),
        },
    }
}

/// The warnings of a run whose author has seen the idents up to a serial. The only error is NoMemory.
fn warnings_since(
    alloc: Global,
    library: &Library,
    since: &Option<Name>,
    last: Serial,
    run: &[u8],
) -> Result<Vec<Warning>, Fault>
    ensures { GivesAt (λ list. list.items) result (Ok (read_warnings run.now (reading run.now) since.now (record { library = library.now; since = last }))) }
{
    match read_run(alloc, run) {
        Ok(read) => found_warnings(alloc, library, since, last, run, read.lines()),
        Err(fault) => match fault.kind {
            FaultKind::NoMemory => Err(fault),
            _ => Ok(Vec::new(alloc)),
        },
    }
}

/// The warnings of a run that was read. The only error is NoMemory.
fn found_warnings(
    alloc: Global,
    library: &Library,
    since: &Option<Name>,
    last: Serial,
    run: &[u8],
    lines: &[Line],
) -> Result<Vec<Warning>, Fault>
    ensures { GivesAt (λ list. list.items) result
        (Ok (run_warnings run.now lines.now since.now (record { library = library.now; since = last }))) }
{
    let before = with_younger_yanked(alloc, library, last)?;
    let live = library.live_yanks()?;
    let earlier = before.live_yanks()?;
    let seen = Seen {
        library,
        live: &live,
        earlier: &earlier,
        since: last,
    };
    let mut list = Vec::new(alloc);
    push_found(&mut list, &seen, since, run, lines)?;
    Ok(list)
}

/// Appends the warnings of a run that was read.
fn push_found(
    list: &mut Vec<Warning>,
    seen: &Seen,
    since: &Option<Name>,
    run: &[u8],
    lines: &[Line],
) -> Result<(), AllocError>
    ensures { OnOk result (list.new.items ≡ list.old.items ++ run_warnings run.now lines.now since.now seen.now) }
{
    push_comments(list, run)?;
    push(list, 1, empty_kind(lines))?;
    push(list, 1, again_kind(seen.library, since))?;
    push_lines(list, seen, lines)
}

/// Appends the warning of the comments of a run.
fn push_comments(list: &mut Vec<Warning>, run: &[u8]) -> Result<(), AllocError>
    ensures { OnOk result (list.new.items ≡ list.old.items ++ comment_warnings run.now) }
{
    match first_comment(run) {
        Some(first) => push(
            list,
            first + 1,
            Some(WarningKind::Comments(comment_count(run))),
        ),
        None => Ok(()),
    }
}

/// The index of the first line of a run that is a comment.
fn first_comment(run: &[u8]) -> Option<usize>
    ensures first { result ≡ position is_comment (lines_of run.now) }
    ensures fits { IfSome result (λ first. first + 1 < 2 ^ 64) }
{
    run.split(|&byte| byte == b'\n')
        .position(|line| is_comment(line))
}

/// The number of the lines of a run that are comments.
fn comment_count(run: &[u8]) -> usize
    ensures { result ≡ count_by is_comment (lines_of run.now) }
{
    run.split(|&byte| byte == b'\n')
        .filter(|line| is_comment(line))
        .count()
}

/// The warning of a run with no lines.
fn empty_kind(lines: &[Line]) -> Option<WarningKind>
    ensures { result ≡ empty_kind lines.now }
{
    match lines {
        [] => Some(WarningKind::Empty),
        [_, ..] => None,
    }
}

/// The warning of a SINCE whose name was held before by an ident that is purged.
fn again_kind(library: &Library, since: &Option<Name>) -> Option<WarningKind>
    ensures { result ≡ again_kind since.now library.now }
{
    match since {
        Some(since) if came_again(library, since) => {
            Some(WarningKind::Conflict(Conflict::CameAgain { since: *since }))
        }
        _ => None,
    }
}

/// Whether a purged ident has a name.
pub(crate) fn came_again(library: &Library, name: &Name) -> bool
    ensures { result ≡ came_again name.now library.now }
{
    library
        .idents()
        .iter()
        .any(|ident| !ident.held && ident.name == *name)
}

/// Appends the warnings of lines.
fn push_lines(list: &mut Vec<Warning>, seen: &Seen, lines: &[Line]) -> Result<(), AllocError>
    ensures { OnOk result (list.new.items ≡ list.old.items ++ flat_map (line_warnings seen.now) lines.now) }
{
    for line in lines {
        push_line(list, seen, line)?;
    }
    Ok(())
}

/// Appends the warnings of a line.
fn push_line(list: &mut Vec<Warning>, seen: &Seen, line: &Line) -> Result<(), AllocError>
    ensures { OnOk result (list.new.items ≡ list.old.items ++ line_warnings seen.now line.now) }
{
    let number = line.number as usize;
    match &line.item {
        Item::Text => push_text(list, number, line.text),
        Item::Delete { first, last } => push_deletion(list, seen, number, first, last),
        Item::Restore { first, last } => push_restored(list, seen, number, first, last),
        Item::Insert(card) => push(list, number, conflict_kind(seen.insert_conflict(card))),
        Item::Before(card) => push(list, number, conflict_kind(seen.before_conflict(card))),
        Item::Yank(names) => push_taking(list, seen, number, TakingWord::Yank, names),
        Item::Purge(names) => push_taking(list, seen, number, TakingWord::Purge, names),
        _ => Ok(()),
    }
}

/// The warning of a conflict.
fn conflict_kind(met: Option<Conflict>) -> Option<WarningKind>
    ensures { result ≡ conflict_kind met }
{
    Some(WarningKind::Conflict(met?))
}

/// Appends the warning of a text whose word may be meant for that of a directive.
fn push_text(list: &mut Vec<Warning>, number: usize, line: &[u8]) -> Result<(), AllocError>
    ensures { OnOk result (list.new.items ≡ list.old.items ++ found number (text_kind line.now)) }
{
    if is_starred(line) && near_word(*list.allocator(), word(line))?.is_some() {
        push(list, number, Some(WarningKind::NearWord))
    } else {
        Ok(())
    }
}

/// Appends the warnings of a range that is deleted.
fn push_deletion(
    list: &mut Vec<Warning>,
    seen: &Seen,
    number: usize,
    first: &CardRef,
    last: &CardRef,
) -> Result<(), AllocError>
    ensures { OnOk result (list.new.items ≡ list.old.items ++ deletion_warnings seen.now number first.now last.now) }
{
    push(list, number, off_kind(seen.library, seen.live, first))?;
    if first != last {
        push(list, number, off_kind(seen.library, seen.live, last))?;
    }
    push(list, number, wide_kind(seen.library, first, last))?;
    let met = seen.range_conflict(first, last, true);
    push(list, number, conflict_kind(met))
}

/// Appends the warnings of a range that is restored.
fn push_restored(
    list: &mut Vec<Warning>,
    seen: &Seen,
    number: usize,
    first: &CardRef,
    last: &CardRef,
) -> Result<(), AllocError>
    ensures { OnOk result (list.new.items ≡ list.old.items ++ restored_warnings seen.now number first.now last.now) }
{
    push(list, number, wide_kind(seen.library, first, last))?;
    let met = seen.range_conflict(first, last, false);
    push(list, number, conflict_kind(met))
}

/// The warning of a card that an ident has switched off.
fn off_kind(library: &Library, live: &Live, card: &CardRef) -> Option<WarningKind>
    requires { live.now ≡ live_of library.now }
    ensures { result ≡ off_kind card.now library.now }
{
    let place = library.card_at(*card)?;
    let by = switched_off_by(library, live, place.deck, library.card_in(place)?)?;
    Some(WarningKind::OffAlready { card: *card, by })
}

/// The name of the ident that switched a card of a deck off, if its last entry that counts does.
fn switched_off_by(library: &Library, live: &Live, deck: Serial, card: &Card) -> Option<Name>
    requires { live.now ≡ live_of library.now }
    ensures { result ≡ switched_off_by library.now deck card.now }
{
    let entry = last_entry(live, deck, card)?;
    if entry.active {
        return None;
    }
    Some(name_of(library, entry.ident))
}

/// The name of the ident with a serial, which is empty where there is no such ident.
pub(crate) fn name_of(library: &Library, ident: Serial) -> Name
    ensures { result ≡ name_of library.now.idents ident }
{
    name_at(library.idents(), ident).unwrap_or(Name::none())
}

/// The reference of a card.
pub(crate) fn ref_of(library: &Library, card: &Card) -> CardRef
    ensures { result ≡ ref_of library.now.idents card.now }
{
    CardRef {
        name: name_of(library, card.ident),
        number: card.number,
    }
}

/// The last entry of a card of a deck that counts: of an ident that isn't taken there.
fn last_entry(live: &Live, deck: Serial, card: &Card) -> Option<Entry>
    ensures { result ≡ last_entry live.now.targets deck card.now }
{
    card.history
        .iter()
        .rev()
        .find(|entry| !live.is_taken(deck, entry.ident))
        .copied()
}

/// The warning of a wide range.
fn wide_kind(library: &Library, first: &CardRef, last: &CardRef) -> Option<WarningKind>
    ensures { result ≡ wide_kind first.now last.now library.now }
{
    let count = cards_between(library, library.card_at(*first), library.card_at(*last));
    if count > NARROW {
        Some(WarningKind::Wide(count))
    } else {
        None
    }
}

/// The number of the cards from one place to another of a deck.
fn cards_between(library: &Library, from: Option<Place>, to: Option<Place>) -> usize
    ensures { result ≡ cards_between from to library.now }
{
    match (from, to) {
        (Some(from), Some(to)) if from.deck == to.deck => library
            .cards_of(from.deck)
            .len()
            .min(to.index.saturating_add(1))
            .saturating_sub(from.index),
        _ => 0,
    }
}
