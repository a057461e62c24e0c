//! Spools and requests that are refused memory once.
use crate::http_desk::REPEATS;
use crate::list_desks::{are_stored, desk_over};
use std::alloc::Global;
use std::test::Fail;
use upd_memory::ListStore;
use upd_testkit::check::same;
use upd_testkit::fake_streams::Narrow;
use upd_testkit::worked_spool::SPOOL;
use upd_text::{Fault, FaultKind};
use upd_wire::{serve_one, spool};

/// A writer that needs no more memory.
fn roomy(alloc: Global) -> Result<Narrow, Fail> {
    const ROOM: usize = 1_000;
    let taken = Vec::with_capacity(alloc, ROOM)?;
    Ok(Narrow::after(taken, ROOM))
}

/// The spool on a desk over a store: how it ended, and the answers.
fn spooled(alloc: Global, store: &mut ListStore) -> Result<(Result<u32, Fault>, Vec<u8>), Fail> {
    let mut output = roomy(alloc)?;
    let mut desk = desk_over(alloc, store);
    let ended = spool(alloc, &mut SPOOL.as_bytes(), &mut output, &mut desk);
    *store = desk.close();
    Ok((ended, output.taken))
}

fn count_lines(text: &[u8]) -> usize {
    text.iter().filter(|byte| **byte == b'\n').count()
}

/// The number of frames that a spool with this end answered: those before one that was refused memory.
fn answered_frames(ended: Result<u32, Fault>) -> Result<u32, Fail> {
    match ended {
        Ok(count) => Ok(count),
        Err(fault) => {
            same("the fault", fault.kind, FaultKind::NoMemory)?;
            Ok(fault.at.saturating_sub(1))
        }
    }
}

/// The frames before the one that was refused memory are answered; only the runs of these are stored.
fn are_answered(
    alloc: Global,
    store: &mut ListStore,
    ended: Result<u32, Fault>,
    before: &[u8],
) -> Result<(), Fail> {
    let frames = answered_frames(ended)?;
    same("answers before", count_lines(before), frames as usize)?;
    are_stored(alloc, store, frames)
}

/// The end of the spool and its answers. It is sent again if it is refused memory.
fn spooled_again(
    alloc: Global,
    store: &mut ListStore,
) -> Result<(Result<u32, Fault>, Vec<u8>), Fail> {
    let (ended, answers) = spooled(alloc, store)?;
    match ended {
        Err(fault) if fault.kind == FaultKind::NoMemory => spooled(alloc, store),
        _ => Ok((ended, answers)),
    }
}

/// The whole spool is answered, with these answers first, and stored.
fn is_spooled_whole(alloc: Global, store: &mut ListStore, before: &[u8]) -> Result<(), Fail> {
    let (ended, answers) = spooled_again(alloc, store)?;
    let found = (ended, count_lines(&answers), answers.starts_with(before));
    same(
        "frames, answers, the answers before",
        found,
        (Ok(3), 3, true),
    )?;
    are_stored(alloc, store, 3)
}

/// The frames before the one that is refused memory are answered and stored; the whole spool, sent again, is answered.
#[test]
fn a_spool_survives_a_refusal(rt: HostRuntime) -> Result<(), Fail> {
    let alloc = rt.alloc();
    let mut store = ListStore::new(alloc);
    let (ended, before) = spooled(alloc, &mut store)?;
    are_answered(alloc, &mut store, ended, &before)?;
    is_spooled_whole(alloc, &mut store, &before)
}

const NO_MEMORY: &str =
    "HTTP/1.1 503 Service Unavailable\r\nContent-Type: application/json\r\nContent-Length: 37\r\n\
Connection: close\r\n\r\n{\"at\":0,\"fault\":28,\"name\":\"NoMemory\"}";

/// How a request ended, and what is written for it.
fn served(
    alloc: Global,
    store: &mut ListStore,
    request: &str,
) -> Result<(Result<(), Fault>, Vec<u8>), Fail> {
    let mut output = roomy(alloc)?;
    let mut desk = desk_over(alloc, store);
    let ended = serve_one(alloc, &mut request.as_bytes(), &mut output, &mut desk);
    *store = desk.close();
    Ok((ended, output.taken))
}

/// What is written for a request, nothing where no memory is left for the answer.
fn answered(alloc: Global, store: &mut ListStore, request: &str) -> Result<Vec<u8>, Fail> {
    let (ended, answer) = served(alloc, store, request)?;
    if let Err(fault) = ended {
        let wanted = (FaultKind::NoMemory.without_line(), true);
        same("the fault, no answer", (fault, answer.is_empty()), wanted)?;
    }
    Ok(answer)
}

/// What is written for a request. If it is refused memory, the first `known` runs are stored as before, and the request
/// comes again.
fn answered_again(
    alloc: Global,
    store: &mut ListStore,
    request: &str,
    known: u32,
) -> Result<Vec<u8>, Fail> {
    let answer = answered(alloc, store, request)?;
    if answer.is_empty() || answer.as_slice() == NO_MEMORY.as_bytes() {
        are_stored(alloc, store, known)?;
        answered(alloc, store, request)
    } else {
        Ok(answer)
    }
}

/// A request is answered by this text, if not at first, then when it comes again.
fn says(
    alloc: Global,
    store: &mut ListStore,
    (request, known): (&str, u32),
    wanted: &str,
) -> Result<(), Fail> {
    let answer = answered_again(alloc, store, request, known)?;
    same(request, std::str::from_utf8(&answer)?, wanted)
}

/// The requests are answered in turn. After the first of them one run is stored.
#[test]
fn requests_survive_a_refusal(rt: HostRuntime) -> Result<(), Fail> {
    let mut store = ListStore::new(rt.alloc());
    let mut known = 0;
    for (request, wanted) in REPEATS {
        says(rt.alloc(), &mut store, (request, known), wanted)?;
        known = 1;
    }
    Ok(())
}
