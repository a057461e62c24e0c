//! Input that is cut, and input that can't be read or answered to its end. Rules 10.35, 10.41 and 10.44.
use crate::list_desks::{Lists, empty_desk, has_stored};
use std::alloc::Global;
use std::io::{ErrorKind, Read};
use std::test::Fail;
use upd_testkit::check::same;
use upd_testkit::fake_streams::{Narrow, Pieces};
use upd_testkit::worked_spool::{ANSWERS, SPOOL};
use upd_text::{Fault, FaultKind};
use upd_wire::{serve_one, spool};

/// Where the frames of the worked spool end.
const FRAME_ENDS: [usize; 4] = [0, 42, 62, 103];

/// Where the answers to them end.
const ANSWER_ENDS: [usize; 4] = [0, 389, 482, 773];

/// The number of whole frames in the first `bytes` bytes.
fn whole_frames(bytes: usize) -> u32 {
    let [_, first, second, third] = FRAME_ENDS;
    u32::from(bytes >= first)
        .saturating_add(u32::from(bytes >= second))
        .saturating_add(u32::from(bytes >= third))
}

/// A fault of the frame after some whole ones.
fn fault_after(whole: u32, kind: FaultKind) -> Fault {
    Fault {
        kind,
        at: whole.saturating_add(1),
    }
}

/// A spool has this end. The answers to its whole frames are written, byte by byte, and only their runs are stored.
fn is_read<R: Read>(
    alloc: Global,
    desk: &mut Lists,
    input: &mut R,
    (whole, end): (u32, Result<u32, Fault>),
) -> Result<(), Fail> {
    let mut output = Narrow::new(alloc, ANSWERS.len());
    let ended = spool(alloc, input, &mut output, desk);
    let last = ANSWER_ENDS.get(whole as usize).ok_or("no such frame")?;
    let answers = ANSWERS.as_bytes().get(..*last).ok_or("no such answer")?;
    same(whole, (ended, output.taken.as_slice()), (end, answers))?;
    has_stored(alloc, desk, whole)
}

/// A front of the spool is read byte by byte, then all at once where its runs are repeats, and where they are not.
fn front_is_answered(alloc: Global, desk: &mut Lists, front: &[u8]) -> Result<(), Fail> {
    let whole = whole_frames(front.len());
    let end = if FRAME_ENDS.contains(&front.len()) {
        Ok(whole)
    } else {
        Err(fault_after(whole, FaultKind::CutFrame))
    };
    is_read(alloc, desk, &mut Pieces::new(front, 1), (whole, end))?;
    let (mut repeats, mut runs) = (front, front);
    is_read(alloc, desk, &mut repeats, (whole, end))?;
    is_read(alloc, &mut empty_desk(alloc), &mut runs, (whole, end))
}

#[test]
fn each_front_of_a_spool_answers_its_whole_frames(rt: HostRuntime) -> Result<(), Fail> {
    let alloc = rt.alloc();
    for length in 0..=SPOOL.len() {
        front_is_answered(alloc, &mut empty_desk(alloc), &SPOOL.as_bytes()[..length])?;
    }
    Ok(())
}

/// Read number `fails_at` of the spool fails. The spool, sent again, is answered.
fn read_fails(
    alloc: Global,
    desk: &mut Lists,
    fails_at: usize,
    kind: ErrorKind,
) -> Result<(), Fail> {
    let whole = whole_frames(fails_at.saturating_sub(1));
    let end = Err(fault_after(whole, FaultKind::Read));
    let mut again = SPOOL.as_bytes();
    let mut input = Pieces::failing(again, 1, fails_at, kind);
    is_read(alloc, desk, &mut input, (whole, end))?;
    is_read(alloc, desk, &mut again, (3, Ok(3)))
}

#[test]
fn a_failed_read_stores_no_run_of_its_frame(rt: HostRuntime) -> Result<(), Fail> {
    let alloc = rt.alloc();
    for fails_at in 1..=SPOOL.len().saturating_add(1) {
        read_fails(alloc, &mut empty_desk(alloc), fails_at, ErrorKind::Other)?;
        read_fails(
            alloc,
            &mut empty_desk(alloc),
            fails_at,
            ErrorKind::Interrupted,
        )?;
    }
    Ok(())
}

/// A request that is cut has no answer, and stores no run.
fn is_not_answered(alloc: Global, mut input: Pieces<'_>, kind: FaultKind) -> Result<(), Fail> {
    let mut desk = empty_desk(alloc);
    let mut output = Vec::new(alloc);
    let ended = serve_one(alloc, &mut input, &mut output, &mut desk);
    let wanted = (Err(kind.without_line()), b"".as_slice());
    same("the end, the answer", (ended, output.as_slice()), wanted)?;
    has_stored(alloc, &mut desk, 0)
}

/// The request of a run of three bytes.
const REQUEST: &[u8] =
    b"POST /sites/LYON/runs/1/quick HTTP/1.1\r\nHost: lib\r\nContent-Length: 3\r\n\r\nabc";

#[test]
fn a_request_that_is_cut_or_cannot_be_read_stores_no_run(rt: HostRuntime) -> Result<(), Fail> {
    let alloc = rt.alloc();
    for length in 0..REQUEST.len() {
        let front = Pieces::new(&REQUEST[..length], 1);
        is_not_answered(alloc, front, FaultKind::CutFrame)?;
        let failing = Pieces::failing(REQUEST, 1, length.saturating_add(1), ErrorKind::Other);
        is_not_answered(alloc, failing, FaultKind::Read)?;
    }
    Ok(())
}
