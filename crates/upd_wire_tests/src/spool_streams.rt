//! The worked spool over writers that hold back or fail. Rule 10.44.
use crate::list_desks::{Lists, empty_desk};
use std::alloc::Global;
use std::io::{Read, Write};
use std::test::Fail;
use upd_testkit::check::{same, same_text};
use upd_testkit::fake_streams::Held;
use upd_testkit::worked_spool::{ANSWERS, SPOOL};
use upd_wire::spool;

/// A spool over a reader and a writer has this end.
pub fn ends<R: Read, W: Write>(
    alloc: Global,
    desk: &mut Lists,
    input: &mut R,
    output: &mut W,
    end: &str,
) -> Result<(), Fail> {
    let found = match spool(alloc, input, output, desk) {
        Ok(count) => format!(in alloc; "{count}")?,
        Err(fault) => format!(in alloc; "{fault}")?,
    };
    same_text("the end", found.as_str(), end)
}

/// A spool at once has these answers and this end.
pub fn comes_out(
    alloc: Global,
    desk: &mut Lists,
    text: &str,
    (answers, end): (&str, &str),
) -> Result<(), Fail> {
    let mut output = Vec::new(alloc);
    ends(alloc, desk, &mut text.as_bytes(), &mut output, end)?;
    same_text(text, std::str::from_utf8(&output)?, answers)
}

/// The number of the flush that fails, or 0; the end; and where the answers end that are out.
const FLUSHES: &[(usize, &str, &[usize])] = &[
    (0, "3", &[389, 482, 773]),
    (1, "Write (33) at 1", &[]),
    (2, "Write (33) at 2", &[389]),
    (3, "Write (33) at 3", &[389, 482]),
];

fn is_flushed(alloc: Global, fails_at: usize, end: &str, fronts: &[usize]) -> Result<(), Fail> {
    let mut held = Held::new(alloc, fails_at);
    let mut input = SPOOL.as_bytes();
    ends(alloc, &mut empty_desk(alloc), &mut input, &mut held, end)?;
    let last = fronts.last().copied().unwrap_or(0);
    let answers = ANSWERS.as_bytes().get(..last).ok_or("too much")?;
    let found = (held.flushed.as_slice(), held.fronts.as_slice());
    same("the answers, the fronts", found, (answers, fronts))
}

/// A writer that holds back what isn't flushed has each answer before the next one comes. A flush that fails is a failed
/// write, and the next frame isn't read.
#[test]
fn each_answer_is_flushed_and_each_flush_may_fail(rt: HostRuntime) -> Result<(), Fail> {
    for (fails_at, end, fronts) in FLUSHES {
        is_flushed(rt.alloc(), *fails_at, end, fronts)?;
    }
    Ok(())
}
