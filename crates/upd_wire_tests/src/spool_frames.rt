//! Frames that are not valid, answers that are not replies, and the greatest number of frames. Rules 10.37 to 10.44.
use crate::list_desks::{Lists, empty_desk};
use crate::spool_streams::{comes_out, ends};
use std::alloc::Global;
use std::test::Fail;
use upd_testkit::check::same;
use upd_testkit::fake_streams::{Cycle, Tally};

const BAD_SITE: &str = "{\"at\":0,\"fault\":23,\"name\":\"BadSite\"}\n";

const BAD_NUMBER: &str = "{\"at\":0,\"fault\":24,\"name\":\"BadNumber\"}\n";

const BAD_MODE: &str = "{\"at\":0,\"fault\":25,\"name\":\"BadMode\"}\n";

const CHANGED: &str = "{\"at\":0,\"fault\":26,\"name\":\"RunChanged\"}\n";

const NOWHERE: &str = "{\"at\":1,\"fault\":9,\"mode\":\"full\",\"name\":\"TextNowhere\",\"run\":1,\
\"site\":\"LYON\",\"state\":\"refused\"}\n";

/// Spools on a desk, one after the other: what comes out, and how each ends.
fn all_come_out(
    alloc: Global,
    desk: &mut Lists,
    spools: &[(&str, &str, &str)],
) -> Result<(), Fail> {
    for (text, wanted, end) in spools {
        comes_out(alloc, desk, text, (wanted, end))?;
    }
    Ok(())
}

/// Headers of 63 or 64 bytes, most of them a site; and runs that are refused. With the answers and the ends.
const REFUSED: &[(&str, &str, &str)] = &[
    (
        "RUN SSSSSSSSSSSSSSSSSSSSSSSSSSSSSSSSSSSSSSSSSSSSSSSSSS 1 full 0\n\n",
        BAD_SITE,
        "1",
    ),
    (
        "RUN SSSSSSSSSSSSSSSSSSSSSSSSSSSSSSSSSSSSSSSSSSSSSSSSSSS 1 full 0\n\n",
        "",
        "BadFrame (30) at 1",
    ),
    (
        "junk SSSSSSSSSSSSSSSSSSSSSSSSSSSSSSSSSSSSSSSSSSSSSSSSSS 1234567",
        "",
        "CutFrame (31) at 1",
    ),
    (
        "junk SSSSSSSSSSSSSSSSSSSSSSSSSSSSSSSSSSSSSSSSSSSSSSSSSS 12345678",
        "",
        "BadFrame (30) at 1",
    ),
    ("RUN LYON 0 full 0\n\n", BAD_NUMBER, "1"),
    ("RUN lyon 999999999 full 0\n\n", BAD_SITE, "1"),
    ("RUN LYON 1 FULL 0\n\n", BAD_MODE, "1"),
    ("RUN LYON 1 full 6\nHELLO\n\n", NOWHERE, "1"),
    ("RUN LYON 1 quick 6\nHELLO\n\n", CHANGED, "1"),
];

/// After a settlement, a run that is settled, and one more.
const AFTER: &[(&str, &str, &str)] = &[(
    "RUN LYON 1 full 6\nHELLO\n\nRUN LYON 0 full 0\n\n",
    "{\"at\":0,\"fault\":27,\"name\":\"Settled\"}\n{\"at\":0,\"fault\":24,\"name\":\"BadNumber\"}\n",
    "2",
)];

#[test]
fn refusals_are_answers(rt: HostRuntime) -> Result<(), Fail> {
    let mut desk = empty_desk(rt.alloc());
    all_come_out(rt.alloc(), &mut desk, REFUSED)?;
    desk.settle_site(rt.alloc(), "LYON", 1)?;
    all_come_out(rt.alloc(), &mut desk, AFTER)
}

/// Lines that are not headers, with semicolons between them.
const NOT_HEADERS: &str =
    ";junk;RUN LYON 1 full;RUN LYON 1 full 0 ;RUN LYON 1 full 0\r;RUN  1 full 0;RUN LYON 1  0;\
RUN  LYON 1 full 0; RUN LYON 1 full 0;run LYON 1 full 0;RUN\tLYON 1 full 0;RUN L\tYON 1 full 0;RUN L\u{e9}ON 1 full 0;\
RUN LYON 1 full 0 0;RUN LYON 00 full 0;RUN LYON 01 full 0;RUN LYON +1 full 0;RUN LYON 1 full 00;RUN LYON 1 full -0;\
RUN LYON 1000000000 full 0;RUN LYON 1 full 65537;RUN LYON 1 full 0x0";

/// A line ends a spool in place of a header.
fn ends_a_spool(alloc: Global, desk: &mut Lists, line: &str) -> Result<(), Fail> {
    let text = format!(in alloc; "{line}\n\n")?;
    comes_out(alloc, desk, &text, ("", "BadFrame (30) at 1"))
}

#[test]
fn bad_headers_end_a_spool(rt: HostRuntime) -> Result<(), Fail> {
    let mut desk = empty_desk(rt.alloc());
    let mut count: u32 = 0;
    for line in NOT_HEADERS.split(';') {
        ends_a_spool(rt.alloc(), &mut desk, line)?;
        count = count.saturating_add(1);
    }
    same("the lines", count, 22)
}

/// The first `bytes` bytes of the shortest frames one after the other.
fn tiny_frames(alloc: Global, bytes: usize, end: &str) -> Result<(), Fail> {
    let mut input = Cycle::new(b"RUN L 0 q 0\n\n", bytes);
    let mut output = Tally { bytes: 0, lines: 0 };
    ends(alloc, &mut empty_desk(alloc), &mut input, &mut output, end)?;
    let found = (output.lines, output.bytes);
    same("lines, bytes", found, (100_000, 3_900_000))
}

#[test]
fn no_byte_may_follow_100000_frames(rt: HostRuntime) -> Result<(), Fail> {
    tiny_frames(rt.alloc(), 1_300_000, "100000")?;
    tiny_frames(rt.alloc(), 1_300_001, "BadFrame (30) at 100001")
}
