//! A desk over lists that is asked by requests.
use crate::list_desks::Lists;
use std::alloc::Global;
use std::test::Fail;
use upd_testkit::check::same;
use upd_testkit::fake_streams::{Held, Pieces};
use upd_text::Fault;
use upd_wire::serve_one;

/// The request of a run of no bytes.
pub const QUICK: &str =
    "POST /sites/LYON/runs/1/quick HTTP/1.1\r\nHost: lib\r\nContent-Length: 0\r\n\r\n";

/// The answer to `QUICK` on an empty library.
pub const QUICK_ANSWER: &str =
    "HTTP/1.1 200 OK\r\nContent-Type: application/json\r\nContent-Length: 92\r\n\
Connection: close\r\n\r\n{\"compile\":\"\",\"idents\":[],\"lines\":0,\"mode\":\"quick\",\"run\":1,\"site\":\"LYON\",\
\"state\":\"accepted\"}";

/// The answer to a known number with another mode or other bytes.
const CHANGED: &str =
    "HTTP/1.1 409 Conflict\r\nContent-Type: application/json\r\nContent-Length: 39\r\n\
Connection: close\r\n\r\n{\"at\":0,\"fault\":26,\"name\":\"RunChanged\"}";

/// A run, its repeat, its number with another mode, and a deck that isn't there, with their answers.
pub const REPEATS: &[(&str, &str)] = &[
    (QUICK, QUICK_ANSWER),
    (QUICK, QUICK_ANSWER),
    (
        "POST /sites/LYON/runs/1/full HTTP/1.1\r\nHost: lib\r\nContent-Length: 0\r\n\r\n",
        CHANGED,
    ),
    (
        "GET /decks/NOPE HTTP/1.1\r\n\r\n",
        "HTTP/1.1 404 Not Found\r\nContent-Type: application/json\r\nContent-Length: 40\r\n\
Connection: close\r\n\r\n{\"at\":0,\"fault\":12,\"name\":\"DeckUnknown\"}",
    ),
];

/// What is written and flushed for a request that is read at most `most` bytes at a time.
fn answer_to(
    alloc: Global,
    desk: &mut Lists,
    request: &[u8],
    most: usize,
) -> Result<Vec<u8>, Fault> {
    let mut output = Held::new(alloc, 0);
    let mut input = Pieces::new(request, most);
    serve_one(alloc, &mut input, &mut output, desk)?;
    Ok(output.flushed)
}

/// The answer to a request that is read at most `most` bytes at a time is this text.
pub fn expect_read(
    alloc: Global,
    desk: &mut Lists,
    (request, most): (&str, usize),
    wanted: &str,
) -> Result<(), Fail> {
    let answer = answer_to(alloc, desk, request.as_bytes(), most)?;
    same(request, &std::str::from_utf8(&answer)?, &wanted)
}

/// Requests that are read at most `most` bytes at a time have these answers, one after the other.
pub fn expect_all(
    alloc: Global,
    desk: &mut Lists,
    most: usize,
    requests: &[(&str, &str)],
) -> Result<(), Fail> {
    for (request, wanted) in requests {
        expect_read(alloc, desk, (request, most), wanted)?;
    }
    Ok(())
}
