//! Bodies at their limits, and lengths. Rules 10.26, 10.29 and 10.30.
use crate::http_desk::{expect_all, expect_read};
use crate::list_desks::{Lists, empty_desk};
use std::alloc::Global;
use std::test::Fail;

const EMPTY_LISTING: &str =
    "HTTP/1.1 200 OK\r\nContent-Type: text/plain\r\nContent-Length: 0\r\nConnection: close\r\n\r\n";

const BAD_FRAME: &str =
    "HTTP/1.1 400 Bad Request\r\nContent-Type: application/json\r\nContent-Length: 37\r\n\
Connection: close\r\n\r\n{\"at\":0,\"fault\":30,\"name\":\"BadFrame\"}";

pub const RUN_LONG: &str =
    "HTTP/1.1 413 Payload Too Large\r\nContent-Type: application/json\r\nContent-Length: 35\r\n\
Connection: close\r\n\r\n{\"at\":0,\"fault\":1,\"name\":\"RunLong\"}";

const LINE_LONG: &str =
    "HTTP/1.1 422 Unprocessable Entity\r\nContent-Type: application/json\r\nContent-Length: 91\r\n\
Connection: close\r\n\r\n{\"at\":1,\"fault\":4,\"mode\":\"quick\",\"name\":\"LineLong\",\"run\":1,\
\"site\":\"LYON\",\"state\":\"refused\"}";

/// Requests, the lengths of their bodies, and their answers.
const BODIES: &[(&str, &str, &str)] = &[
    ("POST /sites/LYON/runs/1/quick", "65536", LINE_LONG),
    ("POST /sites/LYON/runs/2/quick", "65537", RUN_LONG),
    ("GET /idents", "65537", RUN_LONG),
    ("GET /idents", "99999999999999999999999999", RUN_LONG),
];

/// The answer to a request with a body of 65,536 bytes and this length is this text.
fn expect_length(
    alloc: Global,
    desk: &mut Lists,
    (line, length): (&str, &str),
    wanted: &str,
) -> Result<(), Fail> {
    let body = "x".repeat(alloc, 65_536)?;
    let request = format!(in alloc; "{line} HTTP/1.1\r\nContent-Length: {length}\r\n\r\n{body}")?;
    expect_read(alloc, desk, (&request, 1000), wanted)
}

/// A body of 65,536 bytes is a run; a longer one isn't read, on any known path.
#[test]
fn bodies_have_65536_bytes_at_most(rt: HostRuntime) -> Result<(), Fail> {
    let mut desk = empty_desk(rt.alloc());
    for (line, length, wanted) in BODIES {
        expect_length(rt.alloc(), &mut desk, (line, length), wanted)?;
    }
    Ok(())
}

/// Requests with lengths that are not valid, on an unknown path as well, and with valid ones; the case of a header's
/// name does not matter.
const LENGTHS: &[(&str, &str)] = &[
    (
        "GET /idents HTTP/1.1\r\nContent-Length: 0\r\ncontent-length: 0\r\n\r\n",
        BAD_FRAME,
    ),
    ("GET /idents HTTP/1.1\r\nContent-Length:\r\n\r\n", BAD_FRAME),
    (
        "GET /idents HTTP/1.1\r\nTransfer-Encoding: chunked\r\n\r\n",
        BAD_FRAME,
    ),
    (
        "GET /idents HTTP/1.1\r\nCONTENT-LENGTH: \t000 \r\n\r\n",
        EMPTY_LISTING,
    ),
    (
        "GET /idents HTTP/1.1\r\nExpect: 100-continue\r\n\r\n",
        EMPTY_LISTING,
    ),
    (
        "GET /nowhere HTTP/1.1\r\nTransfer-Encoding: chunked\r\n\r\n",
        BAD_FRAME,
    ),
    ("GET /idents HTTP/2.0\r\n\r\n", BAD_FRAME),
    ("GET /idents HTTP/1.0\r\n\r\n", EMPTY_LISTING),
];

#[test]
fn lengths_come_once_in_digits(rt: HostRuntime) -> Result<(), Fail> {
    expect_all(rt.alloc(), &mut empty_desk(rt.alloc()), 1000, LENGTHS)
}
