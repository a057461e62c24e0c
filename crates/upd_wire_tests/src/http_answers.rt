//! Requests and their answers, each with its status. Rules 10.24 to 10.34.
use crate::http_desk::{REPEATS, expect_all, expect_read};
use crate::list_desks::{Lists, empty_desk};
use std::alloc::Global;
use std::test::Fail;

#[test]
fn a_run_and_its_repeats_are_answered(rt: HostRuntime) -> Result<(), Fail> {
    for most in [1, 7, 65_536] {
        expect_all(rt.alloc(), &mut empty_desk(rt.alloc()), most, REPEATS)?;
    }
    Ok(())
}

/// A request, or only its first two words; and the status and the body of its answer. With 405 the status is followed by
/// an LF and a header.
type Exchange = (&'static str, &'static str, &'static str);

const BAD_REQUEST: &str = "400 Bad Request";

const NOT_FOUND: &str = "404 Not Found";

const ONLY_GET: &str = "405 Method Not Allowed\nAllow: GET\r\n";

const ONLY_POST: &str = "405 Method Not Allowed\nAllow: POST\r\n";

const BAD_NAME: &str = "{\"at\":0,\"fault\":5,\"name\":\"BadName\"}";

const BAD_CARD: &str = "{\"at\":0,\"fault\":6,\"name\":\"BadCard\"}";

const CARD_UNKNOWN: &str = "{\"at\":0,\"fault\":13,\"name\":\"CardUnknown\"}";

const CALL_UNKNOWN: &str = "{\"at\":0,\"fault\":20,\"name\":\"CallUnknown\"}";

const BAD_SITE: &str = "{\"at\":0,\"fault\":23,\"name\":\"BadSite\"}";

const BAD_NUMBER: &str = "{\"at\":0,\"fault\":24,\"name\":\"BadNumber\"}";

const BAD_MODE: &str = "{\"at\":0,\"fault\":25,\"name\":\"BadMode\"}";

const SETTLED: &str = "{\"at\":0,\"fault\":27,\"name\":\"Settled\"}";

const BAD_FRAME: &str = "{\"at\":0,\"fault\":30,\"name\":\"BadFrame\"}";

/// Requests that have no route, or of which one thing is bad: the leftmost parameter is the answer. A site or a mode
/// that is a text is left to the desk.
const REFUSED: &[Exchange] = &[
    ("POST /sites/%FF/runs/01/%FF", BAD_REQUEST, BAD_SITE),
    ("POST /sites/lyon/runs/01/quick", BAD_REQUEST, BAD_NUMBER),
    ("POST /sites/LYON/runs/1/%FF", BAD_REQUEST, BAD_MODE),
    ("POST /sites/LYON/runs/0/never", BAD_REQUEST, BAD_NUMBER),
    ("POST /sites/LYON/settled/x", BAD_REQUEST, BAD_NUMBER),
    ("GET /decks/abc", BAD_REQUEST, BAD_NAME),
    ("GET /cards/A/0", BAD_REQUEST, BAD_CARD),
    ("GET /decks/A/", NOT_FOUND, BAD_FRAME),
    ("GET /DECKS/A", NOT_FOUND, BAD_FRAME),
    ("POST /sites/LYON/runs/1", NOT_FOUND, BAD_FRAME),
    ("GET http://lib/idents", NOT_FOUND, BAD_FRAME),
    ("DELETE /nowhere", NOT_FOUND, BAD_FRAME),
    ("HEAD /idents", ONLY_GET, BAD_FRAME),
    ("POST /decks/abc", ONLY_GET, BAD_FRAME),
    ("PUT /sites/LYON/settled/1", ONLY_POST, BAD_FRAME),
];

const MARK: &str = "{\"settled\":1,\"site\":\"LYON\"}";

const QUICK_REPLY: &str =
    "{\"compile\":\"\",\"idents\":[],\"lines\":0,\"mode\":\"quick\",\"run\":1,\"site\":\"LYON\",\"state\":\"accepted\"}";

/// A run, its settlement, the same again, and a settlement of no run.
const SETTLEMENTS: &[Exchange] = &[
    ("POST /sites/LYON/runs/1/quick", "200 OK", QUICK_REPLY),
    ("POST /sites/LYON/settled/1", "200 OK", MARK),
    ("POST /sites/LYON/settled/1", "200 OK", MARK),
    ("POST /sites/LYON/runs/1/quick", "410 Gone", SETTLED),
    ("POST /sites/LYON/settled/0", BAD_REQUEST, BAD_NUMBER),
];

/// A run that is refused, and a library that can't be compiled.
const UNPROCESSABLE: &[Exchange] = &[
    (
        "POST /sites/LYON/runs/3/full HTTP/1.1\r\ncontent-LENGTH: 21\r\n\r\n*IDENT X\n*DELETE A.2\n",
        "422 Unprocessable Entity",
        "{\"at\":2,\"fault\":13,\"mode\":\"full\",\"name\":\"CardUnknown\",\"run\":3,\"site\":\"LYON\",\"state\":\"refused\"}",
    ),
    (
        "POST /sites/LYON/runs/4/normal HTTP/1.1\r\nContent-Length: 27\r\n\r\n*COMDECK C\n*DECK A\n*CALL C\n",
        "200 OK",
        "{\"compile\":\"\",\"idents\":[\"C\",\"A\"],\"lines\":0,\"mode\":\"normal\",\"run\":4,\"site\":\"LYON\",\"state\":\"accepted\"}",
    ),
    (
        "POST /sites/LYON/runs/5/quick HTTP/1.1\r\nContent-Length: 10\r\n\r\n*PURDECK C",
        "200 OK",
        "{\"compile\":\"\",\"idents\":[],\"lines\":0,\"mode\":\"quick\",\"run\":5,\"site\":\"LYON\",\"state\":\"accepted\"}",
    ),
    ("GET /compile", "422 Unprocessable Entity", CALL_UNKNOWN),
];

/// The reply to run 1 of LYON, which introduces deck A.
const DECK_REPLY: &str = "\
{\"compile\":\"ONE                                                                              A             2\\n\
TWO                                                                              A             3\\n\
THREE                                                                            A             4\\n\
\",\"idents\":[\"A\"],\"lines\":3,\"mode\":\"full\",\"run\":1,\"site\":\"LYON\",\"state\":\"accepted\"}";

const DECK_LISTING: &str = "DECK A/B\nA A/B.1 *DECK A/B\nA A/B.2 ONE\n";

/// Listings of the decks A and A/B. A slash in a name is written `%2F`.
const LISTINGS: &[Exchange] = &[
    (
        "POST /sites/LYON/runs/1/full HTTP/1.1\r\nContent-Length: 22\r\n\r\n*DECK A\nONE\nTWO\nTHREE\n",
        "200 OK",
        DECK_REPLY,
    ),
    (
        "GET /decks/A",
        "200 OK",
        "DECK A\nA A.1 *DECK A\nA A.2 ONE\nA A.3 TWO\nA A.4 THREE\n",
    ),
    (
        "GET /cards/A/2",
        "200 OK",
        "CARD A.2\nDECK A\nTEXT ONE\nSTATUS active\nENTRY A on\n",
    ),
    ("GET /idents?all=1", "200 OK", "1 A deck held\n"),
    ("GET /yanks", "200 OK", ""),
    ("GET /cards/A/9", NOT_FOUND, CARD_UNKNOWN),
    (
        "POST /sites/LYON/runs/2/quick HTTP/1.1\r\nContent-Length: 14\r\n\r\n*DECK A/B\nONE\n",
        "200 OK",
        "{\"compile\":\"\",\"idents\":[\"A/B\"],\"lines\":0,\"mode\":\"quick\",\"run\":2,\"site\":\"LYON\",\"state\":\"accepted\"}",
    ),
    ("GET /decks/A%2FB", "200 OK", DECK_LISTING),
    ("GET /decks/A%2fB", "200 OK", DECK_LISTING),
    ("GET /decks/A/B", NOT_FOUND, BAD_FRAME),
];

/// A request as it is sent.
fn in_full(alloc: Global, request: &str) -> Result<String, Fail> {
    if request.contains("\r\n") {
        Ok(String::from_str(alloc, request)?)
    } else {
        Ok(format!(in alloc; "{request} HTTP/1.1\r\n\r\n")?)
    }
}

/// The answer of a status and a body.
fn answer_text(alloc: Global, status: &str, body: &str) -> Result<String, Fail> {
    let (status, allow) = status.split_once("\n").unwrap_or((status, ""));
    let kind = if body.starts_with("{") {
        "application/json"
    } else {
        "text/plain"
    };
    let length = body.len();
    Ok(format!(in alloc;
        "HTTP/1.1 {status}\r\nContent-Type: {kind}\r\nContent-Length: {length}\r\n{allow}Connection: close\r\n\r\n{body}"
    )?)
}

fn is_answered(
    alloc: Global,
    desk: &mut Lists,
    (request, status, body): Exchange,
) -> Result<(), Fail> {
    let request = in_full(alloc, request)?;
    let wanted = answer_text(alloc, status, body)?;
    expect_read(alloc, desk, (request.as_str(), 65_536), wanted.as_str())
}

fn are_answered(alloc: Global, desk: &mut Lists, exchanges: &[Exchange]) -> Result<(), Fail> {
    for exchange in exchanges {
        is_answered(alloc, desk, *exchange)?;
    }
    Ok(())
}

#[test]
fn requests_have_answers_with_a_status(rt: HostRuntime) -> Result<(), Fail> {
    for exchanges in [REFUSED, SETTLEMENTS, UNPROCESSABLE, LISTINGS] {
        are_answered(rt.alloc(), &mut empty_desk(rt.alloc()), exchanges)?;
    }
    Ok(())
}
