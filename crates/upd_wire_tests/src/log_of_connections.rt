//! What a server writes of the connections that it has served. Rule 10.92.
use crate::http_connections::{client_with, listener, longer};
use crate::http_desk::QUICK;
use crate::list_desks::{Lists, empty_desk};
use std::cell::Cell;
use std::io;
use std::io::{Read, Write};
use std::test::Fail;
use std::time::{Clock, Duration};
use upd_testkit::check::{same, same_text};
use upd_testkit::fake_streams::Narrow;
use upd_wire::{Listener, serve_on_within};

/// A clock that is at 0 when it is first read, and 12,345 milliseconds later from then on.
#[derive(Drop)]
struct Moved {
    millis: Cell<u64>,
}

impl Clock for Moved {
    fn monotonic(&self) -> io::Result<Duration> {
        let millis = self.millis.get();
        self.millis.set(12_345);
        Ok(Duration::from_millis(millis))
    }

    fn since_1970(&self) -> io::Result<Duration> {
        Ok(Duration::from_secs(0))
    }
}

/// A desk serves a client that sends this. Returns the number of bytes of the answer, and of lines that are lost.
fn served<W: Write>(
    rt: &HostRuntime,
    desk: &mut Lists,
    sent: &str,
    log: &mut W,
) -> Result<(usize, u32), Fail> {
    let (listener, millis) = (listener(rt)?, Cell::new(0));
    let clock = Moved { millis };
    let mut client = client_with(rt, listener.local_addr()?, sent)?;
    let lost = serve_on_within(rt.alloc(), &clock, Listener::Tcp(&listener), 1, desk, log)?;
    let mut answer = Vec::new(rt.alloc());
    client.read_to_end(&mut answer)?;
    Ok((answer.len(), lost))
}

/// The line of a client that sends this is these fields, between `upd:` and the numbers of bytes.
fn is_logged(rt: &HostRuntime, desk: &mut Lists, sent: &str, fields: &str) -> Result<(), Fail> {
    let mut log = Vec::new(rt.alloc());
    let (answer, lost) = served(rt, desk, sent, &mut log)?;
    same("lines that are lost", lost, 0)?;
    let bytes = sent.len();
    let wanted = format!(in rt.alloc(); "upd: {fields} {bytes} {answer} 12345ms\n")?;
    same_text(fields, std::str::from_utf8(&log)?, &wanted)
}

/// Requests to one desk, in order, and the fields of their lines.
const LINES: &[(&str, &str)] = &[
    (QUICK, "POST /sites/LYON/runs/1/quick LYON 1 200 accepted"),
    (
        "POST /sites/LYON/runs/2/quick HTTP/1.1\r\nContent-Length: 6\r\n\r\nHELLO\n",
        "POST /sites/LYON/runs/2/quick LYON 2 422 TextNowhere",
    ),
    (
        "POST /sites/LYON/runs/1/full HTTP/1.1\r\n\r\n",
        "POST /sites/LYON/runs/1/full LYON 1 409 RunChanged",
    ),
    (
        "POST /sites/L%1B%20N/runs/1/full HTTP/1.1\r\n\r\n",
        "POST /sites/L%1B%20N/runs/1/full - 1 400 BadSite",
    ),
    (
        "POST /sites/OSLO/settled/3?x HTTP/1.1\r\n\r\n",
        "POST /sites/OSLO/settled/3?x OSLO 3 200 ok",
    ),
    (
        "POST /sites/OSLO/settled/0 HTTP/1.1\r\n\r\n",
        "POST /sites/OSLO/settled/0 OSLO 0 400 BadNumber",
    ),
    ("GET /idents HTTP/1.1\r\n\r\n", "GET /idents - - 200 ok"),
    (
        "GET /decks/NOPE HTTP/1.1\r\n\r\n",
        "GET /decks/NOPE - - 404 DeckUnknown",
    ),
    (
        "PUT /idents HTTP/1.1\r\n\r\n",
        "PUT /idents - - 405 BadFrame",
    ),
    (
        "GET /\x1b[31m\r\n\r\n",
        "GET /%1B[31m%0D%0A%0D%0A - - 400 BadFrame",
    ),
    ("GET /idents HT", "GET /idents - - - CutFrame"),
    ("", "- - - - - CutFrame"),
];

#[test]
fn each_connection_has_a_line(rt: HostRuntime) -> Result<(), Fail> {
    let mut desk = empty_desk(rt.alloc());
    for (sent, fields) in LINES {
        is_logged(&rt, &mut desk, sent, fields)?;
    }
    Ok(())
}

/// A target is cut after 200 bytes.
#[test]
fn a_long_target_is_cut(rt: HostRuntime) -> Result<(), Fail> {
    let sent = longer(rt.alloc(), "GET /", ("a", 300), " HTTP/1.1\r\n\r\n")?;
    let fields = longer(rt.alloc(), "GET /", ("a", 199), " - - 404 BadFrame")?;
    is_logged(&rt, &mut empty_desk(rt.alloc()), &sent, &fields)
}

/// Each byte of two fields of 200 may become three.
#[test]
fn a_line_has_room_for_two_escaped_fields(rt: HostRuntime) -> Result<(), Fail> {
    let field = "\x01".repeat(rt.alloc(), 200)?;
    let sent = format!(in rt.alloc(); "{field} {field}\r\n\r\n")?;
    let field = "%01".repeat(rt.alloc(), 200)?;
    let fields = format!(in rt.alloc(); "{field} {field} - - 400 BadFrame")?;
    is_logged(&rt, &mut empty_desk(rt.alloc()), &sent, &fields)
}

#[test]
fn a_line_that_is_not_taken_is_counted(rt: HostRuntime) -> Result<(), Fail> {
    let mut log = Narrow::new(rt.alloc(), 10);
    let (answer, lost) = served(&rt, &mut empty_desk(rt.alloc()), QUICK, &mut log)?;
    same("lost, answered", (lost, answer > 0), (1, true))?;
    same_text("the log", std::str::from_utf8(&log.taken)?, "upd: POST ")
}
