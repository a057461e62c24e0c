//! Connections on this machine. Rule 10.23.
use crate::http_desk::{QUICK, QUICK_ANSWER};
use crate::http_frames::RUN_LONG;
use crate::list_desks::{Lists, empty_desk};
use std::alloc::Global;
use std::cell::Cell;
use std::io;
use std::io::{ErrorKind, Read, Write};
use std::net::{Shutdown, SocketAddr, TcpListener, TcpStream};
use std::test::Fail;
use std::time::{Clock, Duration, Instant};
use upd_testkit::check::{holds, same};
use upd_text::{Fault, FaultKind};
use upd_wire::{Listener, serve_on, serve_on_within};

/// A listener on this machine.
pub fn listener(rt: &HostRuntime) -> Result<TcpListener, Fail> {
    Ok(TcpListener::bind(rt, "127.0.0.1:0")?)
}

/// A client that has written this.
fn client_after(rt: &HostRuntime, address: SocketAddr, sent: &str) -> io::Result<TcpStream> {
    let mut client = TcpStream::connect(rt, address)?;
    client.write_all(sent.as_bytes())?;
    Ok(client)
}

/// A client that has written this and writes no more.
pub fn client_with(rt: &HostRuntime, address: SocketAddr, sent: &str) -> io::Result<TcpStream> {
    let client = client_after(rt, address, sent)?;
    client.shutdown(Shutdown::Write)?;
    Ok(client)
}

/// A desk serves some connections by this clock.
fn serve<C: Clock>(
    alloc: Global,
    clock: &C,
    (listener, count): (&TcpListener, u32),
    desk: &mut Lists,
) -> Result<(), Fault> {
    let listener = Listener::Tcp(listener);
    serve_on_within(alloc, clock, listener, count, desk, &mut io::sink())?;
    Ok(())
}

/// What a client reads to the end is this.
fn reads(alloc: Global, client: &mut TcpStream, wanted: &str) -> Result<(), Fail> {
    let mut answer = Vec::new(alloc);
    client.read_to_end(&mut answer)?;
    same("the answer", &std::str::from_utf8(&answer)?, &wanted)
}

/// What a client writes before it writes no more, and what it reads then.
type Exchange<'a> = (&'a str, &'a str);

/// Clients that have written.
fn clients_with(
    rt: &HostRuntime,
    address: SocketAddr,
    exchanges: &[Exchange<'_>],
) -> Result<Vec<TcpStream>, Fail> {
    let mut clients = Vec::new(rt.alloc());
    for (sent, _) in exchanges {
        clients.push(client_with(rt, address, sent)?)?;
    }
    Ok(clients)
}

/// Clients read what they should.
fn all_read(
    alloc: Global,
    clients: &mut [TcpStream],
    exchanges: &[Exchange<'_>],
) -> Result<(), Fail> {
    for (client, (_, wanted)) in clients.iter_mut().zip(exchanges) {
        reads(alloc, client, wanted)?;
    }
    Ok(())
}

/// Clients connect and write, then `count` connections are served by this clock, then they read.
fn are_served<C: Clock>(
    rt: &HostRuntime,
    (clock, count): (&C, u32),
    exchanges: &[Exchange<'_>],
) -> Result<(), Fail> {
    let listener = listener(rt)?;
    let mut clients = clients_with(rt, listener.local_addr()?, exchanges)?;
    serve(
        rt.alloc(),
        clock,
        (&listener, count),
        &mut empty_desk(rt.alloc()),
    )?;
    all_read(rt.alloc(), &mut clients, exchanges)
}

/// The first bytes of a request of a run that is too long.
const LONG_FRONT: &str =
    "POST /sites/LYON/runs/1/quick HTTP/1.1\r\nContent-Length: 65537\r\n\r\nxxx";

const LARGE_FRONT: &str =
    "POST /sites/LYON/runs/2/quick HTTP/1.1\r\nContent-Length: 60016\r\n\r\n*DECK A\n";

/// 59 letters and LF.
const LINE: &str = "xxxxxxxxxxxxxxxxxxxxxxxxxxxxxxxxxxxxxxxxxxxxxxxxxxxxxxxxxxx\n";

const TAKEN_AT_1002: &str =
    "HTTP/1.1 422 Unprocessable Entity\r\nContent-Type: application/json\r\nContent-Length: 96\r\n\
Connection: close\r\n\r\n{\"at\":1002,\"fault\":10,\"mode\":\"quick\",\"name\":\"NameTaken\",\"run\":2,\
\"site\":\"LYON\",\"state\":\"refused\"}";

/// A text between two others, a number of times.
pub fn longer(
    alloc: Global,
    front: &str,
    (text, count): (&str, usize),
    end: &str,
) -> Result<String, Fail> {
    let texts = text.repeat(alloc, count)?;
    Ok(format!(in alloc; "{front}{texts}{end}")?)
}

/// A client that goes away before its request is whole takes nobody else's answer. One that sends more than it may has its
/// answer all the same. A body of 60,016 bytes, which take many reads, is read whole: the last of its lines is refused.
#[test]
fn connections_are_served(rt: HostRuntime) -> Result<(), Fail> {
    let long = longer(rt.alloc(), LONG_FRONT, ("x", 65_534), "")?;
    let large = longer(rt.alloc(), LARGE_FRONT, (LINE, 1_000), "*DECK A\n")?;
    let exchanges = [
        ("POST /sites/LYON/runs/1/quick ", ""),
        (QUICK, QUICK_ANSWER),
        (long.as_str(), RUN_LONG),
        (large.as_str(), TAKEN_AT_1002),
    ];
    are_served(&rt, (&rt, 4), &exchanges)
}

/// A listener that doesn't wait: nobody has connected, so no connection can be accepted.
fn idle_listener(rt: &HostRuntime) -> Result<TcpListener, Fail> {
    let listener = listener(rt)?;
    listener.set_nonblocking(true)?;
    Ok(listener)
}

/// A connection that can't be accepted isn't passed over.
#[test]
fn an_accept_that_fails_is_reported(rt: HostRuntime) -> Result<(), Fail> {
    let alloc = rt.alloc();
    let served = serve_on(alloc, &idle_listener(&rt)?, 2, &mut empty_desk(alloc));
    same("the end", &served, &Err(FaultKind::Read.without_line()))
}

/// A clock that adds up for how long it was slept by. Each time that `after` milliseconds are full, a client connects
/// and writes a quick run.
#[derive(Drop)]
struct Sleeping<'a> {
    rt: &'a HostRuntime,
    address: SocketAddr,
    after: u128,
    slept: Cell<u128>,
}

impl Clock for Sleeping<'_> {
    fn monotonic(&self) -> io::Result<Duration> {
        Ok(Duration::from_secs(0))
    }

    fn since_1970(&self) -> io::Result<Duration> {
        Ok(Duration::from_secs(0))
    }

    fn sleep(&self, duration: Duration) {
        let slept = self.slept.get().saturating_add(duration.as_millis());
        self.slept.set(slept);
        if slept.is_multiple_of(self.after) {
            let _ = client_with(self.rt, self.address, QUICK);
        }
    }
}

/// A server whose accepts fail until a client connects serves two connections, with this end and this long a sleep.
fn ends_after(
    rt: &HostRuntime,
    after: u128,
    wanted: (Result<(), Fault>, u128),
) -> Result<(), Fail> {
    let listener = idle_listener(rt)?;
    let clock = Sleeping {
        rt,
        address: listener.local_addr()?,
        after,
        slept: Cell::new(0),
    };
    let served = serve(
        rt.alloc(),
        &clock,
        (&listener, 2),
        &mut empty_desk(rt.alloc()),
    );
    same("the end, milliseconds", (served, clock.slept.get()), wanted)
}

/// A server with a clock ends where no connection can be accepted a hundred times in a row, 10 ms after one another.
#[test]
fn a_hundred_accepts_that_fail_are_reported(rt: HostRuntime) -> Result<(), Fail> {
    let wanted = (Err(FaultKind::Read.without_line()), 990);
    ends_after(&rt, 1_000, wanted)
}

/// It goes on where a connection can be accepted after 99 failures, each time.
#[test]
fn accepts_that_fail_for_a_while_end_nothing(rt: HostRuntime) -> Result<(), Fail> {
    ends_after(&rt, 990, (Ok(()), 1_980))
}

/// How many milliseconds a connection at a listener is served.
fn millis_served(rt: &HostRuntime, listener: &TcpListener) -> Result<u128, Fail> {
    let start = Instant::now(rt)?;
    serve(rt.alloc(), rt, (listener, 1), &mut empty_desk(rt.alloc()))?;
    Ok(start.elapsed(rt)?.as_millis())
}

/// A client that has written this and leaves its connection open is served for some milliseconds, and reads this. The
/// system's timers may end some milliseconds early.
fn is_waited_for(
    rt: &HostRuntime,
    (sent, wanted): Exchange<'_>,
    (least, most): (u128, u128),
) -> Result<(), Fail> {
    let listener = listener(rt)?;
    let mut client = client_after(rt, listener.local_addr()?, sent)?;
    let waited = millis_served(rt, &listener)?;
    holds(("milliseconds", waited), least <= waited && waited <= most)?;
    reads(rt.alloc(), &mut client, wanted)
}

/// A client that says nothing is waited for four seconds; so is one whose run is too long, which may still send it.
#[test]
fn a_client_that_may_still_send_is_not_waited_for_for_ever(rt: HostRuntime) -> Result<(), Fail> {
    is_waited_for(&rt, ("", ""), (3_900, 7_999))?;
    is_waited_for(&rt, (LONG_FRONT, RUN_LONG), (3_900, 7_999))
}

/// After an answer whose request was read to its end, the client is waited for one second.
#[test]
fn an_answered_client_is_waited_for_briefly(rt: HostRuntime) -> Result<(), Fail> {
    is_waited_for(&rt, (QUICK, QUICK_ANSWER), (900, 3_899))
}

/// A clock that goes forward by some seconds whenever it is read, after some first readings.
#[derive(Drop)]
pub struct Ticking {
    readings: Cell<u64>,
    still: u64,
    step: u64,
}

impl Ticking {
    /// A clock that goes forward by `step` seconds at each reading after the first `still`.
    pub fn new(still: u64, step: u64) -> Ticking {
        Ticking {
            readings: Cell::new(0),
            still,
            step,
        }
    }
}

impl Clock for Ticking {
    fn monotonic(&self) -> io::Result<Duration> {
        let readings = self.readings.get().saturating_add(1);
        self.readings.set(readings);
        let ticks = readings.saturating_sub(self.still);
        Ok(Duration::from_secs(ticks.saturating_mul(self.step)))
    }

    fn since_1970(&self) -> io::Result<Duration> {
        Ok(Duration::from_secs(0))
    }
}

/// A client reads nothing, and then the connection's end, or that it was reset.
fn reads_nothing(alloc: Global, client: &mut TcpStream) -> Result<(), Fail> {
    let mut answer = Vec::new(alloc);
    let is_over = match client.read_to_end(&mut answer) {
        Ok(_) => true,
        Err(error) => error.kind() == ErrorKind::ConnectionReset,
    };
    same("bytes, the end", (answer.len(), is_over), (0, true))
}

/// A client that has written `QUICK`, and whose time is up after this number of readings of the clock, reads nothing. Then
/// run 1 of LYON in full mode is accepted, or this is its refusal.
fn is_given_up(
    alloc: Global,
    listener: &TcpListener,
    client: &mut TcpStream,
    (still, key): (u64, Result<bool, Fault>),
) -> Result<(), Fail> {
    let mut desk = empty_desk(alloc);
    serve(alloc, &Ticking::new(still, 30), (listener, 1), &mut desk)?;
    reads_nothing(alloc, client)?;
    let answer = desk.arrive(alloc, "LYON", 1, "full", b"");
    same("the key", answer.map(|reply| reply.accepted), key)
}

/// A client that isn't done after 30 seconds is given up, and its run isn't stored: the key is free for another one.
#[test]
fn a_slow_client_is_given_up(rt: HostRuntime) -> Result<(), Fail> {
    let listener = listener(&rt)?;
    let mut client = client_after(&rt, listener.local_addr()?, QUICK)?;
    is_given_up(rt.alloc(), &listener, &mut client, (0, Ok(true)))
}

/// A client whose time is up after its request isn't answered. Its run is stored: the key is that run's.
#[test]
fn a_client_that_takes_its_answer_late_is_given_up(rt: HostRuntime) -> Result<(), Fail> {
    let listener = listener(&rt)?;
    let mut client = client_with(&rt, listener.local_addr()?, QUICK)?;
    let changed = Err(FaultKind::RunChanged.without_line());
    is_given_up(rt.alloc(), &listener, &mut client, (2, changed))
}

/// Each connection has 30 seconds of its own: four of them that take ten seconds and more are all served.
#[test]
fn each_connection_has_its_own_time(rt: HostRuntime) -> Result<(), Fail> {
    are_served(&rt, (&Ticking::new(0, 5), 4), &[(QUICK, QUICK_ANSWER); 4])
}
