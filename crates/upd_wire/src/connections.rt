//! Connections, one after the other.

ghost use Rattle.std.specs.Prelude.{◌≡◌, ◌≤◌, ◌<◌, ◌-◌, ◌^◌, ℕ, List, length, IfErr, IfOk, OnOk};
ghost use Rattle.upd_wire.specs.AnswerViews.{exchange_view, served_view};
ghost use Rattle.upd_wire.specs.LogLines.{Exchanges, Logs, ServedView, WritesLine, log_line};
ghost use Rattle.upd_wire.specs.Serving.{Leads, LeadsThrough, Made, read_failed};

use crate::RouteTable;
use crate::http_exchange::{Exchange, serve_request};
use crate::log_lines::{Served, write_line};
use std::alloc::Global;
use std::io::{ErrorKind, Read, Sink, Write};
use std::net::{Shutdown, TcpListener, TcpStream};
use std::os::unix::io::OwnedFd;
use std::os::unix::net::UnixListener;
use std::time::{Clock, Duration, Instant};
use std::{io, thread};
use upd_desk::Desk;
use upd_row_store::RowStore;
use upd_text::{Fault, FaultKind};

/// How long a read or a write of a connection may take, in seconds.
const PATIENCE: u64 = 4;

/// How long a connection may take by the clock, in seconds. A read or a write that has begun by then may go beyond it.
const LIFETIME: u64 = 30;

/// How long a read may take after the answer to a request that was read to its end, in seconds.
const FAREWELL: u64 = 1;

/// How many bytes are written at most before the clock is looked at: a Unix socket gives a write its time anew for each part
/// that the client takes.
const PIECE: usize = 65_536;

/// How many reads of what a client still sends are discarded after an answer, where a clock ends them.
const SURPLUS_READS: u32 = 4096;

/// How many such reads there are without a clock, where each may take all of its time.
const UNTIMED_SURPLUS_READS: u32 = 64;

/// How many failures to accept a connection in a row end a server that has a clock.
const MAX_FAILED_ACCEPTS: u32 = 100;

/// How long a server with a clock waits before it tries to accept again, in milliseconds.
const ACCEPT_PAUSE: u64 = 10;

/// Where connections are accepted.
#[derive(Clone, Copy)]
pub enum Listener<'a> {
    Tcp(&'a TcpListener),
    Unix(&'a UnixListener),
}

impl Listener<'_> {
    /// The next connection. Reads, writes and time limits are the same calls for each kind of socket.
    fn accept(self) -> io::Result<TcpStream> {
        match self {
            Listener::Tcp(listener) => {
                let (stream, _) = listener.accept()?;
                Ok(stream)
            }
            Listener::Unix(listener) => {
                let (stream, _) = listener.accept()?;
                Ok(TcpStream::from(OwnedFd::from(stream)))
            }
        }
    }
}

/// Serves `count` connections, one request each. A fault of one ends only that one. Read where no connection can be
/// accepted.
///
/// A client that sends or takes nothing for 4 seconds gets no complete answer. After an answer, what the client still
/// sends is discarded, by 64 reads at most, until it closes the connection or sends nothing for 4 seconds, or for 1
/// second where its request was read to its end.
pub fn serve_on<S: RowStore>(
    alloc: Global,
    listener: &TcpListener,
    count: u32,
    desk: &mut Desk<S>,
) -> Result<(), Fault>
    ensures leads { (made : List Made) × (length made ≤ count) × OnOk result (length made ≡ count)
        × LeadsThrough S.Meaning made desk.old.store desk.new.store }
    ensures err { IfErr result (λ fault. fault ≡ read_failed) }
{
    let listener = Listener::Tcp(listener);
    match serve_each::<HostRuntime, S, Sink>(alloc, None, listener, count, desk, &mut io::sink()) {
        Ok(_) => Ok(()),
        Err(fault) => Err(fault),
    }
}

/// Serves as `serve_on` does, and no connection for longer than 30 seconds by the clock. Where a connection can't be
/// accepted it waits 10 milliseconds and tries again: Read after 100 failures in a row.
///
/// Once a connection is closed its line goes to `log`, in one write. Returns how many lines could not be written.
pub fn serve_on_within<C: Clock, S: RowStore, W: Write>(
    alloc: Global,
    clock: &C,
    listener: Listener<'_>,
    count: u32,
    desk: &mut Desk<S>,
    log: &mut W,
) -> Result<u32, Fault>
    ensures leads { (made : List Made) × (length made ≤ count) × OnOk result (length made ≡ count)
        × LeadsThrough S.Meaning made desk.old.store desk.new.store
        × ((served : List ServedView) × (lost : ℕ) × IfOk result (λ n. n ≡ lost)
        × Logs served made lost (W.contents log.old) (W.contents log.new)) }
    ensures err { IfErr result (λ fault. fault ≡ read_failed) }
{
    serve_each(alloc, Some(clock), listener, count, desk, log)
}

/// Serves `count` connections. One that finds no memory for the routes gets no answer, and the next one makes them.
fn serve_each<C: Clock, S: RowStore, W: Write>(
    alloc: Global,
    clock: Option<&C>,
    listener: Listener<'_>,
    count: u32,
    desk: &mut Desk<S>,
    log: &mut W,
) -> Result<u32, Fault>
    ensures leads { (made : List Made) × (length made ≤ count) × OnOk result (length made ≡ count)
        × LeadsThrough S.Meaning made desk.old.store desk.new.store
        × ((served : List ServedView) × (lost : ℕ) × IfOk result (λ n. n ≡ lost)
        × Logs served made lost (W.contents log.old) (W.contents log.new)) }
    ensures err { IfErr result (λ fault. fault ≡ read_failed) }
{
    let mut routes = None;
    let mut lost = 0;
    'connections: for _ in 0..count {
        match accept(listener, clock) {
            Ok(stream) => {
                let served = serve_connection(alloc, clock, &mut routes, stream, desk);
                lost = log_connection(log, &served, lost);
            }
            Err(_) => return Err(FaultKind::Read.without_line()),
        }
    }
    Ok(lost)
}

/// Writes the line of a connection. Returns how many lines are lost with it.
fn log_connection<W: Write>(log: &mut W, served: &Served, lost: u32) -> u32
    requires { lost < 2 ^ 32 - 1 }
    ensures { WritesLine (log_line (served_view served.now)) lost result (W.contents log.old) (W.contents log.new) }
{
    match write_line(log, served) {
        Ok(()) => lost,
        Err(_) => lost + 1,
    }
}

/// The next connection. With a clock, a failure may be for a passing reason.
fn accept<C: Clock>(listener: Listener<'_>, clock: Option<&C>) -> io::Result<TcpStream> {
    if let Some(clock) = clock {
        for _ in 1..MAX_FAILED_ACCEPTS {
            match listener.accept() {
                Ok(stream) => return Ok(stream),
                Err(_) => thread::sleep(clock, Duration::from_millis(ACCEPT_PAUSE)),
            }
        }
    }
    listener.accept()
}

/// Serves a connection, which is closed then.
fn serve_connection<C: Clock, S: RowStore>(
    alloc: Global,
    clock: Option<&C>,
    routes: &mut Option<RouteTable>,
    stream: TcpStream,
    desk: &mut Desk<S>,
) -> Served
    ensures { (made : Made) × (input : List ℕ) × Leads S.Meaning made desk.old.store desk.new.store
        × Exchanges input made (exchange_view result.exchange) }
{
    if routes.is_none() {
        *routes = RouteTable::new(alloc).ok();
    }
    let Some(routes) = routes else {
        return Served::failed(alloc, FaultKind::NoMemory);
    };
    let Ok(since) = begin(&stream, clock) else {
        return Served::failed(alloc, FaultKind::Read);
    };
    let mut reader = Client::new(&stream, since);
    let mut writer = Client::new(&stream, since);
    let (exchange, sent) = serve_request(alloc, routes, &mut reader, &mut writer, desk);
    if sent.is_ok() {
        end(&mut reader, &exchange);
    }
    Served {
        exchange,
        got: reader.bytes,
        sent: writer.bytes,
        millis: reader.millis(),
    }
}

/// Ends a connection after its answer.
fn end<C: Clock>(client: &mut Client<'_, C>, exchange: &Exchange) {
    let _ = client.stream.shutdown(Shutdown::Write);
    if exchange.is_whole() {
        let farewell = Some(Duration::from_secs(FAREWELL));
        let _ = client.stream.set_read_timeout(farewell);
    }
    let reads = match client.since {
        Some(_) => SURPLUS_READS,
        None => UNTIMED_SURPLUS_READS,
    };
    read_surplus(client, reads);
}

/// Limits how long each read and write of a connection may take, and reads the clock.
fn begin<'c, C: Clock>(
    stream: &TcpStream,
    clock: Option<&'c C>,
) -> io::Result<Option<(&'c C, Instant)>> {
    let patience = Some(Duration::from_secs(PATIENCE));
    stream.set_read_timeout(patience)?;
    stream.set_write_timeout(patience)?;
    match clock {
        Some(clock) => {
            let start = Instant::now(clock)?;
            Ok(Some((clock, start)))
        }
        None => Ok(None),
    }
}

/// A client until its time is up: from then on each read and write fails.
#[derive(Drop)]
struct Client<'a, C: Clock> {
    stream: &'a TcpStream,
    /// The clock, and the time at which the connection was accepted. None: without a limit.
    since: Option<(&'a C, Instant)>,
    /// How many bytes were read or written.
    bytes: u64,
}

impl<'a, C: Clock> Client<'a, C> {
    fn new(stream: &'a TcpStream, since: Option<(&'a C, Instant)>) -> Client<'a, C> {
        Client {
            stream,
            since,
            bytes: 0,
        }
    }

    /// The milliseconds since the connection was accepted; 0 without a clock, and where it can't be read.
    fn millis(&self) -> u64 {
        match self.since {
            Some((clock, start)) => match start.elapsed(clock) {
                Ok(time) => u64::try_from(time.as_millis()).unwrap_or(u64::MAX),
                Err(_) => 0,
            },
            None => 0,
        }
    }

    /// TimedOut once the client's time is up.
    fn check_time(&self) -> io::Result<()> {
        if let Some((clock, start)) = self.since {
            if start.elapsed(clock)? >= Duration::from_secs(LIFETIME) {
                return Err(io::Error::from(ErrorKind::TimedOut));
            }
        }
        Ok(())
    }
}

impl<C: Clock> Read for Client<'_, C> {
    fn read(&mut self, buf: &mut [u8]) -> io::Result<usize> {
        self.check_time()?;
        let count = (&mut &*self.stream).read(buf)?;
        self.bytes = self.bytes.saturating_add(count as u64);
        Ok(count)
    }
}

impl<C: Clock> Write for Client<'_, C> {
    fn write(&mut self, buf: &[u8]) -> io::Result<usize> {
        self.check_time()?;
        let piece = &buf[..buf.len().min(PIECE)];
        let count = (&mut &*self.stream).write(piece)?;
        self.bytes = self.bytes.saturating_add(count as u64);
        Ok(count)
    }

    fn flush(&mut self) -> io::Result<()> {
        (&mut &*self.stream).flush()
    }
}

/// Discards what a client still sends, up to a bound. If it stayed unread, closing the connection could discard the
/// answer.
fn read_surplus(client: &mut impl Read, reads: u32) {
    let mut chunk = [0u8; 4096];
    for _ in 0..reads {
        match client.read(&mut chunk) {
            Ok(0) | Err(_) => return,
            Ok(_) => {}
        }
    }
}
