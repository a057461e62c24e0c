//! Where `serve` and `serve-local` listen, as they say: their fault stream is a client that connects there and asks.
//! Rules 10.51.2 to 10.51.4.
use crate::console::{answers, is_gone, library, remove};
use std::alloc::Global;
use std::io::{ErrorKind, Read, Write};
use std::net::{Shutdown, TcpStream};
use std::os::unix::fs::{FileTypeExt, MetadataExt};
use std::os::unix::io::OwnedFd;
use std::os::unix::net::{UnixListener, UnixStream};
use std::test::Fail;
use std::{fs, io};
use upd_cli::run_command;
use upd_testkit::check::{holds, same, same_text};

/// A request, and the answer of a library without decks, by the rules of HTTP.
const IDENTS: (&str, &str) = (
    "GET /idents HTTP/1.1\r\n\r\n",
    "HTTP/1.1 200 OK\r\nContent-Type: text/plain\r\nContent-Length: 0\r\nConnection: close\r\n\r\n",
);

/// A client, and the address or the path that it has reached.
#[derive(Drop)]
struct Client {
    stream: TcpStream,
    place: String,
}

/// A fault stream that takes a line for that of `serve`, and sends a request to its address.
#[derive(Drop)]
struct Caller<'a> {
    rt: &'a HostRuntime,
    request: &'a str,
    written: Vec<u8>,
    client: Option<Client>,
    /// Each write fails, after that.
    is_broken: bool,
}

/// The address in the line of `serve`.
fn address_in(line: &[u8]) -> Option<&str> {
    let text = std::str::from_utf8(line).ok()?;
    text.strip_prefix("upd: listening on ")?.strip_suffix("\n")
}

/// A client at an address, or at a path, which begins with a slash.
fn connected(rt: &HostRuntime, place: &str) -> io::Result<Client> {
    if place.starts_with('/') {
        let stream = TcpStream::from(OwnedFd::from(UnixStream::connect(rt, place)?));
        let place = String::from_str(rt.alloc(), place)?;
        return Ok(Client { stream, place });
    }
    let stream = TcpStream::connect(rt, place)?;
    let place = format!(in rt.alloc(); "{}", stream.peer_addr()?)?;
    Ok(Client { stream, place })
}

/// A client that has sent a request.
fn client_at(rt: &HostRuntime, place: &str, request: &str) -> io::Result<Client> {
    let mut client = connected(rt, place)?;
    client.stream.write_all(request.as_bytes())?;
    client.stream.shutdown(Shutdown::Write)?;
    Ok(client)
}

impl Write for Caller<'_> {
    fn write(&mut self, buf: &[u8]) -> io::Result<usize> {
        if let Some(address) = address_in(buf) {
            self.client = Some(client_at(self.rt, address, self.request)?);
        }
        if self.is_broken {
            return Err(io::Error::from(ErrorKind::BrokenPipe));
        }
        self.written.extend_from_slice(buf)?;
        Ok(buf.len())
    }

    fn flush(&mut self) -> io::Result<()> {
        Ok(())
    }
}

/// A command at a free port.
const FREE: (&str, &str) = ("serve", "127.0.0.1:0");

/// What is written where a command takes one connection at a place, and the place that its client reached. The client
/// reads this answer to the end.
fn served(
    rt: &HostRuntime,
    file: &str,
    (command, place): (&str, &str),
    (request, wanted): (&str, &str),
    is_broken: bool,
) -> Result<(Vec<u8>, String), Fail> {
    let words = ["upd", command, file, place, "1"];
    let mut output = Vec::new(rt.alloc());
    let mut caller = Caller {
        rt,
        request,
        written: Vec::new(rt.alloc()),
        client: None,
        is_broken,
    };
    let mut input: &[u8] = b"";
    let status = run_command(rt, &words, &mut input, &mut output, &mut caller);
    same("the status, the output", (status, output.len()), (0, 0))?;
    let Caller {
        written,
        client,
        ..
    } = caller;
    Ok((
        written,
        is_answered(rt.alloc(), client.ok_or("no client")?, wanted)?,
    ))
}

/// What a client reads to the end is this. Its place is returned.
fn is_answered(alloc: Global, client: Client, wanted: &str) -> Result<String, Fail> {
    let Client { mut stream, place } = client;
    let mut answer = Vec::new(alloc);
    stream.read_to_end(&mut answer)?;
    same_text("the answer", std::str::from_utf8(&answer)?, wanted)?;
    Ok(place)
}

/// `serve` answers a request by this.
pub fn serves(rt: &HostRuntime, file: &str, request: &str, wanted: &str) -> Result<(), Fail> {
    served(rt, file, FREE, (request, wanted), false)?;
    Ok(())
}

/// What is written is the line with a client's place, and then the line of its connection, up to the milliseconds.
fn is_line_of(alloc: Global, written: &[u8], place: &str) -> Result<(), Fail> {
    let text = std::str::from_utf8(written)?;
    let (lines, millis) = text.rsplit_once(' ').ok_or("no blank")?;
    let wanted = format!(in alloc; "upd: listening on {place}\n{}", ASKED)?;
    same_text("the faults", lines, &wanted)?;
    let digits = millis.strip_suffix("ms\n").ok_or("no milliseconds")?;
    holds("a number", digits.parse::<u64>().is_ok())
}

/// The line of a connection, up to the milliseconds.
const ASKED: &str = "upd: GET /idents - - 200 ok 24 83";

/// A client is answered at the port that the line has, which isn't the 0 of the command line. `serve` goes on where its
/// line is not taken.
#[test]
fn the_line_of_serve_has_the_port_where_clients_are_answered(rt: HostRuntime) -> Result<(), Fail> {
    let file = library(&rt, "listening")?;
    let (written, place) = served(&rt, &file, FREE, IDENTS, false)?;
    is_line_of(rt.alloc(), &written, &place)?;
    let (written, _) = served(&rt, &file, FREE, IDENTS, true)?;
    same("bytes written", written.len(), 0)?;
    remove(&rt, &file)
}

/// A client at a path is answered. The owner's socket is left there, and nothing else of how it was made.
fn is_served_at(rt: &HostRuntime, file: &str, path: &str) -> Result<(), Fail> {
    let (written, place) = served(rt, file, ("serve-local", path), IDENTS, false)?;
    same_text("the path", &place, path)?;
    is_line_of(rt.alloc(), &written, &place)?;
    let found = fs::symlink_metadata(rt, path)?;
    let (is_socket, mode) = (found.file_type().is_socket(), found.mode() & 0o777);
    same("a socket, its mode", (is_socket, mode), (true, 0o600))?;
    is_gone(rt, &format!(in rt.alloc(); "{path}.new")?)
}

/// What a server leaves that is killed while it makes its socket.
fn leave_folder(rt: &HostRuntime, path: &str) -> Result<(), Fail> {
    let folder = format!(in rt.alloc(); "{path}.new")?;
    let made = format!(in rt.alloc(); "{path}.new/s")?;
    fs::create_dir(rt, folder.as_str())?;
    Ok(fs::write(rt, made.as_str(), b"")?)
}

/// The socket that a server has left is replaced by the next one's, and so is the folder of one that was killed.
#[test]
fn a_path_of_100_bytes_is_served(rt: HostRuntime) -> Result<(), Fail> {
    let file = library(&rt, "local")?;
    let rest = "x".repeat(rt.alloc(), 100_usize.saturating_sub(file.len()))?;
    let path = format!(in rt.alloc(); "{file}{rest}")?;
    is_served_at(&rt, &file, &path)?;
    leave_folder(&rt, &path)?;
    is_served_at(&rt, &file, &path)?;
    fs::remove_file(&rt, path.as_str())?;
    remove(&rt, &file)
}

/// No socket is made at a path, for this reason.
fn is_unserved(rt: &HostRuntime, file: &str, path: &str, why: &str) -> Result<(), Fail> {
    let lines = format!(in rt.alloc(); "upd: no socket at {path}: {why}\nupd: Read (32) at 0\n")?;
    answers(rt, &["serve-local", file, path, "1"], "", (3, "", &lines))
}

/// What is at a path stays, but for a socket that nobody serves.
#[test]
fn a_socket_replaces_nothing_else(rt: HostRuntime) -> Result<(), Fail> {
    let file = library(&rt, "taken")?;
    is_unserved(&rt, &file, &file, "something else is there")?;
    let path = format!(in rt.alloc(); "{file}.socket")?;
    let _listener = UnixListener::bind(&rt, path.as_str())?;
    is_unserved(&rt, &file, &path, "another server may use it")?;
    fs::remove_file(&rt, path.as_str())?;
    let long = "x".repeat(rt.alloc(), 101)?;
    is_unserved(&rt, &file, &long, "its path has more than 100 bytes")?;
    remove(&rt, &file)
}
