//! Connections are served without a clock of the caller's.
use std::alloc::Global;
use std::io::{Read, Write};
use std::net::{Shutdown, TcpListener, TcpStream};
use std::test::Fail;
use upd_desk::Desk;
use upd_rows::ListStore;
use upd_testkit::check::same_text;
use upd_wire::serve_on;

/// A client that has asked for the idents and writes no more.
fn client(rt: &HostRuntime, listener: &TcpListener) -> Result<TcpStream, Fail> {
    let mut client = TcpStream::connect(rt, listener.local_addr()?)?;
    client.write_all(b"GET /idents HTTP/1.1\r\n\r\n")?;
    client.shutdown(Shutdown::Write)?;
    Ok(client)
}

/// What a client reads to the end is this.
fn reads(alloc: Global, mut client: TcpStream, wanted: &str) -> Result<(), Fail> {
    let mut answer = Vec::new(alloc);
    client.read_to_end(&mut answer)?;
    same_text("the answer", std::str::from_utf8(&answer)?, wanted)
}

#[test]
fn a_connection_is_served(rt: HostRuntime) -> Result<(), Fail> {
    let listener = TcpListener::bind(&rt, "127.0.0.1:0")?;
    let client = client(&rt, &listener)?;
    let mut desk = Desk::open(ListStore::new(rt.alloc()));
    serve_on(rt.alloc(), &listener, 1, &mut desk)?;
    let wanted = "HTTP/1.1 200 OK\r\nContent-Type: text/plain\r\nContent-Length: 0\r\n\
Connection: close\r\n\r\n";
    reads(rt.alloc(), client, wanted)
}
