//! What a command at a desk may use of the system. A server's address or socket is bound once the library's file is open.

use crate::local_socket::bind_local;
use std::alloc::Global;
use std::net::TcpListener;
use std::os::unix::net::UnixListener;
use upd_words::{Command, Endpoint};

/// What a command listens at.
#[derive(Drop)]
pub enum Bound {
    Tcp(TcpListener),
    Unix(UnixListener),
    /// Nothing: the command is no server, or its address or path can't be bound. Why there is no socket at a path.
    Nothing(&'static str),
}

/// What a command at a desk may use of the system. None of it opens a file.
#[derive(Drop)]
pub struct Host<'a, C> {
    pub alloc: Global,
    pub clock: &'a C,
    pub bound: Bound,
}

impl Bound {
    /// Why there is no socket at a path.
    pub(crate) fn why(&self) -> &'static str {
        match self {
            Bound::Nothing(why) => why,
            _ => "",
        }
    }
}

/// Binds the address or the path of a server. For another command there is nothing to bind.
pub fn bind(rt: &HostRuntime, command: &Command<'_>) -> Bound {
    match command {
        Command::Serve { endpoint, .. } => bind_endpoint(rt, endpoint),
        _ => Bound::Nothing(""),
    }
}

fn bind_endpoint(rt: &HostRuntime, endpoint: &Endpoint<'_>) -> Bound {
    match endpoint {
        Endpoint::Address(address) => match TcpListener::bind(rt, *address) {
            Ok(listener) => Bound::Tcp(listener),
            Err(_) => Bound::Nothing(""),
        },
        Endpoint::Path(path) => match bind_local(rt, path) {
            Ok(listener) => Bound::Unix(listener),
            Err(why) => Bound::Nothing(why),
        },
    }
}
