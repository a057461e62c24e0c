//! Readers and writers over memory that go a few bytes at a time, fail, or have no end.
use std::alloc::Global;
use std::io;
use std::io::{ErrorKind, Read, Write};

/// Gives bytes a few at a time; read number `fails_at` fails.
#[derive(Drop)]
pub struct Pieces<'a> {
    rest: &'a [u8],
    most: usize,
    /// The number of reads so far.
    pub reads: usize,
    fails_at: usize,
    kind: ErrorKind,
}

impl<'a> Pieces<'a> {
    /// A reader of at most `most` bytes at a time.
    pub fn new(bytes: &'a [u8], most: usize) -> Pieces<'a> {
        Pieces::failing(bytes, most, 0, ErrorKind::Other)
    }

    /// The same, whose read number `fails_at` fails in this way; with 0 none fails.
    pub fn failing(bytes: &'a [u8], most: usize, fails_at: usize, kind: ErrorKind) -> Pieces<'a> {
        Pieces {
            rest: bytes,
            most,
            reads: 0,
            fails_at,
            kind,
        }
    }
}

impl Read for Pieces<'_> {
    fn read(&mut self, buf: &mut [u8]) -> io::Result<usize> {
        self.reads = self.reads.saturating_add(1);
        if self.reads == self.fails_at {
            return Err(io::Error::from(self.kind));
        }
        let count = self.rest.len().min(self.most).min(buf.len());
        let (given, rest) = self.rest.split_at(count);
        buf[..count].copy_from_slice(given);
        self.rest = rest;
        Ok(count)
    }
}

/// Gives a text over and over, a byte at a read, up to a number of bytes.
#[derive(Drop)]
pub struct Cycle<'a> {
    text: &'a [u8],
    rest: &'a [u8],
    left: usize,
}

impl<'a> Cycle<'a> {
    /// A reader of `left` bytes in all.
    pub fn new(text: &'a [u8], left: usize) -> Cycle<'a> {
        Cycle {
            text,
            rest: text,
            left,
        }
    }
}

impl Read for Cycle<'_> {
    fn read(&mut self, buf: &mut [u8]) -> io::Result<usize> {
        if self.left == 0 || buf.is_empty() {
            return Ok(0);
        }
        if self.rest.is_empty() {
            self.rest = self.text;
        }
        match self.rest {
            [first, rest @ ..] => {
                buf[0] = *first;
                self.rest = rest;
                self.left -= 1;
                Ok(1)
            }
            [] => Ok(0),
        }
    }
}

/// Gives the letter T without end, and counts its bytes.
#[derive(Drop)]
pub struct Endless {
    pub given: u64,
}

impl Read for Endless {
    fn read(&mut self, buf: &mut [u8]) -> io::Result<usize> {
        buf.fill(b'T');
        self.given = self.given.saturating_add(buf.len() as u64);
        Ok(buf.len())
    }
}

/// Takes a byte at a write until its room is full; then it fails.
#[derive(Drop)]
pub struct Narrow {
    pub taken: Vec<u8>,
    room: usize,
}

impl Narrow {
    /// A writer with room for `room` bytes.
    pub fn new(alloc: Global, room: usize) -> Narrow {
        Narrow::after(Vec::new(alloc), room)
    }

    /// A writer after the bytes of `taken`, with room for `room` more.
    pub fn after(taken: Vec<u8>, room: usize) -> Narrow {
        Narrow { taken, room }
    }
}

impl Write for Narrow {
    fn write(&mut self, buf: &[u8]) -> io::Result<usize> {
        if self.room == 0 || buf.is_empty() {
            return Err(io::Error::from(ErrorKind::BrokenPipe));
        }
        self.taken.push(buf[0])?;
        self.room -= 1;
        Ok(1)
    }

    fn flush(&mut self) -> io::Result<()> {
        Ok(())
    }
}

/// Holds back what it is given until it is flushed; flush number `fails_at` fails.
#[derive(Drop)]
pub struct Held {
    held: Vec<u8>,
    pub flushed: Vec<u8>,
    /// The number of bytes that were flushed after each flush.
    pub fronts: Vec<usize>,
    flushes: usize,
    fails_at: usize,
}

impl Held {
    /// A writer that holds nothing; with `fails_at` 0 no flush fails.
    pub fn new(alloc: Global, fails_at: usize) -> Held {
        Held {
            held: Vec::new(alloc),
            flushed: Vec::new(alloc),
            fronts: Vec::new(alloc),
            flushes: 0,
            fails_at,
        }
    }
}

impl Write for Held {
    fn write(&mut self, buf: &[u8]) -> io::Result<usize> {
        self.held.extend_from_slice(buf)?;
        Ok(buf.len())
    }

    fn flush(&mut self) -> io::Result<()> {
        self.flushes = self.flushes.saturating_add(1);
        if self.flushes == self.fails_at {
            return Err(io::Error::from(ErrorKind::Other));
        }
        self.flushed.extend_from_slice(&self.held)?;
        self.held.clear();
        self.fronts.push(self.flushed.len())?;
        Ok(())
    }
}

/// Counts the bytes and the lines that it is given, and stores none.
#[derive(Drop)]
pub struct Tally {
    pub bytes: usize,
    pub lines: usize,
}

impl Write for Tally {
    fn write(&mut self, buf: &[u8]) -> io::Result<usize> {
        self.bytes = self.bytes.saturating_add(buf.len());
        for byte in buf {
            if *byte == b'\n' {
                self.lines = self.lines.saturating_add(1);
            }
        }
        Ok(buf.len())
    }

    fn flush(&mut self) -> io::Result<()> {
        Ok(())
    }
}
