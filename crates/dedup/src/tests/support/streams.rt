//! A reader and a writer over memory that fail when they are told to. Their contracts tell their
//! bytes, so what is proved of `run` holds of it with them.
ghost use Rattle.std.specs.Prelude.{Some, take};

use std::alloc::Global;
use std::io;
use std::io::{ErrorKind, Read, Write};

/// The call at which a reader or a writer that works fails.
pub const NEVER: usize = 0;

/// The calls of a reader or a writer: how many it has had, and which one fails with which error.
#[derive(Drop)]
pub struct Calls {
    pub made: usize,
    pub fails_at: usize,
    pub kind: ErrorKind,
}

impl Calls {
    /// Makes the calls of a reader or a writer that has had none.
    fn new(fails_at: usize) -> Calls {
        Calls {
            made: 0,
            fails_at,
            kind: ErrorKind::Other,
        }
    }

    /// Counts a call, and fails if it is the one that is to fail.
    fn count(&mut self) -> io::Result<()> {
        self.made = self.made.saturating_add(1);
        if self.made == self.fails_at {
            return Err(io::Error::new(self.kind, "refused"));
        }
        Ok(())
    }
}

/// A reader over bytes.
#[derive(Drop)]
pub struct Source<'a> {
    left: &'a [u8],
    pub calls: Calls,
}

impl<'a> Source<'a> {
    /// Creates a reader that fails at a call by an error of a kind.
    pub fn new(bytes: &'a [u8], fails_at: usize, kind: ErrorKind) -> Source<'a> {
        let mut calls = Calls::new(fails_at);
        calls.kind = kind;
        Source { left: bytes, calls }
    }
}

impl Read for Source<'_> {
    ghost remaining = { λ source. Some source.left.now };

    fn read(&mut self, buf: &mut [u8]) -> io::Result<usize> {
        self.calls.count()?;
        let n = self.left.len().min(buf.len());
        buf[..n].copy_from_slice(&self.left[..n]);
        self.left = &self.left[n..];
        Ok(n)
    }
}

/// A writer into a vector. A flush is a call too.
#[derive(Drop)]
pub struct Output {
    pub bytes: Vec<u8>,
    pub calls: Calls,
}

impl Output {
    /// Creates an empty writer that fails at a call by an error of a kind.
    pub fn new(alloc: Global, fails_at: usize, kind: ErrorKind) -> Output {
        let mut calls = Calls::new(fails_at);
        calls.kind = kind;
        Output {
            bytes: Vec::new(alloc),
            calls,
        }
    }
}

impl Write for Output {
    ghost contents = { λ output. Some output.bytes.items };

    fn write(&mut self, buf: &[u8]) -> io::Result<usize> {
        self.calls.count()?;
        if self.bytes.extend_from_slice(buf).is_err() {
            return Err(io::Error::other("no memory"));
        }
        Ok(buf.len())
    }

    fn flush(&mut self) -> io::Result<()> {
        self.calls.count()
    }
}

/// How many bytes a `Sink` has room for.
const ROOM: usize = 64;

/// A writer into a fixed buffer, which asks for no memory.
#[derive(Drop)]
pub struct Sink {
    buffer: [u8; ROOM],
    len: usize,
}

impl Sink {
    /// Creates an empty writer.
    pub fn new() -> Sink {
        Sink {
            buffer: [0; ROOM],
            len: 0,
        }
    }

    /// Returns what was written.
    pub fn bytes(&self) -> &[u8] {
        if self.len > self.buffer.len() {
            return b"more than the buffer";
        }
        &self.buffer[..self.len]
    }
}

impl Write for Sink {
    ghost contents = { λ sink. Some (take sink.len sink.buffer) };

    fn write(&mut self, buf: &[u8]) -> io::Result<usize> {
        if self.len > self.buffer.len() {
            return Err(io::Error::other("refused"));
        }
        let n = (self.buffer.len() - self.len).min(buf.len());
        self.buffer[self.len..self.len + n].copy_from_slice(&buf[..n]);
        self.len += n;
        Ok(n)
    }

    fn flush(&mut self) -> io::Result<()> {
        Ok(())
    }
}
