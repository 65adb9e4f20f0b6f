//! Readers and writers over memory, which move a few bytes at once and fail when they are told to.
//! Their contracts tell their bytes, so what is proved of `run` holds of it with them.
ghost use Rattle.std.specs.Prelude.{Some, ◌<◌, take};

use std::alloc::Global;
use std::io;
use std::io::{ErrorKind, Read, Write};

/// The call at which a reader or a writer that works fails.
pub const NEVER: usize = 0;

/// How many bytes a reader gives at once: fewer than most lines have.
const FEW_READ: usize = 5;

/// How many bytes a writer takes at once: fewer than most lines have.
pub const FEW_WRITTEN: usize = 7;

/// How many bytes the buffer of a `Sink` has.
const BUFFER: usize = 256;

/// The calls of a reader or a writer: how many it has had, and which one fails with which error.
#[derive(Drop)]
pub struct Calls {
    pub made: usize,
    pub fails_at: usize,
    kind: ErrorKind,
}

impl Calls {
    /// Makes the calls of a reader or a writer that has had none.
    fn new(fails_at: usize) -> Calls {
        Calls {
            made: 0,
            fails_at,
            kind: ErrorKind::Other,
        }
    }

    /// Makes a call fail as one that is interrupted.
    pub fn interrupt(&mut self, fails_at: usize) {
        self.fail(fails_at, ErrorKind::Interrupted);
    }

    /// Makes a call fail by an error of a kind. The calls behind it work again.
    pub fn fail(&mut self, fails_at: usize, kind: ErrorKind) {
        self.fails_at = fails_at;
        self.kind = kind;
    }

    /// Counts a call, and fails if it is the one that is to fail.
    fn count(&mut self) -> io::Result<()> {
        self.made = self.made.saturating_add(1);
        if self.made == self.fails_at {
            return Err(io::Error::new(self.kind, "refused"));
        }
        Ok(())
    }
}

/// A reader over bytes that gives at most `most` of them at once.
#[derive(Drop)]
pub struct Source<'a> {
    left: &'a [u8],
    pub most: usize,
    pub calls: Calls,
    ghost some: { 0 < most },
}

impl<'a> Source<'a> {
    /// Creates a reader that gives a few of these bytes at once and never fails.
    pub fn new(bytes: &'a [u8]) -> Source<'a> {
        Source {
            left: bytes,
            most: FEW_READ,
            calls: Calls::new(NEVER),
        }
    }
}

impl Read for Source<'_> {
    ghost remaining = { λ source. Some source.left.now };

    fn read(&mut self, buf: &mut [u8]) -> io::Result<usize> {
        self.calls.count()?;
        let n = self.left.len().min(buf.len()).min(self.most);
        buf[..n].copy_from_slice(&self.left[..n]);
        self.left = &self.left[n..];
        Ok(n)
    }
}

/// A writer into a fixed buffer that takes a few bytes at once. A flush is a call too, and gives on
/// what was written.
#[derive(Drop)]
pub struct Sink {
    buffer: [u8; BUFFER],
    len: usize,
    flushed: usize,
    pub calls: Calls,
}

impl Sink {
    /// Creates an empty writer that never fails.
    pub fn new() -> Sink {
        Sink {
            buffer: [0; BUFFER],
            len: 0,
            flushed: 0,
            calls: Calls::new(NEVER),
        }
    }

    /// Returns what was written and flushed.
    pub fn text(&self) -> &str {
        self.first(self.flushed)
    }

    /// Returns what was written, flushed or not.
    pub fn written(&self) -> &str {
        self.first(self.len)
    }

    /// Returns the first bytes. Bytes that are no text are told by an answer that no run gives.
    fn first(&self, len: usize) -> &str {
        if len > self.buffer.len() {
            return "more than the buffer";
        }
        match str::from_utf8(&self.buffer[..len]) {
            Ok(text) => text,
            Err(_) => "bytes that are no text",
        }
    }
}

impl Write for Sink {
    ghost contents = { λ sink. Some (take sink.len sink.buffer) };

    fn write(&mut self, buf: &[u8]) -> io::Result<usize> {
        self.calls.count()?;
        if self.len > self.buffer.len() {
            return Err(io::Error::other("refused"));
        }
        let n = (self.buffer.len() - self.len)
            .min(buf.len())
            .min(FEW_WRITTEN);
        self.buffer[self.len..self.len + n].copy_from_slice(&buf[..n]);
        self.len += n;
        Ok(n)
    }

    fn flush(&mut self) -> io::Result<()> {
        self.calls.count()?;
        self.flushed = self.len;
        Ok(())
    }
}

/// A writer into a vector that takes at most `most` bytes at once. A flush is a call too.
#[derive(Drop)]
pub struct Output {
    pub bytes: Vec<u8>,
    most: usize,
    pub calls: Calls,
}

impl Output {
    /// Creates an empty writer that fails at a call.
    pub fn new(alloc: Global, most: usize, fails_at: usize) -> Output {
        Output {
            bytes: Vec::new(alloc),
            most,
            calls: Calls::new(fails_at),
        }
    }
}

impl Write for Output {
    ghost contents = { λ output. Some output.bytes.items };

    fn write(&mut self, buf: &[u8]) -> io::Result<usize> {
        self.calls.count()?;
        let n = buf.len().min(self.most);
        if self.bytes.extend_from_slice(&buf[..n]).is_err() {
            return Err(io::Error::other("no memory"));
        }
        Ok(n)
    }

    fn flush(&mut self) -> io::Result<()> {
        self.calls.count()
    }
}
