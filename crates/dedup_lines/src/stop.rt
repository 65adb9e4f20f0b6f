//! Why a run stops before all of its output is written.

ghost use Rattle.std.specs.Prelude.{◌≡◌, ◌≢◌, ◌++◌, OnOk};
ghost use Rattle.std.specs.Io.KnownBytes.{Appends};
ghost use Rattle.dedup_lines.specs.declared.stop.Stop.TheVariants.{OutOfMemory};
ghost use Rattle.dedup_lines.specs.Stop.{status_of, Tells, TellsCause};

use linked_hash_set::Refused;
use std::alloc::AllocError;
use std::io;
use std::io::{ErrorKind, Write};

/// Why a run stops before all of its output is written.
#[derive(Clone, Copy, Debug, PartialEq)]
pub enum Stop {
    /// The arguments are wrong.
    WrongArguments,
    /// Memory was refused for a buffer, a line or the set of lines.
    OutOfMemory,
    /// The system gave no random numbers.
    SeedFailed(ErrorKind),
    /// The input could not be read to its end.
    InputFailed(ErrorKind),
    /// The output could not be written.
    OutputFailed(ErrorKind),
    /// The output is a pipe that nobody reads.
    PipeClosed,
}

impl Stop {
    /// Returns why a run stops at a failed read.
    pub fn of_read(kind: ErrorKind) -> Stop
        ensures memory { kind ≡ ErrorKind.OutOfMemory → result ≡ Stop.OutOfMemory }
        ensures other { kind ≢ ErrorKind.OutOfMemory → result ≡ Stop.InputFailed kind }
    {
        if kind == ErrorKind::OutOfMemory {
            return Stop::OutOfMemory;
        }
        Stop::InputFailed(kind)
    }

    /// Returns why a run stops at a failed write.
    pub fn of_write(kind: ErrorKind) -> Stop
        ensures closed { kind ≡ ErrorKind.BrokenPipe → result ≡ Stop.PipeClosed }
        ensures other { kind ≢ ErrorKind.BrokenPipe → result ≡ Stop.OutputFailed kind }
    {
        if kind == ErrorKind::BrokenPipe {
            return Stop::PipeClosed;
        }
        Stop::OutputFailed(kind)
    }

    /// Returns why the program stops if it gets no random numbers.
    pub fn of_seed(kind: ErrorKind) -> Stop
        ensures memory { kind ≡ ErrorKind.OutOfMemory → result ≡ Stop.OutOfMemory }
        ensures other { kind ≢ ErrorKind.OutOfMemory → result ≡ Stop.SeedFailed kind }
    {
        if kind == ErrorKind::OutOfMemory {
            return Stop::OutOfMemory;
        }
        Stop::SeedFailed(kind)
    }

    /// Returns the exit status of the program.
    pub fn status(&self) -> u8
        ensures { result ≡ status_of self.now }
    {
        match self {
            Stop::WrongArguments => 2,
            Stop::OutOfMemory => 3,
            Stop::SeedFailed(_) => 4,
            Stop::InputFailed(_) => 4,
            Stop::OutputFailed(_) => 4,
            Stop::PipeClosed => 4,
        }
    }

    /// Writes a line that says why the run stopped. At wrong arguments it names this word of them,
    /// and a closed pipe is not told.
    pub fn tell<F: Write>(&self, word: &[u8], faults: &mut F) -> io::Result<()>
        ensures { OnOk result
            (Tells self.now word.now (F.contents faults.old) (F.contents faults.new)) }
    {
        match self {
            Stop::WrongArguments => write_parts(faults, b"dedup: wrong arguments: ", word, USAGE),
            Stop::OutOfMemory => faults.write_all(b"dedup: out of memory\n"),
            Stop::SeedFailed(kind) => tell_cause(faults, b"dedup: no random seed: ", *kind),
            Stop::InputFailed(kind) => tell_cause(faults, b"dedup: input failed: ", *kind),
            Stop::OutputFailed(kind) => tell_cause(faults, b"dedup: output failed: ", *kind),
            Stop::PipeClosed => Ok(()),
        }
    }
}

const USAGE: &[u8] = b"; usage: dedup [--last | --window N | --help] < FILE\n";

/// Writes three slices of bytes, one after the other.
fn write_parts<F: Write>(faults: &mut F, start: &[u8], middle: &[u8], end: &[u8]) -> io::Result<()>
    ensures { OnOk result (Appends (F.contents faults.old) (F.contents faults.new)
        (start.now ++ middle.now ++ end.now)) }
{
    faults.write_all(start)?;
    faults.write_all(middle)?;
    faults.write_all(end)
}

/// Writes the text of a cause. An error that has no kind is that of a closed stream, or rare.
fn write_cause<W: Write>(output: &mut W, kind: ErrorKind) -> io::Result<()> {
    match kind {
        ErrorKind::Uncategorized => output.write_all(b"not open, or an unknown error"),
        _ => write!(output, "{kind}"),
    }
}

/// The room for the text of a cause.
const CAUSE_LEN: usize = 64;

/// Writes a line that begins with these bytes and ends with the text of a cause.
fn tell_cause<F: Write>(faults: &mut F, start: &[u8], kind: ErrorKind) -> io::Result<()>
    ensures { OnOk result
        (TellsCause start.now (F.contents faults.old) (F.contents faults.new)) }
{
    let mut buffer = [0; CAUSE_LEN];
    let mut rest = buffer.as_mut_slice();
    write_cause(&mut rest, kind)?;
    let len = CAUSE_LEN.saturating_sub(rest.len());
    write_parts(faults, start, &buffer[..len], b"\n")
}

impl From<AllocError> for Stop {
    ghost from_gives = { λ _ stop. stop ≡ OutOfMemory };

    fn from(_error: AllocError) -> Stop {
        Stop::OutOfMemory
    }
}

impl<T: Drop> From<Refused<T>> for Stop {
    ghost from_gives = { λ _ stop. stop ≡ OutOfMemory };

    fn from(_refused: Refused<T>) -> Stop {
        Stop::OutOfMemory
    }
}
