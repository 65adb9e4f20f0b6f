//! Why a run stops before its output is written.

ghost use Rattle.std.specs.Prelude.{◌≡◌, None};
ghost use Rattle.json_commands.specs.declared.stop.Stop.TheVariants.{OutOfMemory};
ghost use Rattle.json_commands.specs.Runs.{fault, status_of};

use ordered_json::EditError;
use std::alloc::AllocError;
use std::io::{ErrorKind, Write};
use std::{fmt, io};

/// Why a run stops before its output is written. The texts of commands are counted from 1.
#[derive(Clone, Copy, Debug, Drop, PartialEq)]
pub enum Stop {
    /// The text of this number is no command.
    NoCommand(usize),
    /// The text of this number, or the input if it is 0, has no JSON from this line and column on.
    NoJson(usize, usize, usize),
    /// The command of this number is refused.
    Refused(usize, EditError),
    /// The input, an argument or a file of commands is not UTF-8.
    NotUtf8,
    /// Memory was refused.
    OutOfMemory,
    /// The system gave no random numbers.
    SeedFailed(ErrorKind),
    /// The input, or a file of commands, could not be read to its end.
    InputFailed(ErrorKind),
    /// The output could not be written.
    OutputFailed(ErrorKind),
}

impl Stop {
    /// Returns why a run stops at a failed read of this kind.
    pub fn of_read(kind: ErrorKind) -> Stop
        ensures { fault result ≡ None }
    {
        match kind {
            ErrorKind::OutOfMemory => Stop::OutOfMemory,
            ErrorKind::InvalidData => Stop::NotUtf8,
            _ => Stop::InputFailed(kind),
        }
    }

    /// Returns the exit status of the program.
    pub fn status(&self) -> u8
        ensures { result ≡ status_of self.now }
    {
        match self {
            Stop::Refused(_, _) => 1,
            Stop::OutOfMemory => 3,
            Stop::SeedFailed(_) | Stop::InputFailed(_) | Stop::OutputFailed(_) => 4,
            _ => 2,
        }
    }

    /// Writes a line that says why the run stopped, and at which of these commands or at the input.
    /// A closed pipe is not told.
    pub fn tell<F: Write>(&self, commands: &[String], faults: &mut F) -> io::Result<()> {
        let number = match self {
            Stop::NoCommand(number) => *number,
            Stop::NoJson(number, _, _) => *number,
            Stop::Refused(number, _) => *number,
            Stop::OutputFailed(ErrorKind::BrokenPipe) => return Ok(()),
            _ => return writeln!(faults, "json_edit: {self}"),
        };
        let text = match commands.get(number.wrapping_sub(1)) {
            Some(text) => text.as_str(),
            None => "input",
        };
        let mut words = text.splitn(3, ' ');
        let name = words.next().unwrap_or("");
        match words.next() {
            Some(pointer) if name != "merge" => {
                writeln!(faults, "json_edit: {name} {pointer}: {self}")
            }
            _ => writeln!(faults, "json_edit: {name}: {self}"),
        }
    }
}

impl fmt::Display for Stop {
    fn fmt<W: fmt::Write>(&self, f: &mut fmt::Formatter<W>) -> fmt::Result {
        match self {
            Stop::NoCommand(_) => f.write_str("no command"),
            Stop::NoJson(_, line, column) => {
                write!(f, "no JSON from line {line}, column {column} on")
            }
            Stop::Refused(_, error) => write!(f, "{error}"),
            Stop::NotUtf8 => f.write_str("input or arguments are not UTF-8"),
            Stop::OutOfMemory => f.write_str("out of memory"),
            Stop::SeedFailed(kind) => write!(f, "no random seed: {kind}"),
            Stop::InputFailed(kind) => write!(f, "input failed: {kind}"),
            Stop::OutputFailed(kind) => write!(f, "output failed: {kind}"),
        }
    }
}

impl From<AllocError> for Stop {
    ghost from_gives = { λ _ stop. stop ≡ OutOfMemory };

    fn from(_error: AllocError) -> Stop {
        Stop::OutOfMemory
    }
}
