//! Why a run stops before all of its output is written.
ghost use Rattle.std.specs.Prelude.{◌≡◌, Some};
ghost use Rattle.lhm_commands.specs.declared.stop.Stop.TheVariants.{OutOfMemory};
ghost use Rattle.lhm_commands.specs.Stop.{status_of, stop_text};

use std::alloc::{AllocError, AllocFailed};
use std::error::Error;
use std::fmt;

/// Why a run stops before all of its output is written.
#[derive(Clone, Copy, Debug, PartialEq)]
pub enum Stop {
    /// The number, counted from 1, of the first line that has words and is no command.
    NotACommand(usize),
    /// Memory was refused for the input, the commands, the replies or the output.
    OutOfMemory,
    /// The input could not be read to its end.
    InputFailed,
    /// The output could not be written.
    OutputFailed,
}

impl Stop {
    /// Returns the exit status of the program.
    pub fn status(&self) -> u8
        ensures { result ≡ status_of self.now }
    {
        match self {
            Stop::NotACommand(_) => 2,
            Stop::OutOfMemory => 3,
            Stop::InputFailed => 4,
            Stop::OutputFailed => 4,
        }
    }
}

impl fmt::Display for Stop {
    ghost output = { λ stop. Some (stop_text stop) };

    fn fmt<W: fmt::Write>(&self, f: &mut fmt::Formatter<W>) -> fmt::Result {
        match self {
            Stop::NotACommand(n) => write!(f, "line {n}: not a command"),
            Stop::OutOfMemory => write!(f, "out of memory"),
            Stop::InputFailed => write!(f, "input failed"),
            Stop::OutputFailed => write!(f, "output failed"),
        }
    }
}

impl Error for Stop {}

impl From<AllocError> for Stop {
    ghost from_gives = { λ _ stop. stop ≡ OutOfMemory };

    fn from(_error: AllocError) -> Self {
        Stop::OutOfMemory
    }
}

impl<T: Drop> From<AllocFailed<T>> for Stop {
    ghost from_gives = { λ _ stop. stop ≡ OutOfMemory };

    fn from(_error: AllocFailed<T>) -> Self {
        Stop::OutOfMemory
    }
}
