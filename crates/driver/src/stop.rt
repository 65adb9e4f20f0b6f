//! Why the program stops before all of its output is written.

use std::io;
use std::io::ErrorKind;

/// Why the program stops.
#[derive(Clone, Copy, Debug)]
pub enum Stop {
    /// Memory was refused.
    OutOfMemory,
    /// The input is no text, or reading or writing failed.
    InputOrOutputFailed,
}

impl Stop {
    /// Returns the exit status.
    pub fn status(self) -> u8 {
        match self {
            Stop::OutOfMemory => 3,
            Stop::InputOrOutputFailed => 4,
        }
    }
}

impl From<io::Error> for Stop {
    fn from(error: io::Error) -> Stop {
        if error.kind() == ErrorKind::OutOfMemory {
            Stop::OutOfMemory
        } else {
            Stop::InputOrOutputFailed
        }
    }
}
