//! Why a text was not read.
use std::alloc::{AllocError, AllocFailed};
use std::error::Error;
use std::fmt;

/// The error of [`from_str`](crate::from_str).
#[derive(Clone, Copy, Debug, Drop, PartialEq, Eq)]
pub enum ReadError {
    /// The text is no JSON, or nests too deep.
    Invalid {
        /// The line at which that shows, from 1 on.
        line: usize,
        /// The column in it, in bytes, from 1 on.
        column: usize,
    },
    /// An allocation failed.
    NoRoom,
}

impl fmt::Display for ReadError {
    fn fmt<W: fmt::Write>(&self, f: &mut fmt::Formatter<W>) -> fmt::Result {
        match self {
            ReadError::Invalid { line, column } => {
                write!(f, "no JSON from line {line}, column {column} on")
            }
            ReadError::NoRoom => f.write_str("no memory for the value"),
        }
    }
}

impl Error for ReadError {}

/// Why a read ends, before its place is known.
#[derive(Clone, Copy, Drop)]
pub(crate) enum Fault {
    Invalid,
    NoRoom,
}

impl From<json::Invalid> for Fault {
    ghost use Rattle.std.specs.Prelude.{◌≡◌};
    ghost use Rattle.ordered_json.specs.declared.error.Fault.TheVariants.{Invalid};

    ghost from_gives = { λ _ fault. fault ≡ Invalid };

    fn from(_invalid: json::Invalid) -> Fault {
        Fault::Invalid
    }
}

impl From<AllocError> for Fault {
    ghost use Rattle.std.specs.Prelude.{◌≡◌};
    ghost use Rattle.ordered_json.specs.declared.error.Fault.TheVariants.{NoRoom};

    ghost from_gives = { λ _ fault. fault ≡ NoRoom };

    fn from(_refused: AllocError) -> Fault {
        Fault::NoRoom
    }
}

impl<T: Drop> From<AllocFailed<T>> for Fault {
    ghost use Rattle.std.specs.Prelude.{◌≡◌};
    ghost use Rattle.ordered_json.specs.declared.error.Fault.TheVariants.{NoRoom};

    ghost from_gives = { λ _ fault. fault ≡ NoRoom };

    fn from(_refused: AllocFailed<T>) -> Fault {
        Fault::NoRoom
    }
}
