//! The error of an insertion. By `?` it becomes an `io::Error` of the kind `OutOfMemory` or an
//! `AllocError`, which drops the item.
ghost use Rattle.std.specs.Prelude.{◌≡◌};
ghost use Rattle.std.specs.IoError.{error_kind};
ghost use Rattle.std.specs.declared.io.ErrorKind.TheVariants.{OutOfMemory};

use std::alloc::AllocError;
use std::error::Error;
use std::io::ErrorKind;
use std::{fmt, io};

/// The error of a refused insertion: its item.
///
/// # Examples
///
/// ```rust
/// let mut set = LinkedHashSet::new(rt.alloc());
/// if let Err(refused) = set.insert('x') {
///     assert_eq!(rt; refused.item, 'x');
///     assert!(rt; set.is_empty());
/// }
/// ```
#[derive(Debug, PartialEq, Drop)]
pub struct Refused<T> {
    /// The given item, or the one made.
    pub item: T,
}

impl<T> fmt::Display for Refused<T> {
    fn fmt<W: fmt::Write>(&self, f: &mut fmt::Formatter<W>) -> fmt::Result {
        f.write_str("no memory for another item")
    }
}

impl<T: fmt::Debug + Drop> Error for Refused<T> {}

impl<T: Drop> From<Refused<T>> for io::Error {
    ghost from_gives = { λ _ e. error_kind e ≡ OutOfMemory };

    fn from(_refused: Refused<T>) -> io::Error {
        io::Error::from(ErrorKind::OutOfMemory)
    }
}

impl<T: Drop> From<Refused<T>> for AllocError {
    fn from(_refused: Refused<T>) -> AllocError {
        AllocError
    }
}
