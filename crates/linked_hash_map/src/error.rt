//! The errors of calls that allocate. By `?` they become an `io::Error` of the kind `OutOfMemory`
//! or an `AllocError`, which drops the key and the value of a refused insertion.
ghost use Rattle.std.specs.Prelude.{◌≡◌};
ghost use Rattle.std.specs.IoError.{error_kind};
ghost use Rattle.std.specs.declared.io.ErrorKind.TheVariants.{OutOfMemory};

use std::alloc::AllocError;
use std::error::Error;
use std::io::ErrorKind;
use std::{fmt, io};

/// The error of a refused insertion: its key and value.
///
/// # Examples
///
/// ```rust
/// let mut map = LinkedHashMap::new(rt.alloc());
/// if let Err(refused) = map.insert('x', 1) {
///     assert_eq!(rt; (refused.key, refused.value), ('x', 1));
///     assert!(rt; map.is_empty());
/// }
/// ```
#[derive(Debug, PartialEq, Drop)]
pub struct Refused<K, V> {
    /// The given key.
    pub key: K,
    /// The given value, or the one made for the key.
    pub value: V,
}

/// The error of a call that reserves capacity.
///
/// # Examples
///
/// ```rust
/// use linked_hash_map::{LIMIT, LinkedHashMap, ReserveError};
///
/// let mut map: LinkedHashMap<char, u64> = LinkedHashMap::new(rt.alloc());
/// assert_eq!(rt; map.reserve(LIMIT + 1), Err(ReserveError::TooLarge));
/// assert_eq!(rt; map.reserve(LIMIT), Err(ReserveError::NoRoom));
/// assert_eq!(rt; map.capacity(), 0);
/// ```
#[derive(Debug, PartialEq, Drop)]
pub enum ReserveError {
    /// The capacity would be above [`LIMIT`](crate::LIMIT).
    TooLarge = 1,
    /// An allocation failed.
    NoRoom = 2,
}

/// The error of `shrink_to_fit` and `sort_by_cached_key`: an allocation failed.
///
/// # Examples
///
/// ```rust
/// use linked_hash_map::NoRoom;
///
/// let mut map = LinkedHashMap::new(rt.alloc());
/// map.insert('x', 1)?;
/// map.reserve(4)?;
/// let shrunk: Result<(), NoRoom> = map.shrink_to_fit();
/// assert_eq!(rt; shrunk, Ok(()));
/// ```
#[derive(Debug, PartialEq, Drop)]
pub struct NoRoom;

impl<K, V> fmt::Display for Refused<K, V> {
    fn fmt<W: fmt::Write>(&self, f: &mut fmt::Formatter<W>) -> fmt::Result {
        f.write_str("no memory for another pair")
    }
}

impl fmt::Display for ReserveError {
    fn fmt<W: fmt::Write>(&self, f: &mut fmt::Formatter<W>) -> fmt::Result {
        f.write_str(match self {
            ReserveError::TooLarge => "the capacity would be above the limit",
            ReserveError::NoRoom => "no memory for the capacity",
        })
    }
}

impl fmt::Display for NoRoom {
    fn fmt<W: fmt::Write>(&self, f: &mut fmt::Formatter<W>) -> fmt::Result {
        f.write_str("no memory for the call")
    }
}

impl<K: fmt::Debug + Drop, V: fmt::Debug + Drop> Error for Refused<K, V> {}

impl Error for ReserveError {}

impl Error for NoRoom {}

impl<K: Drop, V: Drop> From<Refused<K, V>> for io::Error {
    ghost from_gives = { λ _ e. error_kind e ≡ OutOfMemory };

    fn from(_refused: Refused<K, V>) -> io::Error {
        io::Error::from(ErrorKind::OutOfMemory)
    }
}

impl From<ReserveError> for io::Error {
    ghost from_gives = { λ _ e. error_kind e ≡ OutOfMemory };

    fn from(_error: ReserveError) -> io::Error {
        io::Error::from(ErrorKind::OutOfMemory)
    }
}

impl From<NoRoom> for io::Error {
    ghost from_gives = { λ _ e. error_kind e ≡ OutOfMemory };

    fn from(_error: NoRoom) -> io::Error {
        io::Error::from(ErrorKind::OutOfMemory)
    }
}

impl<K: Drop, V: Drop> From<Refused<K, V>> for AllocError {
    fn from(_refused: Refused<K, V>) -> AllocError {
        AllocError
    }
}

impl From<ReserveError> for AllocError {
    fn from(_error: ReserveError) -> AllocError {
        AllocError
    }
}

impl From<NoRoom> for AllocError {
    fn from(_error: NoRoom) -> AllocError {
        AllocError
    }
}
