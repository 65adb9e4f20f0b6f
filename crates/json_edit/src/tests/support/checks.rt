//! What a test checks, as calls that hand nothing back: a test made of them has no branch, so its
//! proof is short.
//!
//! Each crate of tests has this file, and the copies are the same. A failure says which expression
//! was checked, what it gave and what was wanted.

use std::fmt::Debug;
use std::process::Abort;

/// Stops unless a value is the one that is wanted.
macro_rules! check_eq {
    ($rt:expr; $got:expr, $wanted:expr $(,)?) => {
        $crate::tests::support::checks::same(&$rt, stringify!($got), $got, $wanted)
    };
}

/// Stops unless a condition holds.
macro_rules! check {
    ($rt:expr; $condition:expr $(,)?) => {
        $crate::tests::support::checks::holds(&$rt, stringify!($condition), $condition)
    };
}

/// Returns the value of an `Ok`, and stops at an `Err`.
macro_rules! given {
    ($rt:expr; $call:expr $(,)?) => {
        $crate::tests::support::checks::value_of(&$rt, stringify!($call), $call)
    };
}

pub(crate) use check;
pub(crate) use check_eq;
pub(crate) use given;

/// Stops unless `got` is `wanted`, and says both.
pub fn same<T: PartialEq + Debug + Drop>(rt: &impl Abort, what: &str, got: T, wanted: T) {
    if got != wanted {
        panic!(rt; "{what}\n   got: {got:?}\nwanted: {wanted:?}");
    }
}

/// Stops unless the condition holds.
pub fn holds(rt: &impl Abort, what: &str, is_so: bool) {
    if !is_so {
        panic!(rt; "{what}\n   got: false\nwanted: true");
    }
}

/// Returns the value of an `Ok`. At an `Err` it stops, and says the error.
pub fn value_of<T, E: Debug + Drop>(rt: &impl Abort, what: &str, outcome: Result<T, E>) -> T {
    match outcome {
        Ok(value) => value,
        Err(error) => panic!(rt; "{what}\n   got: an error, {error:?}\nwanted: a value"),
    }
}
