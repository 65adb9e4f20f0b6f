//! The errors of a map, and what they are turned into.

use super::call::Call;
use super::counts::Shared;
use super::key::Key;
use super::value::Value;
use linked_hash_map::{NoRoom, Refused, ReserveError};
use std::alloc::AllocError;
use std::io;

/// A pair that was handed back.
type Pair = Refused<Key, Value>;

/// Makes the error of a pair of the same words.
fn again(refused: &Pair, counts: &Shared) -> Pair {
    let key = refused.key.again();
    Refused {
        key,
        value: Value::new(refused.value.number(), counts),
    }
}

/// Appends the text of an error of a pair, and what it is turned into.
fn show_refused(call: &Call) {
    let first = Refused {
        key: call.key(),
        value: call.value(),
    };
    let second = again(&first, call.counts());
    let third = again(&first, call.counts());
    call.show_text(&first);
    call.begin();
    call.show(&io::Error::from(second).kind());
    call.begin();
    call.show(&AllocError::from(third));
}

/// Appends the text of an error of a reservation, and what it is turned into.
pub fn show_reserve_errors(call: &Call) {
    call.show_text(&ReserveError::TooLarge);
    call.show(&io::Error::from(ReserveError::TooLarge).kind());
    call.show(&AllocError::from(ReserveError::TooLarge));
    call.show_text(&ReserveError::NoRoom);
    call.show(&io::Error::from(ReserveError::NoRoom).kind());
    call.show(&AllocError::from(ReserveError::NoRoom));
}

/// Appends the text of the error of a shrinking, and what it is turned into.
pub fn show_no_room(call: &Call) {
    call.show_text(&NoRoom);
    call.show(&io::Error::from(NoRoom).kind());
    call.show(&AllocError::from(NoRoom));
}

/// Appends the texts of all errors of a map, and what they are turned into.
pub fn show_all(call: &Call) {
    show_refused(call);
    show_no_room(call);
    show_reserve_errors(call);
}
