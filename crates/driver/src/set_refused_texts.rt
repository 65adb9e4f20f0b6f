//! The errors of a set, and what they are turned into.

use super::call::Call;
use super::refused_texts::{show_no_room, show_reserve_errors};
use linked_hash_set::Refused;
use std::alloc::AllocError;
use std::io;

/// Appends the text of an error of an item, and what it is turned into.
fn show_refused(call: &Call) {
    let first = Refused { item: call.key() };
    let second = Refused {
        item: first.item.again(),
    };
    let third = Refused {
        item: first.item.again(),
    };
    call.show_text(&first);
    call.begin();
    call.show(&io::Error::from(second).kind());
    call.begin();
    call.show(&AllocError::from(third));
}

/// Appends the texts of all errors, and what they are turned into.
pub fn show_all(call: &Call) {
    show_refused(call);
    show_no_room(call);
    show_reserve_errors(call);
}
