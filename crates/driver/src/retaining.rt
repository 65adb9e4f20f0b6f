//! Calls that keep the pairs that a closure chooses.

use super::Map;
use super::call::Call;
use super::counts::{Shared, share};
use super::key::Key;
use super::value::Value;
use std::cell::Cell;

/// How often a closure was called, how many keys and values the line had dropped at the last call,
/// and a number that depends on the order of the keys that it was called with.
#[derive(Drop)]
pub struct Calls {
    calls: Cell<u64>,
    dropped: Cell<u64>,
    order: Cell<u64>,
    counts: Shared,
}

impl Calls {
    /// Begins before the first call.
    pub fn new(counts: &Shared) -> Calls {
        Calls {
            calls: Cell::new(0),
            dropped: Cell::new(0),
            order: Cell::new(0),
            counts: share(counts),
        }
    }

    /// Notes a call, and returns its number, 1 for the first.
    pub fn note(&self) -> u64 {
        self.calls.set(self.calls.get().wrapping_add(1));
        if let Some(counts) = &self.counts {
            self.dropped.set(counts.dropped());
        }
        self.calls.get()
    }

    /// Notes a call with a key.
    pub fn note_key(&self, key: &Key) {
        self.note();
        self.order.set(self.order.get().wrapping_mul(31).wrapping_add(key.number()));
    }

    /// Appends the first two numbers.
    pub fn show(&self, call: &Call) {
        call.show_two(&self.calls.get(), &self.dropped.get());
    }

    /// Appends all numbers.
    pub fn show_with_order(&self, call: &Call) {
        self.show(call);
        call.show(&self.order.get());
    }
}

/// Returns whether a value is not a number modulo 7, and then adds to it.
pub fn keep_and_increase(value: &mut Value, number: u64, by: u64) -> bool {
    if value.number() % 7 == number % 7 {
        return false;
    }
    value.increase(by);
    true
}

/// Keeps the pairs whose values are not a number modulo 7, and adds the number of the call to each.
pub fn retain(map: &mut Map, call: &Call) {
    let number = call.number();
    let guard = call.guard();
    let calls = Calls::new(call.counts());
    let noted = &calls;
    map.retain(move |_key, value| {
        guard.hold();
        keep_and_increase(value, number, noted.note())
    });
    calls.show(call);
}
