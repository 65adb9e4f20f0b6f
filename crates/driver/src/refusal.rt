//! The answer of a call that was refused memory: what it hands back.

use super::call::Call;
use super::key::Key;
use super::value::Value;
use linked_hash_map::{NoRoom, Refused, ReserveError};
use std::alloc::AllocError;

/// The error of a call that was refused memory.
pub trait Refusal {
    /// Appends what it hands back, with its serial numbers.
    fn show(&self, call: &Call);
}

impl Refusal for Refused<Key, Value> {
    fn show(&self, call: &Call) {
        call.show_refused_pair(&self.key, &self.value);
    }
}

impl Refusal for Refused<u64, u64> {
    fn show(&self, call: &Call) {
        call.push_str("refused ");
    }
}

impl Refusal for linked_hash_set::Refused<Key> {
    fn show(&self, call: &Call) {
        call.push_str("refused ");
        call.show_numbered(&self.item, self.item.serial());
    }
}

impl Refusal for linked_hash_set::Refused<u64> {
    fn show(&self, call: &Call) {
        call.push_str("refused ");
    }
}

/// Says which of the two reasons it is.
impl Refusal for ReserveError {
    fn show(&self, call: &Call) {
        call.push_str("refused ");
        call.show(self);
    }
}

impl Refusal for NoRoom {
    fn show(&self, call: &Call) {
        call.push_str("refused ");
        call.show(self);
    }
}

impl Refusal for AllocError {
    fn show(&self, call: &Call) {
        call.push_str("refused ");
    }
}
