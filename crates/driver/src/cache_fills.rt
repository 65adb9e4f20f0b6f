//! Many pairs of consecutive numbers, put into a cache.

use super::caches::Cache;
use super::call::Call;
use super::fills::{Fillable, Numbered, fill_one_by_one, pair};
use std::cell::Cell;

impl Fillable for Cache {
    fn put_number(&mut self, name: &str, number: u64, call: &Call) -> bool {
        let (key, value) = pair(number, call.counts());
        call.begin();
        if name == "put" {
            call.is_given(self.put(key, value))
        } else {
            call.is_given(self.insert(key, value))
        }
    }
}

/// Fills a cache by a call, up to a refusal.
pub fn fill(cache: &mut Cache, call: &Call) {
    let (count, name) = (call.number(), call.word());
    if name != "extend" {
        return fill_one_by_one(cache, count, name, call);
    }
    let last = Cell::new(0);
    let items = Numbered::new(count, &last, false, call.counts());
    let is_given = call.is_given(cache.extend(items));
    call.show_filled(is_given, count, last.get());
}
