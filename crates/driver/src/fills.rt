//! Many pairs of consecutive numbers, put in by one call after the other or by one for all.

use super::Map;
use super::call::Call;
use super::counts::{Shared, share};
use super::key::Key;
use super::value::Value;
use linked_hash_map::Entry;
use std::alloc::AllocError;
use std::cell::Cell;
use std::ops::Range;

/// Makes the pair of a number: its decimal text, and itself as the value.
pub fn pair(number: u64, counts: &Shared) -> (Key, Value) {
    let key = Key::decimal(number, counts);
    (key, Value::new(number, counts))
}

/// The pairs of a range of numbers, each of which is made when it is taken.
#[derive(Drop)]
pub struct Numbered<'l> {
    numbers: Range<u64>,
    /// The number that was taken last.
    last: &'l Cell<u64>,
    /// Whether it says how many are left.
    has_hint: bool,
    counts: Shared,
}

impl<'l> Numbered<'l> {
    /// Begins before the pair of 0, with those of the numbers below a count.
    pub fn new(count: u64, last: &'l Cell<u64>, has_hint: bool, counts: &Shared) -> Numbered<'l> {
        Numbered {
            numbers: 0..count,
            last,
            has_hint,
            counts: share(counts),
        }
    }
}

impl<'l> Iterator for Numbered<'l> {
    type Item = (Key, Value);

    ghost can_next = { λ pairs. ⟦<Range<u64> as Iterator>⟧.can_next pairs.numbers };

    ghost remaining = { λ pairs. ⟦<Range<u64> as Iterator>⟧.remaining pairs.numbers };

    fn next(&mut self) -> Option<(Key, Value)> {
        let number = self.numbers.next()?;
        self.last.set(number);
        Some(pair(number, &self.counts))
    }

    fn size_hint(&self) -> (usize, Option<usize>) {
        if self.has_hint {
            self.numbers.size_hint()
        } else {
            (0, None)
        }
    }
}

/// Inserts a pair by the entry of its key, and returns whether there was memory.
fn put_by_vacant(map: &mut Map, key: Key, value: Value, call: &Call) -> bool {
    match map.entry(key) {
        Entry::Occupied(entry) => {
            call.drop_within(entry);
            true
        }
        Entry::Vacant(entry) => call.is_given(entry.insert(value)),
    }
}

/// Inserts a pair whose value a closure hands over, and returns whether there was memory.
fn put_by_closure(map: &mut Map, key: Key, value: Value, call: &Call) -> bool {
    let guard = call.guard();
    let make = move || {
        drop(guard);
        value
    };
    call.is_given(map.entry(key).or_insert_with(make))
}

/// What can be filled one by one.
pub trait Fillable {
    /// Puts in what a number makes, by the call of a name, and returns whether there was memory.
    fn put_number(&mut self, name: &str, number: u64, call: &Call) -> bool;
}

impl Fillable for Map {
    fn put_number(&mut self, name: &str, number: u64, call: &Call) -> bool {
        let key = Key::decimal(number, call.counts());
        if name == "or_default" {
            call.begin();
            return call.is_given(self.entry(key).or_default());
        }
        let value = Value::new(number, call.counts());
        call.begin();
        match name {
            "or_insert" => call.is_given(self.entry(key).or_insert(value)),
            "or_insert_with" => put_by_closure(self, key, value, call),
            "vacant" => put_by_vacant(self, key, value, call),
            _ => call.is_given(self.insert(key, value)),
        }
    }
}

/// Puts in what the numbers below a count make, up to a refusal. Each call is within a window.
pub fn fill_one_by_one<F: Fillable>(filled: &mut F, count: u64, name: &str, call: &Call) {
    for number in 0..count {
        if !filled.put_number(name, number, call) {
            return call.show_refused_number(number);
        }
    }
    call.show(&count);
}

/// Takes in the pairs of an iterator by the call of this name, and returns whether there was
/// memory.
fn take_in(name: &str, items: Numbered<'_>, call: &Call, map: &mut Map) -> bool {
    match name {
        "extend" => call.is_given(map.extend(items)),
        "collect" => {
            let made: Result<Map, AllocError> = items.collect(call.alloc);
            call.is_stored(map, made)
        }
        "from_iter" => call.is_stored(map, Map::from_iter(call.alloc, items)),
        _ => call.is_given(<Map as Extend<(Key, Value)>>::extend(map, items)),
    }
}

/// Takes in the pairs of the numbers below a count, by one call.
fn fill_at_once(map: &mut Map, count: u64, name: &str, call: &Call) {
    let last = Cell::new(0);
    let items = Numbered::new(count, &last, name == "from_iter", call.counts());
    let is_given = take_in(name, items, call, map);
    call.show_filled(is_given, count, last.get());
}

/// Fills a map by a call, up to a refusal.
pub fn fill(map: &mut Map, call: &Call) {
    let (count, name) = (call.number(), call.word());
    match name {
        "extend" | "extend_trait" | "collect" | "from_iter" => {
            fill_at_once(map, count, name, call);
        }
        _ => fill_one_by_one(map, count, name, call),
    }
}
