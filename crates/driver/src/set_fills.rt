//! Many items of consecutive numbers, put into a set.

use super::call::Call;
use super::counts::{Shared, share};
use super::fills::{Fillable, fill_one_by_one};
use super::key::Key;
use super::sets::Set;
use std::alloc::AllocError;
use std::cell::Cell;
use std::ops::Range;

/// The items of a range of numbers, each of which is made when it is taken.
#[derive(Drop)]
struct NumberedItems<'l> {
    numbers: Range<u64>,
    /// The number that was taken last.
    last: &'l Cell<u64>,
    counts: Shared,
}

impl<'l> Iterator for NumberedItems<'l> {
    type Item = Key;

    ghost can_next = { λ items. ⟦<Range<u64> as Iterator>⟧.can_next items.numbers };

    ghost remaining = { λ items. ⟦<Range<u64> as Iterator>⟧.remaining items.numbers };

    fn next(&mut self) -> Option<Key> {
        let number = self.numbers.next()?;
        self.last.set(number);
        Some(Key::decimal(number, &self.counts))
    }

    fn size_hint(&self) -> (usize, Option<usize>) {
        self.numbers.size_hint()
    }
}

/// Inserts an item that a closure makes anew, and returns whether there was memory.
fn put_by_closure(set: &mut Set, item: &Key, call: &Call) -> bool {
    let guard = call.guard();
    let returned = set.get_or_insert_with(item, move |item| {
        drop(guard);
        item.again()
    });
    call.is_given(returned)
}

impl Fillable for Set {
    fn put_number(&mut self, name: &str, number: u64, call: &Call) -> bool {
        let item = Key::decimal(number, call.counts());
        call.begin();
        match name {
            "insert_if_absent" => call.is_given(self.insert_if_absent(item)),
            "replace" => call.is_given(self.replace(item)),
            "get_or_insert" => call.is_given(self.get_or_insert(item)),
            "get_or_insert_with" => put_by_closure(self, &item, call),
            _ => call.is_given(self.insert(item)),
        }
    }
}

/// Takes in the items of the numbers below a count by the call of this name, and returns whether
/// there was memory.
fn take_in(name: &str, items: NumberedItems<'_>, call: &Call, set: &mut Set) -> bool {
    match name {
        "extend" => call.is_given(set.extend(items)),
        "collect" => {
            let made: Result<Set, AllocError> = items.collect(call.alloc);
            call.is_stored(set, made)
        }
        _ => call.is_stored(set, Set::from_iter(call.alloc, items)),
    }
}

/// Takes in the items of the numbers below a count, by one call.
fn fill_at_once(set: &mut Set, count: u64, name: &str, call: &Call) {
    let last = Cell::new(0);
    let items = NumberedItems {
        numbers: 0..count,
        last: &last,
        counts: share(call.counts()),
    };
    let is_given = take_in(name, items, call, set);
    call.show_filled(is_given, count, last.get());
}

/// Fills a set by a call, up to a refusal.
pub fn fill(set: &mut Set, call: &Call) {
    let (count, name) = (call.number(), call.word());
    match name {
        "extend" | "collect" | "from_iter" => fill_at_once(set, count, name, call),
        _ => fill_one_by_one(set, count, name, call),
    }
}
