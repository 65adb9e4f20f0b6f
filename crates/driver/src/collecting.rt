//! Calls that take in the pairs of an iterator, or make a map of them.

use super::Map;
use super::call::Call;
use super::counts::share;
use super::fills::pair;
use super::key::Key;
use super::value::Value;
use linked_hash_map::{Iter, LIMIT};
use std::alloc::AllocError;

/// Makes a map of the pairs of the words, by an iterator that knows how many they are.
fn from_iter(call: &Call, map: &mut Map) {
    let words = call.words_left();
    let items = (0..words / 2 + words % 2).map(|_| (call.key(), call.value()));
    call.store(map, Map::from_iter(call.alloc, items));
}

/// Makes a map of more pairs than are allowed, of which none is taken.
fn from_iter_too_large(call: &Call, map: &mut Map) {
    let guard = call.guard();
    let counts = share(call.counts());
    let items = (0..LIMIT + 1).map(move |number| {
        guard.hold();
        pair(number as u64, &counts)
    });
    call.store(map, Map::from_iter(call.alloc, items));
}

/// Makes a map of the pairs of the words by `collect`.
fn collect(call: &Call, map: &mut Map) {
    let made: Result<Map, AllocError> = call.pairs().collect(call.alloc);
    call.store(map, made);
}

/// Copies of the pairs of a map.
#[derive(Drop)]
struct Copies<'m> {
    pairs: Iter<'m, Key, Value>,
}

impl<'m> Iterator for Copies<'m> {
    type Item = (Key, Value);

    ghost can_next = { λ copies. ⟦<Iter<'m, Key, Value> as Iterator>⟧.can_next copies.pairs };

    ghost remaining = { λ copies. ⟦<Iter<'m, Key, Value> as Iterator>⟧.remaining copies.pairs };

    fn next(&mut self) -> Option<(Key, Value)> {
        let (key, value) = self.pairs.next()?;
        Some((key.copy(), value.copy()))
    }
}

/// Runs the call of a line, and returns whether there is one.
pub fn run(call: &Call, map: &mut Map, other: &mut Map) -> bool {
    match call.name() {
        "extend" => call.show_refusal(map.extend(call.pairs())),
        "extend_trait" => {
            call.show_refusal(<Map as Extend<(Key, Value)>>::extend(map, call.pairs()));
        }
        "extend_refs" => {
            let pairs = other.iter();
            call.show_refusal(map.extend(Copies { pairs }));
        }
        "extend_drain" => call.show_refusal(map.extend(other.drain())),
        "append" => call.show_refusal(map.append(other)),
        "from_iter" => from_iter(call, map),
        "from_iter_unhinted" => call.store(map, Map::from_iter(call.alloc, call.pairs())),
        "from_iter_too_large" => from_iter_too_large(call, map),
        "collect" => collect(call, map),
        _ => return false,
    }
    call.show(map.hasher());
    true
}
