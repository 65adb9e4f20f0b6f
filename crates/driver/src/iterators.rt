//! Iterators and loops over the pairs.

use super::Map;
use super::call::Call;
use super::iterators_from::advance_if_present;
use super::key::Key;
use super::making::take;
use super::value::Value;
use linked_hash_map::{IterMut, ValuesMut};
use std::fmt::Debug;
use std::mem;

/// Returns the next item, from the back at a `b`.
fn step<T, I: DoubleEndedIterator<Item = T>>(items: &mut I, letter: u8) -> Option<T>
    requires { (items : I) → I.can_next items × I.can_next_back items }
{
    if letter == b'b' {
        items.next_back()
    } else {
        items.next()
    }
}

/// Makes a step for each letter, and appends what each gives and how much is left. Each step is
/// within a window.
pub fn iterate<T: Debug + Drop, I: DoubleEndedIterator<Item = T> + ExactSizeIterator>(
    items: &mut I,
    steps: &str,
    call: &Call,
)
    requires { (items : I) → I.can_next items × I.can_next_back items }
{
    for letter in steps.bytes() {
        call.begin();
        call.show(&step(items, letter));
        call.show_two(&items.size_hint(), &items.len());
    }
}

/// Iterates, and drops the iterator within a window.
pub fn iterate_and_drop<
    T: Debug + Drop,
    I: DoubleEndedIterator<Item = T> + ExactSizeIterator + Drop,
>(items: I, steps: &str, call: &Call)
    requires { (items : I) → I.can_next items × I.can_next_back items }
{
    let mut items = items;
    iterate(&mut items, steps, call);
    call.drop_within(items);
}

/// Iterates, clones the iterator, and iterates by the clone and then by the iterator itself.
pub fn iterate_and_clone<
    T: Debug + Drop,
    I: DoubleEndedIterator<Item = T> + ExactSizeIterator + Clone + Drop,
>(items: I, call: &Call)
    requires { (items : I) → I.can_next items × I.can_next_back items }
{
    let mut items = items;
    iterate(&mut items, call.word(), call);
    let steps = call.word();
    call.begin();
    match items.clone() {
        Ok(copy) => iterate_and_drop(copy, steps, call),
        Err(refused) => call.show_refused(refused),
    }
    call.push_str("/ ");
    iterate_and_drop(items, steps, call);
}

/// Appends a pair, and writes its value.
fn write_pair(key: &Key, lent: &mut Value, value: Value, call: &Call) {
    call.show_pair(key, lent);
    call.replace(lent, value);
}

/// Iterates by what `iter_mut` returns, and writes each value that is lent.
pub fn iterate_and_write(pairs: IterMut<'_, Key, Value>, call: &Call) {
    let mut pairs = pairs;
    let steps = call.word();
    let mut values = call.values();
    for letter in steps.bytes() {
        call.begin();
        match step(&mut pairs, letter) {
            Some((key, lent)) => write_pair(key, lent, values.take(), call),
            None => call.push_str("end "),
        }
        call.show_two(&pairs.size_hint(), &pairs.len());
    }
    call.drop_within(pairs);
}

/// Appends a value, and writes it.
fn write_value(lent: &mut Value, value: Value, call: &Call) {
    call.show(lent);
    call.replace(lent, value);
}

/// Iterates by what `values_mut` returns, and writes each value that is lent.
fn iterate_values_and_write(lent_values: ValuesMut<'_, Key, Value>, call: &Call) {
    let mut lent_values = lent_values;
    let steps = call.word();
    let mut values = call.values();
    for letter in steps.bytes() {
        call.begin();
        match step(&mut lent_values, letter) {
            Some(lent) => write_value(lent, values.take(), call),
            None => call.push_str("end "),
        }
        call.show_two(&lent_values.size_hint(), &lent_values.len());
    }
    call.drop_within(lent_values);
}

/// Adds a number to every value in place, in a loop over the map.
fn add(map: &mut Map, number: u64) {
    for (_key, value) in map {
        value.increase(number);
    }
}

/// Appends every pair, in a loop over the map. Each step is within a window.
fn show_all(map: &Map, call: &Call) {
    for (key, value) in map {
        call.show_pair(key, value);
        call.begin();
    }
}

/// Iterates, and drops or forgets the iterator.
pub fn iterate_to_the_end<
    T: Debug + Drop,
    I: DoubleEndedIterator<Item = T> + ExactSizeIterator + Drop,
>(items: I, call: &Call)
    requires { (items : I) → I.can_next items × I.can_next_back items }
{
    let mut items = items;
    iterate(&mut items, call.word(), call);
    if call.word() == "forget" {
        mem::forget(items);
    } else {
        call.drop_within(items);
    }
}

/// Runs the call of a line that only reads a map, and returns whether there is one.
pub fn run(call: &Call, map: &Map) -> bool {
    match call.name() {
        "iter" => iterate_and_clone(map.iter(), call),
        "keys" => iterate_and_clone(map.keys(), call),
        "values" => iterate_and_clone(map.values(), call),
        "loop" => show_all(map, call),
        "iter_from" => {
            let key = call.key();
            advance_if_present(map.iter_from(&key), call);
        }
        "iter_back_from" => {
            let key = call.key();
            advance_if_present(map.iter_back_from(&key), call);
        }
        _ => return false,
    }
    true
}

/// Runs the call of a line that takes or lends the pairs, and returns whether there is one.
pub fn run_to_take(call: &Call, map: &mut Map) -> bool {
    match call.name() {
        "iter_mut" => iterate_and_write(map.iter_mut(), call),
        "values_mut" => iterate_values_and_write(map.values_mut(), call),
        "drain" => iterate_to_the_end(map.drain(), call),
        "loop_mut" => add(map, call.number()),
        "into_iter" => iterate_and_clone(take(call, map).into_iter(), call),
        "into_iter_forget" => {
            let mut pairs = take(call, map).into_iter();
            iterate(&mut pairs, call.word(), call);
            mem::forget(pairs);
        }
        "into_keys" => iterate_to_the_end(take(call, map).into_keys(), call),
        "into_values" => iterate_to_the_end(take(call, map).into_values(), call),
        _ => return false,
    }
    true
}
