//! Calls of two sets.
ghost use Rattle.std.specs.Iterator.{IsFinite};

use super::call::Call;
use super::comparisons::show_equal;
use super::hasher::BuildKeyHasher;
use super::iterators_from::advance_and_clone;
use super::sets::Set;
use std::fmt::Debug;
use std::hash::BuildHasher;

/// Appends all items, or makes the steps of the words, if there are any.
fn iterate<T: Debug + Drop, I: Iterator<Item = T> + Clone + Drop>(items: I, call: &Call)
    requires can { (items : I) → I.can_next items }
    requires ends { IsFinite (I.remaining items) }
{
    let first = call.word();
    if first.is_empty() {
        call.show_all(items);
    } else {
        advance_and_clone(items, first, false, call);
    }
}

/// Runs the call of a line, and returns whether there is one.
pub fn run(call: &Call, set: &Set, other: &Set) -> bool {
    match call.name() {
        "difference" => iterate(set.difference(other), call),
        "symmetric_difference" => iterate(set.symmetric_difference(other), call),
        "intersection" => iterate(set.intersection(other), call),
        "union" => iterate(set.union(other), call),
        "is_subset" => call.show(&set.is_subset(other)),
        "is_superset" => call.show(&set.is_superset(other)),
        "is_disjoint" => call.show(&set.is_disjoint(other)),
        "eq" => show_equal(set, other, call),
        "hash" => call.show(&BuildKeyHasher::default().hash_one(set)),
        _ => return false,
    }
    true
}
