//! Draining a set.
ghost use Rattle.std.specs.Prelude.{◌≡◌, Some, IfSome, length};
ghost use Rattle.std.specs.Iterator.{at_most, UpTo};
ghost use Rattle.std.specs.Iterator.SizeHint.{IsWithinCount};
ghost use Rattle.std.specs.Map.{keys_of};

use linked_hash_map as map;
use std::iter::FusedIterator;

/// A fused double-ended iterator over the items removed by `drain`. Its methods are O(1). Dropping
/// it drops the items left, in O(n); forgetting it leaks them.
pub struct Drain<'a, T> {
    pairs: map::Drain<'a, T, ()>,
}

impl<'a, T> Drain<'a, T> {
    ghost use Rattle.linked_hash_map.specs.Drains as of_map;
    ghost use Rattle.linked_hash_set.specs.Drains.{drain_rest, drain_name, DrainSteps, DrainStepsBack, DrainKeepsAlong};
    ghost use Rattle.std.specs.Iterator.Runs.{YieldsInOrder, YieldsInReverse};

    /// Returns an iterator over the keys of the pairs.
    pub(crate) fn new(pairs: map::Drain<'a, T, ()>) -> Self
        ensures rest { drain_rest result ≡ keys_of (of_map.drain_rest pairs.entry) }
        ensures name { drain_name result ≡ of_map.drain_name pairs.entry }
        ensures runs { YieldsInOrder (DrainSteps {T = T}) drain_rest }
        ensures runs_back { YieldsInReverse (DrainStepsBack {T = T}) drain_rest }
        ensures stays { DrainKeepsAlong DrainSteps result }
        ensures stays_back { DrainKeepsAlong DrainStepsBack result }
    {
        Drain { pairs }
    }
}

/// Drops the items left.
impl<'a, T: Drop> Drop for Drain<'a, T> {
    fn drop(self) {
        let Drain { pairs } = self;
        drop(pairs);
    }
}

impl<'a, T: Drop> Iterator for Drain<'a, T> {
    ghost use Rattle.linked_hash_set.specs.Drains.{drain_rest, DrainSteps};

    type Item = T;

    ghost next_gives = { DrainSteps };

    ghost remaining = { λ d. at_most (length (drain_rest d)) };

    fn next(&mut self) -> Option<T> {
        match self.pairs.next() {
            Some((item, _unit)) => Some(item),
            None => None,
        }
    }

    fn size_hint(&self) -> (usize, Option<usize>)
        ensures lower { IsWithinCount result.0 (at_most (length (drain_rest self.now))) }
        ensures upper { IfSome result.1 (UpTo (at_most (length (drain_rest self.now)))) }
        ensures exact { result
            ≡ (length (drain_rest self.now), Some (length (drain_rest self.now))) }
    {
        self.pairs.size_hint()
    }
}

impl<'a, T: Drop> DoubleEndedIterator for Drain<'a, T> {
    ghost use Rattle.linked_hash_set.specs.Drains.{DrainStepsBack};

    ghost next_back_gives = { DrainStepsBack };

    fn next_back(&mut self) -> Option<T> {
        match self.pairs.next_back() {
            Some((item, _unit)) => Some(item),
            None => None,
        }
    }
}

impl<'a, T: Drop> ExactSizeIterator for Drain<'a, T> {
    fn len(&self) -> usize {
        self.pairs.len()
    }
}

impl<'a, T: Drop> FusedIterator for Drain<'a, T> {}
