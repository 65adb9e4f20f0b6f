//! Draining a map.
ghost use Rattle.std.specs.Prelude.{◌≡◌, Some, IfSome, length, map};
ghost use Rattle.std.specs.Iterator.{at_most, UpTo};
ghost use Rattle.std.specs.Iterator.SizeHint.{IsWithinCount};

use lhm_ring::table;
use std::iter::FusedIterator;

/// A fused double-ended iterator over the pairs removed by `drain`. Its methods are O(1). Dropping
/// it drops the pairs left, in O(n); forgetting it leaks them.
pub struct Drain<'a, K, V> {
    nodes: table::Drain<'a, K, V>,
}

impl<'a, K, V> Drain<'a, K, V> {
    ghost use Rattle.lhm_ring.specs.Drain as ring;
    ghost use Rattle.linked_hash_map.specs.Drains.{drain_rest, drain_name};

    /// Returns an iterator over the pairs of a table.
    pub(crate) fn new(nodes: table::Drain<'a, K, V>) -> Self
        ensures rest { drain_rest result ≡ map (λ t. t.1) (ring.drain_rest nodes.entry) }
        ensures name { drain_name result ≡ ring.drain_name nodes.entry }
    {
        Drain { nodes }
    }
}

/// Drops the pairs left.
impl<'a, K: Drop, V: Drop> Drop for Drain<'a, K, V> {
    fn drop(self) {
        let Drain { nodes } = self;
        drop(nodes);
    }
}

impl<'a, K: Drop, V: Drop> Iterator for Drain<'a, K, V> {
    ghost use Rattle.linked_hash_map.specs.Drains.{drain_rest, DrainSteps};

    type Item = (K, V);

    ghost next_gives = { DrainSteps };

    ghost remaining = { λ d. at_most (length (drain_rest d)) };

    fn next(&mut self) -> Option<(K, V)> {
        match self.nodes.next() {
            Some((_, key, value)) => Some((key, value)),
            None => None,
        }
    }

    fn size_hint(&self) -> (usize, Option<usize>)
        ensures lower { IsWithinCount result.0 (at_most (length (drain_rest self.now))) }
        ensures upper { IfSome result.1 (UpTo (at_most (length (drain_rest self.now)))) }
        ensures exact { result
            ≡ (length (drain_rest self.now), Some (length (drain_rest self.now))) }
    {
        let len = self.len();
        (len, Some(len))
    }
}

impl<'a, K: Drop, V: Drop> DoubleEndedIterator for Drain<'a, K, V> {
    ghost use Rattle.linked_hash_map.specs.Drains.{DrainStepsBack};

    ghost next_back_gives = { DrainStepsBack };

    fn next_back(&mut self) -> Option<(K, V)> {
        match self.nodes.next_back() {
            Some((_, key, value)) => Some((key, value)),
            None => None,
        }
    }
}

impl<'a, K: Drop, V: Drop> ExactSizeIterator for Drain<'a, K, V> {
    fn len(&self) -> usize {
        self.nodes.len()
    }
}

impl<'a, K: Drop, V: Drop> FusedIterator for Drain<'a, K, V> {}
