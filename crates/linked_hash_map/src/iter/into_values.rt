//! The iterator that owns its pairs and yields the values.
ghost use Rattle.std.specs.Prelude.{◌≡◌, Some, IfSome, length};
ghost use Rattle.std.specs.Iterator.{at_most, UpTo};
ghost use Rattle.std.specs.Iterator.SizeHint.{IsWithinCount};
ghost use Rattle.std.specs.Map.{values_of};
ghost use Rattle.std.specs.Map.Iter.{TakesFirst, TakesLast};

use super::IntoIter;
use std::iter::FusedIterator;
use std::marker::Model;

/// A fused double-ended iterator that owns the pairs and yields the values, returned by
/// `into_values`. Its methods are O(1); `next` and `next_back` drop the keys.
///
/// Dropping it drops the pairs left and frees the nodes, in O(capacity).
#[derive(Drop)]
pub struct IntoValues<K, V> {
    pairs: IntoIter<K, V>,
}

impl<K, V> Model for IntoValues<K, V> {
    ghost use Rattle.std.specs.Prelude.{List};
    ghost use Rattle.std.specs.Map.{values_of};

    ghost Value = { List V };

    ghost view = { λ a. values_of a.pairs };
}

impl<K, V> IntoValues<K, V> {
    /// Returns an iterator over the values of the pairs.
    pub(crate) fn new(pairs: IntoIter<K, V>) -> Self
        ensures { result ≡ values_of pairs }
    {
        IntoValues { pairs }
    }
}

impl<K: Drop, V: Drop> Iterator for IntoValues<K, V> {
    type Item = V;

    ghost next_gives = { TakesFirst (λ value. value) };

    ghost remaining = { λ s. at_most (length s) };

    fn next(&mut self) -> Option<V> {
        let (_key, value) = self.pairs.next()?;
        Some(value)
    }

    fn size_hint(&self) -> (usize, Option<usize>)
        ensures lower { IsWithinCount result.0 (at_most (length self.now)) }
        ensures upper { IfSome result.1 (UpTo (at_most (length self.now))) }
        ensures exact { result ≡ (length self.now, Some (length self.now)) }
    {
        self.pairs.size_hint()
    }
}

impl<K: Drop, V: Drop> DoubleEndedIterator for IntoValues<K, V> {
    ghost next_back_gives = { TakesLast (λ value. value) };

    fn next_back(&mut self) -> Option<V> {
        let (_key, value) = self.pairs.next_back()?;
        Some(value)
    }
}

impl<K: Drop, V: Drop> ExactSizeIterator for IntoValues<K, V> {
    fn len(&self) -> usize {
        self.pairs.len()
    }
}

impl<K: Drop, V: Drop> FusedIterator for IntoValues<K, V> {}
