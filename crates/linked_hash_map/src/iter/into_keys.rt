//! The iterator that owns its pairs and yields the keys.
ghost use Rattle.std.specs.Prelude.{◌≡◌, Some, IfSome, length};
ghost use Rattle.std.specs.Iterator.{at_most, UpTo};
ghost use Rattle.std.specs.Iterator.SizeHint.{IsWithinCount};
ghost use Rattle.std.specs.Map.{keys_of};
ghost use Rattle.std.specs.Map.Iter.{TakesFirst, TakesLast};

use super::IntoIter;
use std::iter::FusedIterator;
use std::marker::Model;

/// A fused double-ended iterator that owns the pairs and yields the keys, returned by
/// `into_keys`. Its methods are O(1); `next` and `next_back` drop the values.
///
/// Dropping it drops the pairs left and frees the nodes, in O(capacity).
#[derive(Drop)]
pub struct IntoKeys<K, V> {
    pairs: IntoIter<K, V>,
}

impl<K, V> Model for IntoKeys<K, V> {
    ghost use Rattle.std.specs.Prelude.{List};
    ghost use Rattle.std.specs.Map.{keys_of};

    ghost Value = { List K };

    ghost view = { λ a. keys_of a.pairs };
}

impl<K, V> IntoKeys<K, V> {
    /// Returns an iterator over the keys of the pairs.
    pub(crate) fn new(pairs: IntoIter<K, V>) -> Self
        ensures { result ≡ keys_of pairs }
    {
        IntoKeys { pairs }
    }
}

impl<K: Drop, V: Drop> Iterator for IntoKeys<K, V> {
    type Item = K;

    ghost next_gives = { TakesFirst (λ key. key) };

    ghost remaining = { λ s. at_most (length s) };

    fn next(&mut self) -> Option<K> {
        let (key, _value) = self.pairs.next()?;
        Some(key)
    }

    fn size_hint(&self) -> (usize, Option<usize>)
        ensures lower { IsWithinCount result.0 (at_most (length self.now)) }
        ensures upper { IfSome result.1 (UpTo (at_most (length self.now))) }
        ensures exact { result ≡ (length self.now, Some (length self.now)) }
    {
        self.pairs.size_hint()
    }
}

impl<K: Drop, V: Drop> DoubleEndedIterator for IntoKeys<K, V> {
    ghost next_back_gives = { TakesLast (λ key. key) };

    fn next_back(&mut self) -> Option<K> {
        let (key, _value) = self.pairs.next_back()?;
        Some(key)
    }
}

impl<K: Drop, V: Drop> ExactSizeIterator for IntoKeys<K, V> {
    fn len(&self) -> usize {
        self.pairs.len()
    }
}

impl<K: Drop, V: Drop> FusedIterator for IntoKeys<K, V> {}
