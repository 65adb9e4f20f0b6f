//! The iterator that owns its pairs.
ghost use Rattle.std.specs.Prelude.{◌≡◌, Some, IfSome, length, map};
ghost use Rattle.std.specs.Iterator.{at_most, UpTo};
ghost use Rattle.std.specs.Iterator.SizeHint.{IsWithinCount};
ghost use Rattle.std.specs.List.{AllZip};
ghost use Rattle.std.specs.Map.Iter.{TakesFirst, TakesLast};

use crate::map::LinkedHashMap;
use lhm_ring::table;
use std::alloc::AllocError;
use std::hash::{BuildHasher, Hash};
use std::iter::FusedIterator;
use std::marker::Model;

/// A fused double-ended iterator that owns the pairs, returned by `into_iter` or a loop over a map.
///
/// Except for `clone`, its methods are O(1). Dropping it drops the pairs left and frees the nodes,
/// in O(capacity).
///
/// # Examples
///
/// ```rust
/// let mut map = LinkedHashMap::new(rt.alloc());
/// map.extend([('x', 1), ('y', 2)])?;
/// let mut pairs = map.into_iter();
/// assert_eq!(rt; pairs.next_back(), Some(('y', 2)));
/// let mut rest = pairs.clone()?;
/// assert_eq!(rt; rest.next(), Some(('x', 1)));
/// assert_eq!(rt; (pairs.len(), rest.len()), (1, 0));
/// ```
#[derive(Drop)]
pub struct IntoIter<K, V> {
    nodes: table::IntoIter<K, V>,
}

impl<K, V> Model for IntoIter<K, V> {
    ghost use Rattle.std.specs.Prelude.{List, map};

    ghost Value = { List (K × V) };

    ghost view = { λ a. map (λ t. t.1) a.nodes };
}

impl<K, V> IntoIter<K, V> {
    /// Returns an iterator over the pairs of a table.
    pub(crate) fn new(nodes: table::IntoIter<K, V>) -> Self
        ensures { result ≡ map (λ t. t.1) nodes }
    {
        IntoIter { nodes }
    }
}

impl<K: Drop, V: Drop> Iterator for IntoIter<K, V> {
    type Item = (K, V);

    ghost next_gives = { TakesFirst (λ pair. pair) };

    ghost remaining = { λ s. at_most (length s) };

    fn next(&mut self) -> Option<(K, V)> {
        match self.nodes.next() {
            Some((_, key, value)) => Some((key, value)),
            None => None,
        }
    }

    fn size_hint(&self) -> (usize, Option<usize>)
        ensures lower { IsWithinCount result.0 (at_most (length self.now)) }
        ensures upper { IfSome result.1 (UpTo (at_most (length self.now))) }
        ensures exact { result ≡ (length self.now, Some (length self.now)) }
    {
        let len = self.len();
        (len, Some(len))
    }
}

impl<K: Drop, V: Drop> DoubleEndedIterator for IntoIter<K, V> {
    ghost next_back_gives = { TakesLast (λ pair. pair) };

    fn next_back(&mut self) -> Option<(K, V)> {
        match self.nodes.next_back() {
            Some((_, key, value)) => Some((key, value)),
            None => None,
        }
    }
}

impl<K: Drop, V: Drop> ExactSizeIterator for IntoIter<K, V> {
    fn len(&self) -> usize {
        self.nodes.len()
    }
}

impl<K: Drop, V: Drop> FusedIterator for IntoIter<K, V> {}

/// Clones the pairs left, in O(n), hashing no key. Returns an error if an allocation or a clone
/// fails, and never if no pair is left.
impl<K: Clone, V: Clone> Clone for IntoIter<K, V> {
    ghost use Rattle.std.specs.Prelude.{[]};

    ghost is_clone = { AllZip (λ pair clone.
        K.is_clone pair.0 clone.0 × V.is_clone pair.1 clone.1) };

    ghost is_infallible = { λ s. s ≡ [] };

    fn clone(&self) -> Result<Self, AllocError> {
        Ok(IntoIter {
            nodes: self.nodes.clone()?,
        })
    }
}

/// A loop over the map, which drops the hasher and frees the buckets, in O(capacity).
///
/// # Examples
///
/// ```rust
/// let mut map = LinkedHashMap::new(rt.alloc());
/// map.extend([('x', 1), ('y', 2)])?;
/// let mut last = None;
/// for pair in map {
///     last = Some(pair);
/// }
/// assert_eq!(rt; last, Some(('y', 2)));
/// ```
impl<K: Eq + Hash + Drop, V: Drop, S: BuildHasher + Drop> IntoIterator for LinkedHashMap<K, V, S> {
    ghost use Rattle.std.specs.Map.Iter.{GivesInOrder, GivesInReverse};
    ghost use Rattle.linked_hash_map.specs.Validity.{IsValid};

    type Item = (K, V);

    type IntoIter = IntoIter<K, V>;

    // Its last two parts are laws of iterators, for the proofs of callers.
    ghost into_iter_gives = { λ map iter.
        (iter ≡ map.pairs) × IsValid K.eq map × GivesInOrder (K × V) × GivesInReverse (K × V) };

    fn into_iter(self) -> IntoIter<K, V> {
        self.into_pairs()
    }
}
