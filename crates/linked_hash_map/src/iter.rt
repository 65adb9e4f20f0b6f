//! The double-ended iterators over a map. A contract sees one as the list of items left.
ghost use Rattle.std.specs.Prelude.{◌≡◌, Some, IfSome, length, ⊤};
ghost use Rattle.std.specs.Iterator.{at_most, UpTo};
ghost use Rattle.std.specs.Iterator.SizeHint.{IsWithinCount};
ghost use Rattle.std.specs.Map.Iter.{TakesFirst, TakesLast, deref_pair};

use crate::map::LinkedHashMap;
use lhm_ring::table;
use lhm_ring::table::Table;
use std::alloc::AllocError;
use std::hash::{BuildHasher, Hash};
use std::iter::FusedIterator;
use std::marker::Model;

mod into_iter;
mod into_keys;
mod into_values;
mod iter_from;
mod iter_mut;
mod keys;
mod values;
mod values_mut;

pub use into_iter::IntoIter;
pub use into_keys::IntoKeys;
pub use into_values::IntoValues;
pub use iter_from::{IterBackFrom, IterFrom};
pub use iter_mut::IterMut;
pub use keys::Keys;
pub use values::Values;
pub use values_mut::ValuesMut;

/// A fused double-ended iterator over the pairs, returned by `iter` or a loop over `&map`. Its
/// methods are O(1).
#[derive(Drop)]
pub struct Iter<'a, K, V> {
    nodes: table::Iter<'a, K, V>,
}

impl<'a, K, V> Model for Iter<'a, K, V> {
    ghost use Rattle.std.specs.Prelude.{List};
    ghost use Rattle.linked_hash_map.specs.Nodes.{pairs_of};

    ghost Value = { List (K × V) };

    ghost view = { λ a. pairs_of a.nodes };
}

impl<'a, K, V> Iter<'a, K, V> {
    ghost use Rattle.linked_hash_map.specs.Nodes.{pairs_of};

    /// Returns an iterator over a table.
    pub(crate) fn new(table: &'a Table<K, V>) -> Self
        ensures { result ≡ pairs_of table.now.held }
    {
        Iter {
            nodes: table.iter(),
        }
    }
}

impl<'a, K, V> Iterator for Iter<'a, K, V> {
    type Item = (&'a K, &'a V);

    ghost next_gives = { TakesFirst deref_pair };

    ghost remaining = { λ s. at_most (length s) };

    fn next(&mut self) -> Option<(&'a K, &'a V)> {
        match self.nodes.next() {
            Some((_, key, value)) => Some((key, value)),
            None => None,
        }
    }

    fn size_hint(&self) -> (usize, Option<usize>)
        ensures lower { IsWithinCount result.0 (at_most (length self.now)) }
        ensures upper { IfSome result.1 (UpTo (at_most (length self.now))) }
        ensures exact { result ≡ (length self.now, Some (length self.now)) }
    {
        let len = self.len();
        (len, Some(len))
    }
}

impl<'a, K, V> DoubleEndedIterator for Iter<'a, K, V> {
    ghost next_back_gives = { TakesLast deref_pair };

    fn next_back(&mut self) -> Option<(&'a K, &'a V)> {
        match self.nodes.next_back() {
            Some((_, key, value)) => Some((key, value)),
            None => None,
        }
    }
}

impl<'a, K, V> ExactSizeIterator for Iter<'a, K, V> {
    fn len(&self) -> usize {
        self.nodes.len()
    }
}

impl<'a, K, V> FusedIterator for Iter<'a, K, V> {}

/// Clones the iterator, without failing or allocating.
impl<'a, K, V> Clone for Iter<'a, K, V> {
    ghost is_clone = { λ s t. t ≡ s };

    ghost is_infallible = { λ _. ⊤ };

    fn clone(&self) -> Result<Self, AllocError> {
        Ok(Iter {
            nodes: self.nodes.clone()?,
        })
    }
}

/// A loop over `&map`, as over `iter`.
///
/// # Examples
///
/// ```rust
/// let mut map = LinkedHashMap::new(rt.alloc());
/// map.extend([('x', 1), ('y', 2)])?;
/// let mut last = None;
/// for (key, value) in &map {
///     last = Some((*key, *value));
/// }
/// assert_eq!(rt; last, Some(('y', 2)));
/// ```
impl<'a, K: Eq + Hash, V, S: BuildHasher> IntoIterator for &'a LinkedHashMap<K, V, S> {
    ghost use Rattle.std.specs.Map.Iter.{ShowsInOrder, ShowsInReverse};
    ghost use Rattle.linked_hash_map.specs.Validity.{IsValid};

    type Item = (&'a K, &'a V);

    type IntoIter = Iter<'a, K, V>;

    // Its last two parts are laws of iterators, for the proofs of callers.
    ghost into_iter_gives = { λ map iter.
        (iter ≡ map.now.pairs) × IsValid K.eq map.now × ShowsInOrder (deref_pair {K = K} {X = V})
        × ShowsInReverse (deref_pair {K = K} {X = V}) };

    fn into_iter(self) -> Iter<'a, K, V> {
        self.iter()
    }
}
