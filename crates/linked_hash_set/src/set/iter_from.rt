//! The iterators that begin at an item. A contract sees one as the list of items left.

ghost use Rattle.std.specs.Prelude.{◌≡◌, is_some, length, reverse, IfSome, ⊤};
ghost use Rattle.std.specs.Iterator.{at_most};
ghost use Rattle.std.specs.Map.Iter.{TakesFirst, ShowsInOrder, deref};
ghost use Rattle.linked_hash_set.specs.Items.{contains, from};
ghost use Rattle.linked_hash_set.specs.Validity.{IsValid};

use super::LinkedHashSet;
use linked_hash_map as map;
use linked_hash_map::Equivalent;
use std::alloc::AllocError;
use std::hash::{BuildHasher, Hash};
use std::iter::FusedIterator;
use std::marker::Model;

impl<T: Eq + Hash, S: BuildHasher> LinkedHashSet<T, S> {
    /// Returns an iterator over the items from the one that is the same as a given one to the back,
    /// that one first, in O(1), or `None` if it is absent. Hashes the item once.
    ///
    /// # Examples
    ///
    /// ```rust
    /// let mut set = LinkedHashSet::new(rt.alloc());
    /// set.extend(['x', 'y', 'z'])?;
    /// if let Some(mut items) = set.iter_from(&'y') {
    ///     assert_eq!(rt; items.next(), Some(&'y'));
    ///     assert_eq!(rt; items.next(), Some(&'z'));
    ///     assert_eq!(rt; items.next(), None);
    /// }
    /// assert!(rt; set.iter_from(&'w').is_none());
    /// ```
    pub fn iter_from<Q: Equivalent<T>>(&self, item: Q) -> Option<IterFrom<'_, T>>
        ensures present { is_some result ≡ contains Q.equivalent self.now.items item }
        ensures items { IfSome result (λ iter. iter ≡ from Q.equivalent self.now.items item) }
        ensures valid { IsValid T.eq self.now }
        // A law of iterators, for the proofs of callers.
        ensures runs { ShowsInOrder (deref {X = T}) }
    {
        let pairs = self.map.iter_from(item)?;
        Some(IterFrom { pairs })
    }

    /// Returns an iterator over the items from the one that is the same as a given one to the
    /// front, that one first, in O(1), or `None` if it is absent. Hashes the item once.
    ///
    /// # Examples
    ///
    /// ```rust
    /// let mut set = LinkedHashSet::new(rt.alloc());
    /// set.extend(['x', 'y', 'z'])?;
    /// if let Some(mut items) = set.iter_back_from(&'y') {
    ///     assert_eq!(rt; items.next(), Some(&'y'));
    ///     assert_eq!(rt; items.next(), Some(&'x'));
    ///     assert_eq!(rt; items.next(), None);
    /// }
    /// assert!(rt; set.iter_back_from(&'w').is_none());
    /// ```
    pub fn iter_back_from<Q: Equivalent<T>>(&self, item: Q) -> Option<IterBackFrom<'_, T>>
        ensures present { is_some result ≡ contains Q.equivalent self.now.items item }
        ensures items { IfSome result (λ iter.
            iter ≡ from Q.equivalent (reverse self.now.items) item) }
        ensures valid { IsValid T.eq self.now }
        // A law of iterators, for the proofs of callers.
        ensures runs { ShowsInOrder (deref {X = T}) }
    {
        let pairs = self.map.iter_back_from(item)?;
        Some(IterBackFrom { pairs })
    }
}

/// A fused iterator over the items from one to the back, returned by `iter_from`. Its methods are
/// O(1). It does not count the items left: the upper bound of its `size_hint` is the number of all.
#[derive(Drop)]
pub struct IterFrom<'a, T> {
    pairs: map::IterFrom<'a, T, ()>,
}

impl<'a, T> Model for IterFrom<'a, T> {
    ghost use Rattle.std.specs.Prelude.{List};
    ghost use Rattle.std.specs.Map.{keys_of};

    ghost Value = { List T };

    ghost view = { λ a. keys_of a.pairs };
}

impl<'a, T> Iterator for IterFrom<'a, T> {
    type Item = &'a T;

    ghost next_gives = { TakesFirst deref };

    ghost remaining = { λ s. at_most (length s) };

    fn next(&mut self) -> Option<&'a T> {
        let (item, _unit) = self.pairs.next()?;
        Some(item)
    }

    fn size_hint(&self) -> (usize, Option<usize>) {
        self.pairs.size_hint()
    }
}

impl<'a, T> FusedIterator for IterFrom<'a, T> {}

/// Clones the iterator, without failing or allocating.
impl<'a, T> Clone for IterFrom<'a, T> {
    ghost is_clone = { λ s t. t ≡ s };

    ghost is_infallible = { λ _. ⊤ };

    fn clone(&self) -> Result<Self, AllocError> {
        Ok(IterFrom {
            pairs: self.pairs.clone()?,
        })
    }
}

/// A fused iterator over the items from one to the front, returned by `iter_back_from`. Its methods
/// are O(1). It does not count the items left: the upper bound of its `size_hint` is the number of
/// all.
#[derive(Drop)]
pub struct IterBackFrom<'a, T> {
    pairs: map::IterBackFrom<'a, T, ()>,
}

impl<'a, T> Model for IterBackFrom<'a, T> {
    ghost use Rattle.std.specs.Prelude.{List};
    ghost use Rattle.std.specs.Map.{keys_of};

    ghost Value = { List T };

    ghost view = { λ a. keys_of a.pairs };
}

impl<'a, T> Iterator for IterBackFrom<'a, T> {
    type Item = &'a T;

    ghost next_gives = { TakesFirst deref };

    ghost remaining = { λ s. at_most (length s) };

    fn next(&mut self) -> Option<&'a T> {
        let (item, _unit) = self.pairs.next()?;
        Some(item)
    }

    fn size_hint(&self) -> (usize, Option<usize>) {
        self.pairs.size_hint()
    }
}

impl<'a, T> FusedIterator for IterBackFrom<'a, T> {}

/// Clones the iterator, without failing or allocating.
impl<'a, T> Clone for IterBackFrom<'a, T> {
    ghost is_clone = { λ s t. t ≡ s };

    ghost is_infallible = { λ _. ⊤ };

    fn clone(&self) -> Result<Self, AllocError> {
        Ok(IterBackFrom {
            pairs: self.pairs.clone()?,
        })
    }
}
