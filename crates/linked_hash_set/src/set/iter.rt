//! The iterators over one set.

ghost use Rattle.std.specs.Prelude.{◌≡◌};
ghost use Rattle.std.specs.Map.Iter.{deref, ShowsInOrder, ShowsInReverse, GivesInOrder, GivesInReverse};
ghost use Rattle.linked_hash_set.specs.Validity.{IsValid};

use super::LinkedHashSet;
use linked_hash_map::{IntoKeys, Keys};
use std::hash::{BuildHasher, Hash};

/// A fused double-ended iterator over the items, returned by `iter` or a loop over `&set`. Its
/// methods are O(1). A clone of it goes on by itself.
pub type Iter<'a, T> = Keys<'a, T, ()>;

/// A fused double-ended iterator that owns the items, returned by `into_iter` or a loop over a set
/// by value. Its methods are O(1).
///
/// Dropping it drops the items left and frees the memory, in O(capacity).
pub type IntoIter<T> = IntoKeys<T, ()>;

impl<T: Eq + Hash, S: BuildHasher> LinkedHashSet<T, S> {
    /// Returns a double-ended iterator over the items, front to back, in O(1).
    ///
    /// # Examples
    ///
    /// ```rust
    /// let mut set = LinkedHashSet::new(rt.alloc());
    /// set.extend(['x', 'y'])?;
    /// let mut items = set.iter();
    /// assert_eq!(rt; items.next(), Some(&'x'));
    /// let mut rest = items.clone()?;
    /// assert_eq!(rt; rest.next_back(), Some(&'y'));
    /// assert_eq!(rt; (items.len(), rest.len()), (1, 0));
    /// ```
    pub fn iter(&self) -> Iter<'_, T>
        ensures items { result ≡ self.now.items }
        ensures valid { IsValid T.eq self.now }
        // Laws of iterators, for the proofs of callers.
        ensures runs { ShowsInOrder (deref {X = T}) }
        ensures runs_back { ShowsInReverse (deref {X = T}) }
    {
        self.map.keys()
    }
}

/// A loop over `&set`, as over `iter`.
///
/// # Examples
///
/// ```rust
/// let mut set = LinkedHashSet::new(rt.alloc());
/// set.extend(['x', 'y'])?;
/// let mut last = None;
/// for item in &set {
///     last = Some(*item);
/// }
/// assert_eq!(rt; last, Some('y'));
/// ```
impl<'a, T: Eq + Hash, S: BuildHasher> IntoIterator for &'a LinkedHashSet<T, S> {
    type Item = &'a T;

    type IntoIter = Iter<'a, T>;

    // Its last two parts are laws of iterators, for the proofs of callers.
    ghost into_iter_gives = { λ set iter.
        (iter ≡ set.now.items) × IsValid T.eq set.now × ShowsInOrder (deref {X = T})
        × ShowsInReverse (deref {X = T}) };

    fn into_iter(self) -> Iter<'a, T> {
        self.iter()
    }
}

/// A loop over a set by value: takes the set apart and yields its items, front to back, in
/// O(capacity). Drops the hasher and frees the buckets.
///
/// # Examples
///
/// ```rust
/// let mut set = LinkedHashSet::new(rt.alloc());
/// set.extend(['x', 'y'])?;
/// assert!(rt; set.into_iter().rev().eq(['y', 'x']));
/// ```
impl<T: Eq + Hash + Drop, S: BuildHasher + Drop> IntoIterator for LinkedHashSet<T, S> {
    type Item = T;

    type IntoIter = IntoIter<T>;

    // Its last two parts are laws of iterators, for the proofs of callers.
    ghost into_iter_gives = { λ set iter.
        (iter ≡ set.items) × IsValid T.eq set × GivesInOrder T × GivesInReverse T };

    fn into_iter(self) -> IntoIter<T> {
        let LinkedHashSet { map } = self;
        map.into_keys()
    }
}
