//! Operations on two sets. A contract sees an iterator as the list of items left.

ghost use Rattle.std.specs.Prelude.{◌≡◌, length, ⊤};
ghost use Rattle.std.specs.Iterator.{at_most};
ghost use Rattle.std.specs.Map.Iter.{TakesFirst, deref};
ghost use Rattle.linked_hash_set.specs.Operations.{difference, intersection, union, symmetric_difference, is_subset, is_disjoint};

use crate::set::{Iter, LinkedHashSet};
use linked_hash_map::DefaultHashBuilder;
use std::alloc::AllocError;
use std::hash::{BuildHasher, Hash};
use std::iter::FusedIterator;
use std::marker::Model;

impl<T: Eq + Hash, S: BuildHasher> LinkedHashSet<T, S> {
    /// Returns an iterator over the items of `self` that are not in `other`, in their order, in
    /// O(1).
    ///
    /// # Examples
    ///
    /// ```rust
    /// let mut set = LinkedHashSet::new(rt.alloc());
    /// set.extend([1, 2, 3])?;
    /// let mut other = LinkedHashSet::new(rt.alloc());
    /// other.extend([4, 2])?;
    /// assert!(rt; set.difference(&other).eq(&[1, 3]));
    /// ```
    pub fn difference<'a>(&'a self, other: &'a Self) -> Difference<'a, T, S>
        ensures items { result ≡ difference T.eq self.now.items other.now.items }
    {
        Difference {
            iter: self.iter(),
            other,
        }
    }

    /// Returns an iterator over the items of `self` that are in `other`, in their order, in O(1).
    ///
    /// # Examples
    ///
    /// ```rust
    /// let mut set = LinkedHashSet::new(rt.alloc());
    /// set.extend([1, 2, 3])?;
    /// let mut other = LinkedHashSet::new(rt.alloc());
    /// other.extend([4, 2])?;
    /// assert!(rt; set.intersection(&other).eq(&[2]));
    /// ```
    pub fn intersection<'a>(&'a self, other: &'a Self) -> Intersection<'a, T, S>
        ensures items { result ≡ intersection T.eq self.now.items other.now.items }
    {
        Intersection {
            iter: self.iter(),
            other,
        }
    }

    /// Returns an iterator over the items of `self`, and then those of `other` that are not in
    /// `self`, in O(1).
    ///
    /// # Examples
    ///
    /// ```rust
    /// let mut set = LinkedHashSet::new(rt.alloc());
    /// set.extend([1, 2, 3])?;
    /// let mut other = LinkedHashSet::new(rt.alloc());
    /// other.extend([4, 2])?;
    /// assert!(rt; set.union(&other).eq(&[1, 2, 3, 4]));
    /// ```
    pub fn union<'a>(&'a self, other: &'a Self) -> Union<'a, T, S>
        ensures items { result ≡ union T.eq self.now.items other.now.items }
    {
        Union {
            first: self.iter(),
            second: other.difference(self),
        }
    }

    /// Returns an iterator over the items of `self` that are not in `other`, and then those of
    /// `other` that are not in `self`, in O(1).
    ///
    /// # Examples
    ///
    /// ```rust
    /// let mut set = LinkedHashSet::new(rt.alloc());
    /// set.extend([1, 2, 3])?;
    /// let mut other = LinkedHashSet::new(rt.alloc());
    /// other.extend([4, 2])?;
    /// assert!(rt; set.symmetric_difference(&other).eq(&[1, 3, 4]));
    /// ```
    pub fn symmetric_difference<'a>(&'a self, other: &'a Self) -> SymmetricDifference<'a, T, S>
        ensures items { result ≡ symmetric_difference T.eq self.now.items other.now.items }
    {
        SymmetricDifference {
            first: self.difference(other),
            second: other.difference(self),
        }
    }

    /// Returns `true` if each item of `self` is in `other`, in O(n). Looks up items until one is
    /// absent, each once.
    ///
    /// # Examples
    ///
    /// ```rust
    /// let mut set = LinkedHashSet::new(rt.alloc());
    /// set.extend([1, 2, 3])?;
    /// let mut other = LinkedHashSet::new(rt.alloc());
    /// other.extend([3, 1])?;
    /// assert!(rt; other.is_subset(&set));
    /// assert!(rt; !set.is_subset(&other));
    /// ```
    pub fn is_subset(&self, other: &Self) -> bool
        ensures { result ≡ is_subset T.eq self.now.items other.now.items }
    {
        self.difference(other).next().is_none()
    }

    /// Returns `true` if each item of `other` is in `self`, in O(m), with m the number of items of
    /// `other`. Looks up items until one is absent, each once.
    ///
    /// # Examples
    ///
    /// ```rust
    /// let mut set = LinkedHashSet::new(rt.alloc());
    /// set.extend([1, 2, 3])?;
    /// let mut other = LinkedHashSet::new(rt.alloc());
    /// other.extend([3, 1])?;
    /// assert!(rt; set.is_superset(&other));
    /// assert!(rt; !other.is_superset(&set));
    /// ```
    pub fn is_superset(&self, other: &Self) -> bool
        ensures { result ≡ is_subset T.eq other.now.items self.now.items }
    {
        other.is_subset(self)
    }

    /// Returns `true` if no item of `self` is in `other`, in O(n). Looks up items until one is
    /// present, each once.
    ///
    /// # Examples
    ///
    /// ```rust
    /// let mut set = LinkedHashSet::new(rt.alloc());
    /// set.extend([1, 2])?;
    /// let mut other = LinkedHashSet::new(rt.alloc());
    /// other.extend([3])?;
    /// assert!(rt; set.is_disjoint(&other));
    /// other.insert(2)?;
    /// assert!(rt; !set.is_disjoint(&other));
    /// ```
    pub fn is_disjoint(&self, other: &Self) -> bool
        ensures { result ≡ is_disjoint T.eq self.now.items other.now.items }
    {
        self.intersection(other).next().is_none()
    }
}

/// A fused iterator over the items of one set that are not in another, returned by `difference`.
/// `next` looks up items until one is to be returned, each once.
#[derive(Drop)]
pub struct Difference<'a, T: Eq + Hash, S: BuildHasher = DefaultHashBuilder> {
    iter: Iter<'a, T>,
    other: &'a LinkedHashSet<T, S>,
}

impl<'a, T: Eq + Hash, S: BuildHasher> Model for Difference<'a, T, S> {
    ghost use Rattle.std.specs.Prelude.{List};
    ghost use Rattle.linked_hash_set.specs.Operations.{difference};

    ghost Value = { List T };

    ghost view = { λ a. difference T.eq a.iter a.other.now.items };
}

impl<'a, T: Eq + Hash, S: BuildHasher> Iterator for Difference<'a, T, S> {
    type Item = &'a T;

    ghost next_gives = { TakesFirst deref };

    ghost remaining = { λ s. at_most (length s) };

    fn next(&mut self) -> Option<&'a T> {
        while let Some(item) = self.iter.next() {
            if !self.other.contains(item) {
                return Some(item);
            }
        }
        None
    }
}

impl<'a, T: Eq + Hash, S: BuildHasher> FusedIterator for Difference<'a, T, S> {}

/// Clones the iterator, without failing or allocating.
impl<'a, T: Eq + Hash, S: BuildHasher> Clone for Difference<'a, T, S> {
    ghost is_clone = { λ s t. t ≡ s };

    ghost is_infallible = { λ _. ⊤ };

    fn clone(&self) -> Result<Self, AllocError> {
        Ok(Difference {
            iter: self.iter.clone()?,
            other: self.other,
        })
    }
}

/// A fused iterator over the items of one set that are in another, returned by `intersection`.
/// `next` looks up items until one is to be returned, each once.
#[derive(Drop)]
pub struct Intersection<'a, T: Eq + Hash, S: BuildHasher = DefaultHashBuilder> {
    iter: Iter<'a, T>,
    other: &'a LinkedHashSet<T, S>,
}

impl<'a, T: Eq + Hash, S: BuildHasher> Model for Intersection<'a, T, S> {
    ghost use Rattle.std.specs.Prelude.{List};
    ghost use Rattle.linked_hash_set.specs.Operations.{intersection};

    ghost Value = { List T };

    ghost view = { λ a. intersection T.eq a.iter a.other.now.items };
}

impl<'a, T: Eq + Hash, S: BuildHasher> Iterator for Intersection<'a, T, S> {
    type Item = &'a T;

    ghost next_gives = { TakesFirst deref };

    ghost remaining = { λ s. at_most (length s) };

    fn next(&mut self) -> Option<&'a T> {
        while let Some(item) = self.iter.next() {
            if self.other.contains(item) {
                return Some(item);
            }
        }
        None
    }
}

impl<'a, T: Eq + Hash, S: BuildHasher> FusedIterator for Intersection<'a, T, S> {}

/// Clones the iterator, without failing or allocating.
impl<'a, T: Eq + Hash, S: BuildHasher> Clone for Intersection<'a, T, S> {
    ghost is_clone = { λ s t. t ≡ s };

    ghost is_infallible = { λ _. ⊤ };

    fn clone(&self) -> Result<Self, AllocError> {
        Ok(Intersection {
            iter: self.iter.clone()?,
            other: self.other,
        })
    }
}

/// A fused iterator over the items of one set and then those of another that are not in it,
/// returned by `union`.
#[derive(Drop)]
pub struct Union<'a, T: Eq + Hash, S: BuildHasher = DefaultHashBuilder> {
    first: Iter<'a, T>,
    second: Difference<'a, T, S>,
}

impl<'a, T: Eq + Hash, S: BuildHasher> Model for Union<'a, T, S> {
    ghost use Rattle.std.specs.Prelude.{◌++◌, List};

    ghost Value = { List T };

    ghost view = { λ a. a.first ++ a.second };
}

impl<'a, T: Eq + Hash, S: BuildHasher> Iterator for Union<'a, T, S> {
    type Item = &'a T;

    ghost next_gives = { TakesFirst deref };

    ghost remaining = { λ s. at_most (length s) };

    fn next(&mut self) -> Option<&'a T> {
        match self.first.next() {
            Some(item) => Some(item),
            None => self.second.next(),
        }
    }
}

impl<'a, T: Eq + Hash, S: BuildHasher> FusedIterator for Union<'a, T, S> {}

/// Clones the iterator, without failing or allocating.
impl<'a, T: Eq + Hash, S: BuildHasher> Clone for Union<'a, T, S> {
    ghost is_clone = { λ s t. t ≡ s };

    ghost is_infallible = { λ _. ⊤ };

    fn clone(&self) -> Result<Self, AllocError> {
        Ok(Union {
            first: self.first.clone()?,
            second: self.second.clone()?,
        })
    }
}

/// A fused iterator over the items of one of two sets that are not in the other, and then those of
/// the other, returned by `symmetric_difference`.
#[derive(Drop)]
pub struct SymmetricDifference<'a, T: Eq + Hash, S: BuildHasher = DefaultHashBuilder> {
    first: Difference<'a, T, S>,
    second: Difference<'a, T, S>,
}

impl<'a, T: Eq + Hash, S: BuildHasher> Model for SymmetricDifference<'a, T, S> {
    ghost use Rattle.std.specs.Prelude.{◌++◌, List};

    ghost Value = { List T };

    ghost view = { λ a. a.first ++ a.second };
}

impl<'a, T: Eq + Hash, S: BuildHasher> Iterator for SymmetricDifference<'a, T, S> {
    type Item = &'a T;

    ghost next_gives = { TakesFirst deref };

    ghost remaining = { λ s. at_most (length s) };

    fn next(&mut self) -> Option<&'a T> {
        match self.first.next() {
            Some(item) => Some(item),
            None => self.second.next(),
        }
    }
}

impl<'a, T: Eq + Hash, S: BuildHasher> FusedIterator for SymmetricDifference<'a, T, S> {}

/// Clones the iterator, without failing or allocating.
impl<'a, T: Eq + Hash, S: BuildHasher> Clone for SymmetricDifference<'a, T, S> {
    ghost is_clone = { λ s t. t ≡ s };

    ghost is_infallible = { λ _. ⊤ };

    fn clone(&self) -> Result<Self, AllocError> {
        Ok(SymmetricDifference {
            first: self.first.clone()?,
            second: self.second.clone()?,
        })
    }
}
