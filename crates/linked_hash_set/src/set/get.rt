//! Lookups.

ghost use Rattle.std.specs.Prelude.{◌≡◌, true, option_copied, IfSome};
ghost use Rattle.linked_hash_map.specs.Pairs.{first, last};
ghost use Rattle.linked_hash_set.specs.Items.{contains, find};

use super::LinkedHashSet;
use linked_hash_map::Equivalent;
use std::hash::{BuildHasher, Hash};

impl<T: Eq + Hash, S: BuildHasher> LinkedHashSet<T, S> {
    /// Returns `true` if an item is present, in O(1). Hashes the item once.
    ///
    /// # Examples
    ///
    /// ```rust
    /// let mut set = LinkedHashSet::new(rt.alloc());
    /// set.insert('x')?;
    /// assert!(rt; set.contains(&'x'));
    /// assert!(rt; !set.contains(&'y'));
    /// ```
    #[inline(always)]
    pub fn contains<Q: Equivalent<T>>(&self, item: Q) -> bool
        ensures present { result ≡ contains Q.equivalent self.now.items item }
    {
        self.map.contains_key(item)
    }

    /// Returns the stored item that is the same as a given one, if present, in O(1). Hashes the
    /// item once.
    ///
    /// # Examples
    ///
    /// ```rust
    /// let mut set = LinkedHashSet::new(rt.alloc());
    /// set.insert('x')?;
    /// assert_eq!(rt; set.get(&'x'), Some(&'x'));
    /// assert_eq!(rt; set.get(&'y'), None);
    /// ```
    #[inline(always)]
    pub fn get<Q: Equivalent<T>>(&self, item: Q) -> Option<&T>
        ensures stored { option_copied result ≡ find Q.equivalent self.now.items item }
    {
        let (stored, _unit) = self.map.get_key_value(item)?;
        Some(stored)
    }

    /// Returns the front item, if any, in O(1). Hashes no item.
    ///
    /// # Examples
    ///
    /// ```rust
    /// let mut set = LinkedHashSet::new(rt.alloc());
    /// set.extend(['x', 'y'])?;
    /// assert_eq!(rt; set.front(), Some(&'x'));
    /// ```
    pub fn front(&self) -> Option<&T>
        ensures item { option_copied result ≡ first self.now.items }
        // A law of lists, for the proofs of callers.
        ensures found { IfSome result (λ item. contains T.eq self.now.items item.now ≡ true) }
    {
        let (item, _unit) = self.map.front()?;
        Some(item)
    }

    /// Returns the back item, if any, in O(1). Hashes no item.
    ///
    /// # Examples
    ///
    /// ```rust
    /// let mut set = LinkedHashSet::new(rt.alloc());
    /// set.extend(['x', 'y'])?;
    /// assert_eq!(rt; set.back(), Some(&'y'));
    /// ```
    pub fn back(&self) -> Option<&T>
        ensures item { option_copied result ≡ last self.now.items }
        // A law of lists, for the proofs of callers.
        ensures found { IfSome result (λ item. contains T.eq self.now.items item.now ≡ true) }
    {
        let (item, _unit) = self.map.back()?;
        Some(item)
    }
}
