//! Removal.

ghost use Rattle.std.specs.Prelude.{◌≡◌, ◌+◌, ◌≤◌, [], length, min, take, false, IfNone, IfSome, OnSome, IsTrue, IsFalse};
ghost use Rattle.std.specs.Borrow.{sem};
ghost use Rattle.std.specs.Fn.{CalledAt, TakesAt};
ghost use Rattle.std.specs.List.Retain.{IsFiltered};
ghost use Rattle.linked_hash_map.specs.Pairs.{first, last, without_first, without_last};
ghost use Rattle.linked_hash_map.specs.Retains.{IsSublist};
ghost use Rattle.linked_hash_set.specs.Items.{contains, find, without};
ghost use Rattle.linked_hash_set.specs.LinkedSet.{Keeps};
ghost use Rattle.linked_hash_set.specs.Retains.{CallableOnEach};
ghost use Rattle.linked_hash_set.specs.Updates.{Updates};
ghost use Rattle.linked_hash_set.specs.Validity.{IsValid};

use super::LinkedHashSet;
use crate::drain::Drain;
use linked_hash_map::Equivalent;
use std::hash::{BuildHasher, Hash};

impl<T: Eq + Hash, S: BuildHasher> LinkedHashSet<T, S> {
    ghost use Rattle.linked_hash_set.specs.Drains.{drain_rest, drain_name, DrainSteps, DrainStepsBack, DrainKeepsAlong};
    ghost use Rattle.std.specs.Iterator.Runs.{YieldsInOrder, YieldsInReverse};
    ghost use Rattle.linked_hash_set.specs.Lends.{lends_drained};

    /// Removes and drops an item, and returns whether it was present, in O(1). The others keep
    /// their order. Hashes the item once.
    ///
    /// # Examples
    ///
    /// ```rust
    /// let mut set = LinkedHashSet::new(rt.alloc());
    /// set.extend(['x', 'y'])?;
    /// assert!(rt; set.remove(&'x'));
    /// assert!(rt; !set.remove(&'x'));
    /// assert_eq!(rt; (set.len(), set.capacity()), (1, 2));
    /// ```
    #[inline]
    pub fn remove<Q: Equivalent<T>>(&mut self, item: Q) -> bool
    where
        T: Drop,
        ensures present { result ≡ contains Q.equivalent self.old.items item }
        ensures items { self.new.items ≡ without Q.equivalent self.old.items item }
        ensures keeps { Keeps self.old self.new }
        ensures stays_valid { IsValid T.eq self.new }
        // The item is gone, the others stay, and a present one is one fewer.
        ensures updates { Updates T.eq self.old.items self.new.items (Q.equivalent item) false }
        ensures fewer { IsTrue result → length self.new.items + 1 ≡ length self.old.items }
        ensures same { IsFalse result → self.new.items ≡ self.old.items }
    {
        self.map.remove(item).is_some()
    }

    /// Removes and returns the stored item that is the same as a given one, if present, in O(1).
    /// The others keep their order. Hashes the item once.
    ///
    /// # Examples
    ///
    /// ```rust
    /// let mut set = LinkedHashSet::new(rt.alloc());
    /// set.extend(['x', 'y'])?;
    /// assert_eq!(rt; set.take(&'x'), Some('x'));
    /// assert_eq!(rt; set.take(&'x'), None);
    /// assert_eq!(rt; (set.len(), set.capacity()), (1, 2));
    /// ```
    #[inline]
    pub fn take<Q: Equivalent<T>>(&mut self, item: Q) -> Option<T>
        ensures stored { result ≡ find Q.equivalent self.old.items item }
        ensures items { self.new.items ≡ without Q.equivalent self.old.items item }
        ensures keeps { Keeps self.old self.new }
        ensures stays_valid { IsValid T.eq self.new }
        // The item is gone, the others stay, and a present one is one fewer.
        ensures updates { Updates T.eq self.old.items self.new.items (Q.equivalent item) false }
        ensures fewer { OnSome result (length self.new.items + 1 ≡ length self.old.items) }
        ensures same { IfNone result (self.new.items ≡ self.old.items) }
    {
        let (stored, _unit) = self.map.remove_entry(item)?;
        Some(stored)
    }

    /// Removes and returns the front item, if any, in O(1). Hashes no item.
    ///
    /// # Examples
    ///
    /// ```rust
    /// let mut set = LinkedHashSet::new(rt.alloc());
    /// set.extend(['x', 'y'])?;
    /// assert_eq!(rt; set.pop_front(), Some('x'));
    /// assert_eq!(rt; set.front(), Some(&'y'));
    /// ```
    pub fn pop_front(&mut self) -> Option<T>
        ensures item { result ≡ first self.old.items }
        ensures items { self.new.items ≡ without_first self.old.items }
        ensures keeps { Keeps self.old self.new }
        ensures unchanged { IfNone result (self.new ≡ self.old) }
        ensures stays_valid { IsValid T.eq self.new }
        // The item is gone, and the others stay.
        ensures updates { IfSome result (λ item.
            Updates T.eq self.old.items self.new.items (T.eq item) false) }
    {
        let (item, _unit) = self.map.pop_front()?;
        Some(item)
    }

    /// Removes and returns the back item, if any, in O(1). Hashes no item.
    ///
    /// # Examples
    ///
    /// ```rust
    /// let mut set = LinkedHashSet::new(rt.alloc());
    /// set.extend(['x', 'y'])?;
    /// assert_eq!(rt; set.pop_back(), Some('y'));
    /// assert_eq!(rt; set.back(), Some(&'x'));
    /// ```
    pub fn pop_back(&mut self) -> Option<T>
        ensures item { result ≡ last self.old.items }
        ensures items { self.new.items ≡ without_last self.old.items }
        ensures keeps { Keeps self.old self.new }
        ensures unchanged { IfNone result (self.new ≡ self.old) }
        ensures stays_valid { IsValid T.eq self.new }
        // The item is gone, and the others stay.
        ensures updates { IfSome result (λ item.
            Updates T.eq self.old.items self.new.items (T.eq item) false) }
    {
        let (item, _unit) = self.map.pop_back()?;
        Some(item)
    }

    /// Drops the items behind the first `len`, if there are any, in O(1) each. The first ones keep
    /// their order, and the capacity stays. It allocates nothing, and hashes no item.
    ///
    /// # Examples
    ///
    /// ```rust
    /// let mut set = LinkedHashSet::new(rt.alloc());
    /// set.extend(['x', 'y', 'z'])?;
    /// set.truncate(2);
    /// assert_eq!(rt; (set.len(), set.capacity()), (2, 3));
    /// assert_eq!(rt; set.back(), Some(&'y'));
    /// ```
    pub fn truncate(&mut self, len: usize)
    where
        T: Drop,
        ensures items { self.new.items ≡ take len self.old.items }
        ensures keeps { Keeps self.old self.new }
        ensures stays_valid { IsValid T.eq self.new }
        // How many items are left.
        ensures len { length self.new.items ≡ min len (length self.old.items) }
    {
        self.map.truncate(len);
    }

    /// Keeps the items for which a closure returns `true`, in order, and drops the others, in O(n).
    /// Hashes no item.
    ///
    /// The closure is called once with each item, front to back.
    ///
    /// # Examples
    ///
    /// ```rust
    /// let mut set = LinkedHashSet::new(rt.alloc());
    /// set.extend(['x', 'y', 'z'])?;
    /// set.retain(|item| *item != 'y');
    /// assert_eq!(rt; (set.len(), set.contains(&'y')), (2, false));
    /// assert_eq!(rt; set.front(), Some(&'x'));
    /// ```
    pub fn retain<F: FnMut(&T) -> bool>(&mut self, mut keep: F)
    where
        T: Drop,
        requires { CallableOnEach (CalledAt F.FnMut) (TakesAt F.FnMut) keep self.old.items }
        ensures items { IsFiltered (CalledAt F.FnMut) keep self.old.items self.new.items }
        ensures kept { IsSublist self.new.items self.old.items }
        ensures len { length self.new.items ≤ length self.old.items }
        ensures keeps { Keeps self.old self.new }
        ensures stays_valid { IsValid T.eq self.new }
    {
        self.map.retain(
            |item: &T, _unit: &mut ()|
                requires { TakesAt F.FnMut keep item.now }
                ensures called { CalledAt F.FnMut keep.entry item.now result keep.exit }
            { keep(item) },
        );
    }

    /// Drops all items, in O(capacity), or O(1) if the set is empty. The capacity stays.
    ///
    /// # Examples
    ///
    /// ```rust
    /// let mut set = LinkedHashSet::new(rt.alloc());
    /// set.insert('x')?;
    /// set.clear();
    /// assert_eq!(rt; (set.len(), set.capacity()), (0, 1));
    /// ```
    pub fn clear(&mut self)
    where
        T: Drop,
        ensures items { self.new.items ≡ [] }
        ensures keeps { Keeps self.old self.new }
        ensures stays_valid { IsValid T.eq self.new }
    {
        self.map.clear();
    }

    /// Removes all items and returns them as a double-ended iterator, front to back, in
    /// O(capacity), or O(1) if the set is empty. The set is empty at once and keeps its capacity;
    /// forgetting the iterator leaks the items left.
    ///
    /// # Examples
    ///
    /// ```rust
    /// let mut set = LinkedHashSet::new(rt.alloc());
    /// set.extend(['x', 'y'])?;
    /// let mut items = set.drain();
    /// assert_eq!(rt; items.next(), Some('x'));
    /// assert_eq!(rt; items.len(), 1);
    /// drop(items);
    /// assert_eq!(rt; (set.len(), set.capacity()), (0, 2));
    /// ```
    pub fn drain(&mut self) -> Drain<'_, T>
        ensures* writes_back { sem 𝓛
            (lends_drained T.row S.row S.Hasher.row T.Hash S.BuildHasher S.Hasher.Hasher self.entry
            (drain_name result)) }
        ensures rest { drain_rest result ≡ self.old.items }
        ensures valid { IsValid T.eq self.old }
        ensures stays_valid { IsValid T.eq (record self.old { items = [] }) }
        // Laws of iterators, for the proofs of callers.
        ensures runs { YieldsInOrder (DrainSteps {T = T}) drain_rest }
        ensures runs_back { YieldsInReverse (DrainStepsBack {T = T}) drain_rest }
        ensures stays { DrainKeepsAlong DrainSteps result }
        ensures stays_back { DrainKeepsAlong DrainStepsBack result }
    {
        Drain::new(self.map.drain())
    }
}
