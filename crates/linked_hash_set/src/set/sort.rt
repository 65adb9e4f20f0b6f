//! Sorts of the items.

ghost use Rattle.std.specs.Prelude.{◌≡◌, ◌≤◌, length, IsOk, OnOk, OnErr};
ghost use Rattle.std.specs.Fn.{CalledAt, CalledAtTwo};
ghost use Rattle.std.specs.List.Sorted.{IsPermutation, IsSorted, IsSortedByClosure, IsStableByClosure, IsSortedByKeyClosure, IsStableByKeyClosure};
ghost use Rattle.linked_hash_set.specs.Items.{contains, find};
ghost use Rattle.linked_hash_set.specs.LinkedSet.{Keeps};
ghost use Rattle.linked_hash_set.specs.Validity.{IsValid};

use super::LinkedHashSet;
use linked_hash_map::NoRoom;
use std::cmp::Ordering;
use std::hash::{BuildHasher, Hash};

impl<T: Eq + Hash, S: BuildHasher> LinkedHashSet<T, S> {
    /// Sorts the items, in O(n log n), or O(n) if they are sorted. It allocates nothing, and hashes
    /// no item.
    ///
    /// # Examples
    ///
    /// ```rust
    /// let mut set = LinkedHashSet::new(rt.alloc());
    /// set.extend(['z', 'x', 'y'])?;
    /// set.sort();
    /// assert!(rt; set.iter().eq(&['x', 'y', 'z']));
    /// ```
    pub fn sort(&mut self)
    where
        T: Ord,
        ensures permutation { IsPermutation self.old.items self.new.items }
        ensures sorted { IsSorted T.cmp self.new.items }
        ensures keeps { Keeps self.old self.new }
        ensures stays_valid { IsValid T.eq self.new }
        // As many items as before, and each is found that was.
        ensures len { length self.new.items ≡ length self.old.items }
        ensures finds { (q : T) → find T.eq self.new.items q ≡ find T.eq self.old.items q }
        ensures contains { (q : T)
            → contains T.eq self.new.items q ≡ contains T.eq self.old.items q }
    {
        self.map.sort_keys();
    }

    /// Sorts the items by a comparison of two. Items that tie keep their order. If `compare` is no
    /// order, the items are in some order. O(n log n): it calls `compare` at most n * log2(n)
    /// times, with the logarithm rounded up, and n - 1 times if the items are sorted. It allocates
    /// nothing, and hashes no item.
    ///
    /// # Examples
    ///
    /// ```rust
    /// let mut set = LinkedHashSet::new(rt.alloc());
    /// set.extend([1, 3, 2])?;
    /// set.sort_by(|item, other| other.cmp(item));
    /// assert!(rt; set.iter().eq(&[3, 2, 1]));
    /// ```
    pub fn sort_by<F: FnMut(&T, &T) -> Ordering>(&mut self, mut compare: F)
        requires { F.IsAlwaysCallable compare }
        ensures permutation { IsPermutation self.old.items self.new.items }
        ensures sorted { IsSortedByClosure F.FnMut compare self.new.items }
        ensures stable { IsStableByClosure F.FnMut compare self.old.items self.new.items }
        ensures keeps { Keeps self.old self.new }
        ensures stays_valid { IsValid T.eq self.new }
        // As many items as before, and each is found that was.
        ensures len { length self.new.items ≡ length self.old.items }
        ensures finds { (q : T) → find T.eq self.new.items q ≡ find T.eq self.old.items q }
        ensures contains { (q : T)
            → contains T.eq self.new.items q ≡ contains T.eq self.old.items q }
    {
        self.map.sort_by(
            |item: &T, _unit: &(), other: &T, _other_unit: &()| -> Ordering
                requires { F.IsAlwaysCallable compare }
                ensures called { CalledAtTwo F.FnMut compare.entry item.now other.now result
                    compare.exit }
            { compare(item, other) },
        );
    }

    /// Sorts the items by what a closure makes of each, and calls it once with each item, front to
    /// back. Items of which it makes equal values keep their order. O(n log n).
    ///
    /// From two items on it allocates an array of what the closure makes and a position for each,
    /// and, for more than 20 items that neither ascend nor strictly fall, a second one to sort it,
    /// and frees both. It returns `NoRoom` if an allocation fails: then nothing changes, but the
    /// closure may have been called. With fewer items it never fails and does not call the closure.
    /// It hashes no item.
    ///
    /// # Examples
    ///
    /// ```rust
    /// let mut set = LinkedHashSet::new(rt.alloc());
    /// set.extend(["three", "one", "two"])?;
    /// set.sort_by_cached_key(|item| item.len())?;
    /// assert!(rt; set.iter().eq(&["one", "two", "three"]));
    /// ```
    pub fn sort_by_cached_key<K: Ord + Drop, F: FnMut(&T) -> K>(
        &mut self,
        mut sort_key: F,
    ) -> Result<(), NoRoom>
        requires { F.IsAlwaysCallable sort_key }
        // On success the items are sorted by what the closure makes of each.
        ensures permutation { IsPermutation self.old.items self.new.items }
        ensures sorted { OnOk result (IsSortedByKeyClosure F.FnMut K.cmp sort_key self.new.items) }
        ensures stable { OnOk result
            (IsStableByKeyClosure F.FnMut K.cmp sort_key self.old.items self.new.items) }
        ensures keeps { Keeps self.old self.new }
        ensures stays_valid { IsValid T.eq self.new }
        // As many items as before, and each is found that was.
        ensures len { length self.new.items ≡ length self.old.items }
        ensures finds { (q : T) → find T.eq self.new.items q ≡ find T.eq self.old.items q }
        ensures contains { (q : T)
            → contains T.eq self.new.items q ≡ contains T.eq self.old.items q }

        // On failure nothing changes. One item or none cannot fail.
        ensures unchanged { OnErr result (self.new ≡ self.old) }
        ensures succeeds { length self.old.items ≤ 1 → IsOk result }
    {
        self.map.sort_by_cached_key(
            |item: &T, _unit: &()| -> K
                requires { F.IsAlwaysCallable sort_key }
                ensures called { CalledAt F.FnMut sort_key.entry item.now result sort_key.exit }
            { sort_key(item) },
        )
    }
}
