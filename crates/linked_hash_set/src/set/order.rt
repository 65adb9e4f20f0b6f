//! The order of the items: moves to the ends and beside another item, and the reverse order.

ghost use Rattle.std.specs.Prelude.{◌≡◌, ◌&&◌, length, reverse, IsTrue, IsFalse};
ghost use Rattle.linked_hash_set.specs.Items.{contains, find, to_back_as_is, to_front, to_before, to_after};
ghost use Rattle.linked_hash_set.specs.LinkedSet.{Keeps};
ghost use Rattle.linked_hash_set.specs.Validity.{IsValid};

use super::LinkedHashSet;
use linked_hash_map::Equivalent;
use std::hash::{BuildHasher, Hash};

impl<T: Eq + Hash, S: BuildHasher> LinkedHashSet<T, S> {
    /// Moves an item to the back, and returns whether it is present, in O(1). The others keep their
    /// order. Hashes the item once.
    ///
    /// # Examples
    ///
    /// ```rust
    /// let mut set = LinkedHashSet::new(rt.alloc());
    /// set.extend(['x', 'y'])?;
    /// assert!(rt; set.to_back(&'x'));
    /// assert_eq!(rt; set.back(), Some(&'x'));
    /// assert!(rt; !set.to_back(&'z'));
    /// ```
    #[inline]
    pub fn to_back<Q: Equivalent<T>>(&mut self, item: Q) -> bool
        ensures present { result ≡ contains Q.equivalent self.old.items item }
        ensures items { self.new.items ≡ to_back_as_is Q.equivalent self.old.items item }
        ensures keeps { Keeps self.old self.new }
        ensures unchanged { IsFalse result → self.new ≡ self.old }
        ensures stays_valid { IsValid T.eq self.new }
        // As many items as before, and each is found that was.
        ensures len { length self.new.items ≡ length self.old.items }
        ensures finds { (q : T) → find T.eq self.new.items q ≡ find T.eq self.old.items q }
        ensures contains { (q : T)
            → contains T.eq self.new.items q ≡ contains T.eq self.old.items q }
    {
        self.map.move_to_back(item)
    }

    /// Moves an item to the back as [`to_back`](LinkedHashSet::to_back) does: the name that the
    /// crate linked-hash-set has for it.
    ///
    /// # Examples
    ///
    /// ```rust
    /// let mut set = LinkedHashSet::new(rt.alloc());
    /// set.extend(['x', 'y'])?;
    /// assert!(rt; set.refresh(&'x'));
    /// assert_eq!(rt; set.back(), Some(&'x'));
    /// assert!(rt; !set.refresh(&'z'));
    /// ```
    #[inline]
    pub fn refresh<Q: Equivalent<T>>(&mut self, item: Q) -> bool
        ensures present { result ≡ contains Q.equivalent self.old.items item }
        ensures items { self.new.items ≡ to_back_as_is Q.equivalent self.old.items item }
        ensures keeps { Keeps self.old self.new }
        ensures unchanged { IsFalse result → self.new ≡ self.old }
        ensures stays_valid { IsValid T.eq self.new }
        // As many items as before, and each is found that was.
        ensures len { length self.new.items ≡ length self.old.items }
        ensures finds { (q : T) → find T.eq self.new.items q ≡ find T.eq self.old.items q }
        ensures contains { (q : T)
            → contains T.eq self.new.items q ≡ contains T.eq self.old.items q }
    {
        self.to_back(item)
    }

    /// Moves an item to the front, and returns whether it is present, in O(1). The others keep
    /// their order. Hashes the item once.
    ///
    /// # Examples
    ///
    /// ```rust
    /// let mut set = LinkedHashSet::new(rt.alloc());
    /// set.extend(['x', 'y'])?;
    /// assert!(rt; set.to_front(&'y'));
    /// assert_eq!(rt; set.front(), Some(&'y'));
    /// assert!(rt; !set.to_front(&'z'));
    /// ```
    #[inline]
    pub fn to_front<Q: Equivalent<T>>(&mut self, item: Q) -> bool
        ensures present { result ≡ contains Q.equivalent self.old.items item }
        ensures items { self.new.items ≡ to_front Q.equivalent self.old.items item }
        ensures keeps { Keeps self.old self.new }
        ensures unchanged { IsFalse result → self.new ≡ self.old }
        ensures stays_valid { IsValid T.eq self.new }
        // As many items as before, and each is found that was.
        ensures len { length self.new.items ≡ length self.old.items }
        ensures finds { (q : T) → find T.eq self.new.items q ≡ find T.eq self.old.items q }
        ensures contains { (q : T)
            → contains T.eq self.new.items q ≡ contains T.eq self.old.items q }
    {
        self.map.move_to_front(item)
    }

    /// Moves an item right before another, and returns whether both are present, in O(1). If one is
    /// absent, nothing changes. An item that is already there stays, and so does one beside itself.
    /// The others keep their order. Hashes each item once at most.
    ///
    /// # Examples
    ///
    /// ```rust
    /// let mut set = LinkedHashSet::new(rt.alloc());
    /// set.extend(['x', 'y', 'z'])?;
    /// assert!(rt; set.move_before(&'z', &'x'));
    /// assert_eq!(rt; set.front(), Some(&'z'));
    /// assert!(rt; !set.move_before(&'z', &'w'));
    /// ```
    #[inline]
    pub fn move_before<Q: Equivalent<T>, P: Equivalent<T>>(&mut self, item: Q, other: P) -> bool
        ensures present { result ≡ (contains Q.equivalent self.old.items item
            && contains P.equivalent self.old.items other) }
        ensures items { IsTrue result → self.new.items
            ≡ to_before Q.equivalent P.equivalent self.old.items item other }
        ensures keeps { Keeps self.old self.new }
        ensures unchanged { IsFalse result → self.new ≡ self.old }
        ensures stays_valid { IsValid T.eq self.new }
        // As many items as before, and each is found that was.
        ensures len { length self.new.items ≡ length self.old.items }
        ensures finds { (q : T) → find T.eq self.new.items q ≡ find T.eq self.old.items q }
        ensures contains { (q : T)
            → contains T.eq self.new.items q ≡ contains T.eq self.old.items q }
    {
        self.map.move_before(item, other)
    }

    /// Moves an item right after another, and returns whether both are present, in O(1). If one is
    /// absent, nothing changes. An item that is already there stays, and so does one beside itself.
    /// The others keep their order. Hashes each item once at most.
    ///
    /// # Examples
    ///
    /// ```rust
    /// let mut set = LinkedHashSet::new(rt.alloc());
    /// set.extend(['x', 'y', 'z'])?;
    /// assert!(rt; set.move_after(&'x', &'z'));
    /// assert_eq!(rt; set.back(), Some(&'x'));
    /// assert!(rt; !set.move_after(&'w', &'z'));
    /// ```
    #[inline]
    pub fn move_after<Q: Equivalent<T>, P: Equivalent<T>>(&mut self, item: Q, other: P) -> bool
        ensures present { result ≡ (contains Q.equivalent self.old.items item
            && contains P.equivalent self.old.items other) }
        ensures items { IsTrue result → self.new.items
            ≡ to_after Q.equivalent P.equivalent self.old.items item other }
        ensures keeps { Keeps self.old self.new }
        ensures unchanged { IsFalse result → self.new ≡ self.old }
        ensures stays_valid { IsValid T.eq self.new }
        // As many items as before, and each is found that was.
        ensures len { length self.new.items ≡ length self.old.items }
        ensures finds { (q : T) → find T.eq self.new.items q ≡ find T.eq self.old.items q }
        ensures contains { (q : T)
            → contains T.eq self.new.items q ≡ contains T.eq self.old.items q }
    {
        self.map.move_after(item, other)
    }

    /// Reverses the order of the items, in O(n). It allocates nothing, and hashes no item.
    ///
    /// # Examples
    ///
    /// ```rust
    /// let mut set = LinkedHashSet::new(rt.alloc());
    /// set.extend(['x', 'y', 'z'])?;
    /// set.reverse();
    /// assert!(rt; set.iter().eq(&['z', 'y', 'x']));
    /// ```
    pub fn reverse(&mut self)
        ensures items { self.new.items ≡ reverse self.old.items }
        ensures keeps { Keeps self.old self.new }
        ensures stays_valid { IsValid T.eq self.new }
        // As many items as before, and each is found that was.
        ensures len { length self.new.items ≡ length self.old.items }
        ensures finds { (q : T) → find T.eq self.new.items q ≡ find T.eq self.old.items q }
        ensures contains { (q : T)
            → contains T.eq self.new.items q ≡ contains T.eq self.old.items q }
    {
        self.map.reverse();
    }
}
