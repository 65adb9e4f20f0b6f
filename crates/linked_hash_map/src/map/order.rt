//! The order of the pairs: moves to the ends, rotation and the reverse.
ghost use Rattle.std.specs.Prelude.{◌≡◌, ◌≤◌, ◌++◌, [], length, take, drop, reverse, is_some, IsTrue, IsFalse};
ghost use Rattle.linked_hash_map.specs.Pairs.{first, last, find, to_back_as_is, to_front};
ghost use Rattle.linked_hash_map.specs.Cursor.{to_visit};
ghost use Rattle.linked_hash_map.specs.Changes.{Keeps};
ghost use Rattle.linked_hash_map.specs.Validity.{IsValid};

use super::LinkedHashMap;
use super::get::locate;
use equivalent::Equivalent;
use std::hash::{BuildHasher, Hash};

impl<K: Eq + Hash, V, S: BuildHasher> LinkedHashMap<K, V, S> {
    /// Moves the pair of a key to the back, in both modes, and returns whether it is present, in
    /// O(1). If it is, a visit ends, even if the pair is there already. The others keep their
    /// order. Hashes the key once.
    ///
    /// # Examples
    ///
    /// ```rust
    /// let mut map = LinkedHashMap::new(rt.alloc());
    /// map.extend([('x', 1), ('y', 2)])?;
    /// assert!(rt; map.move_to_back(&'x'));
    /// assert_eq!(rt; map.back(), Some((&'x', &1)));
    /// assert!(rt; !map.move_to_back(&'z'));
    /// ```
    #[inline(always)]
    pub fn move_to_back<Q: Equivalent<K>>(&mut self, key: Q) -> bool
        ensures found { result ≡ is_some (find Q.equivalent self.old.pairs key) }
        ensures pairs { self.new.pairs ≡ to_back_as_is Q.equivalent self.old.pairs key }
        ensures keeps { Keeps self.old self.new }
        ensures ends_visit { IsTrue result → to_visit self.new ≡ [] }
        ensures unchanged { IsFalse result → self.new ≡ self.old }
        ensures valid { IsValid K.eq self.old }
        ensures stays_valid { IsValid K.eq self.new }
        // As many pairs as before, the moved one last, and each key finds what it found.
        ensures len { length self.new.pairs ≡ length self.old.pairs }
        ensures last { IsTrue result
            → last self.new.pairs ≡ find Q.equivalent self.old.pairs key }
        ensures finds { (q : K) → find K.eq self.new.pairs q ≡ find K.eq self.old.pairs q }
    {
        let (_, found) = locate(&self.table, &self.hasher, key);
        match found {
            Some(at) => {
                self.state.active = false;
                self.table.move_to_back(at);
                true
            }
            None => false,
        }
    }

    /// Moves the pair of a key to the front, in both modes, and returns whether it is present, in
    /// O(1). If it is, a visit ends, even if the pair is there already. The others keep their
    /// order. Hashes the key once.
    ///
    /// # Examples
    ///
    /// ```rust
    /// let mut map = LinkedHashMap::new(rt.alloc());
    /// map.extend([('x', 1), ('y', 2)])?;
    /// assert!(rt; map.move_to_front(&'y'));
    /// assert_eq!(rt; map.front(), Some((&'y', &2)));
    /// assert!(rt; !map.move_to_front(&'z'));
    /// ```
    #[inline]
    pub fn move_to_front<Q: Equivalent<K>>(&mut self, key: Q) -> bool
        ensures found { result ≡ is_some (find Q.equivalent self.old.pairs key) }
        ensures pairs { self.new.pairs ≡ to_front Q.equivalent self.old.pairs key }
        ensures keeps { Keeps self.old self.new }
        ensures ends_visit { IsTrue result → to_visit self.new ≡ [] }
        ensures unchanged { IsFalse result → self.new ≡ self.old }
        ensures valid { IsValid K.eq self.old }
        ensures stays_valid { IsValid K.eq self.new }
        // As many pairs as before, the moved one first, and each key finds what it found.
        ensures len { length self.new.pairs ≡ length self.old.pairs }
        ensures first { IsTrue result
            → first self.new.pairs ≡ find Q.equivalent self.old.pairs key }
        ensures finds { (q : K) → find K.eq self.new.pairs q ≡ find K.eq self.old.pairs q }
    {
        let (_, found) = locate(&self.table, &self.hasher, key);
        match found {
            Some(at) => {
                self.state.active = false;
                self.table.move_to_front(at);
                true
            }
            None => false,
        }
    }

    /// Moves the first `count` pairs behind the others, in order, in O(min(count, len - count)).
    /// `count` has to be proved at most the length: std's sequences panic on others. Hashes no key,
    /// and ends a visit.
    ///
    /// # Examples
    ///
    /// ```rust
    /// let mut map = LinkedHashMap::new(rt.alloc());
    /// map.extend([('x', 1), ('y', 2), ('z', 3)])?;
    /// if map.len() >= 2 {
    ///     map.rotate_left(2);
    /// }
    /// assert_eq!(rt; map.front(), Some((&'z', &3)));
    /// assert_eq!(rt; map.back(), Some((&'y', &2)));
    /// ```
    pub fn rotate_left(&mut self, count: usize)
        requires { count ≤ length self.old.pairs }
        ensures pairs { self.new.pairs ≡ drop count self.old.pairs ++ take count self.old.pairs }
        ensures keeps { Keeps self.old self.new }
        ensures ends_visit { to_visit self.new ≡ [] }
        ensures valid { IsValid K.eq self.old }
        ensures stays_valid { IsValid K.eq self.new }
        // As many pairs as before, and each key finds what it found.
        ensures len { length self.new.pairs ≡ length self.old.pairs }
        ensures finds { (q : K) → find K.eq self.new.pairs q ≡ find K.eq self.old.pairs q }
    {
        self.state.active = false;
        self.table.rotate_left(count);
    }

    /// Reverses the order of the pairs, in O(n). It allocates nothing, hashes no key and ends a
    /// visit.
    ///
    /// # Examples
    ///
    /// ```rust
    /// let mut map = LinkedHashMap::new(rt.alloc());
    /// map.extend([('x', 1), ('y', 2), ('z', 3)])?;
    /// map.reverse();
    /// assert_eq!(rt; map.front(), Some((&'z', &3)));
    /// assert_eq!(rt; map.back(), Some((&'x', &1)));
    /// ```
    pub fn reverse(&mut self)
        ensures pairs { self.new.pairs ≡ reverse self.old.pairs }
        ensures keeps { Keeps self.old self.new }
        ensures ends_visit { to_visit self.new ≡ [] }
        ensures valid { IsValid K.eq self.old }
        ensures stays_valid { IsValid K.eq self.new }
        // As many pairs as before, and each key finds what it found.
        ensures len { length self.new.pairs ≡ length self.old.pairs }
        ensures finds { (q : K) → find K.eq self.new.pairs q ≡ find K.eq self.old.pairs q }
    {
        self.state.active = false;
        self.table.reverse();
    }
}
