//! Moves of a pair beside another.
ghost use Rattle.std.specs.Prelude.{◌≡◌, ℕ, ◌+◌, ◌&&◌, [], cond, length, is_some, IfSome, IsTrue, IsFalse};
ghost use Rattle.linked_hash_map.specs.Pairs.{find, count_before, to_behind, to_before, to_after};
ghost use Rattle.linked_hash_map.specs.Cursor.{to_visit};
ghost use Rattle.linked_hash_map.specs.Changes.{Keeps};
ghost use Rattle.linked_hash_map.specs.Validity.{IsValid};
ghost use Rattle.lhm_ring.specs.Pointer.{pointer_of, pointer_of_some};
ghost use Rattle.lhm_ring.specs.Positions.{IsAt, PlaceAt};
ghost use Rattle.lhm_ring.specs.Ring.{IsHeld};

use super::LinkedHashMap;
use super::get::locate;
use equivalent::Equivalent;
use lhm_ring::table::{Position, Table};
use std::hash::{BuildHasher, Hash};

/// Returns the pair before which one goes that is put before or after another.
#[inline]
fn place_beside<K, V>(
    table: &Table<K, V>,
    other: Position<K, V>,
    after: bool,
) -> Option<Position<K, V>>
    requires { IsHeld table.now.held (pointer_of other) }
    ensures place { (i : ℕ) → IsAt table.now.held (pointer_of other) i
        → PlaceAt table.now.held (pointer_of_some result) (cond after (i + 1) i) }
    ensures held { IfSome result (λ next. IsHeld table.now.held (pointer_of next)) }
{
    if after {
        table.next(other)
    } else {
        Some(other)
    }
}

impl<K: Eq + Hash, V, S: BuildHasher> LinkedHashMap<K, V, S> {
    /// Moves the pair of a key before or after that of another, if both are present, and returns
    /// whether they are.
    #[inline]
    fn move_beside<Q: Equivalent<K>, P: Equivalent<K>>(
        &mut self,
        key: Q,
        other: P,
        after: bool,
    ) -> bool
        ensures found { result ≡ (is_some (find Q.equivalent self.old.pairs key)
            && is_some (find P.equivalent self.old.pairs other)) }
        ensures pairs { IsTrue result → self.new.pairs ≡ to_behind Q.equivalent self.old.pairs key
            (cond after (count_before P.equivalent self.old.pairs other + 1)
            (count_before P.equivalent self.old.pairs other)) }
        ensures keeps { Keeps self.old self.new }
        ensures ends_visit { IsTrue result → to_visit self.new ≡ [] }
        ensures unchanged { IsFalse result → self.new ≡ self.old }
        ensures valid { IsValid K.eq self.old }
        ensures stays_valid { IsValid K.eq self.new }
        ensures len { length self.new.pairs ≡ length self.old.pairs }
        ensures finds { (q : K) → find K.eq self.new.pairs q ≡ find K.eq self.old.pairs q }
    {
        let (_, found) = locate(&self.table, &self.hasher, key);
        let Some(at) = found else {
            return false;
        };
        let (_, found_other) = locate(&self.table, &self.hasher, other);
        let Some(beside) = found_other else {
            return false;
        };
        let next = place_beside(&self.table, beside, after);
        self.state.active = false;
        self.table.move_before(at, next);
        true
    }

    /// Moves the pair of a key right before that of another, in both modes, and returns whether
    /// both are present, in O(1). If one is absent, nothing changes. A pair that is already there
    /// stays, and so does one beside itself, but a visit ends. The others keep their order. Hashes
    /// each key once at most, and allocates nothing.
    ///
    /// # Examples
    ///
    /// ```rust
    /// let mut map = LinkedHashMap::new(rt.alloc());
    /// map.extend([('x', 1), ('y', 2), ('z', 3)])?;
    /// assert!(rt; map.move_before(&'z', &'x'));
    /// assert_eq!(rt; map.front(), Some((&'z', &3)));
    /// assert!(rt; !map.move_before(&'z', &'w'));
    /// ```
    #[inline]
    pub fn move_before<Q: Equivalent<K>, P: Equivalent<K>>(&mut self, key: Q, other: P) -> bool
        ensures found { result ≡ (is_some (find Q.equivalent self.old.pairs key)
            && is_some (find P.equivalent self.old.pairs other)) }
        ensures pairs { IsTrue result → self.new.pairs
            ≡ to_before Q.equivalent P.equivalent self.old.pairs key other }
        ensures keeps { Keeps self.old self.new }
        ensures ends_visit { IsTrue result → to_visit self.new ≡ [] }
        ensures unchanged { IsFalse result → self.new ≡ self.old }
        ensures valid { IsValid K.eq self.old }
        ensures stays_valid { IsValid K.eq self.new }
        // As many pairs as before, and each key finds what it found.
        ensures len { length self.new.pairs ≡ length self.old.pairs }
        ensures finds { (q : K) → find K.eq self.new.pairs q ≡ find K.eq self.old.pairs q }
    {
        self.move_beside(key, other, false)
    }

    /// Moves the pair of a key right after that of another, in both modes, and returns whether both
    /// are present, in O(1). If one is absent, nothing changes. A pair that is already there stays,
    /// and so does one beside itself, but a visit ends. The others keep their order. Hashes each
    /// key once at most, and allocates nothing.
    ///
    /// # Examples
    ///
    /// ```rust
    /// let mut map = LinkedHashMap::new(rt.alloc());
    /// map.extend([('x', 1), ('y', 2), ('z', 3)])?;
    /// assert!(rt; map.move_after(&'x', &'z'));
    /// assert_eq!(rt; map.back(), Some((&'x', &1)));
    /// assert!(rt; !map.move_after(&'w', &'z'));
    /// ```
    #[inline]
    pub fn move_after<Q: Equivalent<K>, P: Equivalent<K>>(&mut self, key: Q, other: P) -> bool
        ensures found { result ≡ (is_some (find Q.equivalent self.old.pairs key)
            && is_some (find P.equivalent self.old.pairs other)) }
        ensures pairs { IsTrue result → self.new.pairs
            ≡ to_after Q.equivalent P.equivalent self.old.pairs key other }
        ensures keeps { Keeps self.old self.new }
        ensures ends_visit { IsTrue result → to_visit self.new ≡ [] }
        ensures unchanged { IsFalse result → self.new ≡ self.old }
        ensures valid { IsValid K.eq self.old }
        ensures stays_valid { IsValid K.eq self.new }
        // As many pairs as before, and each key finds what it found.
        ensures len { length self.new.pairs ≡ length self.old.pairs }
        ensures finds { (q : K) → find K.eq self.new.pairs q ≡ find K.eq self.old.pairs q }
    {
        self.move_beside(key, other, true)
    }
}
