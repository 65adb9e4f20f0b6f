//! Maps filled from an iterator.
ghost use Rattle.std.specs.Prelude.{◌≡◌, ℕ, ◌+◌, ◌-◌, ◌≤◌, [], max, length, None, IfOk, IfErr, OnErr, OnOk, IsOk, IsErrOf};
ghost use Rattle.std.specs.Iterator.{IsFiniteIterable};
ghost use Rattle.std.specs.Map.Iter.{deref_pair};
ghost use Rattle.linked_hash_map.specs.Pairs.{find};
ghost use Rattle.linked_hash_map.specs.Changes.{KeepsSettings};
ghost use Rattle.linked_hash_map.specs.Cursor.{to_visit};
ghost use Rattle.linked_hash_map.specs.Validity.{IsValid};
ghost use Rattle.linked_hash_map.specs.Counts.{rechained_each};
ghost use Rattle.linked_hash_map.specs.Inserts.{LeavesVisit, GivesAtMost, InsertsAll, InsertsUntil, Collects, HintsAboveLimit, NeedsRoom};

mod traits;

use crate::error::{Refused, ReserveError};
use crate::map::{LinkedHashMap, Mode};
use std::alloc::Global;
use std::hash::{BuildHasher, Hash};

impl<K: Eq + Hash, V, S: BuildHasher> LinkedHashMap<K, V, S> {
    /// Inserts the items one by one, each as `insert` does, hashing its key once. It is O(m) for m
    /// items, or up to O(n + m) if it raises the capacity.
    ///
    /// The first refused is the error: the pairs before it stay, and no later item is taken.
    ///
    /// # Examples
    ///
    /// ```rust
    /// let mut map = LinkedHashMap::new(rt.alloc());
    /// map.extend([('x', 1), ('y', 2), ('x', 3)])?;
    /// assert_eq!(rt; map.front(), Some((&'y', &2)));
    /// assert_eq!(rt; map.back(), Some((&'x', &3)));
    /// ```
    pub fn extend<I: IntoIterator<Item = (K, V)>>(&mut self, items: I) -> Result<(), Refused<K, V>>
    where
        K: Drop,
        V: Drop,
        I::IntoIter: Drop,
        requires ends { IsFiniteIterable I.into_iter_gives I.IntoIter.can_next
            I.IntoIter.remaining items }
        // On success all pairs are inserted, in order.
        ensures all { OnOk result
            (InsertsAll I.into_iter_gives I.IntoIter.next_gives items K.eq (λ pair. pair)
            self.old.mode self.old.pairs self.new.pairs) }
        ensures capacity { self.new.capacity ≡ max self.old.capacity (length self.new.pairs) }
        ensures rechained { self.new.rechained
            ≡ rechained_each self.old.rechained self.old.capacity
            (self.new.capacity - self.old.capacity) }
        ensures settings { KeepsSettings self.old self.new }
        // A present key ends a visit. If each is new, the same is left to visit.
        ensures to_visit { OnOk result
            ((inserts : InsertsAll I.into_iter_gives I.IntoIter.next_gives items K.eq (λ pair. pair)
            self.old.mode self.old.pairs self.new.pairs)
            × LeavesVisit (length inserts.given) self.old self.new) }
        ensures valid { IsValid K.eq self.old }
        ensures stays_valid { IsValid K.eq self.new }

        // On failure the pair comes back that was refused, and those before it are inserted.
        ensures visit_stopped { IfErr result (λ refused.
            (inserts : InsertsUntil I.into_iter_gives I.IntoIter.next_gives items K.eq (λ pair. pair)
            self.old.mode self.old.pairs self.new.pairs refused.key refused.value)
            × LeavesVisit (length inserts.given) self.old self.new) }
        ensures stopped { IfErr result (λ refused.
            InsertsUntil I.into_iter_gives I.IntoIter.next_gives items K.eq (λ pair. pair)
            self.old.mode self.old.pairs self.new.pairs refused.key refused.value) }
        ensures absent { IfErr result (λ refused. find K.eq self.new.pairs refused.key ≡ None) }
        ensures full { OnErr result (length self.new.pairs ≡ self.new.capacity) }
        // Its key is new. Nothing fails if there is room for all.
        ensures new_key { IfErr result (λ refused. find K.eq self.old.pairs refused.key ≡ None) }
        ensures succeeds { (n : ℕ) → GivesAtMost I.into_iter_gives I.IntoIter.remaining items n
            → length self.old.pairs + n ≤ self.old.capacity → IsOk result }
    {
        // Shows that the map is valid if no item comes.
        let _len = self.len();
        for (key, value) in items {
            match self.insert(key, value) {
                Ok(old) => drop(old),
                Err(refused) => return Err(refused),
            }
        }
        Ok(())
    }

    /// Inserts copies of the referenced pairs, as `extend` does. It is O(m) for m items, or up to
    /// O(n + m) if it raises the capacity.
    ///
    /// # Examples
    ///
    /// ```rust
    /// let mut map = LinkedHashMap::new(rt.alloc());
    /// map.extend_refs([(&'x', &1), (&'y', &2)])?;
    /// assert_eq!(rt; map.back(), Some((&'y', &2)));
    /// ```
    pub fn extend_refs<'a, I: IntoIterator<Item = (&'a K, &'a V)>>(
        &mut self,
        items: I,
    ) -> Result<(), Refused<K, V>>
    where
        K: Copy + 'a,
        V: Copy + 'a,
        I::IntoIter: Drop,
        requires ends { IsFiniteIterable I.into_iter_gives I.IntoIter.can_next
            I.IntoIter.remaining items }
        // On success all pairs are inserted, in order.
        ensures all { OnOk result
            (InsertsAll I.into_iter_gives I.IntoIter.next_gives items K.eq deref_pair self.old.mode
            self.old.pairs self.new.pairs) }
        ensures capacity { self.new.capacity ≡ max self.old.capacity (length self.new.pairs) }
        ensures rechained { self.new.rechained
            ≡ rechained_each self.old.rechained self.old.capacity
            (self.new.capacity - self.old.capacity) }
        ensures settings { KeepsSettings self.old self.new }
        // A present key ends a visit. If each is new, the same is left to visit.
        ensures to_visit { OnOk result
            ((inserts : InsertsAll I.into_iter_gives I.IntoIter.next_gives items K.eq deref_pair
            self.old.mode self.old.pairs self.new.pairs)
            × LeavesVisit (length inserts.given) self.old self.new) }
        ensures valid { IsValid K.eq self.old }
        ensures stays_valid { IsValid K.eq self.new }

        // On failure the pair comes back that was refused, and those before it are inserted.
        ensures visit_stopped { IfErr result (λ refused.
            (inserts : InsertsUntil I.into_iter_gives I.IntoIter.next_gives items K.eq deref_pair
            self.old.mode self.old.pairs self.new.pairs refused.key refused.value)
            × LeavesVisit (length inserts.given) self.old self.new) }
        ensures stopped { IfErr result (λ refused.
            InsertsUntil I.into_iter_gives I.IntoIter.next_gives items K.eq deref_pair self.old.mode
            self.old.pairs self.new.pairs refused.key refused.value) }
        ensures absent { IfErr result (λ refused. find K.eq self.new.pairs refused.key ≡ None) }
        ensures full { OnErr result (length self.new.pairs ≡ self.new.capacity) }
        // Its key is new. Nothing fails if there is room for all.
        ensures new_key { IfErr result (λ refused. find K.eq self.old.pairs refused.key ≡ None) }
        ensures succeeds { (n : ℕ) → GivesAtMost I.into_iter_gives I.IntoIter.remaining items n
            → length self.old.pairs + n ≤ self.old.capacity → IsOk result }
    {
        // Shows that the map is valid if no item comes.
        let _len = self.len();
        for (key, value) in items {
            match self.insert(*key, *value) {
                Ok(_old) => {}
                Err(refused) => return Err(refused),
            }
        }
        Ok(())
    }

    /// Creates a map with the default hasher of its type and inserts the items, each as `insert`
    /// does, hashing its key once. It first reserves the lower bound of `size_hint`, in O(bound),
    /// and the capacity is that or, if larger, the number of pairs; at 0 it does not allocate.
    ///
    /// Returns `TooLarge` only if that bound is above [`LIMIT`](crate::LIMIT), with no item taken,
    /// and `NoRoom` if an allocation fails or an insertion is refused; the items taken are dropped.
    ///
    /// # Examples
    ///
    /// ```rust
    /// let pairs = [('x', 1), ('y', 2)];
    /// let map: LinkedHashMap<char, u64> = LinkedHashMap::from_iter(rt.alloc(), pairs)?;
    /// assert_eq!(rt; (map.len(), map.capacity()), (2, 2));
    /// ```
    pub fn from_iter<I: IntoIterator<Item = (K, V)>>(
        alloc: Global,
        items: I,
    ) -> Result<Self, ReserveError>
    where
        K: Drop,
        V: Drop,
        S: Default + Drop,
        I::IntoIter: Drop,
        requires ends { IsFiniteIterable I.into_iter_gives I.IntoIter.can_next
            I.IntoIter.remaining items }
        ensures all { IfOk result (λ map.
            Collects I.into_iter_gives I.IntoIter.next_gives items I.IntoIter.remaining K.eq
            map.pairs map.capacity map.rechained) }
        ensures hasher { IfOk result (λ map. S.is_default map.hasher) }
        ensures mode { IfOk result (λ map. map.mode ≡ Mode.Touch) }
        ensures to_visit { IfOk result (λ map. to_visit map ≡ []) }
        ensures valid { IfOk result (IsValid K.eq) }

        ensures too_large { IsErrOf result ReserveError.TooLarge →
            HintsAboveLimit I.into_iter_gives I.IntoIter.next_gives items I.IntoIter.remaining }
        ensures no_room { IsErrOf result ReserveError.NoRoom →
            NeedsRoom I.into_iter_gives I.IntoIter.next_gives items I.IntoIter.remaining }
    {
        let items = items.into_iter();
        let (lower, _) = items.size_hint();
        let mut map = Self::with_capacity_and_hasher(alloc, lower, S::default())?;
        match map.extend(items) {
            Ok(()) => Ok(map),
            Err(_refused) => Err(ReserveError::NoRoom),
        }
    }
}
