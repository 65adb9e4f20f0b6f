//! The ends: insertion at the front, and the end pairs as the current one.
ghost use Rattle.std.specs.Prelude.{◌≡◌, ◌+◌, ◌-◌, ◌<◌, [], ◌∷◌, ◌++◌, length, max, take, drop, Some, None, OnOk, OnErr, IfOk, IfErr, IsTrue, IsFalse, IsSome};
ghost use Rattle.linked_hash_map.specs.Pairs.{first, key_or, find, value_at, put_front};
ghost use Rattle.linked_hash_map.specs.LinkedMap.{without_entry};
ghost use Rattle.linked_hash_map.specs.Cursor.{to_visit, without_cursor, IsOutside};
ghost use Rattle.linked_hash_map.specs.Changes.{Keeps, KeepsSettings};
ghost use Rattle.linked_hash_map.specs.Validity.{IsValid};
ghost use Rattle.linked_hash_map.specs.Counts.{rechained_raised};
ghost use Rattle.linked_hash_map.specs.Updates.{Updates};

use super::cursor::State;
use super::{LinkedHashMap, Mode};
use crate::error::Refused;
use std::hash::{BuildHasher, Hash};

impl<K: Eq + Hash, V, S: BuildHasher> LinkedHashMap<K, V, S> {
    /// Inserts a pair at the front and returns the old value of its key, or `None` if the key is
    /// new. For a present key the stored key stays, `key` is dropped, and in [`Mode::Keep`] the
    /// pair keeps its place. Hashes the key once.
    ///
    /// It allocates, and is refused, as [`insert`](LinkedHashMap::insert) is. It is O(1), or up to
    /// O(n) at full capacity. An insertion ends a visit.
    ///
    /// # Examples
    ///
    /// ```rust
    /// let mut map = LinkedHashMap::new(rt.alloc());
    /// assert_eq!(rt; map.insert_front('x', 1)?, None);
    /// assert_eq!(rt; map.insert_front('y', 2)?, None);
    /// assert_eq!(rt; map.front(), Some((&'y', &2)));
    /// assert_eq!(rt; map.insert_front('x', 3)?, Some(1));
    /// assert_eq!(rt; map.front(), Some((&'x', &3)));
    /// ```
    pub fn insert_front(&mut self, key: K, value: V) -> Result<Option<V>, Refused<K, V>>
    where
        K: Drop,
        // On success the key has the value, its old value is returned, and the others keep theirs.
        ensures old { IfOk result (λ old. old ≡ value_at K.eq self.old.pairs key) }
        ensures pairs { OnOk result
            (self.new.pairs ≡ put_front K.eq self.old.mode self.old.pairs key value) }
        ensures capacity { OnOk result
            (self.new.capacity ≡ max self.old.capacity (length self.new.pairs)) }
        ensures rechained { OnOk result
            (self.new.rechained ≡ rechained_raised self.old.rechained (length self.old.pairs)
            self.old.capacity self.new.capacity) }
        ensures settings { KeepsSettings self.old self.new }
        ensures ends_visit { OnOk result (to_visit self.new ≡ []) }
        ensures valid { IsValid K.eq self.old }
        ensures stays_valid { IsValid K.eq self.new }
        // Where the pair stands, how many there are, and when the capacity stays.
        ensures updates { OnOk result
            (Updates K.eq self.old.pairs self.new.pairs key (Some value)) }
        ensures first { OnOk result (self.old.mode ≡ Mode.Touch → first self.new.pairs
            ≡ Some (key_or key (find K.eq self.old.pairs key), value)) }
        ensures pushed { OnOk result (value_at K.eq self.old.pairs key ≡ None
            → self.new.pairs ≡ (key, value) ∷ self.old.pairs) }
        ensures more { OnOk result (value_at K.eq self.old.pairs key ≡ None
            → length self.new.pairs ≡ length self.old.pairs + 1) }
        ensures as_many { OnOk result (IsSome (value_at K.eq self.old.pairs key)
            → length self.new.pairs ≡ length self.old.pairs) }
        ensures same_room { OnOk result ((find K.eq self.old.pairs key ≡ None
            → length self.old.pairs < self.old.capacity) → self.new.capacity ≡ self.old.capacity) }

        // On failure the pair comes back and nothing changes: its key is new, and the map is full.
        ensures key_back { IfErr result (λ refused. refused.key ≡ key) }
        ensures value_back { IfErr result (λ refused. refused.value ≡ value) }
        ensures unchanged { OnErr result (self.new ≡ self.old) }
        ensures absent { OnErr result (find K.eq self.old.pairs key ≡ None) }
        ensures full { OnErr result (length self.old.pairs ≡ self.old.capacity) }
    {
        match self.insert(key, value) {
            Ok(Some(old)) => {
                self.touch_front();
                Ok(Some(old))
            }
            Ok(None) => {
                self.last_to_front();
                Ok(None)
            }
            Err(refused) => Err(refused),
        }
    }

    /// Moves the back pair to the front.
    fn last_to_front(&mut self)
        requires { 0 < length self.old.pairs }
        ensures pairs { self.new.pairs ≡ drop (length self.old.pairs - 1) self.old.pairs
            ++ take (length self.old.pairs - 1) self.old.pairs }
        ensures keeps { Keeps self.old self.new }
        ensures ends_visit { to_visit self.new ≡ [] }
        ensures stays_valid { IsValid K.eq self.new }
        ensures len { length self.new.pairs ≡ length self.old.pairs }
        ensures finds { (q : K) → find K.eq self.new.pairs q ≡ find K.eq self.old.pairs q }
    {
        let last = self.len() - 1;
        self.rotate_left(last);
    }

    /// Moves the back pair to the front, except in `Keep`.
    fn touch_front(&mut self)
        requires { 0 < length self.old.pairs }
        ensures touch { self.old.mode ≡ Mode.Touch
            → self.new.pairs ≡ drop (length self.old.pairs - 1) self.old.pairs
            ++ take (length self.old.pairs - 1) self.old.pairs }
        ensures keep { self.old.mode ≡ Mode.Keep → self.new.pairs ≡ self.old.pairs }
        ensures keeps { Keeps self.old self.new }
        ensures ends_visit { to_visit self.old ≡ [] → to_visit self.new ≡ [] }
        ensures stays_valid { IsValid K.eq self.new }
        ensures len { length self.new.pairs ≡ length self.old.pairs }
        ensures finds { (q : K) → find K.eq self.new.pairs q ≡ find K.eq self.old.pairs q }
    {
        match self.state.mode {
            Mode::Touch => self.last_to_front(),
            Mode::Keep => {}
        }
    }

    /// Makes the front pair the current one, ending a visit, and returns whether there is one.
    pub(crate) fn seek_front(&mut self) -> bool
        ensures front { IsTrue result → self.new.cursor.current ≡ 0 }
        ensures within { IsTrue result → self.new.cursor.current < length self.new.pairs }
        ensures ends_visit { IsTrue result
            → record self.new { cursor = without_entry self.new.cursor } ≡ without_cursor self.old }
        ensures outside { IsTrue result → IsOutside self.new.cursor.current self.new }
        ensures none { IsFalse result → self.old.pairs ≡ [] }
        ensures unchanged { IsFalse result → self.new ≡ self.old }
        ensures valid { IsValid K.eq self.old }
    {
        let Some(front) = self.table.first() else {
            return false;
        };
        self.state = State::at(front, self.state.mode);
        true
    }

    /// Makes the back pair the current one, ending a visit, and returns whether there is one.
    pub(crate) fn seek_back(&mut self) -> bool
        ensures back { IsTrue result → self.new.cursor.current ≡ length self.old.pairs - 1 }
        ensures within { IsTrue result → self.new.cursor.current < length self.new.pairs }
        ensures ends_visit { IsTrue result
            → record self.new { cursor = without_entry self.new.cursor } ≡ without_cursor self.old }
        ensures outside { IsTrue result → IsOutside self.new.cursor.current self.new }
        ensures none { IsFalse result → self.old.pairs ≡ [] }
        ensures unchanged { IsFalse result → self.new ≡ self.old }
        ensures valid { IsValid K.eq self.old }
    {
        let Some(back) = self.table.last() else {
            return false;
        };
        self.state = State::at(back, self.state.mode);
        true
    }
}
