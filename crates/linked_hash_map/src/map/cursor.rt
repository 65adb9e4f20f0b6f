//! Where a cursor or an entry stands. Contracts speak of indexes into the list of pairs.
ghost use Rattle.std.specs.Prelude.{◌≡◌, ℕ, ◌+◌, ◌<◌, [], length, option_map, None, ◌∷◌, map, remove, slice_get, Some, IsTrue, IsFalse};
ghost use Rattle.std.specs.Map.{keys_of};
ghost use Rattle.std.specs.Borrow.{sem};
ghost use Rattle.linked_hash_map.specs.Pairs.{find, put, set_key, to_back_as_is, to_front};
ghost use Rattle.linked_hash_map.specs.Cursor.{to_visit, without_cursor, IsOutside};
ghost use Rattle.linked_hash_map.specs.Changes.{Keeps, MovesCurrent};
ghost use Rattle.linked_hash_map.specs.Validity.{IsValid};
ghost use Rattle.linked_hash_map.specs.Hashers.{hash_by};
ghost use Rattle.linked_hash_map.specs.Indexes.{IsIndex};
ghost use Rattle.linked_hash_map.specs.Nodes.{bookmark_of, unvisited_of, current_of};
ghost use Rattle.lhm_ring.specs.Nodes.{IsApart};
ghost use Rattle.lhm_ring.specs.Pointer.{pointer_of, pointer_of_some};
ghost use Rattle.lhm_ring.specs.Positions.{IsAt, PlaceAt};
ghost use Rattle.lhm_ring.specs.Ring.{IsHeld};

use super::get::locate;
use super::insert::touch;
use super::{LinkedHashMap, Mode};
use lhm_ring::ring::Link;
use lhm_ring::table::{Position, Table};
use std::hash::{BuildHasher, Hash};
use std::mem;

/// What a map has beside its pairs and its hasher: the mode, and where a cursor or an entry stands.
#[derive(Clone, Copy)]
pub(super) struct State {
    /// Whether `bookmark`, `unvisited` and `current` mean anything. A call that ends a visit clears
    /// this alone.
    pub(super) active: bool,
    /// Whether inserting a present key moves its pair. It shares a word with `active`.
    pub(super) mode: Mode,
    /// The next pair to visit.
    bookmark: Link,
    /// The number of pairs left to visit.
    unvisited: usize,
    /// The pair of an occupied entry.
    current: Link,
}

impl State {
    /// Returns the state of a map without a visit and an entry.
    pub(super) fn new(mode: Mode) -> Self
        ensures bookmark { bookmark_of result ≡ None }
        ensures unvisited { unvisited_of result ≡ 0 }
        ensures current { current_of result ≡ None }
        ensures mode { result.mode ≡ mode }
    {
        State {
            active: false,
            mode,
            bookmark: Link::none(),
            unvisited: 0,
            current: Link::none(),
        }
    }

    /// Returns the state of a map with an entry of a pair, and no visit.
    #[inline]
    pub(super) fn at<K, V>(current: Position<K, V>, mode: Mode) -> Self
        ensures bookmark { bookmark_of result ≡ None }
        ensures unvisited { unvisited_of result ≡ 0 }
        ensures current { current_of result ≡ Some (pointer_of current) }
        ensures mode { result.mode ≡ mode }
    {
        State::on(None, 0, Some(current), mode)
    }

    /// Returns the state of a map with a visit: its next pair, how many are left, and the current
    /// pair.
    #[inline]
    fn on<K, V>(
        bookmark: Option<Position<K, V>>,
        unvisited: usize,
        current: Option<Position<K, V>>,
        mode: Mode,
    ) -> Self
        ensures bookmark { bookmark_of result ≡ pointer_of_some bookmark }
        ensures unvisited { unvisited_of result ≡ unvisited }
        ensures current { current_of result ≡ pointer_of_some current }
        ensures mode { result.mode ≡ mode }
    {
        State {
            active: true,
            mode,
            bookmark: Link::of(bookmark),
            unvisited,
            current: Link::of(current),
        }
    }

    /// Returns the next pair to visit.
    fn bookmark<K, V>(&self) -> Option<Position<K, V>>
        ensures { pointer_of_some result ≡ bookmark_of self.now }
    {
        if self.active {
            self.bookmark.get()
        } else {
            None
        }
    }

    /// Returns the number of pairs left to visit.
    fn unvisited(&self) -> usize
        ensures { result ≡ unvisited_of self.now }
    {
        if self.active { self.unvisited } else { 0 }
    }

    /// Returns the pair of an occupied entry.
    fn current<K, V>(&self) -> Option<Position<K, V>>
        ensures { pointer_of_some result ≡ current_of self.now }
    {
        if self.active {
            self.current.get()
        } else {
            None
        }
    }
}

/// Returns the pair behind this one, if it is left to visit.
fn bookmark_behind<K, V>(
    table: &Table<K, V>,
    at: Position<K, V>,
    unvisited: usize,
) -> Option<Position<K, V>>
    requires { IsHeld table.now.held (pointer_of at) }
    ensures none { unvisited ≡ 0 → result ≡ None }
    ensures next { 0 < unvisited → (index : ℕ) → IsAt table.now.held (pointer_of at) index →
        PlaceAt table.now.held (pointer_of_some result) (index + 1) }
    ensures apart { 0 < unvisited → IsApart (map (λ t. t.at) table.now.held) }
{
    if unvisited == 0 {
        return None;
    }
    table.next(at)
}

impl<K: Eq + Hash, V, S: BuildHasher> LinkedHashMap<K, V, S> {
    ghost use Rattle.linked_hash_map.specs.Lends.{lends_at, lends_left};

    /// Begins a visit of every pair, front to back.
    pub(crate) fn begin_visit(&mut self)
        ensures to_visit { to_visit self.new ≡ keys_of self.old.pairs }
        ensures pairs { self.new.pairs ≡ self.old.pairs }
        ensures keeps { Keeps self.old self.new }
        ensures valid { IsValid K.eq self.old }
    {
        let first = self.table.first();
        self.state = State::on(first, self.table.len(), None, self.state.mode);
    }

    /// Makes the next pair to visit the current one, and returns whether there was one.
    pub(crate) fn visit_next(&mut self) -> bool
        ensures key { IsTrue result → (key : K)
            → slice_get (keys_of self.old.pairs) self.new.cursor.current ≡ Some key
            → to_visit self.old ≡ key ∷ to_visit self.new }
        ensures within { IsTrue result → self.new.cursor.current < length self.new.pairs }
        ensures outside { IsTrue result → IsOutside self.new.cursor.current self.new }
        ensures pairs { self.new.pairs ≡ self.old.pairs }
        ensures keeps { Keeps self.old self.new }
        ensures valid { IsValid K.eq self.old }

        ensures none { IsFalse result → to_visit self.old ≡ [] }
        ensures unchanged { IsFalse result → self.new ≡ self.old }
    {
        let Some(at) = self.state.bookmark() else {
            return false;
        };
        let unvisited = self.state.unvisited() - 1;
        let next = bookmark_behind(&self.table, at, unvisited);
        self.state = State::on(next, unvisited, Some(at), self.state.mode);
        true
    }

    /// Returns the number of pairs left to visit, 0 without a visit, in O(1).
    ///
    /// # Examples
    ///
    /// ```rust
    /// let mut map = LinkedHashMap::new(rt.alloc());
    /// map.extend([('x', 1), ('y', 2)])?;
    /// let entries = map.visit();
    /// if let Some(mut entry) = entries.next_entry() {
    ///     assert_eq!(rt; entry.insert(3), 1);
    /// }
    /// assert_eq!(rt; entries.unvisited(), 1);
    /// ```
    pub fn unvisited(&self) -> usize
        ensures { result ≡ length (to_visit self.now) }
    {
        self.state.unvisited()
    }

    /// Makes the pair of a key the current one, ending a visit, and returns the hash of the key,
    /// and whether there is such a pair. Hashes the key once.
    #[inline]
    pub(crate) fn seek(&mut self, key: &K) -> (u64, bool)
        ensures hash { result.0
            ≡ hash_by S.Hasher.finish S.Hasher.write S.build_hasher K.hash_input self.old.hasher
            key.now }
        ensures found { IsTrue result.1
            → IsIndex K.eq self.old.pairs key.now self.new.cursor.current }
        ensures ends_visit { IsTrue result.1
            → without_cursor self.new ≡ without_cursor self.old }
        ensures visited { IsTrue result.1 → self.new.cursor.unvisited ≡ 0 }
        ensures bookmark { IsTrue result.1 → self.new.cursor.bookmark ≡ 0 }
        ensures outside { IsTrue result.1 → IsOutside self.new.cursor.current self.new }
        ensures absent { IsFalse result.1 → find K.eq self.old.pairs key.now ≡ None }
        ensures unchanged { IsFalse result.1 → self.new ≡ self.old }
        ensures valid { IsValid K.eq self.old }
    {
        let (hash, found) = locate(&self.table, &self.hasher, key);
        let Some(at) = found else {
            return (hash, false);
        };
        self.state = State::at(at, self.state.mode);
        (hash, true)
    }

    /// Returns references to the current pair.
    pub(crate) fn current_pair(&self) -> (&K, &V)
        requires { self.now.cursor.current < length self.now.pairs }
        ensures pair { slice_get self.now.pairs self.now.cursor.current
            ≡ Some (result.0.now, result.1.now) }
        ensures valid { IsValid K.eq self.now }
    {
        let at = self.state.current().unwrap();
        (self.table.key(at), self.table.value(at))
    }

    /// Returns a mutable reference to the value of the current pair.
    pub(crate) fn current_value_mut(&mut self) -> &mut V
        requires { self.old.cursor.current < length self.old.pairs }
        ensures* writes_back { sem 𝓛
            (lends_at K.row V.row S.row S.Hasher.row K.Hash S.BuildHasher S.Hasher.Hasher self.entry
            self.old.cursor.current result) }
        ensures value { option_map (λ pair. pair.1)
            (slice_get self.old.pairs self.old.cursor.current)
            ≡ Some result.now }
        ensures valid { IsValid K.eq self.old }
    {
        let at = self.state.current().unwrap();
        self.table.value_mut(at)
    }

    /// Returns a mutable reference to the value of the current pair. None is then current.
    pub(crate) fn leave_current(&mut self) -> &mut V
        requires { self.old.cursor.current < length self.old.pairs }
        ensures* writes_back { sem 𝓛
            (lends_left K.row V.row S.row S.Hasher.row K.Hash S.BuildHasher S.Hasher.Hasher
            self.entry result) }
        ensures value { option_map (λ pair. pair.1)
            (slice_get self.old.pairs self.old.cursor.current)
            ≡ Some result.now }
        ensures valid { IsValid K.eq self.old }
    {
        let at = self.state.current().unwrap();
        self.state.current = Link::none();
        self.table.value_mut(at)
    }

    /// Replaces the value of the current pair, which moves as the mode says, and returns the old
    /// one.
    #[inline]
    pub(crate) fn insert_current(&mut self, value: V) -> V
        requires within { self.old.cursor.current < length self.old.pairs }
        requires outside { IsOutside self.old.cursor.current self.old }
        ensures pairs { (key : K) → IsIndex K.eq self.old.pairs key self.old.cursor.current →
            self.new.pairs ≡ put K.eq self.old.mode self.old.pairs key value }
        ensures old { option_map (λ pair. pair.1) (slice_get self.old.pairs self.old.cursor.current)
            ≡ Some result }
        ensures moves { MovesCurrent K.eq (λ pair. (pair.0, value)) self.old self.new }
    {
        let at = self.state.current().unwrap();
        touch(&mut self.table, at, self.state.mode);
        mem::replace(self.table.value_mut(at), value)
    }

    /// Moves the current pair to the back.
    pub(crate) fn move_current_to_back(&mut self)
        requires within { self.old.cursor.current < length self.old.pairs }
        requires outside { IsOutside self.old.cursor.current self.old }
        ensures pairs { (key : K) → IsIndex K.eq self.old.pairs key self.old.cursor.current →
            self.new.pairs ≡ to_back_as_is K.eq self.old.pairs key }
        ensures moves { MovesCurrent K.eq (λ pair. pair) self.old self.new }
    {
        let at = self.state.current().unwrap();
        self.table.move_to_back(at);
    }

    /// Moves the current pair to the front.
    pub(crate) fn move_current_to_front(&mut self)
        requires within { self.old.cursor.current < length self.old.pairs }
        requires outside { IsOutside self.old.cursor.current self.old }
        ensures pairs { (key : K) → IsIndex K.eq self.old.pairs key self.old.cursor.current →
            self.new.pairs ≡ to_front K.eq self.old.pairs key }
        ensures moves { MovesCurrent K.eq (λ pair. pair) self.old self.new }
    {
        let at = self.state.current().unwrap();
        self.table.move_to_front(at);
    }

    /// Replaces the key of the current pair by one that is the same, and returns the old one.
    pub(crate) fn replace_current_key(&mut self, key: K) -> K
        requires within { self.old.cursor.current < length self.old.pairs }
        requires same { IsIndex K.eq self.old.pairs key self.old.cursor.current }
        requires outside { IsOutside self.old.cursor.current self.old }
        ensures stored { option_map (λ pair. pair.0)
            (slice_get self.old.pairs self.old.cursor.current)
            ≡ Some result }
        ensures pairs { self.new.pairs ≡ set_key K.eq self.old.pairs key }
        ensures moves { MovesCurrent K.eq (λ pair. (key, pair.1)) self.old self.new }
    {
        let at = self.state.current().unwrap();
        self.table.replace_key(at, key)
    }

    /// Removes and returns the current pair. None is then current.
    #[inline]
    pub(crate) fn remove_current(&mut self) -> (K, V)
        requires within { self.old.cursor.current < length self.old.pairs }
        requires outside { IsOutside self.old.cursor.current self.old }
        ensures pair { slice_get self.old.pairs self.old.cursor.current ≡ Some result }
        ensures pairs { self.new.pairs ≡ remove self.old.pairs self.old.cursor.current }
        ensures keeps { Keeps self.old self.new }
        ensures to_visit { to_visit self.new ≡ to_visit self.old }
        ensures valid { IsValid K.eq self.old }
        ensures stays_valid { IsValid K.eq self.new }
    {
        let at = self.state.current().unwrap();
        self.state.current = Link::none();
        self.table.remove_at(at)
    }
}
