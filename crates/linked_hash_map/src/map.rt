//! The map: its type, length, capacity, hasher and mode. A clause sees it as its `pairs`, front to
//! back, its `capacity`, `hasher`, `mode` and `rechained`, and what is left `to_visit`, in the words
//! of `specs/Pairs.antt`. `IsValid` holds of every map. By `Keeps` all but pairs and visit stays, by
//! `KeepsSettings` hasher and mode.
#![tactic(auto, using(crate::proofs::nodes::HeldPairs::bare_nodes))]

ghost use Rattle.std.specs.Prelude.{◌≡◌, ◌==◌, ◌≤◌, [], length};
ghost use Rattle.linked_hash_map.specs.Validity.{IsValid};

mod append;
mod beside;
mod capacity;
mod create;
mod cursor;
mod ends;
mod get;
mod insert;
mod iter;
mod iter_from;
mod order;
mod remove;
mod replace;
mod sort;

use self::cursor::State;
pub use self::get::Probe;
use crate::iter::IntoIter;
use lhm_ring::table::Table;
use std::alloc::Global;
use std::hash::{BuildHasher, BuildHasherDefault, FoldHasher, Hash};
use std::marker::Model;
use std::mem::size_of;

/// The largest capacity of a map: 2^59. A call that would need more is refused without allocating.
///
/// # Examples
///
/// ```rust
/// use linked_hash_map::{LIMIT, LinkedHashMap, ReserveError};
///
/// let mut map: LinkedHashMap<char, u64> = LinkedHashMap::new(rt.alloc());
/// assert_eq!(rt; map.reserve(LIMIT + 1), Err(ReserveError::TooLarge));
/// ```
pub const LIMIT: usize = 576460752303423488;

/// The default build hasher: that of std's `HashMap`, with a fixed seed, unlike the original's. For
/// keys that strangers choose use `RandomState`.
pub type DefaultHashBuilder = BuildHasherDefault<FoldHasher>;

/// Whether inserting a present key moves its pair, to the back or by `insert_front` to the front;
/// `replace` never does. A new map is in `Touch`, as the original always is.
///
/// # Examples
///
/// ```rust
/// use linked_hash_map::{LinkedHashMap, Mode};
///
/// let mut map = LinkedHashMap::new(rt.alloc());
/// map.extend([('x', 1), ('y', 2)])?;
/// assert_eq!(rt; map.mode(), Mode::Touch);
/// map.set_mode(Mode::Keep);
/// assert_eq!(rt; map.insert('x', 3)?, Some(1));
/// assert_eq!(rt; map.front(), Some((&'x', &3)));
/// ```
#[derive(Clone, Copy, Debug, PartialEq)]
pub enum Mode {
    /// Moves the pair.
    Touch,
    /// Leaves the pair in its place.
    Keep,
}

/// A hash map that keeps its pairs in insertion order.
///
/// A new key goes to the back, and so does a present key that is inserted again, except in
/// [`Mode::Keep`] and by [`replace`](LinkedHashMap::replace) and
/// [`insert_front`](LinkedHashMap::insert_front).
///
/// For all calls, with n the number of pairs:
///
/// - Only calls that return a `Result` allocate. An error changes nothing, except that an extension
///   keeps what it inserted before. Nothing panics.
/// - A lookup compares its key only with those of its bucket that have its hash. A call that is
///   handed no key hashes and compares none, except `append`, `clone`, comparisons, `hash` and
///   `sort_keys`.
/// - Costs are averages: if all keys hash alike, each lookup and each removal of a pair is O(n).
/// - Only insertions, `append`, `reserve` and `shrink_to_fit` change the capacity, and no removal
///   frees memory. There are as many buckets as the capacity, rounded up to a power of two. A change
///   of their number rehashes all pairs, in O(n).
///
/// # Examples
///
/// ```rust
/// use linked_hash_map::LinkedHashMap;
///
/// let mut map = LinkedHashMap::new(rt.alloc());
/// assert_eq!(rt; map.insert('x', 1)?, None);
/// assert_eq!(rt; map.insert('y', 2)?, None);
/// assert_eq!(rt; map.insert('x', 3)?, Some(1));
/// assert_eq!(rt; map.front(), Some((&'y', &2)));
/// assert_eq!(rt; map.back(), Some((&'x', &3)));
/// ```
pub struct LinkedHashMap<K: Eq + Hash, V, S: BuildHasher = DefaultHashBuilder> {
    // The pairs in order, with the hashes of their keys, and where each key is.
    table: Table<K, V>,
    hasher: S,
    // The mode, and where a cursor or an entry stands.
    state: State,
}

// What a map takes beside its pairs.
const _: () = prove!(size_of::<LinkedHashMap<u64, u64>>() == 128);

/// Drops the pairs and the hasher, and frees all memory, in O(capacity).
impl<K: Eq + Hash + Drop, V: Drop, S: BuildHasher + Drop> Drop for LinkedHashMap<K, V, S> {
    fn drop(self) {
        let LinkedHashMap {
            table,
            hasher: _,
            state: _,
        } = self;
        let mut pairs = table.into_pairs();
        'pairs: while let Some((_, key, value)) = pairs.take_first() {
            drop(key);
            drop(value);
        }
        pairs.destroy_empty();
    }
}

/// A contract sees the pairs, front to back, capacity, hasher, mode, `rechained`, and the pairs left
/// to visit.
impl<K: Eq + Hash, V, S: BuildHasher> Model for LinkedHashMap<K, V, S> {
    ghost use Rattle.linked_hash_map.specs.LinkedMap.{LinkedMap};
    ghost use Rattle.linked_hash_map.specs.Nodes.{IsKept, bare, map_of, beside, visit_of};
    ghost use Rattle.linked_hash_map.specs.Hashers.{hash_by};

    ghost Value = { LinkedMap K V S };

    ghost view = { λ m. map_of m.table (beside m) };

    ghost invariant = { λ m.
        IsKept K.eq (hash_by S.Hasher.finish S.Hasher.write S.build_hasher K.hash_input m.hasher)
        (bare m.table.held) m.table.capacity (visit_of m.state) };
}

impl<K: Eq + Hash, V, S: BuildHasher> LinkedHashMap<K, V, S> {
    /// Creates a map of an empty table.
    fn of_empty(table: Table<K, V>, hasher: S) -> Self
        requires empty { table.held ≡ [] }
        requires unmoved { table.rechained ≡ 0 }
        requires limit { table.capacity ≤ LIMIT }
        ensures pairs { result.pairs ≡ [] }
        ensures capacity { result.capacity ≡ table.capacity }
        ensures hasher { result.hasher ≡ hasher }
        ensures mode { result.mode ≡ Mode.Touch }
        ensures valid { IsValid K.eq result }
        ensures rechained { result.rechained ≡ 0 }
    {
        LinkedHashMap {
            table,
            hasher,
            state: State::new(Mode::Touch),
        }
    }

    /// Returns an iterator that owns the pairs, and drops the hasher.
    pub(crate) fn into_pairs(self) -> IntoIter<K, V>
    where
        S: Drop,
        ensures pairs { result ≡ self.pairs }
        ensures valid { IsValid K.eq self }
    {
        let LinkedHashMap {
            table,
            hasher: _,
            state: _,
        } = self;
        IntoIter::new(table.into_iter())
    }

    /// Returns the number of pairs, in O(1).
    ///
    /// # Examples
    ///
    /// ```rust
    /// let mut map = LinkedHashMap::new(rt.alloc());
    /// map.insert('x', 1)?;
    /// assert_eq!(rt; map.len(), 1);
    /// ```
    pub fn len(&self) -> usize
        ensures len { result ≡ length self.now.pairs }
        ensures valid { IsValid K.eq self.now }
    {
        self.table.len()
    }

    /// Returns `true` if the map has no pairs, in O(1).
    ///
    /// # Examples
    ///
    /// ```rust
    /// let mut map = LinkedHashMap::new(rt.alloc());
    /// assert!(rt; map.is_empty());
    /// map.insert('x', 1)?;
    /// assert!(rt; !map.is_empty());
    /// ```
    pub fn is_empty(&self) -> bool
        ensures empty { result ≡ (length self.now.pairs == 0) }
        ensures valid { IsValid K.eq self.now }
    {
        self.len() == 0
    }

    /// Returns how many pairs the map can hold without allocating, in O(1).
    ///
    /// # Examples
    ///
    /// ```rust
    /// let mut map = LinkedHashMap::new(rt.alloc());
    /// map.insert('x', 1)?;
    /// assert_eq!(rt; map.capacity(), 1);
    /// map.reserve(4)?;
    /// assert_eq!(rt; map.capacity(), 5);
    /// ```
    pub fn capacity(&self) -> usize
        ensures capacity { result ≡ self.now.capacity }
        ensures valid { IsValid K.eq self.now }
    {
        self.table.capacity()
    }

    /// Returns a reference to the build hasher, in O(1).
    ///
    /// # Examples
    ///
    /// ```rust
    /// use std::hash::{BuildHasher, RandomState};
    ///
    /// let builder = RandomState::new(&rt)?;
    /// let mut map = LinkedHashMap::with_hasher(rt.alloc(), builder);
    /// map.insert('x', 1)?;
    /// assert_eq!(rt; map.hasher().hash_one('x'), builder.hash_one('x'));
    /// ```
    pub fn hasher(&self) -> &S
        ensures { result.now ≡ self.now.hasher }
    {
        &self.hasher
    }

    /// Returns the allocator that the map was made with.
    pub(crate) fn allocator(&self) -> Global
        ensures valid { IsValid K.eq self.now }
    {
        self.table.allocator()
    }

    /// Returns the mode, in O(1).
    ///
    /// # Examples
    ///
    /// ```rust
    /// use linked_hash_map::Mode;
    ///
    /// let mut map: LinkedHashMap<char, u64> = LinkedHashMap::new(rt.alloc());
    /// map.set_mode(Mode::Keep);
    /// assert_eq!(rt; map.mode(), Mode::Keep);
    /// ```
    pub fn mode(&self) -> Mode
        ensures mode { result ≡ self.now.mode }
        ensures valid { IsValid K.eq self.now }
    {
        self.state.mode
    }

    /// Sets the mode, in O(1). The order stays.
    ///
    /// # Examples
    ///
    /// ```rust
    /// use linked_hash_map::Mode;
    ///
    /// let mut map = LinkedHashMap::new(rt.alloc());
    /// map.extend([('x', 1), ('y', 2)])?;
    /// map.set_mode(Mode::Keep);
    /// map.insert('x', 3)?;
    /// assert_eq!(rt; map.back(), Some((&'y', &2)));
    /// map.set_mode(Mode::Touch);
    /// map.insert('x', 4)?;
    /// assert_eq!(rt; map.back(), Some((&'x', &4)));
    /// ```
    pub fn set_mode(&mut self, mode: Mode)
        ensures sets { self.new ≡ record self.old { mode = mode } }
        ensures valid { IsValid K.eq self.old }
        ensures stays_valid { IsValid K.eq self.new }
    {
        self.state.mode = mode;
    }
}
