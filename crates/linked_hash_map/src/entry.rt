//! Entries: a key, present or absent, without a second lookup.
ghost use Rattle.std.specs.Prelude.{◌≡◌, ◌<◌, None, length};
ghost use Rattle.linked_hash_map.specs.Pairs.{find};
ghost use Rattle.linked_hash_map.specs.Cursor.{IsOutside, IsOutside-prop};
ghost use Rattle.linked_hash_map.specs.Hashers.{hash_by};

mod cursor;
mod ends;
mod methods;
mod occupied;
mod vacant;

use crate::map::{DefaultHashBuilder, LinkedHashMap};
pub use cursor::Entries;
use std::hash::{BuildHasher, Hash};

/// The entry of a key, returned by `entry`. Dropping it leaves the map as it is.
///
/// # Examples
///
/// ```rust
/// use linked_hash_map::{Entry, LinkedHashMap};
///
/// let mut map = LinkedHashMap::new(rt.alloc());
/// map.insert('x', 1)?;
/// match map.entry('x') {
///     Entry::Occupied(mut entry) => assert_eq!(rt; entry.insert(2), 1),
///     Entry::Vacant(entry) => assert_eq!(rt; *entry.insert(3)?, 3),
/// }
/// assert_eq!(rt; map.get(&'x'), Some(&2));
/// ```
#[derive(Drop)]
pub enum Entry<'a, K: Eq + Hash, V, S: BuildHasher = DefaultHashBuilder> {
    /// The key is present.
    Occupied(OccupiedEntry<'a, K, V, S>),
    /// The key is absent.
    Vacant(VacantEntry<'a, K, V, S>),
}

/// The entry of a present key. Its methods are O(1), hash no key, compare none, except
/// `replace_key`, and end no visit.
///
/// # Examples
///
/// ```rust
/// use linked_hash_map::{Entry, LinkedHashMap};
///
/// let mut map = LinkedHashMap::new(rt.alloc());
/// map.insert('x', 1)?;
/// if let Entry::Occupied(mut entry) = map.entry('x') {
///     assert_eq!(rt; (*entry.key(), *entry.get()), ('x', 1));
///     *entry.get_mut() = 2;
///     assert_eq!(rt; entry.remove(), 2);
/// }
/// assert!(rt; map.is_empty());
/// ```
#[derive(Drop)]
pub struct OccupiedEntry<'a, K: Eq + Hash, V, S: BuildHasher = DefaultHashBuilder> {
    // Its pair is the map's current one.
    map: &'a mut LinkedHashMap<K, V, S>,
    ghost within: { map.now.cursor.current < length map.now.pairs },
    ghost outside: { IsOutside map.now.cursor.current map.now } by { IsOutside-prop map.now.cursor.current map.now },
}

/// The entry of an absent key, which it owns. Its methods hash and compare no key.
///
/// # Examples
///
/// ```rust
/// use linked_hash_map::{Entry, LinkedHashMap};
///
/// let mut map = LinkedHashMap::new(rt.alloc());
/// if let Entry::Vacant(entry) = map.entry('x') {
///     assert_eq!(rt; *entry.key(), 'x');
///     let lent = entry.insert(1)?;
///     *lent = 2;
/// }
/// assert_eq!(rt; map.get(&'x'), Some(&2));
/// ```
pub struct VacantEntry<'a, K: Eq + Hash, V, S: BuildHasher = DefaultHashBuilder> {
    map: &'a mut LinkedHashMap<K, V, S>,
    key: K,
    hash: u64,
    ghost absent: { find K.eq map.now.pairs key ≡ None },
    ghost hashed: { hash ≡ hash_by S.Hasher.finish S.Hasher.write S.build_hasher K.hash_input
        map.now.hasher key },
}

// By hand, so that callers know what an unused entry leaves.
impl<'a, K: Eq + Hash + Drop, V, S: BuildHasher> Drop for VacantEntry<'a, K, V, S> {
    ghost use Rattle.linked_hash_map.specs.Entry.{vacant_map};

    fn drop(self)
        ensures { self.exit.0.now ≡ vacant_map self.entry }
    {
        let VacantEntry {
            map: _,
            key: _,
            hash: _,
        } = self;
    }
}
