//! Lookups, and indexing by a key that is present.
ghost use Rattle.std.specs.Prelude.{◌≡◌, ◌≤◌, length, map, None, option_copied, option_map, is_some, IfNone, IfSome, OnSome, Some, IsSome, false};
ghost use Rattle.std.specs.List.{IsDistinct, AllByRecursion};
ghost use Rattle.std.specs.Map.{keys_of};
ghost use Rattle.std.specs.Map.Iter.{deref_pair};
ghost use Rattle.std.specs.Borrow.{sem};
ghost use Rattle.std.specs.Option.{option_copied_mut};
ghost use Rattle.linked_hash_map.specs.Changes.{refreshed_by};
ghost use Rattle.linked_hash_map.specs.Pairs.{find, value_at, to_back_by, set_value, first, last, set_first, set_last};
ghost use Rattle.linked_hash_map.specs.Updates.{Updates, UpdatesBy};
ghost use Rattle.linked_hash_map.specs.Validity.{IsValid};
ghost use Rattle.linked_hash_map.specs.Hashers.{hash_by};
ghost use Rattle.linked_hash_map.specs.Counts.{same, beside};
ghost use Rattle.linked_hash_map.specs.Nodes.{bare, pairs_of, IsLocated};
ghost use Rattle.lhm_ring.specs.Pointer.{pointer_of};

use super::LinkedHashMap;
use equivalent::Equivalent;
use lhm_ring::table::{Position, Table};
use std::hash::{BuildHasher, Hash};
use std::ops::{Index, IndexMut};

/// The counts of a lookup, returned by [`get_counted`](crate::LinkedHashMap::get_counted).
///
/// # Examples
///
/// ```rust
/// use linked_hash_map::LinkedHashMap;
///
/// let mut map = LinkedHashMap::new(rt.alloc());
/// map.insert('x', 1)?;
/// let (value, probe) = map.get_counted(&'x');
/// assert_eq!(rt; (value, probe.visited, probe.compared), (Some(&1), 1, 1));
/// ```
#[derive(Clone, Copy, Debug, PartialEq)]
pub struct Probe {
    /// The number of pairs reached along the chain of the key's bucket.
    pub visited: usize,
    /// The number of comparisons of keys.
    pub compared: usize,
}

/// Returns the hash of a key, and the position of its pair, if present. Hashes the key once.
#[inline(always)]
pub(super) fn locate<K: Eq + Hash, V, S: BuildHasher, Q: Equivalent<K>>(
    table: &Table<K, V>,
    hasher: &S,
    key: Q,
) -> (u64, Option<Position<K, V>>)
    requires distinct { IsDistinct K.eq (map (λ u. u.pair) (bare table.now.held)) }
    requires hashed { AllByRecursion (λ u. u.hash ≡ hash_by S.Hasher.finish S.Hasher.write
        S.build_hasher K.hash_input hasher.now u.pair) (bare table.now.held) }
    ensures hash { result.0
        ≡ hash_by S.Hasher.finish S.Hasher.write S.build_hasher Q.hash_input hasher.now key }
    ensures found { IfSome result.1 (λ p.
        IsLocated Q.equivalent key result.0 table.now.held (pointer_of p)) }
    ensures absent { IfNone result.1
        (find Q.equivalent (pairs_of table.now.held) key ≡ None) }
{
    let hash = hasher.hash_one(key);
    (hash, table.position(hash, key))
}

impl<K: Eq + Hash, V, S: BuildHasher> LinkedHashMap<K, V, S> {
    ghost use Rattle.linked_hash_map.specs.Lends.{lends_value, lends_refreshed, lends_first, lends_last};

    /// Returns the value of a key, if present, in O(1). Hashes the key once.
    ///
    /// # Examples
    ///
    /// ```rust
    /// let mut map = LinkedHashMap::new(rt.alloc());
    /// map.insert('x', 1)?;
    /// assert_eq!(rt; map.get(&'x'), Some(&1));
    /// assert_eq!(rt; map.get(&'y'), None);
    /// ```
    #[inline(always)]
    pub fn get<Q: Equivalent<K>>(&self, key: Q) -> Option<&V>
        ensures { option_copied result ≡ value_at Q.equivalent self.now.pairs key }
    {
        let (_, found) = locate(&self.table, &self.hasher, key);
        Some(self.table.value(found?))
    }

    /// Returns the stored key and the value of a key, if present, in O(1). Hashes the key once.
    ///
    /// # Examples
    ///
    /// ```rust
    /// let mut map = LinkedHashMap::new(rt.alloc());
    /// map.insert('x', 1)?;
    /// assert_eq!(rt; map.get_key_value(&'x'), Some((&'x', &1)));
    /// assert_eq!(rt; map.get_key_value(&'y'), None);
    /// ```
    #[inline(always)]
    pub fn get_key_value<Q: Equivalent<K>>(&self, key: Q) -> Option<(&K, &V)>
        ensures { option_map deref_pair result ≡ find Q.equivalent self.now.pairs key }
    {
        let (_, found) = locate(&self.table, &self.hasher, key);
        let at = found?;
        Some((self.table.key(at), self.table.value(at)))
    }

    /// Returns a mutable reference to the value of a key, if present, in O(1). Hashes the key once.
    ///
    /// # Examples
    ///
    /// ```rust
    /// let mut map = LinkedHashMap::new(rt.alloc());
    /// map.insert('x', 1)?;
    /// if let Some(value) = map.get_mut(&'x') {
    ///     *value = 3;
    /// }
    /// assert_eq!(rt; map.get(&'x'), Some(&3));
    /// ```
    #[inline(always)]
    pub fn get_mut<Q: Equivalent<K>>(&mut self, key: Q) -> Option<&mut V>
        ensures* writes_back { sem 𝓛
            (lends_value K.row V.row S.row S.Hasher.row K.Hash S.BuildHasher S.Hasher.Hasher
            self.entry Q.equivalent key result) }
        ensures value { option_copied_mut result ≡ value_at Q.equivalent self.old.pairs key }
        ensures valid { IsValid K.eq self.old }

        // Laws of the map once a value is written, for the proofs of callers.
        ensures updates { (v : V) → OnSome result
            (UpdatesBy K.eq self.old.pairs (set_value Q.equivalent self.old.pairs key v)
            (Q.equivalent key) (Some v)) }
        ensures others { (v : V) (q : K) → Q.equivalent key q ≡ false
            → value_at K.eq (set_value Q.equivalent self.old.pairs key v) q
            ≡ value_at K.eq self.old.pairs q }
        ensures keys { (v : V) → keys_of (set_value Q.equivalent self.old.pairs key v)
            ≡ keys_of self.old.pairs }
        ensures stays_valid { (v : V) → IsValid K.eq
            (record self.old { pairs = set_value Q.equivalent self.old.pairs key v }) }
    {
        let (_, found) = locate(&self.table, &self.hasher, key);
        match found {
            Some(at) => Some(self.table.value_mut(at)),
            None => None,
        }
    }

    /// Returns a mutable reference to the value of a key, if present, and moves its pair to the
    /// back, in both modes, in O(1). Hashes the key once.
    ///
    /// # Examples
    ///
    /// ```rust
    /// let mut map = LinkedHashMap::new(rt.alloc());
    /// map.extend([('x', 1), ('y', 2)])?;
    /// if let Some(value) = map.get_refresh(&'x') {
    ///     *value = 3;
    /// }
    /// assert_eq!(rt; map.back(), Some((&'x', &3)));
    /// ```
    #[inline(always)]
    pub fn get_refresh<Q: Equivalent<K>>(&mut self, key: Q) -> Option<&mut V>
        ensures* writes_back { sem 𝓛
            (lends_refreshed K.row V.row S.row S.Hasher.row K.Hash S.BuildHasher S.Hasher.Hasher
            self.entry Q.equivalent Q.as_key key result) }
        ensures value { option_copied_mut result ≡ value_at Q.equivalent self.old.pairs key }
        ensures valid { IsValid K.eq self.old }

        // Laws of the map once a value is written, for the proofs of callers.
        ensures updates { (v : V) → OnSome result
            (UpdatesBy K.eq self.old.pairs (to_back_by Q.equivalent Q.as_key self.old.pairs key v)
            (Q.equivalent key) (Some v)) }
        ensures back { (v : V) → OnSome result
            (last (to_back_by Q.equivalent Q.as_key self.old.pairs key v)
            ≡ option_map (λ pair. (pair.0, v)) (find Q.equivalent self.old.pairs key)) }
        ensures as_many { (v : V) → OnSome result
            (length (to_back_by Q.equivalent Q.as_key self.old.pairs key v)
            ≡ length self.old.pairs) }
        ensures stays_valid { (v : V) → OnSome result
            (IsValid K.eq (refreshed_by Q.equivalent Q.as_key self.old key v)) }
    {
        let (_, found) = locate(&self.table, &self.hasher, key);
        match found {
            Some(at) => {
                self.state.active = false;
                self.table.move_to_back(at);
                Some(self.table.value_mut(at))
            }
            None => None,
        }
    }

    /// Returns the value of a key, if present, and the counts of the lookup, in O(1). Hashes the
    /// key once.
    ///
    /// For an absent key these are all nodes of its bucket and all keys with its hash, for a
    /// present one no more. Other lookups compare the same keys, and read no node of most absent
    /// ones.
    ///
    /// # Examples
    ///
    /// ```rust
    /// let mut map = LinkedHashMap::new(rt.alloc());
    /// map.insert('x', 1)?;
    /// let (value, probe) = map.get_counted(&'x');
    /// assert_eq!(rt; (value, probe.visited, probe.compared), (Some(&1), 1, 1));
    /// ```
    pub fn get_counted(&self, key: &K) -> (Option<&V>, Probe)
        ensures value { option_copied result.0 ≡ value_at K.eq self.now.pairs key.now }
        ensures valid { IsValid K.eq self.now }

        // If the key is absent.
        ensures compared { IfNone result.0
            (result.1.compared ≡ same
            (hash_by S.Hasher.finish S.Hasher.write S.build_hasher K.hash_input self.now.hasher)
            self.now.pairs key.now) }
        ensures visited { IfNone result.0
            (result.1.visited ≡ beside
            (hash_by S.Hasher.finish S.Hasher.write S.build_hasher K.hash_input self.now.hasher)
            self.now.pairs self.now.capacity key.now) }

        // If it is present.
        ensures compared_some { OnSome result.0 (1 ≤ result.1.compared) }
        ensures compared_few { OnSome result.0
            (result.1.compared ≤ same
            (hash_by S.Hasher.finish S.Hasher.write S.build_hasher K.hash_input self.now.hasher)
            self.now.pairs key.now) }
        ensures visited_all { OnSome result.0 (result.1.compared ≤ result.1.visited) }
        ensures visited_few { OnSome result.0
            (result.1.visited ≤ beside
            (hash_by S.Hasher.finish S.Hasher.write S.build_hasher K.hash_input self.now.hasher)
            self.now.pairs self.now.capacity key.now) }
    {
        let hash = self.hasher.hash_one(key);
        let (found, counts) = self.table.find(hash, key);
        let probe = Probe {
            visited: counts.visited,
            compared: counts.compared,
        };
        match found {
            Some(at) => (Some(self.table.value(at)), probe),
            None => (None, probe),
        }
    }

    /// Returns `true` if a key is present, in O(1). Hashes the key once.
    ///
    /// # Examples
    ///
    /// ```rust
    /// let mut map = LinkedHashMap::new(rt.alloc());
    /// map.insert('x', 1)?;
    /// assert!(rt; map.contains_key(&'x'));
    /// assert!(rt; !map.contains_key(&'y'));
    /// ```
    #[inline(always)]
    pub fn contains_key<Q: Equivalent<K>>(&self, key: Q) -> bool
        ensures { result ≡ is_some (find Q.equivalent self.now.pairs key) }
    {
        self.get(key).is_some()
    }

    /// Returns the front pair, if any, in O(1). Hashes no key.
    ///
    /// # Examples
    ///
    /// ```rust
    /// let mut map = LinkedHashMap::new(rt.alloc());
    /// map.extend([('x', 1), ('y', 2)])?;
    /// assert_eq!(rt; map.front(), Some((&'x', &1)));
    /// ```
    pub fn front(&self) -> Option<(&K, &V)>
        ensures pair { option_map deref_pair result ≡ first self.now.pairs }
        // A law of lists, for the proofs of callers.
        ensures found { IfSome result (λ pair.
            find K.eq self.now.pairs pair.0.now ≡ Some (deref_pair pair)) }
    {
        let at = self.table.first()?;
        Some((self.table.key(at), self.table.value(at)))
    }

    /// Returns the back pair, if any, in O(1). Hashes no key.
    ///
    /// # Examples
    ///
    /// ```rust
    /// let mut map = LinkedHashMap::new(rt.alloc());
    /// map.extend([('x', 1), ('y', 2)])?;
    /// assert_eq!(rt; map.back(), Some((&'y', &2)));
    /// ```
    pub fn back(&self) -> Option<(&K, &V)>
        ensures pair { option_map deref_pair result ≡ last self.now.pairs }
        // A law of lists, for the proofs of callers.
        ensures found { IfSome result (λ pair.
            find K.eq self.now.pairs pair.0.now ≡ Some (deref_pair pair)) }
    {
        let at = self.table.last()?;
        Some((self.table.key(at), self.table.value(at)))
    }

    /// Returns a mutable reference to the value of the front pair, if any, in O(1). Hashes no key;
    /// `front` shows that of the pair.
    ///
    /// # Examples
    ///
    /// ```rust
    /// let mut map = LinkedHashMap::new(rt.alloc());
    /// map.extend([('x', 1), ('y', 2)])?;
    /// if let Some(value) = map.front_mut() {
    ///     *value = 3;
    /// }
    /// assert_eq!(rt; map.front(), Some((&'x', &3)));
    /// ```
    pub fn front_mut(&mut self) -> Option<&mut V>
        ensures* writes_back { sem 𝓛
            (lends_first K.row V.row S.row S.Hasher.row K.Hash S.BuildHasher S.Hasher.Hasher
            self.entry result) }
        ensures value { option_copied_mut result
            ≡ option_map (λ pair. pair.1) (first self.old.pairs) }
        ensures valid { IsValid K.eq self.old }

        // Laws of the map once a value is written, for the proofs of callers.
        ensures stays_valid { (v : V) → IsValid K.eq (record self.old {
          pairs = set_first self.old.pairs v;
        }) }
        ensures updates { (v : V) → IfSome (first self.old.pairs) (λ pair.
            Updates K.eq self.old.pairs (set_first self.old.pairs v) pair.0 (Some v)) }
    {
        match self.table.first() {
            Some(front) => Some(self.table.value_mut(front)),
            None => None,
        }
    }

    /// Returns a mutable reference to the value of the back pair, if any, in O(1). Hashes no key;
    /// `back` shows that of the pair.
    ///
    /// # Examples
    ///
    /// ```rust
    /// let mut map = LinkedHashMap::new(rt.alloc());
    /// map.extend([('x', 1), ('y', 2)])?;
    /// if let Some(value) = map.back_mut() {
    ///     *value = 3;
    /// }
    /// assert_eq!(rt; map.back(), Some((&'y', &3)));
    /// ```
    pub fn back_mut(&mut self) -> Option<&mut V>
        ensures* writes_back { sem 𝓛
            (lends_last K.row V.row S.row S.Hasher.row K.Hash S.BuildHasher S.Hasher.Hasher
            self.entry result) }
        ensures value { option_copied_mut result
            ≡ option_map (λ pair. pair.1) (last self.old.pairs) }
        ensures valid { IsValid K.eq self.old }

        // Laws of the map once a value is written, for the proofs of callers.
        ensures stays_valid { (v : V) → IsValid K.eq (record self.old {
          pairs = set_last self.old.pairs v;
        }) }
        ensures updates { (v : V) → IfSome (last self.old.pairs) (λ pair.
            Updates K.eq self.old.pairs (set_last self.old.pairs v) pair.0 (Some v)) }
    {
        match self.table.last() {
            Some(back) => Some(self.table.value_mut(back)),
            None => None,
        }
    }
}

/// `map[&key]`, in O(1), for a key that is proved present: the original panics on others. Hashes it
/// once. A `String` key is found by `map["name"]` too.
///
/// # Examples
///
/// ```rust
/// let mut map = LinkedHashMap::new(rt.alloc());
/// map.insert('x', 1)?;
/// if map.contains_key(&'x') {
///     assert_eq!(rt; map[&'x'], 1);
/// }
/// ```
impl<K: Eq + Hash, V, S: BuildHasher, Q: Equivalent<K>> Index<Q> for LinkedHashMap<K, V, S> {
    type Output = V;

    ghost can_index = { λ m key. IsSome (find Q.equivalent m.pairs key) };

    ghost index_gives = { λ m key value. value_at Q.equivalent m.pairs key ≡ Some value };

    #[inline(always)]
    fn index(&self, key: Q) -> &V {
        self.get(key).unwrap()
    }
}

/// `map[&key] = value`, in O(1), for a key that is proved present. Hashes it once.
///
/// # Examples
///
/// ```rust
/// let mut map = LinkedHashMap::new(rt.alloc());
/// map.insert('x', 1)?;
/// if map.contains_key(&'x') {
///     map[&'x'] = 3;
///     assert_eq!(rt; map.get(&'x'), Some(&3));
/// }
/// ```
impl<'q, K: Eq + Hash, V, S: BuildHasher> IndexMut<&'q K> for LinkedHashMap<K, V, S> {
    ghost use Rattle.linked_hash_map.specs.Lends.{lends_present};

    #[inline(always)]
    fn index_mut(&mut self, key: &'q K) -> &mut V
        requires { IsSome (find K.eq self.old.pairs key.now) }
        ensures* writes_back { sem 𝓛
            (lends_present K.row V.row S.row S.Hasher.row K.Hash S.BuildHasher S.Hasher.Hasher
            self.entry key.now result) }
        ensures value { value_at K.eq self.old.pairs key.now ≡ Some result.now }
        ensures valid { IsValid K.eq self.old }

        // A law of the map once a value is written, for the proofs of callers.
        ensures updates { (v : V)
            → Updates K.eq self.old.pairs (set_value K.eq self.old.pairs key.now v) key.now
            (Some v) }
        ensures stays_valid { (v : V) → IsValid K.eq
            (record self.old { pairs = set_value K.eq self.old.pairs key.now v }) }
    {
        match self.get_mut(key) {
            Some(value) => value,
            None => unreachable!(),
        }
    }
}
