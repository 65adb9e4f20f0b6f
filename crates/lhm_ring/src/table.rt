//! Pairs in insertion order with a hash index of their keys.
ghost use Rattle.std.specs.Prelude.{◌≡◌, ℕ, ◌+◌, ◌-◌, ◌*◌, ◌<◌, ◌≤◌, max, ◌^◌, ◌++◌, ◌∷◌, [], length, take, drop, map, remove, reverse, slice_get, Some, None, IfOk, IsOk, IfSome, IfNone, OnSome, IsTrue, IsFalse};
ghost use Rattle.lhm_ring.specs.Nodes.{IsApart};
ghost use Rattle.lhm_ring.specs.Ring.{IsHeld, AtHeld, first_at, last_at, held, pair, rekeyed};
ghost use Rattle.lhm_ring.specs.Pointer.{pointer_of, pointer_of_some};
ghost use Rattle.lhm_ring.specs.Positions.{IsAt, PlaceAt, index_of, to_back_at, to_front_at, to_before_at};
ghost use Rattle.lhm_ring.specs.Index.{spots, entries};
ghost use Rattle.lhm_ring.specs.Search.{HasKey, LacksKey, CountsSome, CountsAll};
ghost use Rattle.lhm_ring.specs.Buckets.{buckets};
ghost use Rattle.lhm_ring.specs.Table.{KeepsCounts, Removes, WritesOnly};

use crate::index::Index;
pub use crate::index::Probe;
pub use crate::owned::{IntoIter, OwnedPairs};
use crate::ring::Ring;
pub use crate::ring::{Drain, Iter, Lent, Position, TriplesMut};
use equivalent::Equivalent;
use std::alloc::{AllocError, Global};
use std::hash::Hash;
use std::marker::Model;

/// Pairs in insertion order, each with its hash, found by hash and key. A [`Position`] stays until
/// its pair leaves or `shrink_to_fit` moves it.
///
/// Calls are O(1), on average if they search or remove, unless they say otherwise. Only
/// `with_capacity`, `raise` and `shrink_to_fit` allocate; if that fails, nothing changes. It is not
/// `Drop`: only `into_pairs` and `into_iter` end it.
pub struct Table<K, V> {
    pub(crate) ring: Ring<K, V>,
    pub(crate) index: Index<K, V>,
    // How many nodes rehashes have moved since the capacity was lowered.
    pub(crate) rechained: usize,
}

impl<K, V> Model for Table<K, V> {
    ghost use Rattle.lhm_ring.specs.Table.{TableState, table_of, IsTable};

    ghost Value = { TableState (K × V) };

    ghost view = { λ t. table_of t.ring t.rechained };

    ghost invariant = { λ t. IsTable t.index t.ring t.rechained };
}

impl<K, V> Table<K, V> {
    ghost use Rattle.std.specs.Borrow.{sem};
    ghost use Rattle.lhm_ring.specs.TableAfterLoan.{lends_value, lends_values, lends_drained};
    ghost use Rattle.lhm_ring.specs.Iter.{loan_name, pairs_left};
    ghost use Rattle.lhm_ring.specs.Drain.{drain_name, drain_rest};
    ghost use Rattle.lhm_ring.specs.Ring.{triples};

    /// Creates an empty table of capacity 0.
    pub fn new(alloc: Global) -> Table<K, V>
        ensures held { result.held ≡ [] }
        ensures capacity { result.capacity ≡ 0 }
        ensures rechained { result.rechained ≡ 0 }
        ensures made { result.made ≡ 0 }
    {
        Table {
            ring: Ring::new(alloc),
            index: Index::new(alloc),
            rechained: 0,
        }
    }

    /// Creates an empty table of exactly this capacity, in O(n). At 0 it never fails.
    pub fn with_capacity(alloc: Global, capacity: usize) -> Result<Table<K, V>, AllocError>
        requires { capacity ≤ 2 ^ 59 }
        ensures held { IfOk result (λ table. table.held ≡ []) }
        ensures capacity { IfOk result (λ table. table.capacity ≡ capacity) }
        ensures rechained { IfOk result (λ table. table.rechained ≡ 0) }
        ensures made { IfOk result (λ table. table.made ≡ capacity) }
        ensures succeeds { capacity ≡ 0 → IsOk result }
    {
        let index = Index::with_buckets(alloc, capacity)?;
        match Ring::with_spares(alloc, capacity) {
            Ok(ring) => Ok(Table {
                ring,
                index,
                rechained: 0,
            }),
            Err(refused) => {
                index.free();
                Err(refused)
            }
        }
    }

    /// Returns the allocator.
    pub fn allocator(&self) -> Global {
        self.ring.allocator()
    }

    /// Returns the number of pairs.
    pub fn len(&self) -> usize
        ensures value { result ≡ length self.now.held }
        ensures within { length self.now.held ≤ self.now.capacity }
        ensures limit { self.now.capacity ≤ 2 ^ 59 }
    {
        self.ring.len()
    }

    /// Returns how many pairs fit without an allocation.
    pub fn capacity(&self) -> usize
        ensures value { result ≡ self.now.capacity }
        ensures within { length self.now.held ≤ self.now.capacity }
        ensures limit { self.now.capacity ≤ 2 ^ 59 }
        ensures made { self.now.capacity ≤ self.now.made }
        ensures made_within { self.now.made ≤ max 2 (buckets self.now.capacity) }
        ensures made_twice { self.now.made ≤ 2 * self.now.capacity }
    {
        self.ring.len() + self.ring.spares()
    }

    /// Returns `true` if the pairs are as many as the capacity.
    pub fn is_full(&self) -> bool
        ensures full { IsTrue result → length self.now.held ≡ self.now.capacity }
        ensures room { IsFalse result → length self.now.held < self.now.capacity }
    {
        self.ring.spares() == 0
    }

    /// Returns how many nodes rehashes have moved since `shrink_to_fit` last lowered the capacity,
    /// inclusive.
    pub fn rechained(&self) -> usize
        ensures value { result ≡ self.now.rechained }
        ensures few { self.now.rechained ≤ buckets self.now.capacity }
    {
        self.rechained
    }

    /// Returns the position of the front pair, if any.
    pub fn first(&self) -> Option<Position<K, V>>
        ensures { pointer_of_some result ≡ first_at self.now.held }
    {
        self.ring.first()
    }

    /// Returns the position of the back pair, if any.
    pub fn last(&self) -> Option<Position<K, V>>
        ensures last { pointer_of_some result ≡ last_at self.now.held }
        ensures apart { IsApart (map (λ t. t.at) self.now.held) }
    {
        self.ring.last()
    }

    /// Returns the position of the next pair, if any.
    pub fn next(&self, at: Position<K, V>) -> Option<Position<K, V>>
        requires { IsHeld self.now.held (pointer_of at) }
        ensures next { (index : ℕ) → IsAt self.now.held (pointer_of at) index →
            PlaceAt self.now.held (pointer_of_some result) (index + 1) }
        ensures apart { IsApart (map (λ t. t.at) self.now.held) }
    {
        self.ring.next(at)
    }

    /// Returns the position of the pair before one, if any.
    pub fn previous(&self, at: Position<K, V>) -> Option<Position<K, V>>
        requires { IsHeld self.now.held (pointer_of at) }
        ensures previous { AtHeld self.now.held (pointer_of at) (λ xs t ys.
            pointer_of_some result ≡ last_at xs) }
        ensures apart { IsApart (map (λ t. t.at) self.now.held) }
    {
        self.ring.previous(at)
    }

    /// Returns the key at a position.
    pub fn key(&self, at: Position<K, V>) -> &K
        requires { IsHeld self.now.held (pointer_of at) }
        ensures { AtHeld self.now.held (pointer_of at) (λ xs t ys. result.now ≡ t.pair.0) }
    {
        self.ring.key(at)
    }

    /// Returns the value at a position.
    pub fn value(&self, at: Position<K, V>) -> &V
        requires { IsHeld self.now.held (pointer_of at) }
        ensures { AtHeld self.now.held (pointer_of at) (λ xs t ys. result.now ≡ t.pair.1) }
    {
        self.ring.value(at)
    }

    /// Returns a mutable reference to the value at a position.
    pub fn value_mut(&mut self, at: Position<K, V>) -> &mut V
        requires { IsHeld self.old.held (pointer_of at) }
        ensures* writes_back { sem 𝓛 (lends_value K.row V.row self.entry (pointer_of at) result) }
        ensures value { AtHeld self.old.held (pointer_of at) (λ xs t ys. result.now ≡ t.pair.1) }
        ensures alone { WritesOnly self.old.held (pointer_of at) }
    {
        self.ring.value_mut(at)
    }

    /// Replaces the key at a position and returns the old one. The hash stays: callers give a key
    /// with the same.
    pub fn replace_key(&mut self, at: Position<K, V>, key: K) -> K
        requires { IsHeld self.old.held (pointer_of at) }
        ensures held { AtHeld self.old.held (pointer_of at) (λ xs t ys.
            self.new.held ≡ xs ++ rekeyed key t ∷ ys) }
        ensures old { AtHeld self.old.held (pointer_of at) (λ xs t ys. result ≡ t.pair.0) }
        ensures keeps { KeepsCounts self.old self.new }
    {
        self.ring.replace_key(at, key)
    }

    /// Moves the pair at a position before that at another, or to the back for `None`. Positions
    /// stay.
    pub fn move_before(&mut self, at: Position<K, V>, before: Option<Position<K, V>>)
        requires at { IsHeld self.old.held (pointer_of at) }
        requires before { IfSome before (λ next. IsHeld self.old.held (pointer_of next)) }
        ensures held { (i j : ℕ) → IsAt self.old.held (pointer_of at) i →
            PlaceAt self.old.held (pointer_of_some before) j →
            self.new.held ≡ to_before_at self.old.held i j }
        ensures keeps { KeepsCounts self.old self.new }
    {
        self.ring.move_before(at, before);
    }

    /// Moves the pair at a position to the back. Positions stay.
    pub fn move_to_back(&mut self, at: Position<K, V>)
        requires { IsHeld self.old.held (pointer_of at) }
        ensures held { (index : ℕ) → IsAt self.old.held (pointer_of at) index →
            self.new.held ≡ to_back_at self.old.held index }
        ensures last { index_of (pointer_of at) self.new.held + 1 ≡ length self.old.held }
        ensures keeps { KeepsCounts self.old self.new }
    {
        self.ring.move_to_back(at);
    }

    /// Moves the pair at a position to the front. Positions stay.
    pub fn move_to_front(&mut self, at: Position<K, V>)
        requires { IsHeld self.old.held (pointer_of at) }
        ensures held { (index : ℕ) → IsAt self.old.held (pointer_of at) index →
            self.new.held ≡ to_front_at self.old.held index }
        ensures keeps { KeepsCounts self.old self.new }
    {
        let front = self.first();
        self.move_before(at, front);
    }

    /// Moves the front pair to the back, so many times.
    fn move_fronts(&mut self, count: usize)
        requires { count ≤ length self.old.held }
        ensures rotated { self.new.held ≡ drop count self.old.held ++ take count self.old.held }
        ensures keeps { KeepsCounts self.old self.new }
    {
        for _moved in 0..count {
            let front = self.first().unwrap();
            self.move_to_back(front);
        }
    }

    /// Moves the back pair to the front, so many times.
    fn move_backs(&mut self, count: usize)
        requires { count ≤ length self.old.held }
        ensures rotated { self.new.held ≡ drop (length self.old.held - count) self.old.held
            ++ take (length self.old.held - count) self.old.held }
        ensures keeps { KeepsCounts self.old self.new }
    {
        for _moved in 0..count {
            let back = self.last().unwrap();
            self.move_to_front(back);
        }
    }

    /// Moves the first `count` pairs behind the others, in order, in O(min(count, len - count)).
    /// Positions stay.
    pub fn rotate_left(&mut self, count: usize)
        requires { count ≤ length self.old.held }
        ensures rotated { self.new.held ≡ drop count self.old.held ++ take count self.old.held }
        ensures keeps { KeepsCounts self.old self.new }
    {
        let others = self.len() - count;
        if count <= others {
            self.move_fronts(count);
        } else {
            self.move_backs(others);
        }
    }

    /// Reverses the order of the pairs, in O(n). Positions stay.
    pub fn reverse(&mut self)
        ensures reversed { self.new.held ≡ reverse self.old.held }
        ensures keeps { KeepsCounts self.old self.new }
    {
        let len = self.len();
        let mut next = self.first();
        for _moved in 0..len {
            let at = next.unwrap();
            next = self.next(at);
            self.move_to_front(at);
        }
    }

    /// Inserts a pair at the back and returns its position.
    pub fn push_back(&mut self, hash: u64, key: K, value: V) -> Position<K, V>
        requires { length self.old.held < self.old.capacity }
        ensures last { self.new.held
            ≡ self.old.held ++ held (pointer_of result) hash None (pair key value) ∷ [] }
        ensures keeps { KeepsCounts self.old self.new }
    {
        let at = self.ring.put_back(hash, key, value);
        self.index.put_in_by_hash(&mut self.ring, at, hash);
        at
    }

    /// Removes and returns the pair at a position. The others keep their order. Compares no key.
    pub fn remove_at(&mut self, at: Position<K, V>) -> (K, V)
        requires { IsHeld self.old.held (pointer_of at) }
        ensures others { (index : ℕ) → IsAt self.old.held (pointer_of at) index →
            self.new.held ≡ remove self.old.held index }
        ensures pair { (index : ℕ) → IsAt self.old.held (pointer_of at) index →
            slice_get (map (λ t. t.pair) self.old.held) index ≡ Some result }
        ensures keeps { KeepsCounts self.old self.new }
    {
        self.index.take_out_at(&mut self.ring, at);
        let (_, key, value) = self.ring.unlink(at);
        (key, value)
    }

    /// Returns an iterator over the pairs with their hashes, front to back.
    pub fn iter(&self) -> Iter<'_, K, V>
        ensures { entries result ≡ self.now.held }
    {
        self.ring.iter()
    }

    /// Returns an iterator that owns the pairs, front to back. It frees the buckets, in O(n).
    pub fn into_iter(self) -> IntoIter<K, V>
        ensures { result ≡ triples self.held }
    {
        let Table {
            ring,
            index,
            rechained: _,
        } = self;
        index.free();
        IntoIter::new(ring)
    }

    /// Returns the pairs, front to back, for an owner that drops them. It frees the buckets, in
    /// O(n).
    pub fn into_pairs(self) -> OwnedPairs<K, V>
        ensures { result ≡ triples self.held }
    {
        let Table {
            ring,
            index,
            rechained: _,
        } = self;
        index.free();
        ring.into_pairs()
    }

    /// Returns a double-ended iterator over the pairs, front to back, with mutable references to
    /// the values.
    pub fn iter_mut(&mut self) -> TriplesMut<'_, K, V>
        ensures* writes_back { sem 𝓛 (lends_values K.row V.row self.entry (loan_name result)) }
        ensures rest { pairs_left result ≡ map (λ t. t.pair) self.old.held }
    {
        self.ring.iter_mut()
    }

    /// Removes all pairs and returns them as an iterator, front to back, in O(n) for pairs and
    /// buckets, or O(1) if there are none. The table is empty, also if the iterator is forgotten.
    pub fn drain(&mut self) -> Drain<'_, K, V>
        ensures* writes_back { sem 𝓛 (lends_drained K.row V.row self.entry (drain_name result)) }
        ensures rest { drain_rest result ≡ triples self.old.held }
    {
        self.index.clear(&self.ring);
        self.ring.splice_all()
    }
}

impl<K: Eq + Hash, V> Table<K, V> {
    /// Returns the position of the pair with this hash and key, if any, and the counts. Asks no
    /// filter.
    pub fn find(&self, hash: u64, key: &K) -> (Option<Position<K, V>>, Probe)
        ensures found { IfSome result.0 (λ p.
            HasKey (K.eq key.now) hash self.now.held (pointer_of p)) }
        ensures absent { IfNone result.0 (LacksKey (K.eq key.now) hash self.now.held) }
        ensures counts_found { OnSome result.0
            (CountsSome (spots self.now.held) (buckets self.now.capacity) hash result.1.visited
            result.1.compared) }
        ensures counts_absent { IfNone result.0
            (CountsAll (spots self.now.held) (buckets self.now.capacity) hash result.1.visited
            result.1.compared) }
    {
        self.index.find(&self.ring, hash, key)
    }

    /// Returns the position of the pair with this hash and key, if any. It reads no pair if the
    /// filter lacks the hash.
    #[inline(always)]
    pub fn position<Q: Equivalent<K>>(&self, hash: u64, key: Q) -> Option<Position<K, V>>
        ensures found { IfSome result (λ p.
            HasKey (Q.equivalent key) hash self.now.held (pointer_of p)) }
        ensures absent { IfNone result (LacksKey (Q.equivalent key) hash self.now.held) }
    {
        self.index.position(&self.ring, hash, key)
    }

    /// Removes and returns the pair with this hash and key, if any. Asks the filter first.
    pub fn remove<Q: Equivalent<K>>(&mut self, hash: u64, key: Q) -> Option<(K, V)>
        ensures removed { IfSome result
            (Removes (Q.equivalent key) hash self.old.held self.new.held) }
        ensures absent { IfNone result (LacksKey (Q.equivalent key) hash self.old.held) }
        ensures unchanged { IfNone result (self.new ≡ self.old) }
        ensures keeps { KeepsCounts self.old self.new }
    {
        let at = self.index.take_out(&mut self.ring, hash, key)?;
        let (_, key, value) = self.ring.unlink(at);
        Some((key, value))
    }
}
