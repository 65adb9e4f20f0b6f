//! The position of each key, by its hash: chains through the nodes.
ghost use Rattle.std.specs.Prelude.{◌≡◌, ◌<◌, ◌≤◌, ◌^◌, [], length, IfSome, IfNone};
ghost use Rattle.std.specs.Int.{IsPowerOfTwo};
ghost use Rattle.lhm_ring.specs.Ring.{IsHeld};
ghost use Rattle.lhm_ring.specs.Pointer.{pointer_of, pointer_of_some};
ghost use Rattle.lhm_ring.specs.Buckets.{HasNoChain};
ghost use Rattle.lhm_ring.specs.Search.{HasKey, LacksKey};
ghost use Rattle.lhm_ring.specs.Index.{Indexes, spots, OfNodeAt, ChangesLinks, HoldsOthers, IsOnChain, PutsFirst};

use crate::bucket_block::{Dealloc, Elements, Head, Word};
pub use crate::buckets::buckets_for;
use crate::pointer::{Link, Position};
use crate::ring::Ring;
use crate::search::Found;
pub use crate::search::Probe;
use equivalent::Equivalent;
use std::alloc::Global;
use std::hash::Hash;
use std::marker::{Model, PhantomData};
use std::mem;
use std::ptr::null_mut;

/// The chains of a ring, by their heads, and a filter of the hashes. Each call is given the ring,
/// and changes its chain links alone.
///
/// The bucket of a hash is the hash modulo the number of buckets, 0 or a power of two. Calls are
/// O(1), on average if they search or remove, unless they say otherwise. Only `with_buckets`
/// allocates. It is not `Drop`: only `free` ends it.
pub struct Index<K, V> {
    // How many buckets there are, and where their words and heads lie. A lookup of an absent key
    // mostly reads the first two alone.
    pub(crate) count: usize,
    pub(crate) words_ptr: *mut Word,
    pub(crate) heads_ptr: *mut Head,
    // For each bucket the head of its chain, and a word of the filter: if the bit of a hash is not
    // set, no node has that hash.
    pub(crate) heads: Elements<Head>,
    pub(crate) words: Elements<Word>,
    // Both lie in one block of memory, which this is the right to free.
    pub(crate) dealloc: Dealloc,
    pub(crate) alloc: Global,
    pub(crate) marker: PhantomData<*mut (K, V)>,
}

impl<K, V> Model for Index<K, V> {
    ghost use Rattle.std.specs.Prelude.{◌≡◌, ◌<◌, ◌≤◌, ◌^◌, map, length};
    ghost use Rattle.lhm_ring.specs.BucketBlock.{behind};
    ghost use Rattle.lhm_ring.specs.Buckets.{BitsHaveChains, BucketState, IsBucketCount, leads_to, bits_of};

    ghost Value = { BucketState };

    ghost view = { λ i. record {
      heads = map leads_to i.heads.items;
      words = map bits_of i.words.items;
    } };

    ghost invariant = { λ i. record {
      heads_count : length i.heads.items ≡ i.count;
      words_count : length i.words.items ≡ i.count;
      power : IsBucketCount i.count;
      small : i.count ≤ 2 ^ 59;
      heads_at : 0 < i.count → i.heads.at ≡ i.heads_ptr;
      words_at : 0 < i.count → i.words.at ≡ i.words_ptr;
      -- the words lie right behind the heads
      behind_heads : 0 < i.count → i.words.at ≡ behind i.heads_ptr i.count;
      dealloc_count : i.dealloc.count ≡ i.count;
      dealloc_at : 0 < i.count → i.dealloc.at ≡ i.heads_ptr;
      bits : BitsHaveChains (map leads_to i.heads.items) (map bits_of i.words.items);
    } };
}

impl<K, V> Index<K, V> {
    /// Creates an index without buckets, for an empty ring.
    pub fn new(alloc: Global) -> Index<K, V>
        ensures heads { result.heads ≡ [] }
        ensures words { result.words ≡ [] }
    {
        Index {
            count: 0,
            words_ptr: null_mut(),
            heads_ptr: null_mut(),
            heads: Elements::none(),
            words: Elements::none(),
            dealloc: Dealloc::none(),
            alloc,
            marker: PhantomData,
        }
    }

    /// Returns the number of buckets.
    pub fn buckets(&self) -> usize
        ensures { result ≡ length self.now.heads }
    {
        self.count
    }

    /// Puts a node that is in no chain at the head of its chain, and sets its bit. It does not read
    /// the hash of the node.
    pub(crate) fn put_in_by_hash(&mut self, ring: &mut Ring<K, V>, at: Position<K, V>, hash: u64)
        requires some { 0 < length self.old.heads }
        requires held { IsHeld ring.old.held (pointer_of at) }
        requires hash { OfNodeAt ring.old.held (pointer_of at) (λ x. hash ≡ x.hash) }
        ensures first { PutsFirst (pointer_of at) self.old self.new ring.old.held ring.new.held }
        ensures indexed { HoldsOthers self.old ring.old.held (pointer_of at)
            → Indexes self.new (spots ring.new.held) }
        ensures links { ChangesLinks ring.old ring.new }
        ensures buckets { length self.new.heads ≡ length self.old.heads }
    {
        let bucket = self.bucket_of(hash);
        let behind = self.put_first(bucket, hash, at);
        ring.set_link(at, behind);
    }

    /// Removes a node from its chain. Bits of its bucket are cleared if no node is left there.
    pub(crate) fn unchain(&mut self, ring: &mut Ring<K, V>, hash: u64, found: Found<K, V>)
        requires indexed { Indexes self.old (spots ring.old.held) }
        requires on_chain { IsOnChain self.old.heads hash (spots ring.old.held)
            (pointer_of_some found.before) (pointer_of found.at) }
        ensures lacks { HoldsOthers self.new ring.new.held (pointer_of found.at) }
        ensures links { ChangesLinks ring.old ring.new }
        ensures buckets { length self.new.heads ≡ length self.old.heads }
    {
        let link = ring.links(found.at).link;
        match found.before {
            Some(before) => ring.set_link(before, link),
            None => self.set_head(self.bucket_of(hash), link),
        }
    }

    /// Returns the position before `at` on its chain, if any. Positions cannot be compared: it cuts
    /// the chain behind the node until it has found the last one.
    fn before(&self, ring: &mut Ring<K, V>, hash: u64, at: Position<K, V>) -> Option<Position<K, V>>
        requires held { IsHeld ring.old.held (pointer_of at) }
        requires hash { OfNodeAt ring.old.held (pointer_of at) (λ x. hash ≡ x.hash) }
        requires indexed { Indexes self.now (spots ring.old.held) }
        requires small { length ring.old.held < 2 ^ 64 }
        ensures on_chain { IsOnChain self.now.heads hash (spots ring.old.held)
            (pointer_of_some result) (pointer_of at) }
        ensures ring { ring.new ≡ ring.old }
    {
        let link = ring.links(at).link;
        ring.set_link(at, Link::none());
        let mut before = None;
        let head = self.head(self.bucket_of(hash));
        let mut here = head.position();
        let mut passed: usize = 0;
        'chain: while let Some(next) = ring.links(here).link.get() {
            before = Some(here);
            here = next;
            passed += 1;
        }
        ring.set_link(at, link);
        before
    }

    /// Removes the node at a position from its chain. Compares no key.
    pub fn take_out_at(&mut self, ring: &mut Ring<K, V>, at: Position<K, V>)
        requires held { IsHeld ring.old.held (pointer_of at) }
        requires indexed { Indexes self.old (spots ring.old.held) }
        requires small { length ring.old.held < 2 ^ 64 }
        ensures lacks { HoldsOthers self.new ring.new.held (pointer_of at) }
        ensures links { ChangesLinks ring.old ring.new }
        ensures buckets { length self.new.heads ≡ length self.old.heads }
    {
        let hash = ring.links(at).hash;
        let before = self.before(ring, hash, at);
        self.unchain(ring, hash, Found { before, at });
    }

    /// Replaces the buckets by fresh ones, rehashes all held nodes, and returns how many, in O(n).
    pub fn take_over(&mut self, fresh: Index<K, V>, ring: &mut Ring<K, V>) -> usize
        requires empty { HasNoChain fresh }
        requires words { length fresh.words ≡ length fresh.heads }
        requires some { length fresh.heads ≡ 0 → ring.old.held ≡ [] }
        requires small { length ring.old.held < 2 ^ 64 }
        ensures indexed { Indexes self.new (spots ring.new.held) }
        ensures count { result ≡ length ring.old.held }
        ensures links { ChangesLinks ring.old ring.new }
        ensures buckets { length self.new.heads ≡ length fresh.heads }
    {
        mem::replace(self, fresh).free();
        self.put_in_all(ring)
    }

    /// Makes `count` buckets within the room, rehashes all held nodes, and returns how many, in
    /// O(n).
    pub(crate) fn spread(&mut self, count: usize, ring: &mut Ring<K, V>) -> usize
        requires buckets { 0 < length self.old.heads }
        requires within { length self.old.heads ≤ 4 }
        requires some { 0 < count }
        requires few { count ≤ 4 }
        requires power { IsPowerOfTwo count }
        requires small { length ring.old.held < 2 ^ 64 }
        ensures indexed { Indexes self.new (spots ring.new.held) }
        ensures count { result ≡ length ring.old.held }
        ensures links { ChangesLinks ring.old ring.new }
        ensures buckets { length self.new.heads ≡ count }
    {
        self.make_empty(count);
        self.put_in_all(ring)
    }

    /// Puts all held nodes into empty buckets, and returns how many, in O(n).
    fn put_in_all(&mut self, ring: &mut Ring<K, V>) -> usize
        requires empty { HasNoChain self.old }
        requires words { length self.old.words ≡ length self.old.heads }
        requires some { length self.old.heads ≡ 0 → ring.old.held ≡ [] }
        requires small { length ring.old.held < 2 ^ 64 }
        ensures indexed { Indexes self.new (spots ring.new.held) }
        ensures count { result ≡ length ring.old.held }
        ensures links { ChangesLinks ring.old ring.new }
        ensures buckets { length self.new.heads ≡ length self.old.heads }
    {
        let mut count = 0;
        let mut pointer = ring.first();
        while let Some(at) = pointer {
            pointer = ring.next(at);
            self.put_in_by_hash(ring, at, ring.links(at).hash);
            count += 1;
        }
        count
    }
}

impl<K: Eq + Hash, V> Index<K, V> {
    /// Returns the position of the node with this hash and key, if any. It reads no node if the
    /// filter lacks the hash.
    #[inline(always)]
    pub fn position<Q: Equivalent<K>>(
        &self,
        ring: &Ring<K, V>,
        hash: u64,
        key: Q,
    ) -> Option<Position<K, V>>
        requires indexed { Indexes self.now (spots ring.now.held) }
        requires small { length ring.now.held < 2 ^ 64 }
        ensures found { IfSome result (λ p.
            HasKey (Q.equivalent key) hash ring.now.held (pointer_of p)) }
        ensures absent { IfNone result (LacksKey (Q.equivalent key) hash ring.now.held) }
    {
        if self.buckets() == 0 {
            return None;
        }
        let bucket = self.bucket_of(hash);
        if !self.may_contain(bucket, hash) {
            return None;
        }
        let first = self.head(bucket).position();
        let (found, _) = self.search_on(ring, self.begin(ring, first, hash), hash, key);
        Some(found?.at)
    }
}
