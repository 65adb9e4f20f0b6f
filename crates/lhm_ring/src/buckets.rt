//! The buckets of an index: each has the head of its chain, and a word of the filter.
ghost use Rattle.std.specs.Prelude.{◌≡◌, ◌%◌, ◌<◌, ◌≤◌, ◌^◌, length, None, Some, IfOk, IsOk, IsSome, IsTrue, IsFalse, slice_index_or, slice_set};
ghost use Rattle.lhm_ring.specs.Pointer.{pointer_of, target};
ghost use Rattle.std.specs.Int.{IsNextPowerOfTwo, IsPowerOfTwo};
ghost use Rattle.lhm_ring.specs.BucketBlock.{block_heads};
ghost use Rattle.lhm_ring.specs.Index.{Indexes, spots};
ghost use Rattle.lhm_ring.specs.Buckets.{buckets, HasNoChain, SetsBit, may_contain};

use crate::bucket_block::{Elements, Head, join_block, split_block};
use crate::bucket_parts::{block_heads, clear_heads, clear_words, fill_heads, fill_words};
use crate::index::Index;
use crate::nodes::{Block, allocate, deallocate};
use crate::pointer::{Link, Position};
use crate::ring::Ring;
use std::alloc::{AllocError, Global};
use std::marker::PhantomData;
use std::mem;

/// So many buckets an index has room for, if it has any: a growth up to so many asks for no memory
/// for buckets.
const FEW: usize = 4;

/// Returns the buckets of a capacity: 0 for 0, otherwise the least power of two not below it.
pub fn buckets_for(capacity: usize) -> usize
    requires { capacity ≤ 2 ^ 59 }
    ensures value { result ≡ buckets capacity }
    ensures enough { capacity ≤ result }
    ensures none { capacity ≡ 0 → result ≡ 0 }
    ensures least { 0 < capacity → IsNextPowerOfTwo capacity result }
{
    if capacity == 0 {
        0
    } else {
        capacity.next_power_of_two()
    }
}

impl<K, V> Index<K, V> {
    /// Allocates empty buckets for a capacity, in O(n), with room for 4 at least. For 0 it never
    /// fails.
    pub fn with_buckets(alloc: Global, capacity: usize) -> Result<Index<K, V>, AllocError>
        requires { capacity ≤ 2 ^ 59 }
        ensures buckets { IfOk result (λ i. length i.heads ≡ buckets capacity) }
        ensures words { IfOk result (λ i. length i.words ≡ length i.heads) }
        ensures enough { IfOk result (λ i. capacity ≤ length i.heads) }
        ensures empty { IfOk result HasNoChain }
        ensures succeeds { capacity ≡ 0 → IsOk result }
    {
        let count = buckets_for(capacity);
        if count == 0 {
            return Ok(Index::new(alloc));
        }
        let block = allocate(&alloc, block_heads(count))?;
        Ok(Index::in_block(block, count, alloc))
    }

    /// Makes `count` empty buckets in a block that has room for them.
    fn in_block(block: Block<Head, Global>, count: usize, alloc: Global) -> Index<K, V>
        requires block { block.count ≡ block_heads count }
        requires some { 0 < count }
        requires small { count ≤ 2 ^ 59 }
        requires power { IsPowerOfTwo count }
        ensures empty { HasNoChain result }
        ensures words { length result.words ≡ length result.heads }
        ensures buckets { length result.heads ≡ count }
    {
        let (mut heads, mut words, dealloc) = split_block(block, count);
        fill_heads(&mut heads, count);
        fill_words(&mut words, count);
        Index {
            count,
            words_ptr: words.as_ptr().cast_mut(),
            heads_ptr: heads.as_ptr().cast_mut(),
            heads: Elements::from_vec(heads),
            words: Elements::from_vec(words),
            dealloc,
            alloc,
            marker: PhantomData,
        }
    }

    /// Returns whether there is room for `count` buckets, as there is for 4 if there is a bucket.
    pub(crate) fn has_room(&self, count: usize) -> bool
        ensures some { IsTrue result → 0 < length self.now.heads }
        ensures few { IsTrue result → count ≤ 4 }
        ensures none { IsFalse result → 0 < length self.now.heads → 4 < count }
    {
        self.count != 0 && count <= FEW
    }

    /// Makes `count` empty buckets within the room, in place of those that there are.
    pub(crate) fn make_empty(&mut self, count: usize)
        requires some { 0 < length self.old.heads }
        requires within { length self.old.heads ≤ 4 }
        requires few { count ≤ 4 }
        requires power { IsPowerOfTwo count }
        ensures empty { HasNoChain self.new }
        ensures words { length self.new.words ≡ length self.new.heads }
        ensures buckets { length self.new.heads ≡ count }
    {
        let Index {
            count: _,
            words_ptr: _,
            heads_ptr,
            heads,
            words,
            dealloc,
            alloc,
            marker: _,
        } = mem::replace(self, Index::new(self.alloc));
        let block = join_block(heads_ptr, heads, words, dealloc);
        mem::replace(self, Index::in_block(block, count, alloc)).free();
    }

    /// Returns the bucket of a hash, by a mask.
    pub(crate) fn bucket_of(&self, hash: u64) -> usize
        requires { 0 < length self.now.heads }
        ensures of_hash { result ≡ hash % length self.now.heads }
        ensures within { result < length self.now.heads }
    {
        (hash & (self.count as u64 - 1)) as usize
    }

    /// Returns the head of a bucket.
    pub(crate) fn head(&self, bucket: usize) -> Link
        requires { bucket < length self.now.heads }
        ensures { target result ≡ slice_index_or self.now.heads bucket None }
    {
        self.heads.as_slice(self.heads_ptr, self.count)[bucket].link
    }

    /// Returns whether a node may have a hash of this bucket: `false` only if none has it, `true`
    /// only if the bucket has a node.
    pub(crate) fn may_contain(&self, bucket: usize, hash: u64) -> bool
        requires of_hash { bucket ≡ hash % length self.now.heads }
        requires within { bucket < length self.now.heads }
        ensures bit { result ≡ may_contain self.now.words hash }
        ensures chain { IsTrue result → IsSome (slice_index_or self.now.heads bucket None) }
    {
        let words = self.words.as_slice(self.words_ptr, self.count);
        (words[bucket].bits >> ((hash >> 60) as u32)) & 1 == 1
    }

    /// Makes a node with this hash the head of its bucket, sets the bit of the hash and no other,
    /// and returns the old head.
    pub(crate) fn put_first(&mut self, bucket: usize, hash: u64, at: Position<K, V>) -> Link
        requires of_hash { bucket ≡ hash % length self.old.heads }
        requires within { bucket < length self.old.heads }
        ensures heads { self.new.heads ≡ slice_set self.old.heads bucket (Some (pointer_of at)) }
        ensures words { SetsBit self.old.words self.new.words hash }
        ensures old { target result ≡ slice_index_or self.old.heads bucket None }
    {
        let mut heads = self.heads.take(self.heads_ptr, self.count);
        let old = heads[bucket].link;
        heads[bucket].link = Link::to(at.pointer);
        self.heads.put(heads);
        let mut words = self.words.take(self.words_ptr, self.count);
        let bits = words[bucket].bits;
        words[bucket].bits = bits | (1u16 << ((hash >> 60) as u32));
        self.words.put(words);
        old
    }

    /// Sets the head of a bucket, and clears the bucket's bits if it leads nowhere.
    pub(crate) fn set_head(&mut self, bucket: usize, head: Link)
        requires { bucket < length self.old.heads }
        ensures heads { self.new.heads ≡ slice_set self.old.heads bucket (target head) }
        ensures same { IsSome (target head) → self.new.words ≡ self.old.words }
        ensures cleared { target head ≡ None
            → self.new.words ≡ slice_set self.old.words bucket 0 }
    {
        let mut heads = self.heads.take(self.heads_ptr, self.count);
        heads[bucket].link = head;
        self.heads.put(heads);
        let there: Option<Position<K, V>> = head.get();
        if there.is_none() {
            let mut words = self.words.take(self.words_ptr, self.count);
            words[bucket].bits = 0;
            self.words.put(words);
        }
    }

    /// Removes all chains and bits, in O(n), or O(1) if no node is held.
    pub fn clear(&mut self, ring: &Ring<K, V>)
        requires { Indexes self.old (spots ring.now.held) }
        ensures empty { HasNoChain self.new }
        ensures words { length self.new.words ≡ length self.old.words }
        ensures buckets { length self.new.heads ≡ length self.old.heads }
    {
        if ring.len() == 0 {
            return;
        }
        let mut heads = self.heads.take(self.heads_ptr, self.count);
        clear_heads(&mut heads);
        self.heads.put(heads);
        let mut words = self.words.take(self.words_ptr, self.count);
        clear_words(&mut words);
        self.words.put(words);
    }

    /// Frees the buckets, in O(n).
    pub fn free(self) {
        let Index {
            count,
            words_ptr: _,
            heads_ptr,
            heads,
            words,
            dealloc,
            alloc,
            marker: _,
        } = self;
        if count == 0 {
            heads.end();
            words.end();
            dealloc.end();
        } else {
            let block = join_block(heads_ptr, heads, words, dealloc);
            deallocate(&alloc, block, block_heads(count));
        }
    }
}
