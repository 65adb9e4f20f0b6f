//! The memory of an index's buckets: one block, with the heads in front and the words right behind
//! them.
ghost use Rattle.std.specs.Prelude.{◌≡◌, ℕ, ◌<◌, ◌^◌, List, [], length, vec_len, vec_capacity};
ghost use Rattle.std.specs.Vec.{vec_ptr};
ghost use denote.RawPtr.{Ptr};
ghost use Rattle.lhm_ring.specs.BucketBlock.{behind, block_heads, dealloc_owns, elements_own, elements_lent};

use crate::nodes::Block;
use crate::pointer::Link;
use std::alloc::Global;
use std::marker::{Model, PhantomData};
use std::mem::{self, size_of};
use std::slice;
use std_alloc::vec::{Lodged, lodge};

/// The head of a chain. It is not `Drop`.
pub(crate) struct Head {
    pub(crate) link: Link,
}

// The head of a bucket is one pointer.
const _: () = prove!(size_of::<Head>() == 8);

/// The bits of a bucket: bit i is set if a node of the bucket may have a hash whose upper four bits
/// are i. It is not `Drop`.
pub(crate) struct Word {
    pub(crate) bits: u16,
}

// A bucket takes two bytes of the filter.
const _: () = prove!(size_of::<Word>() == 2);

/// The elements of a vector without spare room, whose pointer and length the index keeps. It takes
/// no space.
pub(crate) struct Elements<T> {
    marker: PhantomData<*mut T>,
    ghost at: { Ptr },
    ghost items: { List T },
}

impl<T> Model for Elements<T> {
    ghost also_owns = { λ e. elements_own T.row e.at e.items };

    ghost also_shares = { λ e _ κ. elements_lent T.row e.at e.items κ };
}

impl<T> Elements<T> {
    /// Creates the owner of no elements.
    pub(crate) fn none() -> Elements<T>
        ensures { result.items ≡ [] }
    {
        Elements {
            marker: PhantomData,
        }
    }

    /// Takes the elements of a vector.
    pub(crate) fn from_vec(vector: Vec<T, Lodged>) -> Elements<T>
        requires full { vec_len vector ≡ vec_capacity vector }
        ensures items { result.items ≡ vector.items }
        ensures at { result.at ≡ vec_ptr vector }
    {
        let _len = vector.dislodge();
        Elements {
            marker: PhantomData,
        }
    }

    /// Returns the elements, `len` of them at `ptr`, as a vector.
    pub(crate) fn into_vec(self, ptr: *mut T, len: usize) -> Vec<T, Lodged>
        requires at { self.at ≡ ptr }
        requires len { length self.items ≡ len }
        requires small { len < 2 ^ 63 }
        ensures items { result.items ≡ self.items }
        ensures len { (vec_len result ≡ len) × (vec_capacity result ≡ len) }
        ensures at { vec_ptr result ≡ self.at }
    {
        let Elements { marker: _ } = self;
        unsafe { lodge(ptr, len, len) }
    }

    /// Returns the elements, `len` of them at `ptr`.
    pub(crate) fn as_slice(&self, ptr: *const T, len: usize) -> &[T]
        requires at { self.now.at ≡ ptr }
        requires len { length self.now.items ≡ len }
        ensures { result.now ≡ self.now.items }
    {
        unsafe { slice::from_raw_parts(ptr, len) }
    }

    /// Takes the elements out, `len` of them at `ptr`, and returns them as a vector.
    pub(crate) fn take(&mut self, ptr: *mut T, len: usize) -> Vec<T, Lodged>
        requires at { self.old.at ≡ ptr }
        requires len { length self.old.items ≡ len }
        requires small { len < 2 ^ 63 }
        ensures items { result.items ≡ self.old.items }
        ensures len { (vec_len result ≡ len) × (vec_capacity result ≡ len) }
        ensures at { vec_ptr result ≡ self.old.at }
    {
        mem::replace(self, Elements::none()).into_vec(ptr, len)
    }

    /// Puts the elements of a vector in. What was there is forgotten.
    pub(crate) fn put(&mut self, vector: Vec<T, Lodged>)
        requires full { vec_len vector ≡ vec_capacity vector }
        ensures items { self.new.items ≡ vector.items }
        ensures at { self.new.at ≡ vec_ptr vector }
    {
        mem::replace(self, Elements::from_vec(vector)).end();
    }

    /// Forgets the elements.
    pub(crate) fn end(self) {
        let Elements { marker: _ } = self;
    }
}

/// The right to free a block whose memory is that of `count` heads at `at`, and of as many words
/// right behind them. It is nothing if `count` is 0.
pub(crate) struct Dealloc {
    ghost at: { Ptr },
    ghost count: { ℕ },
}

impl Model for Dealloc {
    ghost also_owns = { λ d. dealloc_owns d.at d.count };
}

impl Dealloc {
    /// Creates the right to free no block.
    pub(crate) fn none() -> Dealloc
        ensures { result.count ≡ 0 }
    {
        Dealloc {}
    }

    /// Gives up the right to free no block.
    pub(crate) fn end(self) {
        let Dealloc {} = self;
    }
}

/// Makes a block two empty vectors, each with room for `count`.
pub(crate) fn split_block(
    block: Block<Head, Global>,
    count: usize,
) -> (Vec<Head, Lodged>, Vec<Word, Lodged>, Dealloc)
    requires some { 0 < count }
    requires block { block.count ≡ block_heads count }
    ensures heads { (result.0.items ≡ []) × (vec_len result.0 ≡ 0)
        × (vec_capacity result.0 ≡ count) }
    ensures words { (result.1.items ≡ []) × (vec_len result.1 ≡ 0)
        × (vec_capacity result.1 ≡ count) }
    ensures count { result.2.count ≡ count }
    ensures at { (vec_ptr result.0 ≡ result.2.at) × (vec_ptr result.1 ≡ behind result.2.at count) }
{
    let Block { ptr, marker: _ } = block;
    unsafe {
        let heads = lodge(ptr, 0, count);
        let words = lodge(ptr.add(count) as *mut Word, 0, count);
        (heads, words, Dealloc {})
    }
}

/// Makes heads and words a block again. What they hold is forgotten.
pub(crate) fn join_block(
    first: *mut Head,
    heads: Elements<Head>,
    words: Elements<Word>,
    dealloc: Dealloc,
) -> Block<Head, Global>
    requires some { 0 < dealloc.count }
    requires counts { (length heads.items ≡ dealloc.count) × (length words.items ≡ dealloc.count) }
    requires at { (dealloc.at ≡ first) × (heads.at ≡ first)
        × (words.at ≡ behind first dealloc.count) }
    ensures { result.count ≡ block_heads dealloc.count }
{
    let Elements { marker: _ } = heads;
    let Elements { marker: _ } = words;
    let Dealloc {} = dealloc;
    Block {
        ptr: first,
        marker: PhantomData,
    }
}
