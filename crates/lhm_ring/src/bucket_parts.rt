//! The heads and the filter words of an index's buckets, as vectors: they are filled and cleared.
ghost use Rattle.std.specs.Prelude.{◌≡◌, ◌*◌, ◌^◌, ◌<◌, ◌≤◌, map, ℕ, None, slice_index_or, vec_len, vec_capacity};
ghost use Rattle.std.specs.Vec.{vec_ptr};
ghost use Rattle.lhm_ring.specs.BucketBlock.{block_heads};
ghost use Rattle.lhm_ring.specs.Buckets.{bits_of, leads_to};

use crate::bucket_block::{Head, Word};
use crate::pointer::Link;
use std_alloc::vec::Lodged;

/// Returns how many heads the block of `count` buckets has room for. It has room for a multiple of
/// 4 buckets, each of a head and a word.
pub(crate) fn block_heads(count: usize) -> usize
    requires { count ≤ 2 ^ 59 }
    ensures value { result ≡ block_heads count }
    ensures some { 0 < count → 0 < result }
    ensures small { result * 8 < 2 ^ 63 }
{
    5 * ((count + 3) / 4)
}

/// Makes `count` heads of no chain, within the room of the vector.
pub(crate) fn fill_heads(heads: &mut Vec<Head, Lodged>, count: usize)
    requires none { vec_len heads.old ≡ 0 }
    requires room { count ≤ vec_capacity heads.old }
    ensures empty { (b : ℕ) → slice_index_or (map leads_to heads.new.items) b None ≡ None }
    ensures len { vec_len heads.new ≡ count }
    ensures capacity { vec_capacity heads.new ≡ vec_capacity heads.old }
    ensures in_place { vec_ptr heads.new ≡ vec_ptr heads.old }
{
    'heads: while heads.len() < count {
        heads.push_reserved(Head { link: Link::none() });
    }
}

/// Makes `count` words without bits, within the room of the vector.
pub(crate) fn fill_words(words: &mut Vec<Word, Lodged>, count: usize)
    requires none { vec_len words.old ≡ 0 }
    requires room { count ≤ vec_capacity words.old }
    ensures empty { (b : ℕ) → slice_index_or (map bits_of words.new.items) b 0 ≡ 0 }
    ensures len { vec_len words.new ≡ count }
    ensures capacity { vec_capacity words.new ≡ vec_capacity words.old }
    ensures in_place { vec_ptr words.new ≡ vec_ptr words.old }
{
    'words: while words.len() < count {
        words.push_reserved(Word { bits: 0 });
    }
}

/// Makes all heads lead nowhere.
pub(crate) fn clear_heads(heads: &mut Vec<Head, Lodged>)
    ensures empty { (b : ℕ) → b < vec_len heads.old → slice_index_or (map leads_to heads.new.items) b None ≡ None }
    ensures len { vec_len heads.new ≡ vec_len heads.old }
    ensures capacity { vec_capacity heads.new ≡ vec_capacity heads.old }
    ensures in_place { vec_ptr heads.new ≡ vec_ptr heads.old }
{
    let mut next = 0;
    'heads: while next < heads.len() {
        heads[next].link = Link::none();
        next += 1;
    }
}

/// Clears all bits.
pub(crate) fn clear_words(words: &mut Vec<Word, Lodged>)
    ensures empty { (b : ℕ) → slice_index_or (map bits_of words.new.items) b 0 ≡ 0 }
    ensures len { vec_len words.new ≡ vec_len words.old }
    ensures capacity { vec_capacity words.new ≡ vec_capacity words.old }
    ensures in_place { vec_ptr words.new ≡ vec_ptr words.old }
{
    let mut next = 0;
    'words: while next < words.len() {
        words[next].bits = 0;
        next += 1;
    }
}
