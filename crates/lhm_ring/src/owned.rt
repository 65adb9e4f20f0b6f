//! What a ring held, by value: as an iterator, and for an owner that drops it.
ghost use Rattle.std.specs.Prelude.{◌≡◌, Some, IfSome, length, []};
ghost use Rattle.std.specs.Iterator.{at_most, UpTo};
ghost use Rattle.std.specs.Iterator.SizeHint.{IsWithinCount};
ghost use Rattle.std.specs.List.{AllZip};
ghost use Rattle.lhm_ring.specs.Ring.{triples, IsTripleClone};
ghost use Rattle.lhm_ring.specs.Drain.{HandsOutFirst, HandsOutLast};

use crate::chunks::free_chunks;
use crate::links::Links;
use crate::nodes::Nodes;
use crate::pointer::NodePointer;
use crate::ring::Ring;
use std::alloc::{AllocError, Global};
use std::iter::{DoubleEndedIterator, ExactSizeIterator, Iterator};
use std::marker::Model;

/// A double-ended iterator that owns the triples, each in O(1). Dropping it drops those left, in
/// O(n). Only a clone allocates.
#[derive(Drop)]
pub struct IntoIter<K, V> {
    ring: Ring<K, V>,
}

impl<K, V> Model for IntoIter<K, V> {
    ghost use Rattle.std.specs.Prelude.{List, ℕ};
    ghost use Rattle.lhm_ring.specs.Ring.{triples};

    ghost Value = { List (ℕ × (K × V)) };

    ghost view = { λ i. triples i.ring.held };
}

impl<K, V> IntoIter<K, V> {
    pub(crate) fn new(ring: Ring<K, V>) -> IntoIter<K, V>
        ensures { result ≡ triples ring.held }
    {
        IntoIter { ring }
    }

    fn take_first(&mut self) -> Option<(u64, K, V)>
        ensures { HandsOutFirst self.old result self.new }
    {
        let at = self.ring.first()?;
        Some(self.ring.unlink(at))
    }

    fn take_last(&mut self) -> Option<(u64, K, V)>
        ensures { HandsOutLast self.old result self.new }
    {
        let at = self.ring.last()?;
        Some(self.ring.unlink(at))
    }
}

impl<K: Drop, V: Drop> Iterator for IntoIter<K, V> {
    type Item = (u64, K, V);

    ghost next_gives = { HandsOutFirst };

    ghost remaining = { λ s. at_most (length s) };

    fn next(&mut self) -> Option<(u64, K, V)> {
        self.take_first()
    }

    fn size_hint(&self) -> (usize, Option<usize>)
        ensures lower { IsWithinCount result.0 (at_most (length self.now)) }
        ensures upper { IfSome result.1 (UpTo (at_most (length self.now))) }
        ensures exact { result ≡ (length self.now, Some (length self.now)) }
    {
        let len = self.len();
        (len, Some(len))
    }
}

impl<K: Drop, V: Drop> DoubleEndedIterator for IntoIter<K, V> {
    ghost next_back_gives = { HandsOutLast };

    fn next_back(&mut self) -> Option<(u64, K, V)> {
        self.take_last()
    }
}

impl<K: Drop, V: Drop> ExactSizeIterator for IntoIter<K, V> {
    fn len(&self) -> usize {
        self.ring.len()
    }
}

impl<K: Clone, V: Clone> Clone for IntoIter<K, V> {
    ghost use Rattle.std.specs.Prelude.{[]};

    ghost is_clone = { AllZip (IsTripleClone K.is_clone V.is_clone) };

    ghost is_infallible = { λ s. s ≡ [] };

    fn clone(&self) -> Result<Self, AllocError> {
        let mut ring = Ring::with_spares(self.ring.allocator(), self.ring.len())?;
        for (hash, key, value) in self.ring.iter() {
            ring.put_back(hash, key.clone()?, value.clone()?);
        }
        Ok(Self::new(ring))
    }
}

/// The pairs of a table that ended, with their hashes, front to back.
///
/// It writes no links, so the compiler may leave out a loop that drops nothing. It is not `Drop`,
/// and no call needs keys or values that are, so none can forget a pair or a node.
pub struct OwnedPairs<K, V> {
    pub(crate) nodes: Nodes<Links, K, V>,
    pub(crate) alloc: Global,
    // The newest chunk, or null.
    pub(crate) chunks: NodePointer,
    // The front node of the `left` that still hold a pair.
    pub(crate) first: NodePointer,
    pub(crate) left: usize,
}

impl<K, V> Model for OwnedPairs<K, V> {
    ghost use Rattle.std.specs.Prelude.{◌≡◌, List, ℕ};
    ghost use denote.RawPtr.{Ptr};
    ghost use Rattle.lhm_ring.specs.Links.{contents, IsChain, IsSpan};
    ghost use Rattle.lhm_ring.specs.Ring.{triples};

    ghost Value = { List (ℕ × (K × V)) };

    ghost view = { λ p. triples (contents p.nodes.cells) };

    ghost invariant = { λ p. record {
      last : Ptr;
      span : IsSpan p.nodes.cells (contents p.nodes.cells) p.first.ptr last p.left;
      all_listed : IsChain p.nodes.chunks p.chunks.ptr;
    } };
}

impl<K, V> OwnedPairs<K, V> {
    /// Removes and returns the front pair with its hash, if any, in O(1).
    pub fn take_first(&mut self) -> Option<(u64, K, V)>
        ensures { HandsOutFirst self.old result self.new }
    {
        if self.left == 0 {
            return None;
        }
        let at = self.first;
        let links = *self.nodes.links(at);
        let (key, value) = self.nodes.take(at);
        self.first = links.next.address();
        self.left -= 1;
        Some((links.hash, key, value))
    }

    /// Ends it once no pair is left, and frees the nodes, in O(n).
    pub fn destroy_empty(self)
        requires { self ≡ [] }
    {
        let OwnedPairs {
            mut nodes,
            alloc,
            chunks,
            first: _,
            left: _,
        } = self;
        free_chunks(&mut nodes, &alloc, chunks);
        nodes.destroy_empty();
    }
}
