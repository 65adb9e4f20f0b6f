//! Double-ended iterators over a ring.
ghost use Rattle.std.specs.Prelude.{◌≡◌, Some, IfSome, length};
ghost use Rattle.std.specs.Iterator.{at_most, UpTo};
ghost use Rattle.std.specs.Iterator.SizeHint.{IsWithinCount};
ghost use Rattle.lhm_ring.specs.Iter.{IsFirstStep, IsLastStep, ShowsFirstStep, ShowsLastStep};

use crate::links::Links;
use crate::nodes::Nodes;
use crate::pointer::NodePointer;
use crate::ring::Ring;
use std::alloc::AllocError;
use std::iter::{DoubleEndedIterator, ExactSizeIterator, Iterator};
use std::marker::Model;

/// A double-ended iterator over the triples, each in O(1).
#[derive(Drop)]
pub struct Iter<'a, K, V> {
    // What is left is in the `left` nodes from `first` to `last`.
    pub(crate) nodes: &'a Nodes<Links, K, V>,
    pub(crate) first: NodePointer,
    pub(crate) last: NodePointer,
    pub(crate) left: usize,
}

impl<'a, K, V> Model for Iter<'a, K, V> {
    ghost use Rattle.std.specs.Prelude.{List};
    ghost use Rattle.lhm_ring.specs.Links.{HasSpan, span};
    ghost use Rattle.lhm_ring.specs.Ring.{Held};

    ghost Value = { List (Held (K × V)) };

    ghost view = { λ w. span w.nodes.now.cells w.left w.first.ptr };

    ghost invariant = { λ w. HasSpan w.nodes.now.cells w.first.ptr w.last.ptr w.left };
}

impl<'a, K, V> Iter<'a, K, V> {
    pub(crate) fn step(&mut self) -> Option<(NodePointer, u64, &'a K, &'a V)>
        ensures { IsFirstStep self.old result self.new }
    {
        if self.left == 0 {
            return None;
        }
        let nodes = self.nodes;
        let at = self.first;
        let links = nodes.links(at);
        self.first = links.next.address();
        self.left -= 1;
        Some((at, links.hash, nodes.key(at), nodes.value(at)))
    }

    pub(crate) fn step_back(&mut self) -> Option<(NodePointer, u64, &'a K, &'a V)>
        ensures { IsLastStep self.old result self.new }
    {
        if self.left == 0 {
            return None;
        }
        let nodes = self.nodes;
        let at = self.last;
        let links = nodes.links(at);
        self.last = links.prev.address();
        self.left -= 1;
        Some((at, links.hash, nodes.key(at), nodes.value(at)))
    }
}

impl<'a, K, V> Iterator for Iter<'a, K, V> {
    type Item = (u64, &'a K, &'a V);

    ghost next_gives = { ShowsFirstStep };

    ghost remaining = { λ s. at_most (length s) };

    fn next(&mut self) -> Option<(u64, &'a K, &'a V)> {
        match self.step() {
            Some((_, hash, key, value)) => Some((hash, key, value)),
            None => None,
        }
    }

    fn size_hint(&self) -> (usize, Option<usize>)
        ensures lower { IsWithinCount result.0 (at_most (length self.now)) }
        ensures upper { IfSome result.1 (UpTo (at_most (length self.now))) }
        ensures exact { result ≡ (length self.now, Some (length self.now)) }
    {
        (self.len(), Some(self.len()))
    }
}

impl<'a, K, V> ExactSizeIterator for Iter<'a, K, V> {
    fn len(&self) -> usize {
        self.left
    }
}

impl<'a, K, V> DoubleEndedIterator for Iter<'a, K, V> {
    ghost next_back_gives = { ShowsLastStep };

    fn next_back(&mut self) -> Option<(u64, &'a K, &'a V)> {
        match self.step_back() {
            Some((_, hash, key, value)) => Some((hash, key, value)),
            None => None,
        }
    }
}

/// Clones the iterator, without failing or allocating.
impl<'a, K, V> Clone for Iter<'a, K, V> {
    ghost use Rattle.std.specs.Prelude.{◌≡◌, ⊤};

    ghost is_clone = { λ s t. t ≡ s };

    ghost is_infallible = { λ _. ⊤ };

    fn clone(&self) -> Result<Self, AllocError> {
        Ok(Iter {
            nodes: self.nodes,
            first: self.first,
            last: self.last,
            left: self.left,
        })
    }
}

impl<K, V> Ring<K, V> {
    /// Returns a double-ended iterator over the triples, front to back.
    pub fn iter(&self) -> Iter<'_, K, V>
        ensures { result ≡ self.now.held }
    {
        Iter {
            nodes: &self.nodes,
            first: self.ends.first.address(),
            last: self.ends.last.address(),
            left: self.len,
        }
    }
}
