//! The iterator over what a ring held, and how its nodes become spare.
ghost use Rattle.std.specs.Prelude.{◌≡◌, Some, IfSome, length};
ghost use Rattle.std.specs.Borrow.{sem};
ghost use Rattle.std.specs.Iterator.{at_most, UpTo};
ghost use Rattle.std.specs.Iterator.SizeHint.{IsWithinCount};
ghost use Rattle.lhm_ring.specs.Ring.{triples};
ghost use Rattle.lhm_ring.specs.Drain.{HandsOutFirst, HandsOutLast, HasRow, SparesRow, HasRing, SplicesRing, KeepsRow};
ghost use Rattle.lhm_ring.specs.Links.{ring_cells};
ghost use Rattle.lhm_ring.specs.Pointer.{target};

use crate::content_loan::ContentLoan;
use crate::links::{Ends, Links, join, set_chain};
use crate::nodes::Nodes;
use crate::pointer::{Link, NodePointer};
use crate::ring::Ring;
use crate::value_loan::Hole;
use std::iter::{DoubleEndedIterator, ExactSizeIterator, Iterator};
use std::marker::Model;

/// What is left to yield: `left` nodes, from `first` to `last`.
struct Remaining<'a, K, V> {
    nodes: &'a Nodes<Links, Hole<K>, Hole<V>>,
    contents: ContentLoan<'a, Links, K, V>,
    first: NodePointer,
    last: NodePointer,
    left: usize,
}

impl<'a, K, V> Model for Remaining<'a, K, V> {
    ghost use Rattle.std.specs.Prelude.{List, ℕ};
    ghost use Rattle.lhm_ring.specs.Links.{contents as held_in, IsSpan};
    ghost use Rattle.lhm_ring.specs.ContentLoan.{with_bodies};
    ghost use Rattle.lhm_ring.specs.Ring.{triples};

    ghost Value = { List (ℕ × (K × V)) };

    ghost view = { λ r. triples (held_in (with_bodies r.nodes.now.cells r.contents.run)) };

    ghost invariant = { λ r. IsSpan (with_bodies r.nodes.now.cells r.contents.run)
        (held_in (with_bodies r.nodes.now.cells r.contents.run)) r.first.ptr r.last.ptr r.left };
}

impl<'a, K, V> Remaining<'a, K, V> {
    fn take_first(&mut self) -> Option<(u64, K, V)>
        ensures { HandsOutFirst self.old result self.new }
    {
        if self.left == 0 {
            return None;
        }
        let at = self.first;
        let links = *self.nodes.links(at);
        let (key, value) = self.contents.take(at);
        self.first = links.next.address();
        self.left -= 1;
        Some((links.hash, key, value))
    }

    fn take_last(&mut self) -> Option<(u64, K, V)>
        ensures { HandsOutLast self.old result self.new }
    {
        if self.left == 0 {
            return None;
        }
        let at = self.last;
        let links = *self.nodes.links(at);
        let (key, value) = self.contents.take(at);
        self.last = links.prev.address();
        self.left -= 1;
        Some((links.hash, key, value))
    }

    fn len(&self) -> usize
        ensures { result ≡ length self.now }
    {
        self.left
    }
}

impl<K: Drop, V: Drop> Drop for Remaining<'_, K, V> {
    fn drop(mut self) {
        'rest: while let Some((_, key, value)) = self.take_first() {
            drop(key);
            drop(value);
        }
        let Remaining {
            nodes: _,
            contents: _,
            first: _,
            last: _,
            left: _,
        } = self;
    }
}

/// A double-ended iterator over the triples removed by `Ring::splice_all`, each in O(1). Dropping
/// it drops those left, in O(n); forgetting it leaks them.
pub struct Drain<'a, K, V> {
    // A borrow of no bytes. When it ends, the ring holds nothing and all its nodes are spare.
    anchor: &'a mut [u8; 0],
    remaining: Remaining<'a, K, V>,
}

impl<K, V> Ring<K, V> {
    ghost use Rattle.lhm_ring.specs.RingAfterLoan.{lends_spliced};
    ghost use Rattle.lhm_ring.specs.Drain.{drain_name, drain_rest};

    /// Removes all triples and returns them as a double-ended iterator, front to back, in O(n).
    /// Positions end, and the nodes are spare, also if the [`Drain`] is forgotten.
    pub fn splice_all(&mut self) -> Drain<'_, K, V>
        ensures* writes_back { sem 𝓛 (lends_spliced K.row V.row self.entry (drain_name result)) }
        ensures rest { drain_rest result ≡ triples self.old.held }
    {
        let left = self.len;
        let Spliced { first, last, spare } = splice(
            &mut self.nodes,
            &mut self.ends,
            self.spare,
            left,
        );
        self.spare = spare;
        self.spares += left;
        self.len = 0;
        let (anchor, nodes, contents) = self.nodes.lend_bodies();
        Drain {
            anchor,
            remaining: Remaining {
                nodes,
                contents,
                first,
                last,
                left,
            },
        }
    }
}

impl<'a, K: Drop, V: Drop> Iterator for Drain<'a, K, V> {
    ghost use Rattle.lhm_ring.specs.Drain.{drain_rest, DrainSteps};

    type Item = (u64, K, V);

    ghost next_gives = { DrainSteps };

    ghost remaining = { λ d. at_most (length (drain_rest d)) };

    fn next(&mut self) -> Option<(u64, K, V)> {
        self.remaining.take_first()
    }

    fn size_hint(&self) -> (usize, Option<usize>)
        ensures lower { IsWithinCount result.0 (at_most (length (drain_rest self.now))) }
        ensures upper { IfSome result.1 (UpTo (at_most (length (drain_rest self.now)))) }
        ensures exact { result
            ≡ (length (drain_rest self.now), Some (length (drain_rest self.now))) }
    {
        let len = self.len();
        (len, Some(len))
    }
}

impl<'a, K: Drop, V: Drop> DoubleEndedIterator for Drain<'a, K, V> {
    ghost use Rattle.lhm_ring.specs.Drain.{DrainStepsBack};

    ghost next_back_gives = { DrainStepsBack };

    fn next_back(&mut self) -> Option<(u64, K, V)> {
        self.remaining.take_last()
    }
}

impl<'a, K: Drop, V: Drop> ExactSizeIterator for Drain<'a, K, V> {
    fn len(&self) -> usize {
        self.remaining.len()
    }
}

impl<K: Drop, V: Drop> Drop for Drain<'_, K, V> {
    fn drop(self) {
        let Drain {
            anchor: _,
            remaining,
        } = self;
        drop(remaining);
    }
}

/// The nodes from `first` to `last`, and the first spare node after them.
pub(crate) struct Spliced {
    pub(crate) first: NodePointer,
    pub(crate) last: NodePointer,
    pub(crate) spare: Link,
}

/// Makes the `count` nodes from `first` on spare, the last first, and returns the first spare one.
fn spare_row<K, V>(
    nodes: &mut Nodes<Links, K, V>,
    first: NodePointer,
    count: usize,
    spare: Link,
) -> Link
    requires { HasRow nodes.old.cells first.ptr count (target spare) }
    ensures spared { SparesRow nodes.old.cells first.ptr count (target spare) nodes.new.cells
        (target result) }
    ensures land { (nodes.new.unused ≡ nodes.old.unused) × (nodes.new.chunks ≡ nodes.old.chunks) }
{
    let mut at = first;
    let mut spare = spare;
    let mut left = count;
    'row: while 0 < left {
        let next = nodes.links(at).next.address();
        set_chain(nodes, at, spare);
        spare = Link::to(at);
        at = next;
        left -= 1;
    }
    spare
}

/// Makes all held nodes spare, with what they hold.
pub(crate) fn splice<K, V>(
    nodes: &mut Nodes<Links, K, V>,
    ends: &mut Ends,
    spare: Link,
    count: usize,
) -> Spliced
    requires { HasRing (ring_cells ends.old nodes.old.cells) spare count }
    ensures spliced { SplicesRing (ring_cells ends.old nodes.old.cells) spare count
        (ring_cells ends.new nodes.new.cells) result }
    ensures row { KeepsRow (ring_cells ends.old nodes.old.cells) spare count
        nodes.new.cells result }
    ensures land { (nodes.new.unused ≡ nodes.old.unused) × (nodes.new.chunks ≡ nodes.old.chunks) }
{
    let first = ends.first.address();
    let last = ends.last.address();
    let spare = spare_row(nodes, first, count, spare);
    join(nodes, ends, Link::none(), Link::none());
    Spliced { first, last, spare }
}
