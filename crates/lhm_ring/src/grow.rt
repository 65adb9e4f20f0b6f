//! Makes nodes spare, in new chunks if need be.
ghost use Rattle.std.specs.Prelude.{◌≡◌, ◌+◌, ◌<◌, ◌≤◌, ◌^◌, [], min, max, length, OnOk, OnErr};
ghost use Rattle.lhm_ring.specs.Nodes.{row};
ghost use Rattle.lhm_ring.specs.Links.{nodes_grown, next_chunk, least_more, IsStacked};

use crate::chunks::new_chunk;
use crate::links::Links;
use crate::nodes::Nodes;
use crate::pointer::{Link, NodePointer};
use crate::ring::Ring;
use std::alloc::AllocError;

/// The most nodes of a ring. At 32 bytes or more, no machine has so many.
const MOST_NODES: usize = 1 << 59;

/// Returns how many nodes the next chunk has, if one is missing: two, or from 16 nodes on half as
/// many as are `made`.
fn next_chunk(made: usize) -> usize
    ensures { result ≡ next_chunk made }
{
    if 16 <= made { made / 2 } else { 2 }
}

/// Returns the least size of a new chunk: for one more node that of the next chunk, at most 64 and
/// at most `most - made`; otherwise 0.
fn chunk_size(count: usize, made: usize, most: usize) -> usize
    ensures few { result ≤ 64 }
    ensures least { result ≡ least_more count made most }
{
    if count != 1 || most < made {
        return 0;
    }
    next_chunk(made).min((most - made).min(64))
}

/// Makes the `count` unused places from `start` on spare nodes, and returns the first spare one.
fn make_spares<K, V>(
    nodes: &mut Nodes<Links, K, V>,
    start: NodePointer,
    spare: Link,
    count: usize,
) -> Link
    requires small { nodes.old.node_bytes < 2 ^ 63 }
    requires unused { nodes.old.unused ≡ row start.ptr nodes.old.node_bytes count }
    ensures stacked { IsStacked nodes.old.cells spare count nodes.new.cells result }
    ensures unused { nodes.new.unused ≡ [] }
    ensures chunks { nodes.new.chunks ≡ nodes.old.chunks }
{
    let mut first = spare;
    let mut left = count;
    'each: while 0 < left {
        left -= 1;
        let links = Links {
            prev: Link::none(),
            next: Link::none(),
            link: first,
            hash: 0,
        };
        let at = nodes.add(start, left, links);
        first = Link::to(at);
    }
    first
}

impl<K, V> Ring<K, V> {
    /// Makes `count` more nodes spare than the chunks have, allocating what is missing as one chunk
    /// of at least `least`.
    #[cold]
    #[inline(never)]
    fn grow_by(&mut self, count: usize, least: usize) -> Result<(), AllocError>
        requires small { least ≤ 2 ^ 58 }
        requires missing { min self.old.nodes (2 ^ 59)
            < length self.old.held + self.old.spares + count }
        ensures held { OnOk result (self.new.held ≡ self.old.held) }
        ensures spares { OnOk result (self.new.spares ≡ self.old.spares + count) }
        ensures nodes { OnOk result
            (self.new.nodes ≡ nodes_grown self.old.nodes
            (length self.old.held + self.old.spares + count) least) }
        ensures refused { OnErr result (self.new ≡ self.old) }
    {
        if MOST_NODES - self.len - self.spares < count {
            return Err(AllocError);
        }
        let missing = self.len + self.spares + count - self.made;
        let places = missing.max(least);
        let (chunk, first) = new_chunk(&mut self.nodes, &self.alloc, self.chunks, places)?;
        self.chunks = chunk;
        self.spare = make_spares(&mut self.nodes, first, self.spare, places);
        self.spares += count;
        self.made += places;
        Ok(())
    }

    /// Makes `count` more nodes spare, in O(n), allocating what is missing as one chunk. If that
    /// fails, or there would be more than 2^59 nodes, nothing changes.
    pub fn grow(&mut self, count: usize) -> Result<(), AllocError>
        ensures held { OnOk result (self.new.held ≡ self.old.held) }
        ensures spares { OnOk result (self.new.spares ≡ self.old.spares + count) }
        ensures nodes { OnOk result
            (self.new.nodes ≡ max self.old.nodes (length self.old.held + self.old.spares + count)) }
        ensures refused { OnErr result (self.new ≡ self.old) }
    {
        self.grow_within(count, 0)
    }

    /// Makes `count` more nodes spare, as `grow` does. For one it allocates two, or from 16 nodes
    /// on half as many as there are, at most 64, and at most `most` in all.
    pub fn grow_within(&mut self, count: usize, most: usize) -> Result<(), AllocError>
        ensures held { OnOk result (self.new.held ≡ self.old.held) }
        ensures spares { OnOk result (self.new.spares ≡ self.old.spares + count) }
        ensures nodes { OnOk result
            (self.new.nodes ≡ nodes_grown self.old.nodes
            (length self.old.held + self.old.spares + count)
            (least_more count self.old.nodes most)) }
        ensures nodes_within { OnOk result
            (self.old.nodes ≤ most → length self.old.held + self.old.spares + count ≤ most
            → self.new.nodes ≤ most) }
        ensures refused { OnErr result (self.new ≡ self.old) }
    {
        if count <= self.made.min(MOST_NODES) - self.len - self.spares {
            self.spares += count;
            return Ok(());
        }
        let least = chunk_size(count, self.made, most);
        self.grow_by(count, least)
    }

    /// Makes no node spare any more. All stay.
    pub fn free_spares(&mut self)
        ensures held { self.new.held ≡ self.old.held }
        ensures no_spares { self.new.spares ≡ 0 }
        ensures nodes { self.new.nodes ≡ self.old.nodes }
    {
        self.spares = 0;
    }
}
