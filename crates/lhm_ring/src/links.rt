//! The links of nodes, and the ends of a ring.
ghost use Rattle.std.specs.Prelude.{◌≡◌, true};
ghost use Rattle.lhm_ring.specs.Nodes.{IsAt};
ghost use Rattle.lhm_ring.specs.Links.{ring_cells, IsJoined, LeadsOn, LeadsBack, ChainsTo, is_there, next_at, prev_at};

use crate::nodes::{Node, Nodes};
use crate::pointer::{Link, NodePointer, Position};
use std::mem::size_of;

/// The links of a node for the order, its chain link, and its hash.
///
/// `prev` of the front and `next` of the back node lead nowhere. `link` of a spare node leads to
/// the next one; that of a held node belongs to the caller.
#[derive(Clone, Copy)]
pub struct Links {
    pub(crate) prev: Link,
    pub(crate) next: Link,
    pub link: Link,
    pub hash: u64,
}

// A node with a `u64` as key and as value: six words.
const _: () = prove!(size_of::<Node<Links, u64, u64>>() == 48);

// A node with a `u64` as key and no value, as in a set: five words.
const _: () = prove!(size_of::<Node<Links, u64, ()>>() == 40);

/// The front and the back node of a ring, if any.
#[derive(Clone, Copy)]
pub(crate) struct Ends {
    pub(crate) first: Link,
    pub(crate) last: Link,
}

/// Makes `b` the node behind `a`. A link to nowhere stands for the ends.
#[inline]
pub(crate) fn join<K, V>(nodes: &mut Nodes<Links, K, V>, ends: &mut Ends, a: Link, b: Link)
    requires { (is_there (ring_cells ends.old nodes.old.cells) a.ptr ≡ true)
        × (is_there (ring_cells ends.old nodes.old.cells) b.ptr ≡ true) }
    ensures joined { IsJoined (ring_cells ends.old nodes.old.cells)
        (ring_cells ends.new nodes.new.cells) a.ptr b.ptr }
    ensures land { (nodes.new.unused ≡ nodes.old.unused) × (nodes.new.chunks ≡ nodes.old.chunks) }
{
    set_next(nodes, ends, a, b);
    set_prev(nodes, ends, b, a);
}

/// Returns the link to the node behind the one at `at`, or to the front.
#[inline]
pub(crate) fn next_of<K, V>(nodes: &Nodes<Links, K, V>, ends: &Ends, at: Link) -> Link
    requires { is_there (ring_cells ends.now nodes.now.cells) at.ptr ≡ true }
    ensures { result.ptr ≡ next_at (ring_cells ends.now nodes.now.cells) at.ptr }
{
    let there: Option<Position<K, V>> = at.get();
    match there {
        Some(at) => nodes.links(at.pointer).next,
        None => ends.first,
    }
}

/// Returns the link to the node before the one at `at`, or to the back.
#[inline]
pub(crate) fn prev_of<K, V>(nodes: &Nodes<Links, K, V>, ends: &Ends, at: Link) -> Link
    requires { is_there (ring_cells ends.now nodes.now.cells) at.ptr ≡ true }
    ensures { result.ptr ≡ prev_at (ring_cells ends.now nodes.now.cells) at.ptr }
{
    let there: Option<Position<K, V>> = at.get();
    match there {
        Some(at) => nodes.links(at.pointer).prev,
        None => ends.last,
    }
}

/// Makes the node at `at`, or the front, lead on to `next`.
#[inline]
fn set_next<K, V>(nodes: &mut Nodes<Links, K, V>, ends: &mut Ends, at: Link, next: Link)
    requires { is_there (ring_cells ends.old nodes.old.cells) at.ptr ≡ true }
    ensures written { LeadsOn (ring_cells ends.old nodes.old.cells) at.ptr next
        (ring_cells ends.new nodes.new.cells) }
    ensures land { (nodes.new.unused ≡ nodes.old.unused) × (nodes.new.chunks ≡ nodes.old.chunks) }
{
    let there: Option<Position<K, V>> = at.get();
    match there {
        Some(at) => {
            let mut links = *nodes.links(at.pointer);
            links.next = next;
            nodes.set_links(at.pointer, links);
        }
        None => ends.first = next,
    }
}

/// Makes the node at `at`, or the back, lead back to `prev`.
#[inline]
fn set_prev<K, V>(nodes: &mut Nodes<Links, K, V>, ends: &mut Ends, at: Link, prev: Link)
    requires { is_there (ring_cells ends.old nodes.old.cells) at.ptr ≡ true }
    ensures written { LeadsBack (ring_cells ends.old nodes.old.cells) at.ptr prev
        (ring_cells ends.new nodes.new.cells) }
    ensures land { (nodes.new.unused ≡ nodes.old.unused) × (nodes.new.chunks ≡ nodes.old.chunks) }
{
    let there: Option<Position<K, V>> = at.get();
    match there {
        Some(at) => {
            let mut links = *nodes.links(at.pointer);
            links.prev = prev;
            nodes.set_links(at.pointer, links);
        }
        None => ends.last = prev,
    }
}

/// Sets the chain link of the node at `at`.
pub(crate) fn set_chain<K, V>(nodes: &mut Nodes<Links, K, V>, at: NodePointer, link: Link)
    requires { IsAt nodes.old.cells at.ptr }
    ensures written { ChainsTo nodes.old.cells at.ptr link nodes.new.cells }
    ensures land { (nodes.new.unused ≡ nodes.old.unused) × (nodes.new.chunks ≡ nodes.old.chunks) }
{
    let mut links = *nodes.links(at);
    links.link = link;
    nodes.set_links(at, links);
}
