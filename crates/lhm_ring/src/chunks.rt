//! Allocates chunks, and frees all. Their heads make a list, newest first.
ghost use Rattle.std.specs.Prelude.{◌≡◌, ◌<◌, ◌/◌, ◌*◌, ◌^◌, [], ◌∷◌, true, IfOk, OnOk, OnErr, IsTrue};
ghost use Rattle.lhm_ring.specs.Nodes.{row, chunk, chunk_units, is_block, IsChunk};
ghost use Rattle.lhm_ring.specs.Links.{IsChain};

use crate::links::Links;
use crate::nodes::{ChunkHead, ChunkUnit, Node, Nodes, allocate, deallocate, size};
use crate::pointer::NodePointer;
use std::alloc::{AllocError, Global};

/// Returns whether so many bytes are whole units.
fn divides(unit: usize, bytes: usize) -> bool
    ensures { IsTrue result → bytes / unit * unit ≡ bytes }
{
    unit != 0 && bytes % unit == 0
}

/// Returns whether a chunk may have `count` nodes: not if they are aligned to more than 16 bytes,
/// for which `Global` has no memory.
fn fits<L, K, V>(count: usize) -> bool
    requires { 0 < count }
    ensures { IsTrue result → IsChunk L.row K.row V.row count }
{
    let head = size::<ChunkHead>();
    let node = size::<Node<L, K, V>>();
    let unit = size::<ChunkUnit<L, K, V>>();
    if !divides(unit, head) || !divides(unit, node) {
        return false;
    }
    match count.checked_mul(node) {
        Some(bytes) => bytes <= isize::MAX as usize - head,
        None => false,
    }
}

/// Returns how many units a chunk of `count` nodes takes.
fn units<L, K, V>(count: usize) -> usize
    requires { IsChunk L.row K.row V.row count }
    ensures { result ≡ chunk_units L.row K.row V.row count }
{
    let unit = size::<ChunkUnit<L, K, V>>();
    size::<ChunkHead>() / unit + count * (size::<Node<L, K, V>>() / unit)
}

/// Allocates a chunk of `places` unused places in front of `next`, and returns where it and its
/// first place lie.
pub(crate) fn new_chunk<K, V>(
    nodes: &mut Nodes<Links, K, V>,
    alloc: &Global,
    next: NodePointer,
    places: usize,
) -> Result<(NodePointer, NodePointer), AllocError>
    requires some { 0 < places }
    requires none_unused { nodes.old.unused ≡ [] }
    ensures cells { nodes.new.cells ≡ nodes.old.cells }
    ensures small { OnOk result (nodes.new.node_bytes < 2 ^ 63) }
    ensures unused { IfOk result (λ p.
        nodes.new.unused ≡ row p.1.ptr nodes.new.node_bytes places) }
    ensures chunks { IfOk result (λ p.
        nodes.new.chunks ≡ chunk p.0.ptr next.ptr places ∷ nodes.old.chunks) }
    ensures block { IfOk result (λ p. is_block p.0.ptr ≡ true) }
    ensures refused { OnErr result
        ((nodes.new.unused ≡ nodes.old.unused) × (nodes.new.chunks ≡ nodes.old.chunks)) }
{
    if !fits::<Links, K, V>(places) {
        return Err(AllocError);
    }
    let block = allocate::<ChunkUnit<Links, K, V>, Global>(alloc, units::<Links, K, V>(places))?;
    Ok(nodes.add_chunk(block, next, places))
}

/// Frees all chunks, and forgets what the nodes hold.
pub(crate) fn free_chunks<K, V>(nodes: &mut Nodes<Links, K, V>, alloc: &Global, newest: NodePointer)
    requires { IsChain nodes.old.chunks newest.ptr }
    ensures cells { nodes.new.cells ≡ [] }
    ensures chunks { nodes.new.chunks ≡ [] }
{
    nodes.clear();
    let mut newest = newest;
    'each: while !newest.is_null() {
        let (block, next, count) = nodes.pop_chunk::<ChunkUnit<Links, K, V>>(newest);
        deallocate(alloc, block, units::<Links, K, V>(count));
        newest = next;
    }
}
