//! The ring: the held nodes in order, and the spare ones.
ghost use Rattle.std.specs.Prelude.{◌≡◌, ◌+◌, ◌≤◌, ◌^◌, [], length, IfOk, IsOk, ◌∷◌, ◌++◌, map, ◌-◌, ◌<◌, None, Some, IfSome};
ghost use Rattle.std.specs.Borrow.{sem};
ghost use Rattle.lhm_ring.specs.Ring.{triples, IsHeld, AtHeld, BeforeHeld, ChangesOnly, linked_to, rekeyed, first_at, last_at, held};
ghost use Rattle.lhm_ring.specs.Nodes.{IsApart, AreBlocks};

use crate::chunks::free_chunks;
pub use crate::drain::Drain;
pub use crate::iter::Iter;
pub use crate::iter_mut::{Lent, TriplesMut};
pub use crate::links::Links;
use crate::links::{Ends, join, next_of, prev_of, set_chain};
use crate::nodes::Nodes;
use crate::owned::OwnedPairs;
use crate::pointer::NodePointer;
pub use crate::pointer::{Link, Position};
use std::alloc::{AllocError, Global};
use std::marker::Model;

/// Triples of a hash, a key and a value, in order, and spare nodes for more. A position stays until
/// its triple leaves or `compact` moves it.
///
/// Calls are O(1) unless they say otherwise. Only `grow`, `grow_within`, `with_spares` and
/// `compact` allocate. Only `compact`, `destroy_empty` and dropping the ring, in O(n), free.
pub struct Ring<K, V> {
    pub(crate) nodes: Nodes<Links, K, V>,
    pub(crate) alloc: Global,
    // The newest chunk, or null.
    pub(crate) chunks: NodePointer,
    // How many nodes the chunks have.
    pub(crate) made: usize,
    pub(crate) ends: Ends,
    // The counts are not side by side: LLVM would read both as one vector, which waits for the
    // writes of each.
    pub(crate) len: usize,
    pub(crate) spare: Link,
    pub(crate) spares: usize,
}

impl<K, V> Model for Ring<K, V> {
    ghost use Rattle.lhm_ring.specs.Links.{contents, holders, ring_cells, IsOwned, IsLaid};
    ghost use Rattle.lhm_ring.specs.Ring.{State, state};

    ghost Value = { State (K × V) };

    ghost view = { λ r. state (contents r.nodes.cells) r.spares r.made };

    ghost invariant = { λ r. record {
      ring : IsOwned (ring_cells r.ends r.nodes.cells) (holders r.nodes.cells) r.spare r.len r.spares;
      laid : IsLaid r.nodes.unused r.nodes.chunks r.chunks.ptr r.made;
    } };
}

impl<K, V> Ring<K, V> {
    /// Creates an empty ring without spare nodes.
    pub fn new(alloc: Global) -> Ring<K, V>
        ensures empty { result.held ≡ [] }
        ensures no_spares { result.spares ≡ 0 }
        ensures no_nodes { result.nodes ≡ 0 }
    {
        Ring {
            nodes: Nodes::new(),
            alloc,
            chunks: Link::none().address(),
            made: 0,
            ends: Ends {
                first: Link::none(),
                last: Link::none(),
            },
            spare: Link::none(),
            len: 0,
            spares: 0,
        }
    }

    /// Creates an empty ring with so many spare nodes, in O(n). For none it never fails.
    pub fn with_spares(alloc: Global, count: usize) -> Result<Ring<K, V>, AllocError>
        ensures empty { IfOk result (λ ring. ring.held ≡ []) }
        ensures spares { IfOk result (λ ring. ring.spares ≡ count) }
        ensures nodes { IfOk result (λ ring. ring.nodes ≡ count) }
        ensures succeeds { count ≡ 0 → IsOk result }
    {
        let mut ring = Ring::new(alloc);
        if count == 0 {
            return Ok(ring);
        }
        match ring.grow(count) {
            Ok(()) => Ok(ring),
            Err(refused) => {
                ring.destroy_empty();
                Err(refused)
            }
        }
    }

    /// Returns the allocator.
    pub fn allocator(&self) -> Global {
        self.alloc
    }

    /// Returns the number of triples.
    pub fn len(&self) -> usize
        ensures value { result ≡ length self.now.held }
        ensures bounded { length self.now.held + self.now.spares ≤ 2 ^ 59 }
        ensures within { length self.now.held + self.now.spares ≤ self.now.nodes }
    {
        self.len
    }

    /// Returns the number of spare nodes.
    pub fn spares(&self) -> usize
        ensures value { result ≡ self.now.spares }
        ensures bounded { length self.now.held + self.now.spares ≤ 2 ^ 59 }
        ensures within { length self.now.held + self.now.spares ≤ self.now.nodes }
    {
        self.spares
    }

    /// Ends an empty ring and frees its nodes, in O(n).
    pub fn destroy_empty(self)
        requires { self.held ≡ [] }
    {
        let Ring {
            mut nodes,
            alloc,
            chunks,
            made: _,
            ends: _,
            spare: _,
            len: _,
            spares: _,
        } = self;
        free_chunks(&mut nodes, &alloc, chunks);
        nodes.destroy_empty();
    }

    /// Ends the ring and returns what it held, front to back.
    pub(crate) fn into_pairs(self) -> OwnedPairs<K, V>
        ensures { result ≡ triples self.held }
    {
        let Ring {
            nodes,
            alloc,
            chunks,
            made: _,
            ends,
            spare: _,
            len,
            spares: _,
        } = self;
        OwnedPairs {
            nodes,
            alloc,
            chunks,
            first: ends.first.address(),
            left: len,
        }
    }
}

impl<K: Drop, V: Drop> Drop for Ring<K, V> {
    fn drop(mut self) {
        'held: while let Some(at) = self.first() {
            let (_, key, value) = self.unlink(at);
            drop(key);
            drop(value);
        }
        self.destroy_empty();
    }
}

impl<K, V> Ring<K, V> {
    ghost use Rattle.lhm_ring.specs.Pointer.{pointer_of, pointer_of_some, target};
    ghost use Rattle.lhm_ring.specs.RingAfterLoan.{lends_value};

    /// Returns the links at a position, with the hash.
    pub fn links(&self, at: Position<K, V>) -> &Links
        requires { IsHeld self.now.held (pointer_of at) }
        ensures hash { AtHeld self.now.held (pointer_of at) (λ xs t ys. result.now.hash ≡ t.hash) }
        ensures link { AtHeld self.now.held (pointer_of at) (λ xs t ys.
            target result.now.link ≡ t.link) }
    {
        self.nodes.links(at.pointer)
    }

    /// Returns the key at a position.
    pub fn key(&self, at: Position<K, V>) -> &K
        requires { IsHeld self.now.held (pointer_of at) }
        ensures { AtHeld self.now.held (pointer_of at) (λ xs t ys. result.now ≡ t.pair.0) }
    {
        self.nodes.key(at.pointer)
    }

    /// Returns the value at a position.
    pub fn value(&self, at: Position<K, V>) -> &V
        requires { IsHeld self.now.held (pointer_of at) }
        ensures { AtHeld self.now.held (pointer_of at) (λ xs t ys. result.now ≡ t.pair.1) }
    {
        self.nodes.value(at.pointer)
    }

    /// Returns a mutable reference to the value at a position.
    pub fn value_mut(&mut self, at: Position<K, V>) -> &mut V
        requires { IsHeld self.old.held (pointer_of at) }
        ensures* writes_back { sem 𝓛 (lends_value K.row V.row self.entry (pointer_of at) result) }
        ensures value { AtHeld self.old.held (pointer_of at) (λ xs t ys. result.now ≡ t.pair.1) }
        ensures alone { ChangesOnly self.old.held (pointer_of at) }
    {
        self.nodes.value_mut(at.pointer)
    }

    /// Replaces the key at a position and returns the old one.
    pub fn replace_key(&mut self, at: Position<K, V>, key: K) -> K
        requires { IsHeld self.old.held (pointer_of at) }
        ensures held { AtHeld self.old.held (pointer_of at) (λ xs t ys.
            self.new.held ≡ xs ++ rekeyed key t ∷ ys) }
        ensures old { AtHeld self.old.held (pointer_of at) (λ xs t ys. result ≡ t.pair.0) }
        ensures spares { self.new.spares ≡ self.old.spares }
        ensures nodes { self.new.nodes ≡ self.old.nodes }
    {
        let at = at.pointer;
        let (old, value) = self.nodes.take(at);
        self.nodes.fill(at, key, value);
        old
    }

    /// Returns the position of the front triple, if any.
    pub fn first(&self) -> Option<Position<K, V>>
        ensures { pointer_of_some result ≡ first_at self.now.held }
    {
        self.ends.first.get()
    }

    /// Returns the position of the back triple, if any.
    pub fn last(&self) -> Option<Position<K, V>>
        ensures last { pointer_of_some result ≡ last_at self.now.held }
        ensures apart { IsApart (map (λ t. t.at) self.now.held) }
    {
        self.ends.last.get()
    }

    /// Returns the position behind one, if any.
    pub fn next(&self, at: Position<K, V>) -> Option<Position<K, V>>
        requires { IsHeld self.now.held (pointer_of at) }
        ensures next { AtHeld self.now.held (pointer_of at) (λ xs t ys.
            pointer_of_some result ≡ first_at ys) }
        ensures apart { IsApart (map (λ t. t.at) self.now.held) }
    {
        self.nodes.links(at.pointer).next.get()
    }

    /// Returns the position before one, if any.
    pub fn previous(&self, at: Position<K, V>) -> Option<Position<K, V>>
        requires { IsHeld self.now.held (pointer_of at) }
        ensures previous { AtHeld self.now.held (pointer_of at) (λ xs t ys.
            pointer_of_some result ≡ last_at xs) }
        ensures apart { IsApart (map (λ t. t.at) self.now.held) }
    {
        self.nodes.links(at.pointer).prev.get()
    }

    /// Sets the chain link at a position, which the ring ignores.
    pub fn set_link(&mut self, at: Position<K, V>, link: Link)
        requires { IsHeld self.old.held (pointer_of at) }
        ensures held { AtHeld self.old.held (pointer_of at) (λ xs t ys.
            self.new.held ≡ xs ++ linked_to (target link) t ∷ ys) }
        ensures spares { self.new.spares ≡ self.old.spares }
        ensures nodes { self.new.nodes ≡ self.old.nodes }
        ensures blocks { AreBlocks (map (λ t. t.at) self.old.held) }
    {
        set_chain(&mut self.nodes, at.pointer, link);
    }
}

impl<K, V> Ring<K, V> {
    ghost use Rattle.lhm_ring.specs.Pointer.{pointer_of, pointer_of_some};
    ghost use Rattle.lhm_ring.specs.Ring.{pair};

    /// Moves the triple at a position before another, or to the back. The others keep their order,
    /// and positions stay. Before itself it stays.
    pub fn move_before(&mut self, at: Position<K, V>, before: Option<Position<K, V>>)
        requires at { IsHeld self.old.held (pointer_of at) }
        requires before { IfSome before (λ next. IsHeld self.old.held (pointer_of next)) }
        ensures moved { AtHeld self.old.held (pointer_of at) (λ xs t ys.
            BeforeHeld (xs ++ ys) (pointer_of_some before) (λ us vs.
            self.new.held ≡ us ++ t ∷ vs)) }
        ensures stays { pointer_of_some before ≡ Some (pointer_of at) →
            self.new.held ≡ self.old.held }
        ensures spares { self.new.spares ≡ self.old.spares }
        ensures nodes { self.new.nodes ≡ self.old.nodes }
        ensures apart { IsApart (map (λ t. t.at) self.old.held) }
    {
        let links = *self.nodes.links(at.pointer);
        let moved = Link::to(at.pointer);
        let place = Link::of(before);
        join(&mut self.nodes, &mut self.ends, links.prev, links.next);
        // Read once the node is out: before itself, these are the two that it was between.
        let previous = prev_of(&self.nodes, &self.ends, place);
        let next = next_of(&self.nodes, &self.ends, previous);
        join(&mut self.nodes, &mut self.ends, previous, moved);
        join(&mut self.nodes, &mut self.ends, moved, next);
        self.nodes.list_before(at.pointer, next.address());
    }

    /// Moves the triple at a position to the back. The others keep their order, and positions stay.
    pub fn move_to_back(&mut self, at: Position<K, V>)
        requires { IsHeld self.old.held (pointer_of at) }
        ensures last { AtHeld self.old.held (pointer_of at) (λ xs t ys.
            self.new.held ≡ (xs ++ ys) ++ t ∷ []) }
        ensures spares { self.new.spares ≡ self.old.spares }
        ensures nodes { self.new.nodes ≡ self.old.nodes }
        ensures apart { IsApart (map (λ t. t.at) self.old.held) }
    {
        let links = *self.nodes.links(at.pointer);
        let moved = Link::to(at.pointer);
        join(&mut self.nodes, &mut self.ends, links.prev, links.next);
        let last = self.ends.last;
        join(&mut self.nodes, &mut self.ends, last, moved);
        join(&mut self.nodes, &mut self.ends, moved, Link::none());
        self.nodes.list_before(at.pointer, Link::none().address());
    }

    /// Puts a triple into a spare node at the back, and returns its position. Its chain link leads
    /// nowhere.
    pub fn put_back(&mut self, hash: u64, key: K, value: V) -> Position<K, V>
        requires { 0 < self.old.spares }
        ensures last { self.new.held
            ≡ self.old.held ++ held (pointer_of result) hash None (pair key value) ∷ [] }
        ensures apart { IsApart (map (λ t. t.at) self.new.held) }
        ensures spares { self.new.spares ≡ self.old.spares - 1 }
        ensures nodes { self.new.nodes ≡ self.old.nodes }
    {
        let at = self.spare.position();
        let old = *self.nodes.links(at.pointer);
        let node = self.spare;
        let previous = self.ends.last;
        // `join` writes the other two links.
        let fresh = Links {
            link: Link::none(),
            hash,
            ..old
        };
        self.nodes.set_links(at.pointer, fresh);
        self.nodes.fill(at.pointer, key, value);
        join(&mut self.nodes, &mut self.ends, previous, node);
        join(&mut self.nodes, &mut self.ends, node, Link::none());
        self.nodes.list_before(at.pointer, Link::none().address());
        self.spare = old.link;
        self.spares -= 1;
        self.len += 1;
        at
    }

    /// Removes and returns the triple at a position, which ends. The others keep their order.
    pub fn unlink(&mut self, at: Position<K, V>) -> (u64, K, V)
        requires { IsHeld self.old.held (pointer_of at) }
        ensures others { AtHeld self.old.held (pointer_of at) (λ xs t ys.
            self.new.held ≡ xs ++ ys) }
        ensures triple { AtHeld self.old.held (pointer_of at) (λ xs t ys.
            result ≡ (t.hash, t.pair.0, t.pair.1)) }
        ensures spares { self.new.spares ≡ self.old.spares + 1 }
        ensures nodes { self.new.nodes ≡ self.old.nodes }
    {
        let at = at.pointer;
        let old = *self.nodes.links(at);
        join(&mut self.nodes, &mut self.ends, old.prev, old.next);
        let (key, value) = self.nodes.take(at);
        set_chain(&mut self.nodes, at, self.spare);
        self.spare = Link::to(at);
        self.len -= 1;
        self.spares += 1;
        (old.hash, key, value)
    }
}
