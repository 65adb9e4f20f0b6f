//! Raises and lowers the capacity, and moves all triples side by side.
ghost use Rattle.std.specs.Prelude.{◌≡◌, ◌+◌, ◌<◌, ◌≤◌, ◌^◌, [], length, max, OnOk, OnErr, ◌++◌};
ghost use Rattle.lhm_ring.specs.Ring.{triples};
ghost use Rattle.lhm_ring.specs.Buckets.{buckets, rechained_raised, rechained_lowered, rechained_fitted, made_raised, made_fitted};
ghost use Rattle.lhm_ring.specs.Links.{nodes_grown, least_more};

use crate::index::{Index, buckets_for};
use crate::ring::Ring;
use crate::table::Table;
use std::alloc::AllocError;
use std::mem;

impl<K, V> Table<K, V> {
    /// Raises the capacity, or changes nothing if an allocation fails. It allocates more buckets
    /// first, if needed, and then the nodes. More buckets rehash all pairs, in O(n).
    #[cold]
    #[inline(never)]
    pub fn raise(&mut self, capacity: usize) -> Result<(), AllocError>
        requires higher { self.old.capacity < capacity }
        requires limit { capacity ≤ 2 ^ 59 }
        ensures held { self.new.held ≡ self.old.held }
        ensures capacity { OnOk result (self.new.capacity ≡ capacity) }
        ensures rechained { OnOk result
            (self.new.rechained ≡ rechained_raised self.old.rechained (length self.old.held)
            self.old.capacity capacity) }
        ensures made { OnOk result
            (self.new.made ≡ made_raised self.old.made self.old.capacity capacity) }
        ensures refused { OnErr result (self.new ≡ self.old) }
    {
        let additional = capacity - self.capacity();
        let buckets = self.index.buckets();
        if capacity <= buckets {
            return self.ring.grow_within(additional, buckets.max(2));
        }
        self.raise_buckets(capacity, additional)
    }

    /// Raises the capacity by `additional`, above the number of buckets, and rehashes all pairs, in
    /// O(n). It changes nothing if an allocation fails.
    #[cold]
    #[inline(never)]
    fn raise_buckets(&mut self, capacity: usize, additional: usize) -> Result<(), AllocError>
        requires sum { self.old.capacity + additional ≡ capacity }
        requires more { buckets self.old.capacity < capacity }
        requires higher { self.old.capacity < capacity }
        requires limit { capacity ≤ 2 ^ 59 }
        ensures held { self.new.held ≡ self.old.held }
        ensures capacity { OnOk result (self.new.capacity ≡ capacity) }
        ensures rechained { OnOk result
            (self.new.rechained ≡ self.old.rechained + length self.old.held) }
        ensures made { OnOk result (self.new.made ≡ nodes_grown self.old.made capacity
            (least_more additional self.old.made (max 2 (buckets capacity)))) }
        ensures refused { OnErr result (self.new ≡ self.old) }
    {
        let count = buckets_for(capacity);
        if self.index.has_room(count) {
            return self.raise_within_room(capacity, additional, count);
        }
        let fresh = Index::with_buckets(self.ring.allocator(), capacity)?;
        match self.ring.grow_within(additional, fresh.buckets().max(2)) {
            Ok(()) => {
                self.rechained += self.index.take_over(fresh, &mut self.ring);
                Ok(())
            }
            Err(refused) => {
                fresh.free();
                Err(refused)
            }
        }
    }

    /// Does what `raise_buckets` does, to so many buckets as there is room for, without memory for
    /// buckets.
    fn raise_within_room(
        &mut self,
        capacity: usize,
        additional: usize,
        count: usize,
    ) -> Result<(), AllocError>
        requires sum { self.old.capacity + additional ≡ capacity }
        requires more { buckets self.old.capacity < capacity }
        requires higher { self.old.capacity < capacity }
        requires limit { capacity ≤ 2 ^ 59 }
        requires some { 0 < buckets self.old.capacity }
        requires count { count ≡ buckets capacity }
        requires few { count ≤ 4 }
        ensures held { self.new.held ≡ self.old.held }
        ensures capacity { OnOk result (self.new.capacity ≡ capacity) }
        ensures rechained { OnOk result
            (self.new.rechained ≡ self.old.rechained + length self.old.held) }
        ensures made { OnOk result (self.new.made ≡ nodes_grown self.old.made capacity
            (least_more additional self.old.made (max 2 (buckets capacity)))) }
        ensures refused { OnErr result (self.new ≡ self.old) }
    {
        self.ring.grow_within(additional, count.max(2))?;
        self.rechained += self.index.spread(count, &mut self.ring);
        Ok(())
    }

    /// Lowers the capacity to the number of pairs, in O(n), or changes nothing if an allocation
    /// fails.
    ///
    /// It allocates if the number of buckets falls: all pairs then move into one block of exactly
    /// as many nodes, and positions end. Otherwise the nodes stay. An empty table frees all.
    pub fn shrink_to_fit(&mut self) -> Result<(), AllocError>
        ensures triples { triples self.new.held ≡ triples self.old.held }
        ensures capacity { OnOk result (self.new.capacity ≡ length self.old.held) }
        ensures rechained { OnOk result (self.new.rechained
            ≡ rechained_fitted self.old.rechained (length self.old.held) self.old.capacity) }
        ensures made { OnOk result (self.new.made
            ≡ made_fitted self.old.made (length self.old.held) self.old.capacity) }
        ensures refused { OnErr result (self.new ≡ self.old) }
        ensures some { OnErr result (0 < length self.old.held) }
        ensures spare { OnErr result (length self.old.held < self.old.capacity) }
        ensures falls { OnErr result
            (buckets (length self.old.held) < buckets self.old.capacity) }
    {
        let len = self.ring.len();
        if len == 0 {
            self.free();
        } else if len < self.capacity() {
            return self.lower();
        }
        Ok(())
    }

    /// Lowers the capacity, by `lower_buckets` if the number of buckets falls.
    fn lower(&mut self) -> Result<(), AllocError>
        ensures triples { triples self.new.held ≡ triples self.old.held }
        ensures capacity { OnOk result (self.new.capacity ≡ length self.old.held) }
        ensures rechained { OnOk result
            (self.new.rechained ≡ rechained_lowered (length self.old.held) self.old.capacity) }
        ensures made { OnOk result (self.new.made
            ≡ made_fitted self.old.made (length self.old.held) self.old.capacity) }
        ensures refused { OnErr result (self.new ≡ self.old) }
        ensures falls { OnErr result
            (buckets (length self.old.held) < buckets self.old.capacity) }
    {
        let len = self.ring.len();
        if buckets_for(len) == self.index.buckets() {
            self.ring.free_spares();
            self.rechained = 0;
            return Ok(());
        }
        self.lower_buckets()
    }

    /// Moves and rehashes the pairs into new buckets and nodes, in O(n).
    fn lower_buckets(&mut self) -> Result<(), AllocError>
        ensures triples { triples self.new.held ≡ triples self.old.held }
        ensures capacity { OnOk result (self.new.capacity ≡ length self.old.held) }
        ensures rechained { OnOk result (self.new.rechained ≡ length self.old.held) }
        ensures made { OnOk result (self.new.made ≡ length self.old.held) }
        ensures refused { OnErr result (self.new ≡ self.old) }
    {
        let fresh = Index::with_buckets(self.ring.allocator(), self.ring.len())?;
        match self.ring.compact() {
            Ok(()) => {
                self.rechained = self.index.take_over(fresh, &mut self.ring);
                Ok(())
            }
            Err(refused) => {
                fresh.free();
                Err(refused)
            }
        }
    }

    /// Frees all memory of an empty table, in O(n).
    fn free(&mut self)
        requires { self.old.held ≡ [] }
        ensures held { self.new.held ≡ [] }
        ensures capacity { self.new.capacity ≡ 0 }
        ensures rechained { self.new.rechained ≡ 0 }
        ensures made { self.new.made ≡ 0 }
    {
        let alloc = self.ring.allocator();
        mem::replace(self, Table::new(alloc))
            .into_pairs()
            .destroy_empty();
    }
}

/// Moves all triples to the back of another ring, in order, in O(n).
fn move_all<K, V>(from: &mut Ring<K, V>, to: &mut Ring<K, V>)
    requires { length from.old.held ≤ to.old.spares }
    ensures moved { triples to.new.held ≡ triples to.old.held ++ triples from.old.held }
    ensures empty { from.new.held ≡ [] }
    ensures spares { to.new.spares + length from.old.held ≡ to.old.spares }
    ensures nodes { to.new.nodes ≡ to.old.nodes }
{
    'each: while let Some(at) = from.first() {
        let (hash, key, value) = from.unlink(at);
        to.put_back(hash, key, value);
    }
}

impl<K, V> Ring<K, V> {
    /// Moves the triples, in order, into one new chunk of exactly as many nodes, and frees the
    /// others, in O(n). Positions end, and chain links lead nowhere. If an allocation fails,
    /// nothing changes. An empty ring does not allocate.
    pub fn compact(&mut self) -> Result<(), AllocError>
        ensures triples { OnOk result (triples self.new.held ≡ triples self.old.held) }
        ensures spares { OnOk result (self.new.spares ≡ 0) }
        ensures nodes { OnOk result (self.new.nodes ≡ length self.old.held) }
        ensures refused { OnErr result (self.new ≡ self.old) }
    {
        let mut fresh = Ring::with_spares(self.alloc, self.len())?;
        move_all(self, &mut fresh);
        mem::replace(self, fresh).destroy_empty();
        Ok(())
    }
}
