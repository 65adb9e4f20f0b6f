//! The iterators over the pairs from that of a key on.
ghost use Rattle.std.specs.Prelude.{◌≡◌, Some, length, ⊤};
ghost use Rattle.std.specs.Iterator.{at_most};
ghost use Rattle.std.specs.Map.Iter.{TakesFirst, deref_pair};
ghost use Rattle.linked_hash_map.specs.Nodes.{pairs_from, pairs_back_from};
ghost use Rattle.lhm_ring.specs.Pointer.{pointer_of};
ghost use Rattle.lhm_ring.specs.Ring.{IsHeld};

use lhm_ring::table::{Position, Table};
use std::alloc::AllocError;
use std::iter::FusedIterator;
use std::marker::Model;

/// A fused iterator over the pairs from one to the back, returned by `iter_from`. Its methods are
/// O(1). It does not count the pairs left: the upper bound of its `size_hint` is the number of all.
#[derive(Drop)]
pub struct IterFrom<'a, K, V> {
    table: &'a Table<K, V>,
    // The next pair, if any.
    next: Option<Position<K, V>>,
}

impl<'a, K, V> Model for IterFrom<'a, K, V> {
    ghost use Rattle.std.specs.Prelude.{List};
    ghost use Rattle.linked_hash_map.specs.Nodes.{Lies, pairs_from};
    ghost use Rattle.lhm_ring.specs.Pointer.{pointer_of_some};

    ghost Value = { List (K × V) };

    ghost view = { λ a. pairs_from (pointer_of_some a.next) a.table.now.held };

    ghost invariant = { λ a. Lies (pointer_of_some a.next) a.table.now.held };
}

impl<'a, K, V> IterFrom<'a, K, V> {
    /// Returns an iterator over the pairs from the one at a position to the back.
    pub(crate) fn new(table: &'a Table<K, V>, at: Position<K, V>) -> Self
        requires { IsHeld table.now.held (pointer_of at) }
        ensures { result ≡ pairs_from (Some (pointer_of at)) table.now.held }
    {
        IterFrom {
            table,
            next: Some(at),
        }
    }
}

impl<'a, K, V> Iterator for IterFrom<'a, K, V> {
    type Item = (&'a K, &'a V);

    ghost next_gives = { TakesFirst deref_pair };

    ghost remaining = { λ s. at_most (length s) };

    fn next(&mut self) -> Option<(&'a K, &'a V)> {
        let table = self.table;
        match self.next {
            Some(at) => {
                self.next = table.next(at);
                Some((table.key(at), table.value(at)))
            }
            None => None,
        }
    }

    fn size_hint(&self) -> (usize, Option<usize>) {
        match self.next {
            Some(_) => (1, Some(self.table.len())),
            None => (0, Some(0)),
        }
    }
}

impl<'a, K, V> FusedIterator for IterFrom<'a, K, V> {}

/// Clones the iterator, without failing or allocating.
impl<'a, K, V> Clone for IterFrom<'a, K, V> {
    ghost is_clone = { λ s t. t ≡ s };

    ghost is_infallible = { λ _. ⊤ };

    fn clone(&self) -> Result<Self, AllocError> {
        Ok(IterFrom {
            table: self.table,
            next: self.next,
        })
    }
}

/// A fused iterator over the pairs from one to the front, returned by `iter_back_from`. Its methods
/// are O(1). It does not count the pairs left: the upper bound of its `size_hint` is the number of
/// all.
#[derive(Drop)]
pub struct IterBackFrom<'a, K, V> {
    table: &'a Table<K, V>,
    // The next pair, if any.
    next: Option<Position<K, V>>,
}

impl<'a, K, V> Model for IterBackFrom<'a, K, V> {
    ghost use Rattle.std.specs.Prelude.{List};
    ghost use Rattle.linked_hash_map.specs.Nodes.{Lies, pairs_back_from};
    ghost use Rattle.lhm_ring.specs.Pointer.{pointer_of_some};

    ghost Value = { List (K × V) };

    ghost view = { λ a. pairs_back_from (pointer_of_some a.next) a.table.now.held };

    ghost invariant = { λ a. Lies (pointer_of_some a.next) a.table.now.held };
}

impl<'a, K, V> IterBackFrom<'a, K, V> {
    /// Returns an iterator over the pairs from the one at a position to the front.
    pub(crate) fn new(table: &'a Table<K, V>, at: Position<K, V>) -> Self
        requires { IsHeld table.now.held (pointer_of at) }
        ensures { result ≡ pairs_back_from (Some (pointer_of at)) table.now.held }
    {
        IterBackFrom {
            table,
            next: Some(at),
        }
    }
}

impl<'a, K, V> Iterator for IterBackFrom<'a, K, V> {
    type Item = (&'a K, &'a V);

    ghost next_gives = { TakesFirst deref_pair };

    ghost remaining = { λ s. at_most (length s) };

    fn next(&mut self) -> Option<(&'a K, &'a V)> {
        let table = self.table;
        match self.next {
            Some(at) => {
                self.next = table.previous(at);
                Some((table.key(at), table.value(at)))
            }
            None => None,
        }
    }

    fn size_hint(&self) -> (usize, Option<usize>) {
        match self.next {
            Some(_) => (1, Some(self.table.len())),
            None => (0, Some(0)),
        }
    }
}

impl<'a, K, V> FusedIterator for IterBackFrom<'a, K, V> {}

/// Clones the iterator, without failing or allocating.
impl<'a, K, V> Clone for IterBackFrom<'a, K, V> {
    ghost is_clone = { λ s t. t ≡ s };

    ghost is_infallible = { λ _. ⊤ };

    fn clone(&self) -> Result<Self, AllocError> {
        Ok(IterBackFrom {
            table: self.table,
            next: self.next,
        })
    }
}
