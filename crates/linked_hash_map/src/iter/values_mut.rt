//! The iterator with mutable references to the values alone.
ghost use Rattle.std.specs.Prelude.{◌≡◌, Some, IfSome, length};
ghost use Rattle.std.specs.Iterator.{at_most, UpTo};
ghost use Rattle.std.specs.Iterator.SizeHint.{IsWithinCount};

use super::iter_mut::Lent;
use lhm_ring::table;
use lhm_ring::table::Table;
use std::iter::FusedIterator;

/// A fused double-ended iterator over mutable references to the values, returned by `values_mut`.
/// Its methods are O(1).
#[derive(Drop)]
pub enum ValuesMut<'a, K, V> {
    /// No call returns this variant, which is there for the borrow checker, as that of
    /// [`IterMut`](crate::IterMut).
    #[doc(hidden)]
    Empty(&'a mut [V; 0]),
    /// The pairs of a map.
    #[doc(hidden)]
    Lent(Lent<'a, K, V>),
}

impl<'a, K, V> ValuesMut<'a, K, V> {
    ghost use Rattle.std.specs.Borrow.{sem};
    ghost use Rattle.std.specs.Map.{values_of};
    ghost use Rattle.lhm_ring.specs.Iter as table;
    ghost use Rattle.linked_hash_map.specs.MutableValues.{values_left, values_loan};
    ghost use Rattle.linked_hash_map.specs.Nodes.{pairs_of};
    ghost use Rattle.lhm_ring.specs.TableAfterLoan.{lends_values};

    /// Returns an iterator over the values of a table, which it lends.
    pub(crate) fn over(table: &'a mut Table<K, V>) -> ValuesMut<'a, K, V>
        ensures* writes_back { sem 𝓛 (lends_values K.row V.row table.entry (values_loan result)) }
        ensures rest { values_left result ≡ values_of (pairs_of table.old.held) }
    {
        ValuesMut::of(table.iter_mut())
    }

    fn of(lent: table::TriplesMut<'a, K, V>) -> ValuesMut<'a, K, V>
        ensures rest { values_left result ≡ values_of (table.pairs_left lent.entry) }
        ensures name { values_loan result ≡ table.loan_name lent.entry }
    {
        match lent {
            table::TriplesMut::Empty(none) => ValuesMut::Empty(none),
            table::TriplesMut::Lent(nodes) => ValuesMut::Lent(Lent { nodes }),
        }
    }
}

impl<'a, K, V> Iterator for ValuesMut<'a, K, V> {
    ghost use Rattle.linked_hash_map.specs.MutableValues.{values_left, LendsFirstValue};

    type Item = &'a mut V;

    ghost next_gives = { LendsFirstValue };

    ghost remaining = { λ s. at_most (length (values_left s)) };

    fn next(&mut self) -> Option<&'a mut V> {
        match self {
            ValuesMut::Empty(_) => None,
            ValuesMut::Lent(lent) => match lent.nodes.step() {
                Some((_, _, value)) => Some(value),
                None => None,
            },
        }
    }

    fn size_hint(&self) -> (usize, Option<usize>)
        ensures lower { IsWithinCount result.0 (at_most (length (values_left self.now))) }
        ensures upper { IfSome result.1 (UpTo (at_most (length (values_left self.now)))) }
        ensures exact { result
            ≡ (length (values_left self.now), Some (length (values_left self.now))) }
    {
        let len = self.len();
        (len, Some(len))
    }
}

impl<'a, K, V> DoubleEndedIterator for ValuesMut<'a, K, V> {
    ghost use Rattle.linked_hash_map.specs.MutableValues.{LendsLastValue};

    ghost next_back_gives = { LendsLastValue };

    fn next_back(&mut self) -> Option<&'a mut V> {
        match self {
            ValuesMut::Empty(_) => None,
            ValuesMut::Lent(lent) => match lent.nodes.step_back() {
                Some((_, _, value)) => Some(value),
                None => None,
            },
        }
    }
}

impl<'a, K, V> ExactSizeIterator for ValuesMut<'a, K, V> {
    fn len(&self) -> usize {
        match self {
            ValuesMut::Empty(_) => 0,
            ValuesMut::Lent(lent) => lent.nodes.len(),
        }
    }
}

impl<'a, K, V> FusedIterator for ValuesMut<'a, K, V> {}
