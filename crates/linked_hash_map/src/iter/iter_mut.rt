//! The iterator with mutable references to the values.
ghost use Rattle.std.specs.Prelude.{◌≡◌, Some, IfSome, length};
ghost use Rattle.std.specs.Iterator.{at_most, UpTo};
ghost use Rattle.std.specs.Iterator.SizeHint.{IsWithinCount};
ghost use Rattle.std.specs.Map.Iter.{LendsFirst, LendsLast};

use crate::map::LinkedHashMap;
use lhm_ring::table;
use lhm_ring::table::Table;
use std::hash::{BuildHasher, Hash};
use std::iter::FusedIterator;

/// A fused double-ended iterator over the pairs, with mutable references to the values, returned by
/// `iter_mut` or a loop over `&mut map`. Its methods are O(1).
#[derive(Drop)]
pub enum IterMut<'a, K, V> {
    /// No call returns this variant. The borrow checker lets a type that keeps a map hand the loan
    /// of its values on only if the result's type has a variant with a `&mut` to values.
    #[doc(hidden)]
    Empty(&'a mut [V; 0]),
    /// The pairs of a map.
    #[doc(hidden)]
    Lent(Lent<'a, K, V>),
}

/// The pairs that are left of an [`IterMut`].
#[derive(Drop)]
pub struct Lent<'a, K, V> {
    pub(super) nodes: table::Lent<'a, K, V>,
}

impl<'a, K, V> IterMut<'a, K, V> {
    ghost use Rattle.std.specs.Borrow.{sem};
    ghost use Rattle.lhm_ring.specs.Iter as table;
    ghost use Rattle.linked_hash_map.specs.ValueIterators.{pairs_left, loan_name};
    ghost use Rattle.linked_hash_map.specs.Nodes.{pairs_of};
    ghost use Rattle.lhm_ring.specs.TableAfterLoan.{lends_values};

    /// Returns an iterator over the pairs of a table, whose values it lends.
    pub(crate) fn over(table: &'a mut Table<K, V>) -> IterMut<'a, K, V>
        ensures* writes_back { sem 𝓛 (lends_values K.row V.row table.entry (loan_name result)) }
        ensures rest { pairs_left result ≡ pairs_of table.old.held }
    {
        IterMut::of(table.iter_mut())
    }

    fn of(lent: table::TriplesMut<'a, K, V>) -> IterMut<'a, K, V>
        ensures rest { pairs_left result ≡ table.pairs_left lent.entry }
        ensures name { loan_name result ≡ table.loan_name lent.entry }
    {
        match lent {
            table::TriplesMut::Empty(none) => IterMut::Empty(none),
            table::TriplesMut::Lent(nodes) => IterMut::Lent(Lent { nodes }),
        }
    }
}

impl<'a, K, V> Iterator for IterMut<'a, K, V> {
    ghost use Rattle.linked_hash_map.specs.ValueIterators.{pairs_left};

    type Item = (&'a K, &'a mut V);

    ghost next_gives = { LendsFirst pairs_left };

    ghost remaining = { λ s. at_most (length (pairs_left s)) };

    fn next(&mut self) -> Option<(&'a K, &'a mut V)> {
        match self {
            IterMut::Empty(_) => None,
            IterMut::Lent(lent) => match lent.nodes.step() {
                Some((_, key, value)) => Some((key, value)),
                None => None,
            },
        }
    }

    fn size_hint(&self) -> (usize, Option<usize>)
        ensures lower { IsWithinCount result.0 (at_most (length (pairs_left self.now))) }
        ensures upper { IfSome result.1 (UpTo (at_most (length (pairs_left self.now)))) }
        ensures exact { result
            ≡ (length (pairs_left self.now), Some (length (pairs_left self.now))) }
    {
        let len = self.len();
        (len, Some(len))
    }
}

impl<'a, K, V> DoubleEndedIterator for IterMut<'a, K, V> {
    ghost use Rattle.linked_hash_map.specs.ValueIterators.{pairs_left};

    ghost next_back_gives = { LendsLast pairs_left };

    fn next_back(&mut self) -> Option<(&'a K, &'a mut V)> {
        match self {
            IterMut::Empty(_) => None,
            IterMut::Lent(lent) => match lent.nodes.step_back() {
                Some((_, key, value)) => Some((key, value)),
                None => None,
            },
        }
    }
}

impl<'a, K, V> ExactSizeIterator for IterMut<'a, K, V> {
    fn len(&self) -> usize {
        match self {
            IterMut::Empty(_) => 0,
            IterMut::Lent(lent) => lent.nodes.len(),
        }
    }
}

impl<'a, K, V> FusedIterator for IterMut<'a, K, V> {}

/// A loop over `&mut map`, as over `iter_mut`.
///
/// # Examples
///
/// ```rust
/// let mut map = LinkedHashMap::new(rt.alloc());
/// map.insert('x', 1)?;
/// for (_key, value) in &mut map {
///     *value = 3;
/// }
/// assert_eq!(rt; map.get(&'x'), Some(&3));
/// ```
impl<'a, K: Eq + Hash, V, S: BuildHasher> IntoIterator for &'a mut LinkedHashMap<K, V, S> {
    ghost use Rattle.std.specs.Borrow.{sem};
    ghost use Rattle.std.specs.Map.Iter.{LendsValuesInOrder, LendsValuesInReverse};
    ghost use Rattle.linked_hash_map.specs.Lends.{lends_values};
    ghost use Rattle.linked_hash_map.specs.Pairs.{KeysStand};
    ghost use Rattle.linked_hash_map.specs.Validity.{IsValid};
    ghost use Rattle.linked_hash_map.specs.ValueIterators.{pairs_left, loan_name};

    type Item = (&'a K, &'a mut V);

    type IntoIter = IterMut<'a, K, V>;

    // Its last two parts are laws of iterators, for the proofs of callers.
    ghost into_iter_gives = { λ map iter.
        (pairs_left iter ≡ map.now.pairs) × IsValid K.eq map.now
        × LendsValuesInOrder (pairs_left {K = K} {V = V})
        × LendsValuesInReverse (pairs_left {K = K} {V = V}) };

    fn into_iter(self) -> IterMut<'a, K, V>
        ensures* writes_back { sem 𝓛
            (lends_values K.row V.row S.row S.Hasher.row K.Hash S.BuildHasher S.Hasher.Hasher
            self.entry (loan_name result)) }
        // A law of lists, for the proofs of callers.
        ensures keeps { KeysStand self.old.pairs }
        ensures into_iter_gives { (pairs_left result ≡ self.old.pairs) × IsValid K.eq self.old
            × LendsValuesInOrder (pairs_left {K = K} {V = V})
            × LendsValuesInReverse (pairs_left {K = K} {V = V}) }
    {
        self.iter_mut()
    }
}
