//! The iterator over the values.
ghost use Rattle.std.specs.Prelude.{◌≡◌, Some, IfSome, length, ⊤};
ghost use Rattle.std.specs.Iterator.{at_most, UpTo};
ghost use Rattle.std.specs.Iterator.SizeHint.{IsWithinCount};
ghost use Rattle.std.specs.Map.{values_of};
ghost use Rattle.std.specs.Map.Iter.{TakesFirst, TakesLast, deref};

use super::Iter;
use std::alloc::AllocError;
use std::iter::FusedIterator;
use std::marker::Model;

/// A fused double-ended iterator over the values, returned by `values`. Its methods are O(1).
#[derive(Drop)]
pub struct Values<'a, K, V> {
    pairs: Iter<'a, K, V>,
}

impl<'a, K, V> Model for Values<'a, K, V> {
    ghost use Rattle.std.specs.Prelude.{List};
    ghost use Rattle.std.specs.Map.{values_of};

    ghost Value = { List V };

    ghost view = { λ a. values_of a.pairs };
}

impl<'a, K, V> Values<'a, K, V> {
    /// Returns an iterator over the values of the pairs.
    pub(crate) fn new(pairs: Iter<'a, K, V>) -> Self
        ensures { result ≡ values_of pairs.entry }
    {
        Values { pairs }
    }
}

impl<'a, K, V> Iterator for Values<'a, K, V> {
    type Item = &'a V;

    ghost next_gives = { TakesFirst deref };

    ghost remaining = { λ s. at_most (length s) };

    fn next(&mut self) -> Option<&'a V> {
        let (_, value) = self.pairs.next()?;
        Some(value)
    }

    fn size_hint(&self) -> (usize, Option<usize>)
        ensures lower { IsWithinCount result.0 (at_most (length self.now)) }
        ensures upper { IfSome result.1 (UpTo (at_most (length self.now))) }
        ensures exact { result ≡ (length self.now, Some (length self.now)) }
    {
        self.pairs.size_hint()
    }
}

impl<'a, K, V> DoubleEndedIterator for Values<'a, K, V> {
    ghost next_back_gives = { TakesLast deref };

    fn next_back(&mut self) -> Option<&'a V> {
        let (_, value) = self.pairs.next_back()?;
        Some(value)
    }
}

impl<'a, K, V> ExactSizeIterator for Values<'a, K, V> {
    fn len(&self) -> usize {
        self.pairs.len()
    }
}

impl<'a, K, V> FusedIterator for Values<'a, K, V> {}

/// Clones the iterator, without failing or allocating.
impl<'a, K, V> Clone for Values<'a, K, V> {
    ghost is_clone = { λ s t. t ≡ s };

    ghost is_infallible = { λ _. ⊤ };

    fn clone(&self) -> Result<Self, AllocError> {
        Ok(Values {
            pairs: self.pairs.clone()?,
        })
    }
}
