//! The iterator over the keys.
ghost use Rattle.std.specs.Prelude.{◌≡◌, Some, IfSome, length, ⊤};
ghost use Rattle.std.specs.Iterator.{at_most, UpTo};
ghost use Rattle.std.specs.Iterator.SizeHint.{IsWithinCount};
ghost use Rattle.std.specs.Map.{keys_of};
ghost use Rattle.std.specs.Map.Iter.{TakesFirst, TakesLast, deref};

use super::Iter;
use std::alloc::AllocError;
use std::iter::FusedIterator;
use std::marker::Model;

/// A fused double-ended iterator over the keys, returned by `keys`. Its methods are O(1).
#[derive(Drop)]
pub struct Keys<'a, K, V> {
    pairs: Iter<'a, K, V>,
}

impl<'a, K, V> Model for Keys<'a, K, V> {
    ghost use Rattle.std.specs.Prelude.{List};
    ghost use Rattle.std.specs.Map.{keys_of};

    ghost Value = { List K };

    ghost view = { λ a. keys_of a.pairs };
}

impl<'a, K, V> Keys<'a, K, V> {
    /// Returns an iterator over the keys of the pairs.
    pub(crate) fn new(pairs: Iter<'a, K, V>) -> Self
        ensures { result ≡ keys_of pairs.entry }
    {
        Keys { pairs }
    }
}

impl<'a, K, V> Iterator for Keys<'a, K, V> {
    type Item = &'a K;

    ghost next_gives = { TakesFirst deref };

    ghost remaining = { λ s. at_most (length s) };

    fn next(&mut self) -> Option<&'a K> {
        let (key, _) = self.pairs.next()?;
        Some(key)
    }

    fn size_hint(&self) -> (usize, Option<usize>)
        ensures lower { IsWithinCount result.0 (at_most (length self.now)) }
        ensures upper { IfSome result.1 (UpTo (at_most (length self.now))) }
        ensures exact { result ≡ (length self.now, Some (length self.now)) }
    {
        self.pairs.size_hint()
    }
}

impl<'a, K, V> DoubleEndedIterator for Keys<'a, K, V> {
    ghost next_back_gives = { TakesLast deref };

    fn next_back(&mut self) -> Option<&'a K> {
        let (key, _) = self.pairs.next_back()?;
        Some(key)
    }
}

impl<'a, K, V> ExactSizeIterator for Keys<'a, K, V> {
    fn len(&self) -> usize {
        self.pairs.len()
    }
}

impl<'a, K, V> FusedIterator for Keys<'a, K, V> {}

/// Clones the iterator, without failing or allocating.
impl<'a, K, V> Clone for Keys<'a, K, V> {
    ghost is_clone = { λ s t. t ≡ s };

    ghost is_infallible = { λ _. ⊤ };

    fn clone(&self) -> Result<Self, AllocError> {
        Ok(Keys {
            pairs: self.pairs.clone()?,
        })
    }
}
