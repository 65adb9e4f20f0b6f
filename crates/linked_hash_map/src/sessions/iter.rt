//! The iterator over the sessions of a table.
ghost use Rattle.std.specs.Prelude.{◌≡◌, Some, IfSome, length};
ghost use Rattle.std.specs.Iterator.{at_most, UpTo};
ghost use Rattle.std.specs.Iterator.SizeHint.{IsWithinCount};
ghost use Rattle.std.specs.Map.Iter.{TakesFirst};
ghost use Rattle.linked_hash_map.specs.SessionTables.{deref_session};

use super::storage::Weighted;
use crate::iter::Iter;
use std::iter::FusedIterator;
use std::marker::Model;

/// A fused iterator over the sessions, returned by `Sessions::iter`. Its methods are O(1).
#[derive(Drop)]
pub struct SessionIter<'a, T> {
    pairs: Iter<'a, u64, Weighted<T>>,
}

/// A contract sees the sessions left, in order.
impl<'a, T> Model for SessionIter<'a, T> {
    ghost use Rattle.std.specs.Prelude.{List};
    ghost use Rattle.linked_hash_map.specs.SessionTables.{Session};
    ghost use Rattle.linked_hash_map.specs.SessionsKept.{sessions_of};

    ghost Value = { List (Session T) };

    ghost view = { λ a. sessions_of a.pairs };
}

impl<'a, T> SessionIter<'a, T> {
    ghost use Rattle.linked_hash_map.specs.SessionsKept.{sessions_of};

    /// Returns an iterator over the sessions of the pairs.
    pub(super) fn new(pairs: Iter<'a, u64, Weighted<T>>) -> Self
        ensures { result ≡ sessions_of pairs.entry }
    {
        SessionIter { pairs }
    }
}

impl<'a, T> Iterator for SessionIter<'a, T> {
    type Item = (u64, u64, &'a T);

    ghost next_gives = { TakesFirst deref_session };

    ghost remaining = { λ s. at_most (length s) };

    fn next(&mut self) -> Option<(u64, u64, &'a T)> {
        let (id, weighted) = self.pairs.next()?;
        Some((*id, weighted.weight, &weighted.payload))
    }

    fn size_hint(&self) -> (usize, Option<usize>)
        ensures lower { IsWithinCount result.0 (at_most (length self.now)) }
        ensures upper { IfSome result.1 (UpTo (at_most (length self.now))) }
        ensures exact { result ≡ (length self.now, Some (length self.now)) }
    {
        self.pairs.size_hint()
    }
}

impl<'a, T> ExactSizeIterator for SessionIter<'a, T> {
    fn len(&self) -> usize {
        self.pairs.len()
    }
}

impl<'a, T> FusedIterator for SessionIter<'a, T> {}
