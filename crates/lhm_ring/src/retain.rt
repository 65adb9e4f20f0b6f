//! `retain`.
ghost use Rattle.std.specs.Prelude.{◌≡◌, map};
ghost use Rattle.std.specs.Map.Calls.{CallableOnEachPair, CalledAtPair, TakesPair};
ghost use Rattle.lhm_ring.specs.Ring.{ChangesOnly};
ghost use Rattle.lhm_ring.specs.Pointer.{pointer_of};
ghost use Rattle.lhm_ring.specs.Table.{KeepsCounts, WritesOnly, TakesAt, CallsAt, RetainsAt, RetainsHeld};

use crate::pointer::Position;
use crate::ring::Ring;
use crate::table::Table;

/// Calls a closure, with one lifetime for both references.
fn call<'a, K, V, F: FnMut(&K, &mut V) -> bool>(keep: &mut F, key: &'a K, value: &'a mut V) -> bool
    requires { TakesPair F.FnMut keep.old key.now value.old }
    ensures { CalledAtPair F.FnMut keep.old key.now value.old result value.new keep.new }
{
    keep(key, value)
}

impl<K, V> Ring<K, V> {
    ghost use Rattle.lhm_ring.specs.RingAfterLoan.{with_value};

    /// Calls a closure with the key and value at a position, moved out for the call.
    fn call_at<F: FnMut(&K, &mut V) -> bool>(&mut self, at: Position<K, V>, keep: &mut F) -> bool
        requires { TakesAt (TakesPair F.FnMut) keep.old self.old.held (pointer_of at) }
        ensures called { record {
          value : V;
          at_pair : CallsAt (CalledAtPair F.FnMut) keep.old self.old.held (pointer_of at) result
              value keep.new;
          new_is : self.new ≡ with_value self.old (pointer_of at) value;
        } }
        ensures alone { ChangesOnly self.old.held (pointer_of at) }
    {
        let (key, mut value) = self.nodes.take(at.pointer);
        let kept = call(keep, &key, &mut value);
        self.nodes.fill(at.pointer, key, value);
        kept
    }
}

impl<K, V> Table<K, V> {
    ghost use Rattle.lhm_ring.specs.TableAfterLoan.{with_value};

    /// Calls a closure with the key and the value at a position.
    fn call_at<F: FnMut(&K, &mut V) -> bool>(&mut self, at: Position<K, V>, keep: &mut F) -> bool
        requires { TakesAt (TakesPair F.FnMut) keep.old self.old.held (pointer_of at) }
        ensures called { record {
          value : V;
          at_pair : CallsAt (CalledAtPair F.FnMut) keep.old self.old.held (pointer_of at) result
              value keep.new;
          new_is : self.new ≡ with_value self.old (pointer_of at) value;
        } }
        ensures alone { WritesOnly self.old.held (pointer_of at) }
    {
        self.ring.call_at(at, keep)
    }

    /// Drops the pair at a position if a closure rejects it.
    fn retain_at<F: FnMut(&K, &mut V) -> bool>(&mut self, at: Position<K, V>, keep: &mut F)
    where
        K: Drop,
        V: Drop,
        requires { TakesAt (TakesPair F.FnMut) keep.old self.old.held (pointer_of at) }
        ensures retained { RetainsAt (CalledAtPair F.FnMut) keep.old self.old.held (pointer_of at)
            self.new.held keep.new }
        ensures keeps { KeepsCounts self.old self.new }
    {
        if !self.call_at(at, keep) {
            self.remove_at(at);
        }
    }

    /// Keeps the pairs for which a closure returns `true`, in order, and drops the others, in O(n).
    /// It calls that once with each pair, front to back. Compares no key.
    pub fn retain<F: FnMut(&K, &mut V) -> bool>(&mut self, mut keep: F)
    where
        K: Drop,
        V: Drop,
        requires { CallableOnEachPair (CalledAtPair F.FnMut) (TakesPair F.FnMut) keep
            (map (λ t. t.pair) self.old.held) }
        ensures retained { RetainsHeld (CalledAtPair F.FnMut) keep self.old.held self.new.held }
        ensures keeps { KeepsCounts self.old self.new }
    {
        let mut next = self.first();
        while let Some(at) = next {
            next = self.next(at);
            self.retain_at(at, &mut keep);
        }
    }
}
