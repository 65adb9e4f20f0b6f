//! Lends values one by one, while links and keys are shared.
ghost use Rattle.std.specs.Prelude.{◌≡◌, List as Seq, Some};
ghost use base.Fml.{GName, ftrue, ffalse};
ghost use denote.RawPtr.{Ptr};
ghost use Rattle.lhm_ring.specs.ValueLoan.{borrowed, value_at, without_value, HasValueAt};

use crate::nodes::Node;
use crate::pointer::NodePointer;
use std::cell::UnsafeCell;
use std::marker::{Model, Move, Owns, PhantomData};

/// What stands for a lent value. None is ever made.
pub(crate) struct Hole<V> {
    cell: UnsafeCell<V>,
}

impl<V> Owns for Hole<V> {
    ghost Value = { V };

    ghost coded = { V.code };

    ghost shr_at = { λ _ _ _. ftrue };
}

impl<V> Move for Hole<V> {
    ghost own_val = { λ _ _. ffalse };
}

/// The right to write the values of `run`, each with its node's pointer.
#[derive(Drop)]
pub(crate) struct ValueLoan<'a, L, K, V> {
    pub(crate) marker: PhantomData<&'a mut Node<L, K, V>>,
    ghost name: { GName },
    ghost tie: { GName },
    ghost run: { Seq (Ptr × V) },
}

impl<'a, L, K, V> Model for ValueLoan<'a, L, K, V> {
    ghost also_owns = { λ l. borrowed 'a L.row K.row V.row l.name l.run };

    ghost also_shares = { λ _ _ _. ftrue };
}

impl<'a, L, K, V> ValueLoan<'a, L, K, V> {
    /// Returns a mutable reference to the value of the node at `at`.
    pub(crate) fn take(&mut self, at: NodePointer) -> &'a mut V
        requires { HasValueAt self.old.run at.ptr }
        ensures value { value_at self.old.run at.ptr ≡ Some result.now }
        ensures run { self.new.run ≡ without_value at.ptr self.old.run }
        ensures tie { self.new.tie ≡ self.old.tie }
    {
        let node = at.ptr.cast_mut() as *mut Node<L, K, V>;
        unsafe { &mut (*node).value }
    }
}
