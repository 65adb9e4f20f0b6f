//! Moves keys and values out one by one, while links are shared.
ghost use Rattle.std.specs.Prelude.{◌≡◌, List as Seq, Option, Some};
ghost use Rattle.std.specs.Borrow.{sem};
ghost use base.Fml.{GName, ftrue};
ghost use denote.RawPtr.{Ptr};
ghost use Rattle.lhm_ring.specs.ContentLoan.{borrows_bodies, body_in, without_body, HasBody, bodies_of};

use crate::nodes::{Node, Nodes};
use crate::pointer::NodePointer;
use crate::value_loan::Hole;
use std::marker::{Model, PhantomData};

/// The right to move out what the nodes of `run` hold.
pub(crate) struct ContentLoan<'a, L, K, V> {
    marker: PhantomData<&'a mut Node<L, K, V>>,
    ghost name: { GName },
    ghost run: { Seq (Ptr × Option (K × V)) },
}

impl<'a, L, K, V> Model for ContentLoan<'a, L, K, V> {
    ghost also_owns = { λ s. borrows_bodies L.row K.row V.row 'a s.name s.run };

    ghost also_shares = { λ _ _ _. ftrue };
}

impl<L, K, V> Drop for ContentLoan<'_, L, K, V> {
    fn drop(self) {
        let Self { marker: _ } = self;
    }
}

impl<'a, L, K, V> ContentLoan<'a, L, K, V> {
    /// Moves out key and value of the node at `at`.
    pub(crate) fn take(&mut self, at: NodePointer) -> (K, V)
        requires { HasBody self.old.run at.ptr }
        ensures body { body_in self.old.run at.ptr ≡ Some result }
        ensures run { self.new.run ≡ without_body at.ptr self.old.run }
    {
        let node = at.ptr.cast_mut() as *mut Node<L, K, V>;
        let key = unsafe { (&raw const (*node).key).read() };
        let value = unsafe { (&raw const (*node).value).read() };
        (key, value)
    }
}

impl<L, K, V> Nodes<L, K, V> {
    ghost use Rattle.lhm_ring.specs.RingAfterLoan.{lends_bodies};

    /// Shares the links, and lends the keys and values. When the loan ends, the nodes hold nothing.
    pub(crate) fn lend_bodies<'a>(
        &'a mut self,
    ) -> (
        &'a mut [u8; 0],
        &'a Nodes<L, Hole<K>, Hole<V>>,
        ContentLoan<'a, L, K, V>,
    )
        ensures* writes_back { sem 𝓛
            (lends_bodies L.row K.row V.row self.entry result.0.ghost_name) }
        ensures cells { result.1.now.cells ≡ self.old.cells }
        ensures run { result.2.run ≡ bodies_of self.old.cells }
    {
        let nodes = &raw mut *self as *const Nodes<L, Hole<K>, Hole<V>>;
        let anchor = &raw mut *self as *mut [u8; 0];
        (
            unsafe { &mut *anchor },
            unsafe { &*nodes },
            ContentLoan {
                marker: PhantomData,
            },
        )
    }
}
