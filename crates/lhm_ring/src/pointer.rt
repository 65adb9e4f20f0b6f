//! Pointers to nodes: plain ones, links, and positions of triples.
ghost use Rattle.std.specs.Prelude.{◌≡◌, None, Some, true, ⊤};
ghost use Rattle.std.specs.Option.{IsSome};
ghost use mathlib.Core.Bool.{Bool-set};
ghost use Rattle.lhm_ring.specs.Nodes.{is_block, is_null, is_null_or_block};

use std::alloc::AllocError;
use std::marker::PhantomData;
use std::ptr::{NonNull, null};

/// The address of a node or a chunk. It owns nothing.
#[derive(Clone, Copy)]
pub struct NodePointer {
    pub(crate) ptr: *const u8,
}

impl NodePointer {
    /// Returns whether it is null.
    pub(crate) fn is_null(self) -> bool
        requires { is_null_or_block self.ptr ≡ true }
        ensures { result ≡ is_null self.ptr }
    {
        match NonNull::new(self.ptr.cast_mut()) {
            Some(_) => false,
            None => true,
        }
    }
}

/// The pointer of a node, or null if it leads nowhere.
#[derive(Clone, Copy)]
pub struct Link {
    ptr: *const u8,
    ghost comparable: { is_null_or_block ptr ≡ true } by { Bool-set _ _ },
}

impl Link {
    ghost use Rattle.lhm_ring.specs.Pointer.{pointer_of, pointer_of_some, target};

    /// Creates a link that leads nowhere.
    #[inline]
    pub fn none() -> Link
        ensures { target result ≡ None }
    {
        Link { ptr: null() }
    }

    pub(crate) fn to(pointer: NodePointer) -> Link
        requires { is_block pointer.ptr ≡ true }
        ensures { target result ≡ Some pointer.ptr }
    {
        Link { ptr: pointer.ptr }
    }

    /// Creates a link to a position, or to nowhere.
    pub fn of<K, V>(at: Option<Position<K, V>>) -> Link
        ensures { target result ≡ pointer_of_some at }
    {
        match at {
            Some(at) => Link::to(at.pointer),
            None => Link::none(),
        }
    }

    /// Returns the position that it leads to, if any.
    pub fn get<K, V>(self) -> Option<Position<K, V>>
        ensures { pointer_of_some result ≡ target self }
    {
        match NonNull::new(self.ptr.cast_mut()) {
            Some(_) => Some(self.position()),
            None => None,
        }
    }

    /// Returns the address that it leads to, or null.
    pub(crate) fn address(self) -> NodePointer
        ensures { result.ptr ≡ self.ptr }
    {
        NodePointer { ptr: self.ptr }
    }

    /// Returns the position that it leads to, untested: it leads somewhere.
    pub(crate) fn position<K, V>(self) -> Position<K, V>
        requires { IsSome (target self) }
        ensures { target self ≡ Some (pointer_of result) }
    {
        Position {
            pointer: NodePointer { ptr: self.ptr },
            marker: PhantomData,
        }
    }
}

/// The position of a triple, until that leaves or `compact` moves it. It owns nothing, and two
/// cannot be compared.
pub struct Position<K, V> {
    pub(crate) pointer: NodePointer,
    marker: PhantomData<(K, V)>,
    ghost block: { is_block pointer.ptr ≡ true } by { Bool-set _ _ },
}

impl<K, V> Clone for Position<K, V> {
    ghost is_clone = { λ x y. y ≡ x };

    ghost is_infallible = { λ _. ⊤ };

    fn clone(&self) -> Result<Position<K, V>, AllocError> {
        Ok(*self)
    }
}

impl<K, V> Copy for Position<K, V> {}
