//! The double-ended iterator over a ring with mutable references to the values.
ghost use Rattle.std.specs.Prelude.{◌≡◌, length};
ghost use Rattle.lhm_ring.specs.Iter.{LendsFirstStep, LendsLastStep, rest_of};

use crate::iter::Iter;
use crate::links::Links;
use crate::ring::Ring;
use crate::value_loan::{Hole, ValueLoan};
use std::iter::ExactSizeIterator;
use std::marker::{Model, PhantomData};

/// The triples that are left of a [`TriplesMut`].
#[derive(Drop)]
pub struct Lent<'a, K, V> {
    // The links and the keys are shared, and each value is taken from a loan.
    holes: Iter<'a, K, Hole<V>>,
    loan: ValueLoan<'a, Links, K, V>,
}

impl<'a, K, V> Model for Lent<'a, K, V> {
    ghost use Rattle.std.specs.Prelude.{List};
    ghost use base.Fml.{GName};
    ghost use Rattle.lhm_ring.specs.Ring.{Held};
    ghost use Rattle.lhm_ring.specs.ValueLoan.{AreLent};

    ghost Value = { List (Held (K × V)) × GName };

    ghost view = { λ a. (a.holes, a.loan.tie) };

    ghost invariant = { λ a. AreLent a.loan.run a.holes };
}

impl<'a, K, V> Lent<'a, K, V> {
    /// Takes the first triple.
    pub fn step(&mut self) -> Option<(u64, &'a K, &'a mut V)>
        ensures { LendsFirstStep (rest_of self.old) result (rest_of self.new) }
    {
        match self.holes.step() {
            Some((at, hash, key, _)) => Some((hash, key, self.loan.take(at))),
            None => None,
        }
    }

    /// Takes the last triple.
    pub fn step_back(&mut self) -> Option<(u64, &'a K, &'a mut V)>
        ensures { LendsLastStep (rest_of self.old) result (rest_of self.new) }
    {
        match self.holes.step_back() {
            Some((at, hash, key, _)) => Some((hash, key, self.loan.take(at))),
            None => None,
        }
    }

    /// Returns how many triples are left.
    pub fn len(&self) -> usize
        ensures { result ≡ length (rest_of self.now) }
    {
        self.holes.len()
    }
}

/// A double-ended iterator over the triples, with mutable references to the values, each in O(1).
#[derive(Drop)]
pub enum TriplesMut<'a, K, V> {
    /// No function returns this variant. The borrow checker lets a type that keeps a ring hand the
    /// loan of its values on only if the result's type has a variant with a `&mut` to values.
    Empty(&'a mut [V; 0]),
    /// The triples of a ring.
    Lent(Lent<'a, K, V>),
}

impl<'a, K, V> TriplesMut<'a, K, V> {
    ghost use Rattle.lhm_ring.specs.Iter.{lent_held, lent_name, IsLent, held_left, loan_name};

    /// Returns an iterator over a ring whose values are lent.
    fn of(lent: LentValues<'a, K, V>) -> TriplesMut<'a, K, V>
        requires { IsLent lent }
        ensures rest { held_left result ≡ lent_held lent.entry }
        ensures name { loan_name result ≡ lent_name lent.entry }
    {
        let LentValues { ring, loan } = lent;
        TriplesMut::Lent(Lent {
            holes: ring.iter(),
            loan,
        })
    }
}

/// A ring whose values are lent, for `TriplesMut::of`.
struct LentValues<'a, K, V> {
    ring: &'a Ring<K, Hole<V>>,
    loan: ValueLoan<'a, Links, K, V>,
}

impl<K, V> Ring<K, V> {
    ghost use Rattle.std.specs.Borrow.{sem};
    ghost use Rattle.lhm_ring.specs.RingAfterLoan.{lends_values, KeepsAllButValues};
    ghost use Rattle.lhm_ring.specs.Iter.{held_left, loan_name};

    /// Returns a double-ended iterator over the triples, front to back, with mutable references to
    /// the values.
    pub fn iter_mut(&mut self) -> TriplesMut<'_, K, V>
        ensures* writes_back { sem 𝓛 (lends_values K.row V.row self.entry (loan_name result)) }
        ensures keeps { KeepsAllButValues self.old }
        ensures rest { held_left result ≡ self.old.held }
    {
        // The ring is shared except for its values.
        let ring = &raw mut *self as *const Ring<K, Hole<V>>;
        TriplesMut::of(LentValues {
            ring: unsafe { &*ring },
            loan: ValueLoan {
                marker: PhantomData,
            },
        })
    }
}
