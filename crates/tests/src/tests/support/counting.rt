//! Keys that count how often they are compared.
ghost use Rattle.std.specs.Prelude.{◌==◌};
ghost use Rattle.std.specs.Cmp.Rules.{comparing, hashing};
ghost use Rattle.std.specs.Hash as fed;
ghost use Rattle.std.specs.Ordering.{on};
ghost use Rattle.std.proofs.Common.{rules};

use std::cell::Cell;
use std::hash::{Hash, Hasher};

/// A number, and the count of comparisons that its keys share.
#[derive(Clone, Copy)]
pub struct Counting<'a> {
    pub number: u64,
    pub compared: &'a Cell<usize>,
}

impl<'a> PartialEq for Counting<'a> {
    ghost eq = { on (λ key. key.number) ◌==◌ };

    ghost laws = { Prim.search (comparing, rules) };

    fn eq(&self, other: &Counting<'a>) -> bool {
        self.compared.set(self.compared.get().wrapping_add(1));
        self.number == other.number
    }
}

impl<'a> Eq for Counting<'a> {
    ghost laws = { Prim.search (comparing, rules) };
}

impl<'a> Hash for Counting<'a> {
    ghost hash_input = { λ key. fed.u64 key.number };

    ghost respects_eq = { Prim.search (hashing, rules) };

    fn hash<H: Hasher>(&self, state: &mut H) {
        state.write_u64(self.number);
    }
}
