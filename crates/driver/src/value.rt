//! Values, which are numbers that are told apart by serial numbers.
ghost use Rattle.std.specs.Prelude.{◌==◌};
ghost use Rattle.std.specs.Cmp.{partial_order_from_own_ties};
ghost use Rattle.std.specs.Cmp.Rules.{comparing, hashing};
ghost use Rattle.std.specs.Hash as fed;
ghost use Rattle.std.specs.Ordering.{on, nat_cmp, as_partial_cmp};
ghost use Rattle.std.proofs.Common.{rules};

use super::counts::{Effect, Shared, share};
use super::identity::Identity;
use super::key::Key;
use std::cmp::Ordering;
use std::fmt;
use std::hash::{Hash, Hasher};

/// A number. One that is made by default counts nothing, and its serial number is 0.
#[derive(Clone, Default, Drop)]
pub struct Value {
    identity: Identity,
    number: u64,
}

impl Value {
    /// Makes a value, with the next serial number.
    pub fn new(number: u64, counts: &Shared) -> Value {
        Value {
            identity: Identity::new(counts, Effect::DropValue),
            number,
        }
    }

    /// Makes a copy, which is not counted as a clone.
    pub fn copy(&self) -> Value {
        Value {
            identity: self.identity.copy(),
            number: self.number,
        }
    }

    /// Returns the number.
    pub fn number(&self) -> u64 {
        self.number
    }

    /// Returns the serial number.
    pub fn serial(&self) -> u64 {
        self.identity.serial()
    }

    /// Returns this value with a number that is greater, modulo 2^64.
    pub fn increased(&self, by: u64) -> Value {
        Value {
            identity: self.identity.same(),
            number: self.number.wrapping_add(by),
        }
    }

    /// Adds to the number in place, modulo 2^64.
    pub fn increase(&mut self, by: u64) {
        self.number = self.number.wrapping_add(by);
    }
}

impl PartialEq for Value {
    ghost eq = { on (λ value. value.number) ◌==◌ };

    ghost laws = { Prim.search (comparing, rules) };

    fn eq(&self, other: &Value) -> bool {
        self.identity.count(Effect::EqValue);
        self.number == other.number
    }
}

impl Eq for Value {
    ghost laws = { Prim.search (comparing, rules) };
}

impl Ord for Value {
    ghost cmp = { on (λ value. value.number) nat_cmp };

    ghost total = { Prim.search (comparing, rules) };

    ghost matches_partial_cmp = { Prim.search (comparing, rules) };

    ghost matches_eq = { Prim.search (comparing, rules) };

    fn cmp(&self, other: &Value) -> Ordering {
        self.identity.count(Effect::CmpValue);
        self.number.cmp(&other.number)
    }
}

impl PartialOrd for Value {
    ghost partial_cmp = { as_partial_cmp (on (λ value. value.number) nat_cmp) };

    ghost laws = { partial_order_from_own_ties (Prim.search (comparing, rules))
        (Prim.search (comparing, rules)) };

    fn partial_cmp(&self, other: &Value) -> Option<Ordering> {
        Some(self.cmp(other))
    }
}

impl Hash for Value {
    ghost hash_input = { λ value. fed.u64 value.number };

    ghost respects_eq = { Prim.search (hashing, rules) };

    fn hash<H: Hasher>(&self, state: &mut H) {
        self.identity.count(Effect::HashValue);
        state.write_u64(self.number);
    }
}

/// The number alone.
impl fmt::Debug for Value {
    fn fmt<W: fmt::Write>(&self, f: &mut fmt::Formatter<W>) -> fmt::Result {
        write!(f, "{}", self.number)
    }
}

/// The values of one word, for a call that is made more than once: first the value that the word
/// made, and then further ones of the same number.
#[derive(Drop)]
pub struct Values {
    number: u64,
    first: Option<Value>,
    counts: Shared,
}

impl Values {
    /// Begins with a value.
    pub fn new(first: Value, counts: &Shared) -> Values {
        Values {
            number: first.number,
            first: Some(first),
            counts: share(counts),
        }
    }

    /// Returns the first value, or else one with the next serial number.
    pub fn take(&mut self) -> Value {
        match self.first.take() {
            Some(value) => value,
            None => Value::new(self.number, &self.counts),
        }
    }

    /// Makes a key of a word, with the next serial number.
    pub fn key(&self, word: &str) -> Key {
        Key::new(word, &self.counts)
    }

    /// Makes a value of the number 0, with the next serial number.
    pub fn zero(&self) -> Value {
        Value::new(0, &self.counts)
    }
}
