//! Hashers that are counted.

use std::cell::Cell;
use std::hash::{BuildHasher, Hasher};

/// A hasher that gives every line the same hash.
#[derive(Clone, Copy)]
pub struct Same;

impl Hasher for Same {
    ghost write = { λ state _. state };

    ghost finish = { λ _. 0 };

    fn finish(&self) -> u64 {
        0
    }

    fn write(&mut self, _bytes: &[u8]) {}
}

/// Makes hashers that give one hash, and counts them.
#[derive(Clone, Copy)]
pub struct BuildCounted<'a> {
    pub built: &'a Cell<usize>,
}

impl<'a> BuildHasher for BuildCounted<'a> {
    type Hasher = Same;

    ghost build_hasher = { λ _. record {} };

    fn build_hasher(&self) -> Same {
        self.built.set(self.built.get().wrapping_add(1));
        Same
    }
}
