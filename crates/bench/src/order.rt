//! The orders in which the workloads come to the keys.
ghost use Rattle.std.specs.Prelude.{◌<◌};

/// The order in which a workload comes to the keys.
pub trait Order {
    /// Returns the index of the key that is looked up as the `i`th of `n`.
    fn index(&mut self, i: u64, n: u64) -> u64
        requires { 0 < n };

    /// Returns the place, in a list of `n` keys, of the one that is taken as the `i`th.
    fn place(&mut self, i: u64, n: u64) -> u64
        requires { 0 < n };

    /// Returns the index of the first key of a new map. The others follow it.
    fn start(&mut self) -> u64;

    /// Tells whether no round repeats another.
    fn is_random(&self) -> bool;

    /// Begins anew, so that what follows does not depend on what was done before.
    fn restart(&mut self);
}

/// Each round does the same: it looks the keys up in one scattered order, and takes a list of keys
/// from its front to its back.
#[derive(Drop)]
pub struct Repeated;

impl Order for Repeated {
    fn index(&mut self, i: u64, n: u64) -> u64 {
        i.wrapping_mul(7919) % n
    }

    fn place(&mut self, i: u64, _n: u64) -> u64 {
        i
    }

    fn start(&mut self) -> u64 {
        0
    }

    fn is_random(&self) -> bool {
        false
    }

    fn restart(&mut self) {}
}

/// Each key is drawn, and a new map has keys that no other has.
#[derive(Drop)]
pub struct Random {
    drawn: u64,
}

impl Random {
    /// Begins with the first number that is drawn.
    pub fn new() -> Random {
        Random { drawn: 0 }
    }

    /// Draws a number.
    fn draw(&mut self) -> u64 {
        self.drawn = self.drawn.wrapping_add(1);
        mix(self.drawn)
    }
}

impl Order for Random {
    /// Draws a number below `n`, for an `n` of at most 2^32.
    fn index(&mut self, _i: u64, n: u64) -> u64 {
        (self.draw() >> 32).wrapping_mul(n) >> 32
    }

    fn place(&mut self, i: u64, n: u64) -> u64 {
        self.index(i, n)
    }

    fn start(&mut self) -> u64 {
        self.draw()
    }

    fn is_random(&self) -> bool {
        true
    }

    fn restart(&mut self) {
        self.drawn = 0;
    }
}

/// Returns the key of an index. Different indexes have different keys.
pub fn mix(i: u64) -> u64 {
    let mut z = i.wrapping_mul(0x9e37_79b9_7f4a_7c15);
    z = (z ^ (z >> 30)).wrapping_mul(0xbf58_476d_1ce4_e5b9);
    z ^ (z >> 27)
}
