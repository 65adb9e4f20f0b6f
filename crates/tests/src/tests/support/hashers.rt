//! Hashers: those that do not tell keys apart, one whose hash is a multiple of a key, which is taken
//! modulo a number, and one that keeps what it is fed.
ghost use Rattle.std.specs.Prelude.{◌≡◌, ◌+◌, ◌*◌, ◌/◌, ◌%◌, ◌^◌, nat_lt, cond, fold, slice_set};

use std::hash::{BuildHasher, Hasher};

/// A hasher that gives every key the same hash.
#[derive(Clone, Copy)]
pub struct Same(u64);

impl Hasher for Same {
    ghost write = { λ state _. state };

    ghost finish = { λ state. state.0 };

    fn finish(&self) -> u64 {
        self.0
    }

    fn write(&mut self, _bytes: &[u8]) {}
}

/// Makes hashers that all give one hash.
#[derive(Clone, Copy, Debug, PartialEq)]
pub struct BuildSame {
    pub hash: u64,
}

impl BuildHasher for BuildSame {
    type Hasher = Same;

    ghost build_hasher = { λ build. record { 0 = build.hash } };

    fn build_hasher(&self) -> Same {
        Same(self.hash)
    }
}

/// What the last byte of a number of 64 bits counts.
const LAST_BYTE: u64 = 72_057_594_037_927_936;

/// The number whose last byte is `byte`, and whose others are those of `number` but its first.
fn shift_in(number: u64, byte: u8) -> u64
    ensures { result ≡ number / 256 + byte * 72057594037927936 }
{
    number / 256 + byte as u64 * LAST_BYTE
}

/// The eight bytes that were written last, as one number, and what is made of it.
#[derive(Clone, Copy)]
pub struct Multiple {
    last: u64,
    build: BuildMultiple,
}

impl Hasher for Multiple {
    ghost write = { λ state bytes. record {
      last = fold (λ number byte. number / 256 + byte * 72057594037927936) state.last bytes;
      build = state.build;
    } };

    ghost finish = { λ state.
        (state.last % (state.build.largest + 1) * state.build.factor) % 2 ^ 64 };

    fn finish(&self) -> u64 {
        let key = self.last % (self.build.largest as u64 + 1);
        key.wrapping_mul(self.build.factor)
    }

    fn write(&mut self, bytes: &[u8]) {
        let mut last = self.last;
        for byte in bytes {
            last = shift_in(last, *byte);
        }
        self.last = last;
    }
}

/// Makes hashers whose hash is `factor` times the key, taken modulo `largest + 1` first, and modulo
/// 2^64 at last.
#[derive(Clone, Copy)]
pub struct BuildMultiple {
    pub largest: u32,
    pub factor: u64,
}

/// The hash is the key, of keys of 32 bits.
pub const KEY: BuildMultiple = BuildMultiple {
    largest: u32::MAX,
    factor: 1,
};

impl BuildHasher for BuildMultiple {
    type Hasher = Multiple;

    ghost build_hasher = { λ build. record { last = 0; build = build } };

    fn build_hasher(&self) -> Multiple {
        Multiple {
            last: 0,
            build: *self,
        }
    }
}

/// The first 32 bytes that were fed, and how many they are.
#[derive(Debug, PartialEq, Drop)]
pub struct Written {
    pub bytes: [u8; 32],
    pub len: usize,
}

impl Written {
    /// Makes one to which nothing was written. It takes no memory.
    pub fn new() -> Self {
        Written {
            bytes: [0; 32],
            len: 0,
        }
    }

    fn push(&mut self, byte: u8)
        ensures { self.new ≡ cond (nat_lt self.old.len 32)
            (record {
              bytes = slice_set self.old.bytes self.old.len byte;
              len = self.old.len + 1;
            }) self.old }
    {
        if self.len < 32 {
            self.bytes[self.len] = byte;
            self.len += 1;
        }
    }
}

impl Hasher for Written {
    ghost write = { fold (λ state byte.
        cond (nat_lt state.len 32)
        (record { bytes = slice_set state.bytes state.len byte; len = state.len + 1 }) state) };

    ghost finish = { λ state. state.len };

    fn finish(&self) -> u64 {
        self.len as u64
    }

    fn write(&mut self, bytes: &[u8]) {
        for byte in bytes {
            self.push(*byte);
        }
    }
}
