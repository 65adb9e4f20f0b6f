//! The hashers of the maps.
ghost use Rattle.std.specs.Prelude.{◌≡◌, ◌==◌, ◌+◌, ◌*◌, ◌%◌, fold, get_or, if◌then◌else◌};
ghost use Rattle.driver.specs.Hashers.{hash_of};

use super::counts::{Effect, Shared};
use super::identity::Identity;
use std::fmt;
use std::hash::{BuildHasher, Hasher};

/// An odd number whose multiples have changing bits up to the highest.
const MULTIPLIER: u64 = 0x9E37_79B9_7F4A_7C15;

/// What makes a byte the highest of eight: 2^56.
const HIGHEST_BYTE: u64 = 0x0100_0000_0000_0000;

/// What a hasher makes of the bytes that are written.
#[derive(Clone, Copy, Debug, Default)]
pub enum Choice {
    /// A hash that differs for most keys.
    #[default]
    Spread,
    /// The same hash for every key.
    Same,
    /// The first byte.
    Letter,
    /// A hash that differs for most keys in each of its 64 bits.
    Wide,
    /// The first byte as the highest of the eight of the hash.
    High,
}

impl Choice {
    /// Returns the choice of this name, `Spread` for any that is not known.
    pub fn named(name: &str) -> Choice {
        match name {
            "same" => Choice::Same,
            "letter" => Choice::Letter,
            "wide" => Choice::Wide,
            "high" => Choice::High,
            _ => Choice::Spread,
        }
    }
}

/// The bytes that were written, as a number, and the first of them.
#[derive(Clone, Copy)]
pub struct KeyHasher {
    choice: Choice,
    number: u64,
    first: u64,
}

impl Hasher for KeyHasher {
    ghost write = { λ state bytes. record {
      choice = state.choice;
      number = fold (λ number byte. number % 4294967296 * 31 + byte) state.number bytes;
      first = if state.first == 0 then get_or bytes 0 0 else state.first;
    } };

    ghost finish = { λ state. hash_of state.choice state.number state.first };

    fn finish(&self) -> u64 {
        match self.choice {
            Choice::Spread => self.number,
            Choice::Same => 0,
            Choice::Letter => self.first,
            Choice::Wide => self.number.wrapping_mul(MULTIPLIER),
            Choice::High => self.first.wrapping_mul(HIGHEST_BYTE),
        }
    }

    fn write(&mut self, bytes: &[u8]) {
        if self.first == 0 {
            self.first = first_of(bytes);
        }
        let mut number = self.number;
        for byte in bytes {
            number = number % 4_294_967_296 * 31 + u64::from(*byte);
        }
        self.number = number;
    }
}

/// The first byte, or 0 if there is none.
fn first_of(bytes: &[u8]) -> u64
    ensures { result ≡ get_or bytes.now 0 0 }
{
    match bytes.first() {
        Some(byte) => u64::from(*byte),
        None => 0,
    }
}

/// Makes the hashers of a choice. One that is made by default counts nothing, and its serial number
/// is 0.
#[derive(Clone, Default, Drop)]
pub struct BuildKeyHasher {
    identity: Identity,
    choice: Choice,
}

impl BuildKeyHasher {
    /// Makes the builder of a choice, with the next serial number.
    pub fn new(choice: Choice, counts: &Shared) -> BuildKeyHasher {
        BuildKeyHasher {
            identity: Identity::new(counts, Effect::DropHasher),
            choice,
        }
    }

    /// Makes a copy, which is not counted as a clone.
    pub fn copy(&self) -> BuildKeyHasher {
        BuildKeyHasher {
            identity: self.identity.copy(),
            choice: self.choice,
        }
    }
}

impl BuildHasher for BuildKeyHasher {
    type Hasher = KeyHasher;

    ghost build_hasher = { λ build. record { choice = build.choice; number = 0; first = 0 } };

    fn build_hasher(&self) -> KeyHasher {
        self.identity.count(Effect::BuildHasher);
        KeyHasher {
            choice: self.choice,
            number: 0,
            first: 0,
        }
    }
}

/// The choice alone.
impl fmt::Debug for BuildKeyHasher {
    fn fmt<W: fmt::Write>(&self, f: &mut fmt::Formatter<W>) -> fmt::Result {
        write!(f, "BuildKeyHasher {{ choice: {:?} }}", self.choice)
    }
}
