//! Keys of short text, compared and hashed without regard to ASCII case.
ghost use Rattle.std.specs.Prelude.{◌==◌};
ghost use Rattle.std.specs.Cmp.{on_po};
ghost use Rattle.std.specs.Cmp.Rules.{comparing, hashing};
ghost use Rattle.std.specs.Hash as fed;
ghost use Rattle.std.specs.Ordering.{on};
ghost use Rattle.std.proofs.Common.{rules};
ghost use Rattle.driver.specs.Keys.{same_cmp, same_cmp_partial_order};

use super::copied::CopiedKey;
use super::counts::{Effect, Shared};
use super::identity::Identity;
use std::cmp::Ordering;
use std::fmt;
use std::hash::{Hash, Hasher};

/// The first eight bytes of a text. Two keys are the same if they differ in case alone, so what
/// a map has stored shows which of them it keeps.
#[derive(Clone, Drop)]
pub struct Key {
    identity: Identity,
    text: [u8; 8],
    /// The text in lower case, as one number.
    folded: u64,
}

impl Key {
    /// Makes a key of a text, with the next serial number.
    pub fn new(text: &str, counts: &Shared) -> Key {
        let mut bytes = [0; 8];
        for (place, byte) in bytes.iter_mut().zip(text.bytes()) {
            *place = byte;
        }
        Key::of_bytes(bytes, counts)
    }

    fn of_bytes(text: [u8; 8], counts: &Shared) -> Key {
        let mut lower = text;
        for place in lower.iter_mut() {
            *place = place.to_ascii_lowercase();
        }
        Key {
            identity: Identity::new(counts, Effect::DropKey),
            text,
            folded: u64::from_le_bytes(lower),
        }
    }

    /// Makes a key of the decimal text of a number, with the next serial number.
    pub fn decimal(number: u64, counts: &Shared) -> Key {
        Key::of_bytes(decimal_text(number), counts)
    }

    /// Makes a key of the same text, with the next serial number.
    pub fn again(&self) -> Key {
        self.with_identity(self.identity.again())
    }

    /// Makes a copy, which is not counted as a clone.
    pub fn copy(&self) -> Key {
        self.with_identity(self.identity.copy())
    }

    fn with_identity(&self, identity: Identity) -> Key {
        Key {
            identity,
            text: self.text,
            folded: self.folded,
        }
    }

    /// Returns the text as one number, whose order is that of the texts.
    pub fn number(&self) -> u64 {
        u64::from_be_bytes(self.text)
    }

    /// Returns the text in lower case as a key that is copied.
    pub fn copied(&self) -> CopiedKey<'_> {
        CopiedKey::new(self.text, self.folded, &self.identity)
    }

    /// Returns the text as a key that is copied, and compared as it is.
    pub fn ordered(&self) -> CopiedKey<'_> {
        CopiedKey::new(self.text, self.number(), &self.identity)
    }

    /// Returns the serial number.
    pub fn serial(&self) -> u64 {
        self.identity.serial()
    }
}

/// Returns the last eight digits of a number.
fn decimal_text(number: u64) -> [u8; 8] {
    let mut text = 0;
    let mut rest = number;
    for _ in 0..8 {
        text = text >> 8 | (rest % 10 + 48) << 56;
        rest /= 10;
        if rest == 0 {
            break;
        }
    }
    u64::to_be_bytes(text)
}

impl PartialEq for Key {
    ghost eq = { on (λ key. key.folded) ◌==◌ };

    ghost laws = { Prim.search (comparing, rules) };

    fn eq(&self, other: &Key) -> bool {
        self.identity.count(Effect::EqKey);
        self.folded == other.folded
    }
}

impl Eq for Key {
    ghost laws = { Prim.search (comparing, rules) };
}

/// Keys that are not the same have no order.
impl PartialOrd for Key {
    ghost partial_cmp = { on (λ key. key.folded) same_cmp };

    ghost laws = { on_po (λ key. key.folded) same_cmp_partial_order };

    fn partial_cmp(&self, other: &Key) -> Option<Ordering> {
        self.identity.count(Effect::CmpKey);
        if self.folded == other.folded {
            Some(Ordering::Equal)
        } else {
            None
        }
    }
}

impl Hash for Key {
    ghost hash_input = { λ key. fed.u64 key.folded };

    ghost respects_eq = { Prim.search (hashing, rules) };

    fn hash<H: Hasher>(&self, state: &mut H) {
        self.identity.count(Effect::HashKey);
        state.write_u64(self.folded);
    }
}

/// The text alone.
impl fmt::Debug for Key {
    fn fmt<W: fmt::Write>(&self, f: &mut fmt::Formatter<W>) -> fmt::Result {
        write_text(self.text, f)
    }
}

/// Writes the bytes of a text that are not 0.
pub fn write_text<W: fmt::Write>(text: [u8; 8], f: &mut fmt::Formatter<W>) -> fmt::Result {
    for byte in text {
        if byte != 0 {
            write!(f, "{}", char::from(byte))?;
        }
    }
    Ok(())
}
