//! The effects of a line: what its calls drop, and how often they hash, compare and clone.

use std::cell::Cell;
use std::fmt;
use std::rc::Rc;

/// What is counted: first the drops, of which the serial numbers are summed too.
#[derive(Clone, Copy, Default)]
pub enum Effect {
    #[default]
    DropKey,
    DropValue,
    DropHasher,
    DropClosure,
    HashKey,
    EqKey,
    EqValue,
    CmpKey,
    CmpValue,
    CloneKey,
    CloneValue,
    CloneHasher,
    BuildHasher,
    HashValue,
}

/// The name of each effect.
const NAMES: [&str; 14] = [
    "drop-keys",
    "drop-values",
    "drop-hashers",
    "drop-closures",
    "hash-keys",
    "eq-keys",
    "eq-values",
    "cmp-keys",
    "cmp-values",
    "clone-keys",
    "clone-values",
    "clone-hashers",
    "build-hashers",
    "hash-values",
];

/// The effects of a line, which are counted only while a window is open, and the last serial
/// number of the run.
#[derive(Drop)]
pub struct Counts {
    is_counting: Cell<bool>,
    has_effects: Cell<bool>,
    last_serial: Cell<u64>,
    /// The number of the clone to refuse, 1 for the next, or 0 for none.
    refused_clone: Cell<u64>,
    /// How often each effect was, and of the drops the sum of the serial numbers modulo 2^64.
    counts: Cell<[u64; 14]>,
    sums: Cell<[u64; 4]>,
}

/// Counts that keys, values and hashers share, or none.
pub type Shared = Option<Rc<Counts>>;

/// Shares counts once more.
pub fn share(counts: &Shared) -> Shared {
    match counts {
        Some(counts) => Rc::clone(counts).ok(),
        None => None,
    }
}

/// Adds to a number of an array, modulo 2^64, if there is one at the place.
fn add<const N: usize>(numbers: &Cell<[u64; N]>, place: usize, number: u64) {
    let mut changed = numbers.get();
    if let Some(found) = changed.get_mut(place) {
        *found = found.wrapping_add(number);
    }
    numbers.set(changed);
}

impl Counts {
    /// Makes counts that have seen nothing.
    pub fn new() -> Counts {
        Counts {
            is_counting: Cell::new(false),
            has_effects: Cell::new(false),
            last_serial: Cell::new(0),
            refused_clone: Cell::new(0),
            counts: Cell::new([0; 14]),
            sums: Cell::new([0; 4]),
        }
    }

    /// Returns whether a window is open.
    pub fn is_counting(&self) -> bool {
        self.is_counting.get()
    }

    /// Begins to count, or stops.
    pub fn set_counting(&self, is_counting: bool) {
        self.is_counting.set(is_counting);
    }

    /// Returns whether the line has an effect.
    pub fn has_effects(&self) -> bool {
        self.has_effects.get()
    }

    /// Returns the next serial number, the first of which is 1.
    pub fn next_serial(&self) -> u64 {
        self.last_serial.set(self.last_serial.get().wrapping_add(1));
        self.last_serial.get()
    }

    /// Sets which of the clones from here on is refused, or by 0 that none is.
    pub fn set_refused_clone(&self, number: u64) {
        self.refused_clone.set(number);
    }

    /// Returns whether a clone is to be refused. Called once for each, counts it if a window is
    /// open.
    pub fn refuses_clone(&self) -> bool {
        let left = self.refused_clone.get();
        if left == 0 || !self.is_counting() {
            return false;
        }
        self.refused_clone.set(left - 1);
        left == 1
    }

    /// Returns how many keys and values the line has dropped so far.
    pub fn dropped(&self) -> u64 {
        let counts = self.counts.get();
        counts[0].wrapping_add(counts[1])
    }

    /// Counts an effect on what has a serial number, if a window is open.
    pub fn count(&self, effect: Effect, serial: u64) {
        if self.is_counting() {
            self.has_effects.set(true);
            add(&self.counts, effect as usize, 1);
            add(&self.sums, effect as usize, serial);
        }
    }

    /// Begins anew at the effects of a line. The serial numbers go on.
    pub fn clear(&self) {
        self.has_effects.set(false);
        self.counts.set([0; 14]);
        self.sums.set([0; 4]);
    }
}

/// Each effect that is not 0, after a blank.
impl fmt::Display for Counts {
    fn fmt<W: fmt::Write>(&self, f: &mut fmt::Formatter<W>) -> fmt::Result {
        let (counts, sums) = (self.counts.get(), self.sums.get());
        let mut sums = sums.iter();
        for (name, count) in NAMES.iter().zip(counts.iter()) {
            let sum = sums.next();
            if *count != 0 {
                write!(f, " {name} {count}")?;
                if let Some(sum) = sum {
                    write!(f, ":{sum}")?;
                }
            }
        }
        Ok(())
    }
}
