//! By what keys, values, hashers and closures are told apart.

use super::counts::{Effect, Shared, share};
use std::alloc::AllocError;

/// What is added to a serial number to give that of a copy.
const COPY: u64 = 4_294_967_296;

/// A serial number, and what counts the effects on its owner. One that is made by default counts
/// nothing, and its serial number is 0.
#[derive(Default)]
pub struct Identity {
    serial: u64,
    counts: Shared,
    dropped: Effect,
}

impl Identity {
    /// Makes one with the next serial number, whose drop has the effect.
    pub fn new(counts: &Shared, dropped: Effect) -> Identity {
        Identity {
            serial: match counts {
                Some(counts) => counts.next_serial(),
                None => 0,
            },
            counts: share(counts),
            dropped,
        }
    }

    /// Makes one with the next serial number.
    pub fn again(&self) -> Identity {
        Identity::new(&self.counts, self.dropped)
    }

    /// Makes that of a copy, which is not counted as a clone.
    pub fn copy(&self) -> Identity {
        let mut copy = self.same();
        copy.serial = self.serial.wrapping_add(COPY);
        copy
    }

    /// Makes one with the same serial number.
    pub fn same(&self) -> Identity {
        Identity {
            serial: self.serial,
            counts: share(&self.counts),
            dropped: self.dropped,
        }
    }

    /// Returns the serial number.
    pub fn serial(&self) -> u64 {
        self.serial
    }

    /// Does nothing. A closure that is called more than once calls it to own its identity.
    pub fn hold(&self) {}

    /// Counts an effect.
    pub fn count(&self, effect: Effect) {
        if let Some(counts) = &self.counts {
            counts.count(effect, self.serial);
        }
    }
}

impl Drop for Identity {
    fn drop(self) {
        self.count(self.dropped);
        let Identity {
            serial: _,
            counts,
            dropped: _,
        } = self;
        drop(counts);
    }
}

impl Clone for Identity {
    fn clone(&self) -> Result<Identity, AllocError> {
        self.count(match self.dropped {
            Effect::DropKey => Effect::CloneKey,
            Effect::DropValue => Effect::CloneValue,
            _ => Effect::CloneHasher,
        });
        match &self.counts {
            Some(counts) if counts.refuses_clone() => Err(AllocError),
            _ => Ok(self.copy()),
        }
    }
}
