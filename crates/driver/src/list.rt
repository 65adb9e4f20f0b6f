//! The lists of maps, caches, sets and tables, at the end of each line of the output.
ghost use Rattle.std.specs.Iterator.{IsFinite};

use super::call::Call;
use super::key::Key;
use super::value::Value;

/// The longest list that is shown whole.
pub const SHOWN: usize = 100;

/// An item of a list.
pub trait Listed {
    /// Appends it.
    fn list(&self, call: &Call);

    /// Returns what it adds to a digest, before its place.
    fn mixed(&self) -> u64;
}

impl<'m> Listed for &'m Key {
    fn list(&self, call: &Call) {
        call.list(*self);
    }

    fn mixed(&self) -> u64 {
        self.number()
    }
}

impl<'m> Listed for (&'m Key, &'m Value) {
    fn list(&self, call: &Call) {
        call.list_pair(self.0, self.1);
    }

    fn mixed(&self) -> u64 {
        self.0.number() ^ spread(self.1.number())
    }
}

impl<'m> Listed for &'m (Key, Value) {
    fn list(&self, call: &Call) {
        (&self.0, &self.1).list(call);
    }

    fn mixed(&self) -> u64 {
        (&self.0, &self.1).mixed()
    }
}

/// A session: its id, its weight and its payload.
impl<'m> Listed for (u64, u64, &'m Value) {
    fn list(&self, call: &Call) {
        call.show_session((" ", ""), self.0, self.1, self.2);
    }

    fn mixed(&self) -> u64 {
        self.0 ^ spread(self.1) ^ self.2.number()
    }
}

/// Returns a number times an odd number that spreads its bits.
fn spread(number: u64) -> u64 {
    number.wrapping_mul(1_099_511_628_211)
}

/// The sum of what the items of a list are mixed to, each times its place, which counts from 1.
#[derive(Clone, Copy, Default)]
pub struct Digest {
    pub sum: u64,
    place: u64,
}

impl Digest {
    /// Adds the next item.
    pub fn add<T: Listed>(&mut self, item: &T) {
        self.place = self.place.wrapping_add(1);
        self.sum = self.sum.wrapping_add(self.place.wrapping_mul(item.mixed()));
    }
}

/// Appends the first item, the last and a digest.
fn list_ends<T: Listed + Copy, I: Iterator<Item = T> + Drop>(items: I, call: &Call)
    requires can { I.can_next items }
    requires ends { IsFinite (I.remaining items) }
{
    let mut digest = Digest::default();
    let mut last = None;
    for item in items {
        if last.is_none() {
            item.list(call);
        }
        digest.add(&item);
        last = Some(item);
    }
    if let Some(last) = last {
        last.list(call);
    }
    call.list(&digest.sum);
}

/// Appends how many items there are and each in order, or if they are many, the first, the last and
/// a digest.
pub fn list<T: Listed + Copy, I: Iterator<Item = T> + Drop>(len: usize, items: I, call: &Call)
    requires can { I.can_next items }
    requires ends { IsFinite (I.remaining items) }
{
    call.list(&len);
    if len > SHOWN {
        return list_ends(items, call);
    }
    for item in items {
        item.list(call);
    }
}
