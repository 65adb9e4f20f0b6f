//! What the program writes, and when it counts.
//!
//! The effects of a call are counted within a window, which `begin` opens before the call. Each
//! function that appends closes it first, so what is appended is read and dropped outside of it.
ghost use Rattle.std.specs.Iterator.{IsFinite};

use super::Call;
use crate::key::Key;
use crate::marks;
use crate::marks::mark;
use crate::refusal::Refusal;
use crate::stop::Stop;
use crate::value::Value;
use std::fmt::{Debug, Display};
use std::mem;

/// How many bytes of the output are reserved at the begin of a line.
const LONGEST_LINE: usize = 262_144;

/// Closes the window, and appends a text.
macro_rules! append {
    ($output:expr, $($text:tt)+) => {
        $output.end();
        let mut text = $output.take();
        let written = write!(text, $($text)+);
        $output.put_back(text, written);
    };
}

impl Call {
    /// Returns the whole text, if it was given memory.
    pub fn finish(self) -> Result<String, Stop> {
        if self.is_out_of_memory.get() {
            Err(Stop::OutOfMemory)
        } else {
            Ok(self.take())
        }
    }

    /// Takes the text, and leaves an empty one in its place until it is put back.
    fn take(&self) -> String {
        self.text.replace(String::new(self.alloc))
    }

    /// Puts the text back, and notes whether what was appended was given memory.
    fn put_back<E: Drop>(&self, text: String, written: Result<(), E>) {
        self.text.set(text);
        self.note(written);
    }

    /// Notes whether the program itself was refused memory.
    pub fn note<T: Drop, E: Drop>(&self, made: Result<T, E>) {
        if made.is_err() {
            self.is_out_of_memory.set(true);
        }
    }

    /// Begins a line.
    pub fn begin_line(&self, line: &'static str) {
        self.read(line);
        self.counts.clear();
        let mut text = self.take();
        let reserved = text.reserve(LONGEST_LINE);
        self.put_back(text, reserved);
        mark(self.alloc, marks::LINE_BEGINS);
    }

    /// Ends a line with its effects.
    pub fn end_line(&self) {
        if self.counts.has_effects() {
            append!(self, ";{}", self.counts);
        }
        self.push_str("\n");
    }

    /// Opens a window, unless one is open.
    pub fn begin(&self) {
        if !self.counts.is_counting() {
            mark(self.alloc, marks::CALL_BEGINS);
            self.counts.set_counting(true);
        }
    }

    /// Closes the window, if one is open.
    pub fn end(&self) {
        if self.counts.is_counting() {
            self.counts.set_counting(false);
            mark(self.alloc, marks::CALL_ENDS);
        }
    }

    /// Drops an item within a window.
    pub fn drop_within<T: Drop>(&self, item: T) {
        self.begin();
        drop(item);
        self.end();
    }

    /// Appends a text as it is.
    pub fn push_str(&self, added: &str) {
        self.end();
        let mut text = self.take();
        let written = text.push_str(added);
        self.put_back(text, written);
    }

    /// Appends the debug text of an item, which is formatted within a window.
    pub fn show_within<T: Debug>(&self, item: &T) {
        let mut text = self.take();
        self.begin();
        let written = write!(text, "{item:?} ");
        self.end();
        self.put_back(text, written);
    }

    /// Appends the debug text of an item.
    pub fn show<T: Debug>(&self, item: &T) {
        append!(self, "{item:?} ");
    }

    /// Appends the debug texts of two items.
    pub fn show_two<T: Debug, U: Debug>(&self, first: &T, second: &U) {
        self.show(first);
        self.show(second);
    }

    /// Appends the debug text of each item. Each step is within a window, and the drop of the
    /// iterator too.
    pub fn show_all<T: Debug + Drop, I: Iterator<Item = T> + Drop>(&self, items: I)
        requires can { I.can_next items }
        requires ends { IsFinite (I.remaining items) }
    {
        for item in items {
            self.show(&item);
            self.begin();
        }
    }

    /// Appends the pair that a call lends, or that there is none.
    pub fn show_lent_pair(&self, pair: Option<(&Key, &Value)>) {
        match pair {
            Some((key, value)) => {
                append!(self, "Some(({key:?}, {value:?})) ");
            }
            None => self.push_str("None "),
        }
    }

    /// Appends a pair.
    pub fn show_pair(&self, key: &Key, value: &Value) {
        append!(self, "{key:?}={value:?} ");
    }

    /// Appends a key that a call handed out, or the given one if it handed that back.
    pub fn show_key(&self, returned: Result<Key, Key>) {
        let (name, key) = match returned {
            Ok(key) => ("Ok", key),
            Err(key) => ("Err", key),
        };
        let serial = key.serial();
        append!(self, "{name}({key:?} #{serial}) ");
    }

    /// Appends that the call of a number was refused.
    pub fn show_refused_number(&self, number: u64) {
        append!(self, "refused {number} ");
    }

    /// Appends the text of an item.
    pub fn show_text<T: Display>(&self, item: &T) {
        append!(self, "{item} ");
    }

    /// Appends the length and the capacity of a vector.
    pub fn show_size(&self, len: usize, capacity: usize) {
        append!(self, "{len}/{capacity} ");
    }

    /// Appends a pair that a refused call handed back.
    pub fn show_refused_pair(&self, key: &Key, value: &Value) {
        let (first, second) = (key.serial(), value.serial());
        append!(self, "refused {key:?}={value:?} #{first} #{second} ");
    }

    /// Appends an item with its serial number.
    pub fn show_numbered<T: Debug>(&self, item: &T, serial: u64) {
        append!(self, "{item:?} #{serial} ");
    }

    /// Appends a pair that a call sent away.
    pub fn show_gone_pair(&self, key: &Key, value: &Value) {
        let (first, second) = (key.serial(), value.serial());
        append!(self, "Some({key:?}={value:?} #{first} #{second}) ");
    }

    /// Appends how many things a call put in, or the number whose call was refused.
    pub fn show_filled(&self, is_given: bool, count: u64, number: u64) {
        if is_given {
            self.show(&count);
        } else {
            self.show_refused_number(number);
        }
    }

    /// Appends the debug text of an item of a list.
    pub fn list<T: Debug>(&self, item: &T) {
        append!(self, " {item:?}");
    }

    /// Appends a pair of a list.
    pub fn list_pair(&self, key: &Key, value: &Value) {
        append!(self, " {key:?}:{value:?}");
    }

    /// Appends a session, between two texts.
    pub fn show_session(&self, between: (&str, &str), id: u64, weight: u64, payload: &Value) {
        append!(self, "{}{id}:{weight}:{payload:?}{}", between.0, between.1);
    }

    /// Appends what a call returned, or what it handed back.
    pub fn show_result<T: Debug + Drop, E: Refusal + Drop>(&self, returned: Result<T, E>) {
        match returned {
            Ok(item) => self.show(&item),
            Err(refused) => self.show_refused(refused),
        }
    }

    /// Appends what a refused call handed back.
    pub fn show_refused<E: Refusal + Drop>(&self, refused: E) {
        self.end();
        refused.show(self);
    }

    /// Appends what a call handed back, if it was refused memory.
    pub fn show_refusal<T: Drop, E: Refusal + Drop>(&self, returned: Result<T, E>) {
        self.end();
        if let Err(refused) = returned {
            self.show_refused(refused);
        }
    }

    /// Stores what a call returned, or appends what it handed back.
    pub fn store<T: Drop, E: Refusal + Drop>(&self, place: &mut T, returned: Result<T, E>) {
        self.end();
        match returned {
            Ok(made) => *place = made,
            Err(refused) => self.show_refused(refused),
        }
    }

    /// Returns whether a call was given memory, and drops what it returned or handed back.
    pub fn is_given<T: Drop, E: Drop>(&self, returned: Result<T, E>) -> bool {
        self.end();
        returned.is_ok()
    }

    /// Stores what a call returned, if it was given memory, and returns whether it was.
    pub fn is_stored<T: Drop, E: Drop>(&self, place: &mut T, returned: Result<T, E>) -> bool {
        self.end();
        match returned {
            Ok(made) => {
                *place = made;
                true
            }
            Err(_refused) => false,
        }
    }

    /// Stores what a call returned, or writes to what it lent.
    pub fn replace<T: Drop>(&self, place: &mut T, made: T) {
        self.end();
        *place = made;
    }

    /// Drops what is at a place within a window, and leaves another there.
    pub fn drop_and_replace<T: Drop>(&self, place: &mut T, other: T) {
        self.drop_within(mem::replace(place, other));
    }
}
