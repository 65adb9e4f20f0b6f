//! The call of a line: its words, and what the program writes.

mod output;

use super::counts::{Counts, Effect, Shared, share};
use super::hasher::{BuildKeyHasher, Choice};
use super::identity::Identity;
use super::key::Key;
use super::value::{Value, Values};
use std::alloc::Global;
use std::cell::Cell;
use std::rc::Rc;
use std::str::SplitWhitespace;

/// The name of a call, the words of its line that are left, and the text of the output. A word that
/// is missing is empty, and one that is no number is 0. Each key, value and hasher that is made of a
/// word has the next serial number.
#[derive(Drop)]
pub struct Call {
    pub alloc: Global,
    name: Cell<&'static str>,
    words: Cell<SplitWhitespace<'static>>,
    text: Cell<String>,
    is_out_of_memory: Cell<bool>,
    counts: Rc<Counts>,
    shared: Shared,
}

impl Call {
    /// Begins before the first line, with an empty output.
    pub fn new(alloc: Global, counts: Rc<Counts>) -> Call {
        Call {
            alloc,
            name: Cell::new(""),
            words: Cell::new("".split_whitespace()),
            text: Cell::new(String::new(alloc)),
            is_out_of_memory: Cell::new(false),
            shared: Rc::clone(&counts).ok(),
            counts,
        }
    }

    /// Takes the words of the next line, the first of which is the name.
    fn read(&self, line: &'static str) {
        self.words.set(line.split_whitespace());
        self.name.set(self.word());
    }

    /// Returns the name of the call.
    pub fn name(&self) -> &'static str {
        self.name.get()
    }

    /// Returns whether the name begins with a prefix, and takes it off.
    pub fn strip_prefix(&self, prefix: &str) -> bool {
        match self.name().strip_prefix(prefix) {
            Some(name) => {
                self.name.set(name);
                true
            }
            None => false,
        }
    }

    /// Takes the words that are left.
    fn rest(&self) -> SplitWhitespace<'static> {
        self.words.replace("".split_whitespace())
    }

    /// Returns the next word.
    pub fn word(&self) -> &'static str {
        let mut words = self.rest();
        let word = words.next().unwrap_or("");
        self.words.set(words);
        word
    }

    /// Makes a key of a word.
    pub fn key_of(&self, word: &str) -> Key {
        Key::new(word, &self.shared)
    }

    /// Returns the next word as a key.
    pub fn key(&self) -> Key {
        Key::new(self.word(), &self.shared)
    }

    /// Returns the next word as a value.
    pub fn value(&self) -> Value {
        Value::new(self.number(), &self.shared)
    }

    /// Returns the next word as the values of a call that is made more than once.
    pub fn values(&self) -> Values {
        Values::new(self.value(), &self.shared)
    }

    /// Returns the hasher that the next word names.
    pub fn hasher(&self) -> BuildKeyHasher {
        BuildKeyHasher::new(Choice::named(self.word()), &self.shared)
    }

    /// Returns how many words are left.
    pub fn words_left(&self) -> usize {
        let words = self.rest();
        let count = match words.clone() {
            Ok(words) => words.count(),
            Err(_) => 0,
        };
        self.words.set(words);
        count
    }

    /// Returns the counts.
    pub fn counts(&self) -> &Shared {
        &self.shared
    }

    /// Sets which of the clones from here on is refused, by the next word, or by 0 that none is.
    pub fn refuse_clone(&self) {
        self.counts.set_refused_clone(self.number());
    }

    /// Makes what a closure owns, so that its drop is counted.
    pub fn guard(&self) -> Identity {
        Identity::new(&self.shared, Effect::DropClosure)
    }

    /// Makes a value of the number 0.
    pub fn zero(&self) -> Value {
        Value::new(0, &self.shared)
    }

    /// Returns the next word as a number.
    pub fn number(&self) -> u64 {
        number_of(self.word())
    }

    /// Returns the next word as a size.
    pub fn size(&self) -> usize {
        self.number() as usize
    }

    /// Takes the words that are left as keys.
    pub fn keys(&self) -> Keys {
        Keys {
            words: self.rest(),
            counts: share(&self.shared),
        }
    }

    /// Takes the words that are left as pairs of a key and a value.
    pub fn pairs(&self) -> Pairs {
        Pairs {
            words: self.rest(),
            counts: share(&self.shared),
        }
    }
}

/// Returns the number that a word is, or 0.
fn number_of(word: &str) -> u64 {
    match word.parse::<u64>() {
        Ok(number) => number,
        Err(_) => 0,
    }
}

/// Words as keys, each of which is made when it is taken.
#[derive(Drop)]
pub struct Keys {
    words: SplitWhitespace<'static>,
    counts: Shared,
}

impl Iterator for Keys {
    type Item = Key;

    ghost can_next = { λ keys. ⟦<SplitWhitespace<'static> as Iterator>⟧.can_next keys.words };

    ghost remaining = { λ keys. ⟦<SplitWhitespace<'static> as Iterator>⟧.remaining keys.words };

    fn next(&mut self) -> Option<Key> {
        let word = self.words.next()?;
        Some(Key::new(word, &self.counts))
    }
}

/// Words as pairs, each of which is made when it is taken.
#[derive(Drop)]
pub struct Pairs {
    words: SplitWhitespace<'static>,
    counts: Shared,
}

impl Iterator for Pairs {
    type Item = (Key, Value);

    ghost can_next = { λ pairs. ⟦<SplitWhitespace<'static> as Iterator>⟧.can_next pairs.words };

    ghost remaining = { λ pairs. ⟦<SplitWhitespace<'static> as Iterator>⟧.remaining pairs.words };

    fn next(&mut self) -> Option<(Key, Value)> {
        let key = Key::new(self.words.next()?, &self.counts);
        let number = match self.words.next() {
            Some(word) => number_of(word),
            None => 0,
        };
        Some((key, Value::new(number, &self.counts)))
    }
}
