//! Calls that go by an entry, and make an edit that a letter names.

use super::Map;
use super::call::Call;
use super::hasher::BuildKeyHasher;
use super::key::Key;
use super::refusal::Refusal;
use super::value::{Value, Values};
use linked_hash_map::{Entry, OccupiedEntry, Refused, VacantEntry};
use std::mem;

/// The entry of a present key.
pub type Occupied<'m> = OccupiedEntry<'m, Key, Value, BuildKeyHasher>;

type Vacant<'m> = VacantEntry<'m, Key, Value, BuildKeyHasher>;

/// A value that a call lends, if it was given memory.
pub type Lent<'m> = Result<&'m mut Value, Refused<Key, Value>>;

/// An edit: its letter, and what it takes.
#[derive(Drop)]
pub struct Edit {
    pub letter: u8,
    values: Values,
    key: &'static str,
}

impl Edit {
    /// Makes an edit of the first letter of a word, of a word of a key and of the next word as
    /// values.
    pub fn new(key: &'static str, letters: &str, call: &Call) -> Edit {
        let letter = match letters.as_bytes().first() {
            Some(byte) => *byte,
            None => 0,
        };
        Edit {
            letter,
            values: call.values(),
            key,
        }
    }

    /// Returns the next value.
    pub fn take(&mut self) -> Value {
        self.values.take()
    }

    /// Makes a key of the word.
    fn key(&self) -> Key {
        self.values.key(self.key)
    }
}

/// Makes an edit in place: writes the value at `w`, inserts one at `i`, or one and then 0 at `t`,
/// moves the pair to the back at `b` or to the front at `f`, or replaces the key at `p`.
pub fn edit_in_place(entry: &mut Occupied, edit: &mut Edit, call: &Call) {
    match edit.letter {
        b'w' => call.replace(entry.get_mut(), edit.take()),
        b'i' => call.show(&entry.insert(edit.take())),
        b't' => {
            let (value, zero) = (edit.take(), edit.values.zero());
            call.show(&entry.insert(value));
            call.begin();
            call.show(&entry.insert(zero));
        }
        b'b' => entry.move_to_back(),
        b'f' => entry.move_to_front(),
        b'p' => call.show_key(entry.replace_key(edit.key())),
        _ => {}
    }
}

/// Shows an entry that is bound to a name, and makes an edit by it: a removal at `r` or `e`, a
/// write to what the entry turns into at `m`, one in place, or at `o` none, and the entry is
/// forgotten.
macro_rules! edit_occupied {
    ($entry:ident, $edit:expr, $call:expr) => {
        $call.show_pair($entry.key(), $entry.get());
        $call.begin();
        match $edit.letter {
            b'r' => $call.show(&$entry.remove()),
            b'e' => $call.show(&$entry.remove_entry()),
            b'm' => {
                let value = $edit.take();
                let lent = $entry.into_mut();
                $call.end();
                *lent = value;
            }
            b'o' => mem::forget($entry),
            _ => {
                edit_in_place(&mut $entry, $edit, $call);
                $call.drop_within($entry);
            }
        }
        $call.end();
    };
}

pub(crate) use edit_occupied;

/// Appends a value that was inserted.
fn show_inserted(lent: &Lent, call: &Call) {
    match lent {
        Ok(lent) => call.show(lent),
        Err(refused) => refused.show(call),
    }
}

/// Writes to a value that was inserted.
fn write_inserted(lent: &mut Lent, value: Value, call: &Call) {
    call.end();
    match lent {
        Ok(lent) => **lent = value,
        Err(refused) => refused.show(call),
    }
}

/// Makes an edit by the entry of a key: at a vacant one an insertion at `i`, one of 0 that is then
/// written at `m`, at `o` it is forgotten, or none.
fn edit_by_entry(map: &mut Map, key: Key, edit: &mut Edit, call: &Call) {
    match map.entry(key) {
        Entry::Occupied(mut entry) => {
            edit_occupied!(entry, edit, call);
        }
        Entry::Vacant(entry) => {
            call.push_str("vacant ");
            call.show(entry.key());
            call.begin();
            match edit.letter {
                b'i' => show_inserted(&entry.insert(edit.take()), call),
                b'm' => {
                    let zero = edit.values.zero();
                    write_inserted(&mut entry.insert(zero), edit.take(), call);
                }
                b'o' => mem::forget(entry),
                _ => call.drop_within(entry),
            }
            call.end();
        }
    }
}

/// Makes an edit by the entry of a key.
pub fn edit_entry(map: &mut Map, call: &Call) {
    let word = call.word();
    let key = call.key_of(word);
    let mut edit = Edit::new(word, call.word(), call);
    edit_by_entry(map, key, &mut edit, call);
}

/// Replaces the key of a present entry by another.
pub fn replace_entry_key(map: &mut Map, call: &Call) {
    let (key, other) = (call.key(), call.key());
    match map.entry(key) {
        Entry::Occupied(mut entry) => call.show_key(entry.replace_key(other)),
        Entry::Vacant(entry) => {
            call.drop_within(entry);
            call.push_str("absent ");
        }
    }
}
