//! Runs of commands, and the theorem about them.
//!
//! After any run the map has exactly the pairs that the log of the answers' effects defines, as in
//! `specs/Log.antt`; `specs/AllowedAnswers.antt` has the effects and the allowed answers.
//!
//! # Examples
//!
//! ```rust
//! use linked_hash_map::LinkedHashMap;
//! use linked_hash_map::replay::{Answer, Command, Reply, replay};
//!
//! let mut map = LinkedHashMap::new(rt.alloc());
//! let commands = Vec::from_array(rt.alloc(), [Command::Insert('x', 1), Command::PopFront])?;
//! let replies = replay(&mut map, commands)?;
//! let inserted = Reply { answer: Answer::New, len: 1, capacity: 1 };
//! let popped = Reply { answer: Answer::Pair('x', 1), len: 0, capacity: 1 };
//! assert_eq!(rt; replies.as_slice(), [inserted, popped].as_slice());
//! assert_eq!(rt; (map.len(), map.capacity()), (0, 1));
//! ```
ghost use Rattle.std.specs.Prelude.{◌≡◌, ℕ, [], length, IfOk, IfErr, OnErr, IsOk};
ghost use Rattle.linked_hash_map.specs.Log.{Log, mode, pairs, high, Defines};
ghost use Rattle.linked_hash_map.specs.Validity.{IsValid};
ghost use Rattle.linked_hash_map.specs.AllowedAnswers.{log_after};
ghost use Rattle.linked_hash_map.specs.Run.{first_log, last_log, MayEndVisit, Serves, IsReply, IsRun, Replayed};
ghost use Rattle.linked_hash_map.specs.Rehashes.{rechained_after, rechained_after_all};

use crate::entry::Entry;
use crate::error::{NoRoom, ReserveError};
use crate::map::{LinkedHashMap, Mode};
use std::hash::{BuildHasher, Hash};
use std::mem;

mod pair_list;

pub use pair_list::PairList;

/// A command to a map. Each variant names its call, whose cost it has, and its answers.
#[derive(Debug, PartialEq, Drop)]
pub enum Command<K, V> {
    /// `insert`: `New`, `Old` or `Refused`.
    Insert(K, V),
    /// Replaces a value through `get_mut`: `Old` or `Absent`.
    Write(K, V),
    /// `get_refresh`: `Found` or `Missing`.
    Refresh(K),
    /// `remove`: `Old` or `Missing`.
    Remove(K),
    /// `pop_front`: `Pair` or `Empty`.
    PopFront,
    /// `pop_back`: `Pair` or `Empty`.
    PopBack,
    /// `clear`: `Done`.
    Clear,
    /// `drain`: `Pairs`, or `NoRoom` if their list cannot be allocated.
    Drain,
    /// `insert` of each pair, up to the first refused: `Done` or `Stopped`.
    Extend(PairList<K, V>),
    /// `or_insert`: `New`, `Found` or `Refused`.
    OrInsert(K, V),
    /// `insert` of either kind of entry: `New`, `Old` or `Refused`.
    EntryInsert(K, V),
    /// `OccupiedEntry::remove`: `Old` or `Missing`.
    EntryRemove(K),
    /// `reserve`: `Done`, `TooLarge` or `NoRoom`.
    Reserve(usize),
    /// `shrink_to_fit`: `Done` or `NoRoom`.
    Shrink,
    /// `set_mode`: `Done`.
    SetMode(Mode),
}

/// The answer to a command. A failed command changes nothing, but a `Stopped` one keeps the pairs
/// inserted.
#[derive(Debug, PartialEq, Drop)]
pub enum Answer<K, V> {
    /// The key was absent, and its pair was inserted.
    New,
    /// The key was present, with this value.
    Old(V),
    /// The key was present.
    Found,
    /// The key is absent.
    Missing,
    /// The key is absent, and this was to be written.
    Absent(K, V),
    /// The key is absent, and this pair was refused.
    Refused(K, V),
    /// The pair removed, with its stored key.
    Pair(K, V),
    /// The map is empty.
    Empty,
    /// The pairs removed, front to back.
    Pairs(PairList<K, V>),
    /// How many pairs were inserted, and the one refused. Later pairs are dropped.
    Stopped(usize, K, V),
    /// The command was run.
    Done,
    /// The capacity would be above `LIMIT`.
    TooLarge,
    /// An allocation failed.
    NoRoom,
}

/// An answer, and the length and the capacity after it.
#[derive(Debug, PartialEq, Drop)]
pub struct Reply<K, V> {
    /// The answer.
    pub answer: Answer<K, V>,
    /// The number of pairs after the command.
    pub len: usize,
    /// The capacity after the command.
    pub capacity: usize,
}

// Each of these functions runs the command of its name.

fn insert<K: Eq + Hash + Drop, V: Drop, S: BuildHasher>(
    map: &mut LinkedHashMap<K, V, S>,
    key: K,
    value: V,
) -> Answer<K, V>
    ensures { Serves K.eq map.old map.new (Command.Insert key value) result }
{
    match map.insert(key, value) {
        Ok(None) => Answer::New,
        Ok(Some(old)) => Answer::Old(old),
        Err(refused) => Answer::Refused(refused.key, refused.value),
    }
}

fn write<K: Eq + Hash + Drop, V: Drop, S: BuildHasher>(
    map: &mut LinkedHashMap<K, V, S>,
    key: K,
    value: V,
) -> Answer<K, V>
    ensures { Serves K.eq map.old map.new (Command.Write key value) result }
{
    match map.get_mut(&key) {
        Some(old) => Answer::Old(mem::replace(old, value)),
        None => Answer::Absent(key, value),
    }
}

fn refresh<K: Eq + Hash + Drop, V: Drop, S: BuildHasher>(
    map: &mut LinkedHashMap<K, V, S>,
    key: K,
) -> Answer<K, V>
    ensures { Serves K.eq map.old map.new (Command.Refresh key) result }
{
    match map.get_refresh(&key) {
        Some(_) => Answer::Found,
        None => Answer::Missing,
    }
}

fn remove<K: Eq + Hash + Drop, V: Drop, S: BuildHasher>(
    map: &mut LinkedHashMap<K, V, S>,
    key: K,
) -> Answer<K, V>
    ensures { Serves K.eq map.old map.new (Command.Remove key) result }
{
    match map.remove(&key) {
        Some(old) => Answer::Old(old),
        None => Answer::Missing,
    }
}

fn pop_front<K: Eq + Hash + Drop, V: Drop, S: BuildHasher>(
    map: &mut LinkedHashMap<K, V, S>,
) -> Answer<K, V>
    ensures { Serves K.eq map.old map.new Command.PopFront result }
{
    match map.pop_front() {
        Some((key, value)) => Answer::Pair(key, value),
        None => Answer::Empty,
    }
}

fn pop_back<K: Eq + Hash + Drop, V: Drop, S: BuildHasher>(
    map: &mut LinkedHashMap<K, V, S>,
) -> Answer<K, V>
    ensures { Serves K.eq map.old map.new Command.PopBack result }
{
    match map.pop_back() {
        Some((key, value)) => Answer::Pair(key, value),
        None => Answer::Empty,
    }
}

fn clear<K: Eq + Hash + Drop, V: Drop, S: BuildHasher>(
    map: &mut LinkedHashMap<K, V, S>,
) -> Answer<K, V>
    ensures { Serves K.eq map.old map.new Command.Clear result }
{
    map.clear();
    Answer::Done
}

fn drain<K: Eq + Hash + Drop, V: Drop, S: BuildHasher>(
    map: &mut LinkedHashMap<K, V, S>,
) -> Answer<K, V>
    ensures { Serves K.eq map.old map.new Command.Drain result }
{
    let Ok(mut pairs) = Vec::with_capacity(map.allocator(), map.len()) else {
        return Answer::NoRoom;
    };
    for pair in map.drain() {
        pairs.push_reserved(pair);
    }
    Answer::Pairs(PairList::from_vec(pairs))
}

fn extend<K: Eq + Hash + Drop, V: Drop, S: BuildHasher>(
    map: &mut LinkedHashMap<K, V, S>,
    pairs: PairList<K, V>,
) -> Answer<K, V>
    ensures { Serves K.eq map.old map.new (Command.Extend pairs) result }
{
    let mut inserted = 0;
    for (key, value) in pairs.into_vec() {
        match map.insert(key, value) {
            Ok(old) => {
                drop(old);
                inserted += 1;
            }
            Err(refused) => return Answer::Stopped(inserted, refused.key, refused.value),
        }
    }
    Answer::Done
}

fn or_insert<K: Eq + Hash + Drop, V: Drop, S: BuildHasher>(
    map: &mut LinkedHashMap<K, V, S>,
    key: K,
    value: V,
) -> Answer<K, V>
    ensures { Serves K.eq map.old map.new (Command.OrInsert key value) result }
{
    let entry = map.entry(key);
    let present = matches!(&entry, Entry::Occupied(_));
    match entry.or_insert(value) {
        Ok(_lent) => { if present { Answer::Found } else { Answer::New } }
        Err(refused) => Answer::Refused(refused.key, refused.value),
    }
}

fn entry_insert<K: Eq + Hash + Drop, V: Drop, S: BuildHasher>(
    map: &mut LinkedHashMap<K, V, S>,
    key: K,
    value: V,
) -> Answer<K, V>
    ensures { Serves K.eq map.old map.new (Command.EntryInsert key value) result }
{
    match map.entry(key) {
        Entry::Occupied(mut entry) => Answer::Old(entry.insert(value)),
        Entry::Vacant(entry) => match entry.insert(value) {
            Ok(_lent) => Answer::New,
            Err(refused) => Answer::Refused(refused.key, refused.value),
        },
    }
}

fn entry_remove<K: Eq + Hash + Drop, V: Drop, S: BuildHasher>(
    map: &mut LinkedHashMap<K, V, S>,
    key: K,
) -> Answer<K, V>
    ensures { Serves K.eq map.old map.new (Command.EntryRemove key) result }
{
    match map.entry(key) {
        Entry::Occupied(entry) => Answer::Old(entry.remove()),
        Entry::Vacant(_entry) => Answer::Missing,
    }
}

fn reserve<K: Eq + Hash + Drop, V: Drop, S: BuildHasher>(
    map: &mut LinkedHashMap<K, V, S>,
    additional: usize,
) -> Answer<K, V>
    ensures { Serves K.eq map.old map.new (Command.Reserve additional) result }
{
    match map.reserve(additional) {
        Ok(()) => Answer::Done,
        Err(ReserveError::TooLarge) => Answer::TooLarge,
        Err(ReserveError::NoRoom) => Answer::NoRoom,
    }
}

fn shrink<K: Eq + Hash + Drop, V: Drop, S: BuildHasher>(
    map: &mut LinkedHashMap<K, V, S>,
) -> Answer<K, V>
    ensures { Serves K.eq map.old map.new Command.Shrink result }
{
    match map.shrink_to_fit() {
        Ok(()) => Answer::Done,
        Err(NoRoom) => Answer::NoRoom,
    }
}

fn set_mode<K: Eq + Hash + Drop, V: Drop, S: BuildHasher>(
    map: &mut LinkedHashMap<K, V, S>,
    mode: Mode,
) -> Answer<K, V>
    ensures { Serves K.eq map.old map.new (Command.SetMode mode) result }
{
    map.set_mode(mode);
    Answer::Done
}

/// Runs one command and returns its answer.
fn answer_to<K: Eq + Hash + Drop, V: Drop, S: BuildHasher>(
    map: &mut LinkedHashMap<K, V, S>,
    command: Command<K, V>,
) -> Answer<K, V>
    ensures { Serves K.eq map.old map.new command result }
{
    match command {
        Command::Insert(key, value) => insert(map, key, value),
        Command::Write(key, value) => write(map, key, value),
        Command::Refresh(key) => refresh(map, key),
        Command::Remove(key) => remove(map, key),
        Command::PopFront => pop_front(map),
        Command::PopBack => pop_back(map),
        Command::Clear => clear(map),
        Command::Drain => drain(map),
        Command::Extend(pairs) => extend(map, pairs),
        Command::OrInsert(key, value) => or_insert(map, key, value),
        Command::EntryInsert(key, value) => entry_insert(map, key, value),
        Command::EntryRemove(key) => entry_remove(map, key),
        Command::Reserve(additional) => reserve(map, additional),
        Command::Shrink => shrink(map),
        Command::SetMode(mode) => set_mode(map, mode),
    }
}

/// Runs one command and returns its reply.
fn reply_to<K: Eq + Hash + Drop, V: Drop, S: BuildHasher>(
    map: &mut LinkedHashMap<K, V, S>,
    command: Command<K, V>,
) -> Reply<K, V>
    ensures reply { (start : ℕ) (log : Log K V)
        → Defines K.eq start log map.old.pairs map.old.capacity map.old.mode
        → IsReply K.eq start log command result }
    ensures defines { (start : ℕ) (log : Log K V)
        → Defines K.eq start log map.old.pairs map.old.capacity map.old.mode
        → Defines K.eq start (log_after K.eq log command result.answer) map.new.pairs
        map.new.capacity map.new.mode }
    ensures hasher { map.new.hasher ≡ map.old.hasher }
    ensures rechained { map.new.rechained ≡ rechained_after command map.old.rechained
        (length map.old.pairs) map.old.capacity result.capacity }
    ensures len { result.len ≡ length map.new.pairs }
    ensures capacity { result.capacity ≡ map.new.capacity }
    ensures visit { MayEndVisit map.old map.new }
    ensures stays_valid { IsValid K.eq map.new }
{
    let answer = answer_to(map, command);
    Reply {
        answer,
        len: map.len(),
        capacity: map.capacity(),
    }
}

/// Runs the commands in order and returns one reply for each, at the cost of its call, hashing each
/// of its keys once. A refusal does not stop the run. A visit stays as it was, or ends.
///
/// The replies are allocated first: if that fails, the error is the commands, and none is run. An
/// empty list is never refused.
pub fn replay<K: Eq + Hash + Drop, V: Drop, S: BuildHasher>(
    map: &mut LinkedHashMap<K, V, S>,
    commands: Vec<Command<K, V>>,
) -> Result<Vec<Reply<K, V>>, Vec<Command<K, V>>>
    // One reply for each command, by the log that those before it left.
    ensures run { IfOk result (λ replies.
        IsRun K.eq map.old.capacity (first_log map.old.mode map.old.pairs)
        commands.items replies.items) }

    // The map at the end, by the last log.
    ensures pairs { IfOk result (λ replies.
        let last = last_log K.eq (first_log map.old.mode map.old.pairs)
        commands.items replies.items in
        map.new.pairs ≡ pairs K.eq last) }
    ensures capacity { IfOk result (λ replies.
        let last = last_log K.eq (first_log map.old.mode map.old.pairs)
        commands.items replies.items in
        map.new.capacity ≡ high K.eq map.old.capacity last) }
    ensures mode { IfOk result (λ replies.
        let last = last_log K.eq (first_log map.old.mode map.old.pairs)
        commands.items replies.items in
        map.new.mode ≡ mode last) }
    ensures hasher { map.new.hasher ≡ map.old.hasher }
    // The nodes that rehashes have moved, by the lengths and capacities of the replies.
    ensures rechained { IfOk result (λ replies. map.new.rechained
        ≡ rechained_after_all map.old.rechained (length map.old.pairs) map.old.capacity
        commands.items replies.items) }
    // A visit has ended, or the pairs that were left to visit are left.
    ensures visit { MayEndVisit map.old map.new }
    ensures valid { IsValid K.eq map.old }
    ensures stays_valid { IsValid K.eq map.new }
    // The clauses `run`, `pairs`, `capacity` and `mode` in one, for the proofs of callers.
    ensures replayed { IfOk result (λ replies.
        Replayed K.eq map.old commands.items replies.items map.new) }

    ensures handed_back { IfErr result (λ refused. refused ≡ commands) }
    ensures unchanged { OnErr result (map.new ≡ map.old) }
    ensures no_commands { commands.items ≡ [] → IsOk result }
{
    let Ok(mut replies) = Vec::with_capacity(map.allocator(), commands.len()) else {
        return Err(commands);
    };
    for command in commands {
        replies.push_reserved(reply_to(map, command));
    }
    Ok(replies)
}
