//! Runs of commands, and the theorem about them: after any run the cache has the last of the pairs
//! that the same commands with the same answers leave where no pair goes for another, as in
//! `specs/Unlimited.antt`.
//!
//! # Examples
//!
//! ```rust
//! use lru_cache::replay::{Answer, Command, replay};
//!
//! let mut cache = LruCache::new(rt.alloc(), 1);
//! let commands = [Command::Insert('x', 1), Command::Insert('y', 2), Command::RemoveLru];
//! let mut answers = replay(&mut cache, Vec::from_array(rt.alloc(), commands)?)?.into_iter();
//! assert_eq!(rt; answers.next(), Some(Answer::New));
//! assert_eq!(rt; answers.next(), Some(Answer::New));
//! assert_eq!(rt; answers.next(), Some(Answer::Pair('y', 2)));
//! ```
ghost use Rattle.std.specs.Prelude.{◌≡◌, [], IfOk, IfErr, OnErr, IsOk};
ghost use Rattle.lru_cache.specs.Runs.{Steps, Runs};
ghost use Rattle.lru_cache.specs.Unlimited.{HasNewest};

use crate::cache::LruCache;
use std::hash::{BuildHasher, Hash};

/// A command to a cache. Each variant names its call, whose cost it has, and its answers.
///
/// # Examples
///
/// ```rust
/// use lru_cache::replay::{Answer, Command, replay};
///
/// let mut cache: LruCache<char, u64> = LruCache::new(rt.alloc(), 1);
/// let commands = Vec::from_array(rt.alloc(), [Command::SetCapacity(2)])?;
/// for answer in replay(&mut cache, commands)? {
///     assert_eq!(rt; answer, Answer::Kept(0));
/// }
/// assert_eq!(rt; cache.capacity(), 2);
/// ```
#[derive(Debug, PartialEq, Drop)]
pub enum Command<K, V> {
    /// `insert`: `New`, `Old` or `Refused`.
    Insert(K, V),
    /// `get`: `Found` or `Missing`.
    Get(K),
    /// `remove`: `Old` or `Missing`.
    Remove(K),
    /// `remove_lru`: `Pair` or `Empty`.
    RemoveLru,
    /// `set_capacity`: `Kept`.
    SetCapacity(usize),
    /// `clear`: `Done`.
    Clear,
}

/// The answer to a command. A refused command changes nothing.
///
/// # Examples
///
/// ```rust
/// use lru_cache::replay::{Answer, Command, replay};
///
/// let mut cache: LruCache<char, u64> = LruCache::new(rt.alloc(), 1);
/// let commands = Vec::from_array(rt.alloc(), [Command::Get('x')])?;
/// for answer in replay(&mut cache, commands)? {
///     assert_eq!(rt; answer, Answer::Missing);
/// }
/// ```
#[derive(Debug, PartialEq, Drop)]
pub enum Answer<K, V> {
    /// The key was absent, and its pair was inserted.
    New,
    /// The key was present, with this value.
    Old(V),
    /// The key is absent, and this pair was refused.
    Refused(K, V),
    /// The key is present, and its pair was used.
    Found,
    /// The key is absent.
    Missing,
    /// The pair removed, with its stored key.
    Pair(K, V),
    /// The cache is empty.
    Empty,
    /// How many pairs are left.
    Kept(usize),
    /// The command was run.
    Done,
}

// Each of these functions runs the command of its name.

fn insert<K: Eq + Hash + Drop, V: Drop, S: BuildHasher>(
    cache: &mut LruCache<K, V, S>,
    key: K,
    value: V,
) -> Answer<K, V>
    ensures { Steps K.eq cache.old (Command.Insert key value) result cache.new }
{
    match cache.insert(key, value) {
        Ok(None) => Answer::New,
        Ok(Some(old)) => Answer::Old(old),
        Err(refused) => Answer::Refused(refused.key, refused.value),
    }
}

fn get<K: Eq + Hash + Drop, V: Drop, S: BuildHasher>(
    cache: &mut LruCache<K, V, S>,
    key: K,
) -> Answer<K, V>
    ensures { Steps K.eq cache.old (Command.Get key) result cache.new }
{
    if cache.contains_key(&key) {
        Answer::Found
    } else {
        Answer::Missing
    }
}

fn remove<K: Eq + Hash + Drop, V: Drop, S: BuildHasher>(
    cache: &mut LruCache<K, V, S>,
    key: K,
) -> Answer<K, V>
    ensures { Steps K.eq cache.old (Command.Remove key) result cache.new }
{
    match cache.remove(&key) {
        Some(old) => Answer::Old(old),
        None => Answer::Missing,
    }
}

fn remove_lru<K: Eq + Hash + Drop, V: Drop, S: BuildHasher>(
    cache: &mut LruCache<K, V, S>,
) -> Answer<K, V>
    ensures { Steps K.eq cache.old Command.RemoveLru result cache.new }
{
    match cache.remove_lru() {
        Some((key, value)) => Answer::Pair(key, value),
        None => Answer::Empty,
    }
}

fn set_capacity<K: Eq + Hash + Drop, V: Drop, S: BuildHasher>(
    cache: &mut LruCache<K, V, S>,
    capacity: usize,
) -> Answer<K, V>
    ensures { Steps K.eq cache.old (Command.SetCapacity capacity) result cache.new }
{
    cache.set_capacity(capacity);
    Answer::Kept(cache.len())
}

fn clear<K: Eq + Hash + Drop, V: Drop, S: BuildHasher>(
    cache: &mut LruCache<K, V, S>,
) -> Answer<K, V>
    ensures { Steps K.eq cache.old Command.Clear result cache.new }
{
    cache.clear();
    Answer::Done
}

fn answer_to<K: Eq + Hash + Drop, V: Drop, S: BuildHasher>(
    cache: &mut LruCache<K, V, S>,
    command: Command<K, V>,
) -> Answer<K, V>
    ensures { Steps K.eq cache.old command result cache.new }
{
    match command {
        Command::Insert(key, value) => insert(cache, key, value),
        Command::Get(key) => get(cache, key),
        Command::Remove(key) => remove(cache, key),
        Command::RemoveLru => remove_lru(cache),
        Command::SetCapacity(capacity) => set_capacity(cache, capacity),
        Command::Clear => clear(cache),
    }
}

/// Runs the commands in order and returns one answer for each, at the cost of its call. A refusal
/// does not stop the run.
///
/// The answers are allocated first: if that fails, the error is the commands, and none is run. An
/// empty list is never refused.
///
/// The unlimited list is what the commands leave where no pair goes for another: an insertion puts
/// its pair at the back, and so does a lookup that finds; a removal that finds takes its pair away;
/// a change of the limit begins anew with the pairs that it keeps. The pairs of the cache are
/// always the last of that list. If none was removed since the run began, the limit was changed or
/// the cache was cleared, they are the last `capacity` of it, or all. After a removal they may be
/// fewer, since a pair that went for another does not come back.
///
/// # Examples
///
/// ```rust
/// use lru_cache::replay::{Answer, Command, replay};
///
/// let mut cache = LruCache::new(rt.alloc(), 1);
/// let commands = [Command::Insert('x', 1), Command::Insert('y', 2), Command::Get('x')];
/// let mut answers = replay(&mut cache, Vec::from_array(rt.alloc(), commands)?)?.into_iter();
/// assert_eq!(rt; answers.next_back(), Some(Answer::Missing));
/// assert_eq!(rt; cache.peek(&'y'), Some(&2));
/// ```
pub fn replay<K: Eq + Hash + Drop, V: Drop, S: BuildHasher>(
    cache: &mut LruCache<K, V, S>,
    commands: Vec<Command<K, V>>,
) -> Result<Vec<Answer<K, V>>, Vec<Command<K, V>>>
    // One answer for each command, on the cache that those before it left.
    ensures run { IfOk result (λ answers.
        Runs K.eq cache.old commands.items answers.items cache.new) }
    // The cache at the end, by the log of the run.
    ensures newest { IfOk result (λ answers.
        HasNewest K.eq cache.old commands.items answers.items cache.new) }

    ensures handed_back { IfErr result (λ refused. refused ≡ commands) }
    ensures unchanged { OnErr result (cache.new ≡ cache.old) }
    ensures no_commands { commands.items ≡ [] → IsOk result }
{
    // Shows that the cache is valid.
    let _is_empty = cache.is_empty();
    let Ok(mut answers) = Vec::with_capacity(*commands.allocator(), commands.len()) else {
        return Err(commands);
    };
    for command in commands {
        answers.push_reserved(answer_to(cache, command));
    }
    Ok(answers)
}
