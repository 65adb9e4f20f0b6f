//! Texts into writers that fail, of maps, caches, sets and errors, and the debug text of a map of
//! many pairs.

use super::map_of;
use super::support::calls::check_insert;
use super::support::checks::{check, check_eq, given};
use linked_hash_map::replay::{Answer, Command, PairList};
use linked_hash_map::{LinkedHashMap, NoRoom, Refused, ReserveError};
use linked_hash_set::LinkedHashSet;
use lru_cache::LruCache;
use std::alloc::Global;
use std::fmt;
use std::fmt::{Debug, Display, Write};
use std::process::Abort;

/// The call at which a writer that works fails.
const NEVER: usize = 0;

/// A writer that counts its calls, keeps no text, and fails at one call.
#[derive(Drop)]
struct Failing {
    calls: usize,
    fails_at: usize,
}

impl Write for Failing {
    fn write_str(&mut self, _text: &str) -> fmt::Result {
        self.calls = self.calls.saturating_add(1);
        if self.calls == self.fails_at {
            return Err(fmt::Error);
        }
        Ok(())
    }
}

/// What a value is written as.
#[derive(Clone, Copy)]
enum Form {
    Short,
    Long,
}

/// Writes the debug text of a value into a writer that fails at a call. Returns whether that
/// failed, and how many calls the writer had.
fn debugged<T: Debug>(value: &T, form: Form, fails_at: usize) -> (bool, usize) {
    let mut writer = Failing { calls: 0, fails_at };
    let written = match form {
        Form::Short => write!(writer, "{value:?}"),
        Form::Long => write!(writer, "{value:#?}"),
    };
    (written.is_err(), writer.calls)
}

/// Checks that a debug text fails at each call at which its writer fails, which is its last.
fn assert_fails_at_each_call<T: Debug>(rt: &impl Abort, value: &T, form: Form) {
    let (failed, calls) = debugged(value, form, NEVER);
    check_eq!(rt; (failed, 0 < calls), (false, true));
    for fails_at in 1..=calls {
        check_eq!(rt; (fails_at, debugged(value, form, fails_at)), (fails_at, (true, fails_at)));
    }
}

/// Does so for both debug texts.
fn assert_fails<T: Debug>(rt: &impl Abort, value: &T) {
    assert_fails_at_each_call(rt, value, Form::Short);
    assert_fails_at_each_call(rt, value, Form::Long);
}

/// Writes the text of an error into a writer that fails at a call. Returns whether that failed, and
/// how many calls the writer had.
fn displayed<E: Display>(error: &E, fails_at: usize) -> (bool, usize) {
    let mut writer = Failing { calls: 0, fails_at };
    (write!(writer, "{error}").is_err(), writer.calls)
}

/// Checks that the text of an error fails at each call at which its writer fails, which is its
/// last.
fn assert_error_fails<E: Display>(rt: &impl Abort, error: &E) {
    let (failed, calls) = displayed(error, NEVER);
    check_eq!(rt; (failed, 0 < calls), (false, true));
    for fails_at in 1..=calls {
        check_eq!(rt; (fails_at, displayed(error, fails_at)), (fails_at, (true, fails_at)));
    }
}

#[test]
fn fails_where_a_writer_fails(rt: HostRuntime) {
    let map = map_of(&rt, rt.alloc(), &[(1, 10), (2, 20), (3, 30)]);
    assert_fails(&rt, &map);
    assert_fails(&rt, &map_of(&rt, rt.alloc(), &[]));
    let refused = Refused { key: 1, value: 2 };
    assert_fails(&rt, &refused);
    assert_error_fails(&rt, &refused);
    assert_error_fails(&rt, &NoRoom);
    assert_error_fails(&rt, &ReserveError::TooLarge);
    assert_error_fails(&rt, &ReserveError::NoRoom);
    assert_lists_fail(&rt, rt.alloc());
}

/// Checks the same of an answer and a command with a list of pairs.
fn assert_lists_fail(rt: &impl Abort, alloc: Global) {
    let answered = PairList::from_vec(given!(rt; vec![in alloc; (1u64, 10u64), (2, 20)]));
    assert_fails(rt, &Answer::Pairs(answered));
    let extended = PairList::from_vec(given!(rt; vec![in alloc; (1u64, 10u64), (2, 20)]));
    assert_fails(rt, &Command::Extend(extended));
}

/// Makes a cache of three pairs.
fn cache_of_three(rt: &impl Abort, alloc: Global) -> LruCache<u64, u64> {
    let mut cache = LruCache::new(alloc, 3);
    check_eq!(rt; cache.extend([(1, 10), (2, 20), (3, 30)]), Ok(()));
    cache
}

/// Makes a set of three items.
fn set_of_three(rt: &impl Abort, alloc: Global) -> LinkedHashSet<u64> {
    let mut set = LinkedHashSet::new(alloc);
    check_eq!(rt; set.extend([1, 2, 3]), Ok(()));
    set
}

#[test]
fn caches_and_sets_fail_where_a_writer_fails(rt: HostRuntime) {
    assert_fails(&rt, &cache_of_three(&rt, rt.alloc()));
    assert_fails(&rt, &set_of_three(&rt, rt.alloc()));
    let refused = linked_hash_set::Refused { item: 1 };
    assert_fails(&rt, &refused);
    assert_error_fails(&rt, &refused);
}

/// How many pairs the map of a long text has.
const MANY: u64 = 10_001;

/// Inserts the keys below `MANY`, each with itself as its value.
fn insert_many(rt: &impl Abort, map: &mut LinkedHashMap<u64, u64>) {
    for key in 0..MANY {
        check_insert(rt, map, key, key, None);
    }
}

/// Makes the debug text of the map that `insert_many` leaves.
fn text_of_many(rt: &impl Abort, alloc: Global) -> String {
    let mut text = given!(rt; format!(in alloc; "{{0: 0"));
    for key in 1..MANY {
        given!(rt; write!(text, ", {key}: {key}"));
    }
    given!(rt; text.push('}'));
    text
}

/// Checks the debug text of the map that `insert_many` leaves.
fn assert_text_of_many(rt: &impl Abort, alloc: Global, map: &LinkedHashMap<u64, u64>) {
    let text = given!(rt; format!(in alloc; "{map:?}"));
    let wanted = text_of_many(rt, alloc);
    check!(rt; text.as_str() == wanted.as_str());
}

/// Checks that the debug text of the map that `insert_many` leaves fails at the last call of its
/// writer, if that fails, and at one half-way.
fn assert_many_fail(rt: &impl Abort, map: &LinkedHashMap<u64, u64>) {
    let (failed, calls) = debugged(map, Form::Short, NEVER);
    // At least a call for each pair.
    check_eq!(rt; (failed, 10_001 <= calls), (false, true));
    check_eq!(rt; debugged(map, Form::Short, calls / 2), (true, calls / 2));
    check_eq!(rt; debugged(map, Form::Short, calls), (true, calls));
}

#[test]
fn shows_ten_thousand_and_one_pairs(rt: HostRuntime) {
    let mut map = LinkedHashMap::new(rt.alloc());
    insert_many(&rt, &mut map);
    assert_text_of_many(&rt, rt.alloc(), &map);
    assert_many_fail(&rt, &map);
}
