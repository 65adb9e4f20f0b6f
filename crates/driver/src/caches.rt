//! Calls of a cache.

use super::call::Call;
use super::hasher::BuildKeyHasher;
use super::iterators::{iterate_and_clone, iterate_and_write, iterate_to_the_end};
use super::key::Key;
use super::list::list;
use super::lookups::write_lent;
use super::retaining::{Calls, keep_and_increase};
use super::value::Value;
use super::{cache_fills, cache_replays};
use lru_cache::LruCache;

/// The caches that the lines speak of.
pub type Cache = LruCache<Key, Value, BuildKeyHasher>;

/// Makes a cache of one pair with the default hasher, inserts two pairs, and appends its text.
fn show_new(call: &Call) {
    let mut cache = LruCache::new(call.alloc, 1);
    let number = call.number();
    call.show_refusal(cache.insert(0, 0));
    call.show_refusal(cache.insert(number, 1));
    call.show(&cache);
}

/// Appends the pair that a put sent away, if one went, or what it handed back.
fn put(cache: &mut Cache, call: &Call) {
    match cache.put(call.key(), call.value()) {
        Ok(Some((key, value))) => call.show_gone_pair(&key, &value),
        Ok(None) => call.push_str("None "),
        Err(refused) => call.show_refused(refused),
    }
}

/// Keeps the pairs whose values are not a number modulo 7, and adds the number of the call to each.
fn retain(cache: &mut Cache, call: &Call) {
    let number = call.number();
    let guard = call.guard();
    let calls = Calls::new(call.counts());
    let noted = &calls;
    cache.retain(move |_key, value| {
        guard.hold();
        keep_and_increase(value, number, noted.note())
    });
    calls.show(call);
}

/// Adds a number to every value in place, in a loop over the cache.
fn add(cache: &mut Cache, number: u64) {
    for (_key, value) in cache {
        value.increase(number);
    }
}

/// Appends every pair, in a loop over the cache. Each step is within a window.
fn show_all(cache: &Cache, call: &Call) {
    for (key, value) in cache {
        call.show_pair(key, value);
        call.begin();
    }
}

/// Iterates over a clone that is taken.
fn into_iter(cache: &Cache, call: &Call) {
    match cache.clone() {
        Ok(copy) => iterate_to_the_end(copy.into_iter(), call),
        Err(refused) => call.show_refused(refused),
    }
}

/// Runs the call of a line that only reads a cache, and returns whether there is one.
fn read(call: &Call, cache: &Cache) -> bool {
    match call.name() {
        "peek" => call.show(&cache.peek(&call.key())),
        "peek_lru" => call.show_lent_pair(cache.peek_lru()),
        "peek_mru" => call.show_lent_pair(cache.peek_mru()),
        "len" => call.show_two(&cache.len(), &cache.is_empty()),
        "debug" => call.show_within(cache),
        "room" => call.show(&cache.room()),
        "iter" => iterate_and_clone(cache.iter(), call),
        "into_iter" => into_iter(cache, call),
        "loop" => show_all(cache, call),
        _ => return false,
    }
    true
}

/// Runs the call of a line by one pair, and returns whether there is one.
fn run_by_key(call: &Call, cache: &mut Cache) -> bool {
    match call.name() {
        "insert" => call.show_result(cache.insert(call.key(), call.value())),
        "put" => put(cache, call),
        "get_mut" => write_lent(cache.get_mut(&call.key()), call.value(), call),
        "peek_mut" => write_lent(cache.peek_mut(&call.key()), call.value(), call),
        "get" => call.show(&cache.get(&call.key())),
        "contains_key" => call.show(&cache.contains_key(&call.key())),
        "remove" => call.show(&cache.remove(&call.key())),
        "remove_entry" => call.show(&cache.remove_entry(&call.key())),
        "remove_lru" => call.show(&cache.remove_lru()),
        _ => return false,
    }
    true
}

/// Runs the call of a line on a whole cache, and returns whether there is one.
fn run_on_whole(call: &Call, cache: &mut Cache, other: &Cache) -> bool {
    match call.name() {
        "set_capacity" => cache.set_capacity(call.size()),
        "clear" => cache.clear(),
        "retain" => retain(cache, call),
        "reserve" => call.show_refusal(cache.reserve(call.size())),
        "iter_mut" => iterate_and_write(cache.iter_mut(), call),
        "drain" => iterate_to_the_end(cache.drain(), call),
        "loop_mut" => add(cache, call.number()),
        "new" => show_new(call),
        "with_hasher" => {
            let (hasher, limit) = (call.hasher(), call.size());
            call.replace(cache, Cache::with_hasher(call.alloc, limit, hasher));
        }
        "clone" => call.store(cache, other.clone()),
        "extend" => call.show_refusal(cache.extend(call.pairs())),
        "replay" => cache_replays::replay_all(cache, call),
        "fill" => cache_fills::fill(cache, call),
        "drop" => {
            let empty = Cache::with_hasher(call.alloc, 0, BuildKeyHasher::default());
            call.drop_and_replace(cache, empty);
        }
        _ => return false,
    }
    true
}

/// Runs the call of a line, appends what it returns, the limit and the list, and returns whether
/// there is such a call.
pub fn run(call: &Call, cache: &mut Cache, other: &Cache) -> bool {
    let is_known = read(call, cache) || run_by_key(call, cache) || run_on_whole(call, cache, other);
    if is_known {
        call.push_str("| ");
        call.show(&cache.capacity());
        call.push_str("|");
        list(cache.len(), cache.iter(), call);
    }
    is_known
}
