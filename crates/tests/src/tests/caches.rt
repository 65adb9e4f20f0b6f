//! Caches and a set of keys that own their texts, and a cache with a random hasher.

use super::support::checks::{check, check_eq, given};
use linked_hash_set::LinkedHashSet;
use lru_cache::LruCache;
use std::alloc::Global;
use std::hash::RandomState;
use std::process::Abort;

/// Inserts a text.
fn insert(
    rt: &impl Abort,
    alloc: Global,
    cache: &mut LruCache<String, u64>,
    key: &str,
    value: u64,
) {
    let key = given!(rt; String::from_str(alloc, key));
    check_eq!(rt; cache.insert(key, value).is_ok(), true);
}

#[test]
fn looks_up_strings_by_a_borrowed_text(rt: HostRuntime) {
    let mut cache = LruCache::new(rt.alloc(), 2);
    insert(&rt, rt.alloc(), &mut cache, "tea", 1);
    insert(&rt, rt.alloc(), &mut cache, "milk", 2);
    check!(rt; cache.contains_key("tea"));
    check_eq!(rt; cache.get("milk").copied(), Some(2));
    check_eq!(rt; cache.get_mut("tea").copied(), Some(1));
    check_eq!(rt; cache.peek("jam"), None);
    check_eq!(rt; cache.peek_mut("milk").copied(), Some(2));
    insert(&rt, rt.alloc(), &mut cache, "jam", 3);
    check_eq!(rt; (cache.remove("milk"), cache.remove("tea")), (None, Some(1)));
}

#[test]
fn takes_a_hasher(rt: HostRuntime) {
    let builder = given!(rt; RandomState::new(&rt));
    let mut cache = LruCache::with_hasher(rt.alloc(), 1, builder);
    check_eq!(rt; cache.insert(1, 10), Ok(None));
    check_eq!(rt; cache.insert(2, 20), Ok(None));
    check_eq!(rt; (cache.peek(&1), cache.peek(&2)), (None, Some(&20)));
}

/// Makes a set of texts.
fn texts_of(rt: &impl Abort, alloc: Global, texts: [&str; 3]) -> LinkedHashSet<String> {
    let mut set = LinkedHashSet::new(alloc);
    for text in texts {
        given!(rt; set.insert(given!(rt; String::from_str(alloc, text))));
    }
    set
}

#[test]
fn finds_texts_by_slices(rt: HostRuntime) {
    let mut set = texts_of(&rt, rt.alloc(), ["one", "two", "three"]);
    check_eq!(rt; (set.contains("two"), set.contains("four")), (true, false));
    check_eq!(rt; set.get("two").map(|text| text.as_str()), Some("two"));
    check_eq!(rt; (set.to_front("three"), set.to_back("one")), (true, true));
    check_eq!(rt; (set.refresh("two"), set.remove("one"), set.remove("one")), (true, true, false));
    check_eq!(rt; set.front().map(|text| text.as_str()), Some("three"));
    check!(rt; set.take("three").is_some());
    check_eq!(rt; set.pop_back().map(|text| text.len()), Some(3));
    check!(rt; set.is_empty());
}
