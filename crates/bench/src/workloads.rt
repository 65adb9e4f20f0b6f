//! The workloads: what is done with a map, a cache or a set of `n` pairs or items, once.
ghost use Rattle.std.specs.Prelude.{◌<◌};

use super::calls::other_calls;
use super::changes::{
    Counts, empty_refill, entry_new, entry_present, extend, retain_half, with_capacity,
};
use super::documents::{self, Document, documents, read};
use super::maps::{
    Map, fill, get_hit, get_miss, get_refresh, insert_present, iterate, lru_cycle, remove_reinsert,
    write_all,
};
use super::moves::{ends, fall, iter_from, move_beside, sort, sort_cached, unsort};
use super::nested;
use super::order::Order;
use super::products::{
    Cache, CacheMap, Set, SetMap, cache_hit, cache_map_hit, fill_cache, fill_cache_map, fill_set,
    fill_set_map, set_contains, set_iterate, set_map_contains, set_map_iterate,
};
use super::small::{self, MAPS, MOST_PAIRS};
use super::texts::{self, TextMap, draw_texts, fill_texts, texts_from};
use linked_hash_map::LinkedHashMap;
use linked_hash_set::LinkedHashSet;
use lru_cache::LruCache;
use std::alloc::{AllocError, Global};

/// A workload. Each that makes nothing new is done on what those before it have left.
#[derive(Clone, Copy, Debug, PartialEq)]
pub enum Workload {
    /// Fills many new maps of `n` pairs, one pair at a time, and drops them.
    SmallFill,
    /// Looks up each key of many maps.
    SmallLookup,
    /// Goes over the pairs of many maps.
    SmallIterate,
    /// Fills a new map, one pair at a time, and drops it.
    InsertNew,
    /// Looks up each key.
    GetHit,
    /// Looks up as many keys that are absent.
    GetMiss,
    /// Goes over the pairs.
    Iterate,
    /// Moves each pair to the back by its key.
    GetRefresh,
    /// Inserts each key again.
    InsertPresent,
    /// Takes out the oldest pair and inserts another key, as often as there are pairs.
    LruCycle,
    /// Lists the keys, and removes and inserts each.
    RemoveReinsert,
    /// Makes a clone and drops it.
    Clone,
    /// Writes each value: a loop over `iter_mut`.
    WriteAll,
    /// Fills a new cache of half as many pairs, one pair at a time, and drops it.
    CacheInsert,
    /// Uses each pair of a cache by its key.
    CacheHit,
    /// Fills a new set, one item at a time, and drops it.
    SetInsert,
    /// Looks up each item of a set.
    SetContains,
    /// Goes over the items of a set.
    SetIterate,
    /// These, by a map.
    CacheInsertByMap,
    CacheHitByMap,
    SetInsertByMap,
    SetContainsByMap,
    SetIterateByMap,
    /// Moves the pair of each key right before that of another.
    MoveBeside,
    /// Goes over ten pairs from each key on.
    IterFrom,
    /// Sorts the pairs by their keys.
    Sort,
    /// Sorts the pairs by their keys, which it copies first.
    SortCached,
    /// Sorts pairs whose keys fall.
    SortFalling,
    /// Sorts pairs that are sorted.
    SortSorted,
    /// Inserts each of as many absent keys at the front, rotates the pairs and removes it.
    Ends,
    /// Fills a new map by its entries, and drops it.
    EntryNew,
    /// Changes the value of each key by its entry.
    EntryPresent,
    /// Keeps the pairs with an even key.
    RetainHalf,
    /// Removes all pairs by their keys, in order, and inserts them again.
    EmptyRefill,
    /// Extends a new map by all pairs, and drops it.
    Extend,
    /// Fills a new map that has the capacity, and drops it.
    WithCapacity,
    /// Fills a new map of texts with copies of some, and drops it.
    TextInsert,
    /// Looks up each text.
    TextHit,
    /// Looks up as many texts that are absent.
    TextMiss,
    /// Moves each pair to the back by its text.
    TextRefresh,
    /// Inserts a copy of each text again.
    TextPresent,
    /// Removes each text, and inserts a copy of it.
    TextReinsert,
    /// Makes a clone of a map of texts and drops it.
    TextClone,
    /// Makes documents of five fields, `n` fields in all.
    DocumentBuild,
    /// Looks up each field of each document by its name.
    DocumentRead,
    /// Drops the documents.
    DocumentDrop,
    /// Makes documents that have the capacity for their fields.
    DocumentWithCapacity,
    /// Makes documents, and looks up the fields of each and drops it before the next.
    DocumentCycle,
    /// Makes documents of three texts and an object of three more, `n` texts in all, and drops each
    /// before the next.
    NestedBuild,
    /// Looks up each field of each such document.
    NestedRead,
    /// Makes each call that no other workload makes, on a new map, cache and table of sessions.
    OtherCalls,
}

/// What the workloads are done on. All maps, caches and sets except one are empty.
#[derive(Drop)]
pub struct Held {
    maps: Vec<Map>,
    map: Map,
    cache: Cache,
    set: Set,
    cache_map: CacheMap,
    set_map: SetMap,
    counts: Counts,
    text_map: TextMap,
    documents: Vec<Document>,
    nested: Vec<nested::Object>,
    // What the next round inserts or looks up, whatever of the others is empty.
    texts: Vec<String>,
}

impl Held {
    /// Makes them, all empty.
    pub fn new(alloc: Global) -> Held {
        Held {
            maps: Vec::new(alloc),
            map: LinkedHashMap::new(alloc),
            cache: LruCache::new(alloc, 0),
            set: LinkedHashSet::new(alloc),
            cache_map: LinkedHashMap::new(alloc),
            set_map: LinkedHashMap::new(alloc),
            counts: LinkedHashMap::new(alloc),
            text_map: LinkedHashMap::new(alloc),
            documents: Vec::new(alloc),
            nested: Vec::new(alloc),
            texts: Vec::new(alloc),
        }
    }

    /// After the first workload on another of them, fills that with `n` pairs or items, and empties
    /// the rest. It comes so late so that the nodes lie in memory that was used before.
    pub fn refill(&mut self, alloc: Global, done: Workload, n: u64) -> Result<(), AllocError> {
        match done {
            Workload::SmallFill => self.maps = small::fill_all(alloc, 0, n)?,
            Workload::InsertNew => self.map = fill(alloc, 0, n)?,
            Workload::CacheInsert => {
                self.map = LinkedHashMap::new(alloc);
                self.cache = fill_cache(alloc, 0, n, n)?;
            }
            Workload::SetInsert => {
                self.cache = LruCache::new(alloc, 0);
                self.set = fill_set(alloc, 0, n)?;
            }
            Workload::CacheInsertByMap => {
                self.set = LinkedHashSet::new(alloc);
                self.cache_map = fill_cache_map(alloc, 0, n, n)?;
            }
            Workload::SetInsertByMap => {
                self.cache_map = LinkedHashMap::new(alloc);
                self.set_map = fill_set_map(alloc, 0, n)?;
            }
            Workload::SetIterateByMap => {
                self.set_map = LinkedHashMap::new(alloc);
                self.map = fill(alloc, 0, n)?;
            }
            Workload::EntryNew => {
                self.map = LinkedHashMap::new(alloc);
                self.counts = entry_new(alloc, 0, n)?;
            }
            Workload::RetainHalf => self.counts = entry_new(alloc, 0, n)?,
            Workload::TextInsert => {
                self.counts = LinkedHashMap::new(alloc);
                self.texts = texts_from(alloc, 0, n)?;
                self.text_map = fill_texts(alloc, self.texts.as_slice())?;
            }
            Workload::DocumentBuild => {
                self.text_map = LinkedHashMap::new(alloc);
                self.documents = documents(alloc, self.texts.as_slice())?;
            }
            Workload::DocumentCycle => self.documents = Vec::new(alloc),
            Workload::NestedBuild => {
                self.nested = nested::documents(alloc, self.texts.as_slice())?;
            }
            _ => {}
        }
        Ok(())
    }
}

impl Workload {
    /// All workloads, in the order in which they are timed, each with the word that names it.
    pub const ALL: [(Workload, &'static str); 51] = [
        (Workload::SmallFill, "small_fill"),
        (Workload::SmallLookup, "small_lookup"),
        (Workload::SmallIterate, "small_iterate"),
        (Workload::InsertNew, "insert_new"),
        (Workload::GetHit, "get_hit"),
        (Workload::GetMiss, "get_miss"),
        (Workload::Iterate, "iterate"),
        (Workload::GetRefresh, "get_refresh"),
        (Workload::InsertPresent, "insert_present"),
        (Workload::LruCycle, "lru_cycle"),
        (Workload::RemoveReinsert, "remove_reinsert"),
        (Workload::Clone, "clone"),
        (Workload::WriteAll, "write_all"),
        (Workload::CacheInsert, "cache_insert"),
        (Workload::CacheHit, "cache_hit"),
        (Workload::SetInsert, "set_insert"),
        (Workload::SetContains, "set_contains"),
        (Workload::SetIterate, "set_iterate"),
        (Workload::CacheInsertByMap, "cache_insert_by_map"),
        (Workload::CacheHitByMap, "cache_hit_by_map"),
        (Workload::SetInsertByMap, "set_insert_by_map"),
        (Workload::SetContainsByMap, "set_contains_by_map"),
        (Workload::SetIterateByMap, "set_iterate_by_map"),
        (Workload::MoveBeside, "move_beside"),
        (Workload::IterFrom, "iter_from"),
        (Workload::Sort, "sort"),
        (Workload::SortCached, "sort_cached"),
        (Workload::SortFalling, "sort_falling"),
        (Workload::SortSorted, "sort_sorted"),
        (Workload::Ends, "ends"),
        (Workload::EntryNew, "entry_new"),
        (Workload::EntryPresent, "entry_present"),
        (Workload::RetainHalf, "retain_half"),
        (Workload::EmptyRefill, "empty_refill"),
        (Workload::Extend, "extend"),
        (Workload::WithCapacity, "with_capacity"),
        (Workload::TextInsert, "text_insert"),
        (Workload::TextHit, "text_hit"),
        (Workload::TextMiss, "text_miss"),
        (Workload::TextRefresh, "text_refresh"),
        (Workload::TextPresent, "text_present"),
        (Workload::TextReinsert, "text_reinsert"),
        (Workload::TextClone, "text_clone"),
        (Workload::DocumentBuild, "document_build"),
        (Workload::DocumentRead, "document_read"),
        (Workload::DocumentDrop, "document_drop"),
        (Workload::DocumentWithCapacity, "document_with_capacity"),
        (Workload::DocumentCycle, "document_cycle"),
        (Workload::NestedBuild, "nested_build"),
        (Workload::NestedRead, "nested_read"),
        (Workload::OtherCalls, "other_calls"),
    ];

    /// Tells whether it is done with many small maps, and not with one map, cache or set.
    fn is_of_small_maps(self) -> bool {
        match self {
            Workload::SmallFill => true,
            Workload::SmallLookup => true,
            Workload::SmallIterate => true,
            _ => false,
        }
    }

    /// Tells whether the peers that do it have not done all of those before it.
    pub fn begins_anew(self) -> bool {
        match self {
            Workload::MoveBeside => true,
            Workload::EntryNew => true,
            Workload::TextInsert => true,
            _ => false,
        }
    }

    /// Tells whether it is done at a size: one of small maps up to 64 pairs, another above.
    pub fn is_done_at(self, n: u64) -> bool {
        self.is_of_small_maps() == (n <= MOST_PAIRS)
    }

    /// Returns how many pairs it is done with in all.
    pub fn pairs(self, n: u64) -> u64
        requires { 0 < n }
        ensures { 0 < result }
    {
        if self.is_of_small_maps() {
            n.saturating_mul(MAPS)
        } else {
            n
        }
    }

    /// Prepares a round. In random order the map that is cloned gets other keys, so that no two
    /// clones are alike. The pairs that are sorted are put in another order.
    pub fn prepare<O: Order>(
        self,
        alloc: Global,
        held: &mut Held,
        order: &mut O,
        n: u64,
    ) -> Result<(), AllocError>
        requires { 0 < n }
    {
        if self.takes_texts() {
            held.texts = self.texts(alloc, order, n)?;
        }
        match self {
            Workload::Clone if order.is_random() => {
                lru_cycle(&mut held.map, n)?;
            }
            Workload::Sort => unsort(&mut held.map, order, n),
            Workload::SortCached => unsort(&mut held.map, order, n),
            Workload::SortFalling => fall(alloc, &mut held.map)?,
            Workload::RetainHalf => held.counts = entry_new(alloc, order.start(), n)?,
            Workload::DocumentBuild => held.documents = Vec::new(alloc),
            Workload::DocumentWithCapacity => held.documents = Vec::new(alloc),
            Workload::DocumentDrop => held.documents = documents(alloc, held.texts.as_slice())?,
            _ => {}
        }
        Ok(())
    }

    /// Tells whether a round takes texts of its own.
    fn takes_texts(self) -> bool {
        match self {
            Workload::TextInsert | Workload::TextHit | Workload::TextMiss => true,
            Workload::TextRefresh | Workload::TextPresent | Workload::TextReinsert => true,
            Workload::DocumentBuild | Workload::DocumentWithCapacity => true,
            Workload::DocumentCycle | Workload::NestedBuild => true,
            _ => false,
        }
    }

    /// Returns the texts that a round inserts or looks up.
    fn texts<O: Order>(
        self,
        alloc: Global,
        order: &mut O,
        n: u64,
    ) -> Result<Vec<String>, AllocError>
        requires { 0 < n }
    {
        match self {
            Workload::TextMiss => texts_from(alloc, order.start().wrapping_add(n), n),
            Workload::TextHit | Workload::TextRefresh => draw_texts(alloc, order, n),
            Workload::TextPresent | Workload::TextReinsert => draw_texts(alloc, order, n),
            _ => texts_from(alloc, order.start(), n),
        }
    }

    /// Does the workload once, and returns a number that depends on what the calls returned.
    pub fn run<O: Order>(
        self,
        alloc: Global,
        held: &mut Held,
        order: &mut O,
        n: u64,
    ) -> Result<u64, AllocError>
        requires { 0 < n }
    {
        match self {
            Workload::SmallFill => {
                Ok(small::count(small::fill_all(alloc, order.start(), n)?.as_slice()))
            }
            Workload::SmallLookup => Ok(small::lookup(held.maps.as_slice(), order, n)),
            Workload::SmallIterate => Ok(small::iterate(held.maps.as_slice())),
            Workload::InsertNew => Ok(fill(alloc, order.start(), n)?.len() as u64),
            Workload::GetHit => Ok(get_hit(&held.map, order, n)),
            Workload::GetMiss => Ok(get_miss(&held.map, order, n)),
            Workload::Iterate => Ok(iterate(&held.map)),
            Workload::GetRefresh => Ok(get_refresh(&mut held.map, order, n)),
            Workload::InsertPresent => insert_present(&mut held.map, order, n),
            Workload::LruCycle => lru_cycle(&mut held.map, n),
            Workload::RemoveReinsert => remove_reinsert(alloc, &mut held.map, order, n),
            Workload::Clone => Ok(held.map.clone()?.len() as u64),
            Workload::WriteAll => Ok(write_all(&mut held.map)),
            Workload::CacheInsert => {
                Ok(fill_cache(alloc, order.start(), n / 2, n)?.len() as u64)
            }
            Workload::CacheHit => Ok(cache_hit(&mut held.cache, order, n)),
            Workload::SetInsert => Ok(fill_set(alloc, order.start(), n)?.len() as u64),
            Workload::SetContains => Ok(set_contains(&held.set, order, n)),
            Workload::SetIterate => Ok(set_iterate(&held.set)),
            Workload::CacheInsertByMap => {
                Ok(fill_cache_map(alloc, order.start(), n / 2, n)?.len() as u64)
            }
            Workload::CacheHitByMap => Ok(cache_map_hit(&mut held.cache_map, order, n)),
            Workload::SetInsertByMap => Ok(fill_set_map(alloc, order.start(), n)?.len() as u64),
            Workload::SetContainsByMap => Ok(set_map_contains(&held.set_map, order, n)),
            Workload::SetIterateByMap => Ok(set_map_iterate(&held.set_map)),
            Workload::MoveBeside => Ok(move_beside(&mut held.map, order, n)),
            Workload::IterFrom => Ok(iter_from(&held.map, order, n)),
            Workload::Sort | Workload::SortFalling | Workload::SortSorted => {
                Ok(sort(&mut held.map))
            }
            Workload::SortCached => sort_cached(&mut held.map),
            Workload::Ends => ends(&mut held.map, n),
            Workload::EntryNew => Ok(entry_new(alloc, order.start(), n)?.len() as u64),
            Workload::EntryPresent => entry_present(&mut held.counts, order, n),
            Workload::RetainHalf => Ok(retain_half(&mut held.counts)),
            Workload::EmptyRefill => empty_refill(alloc, &mut held.counts),
            Workload::Extend => Ok(extend(alloc, order.start(), n)?.len() as u64),
            Workload::WithCapacity => Ok(with_capacity(alloc, order.start(), n)?.len() as u64),
            Workload::TextInsert => Ok(fill_texts(alloc, held.texts.as_slice())?.len() as u64),
            Workload::TextHit => Ok(texts::hit(&held.text_map, held.texts.as_slice())),
            Workload::TextMiss => Ok(texts::miss(&held.text_map, held.texts.as_slice())),
            Workload::TextRefresh => {
                Ok(texts::refresh(&mut held.text_map, held.texts.as_slice()))
            }
            Workload::TextPresent => {
                texts::insert_present(&mut held.text_map, held.texts.as_slice())
            }
            Workload::TextReinsert => {
                texts::remove_reinsert(&mut held.text_map, held.texts.as_slice())
            }
            Workload::TextClone => Ok(held.text_map.clone()?.len() as u64),
            Workload::DocumentBuild => {
                held.documents = documents(alloc, held.texts.as_slice())?;
                Ok(held.documents.len() as u64)
            }
            Workload::DocumentRead => Ok(read(held.documents.as_slice())),
            Workload::DocumentDrop => {
                held.documents = Vec::new(alloc);
                Ok(0)
            }
            Workload::DocumentWithCapacity => {
                held.documents = documents::all_with_capacity(alloc, held.texts.as_slice())?;
                Ok(held.documents.len() as u64)
            }
            Workload::DocumentCycle => documents::cycle(alloc, held.texts.as_slice()),
            Workload::NestedBuild => nested::build(alloc, held.texts.as_slice()),
            Workload::NestedRead => Ok(nested::read(held.nested.as_slice())),
            Workload::OtherCalls => other_calls(alloc, n),
        }
    }
}
