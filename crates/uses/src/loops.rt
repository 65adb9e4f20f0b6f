//! Loops over a map, of every kind.
ghost use Rattle.std.specs.Prelude.{◌≡◌, ◌^◌, ◌*◌, ◌<◌, ◌+◌, ℕ, [], ◌∷◌, ◌++◌, None, cond, sum, length, map, reverse, take, filter, slice_get, nat_eq, IsTrue, IsFalse, IfSome, IfOk};
ghost use Rattle.std.specs.Map.{keys_of, values_of};
ghost use Rattle.linked_hash_map.specs.Cursor.{to_visit};
ghost use Rattle.linked_hash_map.specs.Pairs.{first, value_at};
ghost use Rattle.uses.specs.Counting.{has_count, is_even};

use linked_hash_map::{Entry, LinkedHashMap, Mode};
use std::alloc::{AllocError, Global};
use std::hash::{BuildHasher, Hash};
use std::mem;

/// Returns the sum of the values: a loop over `&map`.
pub fn sum_of<K: Eq + Hash, S: BuildHasher>(prices: &LinkedHashMap<K, u64, S>) -> u64
    requires fits { sum (values_of prices.now.pairs) < 2 ^ 64 }
    ensures { result ≡ sum (values_of prices.now.pairs) }
{
    let mut total = 0;
    for (_, price) in prices {
        total += *price;
    }
    total
}

/// The same, by an iterator.
pub fn sum_by_values<K: Eq + Hash, S: BuildHasher>(prices: &LinkedHashMap<K, u64, S>) -> u64
    requires fits { sum (values_of prices.now.pairs) < 2 ^ 64 }
    ensures { result ≡ sum (values_of prices.now.pairs) }
{
    prices.values().sum()
}

/// Returns copies of the keys, in order: a loop over `keys`.
pub fn keys_in_order<K: Eq + Hash + Copy, V, S: BuildHasher>(
    alloc: Global,
    map: &LinkedHashMap<K, V, S>,
) -> Result<Vec<K>, AllocError>
    ensures { IfOk result (λ keys. keys.items ≡ keys_of map.now.pairs) }
{
    let mut keys = Vec::new(alloc);
    for key in map.keys() {
        keys.push(*key)?;
    }
    Ok(keys)
}

/// Returns the pairs, in order: a loop over the map itself, which takes it.
pub fn into_list<K: Eq + Hash + Drop, V: Drop, S: BuildHasher + Drop>(
    alloc: Global,
    map: LinkedHashMap<K, V, S>,
) -> Result<Vec<(K, V)>, AllocError>
    ensures { IfOk result (λ list. list.items ≡ map.pairs) }
{
    let mut list = Vec::new(alloc);
    for pair in map {
        list.push(pair)?;
    }
    Ok(list)
}

/// Returns the pairs, the last first: by the iterator that owns them, from the back.
pub fn into_reversed<K: Eq + Hash + Drop, V: Drop, S: BuildHasher + Drop>(
    alloc: Global,
    map: LinkedHashMap<K, V, S>,
) -> Result<Vec<(K, V)>, AllocError>
    ensures { IfOk result (λ list. list.items ≡ reverse map.pairs) }
{
    map.into_iter().rev().collect(alloc)
}

/// Sets every value to zero: a loop over `&mut map`. The keys stand.
pub fn reset<K: Eq + Hash, S: BuildHasher>(counts: &mut LinkedHashMap<K, u64, S>)
    ensures keys { keys_of counts.new.pairs ≡ keys_of counts.old.pairs }
    ensures capacity { counts.new.capacity ≡ counts.old.capacity }
{
    for (_key, count) in counts {
        *count = 0;
    }
}

/// Takes the pairs out into a list, in order: a loop over `drain`. The map is empty then, with the
/// capacity that it had. So it is if a growth of the list is refused; the pairs that are left
/// are dropped.
pub fn take_all<K: Eq + Hash + Drop, V: Drop, S: BuildHasher>(
    alloc: Global,
    map: &mut LinkedHashMap<K, V, S>,
) -> Result<Vec<(K, V)>, AllocError>
    ensures list { IfOk result (λ list. list.items ≡ map.old.pairs) }
    ensures empty { map.new.pairs ≡ [] }
    ensures capacity { map.new.capacity ≡ map.old.capacity }
{
    let mut list = Vec::new(alloc);
    for pair in map.drain() {
        list.push(pair)?;
    }
    Ok(list)
}

/// Takes out each pair whose count is zero, and returns how many there were: a loop over a visit.
/// The others keep their order.
pub fn take_out_zeros<K: Eq + Hash + Drop, S: BuildHasher>(
    counts: &mut LinkedHashMap<K, u64, S>,
) -> usize
    ensures pairs { counts.new.pairs ≡ filter has_count counts.old.pairs }
    ensures taken { result + length counts.new.pairs ≡ length counts.old.pairs }
{
    let mut taken = 0;
    let entries = counts.visit();
    while let Some(entry) = entries.next_entry() {
        if *entry.get() == 0 {
            entry.remove();
            taken += 1;
        }
    }
    taken
}

/// Takes out each pair whose count is zero, and returns by how many the map is shorter then.
#[tactic(auto, using(linked_hash_map::proofs::Callers::Rules::visits))]
pub fn shorten<K: Eq + Hash + Drop, S: BuildHasher>(counts: &mut LinkedHashMap<K, u64, S>) -> usize
    ensures pairs { counts.new.pairs ≡ filter has_count counts.old.pairs }
    ensures shorter { result + length counts.new.pairs ≡ length counts.old.pairs }
{
    let before = counts.len();
    let entries = counts.visit();
    while let Some(entry) = entries.next_entry() {
        if *entry.get() == 0 {
            entry.remove();
        }
    }
    before - counts.len()
}

/// Takes out each pair whose value is odd, and doubles the values of the others: a loop over a visit
/// that writes. They keep their order.
pub fn double_even<K: Eq + Hash + Drop, S: BuildHasher>(numbers: &mut LinkedHashMap<K, u64, S>)
    requires fits { (index : ℕ) → IfSome (slice_get numbers.old.pairs index)
        (λ pair. pair.1 < 2 ^ 63) }
    ensures pairs { numbers.new.pairs
        ≡ map (λ pair. (pair.0, pair.1 * 2)) (filter is_even numbers.old.pairs) }
{
    let entries = numbers.visit();
    while let Some(mut entry) = entries.next_entry() {
        let number = *entry.get();
        if number % 2 == 0 {
            *entry.get_mut() = number * 2;
            // The proof needs this read to know the value written.
            let _ = entry.get();
        } else {
            entry.remove();
        }
    }
}

/// Returns the front key, by a cursor, which knows its first entry.
pub fn oldest_key<K: Eq + Hash + Copy, V, S: BuildHasher>(
    map: &mut LinkedHashMap<K, V, S>,
) -> Option<K>
    ensures { result ≡ first (keys_of map.old.pairs) }
{
    let mut entries = map.entries();
    match entries.next() {
        Some(entry) => Some(*entry.key()),
        None => None,
    }
}

/// Takes out the first of two pairs by a cursor, which knows the value of its entry, and returns
/// that value.
pub fn first_of_cursor(map: &mut LinkedHashMap<u64, u64>) -> u64
    requires pairs { map.old.pairs ≡ (1, 10) ∷ (2, 20) ∷ [] }
    ensures value { result ≡ 10 }
{
    let mut entries = map.entries();
    match entries.next() {
        Some(first) => first.remove(),
        None => 0,
    }
}

/// Visits three pairs, takes out the first, puts 0 in the place of the third's value, and returns
/// the values that these two had.
pub fn first_and_third(map: &mut LinkedHashMap<u64, u64>) -> (u64, u64)
    requires pairs { map.old.pairs ≡ (1, 10) ∷ (2, 20) ∷ (3, 30) ∷ [] }
    ensures values { result ≡ (10, 30) }
    ensures pairs { map.new.pairs ≡ (2, 20) ∷ (3, 0) ∷ [] }
{
    let entries = map.visit();
    let Some(first) = entries.next_entry() else {
        return (0, 0);
    };
    let removed = first.remove();
    let Some(_second) = entries.next_entry() else {
        return (0, 0);
    };
    let Some(mut third) = entries.next_entry() else {
        return (0, 0);
    };
    let replaced = mem::replace(third.get_mut(), 0);
    let _ = entries.unvisited();
    (removed, replaced)
}

/// Visits four pairs: inserts a value at the first and at the last, takes out the second, and
/// writes the value of the third in its place. Returns how many are left to visit. No pair that an
/// insertion moved to the back is visited again.
pub fn insert_on_the_way(map: &mut LinkedHashMap<u64, u64>) -> usize
    requires pairs { map.old.pairs ≡ (1, 1) ∷ (2, 2) ∷ (3, 3) ∷ (4, 4) ∷ [] }
    ensures touch { map.old.mode ≡ Mode.Touch → map.new.pairs ≡ (3, 30) ∷ (1, 10) ∷ (4, 40) ∷ [] }
    ensures keep { map.old.mode ≡ Mode.Keep → map.new.pairs ≡ (1, 10) ∷ (3, 30) ∷ (4, 40) ∷ [] }
    ensures left { result ≡ 0 }
{
    let entries = map.visit();
    let Some(mut first) = entries.next_entry() else {
        return 0;
    };
    first.insert(10);
    let Some(second) = entries.next_entry() else {
        return 0;
    };
    second.remove();
    let Some(mut third) = entries.next_entry() else {
        return 0;
    };
    *third.get_mut() = 30;
    let Some(mut fourth) = entries.next_entry() else {
        return 0;
    };
    fourth.insert(40);
    entries.unvisited()
}

/// Visits every pair, and takes it out, inserts a value, writes one in its place or leaves it, as
/// its value says. Returns the keys visited: each once, in the order at the start.
#[tactic(auto, using(linked_hash_map::proofs::Callers::Rules::visits))]
pub fn visit_by_value(
    alloc: Global,
    map: &mut LinkedHashMap<u64, u64>,
) -> Result<Vec<u64>, AllocError>
    ensures { IfOk result (λ visited. visited.items ≡ keys_of map.old.pairs) }
{
    let mut visited = Vec::new(alloc);
    let entries = map.visit();
    while let Some(mut entry) = entries.next_entry() {
        visited.push(*entry.key())?;
        match *entry.get() {
            0 => {
                entry.remove();
            }
            1 => {
                entry.insert(0);
            }
            2 => {
                *entry.get_mut() = 0;
                // The proof needs this read to know the value written.
                let _ = entry.get();
            }
            _ => {}
        }
    }
    Ok(visited)
}

/// Inserts a copy of a pair behind the others, with `offset` added to its key, and returns whether
/// it did. A visit goes on, and does not come to the copy. If it did not, the pairs stand, and the
/// sum is too large, the key is present or the map is full.
fn copy_pair_behind(map: &mut LinkedHashMap<u64, u64>, key: u64, value: u64, offset: u64) -> bool
    ensures pairs { map.new.pairs
        ≡ cond result (map.old.pairs ++ (key + offset, value) ∷ []) map.old.pairs }
    ensures to_visit { IsTrue result → to_visit map.new ≡ to_visit map.old }
    ensures full { IsFalse result → key + offset < 2 ^ 64
        → value_at nat_eq map.old.pairs (key + offset) ≡ None
        → length map.new.pairs ≡ map.new.capacity }
{
    let Some(key) = key.checked_add(offset) else {
        return false;
    };
    match map.entry(key) {
        Entry::Occupied(_entry) => false,
        Entry::Vacant(entry) => match entry.insert(value) {
            Ok(_value) => true,
            Err(_refused) => false,
        },
    }
}

/// Puts a copy of each pair behind the others, with `offset` added to its key, and returns how many
/// copies there are: a visit that inserts, and comes to the old pairs only. It stops at a copy
/// whose key is too large or present, or whose insertion a full map refuses.
#[tactic(auto, using(linked_hash_map::proofs::Callers::Visits::appending_numbers))]
pub fn copy_behind(counts: &mut LinkedHashMap<u64, u64>, offset: u64) -> usize
    ensures pairs { counts.new.pairs ≡ counts.old.pairs
        ++ map (λ pair. (pair.0 + offset, pair.1)) (take result counts.old.pairs) }
    ensures stops { IfSome (slice_get counts.old.pairs result)
        (λ pair. pair.0 + offset < 2 ^ 64
        → value_at nat_eq counts.new.pairs (pair.0 + offset) ≡ None
        → length counts.new.pairs ≡ counts.new.capacity) }
{
    let mut copied = 0;
    let entries = counts.visit();
    while let Some(entry) = entries.next_entry() {
        let (key, value) = (*entry.key(), *entry.get());
        if !copy_pair_behind(entries, key, value, offset) {
            return copied;
        }
        copied += 1;
    }
    copied
}
