//! Room made first, so that nothing fails later, and what it cost.
ghost use Rattle.std.specs.Prelude.{◌≡◌, ◌+◌, ◌*◌, ◌<◌, ◌≤◌, [], length, IfOk, OnOk, OnErr};
ghost use Rattle.std.specs.Int.{IsPowerOfTwo};
ghost use Rattle.linked_hash_map.specs.Pairs.{value_at, put};
ghost use Rattle.linked_hash_map.specs.Inserts.{insert_each};

use crate::collecting::insert_all;
use linked_hash_map::{LinkedHashMap, NoRoom, ReserveError};
use std::hash::{BuildHasher, Hash};

/// Makes room for one more pair and puts it in, which then never fails.
pub fn reserve_and_insert<K: Eq + Hash + Drop, V: Drop, S: BuildHasher>(
    map: &mut LinkedHashMap<K, V, S>,
    key: K,
    value: V,
) -> Result<Option<V>, ReserveError>
    ensures old { IfOk result (λ old. old ≡ value_at K.eq map.old.pairs key) }
    ensures pairs { OnOk result (map.new.pairs ≡ put K.eq map.old.mode map.old.pairs key value) }
    ensures unchanged { OnErr result (map.new ≡ map.old) }
{
    map.reserve(1)?;
    match map.insert(key, value) {
        Ok(old) => Ok(old),
        Err(_refused) => unreachable!(),
    }
}

/// Makes room for the pairs of a list and puts them in one by one, which then never fails.
pub fn reserve_and_extend<K: Eq + Hash + Drop, V: Drop, S: BuildHasher>(
    map: &mut LinkedHashMap<K, V, S>,
    list: Vec<(K, V)>,
) -> Result<(), ReserveError>
    ensures pairs { OnOk result
        (map.new.pairs ≡ insert_each K.eq map.old.mode map.old.pairs list.items) }
    ensures unchanged { OnErr result (map.new ≡ map.old) }
{
    map.reserve(list.len())?;
    match insert_all(map, list) {
        Ok(()) => Ok(()),
        Err(_refused) => unreachable!(),
    }
}

/// Drops all pairs and gives all memory back, which never fails.
pub fn empty_out<K: Eq + Hash + Drop, V: Drop, S: BuildHasher>(map: &mut LinkedHashMap<K, V, S>)
    ensures pairs { map.new.pairs ≡ [] }
    ensures capacity { map.new.capacity ≡ 0 }
{
    map.clear();
    match map.shrink_to_fit() {
        Ok(()) => {}
        Err(NoRoom) => unreachable!(),
    }
}

/// Returns how many pairs were rehashed: fewer than two for each pair that there is room for, and
/// at most one for each if the capacity is a power of two.
#[tactic(auto, using(linked_hash_map::proofs::Callers::Counts::buckets_power))]
pub fn rehashed<K: Eq + Hash, V, S: BuildHasher>(map: &LinkedHashMap<K, V, S>) -> usize
    ensures count { result ≡ map.now.rechained }
    ensures below { 0 < map.now.capacity → result < 2 * map.now.capacity }
    ensures once { IsPowerOfTwo map.now.capacity → result ≤ map.now.capacity }
{
    map.rechained()
}

/// Makes room for more pairs, and returns for how many there then is room in all.
pub fn reserve_room<K: Eq + Hash, V, S: BuildHasher>(
    map: &mut LinkedHashMap<K, V, S>,
    additional: usize,
) -> Result<usize, ReserveError>
    ensures room { IfOk result (λ room. length map.new.pairs + additional ≤ room) }
    ensures unchanged { OnErr result (map.new ≡ map.old) }
{
    map.reserve(additional)?;
    Ok(map.capacity())
}
