//! Maps that take in what others have.
ghost use Rattle.std.specs.Prelude.{◌≡◌, ◌≤◌, ◌+◌, ◌-◌, ◌∷◌, ◌++◌, ℕ, [], length, max, map, filter, not, is_some, take, slice_get, Some, None, IsOk, IfOk, IfErr, OnOk, OnErr};
ghost use Rattle.std.specs.List.{IsDistinct};
ghost use Rattle.std.specs.Map.{keys_of};
ghost use Rattle.std.specs.Option.{option_or};
ghost use Rattle.linked_hash_map.specs.Counts.{rechained_each};
ghost use Rattle.linked_hash_map.specs.Pairs.{key_or, find, value_at};
ghost use Rattle.linked_hash_map.specs.Inserts.{insert_each};

use linked_hash_map::{LinkedHashMap, Mode, Refused, ReserveError};
use std::alloc::Global;
use std::hash::{BuildHasher, Hash};

/// Puts in the pairs of a list one by one. The first that finds no memory is handed back, and those
/// before it stay. If there is room for all, none is refused.
pub fn insert_all<K: Eq + Hash + Drop, V: Drop, S: BuildHasher>(
    map: &mut LinkedHashMap<K, V, S>,
    list: Vec<(K, V)>,
) -> Result<(), Refused<K, V>>
    ensures all { OnOk result
        (map.new.pairs ≡ insert_each K.eq map.old.mode map.old.pairs list.items) }
    ensures mode { map.new.mode ≡ map.old.mode }
    ensures succeeds { length map.old.pairs + length list.items ≤ map.old.capacity → IsOk result }
    ensures same_room { OnOk result (length map.old.pairs + length list.items ≤ map.old.capacity
        → map.new.capacity ≡ map.old.capacity) }
    ensures stopped { IfErr result (λ refused. (n : ℕ)
        × (map.new.pairs ≡ insert_each K.eq map.old.mode map.old.pairs (take n list.items))
        × (slice_get list.items n ≡ Some (refused.key, refused.value))) }
    ensures absent { IfErr result (λ refused. find K.eq map.new.pairs refused.key ≡ None) }
    ensures full { OnErr result (length map.new.pairs ≡ map.new.capacity) }
{
    match map.extend(list) {
        Ok(()) => Ok(()),
        Err(refused) => Err(refused),
    }
}

/// Puts in the pairs of two lists, one list after the other, and then one more pair. The first pair
/// that finds no memory is handed back, and those before it stay.
#[tactic(auto, using(linked_hash_map::proofs::Callers::Rules::insertions))]
pub fn insert_both<K: Eq + Hash + Drop, V: Drop, S: BuildHasher>(
    map: &mut LinkedHashMap<K, V, S>,
    list: Vec<(K, V)>,
    more: Vec<(K, V)>,
    last: (K, V),
) -> Result<(), Refused<K, V>>
    ensures all { OnOk result
        (map.new.pairs ≡ insert_each K.eq map.old.mode map.old.pairs
        ((list.items ++ more.items) ++ last ∷ [])) }
{
    insert_all(map, list)?;
    insert_all(map, more)?;
    map.insert(last.0, last.1)?;
    Ok(())
}

/// Puts in the pairs of another map, whose values win. In `Keep` the keys of the first map stand in
/// their places, and the new ones come behind them, in order. In `Touch` all keys of the other map
/// come behind those that it does not have, each as the first map stores it. The first pair that
/// finds no memory is handed back, and those before it stay.
pub fn merge<K: Eq + Hash + Drop, V: Drop, S: BuildHasher, T: BuildHasher + Drop>(
    target: &mut LinkedHashMap<K, V, S>,
    others: LinkedHashMap<K, V, T>,
) -> Result<(), Refused<K, V>>
    ensures all { OnOk result
        (target.new.pairs ≡ insert_each K.eq target.old.mode target.old.pairs others.pairs) }
    ensures values { OnOk result
        ((key : K) → value_at K.eq target.new.pairs key
        ≡ option_or (value_at K.eq others.pairs key) (value_at K.eq target.old.pairs key)) }
    ensures keep { OnOk result
        (target.old.mode ≡ Mode.Keep
        → keys_of target.new.pairs
        ≡ keys_of target.old.pairs
        ++ filter (λ key. not (is_some (find K.eq target.old.pairs key)))
        (keys_of others.pairs)) }
    ensures touch { OnOk result
        (target.old.mode ≡ Mode.Touch
        → keys_of target.new.pairs
        ≡ filter (λ key. not (is_some (find K.eq others.pairs key)))
        (keys_of target.old.pairs)
        ++ map (λ key. key_or key (find K.eq target.old.pairs key)) (keys_of others.pairs)) }
    ensures absent { IfErr result (λ refused. find K.eq target.new.pairs refused.key ≡ None) }
    ensures full { OnErr result (length target.new.pairs ≡ target.new.capacity) }
{
    target.extend(others)?;
    Ok(())
}

/// Moves in the pairs of another map, whose values win, and leaves it empty. The keys then stand as
/// after `merge`. If there is no memory for all, neither map changes.
pub fn move_all<K: Eq + Hash + Drop, V: Drop, S: BuildHasher, T: BuildHasher>(
    target: &mut LinkedHashMap<K, V, S>,
    others: &mut LinkedHashMap<K, V, T>,
) -> Result<(), ReserveError>
    ensures all { OnOk result
        (target.new.pairs ≡ insert_each K.eq target.old.mode target.old.pairs others.old.pairs) }
    ensures emptied { OnOk result (others.new.pairs ≡ []) }
    ensures room { OnOk result
        (target.new.capacity ≡ max target.old.capacity (length target.new.pairs)) }
    ensures unchanged { OnErr result (target.new ≡ target.old) }
    ensures others_unchanged { OnErr result (others.new ≡ others.old) }
{
    target.append(others)
}

/// Makes a map of the pairs of a list, whose keys differ. There is room for them and for no more.
/// Pairs are rehashed only as the capacity rises to that number, one by one from a lower one
/// or from the number itself.
pub fn collect_all<K: Eq + Hash + Drop, V: Drop, S: BuildHasher + Default + Drop>(
    alloc: Global,
    list: Vec<(K, V)>,
) -> Result<LinkedHashMap<K, V, S>, ReserveError>
    requires differ { IsDistinct K.eq (keys_of list.items) }
    ensures pairs { IfOk result (λ map. map.pairs ≡ list.items) }
    ensures capacity { IfOk result (λ map. map.capacity ≡ length list.items) }
    ensures rechained { IfOk result (λ map. (lower : ℕ) × (lower ≤ length list.items)
        × (map.rechained ≡ rechained_each 0 lower (length list.items - lower))) }
{
    let map = LinkedHashMap::from_iter(alloc, list)?;
    Ok(map)
}

/// Makes a map of the pairs of a list. A key may come more than once: its last value counts.
pub fn from_list<K: Eq + Hash + Drop, V: Drop, S: BuildHasher + Default + Drop>(
    alloc: Global,
    list: Vec<(K, V)>,
) -> Result<LinkedHashMap<K, V, S>, ReserveError>
    ensures { IfOk result (λ map. map.pairs ≡ insert_each K.eq Mode.Touch [] list.items) }
{
    let made = LinkedHashMap::from_iter(alloc, list)?;
    Ok(made)
}
