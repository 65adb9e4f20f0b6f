//! Calls that are refused if an allocation fails, and what a caller does then.
ghost use Rattle.std.specs.Prelude.{◌≡◌, ◌<◌, [], ◌∷◌, ◌++◌, None, length, IsSome, IsNone, IsErr, IfOk, IfErr, OnOk, OnErr};
ghost use Rattle.std.specs.Option.{UnwrapsOrElse};
ghost use Rattle.linked_hash_map.specs.Pairs.{find, value_at, put, first, without_first};
ghost use Rattle.linked_hash_map.specs.Validity.{IsValid};

use linked_hash_map::{LIMIT, LinkedHashMap, Refused};
use std::hash::{BuildHasher, Hash};

/// Inserts a pair, at the back if its key is new. If it is refused, the front pair is removed for
/// it and returned: this never fails.
pub fn insert_anyway<K: Eq + Hash + Drop, V: Drop, S: BuildHasher>(
    map: &mut LinkedHashMap<K, V, S>,
    key: K,
    value: V,
) -> Option<(K, V)>
    requires some { 0 < length map.old.pairs }
    ensures given { IsNone result → map.new.pairs ≡ put K.eq map.old.mode map.old.pairs key value }
    ensures instead { IsSome result
        → map.new.pairs ≡ without_first map.old.pairs ++ (key, value) ∷ [] }
    ensures oldest { IsSome result → result ≡ first map.old.pairs }
    ensures capacity { IsSome result → map.new.capacity ≡ map.old.capacity }
    ensures hasher { map.new.hasher ≡ map.old.hasher }
{
    let Err(Refused { key, value }) = map.insert(key, value) else {
        return None;
    };
    let oldest = map.pop_front();
    match map.insert(key, value) {
        Ok(_none) => oldest,
        Err(_refused) => unreachable!(),
    }
}

/// Inserts a pair at the back if its key is new, and otherwise changes nothing. A new pair that is
/// refused comes back: if an allocation fails, and always from a map of `LIMIT` pairs.
pub fn insert_if_new<K: Eq + Hash + Drop, V: Drop, S: BuildHasher>(
    map: &mut LinkedHashMap<K, V, S>,
    key: K,
    value: V,
) -> Result<(), Refused<K, V>>
    ensures stays_valid { IsValid K.eq map.new }
    ensures present { IsSome (find K.eq map.old.pairs key) → map.new.pairs ≡ map.old.pairs }
    ensures pushed { OnOk result (find K.eq map.old.pairs key ≡ None
        → map.new.pairs ≡ map.old.pairs ++ (key, value) ∷ []) }
    ensures same_room { OnOk result ((find K.eq map.old.pairs key ≡ None
        → length map.old.pairs < map.old.capacity) → map.new.capacity ≡ map.old.capacity) }
    ensures limit { find K.eq map.old.pairs key ≡ None → length map.old.pairs ≡ LIMIT
        → IsErr result }

    ensures handed_back { IfErr result (λ refused.
        (refused.key ≡ key) × (refused.value ≡ value)) }
    ensures unchanged { OnErr result (map.new ≡ map.old) }
{
    map.entry(key).or_insert(value)?;
    Ok(())
}

/// Returns a copy of the value of a key. A new key is inserted with the default, which comes back
/// if it is refused.
pub fn value_or_default<K: Eq + Hash + Drop, V: Default + Copy, S: BuildHasher>(
    map: &mut LinkedHashMap<K, V, S>,
    key: K,
) -> Result<V, Refused<K, V>>
    ensures value { IfOk result
        (UnwrapsOrElse (value_at K.eq map.old.pairs key) V.is_default) }
    ensures handed_back { IfErr result (λ refused. V.is_default refused.value) }
    ensures unchanged { OnErr result (map.new ≡ map.old) }
{
    let lent = map.entry(key).or_default()?;
    Ok(*lent)
}
