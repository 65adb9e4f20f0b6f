//! Maps whose mode is set for a while.
ghost use Rattle.std.specs.Prelude.{◌≡◌, List, ℕ, nat_eq, IfOk, IfErr, OnOk, OnErr};
ghost use Rattle.std.specs.List.{IsDistinct};
ghost use Rattle.std.specs.Map.{keys_of};
ghost use Rattle.linked_hash_map.specs.Pairs.{value_at, set_or_push};

use linked_hash_map::{LinkedHashMap, Mode, Refused};
use std::hash::{BuildHasher, Hash};

/// Inserts a pair in either mode, but moves none: a present key gets the value in its place, and a
/// new one goes to the back. The mode is set for the insertion, and then set back.
pub fn insert_in_place<K: Eq + Hash + Drop, V: Drop, S: BuildHasher>(
    map: &mut LinkedHashMap<K, V, S>,
    key: K,
    value: V,
) -> Result<Option<V>, Refused<K, V>>
    ensures old { IfOk result (λ old. old ≡ value_at K.eq map.old.pairs key) }
    ensures pairs { OnOk result (map.new.pairs ≡ set_or_push K.eq map.old.pairs key value) }
    ensures mode { map.new.mode ≡ map.old.mode }

    ensures handed_back { IfErr result (λ refused.
        (refused.key ≡ key) × (refused.value ≡ value)) }
    ensures unchanged { OnErr result (map.new ≡ map.old) }
{
    let mode = map.mode();
    map.set_mode(Mode::Keep);
    let inserted = map.insert(key, value);
    map.set_mode(mode);
    inserted
}

/// Takes the last insertion in `Keep` back, which returned this old value: the pairs are exactly
/// those before it.
#[tactic(auto, using(linked_hash_map::proofs::Callers::NumberRules::undone))]
pub fn take_back(map: &mut LinkedHashMap<u64, u64>, key: u64, replaced: Option<u64>)
    ensures { (before : List (ℕ × ℕ)) (value : ℕ) → IsDistinct nat_eq (keys_of before)
        → replaced ≡ value_at nat_eq before key
        → map.old.pairs ≡ set_or_push nat_eq before key value
        → map.new.pairs ≡ before }
{
    match replaced {
        None => {
            map.remove(&key);
        }
        Some(old) => {
            if let Some(value) = map.get_mut(&key) {
                *value = old;
            }
        }
    }
}
