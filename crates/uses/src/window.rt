//! The last keys that were seen, each once, and keys in the order of their last use.
ghost use Rattle.std.specs.Prelude.{◌≡◌, ◌==◌, ◌<◌, ◌≤◌, ◌∷◌, [], ◌++◌, length, filter, not, nat_eq, unwrap_or, IfOk, IfErr, IfSome, IsSome, IsNone, OnOk, OnErr};
ghost use Rattle.std.specs.Map.{keys_of};
ghost use Rattle.std.specs.List.{IsDistinct, find};
ghost use Rattle.linked_hash_map.specs.Pairs.{first, without, without_first};
ghost use Rattle.linked_hash_map.specs.declared.map.Mode.{Mode};
ghost use Rattle.lru_cache.specs.Cache.{newest};

use linked_hash_map::{LinkedHashMap, Refused, ReserveError};
use std::alloc::Global;
use std::hash::Hash;

/// The last `size` different numbers that were seen, the one seen longest ago first.
#[derive(Drop)]
pub struct Window {
    seen: LinkedHashMap<u64, ()>,
    size: usize,
    ghost room: { size < seen.capacity },
    ghost within: { length seen.pairs ≤ size },
    ghost touch: { seen.mode ≡ Mode.Touch },
}

impl Window {
    /// Makes an empty window for `size` numbers.
    pub fn new(alloc: Global, size: u32) -> Result<Window, ReserveError>
        ensures empty { IfOk result (λ window. window.seen.pairs ≡ []) }
        ensures size { IfOk result (λ window. window.size ≡ size) }
    {
        let size = size as usize;
        // One more than stay, so that a number can come before another goes.
        let seen = LinkedHashMap::with_capacity(alloc, size + 1)?;
        Ok(Window { seen, size })
    }

    /// Sees a number, which never fails, and returns the number that leaves, if one does.
    #[tactic(auto, using(linked_hash_map::proofs::Callers::Rules::number_keys, lru_cache::proofs::Callers::Rules::number_pairs))]
    pub fn see(&mut self, number: u64) -> Option<u64>
        ensures left { IfSome result (λ gone.
            gone ∷ keys_of self.new.seen.pairs
            ≡ filter (λ other. not (number == other)) (keys_of self.old.seen.pairs)
            ++ number ∷ []) }
        ensures stays { IsNone result
            → keys_of self.new.seen.pairs
            ≡ filter (λ other. not (number == other)) (keys_of self.old.seen.pairs)
            ++ number ∷ [] }
        ensures pairs { self.new.seen.pairs ≡ newest self.old.size
            (without nat_eq self.old.seen.pairs number ++ (number, tt) ∷ []) }
        ensures within { length self.new.seen.pairs ≤ self.old.size }
        ensures full { IsSome result → length self.new.seen.pairs ≡ self.old.size }
        ensures different { IsDistinct nat_eq (keys_of self.new.seen.pairs) }
        ensures size { self.new.size ≡ self.old.size }
    {
        let _old = self.seen.insert_within_capacity(number, ());
        if self.seen.len() <= self.size {
            return None;
        }
        let pair = self.seen.pop_front()?;
        Some(pair.0)
    }
}

/// Keys, no two of which are the same, the one used last behind the others.
#[derive(Drop)]
pub struct Recent<K: Eq + Hash> {
    keys: LinkedHashMap<K, ()>,
    ghost touch: { keys.mode ≡ Mode.Touch },
}

impl<K: Eq + Hash> Recent<K> {
    /// Makes a list without keys.
    pub fn new(alloc: Global) -> Self
        ensures { keys_of result.keys.pairs ≡ [] }
    {
        Recent {
            keys: LinkedHashMap::new(alloc),
        }
    }

    /// Puts a key behind the others. Of keys that are the same the one that came first stays. If
    /// there is no memory for a new one, it is handed back and nothing changes.
    #[tactic(auto, using(linked_hash_map::proofs::Callers::Rules::stored_keys))]
    pub fn use_key(&mut self, key: K) -> Result<(), Refused<K, ()>>
    where
        K: Drop,
        ensures keys { OnOk result (keys_of self.new.keys.pairs
            ≡ filter (λ other. not (K.eq key other)) (keys_of self.old.keys.pairs)
            ++ unwrap_or (find (K.eq key) (keys_of self.old.keys.pairs)) key ∷ []) }
        ensures handed_back { IfErr result (λ refused. refused.key ≡ key) }
        ensures unchanged { OnErr result (self.new.keys ≡ self.old.keys) }
    {
        self.keys.insert(key, ())?;
        Ok(())
    }

    /// Removes the key that was used longest ago and returns it.
    #[tactic(auto, using(linked_hash_map::proofs::Callers::Rules::end_keys))]
    pub fn forget_oldest(&mut self) -> Option<K>
        ensures key { result ≡ first (keys_of self.old.keys.pairs) }
        ensures others { keys_of self.new.keys.pairs
            ≡ without_first (keys_of self.old.keys.pairs) }
    {
        let pair = self.keys.pop_front()?;
        Some(pair.0)
    }
}
