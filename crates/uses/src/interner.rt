//! Names and their numbers.
ghost use Rattle.std.specs.Prelude.{◌≡◌, ◌<◌, ℕ, ◌∷◌, [], ◌++◌, Some, None, IsTrue, length, option_copied, slice_get, IfOk, IfErr, OnOk, OnErr};
ghost use Rattle.std.specs.List.{range_with_len};
ghost use Rattle.std.specs.Map.{keys_of, values_of};
ghost use Rattle.linked_hash_map.specs.Pairs.{value_at};

use linked_hash_map::{LinkedHashMap, Refused};
use std::alloc::Global;
use std::hash::Hash;

/// Names with their numbers, which are 0, 1, 2 and so on, in the order in which the names first
/// came.
#[derive(Drop)]
pub struct Interner<K: Eq + Hash> {
    names: LinkedHashMap<K, usize>,
    ghost dense: { values_of names.pairs ≡ range_with_len 0 (length names.pairs) },
}

impl<K: Eq + Hash> Interner<K> {
    /// Makes an interner with no names in it.
    pub fn new(alloc: Global) -> Self
        ensures { result.names.pairs ≡ [] }
    {
        Interner {
            names: LinkedHashMap::new(alloc),
        }
    }

    /// Returns the number of a name, which no other name has. A name that has none gets the next
    /// one, which is how many names there are, or is handed back if an allocation fails.
    #[tactic(auto, using(linked_hash_map::proofs::Callers::Rules::dense_below, linked_hash_map::proofs::Callers::Rules::dense_apart))]
    pub fn intern(&mut self, name: K) -> Result<usize, Refused<K, usize>>
    where
        K: Drop,
        ensures number { IfOk result (λ number.
            value_at K.eq self.new.names.pairs name ≡ Some number) }
        ensures known { (number : ℕ)
            → OnOk result (value_at K.eq self.old.names.pairs name ≡ Some number
            → self.new.names.pairs ≡ self.old.names.pairs) }
        ensures new { OnOk result
            (value_at K.eq self.old.names.pairs name ≡ None
            → self.new.names.pairs
            ≡ self.old.names.pairs ++ (name, length self.old.names.pairs) ∷ []) }
        ensures one_name { IfOk result (λ number. (other : K)
            → value_at K.eq self.new.names.pairs other ≡ Some number → IsTrue (K.eq name other)) }
        ensures below { IfOk result (λ number. number < length self.new.names.pairs) }

        ensures handed_back { IfErr result (λ refused. refused.key ≡ name) }
        ensures unchanged { OnErr result (self.new.names ≡ self.old.names) }
    {
        if let Some(number) = self.names.get(&name) {
            return Ok(*number);
        }
        let next = self.names.len();
        self.names.insert(name, next)?;
        Ok(next)
    }

    /// Returns the name of a number.
    pub fn name_of(&self, number: usize) -> Option<&K>
        ensures { option_copied result ≡ slice_get (keys_of self.now.names.pairs) number }
    {
        self.names.keys().nth(number)
    }
}
