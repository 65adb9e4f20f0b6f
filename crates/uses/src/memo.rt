//! Results of a function, each computed once while the cache has it.
ghost use Rattle.std.specs.Prelude.{◌≡◌, ◌≤◌, ℕ, List, [], false, length, Some, IsSome, IsTrue, None, IfOk, IfErr, IfSome, OnOk, OnErr, nat_eq};
ghost use Rattle.linked_hash_map.specs.Clones.{AreClones};
ghost use Rattle.linked_hash_map.specs.Inserts.{insert_each};
ghost use Rattle.linked_hash_map.specs.Pairs.{find, first, last, value_at, to_back_as_is, without};
ghost use Rattle.lru_cache.specs.Cache.{gone, inserted, IsValidCache};

use linked_hash_map::Mode;
use lru_cache::{LruCache, Refused};
use std::alloc::{AllocError, Global};
use std::hash::{BuildHasher, Hash};

/// A function of numbers, which returns the same for the same number.
pub trait Function {
    /// What it returns for each number.
    ghost of: { ℕ → ℕ };

    /// Computes the result for a number.
    fn compute(&self, number: u64) -> u64
        ensures { result ≡ of number };
}

/// A function with its results for the numbers that were asked for last.
#[derive(Drop)]
pub struct Memo<F: Function> {
    function: F,
    results: LruCache<u64, u64>,
    ghost right: { (number result : ℕ)
        → value_at nat_eq results.pairs number ≡ Some result → result ≡ F.of number },
}

impl<F: Function> Memo<F> {
    /// Makes a table for at most `size` results, in which none is stored.
    pub fn new(alloc: Global, function: F, size: usize) -> Self
        ensures empty { result.results.pairs ≡ [] }
        ensures size { result.results.limit ≡ size }
        ensures function { result.function ≡ function }
    {
        Memo {
            function,
            results: LruCache::new(alloc, size),
        }
    }

    /// Returns the result for a number. If it is stored, it is returned and is then the one used
    /// last, else it is computed and stored. It is also returned if there is no memory to store it.
    pub fn result_for(&mut self, number: u64) -> u64
        ensures result { result ≡ F.of number }
        ensures used { IsSome (value_at nat_eq self.old.results.pairs number)
            → self.new.results.pairs ≡ to_back_as_is nat_eq self.old.results.pairs number }
        ensures size { self.new.results.limit ≡ self.old.results.limit }
        ensures function { self.new.function ≡ self.old.function }
    {
        if let Some(result) = self.results.get(&number) {
            return *result;
        }
        let result = self.function.compute(number);
        let _ = self.results.insert(number, result);
        result
    }

    /// Returns the result for a number if it is stored.
    pub fn stored(&self, number: u64) -> Option<u64>
        ensures stored { result ≡ value_at nat_eq self.now.results.pairs number }
        ensures right { IfSome result (λ result. result ≡ F.of number) }
    {
        self.results.peek(&number).copied()
    }

    /// Returns the number that was asked for least recently of those stored, with its result.
    pub fn oldest(&self) -> Option<(u64, u64)>
        ensures oldest { result ≡ first self.now.results.pairs }
    {
        let (number, result) = self.results.peek_lru()?;
        Some((*number, *result))
    }

    /// Returns the number that was asked for last of those stored, with its result.
    pub fn latest(&self) -> Option<(u64, u64)>
        ensures latest { result ≡ last self.now.results.pairs }
    {
        let (number, result) = self.results.peek_mru()?;
        Some((*number, *result))
    }

    /// Forgets the result for a number.
    pub fn forget(&mut self, number: u64)
        ensures gone { value_at nat_eq self.new.results.pairs number ≡ None }
        ensures others { (other : ℕ) → nat_eq number other ≡ false
            → value_at nat_eq self.new.results.pairs other
            ≡ value_at nat_eq self.old.results.pairs other }
        ensures size { self.new.results.limit ≡ self.old.results.limit }
        ensures function { self.new.function ≡ self.old.function }
    {
        self.results.remove(&number);
    }

    /// Sets how many results are stored at most. Those used least recently are forgotten.
    pub fn resize(&mut self, size: usize)
        ensures within { length self.new.results.pairs ≤ size }
        ensures size { self.new.results.limit ≡ size }
        ensures function { self.new.function ≡ self.old.function }
    {
        self.results.set_capacity(size);
    }
}

/// Copies a cache. Of pairs whose clones of keys are the same the later replaces the earlier. It is
/// refused if an allocation or a clone fails.
pub fn copy_of<K: Eq + Hash + Clone, V: Clone, S: BuildHasher + Clone>(
    cache: &LruCache<K, V, S>,
) -> Result<LruCache<K, V, S>, AllocError>
    ensures pairs { IfOk result (λ copy. (clones : List (K × V))
        × AreClones K.is_clone V.is_clone cache.now.pairs clones
        × (copy.pairs ≡ insert_each K.eq Mode.Touch [] clones)) }
    ensures in_order { ((key : K) (clone : K) → K.is_clone key clone → IsTrue (K.eq key clone))
        → IfOk result (λ copy. AreClones K.is_clone V.is_clone cache.now.pairs copy.pairs) }
    ensures same { ((key : K) (clone : K) → K.is_clone key clone → clone ≡ key)
        → ((value : V) (clone : V) → V.is_clone value clone → clone ≡ value)
        → IfOk result (λ copy. copy.pairs ≡ cache.now.pairs) }
    ensures limit { IfOk result (λ copy. copy.limit ≡ cache.now.limit) }
    ensures room { IfOk result (λ copy. copy.room ≡ length cache.now.pairs) }
    ensures hasher { IfOk result (λ copy. S.is_clone cache.now.hasher copy.hasher) }
    ensures valid { IfOk result (IsValidCache K.eq) }
{
    cache.clone()
}

/// Moves the pair of a key, if present, from one cache to another, as the one used last there.
/// Returns the pair that goes for it. A pair that is refused is handed back.
pub fn move_pair<K: Eq + Hash + Drop, V: Drop, S: BuildHasher>(
    from: &mut LruCache<K, V, S>,
    to: &mut LruCache<K, V, S>,
    key: &K,
) -> Result<Option<(K, V)>, Refused<K, V>>
    ensures taken { from.new.pairs ≡ without K.eq from.old.pairs key.now }
    ensures here { OnOk result (IfSome (find K.eq from.old.pairs key.now) (λ pair.
        to.new.pairs ≡ inserted K.eq to.old.limit to.old.pairs pair.0 pair.1)) }
    ensures gone { IfOk result (λ left. IfSome (find K.eq from.old.pairs key.now) (λ pair.
        left ≡ gone K.eq to.old.limit to.old.pairs pair.0 pair.1)) }
    ensures absent { find K.eq from.old.pairs key.now ≡ None → to.new ≡ to.old }

    ensures handed_back { IfErr result (λ refused.
        find K.eq from.old.pairs key.now ≡ Some (refused.key, refused.value)) }
    ensures unchanged { OnErr result (to.new ≡ to.old) }
{
    let Some((key, value)) = from.remove_entry(key) else {
        return Ok(None);
    };
    to.put(key, value)
}
