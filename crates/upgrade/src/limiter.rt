//! How often the last ids were used.
ghost use Rattle.std.specs.Prelude.{◌≡◌, ◌==◌, ◌+◌, ◌-◌, ◌<◌, ◌≤◌, ◌^◌, [], ◌∷◌, ◌++◌, Some, None, IsSome, if◌then◌else◌, length, min, unwrap_or, IfOk, OnOk, OnErr};
ghost use Rattle.std.specs.Map.{keys_of};
ghost use Rattle.linked_hash_map.specs.Pairs.{find, value_at, without_first};
ghost use Rattle.upgrade.specs.Texts.{as_texts, names};

use linked_hash_map::{LinkedHashMap, ReserveError};
use std::alloc::{AllocError, Global};

/// A count for each of at most `limit` ids, in the order in which the ids came.
#[derive(Drop)]
pub struct Limiter {
    counts: LinkedHashMap<String, u64>,
    limit: usize,
    ghost some: { 0 < limit },
    ghost within: { length counts.pairs ≤ limit },
    ghost room: { limit ≤ counts.capacity },
}

impl Limiter {
    /// Makes a limiter without ids.
    pub fn new(alloc: Global, limit: usize) -> Result<Self, ReserveError>
        requires some { 0 < limit }
        ensures empty { IfOk result (λ limiter. limiter.counts.pairs ≡ []) }
        ensures limit { IfOk result (λ limiter. limiter.limit ≡ limit) }
    {
        let counts = LinkedHashMap::with_capacity(alloc, limit)?;
        Ok(Limiter { counts, limit })
    }

    /// Returns the number of ids.
    pub fn len(&self) -> usize
        ensures len { result ≡ length self.now.counts.pairs }
        ensures within { result ≤ self.now.limit }
    {
        self.counts.len()
    }

    /// Counts a use of an id, and returns how many there are. If the id is new and there are
    /// `limit` of them, the oldest one goes.
    pub fn hit(&mut self, alloc: Global, id: &str) -> Result<u64, AllocError>
        ensures count { IfOk result (λ count. count
            ≡ min (unwrap_or (value_at names self.old.counts.pairs id.now) 0 + 1) (2 ^ 64 - 1)) }
        ensures here { IfOk result (λ count.
            value_at names self.new.counts.pairs id.now ≡ Some count) }
        ensures within { length self.new.counts.pairs ≤ self.new.limit }
        ensures limit { self.new.limit ≡ self.old.limit }
        ensures known { OnOk result (IsSome (find names self.old.counts.pairs id.now)
            → keys_of self.new.counts.pairs ≡ keys_of self.old.counts.pairs) }
        ensures new { OnOk result (find names self.old.counts.pairs id.now ≡ None
            → as_texts self.new.counts.pairs ≡ as_texts
            (if length self.old.counts.pairs == self.old.limit
            then without_first self.old.counts.pairs else self.old.counts.pairs)
            ++ (id.now, 1) ∷ []) }
        ensures unchanged { OnErr result (self.new ≡ self.old) }
    {
        if let Some(count) = self.counts.get_mut(id) {
            *count = count.saturating_add(1);
            return Ok(*count);
        }
        let name = id.to_string(alloc)?;
        self.make_place();
        match self.counts.insert(name, 1) {
            Ok(_none) => Ok(1),
            Err(_refused) => unreachable!(),
        }
    }

    /// Takes out the oldest id if there are `limit` of them.
    fn make_place(&mut self)
        ensures pairs { self.new.counts.pairs
            ≡ (if length self.old.counts.pairs == self.old.limit
            then without_first self.old.counts.pairs else self.old.counts.pairs) }
        ensures limit { self.new.limit ≡ self.old.limit }
    {
        if self.counts.len() == self.limit {
            self.counts.pop_front();
        }
    }
}
