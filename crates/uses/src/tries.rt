//! Failed logins, counted for the addresses that failed last.
ghost use Rattle.std.specs.Prelude.{◌≡◌, ◌+◌, ◌-◌, ◌<◌, ◌^◌, ℕ, [], Some, IsFalse, min, nat_eq, nat_lt, not, unwrap_or, IfErr, IfOk, OnErr};
ghost use Rattle.linked_hash_map.specs.Pairs.{value_at, without};
ghost use Rattle.lru_cache.specs.Cache.{inserted};

use lru_cache::{LruCache, Refused};
use std::alloc::Global;

/// How often each address failed, the one that failed longest ago first, and how often it may.
#[derive(Drop)]
pub struct Tries {
    failed: LruCache<u64, u64>,
    most: u64,
    ghost some: { 0 < failed.limit },
}

impl Tries {
    /// Makes a list of at most `addresses` addresses, each of which may fail `most` times.
    pub fn new(alloc: Global, addresses: usize, most: u64) -> Tries
        requires some { 0 < addresses }
        ensures none { result.failed.pairs ≡ [] }
        ensures addresses { result.failed.limit ≡ addresses }
        ensures most { result.most ≡ most }
    {
        Tries {
            failed: LruCache::new(alloc, addresses),
            most,
        }
    }

    /// Returns how often an address failed, 0 if it is not on the list.
    pub fn count(&self, address: u64) -> u64
        ensures { result ≡ unwrap_or (value_at nat_eq self.now.failed.pairs address) 0 }
    {
        match self.failed.peek(&address) {
            Some(count) => *count,
            None => 0,
        }
    }

    /// Returns whether an address failed as often as it may.
    pub fn is_locked(&self, address: u64) -> bool
        ensures { result
            ≡ not (nat_lt (unwrap_or (value_at nat_eq self.now.failed.pairs address) 0)
            self.now.most) }
    {
        self.most <= self.count(address)
    }

    /// Counts a failure of an address, and returns how often it failed, at most `u64::MAX`. If a
    /// new one finds the list full, the address that failed longest ago leaves. If there is no
    /// memory, nothing changes.
    pub fn fail(&mut self, address: u64) -> Result<u64, Refused<u64, u64>>
        ensures count { IfOk result (λ count. count
            ≡ min (unwrap_or (value_at nat_eq self.old.failed.pairs address) 0 + 1)
            (2 ^ 64 - 1)) }
        ensures failed { IfOk result (λ count. self.new.failed.pairs
            ≡ inserted nat_eq self.old.failed.limit self.old.failed.pairs address count) }
        ensures here { IfOk result (λ count.
            value_at nat_eq self.new.failed.pairs address ≡ Some count) }
        ensures most { self.new.most ≡ self.old.most }
        ensures handed_back { IfErr result (λ refused. refused.key ≡ address) }
        ensures unchanged { OnErr result (self.new ≡ self.old) }
    {
        let count = self.count(address).saturating_add(1);
        self.failed.insert(address, count)?;
        Ok(count)
    }

    /// Takes an address off the list, and returns how often it failed.
    pub fn succeed(&mut self, address: u64) -> u64
        ensures count { result ≡ unwrap_or (value_at nat_eq self.old.failed.pairs address) 0 }
        ensures failed { self.new.failed.pairs
            ≡ without nat_eq self.old.failed.pairs address }
        ensures others { (other : ℕ) → IsFalse (nat_eq address other)
            → value_at nat_eq self.new.failed.pairs other
            ≡ value_at nat_eq self.old.failed.pairs other }
        ensures most { self.new.most ≡ self.old.most }
    {
        self.failed.remove(&address).unwrap_or(0)
    }
}
