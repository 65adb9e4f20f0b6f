//! The stock of a shop: how many there are of each article.
ghost use Rattle.std.specs.Prelude.{◌≡◌, ◌+◌, ◌-◌, ◌^◌, ℕ, [], IsFalse, IsTrue, min, nat_eq, nat_lt, not, unwrap_or, IfErr, IfOk, OnErr, OnOk};
ghost use Rattle.linked_hash_map.specs.Pairs.{put, set_value, value_at};
ghost use Rattle.linked_hash_map.specs.declared.map.Mode.{Mode};

use linked_hash_map::{LinkedHashMap, Refused};
use std::alloc::Global;

/// The articles by number, in the order in which each came first, with how many there are.
#[derive(Drop)]
pub struct Stock {
    counts: LinkedHashMap<u64, u64>,
}

impl Stock {
    /// Makes a stock of nothing.
    pub fn new(alloc: Global) -> Stock
        ensures { result.counts.pairs ≡ [] }
    {
        Stock {
            counts: LinkedHashMap::new(alloc),
        }
    }

    /// Returns how many there are of an article, 0 if it never came.
    pub fn count(&self, article: u64) -> u64
        ensures { result ≡ unwrap_or (value_at nat_eq self.now.counts.pairs article) 0 }
    {
        match self.counts.get(&article) {
            Some(count) => *count,
            None => 0,
        }
    }

    /// Puts some of an article in, and returns how many there are then, at most `u64::MAX`. A new
    /// article goes behind the others, which keep their places. If there is no memory for it,
    /// nothing changes.
    pub fn receive(&mut self, article: u64, count: u64) -> Result<u64, Refused<u64, u64>>
        ensures total { IfOk result (λ total. total
            ≡ min (unwrap_or (value_at nat_eq self.old.counts.pairs article) 0 + count)
            (2 ^ 64 - 1)) }
        ensures counts { IfOk result (λ total. self.new.counts.pairs
            ≡ put nat_eq Mode.Keep self.old.counts.pairs article total) }
        ensures others { (other : ℕ) → OnOk result (IsFalse (nat_eq article other)
            → value_at nat_eq self.new.counts.pairs other
            ≡ value_at nat_eq self.old.counts.pairs other) }
        ensures handed_back { IfErr result (λ refused. refused.key ≡ article) }
        ensures unchanged { OnErr result (self.new ≡ self.old) }
    {
        let total = self.count(article).saturating_add(count);
        self.counts.replace(article, total)?;
        Ok(total)
    }

    /// Takes some of an article out, and returns whether there were as many. If not, nothing
    /// changes.
    #[tactic(auto, using(linked_hash_map::proofs::Callers::NumberRules::written))]
    pub fn take(&mut self, article: u64, count: u64) -> bool
        ensures enough { result
            ≡ not (nat_lt (unwrap_or (value_at nat_eq self.old.counts.pairs article) 0) count) }
        ensures counts { IsTrue result → self.new.counts.pairs
            ≡ set_value nat_eq self.old.counts.pairs article
            (unwrap_or (value_at nat_eq self.old.counts.pairs article) 0 - count) }
        ensures others { (other : ℕ) → IsFalse (nat_eq article other)
            → value_at nat_eq self.new.counts.pairs other
            ≡ value_at nat_eq self.old.counts.pairs other }
        ensures unchanged { IsFalse result → self.new ≡ self.old }
    {
        let there = self.count(article);
        if there < count {
            return false;
        }
        match self.counts.get_mut(&article) {
            Some(stored) => {
                *stored = there - count;
                true
            }
            None => true,
        }
    }
}
