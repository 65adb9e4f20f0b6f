//! The bids of an auction.
ghost use Rattle.std.specs.Prelude.{◌≡◌, ◌+◌, ◌-◌, ◌<◌, ◌^◌, ℕ, [], ◌∷◌, ◌++◌, Some, IsFalse, IsTrue, filter, is_some, length, map, min, nat_eq, nat_lt, sum, if◌then◌else◌, IfErr, OnErr, OnOk};
ghost use Rattle.std.specs.Map.{values_of};
ghost use Rattle.linked_hash_map.specs.Pairs.{find, value_at};

use linked_hash_map::{LinkedHashMap, Refused};
use std::alloc::Global;

/// The bidders in the order of their first bids, each with the highest bid.
#[derive(Drop)]
pub struct Bids {
    amounts: LinkedHashMap<u64, u64>,
}

impl Bids {
    /// Begins an auction without bids.
    pub fn new(alloc: Global) -> Bids
        ensures { result.amounts.pairs ≡ [] }
    {
        Bids {
            amounts: LinkedHashMap::new(alloc),
        }
    }

    /// Takes a first bid. A bidder who has one keeps it.
    pub fn open(&mut self, bidder: u64, amount: u64) -> Result<(), Refused<u64, u64>>
        ensures bids { OnOk result (self.new.amounts.pairs
            ≡ (if is_some (find nat_eq self.old.amounts.pairs bidder) then self.old.amounts.pairs
            else self.old.amounts.pairs ++ (bidder, amount) ∷ [])) }
        ensures handed_back { IfErr result (λ refused. refused.key ≡ bidder) }
        ensures unchanged { OnErr result (self.new ≡ self.old) }
    {
        if !self.amounts.contains_key(&bidder) {
            self.amounts.insert(bidder, amount)?;
        }
        Ok(())
    }

    /// Raises the bid of a bidder, and returns whether there was a lower one.
    pub fn raise(&mut self, bidder: u64, amount: u64) -> bool
        ensures raised { IsTrue result
            → value_at nat_eq self.new.amounts.pairs bidder ≡ Some amount }
        ensures others { (other : ℕ) → IsFalse (nat_eq bidder other)
            → value_at nat_eq self.new.amounts.pairs other
            ≡ value_at nat_eq self.old.amounts.pairs other }
        ensures unchanged { IsFalse result → self.new ≡ self.old }
    {
        let Some(bid) = self.amounts.get(&bidder) else {
            return false;
        };
        if amount <= *bid {
            return false;
        }
        if let Some(bid) = self.amounts.get_mut(&bidder) {
            *bid = amount;
        }
        true
    }

    /// Takes a fee off each bid, drops those that it uses up, and returns how many these are.
    #[tactic(auto, using(linked_hash_map::proofs::Callers::NumberRules::number_changes))]
    pub fn charge(&mut self, fee: u64) -> usize
        ensures left { self.new.amounts.pairs ≡ map (λ bid. (bid.0, bid.1 - fee))
            (filter (λ bid. nat_lt fee bid.1) self.old.amounts.pairs) }
        ensures dropped { result + length self.new.amounts.pairs
            ≡ length self.old.amounts.pairs }
    {
        let before = self.amounts.len();
        let bids = self.amounts.visit();
        while let Some(mut bid) = bids.next_entry() {
            let amount = *bid.get();
            if fee < amount {
                *bid.get_mut() = amount - fee;
                // The proof needs this read to know the value written.
                let _ = bid.get();
            } else {
                bid.remove();
            }
        }
        before - self.amounts.len()
    }

    /// Returns the sum of the bids, or the largest number if it is larger.
    pub fn total(&self) -> u64
        ensures { result ≡ min (sum (values_of self.now.amounts.pairs)) (2 ^ 64 - 1) }
    {
        let mut total = 0_u64;
        for amount in self.amounts.values() {
            total = total.saturating_add(*amount);
        }
        total
    }
}
