//! Baskets of a shop.
ghost use Rattle.std.specs.Prelude.{◌≡◌, ◌^◌, ◌-◌, ℕ, [], ◌++◌, Some, None, IsFalse, IsNone, IsSome, min, nat_eq, nat_lt, sum, IfErr, IfOk, OnErr, OnOk};
ghost use Rattle.std.specs.List.{All};
ghost use Rattle.std.specs.List.Sorted.{IsPermutation, IsSortedBy, IsStableBy};
ghost use Rattle.std.specs.Map.{values_of};
ghost use Rattle.linked_hash_map.specs.Pairs.{find, from, value_at};

use linked_hash_map::{LinkedHashMap, Refused, ReserveError};
use std::alloc::Global;

/// Articles with their prices, the one that was taken first in front.
#[derive(Drop)]
pub struct Basket {
    prices: LinkedHashMap<u64, u64>,
}

impl Basket {
    /// Makes an empty basket.
    pub fn new(alloc: Global) -> Basket
        ensures { result.prices.pairs ≡ [] }
    {
        Basket {
            prices: LinkedHashMap::new(alloc),
        }
    }

    /// Takes an article, and returns the price that it had if it is there already.
    pub fn take(&mut self, article: u64, price: u64) -> Result<Option<u64>, Refused<u64, u64>>
        ensures before { IfOk result (λ before.
            before ≡ value_at nat_eq self.old.prices.pairs article) }
        ensures here { OnOk result
            (value_at nat_eq self.new.prices.pairs article ≡ Some price) }
        ensures others { (other : ℕ) → OnOk result (IsFalse (nat_eq article other)
            → value_at nat_eq self.new.prices.pairs other
            ≡ value_at nat_eq self.old.prices.pairs other) }
        ensures handed_back { IfErr result (λ refused. refused.key ≡ article) }
        ensures unchanged { OnErr result (self.new ≡ self.old) }
    {
        self.prices.insert(article, price)
    }

    /// Takes all articles of another basket, which is empty then. If none of them is here, they
    /// stand behind those that are. If there is no memory for all, nothing changes.
    #[tactic(auto, using(linked_hash_map::proofs::Callers::NumberRules::appended))]
    pub fn merge(&mut self, other: &mut Basket) -> Result<(), ReserveError>
        ensures joined { OnOk result
            (All (λ pair. find nat_eq self.old.prices.pairs pair.0 ≡ None) other.old.prices.pairs
            → self.new.prices.pairs ≡ self.old.prices.pairs ++ other.old.prices.pairs) }
        ensures emptied { OnOk result (other.new.prices.pairs ≡ []) }
        ensures unchanged { OnErr result (self.new ≡ self.old) }
        ensures other_unchanged { OnErr result (other.new ≡ other.old) }
    {
        self.prices.append(&mut other.prices)
    }

    /// Returns the sum of the prices, or the largest number if it is larger.
    pub fn total(&self) -> u64
        ensures { result ≡ min (sum (values_of self.now.prices.pairs)) (2 ^ 64 - 1) }
    {
        let mut total = 0_u64;
        for (_article, price) in &self.prices {
            total = total.saturating_add(*price);
        }
        total
    }

    /// Returns the sum of the prices from an article on, or the largest number if it is larger, and
    /// `None` if the article is not there.
    pub fn total_from(&self, article: u64) -> Option<u64>
        ensures total { IsSome result → result
            ≡ Some (min (sum (values_of (from nat_eq self.now.prices.pairs article)))
            (2 ^ 64 - 1)) }
        ensures absent { IsNone result → find nat_eq self.now.prices.pairs article ≡ None }
    {
        let mut total = 0_u64;
        for (_article, price) in self.prices.iter_from(&article)? {
            total = total.saturating_add(*price);
        }
        Some(total)
    }

    /// Puts the dearest articles first. Those of the same price keep their order.
    pub fn sort(&mut self)
        ensures sorted { IsSortedBy (λ one two. nat_lt two.1 one.1) self.new.prices.pairs }
        ensures stable { IsStableBy (λ one two. nat_lt two.1 one.1) self.old.prices.pairs
            self.new.prices.pairs }
        ensures same { IsPermutation self.old.prices.pairs self.new.prices.pairs }
        ensures prices { (any : ℕ) → value_at nat_eq self.new.prices.pairs any
            ≡ value_at nat_eq self.old.prices.pairs any }
    {
        self.prices.sort_by(|_article, price, _other, other_price| other_price.cmp(price));
    }
}
