//! A price list.
ghost use Rattle.std.specs.Prelude.{◌≡◌, nat_eq, option_copied};
ghost use Rattle.std.specs.Borrow.{sem};
ghost use Rattle.std.specs.List.Sorted.{IsNonDecreasingBy, IsPermutation};
ghost use Rattle.std.specs.Map.{keys_of};
ghost use Rattle.linked_hash_map.specs.Pairs.{value_at, KeysStand};
ghost use Rattle.linked_hash_map.specs.ValueIterators.{pairs_left, loan_name};

use linked_hash_map::{IterMut, LinkedHashMap};

/// The prices of items, by their numbers, and the year in which they hold.
#[derive(Drop)]
pub struct Prices {
    items: LinkedHashMap<u64, u64>,
    year: u64,
}

impl Prices {
    ghost use Rattle.uses.specs.Lending.{lends_prices};

    /// Makes a list of these prices.
    pub fn new(items: LinkedHashMap<u64, u64>, year: u64) -> Self
        ensures items { result.items ≡ items }
        ensures year { result.year ≡ year }
    {
        Prices { items, year }
    }

    /// Returns the price of an item.
    pub fn get(&self, item: u64) -> Option<&u64>
        ensures { option_copied result ≡ value_at nat_eq self.now.items.pairs item }
    {
        self.items.get(&item)
    }

    /// Returns the year.
    pub fn year(&self) -> u64
        ensures { result ≡ self.now.year }
    {
        self.year
    }

    /// Lends all prices for writing, in order. The items stand, each in its place, and so does the
    /// year.
    pub fn iter_mut(&mut self) -> IterMut<'_, u64, u64>
        ensures* writes_back { sem 𝓛 (lends_prices self.entry (loan_name result)) }
        // A law of lists, for the proofs of callers.
        ensures keeps { KeysStand self.old.items.pairs }
        ensures rest { pairs_left result ≡ self.old.items.pairs }
    {
        self.items.iter_mut()
    }

    /// Sorts the items by their prices, the cheapest first.
    pub fn sort(&mut self)
        ensures sorted { IsNonDecreasingBy (λ item. item.1) self.new.items.pairs }
        ensures same { IsPermutation self.old.items.pairs self.new.items.pairs }
        ensures year { self.new.year ≡ self.old.year }
    {
        self.items
            .sort_by(|_item, price, _other, other_price| price.cmp(other_price));
    }
}

/// Lowers each price to a limit: a loop over the prices that the list lends.
pub fn limit(prices: &mut Prices, most: u64)
    ensures items { keys_of prices.new.items.pairs ≡ keys_of prices.old.items.pairs }
    ensures year { prices.new.year ≡ prices.old.year }
{
    for (_item, price) in prices.iter_mut() {
        if *price > most {
            *price = most;
        }
    }
}
