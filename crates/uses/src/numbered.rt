//! Items under numbers, each of which is given out once.
ghost use Rattle.std.specs.Prelude.{◌≡◌, ◌≤◌, ◌+◌, ℕ, [], ◌∷◌, ◌++◌, Some, None, nat_eq, option_copied, IfOk, IfErr, OnOk, OnErr};
ghost use Rattle.linked_hash_map.specs.Pairs.{value_at, without};

use linked_hash_map::{LinkedHashMap, Refused};
use std::alloc::Global;

/// Items under the numbers 0, 1, 2 and so on, in the order in which they came. A number is never
/// given out again, also once its item is taken out.
#[derive(Drop)]
pub struct Numbered<V> {
    items: LinkedHashMap<u64, V>,
    next: u64,
    ghost fresh: { (number : ℕ) → next ≤ number → value_at nat_eq items.pairs number ≡ None },
}

impl<V> Numbered<V> {
    /// Makes a table without items.
    pub fn new(alloc: Global) -> Self
        ensures { result.items.pairs ≡ [] }
    {
        Numbered {
            items: LinkedHashMap::new(alloc),
            next: 0,
        }
    }

    /// Puts an item in under the next number, which is new, and returns the number. The item comes
    /// back if an allocation fails or no number is left.
    pub fn add(&mut self, item: V) -> Result<u64, Refused<u64, V>>
    where
        V: Drop,
        ensures number { IfOk result (λ number. number ≡ self.old.next) }
        ensures next { OnOk result (self.new.next ≡ self.old.next + 1) }
        ensures pushed { OnOk result
            (self.new.items.pairs ≡ self.old.items.pairs ++ (self.old.next, item) ∷ []) }

        ensures handed_back { IfErr result (λ refused. refused.value ≡ item) }
        ensures unchanged { OnErr result (self.new.items ≡ self.old.items) }
    {
        let number = self.next;
        if number == u64::MAX {
            return Err(Refused {
                key: number,
                value: item,
            });
        }
        self.items.insert(number, item)?;
        self.next = number + 1;
        Ok(number)
    }

    /// Returns the item of a number.
    pub fn get(&self, number: u64) -> Option<&V>
        ensures { option_copied result ≡ value_at nat_eq self.now.items.pairs number }
    {
        self.items.get(&number)
    }

    /// Takes the item of a number out. The others keep their numbers and their order.
    pub fn take(&mut self, number: u64) -> Option<V>
        ensures item { result ≡ value_at nat_eq self.old.items.pairs number }
        ensures others { self.new.items.pairs ≡ without nat_eq self.old.items.pairs number }
        ensures gone { value_at nat_eq self.new.items.pairs number ≡ None }
        ensures next { self.new.next ≡ self.old.next }
    {
        self.items.remove(&number)
    }
}

/// Puts two items in under numbers in a row, and returns the first number. What does not find its
/// place comes back: the first item, or the second with the first one in.
#[tactic(auto, using(linked_hash_map::proofs::Callers::Rules::new_numbers))]
pub fn add_both<V: Drop>(
    table: &mut Numbered<V>,
    first: V,
    second: V,
) -> Result<u64, Refused<u64, V>>
    ensures first { IfOk result (λ number.
        value_at nat_eq table.new.items.pairs number ≡ Some first) }
    ensures second { IfOk result (λ number.
        value_at nat_eq table.new.items.pairs (number + 1) ≡ Some second) }
{
    let number = table.add(first)?;
    table.add(second)?;
    Ok(number)
}
