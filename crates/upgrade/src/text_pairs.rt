//! Numbers by text, as pairs.
ghost use Rattle.std.specs.Prelude.{◌≡◌, ◌+◌, ◌-◌, ◌^◌, [], ℕ, String, Some, None, IfSome, false, length, min, option_map, string_eq, unwrap_or, IfOk, OnOk, OnErr};
ghost use Rattle.std.specs.Map.{values_of};
ghost use Rattle.std.specs.Map.Iter.{deref_pair, ShowsInOrder};
ghost use Rattle.std.specs.declared.alloc.Global.{Global};
ghost use Rattle.linked_hash_map.specs.Pairs.{last, value_at, without};
ghost use Rattle.linked_hash_map.specs.Updates.{UpdatesBy};
ghost use Rattle.upgrade.specs.Texts.{names};

use linked_hash_map::{Iter, LinkedHashMap};
use std::alloc::{AllocError, Global};
use std::marker::Model;

/// Numbers by text, in the order in which they were last set.
#[derive(Drop)]
pub struct TextPairs {
    numbers: LinkedHashMap<String, u64>,
}

/// A contract sees the pairs.
impl Model for TextPairs {
    ghost use Rattle.std.specs.Prelude.{◌≡◌, ℕ, List, String};
    ghost use Rattle.std.specs.declared.alloc.Global.{Global};
    ghost use Rattle.linked_hash_map.specs.declared.map.Mode.{Mode};

    ghost Value = { List (String Global × ℕ) };

    ghost view = { λ m. m.numbers.pairs };

    ghost invariant = { λ m. m.numbers.mode ≡ Mode.Touch };
}

impl TextPairs {
    /// Makes a map without texts.
    pub fn new(alloc: Global) -> Self
        ensures { result ≡ [] }
    {
        TextPairs {
            numbers: LinkedHashMap::new(alloc),
        }
    }

    /// Sets the number of a text, which goes behind the others.
    pub fn set(&mut self, alloc: Global, text: &str, number: u64) -> Result<(), AllocError>
        ensures updates { OnOk result
            (UpdatesBy string_eq self.old self.new (names text.now) (Some number)) }
        ensures last { OnOk result (IfSome (last self.new) (λ pair. pair.1 ≡ number)) }
        ensures unchanged { OnErr result (self.new ≡ self.old) }
    {
        self.numbers.insert(text.to_string(alloc)?, number)?;
        Ok(())
    }

    /// Returns the number of a text.
    pub fn get(&self, text: &str) -> Option<u64>
        ensures { result ≡ value_at names self.now text.now }
    {
        self.numbers.get(text).copied()
    }

    /// Removes a text, and returns its number.
    pub fn remove(&mut self, text: &str) -> Option<u64>
        ensures number { result ≡ value_at names self.old text.now }
        ensures others { self.new ≡ without names self.old text.now }
        ensures updates { UpdatesBy string_eq self.old self.new (names text.now) None }
    {
        self.numbers.remove(text)
    }

    /// Returns how many texts there are.
    pub fn len(&self) -> usize
        ensures { result ≡ length self.now }
    {
        self.numbers.len()
    }

    /// Goes over the texts and their numbers, in order.
    pub fn iter(&self) -> Iter<'_, String, u64>
        ensures pairs { result ≡ self.now }
        ensures runs { ShowsInOrder (deref_pair {K = String Global} {X = ℕ}) }
    {
        self.numbers.iter()
    }
}

/// Adds to the number of a text, up to the largest one, and returns the sum.
pub fn add(
    alloc: Global,
    totals: &mut TextPairs,
    text: &str,
    amount: u64,
) -> Result<u64, AllocError>
    ensures sum { IfOk result (λ sum. sum
        ≡ min (unwrap_or (value_at names totals.old text.now) 0 + amount) (2 ^ 64 - 1)) }
    ensures here { IfOk result (λ sum. value_at names totals.new text.now ≡ Some sum) }
    ensures others { (other : String Global) → names text.now other ≡ false
        → value_at string_eq totals.new other ≡ value_at string_eq totals.old other }
    ensures unchanged { OnErr result (totals.new ≡ totals.old) }
{
    let before = totals.get(text).unwrap_or(0);
    let sum = before.saturating_add(amount);
    totals.set(alloc, text, sum)?;
    Ok(sum)
}

/// Returns the numbers, in order.
pub fn numbers(alloc: Global, totals: &TextPairs) -> Result<Vec<u64>, AllocError>
    ensures { IfOk result (λ numbers. numbers.items ≡ values_of totals.now) }
{
    let mut numbers = Vec::new(alloc);
    for pair in totals.iter() {
        numbers.push(*pair.1)?;
    }
    Ok(numbers)
}
