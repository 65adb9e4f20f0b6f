//! Numbers by text.
ghost use Rattle.std.specs.Prelude.{◌≡◌, ◌+◌, ◌-◌, ◌^◌, ◌∷◌, ◌++◌, [], ℕ, List, String, Some, false, length, map, min, unwrap_or, IfOk, OnOk, OnErr};
ghost use Rattle.std.specs.Map.{values_of};
ghost use Rattle.std.specs.Map.Iter.{deref_pair, ShowsInOrder};
ghost use Rattle.std.specs.Str.{bytes_eq};
ghost use Rattle.std.specs.declared.alloc.Global.{Global};
ghost use Rattle.linked_hash_map.specs.Pairs.{value_at, without};
ghost use Rattle.upgrade.specs.Texts.{as_texts};

use linked_hash_map::{Iter, LinkedHashMap};
use std::alloc::{AllocError, Global};
use std::marker::Model;

/// Numbers by text, in the order in which they were last set.
#[derive(Drop)]
pub struct TextMap {
    numbers: LinkedHashMap<String, u64>,
}

/// A contract sees the texts as bytes, each with its number.
impl Model for TextMap {
    ghost use Rattle.std.specs.Prelude.{◌≡◌, ℕ, List};
    ghost use Rattle.linked_hash_map.specs.declared.map.Mode.{Mode};
    ghost use Rattle.upgrade.specs.Texts.{as_texts};

    ghost Value = { List (List ℕ × ℕ) };

    ghost view = { λ m. as_texts m.numbers.pairs };

    ghost invariant = { λ m. m.numbers.mode ≡ Mode.Touch };
}

impl TextMap {
    /// Makes a map without texts.
    pub fn new(alloc: Global) -> Self
        ensures { result ≡ [] }
    {
        TextMap {
            numbers: LinkedHashMap::new(alloc),
        }
    }

    /// Sets the number of a text, which goes behind the others.
    pub fn set(&mut self, alloc: Global, text: &str, number: u64) -> Result<(), AllocError>
        ensures set { OnOk result (self.new
            ≡ without bytes_eq self.old text.now ++ (text.now, number) ∷ []) }
        ensures unchanged { OnErr result (self.new ≡ self.old) }
    {
        self.numbers.insert(text.to_string(alloc)?, number)?;
        Ok(())
    }

    /// Returns the number of a text.
    pub fn get(&self, text: &str) -> Option<u64>
        ensures { result ≡ value_at bytes_eq self.now text.now }
    {
        self.numbers.get(text).copied()
    }

    /// Removes a text, and returns its number.
    pub fn remove(&mut self, text: &str) -> Option<u64>
        ensures number { result ≡ value_at bytes_eq self.old text.now }
        ensures others { self.new ≡ without bytes_eq self.old text.now }
    {
        self.numbers.remove(text)
    }

    /// Returns how many texts there are.
    pub fn len(&self) -> usize
        ensures { result ≡ length self.now }
    {
        self.numbers.len()
    }

    /// Goes over the texts and their numbers, in order.
    pub fn iter(&self) -> Iter<'_, String, u64>
        ensures texts { as_texts result ≡ self.now }
        ensures runs { ShowsInOrder (deref_pair {K = String Global} {X = ℕ}) }
    {
        self.numbers.iter()
    }
}

/// Adds to the number of a text, up to the largest one, and returns the sum.
pub fn add(alloc: Global, totals: &mut TextMap, text: &str, amount: u64) -> Result<u64, AllocError>
    ensures sum { IfOk result (λ sum. sum
        ≡ min (unwrap_or (value_at bytes_eq totals.old text.now) 0 + amount) (2 ^ 64 - 1)) }
    ensures here { IfOk result (λ sum. value_at bytes_eq totals.new text.now ≡ Some sum) }
    ensures others { (other : List ℕ) → bytes_eq text.now other ≡ false
        → value_at bytes_eq totals.new other ≡ value_at bytes_eq totals.old other }
    ensures unchanged { OnErr result (totals.new ≡ totals.old) }
{
    let before = totals.get(text).unwrap_or(0);
    let sum = before.saturating_add(amount);
    totals.set(alloc, text, sum)?;
    Ok(sum)
}

/// Returns the numbers, in order.
pub fn numbers(alloc: Global, totals: &TextMap) -> Result<Vec<u64>, AllocError>
    ensures { IfOk result (λ numbers. numbers.items ≡ values_of totals.now) }
{
    let mut numbers = Vec::new(alloc);
    for pair in totals.iter() {
        numbers.push(*pair.1)?;
    }
    Ok(numbers)
}
