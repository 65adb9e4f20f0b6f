//! How often each word comes.
ghost use Rattle.std.specs.Prelude.{◌≡◌, ◌+◌, ◌<◌, ◌-◌, ◌^◌, ℕ, Some, length, option_map, unwrap_or, IfOk, OnOk, OnErr};
ghost use Rattle.std.specs.List.{count_by};
ghost use Rattle.std.specs.Map.{keys_of};
ghost use Rattle.linked_hash_map.specs.Pairs.{value_at};
ghost use Rattle.linked_hash_map.specs.Updates.{Updates};
ghost use Rattle.uses.specs.Counting.{HasCounts, first_seen};

use linked_hash_map::{LinkedHashMap, Refused};
use std::alloc::Global;
use std::hash::{BuildHasher, Hash};

/// Counts how often each word comes. The words stand in the order in which they first come. If
/// there is no memory for one, that word is handed back.
#[tactic(auto, using(linked_hash_map::proofs::Callers::Rules::counts))]
pub fn counts_of<K: Eq + Hash + Copy>(
    alloc: Global,
    words: &[K],
) -> Result<LinkedHashMap<K, u64>, Refused<K, u64>>
    ensures counts { IfOk result (λ counts. HasCounts K.eq counts.pairs words.now) }
    ensures order { IfOk result (λ counts. keys_of counts.pairs ≡ first_seen K.eq words.now) }
{
    let mut counts = LinkedHashMap::new(alloc);
    for word in words {
        *counts.entry(*word).or_insert(0)? += 1;
    }
    Ok(counts)
}

/// Counts each word that the map has, and leaves out the others.
#[tactic(auto, using(linked_hash_map::proofs::Callers::Counting::known_counts_fit))]
pub fn count_known<K: Eq + Hash, S: BuildHasher>(counts: &mut LinkedHashMap<K, u64, S>, words: &[K])
    requires fits { (word : K) (count : ℕ) → value_at K.eq counts.old.pairs word ≡ Some count
        → count + length words.now < 2 ^ 64 }
    ensures { (word : K) → value_at K.eq counts.new.pairs word
        ≡ option_map (λ count. count + count_by (K.eq word) words.now)
        (value_at K.eq counts.old.pairs word) }
{
    for word in words {
        count_if_known(counts, word);
    }
}

/// Counts one more of a word if the map has it, and otherwise changes nothing.
fn count_if_known<K: Eq + Hash, S: BuildHasher>(counts: &mut LinkedHashMap<K, u64, S>, word: &K)
    requires fits { (count : ℕ) → value_at K.eq counts.old.pairs word.now ≡ Some count
        → count + 1 < 2 ^ 64 }
    ensures { Updates K.eq counts.old.pairs counts.new.pairs word.now
        (option_map (λ count. count + 1) (value_at K.eq counts.old.pairs word.now)) }
{
    if let Some(count) = counts.get_mut(word) {
        *count += 1;
    }
}

/// Counts one more of a word, from 1 on.
pub fn count_one<K: Eq + Hash + Drop, S: BuildHasher>(
    counts: &mut LinkedHashMap<K, u64, S>,
    word: K,
) -> Result<(), Refused<K, u64>>
    requires fits { unwrap_or (value_at K.eq counts.old.pairs word) 0 < 2 ^ 64 - 1 }
    ensures counted { OnOk result (Updates K.eq counts.old.pairs counts.new.pairs word
        (Some (unwrap_or (value_at K.eq counts.old.pairs word) 0 + 1))) }
    ensures unchanged { OnErr result (counts.new ≡ counts.old) }
{
    counts
        .entry(word)
        .and_modify(|count| *count += 1)
        .or_insert(1)?;
    Ok(())
}
