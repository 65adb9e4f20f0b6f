//! Vector clocks: how many events of each node are known.
ghost use Rattle.std.specs.Prelude.{◌≡◌, ◌≤◌, max, OnOk, IsTrue};
ghost use Rattle.uses.specs.Counting.{known};

use linked_hash_map::{LinkedHashMap, Refused};
use std::hash::Hash;

/// Takes what another clock knows into this one: of each node the larger count.
#[tactic(auto, using(linked_hash_map::proofs::Callers::Merging::merges))]
pub fn merge<K: Eq + Hash + Copy>(
    clock: &mut LinkedHashMap<K, u64>,
    other: &LinkedHashMap<K, u64>,
) -> Result<(), Refused<K, u64>>
    ensures merged { (node : K) → OnOk result (known K.eq clock.new.pairs node
        ≡ max (known K.eq clock.old.pairs node) (known K.eq other.now.pairs node)) }
    ensures most { (node : K)
        → known K.eq clock.old.pairs node ≤ known K.eq clock.new.pairs node }
{
    for (node, count) in other {
        let known = clock.entry(*node).or_insert(0)?;
        *known = (*known).max(*count);
    }
    Ok(())
}

/// Returns whether this clock knows all that the other one knows.
pub fn covers<K: Eq + Hash>(clock: &LinkedHashMap<K, u64>, other: &LinkedHashMap<K, u64>) -> bool
    ensures yes { (node : K) → IsTrue result
        → known K.eq other.now.pairs node ≤ known K.eq clock.now.pairs node }
{
    for (node, count) in other {
        if clock.get(node).copied().unwrap_or(0) < *count {
            return false;
        }
    }
    true
}
