//! Pairs that a test keeps, with no list of keys beside the map.
ghost use Rattle.std.specs.Prelude.{◌≡◌, ◌/◌, filter, map, nat_le};
ghost use Rattle.linked_hash_map.specs.Changes.{Keeps};

use linked_hash_map::LinkedHashMap;
use std::hash::{BuildHasher, Hash};

/// Keeps the words that were counted at least `least` times, in order.
pub fn keep_frequent<K: Eq + Hash + Drop, S: BuildHasher>(
    counts: &mut LinkedHashMap<K, u64, S>,
    least: u64,
)
    ensures pairs { counts.new.pairs ≡ filter (λ pair. nat_le least pair.1) counts.old.pairs }
    ensures keeps { Keeps counts.old counts.new }
{
    counts.retain(|_word, count| *count >= least);
}

/// Halves each count, and keeps the words whose count was above 1.
pub fn age<K: Eq + Hash + Drop, S: BuildHasher>(counts: &mut LinkedHashMap<K, u64, S>)
    ensures pairs { counts.new.pairs
        ≡ map (λ pair. (pair.0, pair.1 / 2)) (filter (λ pair. nat_le 2 pair.1) counts.old.pairs) }
    ensures keeps { Keeps counts.old counts.new }
{
    counts.retain(|_word, count| {
        let stays = *count >= 2;
        *count /= 2;
        stays
    });
}
