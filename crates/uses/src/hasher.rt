//! Maps with a build hasher that is handed in.
ghost use Rattle.std.specs.Prelude.{◌≡◌, [], IfOk};

use linked_hash_map::LinkedHashMap;
use std::alloc::Global;
use std::hash::{Hash, RandomState};
use std::io;
use std::random::RandomSource;

/// Makes an empty map for keys that strangers choose: its build hasher has a random seed, so that
/// nobody can choose keys that collide. It is refused if the system gives no random numbers.
pub fn for_strangers<K: Eq + Hash, V>(
    rt: &impl RandomSource,
    alloc: Global,
) -> io::Result<LinkedHashMap<K, V, RandomState>>
    ensures pairs { IfOk result (λ map. map.pairs ≡ []) }
    ensures capacity { IfOk result (λ map. map.capacity ≡ 0) }
{
    let hasher = RandomState::new(rt)?;
    Ok(LinkedHashMap::with_hasher(alloc, hasher))
}
