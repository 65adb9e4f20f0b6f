//! The example of docs/PROVING.md.
ghost use Rattle.std.specs.Prelude.{◌≡◌, ◌∷◌, [], IfOk};

use super::assert_pairs;
use super::support::checks::{check_eq, given};
use linked_hash_map::{LinkedHashMap, Refused};
use std::alloc::Global;

fn example(alloc: Global) -> Result<LinkedHashMap<u64, u64>, Refused<u64, u64>>
    ensures pairs { IfOk result (λ map. map.pairs ≡ (1, 10) ∷ (2, 21) ∷ []) }
    ensures capacity { IfOk result (λ map. map.capacity ≡ 2) }
{
    let mut map = LinkedHashMap::new(alloc);
    map.insert(2, 20)?;
    map.insert(1, 10)?;
    // The key is present: its pair moves to the back, and no memory is taken.
    map.insert(2, 21)?;
    Ok(map)
}

#[test]
fn runs_the_example_of_calling(rt: HostRuntime) {
    let map = given!(rt; example(rt.alloc()));
    assert_pairs(&rt, &map, &[(1, 10), (2, 21)]);
    check_eq!(rt; map.capacity(), 2);
}
