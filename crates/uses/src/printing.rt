//! Insertions in a function that prints.
ghost use Rattle.std.specs.Prelude.{◌≡◌, nat_eq, OnOk};
ghost use Rattle.linked_hash_map.specs.Pairs.{put};

use linked_hash_map::LinkedHashMap;
use std::io;

/// Inserts a pair and prints it, with the old value if there is one. It fails if there is no memory
/// for the pair, or if it cannot be printed.
pub fn insert_and_print(
    rt: &impl Print,
    map: &mut LinkedHashMap<u64, u64>,
    key: u64,
    value: u64,
) -> io::Result<()>
    ensures { OnOk result (map.new.pairs ≡ put nat_eq map.old.mode map.old.pairs key value) }
{
    let inserted = map.insert(key, value)?;
    match inserted {
        Some(old) => println!(rt; "{key}: {value}, before {old}"),
        None => println!(rt; "{key}: {value}"),
    }
}
