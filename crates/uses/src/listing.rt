//! A listing that is shown a page at a time.
ghost use Rattle.std.specs.Prelude.{◌≡◌, drop, is_some, map, take, IfOk, IfSome};
ghost use Rattle.std.specs.Map.Iter.{deref_pair};
ghost use Rattle.linked_hash_map.specs.Pairs.{find, from};

use linked_hash_map::{IterFrom, LinkedHashMap};
use std::alloc::{AllocError, Global};
use std::hash::{BuildHasher, Hash};

/// Returns the first `count` rows, or all if there are fewer.
pub fn first_rows<'a, K: Eq + Hash, V, S: BuildHasher>(
    alloc: Global,
    rows: &'a LinkedHashMap<K, V, S>,
    count: usize,
) -> Result<Vec<(&'a K, &'a V)>, AllocError>
    ensures { IfOk result (λ page. map deref_pair page.items ≡ take count rows.now.pairs) }
{
    rows.iter().take(count).collect(alloc)
}

/// Returns the next `count` rows, or all that are left, behind the row with the last key shown.
/// Returns `None` if that row is gone.
pub fn rows_after<'a, K: Eq + Hash, V, S: BuildHasher>(
    alloc: Global,
    rows: &'a LinkedHashMap<K, V, S>,
    last: &K,
    count: usize,
) -> Result<Option<Vec<(&'a K, &'a V)>>, AllocError>
    ensures there { IfOk result (λ page.
        is_some page ≡ is_some (find K.eq rows.now.pairs last.now)) }
    ensures page { IfOk result (λ page. IfSome page (λ shown.
        map deref_pair shown.items ≡ take count (drop 1 (from K.eq rows.now.pairs last.now)))) }
{
    let Some(from_last) = rows.iter_from(last) else {
        return Ok(None);
    };
    Ok(Some(next_rows(alloc, from_last, count)?))
}

/// Returns the next `count` rows behind the first, or all of them if there are fewer.
fn next_rows<'a, K, V>(
    alloc: Global,
    rows: IterFrom<'a, K, V>,
    count: usize,
) -> Result<Vec<(&'a K, &'a V)>, AllocError>
    ensures { IfOk result (λ page. map deref_pair page.items ≡ take count (drop 1 rows.entry)) }
{
    rows.skip(1).take(count).collect(alloc)
}
