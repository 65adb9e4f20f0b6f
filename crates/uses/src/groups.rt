//! Words grouped by their first letter.
ghost use Rattle.std.specs.Prelude.{◌≡◌, ℕ, IfOk};
ghost use Rattle.uses.specs.Groups.{words_of, group_of};

use linked_hash_map::LinkedHashMap;
use std::alloc::{AllocError, Global};

/// Groups words by their first byte, each group in order. A word without letters is in none.
pub fn by_letter<'a>(
    alloc: Global,
    words: &[&'a str],
) -> Result<LinkedHashMap<u8, Vec<&'a str>>, AllocError>
    ensures { IfOk result (λ groups. (letter : ℕ)
        → group_of groups.pairs letter ≡ words_of letter words.now) }
{
    let mut groups = LinkedHashMap::new(alloc);
    for word in words {
        let Some(letter) = word.as_bytes().first() else {
            continue;
        };
        groups
            .entry(*letter)
            .or_insert_with(|| Vec::new(alloc))?
            .push(*word)?;
    }
    Ok(groups)
}
