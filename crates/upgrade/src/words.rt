//! Counts of words, which are looked up as texts.
ghost use Rattle.std.specs.Prelude.{◌≡◌, ◌+◌, ◌<◌, ◌^◌, ℕ, List, Some, string_eq, unwrap_or, IfOk, OnOk, OnErr};
ghost use Rattle.std.specs.List.{count_by};
ghost use Rattle.std.specs.Str.{bytes_eq};
ghost use Rattle.linked_hash_map.specs.Pairs.{value_at};
ghost use Rattle.linked_hash_map.specs.Updates.{UpdatesBy};
ghost use Rattle.upgrade.specs.Texts.{names};

use linked_hash_map::LinkedHashMap;
use std::alloc::{AllocError, Global};

/// Counts one more of a word. Only a word that is new is copied.
pub fn count_word(
    alloc: Global,
    counts: &mut LinkedHashMap<String, u64>,
    word: &str,
) -> Result<(), AllocError>
    requires fits { unwrap_or (value_at names counts.old.pairs word.now) 0 + 1 < 2 ^ 64 }
    ensures counted { OnOk result
        (UpdatesBy string_eq counts.old.pairs counts.new.pairs (names word.now)
        (Some (unwrap_or (value_at names counts.old.pairs word.now) 0 + 1))) }
    ensures unchanged { OnErr result (counts.new ≡ counts.old) }
{
    if let Some(count) = counts.get_mut(word) {
        *count += 1;
        return Ok(());
    }
    counts.insert(word.to_string(alloc)?, 1)?;
    Ok(())
}

/// Returns how often each word comes.
pub fn count_words(alloc: Global, words: &[&str]) -> Result<LinkedHashMap<String, u64>, AllocError>
    ensures { IfOk result (λ counts. (word : List ℕ)
        → unwrap_or (value_at names counts.pairs word) 0
        ≡ count_by (λ other. bytes_eq other.now word) words.now) }
{
    let mut counts = LinkedHashMap::new(alloc);
    for word in words {
        count_word(alloc, &mut counts, word)?;
    }
    Ok(counts)
}
