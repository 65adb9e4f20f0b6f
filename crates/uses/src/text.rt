//! Maps with text as keys.
ghost use Rattle.std.specs.Prelude.{List, ℕ, ◌≡◌, ◌≤◌, ◌+◌, ◌∷◌, [], ◌++◌, Some, None, length, reverse, string_eq, unwrap_or, IfOk, IfErr, OnOk, IsSome};
ghost use Rattle.std.specs.Borrow.{Bor};
ghost use Rattle.std.specs.Map.{keys_of};
ghost use Rattle.std.specs.Option.{option_or};
ghost use Rattle.std.specs.Str.{bytes_eq};
ghost use Rattle.std.specs.String.{string_bytes};
ghost use Rattle.linked_hash_map.specs.Pairs.{find, value_at};
ghost use Rattle.linked_hash_map.specs.declared.map.Mode.{Mode};
ghost use Rattle.linked_hash_map.proofs.Callers.Texts.{same_text};

use crate::collecting::insert_all;
use linked_hash_map::{LinkedHashMap, Refused};

/// Returns the age of a person.
pub fn age_of(ages: &LinkedHashMap<String, u64>, name: &String) -> Option<u64>
    ensures { result ≡ value_at string_eq ages.now.pairs name.now }
{
    ages.get(name).copied()
}

/// Returns the age of a person by a text, which no `String` has to be made for.
pub fn age_by_text(ages: &LinkedHashMap<String, u64>, name: &str) -> Option<u64>
    ensures { result ≡ value_at (λ text key. bytes_eq text (string_bytes key))
        ages.now.pairs name.now }
{
    ages.get(name).copied()
}

/// Returns the age of a person who is known, by a text.
pub fn known_age(ages: &LinkedHashMap<String, u64>, name: &str) -> u64
    requires { IsSome (find (λ text key. bytes_eq text (string_bytes key))
        ages.now.pairs name.now) }
    ensures { value_at (λ text key. bytes_eq text (string_bytes key)) ages.now.pairs name.now
        ≡ Some result }
{
    ages[name]
}

/// Makes the age of a person one more, by a text, and makes the person the one used last. Returns
/// the age before.
pub fn have_birthday(ages: &mut LinkedHashMap<String, u64>, name: &str) -> Option<u64>
    ensures { result ≡ value_at (λ text key. bytes_eq text (string_bytes key))
        ages.old.pairs name.now }
{
    match ages.get_refresh(name) {
        Some(age) => {
            let before = *age;
            *age = age.saturating_add(1);
            Some(before)
        }
        None => None,
    }
}

/// Notes the age of a person. If there is no memory for a new name, it is handed back.
#[tactic(auto, using(linked_hash_map::proofs::Callers::Rules::text_keys))]
pub fn note_age(
    ages: &mut LinkedHashMap<String, u64>,
    name: String,
    age: u64,
) -> Result<(), Refused<String, u64>>
    ensures most { OnOk result (length ages.new.pairs ≤ length ages.old.pairs + 1) }
    ensures noted { OnOk result (value_at string_eq ages.new.pairs name ≡ Some age) }
    ensures last { OnOk result (ages.old.mode ≡ Mode.Keep
        → find string_eq ages.old.pairs name ≡ None
        → keys_of ages.new.pairs ≡ keys_of ages.old.pairs ++ name ∷ []) }
    ensures handed_back { IfErr result (λ refused. refused.key ≡ name) }
{
    ages.insert(name, age)?;
    Ok(())
}

/// Returns the page on which a word came first, which is this one if the word is new. The words are
/// lent: two are the same key if their bytes are the same.
pub fn first_page<'a>(
    pages: &mut LinkedHashMap<&'a str, u64>,
    word: &'a str,
    page: u64,
) -> Result<u64, Refused<&'a str, u64>>
    ensures first { IfOk result (λ first.
        first ≡ unwrap_or (value_at same_text pages.old.pairs word.entry) page) }
    ensures noted { IfOk result (λ first.
        value_at same_text pages.new.pairs word.entry ≡ Some first) }
    ensures handed_back { IfErr result (λ refused. refused.key ≡ word.entry) }
{
    if let Some(first) = pages.get(&word) {
        return Ok(*first);
    }
    pages.insert(word, page)?;
    Ok(page)
}

/// Notes a page for each word of a list. A word that comes more than once has the last page, and
/// the words that do not come keep theirs. The first that finds no memory is handed back.
pub fn note_pages<'a>(
    pages: &mut LinkedHashMap<&'a str, u64>,
    list: Vec<(&'a str, u64)>,
) -> Result<(), Refused<&'a str, u64>>
    ensures noted { (word : Bor (List ℕ)) → OnOk result (value_at same_text pages.new.pairs word
        ≡ option_or (value_at same_text (reverse list.entry.items) word)
        (value_at same_text pages.old.pairs word)) }
{
    insert_all(pages, list)?;
    Ok(())
}
