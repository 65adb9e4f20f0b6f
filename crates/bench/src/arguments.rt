//! The arguments: the name of a workload, and numbers above 0.
ghost use Rattle.std.specs.Prelude.{◌≡◌, IfNone, IfSome};
ghost use Rattle.bench.specs.Arguments.{IsNumber, IsNoNumber, decimal_value};

use super::workloads::Workload;
use std::alloc::{AllocError, Global};

/// Reads a number above 0, or returns `None` if the word is none.
fn number(word: &str) -> Option<u64>
    ensures some { IfSome result (λ n. IsNumber word.now) }
    ensures number { IfSome result (λ n. n ≡ decimal_value word.now) }
    ensures none { IfNone result (IsNoNumber word.now) }
{
    match word.parse::<u64>() {
        Ok(0) => None,
        Ok(number) => Some(number),
        Err(_) => None,
    }
}

/// Reads all of the words, or returns `None` if one of them is no number above 0.
pub fn numbers(alloc: Global, words: &[String]) -> Result<Option<Vec<u64>>, AllocError> {
    let mut numbers = Vec::new(alloc);
    for word in words {
        let Some(number) = number(word.as_str()) else {
            return Ok(None);
        };
        numbers.push(number)?;
    }
    Ok(Some(numbers))
}

/// Returns the workload that the first word names, if it names one, and the words behind it.
pub fn workload_named(words: &[String]) -> (Option<Workload>, &[String]) {
    let [name, rest @ ..] = words else {
        return (None, words);
    };
    for (workload, word) in Workload::ALL {
        if word == name.as_str() {
            return (Some(workload), rest);
        }
    }
    (None, words)
}
