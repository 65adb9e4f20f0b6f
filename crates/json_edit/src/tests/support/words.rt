//! Arguments of the program.

use std::alloc::{AllocError, Global};

/// Returns the arguments that these words are.
pub fn arguments(alloc: Global, words: &[&str]) -> Result<Vec<String>, AllocError> {
    let mut arguments = Vec::new(alloc);
    for word in words {
        arguments.push(String::from_str(alloc, word)?)?;
    }
    Ok(arguments)
}
