//! The workloads of a map whose keys are texts of 20 bytes.
ghost use Rattle.std.specs.Prelude.{◌<◌};

use super::order::{Order, mix};
use linked_hash_map::LinkedHashMap;
use std::alloc::{AllocError, Global};

/// The maps of texts that are timed.
pub type TextMap = LinkedHashMap<String, u64>;

/// Returns the text of an index. Different indexes have different texts.
fn text_of(alloc: Global, i: u64) -> Result<String, AllocError> {
    format!(in alloc; "user{:016x}", mix(i))
}

/// Returns the texts of `n` indexes, from `start` on.
pub fn texts_from(alloc: Global, start: u64, n: u64) -> Result<Vec<String>, AllocError> {
    let mut texts = Vec::new(alloc);
    for i in 0..n {
        texts.push(text_of(alloc, start.wrapping_add(i))?)?;
    }
    Ok(texts)
}

/// Returns as many texts as there are, those of indexes that are looked up.
pub fn draw_texts<O: Order>(alloc: Global, order: &mut O, n: u64) -> Result<Vec<String>, AllocError>
    requires { 0 < n }
{
    let mut texts = Vec::new(alloc);
    for i in 0..n {
        texts.push(text_of(alloc, order.index(i, n))?)?;
    }
    Ok(texts)
}

/// Makes a map of copies of some texts, whose capacity is raised one by one.
pub fn fill_texts(alloc: Global, texts: &[String]) -> Result<TextMap, AllocError> {
    let mut map = LinkedHashMap::new(alloc);
    for text in texts {
        let value = map.len() as u64;
        map.insert(text.clone()?, value)?;
    }
    Ok(map)
}

/// Looks up texts that are there, and returns the exclusive or of their values.
pub fn hit(map: &TextMap, texts: &[String]) -> u64 {
    let mut sink = 0;
    for text in texts {
        if let Some(value) = map.get(text.as_str()) {
            sink ^= *value;
        }
    }
    sink
}

/// Looks up texts that are absent, and returns how many are there.
pub fn miss(map: &TextMap, texts: &[String]) -> u64 {
    let mut count: u64 = 0;
    for text in texts {
        if map.get(text.as_str()).is_some() {
            count = count.wrapping_add(1);
        }
    }
    count
}

/// Moves the pairs of some texts to the back, and returns the exclusive or of their values.
pub fn refresh(map: &mut TextMap, texts: &[String]) -> u64 {
    let mut sink = 0;
    for text in texts {
        if let Some(value) = map.get_refresh(text.as_str()) {
            sink ^= *value;
        }
    }
    sink
}

/// Inserts copies of texts that are there, each with a new value, and returns the exclusive or of
/// the old ones.
pub fn insert_present(map: &mut TextMap, texts: &[String]) -> Result<u64, AllocError> {
    let mut sink = 0;
    for text in texts {
        if let Some(old) = map.insert(text.clone()?, sink)? {
            sink ^= old;
        }
    }
    Ok(sink)
}

/// Removes texts and inserts a copy of each, and returns the exclusive or of the values.
pub fn remove_reinsert(map: &mut TextMap, texts: &[String]) -> Result<u64, AllocError> {
    let mut sink = 0;
    for text in texts {
        if let Some(value) = map.remove(text.as_str()) {
            sink ^= value;
            map.insert(text.clone()?, value)?;
        }
    }
    Ok(sink)
}
