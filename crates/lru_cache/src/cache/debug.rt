//! Debug text.

use super::LruCache;
use std::fmt;
use std::hash::{BuildHasher, Hash};

/// Prints the pairs as a map, the one used last first, as the original does.
///
/// # Examples
///
/// ```rust
/// let mut cache = LruCache::new(rt.alloc(), 2);
/// cache.extend([(1, 10), (2, 20), (3, 30)])?;
/// let text = format!(in rt.alloc(); "{cache:?}")?;
/// assert_eq!(rt; text.as_str(), "{3: 30, 2: 20}");
/// ```
impl<K: Eq + Hash + fmt::Debug, V: fmt::Debug, S: BuildHasher> fmt::Debug for LruCache<K, V, S> {
    fn fmt<W: fmt::Write>(&self, f: &mut fmt::Formatter<W>) -> fmt::Result {
        let mut map = f.debug_map();
        for (key, value) in self.iter().rev() {
            map.entry(key, value);
        }
        map.finish()
    }
}
