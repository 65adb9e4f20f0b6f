//! Sizes of pictures, of which those asked for last are kept.
ghost use Rattle.std.specs.Prelude.{◌≡◌, ◌<◌, ℕ, List, [], Some, None, IsSome, IsTrue, false, true, is_some, string_bytes, IfErr, OnErr, OnOk};
ghost use Rattle.std.specs.Str.{bytes_eq};
ghost use Rattle.linked_hash_map.specs.Pairs.{find, to_back_as_is, value_at, without};
ghost use Rattle.uses.specs.Texts.{names};

use lru_cache::{LruCache, Refused};
use std::alloc::Global;

/// Sizes by path. At least one fits.
#[derive(Drop)]
pub struct Thumbnails {
    sizes: LruCache<String, u64>,
    ghost some: { 0 < sizes.limit },
}

impl Thumbnails {
    /// Makes a list of at most `most` pictures.
    pub fn new(alloc: Global, most: usize) -> Thumbnails
        requires some { 0 < most }
        ensures empty { result.sizes.pairs ≡ [] }
        ensures most { result.sizes.limit ≡ most }
    {
        Thumbnails {
            sizes: LruCache::new(alloc, most),
        }
    }

    /// Returns the size of a picture, which is then the one asked for last.
    pub fn show(&mut self, path: &str) -> Option<u64>
        ensures size { result ≡ value_at names self.old.sizes.pairs path.now }
        ensures order { self.new.sizes.pairs
            ≡ to_back_as_is names self.old.sizes.pairs path.now }
        ensures sizes { (other : List ℕ) → value_at names self.new.sizes.pairs other
            ≡ value_at names self.old.sizes.pairs other }
        ensures most { self.new.sizes.limit ≡ self.old.sizes.limit }
    {
        match self.sizes.get(path) {
            Some(size) => Some(*size),
            None => None,
        }
    }

    /// Shows two pictures, and returns whether the second is larger. It is none if one is unknown.
    pub fn is_larger(&mut self, path: &str, other: &str) -> Option<bool>
        ensures known { IsSome result
            → IsTrue (is_some (find names self.old.sizes.pairs path.now)) }
        ensures other_known { IsSome result
            → IsTrue (is_some (find names self.old.sizes.pairs other.now)) }
        ensures sizes { (any : List ℕ) → value_at names self.new.sizes.pairs any
            ≡ value_at names self.old.sizes.pairs any }
    {
        let size = self.show(path)?;
        let other = self.show(other)?;
        Some(size < other)
    }

    /// Keeps the size of a picture. If there are too many, the one asked for longest ago goes.
    pub fn keep(&mut self, path: String, size: u64) -> Result<(), Refused<String, u64>>
        ensures here { OnOk result
            (value_at names self.new.sizes.pairs (string_bytes path) ≡ Some size) }
        ensures others { (other : List ℕ) → OnOk result
            (bytes_eq (string_bytes path) other ≡ false
            → is_some (find names self.new.sizes.pairs other) ≡ true
            → value_at names self.new.sizes.pairs other
            ≡ value_at names self.old.sizes.pairs other) }
        ensures handed_back { IfErr result (λ refused. refused.key ≡ path) }
        ensures unchanged { OnErr result (self.new ≡ self.old) }
    {
        self.sizes.insert(path, size)?;
        Ok(())
    }

    /// Forgets a picture that was changed, and returns its size.
    pub fn forget(&mut self, path: &str) -> Option<u64>
        ensures size { result ≡ value_at names self.old.sizes.pairs path.now }
        ensures order { self.new.sizes.pairs ≡ without names self.old.sizes.pairs path.now }
        ensures others { (other : List ℕ) → bytes_eq path.now other ≡ false
            → value_at names self.new.sizes.pairs other
            ≡ value_at names self.old.sizes.pairs other }
    {
        self.sizes.remove(path)
    }
}
