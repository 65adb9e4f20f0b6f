//! Equality, hash and debug text, item by item.

ghost use Rattle.std.specs.Prelude.{drop};
ghost use Rattle.std.specs.Cmp.{on_equiv, on_per};
ghost use Rattle.std.specs.Cmp.Lexicographic.{pointwise, lists_equiv, lists_per};
ghost use Rattle.std.specs.Hash.{items_Alike};
ghost use Rattle.std.specs.List.{flat_map};
ghost use Rattle.std.proofs.Common.{ap};

use super::LinkedHashSet;
use std::fmt;
use std::hash::{BuildHasher, Hash, Hasher};

/// Sets are equal if their items are, in order; hashers and capacities do not count. It is O(n),
/// compares each item at most once, or none if the lengths differ, and hashes none.
///
/// # Examples
///
/// ```rust
/// let mut set = LinkedHashSet::new(rt.alloc());
/// set.extend(['x', 'y'])?;
/// let mut other = LinkedHashSet::new(rt.alloc());
/// other.insert('y')?;
/// other.insert('x')?;
/// assert!(rt; set != other);
/// other.insert('y')?; // moves the item to the back
/// assert!(rt; set == other);
/// ```
impl<T: Eq + Hash, S: BuildHasher> PartialEq for LinkedHashSet<T, S> {
    ghost eq = { λ s t. pointwise T.eq s.items t.items };

    ghost laws = { on_per (λ s. s.items) (lists_per T.PartialEq.laws) };

    fn eq(&self, other: &LinkedHashSet<T, S>) -> bool {
        self.map == other.map
    }
}

impl<T: Eq + Hash, S: BuildHasher> Eq for LinkedHashSet<T, S> {
    ghost laws = { on_equiv (λ s. s.items) (lists_equiv T.Eq.laws) };
}

/// Feeds a hasher each item once, in order, and no length, in O(n).
///
/// # Examples
///
/// ```rust
/// use linked_hash_set::{DefaultHashBuilder, LinkedHashSet};
/// use std::hash::BuildHasher;
///
/// let mut set = LinkedHashSet::with_capacity(rt.alloc(), 5)?;
/// set.insert('x')?;
/// let clone = set.clone()?;
/// let builder = DefaultHashBuilder::new();
/// assert_eq!(rt; builder.hash_one(clone), builder.hash_one(set));
/// ```
impl<T: Eq + Hash, S: BuildHasher> Hash for LinkedHashSet<T, S> {
    ghost hash_input = { λ s. flat_map T.hash_input s.items };

    ghost respects_eq = { λ s t same.
        ap (drop 1) ((items_Alike (record { fed = T.respects_eq })).fed s.items t.items same) };

    fn hash<H: Hasher>(&self, state: &mut H) {
        self.map.hash(state);
    }
}

/// Formats each item once, in order, as std formats sets, in O(n). It does not allocate itself.
///
/// # Examples
///
/// ```rust
/// let mut set = LinkedHashSet::new(rt.alloc());
/// set.extend(['x', 'y'])?;
/// let text = format!(in rt.alloc(); "{set:?}")?;
/// assert_eq!(rt; text.as_str(), "{'x', 'y'}");
/// ```
impl<T: Eq + Hash + fmt::Debug, S: BuildHasher> fmt::Debug for LinkedHashSet<T, S> {
    fn fmt<W: fmt::Write>(&self, f: &mut fmt::Formatter<W>) -> fmt::Result {
        let mut set = f.debug_set();
        for item in self {
            set.entry(item);
        }
        set.finish()
    }
}
