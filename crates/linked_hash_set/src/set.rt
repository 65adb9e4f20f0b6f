//! The set: its type, length, capacity and hasher.
#![tactic(auto, using(crate::proofs::Kept::kept))]

ghost use Rattle.std.specs.Prelude.{◌≡◌, ◌==◌, length};
ghost use Rattle.linked_hash_set.specs.Validity.{IsValid};

mod append;
mod capacity;
mod clone;
mod collect;
mod compare;
mod create;
mod get;
mod insert;
mod iter;
mod iter_from;
mod order;
mod remove;
mod sort;

pub use self::iter::{IntoIter, Iter};
pub use self::iter_from::{IterBackFrom, IterFrom};
use linked_hash_map::{DefaultHashBuilder, LinkedHashMap};
use std::hash::{BuildHasher, Hash};
use std::marker::Model;

/// A hash set that keeps its items in insertion order.
///
/// A new item goes to the back, and so does a present one that is inserted again; the stored item
/// stays. `insert_front`, `insert_if_absent` and `replace` differ. Items are the same if they are
/// equal.
///
/// For all calls, with n the number of items:
///
/// - Only calls that return a `Result` allocate. An error changes nothing, except that an extension
///   keeps what it inserted before. Nothing panics.
/// - A call that is handed no item hashes and compares none, except `clone`, sorts, comparisons,
///   `hash` and the calls on two sets, among them `append`.
/// - Costs are averages: if all items hash alike, each lookup and each removal is O(n).
/// - Only insertions, `append`, `reserve` and `shrink_to_fit` change the capacity, and no removal
///   frees memory.
///
/// # Examples
///
/// ```rust
/// use linked_hash_set::LinkedHashSet;
///
/// let mut set = LinkedHashSet::new(rt.alloc());
/// assert!(rt; set.insert('x')?);
/// assert!(rt; set.insert('y')?);
/// assert!(rt; !set.insert('x')?);
/// assert_eq!(rt; set.front(), Some(&'y'));
/// assert_eq!(rt; set.back(), Some(&'x'));
/// ```
#[derive(Drop)]
pub struct LinkedHashSet<T: Eq + Hash, S: BuildHasher = DefaultHashBuilder> {
    map: LinkedHashMap<T, (), S>,
}

/// A contract sees the items, front to back, capacity and hasher.
impl<T: Eq + Hash, S: BuildHasher> Model for LinkedHashSet<T, S> {
    ghost use Rattle.std.specs.Map.{keys_of};
    ghost use Rattle.linked_hash_set.specs.LinkedSet.{LinkedSet, linked_set, linked_set_code, IsKept};

    ghost Value = { LinkedSet T S };

    ghost coded = { linked_set_code T.code S.code };

    ghost view = { λ s. linked_set (keys_of s.map.pairs) s.map.capacity s.map.hasher };

    ghost invariant = { λ s. IsKept T.eq s.map };
}

impl<T: Eq + Hash, S: BuildHasher> LinkedHashSet<T, S> {
    /// Returns the number of items, in O(1).
    ///
    /// # Examples
    ///
    /// ```rust
    /// let mut set = LinkedHashSet::new(rt.alloc());
    /// set.insert('x')?;
    /// assert_eq!(rt; set.len(), 1);
    /// ```
    pub fn len(&self) -> usize
        ensures len { result ≡ length self.now.items }
        ensures valid { IsValid T.eq self.now }
    {
        self.map.len()
    }

    /// Returns `true` if the set has no items, in O(1).
    ///
    /// # Examples
    ///
    /// ```rust
    /// let mut set = LinkedHashSet::new(rt.alloc());
    /// assert!(rt; set.is_empty());
    /// set.insert('x')?;
    /// assert!(rt; !set.is_empty());
    /// ```
    pub fn is_empty(&self) -> bool
        ensures empty { result ≡ (length self.now.items == 0) }
        ensures valid { IsValid T.eq self.now }
    {
        self.map.is_empty()
    }

    /// Returns how many items the set can hold without allocating, in O(1).
    ///
    /// # Examples
    ///
    /// ```rust
    /// let mut set = LinkedHashSet::new(rt.alloc());
    /// set.insert('x')?;
    /// assert_eq!(rt; set.capacity(), 1);
    /// set.reserve(4)?;
    /// assert_eq!(rt; set.capacity(), 5);
    /// ```
    pub fn capacity(&self) -> usize
        ensures capacity { result ≡ self.now.capacity }
        ensures valid { IsValid T.eq self.now }
    {
        self.map.capacity()
    }

    /// Returns a reference to the build hasher, in O(1).
    ///
    /// # Examples
    ///
    /// ```rust
    /// use std::hash::{BuildHasher, RandomState};
    ///
    /// let builder = RandomState::new(&rt)?;
    /// let mut set = LinkedHashSet::with_hasher(rt.alloc(), builder);
    /// set.insert('x')?;
    /// assert_eq!(rt; set.hasher().hash_one('x'), builder.hash_one('x'));
    /// ```
    pub fn hasher(&self) -> &S
        ensures { result.now ≡ self.now.hasher }
    {
        self.map.hasher()
    }
}
