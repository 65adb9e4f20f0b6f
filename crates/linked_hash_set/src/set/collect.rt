//! Sets filled from an iterator, and made by generic code.

ghost use Rattle.std.specs.Prelude.{◌≡◌, [], false, length, max, IfOk, IfErr, OnOk, OnErr};
ghost use Rattle.std.specs.Iterator.{IsFiniteIterable};
ghost use Rattle.linked_hash_set.specs.Inserts.{InsertsAll, InsertsUntil, GivesThenNew, CollectsInto, IsNew, IsNewDefault};
ghost use Rattle.linked_hash_set.specs.Items.{contains};
ghost use Rattle.linked_hash_set.specs.Validity.{IsValid};

use super::LinkedHashSet;
use crate::error::Refused;
use linked_hash_map::LinkedHashMap;
use std::alloc::{AllocError, Global};
use std::default::{Emptied, MadeWith};
use std::hash::{BuildHasher, Hash};

impl<T: Eq + Hash, S: BuildHasher> LinkedHashSet<T, S> {
    /// Inserts the items one by one, each as `insert` does, hashing it once.
    ///
    /// The first refused is the error: the items before it stay, and no later one is taken.
    ///
    /// # Examples
    ///
    /// ```rust
    /// let mut set = LinkedHashSet::new(rt.alloc());
    /// set.extend(['x', 'y', 'x'])?;
    /// assert_eq!(rt; set.front(), Some(&'y'));
    /// assert_eq!(rt; set.back(), Some(&'x'));
    /// ```
    pub fn extend<I: IntoIterator<Item = T>>(&mut self, items: I) -> Result<(), Refused<T>>
    where
        T: Drop,
        I::IntoIter: Drop,
        requires ends { IsFiniteIterable I.into_iter_gives I.IntoIter.can_next
            I.IntoIter.remaining items }
        ensures all { OnOk result
            (InsertsAll I.into_iter_gives I.IntoIter.next_gives items T.eq self.old.items
            self.new.items) }
        ensures capacity { self.new.capacity ≡ max self.old.capacity (length self.new.items) }
        ensures hasher { self.new.hasher ≡ self.old.hasher }
        ensures stays_valid { IsValid T.eq self.new }

        ensures stopped { IfErr result (λ refused.
            InsertsUntil I.into_iter_gives I.IntoIter.next_gives items T.eq self.old.items
            self.new.items refused.item) }
        ensures absent { IfErr result (λ refused.
            contains T.eq self.new.items refused.item ≡ false) }
        ensures full { OnErr result (length self.new.items ≡ self.new.capacity) }
    {
        // Shows that the set is valid if no item comes.
        let _len = self.len();
        for item in items {
            match self.insert(item) {
                Ok(_new) => {}
                Err(refused) => return Err(refused),
            }
        }
        Ok(())
    }

    /// Creates a set with the default hasher of its type and inserts the items, each as `insert`
    /// does, hashing it once. The capacity is the number of items; `with_capacity` and then
    /// `extend` reserve room first.
    ///
    /// The first refused is the error, and the items before it are dropped.
    ///
    /// # Examples
    ///
    /// ```rust
    /// let set: LinkedHashSet<char> = LinkedHashSet::from_iter(rt.alloc(), ['x', 'y', 'x'])?;
    /// assert_eq!(rt; (set.len(), set.back()), (2, Some(&'x')));
    /// ```
    pub fn from_iter<I: IntoIterator<Item = T>>(alloc: Global, items: I) -> Result<Self, Refused<T>>
    where
        T: Drop,
        S: Default + Drop,
        I::IntoIter: Drop,
        requires ends { IsFiniteIterable I.into_iter_gives I.IntoIter.can_next
            I.IntoIter.remaining items }
        ensures all { IfOk result (λ set.
            InsertsAll I.into_iter_gives I.IntoIter.next_gives items T.eq [] set.items) }
        ensures capacity { IfOk result (λ set. set.capacity ≡ length set.items) }
        ensures hasher { IfOk result (λ set. S.is_default set.hasher) }
        ensures valid { IfOk result (IsValid T.eq) }

        ensures stopped { IfErr result (λ refused.
            GivesThenNew I.into_iter_gives I.IntoIter.next_gives items T.eq refused.item) }
    {
        let mut set = Self::with_hasher(alloc, S::default());
        match set.extend(items) {
            Ok(()) => Ok(set),
            Err(refused) => Err(refused),
        }
    }
}

/// Collects the items into a set with the default hasher of its type, as the call
/// [`from_iter`](LinkedHashSet::from_iter) does. If an insertion is refused, all items taken are
/// dropped.
///
/// # Examples
///
/// ```rust
/// let set: LinkedHashSet<char> = ['x', 'y', 'x'].into_iter().collect(rt.alloc())?;
/// assert_eq!(rt; (set.len(), set.back()), (2, Some(&'x')));
/// ```
impl<T: Eq + Hash + Drop, S: BuildHasher + Default + Drop> FromIterator<T> for LinkedHashSet<T, S> {
    type Alloc = Global;

    ghost from_iter_gives = { CollectsInto T.eq S.is_default };

    fn from_iter<I: IntoIterator<Item = T>>(alloc: Global, items: I) -> Result<Self, AllocError> {
        match Self::from_iter(alloc, items) {
            Ok(set) => Ok(set),
            Err(_refused) => Err(AllocError),
        }
    }
}

/// Makes an empty set with a clone of the hasher, as `try_take` asks for. It has the capacity 0 and
/// takes no memory.
///
/// No clause says that the hasher is a clone: the clause of the trait speaks of the new set alone.
///
/// # Examples
///
/// ```rust
/// use std::mem::try_take;
///
/// let mut set = LinkedHashSet::new(rt.alloc());
/// set.insert('x')?;
/// let taken = try_take(&mut set)?;
/// assert_eq!(rt; (taken.len(), set.len()), (1, 0));
/// ```
impl<T: Eq + Hash, S: BuildHasher + Clone> Emptied for LinkedHashSet<T, S> {
    ghost is_emptied = { IsNew T.eq };

    fn emptied(like: &Self) -> Result<Self, AllocError> {
        Ok(LinkedHashSet {
            map: LinkedHashMap::emptied(&like.map)?,
        })
    }
}

/// Makes an empty set with the default hasher of its type, as `or_default` of the maps of std asks
/// for. It has the capacity 0 and takes no memory.
///
/// # Examples
///
/// ```rust
/// use std::collections::HashMap;
///
/// let mut sets: HashMap<char, LinkedHashSet<char>> = HashMap::new(rt.alloc());
/// sets.entry('a')?.or_default().insert('x')?;
/// assert_eq!(rt; sets.len(), 1);
/// ```
impl<T: Eq + Hash, S: BuildHasher + Default> MadeWith<Global> for LinkedHashSet<T, S> {
    ghost is_made_with = { IsNewDefault T.eq S.is_default };

    fn made_with(alloc: Global) -> Self {
        LinkedHashSet::with_hasher(alloc, S::default())
    }
}
