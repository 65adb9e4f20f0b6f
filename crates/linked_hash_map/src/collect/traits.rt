//! The traits by which the map is collected, extended and made: their error is `AllocError`.
ghost use Rattle.std.specs.Prelude.{map};
ghost use Rattle.std.specs.Map.Iter.{deref_pair};
ghost use Rattle.linked_hash_map.specs.Inserts.{ExtendsWith, CollectsInto, IsNew, IsNewDefault};

use crate::map::LinkedHashMap;
use std::alloc::{AllocError, Global};
use std::default::{Emptied, MadeWith};
use std::hash::{BuildHasher, Hash};

/// Inserts the items as the call [`extend`](LinkedHashMap::extend) does, for code that is generic
/// over collections. If one is refused, it is dropped, and the pairs before it stay.
///
/// # Examples
///
/// ```rust
/// let mut map = LinkedHashMap::new(rt.alloc());
/// Extend::extend(&mut map, [('x', 1), ('y', 2), ('x', 3)])?;
/// assert_eq!(rt; map.back(), Some((&'x', &3)));
/// ```
impl<K: Eq + Hash + Drop, V: Drop, S: BuildHasher> Extend<(K, V)> for LinkedHashMap<K, V, S> {
    ghost extend_gives = { ExtendsWith K.eq };

    fn extend<I: IntoIterator<Item = (K, V)>>(&mut self, items: I) -> Result<(), AllocError> {
        match self.extend(items) {
            Ok(()) => Ok(()),
            Err(_refused) => Err(AllocError),
        }
    }
}

/// Inserts copies of the referenced pairs, as the call [`extend_refs`](LinkedHashMap::extend_refs)
/// does.
///
/// # Examples
///
/// ```rust
/// let mut map = LinkedHashMap::new(rt.alloc());
/// Extend::extend(&mut map, [(&'x', &1), (&'y', &2)])?;
/// assert_eq!(rt; map.back(), Some((&'y', &2)));
/// ```
impl<'a, K: Eq + Hash + Copy + 'a, V: Copy + 'a, S: BuildHasher> Extend<(&'a K, &'a V)>
    for LinkedHashMap<K, V, S> {
    ghost extend_gives = { λ old items new. ExtendsWith K.eq old (map deref_pair items) new };

    fn extend<I: IntoIterator<Item = (&'a K, &'a V)>>(
        &mut self,
        items: I,
    ) -> Result<(), AllocError> {
        match self.extend_refs(items) {
            Ok(()) => Ok(()),
            Err(_refused) => Err(AllocError),
        }
    }
}

/// Collects the items into a map with the default hasher of its type, each inserted as `insert`
/// does. The capacity is the number of pairs; the call [`from_iter`](LinkedHashMap::from_iter)
/// reserves room first. If an insertion is refused, the items taken are dropped.
///
/// # Examples
///
/// ```rust
/// let pairs = [('x', 1), ('y', 2), ('x', 3)];
/// let map: LinkedHashMap<char, u64> = pairs.into_iter().collect(rt.alloc())?;
/// assert_eq!(rt; (map.len(), map.back()), (2, Some((&'x', &3))));
/// ```
impl<K: Eq + Hash + Drop, V: Drop, S: BuildHasher + Default + Drop> FromIterator<(K, V)>
    for LinkedHashMap<K, V, S> {
    type Alloc = Global;

    ghost from_iter_gives = { CollectsInto K.eq S.is_default };

    fn from_iter<I: IntoIterator<Item = (K, V)>>(
        alloc: Global,
        items: I,
    ) -> Result<Self, AllocError> {
        let mut map = LinkedHashMap::with_hasher(alloc, S::default());
        <Self as Extend<(K, V)>>::extend(&mut map, items)?;
        Ok(map)
    }
}

/// Makes an empty map with a clone of the hasher, as `try_take` asks for. It is in
/// [`Mode::Touch`](crate::Mode::Touch), of capacity 0 and takes no memory.
///
/// No clause says that the hasher is a clone, since the clause of the trait is of the new map
/// alone.
///
/// # Examples
///
/// ```rust
/// use std::mem::try_take;
///
/// let mut map = LinkedHashMap::new(rt.alloc());
/// map.insert('x', 1)?;
/// let taken = try_take(&mut map)?;
/// assert_eq!(rt; (taken.len(), map.len()), (1, 0));
/// ```
impl<K: Eq + Hash, V, S: BuildHasher + Clone> Emptied for LinkedHashMap<K, V, S> {
    ghost is_emptied = { IsNew K.eq };

    fn emptied(like: &Self) -> Result<Self, AllocError> {
        Ok(LinkedHashMap::with_hasher(like.allocator(), like.hasher().clone()?))
    }
}

/// Makes an empty map with the default hasher of its type, as `or_default` of maps asks for. It is
/// in [`Mode::Touch`](crate::Mode::Touch), of capacity 0 and takes no memory.
///
/// # Examples
///
/// ```rust
/// let mut maps: LinkedHashMap<char, LinkedHashMap<char, u64>> = LinkedHashMap::new(rt.alloc());
/// maps.entry('a').or_default()?.insert('x', 1)?;
/// assert_eq!(rt; maps.len(), 1);
/// ```
impl<K: Eq + Hash, V, S: BuildHasher + Default> MadeWith<Global> for LinkedHashMap<K, V, S> {
    ghost is_made_with = { IsNewDefault K.eq S.is_default };

    fn made_with(alloc: Global) -> Self {
        LinkedHashMap::with_hasher(alloc, S::default())
    }
}
