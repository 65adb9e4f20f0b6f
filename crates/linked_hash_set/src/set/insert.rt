//! Insertion.

ghost use Rattle.std.specs.Prelude.{◌≡◌, ◌+◌, ◌++◌, ◌∷◌, [], length, max, not, true, false, unwrap_or, None, Some, IsSome, IfSome, IfNone, IsTrue, IfOk, IfErr, OnOk, OnErr, if◌then◌else◌};
ghost use Rattle.linked_hash_map.specs.Pairs.{first, last};
ghost use Rattle.linked_hash_set.specs.Inserts.{inserted, RefreshedOrMade};
ghost use Rattle.linked_hash_set.specs.Items.{contains, find, to_back, put_front, push_if_absent, set_or_push};
ghost use Rattle.linked_hash_set.specs.Updates.{Updates};
ghost use Rattle.linked_hash_set.specs.Validity.{IsValid};

use super::LinkedHashSet;
use crate::error::Refused;
use linked_hash_map::Equivalent;
use std::hash::{BuildHasher, Hash};

impl<T: Eq + Hash, S: BuildHasher> LinkedHashSet<T, S> {
    ghost use Rattle.std.specs.Borrow.{sem};
    ghost use Rattle.linked_hash_set.specs.Lends.{ends_inserted, ends_so};

    /// Inserts an item at the back, and returns whether it is new. If it is present, the stored
    /// item moves to the back, and `item` is dropped. Hashes the item once.
    ///
    /// Only a new item at full capacity allocates: it raises the capacity by one, or is refused and
    /// handed back. It is O(1), or up to O(n) at full capacity.
    ///
    /// # Examples
    ///
    /// ```rust
    /// let mut set = LinkedHashSet::new(rt.alloc());
    /// assert!(rt; set.insert('x')?);
    /// assert!(rt; set.insert('y')?);
    /// assert!(rt; !set.insert('x')?);
    /// assert_eq!(rt; set.back(), Some(&'x'));
    /// ```
    #[inline]
    pub fn insert(&mut self, item: T) -> Result<bool, Refused<T>>
    where
        T: Drop,
        // On success the item is at the back, and the others stay.
        ensures new { IfOk result (λ new. new ≡ not (contains T.eq self.old.items item)) }
        ensures items { OnOk result (self.new.items ≡ to_back T.eq self.old.items item) }
        ensures capacity { OnOk result
            (self.new.capacity ≡ max self.old.capacity (length self.new.items)) }
        ensures hasher { self.new.hasher ≡ self.old.hasher }
        ensures stays_valid { IsValid T.eq self.new }
        // Where it stands, and how many there are.
        ensures updates { OnOk result
            (Updates T.eq self.old.items self.new.items (T.eq item) true) }
        ensures last { OnOk result (last self.new.items
            ≡ Some (unwrap_or (find T.eq self.old.items item) item)) }
        ensures pushed { IfOk result (λ new. IsTrue new
            → self.new.items ≡ self.old.items ++ item ∷ []) }
        ensures len { IfOk result (λ new.
            length self.new.items ≡ length self.old.items + (if new then 1 else 0)) }

        // On failure the item comes back and nothing changes: it is new, and the set is full.
        ensures item_back { IfErr result (λ refused. refused.item ≡ item) }
        ensures unchanged { OnErr result (self.new ≡ self.old) }
        ensures absent { OnErr result (contains T.eq self.old.items item ≡ false) }
        ensures full { OnErr result (length self.old.items ≡ self.old.capacity) }
    {
        match self.map.insert(item, ()) {
            Ok(None) => Ok(true),
            Ok(Some(_unit)) => Ok(false),
            Err(refused) => Err(Refused { item: refused.key }),
        }
    }

    /// Inserts an item at the front, and returns whether it is new. If it is present, the stored
    /// item moves to the front, and `item` is dropped. Hashes the item once.
    ///
    /// It allocates, and is refused, as [`insert`](LinkedHashSet::insert) is, and costs as much.
    ///
    /// # Examples
    ///
    /// ```rust
    /// let mut set = LinkedHashSet::new(rt.alloc());
    /// assert!(rt; set.insert_front('x')?);
    /// assert!(rt; set.insert_front('y')?);
    /// assert_eq!(rt; set.front(), Some(&'y'));
    /// assert!(rt; !set.insert_front('x')?);
    /// assert_eq!(rt; set.front(), Some(&'x'));
    /// ```
    pub fn insert_front(&mut self, item: T) -> Result<bool, Refused<T>>
    where
        T: Drop,
        // On success the item is at the front, and the others stay.
        ensures new { IfOk result (λ new. new ≡ not (contains T.eq self.old.items item)) }
        ensures items { OnOk result (self.new.items ≡ put_front T.eq self.old.items item) }
        ensures capacity { OnOk result
            (self.new.capacity ≡ max self.old.capacity (length self.new.items)) }
        ensures hasher { self.new.hasher ≡ self.old.hasher }
        ensures stays_valid { IsValid T.eq self.new }
        // Where it stands, and how many there are.
        ensures updates { OnOk result
            (Updates T.eq self.old.items self.new.items (T.eq item) true) }
        ensures first { OnOk result (first self.new.items
            ≡ Some (unwrap_or (find T.eq self.old.items item) item)) }
        ensures pushed { IfOk result (λ new. IsTrue new
            → self.new.items ≡ item ∷ self.old.items) }
        ensures len { IfOk result (λ new.
            length self.new.items ≡ length self.old.items + (if new then 1 else 0)) }

        // On failure the item comes back and nothing changes: it is new, and the set is full.
        ensures item_back { IfErr result (λ refused. refused.item ≡ item) }
        ensures unchanged { OnErr result (self.new ≡ self.old) }
        ensures absent { OnErr result (contains T.eq self.old.items item ≡ false) }
        ensures full { OnErr result (length self.old.items ≡ self.old.capacity) }
    {
        match self.map.insert_front(item, ()) {
            Ok(None) => Ok(true),
            Ok(Some(_unit)) => Ok(false),
            Err(refused) => Err(Refused { item: refused.key }),
        }
    }

    /// Inserts an item at the back if it is absent, and returns whether it is. If it is present,
    /// the stored item keeps its place, and `item` is dropped. Hashes the item once.
    ///
    /// It allocates and is refused as [`insert`](LinkedHashSet::insert).
    ///
    /// # Examples
    ///
    /// ```rust
    /// let mut set = LinkedHashSet::new(rt.alloc());
    /// assert!(rt; set.insert_if_absent('x')?);
    /// assert!(rt; set.insert_if_absent('y')?);
    /// assert!(rt; !set.insert_if_absent('x')?);
    /// assert_eq!(rt; set.back(), Some(&'y'));
    /// ```
    pub fn insert_if_absent(&mut self, item: T) -> Result<bool, Refused<T>>
    where
        T: Drop,
        // On success a new item is at the back, and the others stay.
        ensures new { IfOk result (λ new. new ≡ not (contains T.eq self.old.items item)) }
        ensures items { OnOk result (self.new.items ≡ push_if_absent T.eq self.old.items item) }
        ensures capacity { OnOk result
            (self.new.capacity ≡ max self.old.capacity (length self.new.items)) }
        ensures hasher { self.new.hasher ≡ self.old.hasher }
        ensures stays_valid { IsValid T.eq self.new }
        // Where it stands, and how many there are.
        ensures updates { OnOk result
            (Updates T.eq self.old.items self.new.items (T.eq item) true) }
        ensures last { IfOk result (λ new. IsTrue new → last self.new.items ≡ Some item) }
        ensures pushed { IfOk result (λ new. IsTrue new
            → self.new.items ≡ self.old.items ++ item ∷ []) }
        ensures len { IfOk result (λ new.
            length self.new.items ≡ length self.old.items + (if new then 1 else 0)) }

        // On failure the item comes back and nothing changes: it is new, and the set is full.
        ensures item_back { IfErr result (λ refused. refused.item ≡ item) }
        ensures unchanged { OnErr result (self.new ≡ self.old) }
        ensures absent { OnErr result (contains T.eq self.old.items item ≡ false) }
        ensures full { OnErr result (length self.old.items ≡ self.old.capacity) }
    {
        match self.map.replace(item, ()) {
            Ok(None) => Ok(true),
            Ok(Some(_unit)) => Ok(false),
            Err(refused) => Err(Refused { item: refused.key }),
        }
    }

    /// Stores an item in place of the stored one that is the same, and returns that. If it is
    /// absent, it is inserted at the back, and `None` is returned. A present item keeps its place.
    /// Hashes the item once if it is present, and else twice.
    ///
    /// It allocates and is refused as [`insert`](LinkedHashSet::insert).
    ///
    /// # Examples
    ///
    /// ```rust
    /// let mut set = LinkedHashSet::new(rt.alloc());
    /// assert_eq!(rt; set.replace('x')?, None);
    /// assert_eq!(rt; set.replace('y')?, None);
    /// assert_eq!(rt; set.replace('x')?, Some('x'));
    /// assert_eq!(rt; set.back(), Some(&'y'));
    /// ```
    pub fn replace(&mut self, item: T) -> Result<Option<T>, Refused<T>>
    where
        T: Drop,
        // On success the item is there, and an equal one that was stored is returned.
        ensures old { IfOk result (λ old. old ≡ find T.eq self.old.items item) }
        ensures items { OnOk result (self.new.items ≡ set_or_push T.eq self.old.items item) }
        ensures capacity { OnOk result
            (self.new.capacity ≡ max self.old.capacity (length self.new.items)) }
        ensures hasher { self.new.hasher ≡ self.old.hasher }
        ensures stays_valid { IsValid T.eq self.new }
        // What is there.
        ensures updates { OnOk result
            (Updates T.eq self.old.items self.new.items (T.eq item) true) }

        // On failure the item comes back and nothing changes: it is new, and the set is full.
        ensures item_back { IfErr result (λ refused. refused.item ≡ item) }
        ensures unchanged { OnErr result (self.new ≡ self.old) }
        ensures absent { OnErr result (contains T.eq self.old.items item ≡ false) }
        ensures full { OnErr result (length self.old.items ≡ self.old.capacity) }
    {
        match self.map.replace_key(item) {
            Ok(old) => Ok(Some(old)),
            Err(item) => match self.map.insert(item, ()) {
                Ok(_none) => Ok(None),
                Err(refused) => Err(Refused { item: refused.key }),
            },
        }
    }

    /// Inserts an item as [`insert`](LinkedHashSet::insert) does, and returns the one at the back:
    /// the given item if it is new, and else the stored one, which moves there; `item` is then
    /// dropped. Hashes the item once.
    ///
    /// It allocates and is refused as [`insert`](LinkedHashSet::insert).
    ///
    /// # Examples
    ///
    /// ```rust
    /// let mut set = LinkedHashSet::new(rt.alloc());
    /// set.insert('x')?;
    /// assert_eq!(rt; set.get_or_insert('y')?, &'y');
    /// assert_eq!(rt; set.get_or_insert('x')?, &'x');
    /// assert_eq!(rt; (set.len(), set.back()), (2, Some(&'x')));
    /// ```
    pub fn get_or_insert(&mut self, item: T) -> Result<&T, Refused<T>>
    where
        T: Drop,
        ensures* inserts { sem 𝓛
            (ends_inserted T.row S.row S.Hasher.row T.Hash S.BuildHasher S.Hasher.Hasher self.entry
            item result) }
        ensures stored { IfOk result (λ stored.
            stored.now ≡ unwrap_or (find T.eq self.old.items item) item) }

        ensures item_back { IfErr result (λ refused. refused.item ≡ item) }
        ensures absent { OnErr result (contains T.eq self.old.items item ≡ false) }
        ensures full { OnErr result (length self.old.items ≡ self.old.capacity) }
    {
        let refused = self.put(item);
        self.back_or(refused)
    }

    /// Moves the stored item that is the same as a given one to the back, and returns it. If it is
    /// absent, an item is made of the given one, inserted as [`insert`](LinkedHashSet::insert)
    /// does, and the one at the back returned. Hashes the given item once, and the one made once.
    ///
    /// # Examples
    ///
    /// ```rust
    /// let mut set = LinkedHashSet::new(rt.alloc());
    /// set.insert('x')?;
    /// assert_eq!(rt; set.get_or_insert_with(&'y', |item| *item)?, &'y');
    /// assert_eq!(rt; set.get_or_insert_with(&'x', |_item| 'z')?, &'x');
    /// assert_eq!(rt; (set.len(), set.back()), (2, Some(&'x')));
    /// ```
    pub fn get_or_insert_with<Q: Equivalent<T>, F: FnOnce(Q) -> T>(
        &mut self,
        item: Q,
        make: F,
    ) -> Result<&T, Refused<T>>
    where
        T: Drop,
        requires { contains Q.equivalent self.old.items item ≡ false → F.pre make item }
        ensures* inserts { sem 𝓛
            (ends_so T.row S.row S.Hasher.row T.Hash S.BuildHasher S.Hasher.Hasher self.entry
            (RefreshedOrMade Q.equivalent T.eq (F.post make item) item self.old) result) }
        ensures stored { IfOk result (λ stored. contains Q.equivalent self.old.items item ≡ true
            → find Q.equivalent self.old.items item ≡ Some stored.now) }
        ensures made { IfOk result (λ stored. contains Q.equivalent self.old.items item ≡ false
            → (made : T) × F.post make item made
            × (stored.now ≡ unwrap_or (find T.eq self.old.items made) made)) }

        ensures item_back { IfErr result (λ refused. F.post make item refused.item) }
        ensures absent { OnErr result (contains Q.equivalent self.old.items item ≡ false) }
        ensures item_absent { IfErr result (λ refused.
            contains T.eq self.old.items refused.item ≡ false) }
        ensures full { OnErr result (length self.old.items ≡ self.old.capacity) }
    {
        let refused = self.put_with(item, make);
        self.back_or(refused)
    }

    /// Moves the stored item that is the same as a given one to the back. If it is absent, an item
    /// is made of the given one, inserted, and handed back if it is refused.
    fn put_with<Q: Equivalent<T>, F: FnOnce(Q) -> T>(&mut self, item: Q, make: F) -> Option<T>
    where
        T: Drop,
        requires { contains Q.equivalent self.old.items item ≡ false → F.pre make item }
        ensures put { IfNone result
            (RefreshedOrMade Q.equivalent T.eq (F.post make item) item self.old self.new) }
        ensures some { IfNone result (IsSome (last self.new.items)) }
        ensures found { IfNone result (contains Q.equivalent self.old.items item ≡ true
            → find Q.equivalent self.old.items item ≡ last self.new.items) }
        ensures made { IfNone result (contains Q.equivalent self.old.items item ≡ false
            → (made : T) × F.post make item made
            × (last self.new.items ≡ Some (unwrap_or (find T.eq self.old.items made) made))) }
        ensures refused { IfSome result (λ refused.
            (F.post make item refused × (contains T.eq self.old.items refused ≡ false))
            × (self.new ≡ self.old) × (contains Q.equivalent self.old.items item ≡ false)
            × (length self.old.items ≡ self.old.capacity)) }
    {
        if self.to_back(item) {
            return None;
        }
        self.put(make(item))
    }

    /// Inserts an item, and hands it back if it is refused.
    fn put(&mut self, item: T) -> Option<T>
    where
        T: Drop,
        ensures put { IfNone result (self.new ≡ inserted T.eq self.old item) }
        ensures last { IfNone result (last self.new.items
            ≡ Some (unwrap_or (find T.eq self.old.items item) item)) }
        ensures refused { IfSome result (λ refused. (refused ≡ item) × (self.new ≡ self.old)
            × (contains T.eq self.old.items item ≡ false)
            × (length self.old.items ≡ self.old.capacity)) }
    {
        match self.insert(item) {
            Ok(_new) => None,
            Err(refused) => Some(refused.item),
        }
    }

    /// Returns the back item, or the item that was refused.
    fn back_or(&self, refused: Option<T>) -> Result<&T, Refused<T>>
        requires { refused ≡ None → IsSome (last self.now.items) }
        ensures ok { IfOk result (λ stored. (refused ≡ None)
            × (last self.now.items ≡ Some stored.now)) }
        ensures err { IfErr result (λ error. refused ≡ Some error.item) }
    {
        match (self.back(), refused) {
            (_back, Some(item)) => Err(Refused { item }),
            (Some(stored), None) => Ok(stored),
            (None, None) => unreachable!(),
        }
    }
}
