//! Equality, order, hash and debug text, pair by pair.
ghost use Rattle.std.specs.Prelude.{◌≡◌, drop};
ghost use Rattle.std.specs.List.{flat_map};
ghost use Rattle.std.specs.Cmp.Lexicographic.{pointwise, lists_equiv, lists_agrees, lists_total, lists_ties, lists_per, lists_po};
ghost use Rattle.std.specs.Cmp.{on_equiv, and_equiv, then_agrees, on_total, then_total, both_tied, on_per, and_per, on_po, then_po};
ghost use Rattle.std.specs.Hash.{on_Alike, and-Alike, items_Alike};
ghost use Rattle.std.specs.Map.Iter.{deref_pair};
ghost use Rattle.linked_hash_map.specs.Comparison.{same_pair, pair_order, partial_pair_order, lexicographic, partial_lexicographic, pair_writes};
ghost use Rattle.std.proofs.Common.{ap};

use crate::map::LinkedHashMap;
use std::cmp::Ordering;
use std::fmt;
use std::hash::{BuildHasher, Hash, Hasher};

/// Maps are equal if their pairs are, in order; hashers, modes and capacities do not count. It is
/// O(n), compares each key at most once, or none if the lengths differ, and hashes none.
///
/// # Examples
///
/// ```rust
/// let mut map = LinkedHashMap::new(rt.alloc());
/// map.extend([('x', 1), ('y', 2)])?;
/// let mut other = LinkedHashMap::new(rt.alloc());
/// other.extend([('y', 2), ('x', 1)])?;
/// assert!(rt; map != other);
/// other.insert('y', 2)?; // moves the pair to the back
/// assert!(rt; map == other);
/// ```
impl<K: Eq + Hash, V: PartialEq, S: BuildHasher> PartialEq for LinkedHashMap<K, V, S> {
    ghost eq = { λ m n. pointwise (same_pair K.eq V.eq) m.pairs n.pairs };

    ghost laws = { on_per (λ m. m.pairs)
        (lists_per (and_per (on_per (λ pair. pair.0) K.PartialEq.laws)
        (on_per (λ pair. pair.1) V.laws))) };

    fn eq(&self, other: &LinkedHashMap<K, V, S>) -> bool {
        if self.len() != other.len() {
            return false;
        }
        let mut others = other.iter();
        for pair in self.iter() {
            let Some(other_pair) = others.next() else {
                return false;
            };
            if !is_same_pair(pair, other_pair) {
                return false;
            }
        }
        true
    }
}

/// An equivalence if equality of the values is.
impl<K: Eq + Hash, V: Eq, S: BuildHasher> Eq for LinkedHashMap<K, V, S> {
    ghost laws = { on_equiv (λ m. m.pairs)
        (lists_equiv (and_equiv (on_equiv (λ pair. pair.0) K.Eq.laws)
        (on_equiv (λ pair. pair.1) V.Eq.laws))) };
}

/// Compares the pairs lexicographically, key before value, in O(n): each key at most once, hashing
/// none. Returns `None` if the first keys or values that differ have no order.
///
/// # Examples
///
/// ```rust
/// let mut map = LinkedHashMap::new(rt.alloc());
/// map.extend([('x', 1), ('y', 2)])?;
/// let mut other = LinkedHashMap::new(rt.alloc());
/// other.extend([('y', 2), ('x', 1)])?;
/// assert!(rt; map < other);
/// ```
impl<K: Eq + Hash + PartialOrd, V: PartialOrd, S: BuildHasher> PartialOrd
    for LinkedHashMap<K, V, S> {
    ghost partial_cmp = { λ m n.
        partial_lexicographic (partial_pair_order K.partial_cmp V.partial_cmp) m.pairs n.pairs };

    ghost laws = { on_po (λ m. m.pairs)
        (lists_po (then_po (on_po (λ pair. pair.0) K.PartialOrd.laws)
        (on_po (λ pair. pair.1) V.PartialOrd.laws))) };

    fn partial_cmp(&self, other: &LinkedHashMap<K, V, S>) -> Option<Ordering> {
        let mut others = other.iter();
        for pair in self.iter() {
            let Some(other_pair) = others.next() else {
                return Some(Ordering::Greater);
            };
            match partial_compare_pairs(pair, other_pair) {
                Some(Ordering::Equal) => {}
                Some(Ordering::Less) => return Some(Ordering::Less),
                Some(Ordering::Greater) => return Some(Ordering::Greater),
                None => return None,
            }
        }
        match others.next() {
            Some(_) => Some(Ordering::Less),
            None => Some(Ordering::Equal),
        }
    }
}

/// Compares the pairs lexicographically, key before value, in O(n): each key at most once, hashing
/// none.
///
/// # Examples
///
/// ```rust
/// use std::cmp::Ordering;
///
/// let mut map = LinkedHashMap::new(rt.alloc());
/// map.extend([('x', 1), ('y', 2)])?;
/// let mut other = LinkedHashMap::new(rt.alloc());
/// other.extend([('y', 2), ('x', 1)])?;
/// assert_eq!(rt; map.cmp(&other), Ordering::Less);
/// ```
impl<K: Ord + Hash, V: Ord, S: BuildHasher> Ord for LinkedHashMap<K, V, S> {
    ghost cmp = { λ m n. lexicographic (pair_order K.cmp V.cmp) m.pairs n.pairs };

    ghost total = { on_total (λ m. m.pairs)
        (lists_total (then_total (on_total (λ pair. pair.0) K.total)
        (on_total (λ pair. pair.1) V.total))) };

    ghost matches_partial_cmp = { λ m n.
        lists_agrees (then_agrees (λ p q. K.matches_partial_cmp p.0 q.0)
        (λ p q. V.matches_partial_cmp p.1 q.1)) m.pairs n.pairs };

    ghost matches_eq = { λ m n.
        let key = K.cmp in
        let value = V.cmp in
        lists_ties (pair_order key value) (λ p q. both_tied _ _ (key p.0 q.0) (value p.1 q.1)
        (K.matches_eq p.0 q.0) (V.matches_eq p.1 q.1)) m.pairs n.pairs };

    fn cmp(&self, other: &LinkedHashMap<K, V, S>) -> Ordering {
        let mut others = other.iter();
        for pair in self.iter() {
            let Some(other_pair) = others.next() else {
                return Ordering::Greater;
            };
            match compare_pairs(pair, other_pair) {
                Ordering::Equal => {}
                Ordering::Less => return Ordering::Less,
                Ordering::Greater => return Ordering::Greater,
            }
        }
        match others.next() {
            Some(_) => Ordering::Less,
            None => Ordering::Equal,
        }
    }
}

/// Feeds a hasher each pair once, in order, key then value, and no length, in O(n).
///
/// # Examples
///
/// ```rust
/// use linked_hash_map::{DefaultHashBuilder, LinkedHashMap};
/// use std::hash::BuildHasher;
///
/// let mut map = LinkedHashMap::with_capacity(rt.alloc(), 5)?;
/// map.insert('x', 1)?;
/// let clone = map.clone()?;
/// let builder = DefaultHashBuilder::new();
/// assert_eq!(rt; builder.hash_one(clone), builder.hash_one(map));
/// ```
impl<K: Eq + Hash, V: Hash, S: BuildHasher> Hash for LinkedHashMap<K, V, S> {
    ghost hash_input = { λ m. flat_map (pair_writes K.hash_input V.hash_input) m.pairs };

    ghost respects_eq = { λ m n same.
        ap (drop 1)
        ((items_Alike (and-Alike (on_Alike (λ pair. pair.0) (record { fed = K.respects_eq }))
        (on_Alike (λ pair. pair.1) (record { fed = V.respects_eq })))
        ).fed m.pairs n.pairs same) };

    fn hash<H: Hasher>(&self, state: &mut H) {
        for (key, value) in self.iter() {
            key.hash(state);
            value.hash(state);
        }
    }
}

/// Formats each pair once, in order, as std formats maps, in O(n). It does not allocate itself.
///
/// # Examples
///
/// ```rust
/// let mut map = LinkedHashMap::with_capacity(rt.alloc(), 5)?;
/// map.insert('x', 1)?;
/// let text = format!(in rt.alloc(); "{map:?}")?;
/// assert_eq!(rt; text.as_str(), "{'x': 1}");
/// ```
impl<K: Eq + Hash + fmt::Debug, V: fmt::Debug, S: BuildHasher> fmt::Debug
    for LinkedHashMap<K, V, S> {
    fn fmt<W: fmt::Write>(&self, f: &mut fmt::Formatter<W>) -> fmt::Result {
        let mut map = f.debug_map();
        for (key, value) in self.iter() {
            map.entry(key, value);
        }
        map.finish()
    }
}

/// Returns `true` if two pairs are equal.
fn is_same_pair<K: PartialEq, V: PartialEq>(pair: (&K, &V), other: (&K, &V)) -> bool
    ensures { result ≡ same_pair K.eq V.eq (deref_pair pair.entry) (deref_pair other.entry) }
{
    pair.0 == other.0 && pair.1 == other.1
}

/// Compares two pairs, key before value.
fn compare_pairs<K: Ord, V: Ord>(pair: (&K, &V), other: (&K, &V)) -> Ordering
    ensures { result ≡ pair_order K.cmp V.cmp (deref_pair pair.entry) (deref_pair other.entry) }
{
    match pair.0.cmp(other.0) {
        Ordering::Less => Ordering::Less,
        Ordering::Equal => pair.1.cmp(other.1),
        Ordering::Greater => Ordering::Greater,
    }
}

/// Compares two pairs, key before value, if there is an order.
fn partial_compare_pairs<K: PartialOrd, V: PartialOrd>(
    pair: (&K, &V),
    other: (&K, &V),
) -> Option<Ordering>
    ensures { result ≡ partial_pair_order K.partial_cmp V.partial_cmp (deref_pair pair.entry)
        (deref_pair other.entry) }
{
    match pair.0.partial_cmp(other.0)? {
        Ordering::Less => Some(Ordering::Less),
        Ordering::Equal => pair.1.partial_cmp(other.1),
        Ordering::Greater => Some(Ordering::Greater),
    }
}
