//! The types by which a key is looked up.
#![tactic(auto)]

ghost use Rattle.std.specs.Prelude.{◌≡◌, Bool, IsTrue, Option, Some, None};
ghost use Rattle.std.proofs.Common.{ap};
ghost use Rattle.std.specs.Box.{boxed_slice_items, boxed_str_bytes};
ghost use Rattle.std.specs.Cmp.Lexicographic.{pointwise, bytes_decides, lists_equiv, nat_list_eq_equiv};
ghost use Rattle.std.specs.Hash as hashed;
ghost use Rattle.std.specs.Hash.{items_Alike};
ghost use Rattle.std.specs.Rc.{rc_str_bytes};
ghost use Rattle.std.specs.Str.{bytes_eq};
ghost use Rattle.std.specs.String.{string_bytes};

mod texts;

use std::alloc::Allocator;
use std::boxed::{BoxedSlice, BoxedStr};
use std::hash::Hash;
use std::rc::RcStr;
use texts::same_text;

/// What a lookup takes to find a key of type `K`: `&K`, or a borrowed form of the key.
///
/// `&str` looks up `String`, `BoxedStr`, `RcStr` and `&str`, and `&[T]` looks up `Vec<T>`,
/// `BoxedSlice<T>` and `&[T]`. A type of your own can look up the keys that it has the parts of.
///
/// # Examples
///
/// ```rust
/// use linked_hash_map::LinkedHashMap;
///
/// let mut ages = LinkedHashMap::new(rt.alloc());
/// ages.insert(String::from_str(rt.alloc(), "Zoe")?, 31)?;
/// assert_eq!(rt; ages.get("Zoe"), Some(&31));
/// ```
///
/// An implementation defines ghost members, which even `rt try` asks for: which keys it looks up,
/// and proofs that it is hashed as they are and looks up what equals them. So does a `PartialEq`,
/// `Eq` or `Hash` that is not derived. Here pages are equal if their numbers are, and a number
/// looks up a page.
///
/// ```rust
/// use linked_hash_map::{Equivalent, LinkedHashMap};
/// use std::hash::{Hash, Hasher};
///
/// #[derive(Clone, Copy, Debug)]
/// struct Page {
///     number: u64,
///     visits: u64,
/// }
///
/// impl PartialEq for Page {
///     ghost use Rattle.std.specs.Prelude.{◌==◌};
///     ghost use Rattle.std.specs.Cmp.Rules.{comparing};
///     ghost use Rattle.std.proofs.Common.{rules};
///
///     ghost eq = { λ page other. page.number == other.number };
///
///     ghost laws = { Prim.search (comparing, rules) };
///
///     fn eq(&self, other: &Page) -> bool {
///         self.number == other.number
///     }
/// }
///
/// impl Eq for Page {
///     ghost use Rattle.std.specs.Cmp.Rules.{comparing};
///     ghost use Rattle.std.proofs.Common.{rules};
///
///     ghost laws = { Prim.search (comparing, rules) };
/// }
///
/// impl Hash for Page {
///     ghost use Rattle.std.specs.Hash as fed;
///     ghost use Rattle.std.specs.Cmp.Rules.{hashing};
///     ghost use Rattle.std.proofs.Common.{rules};
///
///     ghost hash_input = { λ page. fed.u64 page.number };
///
///     ghost respects_eq = { Prim.search (hashing, rules) };
///
///     fn hash<H: Hasher>(&self, state: &mut H) {
///         self.number.hash(state);
///     }
/// }
///
/// #[derive(Clone, Copy, PartialEq, Eq, Hash)]
/// struct Number {
///     number: u64,
/// }
///
/// impl Equivalent<Page> for Number {
///     ghost use Rattle.std.specs.Hash as fed;
///     ghost use Rattle.std.specs.Prelude.{◌==◌};
///     ghost use Rattle.std.proofs.Common.{ap};
///     ghost use Rattle.std.proofs.lemmas.Bool.{eqb-true};
///
///     ghost equivalent = { λ it page. it.number == page.number };
///
///     ghost respects_hash = { λ it page same. ap fed.u64 (eqb-true it.number page.number same) };
///
///     ghost respects_eq = { λ it page other same.
///         ap (λ n. n == other.number) (eqb-true it.number page.number same) };
///
///     fn equivalent(&self, page: &Page) -> bool {
///         self.number == page.number
///     }
/// }
///
/// let mut pages = LinkedHashMap::new(rt.alloc());
/// pages.insert(Page { number: 7, visits: 0 }, "news")?;
/// assert_eq!(rt; pages.get(Number { number: 7 }), Some(&"news"));
/// ```
pub trait Equivalent<K: Eq + Hash>: Copy + Hash {
    // Whether a value looks up a key.
    ghost equivalent: { Self → K → Bool };

    // The key that the value is, if it is one. No law ties it to the value, and no result rests on
    // it: a clause that uses it speaks of a key that was found. An implementation may leave it out.
    ghost as_key: { Self → Option K } = { λ _. None };

    /// Returns `true` if `self` looks up `key`.
    fn equivalent(&self, key: &K) -> bool
        ensures { result ≡ equivalent self.now key.now };

    // A value is hashed as the keys that it looks up.
    ghost respects_hash: { (value : Self) (key : K)
        → IsTrue (equivalent value key) → Self.hash_input value ≡ K.hash_input key };

    // A value that looks up a key looks up the keys that are equal to it, and no others.
    ghost respects_eq: { (value : Self) (key other : K)
        → IsTrue (equivalent value key) → equivalent value other ≡ K.eq key other };
}

impl<K: Eq + Hash> Equivalent<K> for &K {
    ghost equivalent = { λ value. K.eq value.now };

    ghost as_key = { λ value. Some value.now };

    ghost respects_hash = { λ value. K.respects_eq value.now };

    ghost respects_eq = { λ value. K.Eq.laws.congr value.now };

    fn equivalent(&self, key: &K) -> bool {
        (*self).eq(key)
    }
}

impl<A: Allocator> Equivalent<String<A>> for &str {
    ghost equivalent = { λ text key. bytes_eq text.now (string_bytes key) };

    ghost respects_hash = { λ text key same.
        ap hashed.str ((bytes_decides text.now (string_bytes key)).0 same) };

    ghost respects_eq = { λ text key other.
        nat_list_eq_equiv.congr text.now (string_bytes key) (string_bytes other) };

    #[inline(always)]
    fn equivalent(&self, key: &String<A>) -> bool {
        same_text(*self, key.as_str())
    }
}

impl<A: Allocator> Equivalent<BoxedStr<A>> for &str {
    ghost equivalent = { λ text key. bytes_eq text.now (boxed_str_bytes key) };

    ghost respects_hash = { λ text key same.
        ap hashed.str ((bytes_decides text.now (boxed_str_bytes key)).0 same) };

    ghost respects_eq = { λ text key other.
        nat_list_eq_equiv.congr text.now (boxed_str_bytes key) (boxed_str_bytes other) };

    #[inline(always)]
    fn equivalent(&self, key: &BoxedStr<A>) -> bool {
        same_text(*self, key.as_str())
    }
}

impl<A: Allocator> Equivalent<RcStr<A>> for &str {
    ghost equivalent = { λ text key. bytes_eq text.now (rc_str_bytes key) };

    ghost respects_hash = { λ text key same.
        ap hashed.str ((bytes_decides text.now (rc_str_bytes key)).0 same) };

    ghost respects_eq = { λ text key other.
        nat_list_eq_equiv.congr text.now (rc_str_bytes key) (rc_str_bytes other) };

    #[inline(always)]
    fn equivalent(&self, key: &RcStr<A>) -> bool {
        same_text(*self, key.as_str())
    }
}

impl<'k> Equivalent<&'k str> for &str {
    ghost equivalent = { λ text key. bytes_eq text.now key.now };

    ghost respects_hash = { λ text key same.
        ap hashed.str ((bytes_decides text.now key.now).0 same) };

    ghost respects_eq = { λ text key other.
        nat_list_eq_equiv.congr text.now key.now other.now };

    #[inline(always)]
    fn equivalent(&self, key: &&'k str) -> bool {
        same_text(*self, *key)
    }
}

impl<T: Eq + Hash, A: Allocator> Equivalent<Vec<T, A>> for &[T] {
    ghost equivalent = { λ items key. pointwise T.eq items.now key.items };

    ghost respects_hash = { λ items key.
        (items_Alike (record { fed = T.respects_eq })).fed items.now key.items };

    ghost respects_eq = { λ items key other.
        (lists_equiv T.Eq.laws).congr items.now key.items other.items };

    fn equivalent(&self, key: &Vec<T, A>) -> bool {
        *self == key.as_slice()
    }
}

impl<T: Eq + Hash, A: Allocator> Equivalent<BoxedSlice<T, A>> for &[T] {
    ghost equivalent = { λ items key. pointwise T.eq items.now (boxed_slice_items key) };

    ghost respects_hash = { λ items key.
        (items_Alike (record { fed = T.respects_eq })).fed items.now (boxed_slice_items key) };

    ghost respects_eq = { λ items key other.
        (lists_equiv T.Eq.laws).congr items.now (boxed_slice_items key) (boxed_slice_items other) };

    fn equivalent(&self, key: &BoxedSlice<T, A>) -> bool {
        *self == key.as_slice()
    }
}

impl<'k, T: Eq + Hash> Equivalent<&'k [T]> for &[T] {
    ghost equivalent = { λ items key. pointwise T.eq items.now key.now };

    ghost respects_hash = { λ items key.
        (items_Alike (record { fed = T.respects_eq })).fed items.now key.now };

    ghost respects_eq = { λ items key other.
        (lists_equiv T.Eq.laws).congr items.now key.now other.now };

    fn equivalent(&self, key: &&'k [T]) -> bool {
        *self == *key
    }
}
