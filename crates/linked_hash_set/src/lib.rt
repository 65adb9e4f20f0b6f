//! A hash set that keeps its items in insertion order: a port of the `LinkedHashSet` of the Rust
//! crate hashlink 0.8.0, with the calls that the crate linked-hash-set adds. Its `README.md` has
//! what differs.
//!
//! # Examples
//!
//! ```rust
//! use linked_hash_set::LinkedHashSet;
//!
//! let mut words = LinkedHashSet::new(rt.alloc());
//! words.extend(["red", "green"])?;
//!
//! // A present item moves to the back, except by `insert_if_absent` and `replace`.
//! assert!(rt; !words.insert("red")?);
//! assert!(rt; !words.insert_if_absent("green")?);
//! assert_eq!(rt; (words.front(), words.back()), (Some(&"green"), Some(&"red")));
//!
//! // Operations on two sets go from the front.
//! let mut others = LinkedHashSet::new(rt.alloc());
//! others.extend(["blue", "red"])?;
//! assert!(rt; words.union(&others).eq(&["green", "red", "blue"]));
//!
//! // If an allocation fails, the item comes back and the set is unchanged.
//! match words.insert("grey") {
//!     Ok(new) => assert!(rt; new),
//!     Err(refused) => assert_eq!(rt; refused.item, "grey"),
//! }
//! ```
//!
//! Each example is the body of a function that has `rt: HostRuntime` and returns errors by `?`.
//!
//! # Calls by task
//!
//! - Create: [`new`](LinkedHashSet::new), [`with_capacity`](LinkedHashSet::with_capacity),
//!   [`with_hasher`](LinkedHashSet::with_hasher), [`from_iter`](LinkedHashSet::from_iter),
//!   `.collect(alloc)`, [`clone`](LinkedHashSet::clone).
//! - Insert: [`insert`](LinkedHashSet::insert), [`extend`](LinkedHashSet::extend),
//!   [`get_or_insert`](LinkedHashSet::get_or_insert) and
//!   [`get_or_insert_with`](LinkedHashSet::get_or_insert_with), which move a present item to the
//!   back; [`insert_front`](LinkedHashSet::insert_front), which moves it to the front;
//!   [`insert_if_absent`](LinkedHashSet::insert_if_absent) and [`replace`](LinkedHashSet::replace),
//!   which leave it in its place. [`append`](LinkedHashSet::append) moves all items of another set.
//! - Look up: [`contains`](LinkedHashSet::contains), [`get`](LinkedHashSet::get),
//!   [`front`](LinkedHashSet::front), [`back`](LinkedHashSet::back). [`Equivalent`] has what a
//!   lookup takes: a reference to an item, or `&str` for a `String`.
//! - Remove: [`remove`](LinkedHashSet::remove), [`take`](LinkedHashSet::take),
//!   [`pop_front`](LinkedHashSet::pop_front), [`pop_back`](LinkedHashSet::pop_back),
//!   [`truncate`](LinkedHashSet::truncate), [`retain`](LinkedHashSet::retain),
//!   [`clear`](LinkedHashSet::clear), [`drain`](LinkedHashSet::drain).
//! - Reorder: [`to_back`](LinkedHashSet::to_back), [`refresh`](LinkedHashSet::refresh),
//!   [`to_front`](LinkedHashSet::to_front), [`move_before`](LinkedHashSet::move_before),
//!   [`move_after`](LinkedHashSet::move_after), [`reverse`](LinkedHashSet::reverse),
//!   [`sort`](LinkedHashSet::sort), [`sort_by`](LinkedHashSet::sort_by),
//!   [`sort_by_cached_key`](LinkedHashSet::sort_by_cached_key).
//! - Operate on two sets: [`difference`](LinkedHashSet::difference),
//!   [`symmetric_difference`](LinkedHashSet::symmetric_difference),
//!   [`intersection`](LinkedHashSet::intersection), [`union`](LinkedHashSet::union),
//!   [`is_subset`](LinkedHashSet::is_subset), [`is_superset`](LinkedHashSet::is_superset),
//!   [`is_disjoint`](LinkedHashSet::is_disjoint), `==`.
//! - Iterate: [`iter`](LinkedHashSet::iter), [`into_iter`](LinkedHashSet::into_iter);
//!   [`iter_from`](LinkedHashSet::iter_from) or [`iter_back_from`](LinkedHashSet::iter_back_from),
//!   in an `Option`, from an item on.
//! - Memory: [`capacity`](LinkedHashSet::capacity), [`reserve`](LinkedHashSet::reserve),
//!   [`shrink_to_fit`](LinkedHashSet::shrink_to_fit).
//!
//! # The two originals
//!
//! In both, `insert` moves a present item to the back, and so does this one. `insert_if_absent`,
//! which leaves it in its place, is a call of linked-hash-set beside it. What linked-hash-set calls
//! `refresh` is `to_back` in hashlink: both names are there.
//!
//! # Costs and refusals
//!
//! Lookups, insertions and removals are O(1) on average, and O(n) if all items hash alike. A call
//! that allocates returns a `Result`, and an error changes nothing, except that an extension keeps
//! what it inserted before. Nothing panics. [`LinkedHashSet`] says more.
#![tactic(auto)]

mod drain;
mod error;
mod operations;
mod set;

pub use drain::Drain;
pub use error::Refused;
pub use linked_hash_map::{DefaultHashBuilder, Equivalent, LIMIT, NoRoom, ReserveError};
pub use operations::{Difference, Intersection, SymmetricDifference, Union};
pub use set::{IntoIter, Iter, IterBackFrom, IterFrom, LinkedHashSet};
