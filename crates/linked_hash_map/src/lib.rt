//! A hash map that keeps its pairs in insertion order: a port of the Rust crate linked-hash-map
//! 0.5.6, called the original here. `docs/DIFFERENCES.md` has what differs.
//!
//! # Examples
//!
//! ```rust
//! use linked_hash_map::LinkedHashMap;
//!
//! let mut colours = LinkedHashMap::new(rt.alloc());
//! colours.insert(7, "red")?;
//! colours.insert(5, "green")?;
//!
//! // A present key gets the new value, and its pair moves to the back.
//! colours.insert(7, "blue")?;
//! assert_eq!(rt; colours.front(), Some((&5, &"green")));
//!
//! // A lookup leaves the order. A refresh moves the pair to the back.
//! assert_eq!(rt; colours.get(&5), Some(&"green"));
//! assert_eq!(rt; colours.back(), Some((&7, &"blue")));
//! assert_eq!(rt; colours.get_refresh(&5).copied(), Some("green"));
//! assert_eq!(rt; colours.back(), Some((&5, &"green")));
//!
//! // If an allocation fails, the pair comes back and the map is unchanged.
//! match colours.insert(8, "grey") {
//!     Ok(old) => assert_eq!(rt; old, None),
//!     Err(refused) => assert_eq!(rt; (refused.key, refused.value), (8, "grey")),
//! }
//! ```
//!
//! Each example is the body of a function that has `rt: HostRuntime` and returns errors by `?`.
//!
//! # Calls by task
//!
//! - Create: [`new`](LinkedHashMap::new), [`with_capacity`](LinkedHashMap::with_capacity),
//!   [`with_hasher`](LinkedHashMap::with_hasher), [`from_iter`](LinkedHashMap::from_iter),
//!   `.collect(alloc)`, [`clone`](LinkedHashMap::clone).
//! - Insert: [`insert`](LinkedHashMap::insert), [`insert_front`](LinkedHashMap::insert_front),
//!   [`extend`](LinkedHashMap::extend), [`extend_refs`](LinkedHashMap::extend_refs), or by an
//!   [`Entry`]; [`insert_within_capacity`](LinkedHashMap::insert_within_capacity) if there is room;
//!   [`append`](LinkedHashMap::append) moves all pairs of another map, or none. By
//!   [`replace`](LinkedHashMap::replace), and after
//!   [`set_mode(Mode::Keep)`](LinkedHashMap::set_mode), a present key keeps its place.
//!   [`replace_key`](LinkedHashMap::replace_key) stores a key in place of one that is the same.
//! - Look up: [`get`](LinkedHashMap::get), [`get_key_value`](LinkedHashMap::get_key_value),
//!   [`get_mut`](LinkedHashMap::get_mut), [`contains_key`](LinkedHashMap::contains_key),
//!   `map[&key]`, [`front`](LinkedHashMap::front), [`back`](LinkedHashMap::back),
//!   [`front_mut`](LinkedHashMap::front_mut), [`back_mut`](LinkedHashMap::back_mut), or
//!   [`get_refresh`](LinkedHashMap::get_refresh), which moves the pair to the back. [`Equivalent`]
//!   has what a lookup takes: a reference to a key, or `&str` for a `String`.
//! - Remove: [`remove`](LinkedHashMap::remove), [`remove_entry`](LinkedHashMap::remove_entry),
//!   [`pop_front`](LinkedHashMap::pop_front), [`pop_back`](LinkedHashMap::pop_back),
//!   [`truncate`](LinkedHashMap::truncate), [`retain`](LinkedHashMap::retain),
//!   [`clear`](LinkedHashMap::clear), [`drain`](LinkedHashMap::drain), or by
//!   [`front_entry`](LinkedHashMap::front_entry) or [`back_entry`](LinkedHashMap::back_entry).
//! - Reorder: [`move_to_back`](LinkedHashMap::move_to_back),
//!   [`move_to_front`](LinkedHashMap::move_to_front), [`move_before`](LinkedHashMap::move_before),
//!   [`move_after`](LinkedHashMap::move_after), [`rotate_left`](LinkedHashMap::rotate_left),
//!   [`reverse`](LinkedHashMap::reverse), [`sort_by`](LinkedHashMap::sort_by),
//!   [`sort_by_key`](LinkedHashMap::sort_by_key),
//!   [`sort_by_cached_key`](LinkedHashMap::sort_by_cached_key),
//!   [`sort_keys`](LinkedHashMap::sort_keys).
//! - Iterate: [`iter`](LinkedHashMap::iter), [`iter_mut`](LinkedHashMap::iter_mut),
//!   [`keys`](LinkedHashMap::keys), [`values`](LinkedHashMap::values),
//!   [`values_mut`](LinkedHashMap::values_mut), [`into_iter`](LinkedHashMap::into_iter),
//!   [`into_keys`](LinkedHashMap::into_keys), [`into_values`](LinkedHashMap::into_values);
//!   [`iter_from`](LinkedHashMap::iter_from) or [`iter_back_from`](LinkedHashMap::iter_back_from),
//!   in an `Option`, from the pair of a key on; [`entries`](LinkedHashMap::entries) or
//!   [`visit`](LinkedHashMap::visit) to remove or move pairs on the way.
//! - Memory: [`capacity`](LinkedHashMap::capacity), [`reserve`](LinkedHashMap::reserve),
//!   [`shrink_to_fit`](LinkedHashMap::shrink_to_fit).
//! - Besides: [`replay`] runs commands, and [`sessions`] has a table with a limit on weights.
//!
//! # Costs and refusals
//!
//! Lookups, insertions and removals are O(1) on average, and O(n) if all keys hash alike. Below the
//! capacity no insertion allocates or fails, except `append`; a refused one hands back its pair,
//! and a refused `append` moves none. A call that allocates returns a `Result`, and an error
//! changes nothing, except that an extension keeps what it inserted before. By `?` an error type
//! becomes an `io::Error` or an `AllocError` too, except [`PutRefused`](sessions::PutRefused), which
//! may not be for want of memory. Nothing panics. [`LinkedHashMap`] says more.
//!
//! `docs/PROMISES.md` says what is proved, and `docs/PROVING.md` how callers use contracts.
#![tactic(auto)]

mod clone;
mod collect;
mod compare;
mod drain;
mod entry;
mod error;
mod iter;
mod map;
pub mod replay;
pub mod sessions;

pub use drain::Drain;
pub use entry::{Entries, Entry, OccupiedEntry, VacantEntry};
pub use equivalent::Equivalent;
pub use error::{NoRoom, Refused, ReserveError};
pub use iter::{
    IntoIter, IntoKeys, IntoValues, Iter, IterBackFrom, IterFrom, IterMut, Keys, Values, ValuesMut,
};
pub use map::{DefaultHashBuilder, LIMIT, LinkedHashMap, Mode, Probe};
