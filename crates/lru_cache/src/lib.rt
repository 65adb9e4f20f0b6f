//! A cache of a limited number of pairs, in the order of their last use: a port of the Rust crate
//! lru-cache 0.1.2, called the original here, over `linked_hash_map`. `README.md` has what differs.
//!
//! # Examples
//!
//! ```rust
//! use lru_cache::LruCache;
//!
//! let mut cache = LruCache::new(rt.alloc(), 2);
//! cache.insert(1, 10)?;
//! cache.insert(2, 20)?;
//!
//! // A lookup uses its pair, so that of 2 is now the one used least recently.
//! assert_eq!(rt; cache.get(&1), Some(&10));
//!
//! // A new pair takes the place of the one used least recently, if the cache is full.
//! cache.insert(3, 30)?;
//! assert_eq!(rt; cache.get(&2), None);
//! assert_eq!(rt; cache.remove_lru(), Some((1, 10)));
//! ```
//!
//! Each example is the body of a function that has `rt: HostRuntime` and returns errors by `?`.
//!
//! # Calls by task
//!
//! - Create: [`new`](LruCache::new), [`with_hasher`](LruCache::with_hasher),
//!   [`clone`](LruCache::clone).
//! - Insert: [`insert`](LruCache::insert); [`put`](LruCache::put), which returns the pair that
//!   goes; [`extend`](LruCache::extend).
//! - Look up: [`get`](LruCache::get), [`get_mut`](LruCache::get_mut) and
//!   [`contains_key`](LruCache::contains_key), which use the pair; [`peek`](LruCache::peek),
//!   [`peek_mut`](LruCache::peek_mut), [`peek_lru`](LruCache::peek_lru) and
//!   [`peek_mru`](LruCache::peek_mru), which do not.
//! - Remove: [`remove`](LruCache::remove), [`remove_entry`](LruCache::remove_entry),
//!   [`remove_lru`](LruCache::remove_lru), [`retain`](LruCache::retain),
//!   [`clear`](LruCache::clear), [`drain`](LruCache::drain).
//! - Iterate, the pair used least recently first: [`iter`](LruCache::iter),
//!   [`iter_mut`](LruCache::iter_mut), [`into_iter`](LruCache::into_iter).
//! - The limit: [`capacity`](LruCache::capacity), [`set_capacity`](LruCache::set_capacity).
//! - Memory: [`reserve`](LruCache::reserve), [`room`](LruCache::room).
//! - Besides: [`len`](LruCache::len), [`is_empty`](LruCache::is_empty); [`replay`] runs commands.
#![tactic(auto)]

mod cache;
pub mod replay;

pub use cache::LruCache;
pub use linked_hash_map::{
    DefaultHashBuilder, Drain, Equivalent, IntoIter, Iter, IterMut, Refused, ReserveError,
};
