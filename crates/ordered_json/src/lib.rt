//! JSON documents whose objects keep their members in order: a text is read to a [`Value`], which
//! can be looked into and edited, and written again with all else as it was.
//!
//! # Examples
//!
//! ```rust
//! use ordered_json::{Value, from_str, to_string};
//! use std::hash::RandomState;
//!
//! let hasher = RandomState::new(&rt)?;
//! let text = "{\"sail\": 7, \"mast\": 2, \"oars\": null}";
//! let mut boat = from_str(rt.alloc(), hasher, text)?;
//! if let Some(members) = boat.as_object_mut() {
//!     let mast = members.remove("mast");
//!     assert!(rt; mast.is_some());
//! }
//! let text = to_string(rt.alloc(), &boat)?;
//! assert_eq!(rt; text.as_str(), "{\"sail\":7,\"oars\":null}");
//! ```
//!
//! # Costs and refusals
//!
//! A text is read and written in O(n). What is read nests at most [`MAX_DEPTH`] levels deep, and
//! [`set`](Value::set) keeps to it. A call that allocates returns a `Result`. Nothing panics.
#![tactic(auto)]

mod clone;
mod depth;
mod edit;
mod edit_merge;
mod edit_move;
mod edit_parent;
mod edit_rename;
mod edit_sort;
mod error;
mod number;
mod pointer;
mod read;
mod value;
mod write;

pub use edit::{EditError, NotSet};
pub use edit_merge::NotMerged;
pub use error::ReadError;
pub use number::Number;
pub use read::{MAX_DEPTH, from_str};
pub use value::{Map, Value};
pub use write::{to_string, to_string_pretty};
