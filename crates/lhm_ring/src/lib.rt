//! Raw nodes in a ring with a hash index, for a map in insertion order: see `table::Table`.
#![tactic(auto)]

// Unsafe code: each function that reads or writes raw memory, or lends it, is proved by hand.
pub(crate) mod bucket_block;
pub(crate) mod content_loan;
pub(crate) mod iter_mut;
pub(crate) mod nodes;
pub(crate) mod value_loan;

// Safe code, with no proof by hand. `links` uses nodes and pointers alone, and `chunks` uses it.
// These use each other: `ring`, `drain`, `grow`, `iter`, `owned` and `iter_mut` above; and over them
// `index`, `buckets` and `search`. `table` uses both groups, and `resize`, `retain` and `sort` use
// it.
pub(crate) mod bucket_parts;
pub(crate) mod buckets;
pub(crate) mod chunks;
pub(crate) mod drain;
pub(crate) mod grow;
pub mod index;
pub(crate) mod iter;
pub(crate) mod links;
pub(crate) mod owned;
pub(crate) mod pointer;
pub(crate) mod resize;
pub(crate) mod retain;
pub mod ring;
pub(crate) mod search;
pub(crate) mod sort;
pub mod table;
