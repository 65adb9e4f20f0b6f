//! Programs over the public calls of `linked_hash_map`, `lru_cache` and `linked_hash_set`, each
//! proved from the contracts of those calls alone.
#![tactic(auto)]

// Calls of a map, by kind: insertion, loops, refusals, modes, memory, build hashers.
pub mod collecting;
pub mod hasher;
pub mod loops;
pub mod memory;
pub mod modes;
pub mod printing;
pub mod refusal;
pub mod replaying;
pub mod retains;

// Counts, sums and groups.
pub mod basket;
pub mod bids;
pub mod clocks;
pub mod count;
#[tactic(auto, using(linked_hash_map::proofs::Callers::Groups::groups))]
pub mod groups;
pub mod stock;

// Lists in an order that their users choose.
pub mod layers;
pub mod listing;
pub mod playlist;
pub mod prices;
#[tactic(auto, using(linked_hash_map::proofs::Callers::Rules::moved_to_front))]
pub mod switcher;

// What waits for its turn.
pub mod queue;
pub mod scheduler;
pub mod tasks;

// Texts, numbers and pairs as keys.
pub mod document;
pub mod interner;
pub mod numbered;
pub mod places;
pub mod text;

// What was used last.
pub mod cache;
pub mod memo;
pub mod pages;
#[tactic(auto, using(linked_hash_map::proofs::Callers::Rules::text_lookups))]
pub mod thumbnails;
pub mod tries;
pub mod window;

// Sets.
#[tactic(auto, using(linked_hash_set::proofs::Callers::Rules::text_items))]
pub mod members;
#[tactic(auto, using(linked_hash_set::proofs::Callers::Rules::set_operations))]
pub mod seen;
pub mod selection;

// Types that hold themselves.
pub mod nested;
pub mod recursive;
