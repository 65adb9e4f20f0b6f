//! Programs of users whose code and contracts stay as they were first written.
#![tactic(auto)]

pub mod doubling;
pub mod join;
pub mod limiter;
#[tactic(auto, using(lru_cache::proofs::Callers::Rules::each_pair))]
pub mod memo;
pub mod plan;
#[tactic(auto, using(linked_hash_map::proofs::Callers::Rules::front_keys))]
pub mod tabs;
#[tactic(auto, using(linked_hash_map::proofs::Callers::Rules::byte_keys))]
pub mod text_map;
pub mod text_pairs;
pub mod undo;
#[tactic(auto, using(linked_hash_map::proofs::Callers::Rules::text_counts))]
pub mod words;
