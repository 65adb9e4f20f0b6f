//! Tests of the ring, the map, the cache, the set and documents that are no lines of `driver`.
#![tactic(auto)]

#[cfg(test)]
mod tests;
