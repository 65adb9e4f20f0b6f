//! What the modules of tests share: checks, calls, keys and hashers.

pub mod calls;
pub mod checks;
pub mod counting;
pub mod hashers;
