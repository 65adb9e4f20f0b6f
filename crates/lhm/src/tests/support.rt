//! What the modules of tests share: checks, readers and writers.

pub mod checks;
pub mod fakes;
