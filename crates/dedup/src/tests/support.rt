//! What the modules of tests share: checks, arguments, hashers, random numbers, readers and
//! writers.

pub mod checks;
pub mod hashers;
pub mod numbers;
pub mod streams;
pub mod words;
