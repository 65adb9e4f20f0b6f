//! What the modules of tests share: checks and arguments.

pub mod checks;
pub mod words;
