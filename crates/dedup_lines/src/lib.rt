//! The lines of `dedup`: its arguments, the lines that it keeps, its help, and why a run stops.
#![tactic(auto)]

pub mod filter;
pub mod help;
pub mod keep;
pub mod lines;
mod recent;
pub mod stop;
