//! The text of `lhm`: its input, the commands that lines say, the lines of replies and of a list,
//! and why a run stops.
#![tactic(auto)]

mod grammar;
pub mod input;
pub mod parser;
pub mod stop;
pub mod text;
