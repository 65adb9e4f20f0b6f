//! The commands of `json_edit`: what texts say, what they make of a document, and a whole run.
#![tactic(auto)]

pub mod command;
pub mod help;
pub mod run;
pub mod stop;
