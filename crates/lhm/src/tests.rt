//! Runs over memory: worked examples, readers and writers that fail, and growths that are refused.

mod failures;
mod refusals;
mod runs;
mod support;
