//! Runs over memory: worked examples, faults, streams that fail, and growths that are refused.

mod failures;
mod refusals;
mod runs;
mod support;
