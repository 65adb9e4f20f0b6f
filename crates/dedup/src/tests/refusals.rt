//! Runs with a growth refused.
//!
//! The tests run with the Nth growth refused, for each N, until all of them say that every growth
//! was given, and how many there are. That number is counted by hand. A line of a few bytes is read
//! into a vector, which grows to 8, and a new line is copied. The set asks for its buckets and a
//! chunk at its first line, and for nothing at its second.

use super::support::checks::check_eq;
use super::support::numbers::NUMBERS;
use super::support::streams::Sink;
use crate::{run, write_output};
use dedup_lines::keep::Keep;
use dedup_lines::stop::Stop;
use linked_hash_set::DefaultHashBuilder;
use std::alloc::Global;
use std::process::Abort;

/// Says that no growth was refused, if that is so, and how many there are.
fn say_if_given(rt: &impl Print, given: bool, growths: u64) {
    if given {
        let _ = println!(rt; "every growth was given, {growths} in all");
    }
}

/// Tells whether a run that was refused a growth ended as it has to: it wrote its first line, or
/// none.
fn is_refused(status: u8, output: &[u8], faults: &[u8]) -> bool {
    status == 3
        && b"a\n".as_slice().starts_with(output)
        && faults == b"dedup: out of memory\n".as_slice()
}

/// Checks a run over two lines, and says so if no growth is refused in it.
fn check_run(rt: &(impl Abort + Print), alloc: Global) {
    let mut input = b"a\nb\na\n".as_slice();
    let mut output = Sink::new();
    let mut faults = Sink::new();
    let (status, _stop, _told) = run(alloc, &NUMBERS, &[], &mut input, &mut output, &mut faults);
    let given = status == 0 && output.bytes() == b"a\nb\n".as_slice();
    check_eq!(rt;
        (status, output.bytes(), given || is_refused(status, output.bytes(), faults.bytes())),
        (status, output.bytes(), true)
    );
    say_if_given(rt, given, 5);
}

#[test]
fn refused_growth_of_a_run(rt: HostRuntime) {
    // The line that is read, two copies, and the set's growths: two for the first item.
    check_run(&rt, rt.alloc());
}

/// Checks a pass that keeps the lines told, and says so if no growth is refused in it.
fn check_pass(rt: &(impl Abort + Print), alloc: Global, keep: Keep, lines: &[u8], growths: u64) {
    let mut input = b"a\nb\na\n".as_slice();
    let mut output = Sink::new();
    let result = write_output(
        alloc,
        DefaultHashBuilder::new(),
        keep,
        &mut input,
        &mut output,
    );
    let given = result == Ok(()) && output.bytes() == lines;
    check_eq!(rt;
        (result, output.bytes(), given || result == Err(Stop::OutOfMemory)),
        (result, output.bytes(), true)
    );
    say_if_given(rt, given, growths);
}

#[test]
fn refused_growth_of_last_lines(rt: HostRuntime) {
    check_pass(&rt, rt.alloc(), Keep::Last, b"b\na\n", 5);
}

#[test]
fn refused_growth_of_a_window(rt: HostRuntime) {
    // The third line is new again, and is copied: the set has room for it.
    check_pass(&rt, rt.alloc(), Keep::Window(1), b"a\nb\na\n", 6);
}
