//! Runs with a growth refused.
//!
//! The tests run with the Nth growth refused, for each N, until all of them say that every growth
//! was given, and how many there are.

use super::support::checks::check_eq;
use super::support::words::arguments;
use json_commands::run::run;
use json_commands::stop::Stop;
use std::alloc::Global;
use std::process::Abort;
use std::random::RandomSource;

/// The room for the output, which asks for no memory.
const ROOM: usize = 64;

/// Runs on an input, and returns how that went and how much room of the output is left.
fn run_in_room(
    random: &impl RandomSource,
    alloc: Global,
    words: &[&str],
    input: &[u8],
    output: &mut [u8],
) -> (Result<(), Stop>, usize) {
    let Ok(words) = arguments(alloc, words) else {
        return (Err(Stop::OutOfMemory), output.len());
    };
    let mut input = input;
    let mut rest = output;
    let done = run(alloc, random, words.as_slice(), &mut input, &mut rest);
    (done, rest.len())
}

/// Checks a run: it writes the output, or stops without memory and writes nothing. Says so if no
/// growth is refused in it.
fn check_run(
    rt: &(impl Abort + Print + RandomSource),
    alloc: Global,
    words: &[&str],
    wanted: &[u8],
    growths: u64,
) {
    let mut buffer = [0u8; ROOM];
    let input = b"{\"a\": [1, \"x\"], \"b\": null}";
    let (done, room) = run_in_room(rt, alloc, words, input, &mut buffer);
    let written = buffer.as_slice().starts_with(wanted)
        && room.saturating_add(wanted.len()) == ROOM;
    check_eq!(rt;
        (done, written, done == Ok(()) || room == ROOM),
        (if written { Ok(()) } else { Err(Stop::OutOfMemory) }, done == Ok(()), true)
    );
    if written {
        let _ = println!(rt; "every growth was given, {growths} in all");
    }
}

#[test]
fn refused_growth_of_a_set(rt: HostRuntime) {
    let words = &["--compact", "set /a/- {\"c\": 7}"];
    let wanted = b"{\"a\":[1,\"x\",{\"c\":7}],\"b\":null}\n";
    check_run(&rt, rt.alloc(), words, wanted, 27);
}

#[test]
fn refused_growth_of_other_edits(rt: HostRuntime) {
    let words = &["rename /a c", "move /c after b", "remove /b", "get /c/1"];
    check_run(&rt, rt.alloc(), words, b"\"x\"\n", 31);
}
