//! Worked examples.

use super::support::checks::{check, check_eq, given};
use super::support::hashers::BuildCounted;
use super::support::numbers::{NUMBERS, Numbers};
use super::support::words::arguments;
use crate::{run_in_memory, seed, write_output};
use dedup_lines::keep::Keep;
use std::alloc::Global;
use std::cell::Cell;
use std::hash::BuildHasher;
use std::process::Abort;

/// Arguments, an input, and the output of the run.
type Run = (&'static [&'static str], &'static [u8], &'static [u8]);

/// The lines that are printed were found by hand.
const RUNS: [Run; 20] = [
    (&[], b"", b""),
    (&[], b"a\nb\na\nc\nb\n", b"a\nb\nc\n"),
    (&["--last"], b"a\nb\na\nc\nb\n", b"a\nc\nb\n"),
    (&["--last"], b"", b""),
    // A window without lines, of one, of two, and of more than there are.
    (&["--window", "0"], b"a\na\nb\n", b"a\na\nb\n"),
    (&["--window", "1"], b"a\na\nb\na\nb\nb\n", b"a\nb\na\nb\n"),
    (&["--window", "2"], b"a\nb\na\nc\na\nb\n", b"a\nb\nc\nb\n"),
    (&["--window", "9"], b"a\nb\na\nc\na\nb\n", b"a\nb\nc\n"),
    (&["--window", "+2"], b"a\nb\nc\na\n", b"a\nb\nc\na\n"),
    (
        &["--window", "18446744073709551615"],
        b"a\nb\na\n",
        b"a\nb\n",
    ),
    // Blank lines are lines, and the last line may lack its line feed.
    (&[], b"\n\n", b"\n"),
    (&[], b"\na\n\nb", b"\na\nb\n"),
    (&[], b"a\na", b"a\n"),
    (&["--last"], b"a\nb\na", b"b\na\n"),
    // A carriage return and spaces are bytes of a line.
    (&[], b"a\r\na\na \n a\n", b"a\r\na\na \n a\n"),
    // Bytes that are no text.
    (&[], b"\xff\xfe\n\x00\n\xff\xfe\n\x00", b"\xff\xfe\n\x00\n"),
    (&["--last"], b"\xff\n\x80\n\xff\n", b"\x80\n\xff\n"),
    // A line that begins as another.
    (&[], b"ab\na\nab\nabc\na\n", b"ab\na\nabc\n"),
    (&["--window", "1"], b"\n\na\n\n", b"\na\n\n"),
    (
        &["--window", "3"],
        b"a\nb\nc\nd\na\nb\nd\n",
        b"a\nb\nc\nd\na\nb\n",
    ),
];

/// Checks a run: its status, its output and that it tells no fault.
fn check_run(rt: &impl Abort, alloc: Global, wanted: Run) {
    let words = given!(rt; arguments(alloc, wanted.0));
    let mut output = Vec::new(alloc);
    let mut faults = Vec::new(alloc);
    let status = run_in_memory(
        alloc,
        &NUMBERS,
        words.as_slice(),
        wanted.1,
        &mut output,
        &mut faults,
    );
    check_eq!(rt; (output.as_slice(), status, faults.len()), (wanted.2, 0, 0));
}

/// Checks each run.
fn check_runs(rt: &impl Abort, alloc: Global) {
    for wanted in RUNS {
        check_run(rt, alloc, wanted);
    }
}

#[test]
fn runs(rt: HostRuntime) {
    check_runs(&rt, rt.alloc());
}

/// Checks how often a run over five lines makes a hasher.
fn check_hashers(rt: &impl Abort, alloc: Global, keep: Keep, wanted: usize) {
    let built = Cell::new(0);
    let mut input = b"a\nb\na\nb\nb\n".as_slice();
    let mut output = Vec::new(alloc);
    let written = write_output(
        alloc,
        BuildCounted { built: &built },
        keep,
        &mut input,
        &mut output,
    );
    check_eq!(rt; (written, built.get()), (Ok(()), wanted));
}

#[test]
fn lines_are_hashed_once_and_new_lines_twice(rt: HostRuntime) {
    // A line is looked up, and a new one is inserted: two are new, and in the window four.
    check_hashers(&rt, rt.alloc(), Keep::First, 7);
    check_hashers(&rt, rt.alloc(), Keep::Last, 7);
    check_hashers(&rt, rt.alloc(), Keep::Window(1), 9);
}

/// Returns the hash of a line by a seed of random bytes that are all alike.
fn hash_by(rt: &impl Abort, byte: u8) -> u64 {
    let random = Numbers { byte, fails: None };
    given!(rt; seed(&random)).hash_one(b"a".as_slice())
}

#[test]
fn seeds_hash_a_line_differently(rt: HostRuntime) {
    check!(rt; hash_by(&rt, 7) != hash_by(&rt, 8));
}

/// What `--help` prints.
pub const HELP: &[u8] = b"\
dedup prints each line of standard input once, at its first appearance.
--last: prints each line once, at its last appearance.
--window N: prints each line that is not among the last N distinct lines before it.
";

#[test]
fn help(rt: HostRuntime) {
    check_run(&rt, rt.alloc(), (&["--help"], b"a\n", HELP));
}

/// Arguments that are wrong, and the word that is told.
const WRONG: [(&[&str], &str); 17] = [
    (&["--help", "--help"], "--help"),
    (&["--help", "--last"], "--last"),
    (&["-h"], "-h"),
    (&["--first", "--last"], "--first"),
    (&["--last", "--last"], "--last"),
    (&["--last", "2"], "2"),
    (&["--last", "--window", "2"], "--window"),
    (&["--window"], "--window"),
    (&["--window", ""], ""),
    (&["--window", "x"], "x"),
    (&["--window", "-1"], "-1"),
    (&["--window", "2 "], "2 "),
    (
        &["--window", "18446744073709551616"],
        "18446744073709551616",
    ),
    (&["--window", "2", "--last"], "--last"),
    (&["--window", "x", "--last"], "x"),
    (&["last"], "last"),
    (&[""], ""),
];

/// Checks that wrong arguments are told, and that nothing is written.
fn check_wrong(rt: &impl Abort, alloc: Global, words: &[&str], word: &str) {
    let words = given!(rt; arguments(alloc, words));
    let mut output = Vec::new(alloc);
    let mut faults = Vec::new(alloc);
    let status = run_in_memory(
        alloc,
        &NUMBERS,
        words.as_slice(),
        b"a\n",
        &mut output,
        &mut faults,
    );
    let usage = "usage: dedup [--last | --window N | --help] < FILE";
    let told = given!(rt; format!(in alloc; "dedup: wrong arguments: {word}; {usage}\n"));
    check_eq!(rt; (faults.as_slice(), status, output.len()), (told.as_bytes(), 2, 0));
}

/// Checks all wrong arguments.
fn check_each_wrong(rt: &impl Abort, alloc: Global) {
    for (words, word) in WRONG {
        check_wrong(rt, alloc, words, word);
    }
}

#[test]
fn wrong_arguments(rt: HostRuntime) {
    check_each_wrong(&rt, rt.alloc());
}
