//! Worked examples.

use super::support::checks::{check_eq, given};
use super::support::fakes::{Sink, Source};
use crate::{run, run_in_memory};
use std::alloc::{AllocError, Global};
use std::process::Abort;

/// Inputs of commands, and the output of each run.
const DONE: [(&str, &str); 30] = [
    ("", "list\n"),
    ("popfront\n", "empty len=0 cap=0\nlist\n"),
    (
        "insert 2 20\ninsert 1 10\ninsert 3 30\n",
        "new len=1 cap=1\nnew len=2 cap=2\nnew len=3 cap=3\nlist 2:20 1:10 3:30\n",
    ),
    (
        "insert 1 10\ninsert 2 20\ninsert 1 11\n",
        "new len=1 cap=1\nnew len=2 cap=2\nold 10 len=2 cap=2\nlist 2:20 1:11\n",
    ),
    (
        "insert 1 1\ninsert 2 2\ninsert 3 3\nremove 2\ninsert 4 4\n",
        "new len=1 cap=1\nnew len=2 cap=2\nnew len=3 cap=3\nold 2 len=2 cap=3\nnew len=3 cap=3\nlist 1:1 3:3 4:4\n",
    ),
    (
        "insert 2 20\ninsert 1 10\n",
        "new len=1 cap=1\nnew len=2 cap=2\nlist 2:20 1:10\n",
    ),
    (
        "remove 1\ninsert 01 5\nremove 1\nremove 1\n",
        "missing len=0 cap=0\nnew len=1 cap=1\nold 5 len=0 cap=1\nmissing len=0 cap=1\nlist\n",
    ),
    (
        "insert 1 1\ninsert 2 2\ninsert 3 3\nrefresh 2\nrefresh 9\n",
        "new len=1 cap=1\nnew len=2 cap=2\nnew len=3 cap=3\nfound len=3 cap=3\nmissing len=3 cap=3\nlist 1:1 3:3 2:2\n",
    ),
    (
        "insert 7 70\npopback\npopfront\n",
        "new len=1 cap=1\npair 7 70 len=0 cap=1\nempty len=0 cap=1\nlist\n",
    ),
    (
        "insert 1 1\ninsert 2 2\npopback\nclear\ninsert 3 3\n",
        "new len=1 cap=1\nnew len=2 cap=2\npair 2 2 len=1 cap=2\ndone len=0 cap=2\nnew len=1 cap=2\nlist 3:3\n",
    ),
    (
        "insert 1 1\ninsert 2 2\nclear\n",
        "new len=1 cap=1\nnew len=2 cap=2\ndone len=0 cap=2\nlist\n",
    ),
    (
        "insert 1 10\ninsert 2 20\nwrite 1 5\nwrite 9 0\neput 1 6\n",
        "new len=1 cap=1\nnew len=2 cap=2\nold 10 len=2 cap=2\nabsent 9 0 len=2 cap=2\nold 5 len=2 cap=2\nlist 2:20 1:6\n",
    ),
    (
        "insert 1 10\ninsert 2 20\norinsert 1 5\n",
        "new len=1 cap=1\nnew len=2 cap=2\nfound len=2 cap=2\nlist 1:10 2:20\n",
    ),
    (
        "orinsert 1 5\neput 1 6\neput 2 7\neremove 1\neremove 1\n",
        "new len=1 cap=1\nold 5 len=1 cap=1\nnew len=2 cap=2\nold 6 len=1 cap=2\nmissing len=1 cap=2\nlist 2:7\n",
    ),
    (
        "insert 1 1\ninsert 2 2\ndrain\ninsert 3 3\n",
        "new len=1 cap=1\nnew len=2 cap=2\npairs 1:1 2:2 len=0 cap=2\nnew len=1 cap=2\nlist 3:3\n",
    ),
    (
        "drain\ninsert 1 1\ndrain\ndrain\n",
        "pairs len=0 cap=0\nnew len=1 cap=1\npairs 1:1 len=0 cap=1\npairs len=0 cap=1\nlist\n",
    ),
    (
        "extend 1 10 2 20 1 30\n",
        "done len=2 cap=2\nlist 2:20 1:30\n",
    ),
    (
        "insert 1 1\nextend 2 2 1 3\n",
        "new len=1 cap=1\ndone len=2 cap=2\nlist 2:2 1:3\n",
    ),
    (
        "\nextend\norinsert 5 50\neremove 5\neremove 5\npopback",
        "done len=0 cap=0\nnew len=1 cap=1\nold 50 len=0 cap=1\nmissing len=0 cap=1\nempty len=0 cap=1\nlist\n",
    ),
    (
        "reserve 3\ninsert 1 1\nreserve 18446744073709551615\nshrink\n",
        "done len=0 cap=3\nnew len=1 cap=3\ntoolarge len=1 cap=3\ndone len=1 cap=1\nlist 1:1\n",
    ),
    (
        "reserve 2\nreserve 1\ninsert 1 1\ninsert 2 2\nreserve 1\nremove 1\nshrink\nremove 2\nshrink\n",
        "done len=0 cap=2\ndone len=0 cap=2\nnew len=1 cap=2\nnew len=2 cap=2\ndone len=2 cap=3\nold 1 len=1 cap=3\ndone len=1 cap=1\nold 2 len=0 cap=1\ndone len=0 cap=0\nlist\n",
    ),
    (
        "reserve 0\nshrink\nreserve 576460752303423489\ninsert 1 1\nreserve 576460752303423488\n",
        "done len=0 cap=0\ndone len=0 cap=0\ntoolarge len=0 cap=0\nnew len=1 cap=1\ntoolarge len=1 cap=1\nlist 1:1\n",
    ),
    // A growth that no allocator gives.
    ("reserve 576460752303423488\n", "noroom len=0 cap=0\nlist\n"),
    // In mode keep an insertion leaves the place of a pair that is there, and a refresh moves it.
    (
        "mode keep\ninsert 1 10\ninsert 2 20\ninsert 1 11\n",
        "done len=0 cap=0\nnew len=1 cap=1\nnew len=2 cap=2\nold 10 len=2 cap=2\nlist 1:11 2:20\n",
    ),
    (
        "mode keep\ninsert 1 10\ninsert 2 20\ninsert 1 11\nrefresh 1\n",
        "done len=0 cap=0\nnew len=1 cap=1\nnew len=2 cap=2\nold 10 len=2 cap=2\nfound len=2 cap=2\nlist 2:20 1:11\n",
    ),
    (
        "insert 1 1\ninsert 2 2\nmode keep\neput 1 5\nextend 2 9 3 3\nmode touch\ninsert 1 6\n",
        "new len=1 cap=1\nnew len=2 cap=2\ndone len=2 cap=2\nold 1 len=2 cap=2\ndone len=3 cap=3\ndone len=3 cap=3\nold 5 len=3 cap=3\nlist 2:9 3:3 1:6\n",
    ),
    (
        "mode keep\ninsert 1 1\ninsert 2 2\nremove 1\ninsert 1 3\n",
        "done len=0 cap=0\nnew len=1 cap=1\nnew len=2 cap=2\nold 1 len=1 cap=2\nnew len=2 cap=2\nlist 2:2 1:3\n",
    ),
    // Any of the three separators stands between words and at the ends, lines may be blank, and the
    // last line may lack its newline.
    (
        "\n \t\r\n\tinsert\r1 \t10\r\n  remove 1",
        "new len=1 cap=1\nold 10 len=0 cap=1\nlist\n",
    ),
    // The longest answers of one pair.
    (
        "write 18446744073709551615 18446744073709551614\norinsert 18446744073709551615 18446744073709551614\npopback\n",
        "absent 18446744073709551615 18446744073709551614 len=0 cap=0\nnew len=1 cap=1\npair 18446744073709551615 18446744073709551614 len=0 cap=1\nlist\n",
    ),
    // The largest number, with a leading zero.
    (
        "insert 018446744073709551615 18446744073709551615\n",
        "new len=1 cap=1\nlist 18446744073709551615:18446744073709551615\n",
    ),
];

/// Inputs with a line that is no command, and what is told of it.
const INVALID: [(&[u8], &str); 32] = [
    (
        b"insert 18446744073709551615 1\n\ninsert 18446744073709551616 1\ninsert 5\n",
        "line 3: not a command\n",
    ),
    (b"popmiddle\n", "line 1: not a command\n"),
    (b"drain 1\n", "line 1: not a command\n"),
    (b"extend 1\n", "line 1: not a command\n"),
    (b"extend 1 2 3\n", "line 1: not a command\n"),
    (b"extend 1 2 3 x\n", "line 1: not a command\n"),
    (b"orinsert 1\n", "line 1: not a command\n"),
    (b"eput\n", "line 1: not a command\n"),
    (b"eremove 1 2\n", "line 1: not a command\n"),
    (b"popfront 1\n", "line 1: not a command\n"),
    (b"clear all\n", "line 1: not a command\n"),
    (b"write 1\n", "line 1: not a command\n"),
    (b"refresh\n", "line 1: not a command\n"),
    (b"reserve\n", "line 1: not a command\n"),
    (b"shrink 1\n", "line 1: not a command\n"),
    (b"insert\n", "line 1: not a command\n"),
    (b"insert 1", "line 1: not a command\n"),
    (b"insert 1 2 3\n", "line 1: not a command\n"),
    (b"remove\n", "line 1: not a command\n"),
    (b"remove 1 2\n", "line 1: not a command\n"),
    (b"Insert 1 2\n", "line 1: not a command\n"),
    (b"inserts 1 2\n", "line 1: not a command\n"),
    (b"insert +1 2\n", "line 1: not a command\n"),
    (b"insert 1 -2\n", "line 1: not a command\n"),
    (b"insert 1,2\n", "line 1: not a command\n"),
    (b"mode\n", "line 1: not a command\n"),
    (b"mode fast\n", "line 1: not a command\n"),
    (b"mode touch keep\n", "line 1: not a command\n"),
    // A vertical tab separates nothing.
    (b"remove\x0b1\n", "line 1: not a command\n"),
    // Bytes that are not UTF-8, in a name and in a number.
    (b"\n\xff\xfe 1\n", "line 2: not a command\n"),
    (b"insert 1 2\nremove \xc3\n", "line 2: not a command\n"),
    (b"\r\n\n \nx", "line 4: not a command\n"),
];

/// Checks one run over memory against its status, its output and its faults.
fn check_run(rt: &impl Abort, alloc: Global, input: &[u8], wanted: (u8, &str, &str)) {
    let mut reader = Source::new(input);
    let mut writer = Sink::new();
    let mut faults = Sink::new();
    let status = run(alloc, &mut reader, &mut writer, &mut faults);
    check_eq!(rt; (status, writer.text(), faults.text()), wanted);
}

/// Checks that runs write their outputs, and tell no fault.
fn check_outputs(rt: &impl Abort, alloc: Global, rows: &[(&str, &str)]) {
    for (input, output) in rows {
        check_run(rt, alloc, input.as_bytes(), (0, output, ""));
    }
}

/// Checks that runs tell of a line that is no command, and write nothing.
fn check_faults(rt: &impl Abort, alloc: Global, rows: &[(&[u8], &str)]) {
    for (input, faults) in rows {
        check_run(rt, alloc, input, (2, "", faults));
    }
}

#[test]
fn runs_done(rt: HostRuntime) {
    check_outputs(&rt, rt.alloc(), &DONE);
}

#[test]
fn lines_that_are_no_command(rt: HostRuntime) {
    check_faults(&rt, rt.alloc(), &INVALID);
}

/// Commands that make room for two pairs, and then put a thousand in and take each out at once, and
/// the output of their run. The pairs are 0:0 to 999:999.
fn thousand_pairs(alloc: Global) -> Result<(Vec<u8>, Vec<u8>), AllocError> {
    let mut input = Vec::new(alloc);
    let mut output = Vec::new(alloc);
    input.extend_from_slice(b"reserve 2\n")?;
    output.extend_from_slice(b"done len=0 cap=2\n")?;
    for key in 0..1000u64 {
        let commands = format!(in alloc; "insert {key} {key}\npopfront\n")?;
        input.extend_from_slice(commands.as_bytes())?;
        let answers = format!(in alloc; "new len=1 cap=2\npair {key} {key} len=0 cap=2\n")?;
        output.extend_from_slice(answers.as_bytes())?;
    }
    output.extend_from_slice(b"list\n")?;
    Ok((input, output))
}

/// Checks that a run of any length writes its output, and tells no fault.
fn check_long_run(rt: &impl Abort, alloc: Global, input: &[u8], output: &[u8]) {
    let mut written = Vec::new(alloc);
    let mut faults = Vec::new(alloc);
    let status = run_in_memory(alloc, input, &mut written, &mut faults);
    check_eq!(rt; (status, faults.len()), (0, 0));
    check_eq!(rt; written.as_slice(), output);
}

#[test]
fn a_thousand_pairs_come_and_go_in_room_for_two(rt: HostRuntime) {
    let (input, output) = given!(rt; thousand_pairs(rt.alloc()));
    check_long_run(&rt, rt.alloc(), input.as_slice(), output.as_slice());
}

/// The first of a thousand numbers of 20 digits.
const LARGE: u64 = 18_446_744_073_709_550_000;

/// A line that puts a thousand pairs of numbers of 20 digits in, a drain, and the first line again,
/// and the output of their run: a list of 42,000 bytes in an answer, and one at the end.
fn long_lines(alloc: Global) -> Result<(String, String), AllocError> {
    let mut words = String::new(alloc);
    let mut pairs = String::new(alloc);
    for key in LARGE..LARGE + 1000 {
        let value = key + 500;
        write!(words, " {key} {value}")?;
        write!(pairs, " {key}:{value}")?;
    }
    let words = words.as_str();
    let pairs = pairs.as_str();
    let input = format!(in alloc; "extend{words}\ndrain\nextend{words}\n")?;
    let done = "done len=1000 cap=1000\n";
    let output = format!(in alloc; "{done}pairs{pairs} len=0 cap=1000\n{done}list{pairs}\n")?;
    Ok((input, output))
}

#[test]
fn long_lines_have_long_answers(rt: HostRuntime) {
    let (input, output) = given!(rt; long_lines(rt.alloc()));
    check_long_run(&rt, rt.alloc(), input.as_bytes(), output.as_bytes());
}
