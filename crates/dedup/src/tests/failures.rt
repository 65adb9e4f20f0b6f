//! Readers and writers that fail.

use super::runs::HELP;
use super::support::checks::{check_eq, given};
use super::support::numbers::{NUMBERS, Numbers};
use super::support::streams::{NEVER, Output, Source};
use super::support::words::arguments;
use crate::{drop_output, run};
use std::alloc::Global;
use std::io::{BufReader, BufWriter, ErrorKind};
use std::process::Abort;

/// The input of each run. A reader with a buffer of four bytes gives it in three reads, and the
/// fourth finds its end.
const INPUT: &[u8] = b"a\nb\na\nbc\nb";

const BUFFER_LEN: usize = 4;

/// Checks a run whose reader fails at a call by an error of a kind: its status, what is written by
/// then, and the fault.
fn check_read(
    rt: &impl Abort,
    alloc: Global,
    words: &[&str],
    failing: (usize, ErrorKind),
    wanted: (u8, &[u8], &[u8]),
) {
    let words = given!(rt; arguments(alloc, words));
    let source = Source::new(INPUT, failing.0, failing.1);
    let mut input = given!(rt; BufReader::with_capacity(alloc, BUFFER_LEN, source));
    let mut output = Output::new(alloc, NEVER, ErrorKind::Other);
    let mut faults = Output::new(alloc, NEVER, ErrorKind::Other);
    let (status, _stop, _told) = run(
        alloc,
        &NUMBERS,
        words.as_slice(),
        &mut input,
        &mut output,
        &mut faults,
    );
    check_eq!(rt;
        (failing.0, status, output.bytes.as_slice(), faults.bytes.as_slice()),
        (failing.0, wanted.0, wanted.1, wanted.2)
    );
}

#[test]
fn reads_that_fail(rt: HostRuntime) {
    let alloc = rt.alloc();
    let told = b"dedup: input failed: other error\n";
    check_read(&rt, alloc, &[], (1, ErrorKind::Other), (4, b"", told));
    check_read(
        &rt,
        alloc,
        &[],
        (2, ErrorKind::IsADirectory),
        (4, b"a\nb\n", b"dedup: input failed: is a directory\n"),
    );
    check_read(
        &rt,
        alloc,
        &[],
        (1, ErrorKind::Uncategorized),
        (
            4,
            b"",
            b"dedup: input failed: not open, or an unknown error\n",
        ),
    );
    check_read(
        &rt,
        alloc,
        &[],
        (4, ErrorKind::Other),
        (4, b"a\nb\nbc\n", told),
    );
    check_read(
        &rt,
        alloc,
        &["--last"],
        (2, ErrorKind::Other),
        (4, b"", told),
    );
    check_read(
        &rt,
        alloc,
        &["--window", "1"],
        (4, ErrorKind::Other),
        (4, b"a\nb\na\nbc\n", told),
    );
    check_read(
        &rt,
        alloc,
        &[],
        (9, ErrorKind::Other),
        (0, b"a\nb\nbc\n", b""),
    );
}

#[test]
fn interrupted_reads_are_tried_again(rt: HostRuntime) {
    let alloc = rt.alloc();
    check_read(
        &rt,
        alloc,
        &[],
        (1, ErrorKind::Interrupted),
        (0, b"a\nb\nbc\n", b""),
    );
    check_read(
        &rt,
        alloc,
        &[],
        (3, ErrorKind::Interrupted),
        (0, b"a\nb\nbc\n", b""),
    );
    check_read(
        &rt,
        alloc,
        &["--last"],
        (4, ErrorKind::Interrupted),
        (0, b"a\nbc\nb\n", b""),
    );
}

#[test]
fn reads_without_memory(rt: HostRuntime) {
    let told = b"dedup: out of memory\n";
    check_read(
        &rt,
        rt.alloc(),
        &[],
        (1, ErrorKind::OutOfMemory),
        (3, b"", told),
    );
}

/// Checks a run whose writer fails at a call by an error of a kind. A line and its line feed are
/// two writes, and a flush comes last.
fn check_write(
    rt: &impl Abort,
    alloc: Global,
    words: &[&str],
    failing: (usize, ErrorKind),
    wanted: (&[u8], &[u8]),
) {
    let words = given!(rt; arguments(alloc, words));
    let mut input = INPUT;
    let mut output = Output::new(alloc, failing.0, failing.1);
    let mut faults = Output::new(alloc, NEVER, ErrorKind::Other);
    let (status, _stop, _told) = run(
        alloc,
        &NUMBERS,
        words.as_slice(),
        &mut input,
        &mut output,
        &mut faults,
    );
    check_eq!(rt;
        (output.bytes.as_slice(), output.calls.made, status, faults.bytes.as_slice()),
        (wanted.0, failing.0, 4, wanted.1)
    );
}

#[test]
fn writes_that_fail(rt: HostRuntime) {
    let alloc = rt.alloc();
    let told = b"dedup: output failed: other error\n";
    check_write(&rt, alloc, &[], (1, ErrorKind::Other), (b"", told));
    check_write(&rt, alloc, &[], (2, ErrorKind::Other), (b"a", told));
    check_write(
        &rt,
        alloc,
        &[],
        (5, ErrorKind::StorageFull),
        (b"a\nb\n", b"dedup: output failed: no storage space\n"),
    );
    check_write(
        &rt,
        alloc,
        &[],
        (7, ErrorKind::Other),
        (b"a\nb\nbc\n", told),
    );
    check_write(
        &rt,
        alloc,
        &["--last"],
        (3, ErrorKind::Other),
        (b"a\n", told),
    );
    check_write(
        &rt,
        alloc,
        &["--last"],
        (7, ErrorKind::Other),
        (b"a\nbc\nb\n", told),
    );
}

#[test]
fn closed_pipes_are_not_told(rt: HostRuntime) {
    let alloc = rt.alloc();
    let closed = ErrorKind::BrokenPipe;
    check_write(&rt, alloc, &[], (1, closed), (b"", b""));
    check_write(&rt, alloc, &[], (4, closed), (b"a\nb", b""));
    check_write(&rt, alloc, &[], (7, closed), (b"a\nb\nbc\n", b""));
    check_write(&rt, alloc, &["--last"], (2, closed), (b"a", b""));
    check_write(&rt, alloc, &["--help"], (1, closed), (b"", b""));
}

#[test]
fn help_that_fails(rt: HostRuntime) {
    let told = b"dedup: output failed: other error\n";
    check_write(
        &rt,
        rt.alloc(),
        &["--help"],
        (1, ErrorKind::Other),
        (b"", told),
    );
}

/// Checks what a writer gets from a buffer with room for all lines, and in how many calls, after a
/// run whose reader or writer fails at a call.
fn check_drop(rt: &impl Abort, alloc: Global, read: usize, write: usize, wanted: (&[u8], usize)) {
    let source = Source::new(INPUT, read, ErrorKind::Other);
    let mut input = given!(rt; BufReader::with_capacity(alloc, BUFFER_LEN, source));
    let mut output = Output::new(alloc, write, ErrorKind::Other);
    let mut buffer = given!(rt; BufWriter::with_capacity(alloc, INPUT.len(), &mut output));
    let mut faults = Output::new(alloc, NEVER, ErrorKind::Other);
    let (_status, written, _told) = run(alloc, &NUMBERS, &[], &mut input, &mut buffer, &mut faults);
    drop_output(buffer, &written);
    check_eq!(rt; (output.bytes.as_slice(), output.calls.made), wanted);
}

#[test]
fn nothing_is_written_after_a_write_that_failed(rt: HostRuntime) {
    let alloc = rt.alloc();
    check_drop(&rt, alloc, NEVER, 1, (b"", 1));
    check_drop(&rt, alloc, NEVER, 2, (b"a\nb\nbc\n", 2));
}

#[test]
fn lines_before_a_failed_read_are_written(rt: HostRuntime) {
    check_drop(&rt, rt.alloc(), 2, NEVER, (b"a\nb\n", 1));
}

/// Checks that a writer of faults that fails changes no status.
fn check_fault(rt: &impl Abort, alloc: Global, fails_at: usize) {
    let words = given!(rt; arguments(alloc, &["--first"]));
    let mut input = INPUT;
    let mut output = Output::new(alloc, NEVER, ErrorKind::Other);
    let mut faults = Output::new(alloc, fails_at, ErrorKind::Other);
    let (status, _stop, _told) = run(
        alloc,
        &NUMBERS,
        words.as_slice(),
        &mut input,
        &mut output,
        &mut faults,
    );
    check_eq!(rt; (status, output.calls.made, faults.calls.made), (2, 0, fails_at));
}

#[test]
fn faults_that_fail_change_no_status(rt: HostRuntime) {
    check_fault(&rt, rt.alloc(), 1);
    check_fault(&rt, rt.alloc(), 2);
    // The flush, behind three writes.
    check_fault(&rt, rt.alloc(), 4);
}

/// Checks the status, the output and the fault of a run that gets no random numbers.
fn check_seed(
    rt: &impl Abort,
    alloc: Global,
    words: &[&str],
    kind: ErrorKind,
    wanted: (u8, &[u8], &[u8]),
) {
    let words = given!(rt; arguments(alloc, words));
    let random = Numbers {
        byte: 7,
        fails: Some(kind),
    };
    let mut input = INPUT;
    let mut output = Output::new(alloc, NEVER, ErrorKind::Other);
    let mut faults = Output::new(alloc, NEVER, ErrorKind::Other);
    let (status, _stop, _told) = run(
        alloc,
        &random,
        words.as_slice(),
        &mut input,
        &mut output,
        &mut faults,
    );
    check_eq!(rt; (status, output.bytes.as_slice(), faults.bytes.as_slice()), wanted);
}

#[test]
fn seeds_that_fail(rt: HostRuntime) {
    let alloc = rt.alloc();
    let told = b"dedup: no random seed: unsupported\n";
    check_seed(&rt, alloc, &[], ErrorKind::Unsupported, (4, b"", told));
    check_seed(
        &rt,
        alloc,
        &["--last"],
        ErrorKind::OutOfMemory,
        (3, b"", b"dedup: out of memory\n"),
    );
}

#[test]
fn help_and_wrong_arguments_need_no_seed(rt: HostRuntime) {
    let alloc = rt.alloc();
    let told = b"dedup: wrong arguments: -h; usage: dedup [--last | --window N | --help] < FILE\n";
    check_seed(
        &rt,
        alloc,
        &["--help"],
        ErrorKind::Unsupported,
        (0, HELP, b""),
    );
    check_seed(&rt, alloc, &["-h"], ErrorKind::Unsupported, (2, b"", told));
}
