//! Readers and writers that fail.

use super::refusals::say_if_given;
use super::support::checks::{check_eq, given};
use super::support::fakes::{FEW_WRITTEN, NEVER, Output, Sink, Source};
use crate::run;
use std::alloc::{AllocError, Global};
use std::io::ErrorKind;
use std::process::Abort;

/// An input that fills the buffer of a read several times, and the output of its run.
fn long_run(alloc: Global) -> Result<(Vec<u8>, Vec<u8>), AllocError> {
    let mut input = Vec::new(alloc);
    let mut output = Vec::new(alloc);
    for _ in 0..1200 {
        input.extend_from_slice(b"insert 7 70\nremove 7\n")?;
        output.extend_from_slice(b"new len=1 cap=1\nold 70 len=0 cap=1\n")?;
    }
    output.extend_from_slice(b"list\n")?;
    Ok((input, output))
}

/// Checks that a run ends at a read that fails, and writes nothing.
fn check_failed_read(rt: &impl Abort, alloc: Global, input: &[u8], fails_at: usize) {
    let mut reader = Source::new(input);
    reader.most = usize::MAX;
    reader.calls.fails_at = fails_at;
    let mut writer = Output::new(alloc, usize::MAX, NEVER);
    let mut faults = Sink::new();
    let status = run(alloc, &mut reader, &mut writer, &mut faults);
    check_eq!(rt;
        (fails_at, status, writer.calls.made, faults.text()),
        (fails_at, 4, 0, "input failed\n")
    );
}

/// Checks that a run reads its whole input if a sixth read would fail.
fn check_whole_read(rt: &impl Abort, alloc: Global, input: &[u8], output: &[u8]) {
    let mut reader = Source::new(input);
    reader.most = usize::MAX;
    reader.calls.fails_at = 6;
    let mut writer = Output::new(alloc, usize::MAX, NEVER);
    let mut faults = Sink::new();
    let status = run(alloc, &mut reader, &mut writer, &mut faults);
    check_eq!(rt; (status, reader.calls.made, faults.text()), (0, 5, ""));
    check_eq!(rt; writer.bytes.as_slice(), output);
}

/// Checks a run at each read that can fail. An input of 25,200 bytes has five: three fill the
/// buffer of 8,192, the fourth gives the rest, and the fifth finds the end.
fn check_failed_reads(rt: &impl Abort, alloc: Global, input: &[u8]) {
    for fails_at in 1..=5usize {
        check_failed_read(rt, alloc, input, fails_at);
    }
}

#[test]
fn reads_that_fail(rt: HostRuntime) {
    let (input, output) = given!(rt; long_run(rt.alloc()));
    check_failed_reads(&rt, rt.alloc(), input.as_slice());
    check_whole_read(&rt, rt.alloc(), input.as_slice(), output.as_slice());
}

/// Checks that a read that is interrupted changes nothing.
fn check_interrupted(rt: &impl Abort, alloc: Global, fails_at: usize) {
    let mut reader = Source::new(b"insert 1 10\n");
    reader.calls.interrupt(fails_at);
    let mut output = Sink::new();
    let mut faults = Sink::new();
    let status = run(alloc, &mut reader, &mut output, &mut faults);
    check_eq!(rt;
        (fails_at, status, output.text()),
        (fails_at, 0, "new len=1 cap=1\nlist 1:10\n")
    );
}

/// Checks a run that is interrupted at each of its first five reads.
fn check_each_interrupted(rt: &impl Abort, alloc: Global) {
    for fails_at in 1..=5usize {
        check_interrupted(rt, alloc, fails_at);
    }
}

#[test]
fn interrupted_reads_are_tried_again(rt: HostRuntime) {
    check_each_interrupted(&rt, rt.alloc());
}

/// The kinds of errors, except that of a call that is tried again.
const KINDS: [ErrorKind; 41] = [
    ErrorKind::NotFound,
    ErrorKind::PermissionDenied,
    ErrorKind::ConnectionRefused,
    ErrorKind::ConnectionReset,
    ErrorKind::HostUnreachable,
    ErrorKind::NetworkUnreachable,
    ErrorKind::ConnectionAborted,
    ErrorKind::NotConnected,
    ErrorKind::AddrInUse,
    ErrorKind::AddrNotAvailable,
    ErrorKind::NetworkDown,
    ErrorKind::BrokenPipe,
    ErrorKind::AlreadyExists,
    ErrorKind::WouldBlock,
    ErrorKind::NotADirectory,
    ErrorKind::IsADirectory,
    ErrorKind::DirectoryNotEmpty,
    ErrorKind::ReadOnlyFilesystem,
    ErrorKind::FilesystemLoop,
    ErrorKind::StaleNetworkFileHandle,
    ErrorKind::InvalidInput,
    ErrorKind::InvalidData,
    ErrorKind::TimedOut,
    ErrorKind::WriteZero,
    ErrorKind::StorageFull,
    ErrorKind::NotSeekable,
    ErrorKind::QuotaExceeded,
    ErrorKind::FileTooLarge,
    ErrorKind::ResourceBusy,
    ErrorKind::ExecutableFileBusy,
    ErrorKind::Deadlock,
    ErrorKind::CrossesDevices,
    ErrorKind::TooManyLinks,
    ErrorKind::InvalidFilename,
    ErrorKind::ArgumentListTooLong,
    ErrorKind::Unsupported,
    ErrorKind::UnexpectedEof,
    ErrorKind::OutOfMemory,
    ErrorKind::InProgress,
    ErrorKind::Other,
    ErrorKind::Uncategorized,
];

/// Checks that a run ends at a read and at a write or a flush that fails by an error of a kind, and
/// makes no further one, though it would work: the output is written by one call and flushed by
/// another.
fn check_kind(rt: &impl Abort, alloc: Global, kind: ErrorKind, fails_at: usize) {
    let mut reader = Source::new(b"insert 1 10\n");
    reader.calls.fail(fails_at, kind);
    let mut writer = Output::new(alloc, usize::MAX, NEVER);
    let status = run(alloc, &mut reader, &mut writer, &mut Sink::new());
    check_eq!(rt; (status, reader.calls.made, writer.calls.made), (4, fails_at, 0));
    let mut whole = Source::new(b"insert 1 10\n");
    writer.calls.fail(fails_at, kind);
    let status = run(alloc, &mut whole, &mut writer, &mut Sink::new());
    check_eq!(rt; (status, writer.calls.made), (4, fails_at));
}

/// Checks each kind at the first call and at the second.
fn check_kinds(rt: &impl Abort, alloc: Global) {
    for kind in KINDS {
        check_kind(rt, alloc, kind, 1);
        check_kind(rt, alloc, kind, 2);
    }
}

#[test]
fn errors_of_each_kind_end_a_run(rt: HostRuntime) {
    check_kinds(&rt, rt.alloc());
}

/// A call of a writer at which it fails, how many bytes it has taken by then, and the status and
/// the faults of the run.
type FailedWrite = (usize, usize, u8, &'static str);

/// The calls of a writer that takes 42,005 bytes, 10,000 at a time: five writes and a flush. A
/// seventh is never made.
const FAILED_WRITES: [FailedWrite; 7] = [
    (1, 0, 4, "output failed\n"),
    (2, 10_000, 4, "output failed\n"),
    (3, 20_000, 4, "output failed\n"),
    (4, 30_000, 4, "output failed\n"),
    (5, 40_000, 4, "output failed\n"),
    (6, 42_005, 4, "output failed\n"),
    (7, 42_005, 0, ""),
];

/// Checks that what went out before a write failed is a beginning of the output.
fn check_failed_write(
    rt: &impl Abort,
    alloc: Global,
    input: &[u8],
    output: &[u8],
    wanted: FailedWrite,
) {
    let mut reader = Source::new(input);
    let mut writer = Output::new(alloc, 10_000, wanted.0);
    let mut faults = Sink::new();
    let status = run(alloc, &mut reader, &mut writer, &mut faults);
    let written = writer.bytes.as_slice();
    check_eq!(rt; (wanted.0, written.len(), status, faults.text()), wanted);
    check_eq!(rt; (wanted.0, output.starts_with(written)), (wanted.0, true));
}

/// Checks a run at each write that can fail, and at none.
fn check_failed_writes(rt: &impl Abort, alloc: Global, input: &[u8], output: &[u8]) {
    for wanted in FAILED_WRITES {
        check_failed_write(rt, alloc, input, output, wanted);
    }
}

#[test]
fn writes_that_fail(rt: HostRuntime) {
    let (input, output) = given!(rt; long_run(rt.alloc()));
    check_failed_writes(&rt, rt.alloc(), input.as_slice(), output.as_slice());
}

/// A run that stops: the calls at which reading and writing fail.
#[derive(Clone, Copy)]
struct Stopped {
    input: &'static str,
    read_fails_at: usize,
    write_fails_at: usize,
    status: u8,
    fault: &'static str,
}

const STOPPED: [Stopped; 3] = [
    Stopped {
        input: "remove\n",
        read_fails_at: NEVER,
        write_fails_at: NEVER,
        status: 2,
        fault: "line 1: not a command\n",
    },
    Stopped {
        input: "remove 1\n",
        read_fails_at: 1,
        write_fails_at: NEVER,
        status: 4,
        fault: "input failed\n",
    },
    Stopped {
        input: "remove 1\n",
        read_fails_at: NEVER,
        write_fails_at: 1,
        status: 4,
        fault: "output failed\n",
    },
];

/// Checks that a run stops with its status and writes no output, and tells a beginning of its
/// fault. Returns how long this is, and how many calls of the writer of faults it took.
fn check_stopped(
    rt: &impl Abort,
    alloc: Global,
    stopped: Stopped,
    fails_at: usize,
) -> (usize, usize) {
    let mut reader = Source::new(stopped.input.as_bytes());
    reader.calls.fails_at = stopped.read_fails_at;
    let mut writer = Output::new(alloc, usize::MAX, stopped.write_fails_at);
    let mut faults = Output::new(alloc, FEW_WRITTEN, fails_at);
    let status = run(alloc, &mut reader, &mut writer, &mut faults);
    let told = faults.bytes.as_slice();
    let begins = stopped.fault.as_bytes().starts_with(told);
    check_eq!(rt;
        (fails_at, status, writer.bytes.len(), begins),
        (fails_at, stopped.status, 0, true)
    );
    (told.len(), faults.calls.made)
}

/// Checks that a run tells its whole fault. Returns how many calls of their writer it took.
fn check_told(rt: &impl Abort, alloc: Global, stopped: Stopped) -> usize {
    let (told, calls) = check_stopped(rt, alloc, stopped, NEVER);
    check_eq!(rt; told, stopped.fault.len());
    calls
}

/// Checks that a run makes no further call of the writer of faults once one has failed.
fn check_untold(rt: &impl Abort, alloc: Global, stopped: Stopped, fails_at: usize) {
    let (_told, calls) = check_stopped(rt, alloc, stopped, fails_at);
    check_eq!(rt; calls, fails_at);
}

/// Checks a run that tells its fault, and runs in which each call of the writer of faults fails.
fn check_each_fault(rt: &impl Abort, alloc: Global, stopped: Stopped) {
    for fails_at in 1..=check_told(rt, alloc, stopped) {
        check_untold(rt, alloc, stopped, fails_at);
    }
}

#[test]
fn faults_that_fail_change_no_status(rt: HostRuntime) {
    let [invalid, unread, unwritten] = STOPPED;
    check_each_fault(&rt, rt.alloc(), invalid);
    check_each_fault(&rt, rt.alloc(), unread);
    check_each_fault(&rt, rt.alloc(), unwritten);
}

/// Checks a run of no commands whose writer of faults fails at a call. It ends out of memory, tells
/// a beginning of that fault and makes no further call of the writer; or no growth was
/// refused. Tells whether none was.
fn check_out_of_memory(rt: &impl Abort, alloc: Global, fails_at: usize) -> bool {
    let mut reader = Source::new(b"");
    let mut output = Sink::new();
    let mut faults = Sink::new();
    faults.calls.fails_at = fails_at;
    let status = run(alloc, &mut reader, &mut output, &mut faults);
    if status == 0 {
        check_eq!(rt; (output.text(), faults.calls.made), ("list\n", 0));
        return true;
    }
    let begins = "out of memory\n".starts_with(faults.written());
    check_eq!(rt;
        (fails_at, status, output.text(), begins, faults.calls.made),
        (fails_at, 3, "", true, fails_at)
    );
    false
}

/// Checks such a run at each of the first three calls of the writer: the 14 bytes of the fault take
/// two writes at least, and then comes a flush.
fn check_each_out_of_memory(rt: &impl Abort, alloc: Global) -> bool {
    let mut given = true;
    for fails_at in 1..=3usize {
        given &= check_out_of_memory(rt, alloc, fails_at);
    }
    given
}

#[test]
fn refused_growth_is_a_fault_that_fails(rt: HostRuntime) {
    // Each of the three runs asks for the text of its list.
    say_if_given(&rt, check_each_out_of_memory(&rt, rt.alloc()), 3);
}
